// Elements opened: their tag and length octets, and the search for an end marker. The readers and tests of the definitions in coding.
//
// A reader is given all the octets, a place and the end of the enclosing element. Its answer is a struct: a fault's number, or 0;
// the fault's place; the value; the place after it. After a fault the value and the next place are zero.
#![tactic(auto)]

ghost use Rattle.std.specs.Prelude.{ℕ, ◌≤◌, ◌<◌, ◌≡◌, List, length, get_or};
ghost use Rattle.coding.specs.Reader.{tagged, neither, extent, numbered_at, endless, marker, find_end, spanned, length_at, opened};
ghost use Rattle.coding.specs.inner.Shown.{shown};
ghost use Rattle.coding.specs.inner.Shortcut.{Short, short_at};
ghost use Rattle.read_lengths.specs.inner.Bounds.{Bounded, sought};

use coding::{Extent, refusal};

// An element that is opened.
#[derive(Drop)]
pub struct Opened {
    pub fault: u8,
    pub place: usize,
    pub value: Extent,
    pub next: usize,
}

// Whether the tag comes next.
pub fn is_tag(s: &[u8], at: usize, end: usize, tag: u8) -> bool
    requires { end ≤ length s.now }
    ensures { result ≡ tagged s.now at end tag }
{
    at < end && s[at] == tag
}

// A fault, and nothing opened.
pub fn halted(fault: u8, place: usize) -> Opened
    ensures { result ≡ record { fault = fault; place = place; value = record { start = 0; stop = 0 }; next = 0 } }
{
    Opened {
        fault,
        place,
        value: Extent { start: 0, stop: 0 },
        next: 0,
    }
}

// Contents from start to stop, and the place after their element.
pub fn found(start: usize, stop: usize, next: usize) -> Opened
    ensures { result ≡ record { fault = 0; place = 0; value = record { start = start; stop = stop }; next = next } }
{
    Opened {
        fault: 0,
        place: 0,
        value: Extent { start, stop },
        next,
    }
}

// Contents of n octets, inside the enclosing element.
fn within(tag: usize, start: usize, n: usize, end: usize) -> Opened
    requires { start ≤ end }
    ensures next_value { (result.fault, result.place, result.value, result.next) ≡ shown (record { start = 0; stop = 0 }) (extent tag start n end) }
    ensures inside { (result.value.start ≤ result.value.stop) × (result.value.stop ≤ end) }
{
    if end - start < n {
        return halted(refusal::LACKING, tag);
    }
    found(start, start + n, start + n)
}

// The number in the one octet after 81.
fn one_more(s: &[u8], tag: usize, at: usize, end: usize) -> Opened
    requires { (at < end) × (end ≤ length s.now) × (get_or s.now at 0 ≡ 0x81) }
    ensures next_value { (result.fault, result.place, result.value, result.next) ≡ shown (record { start = 0; stop = 0 }) (numbered_at tag s.now at end) }
    ensures inside { (result.value.start ≤ result.value.stop) × (result.value.stop ≤ end) }
{
    if end < at + 2 {
        return halted(refusal::LACKING, tag);
    }
    let n = octets::wide(s[at + 1]);
    within(tag, at + 2, n, end)
}

// The number in the two octets after 82.
fn two_more(s: &[u8], tag: usize, at: usize, end: usize) -> Opened
    requires { (at < end) × (end ≤ length s.now) × (get_or s.now at 0 ≡ 0x82) }
    ensures next_value { (result.fault, result.place, result.value, result.next) ≡ shown (record { start = 0; stop = 0 }) (numbered_at tag s.now at end) }
    ensures inside { (result.value.start ≤ result.value.stop) × (result.value.stop ≤ end) }
{
    if end < at + 3 {
        return halted(refusal::LACKING, tag);
    }
    let n = octets::wide(s[at + 1]) * 256 + octets::wide(s[at + 2]);
    within(tag, at + 3, n, end)
}

// Length octets with a number at a place, of the element whose tag is at tag.
pub fn numbered_at(s: &[u8], tag: usize, at: usize, end: usize) -> Opened
    requires { end ≤ length s.now }
    ensures next_value { (result.fault, result.place, result.value, result.next) ≡ shown (record { start = 0; stop = 0 }) (numbered_at tag s.now at end) }
    ensures inside { (result.value.start ≤ result.value.stop) × (result.value.stop ≤ end) }
{
    if end <= at {
        return halted(refusal::LACKING, tag);
    }
    let first = octets::wide(s[at]);
    if first < 0x80 {
        return within(tag, at + 1, first, end);
    }
    match first {
        0x81 => one_more(s, tag, at, end),
        0x82 => two_more(s, tag, at, end),
        _ => halted(refusal::LENGTH_FORM, tag),
    }
}

// Whether the length octet at a place is 80, of the constructed element whose tag is at tag.
fn is_endless(s: &[u8], tag: usize, at: usize, end: usize) -> bool
    requires { (end ≤ length s.now) × (tag < at) }
    ensures { result ≡ endless s.now tag at end }
{
    at < end && (s[at] == 0x80 && s[tag] / 32 % 2 == 1)
}

// Whether the end marker is at a place.
fn is_marker(s: &[u8], at: usize, end: usize) -> bool
    requires { end ≤ length s.now }
    ensures { result ≡ marker s.now at end }
{
    short_length(s, at, end, 0) == 0
}

// What the search answers where it fails: this and the fault's number. It is past every place.
const NO_END: usize = 1000;

const LACKING: usize = refusal::LACKING as usize;

// The place of the end marker that belongs to contents which go on at a place, or why there is none.
// It calls itself for each element on the way, and answers one number, so that a call takes little of the stack.
fn find_end(s: &[u8], at: usize, end: usize) -> usize
    requires { Bounded s.now end }
    ensures value { result ≡ sought (find_end s.now at end) }
    ensures small { result < 1256 }
{
    if end <= at {
        return NO_END + LACKING;
    }
    if is_marker(s, at, end) {
        return at;
    }
    if is_endless(s, at, at + 1, end) {
        let inner = find_end(s, at + 2, end);
        if NO_END <= inner {
            return inner;
        }
        return find_end(s, inner + 2, end);
    }
    let o = numbered_at(s, at, at + 1, end);
    if o.fault != 0 {
        return NO_END + octets::wide(o.fault);
    }
    let n = o.next;
    find_end(s, n, end)
}

// Contents from start up to their end marker.
fn span_at(s: &[u8], tag: usize, start: usize, end: usize) -> Opened
    requires { Bounded s.now end }
    ensures next_value { (result.fault, result.place, result.value, result.next) ≡ shown (record { start = 0; stop = 0 }) (spanned tag start (find_end s.now start end)) }
    ensures inside { (result.value.start ≤ result.value.stop) × (result.value.stop ≤ end) }
{
    let stop = find_end(s, start, end);
    if NO_END <= stop {
        return halted((stop - NO_END) as u8, tag);
    }
    found(start, stop, stop + 2)
}

// The length octets at a place, of the element whose tag is at tag.
fn length_at(s: &[u8], tag: usize, at: usize, end: usize) -> Opened
    requires { Bounded s.now end × (tag < at) }
    ensures next_value { (result.fault, result.place, result.value, result.next) ≡ shown (record { start = 0; stop = 0 }) (length_at tag s.now at end) }
    ensures inside { (result.value.start ≤ result.value.stop) × (result.value.stop ≤ end) }
{
    if is_endless(s, tag, at, end) {
        return span_at(s, tag, at + 1, end);
    }
    numbered_at(s, tag, at, end)
}

// The length of contents where the element at a place has the tag, a length of one octet, and lies inside; 256 otherwise.
pub fn short_length(s: &[u8], at: usize, end: usize, tag: u8) -> usize
    requires { end ≤ length s.now }
    ensures value { result ≡ short_at s.now at end tag }
    ensures found { (result ≤ 256) × ((result < 128) → Short s.now at end tag result) }
{
    if end <= at {
        return 256;
    }
    if end - at < 2 {
        return 256;
    }
    if s[at] != tag {
        return 256;
    }
    let n = octets::wide(s[at + 1]);
    if 128 <= n {
        return 256;
    }
    if end - at - 2 < n {
        return 256;
    }
    n
}

// Nothing that is allowed at a place is there.
fn not_there(at: usize, end: usize) -> Opened
    ensures by_index { (s : List ℕ) → (result.fault, result.place, result.value, result.next) ≡ shown (record { start = 0; stop = 0 }) (neither s at end) }
    ensures inside { (result.value.start ≤ result.value.stop) × (result.value.stop ≤ end) }
{
    if end <= at {
        return halted(refusal::MISSING, end);
    }
    halted(refusal::UNEXPECTED, at)
}

// An element's tag and length octets.
pub fn open_at(s: &[u8], at: usize, end: usize, tag: u8) -> Opened
    requires { Bounded s.now end }
    ensures next_value { (result.fault, result.place, result.value, result.next) ≡ shown (record { start = 0; stop = 0 }) (opened tag s.now at end) }
    ensures inside { (result.value.start ≤ result.value.stop) × (result.value.stop ≤ end) }
{
    let n = short_length(s, at, end, tag);
    if n < 128 {
        let start = at + 2;
        let stop = start + n;
        return found(start, stop, stop);
    }
    open_long(&s[0..], at, end, tag)
}

// The same, every length octet looked at in its turn.
pub fn open_long(s: &[u8], at: usize, end: usize, tag: u8) -> Opened
    requires { Bounded s.now end }
    ensures next_value { (result.fault, result.place, result.value, result.next) ≡ shown (record { start = 0; stop = 0 }) (opened tag s.now at end) }
    ensures inside { (result.value.start ≤ result.value.stop) × (result.value.stop ≤ end) }
{
    if is_tag(s, at, end, tag) {
        return length_at(s, at, at + 1, end);
    }
    not_there(at, end)
}

// The same for a tag that is mostly a primitive element's: there the length has a number, and no end marker is searched.
// With one caller it becomes part of it: so natural_long is large and stays a call, and natural_at becomes part of each reader above.
pub fn open_leaf(s: &[u8], at: usize, end: usize, tag: u8) -> Opened
    requires { Bounded s.now end }
    ensures next_value { (result.fault, result.place, result.value, result.next) ≡ shown (record { start = 0; stop = 0 }) (opened tag s.now at end) }
    ensures inside { (result.value.start ≤ result.value.stop) × (result.value.stop ≤ end) }
{
    if tag / 32 % 2 == 1 {
        return open_long(s, at, end, tag);
    }
    if is_tag(s, at, end, tag) {
        return numbered_at(s, at, at + 1, end);
    }
    not_there(at, end)
}
