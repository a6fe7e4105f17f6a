// Counts the octets of the shortest form of elements of any tag, at every depth, and writes that form into a buffer.
//
// What calls itself here does so for each element, up to an end that Bounded holds to 257 octets, and a call goes on past two octets
// or more. It answers one number, so that a call takes little of the stack.
#![tactic(auto)]

ghost use Rattle.std.specs.Prelude.{◌+◌, ◌-◌, ◌*◌, ◌/◌, ◌%◌, ◌≤◌, ◌<◌, ◌≡◌, true, cond, leb, eqb, length};
ghost use Rattle.coding.specs.inner.Shown.{shown};
ghost use Rattle.coding.specs.Normal.{several_at, any_element};
ghost use Rattle.coding.specs.inner.Written.{Wrote, Room, lead};
ghost use Rattle.read_lengths.specs.inner.Bounds.{Bounded};
ghost use Rattle.any_elements.specs.inner.Forms.{sized, opened_any, span_number, is_read, forms_of, told};

use coding::refusal;
use read_elements::Empty;

// From here on a number is a fault: this, the fault's number, and 256 times its place.
const FAULTS: usize = 1000;

const UNEXPECTED: usize = refusal::UNEXPECTED as usize;
// From here on a number is an element's span: where its contents begin, 512 times where they end, and this times the place after it.
const SPANS: usize = 0x40000;

// An element that is opened: its span, or a fault.
fn span_of(o: read_lengths::Opened) -> usize
    requires { (o.place ≤ 257) × (o.next ≤ 257) × (o.value.start ≤ 257) × (o.value.stop ≤ 257) }
    ensures { result ≡ cond (eqb o.fault 0) (o.value.start + 512 * o.value.stop + 0x40000 * o.next) (1000 + o.fault + 256 * o.place) }
{
    if o.fault != 0 {
        return FAULTS + octets::wide(o.fault) + 256 * o.place;
    }
    o.value.start + 512 * o.value.stop + SPANS * o.next
}

// The element of any tag at a place before the end: its span, or a fault. It is large, so that it stays a call, and what calls itself
// here does not hold what is opened.
fn span_at(s: &[u8], at: usize, end: usize) -> usize
    requires { Bounded s.now end × (at < end) }
    ensures { result ≡ span_number (opened_any s.now at end) }
{
    let tag = s[at];
    if tag == 0 {
        return FAULTS + UNEXPECTED + 256 * at;
    }
    if tag / 32 % 2 == 1 {
        let o = read_lengths::open_at(s, at, end, tag);
        return span_of(o);
    }
    let o = read_lengths::numbered_at(s, at, at + 1, end);
    span_of(o)
}

// How many octets a tag and the shortest length octets of n have.
fn lead_size(n: usize) -> usize
    ensures value { result ≡ length (lead 0 n) }
    ensures small { result ≤ 4 }
{
    if n < 128 {
        return 2;
    }
    if n < 256 {
        return 3;
    }
    4
}

// An element whose contents have n octets, and then the rest, or its fault.
fn joined(n: usize, rest: usize) -> usize
    requires { (n < 1000) × (rest < 0x40000) }
    ensures { result ≡ cond (leb 1000 rest) rest (length (lead 0 n) + n + rest) }
{
    if FAULTS <= rest {
        return rest;
    }
    lead_size(n) + n + rest
}

// How many octets the shortest forms of the elements from a place up to the end have, or a fault.
pub fn forms_size(s: &[u8], at: usize, end: usize) -> usize
    requires { Bounded s.now end }
    ensures { result ≡ sized (several_at s.now at end) }
{
    if end <= at {
        return 0;
    }
    let o = span_at(s, at, end);
    if o < SPANS {
        return o;
    }
    let start = o % 512;
    let stop = o / 512 % 512;
    let next = o / SPANS;
    let n = stop - start;
    if s[at] / 32 % 2 == 1 {
        let inner = forms_size(s, start, stop);
        if FAULTS <= inner {
            return inner;
        }
        let rest = forms_size(s, next, end);
        return joined(inner, rest);
    }
    let more = forms_size(s, next, end);
    joined(n, more)
}

// The shortest forms of the elements from a place up to the end, which are read without a fault, into the caller's buffer. Answers the place after them.
pub fn put_forms(s: &[u8], at: usize, end: usize, buf: &mut [u8; 244], to: usize) -> usize
    requires bounded { Bounded s.now end }
    requires end_value { is_read (several_at s.now at end) ≡ true }
    requires end_len_bound { (length (forms_of (several_at s.now at end)) < 256) × Room buf.old to (forms_of (several_at s.now at end)) }
    ensures { Wrote buf.old buf.new to (forms_of (several_at s.now at end)) result }
{
    if end <= at {
        return to;
    }
    let o = span_at(s, at, end);
    let start = o % 512;
    let stop = o / 512 % 512;
    let next = o / SPANS;
    let n = stop - start;
    let tag = s[at];
    if tag / 32 % 2 == 1 {
        let inner = forms_size(s, start, stop);
        let p = write_elements::put_lead(buf, to, tag, inner);
        let q = put_forms(s, start, stop, buf, p);
        return put_forms(s, next, end, buf, q);
    }
    let p = write_elements::put_lead(buf, to, tag, n);
    let q = octets::put_octets(buf, p, &s[start..stop], n);
    put_forms(s, next, end, buf, q)
}

// The same where it is known how many octets they have: elements that have no more are these forms, and are copied.
pub fn put_sized(
    s: &[u8],
    at: usize,
    end: usize,
    size: usize,
    buf: &mut [u8; 244],
    to: usize,
) -> usize
    requires bounded { Bounded s.now end × (at ≤ end) }
    requires end_value { (is_read (several_at s.now at end) ≡ true) × (size ≡ sized (several_at s.now at end)) }
    requires size_bound { (size < 256) × Room buf.old to (forms_of (several_at s.now at end)) }
    ensures { Wrote buf.old buf.new to (forms_of (several_at s.now at end)) result }
{
    if size == end - at {
        return octets::put_octets(buf, to, &s[at..end], size);
    }
    put_forms(s, at, end, buf, to)
}

// The fault that a number reports.
fn faulted(m: usize) -> Empty
    requires { 1000 ≤ m }
    ensures { result ≡ record { fault = (m - 1000) % 256; place = (m - 1000) / 256; next = 0 } }
{
    let k = m - FAULTS;
    read_elements::halted((k % 256) as u8, k / 256)
}

// One element of any tag, looked into to the bottom.
pub fn any_at(s: &[u8], at: usize, end: usize) -> Empty
    requires { Bounded s.now end }
    ensures { (result.fault, result.place, tt, result.next) ≡ shown tt (told (any_element.read s.now at end)) }
{
    if end <= at {
        return read_elements::halted(refusal::MISSING, end);
    }
    let o = span_at(s, at, end);
    if o < SPANS {
        return faulted(o);
    }
    if s[at] / 32 % 2 == 1 {
        let inner = forms_size(s, o % 512, o / 512 % 512);
        if FAULTS <= inner {
            return faulted(inner);
        }
        return read_elements::reached(o / SPANS);
    }
    read_elements::reached(o / SPANS)
}
