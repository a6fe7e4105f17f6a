// Extensions of a manufacturer: their contents are checked at every depth, not interpreted, and stored in their shortest form.
#![tactic(auto)]

ghost use Rattle.std.specs.Prelude.{◌≡◌, true, ◌&&◌, ◌-◌, ◌≤◌, eqb, length, replicate};
ghost use Rattle.coding.specs.Reader.{part, primitive};
ghost use Rattle.coding.specs.inner.Shown.{shown, verdict};
ghost use Rattle.types.specs.Stored.{stored};
ghost use Rattle.trunk_types.specs.Extensions.{arcs, object_identifier, no_extension, extension_at, some_extension, any_extension, parameter};
ghost use Rattle.trunk_types.specs.Stored.{extension_in};
ghost use Rattle.read_lengths.specs.inner.Bounds.{Bounded};
ghost use Rattle.trunk_read_extensions.specs.inner.Judges.{one_told, entry_told, list_told, judge_of, inside_of};

use coding::refusal;
use read_elements::Empty;
use trunk_types::{extended, in_extension};

// A number that is to begin here does so with 80.
fn begins_badly(fresh: bool, x: u8) -> bool
    ensures { result ≡ fresh && eqb x 0x80 }
{
    fresh && x == 0x80
}

// The numbers of an object identifier: each ends with an octet below 80, and none begins with 80. Answers the fault.
fn arcs_in(s: &[u8], start: usize, stop: usize) -> u8
    requires { (start ≤ stop) × (stop ≤ length s.now) }
    ensures { (result, tt) ≡ verdict tt (arcs true (part s.now start stop)) }
{
    let mut fresh = true;
    let mut i = start;
    while i < stop {
        let x = s[i];
        if begins_badly(fresh, x) {
            return refusal::NOT_SHORTEST;
        }
        fresh = x < 0x80;
        i += 1;
    }
    if fresh {
        return 0;
    }
    refusal::BAD_CONTENTS
}

// The contents of an object identifier. Answers the fault.
fn identifier_in(s: &[u8], start: usize, stop: usize) -> u8
    requires { (start ≤ stop) × (stop ≤ length s.now) }
    ensures { (result, tt) ≡ verdict tt (object_identifier (part s.now start stop)) }
{
    if start == stop {
        return refusal::NOT_SHORTEST;
    }
    arcs_in(s, start, stop)
}

fn identifier_at(s: &[u8], at: usize, end: usize) -> Empty
    requires { Bounded s.now end }
    ensures { (result.fault, result.place, tt, result.next) ≡ shown tt (primitive 0x06 object_identifier s.now at end) }
{
    let e = read_lengths::open_at(s, at, end, 0x06);
    if e.fault != 0 {
        return read_elements::halted(e.fault, e.place);
    }
    let fault = identifier_in(s, e.value.start, e.value.stop);
    if fault != 0 {
        return read_elements::halted(fault, at);
    }
    read_elements::reached(e.next)
}

// 06 identifier, and one element of any tag.
fn one_at(s: &[u8], at: usize, end: usize) -> Empty
    requires { Bounded s.now end }
    ensures { (result.fault, result.place, tt, result.next) ≡ shown tt (one_told s.now at end) }
{
    let i = identifier_at(s, at, end);
    if i.fault != 0 {
        return read_elements::halted(i.fault, i.place);
    }
    any_elements::any_at(s, i.next, end)
}

// An entry of a list: 30 with one.
fn entry_at(s: &[u8], at: usize, end: usize) -> Empty
    requires { Bounded s.now end }
    ensures { (result.fault, result.place, tt, result.next) ≡ shown tt (entry_told s.now at end) }
{
    let e = read_lengths::open_at(s, at, end, 0x30);
    if e.fault != 0 {
        return read_elements::halted(e.fault, e.place);
    }
    let o = one_at(s, e.value.start, e.value.stop);
    read_elements::closed(o, e.value.stop, e.next)
}

// Any number of entries, up to the end.
fn list_at(s: &[u8], at: usize, end: usize) -> Empty
    requires { Bounded s.now end }
    ensures { (result.fault, result.place, tt, result.next) ≡ shown tt (list_told s.now at end) }
{
    if end <= at {
        return read_elements::reached(at);
    }
    let mut count: usize = 0;
    let mut i = at;
    while i < end {
        if 254 <= count {
            if s[i] == 0x30 {
                return read_elements::halted(refusal::PAST_LIMIT, i);
            }
            return read_elements::halted(refusal::UNEXPECTED, i);
        }
        let e = entry_at(s, i, end);
        if e.fault != 0 {
            return read_elements::halted(e.fault, e.place);
        }
        count += 1;
        i = e.next;
    }
    read_elements::reached(i)
}

// One, or a list where the kind is 2.
fn inside_at(s: &[u8], at: usize, end: usize, kind: u8) -> Empty
    requires { Bounded s.now end }
    ensures { (result.fault, result.place, tt, result.next) ≡ shown tt (judge_of kind s.now at end) }
{
    if kind == extended::LIST {
        return list_at(s, at, end);
    }
    one_at(s, at, end)
}

// Whether octets are what is kept of an extension: read to their end, and no more than their shortest form has.
pub fn is_form(xs: &[u8], kind: u8) -> bool
    ensures { result ≡ (inside_of kind).valid xs.now }
{
    let n = xs.len();
    if 242 < n {
        return false;
    }
    let o = inside_at(xs, 0, n, kind);
    if o.fault != 0 {
        return false;
    }
    if o.next != n {
        return false;
    }
    let size = any_elements::forms_size(xs, 0, n);
    size == n
}

// An extension in an element with this tag: one, or a list where the kind is 2.
fn extension_at(
    s: &[u8],
    at: usize,
    end: usize,
    tag: u8,
    kind: u8,
    extension: &mut [u8; 244],
) -> Empty
    requires bounded { Bounded s.now end }
    requires extension_value { extension.old ≡ replicate 244 0 }
    ensures { (result.fault, result.place, stored no_extension result.fault (extension_in extension.new), result.next) ≡ shown no_extension ((extension_at tag kind (inside_of kind)).read s.now at end) }
{
    let e = read_lengths::open_at(s, at, end, tag);
    if e.fault != 0 {
        return read_elements::halted(e.fault, e.place);
    }
    let start = e.value.start;
    let stop = e.value.stop;
    let o = inside_at(s, start, stop, kind);
    if o.fault != 0 {
        return read_elements::halted(o.fault, o.place);
    }
    let last = o.next;
    let size = any_elements::forms_size(s, start, last);
    if 242 < size {
        return read_elements::halted(refusal::BAD_CONTENTS, start);
    }
    if last != stop {
        return read_elements::halted(refusal::UNEXPECTED, last);
    }
    any_elements::put_sized(s, start, stop, size, extension, in_extension::EXTENSION);
    extension[in_extension::EXTENDED] = kind;
    extension[in_extension::EXTENT] = size as u8;
    read_elements::reached(e.next)
}

// One or a list, or none.
pub fn extension_if(s: &[u8], at: usize, end: usize, extension: &mut [u8; 244]) -> Empty
    requires bounded { Bounded s.now end }
    requires extension_value { extension.old ≡ replicate 244 0 }
    ensures { (result.fault, result.place, stored no_extension result.fault (extension_in extension.new), result.next) ≡ shown no_extension (any_extension.read s.now at end) }
{
    if read_lengths::is_tag(s, at, end, 0xa1) {
        return extension_at(s, at, end, 0xa1, extended::ONCE, extension);
    }
    if read_lengths::is_tag(s, at, end, 0xa2) {
        return extension_at(s, at, end, 0xa2, extended::LIST, extension);
    }
    read_elements::reached(at)
}

// One or a list.
pub fn some_at(s: &[u8], at: usize, end: usize, extension: &mut [u8; 244]) -> Empty
    requires bounded { Bounded s.now end }
    requires extension_value { extension.old ≡ replicate 244 0 }
    ensures { (result.fault, result.place, stored no_extension result.fault (extension_in extension.new), result.next) ≡ shown no_extension (some_extension.read s.now at end) }
{
    if read_lengths::is_tag(s, at, end, 0xa1) {
        return extension_at(s, at, end, 0xa1, extended::ONCE, extension);
    }
    extension_at(s, at, end, 0xa2, extended::LIST, extension)
}

// The optional parameter of error 1008.
pub fn parameter_at(s: &[u8], at: usize, end: usize, extension: &mut [u8; 244]) -> Empty
    requires bounded { Bounded s.now end }
    requires extension_value { extension.old ≡ replicate 244 0 }
    ensures { (result.fault, result.place, stored no_extension result.fault (extension_in extension.new), result.next) ≡ shown no_extension (parameter.read s.now at end) }
{
    if read_lengths::is_tag(s, at, end, 0x30) {
        return extension_at(s, at, end, 0x30, extended::ONCE, extension);
    }
    read_elements::reached(at)
}
