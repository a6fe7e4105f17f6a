// Reads the association of a charge, and a number, into a figure.
//
// Each reader takes and answers what those of `read_figures` do. The figure has no association yet, and all beside it stays as it was.
#![tactic(auto)]

ghost use Rattle.std.specs.Prelude.{◌≡◌, ◌≤◌, length};
ghost use Rattle.coding.specs.Reader.{part, primitive};
ghost use Rattle.coding.specs.Codec.{cons, sort};
ghost use Rattle.coding.specs.inner.Shown.{shown, verdict};
ghost use Rattle.types.specs.Charges.{no_association, of_kind, identified, planned, plain_party, party_number, association};
ghost use Rattle.types.specs.Stored.{association_in, stored};
ghost use Rattle.read_figures.specs.inner.Beside.{Unassociated, SameBeside};
ghost use Rattle.read_association.specs.inner.Numbers.{numbered};
ghost use Rattle.read_lengths.specs.inner.Bounds.{Bounded};

use coding::refusal;
use read_elements::Empty;
use types::{association_kind, in_figure};

// The contents of a number: 1 to 20 digits. Answers the fault.
fn digits_in(s: &[u8], start: usize, stop: usize, kind: u8, plan: u8, figure: &mut [u8; 48]) -> u8
    requires start_le_stop { (start ≤ stop) × (stop ≤ length s.now) }
    requires unassociated { Unassociated figure.old }
    ensures figure_after { (result, stored no_association result (association_in figure.new)) ≡ verdict no_association (numbered kind plan (part s.now start stop)) }
    ensures rest { SameBeside figure.old figure.new }
{
    let n = stop - start;
    if n == 0 {
        return refusal::NOT_SHORTEST;
    }
    if 20 < n {
        return refusal::BAD_CONTENTS;
    }
    let mut i = 0;
    while i < n {
        let x = s[start + i];
        if !types::is_digit(x) {
            return refusal::BAD_CONTENTS;
        }
        figure[in_figure::DIGITS + i] = x;
        i += 1;
    }
    figure[in_figure::DIGITS_COUNT] = n as u8;
    figure[in_figure::ASSOCIATION_KIND] = kind;
    figure[in_figure::PLAN] = plan;
    0
}

fn digits_at(
    s: &[u8],
    at: usize,
    end: usize,
    tag: u8,
    kind: u8,
    plan: u8,
    figure: &mut [u8; 48],
) -> Empty
    requires bounded { Bounded s.now end }
    requires unassociated { Unassociated figure.old }
    ensures next_after { (result.fault, result.place, stored no_association result.fault (association_in figure.new), result.next) ≡ shown no_association (primitive tag (numbered kind plan) s.now at end) }
    ensures rest { SameBeside figure.old figure.new }
{
    let e = read_lengths::open_at(s, at, end, tag);
    if e.fault != 0 {
        return read_elements::halted(e.fault, e.place);
    }
    let fault = digits_in(s, e.value.start, e.value.stop, kind, plan, figure);
    if fault != 0 {
        return read_elements::halted(fault, at);
    }
    read_elements::reached(e.next)
}

// A number of a kind, in an element with this tag: {0A kind 0, 1, 2, 3, 4 or 6; 12 digits}.
fn planned_at(s: &[u8], at: usize, end: usize, tag: u8, kind: u8, figure: &mut [u8; 48]) -> Empty
    requires bounded { Bounded s.now end }
    requires unassociated { Unassociated figure.old }
    ensures next_after { (result.fault, result.place, stored no_association result.fault (association_in figure.new), result.next) ≡ shown no_association ((planned tag kind).read s.now at end) }
    ensures rest { SameBeside figure.old figure.new }
{
    let e = read_lengths::open_at(s, at, end, tag);
    if e.fault != 0 {
        return read_elements::halted(e.fault, e.place);
    }
    let k = read_elements::natural_long(s, e.value.start, e.value.stop, 0x0a, 0, 6);
    if k.fault != 0 {
        return read_elements::halted(k.fault, k.place);
    }
    if k.value == 5 {
        return read_elements::halted(refusal::BAD_CONTENTS, e.value.start);
    }
    let d = digits_at(s, k.next, e.value.stop, 0x12, kind, k.value as u8, figure);
    read_elements::closed(d, e.value.stop, e.next)
}

// A private number, or one alone.
fn private_at(s: &[u8], at: usize, end: usize, figure: &mut [u8; 48]) -> Empty
    requires bounded { Bounded s.now end }
    requires unassociated { Unassociated figure.old }
    ensures next_after { (result.fault, result.place, stored no_association result.fault (association_in figure.new), result.next) ≡ shown no_association ((sort 0xa5 (of_kind 4) (planned 0xa5 4) plain_party).read s.now at end) }
    ensures rest { SameBeside figure.old figure.new }
{
    if read_lengths::is_tag(s, at, end, 0xa5) {
        return planned_at(s, at, end, 0xa5, association_kind::PRIVATE_NUMBER, figure);
    }
    digits_at(s, at, end, 0x80, association_kind::NUMBER, 0, figure)
}

// A number of a kind, or alone.
pub fn number_at(s: &[u8], at: usize, end: usize, trunk: bool, figure: &mut [u8; 48]) -> Empty
    requires bounded { Bounded s.now end }
    requires unassociated { Unassociated figure.old }
    ensures next_after { (result.fault, result.place, stored no_association result.fault (association_in figure.new), result.next) ≡ shown no_association ((party_number trunk).read s.now at end) }
    ensures rest { SameBeside figure.old figure.new }
{
    if read_lengths::is_tag(s, at, end, 0xa1) {
        return planned_at(s, at, end, 0xa1, association_kind::PLANNED_NUMBER, figure);
    }
    if trunk {
        return private_at(s, at, end, figure);
    }
    digits_at(s, at, end, 0x80, association_kind::NUMBER, 0, figure)
}

// An element with this tag that holds a number.
pub fn party_at(
    s: &[u8],
    at: usize,
    end: usize,
    tag: u8,
    trunk: bool,
    figure: &mut [u8; 48],
) -> Empty
    requires bounded { Bounded s.now end }
    requires unassociated { Unassociated figure.old }
    ensures next_after { (result.fault, result.place, stored no_association result.fault (association_in figure.new), result.next) ≡ shown no_association ((cons tag (party_number trunk)).read s.now at end) }
    ensures rest { SameBeside figure.old figure.new }
{
    let e = read_lengths::open_at(s, at, end, tag);
    if e.fault != 0 {
        return read_elements::halted(e.fault, e.place);
    }
    let p = number_at(s, e.value.start, e.value.stop, trunk, figure);
    read_elements::closed(p, e.value.stop, e.next)
}

fn identified_at(s: &[u8], at: usize, end: usize, figure: &mut [u8; 48]) -> Empty
    requires bounded { Bounded s.now end }
    requires unassociated { Unassociated figure.old }
    ensures next_after { (result.fault, result.place, stored no_association result.fault (association_in figure.new), result.next) ≡ shown no_association (identified.read s.now at end) }
    ensures rest { SameBeside figure.old figure.new }
{
    let i = read_elements::identifier_long(s, at, end, 0x02);
    if i.fault != 0 {
        return read_elements::halted(i.fault, i.place);
    }
    figure[in_figure::ID] = (i.value % 256) as u8;
    figure[in_figure::ID_HIGH] = (i.value / 256) as u8;
    figure[in_figure::ASSOCIATION_KIND] = association_kind::IDENTIFIER;
    read_elements::reached(i.next)
}

// An optional association: an identifier, or a party's number.
pub fn association_at(s: &[u8], at: usize, end: usize, trunk: bool, figure: &mut [u8; 48]) -> Empty
    requires bounded { Bounded s.now end }
    requires unassociated { Unassociated figure.old }
    ensures next_after { (result.fault, result.place, stored no_association result.fault (association_in figure.new), result.next) ≡ shown no_association ((association trunk).read s.now at end) }
    ensures rest { SameBeside figure.old figure.new }
{
    if read_lengths::is_tag(s, at, end, 0x02) {
        return identified_at(s, at, end, figure);
    }
    if read_lengths::is_tag(s, at, end, 0xa0) {
        return party_at(s, at, end, 0xa0, trunk, figure);
    }
    read_elements::reached(at)
}
