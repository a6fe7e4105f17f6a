// Reads what is in a trunk's component before its extension, apart from a charge, and the network facility extension. Document 01's readers of a number and an association are used as they are.
//
// What is read is stored in the caller's parts: a front of 48 octets and a figure of 48.
// In the front the user lies where a figure has its association, so that the reader of a number stores it there.
#![tactic(auto)]

ghost use Rattle.std.specs.Prelude.{◌≡◌, ◌<◌, replicate};
ghost use Rattle.coding.specs.inner.Shown.{shown};
ghost use Rattle.types.specs.Charges.{no_association};
ghost use Rattle.types.specs.Arguments.{no_charge};
ghost use Rattle.types.specs.Stored.{association_in, stored, stored_charge};
ghost use Rattle.read_figures.specs.inner.Beside.{Unassociated, SameBeside};
ghost use Rattle.trunk_types.specs.Bodies.{no_body, modes, detail, address, network};
ghost use Rattle.trunk_read_fields.specs.inner.Fields.{inner, in_modes, users, diverting};
ghost use Rattle.trunk_types.specs.Stored.{Spare};
ghost use Rattle.read_lengths.specs.inner.Bounds.{Bounded};

use coding::refusal;
use read_elements::Empty;
use trunk_types::in_front;

// ---- what comes before the extension. After each of these the last four octets of the front are zero still.

// The result of 59 or 64.
pub fn detail_at(s: &[u8], at: usize, end: usize, most: u32, front: &mut [u8; 48]) -> Empty
    requires bounded { Bounded s.now end × (most < 7) }
    requires front_value { front.old ≡ replicate 48 0 }
    ensures no_charge_after { inner result front.new no_charge ≡ shown no_body ((detail most).read s.now at end) }
    ensures spare { Spare front.new }
{
    let n = read_elements::natural_at(s, at, end, 0x0a, 0, most);
    if n.fault != 0 {
        return read_elements::halted(n.fault, n.place);
    }
    front[in_front::DETAIL] = n.value as u8;
    read_elements::reached(n.next)
}

// 64: a number, and an optional association.
pub fn users_at(
    s: &[u8],
    at: usize,
    end: usize,
    front: &mut [u8; 48],
    figure: &mut [u8; 48],
) -> Empty
    requires bounded { Bounded s.now end }
    requires front_value { (front.old ≡ replicate 48 0) × (figure.old ≡ replicate 48 0) }
    ensures replicate_after { inner result front.new (stored_charge figure.new (replicate 32 0) (replicate 192 0)) ≡ shown no_body (users.read s.now at end) }
    ensures spare { Spare front.new }
{
    let u = read_association::number_at(s, at, end, true, front);
    if u.fault != 0 {
        return read_elements::halted(u.fault, u.place);
    }
    read_association::association_at(s, u.next, end, true, figure)
}

// 65: the same, and the diversion.
pub fn diverting_at(
    s: &[u8],
    at: usize,
    end: usize,
    front: &mut [u8; 48],
    figure: &mut [u8; 48],
) -> Empty
    requires bounded { Bounded s.now end }
    requires front_value { (front.old ≡ replicate 48 0) × (figure.old ≡ replicate 48 0) }
    ensures replicate_after { inner result front.new (stored_charge figure.new (replicate 32 0) (replicate 192 0)) ≡ shown no_body (diverting.read s.now at end) }
    ensures spare { Spare front.new }
{
    let u = read_association::number_at(s, at, end, true, front);
    if u.fault != 0 {
        return read_elements::halted(u.fault, u.place);
    }
    let a = read_association::association_at(s, u.next, end, true, figure);
    if a.fault != 0 {
        return read_elements::halted(a.fault, a.place);
    }
    let n = read_elements::natural_at(s, a.next, end, 0x0a, 0, 3);
    if n.fault != 0 {
        return read_elements::halted(n.fault, n.place);
    }
    front[in_front::DETAIL] = n.value as u8;
    read_elements::reached(n.next)
}

// 0 to 7 modes, up to the end of the enclosing element.
fn modes_in(s: &[u8], at: usize, end: usize, front: &mut [u8; 48]) -> Empty
    requires bounded { Bounded s.now end }
    requires front_value { front.old ≡ replicate 48 0 }
    ensures no_charge_after { inner result front.new no_charge ≡ shown no_body (in_modes s.now at end) }
    ensures spare { Spare front.new }
{
    if end <= at {
        return read_elements::reached(at);
    }
    let mut count: usize = 0;
    let mut i = at;
    while i < end {
        if 7 <= count {
            if s[i] == 0x0a {
                return read_elements::halted(refusal::PAST_LIMIT, i);
            }
            return read_elements::halted(refusal::UNEXPECTED, i);
        }
        let n = read_elements::natural_at(s, i, end, 0x0a, 0, 6);
        if n.fault != 0 {
            return read_elements::halted(n.fault, n.place);
        }
        front[in_front::MODES + count] = n.value as u8;
        count += 1;
        i = n.next;
    }
    front[in_front::ASKED] = count as u8;
    read_elements::reached(i)
}

// 59: those in a 30.
pub fn modes_at(s: &[u8], at: usize, end: usize, front: &mut [u8; 48]) -> Empty
    requires bounded { Bounded s.now end }
    requires front_value { front.old ≡ replicate 48 0 }
    ensures no_charge_after { inner result front.new no_charge ≡ shown no_body (modes.read s.now at end) }
    ensures spare { Spare front.new }
{
    let e = read_lengths::open_at(s, at, end, 0x30);
    if e.fault != 0 {
        return read_elements::halted(e.fault, e.place);
    }
    let m = modes_in(s, e.value.start, e.value.stop, front);
    read_elements::closed(m, e.value.stop, e.next)
}

// ---- the network facility extension

// A number in an element with this tag, or none.
fn address_at(s: &[u8], at: usize, end: usize, tag: u8, figure: &mut [u8; 48]) -> Empty
    requires bounded { Bounded s.now end }
    requires unassociated { Unassociated figure.old }
    ensures next_after { (result.fault, result.place, stored no_association result.fault (association_in figure.new), result.next) ≡ shown no_association ((address tag).read s.now at end) }
    ensures rest { SameBeside figure.old figure.new }
{
    if read_lengths::is_tag(s, at, end, tag) {
        return read_association::party_at(s, at, end, tag, true, figure);
    }
    read_elements::reached(at)
}

// Its two entities, each with the address that may follow it.
pub fn network_at(
    s: &[u8],
    at: usize,
    end: usize,
    front: &mut [u8; 48],
    figure: &mut [u8; 48],
) -> Empty
    requires bounded { Bounded s.now end }
    requires front_value { (front.old ≡ replicate 48 0) × (figure.old ≡ replicate 48 0) }
    ensures replicate_after { inner result front.new (stored_charge figure.new (replicate 32 0) (replicate 192 0)) ≡ shown no_body (network.read s.now at end) }
    ensures spare { Spare front.new }
{
    let d = read_elements::natural_at(s, at, end, 0x80, 0, 1);
    if d.fault != 0 {
        return read_elements::halted(d.fault, d.place);
    }
    let source = d.value as u8;
    let u = address_at(s, d.next, end, 0xa1, front);
    if u.fault != 0 {
        return read_elements::halted(u.fault, u.place);
    }
    let e = read_elements::natural_at(s, u.next, end, 0x82, 0, 1);
    if e.fault != 0 {
        return read_elements::halted(e.fault, e.place);
    }
    let destination = e.value as u8;
    let a = address_at(s, e.next, end, 0xa3, figure);
    if a.fault != 0 {
        return read_elements::halted(a.fault, a.place);
    }
    front[in_front::DETAIL] = source;
    front[in_front::ENTITY] = destination;
    read_elements::reached(a.next)
}
