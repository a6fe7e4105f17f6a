// Components of a trunk: the lead, and the frames that carry no argument and no result.
//
// What is read is stored in the caller's parts. A body is stored first, and the lead last: it is all in the first eight octets of the front, which no body uses.
#![tactic(auto)]

ghost use Rattle.std.specs.Prelude.{◌≡◌, ℕ, List, replicate};
ghost use Rattle.coding.specs.inner.Shown.{shown};
ghost use Rattle.types.specs.declared.Charge.{Charge};
ghost use Rattle.types.specs.Arguments.{no_charge};
ghost use Rattle.types.specs.Stored.{stored, stored_charge};
ghost use Rattle.trunk_types.specs.Extensions.{no_extension};
ghost use Rattle.trunk_types.specs.Stored.{extension_in, body_in, trunk_in};
ghost use Rattle.trunk_types.specs.Components.{no_trunk, lead_by, trunk_by, trunk_error, rejected, facility};
ghost use Rattle.trunk_types.specs.Stored.{Spare};
ghost use Rattle.trunk_read_frames.specs.inner.Framed.{framed, failure};
ghost use Rattle.read_lengths.specs.inner.Bounds.{Bounded};

use coding::named;
use read_elements::Empty;
use trunk_types::in_front;
use types::{error, frame};

// As wide as a lead has it.
const UNSPECIFIED: u16 = error::UNSPECIFIED as u16;

// The lead, put into a front that holds a body.
pub fn keep_lead(
    front: &mut [u8; 48],
    frame: u8,
    unnamed: u8,
    id: u16,
    error: u16,
    operation: u8,
    problem: u8,
)
    requires { Spare front.old }
    ensures by_index { (extension : List ℕ) (c : Charge) → trunk_in front.new extension c ≡ trunk_by (lead_by frame unnamed id error operation problem) (body_in front.old extension c) }
    ensures spare { Spare front.new }
{
    front[in_front::FRAME] = frame;
    front[in_front::UNNAMED] = unnamed;
    front[in_front::ID] = (id % 256) as u8;
    front[in_front::ID_HIGH] = (id / 256) as u8;
    front[in_front::ERROR] = (error % 256) as u8;
    front[in_front::ERROR_HIGH] = (error / 256) as u8;
    front[in_front::OPERATION] = operation;
    front[in_front::PROBLEM] = problem;
}

// The parameter of error 1008; others have none.
fn failing_at(s: &[u8], at: usize, end: usize, error: u16, extension: &mut [u8; 244]) -> Empty
    requires bounded { Bounded s.now end }
    requires extension_value { extension.old ≡ replicate 244 0 }
    ensures { (result.fault, result.place, stored no_extension result.fault (extension_in extension.new), result.next) ≡ shown no_extension ((failure error).read s.now at end) }
{
    if error == UNSPECIFIED {
        return trunk_read_extensions::parameter_at(s, at, end, extension);
    }
    read_elements::reached(at)
}

// A3: identifier, error, and what may follow it.
pub fn error_at(
    s: &[u8],
    at: usize,
    end: usize,
    front: &mut [u8; 48],
    extension: &mut [u8; 244],
) -> Empty
    requires bounded { Bounded s.now end }
    requires front_value { (front.old ≡ replicate 48 0) × (extension.old ≡ replicate 244 0) }
    ensures no_charge_after { framed result front.new extension.new no_charge ≡ shown no_trunk (trunk_error.read s.now at end) }
    ensures spare { Spare front.new }
{
    let i = read_elements::identifier_at(s, at, end, 0x02);
    if i.fault != 0 {
        return read_elements::halted(i.fault, i.place);
    }
    let e = trunk_read_heads::value_at(s, i.next, end, frame::ERROR);
    if e.fault != 0 {
        return read_elements::halted(e.fault, e.place);
    }
    let error = e.value as u16;
    let x = failing_at(s, e.next, end, error, extension);
    if x.fault != 0 {
        return read_elements::halted(x.fault, x.place);
    }
    let id = i.value as u16;
    keep_lead(front, frame::ERROR, 0, id, error, 0, 0);
    read_elements::reached(x.next)
}

// A4: as document 01 has it.
pub fn reject_at(s: &[u8], at: usize, end: usize, front: &mut [u8; 48]) -> Empty
    requires bounded { Bounded s.now end }
    requires front_value { front.old ≡ replicate 48 0 }
    ensures no_charge_after { framed result front.new (replicate 244 0) no_charge ≡ shown no_trunk (rejected.read s.now at end) }
    ensures spare { Spare front.new }
{
    let i = read_heads::caller_at(s, at, end);
    if i.fault != 0 {
        return read_elements::halted(i.fault, i.place);
    }
    let p = read_heads::problems_at(s, i.next, end);
    if p.fault != 0 {
        return read_elements::halted(p.fault, p.place);
    }
    front[in_front::DETAIL] = p.value.detail;
    let id = i.value.id;
    keep_lead(front, frame::REJECT, i.value.unnamed, id, 0, 0, p.value.tag);
    read_elements::reached(p.next)
}

// AA: every fault inside is 6.
pub fn facility_at(
    s: &[u8],
    at: usize,
    end: usize,
    front: &mut [u8; 48],
    figure: &mut [u8; 48],
) -> Empty
    requires bounded { Bounded s.now end }
    requires front_value { (front.old ≡ replicate 48 0) × (figure.old ≡ replicate 48 0) }
    ensures replicate_after { framed result front.new (replicate 244 0) (stored_charge figure.new (replicate 32 0) (replicate 192 0)) ≡ shown no_trunk (facility.read s.now at end) }
    ensures spare { Spare front.new }
{
    let b = trunk_read_fields::network_at(s, at, end, front, figure);
    if b.fault != 0 {
        return read_elements::halted(named::BAD_FRAME, b.place);
    }
    keep_lead(front, frame::EXTENSION, 0, 0, 0, 0, 0);
    read_elements::reached(b.next)
}
