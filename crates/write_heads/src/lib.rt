// All of a record but its charge: whether it may be written, how many octets it takes, and its octets.
#![tactic(auto, using(crate::proofs::Search::heads))]

ghost use Rattle.std.specs.Prelude.{◌≡◌, true, false, cond, [], ◌++◌, ◌+◌, ◌≤◌, ◌<◌, length, eqb};
ghost use Rattle.coding.specs.Codec.{one_of};
ghost use Rattle.coding.specs.inner.Written.{Wrote, Room, lead, full_number};
ghost use Rattle.types.specs.Frames.{operations};
ghost use Rattle.write_heads.specs.inner.Fronts.{front_fine, front_octets, problem_fine, charged, id_octets};

use types::{charging_case, frame, operation};

// ---- which may be written

// As `read_heads::values::known_operation`, of an octet: measured, 23 instructions less for each component than a call of that.
fn is_operation(n: u8) -> bool
    ensures { result ≡ one_of operations n }
{
    matches!(n, operation::CHARGING_REQUEST..=operation::E_UNITS)
}

pub fn problem_fine(problem: u8, detail: u8) -> bool
    ensures { result ≡ problem_fine problem detail }
{
    match problem {
        0x80 => detail <= 2,
        0x81 => detail <= 7,
        0x82 => detail <= 2,
        0x83 => detail <= 4,
        _ => false,
    }
}

// Operation 30 of an invoke asks for a service.
fn request_fine(f: types::Front) -> bool
    requires { (f.frame ≡ 1) × (f.operation ≡ 30) }
    ensures { result ≡ front_fine f }
{
    f.unnamed == 0 && (f.error == 0 && (f.problem == 0 && f.detail <= charging_case::E))
}

fn invoke_fine(f: types::Front) -> bool
    requires { f.frame ≡ 1 }
    ensures { result ≡ front_fine f }
{
    if f.operation == operation::CHARGING_REQUEST {
        return request_fine(f);
    }
    f.unnamed == 0
        && (f.error == 0 && (f.problem == 0 && (f.detail == 0 && is_operation(f.operation))))
}

fn result_fine(f: types::Front) -> bool
    requires { f.frame ≡ 2 }
    ensures { result ≡ front_fine f }
{
    f.unnamed == 0
        && (f.error == 0
            && (f.problem == 0 && (f.detail == 0 && f.operation == operation::CHARGING_REQUEST)))
}

fn error_fine(f: types::Front) -> bool
    requires { f.frame ≡ 3 }
    ensures { result ≡ front_fine f }
{
    f.unnamed == 0
        && (f.operation == 0
            && (f.problem == 0
                && (f.detail == 0 && read_heads::values::known_error(u32::from(f.error)))))
}

fn reject_fine(f: types::Front) -> bool
    requires { f.frame ≡ 4 }
    ensures { result ≡ front_fine f }
{
    is_called(f.unnamed, f.id)
        && (f.operation == 0 && (f.error == 0 && problem_fine(f.problem, f.detail)))
}

pub fn is_called(unnamed: u8, id: u16) -> bool
    ensures { result ≡ cond (eqb unnamed 1) (eqb 0 id) (eqb 0 unnamed) }
{
    match unnamed {
        0 => true,
        1 => 0 == id,
        _ => false,
    }
}

#[tactic(auto, unfolding(crate::specs::inner::Fronts::front_fine))]
pub fn front_fine(f: types::Front) -> bool
    ensures { result ≡ front_fine f }
{
    let frame = f.frame;
    match frame {
        frame::INVOKE => invoke_fine(f),
        frame::RESULT => result_fine(f),
        frame::ERROR => error_fine(f),
        frame::REJECT => reject_fine(f),
        _ => false,
    }
}

// Whether a charge follows.
pub fn is_charged(f: types::Front) -> bool
    ensures { result ≡ charged f }
{
    let frame = f.frame;
    match frame {
        frame::INVOKE => f.operation != operation::CHARGING_REQUEST,
        frame::RESULT => true,
        _ => false,
    }
}

// ---- octets

// Before a charge of n octets.
pub fn front_size(f: types::Front, n: usize) -> usize
    requires { (front_fine f ≡ true) × (n < 250) }
    ensures value { result ≡ length (front_octets f n) }
    ensures few { (5 ≤ result) × (result ≤ 10) }
{
    let i = 2 + write_elements::id_width(f.id);
    if f.frame == frame::INVOKE {
        if f.operation == operation::CHARGING_REQUEST {
            return i + 6;
        }
        return i + 3;
    }
    if f.frame == frame::RESULT {
        if n + 3 < 128 {
            return i + 5;
        }
        return i + 6;
    }
    if f.frame == frame::ERROR {
        return i + 3;
    }
    if f.unnamed == 1 {
        return 5;
    }
    i + 3
}

#[tactic(auto, using(crate::proofs::Search::stores))]
fn put_invoke(buf: &mut [u8], at: usize, f: types::Front) -> usize
    requires { (f.operation < 128) × (f.detail < 128) × Room buf.old at (id_octets f ++ (full_number 0x02 f.operation ++ cond (eqb f.operation 30) (full_number 0x0a f.detail) [])) }
    ensures { Wrote buf.old buf.new at (id_octets f ++ (full_number 0x02 f.operation ++ cond (eqb f.operation 30) (full_number 0x0a f.detail) [])) result }
{
    let p = write_elements::put_id(buf, at, 0x02, f.id);
    let q = write_elements::put_small(buf, p, 0x02, f.operation);
    if f.operation == operation::CHARGING_REQUEST {
        return write_elements::put_small(buf, q, 0x0a, f.detail);
    }
    q
}

#[tactic(auto, using(crate::proofs::Search::stores))]
fn put_result(buf: &mut [u8], at: usize, f: types::Front, n: usize) -> usize
    requires { (f.operation < 128) × (n < 250) × Room buf.old at (id_octets f ++ (lead 0x30 (3 + n) ++ full_number 0x02 f.operation)) }
    ensures { Wrote buf.old buf.new at (id_octets f ++ (lead 0x30 (3 + n) ++ full_number 0x02 f.operation)) result }
{
    let p = write_elements::put_id(buf, at, 0x02, f.id);
    let q = write_elements::put_lead(buf, p, 0x30, 3 + n);
    write_elements::put_small(buf, q, 0x02, f.operation)
}

// The identifier, or NULL.
fn put_caller(buf: &mut [u8], at: usize, f: types::Front) -> usize
    requires { Room buf.old at (cond (eqb f.unnamed 1) (lead 0x05 0) (id_octets f)) }
    ensures { Wrote buf.old buf.new at (cond (eqb f.unnamed 1) (lead 0x05 0) (id_octets f)) result }
{
    if f.unnamed == 1 {
        return write_elements::put_null(buf, at, 0x05);
    }
    write_elements::put_id(buf, at, 0x02, f.id)
}

#[tactic(auto, using(crate::proofs::Search::stores))]
fn put_reject(buf: &mut [u8], at: usize, f: types::Front) -> usize
    requires { (f.detail < 128) × Room buf.old at (cond (eqb f.unnamed 1) (lead 0x05 0) (id_octets f) ++ full_number f.problem f.detail) }
    ensures { Wrote buf.old buf.new at (cond (eqb f.unnamed 1) (lead 0x05 0) (id_octets f) ++ full_number f.problem f.detail) result }
{
    let p = put_caller(buf, at, f);
    write_elements::put_small(buf, p, f.problem, f.detail)
}

#[tactic(auto, using(crate::proofs::Search::stores))]
fn put_error(buf: &mut [u8], at: usize, f: types::Front) -> usize
    requires { (f.error < 128) × Room buf.old at (id_octets f ++ full_number 0x02 f.error) }
    ensures { Wrote buf.old buf.new at (id_octets f ++ full_number 0x02 f.error) result }
{
    let p = write_elements::put_id(buf, at, 0x02, f.id);
    write_elements::put_small(buf, p, 0x02, f.error)
}

#[tactic(auto, using(crate::proofs::Search::fronts), unfolding(crate::specs::inner::Fronts::front_octets))]
pub fn put_front(buf: &mut [u8], at: usize, f: types::Front, n: usize) -> usize
    requires { (front_fine f ≡ true) × (n < 250) × Room buf.old at (front_octets f n) }
    ensures { Wrote buf.old buf.new at (front_octets f n) result }
{
    if f.frame == frame::INVOKE {
        return put_invoke(buf, at, f);
    }
    if f.frame == frame::RESULT {
        return put_result(buf, at, f, n);
    }
    if f.frame == frame::ERROR {
        return put_error(buf, at, f);
    }
    put_reject(buf, at, f)
}
