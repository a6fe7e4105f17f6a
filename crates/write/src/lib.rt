// Components: written in their shortest form. All is decided before a single octet is stored.
#![tactic(auto)]

ghost use Rattle.std.specs.Prelude.{◌≡◌, true, false, ◌||◌, cond, ◌≤◌, ◌<◌, length, eqb};
ghost use Rattle.coding.specs.inner.Written.{Wrote, Room};
ghost use Rattle.write_heads.specs.inner.Fronts.{front_fine, charged};
ghost use Rattle.write.specs.Outcome.{no, write_of, left_of};
ghost use Rattle.types.specs.Stored.{figure_in, with_list, stored_charge};
ghost use Rattle.write_heads.specs.inner.Halves.{record_of, fine_of, charge_octets, body_of};

use coding::refusal;
use types::{Figure, charge_kind, operation};

// As wide as the answer has them.
const BAD_RECORD: u32 = refusal::BAD_RECORD as u32;

const LONG_RECORD: u32 = refusal::LONG_RECORD as u32;

const NO_ROOM: u32 = refusal::NO_ROOM as u32;

// What writing answers: 0 and the octets written, or the refusal's number and 0.
#[repr(C)]
#[derive(Drop)]
pub struct Written {
    pub number: u32,
    pub count: u32,
}

fn refuse(number: u32) -> Written
    ensures { result ≡ no number }
{
    Written { number, count: 0 }
}

// Whether a charge of a kind is allowed beside a front: any where one follows, none where none does.
fn may_hold(f: types::Front, kind: u8) -> bool
    ensures { result ≡ charged f || eqb kind 0 }
{
    write_heads::is_charged(f) || kind == charge_kind::NONE
}

// The operation by which a charge is tested: its own, or, where none follows, one to which no charge at all is fine.
fn tested_by(f: types::Front) -> u8
    requires { front_fine f ≡ true }
    ensures value { result ≡ cond (charged f) f.operation 32 }
    ensures known { (30 ≤ result) × (result ≤ 36) }
{
    if write_heads::is_charged(f) {
        return f.operation;
    }
    operation::S_SPECIAL
}

// Whether a record may be written.
fn record_fine(
    f: types::Front,
    figure: Figure,
    stored: &[u8; 48],
    numbers: &[u32; 32],
    rows: &[u8; 192],
) -> bool
    requires { figure ≡ figure_in stored.now }
    ensures value { result ≡ fine_of f (with_list figure numbers.now rows.now) }
    ensures long { length rows.now ≡ 192 }
{
    // As slices the arrays show their lengths to the proof.
    let places: &[u32] = numbers;
    let octets: &[u8] = rows;
    if !write_heads::front_fine(f) {
        return false;
    }
    if !may_hold(f, figure.kind) {
        return false;
    }
    write_charges::charge_fine(figure, stored, numbers, rows, tested_by(f))
}

// The octets of a charge that follows.
fn charge_size(f: types::Front, figure: Figure, numbers: &[u32; 32], rows: &[u8; 192]) -> usize
    requires { (fine_of f (with_list figure numbers.now rows.now) ≡ true) × (length rows.now ≡ 192) }
    ensures { result ≡ length (charge_octets f (with_list figure numbers.now rows.now)) }
{
    if write_heads::is_charged(f) {
        return write_charges::charge_size(figure, numbers, rows, f.operation);
    }
    0
}

// A frame's contents, after the lead. Its charge takes n octets.
fn put_body(
    buf: &mut [u8],
    at: usize,
    f: types::Front,
    figure: Figure,
    numbers: &[u32; 32],
    rows: &[u8; 192],
    n: usize,
) -> usize
    requires rows_value { (fine_of f (with_list figure numbers.now rows.now) ≡ true) × (length rows.now ≡ 192) }
    requires n_value { (n ≡ length (charge_octets f (with_list figure numbers.now rows.now))) × (n < 250) }
    requires room { Room buf.old at (body_of f (with_list figure numbers.now rows.now)) }
    ensures { Wrote buf.old buf.new at (body_of f (with_list figure numbers.now rows.now)) result }
{
    let p = write_heads::put_front(buf, at, f, n);
    if write_heads::is_charged(f) {
        return write_charges::put_charge(buf, p, figure, numbers, rows, f.operation);
    }
    p
}

// Writes a record by its front, its figure and its list.
fn put_record(
    f: types::Front,
    figure: Figure,
    stored: &[u8; 48],
    numbers: &[u32; 32],
    rows: &[u8; 192],
    buf: &mut [u8],
) -> Written
    requires { figure ≡ figure_in stored.now }
    ensures value { result ≡ write_of (record_of f (with_list figure numbers.now rows.now)) (length buf.old) }
    ensures left { buf.new ≡ left_of (record_of f (with_list figure numbers.now rows.now)) buf.old }
{
    if !record_fine(f, figure, stored, numbers, rows) {
        return refuse(BAD_RECORD);
    }
    let n = charge_size(f, figure, numbers, rows);
    if 250 <= n {
        return refuse(LONG_RECORD);
    }
    let m = write_heads::front_size(f, n) + n;
    if 251 < m {
        return refuse(LONG_RECORD);
    }
    let whole = write_elements::element_size(m);
    if buf.len() < whole {
        return refuse(NO_ROOM);
    }
    let p = write_elements::put_lead(buf, 0, 0xa0 + f.frame, m);
    let q = put_body(buf, p, f, figure, numbers, rows, n);
    let count = q as u32;
    Written { number: 0, count }
}

// Writes a record into the caller's buffer. Its front goes by value, its figure and its list as they lie in a host's memory.
pub fn write_from(
    f: types::Front,
    figure: &[u8; 48],
    numbers: &[u32; 32],
    rows: &[u8; 192],
    buf: &mut [u8],
) -> Written
    ensures value { result ≡ write_of (record { front = f; charge = stored_charge figure.now numbers.now rows.now }) (length buf.old) }
    ensures left { buf.new ≡ left_of (record { front = f; charge = stored_charge figure.now numbers.now rows.now }) buf.old }
{
    let g = types_parts::figure_of(figure);
    put_record(f, g, figure, numbers, rows, buf)
}

// Writes a record into the caller's buffer.
pub fn write(r: types::Record, buf: &mut [u8]) -> Written
    ensures value { result ≡ write_of r (length buf.old) }
    ensures left { buf.new ≡ left_of r buf.old }
{
    let f = r.front;
    let g = r.charge.figure;
    let entries = r.charge.entries;
    let figure = types_octets::octets_of(g);
    let numbers = entries.numbers;
    let rows = entries.octets;
    write_from(f, &figure, &numbers, &rows, buf)
}
