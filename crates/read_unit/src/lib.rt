// Reads and stores one entry of a list of units. Also says what the argument of each operation holds.
//
// All is by value but the stored entry.
#![tactic(auto)]

ghost use Rattle.std.specs.Prelude.{◌≡◌, false, ◌&&◌, ◌||◌, ◌*◌, ◌≤◌, ◌<◌, eqb};
ghost use Rattle.std.proofs.lemmas.List.Edits.{sets};
ghost use Rattle.coding.specs.Reader.{tagged};
ghost use Rattle.coding.specs.inner.Shown.{shown, refusal};
ghost use Rattle.types.specs.Entries.{no_units, unit, unit_numbers, unit_octets};
ghost use Rattle.read_unit.specs.inner.Readers.{unit_number, is_tariff, is_subtotal, is_money, type_by, billing_by, framed_by};
ghost use Rattle.read_lengths.specs.inner.Bounds.{Bounded};

use coding::refusal;
use types::operation;

#[derive(Drop)]
pub struct UnitsRead {
    pub fault: u8,
    pub place: usize,
    pub value: types::Units,
    pub next: usize,
}

// Units and the place after them.
fn units(number: u32, known: u8, kind: u8, next: usize) -> UnitsRead
    ensures { result ≡ record { fault = 0; place = 0; value = record { number = number; known = known; kind = kind }; next = next } }
{
    UnitsRead {
        fault: 0,
        place: 0,
        value: types::Units {
            number,
            known,
            kind,
        },
        next,
    }
}

fn no_units(fault: u8, place: usize) -> UnitsRead
    ensures { (result.fault, result.place, result.value, result.next) ≡ refusal no_units fault place }
{
    UnitsRead {
        fault,
        place,
        value: types::Units {
            number: 0,
            known: 0,
            kind: 0,
        },
        next: 0,
    }
}

// A number of units, or NULL where it is not available.
fn unit_number_at(s: &[u8], at: usize, end: usize) -> UnitsRead
    requires { Bounded s.now end }
    ensures { (result.fault, result.place, result.value, result.next) ≡ shown no_units (unit_number s.now at end) }
{
    if read_lengths::is_tag(s, at, end, 0x05) {
        let z = read_elements::null_at(s, at, end, 0x05);
        if z.fault != 0 {
            return no_units(z.fault, z.place);
        }
        return units(0, 0, 0, z.next);
    }
    let n = read_elements::natural_at(s, at, end, 0x02, 0, types::MOST);
    if n.fault != 0 {
        return no_units(n.fault, n.place);
    }
    units(n.value, 1, 0, n.next)
}

// An entry of a list of units.
pub fn unit_at(s: &[u8], at: usize, end: usize) -> UnitsRead
    requires { Bounded s.now end }
    ensures { (result.fault, result.place, result.value, result.next) ≡ shown no_units (unit.read s.now at end) }
{
    let e = read_lengths::open_at(s, at, end, 0x30);
    if e.fault != 0 {
        return no_units(e.fault, e.place);
    }
    let n = unit_number_at(s, e.value.start, e.value.stop);
    if n.fault != 0 {
        return no_units(n.fault, n.place);
    }
    let k = read_elements::chosen_at(s, n.next, e.value.stop, 0x02, 1, 16);
    if k.fault != 0 {
        return no_units(k.fault, k.place);
    }
    if k.next != e.value.stop {
        return no_units(refusal::UNEXPECTED, k.next);
    }
    units(n.value.number, n.value.known, k.value.value as u8, e.next)
}

// Stores an entry's rows as entry i of a list of units.
pub fn keep_unit(numbers: &mut [u32; 32], rows: &mut [u8; 192], i: usize, u: types::Units)
    requires { i < 32 }
    ensures number { numbers.new ≡ sets numbers.old i (unit_numbers u) }
    ensures octet { rows.new ≡ sets rows.old (2 * i) (unit_octets u) }
{
    numbers[i] = u.number;
    rows[2 * i] = u.known;
    rows[2 * i + 1] = u.kind;
}

// ---- what is read by the operation

// 30 to 32 hand over no figure.
pub fn is_tariff(operation: u8) -> bool
    ensures { result ≡ is_tariff operation }
{
    operation::CHARGING_REQUEST <= operation && operation <= operation::S_SPECIAL
}

// The argument of operation 32, and the special arrangement among the results of operation 30.
pub fn is_arranged(s: &[u8], at: usize, end: usize, operation: u8) -> bool
    requires { Bounded s.now end }
    ensures { result ≡ eqb operation 32 || eqb operation 30 && tagged s.now at end 0x02 }
{
    operation == operation::S_SPECIAL
        || (operation == operation::CHARGING_REQUEST && read_lengths::is_tag(s, at, end, 0x02))
}

// 33 and 34 hand over subtotals and totals; 35 and 36 finals.
pub fn is_subtotal(operation: u8) -> bool
    ensures { result ≡ is_subtotal operation }
{
    operation == operation::D_CURRENCY || operation == operation::D_UNITS
}

// 35 and 33 hand over money; 36 and 34 units.
pub fn is_money(operation: u8) -> bool
    ensures { result ≡ is_money operation }
{
    operation == operation::E_CURRENCY || operation == operation::D_CURRENCY
}

// 35 and 36 have a 30 around the charge and its association; 33 and 34 have none.
pub fn frame_at(s: &[u8], at: usize, end: usize, operation: u8) -> read_lengths::Opened
    requires { Bounded s.now end }
    ensures next_value { (result.fault, result.place, result.value, result.next) ≡ shown (record { start = 0; stop = 0 }) (framed_by (is_subtotal operation) s.now at end) }
    ensures inside { result.value.stop ≤ end }
{
    if !is_subtotal(operation) {
        return read_lengths::open_at(s, at, end, 0x30);
    }
    read_lengths::found(at, end, end)
}

// The type of 33 and 34; 35 and 36 have none.
pub fn type_at(s: &[u8], at: usize, end: usize, operation: u8) -> read_elements::NumberRead
    requires { Bounded s.now end }
    ensures next_value { (result.fault, result.place, result.value, result.next) ≡ shown 0 (type_by (is_subtotal operation) s.now at end) }
    ensures bounded { result.value ≤ 1 }
{
    if is_subtotal(operation) {
        return read_elements::natural_at(s, at, end, 0x82, 0, 1);
    }
    read_elements::number(0, at)
}

// Optional billing: 83 to 2 in 33 and 34, 82 to 7 in 35 and 36.
pub fn billing_at(s: &[u8], at: usize, end: usize, operation: u8) -> read_elements::ChosenRead
    requires { Bounded s.now end }
    ensures next_value { (result.fault, result.place, result.value, result.next) ≡ shown (record { given = false; value = 0 }) (billing_by (is_subtotal operation) s.now at end) }
    ensures bounded { result.value.value ≤ 7 }
{
    if is_subtotal(operation) {
        return read_elements::chosen_at(s, at, end, 0x83, 0, 2);
    }
    read_elements::chosen_at(s, at, end, 0x82, 0, 7)
}
