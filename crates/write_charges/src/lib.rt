// Charges that may hold a list: which may be written, how many octets they take, and their octets.
//
// A list lies in two arrays of the caller, which are never copied in a loop.
#![tactic(auto)]

ghost use Rattle.std.specs.Prelude.{◌≡◌, true, ◌≤◌, ◌<◌, length};
ghost use Rattle.coding.specs.Codec.{all, write_all};
ghost use Rattle.coding.specs.inner.Written.{Wrote, Room};
ghost use Rattle.types.specs.Entries.{unit, unit_at, unit_list};
ghost use Rattle.types.specs.Arguments.{charge_of};
ghost use Rattle.write_tests.specs.inner.Fine.{laid, figure_fine, units_fine, entries_fine};
ghost use Rattle.types.specs.Stored.{figure_in, with_list};
ghost use Rattle.write_charges.specs.inner.Octets.{number_octets, type_octets, units_charge};

use types::{Figure, Units, charge_kind};

// ---- an entry of units

fn unit_of(numbers: &[u32; 32], rows: &[u8; 192], i: usize) -> Units
    requires { i < 32 }
    ensures { result ≡ unit_at (laid numbers.now rows.now) i }
{
    Units {
        number: numbers[i],
        known: rows[2 * i],
        kind: rows[2 * i + 1],
    }
}

fn unit_fine(u: Units) -> bool
    ensures { result ≡ unit.valid u }
{
    if 16 < u.kind {
        return false;
    }
    if u.known == 1 {
        return u.number <= types::MOST;
    }
    u.known == 0 && u.number == 0
}

fn number_size(u: Units) -> usize
    ensures value { result ≡ length (number_octets u) }
    ensures few { (2 ≤ result) × (result ≤ 6) }
{
    if u.known == 1 {
        return 2 + write_elements::width_of(u.number);
    }
    2
}

fn type_size(u: Units) -> usize
    requires { u.kind < 128 }
    ensures value { result ≡ length (type_octets u) }
    ensures few { result ≤ 3 }
{
    if u.kind == 0 {
        return 0;
    }
    3
}

fn unit_size(u: Units) -> usize
    requires { unit.valid u ≡ true }
    ensures value { result ≡ length (unit.write u) }
    ensures few { result ≤ 11 }
{
    2 + number_size(u) + type_size(u)
}

fn put_number(buf: &mut [u8], at: usize, u: Units) -> usize
    requires { Room buf.old at (number_octets u) }
    ensures { Wrote buf.old buf.new at (number_octets u) result }
{
    if u.known == 1 {
        return write_elements::put_number(buf, at, 0x02, u.number);
    }
    write_elements::put_null(buf, at, 0x05)
}

fn put_type(buf: &mut [u8], at: usize, u: Units) -> usize
    requires { (u.kind < 128) × Room buf.old at (type_octets u) }
    ensures { Wrote buf.old buf.new at (type_octets u) result }
{
    if u.kind == 0 {
        return at;
    }
    write_elements::put_small(buf, at, 0x02, u.kind)
}

fn put_unit(buf: &mut [u8], at: usize, u: Units) -> usize
    requires u_value { unit.valid u ≡ true }
    requires room { Room buf.old at (unit.write u) }
    ensures { Wrote buf.old buf.new at (unit.write u) result }
{
    let n = number_size(u) + type_size(u);
    let p = write_elements::put_lead(buf, at, 0x30, n);
    let q = put_number(buf, p, u);
    put_type(buf, q, u)
}

// ---- lists of units

// Whether the first n entries may be written.
#[tactic(auto, using(crate::proofs::Search::passing))]
fn units_valid(numbers: &[u32; 32], rows: &[u8; 192], n: usize) -> bool
    requires { n ≤ 32 }
    ensures { result ≡ all unit.valid (unit_list (laid numbers.now rows.now) n) }
{
    for i in 0..n {
        if !unit_fine(unit_of(numbers, rows, i)) {
            return false;
        }
    }
    true
}

#[tactic(auto, using(crate::proofs::Search::passing))]
fn units_fine(numbers: &[u32; 32], rows: &[u8; 192], count: u8) -> bool
    requires { (length numbers.now ≡ 32) × (length rows.now ≡ 192) }
    ensures { result ≡ units_fine (laid numbers.now rows.now) count }
{
    let n = usize::from(count);
    n != 0
        && (n <= 32
            && (write_tests::unused_zero(numbers, rows, n, 2 * n) && units_valid(numbers, rows, n)))
}

// The octets of the first n entries.
#[tactic(auto, using(crate::proofs::Search::octets))]
fn units_size(numbers: &[u32; 32], rows: &[u8; 192], n: usize) -> usize
    requires n_bound { n ≤ 32 }
    requires n_value { all unit.valid (unit_list (laid numbers.now rows.now) n) ≡ true }
    ensures value { result ≡ length (write_all unit.write (unit_list (laid numbers.now rows.now) n)) }
    ensures few { result ≤ 352 }
{
    let mut size = 0;
    for i in 0..n {
        size += unit_size(unit_of(numbers, rows, i));
    }
    size
}

#[tactic(auto, using(crate::proofs::Search::octets))]
fn put_units(buf: &mut [u8], at: usize, numbers: &[u32; 32], rows: &[u8; 192], n: usize) -> usize
    requires n_bound { n ≤ 32 }
    requires n_value { all unit.valid (unit_list (laid numbers.now rows.now) n) ≡ true }
    requires room { Room buf.old at (write_all unit.write (unit_list (laid numbers.now rows.now) n)) }
    ensures { Wrote buf.old buf.new at (write_all unit.write (unit_list (laid numbers.now rows.now) n)) result }
{
    let mut next = at;
    for i in 0..n {
        next = put_unit(buf, next, unit_of(numbers, rows, i));
    }
    next
}

// ---- charges

// Whether a list fits the kind of its charge.
fn entries_fine(f: Figure, numbers: &[u32; 32], rows: &[u8; 192]) -> bool
    requires { (length numbers.now ≡ 32) × (length rows.now ≡ 192) }
    ensures { result ≡ entries_fine (with_list f numbers.now rows.now) }
{
    if f.kind == charge_kind::UNITS {
        return units_fine(numbers, rows, f.count);
    }
    if f.kind == charge_kind::RATES {
        return write_rates::rates_fine(numbers, rows, f.count, false);
    }
    f.count == 0 && write_tests::no_entries(numbers, rows)
}

// Whether a charge may be written as the argument or result of an operation. Its figure is tested where it lies.
pub fn charge_fine(
    f: Figure,
    figure: &[u8; 48],
    numbers: &[u32; 32],
    rows: &[u8; 192],
    operation: u8,
) -> bool
    requires le_operation { (30 ≤ operation) × (operation ≤ 36) }
    requires f_value { f ≡ figure_in figure.now }
    requires numbers_len { (length numbers.now ≡ 32) × (length rows.now ≡ 192) }
    ensures { result ≡ (charge_of operation).valid (with_list f numbers.now rows.now) }
{
    write_masks::parts_fine(figure, operation) && entries_fine(f, numbers, rows)
}

// The octets of a valid charge, which may be too many for a component.
pub fn charge_size(f: Figure, numbers: &[u32; 32], rows: &[u8; 192], operation: u8) -> usize
    requires le_operation { (30 ≤ operation) × (operation ≤ 36) }
    requires rows_len { length rows.now ≡ 192 }
    requires rows_value { (charge_of operation).valid (with_list f numbers.now rows.now) ≡ true }
    ensures value { result ≡ length ((charge_of operation).write (with_list f numbers.now rows.now)) }
    ensures few { result ≤ 600 }
{
    let n = usize::from(f.count);
    if f.kind == charge_kind::UNITS {
        return write_figures::priced_size(f, operation, units_size(numbers, rows, n));
    }
    if f.kind == charge_kind::RATES {
        return write_figures::sized(write_rates::rates_size(numbers, rows, n));
    }
    write_figures::figure_size(f, operation)
}

// A figure whose A1 holds units.
fn put_units_charge(
    buf: &mut [u8],
    at: usize,
    f: Figure,
    numbers: &[u32; 32],
    rows: &[u8; 192],
    operation: u8,
) -> usize
    requires f_value { (figure_fine operation f ≡ true) × (units_fine (laid numbers.now rows.now) f.count ≡ true) }
    requires rows_len_bound { length (units_charge operation f (laid numbers.now rows.now)) ≤ 254 }
    requires room { Room buf.old at (units_charge operation f (laid numbers.now rows.now)) }
    ensures { Wrote buf.old buf.new at (units_charge operation f (laid numbers.now rows.now)) result }
{
    let n = usize::from(f.count);
    let size = units_size(numbers, rows, n);
    let p = write_figures::put_before(buf, at, f, operation, size);
    let q = put_units(buf, p, numbers, rows, n);
    write_figures::put_after(buf, q, f, operation)
}

// A valid charge of at most 254 octets.
pub fn put_charge(
    buf: &mut [u8],
    at: usize,
    f: Figure,
    numbers: &[u32; 32],
    rows: &[u8; 192],
    operation: u8,
) -> usize
    requires le_operation { (30 ≤ operation) × (operation ≤ 36) }
    requires rows_len { length rows.now ≡ 192 }
    requires rows_value { (charge_of operation).valid (with_list f numbers.now rows.now) ≡ true }
    requires rows_len_bound { length ((charge_of operation).write (with_list f numbers.now rows.now)) ≤ 254 }
    requires room { Room buf.old at ((charge_of operation).write (with_list f numbers.now rows.now)) }
    ensures { Wrote buf.old buf.new at ((charge_of operation).write (with_list f numbers.now rows.now)) result }
{
    if f.kind == charge_kind::UNITS {
        return put_units_charge(buf, at, f, numbers, rows, operation);
    }
    if f.kind == charge_kind::RATES {
        return write_rates::put_rates_charge(buf, at, numbers, rows, f.count);
    }
    write_figures::put_figure(buf, at, f, operation)
}
