// The parts of a month's totals, by value: the rows of currencies, the sums of units by type, the table of services and billing identifications.
//
// A host's memory may hold anything. A count past its places counts them all, and a sum wraps where no month that began empty has it so: every value has its answer.
#![tactic(auto)]

ghost use Rattle.std.specs.Prelude.{◌≡◌, ◌<◌, ◌≤◌};
ghost use Rattle.std.specs.List.{position};
ghost use Rattle.amounts.specs.Currency.{equal_currency};
ghost use Rattle.types.specs.Entries.{unit_at};
ghost use Rattle.month_rows.specs.Rows.{row_of, new_row, one_more, raise};
ghost use Rattle.month_rows.specs.Sums.{add_unit, add_absent, sum_units, count_absent};
ghost use Rattle.month_rows.specs.Places.{raised_at, service_line, billing_column, placed};

use requests::closing_service;
use types::{Currency, Entries, Units};

// currency: as first received. calls: how many figures. sum: in thousandths.
#[repr(C)]
#[derive(Clone, Copy)]
pub struct Row {
    pub currency: Currency,
    pub unused: u8,
    pub calls: u32,
    pub sum: u64,
}

// Counts by service (D, E) and billing identification (0 to 7, 8 for none).
#[repr(C)]
#[derive(Drop)]
pub struct Grid {
    pub cells: [[u32; 9]; 2],
}

// units: a sum for each type, 0 for none. absent: how many entries are not available.
#[derive(Drop)]
pub struct Sums {
    pub units: [u64; 17],
    pub absent: u32,
}

// ---- currencies

// The first row with an equal currency.
fn found(rows: &[Row], c: Currency) -> Option<usize>
    ensures { result ≡ position (λ r. equal_currency r.currency c) rows.now }
{
    rows.iter()
        .position(|r| amounts::same_currency(r.currency, c))
}

// The place of a currency's row: the first of n rows with an equal one, or the next place.
pub fn row_of(rows: [Row; 16], n: usize, c: Currency) -> usize
    requires { n ≤ 16 }
    ensures { result ≡ row_of c n rows }
{
    found(&rows[..n], c).unwrap_or(n)
}

fn new_row(c: Currency, t: u64) -> Row
    ensures { result ≡ new_row c t }
{
    Row {
        currency: c,
        unused: 0,
        calls: 1,
        sum: t,
    }
}

fn raised_row(r: Row, t: u64) -> Row
    ensures { result ≡ one_more r t }
{
    Row {
        calls: r.calls.wrapping_add(1),
        sum: r.sum.wrapping_add(t),
        ..r
    }
}

// A call of t thousandths goes to the row at i, which is the currency's or new after the n rows.
pub fn with_row(mut rows: [Row; 16], i: usize, n: usize, c: Currency, t: u64) -> [Row; 16]
    requires { (i < 16) × (n ≤ 16) × (i ≡ row_of c n rows) }
    ensures { result ≡ raise c t n rows }
{
    if i == n {
        rows[i] = new_row(c, t);
        return rows;
    }
    rows[i] = raised_row(rows[i], t);
    rows
}

// ---- units

fn unit_at(e: Entries, i: usize) -> Units
    requires { i < 32 }
    ensures { result ≡ unit_at e i }
{
    Units {
        number: e.numbers[i],
        known: e.octets[2 * i],
        kind: e.octets[2 * i + 1],
    }
}

fn add_unit(sums: &mut [u64; 17], u: Units)
    ensures { sums.new ≡ add_unit u sums.old }
{
    if u.known != 1 {
        return;
    }
    let k = same_final::places(u32::from(u.kind), 16);
    sums[k] = sums[k].wrapping_add(u64::from(u.number));
}

fn add_absent(n: u32, u: Units) -> u32
    ensures { result ≡ add_absent u n }
{
    if u.known == 1 {
        return n;
    }
    n.wrapping_add(1)
}

// The first n entries of a list are added.
#[tactic(auto, using(crate::proofs::Entries::entries))]
pub fn sum_units(units: [u64; 17], absent: u32, e: Entries, n: usize) -> Sums
    requires { n ≤ 32 }
    ensures { result ≡ record { units = sum_units e 0 n units; absent = count_absent e 0 n absent } }
{
    let mut sums = units;
    let mut none = absent;
    for i in 0..n {
        let u = unit_at(e, i);
        add_unit(&mut sums, u);
        none = add_absent(none, u);
    }
    Sums {
        units: sums,
        absent: none,
    }
}

// ---- the table

fn service_line(service: u32) -> usize
    ensures { (result ≡ service_line service) × (result < 2) }
{
    if service == closing_service::D { 0 } else { 1 }
}

fn billing_column(billed: u8, billing: u8) -> usize
    ensures { (result ≡ billing_column billed billing) × (result < 9) }
{
    if billed == 0 {
        return 8;
    }
    same_final::places(u32::from(billing), 7)
}

fn raised_at(mut t: [[u32; 9]; 2], s: usize, b: usize) -> [[u32; 9]; 2]
    requires { (s < 2) × (b < 9) }
    ensures { result ≡ raised_at t s b }
{
    t[s][b] = t[s][b].wrapping_add(1);
    t
}

pub fn grid_of(cells: [[u32; 9]; 2]) -> Grid
    ensures { result ≡ record { cells = cells } }
{
    Grid { cells }
}

// One figure more of a service and a billing identification.
pub fn placed(g: Grid, service: u32, billed: u8, billing: u8) -> Grid
    ensures { result ≡ placed g service billed billing }
{
    let cells = raised_at(
        g.cells,
        service_line(service),
        billing_column(billed, billing),
    );
    grid_of(cells)
}
