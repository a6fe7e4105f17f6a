// What a month has, an empty one, and a figure that is in range added to it, by value.
//
// A host's memory may hold anything: every value has its answer.
#![tactic(auto)]

ghost use Rattle.std.specs.Prelude.{◌≡◌, ◌<◌};
ghost use Rattle.same_final.specs.Same.{up_to};
ghost use Rattle.month_rows.specs.Rows.{row_of};
ghost use Rattle.month_rules.specs.Month.{used, with_money, with_free, with_units, with_place, added, add_figure, empty_month};

use coding::refusal;
use month_rows::{Grid, Row};
use types::{Charge, Currency, Entries, Money, charge_kind};

// As wide as the answer has them.
const MONTH_FULL: u64 = refusal::MONTH_FULL as u64;

const CURRENCIES_FULL: u64 = refusal::CURRENCIES_FULL as u64;

// added: how many figures. count: how many rows are used. absent: entries of units not available. free: free calls. units: the sum for each type, 0 for none.
#[repr(C)]
#[derive(Drop)]
pub struct Month {
    pub added: u32,
    pub count: u32,
    pub absent: u32,
    pub free: u32,
    pub units: [u64; 17],
    pub rows: [Row; 16],
    pub grid: Grid,
}

// number: 0, or the refusal 10, 46 or 47 with the month as it was.
#[repr(C)]
#[derive(Drop)]
pub struct Added {
    pub number: u64,
    pub month: Month,
}

fn with_units(mut m: Month, e: Entries, count: u8) -> Month
    ensures { result ≡ with_units m e (up_to 32 count) }
{
    let n = same_final::places(u32::from(count), 32);
    let s = month_rows::sum_units(m.units, m.absent, e, n);
    let units = s.units;
    m.units = units;
    m.absent = s.absent;
    m
}

fn with_free(mut m: Month) -> Month
    ensures { result ≡ with_free m }
{
    m.free = m.free.wrapping_add(1);
    m
}

// The row at i is the money's, or is new after the n rows.
fn with_money(mut m: Month, x: Money, i: usize, n: usize) -> Month
    requires { (i < 16) × (n ≡ used m) × (i ≡ row_of x.currency n m.rows) }
    ensures { result ≡ with_money m x }
{
    let t = amounts::thousandths(x.number, x.multiplier);
    m.rows = month_rows::with_row(m.rows, i, n, x.currency, t);
    if i == n {
        m.count = n as u32 + 1;
    }
    m
}

// One figure more of a service and a billing identification.
fn with_place(mut m: Month, service: u32, billed: u8, billing: u8) -> Month
    ensures { result ≡ with_place m service billed billing }
{
    m.grid = month_rows::placed(m.grid, service, billed, billing);
    m.added = m.added.wrapping_add(1);
    m
}

pub fn answer(number: u64, month: Month) -> Added
    ensures { result ≡ added number month }
{
    Added { number, month }
}

// A closing figure that is in range: its service (2 D, 3 E) and its charge.
pub fn add_figure(m: Month, service: u32, c: Charge) -> Added
    ensures { result ≡ add_figure m service c }
{
    if 4096 <= m.added {
        return answer(MONTH_FULL, m);
    }
    let f = c.figure;
    let next = match f.kind {
        charge_kind::MONEY => {
            let n = same_final::places(m.count, 16);
            let i = month_rows::row_of(m.rows, n, f.money.currency);
            if i == 16 {
                return answer(CURRENCIES_FULL, m);
            }
            with_money(m, f.money, i, n)
        }
        charge_kind::FREE => with_free(m),
        _ => with_units(m, c.entries, f.count),
    };
    answer(0, with_place(next, service, f.billed, f.billing))
}

pub fn empty_month() -> Month
    ensures { result ≡ empty_month }
{
    let row = Row {
        currency: Currency {
            count: 0,
            octets: [0; 10],
        },
        unused: 0,
        calls: 0,
        sum: 0,
    };
    Month {
        added: 0,
        count: 0,
        absent: 0,
        free: 0,
        units: [0; 17],
        rows: [row; 16],
        grid: month_rows::grid_of([[0; 9]; 2]),
    }
}
