// A call's event list in two slices: rows of six numbers, and the octets of all events end to end.
//
// A row: the kind; the services asked for, 1 S, 2 D, 4 E added up; the identifiers of S, D, E; how many of the octets are the event's.
#![tactic(auto)]

ghost use Rattle.std.specs.Prelude.{◌<◌, ◌/◌, ◌%◌, ◌≡◌, cond, length, eqb};
ghost use Rattle.coding.specs.inner.Written.{Wrote, Room};
ghost use Rattle.events.specs.Events.{kind_of, set_of, row_at, count_at, adds_up, rows_fit};
ghost use Rattle.events.specs.Laid.{bits_of, laid_row};
ghost use Rattle.events.specs.Earliest.{within, or_else};

// Where the numbers stand in a row, after the kind.
pub mod in_row {
    pub const ASKED: usize = 1;

    pub const S: usize = 2;

    pub const D: usize = 3;

    pub const E: usize = 4;

    pub const COUNT: usize = 5;
}

// Whether the counts of the rows add up to the octets.
fn rows_fit(rows: &[u16], total: usize) -> bool
    ensures { result ≡ rows_fit rows.now 0 (length rows.now / 6) total }
{
    let mut left = total;
    for i in 0..rows.len() / 6 {
        let count = count_at(rows, i);
        if left < count {
            return false;
        }
        left -= count;
    }
    left == 0
}

// Whether the slices are an event list.
#[tactic(auto, unfolding(crate::specs::Events::adds_up))]
pub fn adds_up(rows: &[u16], total: usize) -> bool
    ensures { result ≡ adds_up rows.now total }
{
    rows.len() % 6 == 0 && rows_fit(rows, total)
}

fn kind_of(n: u16) -> u8
    ensures { result ≡ kind_of n }
{
    u8::try_from(n).unwrap_or(0)
}

fn set_of(n: u16) -> requests::Services
    ensures { result ≡ set_of n }
{
    requests::Services {
        s: (n % 2) as u8,
        d: (n / 2 % 2) as u8,
        e: (n / 4 % 2) as u8,
    }
}

// The event of row i, but for its octets.
pub fn row_at(rows: &[u16], i: usize) -> phases::Event
    requires { i < length rows.now / 6 }
    ensures { result ≡ row_at rows.now i }
{
    let kind = kind_of(rows[i * 6]);
    let asked = set_of(rows[i * 6 + in_row::ASKED]);
    phases::Event {
        kind,
        asked,
        s: rows[i * 6 + in_row::S],
        d: rows[i * 6 + in_row::D],
        e: rows[i * 6 + in_row::E],
    }
}

// How many octets the event of row i has.
pub fn count_at(rows: &[u16], i: usize) -> usize
    requires { i < length rows.now / 6 }
    ensures { result ≡ count_at rows.now i }
{
    usize::from(rows[i * 6 + in_row::COUNT])
}

// ---- a row written

fn bit(mark: u8, value: u16) -> u16
    ensures { result ≡ cond (eqb mark 0) 0 value }
{
    if mark == 0 { 0 } else { value }
}

fn bits_of(t: requests::Services) -> u16
    ensures { result ≡ bits_of t }
{
    bit(t.s, 1) + bit(t.d, 2) + bit(t.e, 4)
}

// A row written from a place on. The place after it.
pub fn put_row(rows: &mut [u16], at: usize, e: phases::Event, count: u16) -> usize
    requires { Room rows.old at (laid_row e count) }
    ensures { Wrote rows.old rows.new at (laid_row e count) result }
{
    rows[at] = u16::from(e.kind);
    rows[at + in_row::ASKED] = bits_of(e.asked);
    rows[at + in_row::S] = e.s;
    rows[at + in_row::D] = e.d;
    rows[at + in_row::E] = e.e;
    rows[at + in_row::COUNT] = count;
    at + 6
}

// ---- the earliest event of a sort

pub fn within(low: u8, n: u8, high: u8) -> bool
    ensures { result ≡ within low n high }
{
    low <= n && n <= high
}

// The event that was found before, else this one if it passes.
pub fn or_else(found: u64, passes: bool, number: u64) -> u64
    ensures { result ≡ or_else found passes number }
{
    if found != 0 {
        return found;
    }
    if passes { number } else { 0 }
}
