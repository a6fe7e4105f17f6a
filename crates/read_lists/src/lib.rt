// Reads lists of units and of rates into the two arrays of a record, all zero before, and their count into the figure's 48 octets.
//
// After a fault what is stored does not count.
#![tactic(auto)]

ghost use Rattle.std.specs.Prelude.{◌≡◌};
ghost use Rattle.coding.specs.inner.Shown.{shown};
ghost use Rattle.types.specs.Arguments.{no_charge, in_units};
ghost use Rattle.types.specs.Stored.{Blank};
ghost use Rattle.read_lists.specs.inner.Answers.{whole, Clear, in_rates};
ghost use Rattle.read_lengths.specs.inner.Bounds.{Bounded};

use coding::refusal;
use types::{charge_kind, in_figure};

// 1 to 32 entries of units, up to the end of the enclosing element.
pub fn units_in(
    s: &[u8],
    at: usize,
    end: usize,
    figure: &mut [u8; 48],
    numbers: &mut [u32; 32],
    rows: &mut [u8; 192],
) -> read_elements::Empty
    requires bounded { Bounded s.now end }
    requires blank { Blank figure.old numbers.old rows.old }
    ensures rows_after { whole result figure.new numbers.new rows.new ≡ shown no_charge (in_units.read s.now at end) }
    ensures clear { Clear figure.new }
{
    if end <= at {
        return read_elements::halted(refusal::MISSING, end);
    }
    let mut count: usize = 0;
    let mut i = at;
    while i < end {
        if 32 <= count {
            if s[i] == 0x30 {
                return read_elements::halted(refusal::PAST_LIMIT, i);
            }
            return read_elements::halted(refusal::UNEXPECTED, i);
        }
        let u = read_unit::unit_at(s, i, end);
        if u.fault != 0 {
            return read_elements::halted(u.fault, u.place);
        }
        let v = u.value;
        read_unit::keep_unit(numbers, rows, count, v);
        count += 1;
        i = u.next;
    }
    figure[in_figure::KIND] = charge_kind::UNITS;
    figure[in_figure::COUNT] = count as u8;
    read_elements::reached(i)
}

// 1 to 10 entries of rates, up to the end of the enclosing element.
pub fn rates_in(
    s: &[u8],
    at: usize,
    end: usize,
    trunk: bool,
    figure: &mut [u8; 48],
    numbers: &mut [u32; 32],
    rows: &mut [u8; 192],
) -> read_elements::Empty
    requires bounded { Bounded s.now end }
    requires blank { Blank figure.old numbers.old rows.old }
    ensures { whole result figure.new numbers.new rows.new ≡ shown no_charge (in_rates trunk s.now at end) }
{
    if end <= at {
        return read_elements::halted(refusal::MISSING, end);
    }
    let mut count: usize = 0;
    let mut i = at;
    while i < end {
        if 10 <= count {
            if s[i] == 0x30 {
                return read_elements::halted(refusal::PAST_LIMIT, i);
            }
            return read_elements::halted(refusal::UNEXPECTED, i);
        }
        let r = read_rate::rate_at(s, i, end, trunk);
        if r.fault != 0 {
            return read_elements::halted(r.fault, r.place);
        }
        let v = r.value;
        read_rate::keep_rate(numbers, rows, count, v);
        count += 1;
        i = r.next;
    }
    figure[in_figure::KIND] = charge_kind::RATES;
    figure[in_figure::COUNT] = count as u8;
    read_elements::reached(i)
}
