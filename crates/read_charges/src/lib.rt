// Reading charges: the result of operation 30 and the arguments of operations 31 to 36, where they are available.
//
// The readers store what they read where it will lie: a list in two arrays and the rest in the figure's 48 octets, all zero before.
// After a fault what is stored does not count.
#![tactic(auto)]

ghost use Rattle.std.specs.Prelude.{◌≡◌};
ghost use Rattle.coding.specs.inner.Shown.{shown};
ghost use Rattle.types.specs.Arguments.{no_charge, rates, available};
ghost use Rattle.types.specs.Stored.{Blank};
ghost use Rattle.read_figures.specs.inner.Beside.{Unassociated};
ghost use Rattle.read_lists.specs.inner.Answers.{whole, Clear};
ghost use Rattle.read_charges.specs.inner.Readers.{amount_by, priced_of, settled_of, figure_of};
ghost use Rattle.read_lengths.specs.inner.Bounds.{Bounded};

use coding::refusal;
use types::{charge_kind, in_figure};

// The argument of operation 31, and what a trunk's 63 holds.
pub fn rates_at(
    s: &[u8],
    at: usize,
    end: usize,
    trunk: bool,
    figure: &mut [u8; 48],
    numbers: &mut [u32; 32],
    rows: &mut [u8; 192],
) -> read_elements::Empty
    requires bounded { Bounded s.now end }
    requires blank { Blank figure.old numbers.old rows.old }
    ensures { whole result figure.new numbers.new rows.new ≡ shown no_charge ((rates trunk).read s.now at end) }
{
    let e = read_lengths::open_at(s, at, end, 0x30);
    if e.fault != 0 {
        return read_elements::halted(e.fault, e.place);
    }
    let r = read_lists::rates_in(s, e.value.start, e.value.stop, trunk, figure, numbers, rows);
    read_elements::closed(r, e.value.stop, e.next)
}

// ---- figures: operations 33 to 36, by one set of functions

// What A1 holds.
fn price_in(
    s: &[u8],
    at: usize,
    end: usize,
    operation: u8,
    figure: &mut [u8; 48],
    numbers: &mut [u32; 32],
    rows: &mut [u8; 192],
) -> read_elements::Empty
    requires bounded { Bounded s.now end }
    requires blank { Blank figure.old numbers.old rows.old }
    ensures rows_after { whole result figure.new numbers.new rows.new ≡ shown no_charge ((amount_by operation).read s.now at end) }
    ensures clear { Clear figure.new }
{
    if !read_unit::is_money(operation) {
        return read_lists::units_in(s, at, end, figure, numbers, rows);
    }
    let m = read_figures::money_at(s, at, end, false, figure);
    if m.fault != 0 {
        return read_elements::halted(m.fault, m.place);
    }
    figure[in_figure::KIND] = charge_kind::MONEY;
    read_elements::reached(m.next)
}

// The 30 that holds A1, the type and the billing.
fn priced_at(
    s: &[u8],
    at: usize,
    end: usize,
    operation: u8,
    figure: &mut [u8; 48],
    numbers: &mut [u32; 32],
    rows: &mut [u8; 192],
) -> read_elements::Empty
    requires bounded { Bounded s.now end }
    requires blank { Blank figure.old numbers.old rows.old }
    ensures rows_after { whole result figure.new numbers.new rows.new ≡ shown no_charge ((priced_of operation).read s.now at end) }
    ensures clear { Clear figure.new }
{
    let e = read_lengths::open_at(s, at, end, 0x30);
    if e.fault != 0 {
        return read_elements::halted(e.fault, e.place);
    }
    let a = read_lengths::open_at(s, e.value.start, e.value.stop, 0xa1);
    if a.fault != 0 {
        return read_elements::halted(a.fault, a.place);
    }
    let start = a.value.start;
    let stop = a.value.stop;
    let contents = price_in(s, start, stop, operation, figure, numbers, rows);
    let p = read_elements::closed(contents, stop, a.next);
    if p.fault != 0 {
        return read_elements::halted(p.fault, p.place);
    }
    let t = read_unit::type_at(s, p.next, e.value.stop, operation);
    if t.fault != 0 {
        return read_elements::halted(t.fault, t.place);
    }
    let b = read_unit::billing_at(s, t.next, e.value.stop, operation);
    if b.fault != 0 {
        return read_elements::halted(b.fault, b.place);
    }
    if b.next != e.value.stop {
        return read_elements::halted(refusal::UNEXPECTED, b.next);
    }
    figure[in_figure::TOTAL] = t.value as u8;
    figure[in_figure::BILLED] = read_figures::flag(b.value.given);
    figure[in_figure::BILLING] = b.value.value as u8;
    read_elements::reached(e.next)
}

// 81 00 free, or the 30.
fn settled_at(
    s: &[u8],
    at: usize,
    end: usize,
    operation: u8,
    figure: &mut [u8; 48],
    numbers: &mut [u32; 32],
    rows: &mut [u8; 192],
) -> read_elements::Empty
    requires bounded { Bounded s.now end }
    requires blank { Blank figure.old numbers.old rows.old }
    ensures rows_after { whole result figure.new numbers.new rows.new ≡ shown no_charge ((settled_of operation).read s.now at end) }
    ensures clear { Unassociated figure.new }
{
    if read_lengths::is_tag(s, at, end, 0x81) {
        return read_figures::sign_at(s, at, end, 0x81, charge_kind::FREE, figure);
    }
    priced_at(s, at, end, operation, figure, numbers, rows)
}

// The argument of operations 33 to 36.
fn figure_at(
    s: &[u8],
    at: usize,
    end: usize,
    operation: u8,
    figure: &mut [u8; 48],
    numbers: &mut [u32; 32],
    rows: &mut [u8; 192],
) -> read_elements::Empty
    requires bounded { Bounded s.now end }
    requires blank { Blank figure.old numbers.old rows.old }
    ensures { whole result figure.new numbers.new rows.new ≡ shown no_charge ((figure_of operation).read s.now at end) }
{
    let e = read_unit::frame_at(s, at, end, operation);
    if e.fault != 0 {
        return read_elements::halted(e.fault, e.place);
    }
    let start = e.value.start;
    let stop = e.value.stop;
    let u = settled_at(s, start, stop, operation, figure, numbers, rows);
    if u.fault != 0 {
        return read_elements::halted(u.fault, u.place);
    }
    if read_unit::is_subtotal(operation) {
        return u;
    }
    if u.next == stop {
        return read_elements::reached(e.next);
    }
    let a = read_association::association_at(s, u.next, stop, false, figure);
    read_elements::closed(a, stop, e.next)
}

// ---- by the operation

// The charge into the caller's parts.
pub fn charge_into(
    s: &[u8],
    at: usize,
    end: usize,
    operation: u8,
    figure: &mut [u8; 48],
    numbers: &mut [u32; 32],
    rows: &mut [u8; 192],
) -> read_elements::Empty
    requires bounded { Bounded s.now end }
    requires blank { Blank figure.old numbers.old rows.old }
    ensures { whole result figure.new numbers.new rows.new ≡ shown no_charge ((available operation).read s.now at end) }
{
    if !read_unit::is_tariff(operation) {
        return figure_at(s, at, end, operation, figure, numbers, rows);
    }
    if read_unit::is_arranged(s, at, end, operation) {
        return read_figures::arrangement_at(s, at, end, figure);
    }
    rates_at(s, at, end, false, figure, numbers, rows)
}
