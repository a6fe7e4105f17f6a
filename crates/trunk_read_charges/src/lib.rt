// Reads the charge of a trunk's operation 61 or 62. The readers of document 01's charges are used as they are, with a mark that the charge is a trunk's.
//
// What is read is stored in the caller's figure of 48 octets alone.
#![tactic(auto)]

ghost use Rattle.std.specs.Prelude.{◌≡◌, true, false, ◌≤◌, replicate};
ghost use Rattle.coding.specs.Leaves.{given};
ghost use Rattle.coding.specs.inner.Shown.{shown};
ghost use Rattle.types.specs.Arguments.{no_charge, ending, in_money, with_association};
ghost use Rattle.read_figures.specs.inner.Beside.{Unassociated};
ghost use Rattle.trunk_types.specs.Bodies.{billings, figures};
ghost use Rattle.trunk_read_charges.specs.inner.Readers.{figured};
ghost use Rattle.read_lengths.specs.inner.Bounds.{Bounded};

use coding::refusal;
use read_elements::Empty;
use types::{billing, charge_kind, in_figure};

// As wide as a value that is read.
const REVERSE: u32 = billing::REVERSE as u32;

const CREDIT_CARD: u32 = billing::CREDIT_CARD as u32;

const TRANSFER: u32 = billing::TRANSFER as u32;

// Optional billing, never 1.
fn billing_at(s: &[u8], at: usize, end: usize, most: u32) -> read_elements::ChosenRead
    requires { Bounded s.now end × (most ≤ 7) }
    ensures next_value { (result.fault, result.place, result.value, result.next) ≡ shown (record { given = false; value = 0 }) ((given 0x82 (billings most)).read s.now at end) }
    ensures bounded { result.value.value ≤ 7 }
{
    let b = read_elements::chosen_at(s, at, end, 0x82, 0, most);
    if b.value.value != REVERSE {
        return b;
    }
    read_elements::no_chosen(refusal::BAD_CONTENTS, at)
}

// The 30 that holds A1 and the billing.
fn priced_at(s: &[u8], at: usize, end: usize, most: u32, figure: &mut [u8; 48]) -> Empty
    requires bounded { Bounded s.now end × (most ≤ 7) }
    requires figure_value { figure.old ≡ replicate 48 0 }
    ensures figure_after { figured result figure.new ≡ shown no_charge ((ending (billings most) (in_money true)).read s.now at end) }
    ensures free { Unassociated figure.new }
{
    let e = read_lengths::open_at(s, at, end, 0x30);
    if e.fault != 0 {
        return read_elements::halted(e.fault, e.place);
    }
    let a = read_lengths::open_at(s, e.value.start, e.value.stop, 0xa1);
    if a.fault != 0 {
        return read_elements::halted(a.fault, a.place);
    }
    let contents = read_figures::money_at(s, a.value.start, a.value.stop, true, figure);
    let m = read_elements::closed(contents, a.value.stop, a.next);
    if m.fault != 0 {
        return read_elements::halted(m.fault, m.place);
    }
    let b = billing_at(s, m.next, e.value.stop, most);
    if b.fault != 0 {
        return read_elements::halted(b.fault, b.place);
    }
    if b.next != e.value.stop {
        return read_elements::halted(refusal::UNEXPECTED, b.next);
    }
    figure[in_figure::KIND] = charge_kind::MONEY;
    figure[in_figure::BILLED] = read_figures::flag(b.value.given);
    figure[in_figure::BILLING] = b.value.value as u8;
    read_elements::reached(e.next)
}

// 80 00 not available, 81 00 free, or the 30.
fn figure_at(s: &[u8], at: usize, end: usize, most: u32, figure: &mut [u8; 48]) -> Empty
    requires bounded { Bounded s.now end × (most ≤ 7) }
    requires figure_value { figure.old ≡ replicate 48 0 }
    ensures figure_after { figured result figure.new ≡ shown no_charge ((figures most).read s.now at end) }
    ensures free { Unassociated figure.new }
{
    if read_lengths::is_tag(s, at, end, 0x80) {
        return read_figures::sign_at(s, at, end, 0x80, charge_kind::NONE, figure);
    }
    if read_lengths::is_tag(s, at, end, 0x81) {
        return read_figures::sign_at(s, at, end, 0x81, charge_kind::FREE, figure);
    }
    priced_at(s, at, end, most, figure)
}

// The charge of 62.
pub fn interim_at(s: &[u8], at: usize, end: usize, figure: &mut [u8; 48]) -> Empty
    requires bounded { Bounded s.now end }
    requires figure_value { figure.old ≡ replicate 48 0 }
    ensures { figured result figure.new ≡ shown no_charge ((figures 2).read s.now at end) }
{
    figure_at(s, at, end, CREDIT_CARD, figure)
}

// The charge of 61 and its association, which may be a private number.
pub fn final_at(s: &[u8], at: usize, end: usize, figure: &mut [u8; 48]) -> Empty
    requires bounded { Bounded s.now end }
    requires figure_value { figure.old ≡ replicate 48 0 }
    ensures { figured result figure.new ≡ shown no_charge ((with_association true (figures 7)).read s.now at end) }
{
    let u = figure_at(s, at, end, TRANSFER, figure);
    if u.fault != 0 {
        return read_elements::halted(u.fault, u.place);
    }
    read_association::association_at(s, u.next, end, true, figure)
}
