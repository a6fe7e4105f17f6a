// When two finals of a call are the same. Every value of the structs has its answer: a count past its array counts as the array's length.
#![tactic(auto)]

ghost use Rattle.std.specs.Prelude.{◌≡◌, ◌≤◌, ◌<◌};
ghost use Rattle.same_final.specs.Same.{up_to, equal_units, same_of};

use types::{Charge, Entries, charge_kind};

// How many places a count uses, of those there are.
pub fn places(count: u32, most: usize) -> usize
    ensures { (result ≡ up_to most count) × (result ≤ most) }
{
    most.min(count as usize)
}

// Whether the first entries of two lists of units are the same. Only those: the places after the count may differ (`equal_units`).
fn same_entries(a: Entries, b: Entries, count: u8) -> bool
    ensures { result ≡ equal_units a b count }
{
    let n = places(count as u32, 32);
    a.numbers[..n] == b.numbers[..n] && a.octets[..2 * n] == b.octets[..2 * n]
}

// Whether two finals are the same. No derived `==`: billing and association are not compared (`same_of`).
#[tactic(auto, unfolding(crate::specs::Same::same_of))]
pub fn same(a: Charge, b: Charge) -> bool
    ensures { result ≡ same_of a b }
{
    let f = a.figure;
    let g = b.figure;
    if f.kind != g.kind {
        return false;
    }
    match f.kind {
        charge_kind::FREE => true,
        charge_kind::MONEY => amounts::same_money(f.money, g.money),
        charge_kind::UNITS => f.count == g.count && same_entries(a.entries, b.entries, f.count),
        _ => false,
    }
}
