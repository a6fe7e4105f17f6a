// Amounts: in thousandths, and when two are equal. Every value of the structs has its answer: a count past its array counts as the array's length.
#![tactic(auto)]

ghost use Rattle.std.specs.Prelude.{◌≡◌, ◌*◌, ◌≤◌, ◌<◌, get_or};
ghost use Rattle.types.specs.Thousandths.{powers};
ghost use Rattle.amounts.specs.Currency.{counted, equal_currency};
ghost use Rattle.amounts.specs.Amounts.{equal_money};

use types::{Currency, Money};

const POWERS: [u64; 7] = [1, 10, 100, 1000, 10000, 100000, 1000000];

// An amount in thousandths: its number times the multiplier's power of ten, and 0 where no multiplier is so high.
pub fn thousandths(number: u32, multiplier: u8) -> u64
    ensures product { result ≡ number * get_or powers multiplier 0 }
    ensures bounded { number ≤ 16777215 → result ≤ 16777215000000 }
{
    if multiplier < 7 {
        (number as u64) * POWERS[multiplier as usize]
    } else {
        0
    }
}

// The octet at a place of a currency; past its count spaces go on.
fn letter(c: Currency, i: usize) -> u8
    requires { i < 10 }
    ensures { result ≡ get_or (counted c) i 0x20 }
{
    let n = c.count as usize;
    if i < n { c.octets[i] } else { 0x20 }
}

// Whether two currencies are equal, whatever spaces trail. No derived `==`: that would tell EUR from EUR with a space (`equal_currency`).
pub fn same_currency(a: Currency, b: Currency) -> bool
    ensures { result ≡ equal_currency a b }
{
    (0..10).all(|i| letter(a, i) == letter(b, i))
}

// Whether two amounts are equal, in equal currencies. No derived `==`: 50 with multiplier 1 is 500 with multiplier 0 (`equal_money`).
#[tactic(auto, unfolding(crate::specs::Amounts::equal_money))]
pub fn same_money(a: Money, b: Money) -> bool
    ensures { result ≡ equal_money a b }
{
    thousandths(a.number, a.multiplier) == thousandths(b.number, b.multiplier)
        && same_currency(a.currency, b.currency)
}
