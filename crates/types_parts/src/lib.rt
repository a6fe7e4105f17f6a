// Takes a record's octets in the caller's memory apart into its numbers and its figure. Numbers lie low octet first.
#![tactic(auto, unfolding(coding::specs::Reader::part, types::specs::Stored::figure_in))]

ghost use Rattle.std.specs.Prelude.{◌≡◌, ◌+◌, ◌*◌};
ghost use Rattle.types.specs.Stored.{two, front_in, money_in, association_in, figure_in};

use types::{Association, Currency, Figure, Front, Money, in_figure, in_front};

pub fn number16(low: u8, high: u8) -> u16
    ensures { result ≡ low + 256 * high }
{
    u16::from_le_bytes([low, high])
}

// The identifier and the error in a trunk's front.
pub fn id_of(front: &[u8; 48]) -> u16
    ensures { result ≡ two front.now 2 }
{
    number16(front[2], front[3])
}

pub fn error_of(front: &[u8; 48]) -> u16
    ensures { result ≡ two front.now 4 }
{
    number16(front[4], front[5])
}

// What lies in a front's 8 octets.
pub fn front_of(f: &[u8; 8]) -> Front
    ensures { result ≡ front_in f.now }
{
    Front {
        frame: f[in_front::FRAME],
        unnamed: f[in_front::UNNAMED],
        id: number16(f[in_front::ID], f[in_front::ID_HIGH]),
        operation: f[in_front::OPERATION],
        error: f[in_front::ERROR],
        problem: f[in_front::PROBLEM],
        detail: f[in_front::DETAIL],
    }
}

// What lies in a figure's 48 octets: money from 0 on, an association from 16 on, the rest from 42 on.
pub fn money_of(f: &[u8; 48]) -> Money
    ensures { result ≡ money_in f.now }
{
    let mut octets = [0; 10];
    octets.copy_from_slice(&f[in_figure::CURRENCY..in_figure::MULTIPLIER]);
    Money {
        currency: Currency {
            count: f[in_figure::CURRENCY_COUNT],
            octets,
        },
        multiplier: f[in_figure::MULTIPLIER],
        number: u32::from_le_bytes([
            f[in_figure::NUMBER],
            f[in_figure::NUMBER_1],
            f[in_figure::NUMBER_2],
            f[in_figure::NUMBER_3],
        ]),
    }
}

pub fn association_of(f: &[u8; 48]) -> Association
    ensures { result ≡ association_in f.now }
{
    let mut digits = [0; 20];
    digits.copy_from_slice(&f[in_figure::DIGITS..in_figure::KIND]);
    Association {
        id: number16(f[in_figure::ID], f[in_figure::ID_HIGH]),
        count: number16(f[in_figure::DIGITS_COUNT], f[in_figure::DIGITS_COUNT_HIGH]),
        kind: f[in_figure::ASSOCIATION_KIND],
        plan: f[in_figure::PLAN],
        digits,
    }
}

pub fn figure_of(f: &[u8; 48]) -> Figure
    ensures { result ≡ figure_in f.now }
{
    let money = money_of(f);
    let association = association_of(f);
    Figure {
        money,
        association,
        kind: f[in_figure::KIND],
        total: f[in_figure::TOTAL],
        billed: f[in_figure::BILLED],
        billing: f[in_figure::BILLING],
        arrangement: f[in_figure::ARRANGEMENT],
        count: f[in_figure::COUNT],
    }
}
