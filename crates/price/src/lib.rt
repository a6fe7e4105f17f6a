// The price of a call as the front desk's screen takes it: doubles.
#![tactic(auto)]

ghost use Rattle.std.specs.Prelude.{◌≡◌, ◌≤◌};
ghost use Rattle.price.specs.Price.{no_amount, priced_money, price_of};

use coding::refusal;
use requests::closing_service;
use types::{Charge, Currency, Money, charge_kind};

// As wide as the answer has them.
const NO_CLOSING: u32 = refusal::NO_CLOSING as u32;

const BAD_RECORD: u32 = refusal::BAD_RECORD as u32;

const UNIT_LIST: u32 = refusal::UNIT_LIST as u32;

// number: 0, or the refusal 39, 10 or 38. free: 1 for a call that is free. What is not used is zero.
#[repr(C)]
#[derive(Drop)]
pub struct Priced {
    pub number: u32,
    pub free: u8,
    pub currency: Currency,
    pub thousandths: f64,
    pub quotient: f64,
}

fn no_amount(number: u32, free: u8) -> Priced
    ensures { result ≡ no_amount number free }
{
    Priced {
        number,
        free,
        currency: Currency {
            count: 0,
            octets: [0; 10],
        },
        thousandths: 0.0,
        quotient: 0.0,
    }
}

// The thousandths are below 2 to the 53rd, so that the cast is exact; the division rounds once.
fn priced_money(m: Money) -> Priced
    requires { m.number ≤ 16777215 }
    ensures { result ≡ priced_money m }
{
    let c = m.currency;
    let x = amounts::thousandths(m.number, m.multiplier) as f64;
    Priced {
        number: 0,
        free: 0,
        currency: c,
        thousandths: x,
        quotient: x / 1000.0,
    }
}

// service: 0 for no closing figure.
pub fn price(service: u32, c: Charge) -> Priced
    ensures { result ≡ price_of service c }
{
    let kind = c.figure.kind;
    if service == closing_service::NONE {
        return no_amount(NO_CLOSING, 0);
    }
    if !closing::in_range(service, c) {
        return no_amount(BAD_RECORD, 0);
    }
    match kind {
        charge_kind::UNITS => no_amount(UNIT_LIST, 0),
        charge_kind::FREE => no_amount(0, 1),
        _ => priced_money(c.figure.money),
    }
}
