// One rate: whether it may be written, how many octets it takes, and its octets.
//
// Tests are over the mark of the family; octets are those of a trunk, which writes all that document 01 has, and alike.
#![tactic(auto)]

ghost use Rattle.std.specs.Prelude.{◌≡◌, true, leb, ◌≤◌, length};
ghost use Rattle.coding.specs.inner.Written.{Wrote, Room};
ghost use Rattle.types.specs.Rates.{money_of, rate};
ghost use Rattle.write_rate.specs.inner.Prices.{last_kind, detail_fine, unstepped, step_fine, times_fine, amount_fine, step_octets, term_octets, priced_octets, price_octets};

use types::{Money, Rate, Scaled, rate_kind};

// ---- which rates may be written

fn money_of(r: Rate) -> Money
    ensures { result ≡ money_of r }
{
    let currency = r.currency;
    Money {
        currency,
        multiplier: r.multiplier,
        number: r.number,
    }
}

// Whether there is such a kind of rate.
fn is_kind(kind: u8, trunk: bool) -> bool
    ensures { result ≡ leb kind (last_kind trunk) }
{
    if trunk {
        return kind <= rate_kind::FREE_FROM_BEGINNING;
    }
    kind <= rate_kind::UNKNOWN
}

// The type of a duration, the unit of a volume, a code; no other kind has one.
fn detail_fine(kind: u8, detail: u8, trunk: bool) -> bool
    ensures { result ≡ detail_fine trunk kind detail }
{
    match kind {
        rate_kind::DURATION => detail <= 1,
        rate_kind::VOLUME => detail <= 2,
        rate_kind::CODE => 1 <= detail && detail <= 10,
        _ => rate_kind::FLAT <= kind && (is_kind(kind, trunk) && detail == 0),
    }
}

fn no_step(r: Rate) -> bool
    ensures { result ≡ unstepped r }
{
    r.stepped == 0 && (r.stepscale == 0 && r.step == 0)
}

fn step_fine(r: Rate) -> bool
    ensures { result ≡ step_fine r }
{
    if r.stepped == 1 {
        return write_tests::scaled_fine(Scaled {
            number: r.step,
            scale: r.stepscale,
        });
    }
    no_step(r)
}

// A duration has a time, and a step or none; the others have neither.
fn times_fine(r: Rate) -> bool
    ensures { result ≡ times_fine r }
{
    if r.kind == rate_kind::DURATION {
        let t = Scaled {
            number: r.time,
            scale: r.scale,
        };
        return write_tests::scaled_fine(t) && step_fine(r);
    }
    r.scale == 0 && (r.time == 0 && no_step(r))
}

// Durations, flat rates and volumes have an amount.
fn amount_fine(r: Rate, trunk: bool) -> bool
    ensures { result ≡ amount_fine trunk r }
{
    let m = money_of(r);
    let currency = m.currency;
    let octets = currency.octets;
    if r.kind <= rate_kind::VOLUME {
        return write_tests::money_fine(m, trunk);
    }
    write_tests::no_money(m, &octets)
}

pub fn rate_fine(r: Rate, trunk: bool) -> bool
    ensures { result ≡ (rate trunk).valid r }
{
    r.item <= 4
        && (detail_fine(r.kind, r.detail, trunk) && (times_fine(r) && amount_fine(r, trunk)))
}

// ---- the octets of a rate

fn step_size(r: Rate) -> usize
    requires { (rate true).valid r ≡ true }
    ensures value { result ≡ length (step_octets r) }
    ensures few { result ≤ 11 }
{
    if r.stepped == 1 {
        return write_figures::scaled_size(Scaled {
            number: r.step,
            scale: r.stepscale,
        });
    }
    0
}

// What comes after the amount.
fn terms_size(r: Rate) -> usize
    requires { (rate true).valid r ≡ true }
    ensures value { result ≡ length (term_octets r) }
    ensures few { result ≤ 25 }
{
    if r.kind == rate_kind::FLAT {
        return 0;
    }
    if r.kind == rate_kind::VOLUME {
        return 3;
    }
    let t = Scaled {
        number: r.time,
        scale: r.scale,
    };
    3 + write_figures::scaled_size(t) + step_size(r)
}

// The amount, and what comes after it.
fn priced_size(r: Rate) -> usize
    requires { ((rate true).valid r ≡ true) × (r.kind ≤ 3) }
    ensures value { result ≡ length (priced_octets r) }
    ensures few { result ≤ 48 }
{
    let m = money_of(r);
    write_figures::money_size(m) + terms_size(r)
}

fn price_size(r: Rate) -> usize
    requires { (rate true).valid r ≡ true }
    ensures value { result ≡ length (price_octets r) }
    ensures few { result ≤ 50 }
{
    if r.kind <= rate_kind::VOLUME {
        return 2 + priced_size(r);
    }
    if r.kind == rate_kind::CODE {
        return 3;
    }
    2
}

pub fn rate_size(r: Rate) -> usize
    requires { (rate true).valid r ≡ true }
    ensures value { result ≡ length ((rate true).write r) }
    ensures few { result ≤ 55 }
{
    5 + price_size(r)
}

fn put_step(buf: &mut [u8], at: usize, r: Rate) -> usize
    requires { ((rate true).valid r ≡ true) × Room buf.old at (step_octets r) }
    ensures { Wrote buf.old buf.new at (step_octets r) result }
{
    let t = Scaled {
        number: r.step,
        scale: r.stepscale,
    };
    if r.stepped == 1 {
        return write_figures::put_scaled(buf, at, 0xa5, t);
    }
    at
}

fn put_terms(buf: &mut [u8], at: usize, r: Rate) -> usize
    requires { ((rate true).valid r ≡ true) × Room buf.old at (term_octets r) }
    ensures { Wrote buf.old buf.new at (term_octets r) result }
{
    let t = Scaled {
        number: r.time,
        scale: r.scale,
    };
    if r.kind == rate_kind::FLAT {
        return at;
    }
    if r.kind == rate_kind::VOLUME {
        return write_elements::put_small(buf, at, 0x83, r.detail);
    }
    let p = write_elements::put_small(buf, at, 0x83, r.detail);
    let q = write_figures::put_scaled(buf, p, 0xa4, t);
    put_step(buf, q, r)
}

fn put_priced(buf: &mut [u8], at: usize, r: Rate) -> usize
    requires { ((rate true).valid r ≡ true) × (r.kind ≤ 3) × Room buf.old at (price_octets r) }
    ensures { Wrote buf.old buf.new at (price_octets r) result }
{
    let m = money_of(r);
    let n = priced_size(r);
    let p = write_elements::put_lead(buf, at, 0xa0 + r.kind, n);
    let q = write_figures::put_money(buf, p, m);
    put_terms(buf, q, r)
}

fn put_price(buf: &mut [u8], at: usize, r: Rate) -> usize
    requires { ((rate true).valid r ≡ true) × Room buf.old at (price_octets r) }
    ensures { Wrote buf.old buf.new at (price_octets r) result }
{
    if r.kind <= rate_kind::VOLUME {
        return put_priced(buf, at, r);
    }
    if r.kind == rate_kind::CODE {
        return write_elements::put_small(buf, at, 0x02, r.detail);
    }
    if r.kind == rate_kind::FREE {
        return write_elements::put_null(buf, at, 0x84);
    }
    if r.kind == rate_kind::UNKNOWN {
        return write_elements::put_null(buf, at, 0x85);
    }
    write_elements::put_null(buf, at, 0x86)
}

pub fn put_rate(buf: &mut [u8], at: usize, r: Rate) -> usize
    requires { ((rate true).valid r ≡ true) × Room buf.old at ((rate true).write r) }
    ensures { Wrote buf.old buf.new at ((rate true).write r) result }
{
    let n = price_size(r);
    let p = write_elements::put_lead(buf, at, 0x30, 3 + n);
    let q = write_elements::put_small(buf, p, 0x0a, r.item);
    put_price(buf, q, r)
}
