// Reading an entry of a list of rates, and keeping it in the list's two arrays.
#![tactic(auto)]

ghost use Rattle.std.specs.Prelude.{◌≡◌, ◌+◌, ◌*◌, ◌≤◌, ◌<◌, take};
ghost use Rattle.std.proofs.lemmas.List.Edits.{sets};
ghost use Rattle.coding.specs.Codec.{sort, pad};
ghost use Rattle.coding.specs.inner.Shown.{shown, refusal};
ghost use Rattle.types.specs.Charges.{no_money, money};
ghost use Rattle.types.specs.Rates.{no_scaled, no_rate, is_rate, duration, flat_rate, volume, coded, plain_rate, price, rate, rate_numbers, rate_octets};
ghost use Rattle.read_rate.specs.inner.Readers.{accepted, no_step, step_time, rated_as};
ghost use Rattle.read_lengths.specs.inner.Bounds.{Bounded};

use coding::refusal;
use types::{in_rate, rate_kind};

// The time of a step, which may be absent.
#[derive(Drop)]
struct Step {
    pub given: u8,
    pub time: types::Scaled,
}

#[derive(Drop)]
struct StepRead {
    pub fault: u8,
    pub place: usize,
    pub value: Step,
    pub next: usize,
}

const NO_STEP: Step = Step {
    given: 0,
    time: types::NO_SCALED,
};

// Optional A5 time.
fn step_at(s: &[u8], at: usize, end: usize) -> StepRead
    requires { Bounded s.now end }
    ensures { (result.fault, result.place, result.value, result.next) ≡ shown no_step (step_time s.now at end) }
{
    if read_lengths::is_tag(s, at, end, 0xa5) {
        let t = read_figures::scaled_at(s, at, end, 0xa5);
        if t.fault != 0 {
            return StepRead {
                fault: t.fault,
                place: t.place,
                value: NO_STEP,
                next: 0,
            };
        }
        let time = t.value;
        return StepRead {
            fault: 0,
            place: 0,
            value: Step { given: 1, time },
            next: t.next,
        };
    }
    StepRead {
        fault: 0,
        place: 0,
        value: NO_STEP,
        next: at,
    }
}

#[derive(Drop)]
struct MoneyRead {
    pub fault: u8,
    pub place: usize,
    pub value: types::Money,
    pub next: usize,
}

// 81 currency, A2 amount, as a value of its own.
fn money_at(s: &[u8], at: usize, end: usize, trunk: bool) -> MoneyRead
    requires { Bounded s.now end }
    ensures { (result.fault, result.place, result.value, result.next) ≡ shown no_money ((money trunk).read s.now at end) }
{
    let mut f: [u8; 48] = [0; 48];
    let m = read_figures::money_at(s, at, end, trunk, &mut f);
    if m.fault != 0 {
        return MoneyRead {
            fault: m.fault,
            place: m.place,
            value: types::NO_MONEY,
            next: 0,
        };
    }
    let value = types_parts::money_of(&f);
    MoneyRead {
        fault: 0,
        place: 0,
        value,
        next: m.next,
    }
}

#[derive(Drop)]
pub struct RateRead {
    pub fault: u8,
    pub place: usize,
    pub value: types::Rate,
    pub next: usize,
}

// A rate of a kind, read up to next; its item is set later.
fn rate_read(
    kind: u8,
    money: types::Money,
    detail: u8,
    time: types::Scaled,
    step: Step,
    next: usize,
) -> RateRead
    ensures { (result.fault, result.place, result.value, result.next) ≡ accepted (rated_as kind money detail time step) next }
{
    let currency = money.currency;
    RateRead {
        fault: 0,
        place: 0,
        value: types::Rate {
            item: 0,
            kind,
            detail,
            stepped: step.given,
            scale: time.scale,
            stepscale: step.time.scale,
            multiplier: money.multiplier,
            currency,
            number: money.number,
            time: time.number,
            step: step.time.number,
        },
        next,
    }
}

// The same without a time and a step.
fn untimed(kind: u8, money: types::Money, detail: u8, next: usize) -> RateRead
    ensures { (result.fault, result.place, result.value, result.next) ≡ accepted (rated_as kind money detail no_scaled no_step) next }
{
    rate_read(kind, money, detail, types::NO_SCALED, NO_STEP, next)
}

fn no_rate(fault: u8, place: usize) -> RateRead
    ensures { (result.fault, result.place, result.value, result.next) ≡ refusal no_rate fault place }
{
    let mut r = untimed(0, types::NO_MONEY, 0, 0);
    r.fault = fault;
    r.place = place;
    r
}

// A1: currency, amount, 83 type, A4 time, optional A5 time.
fn duration_at(s: &[u8], at: usize, end: usize, trunk: bool) -> RateRead
    requires { Bounded s.now end }
    ensures { (result.fault, result.place, result.value, result.next) ≡ shown no_rate ((duration trunk).read s.now at end) }
{
    let e = read_lengths::open_at(s, at, end, 0xa1);
    if e.fault != 0 {
        return no_rate(e.fault, e.place);
    }
    let m = money_at(s, e.value.start, e.value.stop, trunk);
    if m.fault != 0 {
        return no_rate(m.fault, m.place);
    }
    let d = read_elements::natural_at(s, m.next, e.value.stop, 0x83, 0, 1);
    if d.fault != 0 {
        return no_rate(d.fault, d.place);
    }
    let t = read_figures::scaled_at(s, d.next, e.value.stop, 0xa4);
    if t.fault != 0 {
        return no_rate(t.fault, t.place);
    }
    let g = step_at(s, t.next, e.value.stop);
    if g.fault != 0 {
        return no_rate(g.fault, g.place);
    }
    if g.next != e.value.stop {
        return no_rate(refusal::UNEXPECTED, g.next);
    }
    let kind = rate_kind::DURATION;
    rate_read(kind, m.value, d.value as u8, t.value, g.value, e.next)
}

// A2: currency, amount.
fn flat_at(s: &[u8], at: usize, end: usize, trunk: bool) -> RateRead
    requires { Bounded s.now end }
    ensures { (result.fault, result.place, result.value, result.next) ≡ shown no_rate ((flat_rate trunk).read s.now at end) }
{
    let e = read_lengths::open_at(s, at, end, 0xa2);
    if e.fault != 0 {
        return no_rate(e.fault, e.place);
    }
    let m = money_at(s, e.value.start, e.value.stop, trunk);
    if m.fault != 0 {
        return no_rate(m.fault, m.place);
    }
    if m.next != e.value.stop {
        return no_rate(refusal::UNEXPECTED, m.next);
    }
    untimed(rate_kind::FLAT, m.value, 0, e.next)
}

// A3: currency, amount, 83 unit.
fn volume_at(s: &[u8], at: usize, end: usize, trunk: bool) -> RateRead
    requires { Bounded s.now end }
    ensures { (result.fault, result.place, result.value, result.next) ≡ shown no_rate ((volume trunk).read s.now at end) }
{
    let e = read_lengths::open_at(s, at, end, 0xa3);
    if e.fault != 0 {
        return no_rate(e.fault, e.place);
    }
    let m = money_at(s, e.value.start, e.value.stop, trunk);
    if m.fault != 0 {
        return no_rate(m.fault, m.place);
    }
    let d = read_elements::natural_at(s, m.next, e.value.stop, 0x83, 0, 2);
    if d.fault != 0 {
        return no_rate(d.fault, d.place);
    }
    if d.next != e.value.stop {
        return no_rate(refusal::UNEXPECTED, d.next);
    }
    untimed(rate_kind::VOLUME, m.value, d.value as u8, e.next)
}

// 02: a code.
fn coded_at(s: &[u8], at: usize, end: usize) -> RateRead
    requires { Bounded s.now end }
    ensures { (result.fault, result.place, result.value, result.next) ≡ shown no_rate (coded.read s.now at end) }
{
    let n = read_elements::natural_at(s, at, end, 0x02, 1, 10);
    if n.fault != 0 {
        return no_rate(n.fault, n.place);
    }
    untimed(rate_kind::CODE, types::NO_MONEY, n.value as u8, n.next)
}

// 84 00 free, 85 00 unknown: a tag with no contents stands for a kind.
fn plain_rate_at(s: &[u8], at: usize, end: usize, tag: u8, kind: u8) -> RateRead
    requires { Bounded s.now end }
    ensures { (result.fault, result.place, result.value, result.next) ≡ shown no_rate ((plain_rate tag kind).read s.now at end) }
{
    let z = read_elements::null_at(s, at, end, tag);
    if z.fault != 0 {
        return no_rate(z.fault, z.place);
    }
    untimed(kind, types::NO_MONEY, 0, z.next)
}

// The last two choices of a trunk: 85 00 unknown, 86 00 free from the beginning.
fn late_at(s: &[u8], at: usize, end: usize) -> RateRead
    requires { Bounded s.now end }
    ensures { (result.fault, result.place, result.value, result.next) ≡ shown no_rate ((sort 0x85 (is_rate 6) (plain_rate 0x85 6) (plain_rate 0x86 7)).read s.now at end) }
{
    if read_lengths::is_tag(s, at, end, 0x85) {
        return plain_rate_at(s, at, end, 0x85, rate_kind::UNKNOWN);
    }
    plain_rate_at(s, at, end, 0x86, rate_kind::FREE_FROM_BEGINNING)
}

// What an entry says of its item, by the next tag.
fn price_at(s: &[u8], at: usize, end: usize, trunk: bool) -> RateRead
    requires { Bounded s.now end }
    ensures { (result.fault, result.place, result.value, result.next) ≡ shown no_rate ((price trunk).read s.now at end) }
{
    if read_lengths::is_tag(s, at, end, 0xa1) {
        return duration_at(s, at, end, trunk);
    }
    if read_lengths::is_tag(s, at, end, 0xa2) {
        return flat_at(s, at, end, trunk);
    }
    if read_lengths::is_tag(s, at, end, 0xa3) {
        return volume_at(s, at, end, trunk);
    }
    if read_lengths::is_tag(s, at, end, 0x02) {
        return coded_at(s, at, end);
    }
    if read_lengths::is_tag(s, at, end, 0x84) {
        return plain_rate_at(s, at, end, 0x84, rate_kind::FREE);
    }
    if trunk {
        return late_at(s, at, end);
    }
    plain_rate_at(s, at, end, 0x85, rate_kind::UNKNOWN)
}

// An entry: 0A item, and its price.
pub fn rate_at(s: &[u8], at: usize, end: usize, trunk: bool) -> RateRead
    requires { Bounded s.now end }
    ensures { (result.fault, result.place, result.value, result.next) ≡ shown no_rate ((rate trunk).read s.now at end) }
{
    let e = read_lengths::open_at(s, at, end, 0x30);
    if e.fault != 0 {
        return no_rate(e.fault, e.place);
    }
    let n = read_elements::natural_at(s, e.value.start, e.value.stop, 0x0a, 0, 4);
    if n.fault != 0 {
        return no_rate(n.fault, n.place);
    }
    let p = price_at(s, n.next, e.value.stop, trunk);
    if p.fault != 0 {
        return no_rate(p.fault, p.place);
    }
    if p.next != e.value.stop {
        return no_rate(refusal::UNEXPECTED, p.next);
    }
    let mut value = p.value;
    value.item = n.value as u8;
    RateRead {
        fault: 0,
        place: 0,
        value,
        next: e.next,
    }
}

// Stores a currency's ten places.
fn keep_text(rows: &mut [u8; 192], at: usize, text: [u8; 10])
    requires { at ≤ 182 }
    ensures { rows.new ≡ sets rows.old at (take 10 (pad 10 0 text)) }
{
    octets::put_octets(rows, at, &text, 10);
}

// Stores an entry's rows as entry i of a list of rates.
pub fn keep_rate(numbers: &mut [u32; 32], rows: &mut [u8; 192], i: usize, r: types::Rate)
    requires { i < 10 }
    ensures number { numbers.new ≡ sets numbers.old (3 * i) (rate_numbers r) }
    ensures octet { rows.new ≡ sets rows.old (18 * i) (rate_octets r) }
{
    let n = 3 * i;
    numbers[n] = r.number;
    numbers[n + 1] = r.time;
    numbers[n + 2] = r.step;
    let at = 18 * i;
    rows[at] = r.item;
    rows[at + in_rate::KIND] = r.kind;
    rows[at + in_rate::DETAIL] = r.detail;
    rows[at + in_rate::STEPPED] = r.stepped;
    rows[at + in_rate::SCALE] = r.scale;
    rows[at + in_rate::STEP_SCALE] = r.stepscale;
    rows[at + in_rate::MULTIPLIER] = r.multiplier;
    let currency = r.currency;
    rows[at + in_rate::CURRENCY_COUNT] = currency.count;
    let text = currency.octets;
    keep_text(rows, at + in_rate::CURRENCY, text);
}
