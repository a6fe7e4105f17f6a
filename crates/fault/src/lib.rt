// Whether the exchange kept the rules of charging, from a call's event list.
//
// The list is gone over once, with an account beside what was seen. Two currencies are remembered: that of the latest counted amount and the one before it.
// Only an amount in a third one has the list gone over up to it again.
#![tactic(auto)]

ghost use Rattle.std.specs.Prelude.{◌+◌, ◌≤◌, ◌/◌, ◌≡◌, true, length};
ghost use Rattle.types.specs.Thousandths.{thousandths};
ghost use Rattle.account.specs.History.{judged};
ghost use Rattle.events.specs.Events.{adds_up, events_of};
ghost use Rattle.events.specs.inner.Prefix.{before};
ghost use Rattle.fault.specs.Rules.{fault_of, fault_at};
ghost use Rattle.fault.specs.inner.Going.{last_next, last_by, judging, turn_of, latest_next, other_next, short_by};
ghost use Rattle.fault.specs.inner.Running.{falls_by, next_of};

use account::Account;
use coding::refusal;
use fault_rules::{FaultAnswer, Seen, rule};
use phases::{Event, Outcome};
use types::{Charge, Currency, Money, NO_MONEY};

const LENGTHS: u32 = refusal::LENGTHS as u32;

// The last counted amount of D in a currency, in thousandths; found: 0 for none.
#[derive(Drop)]
struct Last {
    pub found: u64,
    pub amount: u64,
}

const NO_LAST: Last = Last {
    found: 0,
    amount: 0,
};

#[derive(Drop)]
struct State {
    pub account: Account,
    pub last: Last,
}

// The latest counted amount of D in any currency; found: 0 for none yet.
#[derive(Clone, Copy)]
struct Latest {
    pub found: u64,
    pub money: Money,
}

const NO_LATEST: Latest = Latest {
    found: 0,
    money: NO_MONEY,
};

// other: the latest counted amount of D in another currency than the latest of all.
#[derive(Drop)]
struct Progress {
    pub account: Account,
    pub seen: Seen,
    pub latest: Latest,
    pub other: Latest,
}

// ---- the last counted amount before an event

fn last_by(m: Money) -> Last
    ensures { result ≡ record { found = 1; amount = thousandths m } }
{
    Last {
        found: 1,
        amount: amounts::thousandths(m.number, m.multiplier),
    }
}

fn last_next(l: Last, c: Currency, e: Event, o: Outcome, octets: &[u8]) -> Last
    ensures { result ≡ last_next l c (judging e octets.now o) }
{
    let a = read::read(octets);
    let money = a.value.charge.figure.money;
    let d = fault_rules::invokes_d(e.kind, a.value.front);
    if !fault_rules::counted_money(d, a.value.charge.figure.kind, o) {
        return l;
    }
    if !amounts::same_currency(money.currency, c) {
        return l;
    }
    last_by(money)
}

#[tactic(auto, unfolding(crate::specs::inner::Going::turn_of))]
fn turn(t: State, c: Currency, e: Event, octets: &[u8]) -> State
    ensures { result ≡ turn_of t c e octets.now }
{
    let w = step::step_whole(t.account, e, octets);
    let account = w.account;
    let last = last_next(t.last, c, e, w.outcome, octets);
    State { account, last }
}

// Going back: the first k events once more, with an account of their own.
fn last_in(rows: &[u16], octets: &[u8], k: usize, c: Currency) -> Last
    requires { (adds_up rows.now (length octets.now) ≡ true) × (k ≤ length rows.now / 6) }
    ensures { result ≡ last_by c (judged (before rows.now octets.now k)) }
{
    let account = account::fresh();
    let mut state = State {
        account,
        last: NO_LAST,
    };
    let mut at: usize = 0;
    for i in 0..k {
        let end = at + events::count_at(rows, i);
        let e = events::row_at(rows, i);
        state = turn(state, c, e, &octets[at..end]);
        at = end;
    }
    state.last
}

// The latest of all where its currency is equal, or the other; going back where neither is.
fn last_of(rows: &[u16], octets: &[u8], k: usize, l: Latest, x: Latest, c: Currency) -> Last
    requires { (adds_up rows.now (length octets.now) ≡ true) × (k ≤ length rows.now / 6) }
    ensures { result ≡ short_by l x c (judged (before rows.now octets.now k)) }
{
    if l.found != 1 {
        return NO_LAST;
    }
    if amounts::same_currency(l.money.currency, c) {
        return last_by(l.money);
    }
    if x.found != 1 {
        return NO_LAST;
    }
    if amounts::same_currency(x.money.currency, c) {
        return last_by(x.money);
    }
    last_in(rows, octets, k, c)
}

// ---- one event

// Whether the event after the first k is counted D money below the last one before it in an equal currency.
fn falls(
    rows: &[u16],
    octets: &[u8],
    k: usize,
    l: Latest,
    x: Latest,
    d: bool,
    c: Charge,
    o: Outcome,
) -> bool
    requires { (adds_up rows.now (length octets.now) ≡ true) × (k ≤ length rows.now / 6) }
    ensures { result ≡ falls_by d c o (short_by l x c.figure.money.currency (judged (before rows.now octets.now k))) }
{
    if !fault_rules::counted_money(d, c.figure.kind, o) {
        return false;
    }
    let money = c.figure.money;
    let found = last_of(rows, octets, k, l, x, money.currency);
    found.found == 1 && amounts::thousandths(money.number, money.multiplier) < found.amount
}

fn latest_next(l: Latest, d: bool, kind: u8, m: Money, o: Outcome) -> Latest
    ensures { result ≡ latest_next l d kind m o }
{
    if fault_rules::counted_money(d, kind, o) {
        return Latest { found: 1, money: m };
    }
    l
}

// The latest one becomes the other where an amount in a currency that is not equal follows it.
fn other_next(x: Latest, l: Latest, d: bool, kind: u8, m: Money, o: Outcome) -> Latest
    ensures { result ≡ other_next x l d kind m o }
{
    if !fault_rules::counted_money(d, kind, o) {
        return x;
    }
    if l.found != 1 {
        return x;
    }
    if amounts::same_currency(l.money.currency, m.currency) {
        return x;
    }
    l
}

// The event after the first k, with its part of the octets.
#[tactic(auto, unfolding(crate::specs::inner::Running::next_of))]
fn next(t: Progress, rows: &[u16], octets: &[u8], k: usize, e: Event, part: &[u8]) -> Progress
    requires { (adds_up rows.now (length octets.now) ≡ true) × (k ≤ length rows.now / 6) }
    ensures { result ≡ next_of t (judged (before rows.now octets.now k)) e part.now (k + 1) }
{
    let phase = t.account.status.phase;
    let w = step::step_whole(t.account, e, part);
    let outcome = w.outcome;
    let account = w.account;
    let a = read::read(part);
    let charge = a.value.charge;
    let kind = charge.figure.kind;
    let money = charge.figure.money;
    let d = fault_rules::invokes_d(e.kind, a.value.front);
    // The latest amounts by names of their own: as parts of t they would keep all of it on the stack.
    let l = t.latest;
    let x = t.other;
    let below = falls(rows, octets, k, l, x, d, charge, outcome);
    let rule = fault_rules::breaks_of(d, phase, charge, outcome, t.seen.free, below);
    let seen = fault_rules::seen_next(t.seen, d, kind, outcome, rule, k as u64 + 1);
    let latest = latest_next(l, d, kind, money, outcome);
    let other = other_next(x, l, d, kind, money, outcome);
    Progress {
        account,
        seen,
        latest,
        other,
    }
}

// ---- the list

fn judged_all(rows: &[u16], octets: &[u8]) -> FaultAnswer
    requires { adds_up rows.now (length octets.now) ≡ true }
    ensures { result ≡ fault_of (events_of rows.now octets.now) }
{
    let account = account::fresh();
    let seen = Seen {
        free: 0,
        refused: 0,
        event: 0,
        rule: rule::KEPT,
    };
    let mut state = Progress {
        account,
        seen,
        latest: NO_LATEST,
        other: NO_LATEST,
    };
    let mut at: usize = 0;
    for i in 0..rows.len() / 6 {
        let end = at + events::count_at(rows, i);
        let e = events::row_at(rows, i);
        state = next(state, rows, octets, i, e, &octets[at..end]);
        at = end;
    }
    fault_rules::concluded(state.seen)
}

// Whether the exchange kept the rules, from an event list in slices.
#[tactic(auto, unfolding(crate::specs::Rules::fault_at))]
pub fn fault(rows: &[u16], octets: &[u8]) -> FaultAnswer
    ensures { result ≡ fault_at rows.now octets.now }
{
    if !events::adds_up(rows, octets.len()) {
        return fault_rules::fault_answer(LENGTHS, rule::KEPT, 0);
    }
    judged_all(rows, octets)
}
