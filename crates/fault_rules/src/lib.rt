// Says whether an event breaks a rule that the exchange has to keep, by value, and what is remembered of the events so far.
#![tactic(auto)]

ghost use Rattle.std.specs.Prelude.{◌≡◌, eqb};
ghost use Rattle.outcomes.specs.Outcome.{is_refusal};
ghost use Rattle.fault_rules.specs.Figures.{invokes_d, amount_kind, is_counted, nothing_by, zero_units, is_zero, fault_answer};
ghost use Rattle.fault_rules.specs.inner.Breaking.{placed_by, misplaced_by, money_by, charges_by, breaks_by, free_next, seen_next, concluded};

use coding::refusal;
use phases::Outcome;
use types::{Charge, Entries, Front, charge_kind, frame, operation};

const IN_LIST: u32 = refusal::IN_LIST as u32;

// The rules, each by its name in include/aoc.h.
pub mod rule {
    pub const KEPT: u32 = 0;

    pub const PLACE: u32 = 1;

    pub const FALL: u32 = 2;

    pub const FREE: u32 = 3;

    pub const FINAL: u32 = 4;
}

// number: 0; 34 for a list with a refused event; 48 for slices that are no event list. rule: 1 to 4, or 0 for none broken. event: its number, from 1; 0 for none.
#[repr(C)]
#[derive(Drop)]
pub struct FaultAnswer {
    pub number: u32,
    pub rule: u32,
    pub event: u64,
}

// free: 1 after a counted free mark of D. refused: the first refused event, or 0. event, rule: the first event that breaks a rule, and the rule, or 0.
#[derive(Drop)]
pub struct Seen {
    pub free: u64,
    pub refused: u64,
    pub event: u64,
    pub rule: u32,
}

// ---- what an event is

fn is_counted(o: Outcome) -> bool
    ensures { result ≡ is_counted o }
{
    o.number == outcomes::NEW_RUNNING || o.number == outcomes::FINAL
}

#[tactic(auto, unfolding(outcomes::specs::Outcome::is_refusal))]
fn is_refused(n: u8) -> bool
    ensures { result ≡ is_refusal n }
{
    events::within(refusal::CUT, n, refusal::UNKNOWN_ERROR)
        || (events::within(refusal::MISSING, n, refusal::PAST_LIMIT)
            || events::within(refusal::BAD_SETUP, n, refusal::WRONG_PHASE))
}

// Whether an event of a kind, with a component's front, is an invoke of D.
pub fn invokes_d(kind: u8, f: Front) -> bool
    ensures { result ≡ invokes_d kind f }
{
    kind == phases::COMPONENT
        && (f.frame == frame::INVOKE
            && events::within(operation::D_CURRENCY, f.operation, operation::D_UNITS))
}

fn is_amount(kind: u8) -> bool
    ensures { result ≡ amount_kind kind }
{
    kind == charge_kind::MONEY || kind == charge_kind::UNITS
}

// Whether an entry has no number but zero.
fn is_nothing(known: u8, number: u32) -> bool
    ensures { result ≡ nothing_by known number }
{
    known != 1 || number == 0
}

// Whether every number of a list of units is zero.
fn zero_units(e: Entries, count: u8) -> bool
    ensures { result ≡ zero_units e count }
{
    let n = same_final::places(count as u32, 32);
    for i in 0..n {
        if !is_nothing(e.octets[2 * i], e.numbers[i]) {
            return false;
        }
    }
    true
}

fn is_zero(c: Charge) -> bool
    ensures { result ≡ is_zero c }
{
    if c.figure.kind == charge_kind::MONEY {
        return c.figure.money.number == 0;
    }
    let e = c.entries;
    zero_units(e, c.figure.count)
}

// ---- the rules

fn is_placed(phase: u8, total: u8) -> bool
    ensures { result ≡ placed_by phase total }
{
    match total {
        0 => phase == phases::ACTIVE,
        1 => phase == phases::CLEARING,
        _ => false,
    }
}

fn misplaced(d: bool, phase: u8, kind: u8, total: u8) -> bool
    ensures { result ≡ misplaced_by d phase kind total }
{
    d && (is_amount(kind) && !is_placed(phase, total))
}

// Whether an event is D's money and was counted.
pub fn counted_money(d: bool, kind: u8, o: Outcome) -> bool
    ensures { result ≡ money_by d kind o }
{
    d && (kind == charge_kind::MONEY && is_counted(o))
}

fn charges(d: bool, c: Charge, free: u64) -> bool
    ensures { result ≡ charges_by d c (eqb free 1) }
{
    d && (is_amount(c.figure.kind) && (!is_zero(c) && free == 1))
}

// The first rule that an event breaks, or 0. falls: whether it breaks the second.
pub fn breaks_of(d: bool, phase: u8, c: Charge, o: Outcome, free: u64, falls: bool) -> u32
    ensures { result ≡ breaks_by d phase c o (eqb free 1) falls }
{
    if misplaced(d, phase, c.figure.kind, c.figure.total) {
        return rule::PLACE;
    }
    if falls {
        return rule::FALL;
    }
    if charges(d, c, free) {
        return rule::FREE;
    }
    if o.number == outcomes::CONFLICT {
        return rule::FINAL;
    }
    rule::KEPT
}

// ---- what is kept

fn free_next(free: u64, d: bool, kind: u8, o: Outcome) -> u64
    ensures { result ≡ free_next free d kind o }
{
    if !d {
        return free;
    }
    if kind != charge_kind::FREE {
        return free;
    }
    if is_counted(o) { 1 } else { free }
}

// Event n breaks a rule, or none (0).
pub fn seen_next(mut s: Seen, d: bool, kind: u8, o: Outcome, rule: u32, n: u64) -> Seen
    ensures { result ≡ seen_next s d kind o rule n }
{
    s.free = free_next(s.free, d, kind, o);
    s.refused = events::or_else(s.refused, is_refused(o.number), n);
    if s.rule != rule::KEPT {
        return s;
    }
    s.event = events::or_else(0, rule != rule::KEPT, n);
    s.rule = rule;
    s
}

pub fn fault_answer(number: u32, rule: u32, event: u64) -> FaultAnswer
    ensures { result ≡ fault_answer number rule event }
{
    FaultAnswer {
        number,
        rule,
        event,
    }
}

pub fn concluded(s: Seen) -> FaultAnswer
    ensures { result ≡ concluded s }
{
    if s.refused != 0 {
        return fault_answer(IN_LIST, rule::KEPT, s.refused);
    }
    fault_answer(0, s.rule, s.event)
}
