// Says why a call has no price, by value: what is remembered of the events so far, and the reason that follows from it.
#![tactic(auto)]

ghost use Rattle.std.specs.Prelude.{◌≡◌};
ghost use Rattle.why_rules.specs.Reasons.{told_absent, unread, because, if_found};
ghost use Rattle.why_rules.specs.inner.Seeing.{concluded, seen_next};

use coding::refusal;
use outcomes::is_its;
use phases::Outcome;
use requests::service;

// The reasons, each by its name in include/aoc.h.
pub const OPEN: u32 = 1;

pub const PRICED: u32 = 2;

pub const PASSED_OVER: u32 = 3;

pub const NOT_AVAILABLE: u32 = 4;

pub const RUNNING: u32 = 5;

pub const REFUSED: u32 = 6;

pub const NOTHING: u32 = 7;

// number: 48 for slices that are no event list, and then the rest is 0. reason: 1 to 7. event: its number, from 1; 0 for none.
#[repr(C)]
#[derive(Drop)]
pub struct Reason {
    pub number: u32,
    pub reason: u32,
    pub event: u64,
}

// The earliest event of each sort, by its number; 0 for none yet.
#[repr(C)]
#[derive(Drop)]
pub struct Seen {
    pub efinal: u64,
    pub dfinal: u64,
    pub figure: u64,
    pub absent: u64,
    pub running: u64,
    pub refused: u64,
}

// ---- which outcomes count

fn told_absent(o: Outcome) -> bool
    ensures { result ≡ told_absent o }
{
    is_its(o, service::D, outcomes::NOT_AVAILABLE) || is_its(o, service::E, outcomes::NOT_AVAILABLE)
}

fn is_unread(o: Outcome) -> bool
    ensures { result ≡ unread o }
{
    events::within(refusal::CUT, o.number, 9)
        || events::within(refusal::MISSING, o.number, refusal::PAST_LIMIT)
}

// ---- one event

// Event n has an outcome; figure: whether it is a figure that was passed over.
pub fn seen_next(mut s: Seen, o: Outcome, figure: bool, n: u64) -> Seen
    ensures { result ≡ seen_next s o figure n }
{
    s.efinal = events::or_else(s.efinal, is_its(o, service::E, outcomes::FINAL), n);
    s.dfinal = events::or_else(s.dfinal, is_its(o, service::D, outcomes::FINAL), n);
    s.figure = events::or_else(s.figure, figure, n);
    s.absent = events::or_else(s.absent, told_absent(o), n);
    s.running = events::or_else(s.running, o.number == outcomes::NEW_RUNNING, n);
    s.refused = events::or_else(s.refused, is_unread(o), n);
    s
}

// ---- the reason

fn because(reason: u32, event: u64) -> Reason
    ensures { result ≡ because reason event }
{
    Reason {
        number: 0,
        reason,
        event,
    }
}

fn if_found(reason: u32, event: u64, rest: Reason) -> Reason
    ensures { result ≡ if_found reason event rest }
{
    if event == 0 {
        return rest;
    }
    because(reason, event)
}

pub fn concluded(phase: u8, s: Seen) -> Reason
    ensures { result ≡ concluded phase s }
{
    if phase != phases::ENDED {
        return because(OPEN, 0);
    }
    let nothing = because(NOTHING, 0);
    let refused = if_found(REFUSED, s.refused, nothing);
    let running = if_found(RUNNING, s.running, refused);
    let absent = if_found(NOT_AVAILABLE, s.absent, running);
    let figure = if_found(PASSED_OVER, s.figure, absent);
    let dfinal = if_found(PRICED, s.dfinal, figure);
    if_found(PRICED, s.efinal, dfinal)
}
