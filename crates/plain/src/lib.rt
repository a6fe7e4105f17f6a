// A plain engine: every answer about a call's event list is found by going over the list again. No account is kept.
#![tactic(auto)]

ghost use Rattle.std.specs.Prelude.{◌≡◌, length, eqb};
ghost use Rattle.outcomes.specs.Status.{place_of, is_at};
ghost use Rattle.events.specs.Events.{adds_up};
ghost use Rattle.account.specs.History.{last};
ghost use Rattle.plain_lists.specs.Lists.{history};
ghost use Rattle.plain.specs.Answers.{plain_outcome, plain_phase, plain_pending, plain_charge, plain_current_rate, plain_running, plain_closing, plain_marks};

use account::{Closing, Marks, Pending};
use coding::refusal;
use outcomes::Place;
use phases::Outcome;
use plain_lists::NO_OUTCOME;
use requests::Services;
use types::Charge;

// As wide as the answers have it.
const LENGTHS: u16 = refusal::LENGTHS as u16;

const WIDE_LENGTHS: u32 = refusal::LENGTHS as u32;

// ---- nothing, of each kind of answer

const NO_SERVICES: Services = Services { s: 0, d: 0, e: 0 };

const NO_PENDING: Pending = Pending {
    asked: NO_SERVICES,
    unused: 0,
    s: 0,
    d: 0,
    e: 0,
};

const NO_MARKS: Marks = Marks {
    absent: NO_SERVICES,
    conflict: NO_SERVICES,
};

// ---- the answers about any slices: 48 for those that are no event list, and then all else is zero

#[repr(C)]
#[derive(Drop)]
pub struct PlainOutcome {
    pub number: u16,
    pub outcome: Outcome,
}

#[repr(C)]
#[derive(Drop)]
pub struct PlainPhase {
    pub number: u16,
    pub phase: u16,
}

#[repr(C)]
#[derive(Drop)]
pub struct PlainPending {
    pub number: u16,
    pub pending: Pending,
}

#[repr(C)]
#[derive(Drop)]
pub struct PlainMarks {
    pub number: u16,
    pub marks: Marks,
}

#[repr(C)]
#[derive(Drop)]
pub struct PlainCharge {
    pub number: u32,
    pub value: Charge,
}

#[repr(C)]
#[derive(Drop)]
pub struct PlainClosing {
    pub number: u32,
    pub closing: Closing,
}

fn is_list(rows: &[u16], octets: &[u8]) -> bool
    ensures { result ≡ adds_up rows.now (length octets.now) }
{
    events::adds_up(rows, octets.len())
}

pub fn outcome(rows: &[u16], octets: &[u8], k: usize) -> PlainOutcome
    ensures { result ≡ plain_outcome rows.now octets.now k }
{
    if !is_list(rows, octets) {
        return PlainOutcome {
            number: LENGTHS,
            outcome: NO_OUTCOME,
        };
    }
    let outcome = plain_lists::outcome_in(rows, octets, k);
    PlainOutcome { number: 0, outcome }
}

pub fn phase(rows: &[u16], octets: &[u8]) -> PlainPhase
    ensures { result ≡ plain_phase rows.now octets.now }
{
    if !is_list(rows, octets) {
        return PlainPhase {
            number: LENGTHS,
            phase: 0,
        };
    }
    let phase = plain_lists::phase_in(rows, octets);
    PlainPhase {
        number: 0,
        phase: phase as u16,
    }
}

pub fn pending(rows: &[u16], octets: &[u8]) -> PlainPending
    ensures { result ≡ plain_pending rows.now octets.now }
{
    if !is_list(rows, octets) {
        return PlainPending {
            number: LENGTHS,
            pending: NO_PENDING,
        };
    }
    let n = rows.len() / 6;
    let t = plain_scans::status_before(rows, octets, n);
    let asked = t.asked;
    let pending = Pending {
        asked,
        unused: 0,
        s: t.s,
        d: t.d,
        e: t.e,
    };
    PlainPending { number: 0, pending }
}

// The charge that is kept at a place.
fn kept(rows: &[u16], octets: &[u8], place: Place) -> PlainCharge
    ensures { result ≡ plain_charge rows.now octets.now (last (λ j. is_at place (place_of j.outcome)) (history rows.now octets.now)) }
{
    if !is_list(rows, octets) {
        return PlainCharge {
            number: WIDE_LENGTHS,
            value: account::no_charge(),
        };
    }
    let value = plain_lists::kept_at(rows, octets, place);
    PlainCharge { number: 0, value }
}

pub fn rate(rows: &[u16], octets: &[u8]) -> PlainCharge
    ensures { result ≡ plain_current_rate rows.now octets.now }
{
    kept(rows, octets, Place::Rate)
}

pub fn running(rows: &[u16], octets: &[u8]) -> PlainCharge
    ensures { result ≡ plain_running rows.now octets.now }
{
    kept(rows, octets, Place::Running)
}

pub fn closing(rows: &[u16], octets: &[u8]) -> PlainClosing
    ensures { result ≡ plain_closing rows.now octets.now }
{
    if !is_list(rows, octets) {
        return PlainClosing {
            number: WIDE_LENGTHS,
            closing: plain_lists::no_closing(),
        };
    }
    let closing = plain_lists::closing_in(rows, octets);
    PlainClosing { number: 0, closing }
}

pub fn marks(rows: &[u16], octets: &[u8]) -> PlainMarks
    ensures { result ≡ plain_marks rows.now octets.now }
{
    if !is_list(rows, octets) {
        return PlainMarks {
            number: LENGTHS,
            marks: NO_MARKS,
        };
    }
    let absent = plain_lists::told_set(rows, octets, outcomes::NOT_AVAILABLE);
    let conflict = plain_lists::told_set(rows, octets, outcomes::CONFLICT);
    let marks = Marks { absent, conflict };
    PlainMarks { number: 0, marks }
}
