// The plain engine's answers about slices that are an event list: the figures that are kept, the marks, the phase, the closing figure, and the outcome of an event by its number.
#![tactic(auto)]

ghost use Rattle.std.specs.Prelude.{◌≡◌, true, [], length, eqb};
ghost use Rattle.types.specs.Charges.{flag};
ghost use Rattle.outcomes.specs.Outcome.{its};
ghost use Rattle.outcomes.specs.Status.{place_of, place_or_none, is_at};
ghost use Rattle.events.specs.Events.{adds_up, events_of};
ghost use Rattle.account.specs.History.{any, last, phase, closing, no_closing};
ghost use Rattle.plain_lists.specs.inner.Marked.{told_set};
ghost use Rattle.plain_lists.specs.Lists.{outcome_at, history};

use account::Closing;
use outcomes::Place;
use phases::Outcome;
use requests::{Services, closing_service, service};
use types::{Charge, charge_kind};

// The outcome of a number that is no event's.
pub const NO_OUTCOME: Outcome = Outcome {
    number: 0,
    service: service::NONE,
};

// ---- what is kept and what was reported

// The number of the place where an outcome keeps its charge: 1 the rate, 2 the running figure, 3 the final of D, 4 the final of E; 0 nowhere.
fn number_of(o: Outcome) -> u16
    ensures { result ≡ place_or_none (place_of o) }
{
    match outcomes::place_of(o) {
        None => 0,
        Some(place) => place as u16,
    }
}

// The charge of the last event whose outcome keeps it at the place with a number. With 0 it is the charge of the last event that keeps none anywhere.
pub fn last_kept(rows: &[u16], octets: &[u8], place: u16) -> Charge
    requires { adds_up rows.now (length octets.now) ≡ true }
    ensures { result ≡ last (λ j. eqb (place_or_none (place_of j.outcome)) place) (history rows.now octets.now) }
{
    for i in (0..rows.len() / 6).rev() {
        let o = plain_scans::outcome_at(rows, octets, i);
        if number_of(o) == place {
            return plain_scans::charge_at(rows, octets, i);
        }
    }
    account::no_charge()
}

// The charge of the last event whose outcome keeps it at a place.
pub fn kept_at(rows: &[u16], octets: &[u8], place: Place) -> Charge
    requires { adds_up rows.now (length octets.now) ≡ true }
    ensures { result ≡ last (λ j. is_at place (place_of j.outcome)) (history rows.now octets.now) }
{
    last_kept(rows, octets, place as u16)
}

// 1 where an event was a service's outcome, else 0.
fn told(rows: &[u16], octets: &[u8], service: u8, number: u8) -> u8
    requires { adds_up rows.now (length octets.now) ≡ true }
    ensures { result ≡ flag (any (λ j. its service number j.outcome) (history rows.now octets.now)) }
{
    for i in (0..rows.len() / 6).rev() {
        let o = plain_scans::outcome_at(rows, octets, i);
        if outcomes::is_its(o, service, number) {
            return 1;
        }
    }
    0
}

pub fn told_set(rows: &[u16], octets: &[u8], number: u8) -> Services
    requires { adds_up rows.now (length octets.now) ≡ true }
    ensures { result ≡ told_set number (history rows.now octets.now) }
{
    let s = told(rows, octets, service::S, number);
    let d = told(rows, octets, service::D, number);
    let e = told(rows, octets, service::E, number);
    Services { s, d, e }
}

// ---- the phase, the closing figure and an outcome

pub fn phase_in(rows: &[u16], octets: &[u8]) -> u8
    requires { adds_up rows.now (length octets.now) ≡ true }
    ensures { result ≡ phase (history rows.now octets.now) }
{
    let n = rows.len() / 6;
    plain_scans::phase_before(rows, n)
}

pub fn no_closing() -> Closing
    ensures { result ≡ no_closing }
{
    Closing {
        service: closing_service::NONE,
        value: account::no_charge(),
    }
}

pub fn closing_in(rows: &[u16], octets: &[u8]) -> Closing
    requires { adds_up rows.now (length octets.now) ≡ true }
    ensures { result ≡ closing (history rows.now octets.now) }
{
    if phase_in(rows, octets) != phases::ENDED {
        return no_closing();
    }
    let e = kept_at(rows, octets, Place::FinalOfE);
    if e.figure.kind != charge_kind::NONE {
        return Closing {
            service: closing_service::E,
            value: e,
        };
    }
    let d = kept_at(rows, octets, Place::FinalOfD);
    if d.figure.kind != charge_kind::NONE {
        return Closing {
            service: closing_service::D,
            value: d,
        };
    }
    no_closing()
}

// The outcome of event k, from 1; zero for a number that is no event's.
pub fn outcome_in(rows: &[u16], octets: &[u8], k: usize) -> Outcome
    requires { adds_up rows.now (length octets.now) ≡ true }
    ensures { result ≡ outcome_at [] (events_of rows.now octets.now) k }
{
    let n = rows.len() / 6;
    if k == 0 {
        return NO_OUTCOME;
    }
    if k > n {
        return NO_OUTCOME;
    }
    plain_scans::outcome_at(rows, octets, k - 1)
}
