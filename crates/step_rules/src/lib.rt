// Finds what one event of a call changes, by value.
#![tactic(auto)]

ghost use Rattle.std.specs.Prelude.{◌≡◌, List, None};
ghost use Rattle.types.specs.Arguments.{no_charge};
ghost use Rattle.types.specs.Frames.{read_of};
ghost use Rattle.phases.specs.Phases.{no_service, Given, event};
ghost use Rattle.account.specs.History.{judged, account_by, stepped_by};
ghost use Rattle.account.specs.Step.{change_of, changed};
ghost use Rattle.step_rules.specs.inner.Inner.{resolved, taken};

use account::{Account, Change, no_charge};
use coding::refusal;
use outcomes::{claimed, final_outcome, noted, place_of};
use phases::{Event, Outcome, Status, next_phase, phase_step};
use requests::service;
use types::{Charge, Entries, Figure};

// ---- what a component does

fn resolved(a: Account, o: Outcome, figure: Figure, entries: &Entries) -> Outcome
    ensures { result ≡ resolved a o (record { figure = figure; entries = entries.now }) }
{
    if o.number != outcomes::FINAL {
        return o;
    }
    let first = if o.service == service::D {
        a.dfinal
    } else {
        a.efinal
    };
    final_outcome(first, figure, entries, o.service)
}

// A change that keeps no figure.
fn still(outcome: Outcome, status: Status) -> Change
    ensures { result ≡ record { outcome = outcome; place = None; status = status; charge = no_charge } }
{
    Change {
        outcome,
        place: None,
        status,
        charge: no_charge(),
    }
}

fn plain(number: u8, status: Status) -> Change
    ensures { result ≡ record { outcome = no_service number; place = None; status = status; charge = no_charge } }
{
    still(phases::no_service(number), status)
}

fn taken(a: Account, octets: &[u8]) -> Change
    ensures { result ≡ taken a (read_of octets.now) }
{
    let mut lent = [0; 8];
    let mut stored = [0; 48];
    let mut entries = Entries {
        numbers: [0; 32],
        octets: [0; 192],
    };
    let answer = read::read_into(
        octets,
        &mut lent,
        &mut stored,
        &mut entries.numbers,
        &mut entries.octets,
    );
    let t = a.status;
    if answer.number != 0 {
        return plain(answer.number as u8, t);
    }
    let figure = types_parts::figure_of(&stored);
    let front = types_parts::front_of(&lent);
    let claim = claimed(t, front, figure.kind, figure.total);
    let outcome = resolved(a, claim, figure, &entries);
    let status = noted(t, outcome);
    match place_of(outcome) {
        None => still(outcome, status),
        Some(place) => Change {
            outcome,
            place: Some(place),
            status,
            charge: Charge { figure, entries },
        },
    }
}

// ---- the step

// The step by value: what an event changes.
pub fn step(a: Account, e: Event, octets: &[u8]) -> Change
    ensures one { result ≡ change_of a e octets.now }
    ensures rules { (h : List Given) → a ≡ account_by (judged h) → changed a result ≡ stepped_by (event e octets.now) h }
{
    let t = a.status;
    if e.kind != phases::COMPONENT {
        let m = phase_step(t, e);
        return still(m.outcome, m.status);
    }
    if next_phase(e.kind, t.phase).is_none() {
        return plain(refusal::WRONG_PHASE, t);
    }
    taken(a, octets)
}
