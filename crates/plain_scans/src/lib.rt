// The plain engine's scans: what comes before an event of a list, and the outcome of the event, found by going over the list. No account is kept.
//
// A scan carries the place in the list and the phase that the events gone over lead to, and nothing of what was found before.
#![tactic(auto)]

ghost use Rattle.std.specs.Prelude.{◌≡◌, true, List, ℕ, ◌≤◌, ◌<◌, ◌/◌, length};
ghost use Rattle.outcomes.specs.Outcome.{its, judge, judge_final, first_final, charge_in};
ghost use Rattle.outcomes.specs.Status.{requests_of};
ghost use Rattle.events.specs.Events.{adds_up, row_at};
ghost use Rattle.events.specs.inner.Prefix.{place_at, octets_at, before};
ghost use Rattle.account.specs.History.{judged, phase, pending, requests, known};
ghost use Rattle.plain_rules.specs.inner.Deciding.{ask_of, sought};
ghost use Rattle.plain_scans.specs.inner.Scan.{Scan, FirstAt, Requested};
ghost use Rattle.plain_scans.specs.inner.Claim.{claim_of, Asks};

use coding::refusal;
use phases::{Event, Outcome, Status, bare, no_service, outcome_of};
use plain_rules::Ask;
use requests::service;
use types::Charge;

// ---- phases

// The phase after the first k events.
pub fn phase_before(rows: &[u16], k: usize) -> u8
    requires { k ≤ length rows.now / 6 }
    ensures { (o : List ℕ) → result ≡ phase (judged (before rows.now o k)) }
{
    let mut phase = phases::IDLE;
    for i in 0..k {
        let e = events::row_at(rows, i);
        phase = plain_rules::passed(phase, e);
    }
    phase
}

// ---- requests

// The accepted Setup among the first k events, or an event that asks for nothing: the first Setup whose identifiers differ.
fn setup_before(rows: &[u16], k: usize) -> Event
    requires { k ≤ length rows.now / 6 }
    ensures { (o : List ℕ) → Asks (judged (before rows.now o k)) result }
{
    for i in 0..k {
        let e = events::row_at(rows, i);
        if plain_rules::passed(phases::IDLE, e) != phases::IDLE {
            return e;
        }
    }
    phases::bare_event(0)
}

// ---- one event by itself

// The outcome of an event at a status, finals not compared; 14 for all that is no component heard.
fn claim(t: Status, kind: u8, octets: &[u8]) -> Outcome
    ensures { result ≡ claim_of t.phase (requests_of t) kind octets.now }
{
    if kind != phases::COMPONENT {
        return no_service(refusal::WRONG_PHASE);
    }
    if phases::next_phase(kind, t.phase).is_none() {
        return no_service(refusal::WRONG_PHASE);
    }
    let a = read::read(octets);
    if a.number != 0 {
        return no_service(a.number as u8);
    }
    let figure = a.value.charge.figure;
    outcomes::claimed(t, a.value.front, figure.kind, figure.total)
}

// ---- the places of answers and finals

// The first of k events that is a final of a service, or else answers its request; k if there is none. The request is answered at a place.
fn first_before(
    rows: &[u16],
    octets: &[u8],
    k: usize,
    service: u8,
    q: Ask,
    place: usize,
    finals: bool,
) -> usize
    requires { Scan rows.now octets.now k × (1 ≤ service) × (service ≤ 3) × Requested finals rows.now octets.now k service q place }
    ensures { FirstAt (λ j. sought finals service j.outcome) rows.now octets.now k result }
{
    let mut phase = phases::IDLE;
    let mut at: usize = 0;
    for i in 0..k {
        let end = at + events::count_at(rows, i);
        let e = events::row_at(rows, i);
        let p = plain_rules::until(q, place, i);
        let t = plain_rules::alone(phase, service, p);
        let o = claim(t, e.kind, &octets[at..end]);
        if plain_rules::is_sought(o, service, finals) {
            return i;
        }
        phase = plain_rules::passed(phase, e);
        at = end;
    }
    k
}

// The first of k events that is a final of a service.
fn final_before(rows: &[u16], octets: &[u8], k: usize, service: u8) -> usize
    requires { Scan rows.now octets.now k × (2 ≤ service) × (service ≤ 3) }
    ensures { FirstAt (λ j. its service 22 j.outcome) rows.now octets.now k result }
{
    let setup = setup_before(rows, k);
    let q = plain_rules::asked_for(setup, service);
    let place = first_before(rows, octets, k, service, q, k, false);
    first_before(rows, octets, k, service, q, place, true)
}

// ---- what is pending

// A service's request, if it is pending after the first k events.
fn pending_before(rows: &[u16], octets: &[u8], k: usize, service: u8) -> Ask
    requires { Scan rows.now octets.now k × (1 ≤ service) × (service ≤ 3) }
    ensures { result ≡ ask_of (pending service (judged (before rows.now octets.now k))) }
{
    let setup = setup_before(rows, k);
    let q = plain_rules::asked_for(setup, service);
    let place = first_before(rows, octets, k, service, q, k, false);
    plain_rules::until(q, place, k)
}

// The phase and the pending requests after the first k events.
pub fn status_before(rows: &[u16], octets: &[u8], k: usize) -> Status
    requires { Scan rows.now octets.now k }
    ensures { (result.phase ≡ phase (judged (before rows.now octets.now k))) × (requests_of result ≡ requests (judged (before rows.now octets.now k))) }
{
    let mut t = bare(phase_before(rows, k));
    let s = pending_before(rows, octets, k, service::S);
    t.asked.s = s.mark;
    t.s = s.id;
    let d = pending_before(rows, octets, k, service::D);
    t.asked.d = d.mark;
    t.d = d.id;
    let e = pending_before(rows, octets, k, service::E);
    t.asked.e = e.mark;
    t.e = e.id;
    t
}

// ---- one event of the list

// Where the octets of event k begin.
fn place_of(rows: &[u16], k: usize, total: usize) -> usize
    requires { (adds_up rows.now total ≡ true) × (k ≤ length rows.now / 6) }
    ensures { result ≡ place_at rows.now k }
{
    let mut at: usize = 0;
    for i in 0..k {
        at += events::count_at(rows, i);
    }
    at
}

// The charge of event k.
pub fn charge_at(rows: &[u16], octets: &[u8], k: usize) -> Charge
    requires { (adds_up rows.now (length octets.now) ≡ true) × (k < length rows.now / 6) }
    ensures { result ≡ charge_in (octets_at rows.now octets.now k) }
{
    let at = place_of(rows, k, octets.len());
    let end = at + events::count_at(rows, k);
    let a = read::read(&octets[at..end]);
    a.value.charge
}

// A final, beside the first one of its service at a place before k.
fn final_at(rows: &[u16], octets: &[u8], k: usize, service: u8, charge: Charge) -> Outcome
    requires { Scan rows.now octets.now k × (2 ≤ service) × (service ≤ 3) }
    ensures { result ≡ judge_final (first_final (known (judged (before rows.now octets.now k))) service) service charge }
{
    let i = final_before(rows, octets, k, service);
    if i >= k {
        return outcome_of(outcomes::FINAL, service);
    }
    let first = charge_at(rows, octets, i);
    plain_rules::beside(first, charge, service)
}

// The outcome of event k.
pub fn outcome_at(rows: &[u16], octets: &[u8], k: usize) -> Outcome
    requires { (adds_up rows.now (length octets.now) ≡ true) × (k < length rows.now / 6) }
    ensures { result ≡ judge (known (judged (before rows.now octets.now k))) (row_at rows.now k) (octets_at rows.now octets.now k) }
{
    let e = events::row_at(rows, k);
    if e.kind != phases::COMPONENT {
        let m = phases::phase_step(bare(phase_before(rows, k)), e);
        return m.outcome;
    }
    let at = place_of(rows, k, octets.len());
    let end = at + events::count_at(rows, k);
    let t = status_before(rows, octets, k);
    let o = claim(t, e.kind, &octets[at..end]);
    if o.number != outcomes::FINAL {
        return o;
    }
    final_at(rows, octets, k, o.service, charge_at(rows, octets, k))
}
