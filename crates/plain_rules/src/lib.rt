// What the plain engine's scans decide by value: the phase after an event, a service's request, and whether an outcome is the one looked for.
#![tactic(auto)]

ghost use Rattle.std.specs.Prelude.{◌≡◌, true, cond, ltb};
ghost use Rattle.phases.specs.Phases.{no_request, asking, request_for};
ghost use Rattle.outcomes.specs.Outcome.{judge_final};
ghost use Rattle.outcomes.specs.Status.{requests_of};
ghost use Rattle.plain_rules.specs.inner.Deciding.{next_by, ask_of, request_of, sole, sought};

use phases::{Event, Outcome, Status, bare, outcome_of};
use requests::service;
use types::Charge;

// A service's request: mark 0 for none.
#[derive(Clone, Copy)]
pub struct Ask {
    pub mark: u8,
    pub id: u16,
}

// The phase after an event that comes in a phase.
pub fn passed(phase: u8, e: Event) -> u8
    ensures { result ≡ next_by phase e }
{
    let m = phases::phase_step(bare(phase), e);
    m.status.phase
}

// ---- requests

fn asking(mark: u8, id: u16) -> Ask
    ensures { result ≡ ask_of (asking mark id) }
{
    if mark == 0 {
        return Ask { mark: 0, id: 0 };
    }
    Ask { mark: 1, id }
}

// What a Setup asks for a service.
pub fn asked_for(e: Event, service: u8) -> Ask
    ensures { result ≡ ask_of (request_for service e) }
{
    match service {
        service::S => asking(e.asked.s, e.s),
        service::D => asking(e.asked.d, e.d),
        _ => asking(e.asked.e, e.e),
    }
}

// A request that is still there at event i, if it is answered at a place.
pub fn until(q: Ask, place: usize, i: usize) -> Ask
    ensures { result ≡ ask_of (cond (ltb place i) no_request (request_of q)) }
{
    if place < i {
        return Ask { mark: 0, id: 0 };
    }
    q
}

// A status with a phase and one service's request.
pub fn alone(phase: u8, service: u8, q: Ask) -> Status
    ensures { (result.phase ≡ phase) × (requests_of result ≡ sole service (request_of q)) }
{
    let mut t = bare(phase);
    if service == service::S {
        t.asked.s = q.mark;
        t.s = q.id;
        return t;
    }
    if service == service::D {
        t.asked.d = q.mark;
        t.d = q.id;
        return t;
    }
    if service == service::E {
        t.asked.e = q.mark;
        t.e = q.id;
        return t;
    }
    t
}

// ---- outcomes

// Whether an outcome is a service's final, or else answers its request.
pub fn is_sought(o: Outcome, service: u8, finals: bool) -> bool
    ensures { result ≡ sought finals service o }
{
    if finals {
        return outcomes::is_its(o, service, outcomes::FINAL);
    }
    outcomes::is_its(o, service, outcomes::GRANTED)
        || outcomes::is_its(o, service, outcomes::FAILED)
}

// A final, beside the first one of its service.
pub fn beside(first: Charge, charge: Charge, service: u8) -> Outcome
    ensures { result ≡ judge_final (record { given = true; charge = first }) service charge }
{
    if same_final::same(first, charge) {
        return outcome_of(outcomes::REPEATED, service);
    }
    outcome_of(outcomes::CONFLICT, service)
}
