// A component's outcome, and what the component does to a call's status.
//
// Services are numbered 1 S, 2 D, 3 E. Phases: 0 Idle, 1 Establishment, 2 Active, 3 Clearing, 4 Ended, 5 Suspended.
#![tactic(auto)]

ghost use Rattle.std.specs.Prelude.{◌≡◌};
ghost use Rattle.requests.specs.Advice.{service_number, number_or_none};
ghost use Rattle.phases.specs.Phases.{outcome};
ghost use Rattle.outcomes.specs.Outcome.{service_of, holder_of, judge_final, judge_failure, invoke_service, its};
ghost use Rattle.outcomes.specs.Status.{requests_of, first_figure, noted, place_of};
ghost use Rattle.outcomes.specs.inner.ByNumber.{runs_by, closes_by, claim_figure, claim_invoke, fits_by, claim_result, claim_frame, claim_record};

use phases::{Outcome, Status, no_service, outcome_of};
use requests::{Advice, service};
use types::{Charge, Entries, Figure, Front, charge_kind, frame, operation};

// The outcomes of a component, each by its name in include/aoc.h. Numbers and no enum: C reads them in `Outcome`.
pub const NEW_RATE: u8 = 20;

pub const NEW_RUNNING: u8 = 21;

pub const FINAL: u8 = 22;

pub const NOT_AVAILABLE: u8 = 23;

pub const GRANTED: u8 = 24;

pub const FAILED: u8 = 25;

pub const IGNORED: u8 = 26;

pub const OUT_OF_PHASE: u8 = 27;

pub const REPEATED: u8 = 28;

pub const CONFLICT: u8 = 29;

pub const NO_REQUEST: u8 = 30;

pub const MISFIT: u8 = 31;

pub const NOT_OURS: u8 = 32;

// Where an account keeps the figure of a component.
#[derive(Clone, Copy, PartialEq, Eq)]
pub enum Place {
    Rate = 1,
    Running = 2,
    FinalOfD = 3,
    FinalOfE = 4,
}

// ---- the outcome of a component, but for comparing finals: one that is claimed is 22

fn service_of(operation: u8) -> Advice
    ensures { service_number result ≡ service_of operation }
{
    if operation <= operation::S_SPECIAL {
        return Advice::S;
    }
    if operation <= operation::D_UNITS {
        return Advice::D;
    }
    Advice::E
}

fn of_service(n: u8, service: Advice) -> Outcome
    ensures { result ≡ outcome n (service_number service) }
{
    outcome_of(n, service as u8)
}

fn runs(phase: u8, service: Advice, kind: u8, total: u8) -> bool
    ensures { result ≡ runs_by phase (service_number service) kind total }
{
    if service != Advice::D {
        return false;
    }
    if kind == charge_kind::FREE {
        return phase == phases::ESTABLISHMENT || phase == phases::ACTIVE;
    }
    total == 0 && phase == phases::ACTIVE
}

fn closes(phase: u8, service: Advice, kind: u8, total: u8) -> bool
    ensures { result ≡ closes_by phase (service_number service) kind total }
{
    phase == phases::CLEARING && (service == Advice::E || kind == charge_kind::FREE || total == 1)
}

// A figure of a service that has no request pending.
fn figure_outcome(phase: u8, service: Advice, kind: u8, total: u8) -> Outcome
    ensures { result ≡ claim_figure phase (service_number service) kind total }
{
    if service == Advice::S {
        return of_service(NEW_RATE, service);
    }
    if runs(phase, service, kind, total) {
        return of_service(NEW_RUNNING, service);
    }
    if closes(phase, service, kind, total) {
        return of_service(FINAL, service);
    }
    of_service(OUT_OF_PHASE, service)
}

fn invoke_outcome(t: Status, operation: u8, kind: u8, total: u8) -> Outcome
    ensures { result ≡ claim_invoke t.phase (requests_of t) operation kind total }
{
    if operation == operation::CHARGING_REQUEST {
        return no_service(NOT_OURS);
    }
    let service = service_of(operation);
    if t.asked.has(service as u8) {
        return of_service(IGNORED, service);
    }
    if kind == charge_kind::NONE {
        return of_service(NOT_AVAILABLE, service);
    }
    figure_outcome(t.phase, service, kind, total)
}

// The service whose pending request has the identifier.
fn holder(t: Status, id: u16) -> Option<Advice>
    ensures { number_or_none result ≡ holder_of (requests_of t) id }
{
    if t.asked.has_s() && t.s == id {
        return Some(Advice::S);
    }
    if t.asked.has_d() && t.d == id {
        return Some(Advice::D);
    }
    if t.asked.has_e() && t.e == id {
        return Some(Advice::E);
    }
    None
}

fn fits(service: Advice, kind: u8) -> bool
    ensures { result ≡ fits_by (service_number service) kind }
{
    if service != Advice::S {
        return kind == charge_kind::NONE;
    }
    kind == charge_kind::RATES || kind == charge_kind::ARRANGEMENT
}

fn result_outcome(holder: Option<Advice>, kind: u8) -> Outcome
    ensures { result ≡ claim_result (number_or_none holder) kind }
{
    let Some(service) = holder else {
        return no_service(NO_REQUEST);
    };
    if fits(service, kind) {
        return of_service(GRANTED, service);
    }
    of_service(MISFIT, service)
}

fn failure_outcome(holder: Option<Advice>) -> Outcome
    ensures { result ≡ judge_failure (number_or_none holder) }
{
    let Some(service) = holder else {
        return no_service(NO_REQUEST);
    };
    of_service(FAILED, service)
}

fn frame_outcome(t: Status, f: Front, kind: u8, total: u8) -> Outcome
    ensures { result ≡ claim_frame t.phase (requests_of t) f kind total }
{
    if f.frame == frame::INVOKE {
        return invoke_outcome(t, f.operation, kind, total);
    }
    let holder = holder(t, f.id);
    if f.frame == frame::RESULT {
        return result_outcome(holder, kind);
    }
    if f.unnamed == 1 {
        return no_service(NO_REQUEST);
    }
    failure_outcome(holder)
}

// The service of an invoke that is no request; another component has none.
fn service_by(f: Front) -> Option<Advice>
    ensures { number_or_none result ≡ invoke_service f }
{
    if f.frame == frame::INVOKE && f.operation != operation::CHARGING_REQUEST {
        Some(service_of(f.operation))
    } else {
        None
    }
}

#[tactic(auto, unfolding(crate::specs::inner::ByNumber::claim_record))]
pub fn claimed(t: Status, f: Front, kind: u8, total: u8) -> Outcome
    ensures { result ≡ claim_record t.phase (requests_of t) f kind total }
{
    if t.phase != phases::SUSPENDED {
        return frame_outcome(t, f, kind, total);
    }
    match service_by(f) {
        Some(service) => of_service(OUT_OF_PHASE, service),
        None => no_service(OUT_OF_PHASE),
    }
}

// ---- what a component does

// A final, beside the first one of its service. Its charge is put together only where there is one to compare it with.
pub fn final_outcome(first: Charge, figure: Figure, entries: &Entries, service: u8) -> Outcome
    ensures { result ≡ judge_final (first_figure first) service (record { figure = figure; entries = entries.now }) }
{
    if first.figure.kind == charge_kind::NONE {
        return outcome_of(FINAL, service);
    }
    let entries = *entries;
    if same_final::same(first, Charge { figure, entries }) {
        return outcome_of(REPEATED, service);
    }
    outcome_of(CONFLICT, service)
}

// A request that is no longer pending.
fn settled(mut t: Status, service: u8) -> Status
    ensures { result ≡ noted t (outcome 24 service) }
{
    match service {
        service::S => {
            t.asked.s = 0;
            t.s = 0;
        }
        service::D => {
            t.asked.d = 0;
            t.d = 0;
        }
        service::E => {
            t.asked.e = 0;
            t.e = 0;
        }
        _ => {}
    }
    t
}

// The status after a component, by its outcome.
pub fn noted(mut t: Status, o: Outcome) -> Status
    ensures { result ≡ noted t o }
{
    match o.number {
        NOT_AVAILABLE => {
            t.absent = t.absent.with(o.service);
            t
        }
        GRANTED | FAILED => settled(t, o.service),
        CONFLICT => {
            t.conflict = t.conflict.with(o.service);
            t
        }
        _ => t,
    }
}

// Where the figure of a component is kept, if it is.
pub fn place_of(o: Outcome) -> Option<Place>
    ensures { result ≡ place_of o }
{
    match (o.number, o.service) {
        (NEW_RATE, _) | (GRANTED, service::S) => Some(Place::Rate),
        (NEW_RUNNING, _) => Some(Place::Running),
        (FINAL, service::D) => Some(Place::FinalOfD),
        (FINAL, service::E) => Some(Place::FinalOfE),
        _ => None,
    }
}

// ---- which outcome it is

pub fn is_its(o: Outcome, service: u8, number: u8) -> bool
    ensures { result ≡ its service number o }
{
    o.number == number && o.service == service
}
