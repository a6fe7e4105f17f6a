// A call's phases and its events; what an event that is no component does to the call's status.
//
// What a host holds is flat structs of numbers: its memory may hold anything, and any value has its answer.
// Services are numbered 1 S, 2 D, 3 E. Phases: 0 Idle, 1 Establishment, 2 Active, 3 Clearing, 4 Ended, 5 Suspended.
#![tactic(auto)]

ghost use Rattle.std.specs.Prelude.{◌≡◌, ◌&&◌, eqb};
ghost use Rattle.requests.specs.Sets.{empty_set};
ghost use Rattle.phases.specs.Phases.{clash, asking, clashes, moved, outcome, no_service};
ghost use Rattle.phases.specs.inner.ByNumber.{led_to, next_phase, kept, moving, moving_of};

use coding::refusal;
use requests::{Services, service};

// The phases and the kinds of events, each by its name in include/aoc.h. Numbers and no enum: C passes them in `Status` and `Event`, where a host may have any value.
pub const IDLE: u8 = 0;

pub const ESTABLISHMENT: u8 = 1;

pub const ACTIVE: u8 = 2;

pub const CLEARING: u8 = 3;

pub const ENDED: u8 = 4;

pub const SUSPENDED: u8 = 5;

pub const SETUP: u8 = 1;

pub const CONNECT: u8 = 2;

pub const CLEAR: u8 = 3;

pub const RELEASED: u8 = 4;

pub const COMPONENT: u8 = 5;

pub const SUSPEND: u8 = 6;

pub const RESUME: u8 = 7;

// number: 20 to 32, a refusal, or 0 for a phase event that is not refused. service: 0 for none.
#[repr(C)]
#[derive(Clone, Copy)]
pub struct Outcome {
    pub number: u8,
    pub service: u8,
}

// kind: 1 Setup, 2 Connect, 3 Clear, 4 Released, 5 Component, 6 Suspend, 7 Resume. A Setup has the set of services asked for, and their requests' identifiers.
#[repr(C)]
#[derive(Clone, Copy)]
pub struct Event {
    pub kind: u8,
    pub asked: Services,
    pub s: u16,
    pub d: u16,
    pub e: u16,
}

// asked: the services with a request pending, and the requests' identifiers. absent: the services reported as not available.
// conflict: the services with a final that differs from the first.
#[repr(C)]
#[derive(Clone, Copy)]
pub struct Status {
    pub phase: u8,
    pub asked: Services,
    pub s: u16,
    pub d: u16,
    pub e: u16,
    pub absent: Services,
    pub conflict: Services,
}

// What an event that is no component changes.
#[repr(C)]
#[derive(Drop)]
pub struct Moving {
    pub outcome: Outcome,
    pub status: Status,
}

pub fn outcome_of(number: u8, service: u8) -> Outcome
    ensures { result ≡ outcome number service }
{
    Outcome { number, service }
}

pub fn no_service(number: u8) -> Outcome
    ensures { result ≡ no_service number }
{
    outcome_of(number, service::NONE)
}

pub fn event_of(kind: u8, asked: Services, s: u16, d: u16, e: u16) -> Event
    ensures { result ≡ record { kind = kind; asked = asked; s = s; d = d; e = e } }
{
    Event {
        kind,
        asked,
        s,
        d,
        e,
    }
}

// An event that asks for nothing.
pub fn bare_event(kind: u8) -> Event
    ensures { result ≡ record { kind = kind; asked = empty_set; s = 0; d = 0; e = 0 } }
{
    event_of(kind, Services::EMPTY, 0, 0, 0)
}

// A status with a phase and nothing else.
pub fn bare(phase: u8) -> Status
    ensures { result ≡ record { phase = phase; asked = empty_set; s = 0; d = 0; e = 0; absent = empty_set; conflict = empty_set } }
{
    Status {
        phase,
        asked: Services::EMPTY,
        s: 0,
        d: 0,
        e: 0,
        absent: Services::EMPTY,
        conflict: Services::EMPTY,
    }
}

// Where each kind of event leads, in hexadecimal: the digit at a phase, counted from the right, is the phase that it leads to from there.
// 0 means that it is not allowed, since nothing leads to Idle. With a `match` over kind and phase in place of the table, `phase_step` is too
// large to be inlined: a Connect or a Suspend then takes half as much time again, and the phase of a list four times as much (docs/LOOK-BACK.md).
const NEXT: [u32; 8] = [0, 0x1, 0x20, 0x300330, 0x4000, 0x503210, 0x500, 0x200000];

fn led_to(kind: u8, phase: u8) -> u8
    ensures { result ≡ led_to kind phase }
{
    if kind > 7 {
        return 0;
    }
    if phase > 7 {
        return 0;
    }
    let row = NEXT[kind as usize];
    ((row >> ((phase as u32) * 4)) % 16) as u8
}

// The phase that an event leads to, if it is allowed.
pub fn next_phase(kind: u8, phase: u8) -> Option<u8>
    ensures { result ≡ next_phase kind phase }
{
    match led_to(kind, phase) {
        IDLE => None,
        next => Some(next),
    }
}

// What is asked for a service: the identifier of a request, if its mark is not 0.
fn request(mark: u8, id: u16) -> Option<u16>
    ensures { kept result ≡ asking mark id }
{
    if mark == 0 { None } else { Some(id) }
}

// Whether two requests have one identifier.
fn clash(one: Option<u16>, other: Option<u16>) -> bool
    ensures { result ≡ clash (kept one) (kept other) }
{
    one.is_some() && one == other
}

fn clashes(e: Event) -> bool
    ensures { result ≡ clashes e }
{
    let s = request(e.asked.s, e.s);
    let d = request(e.asked.d, e.d);
    let e = request(e.asked.e, e.e);
    clash(s, d) || clash(s, e) || clash(d, e)
}

// A Setup with two requests that have one identifier.
fn bad_setup(e: Event) -> bool
    ensures { result ≡ eqb e.kind 1 && clashes e }
{
    e.kind == SETUP && clashes(e)
}

// The status after a phase event that is not refused, by the phase that it leads to.
fn moved(mut t: Status, e: Event, phase: u8) -> Status
    ensures { result ≡ moved t e phase }
{
    t.phase = phase;
    if e.kind != SETUP {
        return t;
    }
    let s = request(e.asked.s, e.s);
    let d = request(e.asked.d, e.d);
    let e = request(e.asked.e, e.e);
    t.asked = Services {
        s: s.is_some() as u8,
        d: d.is_some() as u8,
        e: e.is_some() as u8,
    };
    t.s = s.unwrap_or(0);
    t.d = d.unwrap_or(0);
    t.e = e.unwrap_or(0);
    t
}

fn going(number: u8, status: Status) -> Moving
    ensures { result ≡ moving number status }
{
    Moving {
        outcome: no_service(number),
        status,
    }
}

// What an event that is no component changes: it looks at the status alone, and changes no other part.
#[tactic(auto, unfolding(crate::specs::inner::ByNumber::moving_of))]
pub fn phase_step(t: Status, e: Event) -> Moving
    ensures { result ≡ moving_of t e }
{
    let Some(phase) = next_phase(e.kind, t.phase) else {
        return going(refusal::WRONG_PHASE, t);
    };
    if bad_setup(e) {
        return going(refusal::BAD_SETUP, t);
    }
    going(0, moved(t, e, phase))
}
