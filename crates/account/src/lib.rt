// One call's account: the events that it takes, what is kept of them, and what is read off it.
//
// What a host holds is flat structs of numbers: its memory may hold anything, and any value has its answer.
// Services are numbered 1 S, 2 D, 3 E. Phases: 0 Idle, 1 Establishment, 2 Active, 3 Clearing, 4 Ended, 5 Suspended.
#![tactic(auto)]

ghost use Rattle.std.specs.Prelude.{◌≡◌, List};
ghost use Rattle.types.specs.Arguments.{no_charge};
ghost use Rattle.phases.specs.Phases.{Component, Given};
ghost use Rattle.outcomes.specs.Status.{requests_of};
ghost use Rattle.account.specs.History.{judged, account_by, current_rate, running, closing, marks, phase, requests, fresh, pending_of};
ghost use Rattle.account.specs.Step.{closing_of, marks_of};
ghost use Rattle.account.specs.Events.{plain_event, setup_event};

use outcomes::Place;
use phases::{Event, Outcome, Status};
use requests::{Services, Three, closing_service};
use types::{Charge, charge_kind};

// The rate, the running figure and the finals of D and E, as they were received; a figure of kind 0 is none.
#[repr(C)]
#[derive(Clone, Copy)]
pub struct Account {
    pub status: Status,
    pub rate: Charge,
    pub running: Charge,
    pub dfinal: Charge,
    pub efinal: Charge,
}

#[repr(C)]
#[derive(Drop)]
pub struct Stepped {
    pub outcome: Outcome,
    pub account: Account,
}

// What an event changes. place: where the charge is kept, if it is; else the charge is none.
#[derive(Drop)]
pub struct Change {
    pub outcome: Outcome,
    pub place: Option<Place>,
    pub status: Status,
    pub charge: Charge,
}

// service: 0 for no closing figure.
#[repr(C)]
#[derive(Drop)]
pub struct Closing {
    pub service: u32,
    pub value: Charge,
}

#[repr(C)]
#[derive(Drop)]
pub struct Marks {
    pub absent: Services,
    pub conflict: Services,
}

#[repr(C)]
#[derive(Drop)]
pub struct Pending {
    pub asked: Services,
    pub unused: u8,
    pub s: u16,
    pub d: u16,
    pub e: u16,
}

pub fn no_charge() -> Charge
    ensures { result ≡ no_charge }
{
    types::NO_CHARGE
}

// The account of a call that has had no event.
pub fn fresh() -> Account
    ensures { result ≡ fresh }
{
    let none = no_charge();
    Account {
        status: phases::bare(phases::IDLE),
        rate: none,
        running: none,
        dfinal: none,
        efinal: none,
    }
}

// ---- reading off: a function for each part, since C calls each (`aoc_rate_of`, `aoc_running_of`, `aoc_closing_of` and so on)

pub fn rate_of(a: Account) -> Charge
    ensures one { result ≡ a.rate }
    ensures rules { (h : List Given) → a ≡ account_by (judged h) → result ≡ current_rate (judged h) }
{
    a.rate
}

pub fn running_of(a: Account) -> Charge
    ensures one { result ≡ a.running }
    ensures rules { (h : List Given) → a ≡ account_by (judged h) → result ≡ running (judged h) }
{
    a.running
}

pub fn closing_figure(service: u32, value: Charge) -> Closing
    ensures { result ≡ record { service = service; value = value } }
{
    Closing { service, value }
}

pub fn closing_of(a: Account) -> Closing
    ensures one { result ≡ closing_of a }
    ensures rules { (h : List Given) → a ≡ account_by (judged h) → result ≡ closing (judged h) }
{
    let d = a.dfinal;
    let e = a.efinal;
    let none = no_charge();
    if a.status.phase != phases::ENDED {
        return closing_figure(closing_service::NONE, none);
    }
    if e.figure.kind != charge_kind::NONE {
        return closing_figure(closing_service::E, e);
    }
    if d.figure.kind != charge_kind::NONE {
        return closing_figure(closing_service::D, d);
    }
    closing_figure(closing_service::NONE, none)
}

pub fn marks_of(a: Account) -> Marks
    ensures one { result ≡ marks_of a }
    ensures rules { (h : List Given) → a ≡ account_by (judged h) → result ≡ marks (judged h) }
{
    Marks {
        absent: a.status.absent,
        conflict: a.status.conflict,
    }
}

pub fn pending_of(a: Account) -> Pending
    ensures one { result ≡ pending_of (requests_of a.status) }
    ensures rules { (h : List Given) → a ≡ account_by (judged h) → result ≡ pending_of (requests (judged h)) }
{
    let t = a.status;
    Pending {
        asked: t.asked,
        unused: 0,
        s: t.s,
        d: t.d,
        e: t.e,
    }
}

pub fn phase_of(a: Account) -> u8
    ensures one { result ≡ a.status.phase }
    ensures rules { (h : List Given) → a ≡ account_by (judged h) → result ≡ phase (judged h) }
{
    a.status.phase
}

// ---- the events of a call, from what a host passes

pub fn setup_event(asked: Services, ids: Three) -> Event
    ensures { result ≡ setup_event asked ids }
{
    phases::event_of(phases::SETUP, asked, ids.s, ids.d, ids.e)
}

pub fn plain_event(kind: u8) -> Event
    ensures { result ≡ plain_event kind }
{
    phases::bare_event(kind)
}

pub fn component_event() -> Event
    ensures { result ≡ plain_event Component }
{
    phases::bare_event(phases::COMPONENT)
}
