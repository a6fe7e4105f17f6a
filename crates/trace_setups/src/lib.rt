// The requests of a SETUP: the first ChargingRequest for each service among its components.
#![tactic(auto)]

ghost use Rattle.std.specs.Prelude.{◌≡◌, ◌≤◌, ◌<◌, length};
ghost use Rattle.types.specs.Frames.{read_of};
ghost use Rattle.trace_framing.specs.Framing.{element_end, Elements};
ghost use Rattle.trace_messages.specs.Trace.{components_in, components_at, components_after, first_request, setup_by};
ghost use Rattle.trace_setups.specs.inner.Asked.{asked_of, asked_by};

use phases::Event;
use requests::Services;
use types::{charging_case, frame, operation};

// Whether a component is an accepted ChargingRequest for a case: 0 S, 1 D, 2 E. Its identifier, with a mark.
#[derive(Drop)]
pub struct Asked {
    pub mark: u8,
    pub id: u16,
}

fn asked_by(octets: &[u8], case: u8) -> Asked
    ensures { result ≡ asked_by case (read_of octets.now) }
{
    let a = read::read(octets);
    let front = a.value.front;
    if a.number != 0 {
        return Asked { mark: 0, id: 0 };
    }
    if front.frame != frame::INVOKE {
        return Asked { mark: 0, id: 0 };
    }
    if front.operation != operation::CHARGING_REQUEST {
        return Asked { mark: 0, id: 0 };
    }
    if front.detail != case {
        return Asked { mark: 0, id: 0 };
    }
    Asked {
        mark: 1,
        id: front.id,
    }
}

// The first request for a case among the components of a Facility element.
fn asked_in(s: &[u8], case: u8) -> Asked
    ensures { result ≡ asked_of (first_request case (components_in s.now)) }
{
    if !trace_messages::is_profiled(s) {
        return Asked { mark: 0, id: 0 };
    }
    let mut place: usize = element::FIRST_PLACE;
    let mut found = element_pass::first(s);
    while found.after != 0 {
        let after = found.after;
        let q = asked_by(&s[place..after], case);
        if q.mark != 0 {
            return q;
        }
        place = after;
        found = element_pass::onward(s, after);
    }
    Asked { mark: 0, id: 0 }
}

// Of the element at a place.
fn asked_at(s: &[u8], at: usize, next: usize, under: u8, case: u8) -> Asked
    requires { (at < next) × (next ≤ length s.now) × (next ≡ element_end s.now at) }
    ensures { result ≡ asked_of (first_request case (components_at s.now at under)) }
{
    if under != 0 {
        return Asked { mark: 0, id: 0 };
    }
    if s[at] != 0x1c {
        return Asked { mark: 0, id: 0 };
    }
    asked_in(&s[at..next], case)
}

// Of a message's elements, from a place to the end.
fn asked_from(s: &[u8], start: usize, case: u8) -> Asked
    requires { Elements s.now start }
    ensures { result ≡ asked_of (first_request case (components_after s.now start)) }
{
    let end = s.len();
    let mut under: u8 = 0;
    let mut at = start;
    while at < end {
        let next = trace_framing::element_end(s, at);
        let q = asked_at(s, at, next, under, case);
        if q.mark != 0 {
            return q;
        }
        under = trace_messages::under_after(under, s[at]);
        at = next;
    }
    Asked { mark: 0, id: 0 }
}

pub fn setup_of(s: &[u8], start: usize) -> Event
    requires { Elements s.now start }
    ensures { result ≡ (setup_by (components_after s.now start)).event }
{
    let s0 = asked_from(s, start, charging_case::S);
    let d0 = asked_from(s, start, charging_case::D);
    let e0 = asked_from(s, start, charging_case::E);
    let asked = Services {
        s: s0.mark,
        d: d0.mark,
        e: e0.mark,
    };
    phases::event_of(phases::SETUP, asked, s0.id, d0.id, e0.id)
}
