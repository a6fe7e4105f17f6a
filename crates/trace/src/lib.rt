// Writes the events of a trace as an event list into two buffers of the caller.
#![tactic(auto)]

ghost use Rattle.std.specs.Prelude.{◌≡◌, true, false, List, [], ◌∷◌, ℕ, ◌-◌, ◌≤◌, ◌<◌, length};
ghost use Rattle.coding.specs.inner.Written.{Room};
ghost use Rattle.phases.specs.Phases.{event};
ghost use Rattle.trace_framing.specs.Framing.{message, element_end, Elements, framed, lengths_add_up, messages_of};
ghost use Rattle.trace_messages.specs.Trace.{components_in, components_at, components_after, component_event, component_events, phase_event, setup_by, when, laid_out, of_call, all_framed, trace_from};
ghost use Rattle.events.specs.Laid.{laid_row};
ghost use Rattle.trace.specs.Into.{events_in, laid_of, rows_left, octets_left};
ghost use Rattle.trace.specs.inner.Putting.{Puts, Rooms, RowsFor, Lays};

use coding::refusal;
use phases::Event;
use trace_messages::Gives;

// ---- an event stored in the caller's slices

// Where the next event goes: its row's first number, and its first octet.
#[derive(Drop)]
struct Put {
    pub rows: usize,
    pub octets: usize,
}

fn put_component(rows: &mut [u16], out: &mut [u8], p: Put, octets: &[u8]) -> Put
    requires { (length octets.now ≤ 65535) × Rooms rows.old out.old p (component_event octets.now ∷ []) }
    ensures { Puts rows.old rows.new out.old out.new p (component_event octets.now ∷ []) result }
{
    let n = octets.len();
    let e = phases::bare_event(phases::COMPONENT);
    let row = events::put_row(rows, p.rows, e, n as u16);
    let end = octets::put_octets(out, p.octets, octets, n);
    Put {
        rows: row,
        octets: end,
    }
}

// An event without octets.
fn put_bare(rows: &mut [u16], p: Put, e: Event) -> Put
    requires { Room rows.old p.rows (laid_row e 0) }
    ensures { (out : List ℕ) → Puts rows.old rows.new out out p (event e [] ∷ []) result }
{
    let row = events::put_row(rows, p.rows, e, 0);
    Put {
        rows: row,
        octets: p.octets,
    }
}

// ---- the components of an element, of a message

// The components of a Facility element become events, in one pass over it; none where it is malformed.
fn put_tiles(rows: &mut [u16], out: &mut [u8], p: Put, s: &[u8]) -> Put
    requires { (length s.now ≤ 65535) × Rooms rows.old out.old p (component_events (components_in s.now)) }
    ensures { Puts rows.old rows.new out.old out.new p (component_events (components_in s.now)) result }
{
    if !trace_messages::is_profiled(s) {
        return p;
    }
    let mut q = p;
    let mut place: usize = element::FIRST_PLACE;
    let mut found = element_pass::first(s);
    while found.after != 0 {
        let after = found.after;
        q = put_component(rows, out, q, &s[place..after]);
        place = after;
        found = element_pass::onward(s, after);
    }
    q
}

// The components of the element at a place: a Facility element under no shift.
fn put_at(
    rows: &mut [u16],
    out: &mut [u8],
    p: Put,
    s: &[u8],
    at: usize,
    next: usize,
    under: u8,
) -> Put
    requires { (at < next) × (next ≤ length s.now) × (next ≡ element_end s.now at) × (next - at ≤ 65535) × Rooms rows.old out.old p (component_events (components_at s.now at under)) }
    ensures { Puts rows.old rows.new out.old out.new p (component_events (components_at s.now at under)) result }
{
    if under != 0 {
        return p;
    }
    if s[at] != 0x1c {
        return p;
    }
    put_tiles(rows, out, p, &s[at..next])
}

// The components of a message's elements, from a place to the end, where they are given.
fn put_elements(
    rows: &mut [u16],
    out: &mut [u8],
    p: Put,
    s: &[u8],
    start: usize,
    given: bool,
) -> Put
    requires { Elements s.now start × Rooms rows.old out.old p (when given (component_events (components_after s.now start))) }
    ensures { Puts rows.old rows.new out.old out.new p (when given (component_events (components_after s.now start))) result }
{
    if !given {
        return p;
    }
    let end = s.len();
    let mut q = p;
    let mut under: u8 = 0;
    let mut at = start;
    while at < end {
        let next = trace_framing::element_end(s, at);
        q = put_at(rows, out, q, s, at, next, under);
        under = trace_messages::under_after(under, s[at]);
        at = next;
    }
    q
}

// ---- the events of a message

// A phase event, where it is given.
fn put_when(rows: &mut [u16], p: Put, given: bool, kind: u8) -> Put
    requires { RowsFor rows.old p (when given (phase_event kind ∷ [])) }
    ensures { (out : List ℕ) → Puts rows.old rows.new out out p (when given (phase_event kind ∷ [])) result }
{
    if !given {
        return p;
    }
    put_bare(rows, p, phases::bare_event(kind))
}

// A SETUP's event, where it is given.
fn put_setup(rows: &mut [u16], p: Put, s: &[u8], start: usize, given: bool) -> Put
    requires { Elements s.now start × RowsFor rows.old p (when given (setup_by (components_after s.now start) ∷ [])) }
    ensures { (out : List ℕ) → Puts rows.old rows.new out out p (when given (setup_by (components_after s.now start) ∷ [])) result }
{
    if !given {
        return p;
    }
    let e = trace_setups::setup_of(s, start);
    put_bare(rows, p, e)
}

// Setup; Clear; the components; Connect; Released: those that are given.
fn put_all(rows: &mut [u16], out: &mut [u8], p: Put, s: &[u8], start: usize, g: Gives) -> Put
    requires { Elements s.now start × Rooms rows.old out.old p (laid_out g (components_after s.now start)) }
    ensures { Puts rows.old rows.new out.old out.new p (laid_out g (components_after s.now start)) result }
{
    let a = put_setup(rows, p, s, start, g.setup);
    let b = put_when(rows, a, g.clear, phases::CLEAR);
    let d = put_elements(rows, out, b, s, start, g.components);
    let e = put_when(rows, d, g.connect, phases::CONNECT);
    put_when(rows, e, g.released, phases::RELEASED)
}

// ---- the events of a trace

// The events of a message, none where it has another reference.
fn put_next(
    rows: &mut [u16],
    out: &mut [u8],
    p: Put,
    s: &[u8],
    network: bool,
    cleared: bool,
    call: usize,
) -> Put
    requires { (framed s.now ≡ true) × Rooms rows.old out.old p (of_call call cleared (message s.now network)) }
    ensures { Puts rows.old rows.new out.old out.new p (of_call call cleared (message s.now network)) result }
{
    if trace_messages::reference_of(s) != call {
        return p;
    }
    let g = trace_messages::gives_of(trace_messages::type_of(s), network, cleared);
    let start = 3 + octets::wide(s[1]);
    put_all(rows, out, p, s, start, g)
}

// The events of the messages of one call, stored in the caller's slices.
fn put_trace(
    rows: &mut [u16],
    out: &mut [u8],
    p: Put,
    pairs: &[u32],
    octets: &[u8],
    call: usize,
) -> Put
    requires { (lengths_add_up pairs.now (length octets.now) ≡ true) × (all_framed (messages_of pairs.now octets.now) ≡ true) × Rooms rows.old out.old p (trace_from call false (messages_of pairs.now octets.now)) }
    ensures { Puts rows.old rows.new out.old out.new p (trace_from call false (messages_of pairs.now octets.now)) result }
{
    let mut q = p;
    let mut cleared = false;
    let mut at: usize = 0;
    for i in 0..pairs.len() / 2 {
        let end = at + trace_framing::size(pairs[i * 2]);
        let network = pairs[i * 2 + 1] != 0;
        q = put_next(rows, out, q, &octets[at..end], network, cleared, call);
        let over = trace_messages::cleared_by(&octets[at..end], call, cleared);
        cleared = over;
        at = end;
    }
    q
}

// ---- the whole trace

// number: 0, 48, 49 or 12. message: with 49 the number of the first message that is not framed, from 1. events, octets: how many the list has; 0 where it is refused.
#[repr(C)]
#[derive(Drop)]
pub struct Laid {
    pub number: u64,
    pub message: u64,
    pub events: u64,
    pub octets: u64,
}

const TOO_LITTLE: Laid = Laid {
    number: refusal::NO_ROOM as u64,
    message: 0,
    events: 0,
    octets: 0,
};

// The call's reference: that of the first message; 0 where there is none.
fn call_of(pairs: &[u32], octets: &[u8]) -> usize
    requires { (lengths_add_up pairs.now (length octets.now) ≡ true) × (all_framed (messages_of pairs.now octets.now) ≡ true) }
    ensures { trace_from result false (messages_of pairs.now octets.now) ≡ events_in pairs.now octets.now }
{
    if pairs.len() < 2 {
        return 0;
    }
    let end = trace_framing::size(pairs[0]);
    trace_messages::reference_of(&octets[0..end])
}

// The list of a trace that is framed, where there is room for as many events and octets as the trace has octets.
fn lay(pairs: &[u32], octets: &[u8], rows: &mut [u16], out: &mut [u8]) -> Laid
    requires { (lengths_add_up pairs.now (length octets.now) ≡ true) × (all_framed (messages_of pairs.now octets.now) ≡ true) }
    ensures { Lays (events_in pairs.now octets.now) (length octets.now) rows.old rows.new out.old out.new result }
{
    let call = call_of(pairs, octets);
    let n = octets.len();
    if rows.len() / 6 < n {
        return TOO_LITTLE;
    }
    if out.len() < n {
        return TOO_LITTLE;
    }
    let start = Put { rows: 0, octets: 0 };
    let end = put_trace(rows, out, start, pairs, octets, call);
    Laid {
        number: 0,
        message: 0,
        events: (end.rows / 6) as u64,
        octets: end.octets as u64,
    }
}

// The event list of a trace: 48, then 49, then 12 for too little room; both slices are then as they were.
pub fn events_into(pairs: &[u32], octets: &[u8], rows: &mut [u16], out: &mut [u8]) -> Laid
    ensures value { result ≡ laid_of pairs.now octets.now (length rows.old) (length out.old) }
    ensures rows { rows.new ≡ rows_left pairs.now octets.now rows.old out.old }
    ensures out { out.new ≡ octets_left pairs.now octets.now rows.old out.old }
{
    let v = trace_framing::judge(pairs, octets);
    if v.number != 0 {
        return Laid {
            number: v.number,
            message: v.message,
            events: 0,
            octets: 0,
        };
    }
    lay(pairs, octets, rows, out)
}
