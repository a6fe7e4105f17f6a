// Heads of components: all that comes before an argument or result. Of a return error or a reject, all.
#![tactic(auto)]

pub mod values;

ghost use Rattle.std.specs.Prelude.{◌≡◌, [], ◌∷◌, ℕ, ◌+◌, ◌≤◌, ◌<◌, length};
ghost use Rattle.std.proofs.Common.{inr};
ghost use Rattle.coding.specs.Reader.{entered_any};
ghost use Rattle.coding.specs.Reader.Fault.{named};
ghost use Rattle.coding.specs.inner.Shown.{shown};
ghost use Rattle.types.specs.Frames.{front_by, outside, number_of, value, invoke, return_result, return_error, reject, caller, rejects, read_whole};
ghost use Rattle.read_heads.specs.inner.Heads.{outside_code, argument_code, fault_by, contents_of, no_head, rest_of, caller_by, rejected_by, problem_in, problems_in};
ghost use Rattle.read_lengths.specs.inner.Bounds.{Bounded};

use coding::{named, refusal};
use types::frame;

// What comes before an argument or result, which lies from at to stop, in an element that ends at next, in a component whose contents end at end; of a
// return error or reject, all.
// The front's frame is 0 where reading stopped, with the fault, whose place is at.
// The front is the last field, beside other zeros. Elsewhere its zeros would be one word, in which it would then be put together: 16 more instructions for each component.
#[derive(Clone, Copy)]
pub struct Head {
    pub fault: u8,
    pub at: usize,
    pub stop: usize,
    pub next: usize,
    pub end: usize,
    pub front: types::Front,
}

// ---- faults

// A fault of the component's own element.
pub fn outer(fault: u8) -> u8
    ensures { result ≡ outside_code fault }
{
    if named::BASE <= fault {
        return fault;
    }
    match fault {
        refusal::MISSING => named::CUT,
        refusal::UNEXPECTED => named::UNKNOWN_COMPONENT,
        refusal::LACKING => named::CUT,
        refusal::LENGTH_FORM => named::LENGTH_FORM,
        _ => named::BAD_FRAME,
    }
}

// A fault in the argument or result.
pub fn inner(fault: u8) -> u8
    ensures { result ≡ argument_code fault }
{
    if fault < named::BASE {
        return named::BASE + fault;
    }
    fault
}

// The number given for a fault.
pub fn number_of(fault: u8) -> u8
    ensures { result ≡ number_of (fault_by fault) }
{
    if named::BASE <= fault {
        return fault - named::BASE;
    }
    if fault == refusal::LENGTH_FORM {
        return refusal::LENGTH_FORM;
    }
    refusal::BAD_FRAME
}

// ---- heads

// Reading stopped at a place.
fn no_head(fault: u8, at: usize) -> Head
    ensures { result ≡ no_head fault at }
{
    Head {
        fault,
        at,
        stop: 0,
        next: 0,
        end: 0,
        front: types::Front {
            frame: 0,
            unnamed: 0,
            id: 0,
            operation: 0,
            error: 0,
            problem: 0,
            detail: 0,
        },
    }
}

// What comes before an argument or result.
fn lead(frame: u8, id: u16, operation: u8, at: usize, stop: usize, next: usize, end: usize) -> Head
    ensures { result ≡ record { fault = 0; at = at; stop = stop; next = next; end = end; front = front_by frame 0 id operation 0 0 0 } }
{
    Head {
        fault: 0,
        at,
        stop,
        next,
        end,
        front: types::Front {
            frame,
            unnamed: 0,
            id,
            operation,
            error: 0,
            problem: 0,
            detail: 0,
        },
    }
}

// A return error or reject, which is read whole.
fn alone(frame: u8, unnamed: u8, id: u16, error: u8, problem: u8, detail: u8) -> Head
    ensures { result ≡ record { fault = 0; at = 0; stop = 0; next = 0; end = 0; front = front_by frame unnamed id 0 error problem detail } }
{
    Head {
        fault: 0,
        at: 0,
        stop: 0,
        next: 0,
        end: 0,
        front: types::Front {
            frame,
            unnamed,
            id,
            operation: 0,
            error,
            problem,
            detail,
        },
    }
}

// A1: identifier, operation.
fn invoke_head(s: &[u8], start: usize, n: usize) -> Head
    requires { Bounded s.now n }
    ensures s_value { rest_of result s.now ≡ contents_of invoke s.now start n }
    ensures inside { result.stop ≤ length s.now }
{
    let i = read_elements::identifier_at(s, start, n, 0x02);
    if i.fault != 0 {
        return no_head(i.fault, i.place);
    }
    let o = values::value_at(s, i.next, n, frame::INVOKE);
    if o.fault != 0 {
        return no_head(o.fault, o.place);
    }
    let id = i.value as u16;
    let operation = o.value as u8;
    lead(frame::INVOKE, id, operation, o.next, n, n, n)
}

// A2: identifier, then 30 holding operation and result.
fn result_head(s: &[u8], start: usize, n: usize) -> Head
    requires { Bounded s.now n }
    ensures s_value { rest_of result s.now ≡ contents_of return_result s.now start n }
    ensures inside { result.stop ≤ length s.now }
{
    let i = read_elements::identifier_at(s, start, n, 0x02);
    if i.fault != 0 {
        return no_head(i.fault, i.place);
    }
    let e = read_lengths::open_at(s, i.next, n, 0x30);
    if e.fault != 0 {
        return no_head(e.fault, e.place);
    }
    let o = values::value_long(s, e.value.start, e.value.stop, frame::RESULT);
    if o.fault != 0 {
        return no_head(o.fault, o.place);
    }
    let id = i.value as u16;
    let operation = o.value as u8;
    let last = e.value.stop;
    lead(frame::RESULT, id, operation, o.next, last, e.next, n)
}

// A3: identifier, error.
fn error_head(s: &[u8], start: usize, n: usize) -> Head
    requires { Bounded s.now n }
    ensures s_value { rest_of result s.now ≡ contents_of return_error s.now start n }
    ensures inside { result.stop ≤ length s.now }
{
    let i = read_elements::identifier_at(s, start, n, 0x02);
    if i.fault != 0 {
        return no_head(i.fault, i.place);
    }
    let o = values::value_at(s, i.next, n, frame::ERROR);
    if o.fault != 0 {
        return no_head(o.fault, o.place);
    }
    if o.next != n {
        return no_head(refusal::UNEXPECTED, o.next);
    }
    alone(frame::ERROR, 0, i.value as u16, o.value as u8, 0, 0)
}

// What a reject answers: an identifier, or NULL.
#[derive(Drop)]
pub struct Caller {
    pub unnamed: u8,
    pub id: u16,
}

#[derive(Drop)]
pub struct CallerRead {
    pub fault: u8,
    pub place: usize,
    pub value: Caller,
    pub next: usize,
}

fn caller_read(fault: u8, place: usize, unnamed: u8, id: u16, next: usize) -> CallerRead
    ensures { result ≡ record { fault = fault; place = place; value = record { unnamed = unnamed; id = id }; next = next } }
{
    CallerRead {
        fault,
        place,
        value: Caller { unnamed, id },
        next,
    }
}

pub fn caller_at(s: &[u8], at: usize, end: usize) -> CallerRead
    requires { Bounded s.now end }
    ensures next_value { (result.fault, result.place, caller_by result.value, result.next) ≡ shown (inr 0) (caller.read s.now at end) }
    ensures proper { (tag detail : ℕ) → rejects (caller_by result.value) tag detail ≡ rejected_by result.value tag detail }
{
    if read_lengths::is_tag(s, at, end, 0x05) {
        let z = read_elements::null_at(s, at, end, 0x05);
        if z.fault != 0 {
            return caller_read(z.fault, z.place, 0, 0, 0);
        }
        return caller_read(0, 0, 1, 0, z.next);
    }
    let i = read_elements::identifier_at(s, at, end, 0x02);
    if i.fault != 0 {
        return caller_read(i.fault, i.place, 0, 0, 0);
    }
    caller_read(0, 0, 0, i.value as u16, i.next)
}

#[derive(Drop)]
pub struct ProblemRead {
    pub fault: u8,
    pub place: usize,
    pub value: Problem,
    pub next: usize,
}

// A reject's problem: its tag and its value.
#[derive(Drop)]
pub struct Problem {
    pub tag: u8,
    pub detail: u8,
}

fn problem_at(s: &[u8], at: usize, end: usize, tag: u8, most: u32) -> ProblemRead
    requires { Bounded s.now end × (most < 256) }
    ensures { (result.fault, result.place, result.value, result.next) ≡ shown (record { tag = 0; detail = 0 }) (problem_in tag most s.now at end) }
{
    let n = read_elements::natural_at(s, at, end, tag, 0, most);
    if n.fault != 0 {
        return ProblemRead {
            fault: n.fault,
            place: n.place,
            value: Problem { tag: 0, detail: 0 },
            next: 0,
        };
    }
    let detail = n.value as u8;
    ProblemRead {
        fault: 0,
        place: 0,
        value: Problem { tag, detail },
        next: n.next,
    }
}

pub fn problems_at(s: &[u8], at: usize, end: usize) -> ProblemRead
    requires { Bounded s.now end }
    ensures { (result.fault, result.place, result.value, result.next) ≡ shown (record { tag = 0; detail = 0 }) (problems_in s.now at end) }
{
    if read_lengths::is_tag(s, at, end, 0x80) {
        return problem_at(s, at, end, 0x80, 2);
    }
    if read_lengths::is_tag(s, at, end, 0x81) {
        return problem_at(s, at, end, 0x81, 7);
    }
    if read_lengths::is_tag(s, at, end, 0x82) {
        return problem_at(s, at, end, 0x82, 2);
    }
    problem_at(s, at, end, 0x83, 4)
}

// A4: identifier or NULL, problem.
fn reject_head(s: &[u8], start: usize, n: usize) -> Head
    requires { Bounded s.now n }
    ensures s_value { rest_of result s.now ≡ contents_of reject s.now start n }
    ensures inside { result.stop ≤ length s.now }
{
    let i = caller_at(s, start, n);
    if i.fault != 0 {
        return no_head(i.fault, i.place);
    }
    let p = problems_at(s, i.next, n);
    if p.fault != 0 {
        return no_head(p.fault, p.place);
    }
    if p.next != n {
        return no_head(refusal::UNEXPECTED, p.next);
    }
    let who = i.value;
    let why = p.value;
    alone(frame::REJECT, who.unnamed, who.id, 0, why.tag, why.detail)
}

// The component's own element: its first octet, its length, its end, and nothing after it.
pub fn enter(s: &[u8]) -> read_lengths::Opened
    requires { length s.now ≤ 257 }
    ensures next_value { (result.fault, result.place, result.value, result.next) ≡ shown (record { start = 0; stop = 0 }) (entered_any (0xa1 ∷ 0xa2 ∷ 0xa3 ∷ 0xa4 ∷ []) outside (named 5) s.now 0 (length s.now)) }
    ensures there { (result.fault ≡ 0) → (0 < length s.now) }
    ensures inside { result.value.stop ≤ length s.now }
{
    let n = s.len();
    if n == 0 {
        return read_lengths::halted(named::CUT, n);
    }
    let tag = s[0];
    if tag < 0xa1 {
        return read_lengths::halted(named::UNKNOWN_COMPONENT, 0);
    }
    if 0xa4 < tag {
        return read_lengths::halted(named::UNKNOWN_COMPONENT, 0);
    }
    let e = read_lengths::open_at(s, 0, n, tag);
    if e.fault != 0 {
        return read_lengths::halted(outer(e.fault), e.place);
    }
    if e.next != n {
        return read_lengths::halted(named::TRAILING, e.next);
    }
    read_lengths::found(e.value.start, e.value.stop, e.next)
}

// All that comes before an argument or result.
pub fn head_of(s: &[u8]) -> Head
    ensures s_value { rest_of result s.now ≡ read_whole s.now }
    ensures inside { Bounded s.now result.stop }
{
    let n = s.len();
    if 254 < n {
        return no_head(named::TOO_LONG, 0);
    }
    let e = enter(s);
    if e.fault != 0 {
        return no_head(e.fault, e.place);
    }
    let start = e.value.start;
    let stop = e.value.stop;
    match s[0] {
        0xa1 => invoke_head(s, start, stop),
        0xa2 => result_head(s, start, stop),
        0xa3 => error_head(s, start, stop),
        _ => reject_head(s, start, stop),
    }
}
