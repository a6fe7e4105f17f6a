// What is at the head of a trunk's component: the component's own element, and its operation or error value.
#![tactic(auto)]

ghost use Rattle.std.specs.Prelude.{◌≡◌, true, ◌≤◌, ◌<◌, length};
ghost use Rattle.coding.specs.Reader.{entered_any};
ghost use Rattle.coding.specs.Reader.Fault.{named};
ghost use Rattle.coding.specs.Codec.{one_of};
ghost use Rattle.coding.specs.inner.Shown.{shown};
ghost use Rattle.types.specs.Frames.{outside, value};
ghost use Rattle.trunk_types.specs.Components.{trunk_operations, answerable, trunk_errors, tags};
ghost use Rattle.trunk_read_heads.specs.inner.Known.{known_in};
ghost use Rattle.read_heads.specs.inner.Heads.{unknown_in};
ghost use Rattle.read_lengths.specs.inner.Bounds.{Bounded};

use coding::named;
use read_heads::values;
use types::{error, frame, operation};

// As wide as a value that is read.
const CHARGE_REQUEST: u32 = operation::CHARGE_REQUEST as u32;

const COMPLETE: u32 = operation::COMPLETE as u32;

const DIVERSION: u32 = operation::DIVERSION as u32;

// ---- operation and error values

pub fn known_operation(n: u32) -> bool
    ensures { result ≡ one_of trunk_operations n }
{
    match n {
        CHARGE_REQUEST..=DIVERSION => true,
        _ => false,
    }
}

pub fn is_answerable(n: u32) -> bool
    ensures { result ≡ one_of answerable n }
{
    match n {
        CHARGE_REQUEST => true,
        COMPLETE => true,
        _ => false,
    }
}

pub fn known_error(n: u32) -> bool
    ensures { result ≡ one_of trunk_errors n }
{
    match n {
        error::NOT_AVAILABLE => true,
        error::INTERACTION => true,
        error::UNSPECIFIED => true,
        error::FREE => true,
        _ => false,
    }
}

fn is_known(frame: u8, n: u32) -> bool
    ensures { result ≡ one_of (known_in frame) n }
{
    match frame {
        frame::INVOKE => known_operation(n),
        frame::RESULT => is_answerable(n),
        _ => known_error(n),
    }
}

fn value_long(s: &[u8], at: usize, end: usize, frame: u8) -> read_elements::NumberRead
    requires { Bounded s.now end }
    ensures next_value { (result.fault, result.place, result.value, result.next) ≡ shown 0 ((value (unknown_in frame) (known_in frame)).read s.now at end) }
    ensures bounded { result.value < 1017 }
    ensures known { result.fault ≡ 0 → one_of (known_in frame) result.value ≡ true }
{
    let n = values::number_at(s, at, end);
    if n.fault != 0 {
        return read_elements::no_number(n.fault, n.place);
    }
    if is_known(frame, n.value) {
        return n;
    }
    read_elements::no_number(values::unknown(frame), at)
}

// The same, where the value is a known one of one octet at once.
pub fn value_at(s: &[u8], at: usize, end: usize, frame: u8) -> read_elements::NumberRead
    requires { Bounded s.now end }
    ensures next_value { (result.fault, result.place, result.value, result.next) ≡ shown 0 ((value (unknown_in frame) (known_in frame)).read s.now at end) }
    ensures bounded { result.value < 1017 }
    ensures known { result.fault ≡ 0 → one_of (known_in frame) result.value ≡ true }
{
    let x = read_elements::tiny(s, at, end, 0x02) as u32;
    if x < 128 {
        if is_known(frame, x) {
            return read_elements::number(x, at + 3);
        }
    }
    value_long(&s[0..], at, end, frame)
}

// ---- the component's own element

// A1 to A4, and AA.
fn is_frame(tag: u8) -> bool
    ensures { result ≡ one_of tags tag }
{
    match tag {
        0xa1..=0xa4 => true,
        0xaa => true,
        _ => false,
    }
}

// Its first octet, its length, its end, and nothing after it.
pub fn enter(s: &[u8]) -> read_lengths::Opened
    requires { length s.now ≤ 257 }
    ensures next_value { (result.fault, result.place, result.value, result.next) ≡ shown (record { start = 0; stop = 0 }) (entered_any tags outside (named 5) s.now 0 (length s.now)) }
    ensures there { (result.fault ≡ 0) → (0 < length s.now) }
    ensures inside { result.value.stop ≤ length s.now }
{
    let n = s.len();
    if n == 0 {
        return read_lengths::halted(named::CUT, n);
    }
    let tag = s[0];
    if !is_frame(tag) {
        return read_lengths::halted(named::UNKNOWN_COMPONENT, 0);
    }
    let e = read_lengths::open_at(s, 0, n, tag);
    if e.fault != 0 {
        return read_lengths::halted(read_heads::outer(e.fault), e.place);
    }
    if e.next != n {
        return read_lengths::halted(named::TRAILING, e.next);
    }
    read_lengths::found(e.value.start, e.value.stop, e.next)
}
