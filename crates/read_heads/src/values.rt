// Operation and error values: which are known in a frame, and how one is read.
ghost use Rattle.std.specs.Prelude.{◌≡◌, true, List, ℕ, ◌+◌, ◌<◌, ltb};
ghost use Rattle.coding.specs.Codec.{one_of, all};
ghost use Rattle.coding.specs.inner.Shown.{shown};
ghost use Rattle.types.specs.Frames.{operations, errors, value};
ghost use Rattle.read_heads.specs.inner.Heads.{known_in, unknown_in, looked_up};
ghost use Rattle.read_lengths.specs.inner.Bounds.{Bounded};

use coding::{named, refusal};
use types::{error, frame, operation};

// As wide as a value that is read.
const CHARGING_REQUEST: u32 = operation::CHARGING_REQUEST as u32;

const E_UNITS: u32 = operation::E_UNITS as u32;

// No list has it.
const UNLISTED: u32 = 16777216;

fn known_operation(n: u32) -> bool
    ensures { result ≡ one_of operations n }
{
    match n {
        CHARGING_REQUEST..=E_UNITS => true,
        _ => false,
    }
}

pub fn known_error(n: u32) -> bool
    ensures { result ≡ one_of errors n }
{
    match n {
        error::NOT_SUBSCRIBED => true,
        error::NOT_AVAILABLE => true,
        error::NOT_IMPLEMENTED => true,
        error::INVALID_CALL_STATE => true,
        error::NO_CHARGING_INFO => true,
        _ => false,
    }
}

fn is_known(frame: u8, n: u32) -> bool
    ensures { result ≡ one_of (known_in frame) n }
{
    match frame {
        frame::INVOKE => known_operation(n),
        frame::RESULT => n == CHARGING_REQUEST,
        _ => known_error(n),
    }
}

// The fault of a value that is not known.
pub fn unknown(frame: u8) -> u8
    ensures { result ≡ 100 + unknown_in frame }
{
    match frame {
        frame::ERROR => named::UNKNOWN_ERROR,
        _ => named::UNKNOWN_OPERATION,
    }
}

// The number of a value, whatever list it is then looked up in: held at 2^24, which no list has, and 2^24 for one below 0 and for tag 06.
pub fn number_at(s: &[u8], at: usize, end: usize) -> read_elements::NumberRead
    requires { Bounded s.now end }
    ensures { (u : ℕ) (ks : List ℕ) → all (λ k. ltb k 16777216) ks ≡ true → looked_up u ks at result ≡ shown 0 ((value u ks).read s.now at end) }
{
    if read_lengths::is_tag(s, at, end, 0x06) {
        return read_elements::number(UNLISTED, 0);
    }
    let e = read_lengths::open_at(s, at, end, 0x02);
    if e.fault != 0 {
        return read_elements::no_number(e.fault, e.place);
    }
    let start = e.value.start;
    let stop = e.value.stop;
    if !read_elements::is_shortest(s, start, stop) {
        return read_elements::no_number(refusal::NOT_SHORTEST, at);
    }
    if 4 < stop - start {
        return read_elements::no_number(refusal::BAD_CONTENTS, at);
    }
    if read_elements::is_negative(s, start, stop) {
        return read_elements::number(UNLISTED, e.next);
    }
    let value = read_elements::magnitude(s, start, stop);
    read_elements::number(value, e.next)
}

pub fn value_long(s: &[u8], at: usize, end: usize, frame: u8) -> read_elements::NumberRead
    requires { Bounded s.now end }
    ensures next_value { (result.fault, result.place, result.value, result.next) ≡ shown 0 ((value (unknown_in frame) (known_in frame)).read s.now at end) }
    ensures bounded { result.value < 256 }
{
    let n = number_at(s, at, end);
    if n.fault != 0 {
        return read_elements::no_number(n.fault, n.place);
    }
    if is_known(frame, n.value) {
        return n;
    }
    read_elements::no_number(unknown(frame), at)
}

// The same, where the value is a known one of one octet at once.
pub fn value_at(s: &[u8], at: usize, end: usize, frame: u8) -> read_elements::NumberRead
    requires { Bounded s.now end }
    ensures next_value { (result.fault, result.place, result.value, result.next) ≡ shown 0 ((value (unknown_in frame) (known_in frame)).read s.now at end) }
    ensures bounded { result.value < 256 }
{
    let x = read_elements::tiny(s, at, end, 0x02) as u32;
    if x < 128 {
        if is_known(frame, x) {
            return read_elements::number(x, at + 3);
        }
    }
    value_long(&s[0..], at, end, frame)
}
