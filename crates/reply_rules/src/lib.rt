// Makes the reject that must be sent for a refused component, as a record.
#![tactic(auto)]

ghost use Rattle.std.specs.Prelude.{◌≡◌};
ghost use Rattle.types.specs.Frames.{front_by, uncharged};
ghost use Rattle.reply_rules.specs.Rejects.{first_of, identifier_of, reply_by};

use coding::refusal;
use types::frame;

// As wide as a refusal is handed over; the refusals of an argument or result begin with MISSING.
const UNKNOWN_COMPONENT: u32 = refusal::UNKNOWN_COMPONENT as u32;

const BAD_FRAME: u32 = refusal::BAD_FRAME as u32;

const UNKNOWN_OPERATION: u32 = refusal::UNKNOWN_OPERATION as u32;

const UNKNOWN_ERROR: u32 = refusal::UNKNOWN_ERROR as u32;

const MISSING: u32 = refusal::MISSING as u32;

// A reject's problem, and the details under each that are sent, by their names in include/aoc.h.
pub mod problem {
    pub const GENERAL: u8 = 0x80;

    pub const INVOKE: u8 = 0x81;

    pub const RESULT: u8 = 0x82;

    pub const ERROR: u8 = 0x83;
}

pub mod general_problem {
    pub const UNRECOGNIZED_COMPONENT: u8 = 0;

    pub const MISTYPED_COMPONENT: u8 = 1;

    pub const BADLY_STRUCTURED: u8 = 2;
}

pub mod invoke_problem {
    pub const UNRECOGNIZED_OPERATION: u8 = 1;

    pub const MISTYPED_ARGUMENT: u8 = 2;
}

pub mod result_problem {
    pub const MISTYPED: u8 = 2;
}

pub mod error_problem {
    pub const UNRECOGNIZED_ERROR: u8 = 2;
}

pub fn first_of(octets: &[u8]) -> u8
    ensures { result ≡ first_of octets.now }
{
    if octets.len() == 0 {
        return 0;
    }
    octets[0]
}

// The identifier of a component whose contents can be entered; 0 where none can be read, or where there are over 254 octets, which are not opened.
// It opens the component by itself: `read_heads::enter` stays with one caller, and is compiled into it.
pub fn identifier_of(octets: &[u8]) -> u16
    ensures { result ≡ identifier_of octets.now }
{
    let n = octets.len();
    if n == 0 {
        return 0;
    }
    if 254 < n {
        return 0;
    }
    let tag = octets[0];
    if tag < 0xa1 {
        return 0;
    }
    if 0xa4 < tag {
        return 0;
    }
    let e = read_lengths::open_at(octets, 0, n, tag);
    if e.fault != 0 {
        return 0;
    }
    if e.next != n {
        return 0;
    }
    let i = read_elements::identifier_at(octets, e.value.start, e.value.stop, 0x02);
    i.value as u16
}

// With NULL where unnamed is 1.
fn reject(unnamed: u8, id: u16, problem: u8, detail: u8) -> types::Record
    ensures { result ≡ uncharged (front_by 4 unnamed id 0 0 problem detail) }
{
    types::Record {
        front: types::Front {
            frame: frame::REJECT,
            unnamed,
            id,
            operation: 0,
            error: 0,
            problem,
            detail,
        },
        charge: types::NO_CHARGE,
    }
}

// The reject for a refusal, by the component's first octet and its identifier.
pub fn reject_for(number: u32, first: u8, id: u16) -> types::Record
    ensures { result ≡ reply_by number first id }
{
    if number == UNKNOWN_COMPONENT {
        return reject(
            1,
            0,
            problem::GENERAL,
            general_problem::UNRECOGNIZED_COMPONENT,
        );
    }
    if number == BAD_FRAME {
        return reject(1, 0, problem::GENERAL, general_problem::MISTYPED_COMPONENT);
    }
    if number == UNKNOWN_ERROR {
        return reject(0, id, problem::ERROR, error_problem::UNRECOGNIZED_ERROR);
    }
    if number == UNKNOWN_OPERATION {
        if first == 0xa2 {
            return reject(0, id, problem::RESULT, result_problem::MISTYPED);
        }
        return reject(
            0,
            id,
            problem::INVOKE,
            invoke_problem::UNRECOGNIZED_OPERATION,
        );
    }
    if MISSING <= number {
        if first == 0xa2 {
            return reject(0, id, problem::RESULT, result_problem::MISTYPED);
        }
        return reject(0, id, problem::INVOKE, invoke_problem::MISTYPED_ARGUMENT);
    }
    reject(1, 0, problem::GENERAL, general_problem::BADLY_STRUCTURED)
}
