// The table of types of ETS 300 182-1 as definitions, the theorems about whole components, and the structs of a record as C sees them.
//
// No struct has padding, no field is a bool or an enum (a host's memory may hold anything), and what is not used is zero.
#![tactic(auto)]

ghost use Rattle.std.specs.Prelude.{◌≡◌};
ghost use Rattle.types.specs.Charges.{is_digit};

// 1 to 10 octets, each below 80 (hex).
#[repr(C)]
#[derive(Clone, Copy)]
pub struct Currency {
    pub count: u8,
    pub octets: [u8; 10],
}

// An amount in a currency: the number times ten to the multiplier, in thousandths.
#[repr(C)]
#[derive(Clone, Copy)]
pub struct Money {
    pub currency: Currency,
    pub multiplier: u8,
    pub number: u32,
}

// Which other call a charge belongs to. kind: 0 none, 1 an identifier, 2 a number alone, 3 a number of a kind (plan).
#[repr(C)]
#[derive(Clone, Copy)]
pub struct Association {
    pub id: u16,
    pub count: u16,
    pub kind: u8,
    pub plan: u8,
    pub digits: [u8; 20],
}

// A charge but for its list. kind: 0 not available (or no charge at all), 1 free, 2 money, 3 units, 4 rates, 5 a special arrangement.
#[repr(C)]
#[derive(Clone, Copy)]
pub struct Figure {
    pub money: Money,
    pub association: Association,
    pub kind: u8,
    pub total: u8,
    pub billed: u8,
    pub billing: u8,
    pub arrangement: u8,
    pub count: u8,
}

// The one list of a charge, its entries laid in rows of numbers and of octets.
// Units, entry i: the number at numbers[i]; known and the type at octets[2 * i].
// Rates, entry i: the amount's number, the time and the step at numbers[3 * i]; the other fields and the currency at octets[18 * i].
#[repr(C)]
#[derive(Clone, Copy)]
pub struct Entries {
    pub numbers: [u32; 32],
    pub octets: [u8; 192],
}

#[repr(C)]
#[derive(Clone, Copy)]
pub struct Charge {
    pub figure: Figure,
    pub entries: Entries,
}

// An entry of a list of units. known: 0 not available, 1 a number; kind: the type 1 to 16, or 0 for none.
#[derive(Clone, Copy)]
pub struct Units {
    pub number: u32,
    pub known: u8,
    pub kind: u8,
}

// An entry of a list of rates. kind: 1 duration, 2 flat, 3 volume, 4 a code, 5 free, 6 unknown.
// detail: the duration's type, the volume's unit, or the code. stepped: 1 where a step (the time A5) is given.
#[derive(Clone, Copy)]
pub struct Rate {
    pub item: u8,
    pub kind: u8,
    pub detail: u8,
    pub stepped: u8,
    pub scale: u8,
    pub stepscale: u8,
    pub multiplier: u8,
    pub currency: Currency,
    pub number: u32,
    pub time: u32,
    pub step: u32,
}

// A number with its multiplier or scale.
#[derive(Drop)]
pub struct Scaled {
    pub number: u32,
    pub scale: u8,
}

// All of a component but its charge. frame: 1 invoke, 2 return result, 3 return error, 4 reject. id: the identifier's 16 bits, two's complement.
// unnamed: 1 for a reject with NULL in place of the identifier. problem: the tag of a reject's problem, 80 to 83 (hex).
// detail: the service that operation 30 asks for, 0 S, 1 D, 2 E; or the value of a reject's problem.
#[repr(C)]
#[derive(Clone, Copy)]
pub struct Front {
    pub frame: u8,
    pub unnamed: u8,
    pub id: u16,
    pub operation: u8,
    pub error: u8,
    pub problem: u8,
    pub detail: u8,
}

// A component.
#[repr(C)]
#[derive(Drop)]
pub struct Record {
    pub front: Front,
    pub charge: Charge,
}

// What reading octets answers: 0 and the record; or the refusal's number, with 40 to 45 the offset of the octet at which reading stopped, and zeros.
#[repr(C)]
#[derive(Drop)]
pub struct Answer {
    pub number: u32,
    pub offset: u32,
    pub value: Record,
}

// ---- numbers by the names of include/aoc.h

pub mod frame {
    pub const INVOKE: u8 = 1;

    pub const RESULT: u8 = 2;

    pub const ERROR: u8 = 3;

    pub const REJECT: u8 = 4;

    pub const EXTENSION: u8 = 10;
}

// Up to E_UNITS those of a public line, from CHARGE_REQUEST on those of a trunk.
pub mod operation {
    pub const CHARGING_REQUEST: u8 = 30;

    pub const S_CURRENCY: u8 = 31;

    pub const S_SPECIAL: u8 = 32;

    pub const D_CURRENCY: u8 = 33;

    pub const D_UNITS: u8 = 34;

    pub const E_CURRENCY: u8 = 35;

    pub const E_UNITS: u8 = 36;

    pub const CHARGE_REQUEST: u8 = 59;

    pub const GET_FINAL_CHARGE: u8 = 60;

    pub const FINAL: u8 = 61;

    pub const INTERIM: u8 = 62;

    pub const RATE: u8 = 63;

    pub const COMPLETE: u8 = 64;

    pub const DIVERSION: u8 = 65;
}

// What CHARGING_REQUEST asks for.
pub mod charging_case {
    pub const S: u8 = 0;

    pub const D: u8 = 1;

    pub const E: u8 = 2;
}

pub mod error {
    pub const NOT_SUBSCRIBED: u32 = 0;

    pub const NOT_AVAILABLE: u32 = 3;

    pub const NOT_IMPLEMENTED: u32 = 4;

    pub const INVALID_CALL_STATE: u32 = 7;

    pub const INTERACTION: u32 = 10;

    pub const NO_CHARGING_INFO: u32 = 26;

    pub const UNSPECIFIED: u32 = 1008;

    pub const FREE: u32 = 1016;
}

pub mod charge_kind {
    pub const NONE: u8 = 0;

    pub const FREE: u8 = 1;

    pub const MONEY: u8 = 2;

    pub const UNITS: u8 = 3;

    pub const RATES: u8 = 4;

    pub const ARRANGEMENT: u8 = 5;
}

pub mod association_kind {
    pub const NONE: u8 = 0;

    pub const IDENTIFIER: u8 = 1;

    pub const NUMBER: u8 = 2;

    pub const PLANNED_NUMBER: u8 = 3;

    pub const PRIVATE_NUMBER: u8 = 4;
}

pub mod rate_kind {
    pub const DURATION: u8 = 1;

    pub const FLAT: u8 = 2;

    pub const VOLUME: u8 = 3;

    pub const CODE: u8 = 4;

    pub const FREE: u8 = 5;

    pub const UNKNOWN: u8 = 6;

    pub const FREE_FROM_BEGINNING: u8 = 7;
}

pub mod billing {
    pub const NORMAL: u8 = 0;

    pub const REVERSE: u8 = 1;

    pub const CREDIT_CARD: u8 = 2;

    pub const FORWARDING_UNCONDITIONAL: u8 = 3;

    pub const FORWARDING_BUSY: u8 = 4;

    pub const FORWARDING_NO_REPLY: u8 = 5;

    pub const DEFLECTION: u8 = 6;

    pub const TRANSFER: u8 = 7;
}

// ---- where the fields of a record begin in its octets

pub mod in_front {
    pub const FRAME: usize = 0;

    pub const UNNAMED: usize = 1;

    pub const ID: usize = 2;

    pub const ID_HIGH: usize = 3;

    pub const OPERATION: usize = 4;

    pub const ERROR: usize = 5;

    pub const PROBLEM: usize = 6;

    pub const DETAIL: usize = 7;
}

// Currency and amount, the association (from ID on), and the rest.
pub mod in_figure {
    pub const CURRENCY_COUNT: usize = 0;

    pub const CURRENCY: usize = 1;

    pub const MULTIPLIER: usize = 11;

    pub const NUMBER: usize = 12;

    pub const NUMBER_1: usize = 13;

    pub const NUMBER_2: usize = 14;

    pub const NUMBER_3: usize = 15;

    pub const ID: usize = 16;

    pub const ID_HIGH: usize = 17;

    pub const DIGITS_COUNT: usize = 18;

    pub const DIGITS_COUNT_HIGH: usize = 19;

    pub const ASSOCIATION_KIND: usize = 20;

    pub const PLAN: usize = 21;

    pub const DIGITS: usize = 22;

    pub const KIND: usize = 42;

    pub const TOTAL: usize = 43;

    pub const BILLED: usize = 44;

    pub const BILLING: usize = 45;

    pub const ARRANGEMENT: usize = 46;

    pub const COUNT: usize = 47;
}

// In the 18 octets of a rate.
pub mod in_rate {
    pub const ITEM: usize = 0;

    pub const KIND: usize = 1;

    pub const DETAIL: usize = 2;

    pub const STEPPED: usize = 3;

    pub const SCALE: usize = 4;

    pub const STEP_SCALE: usize = 5;

    pub const MULTIPLIER: usize = 6;

    pub const CURRENCY_COUNT: usize = 7;

    pub const CURRENCY: usize = 8;
}

// ---- limits

// The largest number of an amount, of a time, of units.
pub const MOST: u32 = 16777215;

// ---- what is not there is zero

pub const NO_SCALED: Scaled = Scaled {
    number: 0,
    scale: 0,
};

pub const NO_MONEY: Money = Money {
    currency: Currency {
        count: 0,
        octets: [0; 10],
    },
    multiplier: 0,
    number: 0,
};

pub const NO_CHARGE: Charge = Charge {
    figure: Figure {
        money: NO_MONEY,
        association: Association {
            id: 0,
            count: 0,
            kind: 0,
            plan: 0,
            digits: [0; 20],
        },
        kind: 0,
        total: 0,
        billed: 0,
        billing: 0,
        arrangement: 0,
        count: 0,
    },
    entries: Entries {
        numbers: [0; 32],
        octets: [0; 192],
    },
};

// ---- digits

// Whether an octet is allowed in a number: 0 to 9, or space.
pub fn is_digit(x: u8) -> bool
    ensures { result ≡ is_digit x }
{
    x == 0x20 || (0x30 <= x && x <= 0x39)
}
