// The encoding rules (BER) that the components use: definitions, their laws and the structs.
//
// The code that reads elements is in read_elements, the code that writes them in write_elements.
#![tactic(auto)]

// The contents of an element: from start up to stop.
#[derive(Drop)]
pub struct Extent {
    pub start: usize,
    pub stop: usize,
}

// A number that may be absent.
#[derive(Drop)]
pub struct Chosen {
    pub given: bool,
    pub value: u32,
}

// ---- refusals

// The refusals' numbers, each by its name in include/aoc.h. 0 is none. A fault of an argument or result has the number of its refusal.
pub mod refusal {
    pub const CUT: u8 = 1;

    pub const LENGTH_FORM: u8 = 2;

    pub const TOO_LONG: u8 = 3;

    pub const UNKNOWN_COMPONENT: u8 = 4;

    pub const TRAILING: u8 = 5;

    pub const BAD_FRAME: u8 = 6;

    pub const UNKNOWN_OPERATION: u8 = 7;

    pub const UNKNOWN_ERROR: u8 = 8;

    pub const BAD_RECORD: u8 = 10;

    pub const LONG_RECORD: u8 = 11;

    pub const NO_ROOM: u8 = 12;

    pub const BAD_SETUP: u8 = 13;

    pub const WRONG_PHASE: u8 = 14;

    pub const BAD_ELEMENT: u8 = 15;

    pub const BAD_PLACE: u8 = 16;

    pub const OTHER_PROFILE: u8 = 17;

    pub const IN_LIST: u8 = 34;

    pub const IN_USE: u8 = 35;

    pub const FULL: u8 = 36;

    pub const NOT_HELD: u8 = 37;

    pub const UNIT_LIST: u8 = 38;

    pub const NO_CLOSING: u8 = 39;

    pub const MISSING: u8 = 40;

    pub const UNEXPECTED: u8 = 41;

    pub const LACKING: u8 = 42;

    pub const NOT_SHORTEST: u8 = 43;

    pub const BAD_CONTENTS: u8 = 44;

    pub const PAST_LIMIT: u8 = 45;

    pub const MONTH_FULL: u8 = 46;

    pub const CURRENCIES_FULL: u8 = 47;

    pub const LENGTHS: u8 = 48;

    pub const FRAMING: u8 = 49;
}

// The faults that have a refusal of their own: 100 and its number.
pub mod named {
    pub const BASE: u8 = 100;

    pub const CUT: u8 = BASE + super::refusal::CUT;

    pub const LENGTH_FORM: u8 = BASE + super::refusal::LENGTH_FORM;

    pub const TOO_LONG: u8 = BASE + super::refusal::TOO_LONG;

    pub const UNKNOWN_COMPONENT: u8 = BASE + super::refusal::UNKNOWN_COMPONENT;

    pub const TRAILING: u8 = BASE + super::refusal::TRAILING;

    pub const BAD_FRAME: u8 = BASE + super::refusal::BAD_FRAME;

    pub const UNKNOWN_OPERATION: u8 = BASE + super::refusal::UNKNOWN_OPERATION;

    pub const UNKNOWN_ERROR: u8 = BASE + super::refusal::UNKNOWN_ERROR;
}
