// The table of types of ECMA-212 (trunks between private exchanges) as definitions, their theorems, and the structs of a trunk's record as C sees them.
//
// No struct has padding, no field is a bool or an enum (a host's memory may hold anything), and what is not used is zero. The C interface needs them so: kinds
// and refusals are numbers, and a count stands beside its array.
#![tactic(auto)]

// All of a component but what it carries. frame: 1 invoke, 2 return result, 3 return error, 4 reject, 10 network facility extension.
// id: the identifier's 16 bits, two's complement. unnamed: 1 for a reject with NULL in place of the identifier.
// problem: the tag of a reject's problem, 80 to 83 (hex).
#[repr(C)]
#[derive(Clone, Copy)]
pub struct Lead {
    pub frame: u8,
    pub unnamed: u8,
    pub id: u16,
    pub error: u16,
    pub operation: u8,
    pub problem: u8,
}

// The advice modes that operation 59 names: 0 to 7 of them, each 0 to 6.
#[repr(C)]
#[derive(Drop)]
pub struct Modes {
    pub count: u8,
    pub places: [u8; 7],
}

// A manufacturer's extension, its contents in their normal form. kind: 0 none, 1 one, 2 a list.
#[repr(C)]
#[derive(Drop)]
pub struct Extension {
    pub kind: u8,
    pub count: u8,
    pub octets: [u8; 242],
}

// What a component carries. detail: the value of a reject's problem; the mode of 59's result; the option of 64's result; the diversion of 65; the
// source entity of a network facility extension, whose destination entity is entity. user: the charged or diverting user, or the source address.
// The destination address, and the association of 61, 64 and 65, is charge.figure.association.
#[repr(C)]
#[derive(Drop)]
pub struct Body {
    pub modes: Modes,
    pub user: types::Association,
    pub detail: u8,
    pub entity: u8,
    pub extension: Extension,
    pub charge: types::Charge,
}

// A component.
#[repr(C)]
#[derive(Drop)]
pub struct Trunk {
    pub lead: Lead,
    pub body: Body,
}

// What reading octets answers: 0 and the component; or the refusal's number, with 40 to 45 the offset of the octet at which reading stopped, and zeros.
#[repr(C)]
#[derive(Drop)]
pub struct TrunkAnswer {
    pub number: u32,
    pub offset: u32,
    pub value: Trunk,
}

// The five arrays in which C lends a component: its front (the lead, and what lies beside it), its extension, and its charge's figure, numbers and rows.
#[derive(Clone, Copy)]
pub struct Parts<'a> {
    pub front: &'a [u8; 48],
    pub extension: &'a [u8; 244],
    pub figure: &'a [u8; 48],
    pub numbers: &'a [u32; 32],
    pub rows: &'a [u8; 192],
}

// ---- numbers by the names of include/aoc.h

pub mod extended {
    pub const NOT: u8 = 0;

    pub const ONCE: u8 = 1;

    pub const LIST: u8 = 2;
}

// The form of a body is the operation of an invoke, else the frame, but for these three: the results of CHARGE_REQUEST and of COMPLETE, and the
// error UNSPECIFIED. An enum would be no plainer: readers and writers have the operation as C's number, charge_for and inner_of go by it, and each
// would turn it into one of twelve variants and back.
pub mod form {
    pub const CHARGE_RESULT: u8 = 1;

    pub const COMPLETE_RESULT: u8 = 2;

    pub const UNSPECIFIED: u8 = 8;
}

// ---- where the fields of a record begin in its octets

// The lead, and what it has beside: the modes asked for, the user (an association, from USER on), and the last six octets.
pub mod in_front {
    pub const FRAME: usize = 0;

    pub const UNNAMED: usize = 1;

    pub const ID: usize = 2;

    pub const ID_HIGH: usize = 3;

    pub const ERROR: usize = 4;

    pub const ERROR_HIGH: usize = 5;

    pub const OPERATION: usize = 6;

    pub const PROBLEM: usize = 7;

    pub const ASKED: usize = 8;

    pub const MODES: usize = 9;

    pub const USER: usize = 16;

    pub const DETAIL: usize = 42;

    pub const ENTITY: usize = 43;

    // From here to the end.
    pub const ZERO: usize = 44;
}

pub mod in_extension {
    pub const EXTENDED: usize = 0;

    pub const EXTENT: usize = 1;

    pub const EXTENSION: usize = 2;
}
