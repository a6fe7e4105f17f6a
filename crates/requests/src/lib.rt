// Identifiers of requests, and the set of services asked for.
//
// Each function answers any value that a host can hand it.
#![tactic(auto)]

ghost use Rattle.std.specs.Prelude.{◌≡◌, ℕ, false, ◌&&◌, ◌||◌, ◌==◌, ◌≢◌};
ghost use Rattle.std.specs.Int.{w16};
ghost use Rattle.std.proofs.Common.{to_z};
ghost use Rattle.requests.specs.Identifiers.{next_of, one_up};
ghost use Rattle.requests.specs.Sets.{empty_set, is_service, has, with};

// The identifier after this one. An identifier is a number from -32,768 to 32,767, held as its 16 bits in two's complement.
pub fn next_identifier(id: u16) -> u16
    ensures pattern { result ≡ next_of id }
    ensures number { to_z w16 result ≡ one_up (to_z w16 id) }
{
    std::num::wrapping_add_u16(id, 1)
}

// An identifier for a request of each service.
#[repr(C)]
#[derive(Drop)]
pub struct Three {
    pub s: u16,
    pub d: u16,
    pub e: u16,
}

// The three identifiers after the last one, no two the same.
pub fn three_identifiers(last: u16) -> Three
    ensures which { result ≡ record { s = next_of last; d = next_of (next_of last); e = next_of (next_of (next_of last)) } }
    ensures differ { (result.s ≢ result.d) × (result.s ≢ result.e) × (result.d ≢ result.e) }
{
    let s = next_identifier(last);
    let d = next_identifier(s);
    let e = next_identifier(d);
    Three { s, d, e }
}

// The services' numbers, each by its name in include/aoc.h; another number is no service. C passes them in `Outcome` and to `aoc_with_service`.
pub mod service {
    pub const NONE: u8 = 0;

    pub const S: u8 = 1;

    pub const D: u8 = 2;

    pub const E: u8 = 3;
}

// A service, as functions have it that C does not call: advice of charge at the setup, during the call, or at its end.
#[derive(Clone, Copy, PartialEq, Eq)]
pub enum Advice {
    S = 1,
    D = 2,
    E = 3,
}

// The service of a closing figure.
pub mod closing_service {
    pub const NONE: u32 = super::service::NONE as u32;

    pub const D: u32 = super::service::D as u32;

    pub const E: u32 = super::service::E as u32;
}

// A set of services, a mark for each: 0 is out of the set, any other mark is in it.
#[repr(C)]
#[derive(Clone, Copy)]
pub struct Services {
    pub s: u8,
    pub d: u8,
    pub e: u8,
}

impl Services {
    pub const EMPTY: Services = Services { s: 0, d: 0, e: 0 };

    pub fn empty() -> Self
        ensures set { result ≡ empty_set }
        ensures members { (u : ℕ) → has result u ≡ false }
    {
        Services::EMPTY
    }

    // A function for each service: document 01 asks for them, and for EMPTY, by name (docs/DECISIONS.md, part 1).
    pub fn with_s(mut self) -> Self
        ensures { result ≡ with self 1 }
    {
        self.s = 1;
        self
    }

    pub fn with_d(mut self) -> Self
        ensures { result ≡ with self 2 }
    {
        self.d = 1;
        self
    }

    pub fn with_e(mut self) -> Self
        ensures { result ≡ with self 3 }
    {
        self.e = 1;
        self
    }

    // The set with one service more.
    pub fn with(self, service: u8) -> Self
        ensures set { result ≡ with self service }
        ensures members { (u : ℕ) → has result u ≡ is_service u && service == u || has self u }
    {
        match service {
            service::S => self.with_s(),
            service::D => self.with_d(),
            service::E => self.with_e(),
            _ => self,
        }
    }

    pub fn has_s(self) -> bool
        ensures { result ≡ has self 1 }
    {
        self.s != 0
    }

    pub fn has_d(self) -> bool
        ensures { result ≡ has self 2 }
    {
        self.d != 0
    }

    pub fn has_e(self) -> bool
        ensures { result ≡ has self 3 }
    {
        self.e != 0
    }

    // Whether a service is in the set.
    pub fn has(self, service: u8) -> bool
        ensures { result ≡ has self service }
    {
        match service {
            service::S => self.has_s(),
            service::D => self.has_d(),
            service::E => self.has_e(),
            _ => false,
        }
    }
}
