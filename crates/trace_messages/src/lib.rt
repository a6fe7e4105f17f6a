// Says which events a layer 3 message gives, by its type and reference. Also says which elements follow a Shift, and which Facility elements are used.
#![tactic(auto)]

ghost use Rattle.std.specs.Prelude.{◌≡◌, true, get_or, eqb};
ghost use Rattle.trace_framing.specs.Framing.{type_of, framed};
ghost use Rattle.trace_messages.specs.Trace.{under_after, is_clearing, reference, gives_by, cleared_by};

// ---- types, references, shifts

// Whether a message of this type clears the call: DISCONNECT, RELEASE, RELEASE COMPLETE.
pub fn is_clearing(t: u8) -> bool
    ensures { result ≡ is_clearing t }
{
    matches!(t, 0x45 | 0x4d | 0x5a)
}

// The type of a framed message.
#[tactic(auto, using(trace_framing::proofs::Laws::framed_head))]
pub fn type_of(s: &[u8]) -> u8
    requires { framed s.now ≡ true }
    ensures { result ≡ type_of s.now }
{
    s[2 + usize::from(s[1])]
}

// The call reference without its flag.
#[tactic(auto, using(trace_framing::proofs::Laws::framed_head))]
pub fn reference_of(s: &[u8]) -> usize
    requires { framed s.now ≡ true }
    ensures { result ≡ reference s.now }
{
    if s[1] == 0 {
        return 32768;
    }
    let high = usize::from(s[2]) % 128;
    if s[1] == 1 {
        return high;
    }
    high * 256 + usize::from(s[3])
}

pub fn under_after(under: u8, x: u8) -> u8
    ensures { result ≡ under_after under x }
{
    if under == 2 {
        return 2;
    }
    match x {
        0x90..=0x97 => 2,
        0x98..=0x9f => 1,
        _ => 0,
    }
}

// ---- which events a message gives

// Which events a message gives.
#[derive(Drop)]
pub struct Gives {
    pub setup: bool,
    pub clear: bool,
    pub components: bool,
    pub connect: bool,
    pub released: bool,
}

pub fn gives_of(t: u8, network: bool, cleared: bool) -> Gives
    ensures { result ≡ gives_by t network cleared }
{
    Gives {
        setup: !network && t == 0x05,
        clear: is_clearing(t) && !cleared,
        components: network,
        connect: network && t == 0x07,
        released: t == 0x5a,
    }
}

// Whether a clearing message of the call has come, this one included.
pub fn cleared_by(s: &[u8], call: usize, cleared: bool) -> bool
    requires { framed s.now ≡ true }
    ensures { result ≡ cleared_by call cleared s.now }
{
    if reference_of(s) != call {
        return cleared;
    }
    cleared || is_clearing(type_of(s))
}

// ---- an element's components

// Whether the profile octet of an element is 91. The components of another one do not become events.
pub fn is_profiled(s: &[u8]) -> bool
    ensures { result ≡ eqb (get_or s.now 2 0) 0x91 }
{
    s.len() >= 3 && s[2] == 0x91
}
