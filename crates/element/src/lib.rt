// The Facility information element: where its components begin.
#![tactic(auto)]

ghost use Rattle.std.specs.Prelude.{◌≡◌, true, ◌≤◌, length};
ghost use Rattle.element.specs.Element.{element_of, malformed, starts_found, tiles_in, is_profile, led};

use coding::refusal;

// Where the first component of a Facility element begins.
pub const FIRST_PLACE: usize = 3;

// What reading an element answers. number: 0, or 15 for a malformed one; then all else is zero.
// The components begin at the first count of starts, counted with the lead octet 1C as 0; the places past them are zero.
// An octet holds a start: an element has at most 257 octets, and a component at least two, so that none begins past 255.
#[repr(C)]
#[derive(Drop)]
pub struct Starts {
    pub number: u8,
    pub count: u8,
    pub starts: [u8; 127],
}

pub fn refused() -> Starts
    ensures { result ≡ malformed }
{
    Starts {
        number: refusal::BAD_ELEMENT,
        count: 0,
        starts: [0; 127],
    }
}

// Whether an element with this third octet is read: 91 of a public line, or 9F of a trunk.
fn is_profile(octet: u8) -> bool
    ensures { result ≡ is_profile octet }
{
    octet == 0x91 || octet == 0x9f
}

// Whether the first three octets are right and something comes after them.
pub fn is_led(octets: &[u8]) -> bool
    ensures value { result ≡ led octets.now }
    ensures short { result ≡ true → (4 ≤ length octets.now) × (length octets.now ≤ 257) }
{
    4 <= octets.len()
        && (octets[0] == 0x1c
            && (octets::wide(octets[1]) == octets.len() - 2 && is_profile(octets[2])))
}

// The starts of the components, which begin after the third octet.
fn starts_from(octets: &[u8]) -> Starts
    requires { (4 ≤ length octets.now) × (length octets.now ≤ 257) }
    ensures value { result ≡ starts_found (tiles_in octets.now) }
    ensures few { result.count ≤ 127 }
{
    let end = octets.len();
    let mut starts: [u8; 127] = [0; 127];
    let mut count: usize = 0;
    let mut at: usize = FIRST_PLACE;
    while at < end {
        let tile = read_lengths::open_at(octets, at, end, octets[at]);
        if tile.fault != 0 {
            return refused();
        }
        starts[count] = at as u8;
        count += 1;
        at = tile.next;
    }
    Starts {
        number: 0,
        count: count as u8,
        starts,
    }
}

// The components of a Facility element, each to be checked afterwards by itself.
pub fn element(octets: &[u8]) -> Starts
    ensures value { result ≡ element_of octets.now }
    ensures few { result.count ≤ 127 }
{
    if is_led(octets) {
        return starts_from(octets);
    }
    refused()
}
