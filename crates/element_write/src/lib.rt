// A Facility element, written round components.
#![tactic(auto)]

ghost use Rattle.std.specs.Prelude.{◌≡◌, true, [], ◌∷◌, ◌+◌, ◌≤◌, length};
ghost use Rattle.coding.specs.inner.Written.{Wrote, Room};
ghost use Rattle.element.specs.Element.{is_profile};
ghost use Rattle.write.specs.Outcome.{no};
ghost use Rattle.element_write.specs.Round.{is_tiled, element_holds, element_as, element_into, element_by};

use coding::refusal;

// As wide as the answers have them.
const BAD_ELEMENT: u32 = refusal::BAD_ELEMENT as u32;

const NO_ROOM: u32 = refusal::NO_ROOM as u32;

const OTHER_PROFILE: u32 = refusal::OTHER_PROFILE as u32;

// Whether octets are components laid end to end.
fn is_tiled(octets: &[u8]) -> bool
    requires { length octets.now ≤ 254 }
    ensures { result ≡ is_tiled octets.now }
{
    let end = octets.len();
    let mut at: usize = 0;
    while at < end {
        let tile = read_lengths::open_at(octets, at, end, octets[at]);
        if tile.fault != 0 {
            return false;
        }
        at = tile.next;
    }
    true
}

// Whether an element can hold the octets: components, one at least, that a one-octet length can count.
fn is_held(octets: &[u8]) -> bool
    ensures value { result ≡ element_holds octets.now }
    ensures few { result ≡ true → length octets.now ≤ 254 }
{
    octets.len() != 0 && (octets.len() <= 254 && is_tiled(octets))
}

// The three octets before the components, which have n octets.
fn put_head(buf: &mut [u8], n: usize, profile: u8) -> usize
    requires { (n ≤ 254) × Room buf.old 0 (0x1c ∷ (1 + n) ∷ profile ∷ []) }
    ensures { Wrote buf.old buf.new 0 (0x1c ∷ (1 + n) ∷ profile ∷ []) result }
{
    buf[0] = 0x1c;
    buf[1] = (1 + n) as u8;
    buf[2] = profile;
    3
}

fn refuse(number: u32) -> write::Written
    ensures { result ≡ no number }
{
    write::Written { number, count: 0 }
}

// Writes the element that holds the components into the caller's buffer. All is decided before a single octet is stored.
fn element_as(profile: u8, octets: &[u8], buf: &mut [u8]) -> write::Written
    ensures { (result, buf.new) ≡ element_as profile octets.now buf.old }
{
    if !is_held(octets) {
        return refuse(BAD_ELEMENT);
    }
    let n = octets.len();
    if buf.len() < n + 3 {
        return refuse(NO_ROOM);
    }
    let p = put_head(buf, n, profile);
    let q = octets::put_octets(buf, p, octets, n);
    let count = q as u32;
    write::Written { number: 0, count }
}

// That of a public line.
pub fn element_into(octets: &[u8], buf: &mut [u8]) -> write::Written
    ensures { (result, buf.new) ≡ element_into octets.now buf.old }
{
    element_as(0x91, octets, buf)
}

fn is_profile(octet: u8) -> bool
    ensures { result ≡ is_profile octet }
{
    octet == 0x91 || octet == 0x9f
}

// That of the family which the profile octet names: 91 or 9F.
pub fn element_by(profile: u8, octets: &[u8], buf: &mut [u8]) -> write::Written
    ensures { (result, buf.new) ≡ element_by profile octets.now buf.old }
{
    if !is_profile(profile) {
        return refuse(OTHER_PROFILE);
    }
    element_as(profile, octets, buf)
}
