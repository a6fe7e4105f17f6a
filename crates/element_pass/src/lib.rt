// One pass over a Facility element: the next component's record or refusal with the place after it, or the end.
#![tactic(auto)]

ghost use Rattle.std.specs.Prelude.{◌≡◌, ◌≤◌, ◌<◌, length, replicate};
ghost use Rattle.types.specs.Frames.{refused};
ghost use Rattle.element_pass.specs.Pass.{found_at, pass_of, whole_next};
ghost use Rattle.element_cut.specs.inner.Places.{Along};

use coding::refusal;

// As wide as the answers have them.
const BAD_ELEMENT: u32 = refusal::BAD_ELEMENT as u32;

const BAD_PLACE: u32 = refusal::BAD_PLACE as u32;

const OTHER_PROFILE: u32 = refusal::OTHER_PROFILE as u32;

// after: the place after the component. ended: 1 at the end of the element, where all else is zero.
// answer: the component's, or 15 for a malformed element, 16 for a place where no component begins, 17 for one of another family.
#[repr(C)]
#[derive(Drop)]
pub struct Next {
    pub after: usize,
    pub ended: usize,
    pub answer: read::Refusal,
}

// Where a component lies that begins at a place: up to `after`; where that is 0, none does, and the place is the end or is refused.
#[derive(Drop)]
pub struct Found {
    pub after: usize,
    pub ended: usize,
    pub number: u32,
}

fn found_as(after: usize, ended: usize, number: u32) -> Found
    ensures { result ≡ record { after = after; ended = ended; number = number } }
{
    Found {
        after,
        ended,
        number,
    }
}

// The whole tiling is checked first.
fn find(octets: &[u8], place: usize) -> Found
    ensures value { result ≡ found_at octets.now place }
    ensures inside { (result.after ≡ 0 → ⊥) → (place < result.after) × (result.after ≤ length octets.now) × (3 < length octets.now) }
{
    let cut = element_cut::cut_at(octets, place);
    if cut.tiles.number != 0 {
        return found_as(0, 0, BAD_ELEMENT);
    }
    if place == octets.len() {
        return found_as(0, 1, 0);
    }
    if cut.after == 0 {
        return found_as(0, 0, BAD_PLACE);
    }
    found_as(cut.after, 0, 0)
}

// What `find` gives at a place where a component begins, or at the end, once the tiling has been checked: only the tile there is looked at.
pub fn onward(octets: &[u8], place: usize) -> Found
    requires { Along octets.now place }
    ensures { result ≡ found_at octets.now place }
{
    let end = octets.len();
    if place == end {
        return found_as(0, 1, 0);
    }
    let tile = read_lengths::open_at(octets, place, end, octets[place]);
    found_as(tile.next, 0, 0)
}

// What `find` gives at the first place. Going through an element by this and `onward` walks it twice, and by `find` once for each place.
pub fn first(octets: &[u8]) -> Found
    ensures { result ≡ found_at octets.now 3 }
{
    let tiles = element::element(octets);
    if tiles.number == 0 {
        return onward(octets, element::FIRST_PLACE);
    }
    found_as(0, 0, BAD_ELEMENT)
}

// Nothing read: a number, or the end. All four parts are zero beside it.
fn without(after: usize, ended: usize, number: u32) -> Next
    ensures { whole_next result (replicate 8 0) (replicate 48 0) (replicate 32 0) (replicate 192 0) ≡ record { ended = ended; after = after; answer = refused number } }
{
    Next {
        after,
        ended,
        answer: read::Refusal { number, offset: 0 },
    }
}

// What is at a place of an element: the next component, its record in the caller's four parts, whatever they held, with the place after it; or the end.
// A component of an element with another third octet than 91 is not read: 17.
pub fn next_into(
    octets: &[u8],
    place: usize,
    front: &mut [u8; 8],
    figure: &mut [u8; 48],
    numbers: &mut [u32; 32],
    rows: &mut [u8; 192],
) -> Next
    ensures { whole_next result front.new figure.new numbers.new rows.new ≡ pass_of octets.now place }
{
    let f = find(octets, place);
    let after = f.after;
    let ended = f.ended;
    let mut number = f.number;
    if after != 0 {
        if octets[2] == 0x91 {
            let answer = read::read_into(&octets[place..after], front, figure, numbers, rows);
            return Next {
                after,
                ended,
                answer,
            };
        }
        number = OTHER_PROFILE;
    }
    *front = [0; 8];
    *figure = [0; 48];
    *numbers = [0; 32];
    *rows = [0; 192];
    without(after, ended, number)
}
