// One pass over a Facility element: where its components begin, and the place after the one that begins at a given place.
#![tactic(auto)]

ghost use Rattle.std.specs.Prelude.{◌≡◌, cond, ◌≤◌, ◌<◌, length, eqb};
ghost use Rattle.element.specs.Element.{element_of, malformed, starts_found, tiles_in};
ghost use Rattle.element.specs.Cut.{starts_of};
ghost use Rattle.element_cut.specs.inner.Places.{after_in};

use element::Starts;

// An element's components, and the place after the one that begins at a place; 0 where none does.
#[derive(Drop)]
pub struct Cut {
    pub tiles: Starts,
    pub after: usize,
}

fn uncut() -> Cut
    ensures { result ≡ record { tiles = malformed; after = 0 } }
{
    let tiles = element::refused();
    Cut { tiles, after: 0 }
}

// The place after a component, where it is the one that is looked for.
fn settled(at: usize, place: usize, next: usize, after: usize) -> usize
    ensures { result ≡ cond (eqb at place) next after }
{
    if at == place { next } else { after }
}

// The pass of `element::starts_from`, which also looks for a place. With one caller it becomes part of it, and what that caller does not look at, such as the starts, is not stored.
fn cut_from(octets: &[u8], place: usize) -> Cut
    requires { (3 < length octets.now) × (length octets.now ≤ 257) }
    ensures tiles_value { result.tiles ≡ starts_found (tiles_in octets.now) }
    ensures after { result.after ≡ after_in place (length octets.now) (starts_of result.tiles) }
{
    let end = octets.len();
    let mut starts: [u8; 127] = [0; 127];
    let mut n: usize = 0;
    let mut at: usize = element::FIRST_PLACE;
    let mut after: usize = 0;
    while at < end {
        let t = read_lengths::open_at(octets, at, end, octets[at]);
        if t.fault != 0 {
            return uncut();
        }
        after = settled(at, place, t.next, after);
        starts[n] = at as u8;
        n += 1;
        at = t.next;
    }
    let tiles = Starts {
        number: 0,
        count: n as u8,
        starts,
    };
    Cut { tiles, after }
}

// The components of a Facility element, and the place after the one that begins at a place.
pub fn cut_at(octets: &[u8], place: usize) -> Cut
    ensures tiles_value { result.tiles ≡ element_of octets.now }
    ensures after { result.after ≡ after_in place (length octets.now) (starts_of (element_of octets.now)) }
{
    if element::is_led(octets) {
        return cut_from(octets, place);
    }
    uncut()
}
