// The components of an element one after another, read by the element's own profile octet.
#![tactic(auto)]

ghost use Rattle.std.specs.Prelude.{◌≡◌};
ghost use Rattle.trunk_types.specs.Stored.{Spare};
ghost use Rattle.element_pass.specs.Pass.{pass_with};
ghost use Rattle.profile_read.specs.Profile.{left_line, left_trunk};
ghost use Rattle.profile_pass.specs.Passing.{families, next_in};

use profile_read::{Judged, family, judged_as};

// after: the place after the component. ended: 1 at the end of the element, where all else is zero.
#[repr(C)]
#[derive(Drop)]
pub struct NextBy {
    pub after: usize,
    pub ended: usize,
    pub answer: Judged,
}

// What is at a place of an element: the next component, read by the element's own third octet, with the place after it; or the end.
pub fn next_by(
    octets: &[u8],
    place: usize,
    front: &mut [u8; 8],
    figure: &mut [u8; 48],
    numbers: &mut [u32; 32],
    rows: &mut [u8; 192],
    trunk_front: &mut [u8; 48],
    extension: &mut [u8; 244],
    trunk_figure: &mut [u8; 48],
    trunk_numbers: &mut [u32; 32],
    trunk_rows: &mut [u8; 192],
) -> NextBy
    ensures trunk_rows_value { next_in result (left_line front figure numbers rows) (left_trunk trunk_front extension trunk_figure trunk_numbers trunk_rows) ≡ pass_with families octets.now place }
    ensures spare { Spare trunk_front.new }
{
    let n = element_pass::next_into(octets, place, front, figure, numbers, rows);
    let after = n.after;
    let ended = n.ended;
    let a: read::Refusal = n.answer;
    let mut answer = judged_as(a.number, 0, family::NONE);
    if after != 0 {
        let profile = octets[2];
        if profile != 0x91 {
            let answer = profile_read::trunk_by(
                profile,
                &octets[place..after],
                trunk_front,
                extension,
                trunk_figure,
                trunk_numbers,
                trunk_rows,
            );
            return NextBy {
                after,
                ended,
                answer,
            };
        }
        answer = judged_as(a.number, a.offset, family::LINE);
    }
    profile_read::no_trunk(
        trunk_front,
        extension,
        trunk_figure,
        trunk_numbers,
        trunk_rows,
    );
    NextBy {
        after,
        ended,
        answer,
    }
}
