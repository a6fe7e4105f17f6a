// Reads a component by the profile octet of its element: hex 91 is a public line, hex 9F a trunk, and any other octet is refused (17) before all else.
#![tactic(auto)]

ghost use Rattle.std.specs.Prelude.{◌≡◌};
ghost use Rattle.types.specs.Frames.{no_record};
ghost use Rattle.trunk_types.specs.Components.{no_trunk};
ghost use Rattle.trunk_types.specs.Stored.{Spare};
ghost use Rattle.profile_read.specs.Profile.{read_by, left_line, left_trunk, either_in};

use coding::refusal;

const OTHER_PROFILE: u32 = refusal::OTHER_PROFILE as u32;

// The families of components, each by its name in include/aoc.h.
pub mod family {
    pub const NONE: u32 = 0;

    pub const LINE: u32 = 1;

    pub const TRUNK: u32 = 2;
}

// number: 0, or a refusal's, with 40 to 45 an offset. family: that of the profile octet, 1 of public lines, 2 of trunks; 0 where it names none.
#[repr(C)]
#[derive(Drop)]
pub struct Judged {
    pub number: u32,
    pub offset: u32,
    pub family: u32,
}

pub fn judged_as(number: u32, offset: u32, family: u32) -> Judged
    ensures { result ≡ record { number = number; offset = offset; family = family } }
{
    Judged {
        number,
        offset,
        family,
    }
}

// ---- a record of zeros, in its parts

fn no_line(
    front: &mut [u8; 8],
    figure: &mut [u8; 48],
    numbers: &mut [u32; 32],
    rows: &mut [u8; 192],
)
    ensures { left_line front figure numbers rows ≡ no_record }
{
    *front = [0; 8];
    *figure = [0; 48];
    *numbers = [0; 32];
    *rows = [0; 192];
}

pub fn no_trunk(
    trunk_front: &mut [u8; 48],
    extension: &mut [u8; 244],
    figure: &mut [u8; 48],
    numbers: &mut [u32; 32],
    rows: &mut [u8; 192],
)
    ensures rows_value { left_trunk trunk_front extension figure numbers rows ≡ no_trunk }
    ensures spare { Spare trunk_front.new }
{
    *trunk_front = [0; 48];
    *extension = [0; 244];
    *figure = [0; 48];
    *numbers = [0; 32];
    *rows = [0; 192];
}

// ---- components

// Reads a component of another octet than 91, beside a record of zeros of the other family.
pub fn trunk_by(
    profile: u8,
    octets: &[u8],
    trunk_front: &mut [u8; 48],
    extension: &mut [u8; 244],
    figure: &mut [u8; 48],
    numbers: &mut [u32; 32],
    rows: &mut [u8; 192],
) -> Judged
    requires { profile ≡ 0x91 → ⊥ }
    ensures rows_value { either_in result no_record (left_trunk trunk_front extension figure numbers rows) ≡ read_by profile octets.now }
    ensures spare { Spare trunk_front.new }
{
    if profile == 0x9f {
        let a = trunk_read::read_into(octets, trunk_front, extension, figure, numbers, rows);
        return judged_as(a.number, a.offset, family::TRUNK);
    }
    no_trunk(trunk_front, extension, figure, numbers, rows);
    judged_as(OTHER_PROFILE, 0, family::NONE)
}

// Reads a component with its profile octet into the parts of both records, whatever they hold: the record of the family that is not read is zero.
pub fn read_by(
    profile: u8,
    octets: &[u8],
    front: &mut [u8; 8],
    figure: &mut [u8; 48],
    numbers: &mut [u32; 32],
    rows: &mut [u8; 192],
    trunk_front: &mut [u8; 48],
    extension: &mut [u8; 244],
    trunk_figure: &mut [u8; 48],
    trunk_numbers: &mut [u32; 32],
    trunk_rows: &mut [u8; 192],
) -> Judged
    ensures trunk_rows_value { either_in result (left_line front figure numbers rows) (left_trunk trunk_front extension trunk_figure trunk_numbers trunk_rows) ≡ read_by profile octets.now }
    ensures spare { Spare trunk_front.new }
{
    if profile == 0x91 {
        no_trunk(
            trunk_front,
            extension,
            trunk_figure,
            trunk_numbers,
            trunk_rows,
        );
        let a = read::read_into(octets, front, figure, numbers, rows);
        return judged_as(a.number, a.offset, family::LINE);
    }
    no_line(front, figure, numbers, rows);
    trunk_by(
        profile,
        octets,
        trunk_front,
        extension,
        trunk_figure,
        trunk_numbers,
        trunk_rows,
    )
}
