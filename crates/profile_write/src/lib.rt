// Writes a record by its profile octet: hex 91 is a public line, hex 9F a trunk, and any other octet is refused (17) before all else.
#![tactic(auto)]

ghost use Rattle.std.specs.Prelude.{◌≡◌, length};
ghost use Rattle.write.specs.Outcome.{write_of, left_of};
ghost use Rattle.trunk_write.specs.Outcome.{lent_trunk};
ghost use Rattle.profile_write.specs.Writes.{lent_line, write_by, left_by};

use coding::refusal;

const OTHER_PROFILE: u32 = refusal::OTHER_PROFILE as u32;

// The record of a public line that lies in four parts.
fn write_line(
    front: &[u8; 8],
    figure: &[u8; 48],
    numbers: &[u32; 32],
    rows: &[u8; 192],
    buf: &mut [u8],
) -> write::Written
    ensures value { result ≡ write_of (lent_line front figure numbers rows) (length buf.old) }
    ensures left { buf.new ≡ left_of (lent_line front figure numbers rows) buf.old }
{
    let f = types_parts::front_of(front);
    write::write_from(f, figure, numbers, rows, buf)
}

// Writes the record of the family that the profile octet names, from the parts of both, into the caller's buffer; the other record is not looked at.
pub fn write_by(
    profile: u8,
    front: &[u8; 8],
    figure: &[u8; 48],
    numbers: &[u32; 32],
    rows: &[u8; 192],
    trunk_front: &[u8; 48],
    extension: &[u8; 244],
    trunk_figure: &[u8; 48],
    trunk_numbers: &[u32; 32],
    trunk_rows: &[u8; 192],
    buf: &mut [u8],
) -> write::Written
    ensures value { result ≡ write_by profile (lent_line front figure numbers rows) (lent_trunk trunk_front extension trunk_figure trunk_numbers trunk_rows) (length buf.old) }
    ensures left { buf.new ≡ left_by profile (lent_line front figure numbers rows) (lent_trunk trunk_front extension trunk_figure trunk_numbers trunk_rows) buf.old }
{
    if profile == 0x91 {
        return write_line(front, figure, numbers, rows, buf);
    }
    if profile == 0x9f {
        return trunk_write::write_from(
            trunk_front,
            extension,
            trunk_figure,
            trunk_numbers,
            trunk_rows,
            buf,
        );
    }
    write::Written {
        number: OTHER_PROFILE,
        count: 0,
    }
}
