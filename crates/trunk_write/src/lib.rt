// Components of a trunk: written in their shortest form. All is decided before a single octet is stored.
#![tactic(auto)]

ghost use Rattle.std.specs.Prelude.{◌≡◌, length};
ghost use Rattle.write.specs.Outcome.{no};
ghost use Rattle.trunk_write.specs.Outcome.{spare_zero, lent_trunk, trunk_write_of, trunk_left_of};

use coding::refusal;
use trunk_types::{Parts, in_front};
use write::Written;

// As wide as the answer has them.
const BAD_RECORD: u32 = refusal::BAD_RECORD as u32;

const LONG_RECORD: u32 = refusal::LONG_RECORD as u32;

const NO_ROOM: u32 = refusal::NO_ROOM as u32;

// The C interface has a refusal as a number.
fn refuse(number: u32) -> Written
    ensures { result ≡ no number }
{
    Written { number, count: 0 }
}

// Whether the front's last four octets are zero.
fn spare_zero(front: &[u8; 48]) -> bool
    ensures { result ≡ spare_zero front.now }
{
    // As a slice the array shows its length to the proof.
    let all: &[u8] = front;
    all[in_front::ZERO..48].iter().all(|&x| x == 0)
}

// Writes the component that lies in the five parts into the caller's buffer.
pub fn write_from(
    front: &[u8; 48],
    extension: &[u8; 244],
    figure: &[u8; 48],
    numbers: &[u32; 32],
    rows: &[u8; 192],
    buf: &mut [u8],
) -> Written
    ensures value { result ≡ trunk_write_of (lent_trunk front extension figure numbers rows) (length buf.old) }
    ensures left { buf.new ≡ trunk_left_of (lent_trunk front extension figure numbers rows) buf.old }
{
    if !spare_zero(front) {
        return refuse(BAD_RECORD);
    }
    let parts = Parts {
        front,
        extension,
        figure,
        numbers,
        rows,
    };
    if !trunk_write_tests::trunk_fine(&parts) {
        return refuse(BAD_RECORD);
    }
    let m = trunk_write_frames::contents_size(&parts);
    if 251 < m {
        return refuse(LONG_RECORD);
    }
    let whole = write_elements::element_size(m);
    if buf.len() < whole {
        return refuse(NO_ROOM);
    }
    let p = write_elements::put_lead(buf, 0, 0xa0 + front[in_front::FRAME], m);
    let q = trunk_write_frames::put_contents(buf, p, &parts);
    let count = q as u32;
    Written { number: 0, count }
}
