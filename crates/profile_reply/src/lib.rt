// The reject in reply to a component, by its profile octet.
#![tactic(auto)]

ghost use Rattle.std.specs.Prelude.{◌≡◌, length};
ghost use Rattle.profile_reply.specs.Replies.{called_for, reply_profile, left_profile};

use coding::refusal;

// As wide as the answers have them.
const BAD_FRAME: u32 = refusal::BAD_FRAME as u32;

const OTHER_PROFILE: u32 = refusal::OTHER_PROFILE as u32;

// A network facility extension that fails inside draws none.
fn called_for(number: u32, first: u8) -> u32
    ensures { result ≡ called_for number first }
{
    if first == 0xaa {
        if number == BAD_FRAME {
            return 0;
        }
    }
    number
}

// Writes the reject that a component's refusal calls for into the caller's buffer; where none is due, 0 octets.
pub fn reply_by(profile: u8, octets: &[u8], buf: &mut [u8]) -> write::Written
    ensures value { result ≡ reply_profile profile octets.now (length buf.old) }
    ensures left { buf.new ≡ left_profile profile octets.now buf.old }
{
    if profile == 0x91 {
        return reply::reply(octets, buf);
    }
    if profile != 0x9f {
        return write::Written {
            number: OTHER_PROFILE,
            count: 0,
        };
    }
    let mut trunk_front: [u8; 48] = [0; 48];
    let mut extension: [u8; 244] = [0; 244];
    let mut figure: [u8; 48] = [0; 48];
    let mut numbers: [u32; 32] = [0; 32];
    let mut rows: [u8; 192] = [0; 192];
    let a: read::Refusal = trunk_read::read_into(
        octets,
        &mut trunk_front,
        &mut extension,
        &mut figure,
        &mut numbers,
        &mut rows,
    );
    let number = called_for(a.number, reply_rules::first_of(octets));
    reply::reply_to(number, octets, buf)
}
