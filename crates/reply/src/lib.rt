// The reject sent in reply to a component that is refused.
#![tactic(auto)]

ghost use Rattle.std.specs.Prelude.{◌≡◌, length};
ghost use Rattle.reply.specs.Reply.{reply_given, left_given, reply_of, reply_left};

// Writes the reject that a component's refusal calls for, by the refusal's number, into the caller's buffer; where none is due, 0 octets.
pub fn reply_to(number: u32, octets: &[u8], buf: &mut [u8]) -> write::Written
    ensures value { result ≡ reply_given number octets.now (length buf.old) }
    ensures left { buf.new ≡ left_given number octets.now buf.old }
{
    if number == 0 {
        return nothing();
    }
    let first = reply_rules::first_of(octets);
    if first == 0xa4 {
        return nothing();
    }
    let r = reply_rules::reject_for(number, first, reply_rules::identifier_of(octets));
    write::write(r, buf)
}

// The same of a component of a public line, which it reads.
pub fn reply(octets: &[u8], buf: &mut [u8]) -> write::Written
    ensures value { result ≡ reply_of octets.now (length buf.old) }
    ensures left { buf.new ≡ reply_left octets.now buf.old }
{
    let mut front: [u8; 8] = [0; 8];
    let mut figure: [u8; 48] = [0; 48];
    let mut numbers: [u32; 32] = [0; 32];
    let mut rows: [u8; 192] = [0; 192];
    let a = read::read_into(octets, &mut front, &mut figure, &mut numbers, &mut rows);
    reply_to(a.number, octets, buf)
}

fn nothing() -> write::Written
    ensures { result ≡ record { number = 0; count = 0 } }
{
    write::Written {
        number: 0,
        count: 0,
    }
}
