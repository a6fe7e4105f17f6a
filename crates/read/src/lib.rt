// Reads a whole component into a record.
//
// What is read is stored in the caller's parts of a record: its front of 8 octets, its figure of 48 and its list's two arrays.
#![tactic(auto)]

ghost use Rattle.std.specs.Prelude.{◌≡◌, ◌%◌, replicate};
ghost use Rattle.coding.specs.Reader.Ans.{halt};
ghost use Rattle.coding.specs.inner.Shown.{shown};
ghost use Rattle.types.specs.Arguments.{no_charge, charge_of};
ghost use Rattle.types.specs.Frames.{front_by, request, carrying, refused_at, offset_of, answered, read_of};
ghost use Rattle.types.specs.Stored.{Blank, front_in};
ghost use Rattle.read_heads.specs.inner.Heads.{fault_by, tail_of};
ghost use Rattle.read_lists.specs.inner.Answers.{whole};
ghost use Rattle.read.specs.Whole.{whole_answer};
ghost use Rattle.read.specs.inner.Ways.{is_request, held, plain_answer, ends_well, Ended};
ghost use Rattle.read_lengths.specs.inner.Bounds.{Bounded};

use coding::refusal;
use types::{frame, in_front, operation};

// 0 where a component is accepted; or the refusal's number, with 40 to 45 the offset of the octet at which reading stopped.
#[repr(C)]
#[derive(Drop)]
pub struct Refusal {
    pub number: u32,
    pub offset: u32,
}

const NONE: Refusal = Refusal {
    number: 0,
    offset: 0,
};

// The offset that is given with a number: that of the place with 40 to 45. It has one octet.
pub fn offset_of(number: u8, place: usize) -> u32
    ensures { result ≡ offset_of number place % 256 }
{
    if number < refusal::MISSING {
        return 0;
    }
    (place % 256) as u32
}

// The number and the offset of a fault at a place.
fn refused(fault: u8, place: usize) -> Refusal
    ensures { refused_at result.number result.offset ≡ held (answered (halt (fault_by fault) place)) }
{
    let number = read_heads::number_of(fault);
    let offset = offset_of(number, place);
    Refusal {
        number: number as u32,
        offset,
    }
}

// ---- the front, in zeros
//
// A head's front is taken field by field: copied whole it is one word, put together and taken apart, 11 instructions for each component.

// Of an argument or result: the rest of its front is zero.
fn keep_front(front: &mut [u8; 8], frame: u8, id: u16, operation: u8, detail: u8)
    requires { front.old ≡ replicate 8 0 }
    ensures { front_in front.new ≡ front_by frame 0 id operation 0 0 detail }
{
    front[in_front::FRAME] = frame;
    front[in_front::ID] = (id % 256) as u8;
    front[in_front::ID_HIGH] = (id / 256) as u8;
    front[in_front::OPERATION] = operation;
    front[in_front::DETAIL] = detail;
}

// Of an error or a reject, which have neither argument nor result.
fn keep_head(front: &mut [u8; 8], h: read_heads::Head)
    requires { front.old ≡ replicate 8 0 }
    ensures { front_in front.new ≡ h.front }
{
    front[in_front::FRAME] = h.front.frame;
    front[in_front::UNNAMED] = h.front.unnamed;
    front[in_front::ID] = (h.front.id % 256) as u8;
    front[in_front::ID_HIGH] = (h.front.id / 256) as u8;
    front[in_front::OPERATION] = h.front.operation;
    front[in_front::ERROR] = h.front.error;
    front[in_front::PROBLEM] = h.front.problem;
    front[in_front::DETAIL] = h.front.detail;
}

// ---- arguments and results

// An invoke of operation 30.
fn is_request(h: read_heads::Head) -> bool
    ensures { result ≡ is_request h.front }
{
    h.front.frame == frame::INVOKE && h.front.operation == operation::CHARGING_REQUEST
}

// The refusal of an argument or result: a fault in it, or what is left over.
fn ended(h: read_heads::Head, fault: u8, place: usize, next: usize) -> Refusal
    ensures { Ended result h fault place next }
{
    if fault != 0 {
        return refused(read_heads::inner(fault), place);
    }
    if next != h.stop {
        return refused(refusal::UNEXPECTED, next);
    }
    if h.next != h.end {
        return refused(refusal::UNEXPECTED, h.next);
    }
    NONE
}

// Whether there is none. The fault is asked too: no reader's contract says that every fault has a number.
fn ends_well(fault: u8, number: u32) -> bool
    ensures { result ≡ ends_well fault number }
{
    fault == 0 && number == 0
}

// The argument of operation 30.
fn asked(s: &[u8], h: read_heads::Head, front: &mut [u8; 8]) -> Refusal
    requires bounded { Bounded s.now h.stop }
    requires front_value { front.old ≡ replicate 8 0 }
    ensures { plain_answer result front.new ≡ held (answered (tail_of (request h.front.id) h s.now)) }
{
    let n = read_elements::natural_at(s, h.at, h.stop, 0x0a, 0, 2);
    let r = ended(h, n.fault, n.place, n.next);
    if ends_well(n.fault, r.number) {
        keep_front(
            front,
            frame::INVOKE,
            h.front.id,
            operation::CHARGING_REQUEST,
            n.value as u8,
        );
    }
    r
}

// A charge: 05 00, or by its operation.
fn charge_at(
    s: &[u8],
    at: usize,
    end: usize,
    operation: u8,
    figure: &mut [u8; 48],
    numbers: &mut [u32; 32],
    rows: &mut [u8; 192],
) -> read_elements::Empty
    requires bounded { Bounded s.now end }
    requires blank { Blank figure.old numbers.old rows.old }
    ensures { whole result figure.new numbers.new rows.new ≡ shown no_charge ((charge_of operation).read s.now at end) }
{
    if read_lengths::is_tag(s, at, end, 0x05) {
        return read_elements::null_at(s, at, end, 0x05);
    }
    read_charges::charge_into(s, at, end, operation, figure, numbers, rows)
}

// An argument or result that holds a charge. A refusal leaves nothing of it, whatever was read before.
fn carried(
    s: &[u8],
    h: read_heads::Head,
    front: &mut [u8; 8],
    figure: &mut [u8; 48],
    numbers: &mut [u32; 32],
    rows: &mut [u8; 192],
) -> Refusal
    requires bounded { Bounded s.now h.stop }
    requires front_value { (front.old ≡ replicate 8 0) × Blank figure.old numbers.old rows.old }
    ensures { whole_answer result front.new figure.new numbers.new rows.new ≡ held (answered (tail_of (carrying h.front.frame h.front.id h.front.operation) h s.now)) }
{
    let f = charge_at(s, h.at, h.stop, h.front.operation, figure, numbers, rows);
    let r = ended(h, f.fault, f.place, f.next);
    if ends_well(f.fault, r.number) {
        keep_front(front, h.front.frame, h.front.id, h.front.operation, 0);
        return r;
    }
    *figure = [0; 48];
    *numbers = [0; 32];
    *rows = [0; 192];
    r
}

// Reads a component into a record's parts, whatever they hold: zeros where it is refused.
pub fn read_into(
    octets: &[u8],
    front: &mut [u8; 8],
    figure: &mut [u8; 48],
    numbers: &mut [u32; 32],
    rows: &mut [u8; 192],
) -> Refusal
    ensures { whole_answer result front.new figure.new numbers.new rows.new ≡ read_of octets.now }
{
    *front = [0; 8];
    *figure = [0; 48];
    *numbers = [0; 32];
    *rows = [0; 192];
    let h = read_heads::head_of(octets);
    if h.front.frame == 0 {
        return refused(h.fault, h.at);
    }
    if frame::ERROR <= h.front.frame {
        keep_head(front, h);
        return NONE;
    }
    if is_request(h) {
        return asked(octets, h, front);
    }
    carried(octets, h, front, figure, numbers, rows)
}

// Reads a component whole: its record, or the number by which it is refused and zeros.
pub fn read(octets: &[u8]) -> types::Answer
    ensures { result ≡ read_of octets.now }
{
    let mut front: [u8; 8] = [0; 8];
    let mut figure: [u8; 48] = [0; 48];
    let mut numbers: [u32; 32] = [0; 32];
    let mut rows: [u8; 192] = [0; 192];
    let r = read_into(octets, &mut front, &mut figure, &mut numbers, &mut rows);
    let front = types_parts::front_of(&front);
    let figure = types_parts::figure_of(&figure);
    types::Answer {
        number: r.number,
        offset: r.offset,
        value: types::Record {
            front,
            charge: types::Charge {
                figure,
                entries: types::Entries {
                    numbers,
                    octets: rows,
                },
            },
        },
    }
}
