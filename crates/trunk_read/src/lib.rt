// Components of a trunk: read whole.
//
// What is read is stored in the caller's parts: a front of 48 octets, an extension of 244, a figure of 48 and a list's two arrays.
#![tactic(auto)]

ghost use Rattle.std.specs.Prelude.{◌≡◌, ◌≤◌, length};
ghost use Rattle.coding.specs.inner.Shown.{shown};
ghost use Rattle.types.specs.Stored.{stored_charge};
ghost use Rattle.trunk_types.specs.Components.{no_trunk, trunk_invoke, trunk_result, trunk_frame, trunk_component, read_trunk};
ghost use Rattle.trunk_types.specs.Stored.{Spare};
ghost use Rattle.trunk_read_bodies.specs.inner.Bodied.{Bare};
ghost use Rattle.trunk_read_frames.specs.inner.Framed.{framed};
ghost use Rattle.trunk_read.specs.Whole.{whole_trunk};
ghost use Rattle.read_lengths.specs.inner.Bounds.{Bounded};

use coding::refusal;
use types::frame;

const TOO_LONG: u32 = refusal::TOO_LONG as u32;

// ---- frames

// A1: identifier, operation, argument.
fn invoke_at(
    s: &[u8],
    at: usize,
    end: usize,
    front: &mut [u8; 48],
    extension: &mut [u8; 244],
    figure: &mut [u8; 48],
    numbers: &mut [u32; 32],
    rows: &mut [u8; 192],
) -> read_elements::Empty
    requires bounded { Bounded s.now end }
    requires bare { Bare front.old extension.old figure.old numbers.old rows.old }
    ensures rows_after { framed result front.new extension.new (stored_charge figure.new numbers.new rows.new) ≡ shown no_trunk (trunk_invoke.read s.now at end) }
    ensures spare { Spare front.new }
{
    let i = read_elements::identifier_at(s, at, end, 0x02);
    if i.fault != 0 {
        return read_elements::halted(i.fault, i.place);
    }
    let o = trunk_read_heads::value_at(s, i.next, end, frame::INVOKE);
    if o.fault != 0 {
        return read_elements::halted(o.fault, o.place);
    }
    let operation = o.value as u8;
    let b = trunk_read_bodies::argument_at(
        s, o.next, end, operation, front, extension, figure, numbers, rows,
    );
    if b.fault != 0 {
        return read_elements::halted(read_heads::inner(b.fault), b.place);
    }
    let id = i.value as u16;
    trunk_read_frames::keep_lead(front, frame::INVOKE, 0, id, 0, operation, 0);
    read_elements::reached(b.next)
}

// A2: identifier, then 30 holding operation and result.
fn answer_at(
    s: &[u8],
    at: usize,
    end: usize,
    front: &mut [u8; 48],
    extension: &mut [u8; 244],
    figure: &mut [u8; 48],
    numbers: &mut [u32; 32],
    rows: &mut [u8; 192],
) -> read_elements::Empty
    requires bounded { Bounded s.now end }
    requires bare { Bare front.old extension.old figure.old numbers.old rows.old }
    ensures rows_after { framed result front.new extension.new (stored_charge figure.new numbers.new rows.new) ≡ shown no_trunk (trunk_result.read s.now at end) }
    ensures spare { Spare front.new }
{
    let i = read_elements::identifier_at(s, at, end, 0x02);
    if i.fault != 0 {
        return read_elements::halted(i.fault, i.place);
    }
    let e = read_lengths::open_at(s, i.next, end, 0x30);
    if e.fault != 0 {
        return read_elements::halted(e.fault, e.place);
    }
    let start = e.value.start;
    let stop = e.value.stop;
    let o = trunk_read_heads::value_at(s, start, stop, frame::RESULT);
    if o.fault != 0 {
        return read_elements::halted(o.fault, o.place);
    }
    let operation = o.value as u8;
    let b = trunk_read_bodies::result_at(
        s, o.next, stop, operation, front, extension, figure, numbers, rows,
    );
    if b.fault != 0 {
        return read_elements::halted(read_heads::inner(b.fault), b.place);
    }
    if b.next != stop {
        return read_elements::halted(refusal::UNEXPECTED, b.next);
    }
    let id = i.value as u16;
    trunk_read_frames::keep_lead(front, frame::RESULT, 0, id, 0, operation, 0);
    read_elements::reached(e.next)
}

// By the first octet.
fn frame_at(
    s: &[u8],
    at: usize,
    end: usize,
    tag: u8,
    front: &mut [u8; 48],
    extension: &mut [u8; 244],
    figure: &mut [u8; 48],
    numbers: &mut [u32; 32],
    rows: &mut [u8; 192],
) -> read_elements::Empty
    requires bounded { Bounded s.now end }
    requires bare { Bare front.old extension.old figure.old numbers.old rows.old }
    ensures rows_after { framed result front.new extension.new (stored_charge figure.new numbers.new rows.new) ≡ shown no_trunk ((trunk_frame tag).read s.now at end) }
    ensures spare { Spare front.new }
{
    match tag {
        0xa1 => invoke_at(s, at, end, front, extension, figure, numbers, rows),
        0xa2 => answer_at(s, at, end, front, extension, figure, numbers, rows),
        0xa3 => trunk_read_frames::error_at(s, at, end, front, extension),
        0xa4 => trunk_read_frames::reject_at(s, at, end, front),
        _ => trunk_read_frames::facility_at(s, at, end, front, figure),
    }
}

// ---- whole

// The component's own element, its frame, and nothing over.
fn component_at(
    s: &[u8],
    front: &mut [u8; 48],
    extension: &mut [u8; 244],
    figure: &mut [u8; 48],
    numbers: &mut [u32; 32],
    rows: &mut [u8; 192],
) -> read_elements::Empty
    requires s_len_bound { length s.now ≤ 257 }
    requires bare { Bare front.old extension.old figure.old numbers.old rows.old }
    ensures rows_after { framed result front.new extension.new (stored_charge figure.new numbers.new rows.new) ≡ shown no_trunk (trunk_component.read s.now 0 (length s.now)) }
    ensures spare { Spare front.new }
{
    let e = trunk_read_heads::enter(s);
    if e.fault != 0 {
        return read_elements::halted(e.fault, e.place);
    }
    let tag = s[0];
    let start = e.value.start;
    let stop = e.value.stop;
    let f = frame_at(s, start, stop, tag, front, extension, figure, numbers, rows);
    read_elements::closed(f, stop, e.next)
}

// Reads a component of a trunk into its parts, whatever they hold: zeros where it is refused.
pub fn read_into(
    octets: &[u8],
    front: &mut [u8; 48],
    extension: &mut [u8; 244],
    figure: &mut [u8; 48],
    numbers: &mut [u32; 32],
    rows: &mut [u8; 192],
) -> read::Refusal
    ensures rows_after { whole_trunk result front.new extension.new figure.new numbers.new rows.new ≡ read_trunk octets.now }
    ensures spare { Spare front.new }
{
    *front = [0; 48];
    *extension = [0; 244];
    *figure = [0; 48];
    *numbers = [0; 32];
    *rows = [0; 192];
    if 254 < octets.len() {
        return read::Refusal {
            number: TOO_LONG,
            offset: 0,
        };
    }
    let r = component_at(octets, front, extension, figure, numbers, rows);
    if r.fault == 0 {
        return read::Refusal {
            number: 0,
            offset: 0,
        };
    }
    *front = [0; 48];
    *extension = [0; 244];
    *figure = [0; 48];
    *numbers = [0; 32];
    *rows = [0; 192];
    let number = read_heads::number_of(r.fault);
    let offset = read::offset_of(number, r.place);
    read::Refusal {
        number: number as u32,
        offset,
    }
}
