// Writes what a frame of a trunk's component holds, and counts its octets.
//
// A component lies in the caller's five parts. Each `_size` is the octets of a
// valid value, which may be too many for a component, and each `put_` stores those octets into the caller's buffer from a place on and gives the place after them.
#![tactic(auto)]

ghost use Rattle.std.specs.Prelude.{◌≡◌, true, ℕ, ◌+◌, ◌*◌, ◌≤◌, ◌<◌, length};
ghost use Rattle.coding.specs.Codec.{all, write_all};
ghost use Rattle.coding.specs.inner.Written.{Wrote, Room};
ghost use Rattle.types.specs.Charges.{party_number, association};
ghost use Rattle.types.specs.Stored.{association_in};
ghost use Rattle.trunk_types.specs.Bodies.{address};
ghost use Rattle.trunk_types.specs.Components.{trunk_invoke, trunk_result, trunk_component};
ghost use Rattle.trunk_types.specs.Stored.{modes_in, extension_in};
ghost use Rattle.trunk_types.specs.inner.Forms.{inner_of};
ghost use Rattle.trunk_write_frames.specs.inner.Octets.{Fits, inner, whole, body, extension_octets, tagged_by, Counted, mode, users_octets, detail_in, modes_of, modes_octets, body_of, result_form, caller_octets, reject_octets, error_octets, NetworkFine, network_octets, contents_of};

use trunk_types::{Parts, extended, form, in_extension, in_front};
use types::{association_kind, frame, operation};

// ---- extensions

// Nothing where there is none.
fn extension_size(extension: &[u8; 244]) -> usize
    requires { Counted (extension_in extension.now) }
    ensures by_index { (tag : ℕ) → result ≡ length (tagged_by tag (extension_in extension.now)) }
    ensures few { result ≤ 260 }
{
    if extension[in_extension::EXTENDED] == extended::NOT {
        return 0;
    }
    let n = usize::from(extension[in_extension::EXTENT]);
    write_figures::sized(n)
}

// Its octets as they are, under a tag.
fn put_kept(buf: &mut [u8], at: usize, tag: u8, extension: &[u8; 244]) -> usize
    requires counted { Counted (extension_in extension.now) × ((extension_in extension.now).kind ≡ 0 → ⊥) }
    requires room { Room buf.old at (extension_octets tag (extension_in extension.now)) }
    ensures { Wrote buf.old buf.new at (extension_octets tag (extension_in extension.now)) result }
{
    let all: &[u8] = extension;
    let n = usize::from(extension[in_extension::EXTENT]);
    write_elements::put_string(buf, at, tag, &all[in_extension::EXTENSION..], n)
}

// A2 with a list, another tag with one, or nothing.
fn put_extension(buf: &mut [u8], at: usize, one: u8, extension: &[u8; 244]) -> usize
    requires counted { Counted (extension_in extension.now) }
    requires room { Room buf.old at (tagged_by one (extension_in extension.now)) }
    ensures { Wrote buf.old buf.new at (tagged_by one (extension_in extension.now)) result }
{
    let kind = extension[in_extension::EXTENDED];
    match kind {
        extended::NOT => at,
        extended::LIST => put_kept(buf, at, 0xa2, extension),
        _ => put_kept(buf, at, one, extension),
    }
}

// ---- what comes before the extension

// Modes, one after the other.
fn put_places(buf: &mut [u8], at: usize, places: &[u8]) -> usize
    requires valid { all mode.valid places.now ≡ true }
    requires room { Room buf.old at (write_all mode.write places.now) }
    ensures { Wrote buf.old buf.new at (write_all mode.write places.now) result }
{
    let mut p = at;
    for x in places {
        p = write_elements::put_small(buf, p, 0x0a, *x);
    }
    p
}

// 59: the modes in a 30.
fn put_modes(buf: &mut [u8], at: usize, front: &[u8; 48]) -> usize
    requires front_bound { ((modes_in front.now).count ≤ 7) × (all mode.valid (modes_of front.now) ≡ true) }
    requires room { Room buf.old at (modes_octets front.now) }
    ensures { Wrote buf.old buf.new at (modes_octets front.now) result }
{
    // As a slice the array shows its length to the proof.
    let all: &[u8] = front;
    let n = usize::from(front[in_front::ASKED]);
    let p = write_elements::put_lead(buf, at, 0x30, 3 * n);
    put_places(buf, p, &all[in_front::MODES..in_front::MODES + n])
}

// 64: a number, and an optional association.
fn users_size(parts: &Parts<'_>) -> usize
    requires { ((party_number true).valid (association_in parts.now.front.now) ≡ true) × ((association true).valid (association_in parts.now.figure.now) ≡ true) }
    ensures value { result ≡ length (users_octets (association_in parts.now.front.now) (association_in parts.now.figure.now)) }
    ensures few { result ≤ 56 }
{
    let u = types_parts::association_of(parts.front);
    let a = types_parts::association_of(parts.figure);
    write_association::number_size(u) + trunk_write_charges::association_size(a)
}

fn put_users(buf: &mut [u8], at: usize, parts: &Parts<'_>) -> usize
    requires front_value { ((party_number true).valid (association_in parts.now.front.now) ≡ true) × ((association true).valid (association_in parts.now.figure.now) ≡ true) }
    requires room { Room buf.old at (users_octets (association_in parts.now.front.now) (association_in parts.now.figure.now)) }
    ensures { Wrote buf.old buf.new at (users_octets (association_in parts.now.front.now) (association_in parts.now.figure.now)) result }
{
    let u = types_parts::association_of(parts.front);
    let a = types_parts::association_of(parts.figure);
    let p = write_association::put_party(buf, at, u);
    trunk_write_charges::put_association(buf, p, a)
}

// What a form has.
fn inner_size(form: u8, parts: &Parts<'_>) -> usize
    requires { (inner_of form).valid (inner parts.now) ≡ true }
    ensures value { result ≡ length ((inner_of form).write (inner parts.now)) }
    ensures few { result ≤ 600 }
{
    let front = parts.front;
    // As a slice the array shows its length to the proof.
    let all: &[u8] = front;
    match form {
        form::CHARGE_RESULT => 3,
        form::COMPLETE_RESULT => 3,
        operation::CHARGE_REQUEST => 2 + 3 * usize::from(front[in_front::ASKED]),
        operation::COMPLETE => users_size(parts),
        operation::DIVERSION => users_size(parts) + 3,
        _ => trunk_write_charges::charge_size(form, parts),
    }
}

fn put_inner(buf: &mut [u8], at: usize, form: u8, parts: &Parts<'_>) -> usize
    requires { Fits (inner_of form) (inner parts.now) 254 buf.old at }
    ensures { Wrote buf.old buf.new at ((inner_of form).write (inner parts.now)) result }
{
    let front = parts.front;
    // As a slice the array shows its length to the proof.
    let all: &[u8] = front;
    let detail = front[in_front::DETAIL];
    match form {
        form::CHARGE_RESULT => write_elements::put_small(buf, at, 0x0a, detail),
        form::COMPLETE_RESULT => write_elements::put_small(buf, at, 0x0a, detail),
        operation::CHARGE_REQUEST => put_modes(buf, at, front),
        operation::COMPLETE => put_users(buf, at, parts),
        operation::DIVERSION => {
            let p = put_users(buf, at, parts);
            write_elements::put_small(buf, p, 0x0a, detail)
        }
        _ => trunk_write_charges::put_charge(buf, at, form, parts),
    }
}

// ---- what follows the operation: the 30 around what a form has and its extension; of 60, 05 00 or the extension by itself

fn body_size(form: u8, parts: &Parts<'_>) -> usize
    requires { (body_of form).valid (body parts.now) ≡ true }
    ensures value { result ≡ length ((body_of form).write (body parts.now)) }
    ensures few { result ≤ 864 }
{
    if form == operation::GET_FINAL_CHARGE {
        if parts.extension[in_extension::EXTENDED] == extended::NOT {
            return 2;
        }
        return extension_size(parts.extension);
    }
    write_figures::sized(inner_size(form, parts) + extension_size(parts.extension))
}

fn put_body(buf: &mut [u8], at: usize, form: u8, parts: &Parts<'_>) -> usize
    requires { Fits (body_of form) (body parts.now) 254 buf.old at }
    ensures { Wrote buf.old buf.new at ((body_of form).write (body parts.now)) result }
{
    if form == operation::GET_FINAL_CHARGE {
        if parts.extension[in_extension::EXTENDED] == extended::NOT {
            return write_elements::put_null(buf, at, 0x05);
        }
        return put_extension(buf, at, 0xa1, parts.extension);
    }
    let n = inner_size(form, parts);
    let k = extension_size(parts.extension);
    let p = write_elements::put_lead(buf, at, 0x30, n + k);
    let q = put_inner(buf, p, form, parts);
    put_extension(buf, q, 0xa1, parts.extension)
}

// ---- the network facility extension

// A number in an element, whatever its tag, or nothing.
fn address_size(part: &[u8; 48]) -> usize
    requires { (address 0xa1).valid (association_in part.now) ≡ true }
    ensures by_index { (tag : ℕ) → result ≡ length ((address tag).write (association_in part.now)) }
    ensures few { result ≤ 31 }
{
    let a = types_parts::association_of(part);
    if a.kind == association_kind::NONE {
        return 0;
    }
    write_association::address_size(a)
}

fn put_address(buf: &mut [u8], at: usize, tag: u8, part: &[u8; 48]) -> usize
    requires part_value { (address 0xa1).valid (association_in part.now) ≡ true }
    requires room { Room buf.old at ((address tag).write (association_in part.now)) }
    ensures { Wrote buf.old buf.new at ((address tag).write (association_in part.now)) result }
{
    let a = types_parts::association_of(part);
    if a.kind == association_kind::NONE {
        return at;
    }
    write_association::put_address(buf, at, tag, a)
}

// Its two entities, each with the address that may follow it.
fn network_size(parts: &Parts<'_>) -> usize
    requires { NetworkFine parts.now.front.now parts.now.figure.now }
    ensures value { result ≡ length (network_octets parts.now.front.now parts.now.figure.now) }
    ensures few { result ≤ 68 }
{
    6 + address_size(parts.front) + address_size(parts.figure)
}

fn put_network(buf: &mut [u8], at: usize, parts: &Parts<'_>) -> usize
    requires network_fine { NetworkFine parts.now.front.now parts.now.figure.now }
    requires room { Room buf.old at (network_octets parts.now.front.now parts.now.figure.now) }
    ensures { Wrote buf.old buf.new at (network_octets parts.now.front.now parts.now.figure.now) result }
{
    let p = write_elements::put_small(buf, at, 0x80, parts.front[in_front::DETAIL]);
    let q = put_address(buf, p, 0xa1, parts.front);
    let t = write_elements::put_small(buf, q, 0x82, parts.front[in_front::ENTITY]);
    put_address(buf, t, 0xa3, parts.figure)
}

// ---- frames

fn invoke_size(parts: &Parts<'_>) -> usize
    requires { trunk_invoke.valid (whole parts.now) ≡ true }
    ensures value { result ≡ length (trunk_invoke.write (whole parts.now)) }
    ensures few { result ≤ 900 }
{
    let operation = parts.front[in_front::OPERATION];
    5 + write_elements::id_width(types_parts::id_of(parts.front)) + body_size(operation, parts)
}

fn put_invoke(buf: &mut [u8], at: usize, parts: &Parts<'_>) -> usize
    requires { Fits trunk_invoke (whole parts.now) 251 buf.old at }
    ensures { Wrote buf.old buf.new at (trunk_invoke.write (whole parts.now)) result }
{
    let operation = parts.front[in_front::OPERATION];
    let p = write_elements::put_id(buf, at, 0x02, types_parts::id_of(parts.front));
    let q = write_elements::put_small(buf, p, 0x02, operation);
    put_body(buf, q, operation, parts)
}

// A result's form: that of 59, else that of 64.
fn result_form(operation: u8) -> u8
    ensures { result ≡ result_form operation }
{
    if operation == operation::CHARGE_REQUEST {
        return form::CHARGE_RESULT;
    }
    form::COMPLETE_RESULT
}

fn result_size(parts: &Parts<'_>) -> usize
    requires { trunk_result.valid (whole parts.now) ≡ true }
    ensures value { result ≡ length (trunk_result.write (whole parts.now)) }
    ensures few { result ≤ 900 }
{
    let form = result_form(parts.front[in_front::OPERATION]);
    let n = body_size(form, parts);
    2 + write_elements::id_width(types_parts::id_of(parts.front)) + write_figures::sized(3 + n)
}

fn put_result(buf: &mut [u8], at: usize, parts: &Parts<'_>) -> usize
    requires { Fits trunk_result (whole parts.now) 251 buf.old at }
    ensures { Wrote buf.old buf.new at (trunk_result.write (whole parts.now)) result }
{
    let operation = parts.front[in_front::OPERATION];
    let form = result_form(operation);
    let n = body_size(form, parts);
    let p = write_elements::put_id(buf, at, 0x02, types_parts::id_of(parts.front));
    let q = write_elements::put_lead(buf, p, 0x30, 3 + n);
    let t = write_elements::put_small(buf, q, 0x02, operation);
    put_body(buf, t, form, parts)
}

// An error's identifier, its value in one or two octets, and the parameter.
fn error_size(parts: &Parts<'_>) -> usize
    requires { Counted (extension_in parts.now.extension.now) }
    ensures value { result ≡ length (error_octets parts.now.front.now parts.now.extension.now) }
    ensures few { result ≤ 900 }
{
    let e = u32::from(types_parts::error_of(parts.front));
    4 + write_elements::id_width(types_parts::id_of(parts.front))
        + write_elements::width_of(e)
        + extension_size(parts.extension)
}

fn put_error(buf: &mut [u8], at: usize, parts: &Parts<'_>) -> usize
    requires counted { Counted (extension_in parts.now.extension.now) }
    requires room { Room buf.old at (error_octets parts.now.front.now parts.now.extension.now) }
    ensures { Wrote buf.old buf.new at (error_octets parts.now.front.now parts.now.extension.now) result }
{
    let e = u32::from(types_parts::error_of(parts.front));
    let p = write_elements::put_id(buf, at, 0x02, types_parts::id_of(parts.front));
    let q = write_elements::put_number(buf, p, 0x02, e);
    put_extension(buf, q, 0x30, parts.extension)
}

// A reject: the identifier or NULL, and the problem.
fn reject_size(front: &[u8; 48]) -> usize
    requires { detail_in front.now < 128 }
    ensures value { result ≡ length (reject_octets front.now) }
    ensures few { result ≤ 900 }
{
    if front[in_front::UNNAMED] == 1 {
        return 5;
    }
    5 + write_elements::id_width(types_parts::id_of(front))
}

fn put_caller(buf: &mut [u8], at: usize, front: &[u8; 48]) -> usize
    requires { Room buf.old at (caller_octets front.now) }
    ensures { Wrote buf.old buf.new at (caller_octets front.now) result }
{
    if front[in_front::UNNAMED] == 1 {
        return write_elements::put_null(buf, at, 0x05);
    }
    write_elements::put_id(buf, at, 0x02, types_parts::id_of(front))
}

fn put_reject(buf: &mut [u8], at: usize, front: &[u8; 48]) -> usize
    requires { (detail_in front.now < 128) × Room buf.old at (reject_octets front.now) }
    ensures { Wrote buf.old buf.new at (reject_octets front.now) result }
{
    let p = put_caller(buf, at, front);
    write_elements::put_small(buf, p, front[in_front::PROBLEM], front[in_front::DETAIL])
}

// What the frame of a valid component holds.
pub fn contents_size(parts: &Parts<'_>) -> usize
    requires { trunk_component.valid (whole parts.now) ≡ true }
    ensures value { result ≡ length (contents_of (whole parts.now)) }
    ensures few { result ≤ 900 }
{
    let kind = parts.front[in_front::FRAME];
    match kind {
        frame::INVOKE => invoke_size(parts),
        frame::RESULT => result_size(parts),
        frame::ERROR => error_size(parts),
        frame::REJECT => reject_size(parts.front),
        _ => network_size(parts),
    }
}

// The same, of at most 251 octets.
pub fn put_contents(buf: &mut [u8], at: usize, parts: &Parts<'_>) -> usize
    requires rows_value { trunk_component.valid (whole parts.now) ≡ true }
    requires rows_len_bound { length (contents_of (whole parts.now)) ≤ 251 }
    requires room { Room buf.old at (contents_of (whole parts.now)) }
    ensures { Wrote buf.old buf.new at (contents_of (whole parts.now)) result }
{
    let kind = parts.front[in_front::FRAME];
    match kind {
        frame::INVOKE => put_invoke(buf, at, parts),
        frame::RESULT => put_result(buf, at, parts),
        frame::ERROR => put_error(buf, at, parts),
        frame::REJECT => put_reject(buf, at, parts.front),
        _ => put_network(buf, at, parts),
    }
}
