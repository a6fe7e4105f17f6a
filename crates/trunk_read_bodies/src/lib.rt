// Reading what a component of a trunk carries, by its form: what comes before its extension, and the extension.
//
// What is read is stored in the caller's parts: a front of 48 octets, an extension of 244, a figure of 48 and a list's two arrays.
#![tactic(auto)]

ghost use Rattle.std.specs.Prelude.{◌≡◌, true, replicate};
ghost use Rattle.coding.specs.Codec.{one_of};
ghost use Rattle.coding.specs.inner.Shown.{shown};
ghost use Rattle.types.specs.Arguments.{no_charge};
ghost use Rattle.types.specs.Stored.{Blank, stored, stored_charge};
ghost use Rattle.read_lists.specs.inner.Answers.{whole};
ghost use Rattle.trunk_types.specs.Bodies.{no_body, extending, extended, dummy, argument_of, result_of};
ghost use Rattle.trunk_types.specs.Components.{trunk_operations};
ghost use Rattle.trunk_types.specs.Stored.{extension_in};
ghost use Rattle.trunk_read_fields.specs.inner.Fields.{inner};
ghost use Rattle.trunk_types.specs.Stored.{Spare};
ghost use Rattle.trunk_read_bodies.specs.inner.Bodied.{Bare, bodied, charge_for, inner_of};
ghost use Rattle.read_lengths.specs.inner.Bounds.{Bounded};

use trunk_types::form;
use types::{charge_kind, operation};

// The charge of 61, 62 or 63.
fn charge_at(
    s: &[u8],
    at: usize,
    end: usize,
    form: u8,
    figure: &mut [u8; 48],
    numbers: &mut [u32; 32],
    rows: &mut [u8; 192],
) -> read_elements::Empty
    requires bounded { Bounded s.now end }
    requires blank { Blank figure.old numbers.old rows.old }
    ensures { whole result figure.new numbers.new rows.new ≡ shown no_charge ((charge_for form).read s.now at end) }
{
    if form == operation::FINAL {
        return trunk_read_charges::final_at(s, at, end, figure);
    }
    if form == operation::INTERIM {
        return trunk_read_charges::interim_at(s, at, end, figure);
    }
    if read_lengths::is_tag(s, at, end, 0x05) {
        return read_figures::sign_at(s, at, end, 0x05, charge_kind::NONE, figure);
    }
    read_charges::rates_at(s, at, end, true, figure, numbers, rows)
}

// What comes before the extension.
fn inner_at(
    s: &[u8],
    at: usize,
    end: usize,
    form: u8,
    front: &mut [u8; 48],
    figure: &mut [u8; 48],
    numbers: &mut [u32; 32],
    rows: &mut [u8; 192],
) -> read_elements::Empty
    requires bounded { Bounded s.now end }
    requires front_value { (front.old ≡ replicate 48 0) × Blank figure.old numbers.old rows.old }
    ensures rows_after { inner result front.new (stored_charge figure.new numbers.new rows.new) ≡ shown no_body ((inner_of form).read s.now at end) }
    ensures spare { Spare front.new }
{
    match form {
        form::CHARGE_RESULT => trunk_read_fields::detail_at(s, at, end, 6, front),
        form::COMPLETE_RESULT => trunk_read_fields::detail_at(s, at, end, 2, front),
        operation::CHARGE_REQUEST => trunk_read_fields::modes_at(s, at, end, front),
        operation::COMPLETE => trunk_read_fields::users_at(s, at, end, front, figure),
        operation::DIVERSION => trunk_read_fields::diverting_at(s, at, end, front, figure),
        _ => charge_at(s, at, end, form, figure, numbers, rows),
    }
}

// ---- arguments and results

// The 30 around what a form has and its extension.
fn extended_at(
    s: &[u8],
    at: usize,
    end: usize,
    form: u8,
    front: &mut [u8; 48],
    extension: &mut [u8; 244],
    figure: &mut [u8; 48],
    numbers: &mut [u32; 32],
    rows: &mut [u8; 192],
) -> read_elements::Empty
    requires bounded { Bounded s.now end }
    requires bare { Bare front.old extension.old figure.old numbers.old rows.old }
    ensures rows_after { bodied result front.new extension.new (stored_charge figure.new numbers.new rows.new) ≡ shown no_body ((extended (inner_of form)).read s.now at end) }
    ensures spare { Spare front.new }
{
    let e = read_lengths::open_at(s, at, end, 0x30);
    if e.fault != 0 {
        return read_elements::halted(e.fault, e.place);
    }
    let start = e.value.start;
    let stop = e.value.stop;
    let b = inner_at(s, start, stop, form, front, figure, numbers, rows);
    if b.fault != 0 {
        return read_elements::halted(b.fault, b.place);
    }
    let x = trunk_read_extensions::extension_if(s, b.next, stop, extension);
    read_elements::closed(x, stop, e.next)
}

// 60: 05 00, or an extension by itself.
fn dummy_at(s: &[u8], at: usize, end: usize, extension: &mut [u8; 244]) -> read_elements::Empty
    requires bounded { Bounded s.now end }
    requires extension_value { extension.old ≡ replicate 244 0 }
    ensures { (result.fault, result.place, stored no_body result.fault (extending (extension_in extension.new)), result.next) ≡ shown no_body (dummy.read s.now at end) }
{
    if read_lengths::is_tag(s, at, end, 0x05) {
        return read_elements::null_at(s, at, end, 0x05);
    }
    trunk_read_extensions::some_at(s, at, end, extension)
}

// The argument of an operation.
pub fn argument_at(
    s: &[u8],
    at: usize,
    end: usize,
    operation: u8,
    front: &mut [u8; 48],
    extension: &mut [u8; 244],
    figure: &mut [u8; 48],
    numbers: &mut [u32; 32],
    rows: &mut [u8; 192],
) -> read_elements::Empty
    requires bounded { Bounded s.now end × (one_of trunk_operations operation ≡ true) }
    requires bare { Bare front.old extension.old figure.old numbers.old rows.old }
    ensures rows_after { bodied result front.new extension.new (stored_charge figure.new numbers.new rows.new) ≡ shown no_body ((argument_of operation).read s.now at end) }
    ensures spare { Spare front.new }
{
    if operation == operation::GET_FINAL_CHARGE {
        return dummy_at(s, at, end, extension);
    }
    let form = operation;
    extended_at(s, at, end, form, front, extension, figure, numbers, rows)
}

// The result of 59; else that of 64.
pub fn result_at(
    s: &[u8],
    at: usize,
    end: usize,
    operation: u8,
    front: &mut [u8; 48],
    extension: &mut [u8; 244],
    figure: &mut [u8; 48],
    numbers: &mut [u32; 32],
    rows: &mut [u8; 192],
) -> read_elements::Empty
    requires bounded { Bounded s.now end }
    requires bare { Bare front.old extension.old figure.old numbers.old rows.old }
    ensures rows_after { bodied result front.new extension.new (stored_charge figure.new numbers.new rows.new) ≡ shown no_body ((result_of operation).read s.now at end) }
    ensures spare { Spare front.new }
{
    if operation == operation::CHARGE_REQUEST {
        let form = form::CHARGE_RESULT;
        return extended_at(s, at, end, form, front, extension, figure, numbers, rows);
    }
    let form = form::COMPLETE_RESULT;
    extended_at(s, at, end, form, front, extension, figure, numbers, rows)
}
