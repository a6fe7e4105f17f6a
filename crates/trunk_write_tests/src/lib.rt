// Components of a trunk: which may be written. Each `_fine` is the writer's test of a part, by the component's form.
#![tactic(auto, using(crate::proofs::Found::found))]

ghost use Rattle.std.specs.Prelude.{◌≡◌, true, not, ◌||◌, cond, eqb, get_or};
ghost use Rattle.types.specs.Charges.{association};
ghost use Rattle.types.specs.Stored.{association_in};
ghost use Rattle.trunk_types.specs.Stored.{lead_in, modes_in, extension_in, lent_charge, trunk_of};
ghost use Rattle.trunk_types.specs.Components.{trunk_component};
ghost use Rattle.trunk_write_tests.specs.inner.Fine.{lead_fine, form_of, detail_fine, entity_fine, modes_fine, number_if, names, user_fine, other_fine, kind_fine, is_billing, list_if, charge_fits, most_extension, extension_fine, front_fits};
ghost use Rattle.trunk_write_tests.specs.inner.Masks.{billed_by, masked_fits};

use trunk_types::{Lead, Parts, extended, form, in_extension, in_front};
use types::{
    Association, association_kind, billing, charge_kind, error, frame, in_figure, operation,
};

// As wide as a lead has it.
const UNSPECIFIED: u16 = error::UNSPECIFIED as u16;

// ---- the lead

fn lead_of(front: &[u8; 48]) -> Lead
    ensures { result ≡ lead_in front.now }
{
    Lead {
        frame: front[in_front::FRAME],
        unnamed: front[in_front::UNNAMED],
        id: types_parts::number16(front[in_front::ID], front[in_front::ID_HIGH]),
        error: types_parts::number16(front[in_front::ERROR], front[in_front::ERROR_HIGH]),
        operation: front[in_front::OPERATION],
        problem: front[in_front::PROBLEM],
    }
}

// What a frame does not have is zero.
#[tactic(auto, using(crate::proofs::Found::found), unfolding(crate::specs::inner::Fine::lead_fine))]
fn lead_fine(l: Lead) -> bool
    ensures { result ≡ lead_fine l }
{
    if l.frame == frame::REJECT {
        return l.error == 0 && (l.operation == 0 && write_heads::is_called(l.unnamed, l.id));
    }
    // No other frame has a problem, or may be unnamed.
    if l.unnamed != 0 {
        return false;
    }
    if l.problem != 0 {
        return false;
    }
    if l.frame == frame::ERROR {
        return l.operation == 0 && trunk_read_heads::known_error(u32::from(l.error));
    }
    if l.error != 0 {
        return false;
    }
    if l.frame == frame::INVOKE {
        return trunk_read_heads::known_operation(u32::from(l.operation));
    }
    if l.frame == frame::RESULT {
        return trunk_read_heads::is_answerable(u32::from(l.operation));
    }
    // A network facility extension has no identifier and no operation.
    l.id == 0 && (l.operation == 0 && l.frame == frame::EXTENSION)
}

// The form by which a body is tested.
#[tactic(auto, using(crate::proofs::Found::found), unfolding(crate::specs::inner::Fine::form_of))]
fn form_of(l: Lead) -> u8
    ensures { result ≡ form_of l }
{
    if l.frame == frame::INVOKE {
        return l.operation;
    }
    if l.frame == frame::RESULT {
        if l.operation == operation::CHARGE_REQUEST {
            return form::CHARGE_RESULT;
        }
        return form::COMPLETE_RESULT;
    }
    if l.frame == frame::ERROR {
        if l.error == UNSPECIFIED {
            return form::UNSPECIFIED;
        }
        return frame::ERROR;
    }
    l.frame
}

// ---- the small fields

#[tactic(auto, using(crate::proofs::Found::found), unfolding(crate::specs::inner::Fine::detail_fine))]
fn detail_fine(form: u8, problem: u8, detail: u8) -> bool
    ensures { result ≡ detail_fine form problem detail }
{
    match form {
        form::CHARGE_RESULT => detail <= 6,
        form::COMPLETE_RESULT => detail <= 2,
        operation::DIVERSION => detail <= 3,
        frame::EXTENSION => detail <= 1,
        frame::REJECT => write_heads::problem_fine(problem, detail),
        _ => detail == 0,
    }
}

#[tactic(auto, using(crate::proofs::Found::found), unfolding(crate::specs::inner::Fine::entity_fine))]
fn entity_fine(form: u8, entity: u8) -> bool
    ensures { result ≡ entity_fine form entity }
{
    match form {
        frame::EXTENSION => entity <= 1,
        _ => entity == 0,
    }
}

// The modes where they lie in the front: 59 alone has some.
fn modes_fine(front: &[u8; 48], form: u8) -> bool
    ensures { result ≡ modes_fine form (modes_in front.now) }
{
    // As a slice the array shows its length to the proof.
    let all: &[u8] = front;
    let n = usize::from(all[in_front::ASKED]);
    if form != operation::CHARGE_REQUEST {
        return n == 0 && octets::below(all, in_front::MODES, in_front::USER, 1);
    }
    n <= 7
        && (octets::below(all, in_front::MODES + n, in_front::USER, 1)
            && octets::below(all, in_front::MODES, in_front::MODES + n, 7))
}

// ---- numbers and associations

fn number_if(a: &Association) -> bool
    ensures { result ≡ number_if a.now }
{
    if a.kind == association_kind::NONE {
        return write_tests::no_association(*a, &a.digits);
    }
    write_tests::number_fine(*a)
}

// 64 and 65 name a user.
fn names(form: u8) -> bool
    ensures { result ≡ names form }
{
    form == operation::COMPLETE || form == operation::DIVERSION
}

#[tactic(auto, using(crate::proofs::Found::found), unfolding(crate::specs::inner::Fine::user_fine))]
fn user_fine(a: &Association, form: u8) -> bool
    ensures { result ≡ user_fine form a.now }
{
    if names(form) {
        return write_tests::number_fine(*a);
    }
    if form == frame::EXTENSION {
        return number_if(a);
    }
    write_tests::no_association(*a, &a.digits)
}

// 61, 64 and 65 may have an association.
fn associates(form: u8) -> bool
    ensures { result ≡ eqb form 61 || names form }
{
    form == operation::FINAL || names(form)
}

// As `write_tests::association_fine` but for the private numbers; that one keeps its caller for its speed (docs/SPEED.md, "What one more caller costs").
fn association_fine(a: &Association) -> bool
    ensures { result ≡ (association true).valid a.now }
{
    if a.kind == association_kind::NONE {
        return write_tests::no_association(*a, &a.digits);
    }
    if a.kind == association_kind::IDENTIFIER {
        return write_tests::identified_fine(*a, &a.digits);
    }
    write_tests::number_fine(*a)
}

// An association that was taken out of a figure.
#[tactic(auto, using(crate::proofs::Found::found), unfolding(crate::specs::inner::Fine::other_fine))]
fn associated_fine(a: &Association, form: u8) -> bool
    ensures { result ≡ other_fine form a.now }
{
    if associates(form) {
        return association_fine(a);
    }
    if form == frame::EXTENSION {
        return number_if(a);
    }
    write_tests::no_association(*a, &a.digits)
}

// Whether a figure has an association.
fn is_associated(figure: &[u8; 48]) -> bool
    ensures { result ≡ not (eqb (get_or figure.now 20 0) 0) }
{
    figure[in_figure::ASSOCIATION_KIND] != association_kind::NONE
}

// The association, where there is one.
fn other_fine(figure: &[u8; 48], associated: bool, form: u8) -> bool
    ensures { result ≡ cond associated (other_fine form (association_in figure.now)) true }
{
    if !associated {
        return true;
    }
    let a = types_parts::association_of(figure);
    associated_fine(&a, form)
}

// ---- the charge

#[tactic(auto, using(crate::proofs::Found::found), unfolding(crate::specs::inner::Fine::kind_fine))]
fn kind_fine(form: u8, kind: u8) -> bool
    ensures { result ≡ kind_fine form kind }
{
    match kind {
        charge_kind::NONE => true,
        charge_kind::FREE => form == operation::FINAL || form == operation::INTERIM,
        charge_kind::MONEY => form == operation::FINAL || form == operation::INTERIM,
        charge_kind::RATES => form == operation::RATE,
        _ => false,
    }
}

// A billing identification that money may have.
#[tactic(auto, using(crate::proofs::Found::found), unfolding(crate::specs::inner::Fine::is_billing))]
fn is_billing(form: u8, billing: u8) -> bool
    ensures { result ≡ is_billing form billing }
{
    if billing == billing::REVERSE {
        return false;
    }
    if form == operation::FINAL {
        return billing <= billing::TRANSFER;
    }
    billing <= billing::CREDIT_CARD
}

fn billed_fine(billed: u8, billing: u8, form: u8) -> bool
    ensures { result ≡ billed_by form billed billing }
{
    match billed {
        0 => billing == 0,
        1 => is_billing(form, billing),
        _ => false,
    }
}

// All but the association and the list, by one mask for each kind (`write_masks::clear_by`).
fn fields_fine(figure: &[u8; 48], associated: bool, form: u8) -> bool
    ensures { result ≡ masked_fits associated form figure.now }
{
    // As a slice the array shows its length to the proof.
    let all: &[u8] = figure;
    let kind = figure[in_figure::KIND];
    if !kind_fine(form, kind) {
        return false;
    }
    if kind == charge_kind::MONEY {
        if !write_masks::clear_by(
            figure,
            associated,
            b"xxxxxxxxxxxxxxxxxxxxxxxxxxxxxxxxxxxxxxxxxxx.xx.x",
            b"xxxxxxxxxxxxxxxx..........................x.xx.x",
        ) {
            return false;
        }
        if !billed_fine(figure[in_figure::BILLED], figure[in_figure::BILLING], form) {
            return false;
        }
        let m = types_parts::money_of(figure);
        return write_tests::money_fine(m, true);
    }
    write_masks::clear_by(
        figure,
        associated,
        b"................xxxxxxxxxxxxxxxxxxxxxxxxxxx....x",
        b"..........................................x....x",
    )
}

// Rates, or none.
#[tactic(auto, using(crate::proofs::Found::found), unfolding(crate::specs::inner::Fine::list_if, types::specs::Stored::figure_in))]
fn list_fine(parts: &Parts<'_>) -> bool
    ensures { result ≡ list_if (lent_charge parts.now) }
{
    let (numbers, rows) = (parts.numbers, parts.rows);
    // As slices the arrays show their lengths to the proof.
    let places: &[u32] = numbers;
    let octets: &[u8] = rows;
    let count = parts.figure[in_figure::COUNT];
    if parts.figure[in_figure::KIND] == charge_kind::RATES {
        return write_rates::rates_fine(numbers, rows, count, true);
    }
    count == 0 && write_tests::no_entries(numbers, rows)
}

fn charge_fine(parts: &Parts<'_>, form: u8) -> bool
    ensures { result ≡ charge_fits form (lent_charge parts.now) }
{
    let figure = parts.figure;
    // As a slice the array shows its length to the proof.
    let all: &[u8] = figure;
    let associated = is_associated(figure);
    other_fine(figure, associated, form)
        && (fields_fine(figure, associated, form) && list_fine(parts))
}

// ---- the extension

// How great the kind of an extension may be.
#[tactic(auto, using(crate::proofs::Found::found), unfolding(crate::specs::inner::Fine::most_extension))]
fn most_extension(form: u8) -> u8
    ensures { result ≡ most_extension form }
{
    if operation::CHARGE_REQUEST <= form {
        return extended::LIST;
    }
    if form <= form::COMPLETE_RESULT {
        return extended::LIST;
    }
    if form == form::UNSPECIFIED {
        return extended::ONCE;
    }
    extended::NOT
}

// Its contents are checked as the reader checks them, and what is past them is zero.
fn extended_fine(extension: &[u8; 244], form: u8) -> bool
    ensures { result ≡ extension_fine form (extension_in extension.now) }
{
    let all: &[u8] = extension;
    let kind = all[in_extension::EXTENDED];
    let n = usize::from(all[in_extension::EXTENT]);
    if most_extension(form) < kind {
        return false;
    }
    if 242 < n {
        return false;
    }
    if !octets::all_are(&all[in_extension::EXTENSION + n..244], 0) {
        return false;
    }
    if kind == extended::NOT {
        return n == 0;
    }
    trunk_read_extensions::is_form(
        &all[in_extension::EXTENSION..in_extension::EXTENSION + n],
        kind,
    )
}

// None fits every form.
fn extension_fine(extension: &[u8; 244], form: u8) -> bool
    ensures { result ≡ extension_fine form (extension_in extension.now) }
{
    let all: &[u8] = extension;
    octets::all_are(all, 0) || extended_fine(extension, form)
}

// ---- the whole

// What lies in the front beside the lead.
fn front_fine(front: &[u8; 48], form: u8, problem: u8) -> bool
    ensures { result ≡ front_fits form problem front.now }
{
    if !detail_fine(form, problem, front[in_front::DETAIL]) {
        return false;
    }
    if !entity_fine(form, front[in_front::ENTITY]) {
        return false;
    }
    // No modes and no user.
    let all: &[u8] = front;
    if octets::all_are(&all[in_front::ASKED..in_front::DETAIL], 0) {
        return !names(form);
    }
    if !modes_fine(front, form) {
        return false;
    }
    let user = types_parts::association_of(front);
    user_fine(&user, form)
}

// Whether the component that lies in the parts may be written.
pub fn trunk_fine(parts: &Parts<'_>) -> bool
    ensures { result ≡ trunk_component.valid (trunk_of parts.now) }
{
    let l = lead_of(parts.front);
    let form = form_of(l);
    lead_fine(l)
        && (front_fine(parts.front, form, l.problem)
            && (charge_fine(parts, form) && extension_fine(parts.extension, form)))
}
