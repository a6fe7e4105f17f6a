// Says which charges without a list may be written: what their kind uses is in range, and all else is zero, by one mask for each kind.
#![tactic(auto, using(crate::proofs::Search::masks))]

ghost use Rattle.std.specs.Prelude.{◌≡◌, true, false, ◌||◌, cond, get_or, eqb};
ghost use Rattle.types.specs.Charges.{association};
ghost use Rattle.types.specs.Stored.{association_in, figure_in};
ghost use Rattle.write_tests.specs.inner.Fine.{bare_kind, figure_fine};
ghost use Rattle.write_masks.specs.inner.Masks.{clear_but, mask_of, billed_fine, priced_fine, arranged_fine, associated, used_fine};

use types::{association_kind, billing, charge_kind, in_figure, operation};

// ---- masks

// A mask is text: an x for each octet of a figure that a kind uses, and a point for each that must be zero. Money is 16 octets, an association
// 26, and the small fields are the last 6.

// What must be zero of an octet.
fn unused(x: u8, used: u8) -> u8
    ensures { result ≡ cond (eqb used 0x2e) x 0 }
{
    if used == b'.' { x } else { 0 }
}

// Whether all that a mask has no use for is zero. As in `octets::all_are`, the loop has no way out but its end.
fn clear_but(used: &[u8; 48], figure: &[u8; 48]) -> bool
    ensures { result ≡ clear_but used.now figure.now }
{
    let mut clear = true;
    for (i, x) in figure.iter().enumerate() {
        clear &= unused(*x, used[i]) == 0;
    }
    clear
}

// By the mask for a figure with an association, or the one for a figure without. A branch takes less than a mask that is put together.
pub fn clear_by(figure: &[u8; 48], associated: bool, with: &[u8; 48], without: &[u8; 48]) -> bool
    ensures { result ≡ clear_but (cond associated with.now without.now) figure.now }
{
    if associated {
        return clear_but(with, figure);
    }
    clear_but(without, figure)
}

// By the masks of a kind.
#[tactic(auto, unfolding(crate::specs::inner::Masks::mask_of))]
fn clear_of(figure: &[u8; 48], associated: bool, kind: u8) -> bool
    ensures { result ≡ clear_but (mask_of associated kind) figure.now }
{
    match kind {
        charge_kind::MONEY => clear_by(
            figure,
            associated,
            b"xxxxxxxxxxxxxxxxxxxxxxxxxxxxxxxxxxxxxxxxxxxxxx.x",
            b"xxxxxxxxxxxxxxxx..........................xxxx.x",
        ),
        charge_kind::UNITS => clear_by(
            figure,
            associated,
            b"................xxxxxxxxxxxxxxxxxxxxxxxxxxxxxx.x",
            b"..........................................xxxx.x",
        ),
        charge_kind::ARRANGEMENT => clear_by(
            figure,
            associated,
            b"................xxxxxxxxxxxxxxxxxxxxxxxxxxx...xx",
            b"..........................................x...xx",
        ),
        _ => clear_by(
            figure,
            associated,
            b"................xxxxxxxxxxxxxxxxxxxxxxxxxxx....x",
            b"..........................................x....x",
        ),
    }
}

// ---- what is used, by the operation and the kind

fn billed_fine(figure: &[u8; 48], most: u8) -> bool
    ensures { result ≡ billed_fine most (get_or figure.now 44 0) (get_or figure.now 45 0) }
{
    let billed = figure[in_figure::BILLED];
    let billing = figure[in_figure::BILLING];
    match billed {
        0 => billing == 0,
        1 => billing <= most,
        _ => false,
    }
}

// What stands beside an amount or units, which one operation has during the call and another at its end.
fn priced_fine(figure: &[u8; 48], operation: u8, during: u8, ending: u8) -> bool
    ensures { result ≡ priced_fine during ending operation figure.now }
{
    let total = figure[in_figure::TOTAL];
    if operation == during {
        return total <= 1 && billed_fine(figure, billing::CREDIT_CARD);
    }
    operation == ending && (total == 0 && billed_fine(figure, billing::TRANSFER))
}

// Whether an operation may have a special arrangement.
fn arranges(operation: u8) -> bool
    ensures { result ≡ eqb operation 30 || eqb operation 32 }
{
    operation == operation::CHARGING_REQUEST || operation == operation::S_SPECIAL
}

fn arranged_fine(arrangement: u8, operation: u8) -> bool
    ensures { result ≡ arranged_fine operation arrangement }
{
    arranges(operation) && (1 <= arrangement && arrangement <= 10)
}

// Whether an operation may have a kind that has no small field.
#[tactic(auto, unfolding(write_tests::specs::inner::Fine::bare_kind))]
fn bare_kind(kind: u8, operation: u8) -> bool
    ensures { result ≡ bare_kind operation kind }
{
    match kind {
        charge_kind::NONE => true,
        charge_kind::FREE => operation::D_CURRENCY <= operation,
        charge_kind::RATES => operation <= operation::S_CURRENCY,
        _ => false,
    }
}

// All that the kind uses but the association.
#[tactic(auto, unfolding(crate::specs::inner::Masks::used_fine))]
fn used_fine(figure: &[u8; 48], kind: u8, operation: u8) -> bool
    ensures { result ≡ used_fine operation kind figure.now }
{
    match kind {
        charge_kind::MONEY => {
            priced_fine(
                figure,
                operation,
                operation::D_CURRENCY,
                operation::E_CURRENCY,
            ) && write_tests::money_fine(types_parts::money_of(figure), false)
        }
        charge_kind::UNITS => {
            priced_fine(figure, operation, operation::D_UNITS, operation::E_UNITS)
        }
        charge_kind::ARRANGEMENT => arranged_fine(figure[in_figure::ARRANGEMENT], operation),
        _ => bare_kind(kind, operation),
    }
}

// ---- figures

// Whether a figure may have an association, and has one.
#[tactic(auto, unfolding(types::specs::Stored::figure_in))]
fn is_associated(figure: &[u8; 48], operation: u8) -> bool
    ensures { result ≡ associated operation (figure_in figure.now) }
{
    operation::E_CURRENCY <= operation
        && (figure[in_figure::KIND] != charge_kind::NONE
            && figure[in_figure::ASSOCIATION_KIND] != association_kind::NONE)
}

// The association, where there is one.
fn associate_fine(figure: &[u8; 48], associated: bool) -> bool
    ensures { result ≡ cond associated ((association false).valid (association_in figure.now)) true }
{
    if !associated {
        return true;
    }
    let a = types_parts::association_of(figure);
    let digits = a.digits;
    write_tests::association_fine(a, &digits)
}

// All of a charge but its list, as it lies in 48 octets.
pub fn parts_fine(figure: &[u8; 48], operation: u8) -> bool
    ensures { result ≡ figure_fine operation (figure_in figure.now) }
{
    let kind = figure[in_figure::KIND];
    let associated = is_associated(figure, operation);
    associate_fine(figure, associated)
        && (clear_of(figure, associated, kind) && used_fine(figure, kind, operation))
}
