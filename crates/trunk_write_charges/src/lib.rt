// The charge of a trunk's operation 61, 62 or 63: how many octets it takes, and its octets. Parts of document 01's charges are written by its crates; what its speed
// wants with its own callers alone is written here a second time, over the same laws (docs/SPEED.md, "What one more caller costs").
#![tactic(auto, using(crate::proofs::Octets::associations))]

ghost use Rattle.std.specs.Prelude.{◌≡◌, true, ◌≤◌, length};
ghost use Rattle.coding.specs.inner.Written.{Wrote, Room};
ghost use Rattle.types.specs.Charges.{association};
ghost use Rattle.trunk_types.specs.Bodies.{charge_for};
ghost use Rattle.trunk_types.specs.Stored.{lent_charge};
ghost use Rattle.trunk_write_charges.specs.inner.Octets.{priced_octets, figure_octets, Priced, Figured};

use trunk_types::Parts;
use types::{Association, Figure, association_kind, charge_kind, operation};

// ---- associations, as `write_association` has them, whose two functions keep their callers for its speed

pub fn association_size(a: Association) -> usize
    requires { (association true).valid a ≡ true }
    ensures value { result ≡ length ((association true).write a) }
    ensures few { result ≤ 29 }
{
    if a.kind == association_kind::NONE {
        return 0;
    }
    if a.kind == association_kind::IDENTIFIER {
        return 2 + write_elements::id_width(a.id);
    }
    write_association::address_size(a)
}

pub fn put_association(buf: &mut [u8], at: usize, a: Association) -> usize
    requires { ((association true).valid a ≡ true) × Room buf.old at ((association true).write a) }
    ensures { Wrote buf.old buf.new at ((association true).write a) result }
{
    if a.kind == association_kind::NONE {
        return at;
    }
    if a.kind == association_kind::IDENTIFIER {
        return write_elements::put_id(buf, at, 0x02, a.id);
    }
    write_association::put_address(buf, at, 0xa0, a)
}

// ---- figures: not available is 80 00 here and 05 00 in document 01, whose `priced_size` and `put_after` keep their callers for its speed, and count marks too

#[tactic(auto, using(crate::proofs::Octets::figures))]
fn priced_size(f: Figure) -> usize
    requires { Priced f }
    ensures value { result ≡ length (priced_octets f) }
    ensures few { result ≤ 34 }
{
    let m = f.money;
    let n = write_figures::money_size(m);
    write_figures::sized(write_figures::sized(n) + write_figures::billing_size(f.billed))
}

#[tactic(auto, using(crate::proofs::Octets::figures))]
fn figure_size(f: Figure) -> usize
    requires { Figured f }
    ensures value { result ≡ length (figure_octets f) }
    ensures few { result ≤ 34 }
{
    if f.kind == charge_kind::NONE {
        return 2;
    }
    if f.kind == charge_kind::FREE {
        return 2;
    }
    priced_size(f)
}

#[tactic(auto, using(crate::proofs::Octets::figures))]
fn put_priced(buf: &mut [u8], at: usize, f: Figure) -> usize
    requires { Priced f × Room buf.old at (priced_octets f) }
    ensures { Wrote buf.old buf.new at (priced_octets f) result }
{
    let m = f.money;
    let n = write_figures::money_size(m);
    let inner = write_figures::sized(n) + write_figures::billing_size(f.billed);
    let p = write_figures::put_leads(buf, at, inner, n);
    let q = write_figures::put_money(buf, p, m);
    write_figures::put_billing(buf, q, 0x82, f.billed, f.billing)
}

#[tactic(auto, using(crate::proofs::Octets::figures))]
fn put_figure(buf: &mut [u8], at: usize, f: Figure) -> usize
    requires { Figured f × Room buf.old at (figure_octets f) }
    ensures { Wrote buf.old buf.new at (figure_octets f) result }
{
    if f.kind == charge_kind::NONE {
        return write_elements::put_null(buf, at, 0x80);
    }
    if f.kind == charge_kind::FREE {
        return write_elements::put_null(buf, at, 0x81);
    }
    put_priced(buf, at, f)
}

// ---- charges

// The octets of a valid charge, which may be too many for a component.
#[tactic(auto, using(crate::proofs::Octets::charged))]
pub fn charge_size(form: u8, parts: &Parts<'_>) -> usize
    requires { (charge_for form).valid (lent_charge parts.now) ≡ true }
    ensures value { result ≡ length ((charge_for form).write (lent_charge parts.now)) }
    ensures few { result ≤ 600 }
{
    let (numbers, rows) = (parts.numbers, parts.rows);
    // As a slice the array shows its length to the proof.
    let octets: &[u8] = rows;
    let f = types_parts::figure_of(parts.figure);
    let a = f.association;
    let n = usize::from(f.count);
    if form == operation::FINAL {
        return figure_size(f) + association_size(a);
    }
    if form == operation::INTERIM {
        return figure_size(f);
    }
    if f.kind == charge_kind::NONE {
        return 2;
    }
    write_figures::sized(write_rates::rates_size(numbers, rows, n))
}

// A valid charge of at most 254 octets.
#[tactic(auto, using(crate::proofs::Octets::charged))]
pub fn put_charge(buf: &mut [u8], at: usize, form: u8, parts: &Parts<'_>) -> usize
    requires value { (charge_for form).valid (lent_charge parts.now) ≡ true }
    requires few { length ((charge_for form).write (lent_charge parts.now)) ≤ 254 }
    requires room { Room buf.old at ((charge_for form).write (lent_charge parts.now)) }
    ensures { Wrote buf.old buf.new at ((charge_for form).write (lent_charge parts.now)) result }
{
    let (numbers, rows) = (parts.numbers, parts.rows);
    // As a slice the array shows its length to the proof.
    let octets: &[u8] = rows;
    let f = types_parts::figure_of(parts.figure);
    let a = f.association;
    if form == operation::FINAL {
        let p = put_figure(buf, at, f);
        return put_association(buf, p, a);
    }
    if form == operation::INTERIM {
        return put_figure(buf, at, f);
    }
    if f.kind == charge_kind::NONE {
        return write_elements::put_null(buf, at, 0x05);
    }
    write_rates::put_rates_charge(buf, at, numbers, rows, f.count)
}
