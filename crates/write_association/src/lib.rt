// The association of a charge, and numbers: how many octets they take, and their octets.
//
// Each `_size` is the octets of a valid value, and each `put_` stores those octets into the caller's buffer from a place on and gives the place
// after them.
#![tactic(auto, using(crate::proofs::Search::parts))]

ghost use Rattle.std.specs.Prelude.{◌≡◌, true, ℕ, ◌≤◌, length};
ghost use Rattle.coding.specs.inner.Written.{Wrote, Room};
ghost use Rattle.coding.specs.Codec.{cons};
ghost use Rattle.types.specs.Charges.{party_number, association};
ghost use Rattle.write_tests.specs.inner.Fine.{is_planned};
ghost use Rattle.write_association.specs.inner.Octets.{plan_tag};

use types::{Association, association_kind};

// ---- sizes

pub fn number_size(a: Association) -> usize
    requires { (party_number true).valid a ≡ true }
    ensures value { result ≡ length ((party_number true).write a) }
    ensures few { result ≤ 27 }
{
    let n = usize::from(a.count);
    if write_tests::is_planned(a.kind) {
        return n + 7;
    }
    n + 2
}

// An element with a number in it, whatever its tag.
pub fn address_size(a: Association) -> usize
    requires { (party_number true).valid a ≡ true }
    ensures by_index { (tag : ℕ) → result ≡ length ((cons tag (party_number true)).write a) }
    ensures few { result ≤ 29 }
{
    2 + number_size(a)
}

pub fn association_size(a: Association, trunk: bool) -> usize
    requires { (association trunk).valid a ≡ true }
    ensures value { result ≡ length ((association trunk).write a) }
    ensures few { result ≤ 29 }
{
    if a.kind == association_kind::NONE {
        return 0;
    }
    if a.kind == association_kind::IDENTIFIER {
        return 2 + write_elements::id_width(a.id);
    }
    address_size(a)
}

// ---- octets

// The tag of a number of a kind: A1 public, A5 private.
fn plan_tag(kind: u8) -> u8
    ensures { result ≡ plan_tag kind }
{
    if kind == association_kind::PRIVATE_NUMBER {
        return 0xa5;
    }
    0xa1
}

fn put_planned(buf: &mut [u8], at: usize, a: Association) -> usize
    requires a_value { ((party_number true).valid a ≡ true) × (is_planned true a.kind ≡ true) }
    requires room { Room buf.old at ((party_number true).write a) }
    ensures { Wrote buf.old buf.new at ((party_number true).write a) result }
{
    let n = usize::from(a.count);
    let digits = a.digits;
    let tag = plan_tag(a.kind);
    let p = write_elements::put_lead(buf, at, tag, 5 + n);
    let q = write_elements::put_small(buf, p, 0x0a, a.plan);
    write_elements::put_string(buf, q, 0x12, &digits, n)
}

pub fn put_party(buf: &mut [u8], at: usize, a: Association) -> usize
    requires { ((party_number true).valid a ≡ true) × Room buf.old at ((party_number true).write a) }
    ensures { Wrote buf.old buf.new at ((party_number true).write a) result }
{
    let n = usize::from(a.count);
    let digits = a.digits;
    if write_tests::is_planned(a.kind) {
        return put_planned(buf, at, a);
    }
    write_elements::put_string(buf, at, 0x80, &digits, n)
}

pub fn put_address(buf: &mut [u8], at: usize, tag: u8, a: Association) -> usize
    requires { ((party_number true).valid a ≡ true) × Room buf.old at ((cons tag (party_number true)).write a) }
    ensures { Wrote buf.old buf.new at ((cons tag (party_number true)).write a) result }
{
    let p = write_elements::put_lead(buf, at, tag, number_size(a));
    put_party(buf, p, a)
}

pub fn put_association(buf: &mut [u8], at: usize, a: Association, trunk: bool) -> usize
    requires { ((association trunk).valid a ≡ true) × Room buf.old at ((association trunk).write a) }
    ensures { Wrote buf.old buf.new at ((association trunk).write a) result }
{
    if a.kind == association_kind::NONE {
        return at;
    }
    if a.kind == association_kind::IDENTIFIER {
        return write_elements::put_id(buf, at, 0x02, a.id);
    }
    put_address(buf, at, 0xa0, a)
}
