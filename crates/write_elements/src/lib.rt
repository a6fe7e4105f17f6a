// Writes elements into the caller's buffer, and counts their octets.
//
// A writer is given a buffer, a place and what to write. It stores those octets from the place on, changes no other octet, and answers
// the place after them.
#![tactic(auto, using(crate::proofs::Search::stores))]

ghost use Rattle.std.specs.Prelude.{ℕ, ◌+◌, ◌≤◌, ◌<◌, ◌≡◌, [], ◌∷◌, ◌++◌, length, take};
ghost use Rattle.coding.specs.Codec.{prim, length_octets};
ghost use Rattle.coding.specs.Leaves.{identifier, width, digits};
ghost use Rattle.coding.specs.inner.Written.{Wrote, Room, lead, full_number};

// How many octets a shortest number has.
pub fn width_of(n: u32) -> usize
    ensures { result ≡ width n }
{
    let high = 31 - u32::leading_zeros(n / 2 * 2 + 1);
    ((31 * high + 311) / 256) as usize
}

// Tag and shortest length octets.
pub fn put_lead(buf: &mut [u8], at: usize, tag: u8, n: usize) -> usize
    requires { (n < 256) × Room buf.old at (lead tag n) }
    ensures { Wrote buf.old buf.new at (lead tag n) result }
{
    buf[at] = tag;
    if n <= 127 {
        buf[at + 1] = n as u8;
        return at + 2;
    }
    buf[at + 1] = 129;
    buf[at + 2] = n as u8;
    at + 3
}

// The w low octets of a number, high first.
fn put_digits(buf: &mut [u8], at: usize, w: usize, n: u32) -> usize
    requires { (w ≤ 4) × (at + w ≤ length buf.old) }
    ensures { Wrote buf.old buf.new at (digits w n) result }
{
    if w == 0 {
        return at;
    }
    let low = w - 1;
    buf[at] = ((n >> (8 * (low as u32))) % 256) as u8;
    put_digits(buf, at + 1, low, n)
}

// An element that holds a number.
pub fn put_number(buf: &mut [u8], at: usize, tag: u8, n: u32) -> usize
    requires { Room buf.old at (full_number tag n) }
    ensures { Wrote buf.old buf.new at (full_number tag n) result }
{
    let w = width_of(n);
    let p = put_lead(buf, at, tag, w);
    put_digits(buf, p, w, n)
}

// A NULL element's octets.
pub fn put_null(buf: &mut [u8], at: usize, tag: u8) -> usize
    requires { Room buf.old at (lead tag 0) }
    ensures { Wrote buf.old buf.new at (lead tag 0) result }
{
    put_lead(buf, at, tag, 0)
}

// An element of one octet.
fn put_one(buf: &mut [u8], at: usize, tag: u8, x: u8) -> usize
    requires { Room buf.old at (tag ∷ 1 ∷ x ∷ []) }
    ensures { Wrote buf.old buf.new at (tag ∷ 1 ∷ x ∷ []) result }
{
    buf[at] = tag;
    buf[at + 1] = 1;
    buf[at + 2] = x;
    at + 3
}

// An element that holds a number of one octet.
pub fn put_small(buf: &mut [u8], at: usize, tag: u8, x: u8) -> usize
    requires { (x < 128) × Room buf.old at (full_number tag x) }
    ensures { Wrote buf.old buf.new at (full_number tag x) result }
{
    put_one(buf, at, tag, x)
}

// How many octets an identifier's contents have.
pub fn id_width(id: u16) -> usize
    ensures value { result ≡ length (identifier.write id) }
    ensures few { (1 ≤ result) × (result ≤ 2) }
{
    if id < 0x80 {
        return 1;
    }
    if 0xff80 <= id {
        return 1;
    }
    2
}

// An element that holds an identifier.
pub fn put_id(buf: &mut [u8], at: usize, tag: u8, id: u16) -> usize
    requires { Room buf.old at ((prim tag identifier).write id) }
    ensures { Wrote buf.old buf.new at ((prim tag identifier).write id) result }
{
    if id < 0x80 {
        return put_one(buf, at, tag, id as u8);
    }
    if 0xff80 <= id {
        return put_one(buf, at, tag, (id % 256) as u8);
    }
    buf[at] = tag;
    buf[at + 1] = 2;
    buf[at + 2] = (id / 256) as u8;
    buf[at + 3] = (id % 256) as u8;
    at + 4
}

// An element that holds the first n octets of a string.
pub fn put_string(buf: &mut [u8], at: usize, tag: u8, s: &[u8], n: usize) -> usize
    requires n_bound { (n < 256) × (n ≤ length s.now) }
    requires room { Room buf.old at (tag ∷ length_octets n ++ take n s.now) }
    ensures { Wrote buf.old buf.new at (tag ∷ length_octets n ++ take n s.now) result }
{
    let p = put_lead(buf, at, tag, n);
    octets::put_octets(buf, p, s, n)
}

// The size of an element whose contents have n octets.
pub fn element_size(n: usize) -> usize
    requires { n < 256 }
    ensures by_index { (tag : ℕ) → result ≡ length (lead tag n) + n }
    ensures few { (n + 2 ≤ result) × (result ≤ n + 3) }
{
    if n < 128 {
        return n + 2;
    }
    n + 3
}
