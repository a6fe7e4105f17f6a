// What reading and writing share: an octet as a number, tests of octets, and octets copied.
#![tactic(auto, using(crate::proofs::Slices::slices))]

ghost use Rattle.std.specs.Prelude.{◌≤◌, ◌<◌, ◌≡◌, ◌&&◌, length, take, replicate, eqb, ltb};
ghost use Rattle.coding.specs.Reader.{part};
ghost use Rattle.coding.specs.Codec.{same_list};
ghost use Rattle.coding.specs.Contents.{every};
ghost use Rattle.coding.specs.inner.Written.{Wrote, Room};

// ---- as numbers

// An octet as a number.
pub fn wide(x: u8) -> usize
    ensures value { result ≡ x }
    ensures small { result < 256 }
{
    usize::from(x)
}

pub fn wide32(x: u8) -> u32
    ensures { result ≡ x }
{
    u32::from(x)
}

// ---- tests

// Whether the octets from a place up to another are below a limit.
pub fn below(s: &[u8], from: usize, to: usize, limit: u8) -> bool
    requires { (from ≤ to) × (to ≤ length s.now) }
    ensures { result ≡ every (λ x. ltb x limit) (part s.now from to) }
{
    s[from..to].iter().all(|&x| x < limit)
}

// Whether all are the same value x. The loop has no way out but its end: several octets are then tested at a time.
pub fn all_are<T: PartialEq + Copy>(s: &[T], x: T) -> bool
    ensures { result ≡ same_list T.eq (replicate (length s.now) x) s.now }
{
    let mut same = true;
    for y in s {
        same &= x == *y;
    }
    same
}

// ---- copies

// The first n octets of a string.
pub fn put_octets(buf: &mut [u8], at: usize, s: &[u8], n: usize) -> usize
    requires { (n ≤ length s.now) × Room buf.old at (take n s.now) }
    ensures { Wrote buf.old buf.new at (take n s.now) result }
{
    buf[at..at + n].copy_from_slice(&s[..n]);
    at + n
}
