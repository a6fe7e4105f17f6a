// The parts of the line program: a line's octets from its characters as they come, and an answer's characters put into a buffer.
#![tactic(auto)]

ghost use Rattle.std.specs.Prelude.{◌≡◌, true, ◌||◌, [], ◌∷◌, ◌+◌, ◌/◌, ◌%◌, ◌≤◌, ◌<◌, length, take, eqb};
ghost use Rattle.coding.specs.inner.Written.{Wrote};
ghost use Rattle.lines_rules.specs.Text.{glyph, hex_text, refused_text, bad_text};
ghost use Rattle.lines_rules.specs.Lines.{digit_of};
ghost use Rattle.lines_rules.specs.inner.Machine.{made_line, new_line, bad_line, step_line, octet_of, step_octets, spaced_line, Heard};

// ---- a line's octets

// What a line ends in so far.
pub mod line_phase {
    // No character yet.
    pub const NEW: u8 = 0;

    pub const SPACE: u8 = 1;

    // The first digit of an octet.
    pub const DIGIT: u8 = 2;

    pub const OCTET: u8 = 3;

    // It is no line of octets, whatever follows.
    pub const BAD: u8 = 4;
}

// What is known of a line that is not ended. count: its octets so far, 255 for 255 or more. high: the first digit's value.
#[derive(Clone, Copy)]
pub struct Line {
    pub count: usize,
    pub phase: u8,
    pub high: u8,
}

fn line_of(count: usize, phase: u8, high: u8) -> Line
    ensures { result ≡ made_line count phase high }
{
    Line { count, phase, high }
}

pub fn new_line() -> Line
    ensures { result ≡ new_line }
{
    line_of(0, line_phase::NEW, 0)
}

fn bad_line() -> Line
    ensures { result ≡ bad_line }
{
    line_of(0, line_phase::BAD, 0)
}

// Whether a line that ends here is well formed.
pub fn is_whole(l: Line) -> bool
    ensures { result ≡ eqb l.phase 0 || eqb l.phase 3 }
{
    l.phase == line_phase::NEW || l.phase == line_phase::OCTET
}

// A hex digit's value, or 16.
#[tactic(auto, using(coding::proofs::Tests::tests), unfolding(crate::specs::Lines::digit_of))]
fn digit(b: u8) -> u8
    ensures { result ≡ digit_of b }
{
    match b {
        b'0'..=b'9' => b - 48,
        b'A'..=b'F' => b - 55,
        b'a'..=b'f' => b - 87,
        _ => 16,
    }
}

fn octet(high: u8, low: u8) -> u8
    ensures { result ≡ octet_of high low }
{
    high % 16 * 16 + low % 16
}

// The line after one more character that is no line end.
#[tactic(auto, using(coding::proofs::Tests::tests), unfolding(crate::specs::inner::Machine::step_line, crate::specs::inner::Machine::step_octets))]
fn fed(l: Line, b: u8, octets: &mut [u8; 254]) -> Line
    ensures value { result ≡ step_line l b }
    ensures octets_after { octets.new ≡ step_octets l b octets.old }
{
    let phase = l.phase;
    let count = l.count;
    if phase == line_phase::BAD {
        return l;
    }
    if phase == line_phase::OCTET {
        if b == b' ' {
            return line_of(count, line_phase::SPACE, 0);
        }
        return bad_line();
    }
    let low = digit(b);
    if 16 <= low {
        return bad_line();
    }
    if phase == line_phase::DIGIT {
        if count < 254 {
            octets[count] = octet(l.high, low);
            return line_of(count + 1, line_phase::OCTET, 0);
        }
        return line_of(255, line_phase::OCTET, 0);
    }
    line_of(count, line_phase::DIGIT, low)
}

// How far a line has come, and whether it ended there.
#[derive(Drop)]
pub struct Went {
    pub line: Line,
    pub at: usize,
    pub ended: bool,
}

fn went_to(line: Line, at: usize, ended: bool) -> Went
    ensures { result ≡ record { line = line; at = at; ended = ended } }
{
    Went { line, at, ended }
}

fn least(a: usize, b: usize) -> usize
    ensures { (result ≤ a) × (result ≤ b) }
{
    if a < b { a } else { b }
}

// A line that awaits a first digit, after k octets with their spaces.
fn spaced(l: Line, k: usize) -> Line
    requires { l.count + k ≤ 254 }
    ensures { result ≡ spaced_line l k }
{
    if k == 0 {
        return l;
    }
    line_of(l.count + k, line_phase::SPACE, 0)
}

// Takes whole octets from a place of s on, each two digits and a space or the line's end, as long as there are such: the
// usual line in one go. What is another character, or a part of an octet, is left to `fed`.
fn take_octets(s: &[u8], from: usize, l: Line, octets: &mut [u8; 254]) -> Went
    requires { (from ≤ length s.now) × (l.phase ≤ 1) × (l.count ≤ 254) }
    ensures heard { Heard s.now from l octets.old result octets.new }
    ensures from_lt_at { result.ended ≡ true → from < result.at }
{
    let count = l.count;
    let most = least((s.len() - from) / 3, 254 - count);
    let mut k = 0;
    let mut at = from;
    while k < most {
        let high = digit(s[at]);
        if 16 <= high {
            break;
        }
        let low = digit(s[at + 1]);
        if 16 <= low {
            break;
        }
        let next = s[at + 2];
        let goes_on = next == b' ';
        if !goes_on {
            if next != b'\n' {
                break;
            }
            octets[count + k] = octet(high, low);
            return went_to(line_of(count + k + 1, line_phase::OCTET, 0), at + 3, true);
        }
        octets[count + k] = octet(high, low);
        k += 1;
        at += 3;
    }
    went_to(spaced(l, k), at, false)
}

// The same where the line awaits a first digit, and else nothing yet.
fn take_ready(s: &[u8], from: usize, l: Line, octets: &mut [u8; 254]) -> Went
    requires { from ≤ length s.now }
    ensures heard { Heard s.now from l octets.old result octets.new }
    ensures from_lt_at { result.ended ≡ true → from < result.at }
{
    if l.phase <= line_phase::SPACE {
        if l.count <= 254 {
            return take_octets(s, from, l, octets);
        }
    }
    went_to(l, from, false)
}

// Goes on from a place of s to just past the line's end, or to the end of s.
pub fn take_line(s: &[u8], from: usize, l: Line, octets: &mut [u8; 254]) -> Went
    requires { from < length s.now }
    ensures heard { Heard s.now from l octets.old result octets.new }
    ensures from_lt_at { from < result.at }
{
    let w = take_ready(s, from, l, octets);
    if w.ended {
        return w;
    }
    let mut at = w.at;
    let mut line = w.line;
    while at < s.len() {
        let b = s[at];
        at += 1;
        if b == b'\n' {
            return went_to(line, at, true);
        }
        line = fed(line, b, octets);
    }
    went_to(line, at, false)
}

// ---- an answer's characters

// Each function puts them into a buffer from a place on, and gives the place after them.
const GLYPHS: [u8; 16] = *b"0123456789ABCDEF";

fn glyph_of(d: u8) -> u8
    requires { d < 16 }
    ensures { result ≡ glyph d }
{
    GLYPHS[d as usize]
}

// An octet's two digits, and what comes after them.
fn put_octet(b: u8, next: u8, out: &mut [u8; 65536], at: usize) -> usize
    requires { at ≤ 65533 }
    ensures { Wrote out.old out.new at (glyph (b / 16) ∷ glyph (b % 16) ∷ next ∷ []) result }
{
    out[at] = glyph_of(b / 16);
    out[at + 1] = glyph_of(b % 16);
    out[at + 2] = next;
    at + 3
}

// The first n octets with single spaces and a line end.
pub fn put_octets(octets: &[u8], n: usize, out: &mut [u8; 65536], from: usize) -> usize
    requires { (n ≤ length octets.now) × (n ≤ 254) × (from ≤ 64774) }
    ensures wrote { Wrote out.old out.new from (hex_text (take n octets.now)) result }
    ensures upper_bound { result ≤ from + 762 }
{
    if n == 0 {
        return from;
    }
    let last = n - 1;
    let mut i = 0;
    let mut at = from;
    while i < last {
        at = put_octet(octets[i], b' ', out, at);
        i += 1;
    }
    put_octet(octets[last], b'\n', out, at)
}

pub fn put_bad(out: &mut [u8; 65536], from: usize) -> usize
    requires { from ≤ 64774 }
    ensures { Wrote out.old out.new from bad_text result }
{
    octets::put_octets(out, from, b"bad line\n", 9)
}

pub fn put_refused(number: u32, out: &mut [u8; 65536], from: usize) -> usize
    requires { (number < 100) × (from ≤ 64774) }
    ensures wrote { Wrote out.old out.new from (refused_text number) result }
    ensures upper_bound { result ≤ from + 11 }
{
    let at = octets::put_octets(out, from, b"refused ", 8);
    let n = number as u8;
    if n < 10 {
        return octets::put_octets(out, at, &[48 + n, b'\n'], 2);
    }
    octets::put_octets(out, at, &[48 + n / 10, 48 + n % 10, b'\n'], 3)
}
