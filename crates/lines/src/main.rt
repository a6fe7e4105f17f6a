// Reads lines of two-digit hex octets parted by single spaces, and prints for each the shortest form of the component that it
// holds, `refused N`, or `bad line`.
//
// Proved: every function is safe and ends. `all` writes `output_of` what it reads (lines_rules/specs/Lines.antt), whole and in order,
// however the input comes in parts and however long its lines are; where a read or a write fails, it has written the start of that,
// and `errors` has got the start of the text that says which, and nothing else.
// This holds of every reader that says what octets it has left, and every writer that says what octets it holds.
// Not proved, since no contract can say what the system reads or writes: that standard input and output are such a reader and writer.
// tests/lines.sh compares what goes out with the second program.
#![tactic(auto)]

ghost use Rattle.std.specs.Prelude.{◌≡◌, true, false, [], ◌+◌, ◌≤◌, ◌<◌, length, take, IfSome};
ghost use Rattle.std.specs.Io.KnownBytes.{Appends, Keeps};
ghost use Rattle.coding.specs.inner.Written.{Wrote};
ghost use Rattle.lines_rules.specs.Lines.{text_for, output_of};
ghost use Rattle.lines_rules.specs.inner.Machine.{answer_text, state, turns, ended};
ghost use Rattle.lines.specs.inner.Ran.{Ran, Carried, Begun, no_output, Says, Told, Passed, Closed};

use lines_rules::{Line, line_phase};
use std::io::{Read, Write};

// The answer to the octets of a line.
fn answer_to(octets: &[u8], out: &mut [u8; 65536], from: usize) -> usize
    requires { from ≤ 64774 }
    ensures wrote { Wrote out.old out.new from (text_for octets.now) result }
    ensures upper_bound { result ≤ from + 762 }
{
    let mut lent = [0u8; 8];
    let mut figure = [0u8; 48];
    let mut numbers = [0u32; 32];
    let mut rows = [0u8; 192];
    let a = read::read_into(octets, &mut lent, &mut figure, &mut numbers, &mut rows);
    let number = a.number;
    if number != 0 {
        return lines_rules::put_refused(number, out, from);
    }
    let front = types_parts::front_of(&lent);
    let mut form = [0u8; 254];
    let w = write::write_from(front, &figure, &numbers, &rows, &mut form);
    let refusal = w.number;
    if refusal != 0 {
        return lines_rules::put_refused(refusal, out, from);
    }
    let n = w.count as usize;
    lines_rules::put_octets(&form, n, out, from)
}

// The answer to a line that ends here.
fn answer(l: Line, octets: &[u8], out: &mut [u8; 65536], from: usize) -> usize
    requires { from ≤ 64774 }
    ensures wrote { Wrote out.old out.new from (answer_text l octets.now) result }
    ensures upper_bound { result ≤ from + 762 }
{
    if !lines_rules::is_whole(l) {
        return lines_rules::put_bad(out, from);
    }
    let n = l.count;
    if octets.len() < n {
        return lines_rules::put_refused(3, out, from);
    }
    answer_to(&octets[..n], out, from)
}

#[derive(Drop)]
struct Done {
    line: Line,
    at: usize,
    used: usize,
}

// Goes through a text from a place on, and puts the answers to the lines that end in it into out, until the text ends or out
// may not have the room for one more.
fn run(s: &[u8], from: usize, l: Line, octets: &mut [u8; 254], out: &mut [u8; 65536]) -> Done
    requires { from < length s.now }
    ensures { Ran s.now from l octets.old result octets.new out.old out.new }
{
    let mut at = from;
    let mut line = l;
    let mut used = 0;
    while at < s.len() && used <= 64774 {
        let w = lines_rules::take_line(s, at, line, octets);
        at = w.at;
        line = w.line;
        if w.ended {
            used = answer(line, octets, out, used);
            line = lines_rules::new_line();
        }
    }
    Done { line, at, used }
}

// Writes the first octets of out, and says whether all of them are written. It stops at a write that fails or takes nothing.
fn written<W: Write>(to: &mut W, out: &[u8], used: usize) -> bool
    ensures whole { result ≡ true → Appends (W.contents to.old) (W.contents to.new) (take used out.now) }
    ensures begun { Begun (W.contents to.old) (W.contents to.new) (take used out.now) }
{
    if out.len() < used {
        return false;
    }
    let mut at = 0;
    while at < used {
        match to.write(&out[at..used]) {
            Ok(0) => return false,
            Ok(n) => at += n,
            Err(_) => return false,
        }
    }
    true
}

// Says why the program ends.
fn tell<E: Write>(errors: &mut E, text: &[u8])
    ensures { Begun (E.contents errors.old) (E.contents errors.new) text.now }
{
    written(errors, text, text.len());
}

// A write that fails is reported.
fn put<W: Write, E: Write>(to: &mut W, errors: &mut E, out: &[u8], used: usize) -> bool
    ensures whole { result ≡ true → Appends (W.contents to.old) (W.contents to.new) (take used out.now) }
    ensures begun { Begun (W.contents to.old) (W.contents to.new) (take used out.now) }
    ensures quiet { result ≡ true → Keeps (E.contents errors.old) (E.contents errors.new) }
    ensures says { result ≡ false → Begun (E.contents errors.old) (E.contents errors.new) no_output }
{
    if written(to, out, used) {
        return true;
    }
    tell(errors, b"lines: the output cannot be written\n");
    false
}

// The line that is not ended, whether to go on, and whether all that was read is answered and the answers are written.
#[derive(Drop)]
struct Left {
    line: Line,
    more: bool,
    whole: bool,
}

// Answers the lines that end in a text, and has written all answers when it returns. A write that fails ends the program.
fn chunk<W: Write, E: Write>(
    to: &mut W,
    errors: &mut E,
    s: &[u8],
    l: Line,
    octets: &mut [u8; 254],
    out: &mut [u8; 65536],
) -> Left
    ensures carried { result.more ≡ true → Carried s.now l octets.old result.line octets.new }
    ensures told { result.more ≡ true → Told s.now l octets.old result.line octets.new (W.contents to.old) (W.contents to.new) }
    ensures whole { result.whole ≡ result.more }
    ensures begun { Begun (W.contents to.old) (W.contents to.new) (turns (state l octets.old []) s.now).text }
    ensures quiet { result.more ≡ true → Keeps (E.contents errors.old) (E.contents errors.new) }
    ensures says { result.more ≡ false → Begun (E.contents errors.old) (E.contents errors.new) no_output }
{
    let mut line = l;
    let mut at = 0;
    while at < s.len() {
        let d = run(s, at, line, octets, out);
        let used = d.used;
        line = d.line;
        at = d.at;
        if !put(to, errors, out, used) {
            return Left {
                line,
                more: false,
                whole: false,
            };
        }
    }
    Left {
        line,
        more: true,
        whole: true,
    }
}

// Where no more comes, a line that nothing ended is answered if it has a character.
fn close<W: Write, E: Write>(
    to: &mut W,
    errors: &mut E,
    line: Line,
    octets: &mut [u8; 254],
    out: &mut [u8; 65536],
) -> bool
    ensures whole { result ≡ true → Appends (W.contents to.old) (W.contents to.new) (ended (state line octets.old [])) }
    ensures begun { Begun (W.contents to.old) (W.contents to.new) (ended (state line octets.old [])) }
    ensures quiet { result ≡ true → Keeps (E.contents errors.old) (E.contents errors.new) }
    ensures says { result ≡ false → Begun (E.contents errors.old) (E.contents errors.new) no_output }
{
    if line.phase == line_phase::NEW {
        return true;
    }
    chunk(to, errors, b"\n", line, octets, out).more
}

// Reads once and answers what came. Where no more comes, a line that nothing ended is answered if it has a character. A read
// that fails is reported, and ends the program: the line may go on in what was not read, so it is not answered.
fn once<R: Read, W: Write, E: Write>(
    from: &mut R,
    to: &mut W,
    errors: &mut E,
    line: Line,
    octets: &mut [u8; 254],
    buf: &mut [u8],
    out: &mut [u8; 65536],
) -> Left
    ensures more { result.more ≡ true → Passed (R.remaining from.old) (R.remaining from.new) (W.contents to.old) (W.contents to.new) line octets.old result.line octets.new }
    ensures whole { 0 < length buf.old → result.more ≡ false → result.whole ≡ true → Closed (R.remaining from.old) (R.remaining from.new) (W.contents to.old) (W.contents to.new) line octets.old }
    ensures begun { 0 < length buf.old → IfSome (R.remaining from.old) (λ s. Begun (W.contents to.old) (W.contents to.new) (ended (turns (state line octets.old []) s))) }
    ensures goes_on { result.more ≡ true → result.whole ≡ true }
    ensures quiet { result.whole ≡ true → Keeps (E.contents errors.old) (E.contents errors.new) }
    ensures says { result.whole ≡ false → Says (E.contents errors.old) (E.contents errors.new) }
{
    match from.read(buf) {
        Ok(0) => {
            let whole = close(to, errors, line, octets, out);
            Left {
                line,
                more: false,
                whole,
            }
        }
        Ok(n) => chunk(to, errors, &buf[..n], line, octets, out),
        Err(_) => {
            tell(errors, b"lines: the input cannot be read\n");
            Left {
                line,
                more: false,
                whole: false,
            }
        }
    }
}

// Whether all of the input is read, and all of the answers to it are written. No input takes as many reads as a u64 counts.
fn all<R: Read, W: Write, E: Write>(
    from: &mut R,
    to: &mut W,
    errors: &mut E,
    octets: &mut [u8; 254],
    buf: &mut [u8; 65536],
    out: &mut [u8; 65536],
) -> bool
    ensures whole { result ≡ true → IfSome (R.remaining from.old) (λ s. Appends (W.contents to.old) (W.contents to.new) (output_of s)) }
    ensures begun { IfSome (R.remaining from.old) (λ s. Begun (W.contents to.old) (W.contents to.new) (output_of s)) }
    ensures quiet { result ≡ true → Keeps (E.contents errors.old) (E.contents errors.new) }
    ensures says { result ≡ false → Says (E.contents errors.old) (E.contents errors.new) }
{
    let mut line = lines_rules::new_line();
    for _ in 0..u64::MAX {
        let left = once(from, to, errors, line, octets, buf, out);
        line = left.line;
        if !left.more {
            return left.whole;
        }
    }
    false
}

fn main(rt: HostRuntime) {
    let mut octets = [0u8; 254];
    let mut buf = [0u8; 65536];
    let mut out = [0u8; 65536];
    let _ = all(
        &mut rt.stdin(),
        &mut rt.stdout(),
        &mut rt.stderr(),
        &mut octets,
        &mut buf,
        &mut out,
    );
}
