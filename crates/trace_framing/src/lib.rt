// The framing of layer 3 messages, and of a trace of them.
//
// A trace is two slices: the octets of all messages end to end, and for each message a pair of length and direction (0 the user, any other the network).
#![tactic(auto)]

ghost use Rattle.std.specs.Prelude.{◌≡◌, true, ◌≤◌, ◌<◌, ◌/◌, length};
ghost use Rattle.trace_framing.specs.Framing.{element_end, fit_from, headed, framed, lengths_fit, lengths_add_up, messages_of, first_unframed, numbered, verdict_of};

use coding::refusal;

// As wide as the answers have them.
const LENGTHS: u64 = refusal::LENGTHS as u64;

const FRAMING: u64 = refusal::FRAMING as u64;

// number: 0, 48 or 49. message: with 49 the number of the first message that is not framed, from 1.
#[repr(C)]
#[derive(Drop)]
pub struct TraceVerdict {
    pub number: u64,
    pub message: u64,
}

// ---- one message

// The place after the element at a place, or one past the end where it does not fit.
pub fn element_end(s: &[u8], at: usize) -> usize
    requires { at < length s.now }
    ensures { result ≡ element_end s.now at }
{
    if s[at] >= 0x80 {
        return at + 1;
    }
    match s.get(at + 1) {
        Some(&n) => at + 2 + usize::from(n),
        None => at + 2,
    }
}

// Whether elements fill the octets from a place to the exact end.
fn elements_fit(s: &[u8], start: usize) -> bool
    requires { start ≤ length s.now }
    ensures { result ≡ fit_from s.now start }
{
    let end = s.len();
    let mut at = start;
    while at < end {
        let next = element_end(s, at);
        if end < next {
            return false;
        }
        at = next;
    }
    true
}

fn is_headed(s: &[u8]) -> bool
    ensures { result ≡ headed s.now }
{
    s.len() >= 3 && (s[0] == 0x08 && (s[1] <= 2 && 3 + octets::wide(s[1]) <= s.len()))
}

#[tactic(auto, unfolding(crate::specs::Framing::framed))]
fn is_framed(s: &[u8]) -> bool
    ensures { result ≡ framed s.now }
{
    is_headed(s) && elements_fit(s, 3 + octets::wide(s[1]))
}

// ---- a trace

pub fn size(n: u32) -> usize
    ensures { result ≡ n }
{
    n as usize
}

fn lengths_fit(pairs: &[u32], total: usize) -> bool
    ensures { result ≡ lengths_fit pairs.now 0 (length pairs.now / 2) total }
{
    let mut left = total;
    for i in 0..pairs.len() / 2 {
        let count = size(pairs[i * 2]);
        if left < count {
            return false;
        }
        left -= count;
    }
    left == 0
}

#[tactic(auto, unfolding(crate::specs::Framing::lengths_add_up))]
fn adds_up(pairs: &[u32], total: usize) -> bool
    ensures { result ≡ lengths_add_up pairs.now total }
{
    pairs.len() % 2 == 0 && lengths_fit(pairs, total)
}

// The number of the first message that is not framed, from 1.
fn first_unframed(pairs: &[u32], octets: &[u8]) -> Option<usize>
    requires { lengths_add_up pairs.now (length octets.now) ≡ true }
    ensures { result ≡ numbered (first_unframed 1 (messages_of pairs.now octets.now)) }
{
    let mut at: usize = 0;
    for i in 0..pairs.len() / 2 {
        let end = at + size(pairs[i * 2]);
        if !is_framed(&octets[at..end]) {
            return Some(i + 1);
        }
        at = end;
    }
    None
}

pub fn judge(pairs: &[u32], octets: &[u8]) -> TraceVerdict
    ensures { result ≡ verdict_of pairs.now octets.now }
{
    if !adds_up(pairs, octets.len()) {
        return TraceVerdict {
            number: LENGTHS,
            message: 0,
        };
    }
    match first_unframed(pairs, octets) {
        None => TraceVerdict {
            number: 0,
            message: 0,
        },
        Some(n) => TraceVerdict {
            number: FRAMING,
            message: n as u64,
        },
    }
}
