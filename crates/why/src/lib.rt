// Why a call has no price: one reason, and the number of an event, from the call's event list.
//
// An account is kept beside the numbers of the events seen, so that each event is checked once.
#![tactic(auto)]

ghost use Rattle.std.specs.Prelude.{◌≡◌, true, length};
ghost use Rattle.types.specs.Frames.{read_of};
ghost use Rattle.events.specs.Events.{adds_up, events_of};
ghost use Rattle.why_rules.specs.Reasons.{is_figure, passed_over, reason_of, why_of};
ghost use Rattle.why.specs.inner.Seeing.{turn_of};

use account::Account;
use coding::refusal;
use phases::{Event, Outcome};
use types::{charge_kind, frame, operation};
use why_rules::{Reason, Seen};

const LENGTHS: u32 = refusal::LENGTHS as u32;

#[repr(C)]
#[derive(Drop)]
struct State {
    pub account: Account,
    pub seen: Seen,
}

// ---- which components count

fn is_figure(octets: &[u8]) -> bool
    ensures { result ≡ is_figure (read_of octets.now).value }
{
    let a = read::read(octets);
    let front = a.value.front;
    let kind = a.value.charge.figure.kind;
    front.frame == frame::INVOKE
        && (events::within(operation::D_CURRENCY, front.operation, operation::E_UNITS)
            && events::within(charge_kind::FREE, kind, charge_kind::UNITS))
}

fn passed_over(o: Outcome, octets: &[u8]) -> bool
    ensures { result ≡ passed_over o octets.now }
{
    if o.number == outcomes::IGNORED {
        return is_figure(octets);
    }
    o.number == outcomes::OUT_OF_PHASE && is_figure(octets)
}

// ---- one event

#[tactic(auto, unfolding(crate::specs::inner::Seeing::turn_of))]
fn turn(t: State, e: Event, octets: &[u8], n: u64) -> State
    ensures { result ≡ turn_of t e octets.now n }
{
    let w = step::step_whole(t.account, e, octets);
    let account = w.account;
    let figure = passed_over(w.outcome, octets);
    let seen = why_rules::seen_next(t.seen, w.outcome, figure, n);
    State { account, seen }
}

// ---- the list

fn explained(rows: &[u16], octets: &[u8]) -> Reason
    requires { adds_up rows.now (length octets.now) ≡ true }
    ensures { result ≡ reason_of (events_of rows.now octets.now) }
{
    let account = account::fresh();
    let seen = Seen {
        efinal: 0,
        dfinal: 0,
        figure: 0,
        absent: 0,
        running: 0,
        refused: 0,
    };
    let mut state = State { account, seen };
    let mut at: usize = 0;
    for i in 0..rows.len() / 6 {
        let end = at + events::count_at(rows, i);
        let e = events::row_at(rows, i);
        state = turn(state, e, &octets[at..end], i as u64 + 1);
        at = end;
    }
    why_rules::concluded(state.account.status.phase, state.seen)
}

// One reason, from an event list in slices.
#[tactic(auto, unfolding(why_rules::specs::Reasons::why_of))]
pub fn why(rows: &[u16], octets: &[u8]) -> Reason
    ensures { result ≡ why_of rows.now octets.now }
{
    if !events::adds_up(rows, octets.len()) {
        return Reason {
            number: LENGTHS,
            reason: 0,
            event: 0,
        };
    }
    explained(rows, octets)
}
