// A switchboard: a table of 64 accounts by call reference in the caller's memory, changed in place.
//
// Which slot an operation goes to and what is in it then is found by value, in the crate board_rules.
#![tactic(auto)]

ghost use Rattle.std.specs.Prelude.{◌≡◌};
ghost use Rattle.board_rules.specs.Board.{boarded, event_on, emptied, collect_on, view_on};

use board_rules::{Board, Collected, Seat, Viewed};
use phases::{Event, Outcome};

// An event of a reference. If it is refused, nothing is stored. If the reference holds a slot, the step updates the account there.
pub fn event_in(t: &mut Board, reference: u16, e: Event, octets: &[u8]) -> Outcome
    ensures { boarded result t.new ≡ event_on t.old reference e octets.now }
{
    match board_rules::seat_of(t.keys, reference, e) {
        Seat::Own(at) => step::step_in(&mut t.calls[at], e, octets),
        Seat::Refused(number) => phases::no_service(number),
        Seat::Free(at) => {
            let w = board_rules::taken_up(reference, e);
            t.calls[at] = w.account;
            t.keys[at] = w.key;
            w.outcome
        }
    }
}

// A collection: the closing figure, or its lack, once the call has ended; the slot is free then.
pub fn collect_in(t: &mut Board, reference: u16) -> Collected
    ensures { emptied result t.new ≡ collect_on t.old reference }
{
    match board_rules::slot_at(t.keys, reference) {
        None => board_rules::not_collected(),
        Some(at) => {
            let w = board_rules::free(t.calls[at], t.keys[at]);
            t.calls[at] = w.account;
            t.keys[at] = w.key;
            w.answer
        }
    }
}

// A reading of the call that a reference holds.
pub fn view_in(t: &Board, reference: u16) -> Viewed
    ensures { result ≡ view_on t.now reference }
{
    match board_rules::slot_at(t.keys, reference) {
        None => board_rules::not_viewed(),
        Some(at) => board_rules::view(t.calls[at]),
    }
}
