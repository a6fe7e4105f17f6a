// Takes one event of a call and stores what it changes in the account, in place or in a returned copy.
#![tactic(auto)]

ghost use Rattle.std.specs.Prelude.{◌≡◌, List};
ghost use Rattle.phases.specs.Phases.{Given, event};
ghost use Rattle.account.specs.History.{judged, account_by, stepped, stepped_by};
ghost use Rattle.account.specs.Step.{put, stepped_of};
ghost use Rattle.account.specs.Events.{Took};

use account::{Account, Change, Stepped};
use outcomes::Place;
use phases::{Event, Outcome};

// Stores what an event changes.
fn put(a: &mut Account, w: &Change)
    ensures { a.new ≡ put a.old w.now }
{
    a.status = w.status;
    match w.place {
        Some(Place::Rate) => a.rate = w.charge,
        Some(Place::Running) => a.running = w.charge,
        Some(Place::FinalOfD) => a.dfinal = w.charge,
        Some(Place::FinalOfE) => a.efinal = w.charge,
        None => {}
    }
}

// The account is the host's, and the step updates it there.
pub fn step_in(a: &mut Account, e: Event, octets: &[u8]) -> Outcome
    ensures { Took a.old e octets.now (stepped result a.new) }
{
    let w = step_rules::step(*a, e, octets);
    put(a, &w);
    w.outcome
}

// The same of an account by value.
pub fn step_whole(mut a: Account, e: Event, octets: &[u8]) -> Stepped
    ensures one { result ≡ stepped_of a e octets.now }
    ensures rules { (h : List Given) → a ≡ account_by (judged h) → result ≡ stepped_by (event e octets.now) h }
{
    let outcome = step_in(&mut a, e, octets);
    Stepped {
        outcome,
        account: a,
    }
}
