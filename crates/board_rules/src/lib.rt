// The slots of a switchboard: 64 accounts by call reference, and what an operation does to one slot, by value.
//
// A slot is free, or held by one reference with one account. A call's slot is freed when what it closed with has been collected.
// The crate board has the caller's table and changes it by these functions.
#![tactic(auto)]

ghost use Rattle.std.specs.Prelude.{◌+◌, ◌≡◌, ◌<◌, IfSome};
ghost use Rattle.account.specs.History.{fresh, fresh_status};
ghost use Rattle.phases.specs.inner.ByNumber.{moving_of};
ghost use Rattle.board_rules.specs.Board.{uncollected};
ghost use Rattle.board_rules.specs.inner.ByValue.{slot_with, Inside, seat_of, taken_up, free_of};

use account::{Account, Closing};
use coding::refusal;
use phases::{Event, Moving, Outcome};
use requests::closing_service;

// As wide as the answers have them.
const NOT_HELD: u32 = refusal::NOT_HELD as u32;

const WRONG_PHASE: u32 = refusal::WRONG_PHASE as u32;

// A key is 0 where the slot is free, else one more than the reference that holds it.
#[repr(C)]
#[derive(Drop)]
pub struct Board {
    pub keys: [u32; 64],
    pub calls: [Account; 64],
}

// The answer to a collection. number: 0, 14 or 37; refused, there is no closing figure.
#[repr(C)]
#[derive(Drop)]
pub struct Collected {
    pub number: u32,
    pub closing: Closing,
}

// The answer to a reading. number: 0, or 37 with an account of zeros.
#[repr(C)]
#[derive(Drop)]
pub struct Viewed {
    pub number: u32,
    pub account: Account,
}

// Where an event goes: a free slot for a Setup, the slot that its reference holds for another event, or nowhere, with the number by which it is refused.
#[derive(Drop)]
pub enum Seat {
    Free(usize),
    Own(usize),
    Refused(u8),
}

// What a slot holds after a Setup, with the Setup's outcome.
#[derive(Drop)]
pub struct Held {
    pub outcome: Outcome,
    pub key: u32,
    pub account: Account,
}

// What a slot holds after a collection, with the collection's answer.
#[derive(Drop)]
pub struct Freed {
    pub answer: Collected,
    pub key: u32,
    pub account: Account,
}

// ---- which slot

// The lowest slot with a key, if one has it.
pub fn slot_of(keys: [u32; 64], key: u32) -> Option<usize>
    ensures which { result ≡ slot_with key keys }
    ensures inside { IfSome result (λ i. i < 64) }
{
    keys.iter().position(|&held| key == held)
}

fn key_of(reference: u16) -> u32
    ensures { result ≡ reference + 1 }
{
    reference as u32 + 1
}

// The slot that a reference holds, if it holds one.
pub fn slot_at(keys: [u32; 64], reference: u16) -> Option<usize>
    ensures which { result ≡ slot_with (reference + 1) keys }
    ensures inside { IfSome result (λ i. i < 64) }
{
    slot_of(keys, key_of(reference))
}

// A call's first event, where it is no component.
fn begin(e: Event) -> Moving
    ensures { result ≡ moving_of fresh_status e }
{
    phases::phase_step(phases::bare(phases::IDLE), e)
}

// 35, 36 and 37 come before 01's checks.
#[tactic(auto, unfolding(crate::specs::inner::ByValue::seat_of))]
pub fn seat_of(keys: [u32; 64], reference: u16, e: Event) -> Seat
    ensures which { result ≡ seat_of keys reference e }
    ensures inside { Inside result }
{
    let own = slot_at(keys, reference);
    if e.kind != phases::SETUP {
        return match own {
            Some(at) => Seat::Own(at),
            None => Seat::Refused(refusal::NOT_HELD),
        };
    }
    if own.is_some() {
        return Seat::Refused(refusal::IN_USE);
    }
    let Some(at) = slot_of(keys, 0) else {
        return Seat::Refused(refusal::FULL);
    };
    match begin(e).outcome.number {
        0 => Seat::Free(at),
        number => Seat::Refused(number),
    }
}

// ---- what a slot holds then

// A Setup on a fresh account, which the reference holds.
#[tactic(auto, unfolding(crate::specs::inner::ByValue::taken_up))]
pub fn taken_up(reference: u16, e: Event) -> Held
    ensures { result ≡ taken_up reference e }
{
    let m = begin(e);
    let mut account = account::fresh();
    account.status = m.status;
    Held {
        outcome: m.outcome,
        key: key_of(reference),
        account,
    }
}

fn uncollected(number: u32) -> Collected
    ensures { result ≡ uncollected number }
{
    let closing = account::closing_figure(closing_service::NONE, account::no_charge());
    Collected { number, closing }
}

// A collection for a reference that holds no slot.
pub fn not_collected() -> Collected
    ensures { result ≡ uncollected 37 }
{
    uncollected(NOT_HELD)
}

// A collection of the call in a slot.
#[tactic(auto, unfolding(crate::specs::inner::ByValue::free_of))]
pub fn free(a: Account, key: u32) -> Freed
    ensures { result ≡ free_of a key }
{
    if a.status.phase != phases::ENDED {
        return Freed {
            answer: uncollected(WRONG_PHASE),
            key,
            account: a,
        };
    }
    let closing = account::closing_of(a);
    Freed {
        answer: Collected { number: 0, closing },
        key: 0,
        account: account::fresh(),
    }
}

// A reading for a reference that holds no slot.
pub fn not_viewed() -> Viewed
    ensures { result ≡ record { number = 37; account = fresh } }
{
    Viewed {
        number: NOT_HELD,
        account: account::fresh(),
    }
}

// A reading of the call in a slot.
pub fn view(account: Account) -> Viewed
    ensures { result ≡ record { number = 0; account = account } }
{
    Viewed { number: 0, account }
}
