// The C library: every function that a host calls. include/aoc.h says each one's promise in words.
//
// Each is thin: it hands on what it is handed, and promises what the function that it calls promises.
#![tactic(auto)]

ghost use Rattle.std.specs.Prelude.{◌≡◌, [], false, ◌&&◌, ◌||◌, ℕ, ◌*◌, ◌≤◌, get_or, length, eqb};
ghost use Rattle.std.specs.Int.{w16};
ghost use Rattle.std.proofs.Common.{to_z};
ghost use Rattle.types.specs.Frames.{read_of};
ghost use Rattle.read.specs.Whole.{whole_answer};
ghost use Rattle.write.specs.Outcome.{write_of, left_of};
ghost use Rattle.reply.specs.Reply.{reply_of, reply_left};
ghost use Rattle.element_pass.specs.Pass.{pass_with, pass_of, whole_next};
ghost use Rattle.trunk_types.specs.Stored.{Spare};
ghost use Rattle.profile_read.specs.Profile.{read_by, left_line, left_trunk, either_in};
ghost use Rattle.profile_pass.specs.Passing.{families, next_in};
ghost use Rattle.profile_reply.specs.Replies.{reply_profile, left_profile};
ghost use Rattle.types.specs.Stored.{stored_charge};
ghost use Rattle.trunk_write.specs.Outcome.{lent_trunk};
ghost use Rattle.profile_write.specs.Writes.{lent_line, write_by, left_by};
ghost use Rattle.types.specs.Thousandths.{powers};
ghost use Rattle.requests.specs.Identifiers.{next_of, one_up};
ghost use Rattle.requests.specs.Sets.{empty_set, is_service, has, with};
ghost use Rattle.why_rules.specs.Reasons.{why_of};
ghost use Rattle.fault.specs.Rules.{fault_at};
ghost use Rattle.phases.specs.Phases.{Connect, Clear, Released, Component, Suspend, Resume};
ghost use Rattle.account.specs.History.{judged, current_rate, running, closing, marks, phase, requests, stepped, fresh, pending_of};
ghost use Rattle.outcomes.specs.Status.{requests_of};
ghost use Rattle.account.specs.Step.{closing_of, marks_of};
ghost use Rattle.account.specs.Events.{plain_event, setup_event, Took};
ghost use Rattle.aoc.specs.Reading.{ReadsOff};
ghost use Rattle.price.specs.Price.{price_of};
ghost use Rattle.board_rules.specs.Board.{boarded, event_on, emptied, collect_on, view_on};
ghost use Rattle.month_rules.specs.Month.{empty_month};
ghost use Rattle.month.specs.Add.{add_of};
ghost use Rattle.trace.specs.Into.{laid_of, rows_left, octets_left};
ghost use Rattle.plain.specs.Answers.{plain_outcome, plain_phase, plain_pending, plain_current_rate, plain_running, plain_closing, plain_marks};
ghost use Rattle.element_write.specs.Round.{element_into, element_by};

// ---- the version

// What the header says as AOC_VERSION, of the archive that a host is linked with.
#[unsafe(no_mangle)]
pub extern "C" fn aoc_version() -> u32
    ensures { result ≡ 50002 }
{
    50002
}

// The number in its name is the layout's. The header's inline functions mention it, so that an archive with another layout is not linked.
#[unsafe(no_mangle)]
pub extern "C" fn aoc_layout_5() -> u32
    ensures { result ≡ 5 }
{
    5
}

// ---- components

// A record that is read goes to four parts that are lent, and one that is written comes from its front by value and the other three lent: none is copied.

#[unsafe(no_mangle)]
pub extern "C" fn aoc_read_into(
    octets: &[u8],
    front: &mut [u8; 8],
    figure: &mut [u8; 48],
    numbers: &mut [u32; 32],
    rows: &mut [u8; 192],
) -> read::Refusal
    ensures { whole_answer result front.new figure.new numbers.new rows.new ≡ read_of octets.now }
{
    read::read_into(octets, front, figure, numbers, rows)
}

#[unsafe(no_mangle)]
pub extern "C" fn aoc_write_from(
    f: types::Front,
    figure: &[u8; 48],
    numbers: &[u32; 32],
    rows: &[u8; 192],
    buf: &mut [u8],
) -> write::Written
    ensures value { result ≡ write_of (record { front = f; charge = stored_charge figure.now numbers.now rows.now }) (length buf.old) }
    ensures left { buf.new ≡ left_of (record { front = f; charge = stored_charge figure.now numbers.now rows.now }) buf.old }
{
    write::write_from(f, figure, numbers, rows, buf)
}

#[unsafe(no_mangle)]
pub extern "C" fn aoc_reply(octets: &[u8], buf: &mut [u8]) -> write::Written
    ensures value { result ≡ reply_of octets.now (length buf.old) }
    ensures left { buf.new ≡ reply_left octets.now buf.old }
{
    reply::reply(octets, buf)
}

// ---- the Facility element

#[unsafe(no_mangle)]
pub extern "C" fn aoc_next_into(
    octets: &[u8],
    place: usize,
    front: &mut [u8; 8],
    figure: &mut [u8; 48],
    numbers: &mut [u32; 32],
    rows: &mut [u8; 192],
) -> element_pass::Next
    ensures { whole_next result front.new figure.new numbers.new rows.new ≡ pass_of octets.now place }
{
    element_pass::next_into(octets, place, front, figure, numbers, rows)
}

// ---- components with their profile octet: public lines and trunks

#[unsafe(no_mangle)]
pub extern "C" fn aoc_read_by_into(
    profile: u8,
    octets: &[u8],
    front: &mut [u8; 8],
    figure: &mut [u8; 48],
    numbers: &mut [u32; 32],
    rows: &mut [u8; 192],
    trunk_front: &mut [u8; 48],
    extension: &mut [u8; 244],
    trunk_figure: &mut [u8; 48],
    trunk_numbers: &mut [u32; 32],
    trunk_rows: &mut [u8; 192],
) -> profile_read::Judged
    ensures trunk_rows_value { either_in result (left_line front figure numbers rows) (left_trunk trunk_front extension trunk_figure trunk_numbers trunk_rows) ≡ read_by profile octets.now }
    ensures spare { Spare trunk_front.new }
{
    profile_read::read_by(
        profile,
        octets,
        front,
        figure,
        numbers,
        rows,
        trunk_front,
        extension,
        trunk_figure,
        trunk_numbers,
        trunk_rows,
    )
}

#[unsafe(no_mangle)]
pub extern "C" fn aoc_next_by_into(
    octets: &[u8],
    place: usize,
    front: &mut [u8; 8],
    figure: &mut [u8; 48],
    numbers: &mut [u32; 32],
    rows: &mut [u8; 192],
    trunk_front: &mut [u8; 48],
    extension: &mut [u8; 244],
    trunk_figure: &mut [u8; 48],
    trunk_numbers: &mut [u32; 32],
    trunk_rows: &mut [u8; 192],
) -> profile_pass::NextBy
    ensures trunk_rows_value { next_in result (left_line front figure numbers rows) (left_trunk trunk_front extension trunk_figure trunk_numbers trunk_rows) ≡ pass_with families octets.now place }
    ensures spare { Spare trunk_front.new }
{
    profile_pass::next_by(
        octets,
        place,
        front,
        figure,
        numbers,
        rows,
        trunk_front,
        extension,
        trunk_figure,
        trunk_numbers,
        trunk_rows,
    )
}

#[unsafe(no_mangle)]
pub extern "C" fn aoc_write_by_from(
    profile: u8,
    front: &[u8; 8],
    figure: &[u8; 48],
    numbers: &[u32; 32],
    rows: &[u8; 192],
    trunk_front: &[u8; 48],
    extension: &[u8; 244],
    trunk_figure: &[u8; 48],
    trunk_numbers: &[u32; 32],
    trunk_rows: &[u8; 192],
    buf: &mut [u8],
) -> write::Written
    ensures value { result ≡ write_by profile (lent_line front figure numbers rows) (lent_trunk trunk_front extension trunk_figure trunk_numbers trunk_rows) (length buf.old) }
    ensures left { buf.new ≡ left_by profile (lent_line front figure numbers rows) (lent_trunk trunk_front extension trunk_figure trunk_numbers trunk_rows) buf.old }
{
    profile_write::write_by(
        profile,
        front,
        figure,
        numbers,
        rows,
        trunk_front,
        extension,
        trunk_figure,
        trunk_numbers,
        trunk_rows,
        buf,
    )
}

#[unsafe(no_mangle)]
pub extern "C" fn aoc_reply_by(profile: u8, octets: &[u8], buf: &mut [u8]) -> write::Written
    ensures value { result ≡ reply_profile profile octets.now (length buf.old) }
    ensures left { buf.new ≡ left_profile profile octets.now buf.old }
{
    profile_reply::reply_by(profile, octets, buf)
}

// ---- values

#[unsafe(no_mangle)]
pub extern "C" fn aoc_thousandths(number: u32, multiplier: u8) -> u64
    ensures product { result ≡ number * get_or powers multiplier 0 }
    ensures bounded { number ≤ 16777215 → result ≤ 16777215000000 }
{
    amounts::thousandths(number, multiplier)
}

#[unsafe(no_mangle)]
pub extern "C" fn aoc_next_identifier(id: u16) -> u16
    ensures pattern { result ≡ next_of id }
    ensures number { to_z w16 result ≡ one_up (to_z w16 id) }
{
    requests::next_identifier(id)
}

#[unsafe(no_mangle)]
pub extern "C" fn aoc_three_identifiers(last: u16) -> requests::Three
    ensures which { result ≡ record { s = next_of last; d = next_of (next_of last); e = next_of (next_of (next_of last)) } }
    ensures differ { (result.s ≡ result.d → ⊥) × (result.s ≡ result.e → ⊥) × (result.d ≡ result.e → ⊥) }
{
    requests::three_identifiers(last)
}

#[unsafe(no_mangle)]
pub extern "C" fn aoc_no_services() -> requests::Services
    ensures set { result ≡ empty_set }
    ensures members { (u : ℕ) → has result u ≡ false }
{
    requests::Services::empty()
}

#[unsafe(no_mangle)]
pub extern "C" fn aoc_with_service(set: requests::Services, service: u8) -> requests::Services
    ensures set { result ≡ with set service }
    ensures members { (u : ℕ) → has result u ≡ is_service u && eqb service u || has set u }
{
    set.with(service)
}

#[unsafe(no_mangle)]
pub extern "C" fn aoc_has_service(set: requests::Services, service: u8) -> bool
    ensures { result ≡ has set service }
{
    set.has(service)
}

// ---- one call's account

#[unsafe(no_mangle)]
pub extern "C" fn aoc_fresh() -> account::Account
    ensures { result ≡ fresh }
{
    account::fresh()
}

#[unsafe(no_mangle)]
pub extern "C" fn aoc_step(
    a: &mut account::Account,
    e: phases::Event,
    octets: &[u8],
) -> phases::Outcome
    ensures { Took a.old e octets.now (stepped result a.new) }
{
    step::step_in(a, e, octets)
}

// The events, one function for each: it makes the event and hands it to the step, with no octets where it has none.

#[unsafe(no_mangle)]
pub extern "C" fn aoc_setup(
    a: &mut account::Account,
    asked: requests::Services,
    ids: requests::Three,
) -> phases::Outcome
    ensures { Took a.old (setup_event asked ids) [] (stepped result a.new) }
{
    let e = account::setup_event(asked, ids);
    step::step_in(a, e, &[])
}

#[unsafe(no_mangle)]
pub extern "C" fn aoc_connect(a: &mut account::Account) -> phases::Outcome
    ensures { Took a.old (plain_event Connect) [] (stepped result a.new) }
{
    let e = account::plain_event(phases::CONNECT);
    step::step_in(a, e, &[])
}

#[unsafe(no_mangle)]
pub extern "C" fn aoc_clear(a: &mut account::Account) -> phases::Outcome
    ensures { Took a.old (plain_event Clear) [] (stepped result a.new) }
{
    let e = account::plain_event(phases::CLEAR);
    step::step_in(a, e, &[])
}

#[unsafe(no_mangle)]
pub extern "C" fn aoc_released(a: &mut account::Account) -> phases::Outcome
    ensures { Took a.old (plain_event Released) [] (stepped result a.new) }
{
    let e = account::plain_event(phases::RELEASED);
    step::step_in(a, e, &[])
}

#[unsafe(no_mangle)]
pub extern "C" fn aoc_suspend(a: &mut account::Account) -> phases::Outcome
    ensures { Took a.old (plain_event Suspend) [] (stepped result a.new) }
{
    let e = account::plain_event(phases::SUSPEND);
    step::step_in(a, e, &[])
}

#[unsafe(no_mangle)]
pub extern "C" fn aoc_resume(a: &mut account::Account) -> phases::Outcome
    ensures { Took a.old (plain_event Resume) [] (stepped result a.new) }
{
    let e = account::plain_event(phases::RESUME);
    step::step_in(a, e, &[])
}

#[unsafe(no_mangle)]
pub extern "C" fn aoc_component(a: &mut account::Account, octets: &[u8]) -> phases::Outcome
    ensures { Took a.old (plain_event Component) octets.now (stepped result a.new) }
{
    let e = account::component_event();
    step::step_in(a, e, octets)
}

// Reading off.

#[unsafe(no_mangle)]
pub extern "C" fn aoc_rate_of(a: &account::Account) -> types::Charge
    ensures { ReadsOff a.now a.now.rate (λ h. current_rate (judged h)) result }
{
    account::rate_of(*a)
}

#[unsafe(no_mangle)]
pub extern "C" fn aoc_running_of(a: &account::Account) -> types::Charge
    ensures { ReadsOff a.now a.now.running (λ h. running (judged h)) result }
{
    account::running_of(*a)
}

#[unsafe(no_mangle)]
pub extern "C" fn aoc_closing_of(a: &account::Account) -> account::Closing
    ensures { ReadsOff a.now (closing_of a.now) (λ h. closing (judged h)) result }
{
    account::closing_of(*a)
}

#[unsafe(no_mangle)]
pub extern "C" fn aoc_marks_of(a: &account::Account) -> account::Marks
    ensures { ReadsOff a.now (marks_of a.now) (λ h. marks (judged h)) result }
{
    account::marks_of(*a)
}

#[unsafe(no_mangle)]
pub extern "C" fn aoc_pending_of(a: &account::Account) -> account::Pending
    ensures { ReadsOff a.now (pending_of (requests_of a.now.status)) (λ h. pending_of (requests (judged h))) result }
{
    account::pending_of(*a)
}

#[unsafe(no_mangle)]
pub extern "C" fn aoc_phase_of(a: &account::Account) -> u8
    ensures { ReadsOff a.now a.now.status.phase (λ h. phase (judged h)) result }
{
    account::phase_of(*a)
}

// ---- event lists

#[unsafe(no_mangle)]
pub extern "C" fn aoc_why(rows: &[u16], octets: &[u8]) -> why_rules::Reason
    ensures { result ≡ why_of rows.now octets.now }
{
    why::why(rows, octets)
}

// ---- closing figures

#[unsafe(no_mangle)]
pub extern "C" fn aoc_price(c: account::Closing) -> price::Priced
    ensures { result ≡ price_of c.service c.value }
{
    let charge = c.value;
    price::price(c.service, charge)
}

// ---- the switchboard

#[unsafe(no_mangle)]
pub extern "C" fn aoc_board_event(
    t: &mut board_rules::Board,
    reference: u16,
    e: phases::Event,
    octets: &[u8],
) -> phases::Outcome
    ensures { boarded result t.new ≡ event_on t.old reference e octets.now }
{
    board::event_in(t, reference, e, octets)
}

#[unsafe(no_mangle)]
pub extern "C" fn aoc_board_collect(
    t: &mut board_rules::Board,
    reference: u16,
) -> board_rules::Collected
    ensures { emptied result t.new ≡ collect_on t.old reference }
{
    board::collect_in(t, reference)
}

#[unsafe(no_mangle)]
pub extern "C" fn aoc_board_view(t: &board_rules::Board, reference: u16) -> board_rules::Viewed
    ensures { result ≡ view_on t.now reference }
{
    board::view_in(t, reference)
}

// ---- whether the exchange kept the rules

#[unsafe(no_mangle)]
pub extern "C" fn aoc_fault(rows: &[u16], octets: &[u8]) -> fault_rules::FaultAnswer
    ensures { result ≡ fault_at rows.now octets.now }
{
    fault::fault(rows, octets)
}

// ---- a month's figures

#[unsafe(no_mangle)]
pub extern "C" fn aoc_month_empty() -> month_rules::Month
    ensures { result ≡ empty_month }
{
    month_rules::empty_month()
}

#[unsafe(no_mangle)]
pub extern "C" fn aoc_month_add(m: month_rules::Month, c: account::Closing) -> month_rules::Added
    ensures { result ≡ add_of m c.service c.value }
{
    let charge = c.value;
    month::add(m, c.service, charge)
}

// ---- whole messages, and the plain engine

#[unsafe(no_mangle)]
pub extern "C" fn aoc_trace_events(
    pairs: &[u32],
    octets: &[u8],
    rows: &mut [u16],
    out: &mut [u8],
) -> trace::Laid
    ensures value { result ≡ laid_of pairs.now octets.now (length rows.old) (length out.old) }
    ensures rows { rows.new ≡ rows_left pairs.now octets.now rows.old out.old }
    ensures out { out.new ≡ octets_left pairs.now octets.now rows.old out.old }
{
    trace::events_into(pairs, octets, rows, out)
}

#[unsafe(no_mangle)]
pub extern "C" fn aoc_plain_outcome(rows: &[u16], octets: &[u8], k: usize) -> plain::PlainOutcome
    ensures { result ≡ plain_outcome rows.now octets.now k }
{
    plain::outcome(rows, octets, k)
}

#[unsafe(no_mangle)]
pub extern "C" fn aoc_plain_phase(rows: &[u16], octets: &[u8]) -> plain::PlainPhase
    ensures { result ≡ plain_phase rows.now octets.now }
{
    plain::phase(rows, octets)
}

#[unsafe(no_mangle)]
pub extern "C" fn aoc_plain_pending(rows: &[u16], octets: &[u8]) -> plain::PlainPending
    ensures { result ≡ plain_pending rows.now octets.now }
{
    plain::pending(rows, octets)
}

#[unsafe(no_mangle)]
pub extern "C" fn aoc_plain_rate(rows: &[u16], octets: &[u8]) -> plain::PlainCharge
    ensures { result ≡ plain_current_rate rows.now octets.now }
{
    plain::rate(rows, octets)
}

#[unsafe(no_mangle)]
pub extern "C" fn aoc_plain_running(rows: &[u16], octets: &[u8]) -> plain::PlainCharge
    ensures { result ≡ plain_running rows.now octets.now }
{
    plain::running(rows, octets)
}

#[unsafe(no_mangle)]
pub extern "C" fn aoc_plain_closing(rows: &[u16], octets: &[u8]) -> plain::PlainClosing
    ensures { result ≡ plain_closing rows.now octets.now }
{
    plain::closing(rows, octets)
}

#[unsafe(no_mangle)]
pub extern "C" fn aoc_plain_marks(rows: &[u16], octets: &[u8]) -> plain::PlainMarks
    ensures { result ≡ plain_marks rows.now octets.now }
{
    plain::marks(rows, octets)
}

// ---- a Facility element, written

#[unsafe(no_mangle)]
pub extern "C" fn aoc_write_element(octets: &[u8], buf: &mut [u8]) -> write::Written
    ensures { (result, buf.new) ≡ element_into octets.now buf.old }
{
    element_write::element_into(octets, buf)
}

#[unsafe(no_mangle)]
pub extern "C" fn aoc_write_element_by(profile: u8, octets: &[u8], buf: &mut [u8]) -> write::Written
    ensures { (result, buf.new) ≡ element_by profile octets.now buf.old }
{
    element_write::element_by(profile, octets, buf)
}
