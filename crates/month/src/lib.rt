// A month's figures per currency: closing figures are added one after another.
//
// The month is handed over by value. A host's memory may hold anything: every value has its answer.
#![tactic(auto)]

ghost use Rattle.std.specs.Prelude.{◌≡◌};
ghost use Rattle.month.specs.Add.{add_of};

use coding::refusal;
use month_rules::{Added, Month};
use types::Charge;

// As wide as the answer has it.
const BAD_RECORD: u64 = refusal::BAD_RECORD as u64;

// A closing figure: its service (2 D, 3 E) and its charge.
pub fn add(m: Month, service: u32, c: Charge) -> Added
    ensures { result ≡ add_of m service c }
{
    if !closing::in_range(service, c) {
        return month_rules::answer(BAD_RECORD, m);
    }
    month_rules::add_figure(m, service, c)
}
