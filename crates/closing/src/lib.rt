// Whether a closing figure is in range. A host hands it over, so that it may hold anything.
#![tactic(auto)]

ghost use Rattle.std.specs.Prelude.{◌≡◌, ◌≤◌};
ghost use Rattle.types.specs.Arguments.{charge_of};
ghost use Rattle.closing.specs.Range.{closing_service, operation_of, in_range};

use coding::refusal;
use requests::closing_service;
use types::{Charge, Front, Record, charge_kind, frame, operation};

const BAD_RECORD: u32 = refusal::BAD_RECORD as u32;

fn is_closing(service: u32) -> bool
    ensures { result ≡ closing_service service }
{
    service == closing_service::D || service == closing_service::E
}

// The operation that hands over a figure of D, or else of E.
fn operation_of(service: u32, kind: u8) -> u8
    ensures { result ≡ operation_of service kind }
{
    if service == closing_service::D {
        if kind == charge_kind::UNITS {
            return operation::D_UNITS;
        }
        return operation::D_CURRENCY;
    }
    if kind == charge_kind::UNITS {
        return operation::E_UNITS;
    }
    operation::E_CURRENCY
}

// Whether a charge may be written as the argument of an operation: with no room at all, the writer refuses an invoke of it otherwise than by 10.
fn argument_fine(c: Charge, operation: u8) -> bool
    requires { (31 ≤ operation) × (operation ≤ 36) }
    ensures { result ≡ (charge_of operation).valid c }
{
    let invoke = Record {
        front: Front {
            frame: frame::INVOKE,
            unnamed: 0,
            id: 0,
            operation,
            error: 0,
            problem: 0,
            detail: 0,
        },
        charge: c,
    };
    let mut none: [u8; 0] = [];
    let w = write::write(invoke, &mut none);
    w.number != BAD_RECORD
}

pub fn in_range(service: u32, c: Charge) -> bool
    ensures { result ≡ in_range service c }
{
    let kind = c.figure.kind;
    is_closing(service)
        && (kind != charge_kind::NONE && argument_fine(c, operation_of(service, kind)))
}
