//! What a number is by the rules of libphonenumber, as the port tells it.
ghost use Rattle.std.specs.Prelude.{◌≡◌, IfOk};
ghost use Rattle.phone_engine.specs.Facts.{is_valid_by, kind_by, region_by};

use phone_library::{NumberFacts, facts};
use phone_plans::Plans;
use phone_values::Rules;
use phonenumber::{Facts, PhoneNumber};
use std::alloc::AllocError;

/// The region of a number, its kind, and whether it is valid, by the rules of libphonenumber.
/// Refused only for memory.
pub(crate) fn library_facts(database: &Plans, number: &PhoneNumber) -> Result<Facts, AllocError>
    ensures region { IfOk result
        (λ q. q.region ≡ region_by Rules.Library database.now number.now) }
    ensures kind { IfOk result (λ q. q.kind ≡ kind_by Rules.Library database.now number.now) }
    ensures is_valid { IfOk result
        (λ q. q.is_valid ≡ is_valid_by Rules.Library database.now number.now) }
{
    let NumberFacts {
        region,
        kind,
        is_valid,
    } = facts(database, number)?;
    Ok(Facts {
        region,
        kind,
        is_valid,
    })
}
