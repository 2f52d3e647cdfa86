//! The hint: the region that gives the calling code where a text doesn't tell it.
ghost use Rattle.std.specs.Prelude.{◌≡◌, IfOk};
ghost use Rattle.std.specs.Option.{option_copied};
ghost use Rattle.phone_read.specs.Hints.{hinted, looks_national};

use crate::kinds::{is_general, length_of};
use phone_plans::{Plans, Territory};
use phone_values::Type;
use phone_values::country::Id;
use std::alloc::AllocError;

/// The territory of a hint: the last record with its id; none where there is no such.
pub fn hint_territory(db: &Plans, hint: Option<Id>) -> Option<&Territory>
    ensures { option_copied result ≡ hinted db.now hint }
{
    match hint {
        Some(id) => db.by_id(id.as_str()),
        None => None,
    }
}

/// Whether the digits as they stand look like a number of the territory, and have a possible
/// length.
pub(crate) fn looks_national(territory: &Territory, digits: &str) -> Result<bool, AllocError>
    ensures { IfOk result (λ b. b ≡ looks_national territory.now digits.now) }
{
    let is_general = is_general(territory, digits)?;
    Ok(is_general && length_of(territory, digits.len(), Type::Unknown).is_possible())
}
