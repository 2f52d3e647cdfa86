//! The carrier of a number.
ghost use Rattle.std.specs.Prelude.{◌≡◌, IfOk, true, false, []};
ghost use Rattle.phone_languages.specs.Atlases.{IsCarrier};
ghost use Rattle.phone_library.specs.Facts.{kind_of_number};
ghost use Rattle.phone_places.specs.Maps.{digits_of, has_carrier};
ghost use Rattle.phone_places.specs.Carriers.{is_portable};

use crate::{digits_of, has_carrier};
use phone_languages::Atlas;
use phone_library::{number_type, region};
use phone_plans::Plans;
use phone_values::Type;
use phonenumber::PhoneNumber;
use std::alloc::{AllocError, Global};

/// The name in a locale of the carrier to which a number's range was given first; empty where none
/// is known, and where the number's kind has no mobile carrier. Refused only for memory.
pub fn carrier<'t>(
    database: &Plans,
    atlas: &Atlas<'t>,
    number: &PhoneNumber,
) -> Result<&'t str, AllocError>
    ensures told { has_carrier (kind_of_number database.now number.now) ≡ true →
        IfOk result (λ t. IsCarrier atlas.now (digits_of number.now) t.now) }
    ensures none { has_carrier (kind_of_number database.now number.now) ≡ false →
        IfOk result (λ t. t.now ≡ []) }
{
    let kind = number_type(database, number)?;
    carrier_as(database.allocator(), atlas, number, kind)
}

/// The carrier of a number of a kind.
fn carrier_as<'t>(
    alloc: Global,
    atlas: &Atlas<'t>,
    number: &PhoneNumber,
    kind: Type,
) -> Result<&'t str, AllocError>
    ensures told { has_carrier kind ≡ true →
        IfOk result (λ t. IsCarrier atlas.now (digits_of number.now) t.now) }
    ensures none { has_carrier kind ≡ false → IfOk result (λ t. t.now ≡ []) }
{
    if has_carrier(kind) {
        valid_carrier(alloc, atlas, number)
    } else {
        Ok("")
    }
}

/// The same whatever the number's kind is. Refused only for memory.
pub fn valid_carrier<'t>(
    alloc: Global,
    atlas: &Atlas<'t>,
    number: &PhoneNumber,
) -> Result<&'t str, AllocError>
    ensures { IfOk result (λ t. IsCarrier atlas.now (digits_of number.now) t.now) }
{
    let digits = digits_of(alloc, number)?;
    Ok(atlas.carrier(digits.as_str()))
}

/// The carrier, where it is safe to show that as today's: empty where a mobile number of the
/// number's region can be kept when the carrier changes; else as [`carrier`]. Refused only for
/// memory.
pub fn safe_carrier<'t>(
    database: &Plans,
    atlas: &Atlas<'t>,
    number: &PhoneNumber,
) -> Result<&'t str, AllocError>
    ensures portable { is_portable database.now number.now ≡ true →
        IfOk result (λ t. t.now ≡ []) }
    ensures told { is_portable database.now number.now ≡ false →
        has_carrier (kind_of_number database.now number.now) ≡ true →
        IfOk result (λ t. IsCarrier atlas.now (digits_of number.now) t.now) }
    ensures none { has_carrier (kind_of_number database.now number.now) ≡ false →
        IfOk result (λ t. t.now ≡ []) }
{
    if is_portable(database, number)? {
        Ok("")
    } else {
        carrier(database, atlas, number)
    }
}

/// Whether a mobile number of a number's region can be kept when the carrier changes.
fn is_portable(database: &Plans, number: &PhoneNumber) -> Result<bool, AllocError>
    ensures { IfOk result (λ b. b ≡ is_portable database.now number.now) }
{
    match region(database, number)? {
        Some(region) => Ok(phone_questions::is_portable(database, region)),
        None => Ok(false),
    }
}
