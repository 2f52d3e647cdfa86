//! Which territory a number is of, and of which it is a valid number.
ghost use Rattle.std.specs.Prelude.{◌≡◌, IfOk, Some, false};
ghost use Rattle.std.specs.Option.{option_and_then, option_copied, option_map_or};
ghost use Rattle.phone_library.specs.Kinds.{is_number_of};
ghost use Rattle.phone_read.specs.Kinds.{is_known};
ghost use Rattle.phone_questions.specs.Belonging.{is_dialled_from_abroad, is_geographical};
ghost use Rattle.phone_questions.specs.Belonging.{is_dialled_by_region, is_home_number};
ghost use Rattle.phone_questions.specs.Belonging.{is_known_in, is_valid_for, territory_with};
ghost use Rattle.phone_questions.specs.Regions.{territory_of};

use crate::kinds::is_geographical_kind;
use crate::regions::territory_of;
use phone_library::{kind_in, number_type, region};
use phone_plans::{Plans, Territory};
use phone_territory::Descriptor;
use phone_values::Type;
use phone_values::country::Id;
use phonenumber::PhoneNumber;
use std::alloc::AllocError;

/// Whether a number is valid for a region by its id, or for `001`, the whole world: a territory of
/// the number's calling code has this id, and the number's kind is known there. A number of another
/// code isn't, and one whose code isn't listed. Refused only for memory.
pub fn is_valid_for(database: &Plans, id: &str, number: &PhoneNumber) -> Result<bool, AllocError>
    ensures { IfOk result (λ b. b ≡ is_valid_for database.now id.now number.now) }
{
    match territory_with(database, id, number.code().value()) {
        Some(territory) => is_known_in(number, territory),
        None => Ok(false),
    }
}

/// The territory with an id among those of a calling code.
fn territory_with<'d>(database: &'d Plans, id: &str, code: u16) -> Option<&'d Territory>
    ensures { option_copied result ≡ territory_with database.entry.now id.now code }
{
    database.of_code(code).find(|t| t.id() == id)
}

/// Whether the kind of a number is known in a territory. Refused only for memory.
fn is_known_in(number: &PhoneNumber, m: &Territory) -> Result<bool, AllocError>
    ensures { IfOk result (λ b. b ≡ is_known_in number.now m.now) }
{
    let digits = number.national().to_string(m.allocator())?;
    Ok(is_known(kind_in(m, digits.as_str())?))
}

/// Whether a kind is known.
fn is_known(kind: Type) -> bool
    ensures { result ≡ is_known kind }
{
    !matches!(kind, Type::Unknown)
}

/// The territory of the region that a number has.
pub(crate) fn territory_of_own(database: &Plans, region: Option<Id>) -> Option<&Territory>
    ensures { option_copied result ≡ option_and_then (territory_of database.entry.now) region }
{
    match region {
        Some(region) => territory_of(database, region),
        None => None,
    }
}

/// Whether a number can be dialled from abroad: unless the territory of its region says that it is
/// dialled at home alone. So it is said of a number without a region as well, which no territory
/// knows. Refused only for memory.
pub fn is_dialled_from_abroad(database: &Plans, number: &PhoneNumber) -> Result<bool, AllocError>
    ensures { IfOk result (λ b. b ≡ is_dialled_from_abroad database.now number.now) }
{
    is_dialled_by_region(database, region(database, number)?, number)
}

/// The same of a number whose region this is. Refused only for memory.
pub fn is_dialled_by_region(
    database: &Plans,
    region: Option<Id>,
    number: &PhoneNumber,
) -> Result<bool, AllocError>
    ensures { IfOk result (λ b. b ≡
        is_dialled_by_region database.now region number.now) }
{
    Ok(!is_home_in(number, territory_of_own(database, region))?)
}

/// Whether a territory that is there says that a number is dialled at home alone. Refused only for
/// memory.
pub(crate) fn is_home_in(
    number: &PhoneNumber,
    territory: Option<&Territory>,
) -> Result<bool, AllocError>
    ensures { IfOk result (λ b. b ≡
        option_map_or (is_home_number number.now) (option_copied territory.entry) false) }
{
    match territory {
        Some(territory) => is_home_number(number, territory),
        None => Ok(false),
    }
}

/// Whether a territory says that a number is dialled at home alone. Refused only for memory.
fn is_home_number(number: &PhoneNumber, m: &Territory) -> Result<bool, AllocError>
    ensures { IfOk result (λ b. b ≡ is_home_number number.now m.now) }
{
    let digits = number.national().to_string(m.allocator())?;
    is_number_of(m.descriptors().no_international(), digits.as_str())
}

/// Whether a descriptor is there and has the digits. Refused only for memory.
fn is_number_of(descriptor: Option<&Descriptor>, digits: &str) -> Result<bool, AllocError>
    ensures { IfOk result (λ b. b ≡ is_number_of (option_copied descriptor.entry) digits.now) }
{
    match descriptor {
        Some(descriptor) => has_digits(descriptor, digits),
        None => Ok(false),
    }
}

/// Whether a descriptor allows the count of the digits, and its pattern matches all of them.
/// Refused only for memory.
fn has_digits(descriptor: &Descriptor, digits: &str) -> Result<bool, AllocError>
    ensures { IfOk result (λ b. b ≡ is_number_of (Some descriptor.now) digits.now) }
{
    if !descriptor.allows_length(digits.len()) {
        return Ok(false);
    }
    descriptor.pattern().is_whole_match(digits)
}

/// Whether a number is of a place: its kind, in the territory that has it, is a fixed line's, or a
/// mobile's under a calling code that gives mobiles an area. Refused only for memory.
pub fn is_geographical(database: &Plans, number: &PhoneNumber) -> Result<bool, AllocError>
    ensures { IfOk result (λ b. b ≡ is_geographical database.now number.now) }
{
    let kind = number_type(database, number)?;
    Ok(is_geographical_kind(kind, number.code().value()))
}
