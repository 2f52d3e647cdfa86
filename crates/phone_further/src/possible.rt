//! What the count of a number's digits says of it as a number of a kind: our own answer.
ghost use Rattle.std.specs.Prelude.{◌≡◌, IfOk};
ghost use Rattle.std.specs.Option.{option_copied};
ghost use Rattle.phone_further.specs.Possible.{possibility_of, telling_territory};
ghost use Rattle.phone_further.specs.Possible.{valid_territory};

use phone_dialling::from_territory;
use phone_library::{is_valid, region};
use phone_plans::{Plans, Territory};
use phone_questions::verdict_in;
use phone_values::{Type, Validation};
use phonenumber::PhoneNumber;
use std::alloc::AllocError;

/// What the count of a number's digits, its leading zeros included, says of it as a number of a
/// kind, `Unknown` being any: as `possibility_as` of `phone_questions`, but of a valid number by
/// the lengths of its own region. So a pager number of Antigua is a possible one, where
/// libphonenumber asks the first region of its calling code, which has no pagers. Refused only for
/// memory.
pub fn possibility_of(
    database: &Plans,
    kind: Type,
    number: &PhoneNumber,
) -> Result<Validation, AllocError>
    ensures { IfOk result (λ v. v ≡ possibility_of database.now kind number.now) }
{
    let Some(territory) = telling_territory(database, number)? else {
        return Ok(Validation::InvalidCountryCode);
    };
    let digits = number.national().to_string(database.allocator())?;
    Ok(verdict_in(kind, digits.len(), territory))
}

/// The territory whose lengths tell of a number. Refused only for memory.
fn telling_territory<'d>(
    database: &'d Plans,
    number: &PhoneNumber,
) -> Result<Option<&'d Territory>, AllocError>
    ensures { IfOk result (λ m. option_copied m ≡
        telling_territory database.entry.now number.now) }
{
    match valid_territory(database, number)? {
        Some(own) => Ok(Some(own)),
        None => Ok(database.first_by_code(&number.code().value())),
    }
}

/// The territory of a valid number's region. Refused only for memory.
fn valid_territory<'d>(
    database: &'d Plans,
    number: &PhoneNumber,
) -> Result<Option<&'d Territory>, AllocError>
    ensures { IfOk result (λ m. option_copied m ≡
        valid_territory database.entry.now number.now) }
{
    if !is_valid(database, number)? {
        return Ok(None);
    }
    let own = region(database, number)?;
    Ok(from_territory(database, own))
}
