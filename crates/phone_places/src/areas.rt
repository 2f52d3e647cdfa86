//! The area of a number.
ghost use Rattle.std.specs.Prelude.{◌≡◌, IfOk, None, OnOk, chars};
ghost use Rattle.std.specs.Option.{option_copied};
ghost use Rattle.phone_languages.specs.Atlases.{IsArea};
ghost use Rattle.phone_places.specs.Maps.{digits_of};
ghost use Rattle.phone_places.specs.Areas.{IsAreaOf, IsOther, IsReadInArgentina, behind_token};
ghost use Rattle.phone_places.specs.Areas.{without_token};
ghost use Rattle.phone_values.specs.Numbers.{text_of};

use crate::digits_of;
use phone_languages::Atlas;
use phone_library::parse;
use phone_plans::Plans;
use phone_values::ParseError;
use phone_values::country::Id;
use phonenumber::PhoneNumber;
use std::alloc::{AllocError, Global};

/// The calling code of Argentina.
const ARGENTINA: u16 = 54;

/// What stands before the area code of a mobile number of Argentina.
const MOBILE_TOKEN: char = '9';

/// The area of a number in a locale, whatever its kind; empty where none is known. A mobile number
/// of Argentina has that of the digits behind its 9, as they are read there. Refused only for
/// memory.
pub fn area<'t>(
    database: &Plans,
    atlas: &Atlas<'t>,
    number: &PhoneNumber,
) -> Result<&'t str, AllocError>
    ensures { IfOk result (λ t. IsAreaOf database.now atlas.now number.now t.now) }
{
    match other_asked(database, number)? {
        Some(other) => area_of(database.allocator(), atlas, &other),
        None => area_of(database.allocator(), atlas, number),
    }
}

/// The area of the digits of a number.
fn area_of<'t>(
    alloc: Global,
    atlas: &Atlas<'t>,
    number: &PhoneNumber,
) -> Result<&'t str, AllocError>
    ensures { IfOk result (λ t. IsArea atlas.now (digits_of number.now) t.now) }
{
    let digits = digits_of(alloc, number)?;
    Ok(atlas.area(digits.as_str()))
}

/// The number that is asked for in place of one with a token.
fn other_asked(database: &Plans, number: &PhoneNumber) -> Result<Option<PhoneNumber>, AllocError>
    ensures { IfOk result (λ m. IsOther database.now
        (behind_token number.now.code.value (text_of number.now.national)) m) }
{
    let digits = number.national().to_string(database.allocator())?;
    let rest = behind_token(number.code().value(), digits.as_str());
    read_if_any(database, rest)
}

/// The number that a text is read as in Argentina, if there is a text.
fn read_if_any(database: &Plans, rest: Option<&str>) -> Result<Option<PhoneNumber>, AllocError>
    ensures { IfOk result (λ m. IsOther database.now (option_copied rest.entry) m) }
{
    match rest {
        Some(rest) => read_in_argentina(database, rest),
        None => Ok(None),
    }
}

/// What stands behind the token of Argentina's mobile numbers, in national digits of a code.
fn behind_token(code: u16, digits: &str) -> Option<&str>
    ensures { option_copied result ≡ behind_token code digits.entry.now }
{
    if code == ARGENTINA {
        without_token(digits)
    } else {
        None
    }
}

/// What stands behind the token.
fn without_token(digits: &str) -> Option<&str>
    ensures { option_copied result ≡ without_token digits.entry.now }
{
    digits.strip_prefix(MOBILE_TOKEN)
}

/// The number that a text is read as in Argentina; none where reading refuses it.
fn read_in_argentina(database: &Plans, text: &str) -> Result<Option<PhoneNumber>, AllocError>
    ensures { IfOk result (λ m. IsReadInArgentina database.now (chars text.now) m) }
{
    match parse(database, Some(Id::AR), text) {
        Ok(number) => Ok(Some(number)),
        Err(error) => unless_memory(error),
    }
}

/// No number, unless memory was refused.
fn unless_memory(error: ParseError) -> Result<Option<PhoneNumber>, AllocError>
    ensures none { IfOk result (λ m. m ≡ None) }
    ensures memory { OnOk result (¬ (error ≡ ParseError.Memory)) }
{
    match error {
        ParseError::Memory => Err(AllocError),
        _ => Ok(None),
    }
}
