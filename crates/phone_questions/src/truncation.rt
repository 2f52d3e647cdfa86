//! What is left of a number that has too many digits.
ghost use Rattle.std.specs.Prelude.{◌≡◌, ◌&&◌, IfOk, filter, option_map, if◌then◌else◌};
ghost use Rattle.std.specs.List.{find, list_any};
ghost use Rattle.phone_library.specs.Facts.{is_valid_number};
ghost use Rattle.phone_plans.specs.Records.{has_code};
ghost use Rattle.phone_questions.specs.Truncation.{cuts, has_length, is_left, is_too_short};
ghost use Rattle.phone_questions.specs.Truncation.{shortened, truncated, with_national};
ghost use Rattle.phone_questions.specs.declared.truncation.Left.TheVariants as left;

use crate::possible::{count_of, possibility_as};
use phone_base::results::zip;
use phone_library::is_valid;
use phone_plans::Plans;
use phone_values::{Carrier, Extension, NationalNumber, Type, Validation};
use phonenumber::PhoneNumber;
use std::alloc::AllocError;

/// The most digits that a value has.
const MOST_DIGITS: usize = 17;

/// A number that is valid; of one that isn't the longest front that is, its leading zeros and its
/// extension kept. Digits are cut off its end one by one, as long as some are left and their count
/// isn't too short; none where no front is valid, and where the calling code isn't listed. Refused
/// only for memory.
pub fn truncated(database: &Plans, number: &PhoneNumber) -> Result<Option<PhoneNumber>, AllocError>
    ensures { IfOk result (λ t. t ≡ truncated database.now number.now) }
{
    if is_valid_by_length(database, number)? {
        return Ok(Some(number.clone()?));
    }
    match first_valid(database, number)? {
        Some(national) => Ok(Some(with_national(number, national)?)),
        None => Ok(None),
    }
}

/// The national number of the first valid cut of a number. Refused only for memory.
fn first_valid(database: &Plans, number: &PhoneNumber) -> Result<Option<NationalNumber>, AllocError>
    ensures { IfOk result (λ national. option_map (with_national number.now) national ≡
        find (is_valid_number database.now) (cuts database.now 17 number.now)) }
{
    let mut national = *number.national();
    for _i in 0..MOST_DIGITS {
        national = shortened(national);
        match left_of(database, number, national)? {
            Left::Nothing => return Ok(None),
            Left::Valid => return Ok(Some(national)),
            Left::Invalid => {}
        }
    }
    Ok(None)
}

/// What is left of a number once digits are cut off.
#[derive(Clone, Copy)]
enum Left {
    /// No digits, or too few.
    Nothing,
    /// A valid number.
    Valid,
    /// A number that isn't valid.
    Invalid,
}

/// What a number is that has this national number left. Refused only for memory.
fn left_of(
    database: &Plans,
    number: &PhoneNumber,
    national: NationalNumber,
) -> Result<Left, AllocError>
    ensures { IfOk result (λ l. l ≡ (if is_left database.now (with_national number.now national)
        then (if is_valid_number database.now (with_national number.now national)
        then left.Valid else left.Invalid) else left.Nothing)) }
{
    let rest = PhoneNumber::from_parts(*number.code(), national, None, None);
    judged(database, &rest)
}

/// What a number that is left is. Refused only for memory.
fn judged(database: &Plans, rest: &PhoneNumber) -> Result<Left, AllocError>
    ensures { IfOk result (λ l. l ≡ (if is_left database.now rest.now
        then (if is_valid_number database.now rest.now then left.Valid else left.Invalid)
        else left.Nothing)) }
{
    if !is_left(database, rest) {
        return Ok(Left::Nothing);
    }
    if is_valid_by_length(database, rest)? {
        Ok(Left::Valid)
    } else {
        Ok(Left::Invalid)
    }
}

/// Whether a number is valid. Its digits are searched only where a territory of its calling code
/// has numbers of so many. Refused only for memory.
fn is_valid_by_length(database: &Plans, number: &PhoneNumber) -> Result<bool, AllocError>
    ensures { IfOk result (λ b. b ≡ is_valid_number database.now number.now) }
{
    if has_length(database, number.code().value(), count_of(number.national())) {
        is_valid(database, number)
    } else {
        Ok(false)
    }
}

/// Whether a territory of a calling code has numbers of so many digits.
fn has_length(database: &Plans, code: u16, digits: usize) -> bool
    ensures { result ≡ list_any (has_length digits) (filter (has_code code) database.now) }
{
    database
        .of_code(code)
        .any(|m| m.descriptors().general().allows_length(digits))
}

/// Whether digits are left, and not too few.
fn is_left(database: &Plans, rest: &PhoneNumber) -> bool
    ensures { result ≡ is_left database.now rest.now }
{
    rest.national().value() != 0 && !is_too_short(possibility_as(database, Type::Unknown, rest))
}

/// Whether a verdict says that more digits are missing.
fn is_too_short(verdict: Validation) -> bool
    ensures { result ≡ is_too_short verdict }
{
    matches!(verdict, Validation::TooShort)
}

/// A national number without the last digit of its value.
fn shortened(national: NationalNumber) -> NationalNumber
    ensures { result ≡ shortened national }
{
    match NationalNumber::new(national.value() / 10, national.zeros()) {
        Ok(shortened) => shortened,
        Err(_) => national,
    }
}

/// A number with another national number. Refused only for memory.
fn with_national(number: &PhoneNumber, national: NationalNumber) -> Result<PhoneNumber, AllocError>
    ensures { IfOk result (λ n. n ≡ with_national number.now national) }
{
    let (extension, carrier) = zip(extension_of(number), carrier_of(number))?;
    Ok(PhoneNumber::from_parts(*number.code(), national, extension, carrier))
}

/// The extension of a number again. Refused only for memory.
fn extension_of(number: &PhoneNumber) -> Result<Option<Extension>, AllocError>
    ensures { IfOk result (λ extension. extension ≡ number.now.extension) }
{
    match number.extension() {
        Some(extension) => Ok(Some(extension.clone()?)),
        None => Ok(None),
    }
}

/// The carrier of a number again. Refused only for memory.
fn carrier_of(number: &PhoneNumber) -> Result<Option<Carrier>, AllocError>
    ensures { IfOk result (λ carrier. carrier ≡ number.now.carrier) }
{
    match number.carrier() {
        Some(carrier) => Ok(Some(carrier.clone()?)),
        None => Ok(None),
    }
}
