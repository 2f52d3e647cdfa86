//! An example of a number that isn't valid.
ghost use Rattle.std.specs.Prelude.{◌≡◌, ◌⊎◌, Err, IfOk, None, Ok, OnOk, Some, chars, length};
ghost use Rattle.std.specs.Option.{option_copied};
ghost use Rattle.phone_library.specs.Readings.{ReadsByLibrary};
ghost use Rattle.phone_read.specs.Hints.{hinted};
ghost use Rattle.phone_further.specs.Invalid.{IsFirstInvalid, IsInvalidExample, IsInvalidRead};
ghost use Rattle.phone_further.specs.Invalid.{fixed_line_example, if_invalid, is_short};

use crate::examples::example_in;
use phone_chars::cuts::split_last;
use phone_library::{is_valid, parse_written};
use phone_library_text::read_written;
use phone_plans::{Plans, Territory};
use phone_read::hint_territory;
use phone_values::country::Id;
use phone_values::{ParseError, Type};
use phonenumber::PhoneNumber;
use std::alloc::AllocError;

/// A number of a region that isn't valid: of the example of its fixed lines, without its last
/// digit, its last two and so on, while two digits are left, the first that is read under the
/// region and isn't valid. None where there is no such, where the region's fixed lines have no
/// example, or it has no territory. Refused only for memory.
pub fn invalid_example(database: &Plans, region: Id) -> Result<Option<PhoneNumber>, AllocError>
    ensures { IfOk result (IsInvalidExample database.now region) }
{
    match fixed_line_example(database, region) {
        Some(text) => first_invalid(database, hint_territory(database, Some(region)), text),
        None => Ok(None),
    }
}

/// The example of a region's fixed lines.
fn fixed_line_example(database: &Plans, region: Id) -> Option<&str>
    ensures { option_copied result ≡ fixed_line_example database.entry.now region }
{
    match database.by_id(region.as_str()) {
        Some(m) => example_in(m, Type::FixedLine),
        None => None,
    }
}

/// The first number that isn't valid, of a text's digits without their last ones, under a hint's
/// territory. Refused only for memory.
fn first_invalid(
    database: &Plans,
    territory: Option<&Territory>,
    text: &str,
) -> Result<Option<PhoneNumber>, AllocError>
    ensures { IfOk result (λ found. (region : Id) → option_copied territory.entry ≡
        hinted database.now (Some region) → IsFirstInvalid database.now region (chars text.now)
        found) }
{
    let mut rest = text;
    while let Some((front, _)) = split_last(rest) {
        if is_short(front) {
            return Ok(None);
        }
        let found = invalid_read(database, territory, front)?;
        if found.is_some() {
            return Ok(found);
        }
        rest = front;
    }
    Ok(None)
}

/// Whether a text has fewer than two characters.
fn is_short(text: &str) -> bool
    ensures { result ≡ is_short (chars text.now) }
{
    count(text) < 2
}

/// How many characters a text has.
fn count(text: &str) -> usize
    ensures { result ≡ length (chars text.now) }
{
    text.chars().count()
}

/// What digits are read as under a hint's territory, where that is a number that isn't valid.
/// Refused only for memory.
fn invalid_read(
    database: &Plans,
    territory: Option<&Territory>,
    text: &str,
) -> Result<Option<PhoneNumber>, AllocError>
    ensures { IfOk result (λ found. (region : Id) → option_copied territory.entry ≡
        hinted database.now (Some region) → IsInvalidRead database.now region (chars text.now)
        found) }
{
    match read_under(database, territory, text) {
        Ok(number) => if_invalid(database, number),
        Err(error) => none(error),
    }
}

/// What digits are read as under a hint's territory.
fn read_under(
    database: &Plans,
    territory: Option<&Territory>,
    text: &str,
) -> Result<PhoneNumber, ParseError>
    ensures { (result ≡ Err ParseError.Memory) ⊎ ((region : Id) → option_copied territory.entry ≡
        hinted database.now (Some region) →
        ReadsByLibrary database.now (Some region) (chars text.now) result) }
{
    let written = read_written(database.allocator(), text)?;
    parse_written(database, territory, written)
}

/// A number, where it isn't valid. Refused only for memory.
fn if_invalid(database: &Plans, number: PhoneNumber) -> Result<Option<PhoneNumber>, AllocError>
    ensures { IfOk result (λ found. found ≡ if_invalid database.now (Ok number)) }
{
    if is_valid(database, &number)? {
        Ok(None)
    } else {
        Ok(Some(number))
    }
}

/// The answer to a text that is refused.
fn none(error: ParseError) -> Result<Option<PhoneNumber>, AllocError>
    ensures answer { IfOk result (λ found. found ≡ None) }
    ensures memory { OnOk result (¬ (error ≡ ParseError.Memory)) }
{
    match error {
        ParseError::Memory => Err(AllocError),
        _ => Ok(None),
    }
}
