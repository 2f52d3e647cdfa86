//! The reading of a text as a phone number, by libphonenumber's rules.
ghost use Rattle.std.specs.Prelude.{◌≡◌, ◌⊎◌, Err, chars};
ghost use Rattle.std.specs.Option.{option_copied};
ghost use Rattle.phone_library.specs.Readings.{ReadsByLibrary, reading_under};

use crate::reading::reading_under;
use phone_library_text::{WrittenNumber, read_written};
use phone_plans::{Plans, Territory};
use phone_read::hint_territory;
use phone_values::country::Id;
use phone_values::{ParseError, Reading};
use phonenumber::PhoneNumber;

/// Reads a text as a phone number by libphonenumber's rules. The hint is the region that a text
/// without a plus sign is dialled in: its international prefix counts, its calling code where the
/// text tells none, and its rules where it has told the code. A number with another code is
/// stripped by the rules of that code's first territory.
///
/// `TooLong` for a text of more than 250 characters. `NoNumber` where there is no number in the
/// text, as for fewer than three digits that aren't two alone. `InvalidCountryCode` where no listed
/// calling code is found, and there is no hint or no record of it. `TooShortAfterIdd` where at most
/// two digits follow a plus sign or an international prefix; `TooShortNsn` where fewer than two
/// follow the calling code; `TooLong` where more than 17 are left, or a value of 2^56 or more.
/// `Memory` where memory was refused, and nowhere else; the memory is taken by the database's
/// allocator.
pub fn parse(database: &Plans, hint: Option<Id>, text: &str) -> Result<PhoneNumber, ParseError>
    ensures { (result ≡ Err ParseError.Memory) ⊎
        ReadsByLibrary database.now hint (chars text.now) result }
{
    let number = read_written(database.allocator(), text)?;
    parse_written(database, hint_territory(database, hint), number)
}

/// The number that is written so, under the territory of a hint, as [`parse`] reads it from the
/// text that it is written in; refused as there. What was read of one text may be parsed under
/// several hints, and several numbers under one.
pub fn parse_written(
    database: &Plans,
    territory: Option<&Territory>,
    number: WrittenNumber,
) -> Result<PhoneNumber, ParseError>
    ensures { (result ≡ Err ParseError.Memory) ⊎
        (result ≡ reading_under database.now (option_copied territory.entry) number) }
{
    let Reading {
        code,
        national,
        extension,
        carrier,
    } = reading_under(database, territory, number)?;
    Ok(PhoneNumber::from_parts(code, national, extension, carrier))
}
