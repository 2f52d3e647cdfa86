//! The reading of a text as a phone number.
ghost use Rattle.std.specs.Prelude.{◌≡◌, ◌⊎◌, Err, chars};
ghost use Rattle.phone_read.specs.Readings.{Reads};

use crate::PhoneNumber;
use phone_plans::Plans;
use phone_read::{Reading, read};
use phone_values::ParseError;
use phone_values::country::Id;

/// Reads a text as a phone number under a database. The hint is the region whose international
/// prefix counts, whose calling code counts where the text tells none, and by whose rules its
/// national number is stripped.
///
/// First the text is read as a `tel:` text, else as free text: `NoNumber` where neither reader
/// takes it, and where the national part isn't viable. `InvalidCountryCode` where no listed calling
/// code is found; `TooShortNsn`, `TooLong` and `MalformedInteger` as `phone_read::read` refuses
/// calling codes and national numbers. `Memory` where memory was refused, and nowhere else; the
/// memory is taken by the database's allocator.
pub fn parse_with(database: &Plans, hint: Option<Id>, text: &str) -> Result<PhoneNumber, ParseError>
    ensures { (result ≡ Err ParseError.Memory) ⊎ Reads database.now hint (chars text.now) result }
{
    let Reading {
        code,
        national,
        extension,
        carrier,
    } = read(database, hint, text)?;
    Ok(PhoneNumber::from_parts(code, national, extension, carrier))
}
