//! Numbers that are printed, and read again without a hint.
ghost use Rattle.std.specs.Prelude.{◌≡◌, ◌⊎◌, ◌≤◌, None, true};
ghost use Rattle.phone_values.specs.Numbers.{text_of};
ghost use Rattle.phone_values.specs.declared.mode.Mode.TheVariants as mode;
ghost use Rattle.phone_plans.specs.CodeLookUps.{is_prefix_free};
ghost use Rattle.phonenumber.specs.RoundTrips.{IsAgain, IsReadOfPrinted};
ghost use Rattle.phonenumber.specs.Plain.{IsAnnouncedSafely, IsLeftAlone};
ghost use Rattle.phonenumber.specs.Plain.{IsPlainE164, IsPlainInternational, IsPlainRfc3966};

use crate::{FormatError, PhoneNumber, format_with, parse_with};
use phone_plans::Plans;
use phone_values::{Mode, ParseError};

/// What the E.164 text of a number is read as. Where the number is plain, stripping leaves its
/// digits alone, its code has one to three digits and no listed code begins another, it is a number
/// of the same code and national number, without an extension, or `Memory` where memory was
/// refused. `InvalidCountryCode` where its code isn't listed.
pub fn e164(database: &Plans, number: &PhoneNumber) -> Result<PhoneNumber, ParseError>
    ensures read { IsReadOfPrinted database.now mode.E164 number.now result }
    ensures back { IsPlainE164 database.now number.now →
        IsLeftAlone database.now number.now.code.value (text_of number.now.national) →
        1 ≤ number.now.code.value → number.now.code.value ≤ 999 →
        is_prefix_free database.now ≡ true → IsAgain number.now None result }
{
    number.keeps_bounds();
    read_of_printed(database, number, Mode::E164)
}

/// What the RFC 3966 text of a number is read as. Where the number is plain and stripping leaves
/// its digits alone, it is a number of the same code, national number and extension, or `Memory`
/// where memory was refused. `InvalidCountryCode` where its code isn't listed.
pub fn rfc3966(database: &Plans, number: &PhoneNumber) -> Result<PhoneNumber, ParseError>
    ensures read { IsReadOfPrinted database.now mode.Rfc3966 number.now result }
    ensures back { IsPlainRfc3966 database.now number.now →
        IsLeftAlone database.now number.now.code.value (text_of number.now.national) →
        IsAgain number.now number.now.extension result }
{
    number.keeps_bounds();
    read_of_printed(database, number, Mode::Rfc3966)
}

/// What the international text of a number is read as. Where the number is plain, stripping leaves
/// its digits alone, its code has one to three digits, no listed code begins another, and its
/// extension, if it has one, is announced by ` ext. ` or, where the laid-out text ends in an ASCII
/// digit, by a benign prefix, it is a number of the same code, national number and extension, or
/// `Memory` where memory was refused. `InvalidCountryCode` where its code isn't listed.
pub fn international(database: &Plans, number: &PhoneNumber) -> Result<PhoneNumber, ParseError>
    ensures read { IsReadOfPrinted database.now mode.International number.now result }
    ensures back { (plain : IsPlainInternational database.now number.now) →
        IsLeftAlone database.now number.now.code.value (text_of number.now.national) →
        1 ≤ number.now.code.value → number.now.code.value ≤ 999 →
        is_prefix_free database.now ≡ true → (number.now.extension ≡ None) ⊎
        IsAnnouncedSafely plain.territory number.now →
        IsAgain number.now number.now.extension result }
{
    number.keeps_bounds();
    read_of_printed(database, number, Mode::International)
}

/// What a number's text in a mode is read as, without a hint.
fn read_of_printed(
    database: &Plans,
    number: &PhoneNumber,
    mode: Mode,
) -> Result<PhoneNumber, ParseError>
    ensures { IsReadOfPrinted database.now mode number.now result }
{
    let printer = format_with(database, number).mode(mode);
    match printer.to_text(database.allocator()) {
        Ok(text) => parse_with(database, None, text.as_str()),
        Err(FormatError::UnknownCode) => Err(ParseError::InvalidCountryCode),
        Err(FormatError::Memory) => Err(ParseError::Memory),
    }
}
