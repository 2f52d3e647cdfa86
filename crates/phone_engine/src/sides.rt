//! What a text is taken as where it is compared with another.
ghost use Rattle.std.specs.Prelude.{◌≡◌, ◌⊎◌, Err, Ok, IfOk, Some, chars, option_map};
ghost use Rattle.std.specs.Cow.{cow_str_bytes};
ghost use Rattle.phone_chars.specs.Characters.{is_plus};
ghost use Rattle.phone_chars.specs.Norm.{norm};
ghost use Rattle.phone_values.specs.Nsn.{nsn};
ghost use Rattle.phone_parts.specs.Parts.{parts_of};
ghost use Rattle.phone_parts.specs.Texts.{begins};
ghost use Rattle.phone_engine.specs.Sides.{IsDialled, IsTaken, says_code, side_of, uncoded_side};
ghost use Rattle.phone_engine.specs.Sides.{written_side};

use crate::{Engine, Rules};
use phone_chars::chars::{is_plus, normalize};
use phone_library::national_number;
use phone_library_text::{WrittenNumber, read_written};
use phone_parts::{Number, parts};
use phone_read::nsn;
use phone_values::{Extension, NationalNumber, ParseError};
use phonenumber::PhoneNumber;
use std::alloc::{AllocError, Global};
use std::borrow::CowStr;

/// What a text is taken as: a number whose calling code may be missing.
#[derive(Debug, Drop)]
pub struct Side {
    /// The calling code, where the text says one.
    pub code: Option<u16>,
    /// The national number; without a code the digits as they are dialled.
    pub national: NationalNumber,
    /// The extension, where one was written; it may be empty.
    pub extension: Option<Extension>,
}

/// What a text is taken as where it is compared, by an engine's rules and database. It is read
/// without a hint: the engine's doesn't count. A text that is read so is taken as that number. A
/// text without a calling code is taken as its digits as they are dialled, 2 to 17 of them, with
/// national prefixes and without a code.
///
/// Errors: those of [`Engine::parse`] for the text without a hint; for the digits of a text without
/// a code, those for a national number. `Memory` where memory was refused, and nowhere else.
pub fn taken_as(engine: Engine<'_>, text: &str) -> Result<Side, ParseError>
    ensures { (result ≡ Err ParseError.Memory) ⊎
        IsTaken engine.entry.rules engine.entry.database.now (chars text.now) result }
{
    let unhinted = Engine {
        hint: None,
        ..engine
    };
    match unhinted.parse(text) {
        Ok(number) => side_of(&number),
        Err(error) => {
            if error == ParseError::InvalidCountryCode {
                dialled_side(engine.rules, engine.database.allocator(), text)
            } else {
                Err(error)
            }
        }
    }
}

/// A number that was read, with its code. Refused only for memory.
fn side_of(number: &PhoneNumber) -> Result<Side, ParseError>
    ensures { (result ≡ Err ParseError.Memory) ⊎ (result ≡ Ok (side_of number.now)) }
{
    let extension = match number.extension() {
        Some(extension) => Some(extension.clone()?),
        None => None,
    };
    Ok(Side {
        code: Some(number.code().value()),
        national: *number.national(),
        extension,
    })
}

/// What a text that is refused for want of a calling code is taken as, by these rules.
fn dialled_side(rules: Rules, alloc: Global, text: &str) -> Result<Side, ParseError>
    ensures { (result ≡ Err ParseError.Memory) ⊎ IsDialled rules (chars text.now) result }
{
    match rules {
        Rules::Library => dialled_by_library(alloc, text),
        Rules::Crate => dialled_by_crate(alloc, text),
    }
}

/// The same by what is written in the text.
fn dialled_by_library(alloc: Global, text: &str) -> Result<Side, ParseError>
    ensures { (result ≡ Err ParseError.Memory) ⊎
        IsDialled Rules.Library (chars text.now) result }
{
    match read_written(alloc, text) {
        Ok(number) => written_side(number),
        Err(error) => Err(error),
    }
}

/// What a written number without a known calling code is taken as.
fn written_side(number: WrittenNumber) -> Result<Side, ParseError>
    ensures { result ≡ written_side (Ok number) }
{
    let WrittenNumber {
        has_plus,
        digits,
        extension,
    } = number;
    if has_plus {
        return Err(ParseError::InvalidCountryCode);
    }
    match national_number(digits.as_str()) {
        Ok(national) => Ok(Side {
            code: None,
            national,
            extension,
        }),
        Err(error) => Err(error),
    }
}

/// The same by the text's parts.
fn dialled_by_crate(alloc: Global, text: &str) -> Result<Side, ParseError>
    ensures { (result ≡ Err ParseError.Memory) ⊎ IsDialled Rules.Crate (chars text.now) result }
{
    match parts(text) {
        Some(parts) => side_of_parts(alloc, &parts),
        None => Err(ParseError::InvalidCountryCode),
    }
}

/// What parts without a known calling code are taken as.
fn side_of_parts(alloc: Global, parts: &Number<'_>) -> Result<Side, ParseError>
    ensures { (result ≡ Err ParseError.Memory) ⊎
        (result ≡ uncoded_side (Some (parts_of parts.now))) }
{
    if says_code(parts) {
        return Err(ParseError::InvalidCountryCode);
    }
    let national = dialled_number(alloc, parts.national.as_str())?;
    let extension = dialled_extension(alloc, &parts.extension)?;
    Ok(Side {
        code: None,
        national,
        extension,
    })
}

/// Whether parts say a calling code: as a prefix, or after a plus sign.
fn says_code(parts: &Number<'_>) -> bool
    ensures { result ≡ says_code (parts_of parts.now) }
{
    parts.prefix.is_some() || begins_with_plus(parts.national.as_str())
}

/// Whether a text begins with a plus sign.
fn begins_with_plus(text: &str) -> bool
    ensures { result ≡ begins is_plus (chars text.now) }
{
    text.starts_with(|c| is_plus(c))
}

/// The national number of a text's digits.
fn dialled_number(alloc: Global, text: &str) -> Result<NationalNumber, ParseError>
    ensures { (result ≡ Err ParseError.Memory) ⊎ (result ≡ nsn (norm (chars text.now))) }
{
    let digits = digits(alloc, text)?;
    nsn(digits.as_str())
}

/// The extension of a text's digits, if there is one. Refused only for memory.
fn dialled_extension(
    alloc: Global,
    text: &Option<CowStr<'_>>,
) -> Result<Option<Extension>, AllocError>
    ensures { IfOk result (λ e. e ≡
        option_map norm (option_map (λ p. chars (cow_str_bytes p)) text.now)) }
{
    match text {
        Some(text) => Ok(Some(extension(alloc, text.as_str())?)),
        None => Ok(None),
    }
}

/// An extension of a text's digits. Refused only for memory.
fn extension(alloc: Global, text: &str) -> Result<Extension, AllocError>
    ensures { IfOk result (λ e. e ≡ norm (chars text.now)) }
{
    let digits = digits(alloc, text)?;
    Ok(Extension::from(digits.into_owned(alloc)?))
}

/// The digits of a text. Refused only for memory.
fn digits(alloc: Global, text: &str) -> Result<CowStr<'_>, AllocError>
    ensures { IfOk result (λ d. cow_str_bytes d ≡ norm (chars text.entry.now)) }
{
    normalize(alloc, CowStr::Borrowed(text))
}
