//! How a number is written in a text.
ghost use Rattle.std.specs.Prelude.{◌≡◌, ◌⊎◌, ◌<◌, ◌≤◌, ◌↔◌, None, Ok, Err, IfOk, IfErr, IsTrue};
ghost use Rattle.std.specs.Prelude.{chars, length};
ghost use Rattle.std.specs.Prelude.{option_map, encode_utf8_all};
ghost use Rattle.phone_chars.specs.Characters.{is_plus};
ghost use Rattle.phone_parts.specs.Texts.{begins};
ghost use Rattle.phone_library_text.specs.Letters.{digits_in};
ghost use Rattle.phone_library_text.specs.NumberTexts.{chars_of};
ghost use Rattle.phone_library_text.specs.Written.{IsWritten, IsWrittenIn, most_characters};

use crate::letters::digits_in;
use crate::number_text::number_text;
use crate::plain::{PlainNumber, plain_number};
use crate::viable::viable_parts;
use phone_base::Text;
use phone_base::results::{in_place_of, zip};
use phone_chars::chars::is_plus;
use phone_chars::cuts::split_first;
use phone_values::{Extension, ParseError};
use std::alloc::Global;

/// A number as it is written.
#[derive(Debug, Drop)]
pub struct WrittenNumber {
    /// Whether it begins with a plus sign.
    pub has_plus: bool,
    /// Its ASCII digits, the calling code's and an international prefix's among them.
    pub digits: Text,
    /// The digits of its extension, of any script, where it has one.
    pub extension: Option<Extension>,
}

/// The most characters that a text may have.
const MOST_CHARACTERS: usize = 250;

/// Reads how a number is written in a text: whether it begins with a plus sign, its digits, and its
/// extension.
///
/// `TooLong` for a text of more than 250 characters, `NoNumber` for one in which no number stands.
/// `Memory` where memory was refused, and nowhere else.
pub fn read_written(alloc: Global, text: &str) -> Result<WrittenNumber, ParseError>
    ensures { (result ≡ Err ParseError.Memory) ⊎ IsWritten (chars text.now) result }
{
    if is_too_long(text) {
        return Err(ParseError::TooLong);
    }
    match plain_number(text) {
        Some(number) => written_plain(alloc, number),
        None => read_marked(alloc, text),
    }
}

/// How a number of digits alone is written.
fn written_plain(alloc: Global, number: PlainNumber<'_>) -> Result<WrittenNumber, ParseError>
    ensures { (result ≡ Err ParseError.Memory) ⊎ (result ≡ Ok (record {
      has_plus = number.entry.has_plus;
      digits = number.entry.digits.now;
      extension = None;
    })) }
{
    let PlainNumber { has_plus, digits } = number;
    Ok(WrittenNumber {
        has_plus,
        digits: Text::from(String::from_str(alloc, digits)?),
        extension: None,
    })
}

/// How a number is written in a text that isn't too long.
fn read_marked(alloc: Global, text: &str) -> Result<WrittenNumber, ParseError>
    ensures { length (chars text.now) ≤ most_characters → (result ≡ Err ParseError.Memory) ⊎
        IsWritten (chars text.now) result }
{
    let Some(number) = number_text(alloc, text)? else {
        return Err(ParseError::NoNumber);
    };
    let written = written_in(alloc, number.as_str());
    in_place_of(number, written)
}

/// Whether a text has too many characters. They are counted only where it has so many bytes.
fn is_too_long(text: &str) -> bool
    ensures { IsTrue result ↔ (most_characters < length (chars text.now)) }
{
    text.len() > MOST_CHARACTERS && text.chars().count() > MOST_CHARACTERS
}

/// How the number is written that a number's text is.
fn written_in(alloc: Global, number: &str) -> Result<WrittenNumber, ParseError>
    ensures { (result ≡ Err ParseError.Memory) ⊎ IsWrittenIn (chars number.now) result }
{
    let Some((front, extension)) = viable_parts(number) else {
        return Err(ParseError::NoNumber);
    };
    let (digits, extension) = zip(text_of_digits(alloc, front), text_of(alloc, extension))?;
    Ok(WrittenNumber {
        has_plus: begins_with_plus(number),
        digits,
        extension,
    })
}

/// Whether a text begins with a plus sign.
fn begins_with_plus(text: &str) -> bool
    ensures { result ≡ begins is_plus (chars text.now) }
{
    match split_first(text) {
        Some((c, _)) => is_plus(c),
        None => false,
    }
}

/// The digits of a text, in a text of their own.
fn text_of_digits(alloc: Global, text: &str) -> Result<Text, ParseError>
    ensures digits { IfOk result (λ d. d ≡ digits_in (chars text.now)) }
    ensures refused { IfErr result (λ e. e ≡ ParseError.Memory) }
{
    let digits = digits_in(alloc, text)?;
    Ok(Text::from(digits.into_owned(alloc)?))
}

/// An extension in a text of its own, where there is one.
fn text_of(alloc: Global, text: Option<&str>) -> Result<Option<Extension>, ParseError>
    ensures extension { IfOk result (λ e. e ≡ option_map encode_utf8_all (chars_of text.entry)) }
    ensures refused { IfErr result (λ e. e ≡ ParseError.Memory) }
{
    match text {
        Some(text) => Ok(Some(extension_of(alloc, text)?)),
        None => Ok(None),
    }
}

/// An extension in a text of its own.
fn extension_of(alloc: Global, text: &str) -> Result<Extension, ParseError>
    ensures extension { IfOk result (λ e. e ≡ encode_utf8_all (chars text.now)) }
    ensures refused { IfErr result (λ e. e ≡ ParseError.Memory) }
{
    Ok(Extension::from(String::from_str(alloc, text)?))
}
