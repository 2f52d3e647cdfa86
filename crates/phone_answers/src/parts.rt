//! Parts of a number that columns and objects tell beside its answer.
ghost use Rattle.std.specs.Prelude.{◌≡◌, IfOk, chars, encode_utf8_all, string_bytes, take};
ghost use Rattle.std.specs.Cow.{cow_str_bytes};
ghost use Rattle.phone_places.specs.Maps.{code_digits};
ghost use Rattle.phone_values.specs.Numbers.{text_of as national_text};
ghost use Rattle.phone_answers.specs.Parts.{area_code, part_told, possibility_told};
ghost use Rattle.phone_answers.specs.Parts.{possibility_word};

use crate::finds::extension_of;
use phone_engine::{Engine, Possibility, possibility_of};
use phone_plans::Plans;
use phone_print::written::text_of_value;
use phone_questions::area_length;
use phonenumber::PhoneNumber;
use std::alloc::{AllocError, Global};
use std::borrow::CowStr;
use std::marker::Model;

/// A part of a number.
#[derive(Clone, Copy, PartialEq, Eq, Debug)]
pub enum Part {
    /// Its extension; empty where it has none.
    Extension,
    /// The digits of its calling code.
    CallingCode,
    /// Its national number: the leading zeros, and the digits of the value.
    NationalNumber,
    /// What the count of its digits says by the engine's rules, in a word: `possible`,
    /// `possible-locally`, `too-short`, `too-long`, `wrong-length` or `unknown-code`.
    Possibility,
    /// The digits of the code of its area, by libphonenumber's rules; empty where it has none.
    AreaCode,
}

/// A part of a number, by the engine's rules. Refused only for memory.
pub(crate) fn part_told<'a>(
    engine: Engine<'_>,
    part: Part,
    number: &'a PhoneNumber,
) -> Result<CowStr<'a>, AllocError>
    ensures { IfOk result (λ text. cow_str_bytes text ≡
        part_told engine.entry.rules engine.entry.database.now part number.now) }
{
    let alloc = engine.database.allocator();
    match part {
        Part::Extension => Ok(CowStr::Borrowed(extension_of(number))),
        Part::CallingCode => Ok(CowStr::Owned(code_of(alloc, number)?)),
        Part::NationalNumber => Ok(CowStr::Owned(national_of(alloc, number)?)),
        Part::Possibility => Ok(CowStr::Borrowed(possibility_told(engine, number)?)),
        Part::AreaCode => Ok(CowStr::Owned(area_code_of(engine.database, number)?)),
    }
}

/// The digits of a number's calling code. Refused only for memory.
fn code_of(alloc: Global, number: &PhoneNumber) -> Result<String, AllocError>
    ensures { IfOk result (λ text. string_bytes text ≡ code_digits number.now) }
{
    let code = number.code().value();
    text_of_value(alloc, format_args!("{code}"))
}

/// The digits of a national number, its leading zeros with them. Refused only for memory.
fn national_of(alloc: Global, number: &PhoneNumber) -> Result<String, AllocError>
    ensures { IfOk result (λ text. string_bytes text ≡ national_text number.now.national) }
{
    let national = number.national();
    text_of_value(alloc, format_args!("{national}"))
}

/// What the count of a number's digits says by the engine's rules, in a word. Refused only for
/// memory.
fn possibility_told(engine: Engine<'_>, number: &PhoneNumber) -> Result<&'static str, AllocError>
    ensures { IfOk result (λ word. word.now ≡
        possibility_told engine.entry.rules engine.entry.database.now number.now) }
{
    Ok(possibility_word(possibility_of(engine, number)?))
}

/// What a count of digits says, in a word.
fn possibility_word(possibility: Possibility) -> &'static str
    ensures { result.now ≡ possibility_word possibility }
{
    match possibility {
        Possibility::Possible => "possible",
        Possibility::PossibleLocally => "possible-locally",
        Possibility::TooShort => "too-short",
        Possibility::TooLong => "too-long",
        Possibility::WrongLength => "wrong-length",
        Possibility::UnknownCode => "unknown-code",
    }
}

/// The digits of the code of a number's area, by libphonenumber's rules; empty where it has none.
/// Refused only for memory.
fn area_code_of(database: &Plans, number: &PhoneNumber) -> Result<String, AllocError>
    ensures { IfOk result (λ text. string_bytes text ≡ area_code database.now number.now) }
{
    let length = area_length(database, number)?;
    let national = national_of(database.allocator(), number)?;
    first_of(database.allocator(), national.as_str(), length)
}

/// So many of a text's first characters. Refused only for memory.
fn first_of(alloc: Global, text: &str, count: usize) -> Result<String, AllocError>
    ensures { IfOk result (λ t. string_bytes t ≡ encode_utf8_all (take count (chars text.now))) }
{
    text.chars().take(count).collect(alloc)
}
