//! Letters that became digits.
ghost use Rattle.std.specs.Prelude.{◌≡◌, ◌<◌, ◌↔◌, chars, false, IfOk, IsTrue, length};
ghost use Rattle.phone_library_text.specs.Letters.{value_of};
ghost use Rattle.std.specs.List.{filter_map, list_any};
ghost use Rattle.phone_chars.specs.Characters.{is_alpha};
ghost use Rattle.phone_doubts.specs.Lettered.{HasLetters};
ghost use Rattle.phone_values.specs.declared.rules.Rules.TheVariants.{Crate, Library};

use phone_chars::chars::is_alpha;
use phone_engine::{Engine, Rules};
use phone_library_text::{digit_values, read_written};
use phone_parts::parts;
use phone_values::ParseError;
use std::alloc::{AllocError, Global};

/// Whether reading turned letters of a text into digits, by an engine's rules. Refused only for
/// memory.
pub(crate) fn has_letters(engine: Engine<'_>, text: &str) -> Result<bool, AllocError>
    ensures { IfOk result (λ found. IsTrue found ↔
        HasLetters (chars text.now) engine.entry.rules) }
{
    match engine.rules {
        Rules::Library => has_written_letters(engine.database.allocator(), text),
        Rules::Crate => Ok(has_national_letters(text)),
    }
}

/// Whether a text's number is written with more digits than the text has. Refused only for memory.
fn has_written_letters(alloc: Global, text: &str) -> Result<bool, AllocError>
    ensures { IfOk result (λ found. IsTrue found ↔ HasLetters (chars text.now) Library) }
{
    match read_written(alloc, text) {
        Ok(number) => has_fewer_digits(alloc, text, number.digits.as_str()),
        Err(error) => without_letters(error),
    }
}

/// That there are no letters, where there is no number. Refused where memory was.
fn without_letters(error: ParseError) -> Result<bool, AllocError>
    ensures { IfOk result (λ found. (found ≡ false) × ¬ (error ≡ ParseError.Memory)) }
{
    match error {
        ParseError::Memory => Err(AllocError),
        _ => Ok(false),
    }
}

/// Whether a text has fewer digits than these. Refused only for memory.
fn has_fewer_digits(alloc: Global, text: &str, digits: &str) -> Result<bool, AllocError>
    ensures { IfOk result (λ fewer. IsTrue fewer ↔
        (length (filter_map value_of (chars text.now)) < length digits.now)) }
{
    let own = digit_values(alloc, text)?;
    Ok(own.len() < digits.len())
}

/// Whether a letter stands in the national part of a text.
fn has_national_letters(text: &str) -> bool
    ensures { IsTrue result ↔ HasLetters (chars text.now) Crate }
{
    match parts(text) {
        Some(number) => has_letter(number.national.as_str()),
        None => false,
    }
}

/// Whether a letter from `a` to `z` stands in a text, of either case.
fn has_letter(text: &str) -> bool
    ensures { result ≡ list_any is_alpha (chars text.now) }
{
    text.chars().any(|c| is_alpha(c))
}
