//! Texts that are read as valid numbers.
ghost use Rattle.std.specs.Prelude.{◌≡◌, ◌↔◌, chars, if◌then◌else◌, IfOk, IsTrue, MatchOption};
ghost use Rattle.std.specs.Prelude.{None, Some};
ghost use Rattle.phone_engine.specs.Facts.{is_valid_by};
ghost use Rattle.phone_values.specs.declared.reading.Reading.{Reading};
ghost use Rattle.phone_doubts.specs.Valid.{IsNumber, IsValidText};

use phone_engine::Engine;
use phone_values::ParseError;
use phonenumber::PhoneNumber;
use std::alloc::AllocError;

/// The valid number that a text is read as; none where it is read as no number, or as one that
/// isn't valid. Refused only for memory.
pub(crate) fn valid_number(
    engine: Engine<'_>,
    text: &str,
) -> Result<Option<PhoneNumber>, AllocError>
    ensures { IfOk result (λ told. MatchOption told
        ((n : Reading) → ¬ (IsValidText engine.entry.rules engine.entry.database.now
        engine.entry.hint (chars text.now) n))
        (λ n. IsValidText engine.entry.rules engine.entry.database.now engine.entry.hint
        (chars text.now) n)) }
{
    match engine.parse(text) {
        Ok(number) => where_valid(engine, number),
        Err(error) => without_number(error),
    }
}

/// No number, where a text isn't read as one. Refused where memory was.
fn without_number(error: ParseError) -> Result<Option<PhoneNumber>, AllocError>
    ensures { IfOk result (λ told. (told ≡ None) × ¬ (error ≡ ParseError.Memory)) }
{
    match error {
        ParseError::Memory => Err(AllocError),
        _ => Ok(None),
    }
}

/// The number, where it is valid. Refused only for memory.
fn where_valid(engine: Engine<'_>, number: PhoneNumber) -> Result<Option<PhoneNumber>, AllocError>
    ensures { IfOk result (λ told. told ≡ (if is_valid_by engine.entry.rules
        engine.entry.database.now number then Some number else None)) }
{
    if engine.is_valid(&number)? {
        Ok(Some(number))
    } else {
        Ok(None)
    }
}

/// Whether a text is read as a valid number. Refused only for memory.
pub(crate) fn is_number(engine: Engine<'_>, text: &str) -> Result<bool, AllocError>
    ensures { IfOk result (λ found. IsTrue found ↔ IsNumber engine.entry.rules
        engine.entry.database.now engine.entry.hint (chars text.now)) }
{
    match valid_number(engine, text)? {
        Some(_) => Ok(true),
        None => Ok(false),
    }
}
