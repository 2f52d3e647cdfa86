//! The doubts about a field.
ghost use Rattle.std.specs.Prelude.{◌≡◌, ◌↔◌, ℕ, IfOk, IsTrue, List, Option, string_bytes};
ghost use Rattle.std.specs.Option.{option_copied};
ghost use Rattle.std.specs.Str.{trim};
ghost use Rattle.phone_doubts.specs.Doubts.{AreDoubts, IsDoubt, IsDoubted, IsNotValid};
ghost use Rattle.phone_doubts.specs.Spreadsheets.{is_date, is_float};
ghost use Rattle.phone_doubts.specs.Words.{holds};
ghost use Rattle.phone_doubts.specs.declared.doubt.Doubt.TheVariants as doubt;
ghost use Rattle.phone_values.specs.declared.reading.Reading.{Reading};

use crate::dates::is_date;
use crate::doubt::Doubts;
use crate::floats::is_float;
use crate::fronts::{has_zero_in_brackets, lacks_plus, lacks_zero};
use crate::letters::has_letters;
use crate::pairs::parts;
use crate::regions::is_elsewhere;
use phone_engine::Engine;
use phonenumber::PhoneNumber;
use std::alloc::AllocError;

/// The words of the doubts about a field, parted by a space; an empty text where there is none.
/// The number is the one that the engine read in the field, if it read one; none of a short
/// number. The white space around the field's text doesn't count. Refused only for memory.
pub fn doubts(
    engine: Engine<'_>,
    field: &str,
    number: Option<&PhoneNumber>,
) -> Result<String, AllocError>
    ensures { IfOk result (λ words. IsDoubted engine.entry.rules engine.entry.database.now
        engine.entry.hint field.now (option_copied number.entry) (string_bytes words)) }
{
    let found = find_doubts(engine, field, number)?;
    found.words(engine.database.allocator())
}

/// The doubts about a field. As [`doubts`] has it.
pub fn find_doubts(
    engine: Engine<'_>,
    field: &str,
    number: Option<&PhoneNumber>,
) -> Result<Doubts, AllocError>
    ensures { IfOk result (λ found. AreDoubts engine.entry.rules engine.entry.database.now
        engine.entry.hint (trim field.now) (option_copied number.entry) (holds found)) }
{
    doubts_of_text(engine, field.trim(), number)
}

/// The doubts about a text. Refused only for memory.
fn doubts_of_text(
    engine: Engine<'_>,
    text: &str,
    number: Option<&PhoneNumber>,
) -> Result<Doubts, AllocError>
    ensures { IfOk result (λ found. AreDoubts engine.entry.rules engine.entry.database.now
        engine.entry.hint text.now (option_copied number.entry) (holds found)) }
{
    let no_plus = says_no_plus(engine, text, number)?;
    let zero_in_brackets = says_zero_in_brackets(engine, text, number)?;
    let letters = says_letters(engine, text, number)?;
    let two_numbers = says_two_numbers(engine, text)?;
    let zero_lost = says_zero_lost(engine, text, number)?;
    let other_region = says_other_region(engine, number)?;
    Ok(Doubts {
        float: says_float(text),
        no_plus,
        zero_in_brackets,
        letters,
        two_numbers,
        date: says_date(text),
        zero_lost,
        other_region,
    })
}

/// Whether a text is a float.
fn says_float(text: &str) -> bool
    ensures { result ≡ is_float text.now }
{
    is_float(text.as_bytes())
}

/// Whether a text is a date.
fn says_date(text: &str) -> bool
    ensures { result ≡ is_date text.now }
{
    is_date(text.as_bytes())
}

/// Whether a plus sign is missing.
fn says_no_plus(
    engine: Engine<'_>,
    text: &str,
    number: Option<&PhoneNumber>,
) -> Result<bool, AllocError>
    ensures { IfOk result (λ says. IsTrue says ↔ IsDoubt engine.entry.rules
        engine.entry.database.now engine.entry.hint text.now (option_copied number.entry)
        doubt.NoPlus) }
{
    match number {
        Some(number) => lacks_plus(engine, text, number),
        None => Ok(false),
    }
}

/// Whether a zero stands in brackets behind the number's calling code.
fn says_zero_in_brackets(
    engine: Engine<'_>,
    text: &str,
    number: Option<&PhoneNumber>,
) -> Result<bool, AllocError>
    ensures { IfOk result (λ says. IsTrue says ↔ IsDoubt engine.entry.rules
        engine.entry.database.now engine.entry.hint text.now (option_copied number.entry)
        doubt.ZeroInBrackets) }
{
    match number {
        Some(number) => has_zero_in_brackets(engine.database.allocator(), text, number),
        None => Ok(false),
    }
}

/// Whether letters became digits.
fn says_letters(
    engine: Engine<'_>,
    text: &str,
    number: Option<&PhoneNumber>,
) -> Result<bool, AllocError>
    ensures { IfOk result (λ says. IsTrue says ↔ IsDoubt engine.entry.rules
        engine.entry.database.now engine.entry.hint text.now (option_copied number.entry)
        doubt.Letters) }
{
    match number {
        Some(_) => has_letters(engine, text),
        None => Ok(false),
    }
}

/// Whether a text is two numbers.
fn says_two_numbers(engine: Engine<'_>, text: &str) -> Result<bool, AllocError>
    ensures { (number : Option Reading) → IfOk result (λ says. IsTrue says ↔
        IsDoubt engine.entry.rules engine.entry.database.now engine.entry.hint text.now number
        doubt.TwoNumbers) }
{
    let found = parts(engine, text)?;
    Ok(found.is_some())
}

/// Whether no valid number was read.
fn is_not_valid(engine: Engine<'_>, number: Option<&PhoneNumber>) -> Result<bool, AllocError>
    ensures { IfOk result (λ not_valid. IsTrue not_valid ↔ IsNotValid engine.entry.rules
        engine.entry.database.now (option_copied number.entry)) }
{
    match number {
        Some(number) => Ok(!engine.is_valid(number)?),
        None => Ok(true),
    }
}

/// Whether a zero is missing in front.
fn says_zero_lost(
    engine: Engine<'_>,
    text: &str,
    number: Option<&PhoneNumber>,
) -> Result<bool, AllocError>
    ensures { IfOk result (λ says. IsTrue says ↔ IsDoubt engine.entry.rules
        engine.entry.database.now engine.entry.hint text.now (option_copied number.entry)
        doubt.ZeroLost) }
{
    let Some(region) = engine.hint else {
        return Ok(false);
    };
    if is_not_valid(engine, number)? {
        lacks_zero(engine, region, text)
    } else {
        Ok(false)
    }
}

/// Whether the number is of a region other than the hint.
fn says_other_region(engine: Engine<'_>, number: Option<&PhoneNumber>) -> Result<bool, AllocError>
    ensures { (t : List ℕ) → IfOk result (λ says. IsTrue says ↔ IsDoubt engine.entry.rules
        engine.entry.database.now engine.entry.hint t (option_copied number.entry)
        doubt.OtherRegion) }
{
    match (engine.hint, number) {
        (Some(hint), Some(number)) => is_elsewhere(engine, hint, number),
        _ => Ok(false),
    }
}
