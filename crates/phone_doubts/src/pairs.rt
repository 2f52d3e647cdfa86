//! Two numbers in one field.
ghost use Rattle.std.specs.Prelude.{◌≡◌, ◌↔◌, ◌++◌, ℕ, chars, IfOk, IsTrue, List, MatchOption};
ghost use Rattle.std.specs.Prelude.{None, Ok, Some};
ghost use Rattle.phone_chars.specs.Cuts.{IsEnd};
ghost use Rattle.phone_doubts.specs.Valid.{AreFirstTwo, ArePartedNumbers, AreReadAsTwo};
ghost use Rattle.phone_doubts.specs.Valid.{IsNoPair, IsNumber, IsValidText};
ghost use Rattle.phone_doubts.specs.Valid.{before_end, behind_one_of, characters};
ghost use Rattle.phone_doubts.specs.Valid.{separators};

use crate::valid::{is_number, valid_number};
use phone_chars::cuts::{before, split_first};
use phone_engine::Engine;
use phonenumber::PhoneNumber;
use std::alloc::AllocError;

/// The two numbers in a field that has two: what stands before and behind a separator that parts
/// it so that each part alone is read as a valid number by the engine, under its hint. Of several
/// such separators the first one counts. None where the field has no such separator.
///
/// Separators are `/`, `;`, `,`, `|`, `&`, a line feed, and the words ` or `, ` and `, ` oder `,
/// ` und `, ` ou `, ` et ` between spaces. Refused only for memory.
pub fn parts<'a>(
    engine: Engine<'_>,
    field: &'a str,
) -> Result<Option<(&'a str, &'a str)>, AllocError>
    ensures { IfOk result (λ found. MatchOption found
        (IsNoPair engine.entry.rules engine.entry.database.now engine.entry.hint
        (chars field.now))
        (λ p. AreFirstTwo engine.entry.rules engine.entry.database.now engine.entry.hint
        (chars field.now) (chars p.0.now) (chars p.1.now))) }
{
    let mut rest = field;
    while let Some((_, next)) = split_first(rest) {
        let found = parts_at(engine, field, rest)?;
        if found.is_some() {
            return Ok(found);
        }
        rest = next;
    }
    Ok(None)
}

/// The numbers that the two parts of a field are read as, by the engine, under its hint; none where
/// `parts` finds none. Refused only for memory.
pub fn two_numbers(
    engine: Engine<'_>,
    field: &str,
) -> Result<Option<(PhoneNumber, PhoneNumber)>, AllocError>
    ensures { IfOk result (λ found. MatchOption found
        (IsNoPair engine.entry.rules engine.entry.database.now engine.entry.hint
        (chars field.now))
        (λ p. AreReadAsTwo engine.entry.rules engine.entry.database.now engine.entry.hint
        (chars field.now) p.0 p.1)) }
{
    let found = parts(engine, field)?;
    numbers_of(engine, found)
}

/// The numbers that two texts are read as, where there are two. Refused only for memory.
fn numbers_of(
    engine: Engine<'_>,
    texts: Option<(&str, &str)>,
) -> Result<Option<(PhoneNumber, PhoneNumber)>, AllocError>
    ensures { MatchOption texts.entry (result ≡ Ok None)
        (λ t. IfOk result (λ found. MatchOption found
        (¬ (IsNumber engine.entry.rules engine.entry.database.now engine.entry.hint
        (chars t.0.now) × IsNumber engine.entry.rules engine.entry.database.now
        engine.entry.hint (chars t.1.now)))
        (λ p. IsValidText engine.entry.rules engine.entry.database.now engine.entry.hint
        (chars t.0.now) p.0 × IsValidText engine.entry.rules engine.entry.database.now
        engine.entry.hint (chars t.1.now) p.1))) }
{
    match texts {
        Some((first, second)) => both_numbers(engine, first, second),
        None => Ok(None),
    }
}

/// The numbers that two texts are read as. Refused only for memory.
fn both_numbers(
    engine: Engine<'_>,
    first: &str,
    second: &str,
) -> Result<Option<(PhoneNumber, PhoneNumber)>, AllocError>
    ensures { IfOk result (λ found. MatchOption found
        (¬ (IsNumber engine.entry.rules engine.entry.database.now engine.entry.hint
        (chars first.now) × IsNumber engine.entry.rules engine.entry.database.now
        engine.entry.hint (chars second.now)))
        (λ p. IsValidText engine.entry.rules engine.entry.database.now engine.entry.hint
        (chars first.now) p.0 × IsValidText engine.entry.rules engine.entry.database.now
        engine.entry.hint (chars second.now) p.1)) }
{
    let Some(first) = valid_number(engine, first)? else {
        return Ok(None);
    };
    match valid_number(engine, second)? {
        Some(second) => Ok(Some((first, second))),
        None => Ok(None),
    }
}

/// The two numbers that a separator parts which stands at the front of an end of a text.
fn parts_at<'a>(
    engine: Engine<'_>,
    text: &'a str,
    rest: &'a str,
) -> Result<Option<(&'a str, &'a str)>, AllocError>
    requires { IsEnd text.now rest.now }
    ensures { IfOk result (λ found. MatchOption found
        ((second : List ℕ) → ¬ (ArePartedNumbers engine.entry.rules engine.entry.database.now
        engine.entry.hint (before_end (chars text.now) (chars rest.now)) (chars rest.now) second))
        (λ p. (chars p.0.now ≡ before_end (chars text.now) (chars rest.now)) ×
        ArePartedNumbers engine.entry.rules engine.entry.database.now engine.entry.hint
        (before_end (chars text.now) (chars rest.now)) (chars rest.now) (chars p.1.now))) }
{
    match behind_separator(rest) {
        Some(second) => where_numbers(engine, before(text, rest), second),
        None => Ok(None),
    }
}

/// Two texts, where each is read as a valid number. Refused only for memory.
fn where_numbers<'a>(
    engine: Engine<'_>,
    first: &'a str,
    second: &'a str,
) -> Result<Option<(&'a str, &'a str)>, AllocError>
    ensures { IfOk result (λ found. MatchOption found
        (¬ (IsNumber engine.entry.rules engine.entry.database.now engine.entry.hint
        (chars first.now) × IsNumber engine.entry.rules engine.entry.database.now
        engine.entry.hint (chars second.now)))
        (λ p. (p.0.now ≡ first.now) × (p.1.now ≡ second.now) ×
        (IsNumber engine.entry.rules engine.entry.database.now engine.entry.hint
        (chars first.now) × IsNumber engine.entry.rules engine.entry.database.now
        engine.entry.hint (chars second.now)))) }
{
    if are_numbers(engine, first, second)? {
        Ok(Some((first, second)))
    } else {
        Ok(None)
    }
}

/// Whether each of two texts is read as a valid number. Refused only for memory.
fn are_numbers(engine: Engine<'_>, first: &str, second: &str) -> Result<bool, AllocError>
    ensures { IfOk result (λ both. IsTrue both ↔ (IsNumber engine.entry.rules
        engine.entry.database.now engine.entry.hint (chars first.now) ×
        IsNumber engine.entry.rules engine.entry.database.now engine.entry.hint
        (chars second.now))) }
{
    if is_number(engine, first)? {
        is_number(engine, second)
    } else {
        Ok(false)
    }
}

/// What follows the separator at the front of a text; none where no separator stands there.
fn behind_separator(text: &str) -> Option<&str>
    ensures { MatchOption result (behind_one_of separators (chars text.now) ≡ None)
        (λ rest. behind_one_of separators (chars text.now) ≡ Some (chars rest.now)) }
{
    behind_one_of(text, &SEPARATORS)
}

/// What follows the first of these words that stands at the front of a text; none where none does.
fn behind_one_of<'a>(text: &'a str, words: &[&str]) -> Option<&'a str>
    ensures { MatchOption result (behind_one_of (characters words.now) (chars text.now) ≡ None)
        (λ rest. behind_one_of (characters words.now) (chars text.now) ≡
        Some (chars rest.now)) }
{
    for word in words {
        if let Some(rest) = behind_word(text, *word) {
            return Some(rest);
        }
    }
    None
}

/// What follows a word at the front of a text; none where it doesn't stand there.
fn behind_word<'a>(text: &'a str, word: &str) -> Option<&'a str>
    ensures { MatchOption result ((rest : List ℕ) → ¬ (chars text.now ≡ chars word.now ++ rest))
        (λ rest. chars text.now ≡ chars word.now ++ chars rest.now) }
{
    text.strip_prefix(word)
}

/// What parts two numbers.
const SEPARATORS: [&str; 12] = [
    "/", ";", ",", "|", "&", "\n", " or ", " and ", " oder ", " und ", " ou ", " et ",
];
