//! What columns tell of the two numbers in a field that has two.
ghost use Rattle.std.specs.Prelude.{◌≡◌, [], IfOk, IfSome, MatchOption, Some, chars, string_bytes};
ghost use Rattle.phone_answers.specs.Spelled.{spelled_known};
ghost use Rattle.phone_answers.specs.Splits.{IsListed, IsShown, IsSplit, IsSplitText};
ghost use Rattle.phone_answers.specs.Splits.{one_of, shown_in};

use crate::answer::{Known, known_of};
use phone_doubts::two_numbers;
use phone_engine::Engine;
use phone_engine::words::{kind_word, region_word};
use phonenumber::country::Id;
use phonenumber::{FormatError, PhoneNumber};
use std::alloc::{AllocError, Global};

/// Which of two numbers.
#[derive(Clone, Copy, PartialEq, Eq, Debug)]
pub enum Which {
    /// The first one.
    First,
    /// The second one.
    Second,
}

/// What is told of one of two numbers, as the answer to it alone would tell it.
#[derive(Clone, Copy, PartialEq, Eq, Debug)]
pub enum Shown {
    /// Its E.164 text.
    E164,
    /// Its type.
    Kind,
    /// Its region.
    Region,
}

/// One of two numbers.
fn one_of<'a>(which: Which, first: &'a PhoneNumber, second: &'a PhoneNumber) -> &'a PhoneNumber
    ensures { result.now ≡ one_of which first.now second.now }
{
    match which {
        Which::First => first,
        Which::Second => second,
    }
}

/// What is told of a number, of which this is known. Refused only for memory.
fn shown_in(alloc: Global, known: &Known, shown: Shown) -> Result<String, AllocError>
    ensures { IfOk result (λ text. string_bytes text ≡ shown_in (spelled_known known.now) shown) }
{
    match shown {
        Shown::E164 => String::from_str(alloc, known.texts.e164.as_str()),
        Shown::Kind => String::from_str(alloc, kind_word(known.facts.kind)),
        Shown::Region => String::from_str(alloc, region_word(known.facts.region)),
    }
}

/// What is told of a number whose code is listed. Refused only for memory.
fn shown_of(engine: Engine<'_>, number: &PhoneNumber, shown: Shown) -> Result<String, AllocError>
    requires { IsListed engine.database.now number.now }
    ensures { IfOk result (λ text. IsShown engine.entry.rules engine.entry.database.now number.now
        shown (string_bytes text)) }
{
    match known_of(engine, number) {
        Ok(known) => shown_in(engine.database.allocator(), &known, shown),
        Err(FormatError::Memory) => Err(AllocError),
        Err(FormatError::UnknownCode) => unreachable!(),
    }
}

/// What is told of one of two numbers whose codes are listed, where there are two; an empty text
/// where there aren't. Refused only for memory.
fn shown_of_pair(
    engine: Engine<'_>,
    pair: &Option<(PhoneNumber, PhoneNumber)>,
    which: Which,
    shown: Shown,
) -> Result<String, AllocError>
    requires { IfSome pair.now (λ p. IsListed engine.database.now (one_of which p.0 p.1)) }
    ensures { MatchOption pair.now (IfOk result (λ text. string_bytes text ≡ []))
        (λ p. IfOk result (λ text. IsShown engine.entry.rules engine.entry.database.now
        (one_of which p.0 p.1) shown (string_bytes text))) }
{
    match pair {
        Some((first, second)) => shown_of(engine, one_of(which, first, second), shown),
        None => Ok(String::new(engine.database.allocator())),
    }
}

/// What is told of one of the two numbers that a text is; an empty text where it isn't two. Refused
/// only for memory.
fn split_text(
    engine: Engine<'_>,
    text: &str,
    which: Which,
    shown: Shown,
) -> Result<String, AllocError>
    ensures { IfOk result (λ told. IsSplitText engine.entry.rules engine.entry.database.now
        engine.entry.hint (chars text.now) which shown (string_bytes told)) }
{
    let found = two_numbers(engine, text)?;
    shown_of_pair(engine, &found, which, shown)
}

/// The same of a field that was read under the engine's hint, without the white space around it;
/// empty where its bytes are no text.
fn split_field(
    engine: Engine<'_>,
    field: &[u8],
    which: Which,
    shown: Shown,
) -> Result<String, AllocError>
    ensures { IfOk result (λ told. IsSplit engine.entry.rules engine.entry.database.now
        (Some engine.entry.hint) field.now which shown (string_bytes told)) }
{
    match std::str::from_utf8(field) {
        Ok(text) => split_text(engine, text.trim(), which, shown),
        Err(_) => Ok(String::new(engine.database.allocator())),
    }
}

/// The same of a field that was read under a hint, if it was; empty where it wasn't.
pub(crate) fn split_of(
    engine: Engine<'_>,
    under: Option<Option<Id>>,
    field: &[u8],
    which: Which,
    shown: Shown,
) -> Result<String, AllocError>
    ensures { IfOk result (λ told. IsSplit engine.entry.rules engine.entry.database.now under
        field.now which shown (string_bytes told)) }
{
    match under {
        Some(hint) => split_field(Engine { hint, ..engine }, field, which, shown),
        None => Ok(String::new(engine.database.allocator())),
    }
}
