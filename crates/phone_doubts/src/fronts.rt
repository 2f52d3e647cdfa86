//! What is wrong in front of a number.
ghost use Rattle.std.specs.Prelude.{◌≡◌, ◌↔◌, ◌++◌, chars, IfOk, IsTrue};
ghost use Rattle.std.specs.Prelude.{Some, string_bytes};
ghost use Rattle.std.specs.List.{filter};
ghost use Rattle.phone_chars.specs.Characters.{is_digit};
ghost use Rattle.phone_doubts.specs.Fronts.{IsDialledByHint, IsReadSigned, LacksPlus};
ghost use Rattle.phone_doubts.specs.Fronts.{LacksZero, ends_in_code, has_zero_in_brackets};
ghost use Rattle.phone_doubts.specs.Fronts.{lost_front};
ghost use Rattle.phone_values.specs.declared.country.Source.TheVariants.{Default};

use crate::parted::split_at_word;
use crate::valid::valid_number;
use itoa::Buffer;
use phone_engine::Engine;
use phone_plans::Territory;
use phone_values::country::{Id, Source};
use phonenumber::PhoneNumber;
use std::alloc::{AllocError, Global};

/// Whether a number's calling code stands at the front of its text without a plus sign, and was
/// read as a part of it. Refused only for memory.
pub(crate) fn lacks_plus(
    engine: Engine<'_>,
    text: &str,
    number: &PhoneNumber,
) -> Result<bool, AllocError>
    ensures { IfOk result (λ lacks. IsTrue lacks ↔ LacksPlus engine.entry.rules
        engine.entry.database.now engine.entry.hint text.now number.now) }
{
    match number.code().source() {
        Source::Default => is_read_signed(engine, text, number),
        Source::Plus | Source::Idd | Source::Number => Ok(false),
    }
}

/// Whether a text with a plus sign in front is read as another valid number of a number's calling
/// code. Refused only for memory.
fn is_read_signed(engine: Engine<'_>, text: &str, number: &PhoneNumber) -> Result<bool, AllocError>
    ensures { IfOk result (λ signed. IsTrue signed ↔ IsReadSigned engine.entry.rules
        engine.entry.database.now engine.entry.hint text.now number.now) }
{
    let signed = joined(engine.database.allocator(), "+", text)?;
    match valid_number(engine, signed.as_str())? {
        Some(other) => Ok(is_other_of_code(number, &other)),
        None => Ok(false),
    }
}

/// Whether two numbers have one calling code, and differ in their national numbers.
fn is_other_of_code(number: &PhoneNumber, other: &PhoneNumber) -> bool
    ensures { IsTrue result ↔ ((other.now.code.value ≡ number.now.code.value) ×
        ¬ (other.now.national ≡ number.now.national)) }
{
    other.code().value() == number.code().value() && other.national() != number.national()
}

/// One text behind another. Refused only for memory.
fn joined(alloc: Global, front: &str, text: &str) -> Result<String, AllocError>
    ensures { IfOk result (λ whole. string_bytes whole ≡ front.now ++ text.now) }
{
    let mut whole = String::with_capacity(alloc, front.len() + text.len())?;
    whole.push_str(front)?;
    whole.push_str(text)?;
    Ok(whole)
}

/// Whether a text has brackets around a zero behind a number's calling code. Refused only for
/// memory.
pub(crate) fn has_zero_in_brackets(
    alloc: Global,
    text: &str,
    number: &PhoneNumber,
) -> Result<bool, AllocError>
    ensures { IfOk result (λ has. has ≡ has_zero_in_brackets number.now.code.value text.now) }
{
    has_brackets_behind(alloc, text.as_bytes(), number.code().value())
}

/// Whether a text has brackets around a zero behind this calling code. Refused only for memory.
fn has_brackets_behind(alloc: Global, text: &[u8], code: u16) -> Result<bool, AllocError>
    ensures { IfOk result (λ has. has ≡ has_zero_in_brackets code text.now) }
{
    match split_at_word(text, b"(0)") {
        Some((before, _)) => ends_in_code(alloc, before, code),
        None => Ok(false),
    }
}

/// Whether the digits of a text end in a calling code. Refused only for memory.
fn ends_in_code(alloc: Global, text: &[u8], code: u16) -> Result<bool, AllocError>
    ensures { IfOk result (λ ends. ends ≡ ends_in_code code text.now) }
{
    let digits = digits_of(alloc, text)?;
    let mut buffer = Buffer::new();
    Ok(digits.as_slice().ends_with(buffer.format(code).as_bytes()))
}

/// The digits of a text. Refused only for memory.
fn digits_of(alloc: Global, text: &[u8]) -> Result<Vec<u8>, AllocError>
    ensures { IfOk result (λ digits. digits.items ≡ filter is_digit text.now) }
{
    text.iter()
        .copied()
        .filter(|byte| byte.is_ascii_digit())
        .collect(alloc)
}

/// Whether a text is read as a valid number of a region with what may have been lost in front of
/// it. The engine's hint is the region. Refused only for memory.
pub(crate) fn lacks_zero(engine: Engine<'_>, region: Id, text: &str) -> Result<bool, AllocError>
    requires { engine.hint ≡ Some region }
    ensures { IfOk result (λ lacks. IsTrue lacks ↔ LacksZero engine.entry.rules
        engine.entry.database.now region text.now) }
{
    match engine.database.by_id(region.as_str()) {
        Some(territory) => is_dialled_by_hint(engine, lost_front(territory), text),
        None => Ok(false),
    }
}

/// What is dialled in front of a territory's national numbers: its national prefix, or a zero.
fn lost_front(territory: &Territory) -> &str
    ensures { result.now ≡ lost_front territory.now }
{
    match territory.national_prefix() {
        Some(prefix) => prefix,
        None => "0",
    }
}

/// Whether a text with this in front is read as a valid number, by the hint's calling code alone.
/// Refused only for memory.
fn is_dialled_by_hint(engine: Engine<'_>, front: &str, text: &str) -> Result<bool, AllocError>
    ensures { IfOk result (λ dialled. IsTrue dialled ↔ IsDialledByHint engine.entry.rules
        engine.entry.database.now engine.entry.hint (chars (front.now ++ text.now))) }
{
    let whole = joined(engine.database.allocator(), front, text)?;
    match valid_number(engine, whole.as_str())? {
        Some(number) => Ok(is_by_hint(&number)),
        None => Ok(false),
    }
}

/// Whether the calling code of a number is the hint's alone.
fn is_by_hint(number: &PhoneNumber) -> bool
    ensures { IsTrue result ↔ (number.now.code.source ≡ Default) }
{
    matches!(number.code().source(), Source::Default)
}
