//! How a number is written for calls inside its country with the code of a carrier.
ghost use Rattle.std.specs.Prelude.{◌≡◌, ◌↔◌, Err, IfOk, None, Some, string_bytes, unwrap_or};
ghost use Rattle.phone_values.specs.Numbers.{text_of};
ghost use Rattle.phone_values.specs.declared.mode.Mode.TheVariants as mode;
ghost use Rattle.phone_library.specs.Printed.{printed_by};
ghost use Rattle.std.specs.Option.{option_copied};
ghost use Rattle.phone_questions.specs.Carriers.{carrier_told, dialled_with, national_with};
ghost use Rattle.phone_questions.specs.Carriers.{preferred_carrier};
ghost use Rattle.phone_questions.specs.Matches.{extension_told};

use phone_base::results::zip;
use phone_library::printed;
use phone_plans::Plans;
use phone_values::{Carrier, Extension, Mode, Rules};
use phonenumber::{FormatError, PhoneNumber};
use std::alloc::{AllocError, Global};

/// The national text of a number as it is dialled with the selection code of a carrier, by the
/// carrier's rule of its layout, where there are a carrier that isn't empty and such a rule; its
/// digits alone where its calling code isn't listed. An empty extension is none. Refused only for
/// memory.
pub fn national_with_carrier(
    database: &Plans,
    carrier: &str,
    number: &PhoneNumber,
) -> Result<String, AllocError>
    ensures { IfOk result (λ t. string_bytes t ≡
        national_with database.now carrier.now number.now) }
{
    let dialled = dialled_with(database.allocator(), carrier, number)?;
    national_text(database, &dialled)
}

/// The same with the carrier that was dialled with the number, where it isn't empty, and this one
/// else. Refused only for memory.
pub fn national_with_preferred_carrier(
    database: &Plans,
    other: &str,
    number: &PhoneNumber,
) -> Result<String, AllocError>
    ensures { IfOk result (λ t. string_bytes t ≡ national_with database.now
        (preferred_carrier other.now number.now.carrier) number.now) }
{
    national_with_carrier(database, preferred_carrier(other, number.carrier()), number)
}

/// The carrier that was dialled, where it isn't empty; else another.
fn preferred_carrier<'a>(other: &'a str, dialled: Option<&'a Carrier>) -> &'a str
    ensures { result.now ≡ preferred_carrier other.entry.now (option_copied dialled.entry) }
{
    match dialled {
        Some(carrier) => or_else(carrier.as_str(), other),
        None => other,
    }
}

/// A text that isn't empty, else another.
fn or_else<'a>(text: &'a str, other: &'a str) -> &'a str
    ensures { result.now ≡ preferred_carrier other.entry.now (Some text.entry.now) }
{
    if text.is_empty() { other } else { text }
}

/// The national text of a number, its digits alone where its code isn't listed. Refused only for
/// memory.
fn national_text(database: &Plans, number: &PhoneNumber) -> Result<String, AllocError>
    ensures { IfOk result (λ t. string_bytes t ≡ unwrap_or
        (printed_by Rules.Library database.now mode.National number.now)
        (text_of number.now.national)) }
{
    match printed(database, Mode::National, number) {
        Ok(text) => Ok(text),
        Err(FormatError::UnknownCode) => number.national().to_string(database.allocator()),
        Err(FormatError::Memory) => Err(AllocError),
    }
}

/// A number as it is dialled with a carrier. Refused only for memory.
fn dialled_with(
    alloc: Global,
    carrier: &str,
    number: &PhoneNumber,
) -> Result<PhoneNumber, AllocError>
    ensures { IfOk result (λ n. n ≡ dialled_with carrier.now number.now) }
{
    let (extension, carrier) = zip(extension_told(number), carrier_told(alloc, carrier))?;
    Ok(PhoneNumber::from_parts(*number.code(), *number.national(), extension, carrier))
}

/// The extension of a number, where it isn't empty. Refused only for memory.
fn extension_told(number: &PhoneNumber) -> Result<Option<Extension>, AllocError>
    ensures { IfOk result (λ e. e ≡ extension_told number.now.extension) }
{
    match number.extension() {
        Some(extension) => unless_empty(extension),
        None => Ok(None),
    }
}

/// An extension that isn't empty. Refused only for memory.
fn unless_empty(extension: &Extension) -> Result<Option<Extension>, AllocError>
    ensures { IfOk result (λ e. e ≡ extension_told (Some extension.now)) }
{
    if extension.as_str().is_empty() {
        Ok(None)
    } else {
        Ok(Some(extension.clone()?))
    }
}

/// A carrier that isn't empty. Refused only for memory.
fn carrier_told(alloc: Global, carrier: &str) -> Result<Option<Carrier>, AllocError>
    ensures { IfOk result (λ c. c ≡ carrier_told carrier.now) }
{
    if carrier.is_empty() {
        Ok(None)
    } else {
        Ok(Some(Carrier::from(String::from_str(alloc, carrier)?)))
    }
}
