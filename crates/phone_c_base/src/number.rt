//! A phone number as plain numbers, and the bytes in which its texts stand.
ghost use Rattle.std.specs.Prelude.{◌≡◌, ◌⊎◌, ℕ, ◌+◌, ◌<◌, List, Option, [], length, unwrap_or};
ghost use Rattle.std.specs.Prelude.{◌↔◌, IfOk, IfErr};
ghost use Rattle.std.specs.Prelude.{IfSome, IfNone, IsNone, None};
ghost use Rattle.std.specs.Option.{option_copied};
ghost use Rattle.phone_values.specs.declared.country.Source as source;
ghost use Rattle.phone_c_base.specs.Numbers.{AreNoNumber, AreNone, HasNumbers, IsAt, IsNumber};
ghost use Rattle.phone_c_base.specs.Numbers.{IsPart};
ghost use Rattle.phone_c_base.specs.Numbers.{source_number};

use crate::status::{BAD_NUMBER, MEMORY};
use phonenumber::country::{Code, Source};
use phonenumber::{Carrier, Extension, NationalNumber, PhoneNumber};
use std::alloc::{AllocError, Global};

/// Where a text stands that may be absent, in bytes beside it.
#[repr(C)]
#[derive(Clone, Copy, Debug, PartialEq, Eq)]
pub struct Part {
    /// The place of its first byte.
    pub start: usize,
    /// How many bytes it has.
    pub len: usize,
    /// 0 where there is no such text, and else not.
    pub is_there: u8,
}

/// A phone number. Its texts stand in bytes beside it, at their places.
#[repr(C)]
#[derive(Clone, Copy, Debug, PartialEq, Eq)]
pub struct Number {
    /// The national number without its leading zeros, below 2^56.
    pub value: u64,
    /// The extension.
    pub extension: Part,
    /// The carrier's selection code.
    pub carrier: Part,
    /// The calling code, as 64 for New Zealand.
    pub code: u16,
    /// How it was found: 0 after a plus sign, 1 after an international prefix, 2 as digits at the
    /// front, 3 from the hint.
    pub source: u8,
    /// How many zeros stand before the value.
    pub zeros: u8,
}

/// How a calling code was found, by its number.
pub fn source_number(source: Source) -> u8
    ensures { result ≡ source_number source }
{
    match source {
        Source::Plus => 0,
        Source::Idd => 1,
        Source::Number => 2,
        Source::Default => 3,
    }
}

/// The text of a number's extension.
pub fn extension_of(number: &PhoneNumber) -> Option<&str>
    ensures { option_copied result ≡ number.now.extension }
{
    match number.extension() {
        Some(extension) => Some(extension.as_str()),
        None => None,
    }
}

/// The text of a number's carrier.
pub fn carrier_of(number: &PhoneNumber) -> Option<&str>
    ensures { option_copied result ≡ number.now.carrier }
{
    match number.carrier() {
        Some(carrier) => Some(carrier.as_str()),
        None => None,
    }
}

/// A text, or none as the empty one.
pub fn or_empty(text: Option<&str>) -> &str
    ensures { result.now ≡ unwrap_or (option_copied text.entry) [] }
{
    match text {
        Some(text) => text,
        None => "",
    }
}

/// Where a text stands that begins at a place.
pub fn part_of(text: Option<&str>, start: usize) -> Part
    ensures part { (bytes : List ℕ) →
        IsAt bytes start (unwrap_or (option_copied text.entry) []) →
        IsPart result bytes (option_copied text.entry) }
    ensures place { result.start ≡ start }
    ensures none { IsNone text.entry → result.len ≡ 0 }
{
    match text {
        Some(text) => Part {
            start,
            len: text.len(),
            is_there: 1,
        },
        None => Part {
            start,
            len: 0,
            is_there: 0,
        },
    }
}

/// The plain numbers of a number whose texts stand there.
pub fn number_of(read: &PhoneNumber, extension: Part, carrier: Part) -> Number
    ensures numbers { HasNumbers result read.now }
    ensures extension { result.extension ≡ extension }
    ensures carrier { result.carrier ≡ carrier }
{
    Number {
        value: read.national().value(),
        extension,
        carrier,
        code: read.code().value(),
        source: source_number(read.code().source()),
        zeros: read.national().zeros(),
    }
}

/// How a calling code was found, of a number; none for others than these four.
fn source_of(number: u8) -> Option<Source>
    ensures found { IfSome result (λ s. source_number s ≡ number) }
    ensures none { IfNone result ((s : source.Source) → ¬ (source_number s ≡ number)) }
{
    match number {
        0 => Some(Source::Plus),
        1 => Some(Source::Idd),
        2 => Some(Source::Number),
        3 => Some(Source::Default),
        _ => None,
    }
}

/// The number of plain numbers, without its texts; none where they are no number's.
pub fn bare(number: &Number) -> Option<PhoneNumber>
    ensures found { IfSome result (λ n. HasNumbers number.now n) }
    ensures texts { IfSome result (λ n. (n.extension ≡ None) × (n.carrier ≡ None)) }
    ensures none { IfNone result (AreNone number.now) }
{
    let source = source_of(number.source)?;
    match NationalNumber::new(number.value, number.zeros) {
        Ok(national) => {
            let code = Code::new(number.code, source);
            Some(PhoneNumber::from_parts(code, national, None, None))
        }
        Err(_) => None,
    }
}

/// The text that stands at a part's place, where there is one; none where the part lies outside the
/// bytes or isn't UTF-8.
fn text_at(part: Part, bytes: &[u8]) -> Option<Option<&str>>
    ensures found { IfSome result (λ t. IsPart part bytes.entry.now (option_copied t)) }
    ensures none { IfNone result
        ((t : Option (List ℕ)) → ¬ (IsPart part bytes.entry.now t)) }
{
    if part.is_there == 0 {
        return Some(None);
    }
    match slice_at(part, bytes) {
        Some(slice) => match std::str::from_utf8(slice) {
            Ok(text) => Some(Some(text)),
            Err(_) => None,
        },
        None => None,
    }
}

/// The bytes at a part's place; none where it lies outside.
fn slice_at(part: Part, bytes: &[u8]) -> Option<&[u8]>
    ensures found { IfSome result (λ s.
        (part.len ≡ length s.now) × IsAt bytes.entry.now part.start s.now) }
    ensures none { IfNone result (length bytes.entry.now < part.start + part.len) }
{
    let end = part.start.checked_add(part.len)?;
    bytes.get(part.start..end)
}

/// The texts of an extension and a carrier as a number's; none where there is none.
fn own_texts(
    alloc: Global,
    extension: Option<&str>,
    carrier: Option<&str>,
) -> Result<(Option<Extension>, Option<Carrier>), AllocError>
    ensures extension { IfOk result (λ o. o.0 ≡ option_copied extension.entry) }
    ensures carrier { IfOk result (λ o. o.1 ≡ option_copied carrier.entry) }
{
    let extension = match extension {
        Some(text) => Some(Extension::from(String::from_str(alloc, text)?)),
        None => None,
    };
    let carrier = match carrier {
        Some(text) => Some(Carrier::from(String::from_str(alloc, text)?)),
        None => None,
    };
    Ok((extension, carrier))
}

/// The number of plain numbers with its texts; `BAD_NUMBER` where they are none, else `MEMORY`.
pub fn to_phone_number(alloc: Global, number: &Number, bytes: &[u8]) -> Result<PhoneNumber, u32>
    ensures found { IfOk result (λ n. IsNumber number.now bytes.now n) }
    ensures bad { (result ≡ Err BAD_NUMBER) ↔ AreNoNumber number.now bytes.now }
    ensures refused { IfErr result (λ s. (s ≡ MEMORY) ⊎ (s ≡ BAD_NUMBER)) }
{
    let Some(plain) = bare(number) else {
        return Err(BAD_NUMBER);
    };
    let Some(extension) = text_at(number.extension, bytes) else {
        return Err(BAD_NUMBER);
    };
    let Some(carrier) = text_at(number.carrier, bytes) else {
        return Err(BAD_NUMBER);
    };
    match own_texts(alloc, extension, carrier) {
        Ok((extension, carrier)) => {
            let code = *plain.code();
            Ok(PhoneNumber::from_parts(code, *plain.national(), extension, carrier))
        }
        Err(_) => Err(MEMORY),
    }
}
