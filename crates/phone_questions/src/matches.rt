//! How like two numbers are.
ghost use Rattle.std.specs.Prelude.{◌≡◌, if◌then◌else◌, IfOk, Some, nat_eq};
ghost use Rattle.std.specs.List.{ends_with};
ghost use Rattle.std.specs.Option.{option_copied};
ghost use Rattle.phone_questions.specs.Matches.{are_two_extensions, are_unlike_codes};
ghost use Rattle.phone_questions.specs.Matches.{extension_told, is_end_of_either};
ghost use Rattle.phone_questions.specs.Matches.{is_one_extension, is_one_national, is_one_number};
ghost use Rattle.phone_questions.specs.Matches.{lacks_code, match_as, match_of};

use phone_values::{Extension, NationalNumber};
use phonenumber::PhoneNumber;
use std::alloc::{AllocError, Global};

/// How like two numbers are, by libphonenumber's words.
#[derive(Clone, Copy, PartialEq, Eq, Debug)]
pub enum NumberMatch {
    /// One of two texts is no number.
    NotANumber,

    /// Two numbers.
    NoMatch,

    /// The national number of one, leading zeros aside, is an end of the other's; or they are one,
    /// and just one has an extension.
    ShortNsnMatch,

    /// One national number and one extension, or none; the calling code of one isn't known.
    NsnMatch,

    /// One calling code, one national number, and one extension or none.
    ExactMatch,
}

/// How like two numbers are. One of the calling code 0, which no number has, is one whose code
/// isn't known. An empty extension is none. Refused only for memory.
pub fn match_of(alloc: Global, a: &PhoneNumber, b: &PhoneNumber) -> Result<NumberMatch, AllocError>
    ensures { IfOk result (λ m. m ≡ match_of a.now b.now) }
{
    if are_two_extensions(extension_told(a.extension()), extension_told(b.extension())) {
        return Ok(NumberMatch::NoMatch);
    }
    if are_unlike_codes(a.code().value(), b.code().value()) {
        return Ok(NumberMatch::NoMatch);
    }
    match_as(alloc, best(a, b), a, b)
}

/// How like two numbers are whose codes match, if they are one number.
fn best(a: &PhoneNumber, b: &PhoneNumber) -> NumberMatch
    ensures { result ≡
        (if lacks_code a.now b.now then NumberMatch.NsnMatch else NumberMatch.ExactMatch) }
{
    if a.code().value() == 0 || b.code().value() == 0 {
        NumberMatch::NsnMatch
    } else {
        NumberMatch::ExactMatch
    }
}

/// So like where they are one number; else the end of one may be the other. Refused only for
/// memory.
fn match_as(
    alloc: Global,
    whole: NumberMatch,
    a: &PhoneNumber,
    b: &PhoneNumber,
) -> Result<NumberMatch, AllocError>
    ensures { IfOk result (λ m. m ≡ match_as whole a.now b.now) }
{
    if is_one_number(a, b) {
        return Ok(whole);
    }
    if is_end_of_either(alloc, a.national().value(), b.national().value())? {
        Ok(NumberMatch::ShortNsnMatch)
    } else {
        Ok(NumberMatch::NoMatch)
    }
}

/// Whether two calling codes are known, and two.
fn are_unlike_codes(x: u16, y: u16) -> bool
    ensures { result ≡ are_unlike_codes x y }
{
    !(x == y || x == 0 || y == 0)
}

/// Whether two numbers have one national number, and one extension.
fn is_one_number(a: &PhoneNumber, b: &PhoneNumber) -> bool
    ensures { result ≡ is_one_number a.now b.now }
{
    is_one_national(*a.national(), *b.national())
        && is_one_extension(extension_told(a.extension()), extension_told(b.extension()))
}

/// Whether two national numbers have one value after as many zeros.
fn is_one_national(a: NationalNumber, b: NationalNumber) -> bool
    ensures { result ≡ is_one_national a b }
{
    a.zeros() == b.zeros() && a.value() == b.value()
}

/// The text of an extension that isn't empty.
pub fn extension_told(extension: Option<&Extension>) -> Option<&str>
    ensures { option_copied result ≡ extension_told (option_copied extension.entry) }
{
    match extension {
        Some(extension) => some(extension.as_str()),
        None => None,
    }
}

/// A text that isn't empty.
fn some(text: &str) -> Option<&str>
    ensures { option_copied result ≡ extension_told (Some text.entry.now) }
{
    if text.is_empty() { None } else { Some(text) }
}

/// Whether both extensions are absent, or of one text.
fn is_one_extension(a: Option<&str>, b: Option<&str>) -> bool
    ensures { result ≡ is_one_extension (option_copied a.entry) (option_copied b.entry) }
{
    match (a, b) {
        (None, None) => true,
        (Some(a), Some(b)) => a == b,
        _ => false,
    }
}

/// Whether both extensions are there, and of two texts.
fn are_two_extensions(a: Option<&str>, b: Option<&str>) -> bool
    ensures { result ≡ are_two_extensions (option_copied a.entry) (option_copied b.entry) }
{
    match (a, b) {
        (Some(a), Some(b)) => a != b,
        _ => false,
    }
}

/// Whether the digits of one value are an end of the other's. Refused only for memory.
fn is_end_of_either(alloc: Global, x: u64, y: u64) -> Result<bool, AllocError>
    ensures { IfOk result (λ found. found ≡ is_end_of_either x y) }
{
    let x = x.to_string(alloc)?;
    let y = y.to_string(alloc)?;
    Ok(stands_at_end(x.as_str(), y.as_str()) || stands_at_end(y.as_str(), x.as_str()))
}

/// Whether one text is an end of another.
fn stands_at_end(end: &str, text: &str) -> bool
    ensures { result ≡ ends_with nat_eq text.now end.now }
{
    text.ends_with(end)
}
