//! Whether a number that is dialled from a territory lies within the premises of
//! `phone_engine::dialled::laws` under which it is read back there, decided by code of its own and
//! not by reading a text.
use anyhow::Result;
use phone_chars::chars::is_digit;
use phone_meta::{Database, Metadata};
use phone_values::Mode;
use phonenumber::PhoneNumber;
use replay_numbers::premises::{Premises, leaves_all};
use std::alloc::{AllocError, Global};

/// How the code of a number is told in the text that is dialled from a territory: by the
/// territory itself where it is its own code, else by a prefix or a plus sign.
pub fn how_told(from: &Metadata, number: &PhoneNumber) -> &'static str {
    if is_own(from, number) {
        return "region";
    }
    match prefix(from) {
        Some(_) => "prefix",
        None => "plus",
    }
}

/// Whether a number that is dialled from a territory lies within the premises. An error where
/// memory is refused.
pub fn is_within(db: &Database, from: &Metadata, number: &PhoneNumber) -> Result<bool> {
    let premises = Premises::under(db);
    if is_own(from, number) || !premises.is_found(number) {
        return Ok(false);
    }
    Ok(is_plain(&premises, number)? && is_kept(db.allocator(), from, number)?)
}

/// Whether a number has the code of a territory.
fn is_own(from: &Metadata, number: &PhoneNumber) -> bool {
    from.country_code() == number.code().value()
}

/// Whether the number is plain for international text, and an extension, if there is one, announced
/// in a way that free text knows. An error where memory is refused.
fn is_plain(premises: &Premises<'_>, number: &PhoneNumber) -> Result<bool> {
    Ok(premises.is_announced(number)? && premises.is_plain(Mode::International, number)?)
}

/// Whether a territory takes just what is dialled before the code for an international prefix, and
/// leaves the digits behind the code as they are. Refused only for memory.
fn is_kept(alloc: Global, from: &Metadata, number: &PhoneNumber) -> Result<bool, AllocError> {
    Ok(leaves_national(alloc, from, number)? && finds_front(alloc, from, number)?)
}

/// Whether a territory's rules leave the digits of a number's national part. Refused only for
/// memory.
fn leaves_national(
    alloc: Global,
    from: &Metadata,
    number: &PhoneNumber,
) -> Result<bool, AllocError> {
    let digits = number.national().to_string(alloc)?;
    leaves_all(from, digits.as_str())
}

/// Whether a territory's pattern of international prefixes finds, in front of code and national
/// number, just the prefix that is dialled, which is digits, or none where none is. Refused only
/// for memory.
fn finds_front(alloc: Global, from: &Metadata, number: &PhoneNumber) -> Result<bool, AllocError> {
    match prefix(from) {
        Some(prefix) => finds_prefix(alloc, from, prefix, number),
        None => finds_none(alloc, from, number),
    }
}

/// Whether the prefix is digits, and the pattern finds it. Refused only for memory.
fn finds_prefix(
    alloc: Global,
    from: &Metadata,
    prefix: &str,
    number: &PhoneNumber,
) -> Result<bool, AllocError> {
    if digits(prefix).is_none() {
        return Ok(false);
    }
    let (code, national) = (number.code().value(), number.national());
    let dialled = format!(in alloc; "{prefix}{code}{national}")?;
    is_span(from, dialled.as_str(), prefix.len())
}

/// Whether the pattern finds first what stands before this place. Refused only for memory.
fn is_span(from: &Metadata, dialled: &str, end: usize) -> Result<bool, AllocError> {
    Ok(span(from, dialled)? == Some((0, end)))
}

/// Whether the pattern finds no international prefix in front of code and national number. Refused
/// only for memory.
fn finds_none(alloc: Global, from: &Metadata, number: &PhoneNumber) -> Result<bool, AllocError> {
    let (code, national) = (number.code().value(), number.national());
    let coded = format!(in alloc; "{code}{national}")?;
    is_no_front(from, coded.as_str())
}

/// Whether what the pattern finds first in digits is no international prefix: it stands further
/// back, or a 0 behind it. Refused only for memory.
fn is_no_front(from: &Metadata, coded: &str) -> Result<bool, AllocError> {
    match span(from, coded)? {
        Some((0, end)) => Ok(coded.get(end..).unwrap_or("").starts_with("0")),
        _ => Ok(true),
    }
}

/// What a territory's pattern of international prefixes finds first in digits. Refused only for
/// memory.
fn span(from: &Metadata, digits: &str) -> Result<Option<(usize, usize)>, AllocError> {
    match from.international_prefix_pattern() {
        Some(pattern) => pattern.first_span(digits),
        None => Ok(None),
    }
}

/// The international prefix that is dialled: the preferred one, if that isn't empty, else the
/// pattern where that is digits.
fn prefix(from: &Metadata) -> Option<&str> {
    match from.preferred_international_prefix() {
        Some(preferred) if !preferred.is_empty() => Some(preferred),
        _ => only_prefix(from),
    }
}

/// The pattern of a territory's international prefixes, where that is digits.
fn only_prefix(from: &Metadata) -> Option<&str> {
    let pattern = from.international_prefix_pattern()?;
    digits(pattern.as_str())
}

/// A text that is digits, one at least.
fn digits(text: &str) -> Option<&str> {
    if !text.is_empty() && text.chars().all(is_digit) {
        Some(text)
    } else {
        None
    }
}
