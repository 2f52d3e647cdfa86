//! What a line of a question gives, and how its answer is written.
use anyhow::{Result, anyhow};
use phone_meta::Database;
use phone_values::country::{Code, Id, Source};
use phone_values::{Extension, NationalNumber, ParseError};
use phonenumber::PhoneNumber;
use replay_base::table::Row;
use replay_base::words::{hint, said};
use std::alloc::{AllocError, Global};

/// The number that a line gives from an argument on.
pub fn number(alloc: Global, row: &Row, db: &Database, at: usize) -> Result<PhoneNumber> {
    let (first, second) = (row.argument(at), row.argument(at.saturating_add(1)));
    if first == "=" {
        return of_parts(alloc, second);
    }
    Ok(phone_library::parse(db, hint(first)?, second)?)
}

/// Why the text that a line gives from an argument on is no number, by the name of the error; none
/// where it is one, and where the line gives the number's parts.
pub fn refusal(row: &Row, db: &Database, at: usize) -> Result<Option<&'static str>> {
    let (first, second) = (row.argument(at), row.argument(at.saturating_add(1)));
    if first == "=" {
        return Ok(None);
    }
    match phone_library::parse(db, hint(first)?, second) {
        Ok(_) => Ok(None),
        Err(error) => Ok(Some(error_name(error))),
    }
}

/// The name of an error.
fn error_name(error: ParseError) -> &'static str {
    match error {
        ParseError::NoNumber => "NoNumber",
        ParseError::InvalidCountryCode => "InvalidCountryCode",
        ParseError::TooShortAfterIdd => "TooShortAfterIdd",
        ParseError::TooShortNsn => "TooShortNsn",
        ParseError::TooLong => "TooLong",
        ParseError::MalformedInteger => "MalformedInteger",
        ParseError::Memory => "Memory",
    }
}

/// The number of these parts, with spaces between: code, digits, perhaps an extension.
fn of_parts(alloc: Global, text: &str) -> Result<PhoneNumber> {
    let mut parts = text.splitn(3, ' ');
    let (Some(code), Some(digits)) = (parts.next(), parts.next()) else {
        return Err(anyhow!("a number has a code and digits"));
    };
    let extension = extension_of(alloc, parts.next())?;
    let (code, national) = (
        Code::new(code.parse::<u16>()?, Source::Default),
        national(digits)?,
    );
    Ok(PhoneNumber::from_parts(code, national, extension, None))
}

/// The extension of a text.
fn extension_of(alloc: Global, text: Option<&str>) -> Result<Option<Extension>, AllocError> {
    match text {
        Some(text) => Ok(Some(Extension::from(String::from_str(alloc, text)?))),
        None => Ok(None),
    }
}

/// The national number of digits: of zeros alone the last is the value.
fn national(digits: &str) -> Result<NationalNumber> {
    let value = digits.parse::<u64>()?;
    let rest = digits.trim_start_matches('0');
    let zeros = digits
        .len()
        .saturating_sub(if rest.is_empty() { 1 } else { rest.len() });
    Ok(NationalNumber::new(value, u8::try_from(zeros)?)?)
}

/// The region of this name; none where no region has it.
pub fn region(name: &str) -> Option<Id> {
    match name.parse::<Id>() {
        Ok(region) => Some(region),
        Err(_) => None,
    }
}

/// `yes` or `no`.
pub fn yes(alloc: Global, holds: bool) -> Result<String> {
    said(alloc, if holds { "yes" } else { "no" })
}

/// A text, `empty` for the empty one, `-` where there is none.
pub fn shown(alloc: Global, text: Option<&str>) -> Result<String> {
    match text {
        None => said(alloc, "-"),
        Some("") => said(alloc, "empty"),
        Some(text) => said(alloc, text),
    }
}

/// The parts of a number: code, national digits, perhaps an extension.
pub fn parts(alloc: Global, number: &PhoneNumber) -> Result<String> {
    let (code, national) = (number.code().value(), number.national());
    match number.extension() {
        Some(extension) => Ok(format!(in alloc; "{code} {national} {extension}")?),
        None => Ok(format!(in alloc; "{code} {national}")?),
    }
}
