//! The texts of errors that no other call tells, and the errors of records as copies.
use anyhow::{Result, anyhow};
use phone_base::MetadataError;
use phone_base::results::zip;
use phone_book::{BookError, BookNewError};
use phone_values::country::UnknownId;
use phonenumber::{FormatError, ParseError};
use replay_base::marks::{around, begin};
use replay_base::table::Row;
use std::alloc::{AllocError, Global};
use std::fmt::Display;

/// What an error says, as the table writes it; none for any other call. An error where a line names
/// an error that isn't there, and where memory is refused.
pub fn answer(alloc: Global, row: &Row) -> Result<Option<String>> {
    let answer = match row.call() {
        "error-text" => of_name(alloc, row.argument(0)),
        "record-error" => of_line(alloc, row),
        _ => return Ok(None),
    };
    Ok(Some(answer?))
}

/// The text of the record's error that a line names, and whether a copy is equal to it.
fn of_line(alloc: Global, row: &Row) -> Result<String> {
    let error = record_error(alloc, row)?;
    of_record(alloc, &error)
}

/// The text of an error.
fn text<T: Display>(alloc: Global, error: &T) -> Result<String> {
    Ok(around(alloc, begin(alloc), error_text(alloc, error))?)
}

/// An error as it is printed.
fn error_text<T: Display>(alloc: Global, error: &T) -> Result<String, AllocError> {
    error.to_string(alloc)
}

/// The text of the error of this name.
fn of_name(alloc: Global, name: &str) -> Result<String> {
    match name {
        "UnknownId" => text(alloc, &UnknownId),
        "UnknownCode" => text(alloc, &FormatError::UnknownCode),
        "FormatError::Memory" => text(alloc, &FormatError::Memory),
        "Refused(NoNumber)" => text(alloc, &BookError::Refused(ParseError::NoNumber)),
        "BookError::Memory" => text(alloc, &BookError::Memory),
        "Ambiguous" => text(alloc, &BookNewError::Ambiguous),
        _ => Err(anyhow!("no error has this name")),
    }
}

/// The text of a record's error, and whether a copy of the error is equal to it.
fn of_record(alloc: Global, error: &MetadataError) -> Result<String> {
    let copy = around(alloc, begin(alloc), error.clone())?;
    equality_words(alloc, error, &copy)
}

/// The text of a record's error, and whether another is equal to it.
fn equality_words(alloc: Global, error: &MetadataError, copy: &MetadataError) -> Result<String> {
    let is_equal = *copy == *error;
    Ok(format!(in alloc; "{error}\t{is_equal}")?)
}

/// The record's error that a line names, of the words behind the name.
fn record_error(alloc: Global, row: &Row) -> Result<MetadataError> {
    let words = zip(
        String::from_str(alloc, row.argument(1)),
        String::from_str(alloc, row.argument(2)),
    );
    let ((phase, name), value) = zip(words, String::from_str(alloc, row.argument(3)))?;
    match row.argument(0) {
        "UnexpectedEof" => Ok(MetadataError::UnexpectedEof),
        "MismatchedTag" => Ok(MetadataError::MismatchedTag(name)),
        "MissingValue" => Ok(MetadataError::MissingValue { phase, name }),
        "UnhandledElement" => Ok(MetadataError::UnhandledElement { phase, name }),
        "UnhandledAttribute" => Ok(MetadataError::UnhandledAttribute { phase, name, value }),
        "UnhandledEvent" => Ok(MetadataError::UnhandledEvent { phase, event: name }),
        _ => Err(anyhow!("no error of a record has this name")),
    }
}
