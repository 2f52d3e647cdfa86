//! The calls that print a number which a line gives by its parts, and read the text back without a
//! hint.
use crate::given::with_extension;
use crate::printing::text_or_refusal;
use crate::reading::push_parts_or_refusal;
use anyhow::{Result, anyhow};
use phone_base::results::zip_value;
use phone_meta::Database;
use phone_values::{Mode, ParseError};
use phonenumber::{PhoneNumber, format_with, round_trip};
use replay_base::marks::{around, begin};
use replay_base::table::Row;
use replay_base::words::{mode, truth};
use std::alloc::Global;

/// What the port answers to one of these calls, as the table writes it; none for any other call. An
/// error where a line names a mode that isn't there or is national, where it gives a number that is
/// none, and where memory is refused.
pub fn answer(alloc: Global, row: &Row, db: &Database) -> Result<Option<String>> {
    let answer = match row.call() {
        "back" => back(alloc, row, db),
        "again" => printed_and_read(alloc, row, db),
        _ => return Ok(None),
    };
    Ok(Some(answer?))
}

/// The number and the mode that a line gives. An error for national text, which is not read back.
fn number_and_mode(alloc: Global, row: &Row) -> Result<(PhoneNumber, Mode)> {
    match mode(row.argument(5))? {
        Mode::National => Err(anyhow!("national text is not read back")),
        mode => zip_value(with_extension(alloc, row), mode),
    }
}

/// What the text of a number in a mode is read as.
fn read(
    alloc: Global,
    db: &Database,
    number: &PhoneNumber,
    mode: Mode,
) -> Result<PhoneNumber, ParseError> {
    let begun = begin(alloc);
    let answer = match mode {
        Mode::E164 => round_trip::e164(db, number),
        Mode::Rfc3966 => round_trip::rfc3966(db, number),
        Mode::International | Mode::National => round_trip::international(db, number),
    };
    around(alloc, begun, answer)
}

/// Whether the text of a line's number is read as its code, national number and, but for the E.164
/// text, extension.
fn back(alloc: Global, row: &Row, db: &Database) -> Result<String> {
    let (number, mode) = number_and_mode(alloc, row)?;
    match read(alloc, db, &number, mode) {
        Ok(found) => truth(alloc, is_same(&found, &number, mode)),
        Err(ParseError::Memory) => Err(anyhow!("out of memory")),
        Err(_) => truth(alloc, false),
    }
}

/// Whether a number that was read of a text in this mode is the number that was printed.
fn is_same(found: &PhoneNumber, number: &PhoneNumber, mode: Mode) -> bool {
    found.code().value() == number.code().value()
        && found.national() == number.national()
        && (mode == Mode::E164 || found.extension() == number.extension())
}

/// The text of a line's number, or `UnknownCode`, and what it is read as.
fn printed_and_read(alloc: Global, row: &Row, db: &Database) -> Result<String> {
    let (number, mode) = number_and_mode(alloc, row)?;
    let mut out = text_or_refusal(alloc, format_with(db, &number).mode(mode).to_text(alloc))?;
    push_read(&mut out, read(alloc, db, &number, mode))?;
    Ok(out)
}

/// Writes a tab and what a text is read as, told by its parts, or the refusal.
fn push_read(out: &mut String, found: Result<PhoneNumber, ParseError>) -> Result<()> {
    out.push('\t')?;
    push_parts_or_refusal(out, found)
}
