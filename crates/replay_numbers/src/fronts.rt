//! The fronts of a text, cut between its characters: each is read, or refused. No marks stand
//! around these readings: there are many in a line, and `parse` has marks around one.
use anyhow::Result;
use phone_meta::Database;
use phone_values::country::Id;
use phonenumber::{ParseError, parse_with};
use replay_base::table::Row;
use replay_base::words::hint;
use std::alloc::Global;

/// How many fronts of a line's text, the empty one and the whole among them, are answered under its
/// hint.
pub fn fronts(alloc: Global, row: &Row, db: &Database) -> Result<String> {
    let (hint, text) = (hint(row.argument(1))?, row.argument(2));
    Ok(count_answers(db, hint, text)?.to_string(alloc)?)
}

/// How many fronts of a text are answered under a hint. Refused where memory is.
fn count_answers(db: &Database, hint: Option<Id>, text: &str) -> Result<u64, ParseError> {
    let mut count = 0u64;
    for end in 0..=text.len() {
        if text.is_char_boundary(end) {
            let front = &text[..end];
            if is_answered(db, hint, front)? {
                count = count.saturating_add(1);
            }
        }
    }
    Ok(count)
}

/// Whether a text is read as a number of a listed code, or refused for a reason that is ever given.
/// Refused where memory is.
fn is_answered(db: &Database, hint: Option<Id>, text: &str) -> Result<bool, ParseError> {
    match parse_with(db, hint, text) {
        Ok(number) => Ok(db.is_listed(&number.code().value())),
        Err(ParseError::Memory) => Err(ParseError::Memory),
        Err(error) => Ok(error != ParseError::TooShortAfterIdd),
    }
}
