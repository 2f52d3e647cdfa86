//! The calls that ask whether a number is possible: `possible` of one that a line gives by its
//! parts, `possible-text` of a text under a hint.
use crate::by_rules::{by_rules, hinted, without_hint};
use anyhow::Result;
use phone_engine::{Engine, possibility_of, possibility_of_text};
use phone_meta::Database;
use phonenumber::PhoneNumber;
use replay_base::marks::{around, begin};
use replay_base::table::Row;
use replay_base::words::refusal;
use replay_numbers::given::number;
use std::alloc::Global;

/// What its length says of a number, as the table writes it; none for any other call. An error
/// where a line gives a number that is none, and where memory is refused.
pub fn answer(alloc: Global, row: &Row, db: &Database) -> Result<Option<String>> {
    let answer = match by_rules(row) {
        (rules, "possible") => of_number(alloc, row, without_hint(rules, db)),
        (rules, "possible-text") => of_text(alloc, row, hinted(rules, db, row.argument(1))?),
        _ => return Ok(None),
    };
    Ok(Some(answer?))
}

/// What is said of a line's number.
fn of_number(alloc: Global, row: &Row, engine: Engine<'_>) -> Result<String> {
    let number = number(row, 1, None, None)?;
    possibility_words(alloc, engine, &number)
}

/// What is said of a number.
fn possibility_words(alloc: Global, engine: Engine<'_>, number: &PhoneNumber) -> Result<String> {
    let found = around(alloc, begin(alloc), possibility_of(engine, number))?;
    Ok(format!(in alloc; "{found:?}")?)
}

/// What is said of a line's text, or the refusal.
fn of_text(alloc: Global, row: &Row, engine: Engine<'_>) -> Result<String> {
    let text = row.argument(2);
    match around(alloc, begin(alloc), possibility_of_text(engine, text)) {
        Ok(found) => Ok(format!(in alloc; "{found:?}")?),
        Err(error) => refusal(alloc, &error),
    }
}
