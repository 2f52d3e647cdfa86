//! The calls that ask why a field of a table is suspicious: `doubts` for the words, `parts` for the
//! two numbers in a field.
use crate::by_rules::{by_rules, hinted};
use anyhow::Result;
use phone_doubts::{doubts, parts};
use phone_engine::Engine;
use phone_meta::Database;
use replay_base::marks::{around, begin};
use replay_base::table::Row;
use std::alloc::Global;

/// What a line's call answers, as the table writes it; none for any other call. An error where
/// memory is refused.
pub fn answer(alloc: Global, row: &Row, db: &Database) -> Result<Option<String>> {
    let answer = match by_rules(row) {
        (rules, "doubts") => words(alloc, row, hinted(rules, db, row.argument(1))?),
        (rules, "parts") => both(alloc, row, hinted(rules, db, row.argument(1))?),
        _ => return Ok(None),
    };
    Ok(Some(answer?))
}

/// The words of the doubts about a line's text, or `-`.
fn words(alloc: Global, row: &Row, engine: Engine<'_>) -> Result<String> {
    let text = row.argument(2);
    let number = engine.parse(text).ok();
    let found = around(alloc, begin(alloc), doubts(engine, text, number.as_ref()))?;
    if found.is_empty() {
        return Ok(String::from_str(alloc, "-")?);
    }
    Ok(found)
}

/// The two numbers in a line's text, or `-`.
fn both(alloc: Global, row: &Row, engine: Engine<'_>) -> Result<String> {
    match around(alloc, begin(alloc), parts(engine, row.argument(2)))? {
        Some((first, second)) => Ok(format!(in alloc; "{first}\t{second}")?),
        None => Ok(String::from_str(alloc, "-")?),
    }
}
