//! The call that asks whether two texts are one number.
use crate::by_rules::{by_rules, without_hint};
use anyhow::Result;
use phone_engine::{Engine, compare_texts};
use phone_meta::Database;
use replay_base::marks::{around, begin};
use replay_base::table::Row;
use replay_base::words::refusal;
use std::alloc::Global;

/// How like the numbers of a line's two texts are, or the refusal of one; none for any other call.
/// An error where memory is refused.
pub fn answer(alloc: Global, row: &Row, db: &Database) -> Result<Option<String>> {
    match by_rules(row) {
        (rules, "same") => Ok(Some(likeness(alloc, row, without_hint(rules, db))?)),
        _ => Ok(None),
    }
}

/// How like the numbers of a line's two texts are, or the refusal of one.
fn likeness(alloc: Global, row: &Row, engine: Engine<'_>) -> Result<String> {
    let (a, b) = (row.argument(1), row.argument(2));
    match around(alloc, begin(alloc), compare_texts(engine, a, b)) {
        Ok(found) => Ok(format!(in alloc; "{found:?}")?),
        Err(error) => refusal(alloc, &error),
    }
}
