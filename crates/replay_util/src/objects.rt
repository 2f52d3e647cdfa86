//! The call that answers a line by a JSON object.
use crate::by_rules::{by_rules, hinted};
use anyhow::Result;
use phone_meta::Database;
use phone_table::objects::object_line;
use replay_base::marks::{around, begin};
use replay_base::table::Row;
use std::alloc::Global;

/// The object of a line, under its hint and number; none for any other call. An error where memory
/// is refused.
pub fn answer(alloc: Global, row: &Row, db: &Database) -> Result<Option<String>> {
    let (rules, "object") = by_rules(row) else {
        return Ok(None);
    };
    let engine = hinted(rules, db, row.argument(1))?;
    let (place, line) = (row.argument(2).parse::<u64>()?, row.argument_bytes(3));
    let object = around(
        alloc,
        begin(alloc),
        object_line(engine, None, &[], place, line),
    )?;
    Ok(Some(object))
}
