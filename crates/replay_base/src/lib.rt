//! Rows of answers: a line of a table is a call, its arguments, the answer that is wanted, and a
//! few words why. Here are the lines themselves, how they write what the crates answer, and the
//! calls of `phone_values`, `phone_chars`, `phone_parts`, `phone_device` and `phone_lines`. The
//! program `replay` goes over the tables.
#![tactic(auto)]

pub mod characters;
pub mod devices;
pub mod lines;
pub mod marks;
pub mod readers;
pub mod table;
pub mod tally;
pub mod values;
pub mod words;

use anyhow::Result;
use std::alloc::Global;
use table::Row;

/// The answer to a call of these crates; none for any other call.
pub fn answer(alloc: Global, row: &Row) -> Result<Option<String>> {
    if let Some(found) = characters::answer(alloc, row)? {
        return Ok(Some(found));
    }
    if let Some(found) = values::answer(alloc, row)? {
        return Ok(Some(found));
    }
    if let Some(found) = readers::answer(alloc, row)? {
        return Ok(Some(found));
    }
    if let Some(found) = devices::answer(alloc, row)? {
        return Ok(Some(found));
    }
    lines::answer(alloc, row)
}
