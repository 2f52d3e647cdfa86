//! Rows of answers about numbers: how they are dialled, read, printed and read back.
#![tactic(auto)]

pub mod back;
pub mod dialling;
pub mod facts;
mod fronts;
pub mod given;
mod library;
mod page;
pub mod premises;
pub mod printing;
pub mod queries;
pub mod reading;
mod short;
pub mod validating;

use anyhow::Result;
use phone_meta::Database;
use replay_base::table::Row;
use std::alloc::Global;

/// The answer to a call on no database; none for any other call.
pub fn without_database(alloc: Global, row: &Row) -> Result<Option<String>> {
    if let Some(found) = dialling::without_database(alloc, row)? {
        return Ok(Some(found));
    }
    printing::without_database(alloc, row)
}

/// The answer to a call on a text under a database; none for any other call.
pub fn of_text(alloc: Global, row: &Row, db: &Database) -> Result<Option<String>> {
    if let Some(found) = dialling::answer(alloc, row, db)? {
        return Ok(Some(found));
    }
    if let Some(found) = validating::answer(alloc, row, db)? {
        return Ok(Some(found));
    }
    if let Some(found) = library::answer(alloc, row, db)? {
        return Ok(Some(found));
    }
    if let Some(found) = short::answer(alloc, row, db)? {
        return Ok(Some(found));
    }
    reading::answer(alloc, row, db)
}

/// The answer to a call on a number that a line gives by its parts; none for any other call.
/// `layouts` is the database whose layout the line hands in.
pub fn of_number(
    alloc: Global,
    row: &Row,
    db: &Database,
    layouts: &Database,
) -> Result<Option<String>> {
    if let Some(found) = back::answer(alloc, row, db)? {
        return Ok(Some(found));
    }
    if let Some(found) = queries::answer(alloc, row, db)? {
        return Ok(Some(found));
    }
    if let Some(found) = premises::answer(alloc, row, db)? {
        return Ok(Some(found));
    }
    printing::answer(alloc, row, db, layouts)
}
