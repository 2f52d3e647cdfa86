//! Rows of answers to what stands on phone numbers: whether a number is possible, what a database
//! lists, whether two texts are one number, how a number is dialled from a region, which numbers
//! stand in a text, why a field is suspicious, what a field shows while a number is typed into it;
//! tables of prefixes; and, of
//! many lines, what a run reports, a line's JSON object, what a contact book keeps, and how
//! programs end.
#![tactic(auto)]

pub mod books;
mod by_rules;
pub mod dialled;
pub mod doubts;
pub mod found;
pub mod listed;
pub mod objects;
pub mod possibilities;
pub mod prefixes;
mod premises;
pub mod programs;
pub mod reports;
pub mod sameness;
pub mod tables;
pub mod typed;

use anyhow::Result;
use phone_meta::Database;
use replay_base::table::Row;
use std::alloc::{AllocGlobal, Global};
use std::fs::Files;

/// The answer to a call that takes its database for itself; none for any other call.
pub fn without_database<R: Files + AllocGlobal>(rt: &R, row: &Row) -> Result<Option<String>> {
    if let Some(found) = books::answer(rt, row)? {
        return Ok(Some(found));
    }
    if let Some(found) = prefixes::answer(rt, row)? {
        return Ok(Some(found));
    }
    programs::answer(rt, row)
}

/// The answer to a call on a database; none for any other call.
pub fn answer(alloc: Global, row: &Row, db: &Database) -> Result<Option<String>> {
    if let Some(found) = possibilities::answer(alloc, row, db)? {
        return Ok(Some(found));
    }
    if let Some(found) = listed::answer(alloc, row, db)? {
        return Ok(Some(found));
    }
    if let Some(found) = sameness::answer(alloc, row, db)? {
        return Ok(Some(found));
    }
    if let Some(found) = found::answer(alloc, row, db)? {
        return Ok(Some(found));
    }
    if let Some(found) = doubts::answer(alloc, row, db)? {
        return Ok(Some(found));
    }
    if let Some(found) = reports::answer(alloc, row, db)? {
        return Ok(Some(found));
    }
    if let Some(found) = objects::answer(alloc, row, db)? {
        return Ok(Some(found));
    }
    if let Some(found) = typed::answer(alloc, row, db)? {
        return Ok(Some(found));
    }
    if let Some(found) = tables::answer(alloc, row, db)? {
        return Ok(Some(found));
    }
    dialled::answer(alloc, row, db)
}
