//! Rows of answers about databases: look-ups, patterns, database texts, and the records of which a
//! database is made, also in their compact form.
#![tactic(auto)]

pub mod compact;
pub mod look_ups;
pub mod named;
pub mod patterns;
pub mod records;
pub mod tables;
pub mod texts;

use anyhow::Result;
use replay_base::table::Row;
use std::alloc::AllocGlobal;
use std::fs::Files;

/// The answer to a call on no database, or on a database text or file; none for any other call.
pub fn without_database<R: Files + AllocGlobal>(rt: &R, row: &Row) -> Result<Option<String>> {
    if let Some(found) = patterns::answer(rt.alloc(), row)? {
        return Ok(Some(found));
    }
    if let Some(found) = compact::answer(rt.alloc(), row)? {
        return Ok(Some(found));
    }
    if let Some(found) = records::answer(rt.alloc(), row)? {
        return Ok(Some(found));
    }
    texts::answer(rt, row)
}
