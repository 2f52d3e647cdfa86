//! Rows of answers about values: the forms that serde reads and writes, copies and hashes, texts of
//! errors, and readers and writers of std as devices.
use crate::{copies, devices, errors, forms};
use anyhow::Result;
use replay_base::table::Row;
use std::alloc::Global;

/// The answer to a call on values without a database; none for any other call.
pub fn of_value(alloc: Global, row: &Row) -> Result<Option<String>> {
    if let Some(found) = forms::answer(alloc, row)? {
        return Ok(Some(found));
    }
    if let Some(found) = copies::answer(alloc, row)? {
        return Ok(Some(found));
    }
    if let Some(found) = errors::answer(alloc, row)? {
        return Ok(Some(found));
    }
    devices::answer(alloc, row)
}
