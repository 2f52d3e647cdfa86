//! Records in the compact form: `compact` has a database text, and answers how many records it has,
//! the bytes that they are written as, in hex, whether these are read and written again as the same
//! bytes, how many of their fronts are refused of all but the whole, and whether they are refused
//! with a byte more. `compact-read` has bytes, and answers how many records they are, or why they
//! are none.
ghost use Rattle.std.specs.Prelude.{◌≡◌, IfOk, IfErr};
ghost use Rattle.phone_compact.specs.Records.{AreRecords};
ghost use Rattle.phone_compact.specs.declared.error.NotRead.TheVariants as error;

use anyhow::{Result, anyhow};
use phone_compact::{NotRead, records, write};
use phone_records::loader::Metadata;
use replay_base::marks::{around, begin};
use replay_base::table::Row;
use replay_base::words::said;
use std::alloc::{AllocError, Global};

/// What becomes of a line's records or bytes; none for any other call.
pub fn answer(alloc: Global, row: &Row) -> Result<Option<String>> {
    let answer = match row.call() {
        "compact" => of_text(alloc, row.argument(0)),
        "compact-read" => of_bytes(alloc, row.argument_bytes(0)),
        _ => return Ok(None),
    };
    Ok(Some(answer?))
}

/// What becomes of the records of a database text.
fn of_text(alloc: Global, text: &str) -> Result<String> {
    let given = phone_json::records(alloc, text)?;
    of_records(alloc, given.as_slice())
}

/// What becomes of records.
fn of_records(alloc: Global, given: &[Metadata]) -> Result<String> {
    let bytes = around(alloc, begin(alloc), write(alloc, given))?;
    let is_same = are_again(alloc, given, bytes.as_slice())?;
    told(alloc, given.len(), bytes.as_slice(), is_same)
}

/// What becomes of so many records, which are written as these bytes.
fn told(alloc: Global, count: usize, bytes: &[u8], is_same: bool) -> Result<String> {
    let digits = hex::encode(alloc, bytes)?;
    let (fronts, all) = (malformed_fronts(alloc, bytes), bytes.len());
    let is_refused = is_longer_malformed(alloc, bytes)?;
    Ok(format!(in alloc; "{count}\t{digits}\t{is_same}\t{fronts} of {all}\t{is_refused}")?)
}

/// How many records bytes are, or why they are none.
fn of_bytes(alloc: Global, bytes: &[u8]) -> Result<String> {
    match around(alloc, begin(alloc), records(alloc, bytes)) {
        Ok(found) => Ok(format!(in alloc; "{}", found.len())?),
        Err(NotRead::Malformed) => said(alloc, "malformed"),
        Err(NotRead::Memory) => Err(anyhow!("out of memory")),
    }
}

/// The same records, read from what they are written as; refused only for memory.
pub fn again(alloc: Global, given: &[Metadata]) -> Result<Vec<Metadata>, NotRead>
    ensures same { IfOk result (λ found. found.items ≡ given.now) }
    ensures refused { AreRecords given.now → IfErr result (λ e. e ≡ error.Memory) }
{
    let bytes = write(alloc, given)?;
    records(alloc, bytes.as_slice())
}

/// Whether these records, read from what they are written as, are written as these bytes.
fn are_again(alloc: Global, given: &[Metadata], bytes: &[u8]) -> Result<bool> {
    let found = again(alloc, given)?;
    Ok(write(alloc, found.as_slice())?.as_slice() == bytes)
}

/// Whether no records are written as these bytes.
fn is_malformed(alloc: Global, bytes: &[u8]) -> bool {
    matches!(records(alloc, bytes), Err(NotRead::Malformed))
}

/// Whether no records are written as these bytes and one more.
fn is_longer_malformed(alloc: Global, bytes: &[u8]) -> Result<bool, AllocError> {
    let mut longer = Vec::from_slice(alloc, bytes)?;
    longer.push(0)?;
    Ok(is_malformed(alloc, longer.as_slice()))
}

/// How many fronts of these bytes are no records' bytes, without the whole.
fn malformed_fronts(alloc: Global, bytes: &[u8]) -> usize {
    let mut count = 0;
    for end in 0..bytes.len() {
        if is_malformed(alloc, &bytes[..end]) {
            count += 1;
        }
    }
    count
}
