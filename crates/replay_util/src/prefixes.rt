//! The calls of `phone_prefixes`: tables of prefixes.
use anyhow::Result;
use phone_device::{MemorySource, Script};
use phone_prefixes::{Prefixes, PrefixesError};
use replay_base::devices::fault;
use replay_base::marks::{around, begin};
use replay_base::table::Row;
use replay_base::words::said;
use std::alloc::{AllocError, AllocGlobal, Global};
use std::fs::{self, Files};

/// The answer to one of these calls; none for any other call. An error where a table is refused,
/// and where memory is.
pub fn answer<R: Files + AllocGlobal>(rt: &R, row: &Row) -> Result<Option<String>> {
    let alloc = rt.alloc();
    let answer = match row.call() {
        "prefix" => in_text(alloc, row),
        "prefixes-read" => read(alloc, row),
        "prefixes-of-map" => in_map(rt, row),
        _ => return Ok(None),
    };
    Ok(Some(answer?))
}

/// The table of these bytes.
fn table(alloc: Global, bytes: &[u8]) -> Result<Prefixes, PrefixesError> {
    Prefixes::read(alloc, &mut MemorySource::new(bytes))
}

/// The entry of the longest prefix that begins digits, by a table whose text a line has.
fn in_text(alloc: Global, row: &Row) -> Result<String> {
    let table = around(alloc, begin(alloc), table(alloc, row.argument_bytes(0)))?;
    match table.longest(row.argument(1)) {
        Some((prefix, text)) => Ok(format!(in alloc; "{prefix}: {text}")?),
        None => said(alloc, "none"),
    }
}

/// The entries of a table that is read from a source, which may fail.
fn read(alloc: Global, row: &Row) -> Result<String> {
    let bytes = Vec::from_slice(alloc, row.argument_bytes(1))?;
    let mut source = Script::new(bytes, fault(row.argument(0))?);
    let table = around(alloc, begin(alloc), Prefixes::read(alloc, &mut source))?;
    Ok(entries(alloc, &table)?)
}

/// The entries of a table, in their order.
fn entries(alloc: Global, table: &Prefixes) -> Result<String, AllocError> {
    let mut out = String::new(alloc);
    for place in 0..table.len() {
        if let Some((prefix, text)) = table.get(place) {
            write!(out, "{prefix}: {text}; ")?;
        }
    }
    Ok(out)
}

/// The longest prefixes that begin each of some digits, by the map of this name; a hyphen for none.
fn in_map<R: Files + AllocGlobal>(rt: &R, row: &Row) -> Result<String> {
    let name = row.argument(0);
    let path = format!(in rt.alloc(); "databases/world/{name}.tsv")?;
    let bytes = fs::read(rt, path.as_str())?;
    let table = Prefixes::of(rt.alloc(), bytes)?;
    Ok(all_longest(rt.alloc(), &table, row.argument(1))?)
}

/// The longest prefixes that begin each of some digits, which spaces part.
fn all_longest(alloc: Global, table: &Prefixes, digits: &str) -> Result<String, AllocError> {
    let mut out = String::new(alloc);
    for some in digits.split(' ') {
        let prefix = match table.longest(some) {
            Some((prefix, _)) => prefix,
            None => "-",
        };
        if !out.is_empty() {
            out.push(' ')?;
        }
        out.push_str(prefix)?;
    }
    Ok(out)
}
