//! What a line on where a number is gives: tables, the user's region.
use anyhow::Result;
use phone_languages::Names;
use phone_prefixes::Prefixes;
use replay_base::table::Row;
use std::alloc::Global;

/// The table of texts that an argument gives; none for a hyphen.
pub fn table(alloc: Global, row: &Row, at: usize) -> Result<Option<Prefixes>> {
    match row.argument_bytes(at).strip_prefix(b"=") {
        Some(bytes) => Ok(Some(Prefixes::of(alloc, Vec::from_slice(alloc, bytes)?)?)),
        None => Ok(None),
    }
}

/// The tables of names that an argument gives.
pub fn names(alloc: Global, row: &Row, at: usize) -> Result<Vec<Names>> {
    let mut tables = Vec::new(alloc);
    for text in row.argument(at).split('|') {
        if !text.is_empty() {
            tables.push(Names::of(alloc, text.as_bytes())?)?;
        }
    }
    Ok(tables)
}

/// The tables as they are lent.
pub fn lent(alloc: Global, tables: &[Names]) -> Result<Vec<&Names>> {
    let mut all = Vec::new(alloc);
    for table in tables {
        all.push(table)?;
    }
    Ok(all)
}

/// The user's region; none for a hyphen.
pub fn user(row: &Row, at: usize) -> Option<&str> {
    match row.argument(at) {
        "-" => None,
        region => Some(region),
    }
}
