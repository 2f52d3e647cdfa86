//! The call that gives a table of customers back: `given-table`, by either rules.
use crate::by_rules::{by_rules, hinted};
use anyhow::{Result, anyhow};
use phone_csv::RunError;
use phone_device::{Limit, MemorySource, Then};
use phone_engine::Engine;
use phone_meta::Database;
use phone_table::{Asked, Counts, TableError, Totals, UnknownNames, write_table};
use replay_base::marks::{around, begin};
use replay_base::table::Row;
use std::alloc::{AllocError, Global};

/// How many bytes are taken of the table.
const ROOM: usize = 4096;

/// How a table is given back, and what was written, parted by a tab; none for any other call. The
/// line has the column of the numbers, that of the regions or a hyphen, the hint, `mark` where bad
/// records are marked, `unique` where each number is kept once, `summary` where the summary is told
/// behind the counts, and the table. An error where memory is refused.
pub fn answer(alloc: Global, row: &Row, db: &Database) -> Result<Option<String>> {
    match by_rules(row) {
        (rules, "given-table") => Ok(Some(given(alloc, row, hinted(rules, db, row.argument(3))?)?)),
        _ => Ok(None),
    }
}

/// How a line's table is given back, and what was written.
fn given(alloc: Global, row: &Row, engine: Engine<'_>) -> Result<String> {
    let mut source = MemorySource::new(row.argument_bytes(5));
    let mut sink = Limit::new(alloc, ROOM, Then::Fail)?;
    let begun = begin(alloc);
    let mut unknown = UnknownNames::new(alloc);
    let end = write_table(engine, asked(row), &mut source, &mut sink, &mut unknown);
    let end = around(alloc, begun, end);
    end_words(alloc, row.argument(4) == "summary", end, sink.bytes())
}

/// What a row asks for of its table, without further columns, names of regions and short numbers.
fn asked(row: &Row) -> Asked<'_> {
    Asked {
        region: region(row.argument(2)),
        mark_bad: row.argument(4) == "mark",
        is_unique: row.argument(4) == "unique",
        tells_duplicates: row.argument(4) == "duplicates",
        is_summed: row.argument(4) == "summary",
        ..Asked::of(row.argument(1))
    }
}

/// A column's name, or none for a hyphen.
fn region(name: &str) -> Option<&str> {
    if name == "-" { None } else { Some(name) }
}

/// How the run ended, and what it wrote.
fn end_words(
    alloc: Global,
    is_summed: bool,
    end: Result<Totals, TableError>,
    written: &[u8],
) -> Result<String> {
    let mut out = String::new(alloc);
    push_end(alloc, &mut out, is_summed, &end)?;
    let written = std::str::from_utf8(written).unwrap_or("no UTF-8");
    write!(out, "\t{written}")?;
    Ok(out)
}

/// Writes how the run ended: with its counts and perhaps its summary, or in a word.
fn push_end(
    alloc: Global,
    out: &mut String,
    is_summed: bool,
    end: &Result<Totals, TableError>,
) -> Result<()> {
    match end {
        Ok(totals) => Ok(push_totals(alloc, out, is_summed, totals)?),
        Err(error) => push_error(out, error),
    }
}

/// Writes why a run ended before all was answered, in a word: at a record that isn't answered, by
/// the line feeds in front of it.
fn push_error(out: &mut String, error: &TableError) -> Result<()> {
    let written = match error {
        TableError::Rows(RunError::Record(feeds)) => write!(out, "Record {feeds}"),
        TableError::Rows(RunError::Memory) => return Err(anyhow!("out of memory")),
        _ => out.push_str("another end"),
    };
    Ok(written?)
}

/// Writes the counts of a table, and its summary behind a tab, where that is asked for.
fn push_totals(
    alloc: Global,
    out: &mut String,
    is_summed: bool,
    totals: &Totals,
) -> Result<(), AllocError> {
    push_counts(out, &totals.counts)?;
    if is_summed {
        let summary = totals.summary.to_json(alloc)?;
        write!(out, "\t{summary}")?;
    }
    Ok(())
}

/// Writes how many records there were, and how many with an unknown region, an empty field, a wrong
/// count of fields, without a number, with one that isn't valid, with a short number, and left out,
/// parted by spaces; where some aren't UTF-8, then how many, and the number of the first one.
fn push_counts(out: &mut String, counts: &Counts) -> Result<(), AllocError> {
    let Counts {
        records,
        unknown_region,
        empty,
        wrong_count,
        no_number,
        invalid,
        short,
        repeated,
        strays,
        first_stray,
    } = counts;
    write!(
        out,
        "{records} {unknown_region} {empty} {wrong_count} {no_number} {invalid} {short} {repeated}"
    )?;
    match first_stray {
        Some(number) => write!(out, " {strays} {number}"),
        None => Ok(()),
    }
}
