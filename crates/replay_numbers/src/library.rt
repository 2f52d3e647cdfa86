//! Texts that are read by libphonenumber's rules: `library` tells of the number what `report` tells
//! of one that is read as the original reads.
use crate::reading::push_report;
use anyhow::Result;
use phone_library::{NumberFacts, facts, parse, printed_texts, without_carrier};
use phone_meta::Database;
use phonenumber::{Facts, ParseError, PhoneNumber};
use replay_base::marks::{around, begin};
use replay_base::table::Row;
use replay_base::words::{hint, push_refusal};
use std::alloc::Global;

/// What is read of a line's text by these rules, as the table writes it; none for any other call.
pub fn answer(alloc: Global, row: &Row, db: &Database) -> Result<Option<String>> {
    match row.call() {
        "library" => Ok(Some(read(alloc, row, db)?)),
        _ => Ok(None),
    }
}

/// All that the database tells of what is read of a line's text, or the refusal.
fn read(alloc: Global, row: &Row, db: &Database) -> Result<String> {
    let hint = hint(row.argument(1))?;
    let mut out = String::new(alloc);
    push_read(
        alloc,
        &mut out,
        db,
        around(alloc, begin(alloc), parse(db, hint, row.argument(2))),
    )?;
    Ok(out)
}

/// Writes the report on the number that was read, or the refusal.
fn push_read(
    alloc: Global,
    out: &mut String,
    db: &Database,
    read: Result<PhoneNumber, ParseError>,
) -> Result<()> {
    match read {
        Ok(number) => push_number(alloc, out, db, &number),
        Err(error) => push_refusal(out, &error),
    }
}

/// Writes the number with what these rules tell of it; it is printed without its carrier.
fn push_number(alloc: Global, out: &mut String, db: &Database, number: &PhoneNumber) -> Result<()> {
    let told = of_library(facts(db, number)?);
    let printed = without_carrier(number)?;
    let texts = around(alloc, begin(alloc), printed_texts(db, &printed));
    push_report(out, texts, number, told)
}

/// What these rules tell, as what the crate's tell.
fn of_library(facts: NumberFacts) -> Facts {
    Facts {
        kind: facts.kind,
        region: facts.region,
        is_valid: facts.is_valid,
    }
}
