//! Texts that are read: `parse` tells the number, `report` all that the database tells of it
//! besides, `parse-made` the number of a text that the line makes, and `fronts` how many fronts of
//! a text are answered.
use crate::facts::{carrier, extension, push_facts, push_parts, push_printed};
use crate::fronts::fronts;
use anyhow::Result;
use phone_meta::Database;
use phonenumber::{Facts, FormatError, ParseError, PhoneNumber, Texts, format_with, parse_with};
use replay_base::marks::{around, begin};
use replay_base::readers::text_of_row;
use replay_base::table::Row;
use replay_base::words::{hint, push_refusal, source};
use std::alloc::{AllocError, Global};

/// What is read of a text under a hint, as the table writes it; none for any other call.
pub fn answer(alloc: Global, row: &Row, db: &Database) -> Result<Option<String>> {
    let answer = match row.call() {
        "parse" => parse(alloc, row, db, row.argument(2)),
        "parse-made" => parse_made(alloc, row, db),
        "report" => report(alloc, row, db),
        "fronts" => fronts(alloc, row, db),
        _ => return Ok(None),
    };
    Ok(Some(answer?))
}

/// The parts of the number that is read of a text under a line's hint, or the refusal.
fn parse(alloc: Global, row: &Row, db: &Database, text: &str) -> Result<String> {
    let hint = hint(row.argument(1))?;
    let mut out = String::new(alloc);
    push_parts_or_refusal(
        &mut out,
        around(alloc, begin(alloc), parse_with(db, hint, text)),
    )?;
    Ok(out)
}

/// The same of the text that a line makes.
fn parse_made(alloc: Global, row: &Row, db: &Database) -> Result<String> {
    let text = text_of_row(alloc, row, 2)?;
    parse(alloc, row, db, text.as_str())
}

/// Writes the parts of the number that was read, or the refusal.
pub fn push_parts_or_refusal(
    out: &mut String,
    read: Result<PhoneNumber, ParseError>,
) -> Result<()> {
    match read {
        Ok(number) => Ok(push_parts(out, &number)?),
        Err(error) => push_refusal(out, &error),
    }
}

/// All that the database tells of what is read of a line's text, or the refusal.
fn report(alloc: Global, row: &Row, db: &Database) -> Result<String> {
    let hint = hint(row.argument(1))?;
    let mut out = String::new(alloc);
    push_report_or_refusal(
        alloc,
        &mut out,
        db,
        around(alloc, begin(alloc), parse_with(db, hint, row.argument(2))),
    )?;
    Ok(out)
}

/// Writes the report on the number that was read, or the refusal.
fn push_report_or_refusal(
    alloc: Global,
    out: &mut String,
    db: &Database,
    read: Result<PhoneNumber, ParseError>,
) -> Result<()> {
    match read {
        Ok(number) => push_number(alloc, out, db, &number),
        Err(error) => push_refusal(out, &error),
    }
}

/// Writes the report on a number.
fn push_number(alloc: Global, out: &mut String, db: &Database, number: &PhoneNumber) -> Result<()> {
    let facts = number.facts(db)?;
    let texts = around(alloc, begin(alloc), format_with(db, number).to_texts(alloc));
    push_report(out, texts, number, facts)
}

/// Writes `ok` and what is printed in the four modes, the number's source, what is told of its
/// kind, region and validity, and its extension, carrier and national text, parted by tabs.
pub fn push_report(
    out: &mut String,
    texts: Result<Texts, FormatError>,
    number: &PhoneNumber,
    facts: Facts,
) -> Result<()> {
    out.push_str("ok\t")?;
    push_printed(out, texts, "")?;
    Ok(push_told(out, number, facts)?)
}

/// Writes what stands behind the texts of a report.
fn push_told(out: &mut String, number: &PhoneNumber, facts: Facts) -> Result<(), AllocError> {
    let source = source(number.code().source());
    write!(out, "\t{source}\t")?;
    push_facts(out, facts)?;
    let extension = extension(number).unwrap_or("-");
    let carrier = carrier(number).unwrap_or("-");
    let national = number.national();
    write!(out, "\t{extension}\t{carrier}\t{national}")
}
