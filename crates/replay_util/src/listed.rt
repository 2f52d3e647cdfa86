//! The calls that ask what a database lists: its regions, its calling codes, and example numbers.
use crate::by_rules::{by_rules, without_hint};
use anyhow::Result;
use phone_engine::{Engine, Rules, codes, example, regions};
use phone_meta::Database;
use phone_values::country::Id;
use phonenumber::PhoneNumber;
use replay_base::marks::{around, begin};
use replay_base::table::Row;
use replay_base::words::{kind, refusal, said};
use replay_numbers::facts::push_parts;
use std::alloc::{AllocError, Global};
use std::fmt::Display;

/// What the database lists, as the table writes it; none for any other call. An error where a line
/// names a region or a kind that isn't there, and where memory is refused.
pub fn answer(alloc: Global, row: &Row, db: &Database) -> Result<Option<String>> {
    let answer = match by_rules(row) {
        (Rules::Crate, "regions") => all_regions(alloc, db),
        (Rules::Crate, "codes") => all_codes(alloc, db),
        (rules, "example") => example_of(alloc, row, without_hint(rules, db)),
        _ => return Ok(None),
    };
    Ok(Some(answer?))
}

/// The regions of a database parted by spaces, behind an equals sign.
fn all_regions(alloc: Global, db: &Database) -> Result<String> {
    let found = around(alloc, begin(alloc), regions(db))?;
    let mut out = String::from_str(alloc, "=")?;
    for id in found.as_slice() {
        push_value(&mut out, &id.as_str())?;
    }
    Ok(out)
}

/// The calling codes of a database parted by spaces, behind an equals sign.
fn all_codes(alloc: Global, db: &Database) -> Result<String> {
    let found = around(alloc, begin(alloc), codes(db))?;
    let mut out = String::from_str(alloc, "=")?;
    for code in found.as_slice() {
        push_value(&mut out, code)?;
    }
    Ok(out)
}

/// Writes a value, behind a space if it isn't the first.
fn push_value<T: Display>(out: &mut String, value: &T) -> Result<(), AllocError> {
    if out.len() > 1 {
        out.push(' ')?;
    }
    write!(out, "{value}")
}

/// The parts of the example number of a line's region and kind, a hyphen where there is none, or
/// the refusal of its text.
fn example_of(alloc: Global, row: &Row, engine: Engine<'_>) -> Result<String> {
    let (region, kind) = (row.argument(1).parse::<Id>()?, kind(row.argument(2))?);
    match around(alloc, begin(alloc), example(engine, region, kind)) {
        Ok(Some(number)) => part_words(alloc, &number),
        Ok(None) => said(alloc, "-"),
        Err(error) => refusal(alloc, &error),
    }
}

/// A number's parts.
fn part_words(alloc: Global, number: &PhoneNumber) -> Result<String> {
    let mut out = String::new(alloc);
    push_parts(&mut out, number)?;
    Ok(out)
}
