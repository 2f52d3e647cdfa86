//! The calls of the module `helper` of `phone_read` that cut a number's digits: international
//! prefix, calling code and national prefix.
use anyhow::Result;
use phone_meta::Database;
use phone_read::{Number, helper};
use phone_values::country::Source;
use regex::{Regex, RegexBuilder};
use replay_base::marks::{around, begin};
use replay_base::readers::number;
use replay_base::table::Row;
use replay_base::words::{hint, refusal};
use replay_database::named::territory;
use std::alloc::Global;
use std::borrow::CowStr;

/// What is dialled before a calling code, by a pattern of the line's own; none for any other call.
pub fn without_database(alloc: Global, row: &Row) -> Result<Option<String>> {
    match row.call() {
        "international-prefix" => Ok(Some(international_prefix(alloc, row)?)),
        _ => Ok(None),
    }
}

/// The number behind what is dialled before a calling code, by a pattern of the line's own.
fn international_prefix(alloc: Global, row: &Row) -> Result<String> {
    let pattern = pattern(alloc, row.argument(0))?;
    behind_prefix(alloc, pattern.as_ref(), number_of_row(row, 1))
}

/// The number behind what is dialled before a calling code.
fn behind_prefix(alloc: Global, pattern: Option<&Regex>, handed: Number<'_>) -> Result<String> {
    let found = around(
        alloc,
        begin(alloc),
        helper::international_prefix(alloc, pattern, handed),
    )?;
    number(alloc, &found)
}

/// What the port answers to a call of this module on a database, as the table writes it; none for
/// any other call. An error where a line names a territory that isn't there, and where memory is
/// refused.
pub fn answer(alloc: Global, row: &Row, db: &Database) -> Result<Option<String>> {
    let answer = match row.call() {
        "country-code" => country_code(alloc, row, db),
        "national-number" => national_number(alloc, row, db),
        _ => return Ok(None),
    };
    Ok(Some(answer?))
}

/// The number with its calling code, or the refusal.
fn country_code(alloc: Global, row: &Row, db: &Database) -> Result<String> {
    let (hint, handed) = (hint(row.argument(1))?, number_of_row(row, 2));
    match around(alloc, begin(alloc), helper::country_code(db, hint, handed)) {
        Ok(found) => number(alloc, &found),
        Err(error) => refusal(alloc, &error),
    }
}

/// The number without its national prefix.
fn national_number(alloc: Global, row: &Row, db: &Database) -> Result<String> {
    let (territory, handed) = (territory(db, row)?, number_of_row(row, 2));
    let found = around(
        alloc,
        begin(alloc),
        helper::national_number(territory, handed),
    )?;
    number(alloc, &found)
}

/// A pattern as the records' patterns are read, without regard to its white space and comments; or
/// none.
fn pattern(alloc: Global, column: &str) -> Result<Option<Regex>> {
    let Some(text) = column.strip_prefix('=') else {
        return Ok(None);
    };
    let pattern = RegexBuilder::new(text)
        .ignore_whitespace(true)
        .build(alloc)?;
    Ok(Some(pattern))
}

/// The number that a line hands in: its national part, then prefix, extension and carrier.
fn number_of_row(row: &Row, at: usize) -> Number<'_> {
    Number {
        country: Source::Default,
        national: CowStr::Borrowed(row.argument(at)),
        prefix: part(row.argument(at.saturating_add(1))),
        extension: part(row.argument(at.saturating_add(2))),
        carrier: part(row.argument(at.saturating_add(3))),
    }
}

/// A part that may be absent.
fn part(column: &str) -> Option<CowStr<'_>> {
    match column.strip_prefix('=') {
        Some(text) => Some(CowStr::Borrowed(text)),
        None => None,
    }
}
