//! The call that asks which numbers stand in a text.
use crate::by_rules::{by_rules, hinted};
use anyhow::{Result, anyhow};
use phone_engine::Engine;
use phone_find::{Found, find_numbers};
use phone_meta::Database;
use phonenumber::PhoneNumber;
use replay_base::marks::{around, begin};
use replay_base::table::Row;
use std::alloc::{AllocError, Global};

/// The numbers in a line's text, as the table writes them; none for any other call. An error where
/// memory is refused.
pub fn answer(alloc: Global, row: &Row, db: &Database) -> Result<Option<String>> {
    match by_rules(row) {
        (rules, "found") => Ok(Some(of_text(alloc, row, hinted(rules, db, row.argument(1))?)?)),
        _ => Ok(None),
    }
}

/// A line's text with each piece that is a number in braces, and the numbers, each behind a tab.
fn of_text(alloc: Global, row: &Row, engine: Engine<'_>) -> Result<String> {
    let text = row.argument(2);
    let all = around(alloc, begin(alloc), find_numbers(engine, text))?;
    found_words(alloc, text, all.as_slice())
}

/// A text with each piece that is a number in braces, and the numbers, each behind a tab.
fn found_words(alloc: Global, text: &str, all: &[Found<PhoneNumber>]) -> Result<String> {
    let mut out = String::new(alloc);
    push_marked(&mut out, text, all)?;
    push_numbers(&mut out, all)?;
    Ok(out)
}

/// Writes a text with each piece that is a number in braces.
fn push_marked(out: &mut String, text: &str, all: &[Found<PhoneNumber>]) -> Result<()> {
    let mut from = 0;
    for found in all {
        push_between(out, text, from, found.start)?;
        out.push('{')?;
        push_between(out, text, found.start, found.end)?;
        out.push('}')?;
        from = found.end;
    }
    push_between(out, text, from, text.len())
}

/// Writes what stands in a text between two places. An error where one of them is within a
/// character or outside of the text.
fn push_between(out: &mut String, text: &str, from: usize, to: usize) -> Result<()> {
    match text.get(from..to) {
        Some(part) => Ok(out.push_str(part)?),
        None => Err(anyhow!("a number outside of the text")),
    }
}

/// Writes numbers, each behind a tab.
fn push_numbers(out: &mut String, all: &[Found<PhoneNumber>]) -> Result<(), AllocError> {
    for found in all {
        push_number(out, &found.number)?;
    }
    Ok(())
}

/// Writes a tab and a number.
fn push_number(out: &mut String, number: &PhoneNumber) -> Result<(), AllocError> {
    write!(out, "\t{number}")
}
