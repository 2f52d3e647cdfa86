//! Printing a number in the four modes.
use anyhow::Result;
use phonenumber::metadata::Database;
use phonenumber::{Mode, PhoneNumber, Texts, format_with, parse_with};
use std::alloc::AllocGlobal;

/// Prints a number in one mode.
fn show_national<R: AllocGlobal + Print>(
    rt: &R,
    database: &Database,
    number: &PhoneNumber,
) -> Result<()> {
    let text = format_with(database, number)
        .mode(Mode::National)
        .to_text(rt.alloc())?;
    println!(rt; "national alone: {text}")?;
    Ok(())
}

/// Prints the texts of the four modes.
fn show_texts<R: Print>(rt: &R, texts: &Texts) -> Result<()> {
    let Texts {
        e164,
        international,
        national,
        rfc3966,
    } = texts;
    println!(rt; "E.164: {e164}")?;
    println!(rt; "international: {international}")?;
    println!(rt; "national: {national}")?;
    println!(rt; "RFC 3966: {rfc3966}")?;
    Ok(())
}

/// Prints a number in all four modes at once.
fn show_all<R: AllocGlobal + Print>(
    rt: &R,
    database: &Database,
    number: &PhoneNumber,
) -> Result<()> {
    let texts = format_with(database, number).to_texts(rt.alloc())?;
    show_texts(rt, &texts)
}

/// Prints a number in one mode, and then in all four at once.
pub fn example<R: AllocGlobal + Print>(rt: &R, database: &Database) -> Result<()> {
    println!(rt; "# Printing")?;
    let number = parse_with(database, None, "+16502530000")?;
    show_national(rt, database, &number)?;
    show_all(rt, database, &number)
}
