//! A database of one's own, by records in code or by a JSON text, and what is refused.
use anyhow::Result;
use phonenumber::metadata::loader::{Descriptor, Items, Metadata, Text};
use phonenumber::metadata::{Database, LoadMetadata};
use phonenumber::{PhoneNumber, format_with, parse_with};
use std::alloc::{AllocError, AllocGlobal, Global};

/// A company's own numbers, from 100 to 999, under a code that no country has.
const COMPANY: &str = r#"[{"id": "001", "country_code": 999,
        "general": {"national_number": "[1-9]\\d\\d", "possible_length": [3]}}]"#;

/// Which national numbers the company has, as a record's descriptor.
fn descriptor(alloc: Global) -> Result<Descriptor, LoadMetadata> {
    let pattern = String::from_str(alloc, r"[1-9]\d\d")?;
    let lengths = vec![in alloc; 3u16]?;
    Ok(Descriptor {
        national_number: Some(Text::from(pattern)),
        possible_length: Items::from(lengths),
        ..Descriptor::empty(alloc)
    })
}

/// A record under the company's code, with this id and descriptor.
fn record_of(alloc: Global, id: String, general: Descriptor) -> Metadata {
    Metadata {
        id: Some(Text::from(id)),
        country_code: Some(999),
        general: Some(general),
        ..Metadata::empty(alloc)
    }
}

/// The same as a record.
fn record(alloc: Global) -> Result<Metadata, LoadMetadata> {
    let id = String::from_str(alloc, "001")?;
    let general = descriptor(alloc)?;
    Ok(record_of(alloc, id, general))
}

/// The database of that record.
fn of_records(alloc: Global) -> Result<Database, LoadMetadata> {
    Database::from(alloc, vec![in alloc; record(alloc)?]?)
}

/// Prints a number under a database.
fn show_number<R: AllocGlobal + Print>(
    rt: &R,
    database: &Database,
    number: &PhoneNumber,
) -> Result<()> {
    let text = format_with(database, number).to_text(rt.alloc())?;
    println!(rt; "{text}")?;
    Ok(())
}

/// Reads a number of the company under a database, and prints it.
fn show<R: AllocGlobal + Print>(rt: &R, database: &Database) -> Result<()> {
    let number = parse_with(database, None, "+999 123")?;
    show_number(rt, database, &number)
}

/// Why a text is no database.
fn refusal(alloc: Global, text: &str) -> Result<String, AllocError> {
    match Database::parse(alloc, text) {
        Ok(_) => String::from_str(alloc, "a database"),
        Err(refusal) => refusal.to_string(alloc),
    }
}

/// Prints why a text is no database.
fn show_refusal<R: AllocGlobal + Print>(rt: &R, text: &str) -> Result<()> {
    let refusal = refusal(rt.alloc(), text)?;
    println!(rt; "{text}: {refusal}")?;
    Ok(())
}

/// Both databases, and four texts that are none.
pub fn example<R: AllocGlobal + Print>(rt: &R) -> Result<()> {
    println!(rt; "# A database of one's own")?;
    show(rt, &of_records(rt.alloc())?)?;
    show(rt, &Database::parse(rt.alloc(), COMPANY)?)?;
    show_refusal(rt, "[")?;
    show_refusal(rt, r#"[{"idd": "00"}]"#)?;
    show_refusal(rt, r#"[{"country_code": "64"}]"#)?;
    show_refusal(rt, r#"[{"id": "NZ"}]"#)
}
