//! The calls that ask a database of a number which a line gives by its parts.
use crate::facts::{push_facts, region_name};
use crate::given::number;
use anyhow::Result;
use phone_meta::Database;
use phonenumber::{PhoneNumber, is_valid_with};
use replay_base::marks::{around, begin};
use replay_base::table::Row;
use replay_base::words::{said, truth};
use replay_database::look_ups::record;
use replay_database::tables::agreed;
use std::alloc::Global;

/// What the database tells of a line's number, as the table writes it; none for any other call. An
/// error where a line gives a number that is none, and where memory is refused.
pub fn answer(alloc: Global, row: &Row, db: &Database) -> Result<Option<String>> {
    match row.call() {
        "metadata" | "country-id" | "kind" | "queried" | "is-valid" | "is-valid-with" => {
            Ok(Some(of_number(alloc, row, db)?))
        }
        _ => Ok(None),
    }
}

/// What the database tells of a line's number.
fn of_number(alloc: Global, row: &Row, db: &Database) -> Result<String> {
    let number = number(row, 1, None, None)?;
    query_words(alloc, row.call(), db, &number)
}

/// The answer of the call of this name.
fn query_words(alloc: Global, call: &str, db: &Database, number: &PhoneNumber) -> Result<String> {
    match call {
        "metadata" => metadata(alloc, db, number),
        "country-id" => country_id(alloc, db, number),
        "kind" => kind(alloc, db, number),
        "queried" => facts(alloc, db, number),
        "is-valid" => validity(alloc, db, number),
        _ => validity_with(alloc, db, number),
    }
}

/// The territory of a number.
fn metadata(alloc: Global, db: &Database, number: &PhoneNumber) -> Result<String> {
    let compiled = record(alloc, around(alloc, begin(alloc), number.metadata(db))?)?;
    agreed(compiled, record(alloc, number.territory(db)?)?)
}

/// The region of a number.
fn country_id(alloc: Global, db: &Database, number: &PhoneNumber) -> Result<String> {
    let found = around(alloc, begin(alloc), number.country().id(db))?;
    said(alloc, region_name(found))
}

/// The kind of a number.
fn kind(alloc: Global, db: &Database, number: &PhoneNumber) -> Result<String> {
    let kind = around(alloc, begin(alloc), number.number_type(db))?;
    said(alloc, kind.name())
}

/// Kind, region and validity of a number.
fn facts(alloc: Global, db: &Database, number: &PhoneNumber) -> Result<String> {
    let found = around(alloc, begin(alloc), number.facts(db))?;
    let mut out = String::new(alloc);
    push_facts(&mut out, found)?;
    Ok(out)
}

/// Whether a number is valid, by its own call.
fn validity(alloc: Global, db: &Database, number: &PhoneNumber) -> Result<String> {
    truth(
        alloc,
        around(alloc, begin(alloc), number.is_valid_with(db))?,
    )
}

/// Whether a number is valid, by the call on both.
fn validity_with(alloc: Global, db: &Database, number: &PhoneNumber) -> Result<String> {
    truth(
        alloc,
        around(alloc, begin(alloc), is_valid_with(db, number))?,
    )
}
