//! The calls of the module `validator` of `phone_read`, each on the database that its line names.
use anyhow::Result;
use either::{Left, Right};
use phone_meta::Database;
use phone_read::{Number, validator};
use replay_base::marks::{around, begin};
use replay_base::table::Row;
use replay_base::words::{kind, said};
use replay_database::look_ups::record;
use replay_database::named::{code_of, territory};
use std::alloc::Global;
use std::fmt::Display;

/// What the port answers to a call of this module, as the table writes it; none for any other call.
/// An error where a line names a code, a territory or a kind that isn't there, and where memory is
/// refused.
pub fn answer(alloc: Global, row: &Row, db: &Database) -> Result<Option<String>> {
    let answer = match row.call() {
        "length" => length(alloc, db, row, row.argument(3)),
        "length-repeated" => length_repeated(alloc, db, row),
        "number-type" => number_type(alloc, db, row),
        "source-for" => source_for(alloc, db, row),
        "home" => territory_of(alloc, db, row),
        _ => return Ok(None),
    };
    Ok(Some(answer?))
}

/// The same as of a length, of a text that comes so many times.
fn length_repeated(alloc: Global, db: &Database, row: &Row) -> Result<String> {
    let times = row.argument(4).parse::<usize>()?;
    let text = row.argument(3).repeat(alloc, times)?;
    length(alloc, db, row, text.as_str())
}

/// The region or calling code of a code and a text.
fn source_for(alloc: Global, db: &Database, row: &Row) -> Result<String> {
    let (code, text) = (code_of(row)?, row.argument(2));
    match around(alloc, begin(alloc), validator::source_for(db, code, text))? {
        Some(Left(id)) => in_word(alloc, "Left", &id.as_str()),
        Some(Right(code)) => in_word(alloc, "Right", &code),
        None => said(alloc, "-"),
    }
}

/// A side's word, and behind it in brackets what stands there.
fn in_word<T: Display>(alloc: Global, word: &str, value: &T) -> Result<String> {
    Ok(format!(in alloc; "{word}({value})")?)
}

/// The territory of a code and a text, or a hyphen.
fn territory_of(alloc: Global, db: &Database, row: &Row) -> Result<String> {
    let (code, text) = (code_of(row)?, row.argument(2));
    record(
        alloc,
        around(alloc, begin(alloc), validator::territory_of(db, code, text))?,
    )
}

/// What a length says of a national part as a number of the territory and the kind that a line
/// names.
fn length(alloc: Global, db: &Database, row: &Row, national: &str) -> Result<String> {
    let kind = kind(row.argument(2))?;
    let verdict = validator::length(territory(db, row)?, &Number::of(national), kind);
    Ok(format!(in alloc; "{verdict:?}")?)
}

/// The kind of a text in the territory that a line names.
fn number_type(alloc: Global, db: &Database, row: &Row) -> Result<String> {
    let (territory, text) = (territory(db, row)?, row.argument(2));
    let kind = around(alloc, begin(alloc), validator::number_type(territory, text))?;
    said(alloc, kind.name())
}
