//! The calls that ask how a number which a line gives by its parts is dialled from a region, and
//! whether it lies within the premises of being read back there.
use crate::premises::{how_told, is_within};
use anyhow::{Result, anyhow};
use phone_engine::dialled::{DialError, dialled_from};
use phone_meta::{Database, Metadata};
use phone_values::country::Id;
use phonenumber::PhoneNumber;
use replay_base::marks::{around, begin};
use replay_base::table::Row;
use replay_base::words::{part_of, said};
use replay_numbers::given::with_extension;
use std::alloc::Global;

/// The text that is dialled, `UnknownRegion` or `UnknownCode`; of `dial-premises` how the code is
/// told in that text and whether the premises hold; none for any other call. An error where a line
/// names a region that isn't there or gives a number that is none, and where memory is refused.
pub fn answer(alloc: Global, row: &Row, db: &Database) -> Result<Option<String>> {
    let answer = match row.call() {
        "dialled-from" => of_text(alloc, row, db),
        "dial-premises" => of_premises(alloc, row, db),
        _ => return Ok(None),
    };
    Ok(Some(answer?))
}

/// How a line's number is dialled.
fn of_text(alloc: Global, row: &Row, db: &Database) -> Result<String> {
    let number = with_extension(alloc, row)?;
    dialling_words(alloc, row, db, &number)
}

/// How a number is dialled from a line's region.
fn dialling_words(alloc: Global, row: &Row, db: &Database, number: &PhoneNumber) -> Result<String> {
    let region = row.argument(5).parse::<Id>()?;
    match around(alloc, begin(alloc), dialled_from(db, region, number)) {
        Ok(text) => part_of(alloc, text.as_str()),
        Err(DialError::UnknownRegion) => said(alloc, "UnknownRegion"),
        Err(DialError::UnknownCode) => said(alloc, "UnknownCode"),
        Err(DialError::Memory) => Err(anyhow!("out of memory")),
    }
}

/// How the code of a line's number is told, and whether the premises hold.
fn of_premises(alloc: Global, row: &Row, db: &Database) -> Result<String> {
    let number = with_extension(alloc, row)?;
    premises(alloc, row, db, &number)
}

/// How the code of a number is told that is dialled from a line's region, and whether the premises
/// hold.
fn premises(alloc: Global, row: &Row, db: &Database, number: &PhoneNumber) -> Result<String> {
    let from = territory(row, db)?;
    let holds = is_within(db, from, number)?;
    let told = how_told(from, number);
    Ok(format!(in alloc; "{told}\t{holds}")?)
}

/// The territory of a line's region. An error where the database has none.
fn territory<'a>(row: &Row, db: &'a Database) -> Result<&'a Metadata> {
    match db.by_id(row.argument(5)) {
        Some(territory) => Ok(territory),
        None => Err(anyhow!("the database has no territory of the region")),
    }
}
