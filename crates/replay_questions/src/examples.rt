//! Questions on example numbers.
use crate::given::{parts, region};
use anyhow::Result;
use phone_engine::{Engine, Rules, example};
use phone_further::{example_of_code, example_of_kind, invalid_example};
use phone_meta::Database;
use phone_values::Type;
use phonenumber::PhoneNumber;
use replay_base::table::Row;
use replay_base::words::{kind, said};
use std::alloc::Global;

/// The answer to a line; none for any other question.
pub fn answer(alloc: Global, row: &Row, db: &Database) -> Result<Option<String>> {
    let name = row.argument(2);
    let kind = match row.argument(1) {
        "example-any" => return shown(alloc, example_of_kind(db, kind(name)?)?),
        "example-code" => return shown(alloc, example_of_code(db, name.parse::<u16>()?)?),
        "example-invalid" => return shown(alloc, invalid(db, name)?),
        "example" => Type::FixedLine,
        "example-kind" => kind(row.argument(3))?,
        _ => return Ok(None),
    };
    Ok(Some(example_of(alloc, db, name, kind)?))
}

/// The parts of a number, a hyphen where there is none.
fn shown(alloc: Global, number: Option<PhoneNumber>) -> Result<Option<String>> {
    match &number {
        Some(number) => Ok(Some(parts(alloc, number)?)),
        None => Ok(Some(said(alloc, "-")?)),
    }
}

/// The number of a region by its name that isn't valid.
fn invalid(db: &Database, name: &str) -> Result<Option<PhoneNumber>> {
    match region(name) {
        Some(id) => Ok(invalid_example(db, id)?),
        None => Ok(None),
    }
}

/// The parts of the example of a kind of a region by its name.
fn example_of(alloc: Global, db: &Database, name: &str, kind: Type) -> Result<String> {
    let Some(id) = region(name) else {
        return said(alloc, "-");
    };
    let engine = Engine {
        database: db,
        rules: Rules::Library,
        hint: None,
    };
    match example(engine, id, kind)? {
        Some(number) => parts(alloc, &number),
        None => said(alloc, "-"),
    }
}
