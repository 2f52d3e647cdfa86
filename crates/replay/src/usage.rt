//! Five things that a user of this library does, one module each: it reads lines, prints a number,
//! checks a form field, keys a table by numbers, and makes a database. The stored run ends with
//! what each prints; `docs/USING.md` tells of them.

mod database;
mod form;
mod key;
mod print;
mod read;

use anyhow::Result;
use phonenumber::metadata::Database;
use std::alloc::AllocGlobal;
use std::fs::Files;

/// Prints what each example does, most of them under the database in a file of three territories.
pub fn examples<R: Files + AllocGlobal + Print>(rt: &R, three: &str) -> Result<()> {
    let database = Database::load(rt, three)?;
    each(rt, &database)?;
    database::example(rt)
}

/// What is done under a database.
fn each<R: AllocGlobal + Print>(rt: &R, database: &Database) -> Result<()> {
    read::example(rt, database)?;
    print::example(rt, database)?;
    form::example(rt, database)?;
    key::example(rt, database)
}
