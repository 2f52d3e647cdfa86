//! Reading a line, with and without a hint.
use anyhow::Result;
use phonenumber::country::Id;
use phonenumber::metadata::Database;
use phonenumber::parse_with;
use std::alloc::AllocGlobal;
use std::fmt::Display;

/// Prints what a line was answered.
fn tell<R: Print, A: Display>(rt: &R, line: &str, answer: &A) -> Result<()> {
    println!(rt; "{line}: {answer}")?;
    Ok(())
}

/// Reads a line, and prints the number that it is, or why it is none.
fn show<R: AllocGlobal + Print>(
    rt: &R,
    database: &Database,
    hint: Option<Id>,
    line: &str,
) -> Result<()> {
    match parse_with(database, hint, line) {
        Ok(number) => tell(rt, line, &number),
        Err(refusal) => tell(rt, line, &refusal),
    }
}

/// A hint is the region in which a line was written: without one a number has to name its calling
/// code.
pub fn example<R: AllocGlobal + Print>(rt: &R, database: &Database) -> Result<()> {
    println!(rt; "# Reading")?;
    show(rt, database, Some(Id::NZ), "03-331 6005")?;
    show(rt, database, None, "03-331 6005")?;
    show(rt, database, None, "+64 3 331 6005 ext. 12")?;
    show(rt, database, Some(Id::NZ), "00 1 650 253 0000")?;
    show(rt, database, None, "call me")
}
