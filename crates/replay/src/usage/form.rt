//! Checking a form's field: whether its text may be a number at all, whether it is one, whether
//! numbers of its country have its length, and whether it is valid.
use anyhow::Result;
use phonenumber::country::Id;
use phonenumber::metadata::Database;
use phonenumber::{ParseError, PhoneNumber, Type, is_valid_with, is_viable, parse_with, validator};
use std::alloc::{AllocError, AllocGlobal};

/// Whether numbers of this one's country have its length.
fn is_possible(database: &Database, number: &PhoneNumber) -> Result<bool, AllocError> {
    let national = number.national();
    let digits = format!(in database.allocator(); "{national}")?;
    match database.first_by_code(&number.code().value()) {
        Some(territory) => {
            Ok(validator::length_of(territory, digits.len(), Type::Unknown).is_possible())
        }
        None => Ok(false),
    }
}

/// What to tell a person who filled in the field; none where the number is valid.
fn objection(
    database: &Database,
    hint: Id,
    text: &str,
) -> Result<Option<&'static str>, AllocError> {
    let number = match parse_with(database, Some(hint), text) {
        Ok(number) => number,
        Err(ParseError::Memory) => return Err(AllocError),
        Err(ParseError::InvalidCountryCode) => return Ok(Some("no calling code is known for it")),
        Err(ParseError::TooShortNsn) => return Ok(Some("digits are missing")),
        Err(ParseError::TooLong) => return Ok(Some("it has too many digits")),
        Err(_) => return Ok(Some("it is no phone number")),
    };
    if !is_possible(database, &number)? {
        return Ok(Some("a number of that country has another count of digits"));
    }
    if is_valid_with(database, &number)? {
        Ok(None)
    } else {
        Ok(Some("no such number is given out"))
    }
}

/// Checks a field of a form from New Zealand, and prints what to tell.
fn show<R: AllocGlobal + Print>(rt: &R, database: &Database, text: &str) -> Result<()> {
    let viable = if is_viable(text) {
        "viable"
    } else {
        "not viable"
    };
    let told = objection(database, Id::NZ, text)?.unwrap_or("valid");
    println!(rt; "{text}: {viable}; {told}")?;
    Ok(())
}

/// `is_viable` takes no database and no memory, so it may be asked while the person still types.
pub fn example<R: AllocGlobal + Print>(rt: &R, database: &Database) -> Result<()> {
    println!(rt; "# A form's field")?;
    show(rt, database, "03 331 6005")?;
    show(rt, database, "03 331")?;
    show(rt, database, "04 331 6005")?;
    show(rt, database, "+64 3")?;
    show(rt, database, "+99 12345")?;
    show(rt, database, "0333160053316005331")?;
    show(rt, database, "later")
}
