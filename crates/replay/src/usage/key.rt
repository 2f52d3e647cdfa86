//! Keying a table of customers by E.164 texts: equal texts mean equal calling code and national
//! number.
use anyhow::Result;
use phonenumber::country::Id;
use phonenumber::metadata::Database;
use phonenumber::{PhoneNumber, format_with, parse_with};
use std::alloc::AllocGlobal;
use std::collections::HashMap;

/// The E.164 text of a number.
fn e164<R: AllocGlobal>(rt: &R, database: &Database, number: &PhoneNumber) -> Result<String> {
    Ok(format_with(database, number).to_text(rt.alloc())?)
}

/// The E.164 text of the number that a line of a customer from New Zealand is.
fn key<R: AllocGlobal>(rt: &R, database: &Database, line: &str) -> Result<String> {
    let number = parse_with(database, Some(Id::NZ), line)?;
    e164(rt, database, &number)
}

/// Prints which customer a line's number is of.
fn show<R: AllocGlobal + Print>(
    rt: &R,
    database: &Database,
    customers: &HashMap<String, u32>,
    line: &str,
) -> Result<()> {
    let key = key(rt, database, line)?;
    match customers.get(key.as_str()) {
        Some(customer) => println!(rt; "{line}: customer {customer}")?,
        None => println!(rt; "{line}: nobody's, {key}")?,
    }
    Ok(())
}

/// Two spellings of one number find one customer. Whether that holds of a database is asked once:
/// no listed code may begin another (`codes_prefix_free`).
pub fn example<R: AllocGlobal + Print>(rt: &R, database: &Database) -> Result<()> {
    println!(rt; "# A table keyed by numbers")?;
    let alone = database.codes_prefix_free();
    println!(rt; "no code begins another: {alone}")?;
    let mut customers = HashMap::new(rt.alloc());
    customers.insert(key(rt, database, "03-331 6005")?, 17)?;
    show(rt, database, &customers, "+64 3 331 6005")?;
    show(
        rt,
        database,
        &customers,
        "tel:03-331-6005;phone-context=+64",
    )?;
    show(rt, database, &customers, "+1 650 253 0000")
}
