//! Copies: whether a value that was copied is equal to its copy, and has the same hash.
use anyhow::Result;
use phone_values::equality::{SameValue, hash_of};
use phone_values::{Carrier, Extension};
use phonenumber::metadata::Database;
use phonenumber::{PhoneNumber, Texts, format_with, laws, parse_with};
use replay_base::marks::{around, begin};
use replay_base::table::Row;
use replay_base::words::{hint, truth};
use replay_numbers::given::number_of_row;
use std::alloc::Global;
use std::hash::Hash;

/// What a copy is beside its value, as the table writes it; none for any other call. An error where
/// a line gives a number that is none, and where memory is refused.
pub fn answer(alloc: Global, row: &Row) -> Result<Option<String>> {
    let answer = match row.call() {
        "copied-extension" => truth_words(alloc, is_extension_copied(alloc, row.argument(0))),
        "copied-carrier" => truth_words(alloc, is_carrier_copied(alloc, row.argument(0))),
        "copied-number" => number(alloc, row),
        "copied-texts" => texts(alloc, row),
        _ => return Ok(None),
    };
    Ok(Some(answer?))
}

/// Whether a value is as its copy, as the table writes it.
fn truth_words(alloc: Global, is_copied: Result<bool>) -> Result<String> {
    truth(alloc, is_copied?)
}

/// Whether a line's number and its copy are alike.
fn number(alloc: Global, row: &Row) -> Result<String> {
    let number = number_of_row(alloc, row, 0)?;
    truth_words(alloc, is_number_copied(alloc, &number))
}

/// Whether two values are equal in each way to ask it, and have equal hashes.
fn are_alike<T: PartialEq + SameValue + Hash>(a: &T, b: &T) -> bool {
    a == b && a.is_same(b) && hash_of(a) == hash_of(b)
}

/// Whether the extension of a text and its copy are alike.
fn is_extension_copied(alloc: Global, text: &str) -> Result<bool> {
    let extension = Extension::from(String::from_str(alloc, text)?);
    let copy = around(alloc, begin(alloc), extension.clone())?;
    Ok(are_alike(&extension, &copy))
}

/// Whether the carrier of a text and its copy are alike.
fn is_carrier_copied(alloc: Global, text: &str) -> Result<bool> {
    let carrier = Carrier::from(String::from_str(alloc, text)?);
    let copy = around(alloc, begin(alloc), carrier.clone())?;
    Ok(are_alike(&carrier, &copy))
}

/// Whether a number and its copy are alike.
fn is_number_copied(alloc: Global, number: &PhoneNumber) -> Result<bool> {
    let copy = around(alloc, begin(alloc), number.clone())?;
    Ok(are_numbers_alike(number, &copy))
}

/// Whether two numbers are alike, and have equal hashes by the law of hashes too.
fn are_numbers_alike(number: &PhoneNumber, copy: &PhoneNumber) -> bool {
    let (first, second) = laws::hashes(number, copy);
    are_alike(number, copy) && first == second
}

/// The RFC 3966 text of what a line's text is read as by the records of a database text, which were
/// written and read again; and whether a copy of the number's texts is equal to them.
fn texts(alloc: Global, row: &Row) -> Result<String> {
    let json = json_of_records(alloc, row.argument(0))?;
    under(alloc, row, &Database::parse(alloc, json.as_str())?)
}

/// The records of a text, as serde writes them.
fn json_of_records(alloc: Global, text: &str) -> Result<String> {
    let records = phone_json::records(alloc, text)?;
    Ok(serde_json::to_string(alloc, &records)?)
}

/// The same under a database.
fn under(alloc: Global, row: &Row, database: &Database) -> Result<String> {
    let number = parse_with(database, hint(row.argument(1))?, row.argument(2))?;
    copy_words(alloc, &format_with(database, &number).to_texts(alloc)?)
}

/// The RFC 3966 text of these texts, and whether a copy of them is equal to them.
fn copy_words(alloc: Global, texts: &Texts) -> Result<String> {
    let begun = begin(alloc);
    let copy: Result<_, _> = texts.clone();
    let copy = around(alloc, begun, copy)?;
    let (text, is_equal) = (texts.rfc3966.as_str(), *texts == copy);
    Ok(format!(in alloc; "={text}\t{is_equal}")?)
}
