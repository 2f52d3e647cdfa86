//! Forms of values: what serde reads of a JSON text, and what it writes.
use anyhow::{Result, anyhow};
use phone_values::country::{self, Code, Id, Source};
use phone_values::{Carrier, Extension, NationalNumber, Type};
use phonenumber::PhoneNumber;
use replay_base::marks::{around, begin};
use replay_base::table::Row;
use replay_base::words::said;
use replay_numbers::given::number_of_row;
use serde::{Deserialize, Serialize};
use serde_json::Error;
use std::alloc::{AllocError, Global};
use std::fmt::Debug;

/// What serde reads or writes, as the table writes it; none for any other call. An error where a
/// line names a type that isn't there or gives a number that is none, and where memory is refused.
pub fn answer(alloc: Global, row: &Row) -> Result<Option<String>> {
    let answer = match row.call() {
        "form" => form(alloc, row.argument(0), row.argument(1)),
        "forms-of-ids" => forms_of_ids(alloc),
        "form-of-national" => form_of_national(alloc, row),
        "form-of-number" => form_of_number(alloc, row),
        _ => return Ok(None),
    };
    Ok(Some(answer?))
}

/// What serde writes of a line's number.
fn form_of_number(alloc: Global, row: &Row) -> Result<String> {
    let number = number_of_row(alloc, row, 0)?;
    json_of(alloc, &number)
}

/// The value of the type of this name that serde reads of a text, and what it writes of it.
fn form(alloc: Global, name: &str, json: &str) -> Result<String> {
    match name {
        "source" => form_words::<Source>(alloc, json),
        "kind" => form_words::<Type>(alloc, json),
        "code" => form_words::<Code>(alloc, json),
        "national" => form_words::<NationalNumber>(alloc, json),
        "id" => form_words::<Id>(alloc, json),
        "extension" => form_words::<Extension>(alloc, json),
        "carrier" => form_words::<Carrier>(alloc, json),
        "number" => form_words::<PhoneNumber>(alloc, json),
        _ => Err(anyhow!("no type has this name")),
    }
}

/// The value that serde reads of a text, in the words of `Debug`, and what it writes of it, parted
/// by a tab; a hyphen where it reads none.
fn form_words<'a, T: Serialize + Deserialize<'a> + Debug + Drop>(
    alloc: Global,
    json: &'a str,
) -> Result<String> {
    match around(alloc, begin(alloc), read::<T>(alloc, json)) {
        Ok(value) => words(alloc, &value),
        Err(error) if error.is_memory() => Err(anyhow!("out of memory")),
        Err(_) => said(alloc, "-"),
    }
}

/// The value that serde reads of a text.
fn read<'a, T: Deserialize<'a> + Drop>(alloc: Global, json: &'a str) -> Result<T, Error> {
    serde_json::from_str(alloc, json)
}

/// A value in the words of `Debug`, and what serde writes of it, parted by a tab.
fn words<T: Serialize + Debug>(alloc: Global, value: &T) -> Result<String> {
    let form = serde_json::to_string(alloc, value)?;
    Ok(format!(in alloc; "{value:?}\t{form}")?)
}

/// What serde writes of a value.
fn json_of<T: Serialize>(alloc: Global, value: &T) -> Result<String> {
    Ok(around(alloc, begin(alloc), serde_json::to_string(alloc, value))?)
}

/// What serde writes of the national number of a value and so many zeros.
fn form_of_national(alloc: Global, row: &Row) -> Result<String> {
    let value = row.argument(0).parse::<u64>()?;
    let zeros = row.argument(1).parse::<u8>()?;
    json_of(alloc, &NationalNumber::new(value, zeros)?)
}

/// How many ids have their names in quotes as forms, which are read as the ids again, of how many.
fn forms_of_ids(alloc: Global) -> Result<String> {
    let (mut count, mut all) = (0u64, 0u64);
    for id in &country::ALL {
        all = all.saturating_add(1);
        if has_its_name_as_form(alloc, id)? {
            count = count.saturating_add(1);
        }
    }
    Ok(format!(in alloc; "{count} of {all}")?)
}

/// Whether serde writes an id as its name in quotes, and reads the id from it.
fn has_its_name_as_form(alloc: Global, id: &Id) -> Result<bool> {
    let form = in_quotes(alloc, id.as_str())?;
    has_as_form(alloc, id, form.as_str())
}

/// Whether serde writes an id as this form, and reads the id from it.
fn has_as_form(alloc: Global, id: &Id, form: &str) -> Result<bool> {
    let read = read::<Id>(alloc, form)?;
    let written = serde_json::to_string(alloc, id)?;
    Ok(written.as_str() == form && read == *id)
}

/// A name in quotes.
fn in_quotes(alloc: Global, name: &str) -> Result<String, AllocError> {
    format!(in alloc; "\"{name}\"")
}
