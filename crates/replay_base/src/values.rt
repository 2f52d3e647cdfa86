//! The calls of `phone_values`.
use crate::devices::push_word;
use crate::marks::{around, begin};
use crate::table::Row;
use crate::words::{refusal, truth};
use anyhow::Result;
use phone_values::country::Id;
use phone_values::{NationalNumber, ParseError, Validation};
use std::alloc::{AllocError, Global};

/// What the port answers to a call of this crate, as the table writes it; none for any other call.
pub fn answer(alloc: Global, row: &Row) -> Result<Option<String>> {
    let text = row.argument(0);
    let answer = match row.call() {
        "nsn" => number(alloc, text.parse::<NationalNumber>()),
        "nsn-new" => number(alloc, new_number(text, row.argument(1))),
        "id" => truth(alloc, text.parse::<Id>().is_ok()),
        "id-pairs" => id_pairs(alloc, text),
        "validation" => verdict(alloc, text),
        "refusal-text" => refusal_text(alloc, text),
        _ => return Ok(None),
    };
    Ok(Some(answer?))
}

/// The number of this value and this many zeros.
fn new_number(value: &str, zeros: &str) -> Result<NationalNumber, ParseError> {
    match (value.parse::<u64>(), zeros.parse::<u8>()) {
        (Ok(value), Ok(zeros)) => NationalNumber::new(value, zeros),
        _ => Err(ParseError::NoNumber),
    }
}

/// A national number as value, zeros and text, or the refusal.
fn number(alloc: Global, number: Result<NationalNumber, ParseError>) -> Result<String> {
    match number {
        Ok(number) => {
            let (value, zeros) = (number.value(), number.zeros());
            Ok(format!(in alloc; "{value}\t{zeros}\t{number}")?)
        }
        Err(error) => refusal(alloc, &error),
    }
}

/// The pairs of these letters that are ids, parted by spaces.
fn id_pairs(alloc: Global, letters: &str) -> Result<String> {
    let mut out = String::new(alloc);
    for first in letters.chars() {
        for second in letters.chars() {
            push_id(alloc, &mut out, first, second)?;
        }
    }
    Ok(out)
}

/// Writes a pair of letters, if it is an id.
fn push_id(alloc: Global, out: &mut String, a: char, b: char) -> Result<(), AllocError> {
    let pair = format!(in alloc; "{a}{b}")?;
    if pair.as_str().parse::<Id>().is_ok() {
        return push_word(out, pair.as_str());
    }
    Ok(())
}

/// The verdict of this name.
fn verdict_of(name: &str) -> Validation {
    match name {
        "IsPossible" => Validation::IsPossible,
        "IsPossibleLocalOnly" => Validation::IsPossibleLocalOnly,
        "InvalidCountryCode" => Validation::InvalidCountryCode,
        "TooShort" => Validation::TooShort,
        "InvalidLength" => Validation::InvalidLength,
        _ => Validation::TooLong,
    }
}

/// The names of the questions that a verdict answers with yes, parted by spaces.
fn verdict(alloc: Global, name: &str) -> Result<String> {
    let verdict = verdict_of(name);
    let mut out = String::new(alloc);
    push_if(&mut out, verdict.is_possible(), "is_possible")?;
    push_if(&mut out, verdict.is_invalid(), "is_invalid")?;
    push_if(&mut out, verdict.is_invalid_length(), "is_invalid_length")?;
    Ok(out)
}

/// Writes the name of a question that is answered with yes.
fn push_if(out: &mut String, holds: bool, question: &str) -> Result<(), AllocError> {
    if holds {
        return push_word(out, question);
    }
    Ok(())
}

/// The text of the refusal of this number; that of want of memory where none has it.
fn refusal_text(alloc: Global, number: &str) -> Result<String> {
    let number = number.parse::<u8>()?;
    let error = ParseError::with_number(number).unwrap_or(ParseError::Memory);
    Ok(around(alloc, begin(alloc), error_text(alloc, &error))?)
}

/// A refusal as it is printed.
fn error_text(alloc: Global, error: &ParseError) -> Result<String, AllocError> {
    error.to_string(alloc)
}
