//! The calls of `phone_chars`.
use crate::marks::{around, begin};
use crate::table::Row;
use crate::words::{part_of, said, truth};
use anyhow::Result;
use phone_chars::chars::{self, normalize};
use phone_chars::is_viable;
use std::alloc::Global;
use std::borrow::CowStr;

/// What the port answers to a call of this crate, as the table writes it; none for any other call.
pub fn answer(alloc: Global, row: &Row) -> Result<Option<String>> {
    let text = row.argument(0);
    let answer = match row.call() {
        "keep" => each(alloc, "=", text, row.argument(1)),
        "as_dec_digit" | "keypad" => each(alloc, "", row.call(), text),
        "same-fold" => truth(alloc, same_fold(text, row.argument(1))),
        "normalize" => digits_of(alloc, text),
        "normalize-form" => normalized_form(alloc, text, row.argument(1)),
        "viable" => truth(alloc, is_viable(text)),
        _ => return Ok(None),
    };
    Ok(Some(answer?))
}

/// The digits of a borrowed text.
fn digits_of(alloc: Global, text: &str) -> Result<String> {
    let digits = around(
        alloc,
        begin(alloc),
        normalize(alloc, CowStr::Borrowed(text)),
    )?;
    part_of(alloc, digits.as_str())
}

/// The digits of a text that is handed in `borrowed` or `owned`, behind which of the two they are.
fn normalized_form(alloc: Global, form: &str, text: &str) -> Result<String> {
    match form {
        "owned" => form_of(alloc, CowStr::Owned(said(alloc, text)?)),
        _ => form_of(alloc, CowStr::Borrowed(text)),
    }
}

/// The digits of a text, behind whether they are borrowed or owned.
fn form_of(alloc: Global, text: CowStr<'_>) -> Result<String> {
    let digits = around(alloc, begin(alloc), normalize(alloc, text))?;
    form_words(alloc, &digits)
}

/// A text, behind whether it is borrowed or owned.
fn form_words(alloc: Global, text: &CowStr<'_>) -> Result<String> {
    let form = match text {
        CowStr::Borrowed(_) => "borrowed",
        CowStr::Owned(_) => "owned",
    };
    let text = text.as_str();
    Ok(format!(in alloc; "{form}\t={text}")?)
}

/// Whether a character passes the test of this name.
fn passes(test: &str, c: char) -> bool {
    match test {
        "is_punctuation" => chars::is_punctuation(c),
        "is_separator" => chars::is_separator(c),
        "is_plus" => chars::is_plus(c),
        "is_star" => chars::is_star(c),
        "is_digit" => chars::is_digit(c),
        "is_wide_digit" => chars::is_wide_digit(c),
        "is_alpha" => chars::is_alpha(c),
        "is_nd" => chars::is_nd(c),
        "is_number" => chars::is_number(c),
        "is_letter" => chars::is_letter(c),
        _ => false,
    }
}

/// What is told of a character by the test or the call of this name.
fn told(name: &str, c: char) -> Option<char> {
    match name {
        "keypad" => Some(chars::keypad(c).unwrap_or('-')),
        "as_dec_digit" => Some(chars::as_dec_digit(c).unwrap_or('-')),
        _ if passes(name, c) => Some(c),
        _ => None,
    }
}

/// Behind a sign, the characters of a text that pass the test of this name; or for each character
/// its digit, by its key or as a digit, or a hyphen.
fn each(alloc: Global, sign: &str, name: &str, text: &str) -> Result<String> {
    let mut out = String::from_str(alloc, sign)?;
    for c in text.chars() {
        if let Some(c) = told(name, c) {
            out.push(c)?;
        }
    }
    Ok(out)
}

/// Whether the first characters of two texts are one when case is ignored.
fn same_fold(a: &str, b: &str) -> bool {
    match (a.chars().next(), b.chars().next()) {
        (Some(a), Some(b)) => chars::same_fold(a, b),
        _ => false,
    }
}
