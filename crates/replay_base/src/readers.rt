//! The calls of `phone_parts`: the two readers, and `extract`. They take no memory, so no marks
//! stand around them.
use crate::table::Row;
use crate::words::{part, said, source};
use anyhow::Result;
use phone_parts::natural::NoReading;
use phone_parts::{Number, helper, natural, rfc3966};
use std::alloc::{AllocError, Global};
use std::borrow::CowStr;

/// What the port answers to one of these calls, as the table writes it; none for any other call.
pub fn answer(alloc: Global, row: &Row) -> Result<Option<String>> {
    let text = row.argument(0);
    let answer = match row.call() {
        "extract" => part(alloc, helper::extract(text)),
        "natural" => in_free_text(alloc, text, false),
        "rfc3966" => in_tel_form(alloc, text, false),
        "natural-made" | "rfc3966-made" => made(alloc, row),
        _ => return Ok(None),
    };
    Ok(Some(answer?))
}

/// What kind of reading one of the readers has of the text that a line makes.
fn made(alloc: Global, row: &Row) -> Result<String> {
    let text = text_of_row(alloc, row, 0)?;
    match row.call() {
        "natural-made" => in_free_text(alloc, text.as_str(), true),
        _ => in_tel_form(alloc, text.as_str(), true),
    }
}

/// The text that a line makes, from an argument on: a front, a part so many times, and a back.
pub fn text_of_row(alloc: Global, row: &Row, at: usize) -> Result<String> {
    let times = row.argument(at.saturating_add(2)).parse::<usize>()?;
    let mut text = String::from_str(alloc, row.argument(at))?;
    for _ in 0..times {
        text.push_str(row.argument(at.saturating_add(1)))?;
    }
    text.push_str(row.argument(at.saturating_add(3)))?;
    Ok(text)
}

/// What the reader of free text finds, or its kind alone; or why it finds nothing.
fn in_free_text(alloc: Global, text: &str, is_kind_alone: bool) -> Result<String> {
    match natural::phone_number(text) {
        Ok(found) => found_words(alloc, &found, is_kind_alone),
        Err(NoReading::Error) => said(alloc, "Error"),
        Err(NoReading::Failure) => said(alloc, "Failure"),
    }
}

/// What the reader of the `tel:` form finds, or its kind alone; or `none`.
fn in_tel_form(alloc: Global, text: &str, is_kind_alone: bool) -> Result<String> {
    match rfc3966::phone_number(text) {
        Some(found) => found_words(alloc, &found, is_kind_alone),
        None => said(alloc, "none"),
    }
}

/// A number that was found, or its kind alone.
fn found_words(alloc: Global, found: &Number<'_>, is_kind_alone: bool) -> Result<String> {
    if is_kind_alone {
        return said(alloc, kind(found));
    }
    number(alloc, found)
}

/// Whether a number that was found has an extension.
fn kind(found: &Number<'_>) -> &'static str {
    match found.extension {
        Some(_) => "with extension",
        None => "without extension",
    }
}

/// A number's source and its four parts, as the table writes them.
pub fn number(alloc: Global, number: &Number<'_>) -> Result<String> {
    let (source, national) = (source(number.country), number.national.as_str());
    let mut out = String::from_str(alloc, source)?;
    push_part(&mut out, Some(national))?;
    push_part(&mut out, text(&number.prefix))?;
    push_part(&mut out, text(&number.extension))?;
    push_part(&mut out, text(&number.carrier))?;
    Ok(out)
}

/// The text of a part that may be absent.
fn text<'a>(part: &'a Option<CowStr<'_>>) -> Option<&'a str> {
    match part {
        Some(part) => Some(part.as_str()),
        None => None,
    }
}

/// Writes a tab and a part behind an equals sign, or a hyphen where there is none.
pub fn push_part(out: &mut String, part: Option<&str>) -> Result<(), AllocError> {
    match part {
        Some(part) => write!(out, "\t={part}"),
        None => out.push_str("\t-"),
    }
}
