//! Questions on how numbers are written so that they can be dialled.
use crate::given::{number, refusal, region, shown};
use crate::layouts::layouts;
use anyhow::Result;
use phone_dialling::{
    dialled_text, dialled_with_letters, mobile_text, original_text, text_in, text_with_letters,
};
use phone_further::{mobile_text_in, own_layouts_text, text_by_layouts};
use phone_meta::Database;
use phone_plans::{Format, Plans};
use phonenumber::PhoneNumber;
use replay_base::table::Row;
use replay_base::words::mode;
use std::alloc::Global;

/// The answer to a line; none for any other question.
pub fn answer(alloc: Global, row: &Row, db: &Database) -> Result<Option<String>> {
    if !is_asked(row.argument(1)) {
        return Ok(None);
    }
    if let Some(error) = refusal(row, db, 2)? {
        return Ok(Some(format!(in alloc; "error {error}")?));
    }
    let n = number(alloc, row, db, 2)?;
    let text = written(alloc, row, db, &n)?;
    Ok(Some(shown(alloc, Some(text.as_str()))?))
}

/// A number as a line's question writes it.
fn written(alloc: Global, row: &Row, db: &Database, n: &PhoneNumber) -> Result<String> {
    let (raw, word) = (raw(row), row.argument(4));
    let text = match row.argument(1) {
        "print" => text_in(db, mode(word)?, raw, n),
        "mobile" => mobile_text(db, word, row.argument(5) == "yes", raw, n),
        "dialled" => dialled_text(db, region(word), raw, n),
        "own-mobile" => mobile_text_in(db, word, row.argument(5) == "yes", n),
        "letters" => text_with_letters(db, region(word), raw, n),
        "own-letters" => dialled_with_letters(db, region(word), raw, n),
        "own-by-layouts" => return by_own_layouts(alloc, row, db, n),
        "by-layouts" => return by_layouts(alloc, row, db, n),
        _ => original_text(db, region(word), raw, n),
    };
    Ok(text?)
}

/// Whether this question is one of these.
fn is_asked(question: &str) -> bool {
    matches!(
        question,
        "print"
            | "mobile"
            | "own-mobile"
            | "dialled"
            | "letters"
            | "own-letters"
            | "by-layouts"
            | "own-by-layouts"
            | "original"
    )
}

/// The text that a line's number was read from; none where the line gives its parts.
fn raw(row: &Row) -> Option<&str> {
    match row.argument(2) {
        "=" => None,
        _ => Some(row.argument(3)),
    }
}

/// The text of a number by the layouts of a line.
fn by_layouts(alloc: Global, row: &Row, db: &Database, n: &PhoneNumber) -> Result<String> {
    let own = layouts(alloc, row, 5)?;
    Ok(text_by_layouts(db, mode(row.argument(4))?, formats(&own), n)?)
}

/// The same, but for E.164 text as it stands.
fn by_own_layouts(alloc: Global, row: &Row, db: &Database, n: &PhoneNumber) -> Result<String> {
    let own = layouts(alloc, row, 5)?;
    Ok(own_layouts_text(db, mode(row.argument(4))?, formats(&own), n)?)
}

/// The layouts that a line hands in.
fn formats(own: &Plans) -> &[Format] {
    match own.by_id("001") {
        Some(territory) => territory.formats(),
        None => &[],
    }
}
