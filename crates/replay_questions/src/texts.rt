//! Questions on texts.
use crate::given::{shown, yes};
use anyhow::Result;
use phone_parts::helper::extract;
use phone_questions::{diallable_only, digits_only, has_letters, with_keys};
use replay_base::table::Row;
use std::alloc::Global;

/// The answer to a line; none for any other question.
pub fn answer(alloc: Global, row: &Row) -> Result<Option<String>> {
    let text = row.argument(2);
    let made = match row.argument(1) {
        "extract" => return Ok(Some(shown(alloc, Some(extract(text).unwrap_or("")))?)),
        "has-letters" => return Ok(Some(yes(alloc, has_letters(text))?)),
        "keys" => with_keys(alloc, text)?,
        "digits" => digits_only(alloc, text)?,
        "diallable" => diallable_only(alloc, text)?,
        _ => return Ok(None),
    };
    Ok(Some(shown(alloc, Some(made.as_str()))?))
}
