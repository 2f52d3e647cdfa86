//! The call that tells what a field shows while a number is typed into it.
use anyhow::{Result, anyhow};
use phone_meta::Database;
use phone_typed::{Typing, typed};
use replay_base::table::Row;
use replay_base::words::hint;
use std::alloc::Global;

/// What is shown after each character of a line's keys, parted by vertical bars; none for any other
/// call. An error where what `typed` says of the characters so far is something else, where a key
/// that is taken away and typed again changes it, or where memory is refused.
pub fn answer(alloc: Global, row: &Row, db: &Database) -> Result<Option<String>> {
    match row.call() {
        "typed" => Ok(Some(each_text(alloc, row, db)?)),
        _ => Ok(None),
    }
}

/// What is shown after each character.
fn each_text(alloc: Global, row: &Row, db: &Database) -> Result<String> {
    let hint = hint(row.argument(1))?;
    let mut field = Typing::new(db, hint);
    let mut texts = String::new(alloc);
    let mut typed_so_far = String::new(alloc);
    for c in row.argument(2).chars() {
        if !typed_so_far.is_empty() {
            texts.push('|')?;
        }
        typed_so_far.push(c)?;
        let text = typed(db, hint, typed_so_far.as_str())?;
        type_again(&mut field, c, text.as_str())?;
        texts.push_str(text.as_str())?;
    }
    Ok(texts)
}

/// Types a character, and if it has a key takes that away and types it again: an error where
/// another text is shown then, or the caret doesn't stand after it.
fn type_again(field: &mut Typing<'_>, c: char, text: &str) -> Result<()> {
    let keys = field.keys().len();
    field.push(c)?;
    if field.keys().len() > keys {
        field.back()?;
        field.push(c)?;
    }
    if field.shown() != text {
        return Err(anyhow!("the field shows another text"));
    }
    if field.caret(keys + 1) > text.chars().count() {
        return Err(anyhow!("the caret stands after the text"));
    }
    Ok(())
}
