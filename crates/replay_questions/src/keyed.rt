//! Rows of what a field shows while a number is keyed in, as libphonenumber's formatter shows it.
//! Behind a call's database stand a hint and the characters. `keyed` answers what is shown after
//! each character, `keyed-caret` after how many of what is shown at last each stands, with vertical
//! bars between.
use anyhow::{Result, anyhow};
use phone_meta::Database;
use phone_typed::Keyed;
use phone_values::country::Id;
use replay_base::table::Row;
use replay_base::words::hint;
use std::alloc::Global;

/// The answer to a call on a database; none for any other call. An error where a field that was
/// cleared shows something else, or one in which all is typed at once, or where memory is refused.
pub fn answer(alloc: Global, row: &Row, db: &Database) -> Result<Option<String>> {
    match row.call() {
        "keyed" => Ok(Some(texts(alloc, row, db)?)),
        "keyed-caret" => Ok(Some(carets(alloc, row, db)?)),
        _ => Ok(None),
    }
}

/// What is shown after each character.
fn texts(alloc: Global, row: &Row, db: &Database) -> Result<String> {
    let hint = hint(row.argument(1))?;
    let typed = row.argument(2);
    let mut field = Keyed::new(db, hint);
    let texts = each_text(alloc, &mut field, typed)?;
    all_at_once(db, hint, typed, field.shown())?;
    field.clear();
    let again = each_text(alloc, &mut field, typed)?;
    if again.as_str() != texts.as_str() {
        return Err(anyhow!("a field that was cleared shows other texts"));
    }
    Ok(texts)
}

/// What is shown after each character.
fn each_text(alloc: Global, field: &mut Keyed<'_>, typed: &str) -> Result<String> {
    let mut texts = String::new(alloc);
    let mut is_first = true;
    for c in typed.chars() {
        if !is_first {
            texts.push('|')?;
        }
        is_first = false;
        field.push(c)?;
        texts.push_str(field.shown())?;
    }
    Ok(texts)
}

/// An error where a field in which all is typed at once shows something else than this.
fn all_at_once(db: &Database, hint: Option<Id>, typed: &str, shown: &str) -> Result<()> {
    let field = Keyed::typed(db, hint, typed)?;
    if field.shown() != shown {
        return Err(anyhow!("a field in which all is typed at once shows another text"));
    }
    Ok(())
}

/// Where the caret stands after each character once all are typed.
fn carets(alloc: Global, row: &Row, db: &Database) -> Result<String> {
    let hint = hint(row.argument(1))?;
    let typed = row.argument(2);
    let field = Keyed::typed(db, hint, typed)?;
    each_caret(alloc, &field, typed)
}

/// Where the caret stands after each character of a text in a field in which it is typed.
fn each_caret(alloc: Global, field: &Keyed<'_>, typed: &str) -> Result<String> {
    let mut carets = String::new(alloc);
    let mut n: usize = 0;
    for _ in typed.chars() {
        if n > 0 {
            carets.push('|')?;
        }
        n = n.saturating_add(1);
        let caret = field.caret(n);
        write!(carets, "{caret}")?;
    }
    Ok(carets)
}
