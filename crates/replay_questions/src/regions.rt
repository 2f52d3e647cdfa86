//! Questions on regions, calling codes and kinds.
use crate::given::{region, shown, yes};
use anyhow::Result;
use phone_meta::Database;
use phone_questions::{
    code_of_region, is_geographical_kind, is_nanpa, is_portable, kinds_of_code, kinds_of_region,
    main_region, mobile_token, national_prefix, national_prefix_digits,
};
use phone_values::Type;
use phone_values::country::Id;
use replay_base::table::Row;
use replay_base::words::{kind, said};
use std::alloc::Global;

/// The answer to a line; none for any other question.
pub fn answer(alloc: Global, row: &Row, db: &Database) -> Result<Option<String>> {
    let name = row.argument(2);
    let answer = match row.argument(1) {
        "code-of" => said_code(alloc, region_code(db, name)),
        "nanpa" => yes(alloc, region(name).is_some_and(|id| is_nanpa(db, id))),
        "portable" => yes(alloc, region(name).is_some_and(|id| is_portable(db, id))),
        "ndd" => prefix(alloc, row, db),
        "kinds-of-region" => region_kinds(alloc, db, name),
        "kinds-of-code" => words(alloc, kinds_of_code(db, name.parse::<u16>()?)?),
        "region-of" => said(alloc, main_region(db, name.parse::<u16>()?).unwrap_or("ZZ")),
        "regions-of" => ids(alloc, db, name.parse::<u16>()?),
        "mobile-token" => shown(alloc, Some(mobile_token(name.parse::<u16>()?))),
        "geographical-kind" => {
            let code = row.argument(3).parse::<u16>()?;
            yes(alloc, is_geographical_kind(kind(name)?, code))
        }
        _ => return Ok(None),
    };
    Ok(Some(answer?))
}

/// The code of a region by its name.
fn region_code(db: &Database, name: &str) -> Option<u16> {
    code_of_region(db, region(name)?)
}

/// A code, 0 where there is none.
fn said_code(alloc: Global, code: Option<u16>) -> Result<String> {
    let code = code.unwrap_or(0);
    Ok(format!(in alloc; "{code}")?)
}

/// The national prefix of a line's region, with its tildes or without.
fn prefix(alloc: Global, row: &Row, db: &Database) -> Result<String> {
    let Some(id) = region(row.argument(2)) else {
        return said(alloc, "-");
    };
    if row.argument(3) == "yes" {
        return shown(alloc, national_prefix(db, id));
    }
    let digits = national_prefix_digits(db, id)?;
    match &digits {
        Some(digits) => shown(alloc, Some(digits.as_str())),
        None => said(alloc, "-"),
    }
}

/// The kinds of a region by its name.
fn region_kinds(alloc: Global, db: &Database, name: &str) -> Result<String> {
    match region(name) {
        Some(id) => words(alloc, kinds_of_region(db, id)?),
        None => said(alloc, "-"),
    }
}

/// Names of kinds with spaces between.
fn words(alloc: Global, kinds: Vec<Type>) -> Result<String> {
    let mut out = String::new(alloc);
    for kind in kinds.as_slice() {
        push_word(&mut out, kind.name())?;
    }
    if out.is_empty() {
        said(alloc, "-")
    } else {
        Ok(out)
    }
}

/// Ids of the territories of a code with spaces between.
fn ids(alloc: Global, db: &Database, code: u16) -> Result<String> {
    let Some(found) = db.region(&code)? else {
        return said(alloc, "-");
    };
    let mut out = String::new(alloc);
    for id in found.as_slice() {
        push_word(&mut out, id)?;
    }
    Ok(out)
}

/// Writes a word, behind a space if it isn't the first.
fn push_word(out: &mut String, word: &str) -> Result<()> {
    if !out.is_empty() {
        out.push(' ')?;
    }
    Ok(out.push_str(word)?)
}
