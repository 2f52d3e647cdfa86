//! Questions on numbers.
use crate::given::{number, parts, yes};
use anyhow::Result;
use phone_further::{
    LibraryLikeness, Likeness, OwnLikeness, match_text, match_texts, possibility_of,
    reaches_from_abroad,
};
use phone_meta::Database;
use phone_questions::{
    NumberMatch, area_length, destination_length, is_dialled_from_abroad, is_geographical,
    is_valid_for, national_with_carrier, national_with_preferred_carrier, possibility_as,
    truncated,
};
use phone_values::Type;
use phonenumber::PhoneNumber;
use replay_base::table::Row;
use replay_base::words::{hint, kind};
use std::alloc::Global;

/// The answer to a line; none for any other question.
pub fn answer(alloc: Global, row: &Row, db: &Database) -> Result<Option<String>> {
    if row.argument(1) == "match-texts" {
        return Ok(Some(texts_like(alloc, row, db, &LibraryLikeness)?));
    }
    if row.argument(1) == "own-match-texts" {
        return Ok(Some(texts_like(alloc, row, db, &OwnLikeness)?));
    }
    if row.argument(1) == "keep" {
        return Ok(Some(kept(alloc, row, db)?));
    }
    of_number(alloc, row, db)
}

/// The answer to a line whose question is of a number; none for any other question.
fn of_number(alloc: Global, row: &Row, db: &Database) -> Result<Option<String>> {
    let n = number(alloc, row, db, 2)?;
    if let Some(found) = alone(alloc, row, db, &n)? {
        return Ok(Some(found));
    }
    beside(alloc, row, db, &n)
}

/// The answer to a question of a number alone; none for any other question.
fn alone(alloc: Global, row: &Row, db: &Database, n: &PhoneNumber) -> Result<Option<String>> {
    let answer = match row.argument(1) {
        "valid-for" => yes(alloc, is_valid_for(db, row.argument(4), n)?),
        "from-abroad" => yes(alloc, is_dialled_from_abroad(db, n)?),
        "own-from-abroad" => yes(alloc, reaches_from_abroad(db, n)?),
        "geographical" => yes(alloc, is_geographical(db, n)?),
        "possible" => verdict(alloc, db, Type::Unknown, n),
        "possible-kind" => verdict(alloc, db, kind(row.argument(4))?, n),
        "own-possible-kind" => own_verdict(alloc, db, kind(row.argument(4))?, n),
        "destination-length" => count(alloc, destination_length(db, n)?),
        "area-length" => count(alloc, area_length(db, n)?),
        _ => return Ok(None),
    };
    Ok(Some(answer?))
}

/// The answer to a question of what becomes of a number, or of what it is beside another; none for
/// any other question.
fn beside(alloc: Global, row: &Row, db: &Database, n: &PhoneNumber) -> Result<Option<String>> {
    let answer = match row.argument(1) {
        "truncate" => cut(alloc, db, n),
        "carrier" => with_carrier(db, carrier(row), n),
        "preferred" => with_preferred(db, carrier(row), n),
        "match" => second_like(alloc, row, db, n, &LibraryLikeness),
        "own-match" => second_like(alloc, row, db, n, &OwnLikeness),
        "match-text" => text_like(alloc, db, n, row.argument(4), &LibraryLikeness),
        "own-match-text" => text_like(alloc, db, n, row.argument(4), &OwnLikeness),
        _ => return Ok(None),
    };
    Ok(Some(answer?))
}

/// The national text with a carrier.
fn with_carrier(db: &Database, carrier: &str, n: &PhoneNumber) -> Result<String> {
    Ok(national_with_carrier(db, carrier, n)?)
}

/// The national text with the number's own carrier, or this one.
fn with_preferred(db: &Database, carrier: &str, n: &PhoneNumber) -> Result<String> {
    Ok(national_with_preferred_carrier(db, carrier, n)?)
}

/// What is kept of a line's text: code, digits, extension, source and carrier; or its refusal.
fn kept(alloc: Global, row: &Row, db: &Database) -> Result<String> {
    let n = match phone_library::parse(db, hint(row.argument(2))?, row.argument(3)) {
        Ok(n) => n,
        Err(error) => return Ok(format!(in alloc; "error {error:?}")?),
    };
    let (code, national, source) = (n.code().value(), n.national(), n.code().source());
    let extension = n.extension().map_or("-", |e| e.as_str());
    let carrier = n.carrier().map_or("-", |c| c.as_str());
    Ok(format!(in alloc; "{code} {national} {extension} {source:?} {carrier}")?)
}

/// The carrier of a line, the empty text for a hyphen.
fn carrier(row: &Row) -> &str {
    match row.argument(4) {
        "-" => "",
        carrier => carrier,
    }
}

/// What the count of a number's digits says.
fn verdict(alloc: Global, db: &Database, kind: Type, n: &PhoneNumber) -> Result<String> {
    let verdict = possibility_as(db, kind, n);
    Ok(format!(in alloc; "{verdict:?}")?)
}

/// The same by our own answer.
fn own_verdict(alloc: Global, db: &Database, kind: Type, n: &PhoneNumber) -> Result<String> {
    let verdict = possibility_of(db, kind, n)?;
    Ok(format!(in alloc; "{verdict:?}")?)
}

/// A count.
fn count(alloc: Global, count: usize) -> Result<String> {
    Ok(format!(in alloc; "{count}")?)
}

/// Whether something valid is left of a number, and what.
fn cut(alloc: Global, db: &Database, n: &PhoneNumber) -> Result<String> {
    match truncated(db, n)? {
        Some(left) => {
            let left = parts(alloc, &left)?;
            Ok(format!(in alloc; "yes {left}")?)
        }
        None => {
            let whole = parts(alloc, n)?;
            Ok(format!(in alloc; "no {whole}")?)
        }
    }
}

/// How like the two texts of a line are.
fn texts_like<L: Likeness>(
    alloc: Global,
    row: &Row,
    db: &Database,
    likeness: &L,
) -> Result<String> {
    let found = match_texts(likeness, db, row.argument(2), row.argument(3))?;
    match_word(alloc, found)
}

/// How like a number and the second one of a line are.
fn second_like<L: Likeness>(
    alloc: Global,
    row: &Row,
    db: &Database,
    n: &PhoneNumber,
    likeness: &L,
) -> Result<String> {
    let other = number(alloc, row, db, 4)?;
    match_word(alloc, likeness.match_numbers(alloc, n, &other)?)
}

/// How like a number and a text are.
fn text_like<L: Likeness>(
    alloc: Global,
    db: &Database,
    n: &PhoneNumber,
    text: &str,
    likeness: &L,
) -> Result<String> {
    match_word(alloc, match_text(likeness, db, n, text)?)
}

/// The word for how like two numbers are.
fn match_word(alloc: Global, found: NumberMatch) -> Result<String> {
    Ok(format!(in alloc; "{found:?}")?)
}
