//! Rows of answers to the further questions of libphonenumber, of the numbers that it finds in
//! texts (`matches`), of what its formatter shows (`keyed`), and of where a number is (`places`).
//!
//! The call of a further question is `question`; behind its database stand the question's name and
//! its arguments, of which a number is two: a hint and a text, or an equals sign and its parts. The
//! answer is `-` where there is none, `empty` for the empty text, else `yes` or `no`, words, a
//! count, a number's parts; `error` and a name where a text is no number.
#![tactic(auto)]

mod dialling;
mod examples;
mod given;
mod keyed;
mod layouts;
mod locales;
pub mod matches;
mod numbers;
mod places;
mod regions;
pub mod short;
mod texts;

use anyhow::Result;
use phone_meta::Database;
use replay_base::table::Row;
use std::alloc::Global;

/// The answer to a call on a database; none for any other call.
pub fn answer(alloc: Global, row: &Row, db: &Database) -> Result<Option<String>> {
    match row.call() {
        "question" => of_question(alloc, row, db),
        "place" => Ok(Some(places::place(alloc, row, db)?)),
        _ => keyed::answer(alloc, row, db),
    }
}

/// The answer to a question; none where none has its name.
fn of_question(alloc: Global, row: &Row, db: &Database) -> Result<Option<String>> {
    if let Some(found) = regions::answer(alloc, row, db)? {
        return Ok(Some(found));
    }
    if let Some(found) = examples::answer(alloc, row, db)? {
        return Ok(Some(found));
    }
    if let Some(found) = texts::answer(alloc, row)? {
        return Ok(Some(found));
    }
    if let Some(found) = dialling::answer(alloc, row, db)? {
        return Ok(Some(found));
    }
    numbers::answer(alloc, row, db)
}
