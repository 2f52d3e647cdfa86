//! The answer to a line, by the library that knows its call.
use crate::values;
use anyhow::{Result, anyhow};
use phone_meta::Database;
use replay_base::table::Row;
use replay_database::look_ups;
use replay_database::named::{Named, load, of_name};
use replay_numbers::printing::layouts_of;
use replay_questions::{matches, short};
use std::alloc::{AllocGlobal, Global};
use std::fs::Files;

/// The database of short numbers.
const SHORT: &str = "world/short";

/// The database of SMS services.
const SMS: &str = "world/sms";

/// The database of alternate layouts.
const ALTERNATES: &str = "world/alternates";

/// The databases that are at hand for the next line: the one that a line names, and those of
/// short numbers, of SMS services and of alternate layouts.
#[derive(Drop)]
pub struct AtHand {
    named: Option<Named>,
    short: Option<Named>,
    sms: Option<Named>,
    alternates: Option<Named>,
}

impl AtHand {
    /// No database.
    pub fn new() -> AtHand {
        AtHand {
            named: None,
            short: None,
            sms: None,
            alternates: None,
        }
    }
}

/// The answer to a call on no database, or on one that the call takes for itself; none for any
/// other call.
fn without_database<R: Files + AllocGlobal>(rt: &R, row: &Row) -> Result<Option<String>> {
    if let Some(found) = replay_base::answer(rt.alloc(), row)? {
        return Ok(Some(found));
    }
    if let Some(found) = replay_database::without_database(rt, row)? {
        return Ok(Some(found));
    }
    if let Some(found) = replay_numbers::without_database(rt.alloc(), row)? {
        return Ok(Some(found));
    }
    if let Some(found) = values::of_value(rt.alloc(), row)? {
        return Ok(Some(found));
    }
    replay_util::without_database(rt, row)
}

/// The answer to a call on a database; none for any other call. `layouts` is the database whose
/// layout the line hands in.
fn on_database(
    alloc: Global,
    row: &Row,
    db: &Database,
    layouts: &Database,
) -> Result<Option<String>> {
    if let Some(found) = look_ups::answer(alloc, row, db)? {
        return Ok(Some(found));
    }
    if let Some(found) = replay_numbers::of_text(alloc, row, db)? {
        return Ok(Some(found));
    }
    if let Some(found) = replay_numbers::of_number(alloc, row, db, layouts)? {
        return Ok(Some(found));
    }
    if let Some(found) = replay_questions::answer(alloc, row, db)? {
        return Ok(Some(found));
    }
    replay_util::answer(alloc, row, db)
}

/// The answer to a line. The databases that it asks are at hand for the next line.
pub fn answer<R: Files + AllocGlobal>(rt: &R, row: &Row, at_hand: &mut AtHand) -> Result<String> {
    if let Some(found) = without_database(rt, row)? {
        return Ok(found);
    }
    let db = of_name(rt, &mut at_hand.named, row.argument(0))?;
    if short::is_sms_asked(row) {
        let sms = of_name(rt, &mut at_hand.sms, SMS)?;
        return short::sms_answer(rt.alloc(), row, db, sms);
    }
    if short::is_asked(row) {
        let short = of_name(rt, &mut at_hand.short, SHORT)?;
        return short::answer(rt.alloc(), row, db, short);
    }
    if matches::is_asked(row) {
        let alternates = of_name(rt, &mut at_hand.alternates, ALTERNATES)?;
        return matches::answer(rt.alloc(), row, db, alternates);
    }
    match under(rt, row, db)? {
        Some(found) => Ok(found),
        None => Err(anyhow!("no call has this name")),
    }
}

/// The answer to a call on this database; none for any other call.
fn under<R: Files + AllocGlobal>(rt: &R, row: &Row, db: &Database) -> Result<Option<String>> {
    match layouts_of(row) {
        Some(name) => on_database(rt.alloc(), row, db, &load(rt, name)?),
        None => on_database(rt.alloc(), row, db, db),
    }
}

/// The answer to a line, or behind an exclamation mark why there is none.
pub fn answer_or_error<R: Files + AllocGlobal>(
    rt: &R,
    row: &Row,
    at_hand: &mut AtHand,
) -> Result<String> {
    match answer(rt, row, at_hand) {
        Ok(found) => Ok(found),
        Err(error) => Ok(format!(in rt.alloc(); "!{error}")?),
    }
}
