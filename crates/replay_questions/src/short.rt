//! Questions on short numbers, which a second database tells of.
use crate::given::{number, region, shown, yes};
use anyhow::{Result, anyhow};
use phone_further::{
    cost_anywhere, is_carrier_anywhere, is_possible_anywhere, is_sms_service, is_valid_anywhere,
    known_cost, short_example, short_example_of_cost,
};
use phone_meta::Database;
use phone_short::Cost;
use replay_base::table::Row;
use replay_base::words::said;
use std::alloc::Global;

/// Whether a line asks of short numbers.
pub fn is_asked(row: &Row) -> bool {
    row.call() == "question" && row.argument(1).starts_with("short-")
}

/// The answer to such a line.
pub fn answer(alloc: Global, row: &Row, db: &Database, short: &Database) -> Result<String> {
    match row.argument(1) {
        "short-example" => example(alloc, short, row.argument(2), None),
        "short-example-cost" => {
            let cost = cost_of(row.argument(3))?;
            example(alloc, short, row.argument(2), Some(cost))
        }
        _ => of_number(alloc, row, db, short),
    }
}

/// Whether a line asks of SMS services.
pub fn is_sms_asked(row: &Row) -> bool {
    row.call() == "question" && row.argument(1) == "short-sms"
}

/// The answer to such a line, of which a third database tells.
pub fn sms_answer(alloc: Global, row: &Row, db: &Database, sms: &Database) -> Result<String> {
    let n = number(alloc, row, db, 2)?;
    match region(row.argument(4)) {
        Some(id) => yes(alloc, is_sms_service(db, sms, id, &n)?),
        None => said(alloc, "no"),
    }
}

/// The answer to a question on a number.
fn of_number(alloc: Global, row: &Row, db: &Database, short: &Database) -> Result<String> {
    let n = number(alloc, row, db, 2)?;
    match row.argument(1) {
        "short-possible" => yes(alloc, is_possible_anywhere(db, short, &n)?),
        "short-valid" => yes(alloc, is_valid_anywhere(db, short, &n)?),
        "short-carrier" => yes(alloc, is_carrier_anywhere(db, short, &n)?),
        "short-cost" => said(alloc, cost_word(cost_anywhere(db, short, &n)?)),
        "short-own-cost" => said(alloc, cost_word(known_cost(db, short, &n)?)),
        _ => Err(anyhow!("no question on short numbers has this name")),
    }
}

/// The example of a region by its name, perhaps of a cost; the empty text without one.
fn example(alloc: Global, short: &Database, name: &str, cost: Option<Cost>) -> Result<String> {
    let found = match (region(name), cost) {
        (Some(id), None) => short_example(short, id),
        (Some(id), Some(cost)) => short_example_of_cost(short, id, cost),
        (None, _) => None,
    };
    shown(alloc, Some(found.unwrap_or("")))
}

/// The word for a cost.
fn cost_word(cost: Cost) -> &'static str {
    match cost {
        Cost::TollFree => "TollFree",
        Cost::StandardRate => "StandardRate",
        Cost::PremiumRate => "PremiumRate",
        Cost::Unknown => "UnknownCost",
    }
}

/// The cost of a word.
fn cost_of(word: &str) -> Result<Cost> {
    match word {
        "TollFree" => Ok(Cost::TollFree),
        "StandardRate" => Ok(Cost::StandardRate),
        "PremiumRate" => Ok(Cost::PremiumRate),
        "UnknownCost" => Ok(Cost::Unknown),
        _ => Err(anyhow!("no cost has this name")),
    }
}
