//! Short numbers of a region: `short` tells the answers of the six calls on a text, `short-kind`
//! what kind of short number it is.
use anyhow::Result;
use phone_meta::Database;
use phone_short::{ShortFacts, short_facts, short_kind};
use phone_values::country::Id;
use replay_base::marks::{around, begin};
use replay_base::table::Row;
use replay_base::words::said;
use std::alloc::Global;

/// What is known of a line's text as a short number of the line's region; none for any other call.
pub fn answer(alloc: Global, row: &Row, db: &Database) -> Result<Option<String>> {
    let answer = match row.call() {
        "short" => facts(alloc, row, db),
        "short-kind" => kind(alloc, row, db),
        _ => return Ok(None),
    };
    Ok(Some(answer?))
}

/// The answers of the six calls.
fn facts(alloc: Global, row: &Row, db: &Database) -> Result<String> {
    let (region, text) = (row.argument(1).parse::<Id>()?, row.argument(2));
    told(
        alloc,
        around(alloc, begin(alloc), short_facts(db, region, text))?,
    )
}

/// These answers, parted by tabs.
fn told(alloc: Global, facts: ShortFacts) -> Result<String> {
    let (possible, valid) = (yes(facts.is_possible), yes(facts.is_valid));
    let (cost, carrier) = (facts.cost.as_str(), yes(facts.is_carrier_specific));
    let (emergency, reaches) = (yes(facts.is_emergency), yes(facts.reaches_emergency));
    Ok(format!(in alloc; "{possible}\t{valid}\t{cost}\t{carrier}\t{emergency}\t{reaches}")?)
}

/// The kind of short number, or a hyphen.
fn kind(alloc: Global, row: &Row, db: &Database) -> Result<String> {
    let (region, text) = (row.argument(1).parse::<Id>()?, row.argument(2));
    match around(alloc, begin(alloc), short_kind(db, region, text))? {
        Some(kind) => said(alloc, kind.as_str()),
        None => said(alloc, "-"),
    }
}

/// `yes` or `no`.
fn yes(holds: bool) -> &'static str {
    if holds { "yes" } else { "no" }
}
