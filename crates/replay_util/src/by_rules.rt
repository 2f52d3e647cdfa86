//! By whose rules a line's call reads, and the engine that it asks.
use anyhow::Result;
use phone_engine::{Engine, Rules};
use phone_plans::Plans;
use replay_base::table::Row;
use replay_base::words;

/// By whose rules a line's call reads, and its name without that: one that ends in `-library` reads
/// by those of libphonenumber.
pub fn by_rules(row: &Row) -> (Rules, &str) {
    match row.call().strip_suffix("-library") {
        Some(name) => (Rules::Library, name),
        None => (Rules::Crate, row.call()),
    }
}

/// A database by these rules, without a hint.
pub fn without_hint(rules: Rules, database: &Plans) -> Engine<'_> {
    Engine {
        database,
        rules,
        hint: None,
    }
}

/// A database by these rules, under a hint by its word. An error where that is no hint.
pub fn hinted<'d>(rules: Rules, database: &'d Plans, word: &str) -> Result<Engine<'d>> {
    let hint = words::hint(word)?;
    Ok(Engine {
        database,
        rules,
        hint,
    })
}
