//! Rows of the numbers that libphonenumber finds in texts. A line's call is `matches`; behind its
//! database stand a hint, a leniency by libphonenumber's name, and the text. The answer is each
//! match's place, `START..END` in characters, a colon, and its E.164 text, parted by tabs.
use anyhow::{Result, anyhow};
use phone_matches::{Leniency, Match, find_matches_by};
use phone_meta::Database;
use phonenumber::PhoneNumber;
use replay_base::table::Row;
use replay_base::words::hint;
use std::alloc::Global;

/// The answer to a call on a database, with that of alternate layouts.
pub fn answer(alloc: Global, row: &Row, db: &Database, alternates: &Database) -> Result<String> {
    let (hint, leniency) = (hint(row.argument(1))?, leniency(row.argument(2))?);
    let text = row.argument(3);
    let found = find_matches_by(db, Some(alternates), hint, leniency, u64::MAX, text)?;
    told(alloc, found.as_slice())
}

/// Whether a line asks for this.
pub fn is_asked(row: &Row) -> bool {
    row.call() == "matches"
}

/// The leniency of this name.
fn leniency(name: &str) -> Result<Leniency> {
    match name {
        "POSSIBLE" => Ok(Leniency::Possible),
        "VALID" => Ok(Leniency::Valid),
        "STRICT_GROUPING" => Ok(Leniency::StrictGrouping),
        "EXACT_GROUPING" => Ok(Leniency::ExactGrouping),
        _ => Err(anyhow!("no leniency has this name")),
    }
}

/// Matches as a line has them.
fn told(alloc: Global, found: &[Match<'_, PhoneNumber>]) -> Result<String> {
    let mut out = String::new(alloc);
    for place in found {
        if !out.is_empty() {
            out.push('\t')?;
        }
        push_match(alloc, &mut out, place)?;
    }
    Ok(out)
}

/// Writes a match.
fn push_match(alloc: Global, out: &mut String, found: &Match<'_, PhoneNumber>) -> Result<()> {
    let start = found.place.before.chars().count();
    let end = start.saturating_add(found.place.text.chars().count());
    let number = &found.number;
    let text = format!(in alloc; "{start}..{end}:{number}")?;
    Ok(out.push_str(text.as_str())?)
}
