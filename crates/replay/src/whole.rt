//! All tables.
use crate::calls::{AtHand, answer_or_error};
use crate::usage;
use anyhow::Result;
use replay_base::table::Row;
use replay_base::tally::Tally;
use std::alloc::AllocGlobal;
use std::fs::{self, Files};

/// The tables, by their files.
const TABLES: [&str; 32] = [
    "calls.tsv",
    "report.tsv",
    "json.tsv",
    "characters.tsv",
    "devices.tsv",
    "lines.tsv",
    "databases.tsv",
    "compact.tsv",
    "layouts.tsv",
    "patterns.tsv",
    "readers.tsv",
    "readings.tsv",
    "hostile.tsv",
    "numbers.tsv",
    "reports.tsv",
    "books.tsv",
    "more.tsv",
    "found.tsv",
    "values.tsv",
    "programs.tsv",
    "examples.tsv",
    "library.tsv",
    "rules.tsv",
    "short.tsv",
    "typed.tsv",
    "keyed.tsv",
    "prefixes.tsv",
    "report-lines.tsv",
    "doubts.tsv",
    "questions.tsv",
    "matches.tsv",
    "places.tsv",
];

/// Prints each line whose answer is another one here, then the counts, then what the examples of
/// use print. Gives whether all lines agree.
pub fn replay<R: Files + AllocGlobal + Print>(rt: &R) -> Result<bool> {
    let mut tally = Tally::new(rt.alloc());
    for file in TABLES {
        replay_table(rt, file, &mut tally)?;
    }
    for count in tally.counts() {
        let (call, agree, all) = (count.call.as_str(), count.agree, count.all);
        println!(rt; "{call}: {agree} of {all} lines agree")?;
    }
    usage::examples(rt, "databases/three.json")?;
    Ok(tally.all_agree())
}

/// The lines of one table.
fn replay_table<R: Files + AllocGlobal + Print>(
    rt: &R,
    file: &str,
    tally: &mut Tally,
) -> Result<()> {
    let text = fs::read_to_string(rt, file)?;
    let mut at_hand = AtHand::new();
    for line in text.as_str().lines() {
        replay_line(rt, line, &mut at_hand, tally)?;
    }
    Ok(())
}

/// One line.
fn replay_line<R: Files + AllocGlobal + Print>(
    rt: &R,
    line: &str,
    at_hand: &mut AtHand,
    tally: &mut Tally,
) -> Result<()> {
    let alloc = rt.alloc();
    let row = Row::read(alloc, line)?;
    let found = answer_or_error(rt, &row, at_hand)?;
    let agrees = found.as_str().as_bytes() == row.answer();
    tally.count(alloc, row.call(), agrees)?;
    if !agrees {
        println!(rt; "{line}\n  but here: {found}")?;
    }
    Ok(())
}
