//! One line, whose requests for memory may be refused.
use crate::calls::{AtHand, answer};
use anyhow::{Result, anyhow};
use replay_base::table::Row;
use std::alloc::AllocGlobal;
use std::fs::{self, Files};

/// Answers a line twice, by one database where it names one, and says of both answers whether they
/// are the wanted one; of one that is an error, which. Gives whether both are, or the first is an
/// error.
pub fn judge<R: Files + AllocGlobal + Print>(rt: &R, file: &str, line: usize) -> Result<bool> {
    let alloc = rt.alloc();
    let text = fs::read_to_string(rt, file)?;
    let Some(line) = text.as_str().lines().nth(line.saturating_sub(1)) else {
        return Err(anyhow!("the table has no such line"));
    };
    let row = Row::read(alloc, line)?;
    let mut at_hand = AtHand::new();
    let first = is_wanted(rt, &row, "first", &mut at_hand)?;
    let again = is_wanted(rt, &row, "again", &mut at_hand)?;
    Ok(first != Some(false) && again == Some(true))
}

/// Whether the answer is the wanted one; none where it is an error. Prints which of the three.
fn is_wanted<R: Files + AllocGlobal + Print>(
    rt: &R,
    row: &Row,
    which: &str,
    at_hand: &mut AtHand,
) -> Result<Option<bool>> {
    match answer(rt, row, at_hand) {
        Ok(found) => {
            let agrees = found.as_str().as_bytes() == row.answer();
            println!(rt; "{which}: {agrees}")?;
            Ok(Some(agrees))
        }
        Err(error) => {
            println!(rt; "{which}: error: {error}")?;
            Ok(None)
        }
    }
}
