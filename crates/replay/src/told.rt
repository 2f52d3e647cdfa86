//! The answers to the lines of a file.
use crate::calls::{AtHand, answer_or_error};
use anyhow::Result;
use replay_base::table::{Row, escape};
use std::alloc::AllocGlobal;
use std::fs::{self, Files};

/// Prints the answer to each line, with its escapes, or behind an exclamation mark why there is
/// none.
pub fn answers<R: Files + AllocGlobal + Print>(rt: &R, file: &str) -> Result<()> {
    let text = fs::read_to_string(rt, file)?;
    let mut at_hand = AtHand::new();
    for line in text.as_str().lines() {
        tell(rt, line, &mut at_hand)?;
    }
    Ok(())
}

/// Prints the answer to one line.
fn tell<R: Files + AllocGlobal + Print>(rt: &R, line: &str, at_hand: &mut AtHand) -> Result<()> {
    let alloc = rt.alloc();
    let row = Row::read(alloc, line)?;
    let found = answer_or_error(rt, &row, at_hand)?;
    let found = escape(alloc, found.as_str())?;
    println!(rt; "{found}")?;
    Ok(())
}
