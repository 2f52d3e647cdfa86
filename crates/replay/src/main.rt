//! Replays tables of answers. A line is a call, its arguments, the answer that is wanted, and a few
//! words why, parted by tabs.
//!
//! - Without a word it goes over all tables, prints each line whose answer is another one here,
//!   then how many lines agree, for each call, then what the examples of `usage` print. Its status
//!   is 0 where all lines agree, else 1.
//! - `answers FILE` prints the answer to each line of a file, which may leave out answer and words.
//! - `line FILE N` answers line N of a file, counted from 1, twice, and says whether both answers
//!   are the wanted one, or the first is want of memory: `tools/refuse-memory` refuses the requests
//!   of that call.
//!
//! A line's first argument names a database, where its call has one: the file
//! `databases/NAME.json`.
#![tactic(auto)]

mod alone;
mod calls;
mod copies;
mod devices;
mod errors;
mod forms;
mod told;
mod usage;
mod values;
mod whole;

use anyhow::Result;
use std::env;
use std::process::ExitCode;

fn main(rt: HostRuntime) -> Result<ExitCode> {
    let mut words = env::args(&rt)?.skip(1);
    let (first, file, line) = (words.next(), words.next(), words.next());
    let agrees = match (&first, &file, &line) {
        (None, None, None) => whole::replay(&rt)?,
        (Some(word), Some(file), None) if word.as_str() == "answers" => {
            told::answers(&rt, file.as_str())?;
            true
        }
        (Some(word), Some(file), Some(line)) if word.as_str() == "line" => {
            alone::judge(&rt, file.as_str(), line.as_str().parse::<usize>()?)?
        }
        _ => false,
    };
    Ok(ExitCode::from(if agrees { 0 } else { 1 }))
}
