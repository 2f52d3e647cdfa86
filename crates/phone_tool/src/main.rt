//! The program `phone_tool DATABASE [REGION]`: the report on the lines of standard input, written
//! to standard output, under the database in a file. What it writes, and the status that it ends
//! with, is told at `program`.
#![tactic(auto)]

use phone_device::{Std, write_all};
pub use phone_engine::RunError;
pub use phone_engine::tool::{program, run};
use std::env::{self, Args};
use std::io::{ErrorKind, Lock};
use std::process::ExitCode;

/// Runs the program on these words and the standard devices.
fn on_devices(rt: &HostRuntime, words: &[&str]) -> u8 {
    let mut input = Std::new(rt.stdin().lock());
    let mut output = Std::new(rt.stdout());
    let mut errors = Std::new(rt.stderr());
    program(rt, words, &mut input, &mut output, &mut errors)
}

/// Runs the program on the words of its call, of which the first is its own name.
fn on_words(rt: &HostRuntime, words: Args) -> u8 {
    let mut words = words;
    words.next();
    let (path, region, more) = (words.next(), words.next(), words.next());
    match (&path, &region, &more) {
        (Some(path), None, _) => on_devices(rt, &[path.as_str()]),
        (Some(path), Some(region), None) => on_devices(rt, &[path.as_str(), region.as_str()]),
        _ => on_devices(rt, &[]),
    }
}

/// Runs the program on its words. A word that isn't UTF-8 is a wrong one: the usage is told, with
/// status 2. Status 1 where the words are refused for memory.
fn main(rt: HostRuntime) -> ExitCode {
    let status = match env::args(&rt) {
        Ok(words) => on_words(&rt, words),
        Err(error) if error.kind() == ErrorKind::InvalidData => on_devices(&rt, &[]),
        Err(_) => {
            let _written = write_all(&mut Std::new(rt.stderr()), b"out of memory\n");
            1
        }
    };
    ExitCode::from(status)
}
