//! The program `phone_apps`: what `./phone` does by its words, on the standard streams. What it
//! writes, and the status that it ends with, is told at `phone_cli::program`.
#![tactic(auto)]

use phone_cli::{Ahead, Input, Meter, Output, program};
use phone_device::Std;
use std::alloc::{AllocError, Global};
use std::env::{self, Args};
use std::io::{ErrorKind, IsTerminal, Lock, Stderr};
use std::process::ExitCode;

/// What tells how far the writing is: the terminal, where the output goes elsewhere.
fn meter(rt: &HostRuntime) -> Option<Meter<Stderr>> {
    if rt.stderr().is_terminal() && !rt.stdout().is_terminal() {
        return Some(Meter::new(rt.stderr()));
    }
    None
}

/// Where it is told that the terminal is read.
fn notice(rt: &HostRuntime) -> Option<Stderr> {
    if rt.stdin().is_terminal() {
        return Some(rt.stderr());
    }
    None
}

/// Runs the program on these words and the standard streams.
fn on_streams(rt: &HostRuntime, words: &[&str]) -> u8 {
    let mut input = Ahead::new(Input::new(rt.stdin().lock(), notice(rt)));
    let mut output = Output::new(rt.stdout(), meter(rt));
    let mut errors = Std::new(rt.stderr());
    program(rt, words, &mut input, &mut output, &mut errors)
}

/// The words in a list. Refused only for memory.
fn listed(alloc: Global, words: Args) -> Result<Vec<String>, AllocError> {
    words.collect(alloc)
}

/// The same as texts that are lent. Refused only for memory.
fn lent<'a>(alloc: Global, words: &'a [String]) -> Result<Vec<&'a str>, AllocError> {
    words.iter().map(|word| word.as_str()).collect(alloc)
}

/// Runs the program on the words of its call, of which the first is its own name.
fn on_words(rt: &HostRuntime, words: Args) -> Result<u8, AllocError> {
    let mut words = words;
    words.next();
    let words = listed(rt.alloc(), words)?;
    let lent = lent(rt.alloc(), words.as_slice())?;
    Ok(on_streams(rt, lent.as_slice()))
}

/// Tells a line, and gives a status. That it can't be written changes nothing.
fn said(rt: &HostRuntime, line: &str, status: u8) -> u8 {
    let _written = eprintln!(rt; "phone: {line}");
    status
}

/// Runs the program on its words. A word that isn't UTF-8 is a wrong one, with status 2. Status 1
/// where memory for the words is refused.
fn main(rt: HostRuntime) -> ExitCode {
    let status = match env::args(&rt) {
        Ok(words) => match on_words(&rt, words) {
            Ok(status) => status,
            Err(_) => said(&rt, "out of memory", 1),
        },
        Err(error) if error.kind() == ErrorKind::InvalidData => {
            said(&rt, "a word is not UTF-8", 2)
        }
        Err(_) => said(&rt, "out of memory", 1),
    };
    ExitCode::from(status)
}
