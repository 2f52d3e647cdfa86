//! The calls of programs over their words, what they read, and devices in memory: `phone` of
//! `phone_cli`, `phone-tool` of `phone_engine::tool`.
use anyhow::{Result, anyhow};
use phone_cli::Ahead;
use phone_device::{Limit, Script, Then};
use replay_base::devices::{fault, sink};
use replay_base::marks::{around, begin};
use replay_base::table::Row;
use std::alloc::{AllocError, AllocGlobal, Global};
use std::fs::Files;

/// How many bytes are taken of what the program tells.
const ROOM: usize = 4096;

/// How the program ended.
#[derive(Drop)]
struct Ended {
    /// Its status.
    status: u8,
    /// What it wrote.
    written: Limit,
    /// What it told.
    told: Limit,
}

/// The status that a program ends with on a line's words, input and devices, what it tells and what
/// it writes, parted by tabs; none for any other call. An error where memory is refused.
pub fn answer<R: Files + AllocGlobal>(rt: &R, row: &Row) -> Result<Option<String>> {
    match row.call() {
        "phone" | "phone-tool" => Ok(Some(end_words(rt, row)?)),
        _ => Ok(None),
    }
}

/// How the program of a line ends.
fn end_words<R: Files + AllocGlobal>(rt: &R, row: &Row) -> Result<String> {
    let ended = run(rt, row)?;
    status_after(rt.alloc(), row, &ended)
}

/// Runs the program.
fn run<R: Files + AllocGlobal>(rt: &R, row: &Row) -> Result<Ended> {
    let alloc = rt.alloc();
    let words = words(alloc, row.argument(0))?;
    let bytes = Vec::from_slice(alloc, row.argument_bytes(3))?;
    let mut source = Ahead::new(Script::new(bytes, fault(row.argument(1))?));
    let mut written = sink(alloc, row.argument(2))?;
    let mut told = Limit::new(alloc, ROOM, Then::Fail)?;
    let begun = begin(alloc);
    let status = program(
        rt,
        row,
        words.as_slice(),
        &mut source,
        &mut written,
        &mut told,
    );
    let status = around(alloc, begun, status);
    Ok(Ended {
        status,
        written,
        told,
    })
}

/// The words of a line, parted by spaces; none where it has a hyphen.
fn words<'a>(alloc: Global, text: &'a str) -> Result<Vec<&'a str>> {
    if text == "-" {
        return Ok(Vec::new(alloc));
    }
    Ok(text.split(' ').collect(alloc)?)
}

/// The program of a line's call, on its words and devices.
fn program<R: Files + AllocGlobal>(
    rt: &R,
    row: &Row,
    words: &[&str],
    source: &mut Ahead<Script>,
    written: &mut Limit,
    told: &mut Limit,
) -> u8 {
    match row.call() {
        "phone" => phone_cli::program(rt, words, source, written, told),
        _ => phone_engine::tool::program(rt, words, source, written, told),
    }
}

/// How the program ended. An error where it wanted memory, and wrote nothing but a beginning of
/// what is wanted.
fn status_after(alloc: Global, row: &Row, ended: &Ended) -> Result<String> {
    let status = ended.status;
    let told = text(alloc, ended.told.bytes())?;
    let written = text(alloc, ended.written.bytes())?;
    let wanted = row.answer().splitn(3, |byte| *byte == b'\t').nth(2);
    if wants_memory(told.as_str(), written.as_str(), wanted.unwrap_or(&[])) {
        return Err(anyhow!("out of memory"));
    }
    Ok(format!(in alloc; "{status}\t{told}\t{written}")?)
}

/// Whether a program with this standard error and this output ended because memory was refused, and
/// wrote a beginning of the text: it says that memory was refused, or it says that its sink failed
/// and has written less than the whole text.
fn wants_memory(told: &str, written: &str, wanted: &[u8]) -> bool {
    let written = written.as_bytes();
    wanted.starts_with(written)
        && match told {
            "out of memory\n" | "phone: out of memory\n" | "database refused: 7\n" => true,
            "output failed\n" | "phone: output failed\n" => written.len() < wanted.len(),
            _ => told.contains(" is refused: 7"),
        }
}

/// Bytes as a text: as they are where they are UTF-8, else each as the character of its number.
fn text(alloc: Global, bytes: &[u8]) -> Result<String, AllocError> {
    match std::str::from_utf8(bytes) {
        Ok(text) => String::from_str(alloc, text),
        Err(_) => bytes.iter().map(|byte| char::from(*byte)).collect(alloc),
    }
}
