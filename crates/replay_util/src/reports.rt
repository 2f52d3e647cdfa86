//! The calls of reports, by either rules: the report line of a line; over devices in memory what a
//! run writes, and how it ends where a device fails.
use crate::by_rules::{by_rules, hinted};
use anyhow::{Result, anyhow};
use phone_device::{Limit, MemorySource, Script, Then};
use phone_engine::{Engine, RunError};
use phone_meta::Database;
use replay_base::devices::{fault, then};
use replay_base::marks::{around, begin};
use replay_base::table::Row;
use replay_base::words::said;
use std::alloc::Global;

/// How many bytes the sink of a run takes that isn't to fail.
const ROOM: usize = 4096;

/// A report, as the table writes it; none for any other call. An error where a line names no place
/// or no end of a device, and where memory is refused.
pub fn answer(alloc: Global, row: &Row, db: &Database) -> Result<Option<String>> {
    let (rules, call) = by_rules(row);
    match call {
        "report-line" | "run" | "run-source" | "run-sink" | "run-each-sink" => {
            let engine = hinted(rules, db, row.argument(1))?;
            Ok(Some(of_call(alloc, call, row, engine)?))
        }
        _ => Ok(None),
    }
}

/// The report that this call gives.
fn of_call(alloc: Global, call: &str, row: &Row, engine: Engine<'_>) -> Result<String> {
    match call {
        "report-line" => of_line(alloc, row, engine),
        "run" => of_row(alloc, row, engine),
        "run-source" => from_source(alloc, row, engine),
        "run-sink" => to_sink(alloc, row, engine),
        _ => to_each_sink(alloc, row, engine),
    }
}

/// The report line of a line.
fn of_line(alloc: Global, row: &Row, engine: Engine<'_>) -> Result<String> {
    let begun = begin(alloc);
    let line = engine.report_line(row.argument_bytes(2));
    Ok(around(alloc, begun, line)?)
}

/// The report on a line's input. An error where memory is refused behind whole first lines of the
/// report that is wanted.
fn of_row(alloc: Global, row: &Row, engine: Engine<'_>) -> Result<String> {
    let mut sink = Limit::new(alloc, ROOM, Then::Fail)?;
    let end = run_to(alloc, row, engine, &mut sink);
    if end == Err(RunError::Memory) && !are_first_lines(sink.bytes(), row.answer()) {
        return said(alloc, "another end");
    }
    report(alloc, end, sink.bytes())
}

/// How a run over a line's input ends that writes to a sink.
fn run_to(alloc: Global, row: &Row, engine: Engine<'_>, sink: &mut Limit) -> Result<(), RunError> {
    let mut source = MemorySource::new(row.argument_bytes(2));
    around(alloc, begin(alloc), engine.report(&mut source, sink))
}

/// What a run wrote that came to its end. An error where memory was refused.
fn report(alloc: Global, end: Result<(), RunError>, written: &[u8]) -> Result<String> {
    match end {
        Ok(()) => said(alloc, text(written)),
        Err(RunError::Memory) => Err(anyhow!("out of memory")),
        Err(_) => said(alloc, "another end"),
    }
}

/// Whether these are whole first lines of a report, or nothing.
fn are_first_lines(written: &[u8], report: &[u8]) -> bool {
    report.starts_with(written) && (written.is_empty() || written.ends_with(b"\n"))
}

/// What was written. The texts of reports are UTF-8, and of a report that breaks off in a character
/// nothing is told.
fn text(written: &[u8]) -> &str {
    std::str::from_utf8(written).unwrap_or("no UTF-8")
}

/// How a run ended, and what it wrote, parted by a tab. An error where memory was refused.
fn status_after(alloc: Global, end: Result<(), RunError>, written: &[u8]) -> Result<String> {
    let end = match end {
        Ok(()) => "Ok",
        Err(RunError::Input) => "Input",
        Err(RunError::Output) => "Output",
        Err(RunError::Memory) => return Err(anyhow!("out of memory")),
    };
    let written = text(written);
    Ok(format!(in alloc; "{end}\t{written}")?)
}

/// A run over a line's input by a source that fails where the line says.
fn from_source(alloc: Global, row: &Row, engine: Engine<'_>) -> Result<String> {
    let at = fault(row.argument(3))?;
    let bytes = Vec::from_slice(alloc, row.argument_bytes(2))?;
    let mut source = Script::new(bytes, at);
    let mut sink = Limit::new(alloc, ROOM, Then::Fail)?;
    let begun = begin(alloc);
    let end = engine.report(&mut source, &mut sink);
    let end = around(alloc, begun, end);
    status_after(alloc, end, sink.bytes())
}

/// A run over a line's input to a sink that takes so many bytes, and then does what the line says.
/// An error where memory is refused, also where the sink fails over what was written before.
fn to_sink(alloc: Global, row: &Row, engine: Engine<'_>) -> Result<String> {
    let room = row.argument(3).parse::<usize>()?;
    let mut sink = Limit::new(alloc, room, then(row.argument(4)))?;
    let end = run_to(alloc, row, engine, &mut sink);
    if end == Err(RunError::Output) && is_cut_short(sink.bytes(), row.answer()) {
        return Err(anyhow!("out of memory"));
    }
    status_after(alloc, end, sink.bytes())
}

/// Whether what was written is the report of an answer that ends by `Output`, but for its end.
fn is_cut_short(written: &[u8], answer: &[u8]) -> bool {
    match answer.strip_prefix(b"Output\t") {
        Some(report) => report.starts_with(written) && written.len() < report.len(),
        None => false,
    }
}

/// Of the sinks that take less than the report on a line's input, how many end the run by `Output`
/// and hold what they take.
fn to_each_sink(alloc: Global, row: &Row, engine: Engine<'_>) -> Result<String> {
    let then = then(row.argument(3));
    let mut sink = Limit::new(alloc, ROOM, Then::Fail)?;
    let end = run_to(alloc, row, engine, &mut sink);
    let report = report(alloc, end, sink.bytes())?;
    let all = report.len();
    let mut held = 0u64;
    for room in 0..all {
        if is_held(alloc, row, engine, report.as_str().as_bytes(), room, then)? {
            held = held.saturating_add(1);
        }
    }
    Ok(format!(in alloc; "{held} of {all}")?)
}

/// Whether a sink that takes so many bytes of a report ends the run by `Output` and holds these
/// bytes. An error where memory is refused.
fn is_held(
    alloc: Global,
    row: &Row,
    engine: Engine<'_>,
    report: &[u8],
    room: usize,
    then: Then,
) -> Result<bool> {
    let mut source = MemorySource::new(row.argument_bytes(2));
    let mut sink = Limit::new(alloc, room, then)?;
    let end = engine.report(&mut source, &mut sink);
    if end == Err(RunError::Memory) {
        return Err(anyhow!("out of memory"));
    }
    let is_front = report.starts_with(sink.bytes()) && sink.bytes().len() == room;
    Ok(is_front && end == Err(RunError::Output))
}
