//! The calls of `phone_lines`: lines that are answered one by one.
use crate::devices::{fault, push_counted, repeat_piece, sink, then};
use crate::marks::{around, begin};
use crate::table::Row;
use anyhow::{Result, anyhow};
use phone_device::{At, Limit, MemorySink, MemorySource, Script};
use phone_lines::{Answers, RunError, answer_lines};
use std::alloc::{AllocError, Global};

/// What a run over lines gives, as the table writes it; none for any other call.
pub fn answer(alloc: Global, row: &Row) -> Result<Option<String>> {
    let answer = match row.call() {
        "lines" | "lines-many" => report(alloc, row),
        "lines-each" => around(alloc, begin(alloc), each(alloc, row)),
        "lines-refused" => refusal_words(alloc, row),
        _ => return Ok(None),
    };
    Ok(Some(answer?))
}

/// Answers a line by its length, and perhaps by itself behind a colon.
#[derive(Drop)]
struct Lengths {
    /// The line itself is answered too, where it is a text.
    with_line: bool,
    /// The length of lines whose answer is refused, as if there were no memory for it.
    refused: Option<usize>,
}

impl Answers for Lengths {
    ghost use Rattle.std.specs.Prelude.{◌≡◌};

    ghost gives = { λ _ line _. line ≡ line };

    fn answer(&self, alloc: Global, line: &[u8]) -> Result<String, AllocError> {
        let length = line.len();
        if self.refused == Some(length) {
            return Err(AllocError);
        }
        if !self.with_line {
            return format!(in alloc; "{length}");
        }
        let text = std::str::from_utf8(line).unwrap_or("no text");
        format!(in alloc; "{length}:{text}")
    }
}

/// How a run ended.
fn word(end: Result<(), RunError>) -> &'static str {
    match end {
        Ok(()) => "ok",
        Err(RunError::Input) => "Input",
        Err(RunError::Output) => "Output",
        Err(RunError::Memory) => "Memory",
    }
}

/// How a run between these devices ends. Want of memory is no answer, but an error.
fn run(
    alloc: Global,
    with_line: bool,
    source: &mut Script,
    sink: &mut Limit,
) -> Result<&'static str> {
    let answers = Lengths {
        with_line,
        refused: None,
    };
    match answer_lines(alloc, &answers, source, sink) {
        Err(RunError::Memory) => Err(anyhow!("out of memory")),
        end => Ok(word(end)),
    }
}

/// The source of a line: a piece of bytes, how often it comes, what stands behind it, and where the
/// source fails.
fn source(alloc: Global, row: &Row) -> Result<Script> {
    let at = fault(row.argument(4))?;
    let mut bytes = repeat_piece(alloc, row.argument_bytes(1), row.argument(2))?;
    bytes.extend_from_slice(row.argument_bytes(3))?;
    Ok(Script::new(bytes, at))
}

/// How a run over a line's source ends, and what its sink has taken.
fn report(alloc: Global, row: &Row) -> Result<String> {
    let mut source = source(alloc, row)?;
    let mut sink = sink(alloc, row.argument(5))?;
    let end = marked_run(alloc, row, &mut source, &mut sink)?;
    match row.call() {
        "lines" => end_and_taken(alloc, end, sink.bytes()),
        _ => end_and_count(alloc, row, end, sink.bytes()),
    }
}

/// How a line's run ends. No marks stand around one over many lines, since it asks for memory for
/// each of them.
fn marked_run(
    alloc: Global,
    row: &Row,
    source: &mut Script,
    sink: &mut Limit,
) -> Result<&'static str> {
    let with_line = row.argument(0) == "lines";
    if row.call() == "lines-many" {
        return run(alloc, with_line, source, sink);
    }
    around(alloc, begin(alloc), run(alloc, with_line, source, sink))
}

/// How a run ended, and what its sink has taken.
fn end_and_taken(alloc: Global, end: &str, taken: &[u8]) -> Result<String> {
    let taken = std::str::from_utf8(taken).unwrap_or("no text");
    Ok(format!(in alloc; "{end}\t={taken}")?)
}

/// How a run ended, how many bytes its sink has taken, and whether these are the first ones of a
/// piece that is repeated as often as the source's.
fn end_and_count(alloc: Global, row: &Row, end: &str, taken: &[u8]) -> Result<String> {
    let whole = repeat_piece(alloc, row.argument_bytes(6), row.argument(2))?;
    let (count, are_first) = (taken.len(), whole.as_slice().starts_with(taken));
    Ok(format!(in alloc; "{end}\t{count}\t{are_first}")?)
}

/// How runs over one input end where the source fails at each byte, or where the sink takes each
/// number of bytes and no more, with how many bytes the sink has taken; and whether these are
/// always the first of the report.
fn each(alloc: Global, row: &Row) -> Result<String> {
    let (input, report) = (row.argument_bytes(1), row.argument_bytes(2));
    let at_bytes = row.argument(0) == "byte";
    let last = if at_bytes { input.len() } else { report.len() };
    let mut words = String::new(alloc);
    let mut are_first = true;
    for n in 0..last.saturating_add(2) {
        let (at, limit) = if at_bytes {
            (Some(At::Byte(n)), report.len())
        } else {
            (None, n)
        };
        if !one(alloc, row, at, limit, &mut words)? {
            are_first = false;
        }
    }
    write!(words, "\t{are_first}")?;
    Ok(words)
}

/// One of these runs, to a sink with so much room: writes how it ends, and says whether the sink
/// has a beginning of the report.
fn one(alloc: Global, row: &Row, at: Option<At>, room: usize, words: &mut String) -> Result<bool> {
    let mut sink = Limit::new(alloc, room, then(row.argument(0)))?;
    let mut source = Script::new(Vec::from_slice(alloc, row.argument_bytes(1))?, at);
    let end = run(alloc, false, &mut source, &mut sink)?;
    push_end(words, end, room, row.argument_bytes(2), sink.bytes())
}

/// Writes how a run ended, and says whether a sink with so much room has taken a beginning of the
/// report. A sink that fails before it is full, or before it has the report, was handed too little,
/// as memory was refused.
fn push_end(
    words: &mut String,
    end: &str,
    room: usize,
    report: &[u8],
    taken: &[u8],
) -> Result<bool> {
    if end == "Output" && taken.len() < room && taken.len() < report.len() {
        return Err(anyhow!("out of memory"));
    }
    push_counted(words, end, taken.len())?;
    Ok(report.starts_with(taken))
}

/// How a run ends that gets no answer to lines of one length, and what the sink has taken. No marks
/// stand around it, since want of memory is its answer.
fn refusal_words(alloc: Global, row: &Row) -> Result<String> {
    let answers = Lengths {
        with_line: false,
        refused: Some(row.argument(0).parse::<usize>()?),
    };
    let mut source = MemorySource::new(row.argument_bytes(1));
    let mut sink = MemorySink::new(alloc);
    let end = word(answer_lines(alloc, &answers, &mut source, &mut sink));
    end_and_taken(alloc, end, sink.bytes())
}
