//! The calls of `phone_device`: what a source gives and where it fails, what a sink takes and how
//! it ends.
use crate::marks::{around, begin};
use crate::table::Row;
use crate::words::said;
use anyhow::{Result, anyhow};
use phone_device::{
    At, Block, ByteSink, ByteSource, Fault, Limit, ReadError, Script, Then, read_all, write_all,
};
use std::alloc::{AllocError, Global};

/// What a device answers, as the table writes it; none for any other call.
pub fn answer(alloc: Global, row: &Row) -> Result<Option<String>> {
    let answer = match row.call() {
        "source-reads" => reads(alloc, row),
        "block-fills" => fills(alloc, row),
        "read-all" => all_read(alloc, row),
        "sink-writes" => writes(alloc, row),
        "write-all" => all_written(alloc, row),
        _ => return Ok(None),
    };
    Ok(Some(answer?))
}

/// A piece of bytes, so many times.
pub fn repeat_piece(alloc: Global, piece: &[u8], times: &str) -> Result<Vec<u8>> {
    let times = times.parse::<usize>()?;
    let mut bytes = Vec::new(alloc);
    for _i in 0..times {
        bytes.extend_from_slice(piece)?;
    }
    Ok(bytes)
}

/// Where a source fails: `call` or `byte` and its number, or a hyphen for nowhere.
pub fn fault(column: &str) -> Result<Option<At>> {
    if let Some(call) = column.strip_prefix("call ") {
        return Ok(Some(At::Call(call.parse::<usize>()?)));
    }
    if let Some(byte) = column.strip_prefix("byte ") {
        return Ok(Some(At::Byte(byte.parse::<usize>()?)));
    }
    Ok(None)
}

/// What a sink does that takes no more.
pub fn then(word: &str) -> Then {
    match word {
        "flush-fail" => Then::FlushFail,
        "zero" => Then::Zero,
        _ => Then::Fail,
    }
}

/// A sink by how many bytes it takes, and what it does then.
pub fn sink(alloc: Global, column: &str) -> Result<Limit> {
    let Some((limit, word)) = column.split_once(' ') else {
        return Err(anyhow!("a sink is written otherwise"));
    };
    let limit = limit.parse::<usize>()?;
    Ok(Limit::new(alloc, limit, then(word))?)
}

/// How a call ended.
fn word(end: Result<(), Fault>) -> &'static str {
    if end.is_ok() { "ok" } else { "fault" }
}

/// Writes one more word behind others, parted by a space.
pub fn push_word(words: &mut String, word: &str) -> Result<(), AllocError> {
    if !words.is_empty() {
        words.push(' ')?;
    }
    words.push_str(word)
}

/// The source of a line: a piece of bytes, how often it comes, and where the source fails.
fn source(alloc: Global, row: &Row) -> Result<Script> {
    let at = fault(row.argument(2))?;
    let bytes = repeat_piece(alloc, row.argument_bytes(0), row.argument(1))?;
    Ok(Script::new(bytes, at))
}

/// What a source gave, call by call.
#[derive(Drop)]
struct Given {
    /// For each call how many bytes, or `fault`.
    words: String,
    /// The bytes, those of one call behind those of another.
    bytes: Vec<u8>,
}

impl Given {
    /// No call yet.
    fn new(alloc: Global) -> Given {
        Given {
            words: String::new(alloc),
            bytes: Vec::new(alloc),
        }
    }

    /// One more call, and the bytes that stand where it was to put them.
    fn add(&mut self, end: Result<(), Fault>, bytes: &[u8]) -> Result<(), AllocError> {
        self.bytes.extend_from_slice(bytes)?;
        if end.is_err() {
            return push_word(&mut self.words, "fault");
        }
        push_count(&mut self.words, bytes.len())
    }

    /// All calls, and whether the bytes are the first ones of the line's source.
    fn call_words(&self, alloc: Global, row: &Row) -> Result<String> {
        let whole = repeat_piece(alloc, row.argument_bytes(0), row.argument(1))?;
        let are_first = whole.as_slice().starts_with(self.bytes.as_slice());
        let words = self.words.as_str();
        Ok(format!(in alloc; "{words}\t{are_first}")?)
    }
}

/// What a source gives to reads into rooms of these lengths.
fn reads(alloc: Global, row: &Row) -> Result<String> {
    let mut source = source(alloc, row)?;
    let mut given = Given::new(alloc);
    for length in row.argument(3).split(' ') {
        read(alloc, &mut source, length, &mut given)?;
    }
    given.call_words(alloc, row)
}

/// One read into a room of this length.
fn read(alloc: Global, source: &mut Script, length: &str, given: &mut Given) -> Result<()> {
    let mut room = repeat_piece(alloc, b"-", length)?;
    let (end, count) = match source.read(room.as_mut_slice()) {
        Ok(count) => (Ok(()), count),
        Err(fault) => (Err(fault), 0),
    };
    Ok(given.add(end, room.get(..count).unwrap_or(&[]))?)
}

/// What a block holds after each of its fills by at most so many bytes.
fn fills(alloc: Global, row: &Row) -> Result<String> {
    let mut source = source(alloc, row)?;
    let mut given = Given::new(alloc);
    let mut block = Block::new();
    for most in row.argument(3).split(' ') {
        fill(&mut block, &mut source, most, &mut given)?;
    }
    given.call_words(alloc, row)
}

/// One fill by at most so many bytes.
fn fill(block: &mut Block, source: &mut Script, most: &str, given: &mut Given) -> Result<()> {
    let end = block.fill(source, most.parse::<u64>()?);
    Ok(given.add(end, block.bytes())?)
}

/// How many bytes are read of a source, and whether they are all that it has; or `fault`.
fn all_read(alloc: Global, row: &Row) -> Result<String> {
    let mut source = source(alloc, row)?;
    match around(alloc, begin(alloc), read_all(alloc, &mut source)) {
        Ok(bytes) => whole_words(alloc, row, bytes.as_slice()),
        Err(ReadError::Fault) => said(alloc, "fault"),
        Err(ReadError::Memory) => Err(anyhow!("out of memory")),
    }
}

/// How many bytes these are, and whether they are all that a line's source has.
fn whole_words(alloc: Global, row: &Row, bytes: &[u8]) -> Result<String> {
    let whole = repeat_piece(alloc, row.argument_bytes(0), row.argument(1))?;
    let (count, are_all) = (bytes.len(), bytes == whole.as_slice());
    Ok(format!(in alloc; "{count}\t{are_all}")?)
}

/// What a sink answers to writes of these texts and then to a flush, and what it has taken.
fn writes(alloc: Global, row: &Row) -> Result<String> {
    let mut sink = sink(alloc, row.argument(0))?;
    let mut words = String::new(alloc);
    for text in row.argument(1).split(' ') {
        write(&mut sink, text, &mut words)?;
    }
    let flushed = word(sink.flush());
    taken_words(alloc, words.as_str(), flushed, sink.bytes())
}

/// Words, a word, and what a sink has taken behind an equals sign.
fn taken_words(alloc: Global, words: &str, word: &str, taken: &[u8]) -> Result<String> {
    let taken = std::str::from_utf8(taken).unwrap_or("no text");
    Ok(format!(in alloc; "{words}\t{word}\t={taken}")?)
}

/// One write of a text: how many bytes were taken, or `fault`.
fn write(sink: &mut Limit, text: &str, words: &mut String) -> Result<(), AllocError> {
    match sink.write(text.as_bytes()) {
        Ok(count) => push_count(words, count),
        Err(_) => push_word(words, "fault"),
    }
}

/// How a text is written whole to sinks of each limit up to two bytes more than it has: `ok` or
/// `fault`, and how many bytes the sink has taken; and whether these are always the first of the
/// text.
fn all_written(alloc: Global, row: &Row) -> Result<String> {
    let (text, then) = (row.argument_bytes(0), then(row.argument(1)));
    let mut words = String::new(alloc);
    let mut are_first = true;
    for limit in 0..text.len().saturating_add(3) {
        if !is_written(alloc, text, limit, then, &mut words)? {
            are_first = false;
        }
    }
    write!(words, "\t{are_first}")?;
    Ok(words)
}

/// Writes how a text is written whole to a sink of this limit. Whether the sink has taken the first
/// bytes of the text.
fn is_written(
    alloc: Global,
    text: &[u8],
    limit: usize,
    then: Then,
    words: &mut String,
) -> Result<bool, AllocError> {
    let mut sink = Limit::new(alloc, limit, then)?;
    let end = word(write_all(&mut sink, text));
    push_counted(words, end, sink.bytes().len())?;
    Ok(text.starts_with(sink.bytes()))
}

/// Writes a count behind other words, parted by a space.
fn push_count(words: &mut String, count: usize) -> Result<(), AllocError> {
    push_word(words, "")?;
    write!(words, "{count}")
}

/// Writes how a call ended, and how many bytes a sink then had taken.
pub fn push_counted(words: &mut String, end: &str, count: usize) -> Result<(), AllocError> {
    push_word(words, end)?;
    write!(words, "/{count}")
}
