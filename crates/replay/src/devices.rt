//! Readers and writers of std as devices, and a count that only contracts read.
use anyhow::{Result, anyhow};
use phone_device::{ByteSink, ByteSource, Count, ReadError, Std, read_all, write_all};
use replay_base::marks::{around, begin};
use replay_base::table::Row;
use replay_base::words::{part_of, said};
use std::alloc::Global;
use std::io::{self, BufWriter, Error, ErrorKind, Read, Write};

/// What a device of std answers, as the table writes it; none for any other call.
pub fn answer(alloc: Global, row: &Row) -> Result<Option<String>> {
    let answer = match row.call() {
        "std-read" => all_read(alloc, row),
        "std-buffered" => buffer_words(alloc, row),
        "std-room" => in_room(alloc, row),
        "std-reads-interrupted" => reads_interrupted(alloc),
        "std-writes-interrupted" => writes_interrupted(alloc),
        "bytes-of-count" => bytes_of_count(alloc),
        _ => return Ok(None),
    };
    Ok(Some(answer?))
}

/// A reader and writer that gives and takes one byte, and is then interrupted, once and again.
#[derive(Drop)]
struct Interrupted {
    rest: usize,
}

impl Read for Interrupted {
    fn read(&mut self, buf: &mut [u8]) -> io::Result<usize> {
        if buf.is_empty() {
            return Ok(0);
        }
        if self.rest == 0 {
            self.rest = 1;
            return Err(Error::from(ErrorKind::Interrupted));
        }
        self.rest = 0;
        buf[0] = b'a';
        Ok(1)
    }
}

impl Write for Interrupted {
    fn write(&mut self, buf: &[u8]) -> io::Result<usize> {
        if self.rest == 0 {
            self.rest = 1;
            return Err(Error::from(ErrorKind::Interrupted));
        }
        self.rest = 0;
        Ok(buf.len().min(1))
    }

    fn flush(&mut self) -> io::Result<()> {
        Err(Error::from(ErrorKind::Other))
    }
}

/// These bytes as a text.
fn text(bytes: &[u8]) -> &str {
    std::str::from_utf8(bytes).unwrap_or("no text")
}

/// All bytes of a slice, as they are read, or `fault`.
fn all_read(alloc: Global, row: &Row) -> Result<String> {
    let mut source = Std::new(row.argument_bytes(0));
    match around(alloc, begin(alloc), read_all(alloc, &mut source)) {
        Ok(bytes) => part_of(alloc, text(bytes.as_slice())),
        Err(ReadError::Fault) => said(alloc, "fault"),
        Err(ReadError::Memory) => Err(anyhow!("out of memory")),
    }
}

/// What a buffered writer to a vector answers to two texts, how many bytes the vector has then,
/// what the writer answers to a flush, and what the vector has.
fn buffer_words(alloc: Global, row: &Row) -> Result<String> {
    let mut written = Vec::new(alloc);
    let mut sink = Std::new(BufWriter::new(alloc, &mut written)?);
    let first = write_all(&mut sink, row.argument_bytes(0));
    let second = write_all(&mut sink, row.argument_bytes(1));
    let before = sink.device.get_ref().len();
    let flushed = sink.flush();
    let taken = text(sink.device.get_ref().as_slice());
    Ok(format!(in alloc; "{first:?} {second:?} {before} {flushed:?}\t={taken}")?)
}

/// What a slice with room for a text answers to the text, to nothing, and to one more text: to a
/// write of it, and to writing it whole.
fn in_room(alloc: Global, row: &Row) -> Result<String> {
    let (whole, more) = (row.argument_bytes(0), row.argument_bytes(1));
    let mut room = Vec::from_slice(alloc, whole)?;
    let mut sink = Std::new(room.as_mut_slice());
    let first = write_all(&mut sink, whole);
    let nothing = write_all(&mut sink, b"");
    let count = sink.write(more);
    let last = write_all(&mut sink, more);
    Ok(format!(in alloc; "{first:?} {nothing:?} {count:?} {last:?}")?)
}

/// What an interrupted device answers to two reads and to reading all.
fn reads_interrupted(alloc: Global) -> Result<String> {
    let mut source = Std::new(Interrupted { rest: 1 });
    let mut room = [0u8; 4];
    let first = ByteSource::read(&mut source, &mut room);
    let second = ByteSource::read(&mut source, &mut room);
    let all = read_all(alloc, &mut source).map(|bytes| bytes.len());
    Ok(format!(in alloc; "{first:?} {second:?} {all:?}")?)
}

/// What an interrupted device answers to a byte that is written whole, to one more, and to a flush.
fn writes_interrupted(alloc: Global) -> Result<String> {
    let mut sink = Std::new(Interrupted { rest: 1 });
    let first = write_all(&mut sink, b"a");
    let second = write_all(&mut sink, b"a");
    let flushed = ByteSink::flush(&mut sink);
    Ok(format!(in alloc; "{first:?} {second:?} {flushed:?}")?)
}

/// How many bytes a count has that was ticked.
fn bytes_of_count(alloc: Global) -> Result<String> {
    let mut count = Count::new();
    count.tick();
    Ok(size_of::<Count>().to_string(alloc)?)
}
