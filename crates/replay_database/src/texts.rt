//! Databases read from a text, from bytes, from a source that fails, and from a file: what the
//! answer is, told as the tables tell it. Each is read twice, as the one that lends compiled
//! patterns and as the light table, which have to answer alike.
use crate::tables::{Counted, agreed};
use anyhow::{Result, anyhow};
use phone_base::MetadataError;
use phone_device::{ByteSource, MemorySource, Script};
use phone_meta::{Database, LoadMetadata};
use phone_plans::Plans;
use replay_base::devices::fault;
use replay_base::marks::{around, begin};
use replay_base::table::Row;
use std::alloc::{AllocGlobal, Global};
use std::fs::Files;

/// What the tables have in place of a word that an answer lacks.
const NO_WORD: &str = "-";

/// What is answered to a database text, as the table writes it; none for any other call.
pub fn answer<R: Files + AllocGlobal>(rt: &R, row: &Row) -> Result<Option<String>> {
    let alloc = rt.alloc();
    let answer = match row.call() {
        "database-text" => database_text(alloc, row.argument_bytes(0)),
        "read-from" => read_from(alloc, row),
        "each-fault" => each_fault(alloc, row.argument(0), row.argument_bytes(1)),
        "each-front" => each_front(alloc, row.argument(0)),
        "load" => load(rt, row.argument(0)),
        _ => return Ok(None),
    };
    Ok(Some(answer?))
}

/// The database that a text is; bytes that are no text come from a source in memory.
fn database_text(alloc: Global, bytes: &[u8]) -> Result<String> {
    match std::str::from_utf8(bytes) {
        Ok(text) => of_text(alloc, text),
        Err(_) => of_bytes(alloc, bytes),
    }
}

/// The database that a text is.
fn of_text(alloc: Global, text: &str) -> Result<String> {
    let answer = around(alloc, begin(alloc), Database::parse(alloc, text));
    let compiled = answer_words(alloc, answer)?;
    agreed(compiled, answer_words(alloc, Plans::parse(alloc, text))?)
}

/// The database that bytes are which come from a source in memory.
fn of_bytes(alloc: Global, bytes: &[u8]) -> Result<String> {
    let mut source = MemorySource::new(bytes);
    let mut again = MemorySource::new(bytes);
    of_source(alloc, &mut source, &mut again)
}

/// The database whose text comes from this source, and from the same once more.
fn of_source<S: ByteSource>(alloc: Global, source: &mut S, again: &mut S) -> Result<String> {
    let answer = around(alloc, begin(alloc), Database::read_from(alloc, source));
    let compiled = answer_words(alloc, answer)?;
    agreed(
        compiled,
        answer_words(alloc, Plans::read_from(alloc, again))?,
    )
}

/// The database whose text comes, behind so many spaces, from a source that fails where the line
/// says.
fn read_from(alloc: Global, row: &Row) -> Result<String> {
    let mut source = behind_spaces(alloc, row)?;
    let mut again = behind_spaces(alloc, row)?;
    of_source(alloc, &mut source, &mut again)
}

/// The source of a line's text behind so many spaces, which fails where the line says.
fn behind_spaces(alloc: Global, row: &Row) -> Result<Script> {
    let at = fault(row.argument(2))?;
    let spaces = row.argument(0).parse::<usize>()?;
    let mut bytes = vec![in alloc; b' '; spaces]?;
    bytes.extend_from_slice(row.argument_bytes(1))?;
    Ok(Script::new(bytes, at))
}

/// The source of these bytes that fails at this place.
fn failing(alloc: Global, bytes: &[u8], at: &str) -> Result<Script> {
    let at = fault(at)?;
    Ok(Script::new(Vec::from_slice(alloc, bytes)?, at))
}

/// A source of these bytes fails at each place in turn, from the first on: how many times the
/// answer is that a read failed, and what is answered to the next one.
fn each_fault(alloc: Global, kind: &str, bytes: &[u8]) -> Result<String> {
    for number in 0..=bytes.len().saturating_add(1) {
        let at = format!(in alloc; "{kind} {number}")?;
        let mut source = failing(alloc, bytes, at.as_str())?;
        let mut again = failing(alloc, bytes, at.as_str())?;
        let told = of_source(alloc, &mut source, &mut again)?;
        if !told.as_str().starts_with("Io") {
            return Ok(format!(in alloc; "{number}\t{told}")?);
        }
    }
    Err(anyhow!("a read failed that was never made"))
}

/// Each front of a text in turn, from the empty one on, is taken for a database: how many times the
/// answer is that it is no JSON, and what is answered to the next one.
fn each_front(alloc: Global, text: &str) -> Result<String> {
    let mut fronts = 0u64;
    for end in 0..=text.len() {
        if text.is_char_boundary(end) {
            let told = of_front(alloc, &text[..end])?;
            if !told.as_str().starts_with("Json") {
                return Ok(format!(in alloc; "{fronts}\t{told}")?);
            }
            fronts = fronts.saturating_add(1);
        }
    }
    Ok(format!(in alloc; "{fronts}\t{NO_WORD}")?)
}

/// The database that a front of a text is.
fn of_front(alloc: Global, text: &str) -> Result<String> {
    let compiled = answer_words(alloc, Database::parse(alloc, text))?;
    agreed(compiled, answer_words(alloc, Plans::parse(alloc, text))?)
}

/// The database in the file at a path.
fn load<R: Files + AllocGlobal>(rt: &R, path: &str) -> Result<String> {
    let alloc = rt.alloc();
    let answer = around(alloc, begin(alloc), Database::load(rt, path));
    let compiled = answer_words(alloc, answer)?;
    agreed(compiled, answer_words(alloc, Plans::load(rt, path))?)
}

/// The answer's name and two words on it, parted by tabs. Want of memory is no answer, but an
/// error.
fn answer_words<T: Counted>(alloc: Global, answer: Result<T, LoadMetadata>) -> Result<String> {
    match answer {
        Ok(table) => count_words(alloc, table.count_of_ids()),
        Err(refusal) => refusal_words(alloc, &refusal),
    }
}

/// A database of so many different ids.
fn count_words(alloc: Global, ids: u64) -> Result<String> {
    Ok(format!(in alloc; "ok\t{ids}\t{NO_WORD}")?)
}

/// A refusal. An error where memory was wanted, and for one that is never given.
fn refusal_words(alloc: Global, refusal: &LoadMetadata) -> Result<String> {
    match refusal {
        LoadMetadata::Metadata(fault) => record_words(alloc, fault),
        LoadMetadata::Json => words(alloc, "Json", NO_WORD, NO_WORD),
        LoadMetadata::Kind { phase, name } => words(alloc, "Kind", phase.as_str(), name.as_str()),
        LoadMetadata::Regex(pattern) => words(alloc, "Regex", NO_WORD, pattern.as_str()),
        LoadMetadata::Io => words(alloc, "Io", NO_WORD, NO_WORD),
        LoadMetadata::Memory => Err(anyhow!("out of memory")),
    }
}

/// What is wrong with a record. An error for what is never given.
fn record_words(alloc: Global, fault: &MetadataError) -> Result<String> {
    match fault {
        MetadataError::MissingValue { phase, name } => {
            words(alloc, "MissingValue", phase.as_str(), name.as_str())
        }
        MetadataError::UnhandledElement { phase, name } => {
            words(alloc, "UnhandledElement", phase.as_str(), name.as_str())
        }
        _ => Err(anyhow!("{fault}")),
    }
}

/// An answer's name, and two words on it.
fn words(alloc: Global, name: &str, first: &str, second: &str) -> Result<String> {
    Ok(format!(in alloc; "{name}\t{first}\t{second}")?)
}
