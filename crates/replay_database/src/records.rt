//! The records of which a database is made: as serde writes and reads them, and how their refusals
//! are told in words.
use anyhow::{Result, anyhow};
use phone_base::MetadataError;
use phone_base::results::zip;
use phone_records::LoadMetadata;
use phone_records::loader::Metadata;
use replay_base::marks::{around, begin};
use replay_base::table::Row;
use replay_base::words::said;
use std::alloc::{AllocError, Global};

/// What the records of a text are written as, or what a refusal says, as the table writes it; none
/// for any other call.
pub fn answer(alloc: Global, row: &Row) -> Result<Option<String>> {
    let answer = match row.call() {
        "written" => json_of_records(alloc, row.argument(0)),
        "serde-read" => serde_read(alloc, row.argument(0)),
        "load-metadata" => load_metadata(alloc, row.argument(0)),
        _ => return Ok(None),
    };
    Ok(Some(answer?))
}

/// The records of a database text, made again, as serde writes them.
fn json_of_records(alloc: Global, text: &str) -> Result<String> {
    let records = phone_json::records(alloc, text)?;
    json_of_copies(alloc, records.as_slice())
}

/// Copies of records, as serde writes them.
fn json_of_copies(alloc: Global, records: &[Metadata]) -> Result<String> {
    let copies = around(alloc, begin(alloc), copies(alloc, records))?;
    Ok(serde_json::to_string(alloc, &copies)?)
}

/// These records, made again.
fn copies(alloc: Global, records: &[Metadata]) -> Result<Vec<Metadata>, AllocError> {
    let mut copies = Vec::new(alloc);
    for record in records {
        copies.push(record.clone(alloc)?)?;
    }
    Ok(copies)
}

/// The records that serde reads of a text, as it writes them, or a hyphen where it reads none.
fn serde_read(alloc: Global, text: &str) -> Result<String> {
    written_or_hyphen(alloc, &read_records(alloc, text))
}

/// Records that were read as serde writes them, or a hyphen where there are none.
fn written_or_hyphen(
    alloc: Global,
    read: &Result<Vec<Metadata>, serde_json::Error>,
) -> Result<String> {
    match read {
        Ok(records) => Ok(serde_json::to_string(alloc, records)?),
        Err(error) if error.is_memory() => Err(anyhow!("out of memory")),
        Err(_) => said(alloc, "-"),
    }
}

/// The records that serde reads of a text.
fn read_records(alloc: Global, text: &str) -> Result<Vec<Metadata>, serde_json::Error> {
    serde_json::from_str(alloc, text)
}

/// The number and the words of a refusal that speaks of `metadata` and `id`.
fn load_metadata(alloc: Global, name: &str) -> Result<String> {
    let refusal = refusal(alloc, name)?;
    in_words(alloc, &refusal)
}

/// The number and the words of a refusal.
fn in_words(alloc: Global, refusal: &LoadMetadata) -> Result<String> {
    let number = refusal.number();
    Ok(format!(in alloc; "{number}\t{refusal}")?)
}

/// The refusal of this name, which speaks of `metadata` and `id`.
fn refusal(alloc: Global, refusal: &str) -> Result<LoadMetadata> {
    let (phase, name) = zip(
        String::from_str(alloc, "metadata"),
        String::from_str(alloc, "id"),
    )?;
    match refusal {
        "MissingValue" => Ok(LoadMetadata::Metadata(MetadataError::MissingValue { phase, name })),
        "UnhandledElement" => {
            Ok(LoadMetadata::Metadata(MetadataError::UnhandledElement { phase, name }))
        }
        "Kind" => Ok(LoadMetadata::Kind { phase, name }),
        "Regex" => Ok(LoadMetadata::Regex(name)),
        _ => refusal_without_words(refusal),
    }
}

/// The refusal of this name, of those that speak of nothing.
fn refusal_without_words(refusal: &str) -> Result<LoadMetadata> {
    match refusal {
        "UnexpectedEof" => Ok(LoadMetadata::Metadata(MetadataError::UnexpectedEof)),
        "Json" => Ok(LoadMetadata::Json),
        "Io" => Ok(LoadMetadata::Io),
        "Memory" => Ok(LoadMetadata::Memory),
        _ => Err(anyhow!("no refusal has this name")),
    }
}
