//! The texts that name no region, and how many records have them.
ghost use Rattle.std.specs.Prelude.{◌≡◌, OnOk, [], string_eq};
ghost use Rattle.indexmap.specs.IndexMap.{insert_entry};
ghost use Rattle.csv.specs.Records.{fields_of};
ghost use Rattle.phone_table.specs.Unknowns.{IsNoted, NotesRow, count_of, is_full};

use crate::counts::{counted_if, has_refusal};
use crate::header::Columns;
use crate::region::region_text;
use csv::ByteRecord;
use indexmap::IndexMap;
use std::alloc::{AllocError, Global};

/// The most texts that are kept.
pub const MOST_UNKNOWN: usize = 100;

/// The texts of a table's records that name no region, white space around them left out, each with
/// how many records have it, at most 2^64 - 1; in the order in which they came first. Of more than
/// a hundred the first hundred are kept.
#[derive(Drop)]
pub struct UnknownNames {
    /// Each text, with its count.
    pub names: IndexMap<String, u64>,
}

impl UnknownNames {
    /// No text. Takes no memory.
    pub fn new(alloc: Global) -> UnknownNames
        ensures { result.names.entries ≡ [] }
    {
        UnknownNames {
            names: IndexMap::new(alloc),
        }
    }

    /// How many records have a text; 0 where none was kept that has it.
    pub fn count(&self, text: &str) -> u64
        ensures { result ≡ count_of self.now.names.entries text.now }
    {
        match self.names.get(text) {
            Some(count) => *count,
            None => 0,
        }
    }

    /// Puts a text there with this count. Refused only for memory.
    fn put(&mut self, text: String, count: u64) -> Result<(), AllocError>
        ensures { OnOk result (self.new.names.entries ≡
            insert_entry string_eq self.old.names.entries text count) }
    {
        match self.names.insert(text, count) {
            Ok(_) => Ok(()),
            Err(_) => Err(AllocError),
        }
    }

    /// Whether a text isn't there, and there is no room for it.
    fn is_full(&self, text: &str) -> bool
        ensures { result ≡ is_full self.now.names.entries text.now }
    {
        self.count(text) == 0 && self.names.len() >= MOST_UNKNOWN
    }

    /// Notes that one more record has this text. Refused only for memory.
    pub(crate) fn note(&mut self, alloc: Global, text: &str) -> Result<(), AllocError>
        ensures { OnOk result (IsNoted self.old.names.entries text.now self.new.names.entries) }
    {
        if self.is_full(text) {
            return Ok(());
        }
        let count = self.count(text);
        let text = text.to_string(alloc)?;
        self.put(text, counted_if(true, count))
    }
}

/// Notes the text by which a row of a table with these columns names its region, where it is
/// refused since that names none. Refused only for memory.
pub(crate) fn note_unknown(
    alloc: Global,
    columns: Columns,
    row: &ByteRecord,
    unknown: &mut UnknownNames,
) -> Result<(), AllocError>
    ensures { OnOk result (NotesRow columns (fields_of row.now) unknown.old.names.entries
        unknown.new.names.entries) }
{
    if !has_refusal(row, "unknown region") {
        return Ok(());
    }
    match region_text(columns, row) {
        Some(text) => unknown.note(alloc, text),
        None => Ok(()),
    }
}
