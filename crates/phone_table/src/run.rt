//! The run over a table of customers.
ghost use Rattle.std.specs.Prelude.{◌≡◌, ℕ, List, [], IfErr, IfOk, IsNone, None, Option, Some};
ghost use Rattle.std.specs.Prelude.{false};
ghost use Rattle.csv.specs.Records.{fields_of, partial_of};
ghost use Rattle.phone_csv.specs.Formats.{Record};
ghost use Rattle.phone_csv.specs.Runs.{OfRead};
ghost use Rattle.phone_device.specs.Passing.{IsAtEnd};
ghost use Rattle.phone_lines.specs.Ends.{seen};
ghost use Rattle.phone_table.specs.Summaries.{IsEmpty};
ghost use Rattle.phone_table.specs.Counts.{no_counts};
ghost use Rattle.phone_table.specs.Headers.{first_taken};
ghost use Rattle.phone_table.specs.Runs.{IsRefused, RowsEnd, RunEnds, names_in};
ghost use Rattle.phone_table.specs.Tables.{IsHeader};

use crate::header::{ColumnError, columns_of};
use crate::marked::write_marked;
use crate::names::{added_names, first_taken};
use crate::rows::write_rows;
use crate::summed::{Totals, told_whole};
use crate::table::Table;
use crate::unknown::UnknownNames;
use csv::ByteRecord;
use phone_answers::Extra;
use phone_csv::{First, FirstError, RunError, first_record, is_delimiter};
use phone_device::{ByteSink, ByteSource};
use phone_engine::Engine;
use phone_places::Countries;
use phone_plans::Plans;
use std::alloc::Global;

/// What is asked of a table.
#[derive(Clone, Copy)]
pub struct Asked<'a> {
    /// The name of the column of the numbers.
    pub number: &'a str,
    /// The name of the column of the regions, where there is one.
    pub region: Option<&'a str>,
    /// The byte between fields: any but a quote and a line end.
    pub delimiter: u8,
    /// The table of the names of regions, where regions are named otherwise than by their ids too.
    pub countries: Option<&'a Countries>,
    /// Whether a record is read under the engine's hint where it names no region that there is.
    pub else_hint: bool,
    /// Whether a record with another count of fields than the header is given back with a refusal,
    /// and doesn't end the run.
    pub mark_bad: bool,
    /// Whether of the records with one number, by its E.164 text and its extension, the first is
    /// given back alone.
    pub is_unique: bool,
    /// Whether columns tell which records have one number, by the same; then each is given back.
    pub tells_duplicates: bool,
    /// What stands in front of the name of each column behind the header's own.
    pub front: &'a str,
    /// The columns that stand between the header's own and the answer's.
    pub extra: &'a [Extra<'a>],
    /// The database of short numbers, where the kinds of these are told.
    pub short: Option<&'a Plans>,
    /// Whether types, regions, refusals and words of what is suspicious are counted.
    pub is_summed: bool,
}

impl<'a> Asked<'a> {
    /// What is asked of a table with commas whose numbers stand in the column of this name, and
    /// nothing more.
    pub fn of(number: &'a str) -> Asked<'a>
        ensures asked { result ≡ record {
          number = number.entry;
          region = None;
          delimiter = 44;
          countries = None;
          else_hint = false;
          mark_bad = false;
          is_unique = false;
          tells_duplicates = false;
          front = result.front;
          extra = result.extra;
          short = None;
          is_summed = false;
        } }
        ensures front { result.front.now ≡ [] }
        ensures extra { result.extra.now ≡ [] }
    {
        Asked {
            number,
            region: None,
            delimiter: b',',
            countries: None,
            else_hint: false,
            mark_bad: false,
            is_unique: false,
            tells_duplicates: false,
            front: "",
            extra: &[],
            short: None,
            is_summed: false,
        }
    }
}

/// Why a table was not answered whole.
#[derive(Drop)]
pub enum TableError {
    /// The byte between fields is a quote or a line end.
    Delimiter,
    /// The header was not read.
    Header(FirstError),
    /// The header, which stands here, has no column of a name that is asked for, or more than one.
    NoColumn(ColumnError, ByteRecord),
    /// This name, which is to be put behind the header, stands there already.
    Taken(Vec<u8>),
    /// The run over the records ended.
    Rows(RunError),
}

/// The error of a name that stands in a header already. By `Rows` where memory is refused.
fn taken(alloc: Global, name: &[u8]) -> TableError
    ensures { (header added : Record) → first_taken header added ≡ Some name.now →
        IsRefused header added result }
{
    match name.to_vec(alloc) {
        Ok(name) => TableError::Taken(name),
        Err(_) => TableError::Rows(RunError::Memory),
    }
}

/// The names that are put behind a header. Refused by `Taken` where one of them stands there
/// already, or is put there twice, and by `Rows` where memory is refused.
fn names_behind(
    alloc: Global,
    asked: Asked<'_>,
    header: &ByteRecord,
) -> Result<ByteRecord, TableError>
    ensures names { IfOk result (λ added. fields_of added ≡ names_in asked.entry) }
    ensures free { IfOk result
        (λ _. first_taken (fields_of header.now) (names_in asked.entry) ≡ None) }
    ensures refused { IfErr result (IsRefused (fields_of header.now) (names_in asked.entry)) }
{
    let Ok(added) = added_names(alloc, asked.front, asked.tells_duplicates, asked.extra) else {
        return Err(TableError::Rows(RunError::Memory));
    };
    if let Some(name) = first_taken(header, &added) {
        return Err(taken(alloc, name));
    }
    Ok(added)
}

/// Gives a table back: its header with names behind its own, those of the columns that are asked
/// for and then those of an answer, as [`phone_answers::Field`] has them; and its records in their
/// order, unchanged, each with its answer behind its fields. The first record is the header. Where
/// a UTF-8 byte-order mark stands in front of it, that is no part of its first name, and the output
/// begins with one too. Each record is ended by a carriage return and a line feed where a carriage
/// return ended the header, else by a line feed. What is read and written is CSV as the kit's `csv`
/// has it, with this delimiter. Nothing in memory grows with the number of records, but with
/// `is_unique`, where the keys of numbers are kept: then a record is left out where an earlier one
/// has a number of the same E.164 text and the same extension; and with `tells_duplicates`, where
/// all are. It gives how many records there were, how many of them were answered otherwise than by
/// a valid number, and how many were left out; with `is_summed` also how often each type, region,
/// refusal and word of what is suspicious was answered, in all records, those that are left out
/// with them.
///
/// With `tells_duplicates` two columns stand before the others. `duplicate_of` has, where an
/// earlier record has the number and its extension, the number of the first one that has, the
/// header counted as 1; `duplicates` has, on that one, how many later ones there are. They are
/// empty else. All is read and answered before anything is written, so nothing is where that breaks
/// off.
///
/// The answer to a number, which is read and described by the engine: what each column that is
/// asked for tells of it, empty where its table has nothing; what each [`phone_answers::Field`]
/// tells of it, the refusal being empty. That to a refusal has its words in the last field alone:
/// to bytes that aren't UTF-8 `not UTF-8`, to a field that is empty, or white space alone, `empty`.
/// Where there is a database of short numbers, that to an emergency number of the region under
/// which the record is read has `Emergency` for the kind, that region, `valid`, and nothing else;
/// and that to another short number `ShortNumber`, where no valid number is read.
///
/// A record is read under the region whose id stands in its column of regions, in capital or small
/// letters, with or without white space around; under the engine's hint where that field is empty.
/// Where there is a table of the names of regions, what else the field may hold is a name of the
/// table, however it is written, or a calling code. Where the field holds anything else, the number
/// is refused with the words `unknown region`, and the run goes on; with `else_hint` the number is
/// read under the engine's hint. Where the table was answered whole, `unknown` is then the texts
/// that were refused so, with their counts.
///
/// Errors: `Delimiter`, before anything is read; `Header` where there is no header, `NoColumn`
/// where the header has no column of a name that is asked for, or more than one, and `Taken` where
/// one of the names that are put behind it stands there already, or is put there twice, before
/// anything is written; after the header was written `Rows` as `answer_records` has it, with
/// `Record` at a record that has another count of fields than the header, and the number of line
/// feeds before that record. With `mark_bad` such a record is given back as it is instead, and
/// after its fields the answer to a refusal, `wrong count of fields`. `Rows` and `Header` have
/// `Quote` where the table ends between quotes, with the line of the quote that is never closed,
/// counted from 1.
pub fn write_table<S: ByteSource, W: ByteSink>(
    engine: Engine<'_>,
    asked: Asked<'_>,
    source: &mut S,
    sink: &mut W,
    unknown: &mut UnknownNames,
) -> Result<Totals, TableError>
    ensures ends { RunEnds engine.entry.rules engine.entry.database.now engine.entry.hint
        asked.entry
        (seen (S.to_come source.old) (S.faults source.old) (W.taken sink.old)
        (W.faults sink.old) (W.unflushed sink.old))
        (seen (S.to_come source.new) (S.faults source.new) (W.taken sink.new)
        (W.faults sink.new) (W.unflushed sink.new))
        result }
{
    if !is_delimiter(asked.delimiter) {
        return Err(TableError::Delimiter);
    }
    let alloc = engine.database.allocator();
    let first = match first_record(alloc, asked.delimiter, source) {
        Ok(first) => first,
        Err(error) => return Err(TableError::Header(error)),
    };
    let columns = match columns_of(&first.fields, asked.number, asked.region) {
        Ok(columns) => columns,
        Err(error) => return Err(TableError::NoColumn(error, first.fields)),
    };
    let added = match names_behind(alloc, asked, &first.fields) {
        Ok(added) => added,
        Err(error) => return Err(error),
    };
    let table = Table::new(engine, asked, columns);
    match write_records(alloc, table, first, &added, source, sink, unknown) {
        Ok(totals) => Ok(totals),
        Err(error) => Err(TableError::Rows(error)),
    }
}

/// Writes a table whose header was read, with the columns of duplicates where they are asked for.
fn write_records<S: ByteSource, W: ByteSink>(
    alloc: Global,
    table: Table<'_>,
    first: First,
    added: &ByteRecord,
    source: &mut S,
    sink: &mut W,
    unknown: &mut UnknownNames,
) -> Result<Totals, RunError>
    requires partial { partial_of first.fields ≡ [] }
    requires end { IsNone first.rest → IsAtEnd (S.to_come source.old) }
    requires added { fields_of added.now ≡ names_in table.asked }
    requires counts { table.counts ≡ no_counts }
    requires summary { IsEmpty table.summary }
    requires keys { table.keys.keys ≡ [] }
    ensures ends { (before : Option (List ℕ)) → OfRead before (S.to_come source.old) (λ bytes.
        IsHeader table.entry.asked.delimiter (fields_of first.fields) first.rest first.has_mark
        bytes) → RowsEnd table.entry.engine.rules table.entry.engine.database.now
        table.entry.engine.hint table.entry.columns table.entry.asked (fields_of first.fields)
        (seen before (S.faults source.old) (W.taken sink.old)
        (W.faults sink.old) (W.unflushed sink.old))
        (seen (S.to_come source.new) (S.faults source.new) (W.taken sink.new)
        (W.faults sink.new) (W.unflushed sink.new))
        result }
{
    if table.asked.tells_duplicates {
        write_marked(alloc, table, first, added, source, sink, unknown)
    } else {
        write_plain(alloc, table, first, added, source, sink, unknown)
    }
}

/// The same without these columns: each record is written when it was read.
fn write_plain<S: ByteSource, W: ByteSink>(
    alloc: Global,
    table: Table<'_>,
    first: First,
    added: &ByteRecord,
    source: &mut S,
    sink: &mut W,
    unknown: &mut UnknownNames,
) -> Result<Totals, RunError>
    requires partial { partial_of first.fields ≡ [] }
    requires end { IsNone first.rest → IsAtEnd (S.to_come source.old) }
    requires plain { table.asked.tells_duplicates ≡ false }
    requires added { fields_of added.now ≡ names_in table.asked }
    requires counts { table.counts ≡ no_counts }
    requires summary { IsEmpty table.summary }
    requires keys { table.keys.keys ≡ [] }
    ensures ends { (before : Option (List ℕ)) → OfRead before (S.to_come source.old) (λ bytes.
        IsHeader table.entry.asked.delimiter (fields_of first.fields) first.rest first.has_mark
        bytes) → RowsEnd table.entry.engine.rules table.entry.engine.database.now
        table.entry.engine.hint table.entry.columns table.entry.asked (fields_of first.fields)
        (seen before (S.faults source.old) (W.taken sink.old)
        (W.faults sink.old) (W.unflushed sink.old))
        (seen (S.to_come source.new) (S.faults source.new) (W.taken sink.new)
        (W.faults sink.new) (W.unflushed sink.new))
        result }
{
    let mut table = table;
    let delimiter = table.asked.delimiter;
    match write_rows(alloc, &mut table, delimiter, first, added, source, sink) {
        Ok(()) => Ok(told_whole(table, unknown)),
        Err(error) => Err(error),
    }
}
