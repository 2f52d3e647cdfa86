//! The run over a table with the columns of duplicates.
ghost use Rattle.std.specs.Prelude.{◌≡◌, ◌++◌, ℕ, List, [], Err, IfErr, IfOk, IfSome, IsNone, OnOk};
ghost use Rattle.std.specs.Prelude.{Bool, Option, None, Ok, true};
ghost use Rattle.csv.specs.Records.{fields_of, partial_of};
ghost use Rattle.phone_csv.specs.Formats.{Record, format_after, state_of};
ghost use Rattle.phone_csv.specs.RecordReports.{IsReport, WritesRows, WritesSomeRows};
ghost use Rattle.phone_csv.specs.Runs.{OfRead};
ghost use Rattle.phone_device.specs.Passing.{IsAtEnd};
ghost use Rattle.phone_lines.specs.Ends.{seen};
ghost use Rattle.phone_table.specs.Summaries.{IsEmpty};
ghost use Rattle.phone_table.specs.Answers.{IsOfOtherWidth};
ghost use Rattle.phone_table.specs.Counts.{no_counts};
ghost use Rattle.phone_table.specs.Ends.{Ends};
ghost use Rattle.phone_table.specs.Held.{holds};
ghost use Rattle.phone_table.specs.Runs.{RowsEnd, names_in};
ghost use Rattle.phone_table.specs.Tables.{IsHeader};

use crate::duplicates::marked_text;
use crate::holder::{Holder, Nowhere};
use crate::names::header_text;
use crate::summed::{Totals, told_whole};
use crate::table::Table;
use crate::unknown::UnknownNames;
use csv::ByteRecord;
use phone_csv::{First, RunError, Start, answer_records, format_after};
use phone_device::{ByteSink, ByteSource, write_out};
use std::alloc::Global;

/// Reads and answers the records behind a header, and keeps them. Refused as `answer_records`
/// refuses, but that nothing is written.
fn hold_all<S: ByteSource>(
    alloc: Global,
    holder: &mut Holder<'_>,
    delimiter: u8,
    rest: Option<Start>,
    source: &mut S,
) -> Result<(), RunError>
    requires end { IsNone rest → IsAtEnd (S.to_come source.old) }
    ensures none { IsNone rest → (holder.new ≡ holder.old) × (source.new ≡ source.old) ×
        (result ≡ Ok tt) }
    ensures end { OnOk result (IsAtEnd (S.to_come source.new)) }
    ensures no_fault { OnOk result (S.faults source.new ≡ S.faults source.old) }
    ensures read { IfSome rest (λ start. OnOk result (OfRead (S.to_come source.old)
        (S.to_come source.new) (λ bytes. (text : List ℕ) ×
        IsReport (WritesRows holds (format_after delimiter (state_of start.place)) holder.old
        holder.new) delimiter (state_of start.place) bytes text))) }
    ensures broken_off { IfErr result (λ e. (before : Option (List ℕ)) (header added : Record)
        (has_mark : Bool) → OfRead before (S.to_come source.old) (λ bytes.
        IsHeader delimiter header rest has_mark bytes) → (unflushed : ℕ) ×
        Ends header added (λ format. WritesRows holds format holder.old holder.new)
        (λ format. WritesSomeRows holds format holder.old)
        (IsOfOtherWidth holder.new.table.columns holder.new.table.asked) delimiter
        (seen before (S.faults source.old) None 0 0)
        (seen (S.to_come source.new) (S.faults source.new) None 0 unflushed) (Err e)) }
{
    match rest {
        Some(start) => {
            let format = format_after(delimiter, rest);
            answer_records(alloc, holder, format, start, source, &mut Nowhere::new())
        }
        None => Ok(()),
    }
}

/// Writes a table whose header was read: that with these names behind its own, and all records,
/// each with what the columns of duplicates tell of it. Nothing is written before all is read and
/// answered, so nothing where that breaks off, by `Input`, `Record`, `Quote` or `Memory`; refused
/// by `Output` where the sink fails: then a beginning is written. Where all is written, `unknown`
/// is then the texts that name no region.
pub(crate) fn write_marked<S: ByteSource, W: ByteSink>(
    alloc: Global,
    table: Table<'_>,
    first: First,
    added: &ByteRecord,
    source: &mut S,
    sink: &mut W,
    unknown: &mut UnknownNames,
) -> Result<Totals, RunError>
    requires partial { partial_of first.fields ≡ [] }
    requires end { IsNone first.rest → IsAtEnd (S.to_come source.old) }
    requires marked { table.asked.tells_duplicates ≡ true }
    requires added { fields_of added.now ≡ names_in table.asked }
    requires counts { table.counts ≡ no_counts }
    requires summary { IsEmpty table.summary }
    ensures ends { (before : Option (List ℕ)) → OfRead before (S.to_come source.old) (λ bytes.
        IsHeader table.entry.asked.delimiter (fields_of first.fields) first.rest first.has_mark
        bytes) → RowsEnd table.entry.engine.rules table.entry.engine.database.now
        table.entry.engine.hint table.entry.columns table.entry.asked (fields_of first.fields)
        (seen before (S.faults source.old) (W.taken sink.old)
        (W.faults sink.old) (W.unflushed sink.old))
        (seen (S.to_come source.new) (S.faults source.new) (W.taken sink.new)
        (W.faults sink.new) (W.unflushed sink.new))
        result }
{
    let First {
        fields,
        rest,
        has_mark,
    } = first;
    let delimiter = table.asked.delimiter;
    let format = format_after(delimiter, rest);
    let Ok(front) = header_text(alloc, format, has_mark, fields, added) else {
        return Err(RunError::Memory);
    };
    let mut holder = Holder {
        table,
        held: Vec::new(alloc),
    };
    match hold_all(alloc, &mut holder, delimiter, rest, source) {
        Ok(()) => {}
        Err(error) => return Err(error),
    }
    let Ok(text) = marked_text(alloc, format, front, holder.held.as_slice()) else {
        return Err(RunError::Memory);
    };
    match write_out(sink, text.as_slice()) {
        Ok(()) => Ok(told_whole(holder.table, unknown)),
        Err(_) => Err(RunError::Output),
    }
}
