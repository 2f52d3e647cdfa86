//! The rows of a table behind its header.
ghost use Rattle.std.specs.Prelude.{◌≡◌, ℕ, List, [], Option, IsNone};
ghost use Rattle.csv.specs.Records.{fields_of, partial_of};
ghost use Rattle.phone_csv.specs.RecordReports.{WritesRows, WritesSomeRows};
ghost use Rattle.phone_csv.specs.Runs.{OfRead};
ghost use Rattle.phone_device.specs.Passing.{IsAtEnd};
ghost use Rattle.phone_lines.specs.Ends.{seen};
ghost use Rattle.phone_table.specs.Ends.{Ends};
ghost use Rattle.phone_table.specs.Tables.{IsHeader};

use crate::names::{HeaderError, write_header};
use csv::ByteRecord;
use phone_csv::{Answers, First, RunError, answer_records, format_after};
use phone_device::{ByteSink, ByteSource};
use std::alloc::Global;

/// Writes a header that was read with these names behind it, and then the records that
/// follow it, each with its answer, unless it is left out. Begins with a byte-order mark where the
/// table does, and ends each record as the header ends. Refused as `answer_records` refuses; where
/// memory is refused for the header nothing is written.
pub(crate) fn write_rows<A: Answers, S: ByteSource, W: ByteSink>(
    alloc: Global,
    answers: &mut A,
    delimiter: u8,
    first: First,
    added: &ByteRecord,
    source: &mut S,
    sink: &mut W,
) -> Result<(), RunError>
    requires partial { partial_of first.fields ≡ [] }
    requires end { IsNone first.rest → IsAtEnd (S.to_come source.old) }
    ensures ends { (before : Option (List ℕ)) → OfRead before (S.to_come source.old) (λ bytes.
        IsHeader delimiter (fields_of first.fields) first.rest first.has_mark bytes) →
        Ends (fields_of first.fields) (fields_of added.now)
        (λ format. WritesRows A.gives format answers.old answers.new)
        (λ format. WritesSomeRows A.gives format answers.old) (A.refuses answers.new) delimiter
        (seen before (S.faults source.old) (W.taken sink.old)
        (W.faults sink.old) (W.unflushed sink.old))
        (seen (S.to_come source.new) (S.faults source.new) (W.taken sink.new)
        (W.faults sink.new) (W.unflushed sink.new))
        result }
{
    let First {
        fields,
        rest,
        has_mark,
    } = first;
    let format = format_after(delimiter, rest);
    match write_header(alloc, format, has_mark, fields, added, sink) {
        Ok(()) => {}
        Err(HeaderError::Output) => return Err(RunError::Output),
        Err(HeaderError::Memory) => return Err(RunError::Memory),
    }
    match rest {
        Some(start) => answer_records(alloc, answers, format, start, source, sink),
        None => match sink.flush() {
            Ok(()) => Ok(()),
            Err(_) => Err(RunError::Output),
        },
    }
}
