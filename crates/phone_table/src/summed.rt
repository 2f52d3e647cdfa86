//! The summary of the rows of a table.
ghost use Rattle.std.specs.Prelude.{◌≡◌, OnOk};
ghost use Rattle.csv.specs.Records.{fields_of};
ghost use Rattle.phone_table.specs.Summaries.{row_of};
ghost use Rattle.phone_table.specs.Summed.{SumsRow, doubts_place, extra_field, told_of, totals_of};

use crate::counts::{Counts, answer_field};
use crate::run::Asked;
use crate::table::{Table, field_in};
use crate::unknown::UnknownNames;
use crate::{Answered, Summary};
use csv::ByteRecord;
use phone_answers::{ANSWER_WIDTH, Extra, Field, tells_doubts};
use std::alloc::{AllocError, Global};

/// What is told of a table that was answered whole.
#[derive(Drop)]
pub struct Totals {
    /// How many records were answered, and how.
    pub counts: Counts,
    /// How often each type, region, refusal and word of what is suspicious was answered, where a
    /// summary is asked for.
    pub summary: Summary,
}

impl Totals {
    /// Those of a table of which no record was answered yet.
    pub fn new(alloc: Global) -> Totals {
        Totals {
            counts: Counts::new(),
            summary: Summary::new(alloc),
        }
    }
}

/// The place of the column that tells what is suspicious, where it is asked for.
fn doubts_place(extra: &[Extra<'_>]) -> Option<usize>
    ensures { result ≡ doubts_place extra.now }
{
    extra.iter().position(|column| tells_doubts(column.told))
}

/// The field of a row in a column that is asked for; empty where none is.
fn extra_field<'a>(extra: &[Extra<'_>], row: &'a ByteRecord, place: Option<usize>) -> &'a [u8]
    ensures { result.now ≡ extra_field extra.now (fields_of row.now) place }
{
    let Some(place) = place else {
        return &[];
    };
    let behind = extra.len().saturating_sub(place);
    let end = row.len().saturating_sub(ANSWER_WIDTH);
    field_in(row, end.saturating_sub(behind))
}

/// What a summary tells of a row.
fn told_of<'a>(extra: &[Extra<'_>], row: &'a ByteRecord) -> Answered<'a>
    ensures { row_of result ≡ told_of extra.now (fields_of row.now) }
{
    Answered {
        kind: answer_field(row, Field::Kind),
        region: answer_field(row, Field::Region),
        refusal: answer_field(row, Field::Refusal),
        suspicion: extra_field(extra, row, doubts_place(extra)),
    }
}

/// Counts a row in the summary, where one is asked for. Refused only for memory.
pub(crate) fn sum_row(
    alloc: Global,
    asked: Asked<'_>,
    row: &ByteRecord,
    summary: &mut Summary,
) -> Result<(), AllocError>
    ensures { OnOk result (SumsRow asked.entry (fields_of row.now) summary.old summary.new) }
{
    let is_summed = asked.is_summed;
    if is_summed {
        summary.add(alloc, told_of(asked.extra, row))
    } else {
        Ok(())
    }
}

/// What is told of a table that was answered whole: its texts that name no region are handed on.
pub(crate) fn told_whole(table: Table<'_>, unknown: &mut UnknownNames) -> Totals
    ensures { result ≡ totals_of table.entry }
{
    *unknown = table.unknown;
    Totals {
        counts: table.counts,
        summary: table.summary,
    }
}
