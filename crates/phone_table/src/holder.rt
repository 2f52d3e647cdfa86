//! What keeps the records of a table, with their answers, until all are read.
ghost use Rattle.std.specs.Prelude.{◌≡◌, ◌++◌, ◌∷◌, [], OnOk, drop, take};
ghost use Rattle.csv.specs.Records.{fields_of};
ghost use Rattle.phone_table.specs.Answered.{key_in};
ghost use Rattle.phone_table.specs.Held.{answered};
ghost use Rattle.phone_answers.specs.Spelled.{number_in};

use crate::duplicates::Held;
use crate::summed::sum_row;
use crate::table::{Table, key_in};
use crate::unknown::note_unknown;
use csv::ByteRecord;
use phone_answers::Answer;
use phone_csv::{Answers, Refusal};
use phone_device::{ByteSink, Count, Fault};
use std::alloc::{AllocError, Global};
use std::marker::Model;
use std::mem;

/// What keeps the records of a table with their answers.
#[derive(Drop)]
pub struct Holder<'d> {
    /// What answers them.
    pub table: Table<'d>,
    /// Those that are kept.
    pub held: Vec<Held>,
}

impl<'d> Holder<'d> {
    /// Keeps a record that has so many fields of its own. Refused only for memory.
    fn hold(
        &mut self,
        alloc: Global,
        width: usize,
        fields: ByteRecord,
        answer: &Answer,
    ) -> Result<(), AllocError>
        ensures table { self.new.table ≡ self.old.table }
        ensures held { OnOk result (answered self.new.held.items ≡ answered self.old.held.items ++
            record {
              own = take width (fields_of fields);
              answer = drop width (fields_of fields);
              key = key_in (number_in answer.now);
            } ∷ []) }
    {
        let key = key_in(alloc, answer)?;
        self.held.push(Held { width, fields, key })?;
        Ok(())
    }
}

impl<'d> Answers for Holder<'d> {
    ghost use Rattle.phone_table.specs.Answers.{IsOfOtherWidth};
    ghost use Rattle.phone_table.specs.Held.{Holds};

    ghost gives = { λ h fields answer after. Holds h fields after answer };

    ghost refuses = { λ h fields. IsOfOtherWidth h.table.columns h.table.asked fields };

    /// Keeps a record with its answer, counts it, and notes the text that names no region. A record
    /// with another count of fields than the table has columns isn't answered, unless such are
    /// marked.
    fn answer(&mut self, alloc: Global, fields: &mut ByteRecord) -> Result<bool, Refusal> {
        let width = fields.len();
        let Ok(under) = self.table.hint_of(fields) else {
            return Err(Refusal::Memory);
        };
        let answer = match self.table.answer_or_refusal(under, fields) {
            Ok(answer) => answer,
            Err(refusal) => return Err(refusal),
        };
        let Ok(()) = self.table.push_row(fields, under, &answer) else {
            return Err(Refusal::Memory);
        };
        let Ok(()) = note_unknown(alloc, self.table.columns, fields, &mut self.table.unknown) else {
            return Err(Refusal::Memory);
        };
        let Ok(()) = sum_row(alloc, self.table.asked, fields, &mut self.table.summary) else {
            return Err(Refusal::Memory);
        };
        self.table.counts.count(fields, true);
        let row = mem::replace(fields, ByteRecord::new(alloc));
        match self.hold(alloc, width, row, &answer) {
            Ok(()) => Ok(false),
            Err(_) => Err(Refusal::Memory),
        }
    }
}

/// A sink for what isn't written: it takes all bytes, and keeps none.
#[derive(Drop)]
pub(crate) struct Nowhere {
    unflushed: Count,
}

impl Nowhere {
    /// It has taken nothing yet.
    pub(crate) fn new() -> Nowhere {
        Nowhere {
            unflushed: Count::new(),
        }
    }
}

impl ByteSink for Nowhere {
    ghost use Rattle.std.specs.Prelude.{None};

    ghost taken = { λ _. None };

    ghost faults = { λ _. 0 };

    ghost unflushed = { λ s. s.unflushed.value };

    // It never fails: that would be a fault.
    fn write(&mut self, bytes: &[u8]) -> Result<usize, Fault> {
        self.unflushed.tick();
        Ok(bytes.len())
    }

    fn flush(&mut self) -> Result<(), Fault> {
        self.unflushed = Count::new();
        Ok(())
    }
}
