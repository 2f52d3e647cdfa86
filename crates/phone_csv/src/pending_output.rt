//! What a run holds: the record that isn't ended yet, and answers that aren't written yet.
ghost use Rattle.std.specs.Prelude.{◌≡◌, ◌+◌, ◌<◌, ◌++◌, ◌∷◌, [], ℕ, List, Option, Err, OnOk};
ghost use Rattle.std.specs.Prelude.{OnErr, false, vec_len};
ghost use Rattle.csv.specs.Records.{fields_of, partial_of};
ghost use Rattle.csv.specs.declared.parser.State.{State};
ghost use Rattle.phone_device.specs.Passing.{Holds, IsAtEnd};
ghost use Rattle.phone_csv.specs.Formats.{record_text, state_of};
ghost use Rattle.phone_csv.specs.Records.{in_quotes};
ghost use Rattle.phone_csv.specs.Faults.{faults_of};
ghost use Rattle.phone_csv.specs.RecordReports.{IsReport, IsReportBefore, IsReportOnFirst};
ghost use Rattle.phone_csv.specs.RecordReports.{WritesRows, WritesSomeRows};
ghost use Rattle.phone_csv.specs.Runs.{Adds, BreaksOff, IsSoFar, Stands};
ghost use Rattle.phone_csv.specs.declared.pending_output.Stop.TheVariants as stop;
ghost use Rattle.phone_csv.specs.declared.answers.Refusal.TheVariants as refusal;

use crate::answers::{Answers, Refusal, add_record};
use crate::cutter::Cutter;
use crate::format::Format;
use crate::machine::{Place, is_open};
use phone_device::{BLOCK_LENGTH, ByteSink, hand_on};
use std::alloc::{AllocError, Global};

/// Why a block was not taken whole.
#[derive(Clone, Copy, PartialEq, Eq, Debug)]
pub(crate) enum Stop {
    /// The sink failed.
    Fault,
    /// A record is not answered.
    Record,
    /// There was no memory for a record or its answer.
    Memory,
}

/// What a run holds.
#[derive(Drop)]
pub(crate) struct PendingOutput {
    /// The record that isn't ended yet.
    pub cutter: Cutter,
    /// Answers that aren't written yet, each whole.
    pub answers: Vec<u8>,
}

impl PendingOutput {
    /// Holds nothing yet, at this place.
    pub fn new(alloc: Global, format: Format, place: Place) -> PendingOutput
        ensures format { result.cutter.format ≡ format }
        ensures place { result.cutter.place ≡ place }
        ensures fields { fields_of result.cutter.fields ≡ [] }
        ensures partial { partial_of result.cutter.fields ≡ [] }
        ensures field { result.cutter.field.items ≡ [] }
        ensures feeds { result.cutter.feeds ≡ 0 }
        ensures feeds_before { result.cutter.feeds_before ≡ 0 }
        ensures answers { result.answers.items ≡ [] }
    {
        PendingOutput {
            cutter: Cutter::new(alloc, format, place),
            answers: Vec::new(alloc),
        }
    }

    /// Answers the last record, where one stands behind the last line end.
    pub fn take_last<A: Answers>(&mut self, alloc: Global, answers: &mut A) -> Result<(), Refusal>
        requires { partial_of self.old.cutter.fields ≡ [] }
        ensures taken { OnOk result (in_quotes (state_of self.old.cutter.place) ≡ false →
            (first : A) (start : State) (bytes : List ℕ) (before after : Option (List ℕ)) →
            Stands (WritesRows A.gives self.old.cutter.format first answers.old) start bytes
            self.old.cutter self.old.answers.items before after →
            Holds (IsReport (WritesRows A.gives self.old.cutter.format first answers.new)
            self.old.cutter.format.delimiter start bytes) self.new.answers.items before after) }
        ensures refused { result ≡ Err refusal.Record → (first : A) (start : State)
            (bytes : List ℕ) (before after to_come : Option (List ℕ)) → IsAtEnd to_come →
            Stands (WritesRows A.gives self.old.cutter.format first answers.old) start bytes
            self.old.cutter self.old.answers.items before after →
            Holds (IsReportBefore (WritesRows A.gives self.old.cutter.format first answers.new)
            (A.refuses answers.new) self.old.cutter.format.delimiter start 0
            self.new.cutter.feeds_before to_come bytes) self.new.answers.items before after }
        ensures kept { OnErr result (self.new.answers.items ≡ self.old.answers.items) }
    {
        if !is_open(self.cutter.place) {
            return Ok(());
        }
        let Ok(()) = self.cutter.end_field() else {
            return Err(Refusal::Memory);
        };
        self.answer_record(alloc, answers)
    }

    /// Answers the record that is ended, and begins the next one.
    fn answer_record<A: Answers>(&mut self, alloc: Global, answers: &mut A) -> Result<(), Refusal>
        requires { partial_of self.old.cutter.fields ≡ [] }
        ensures partial { OnOk result (partial_of self.new.cutter.fields ≡ []) }
        ensures format { self.new.cutter.format ≡ self.old.cutter.format }
        ensures place { self.new.cutter.place ≡ self.old.cutter.place }
        ensures field { self.new.cutter.field.items ≡ self.old.cutter.field.items }
        ensures feeds { self.new.cutter.feeds ≡ self.old.cutter.feeds }
        ensures feeds_before { self.new.cutter.feeds_before ≡ self.old.cutter.feeds_before }
        ensures fields { OnOk result (fields_of self.new.cutter.fields ≡ []) }
        ensures added { OnOk result ((added : List ℕ) ×
            (self.new.answers.items ≡ self.old.answers.items ++ added) ×
            ((first : A) → Adds (WritesRows A.gives self.old.cutter.format first answers.old)
            (WritesRows A.gives self.old.cutter.format first answers.new)
            (fields_of self.old.cutter.fields) added)) }
        ensures refused { result ≡ Err refusal.Record →
            A.refuses answers.old (fields_of self.old.cutter.fields) ×
            (answers.new ≡ answers.old) }
        ensures answers_kept { OnErr result (self.new.answers.items ≡ self.old.answers.items) }
    {
        let is_written = answers.answer(alloc, &mut self.cutter.fields)?;
        if !is_written {
            self.cutter.fields.clear();
            return Ok(());
        }
        let Ok(()) = self.write_record(alloc) else {
            return Err(Refusal::Memory);
        };
        Ok(())
    }

    /// Writes the record that is ended, and begins the next one. Refused only for memory.
    fn write_record(&mut self, alloc: Global) -> Result<(), AllocError>
        ensures partial { OnOk result (partial_of self.new.cutter.fields ≡ []) }
        ensures format { self.new.cutter.format ≡ self.old.cutter.format }
        ensures place { self.new.cutter.place ≡ self.old.cutter.place }
        ensures field { self.new.cutter.field.items ≡ self.old.cutter.field.items }
        ensures feeds { self.new.cutter.feeds ≡ self.old.cutter.feeds }
        ensures feeds_before { self.new.cutter.feeds_before ≡ self.old.cutter.feeds_before }
        ensures fields { OnOk result (fields_of self.new.cutter.fields ≡ []) }
        ensures written { OnOk result (self.new.answers.items ≡ self.old.answers.items ++
            record_text self.old.cutter.format (fields_of self.old.cutter.fields)) }
        ensures answers_kept { OnErr result (self.new.answers.items ≡ self.old.answers.items) }
    {
        let format = self.cutter.format;
        add_record(alloc, format, &self.cutter.fields, &mut self.answers)?;
        self.cutter.fields.clear();
        Ok(())
    }

    /// Takes one more byte. The record that it ends is answered.
    fn take_byte<A: Answers>(
        &mut self,
        alloc: Global,
        answers: &mut A,
        byte: u8,
    ) -> Result<(), Refusal>
        requires { partial_of self.old.cutter.fields ≡ [] }
        ensures partial { OnOk result (partial_of self.new.cutter.fields ≡ []) }
        ensures format { self.new.cutter.format ≡ self.old.cutter.format }
        ensures taken { OnOk result ((first : A) (start : State) (bytes written : List ℕ) →
            IsSoFar (WritesRows A.gives self.old.cutter.format first answers.old) start bytes
            self.old.cutter (written ++ self.old.answers.items) →
            IsSoFar (WritesRows A.gives self.old.cutter.format first answers.new) start
            (bytes ++ byte ∷ []) self.new.cutter (written ++ self.new.answers.items)) }
        ensures refused { result ≡ Err refusal.Record → (first : A) (start : State)
            (bytes written : List ℕ) →
            IsSoFar (WritesRows A.gives self.old.cutter.format first answers.old) start bytes
            self.old.cutter (written ++ self.old.answers.items) →
            (to_come : Option (List ℕ)) (more : List ℕ) →
            IsReportBefore (WritesRows A.gives self.old.cutter.format first answers.new)
            (A.refuses answers.new) self.old.cutter.format.delimiter start 0
            self.new.cutter.feeds_before to_come (bytes ++ byte ∷ more)
            (written ++ self.old.answers.items) }
        ensures answers_kept { OnErr result (self.new.answers.items ≡ self.old.answers.items) }
    {
        let Ok(is_ended) = self.cutter.take(byte) else {
            return Err(Refusal::Memory);
        };
        if !is_ended {
            return Ok(());
        }
        self.answer_record(alloc, answers)
    }

    /// Takes the bytes of a block, one after the other. Refused by `Fault` where the sink fails,
    /// by `Record` at a record that is not answered, and by `Memory`.
    pub fn take_block<A: Answers, W: ByteSink>(
        &mut self,
        alloc: Global,
        answers: &mut A,
        sink: &mut W,
        block: &[u8],
    ) -> Result<(), Stop>
        requires partial { partial_of self.old.cutter.fields ≡ [] }
        requires short { vec_len self.old.answers < BLOCK_LENGTH }
        ensures partial { OnOk result (partial_of self.new.cutter.fields ≡ []) }
        ensures format { self.new.cutter.format ≡ self.old.cutter.format }
        ensures taken { OnOk result ((first : A) (start : State) (bytes : List ℕ)
            (before : Option (List ℕ)) →
            Stands (WritesRows A.gives self.old.cutter.format first answers.old) start bytes
            self.old.cutter self.old.answers.items before (W.taken sink.old) →
            Stands (WritesRows A.gives self.old.cutter.format first answers.new) start
            (bytes ++ block.now) self.new.cutter self.new.answers.items before
            (W.taken sink.new)) }
        ensures refused { result ≡ Err stop.Record → (first : A) (start : State) (bytes : List ℕ)
            (before to_come : Option (List ℕ)) →
            Stands (WritesRows A.gives self.old.cutter.format first answers.old) start bytes
            self.old.cutter self.old.answers.items before (W.taken sink.old) →
            Holds (IsReportBefore (WritesRows A.gives self.old.cutter.format first answers.new)
            (A.refuses answers.new) self.old.cutter.format.delimiter start 0
            self.new.cutter.feeds_before to_come (bytes ++ block.now))
            self.new.answers.items before (W.taken sink.new) }
        ensures memory { result ≡ Err stop.Memory → (first : A) (start : State) (bytes : List ℕ)
            (before : Option (List ℕ)) →
            Stands (WritesRows A.gives self.old.cutter.format first answers.old) start bytes
            self.old.cutter self.old.answers.items before (W.taken sink.old) →
            Holds (IsReportOnFirst (WritesSomeRows A.gives self.old.cutter.format first)
            self.old.cutter.format.delimiter start (bytes ++ block.now))
            self.new.answers.items before (W.taken sink.new) }
        ensures broken { result ≡ Err stop.Fault → (first : A) (start : State) (bytes : List ℕ)
            (before : Option (List ℕ)) →
            Stands (WritesRows A.gives self.old.cutter.format first answers.old) start bytes
            self.old.cutter self.old.answers.items before (W.taken sink.old) →
            BreaksOff (WritesSomeRows A.gives self.old.cutter.format first)
            self.old.cutter.format.delimiter start (bytes ++ block.now) before
            (W.taken sink.new) }
        ensures faults { W.faults sink.new ≡ W.faults sink.old + faults_of result }
        ensures short { OnOk result (vec_len self.new.answers < BLOCK_LENGTH) }
    {
        for byte in block {
            match self.take_byte(alloc, answers, *byte) {
                Ok(()) => {}
                Err(Refusal::Record) => return Err(Stop::Record),
                Err(Refusal::Memory) => return Err(Stop::Memory),
            }
            let Ok(()) = hand_on(sink, &mut self.answers) else {
                return Err(Stop::Fault);
            };
        }
        Ok(())
    }
}
