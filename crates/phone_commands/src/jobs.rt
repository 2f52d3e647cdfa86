//! What a call does with an input: the report, or lines that are taken one by one.
ghost use Rattle.std.specs.Prelude.{◌≡◌, Result, ⊤};
ghost use Rattle.phone_commands.specs.Jobs.{ended};
ghost use Rattle.phone_lines.specs.Ends.{Devices, seen};

use crate::reader::Reader;
use crate::strays::{Strays, Tally};
use crate::text::push_line;
use phone_device::{ByteSink, ByteSource};
use phone_lines::{LineTaker, RunError, take_lines};
use phone_table::TableError;
use std::alloc::{AllocError, Global};

/// Why an input was not answered whole.
#[derive(Drop)]
pub enum JobError {
    /// The input failed.
    Input,
    /// The output failed, or took no byte of some.
    Output,
    /// There was no memory.
    Memory,
    /// It is asked for the mark of UTF-16, and begins with it.
    Utf16,
    /// The table is none, or has a record that is none of it.
    Table(TableError),
}

/// What is done with each input.
pub trait Job {
    ghost use Rattle.phone_commands.specs.declared.jobs.JobError.{JobError};
    ghost use Rattle.phone_commands.specs.declared.strays.Strays.{Strays};

    // How an input is answered: what is kept before, the devices before and after, what is kept
    // then, and the result.
    ghost acts: { Self → Devices → Devices → Self → Result ⊤ JobError → Type 0 };

    // What wasn't UTF-8 in the inputs so far.
    ghost met: { Self → Strays };

    /// What wasn't UTF-8 in the inputs so far.
    fn strays(&self) -> Strays
        ensures { result ≡ met self.now };

    /// Answers an input to its end. Where it is refused, what was answered before may be written.
    fn answer<S: ByteSource, W: ByteSink>(
        &mut self,
        alloc: Global,
        source: &mut S,
        sink: &mut W,
    ) -> Result<(), JobError>
        ensures { acts self.old
            (seen (S.to_come source.old) (S.faults source.old) (W.taken sink.old)
            (W.faults sink.old) (W.unflushed sink.old))
            (seen (S.to_come source.new) (S.faults source.new) (W.taken sink.new)
            (W.faults sink.new) (W.unflushed sink.new))
            self.new result };
}

/// A run over lines as a job's end.
fn ended(end: Result<(), RunError>) -> Result<(), JobError>
    ensures { result ≡ ended end }
{
    match end {
        Ok(()) => Ok(()),
        Err(RunError::Input) => Err(JobError::Input),
        Err(RunError::Output) => Err(JobError::Output),
        Err(RunError::Memory) => Err(JobError::Memory),
    }
}

/// The report line of each line.
#[derive(Drop)]
pub struct Report<'d> {
    /// What reads the lines.
    pub reader: Reader<'d>,
}

impl<'d> LineTaker for Report<'d> {
    ghost use Rattle.phone_engine.specs.ReportLines.{IsReportLine};
    ghost use Rattle.phone_lines.specs.Taken.{begins_with_nothing, each_by_itself};

    ghost begins = { begins_with_nothing };

    ghost gives = { each_by_itself (λ r. IsReportLine r.reader.engine.rules
        r.reader.engine.database.now r.reader.engine.hint) };

    fn begin(&mut self, _alloc: Global, _answers: &mut Vec<u8>) -> Result<(), AllocError> {
        Ok(())
    }

    fn take(
        &mut self,
        _alloc: Global,
        line: &[u8],
        answers: &mut Vec<u8>,
    ) -> Result<(), AllocError> {
        let report = self.reader.engine.report_line(line)?;
        push_line(answers, report.as_str())
    }
}

/// What takes each line in its turn, and counts those that aren't UTF-8.
#[derive(Drop)]
pub struct ByLines<'t, T> {
    /// What takes the lines.
    pub taker: &'t mut T,
    /// How far they are counted.
    pub tally: Tally,
}

impl<'t, T: LineTaker> LineTaker for ByLines<'t, T> {
    ghost use Rattle.phone_commands.specs.Strays.{CountsBegin, CountsLine};

    ghost begins = { λ j head j'. T.begins j.taker.now head j'.taker.now ×
        CountsBegin j.tally head j'.tally };

    ghost gives = { λ j line answer j'. T.gives j.taker.now line answer j'.taker.now ×
        CountsLine j.tally line answer j'.tally };

    fn begin(&mut self, alloc: Global, answers: &mut Vec<u8>) -> Result<(), AllocError> {
        self.tally = self.tally.after_begin();
        self.taker.begin(alloc, answers)
    }

    fn take(
        &mut self,
        alloc: Global,
        line: &[u8],
        answers: &mut Vec<u8>,
    ) -> Result<(), AllocError> {
        self.tally = self.tally.after_line(line);
        self.taker.take(alloc, line, answers)
    }
}

impl<'t, T: LineTaker> Job for ByLines<'t, T> {
    ghost use Rattle.phone_commands.specs.Jobs.{TakesLines};
    ghost use Rattle.phone_commands.specs.Strays.{CountsBegin, CountsLine};

    ghost acts = { TakesLines
        (λ j head j'. T.begins j.taker.now head j'.taker.now ×
        CountsBegin j.tally head j'.tally)
        (λ j line answer j'. T.gives j.taker.now line answer j'.taker.now ×
        CountsLine j.tally line answer j'.tally) };

    ghost met = { λ j. j.tally.strays };

    fn strays(&self) -> Strays {
        self.tally.strays
    }

    fn answer<S: ByteSource, W: ByteSink>(
        &mut self,
        alloc: Global,
        source: &mut S,
        sink: &mut W,
    ) -> Result<(), JobError> {
        ended(take_lines(alloc, self, source, sink))
    }
}
