//! What a call does with a table of customers.
ghost use Rattle.std.specs.Prelude.{◌≡◌};
ghost use Rattle.phone_commands.specs.TableJobs.{AnswersTable, table_error};
ghost use Rattle.phone_lines.specs.Ends.{seen};

use crate::jobs::{Job, JobError};
use crate::strays::Strays;
use phone_csv::FirstError;
use phone_device::{ByteSink, ByteSource};
use phone_engine::Engine;
use phone_table::{Asked, TableError, Totals, UnknownNames, write_table};
use std::alloc::Global;

/// A table of customers.
#[derive(Drop)]
pub struct Customers<'d, 'w> {
    /// What reads the numbers, prints and tells.
    pub engine: Engine<'d>,
    /// What is asked of it.
    pub asked: Asked<'w>,
    /// How many records there were, how many of them gave what, and how many were left out; and
    /// the summary, where one is asked for.
    pub totals: Totals,
    /// The texts that name no region, of the last table.
    pub unknown: UnknownNames,
}

/// Why a table was not answered whole, as a job's error.
fn table_error(error: TableError) -> JobError
    ensures { result ≡ table_error error }
{
    match error {
        TableError::Header(FirstError::Input) => JobError::Input,
        TableError::Header(FirstError::Memory) => JobError::Memory,
        TableError::Rows(phone_csv::RunError::Input) => JobError::Input,
        TableError::Rows(phone_csv::RunError::Output) => JobError::Output,
        TableError::Rows(phone_csv::RunError::Memory) => JobError::Memory,
        error => JobError::Table(error),
    }
}

impl<'d, 'w> Customers<'d, 'w> {
    /// Writes the table to a sink.
    fn write<S: ByteSource, W: ByteSink>(
        &mut self,
        source: &mut S,
        sink: &mut W,
    ) -> Result<(), JobError>
        ensures answered { AnswersTable self.old.engine.rules self.old.engine.database.now
            self.old.engine.hint self.old.asked
            (seen (S.to_come source.old) (S.faults source.old) (W.taken sink.old)
            (W.faults sink.old) (W.unflushed sink.old))
            (seen (S.to_come source.new) (S.faults source.new) (W.taken sink.new)
            (W.faults sink.new) (W.unflushed sink.new))
            self.new.totals result }
        ensures kept { self.new ≡
            record self.old { totals = self.new.totals; unknown = self.new.unknown } }
    {
        match write_table(self.engine, self.asked, source, sink, &mut self.unknown) {
            Ok(totals) => {
                self.totals = totals;
                Ok(())
            }
            Err(error) => Err(table_error(error)),
        }
    }
}

impl<'d, 'w> Job for Customers<'d, 'w> {
    ghost use Rattle.std.specs.Prelude.{◌≡◌};
    ghost use Rattle.phone_commands.specs.Strays.{strays_of};
    ghost use Rattle.phone_commands.specs.TableJobs.{AnswersTable};

    // The answer to a table, whose totals and texts that name no region are kept anew.
    ghost acts = { λ c before after c' result. AnswersTable c.engine.rules c.engine.database.now
        c.engine.hint c.asked before after c'.totals result ×
        (c' ≡ record c { totals = c'.totals; unknown = c'.unknown }) };

    // The records of the last table that aren't UTF-8.
    ghost met = { λ c. strays_of c.totals.counts };

    fn strays(&self) -> Strays {
        Strays::of(self.totals.counts)
    }

    fn answer<S: ByteSource, W: ByteSink>(
        &mut self,
        _alloc: Global,
        source: &mut S,
        sink: &mut W,
    ) -> Result<(), JobError> {
        self.write(source, sink)
    }
}
