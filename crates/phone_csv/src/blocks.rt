//! The run over all records.
ghost use Rattle.std.specs.Prelude.{◌≡◌, ◌≢◌, ◌<◌, ◌+◌, ◌⊎◌, ℕ, [], Ok, Err, OnOk, OnErr, length};
ghost use Rattle.std.specs.Prelude.{vec_len};
ghost use Rattle.csv.specs.Records.{fields_of, partial_of};
ghost use Rattle.csv.specs.declared.parser.State.{State};
ghost use Rattle.phone_device.specs.Passing.{Holds, IsAtEnd};
ghost use Rattle.phone_csv.specs.Faults.{sink_faults_of};
ghost use Rattle.phone_csv.specs.Formats.{state_of};
ghost use Rattle.phone_csv.specs.Feeds.{counted};
ghost use Rattle.phone_csv.specs.RecordReports.{IsBeginning, IsReport, IsReportBefore};
ghost use Rattle.phone_csv.specs.RecordReports.{IsReportBeforeQuote, IsReportOnEnded};
ghost use Rattle.phone_csv.specs.RecordReports.{IsReportOnFirst, WritesRows, WritesSomeRows};
ghost use Rattle.phone_csv.specs.Runs.{BreaksOff, IsFresh};
ghost use Rattle.phone_csv.specs.Runs.{OfRead, Stands, TakesA};
ghost use Rattle.phone_csv.specs.Runs.{most_bytes};
ghost use Rattle.phone_csv.specs.declared.blocks.End.TheVariants as end;
ghost use Rattle.phone_csv.specs.declared.blocks.RunError.TheVariants as error;

use crate::answers::{Answers, Refusal};
use crate::cutter::Start;
use crate::format::Format;
use crate::machine::in_quotes;
use crate::pending_output::{PendingOutput, Stop};
use phone_device::{BLOCK_LENGTH, Block, ByteSink, ByteSource, Fault, write_out};
use std::alloc::Global;

/// Why a run ended before all records were answered.
#[derive(Clone, Copy, PartialEq, Eq, Debug)]
pub enum RunError {
    /// The source failed, or gave 2^64 - 1 bytes.
    Input,
    /// The sink failed, or took no byte of some.
    Output,
    /// A record is not answered. So many line feeds stand in front of it, 2^64 - 1 at most.
    Record(u64),
    /// The source ends between quotes. The first of these, which is never closed, stands on this
    /// line, counted from 1, 2^64 - 1 at most.
    Quote(u64),
    /// There was no memory for a record or its answer.
    Memory,
}

/// How a run ended, the sink never having failed.
#[derive(Clone, Copy, PartialEq, Eq, Debug)]
enum End {
    /// All was read and answered.
    Whole,
    /// The source failed, or gave as many bytes as are read at most.
    Input,
    /// A record is not answered.
    Record,
    /// All was read, and ends between quotes.
    Quote,
    /// There was no memory for a record or its answer.
    Memory,
}

/// Reads all blocks, and answers the records that are ended.
fn take_blocks<A: Answers, S: ByteSource, W: ByteSink>(
    alloc: Global,
    answers: &mut A,
    source: &mut S,
    sink: &mut W,
    pending: &mut PendingOutput,
) -> Result<End, Fault>
    requires partial { partial_of pending.old.cutter.fields ≡ [] }
    requires short { vec_len pending.old.answers < BLOCK_LENGTH }
    ensures end { result ≡ Ok end.Whole → IsAtEnd (S.to_come source.new) }
    ensures partial { result ≡ Ok end.Whole → partial_of pending.new.cutter.fields ≡ [] }
    ensures format { pending.new.cutter.format ≡ pending.old.cutter.format }
    ensures taken { result ≡ Ok end.Whole → (first : A) (start : State) →
        IsFresh (WritesRows A.gives pending.old.cutter.format first answers.old) start
        pending.old.cutter pending.old.answers.items (W.taken sink.old) →
        OfRead (S.to_come source.old) (S.to_come source.new) (λ bytes. Stands
        (WritesRows A.gives pending.old.cutter.format first answers.new)
        start bytes pending.new.cutter pending.new.answers.items
        (W.taken sink.old) (W.taken sink.new)) }
    ensures input { result ≡ Ok end.Input → (first : A) (start : State) →
        IsFresh (WritesRows A.gives pending.old.cutter.format first answers.old) start
        pending.old.cutter pending.old.answers.items (W.taken sink.old) →
        OfRead (S.to_come source.old) (S.to_come source.new) (λ bytes. Holds (IsReportOnEnded
        (WritesRows A.gives pending.old.cutter.format first answers.new)
        pending.old.cutter.format.delimiter start bytes) pending.new.answers.items
        (W.taken sink.old) (W.taken sink.new)) }
    ensures cause { result ≡ Ok end.Input → (S.faults source.new ≡ S.faults source.old + 1) ⊎
        OfRead (S.to_come source.old) (S.to_come source.new) (λ bytes. length bytes ≡ most_bytes) }
    ensures refused { result ≡ Ok end.Record → (first : A) (start : State) →
        IsFresh (WritesRows A.gives pending.old.cutter.format first answers.old) start
        pending.old.cutter pending.old.answers.items (W.taken sink.old) →
        OfRead (S.to_come source.old) (S.to_come source.new) (λ bytes. Holds (IsReportBefore
        (WritesRows A.gives pending.old.cutter.format first answers.new)
        (A.refuses answers.new) pending.old.cutter.format.delimiter start
        0 pending.new.cutter.feeds_before (S.to_come source.new) bytes) pending.new.answers.items
        (W.taken sink.old) (W.taken sink.new)) }
    ensures memory { result ≡ Ok end.Memory → (first : A) (start : State) →
        IsFresh (WritesRows A.gives pending.old.cutter.format first answers.old) start
        pending.old.cutter pending.old.answers.items (W.taken sink.old) →
        OfRead (S.to_come source.old) (S.to_come source.new) (λ bytes. Holds (IsReportOnFirst
        (WritesSomeRows A.gives pending.old.cutter.format first)
        pending.old.cutter.format.delimiter start bytes) pending.new.answers.items
        (W.taken sink.old) (W.taken sink.new)) }
    ensures broken { OnErr result ((first : A) (start : State) →
        IsFresh (WritesRows A.gives pending.old.cutter.format first answers.old) start
        pending.old.cutter pending.old.answers.items (W.taken sink.old) →
        OfRead (S.to_come source.old) (S.to_come source.new) (λ bytes. BreaksOff
        (WritesSomeRows A.gives pending.old.cutter.format first)
        pending.old.cutter.format.delimiter start bytes (W.taken sink.old)
        (W.taken sink.new))) }
    ensures no_fault { result ≡ Ok end.Whole → S.faults source.new ≡ S.faults source.old }
    ensures no_fault_at_a_record { result ≡ Ok end.Record →
        S.faults source.new ≡ S.faults source.old }
    ensures no_fault_without_memory { result ≡ Ok end.Memory →
        S.faults source.new ≡ S.faults source.old }
    ensures no_quote { ¬ (result ≡ Ok end.Quote) }
    ensures sink_no_fault { OnOk result (W.faults sink.new ≡ W.faults sink.old) }
    ensures sink_fault { OnErr result (W.faults sink.new ≡ W.faults sink.old + 1) }
{
    let mut block = Block::new();
    let mut read: u64 = 0;
    'blocks: loop {
        if read == u64::MAX {
            return Ok(End::Input);
        }
        let Ok(()) = block.fill(source, u64::MAX - read) else {
            return Ok(End::Input);
        };
        if block.bytes().is_empty() {
            return Ok(End::Whole);
        }
        read += block.bytes().len() as u64;
        match pending.take_block(alloc, answers, sink, block.bytes()) {
            Ok(()) => {}
            Err(Stop::Fault) => return Err(Fault),
            Err(Stop::Record) => return Ok(End::Record),
            Err(Stop::Memory) => return Ok(End::Memory),
        }
    }
}

/// Reads to the end, and answers all records.
fn take_all<A: Answers, S: ByteSource, W: ByteSink>(
    alloc: Global,
    answers: &mut A,
    source: &mut S,
    sink: &mut W,
    pending: &mut PendingOutput,
) -> Result<End, Fault>
    requires partial { partial_of pending.old.cutter.fields ≡ [] }
    requires short { vec_len pending.old.answers < BLOCK_LENGTH }
    ensures end { result ≡ Ok end.Whole → IsAtEnd (S.to_come source.new) }
    ensures taken { result ≡ Ok end.Whole → (first : A) (start : State) →
        IsFresh (WritesRows A.gives pending.old.cutter.format first answers.old) start
        pending.old.cutter pending.old.answers.items (W.taken sink.old) →
        OfRead (S.to_come source.old) (S.to_come source.new) (λ bytes. Holds (IsReport
        (WritesRows A.gives pending.old.cutter.format first answers.new)
        pending.old.cutter.format.delimiter start bytes) pending.new.answers.items
        (W.taken sink.old) (W.taken sink.new)) }
    ensures input { result ≡ Ok end.Input → (first : A) (start : State) →
        IsFresh (WritesRows A.gives pending.old.cutter.format first answers.old) start
        pending.old.cutter pending.old.answers.items (W.taken sink.old) →
        OfRead (S.to_come source.old) (S.to_come source.new) (λ bytes. Holds (IsReportOnEnded
        (WritesRows A.gives pending.old.cutter.format first answers.new)
        pending.old.cutter.format.delimiter start bytes) pending.new.answers.items
        (W.taken sink.old) (W.taken sink.new)) }
    ensures cause { result ≡ Ok end.Input → (S.faults source.new ≡ S.faults source.old + 1) ⊎
        OfRead (S.to_come source.old) (S.to_come source.new) (λ bytes. length bytes ≡ most_bytes) }
    ensures refused { result ≡ Ok end.Record → (first : A) (start : State) →
        IsFresh (WritesRows A.gives pending.old.cutter.format first answers.old) start
        pending.old.cutter pending.old.answers.items (W.taken sink.old) →
        OfRead (S.to_come source.old) (S.to_come source.new) (λ bytes. Holds (IsReportBefore
        (WritesRows A.gives pending.old.cutter.format first answers.new)
        (A.refuses answers.new) pending.old.cutter.format.delimiter start
        0 pending.new.cutter.feeds_before (S.to_come source.new) bytes) pending.new.answers.items
        (W.taken sink.old) (W.taken sink.new)) }
    ensures memory { result ≡ Ok end.Memory → (first : A) (start : State) →
        IsFresh (WritesRows A.gives pending.old.cutter.format first answers.old) start
        pending.old.cutter pending.old.answers.items (W.taken sink.old) →
        OfRead (S.to_come source.old) (S.to_come source.new) (λ bytes. Holds (IsReportOnFirst
        (WritesSomeRows A.gives pending.old.cutter.format first)
        pending.old.cutter.format.delimiter start bytes) pending.new.answers.items
        (W.taken sink.old) (W.taken sink.new)) }
    ensures quote { result ≡ Ok end.Quote → (first : A) (start : State) (earlier line : ℕ) →
        line ≡ counted (earlier + pending.new.cutter.feeds_to_quote + 1) →
        IsFresh (WritesRows A.gives pending.old.cutter.format first answers.old) start
        pending.old.cutter pending.old.answers.items (W.taken sink.old) →
        OfRead (S.to_come source.old) (S.to_come source.new) (λ bytes. Holds (IsReportBeforeQuote
        (WritesRows A.gives pending.old.cutter.format first answers.new)
        pending.old.cutter.format.delimiter start earlier line bytes)
        pending.new.answers.items (W.taken sink.old) (W.taken sink.new)) }
    ensures quote_end { result ≡ Ok end.Quote → IsAtEnd (S.to_come source.new) }
    ensures no_fault_at_a_quote { result ≡ Ok end.Quote →
        S.faults source.new ≡ S.faults source.old }
    ensures broken { OnErr result ((first : A) (start : State) →
        IsFresh (WritesRows A.gives pending.old.cutter.format first answers.old) start
        pending.old.cutter pending.old.answers.items (W.taken sink.old) →
        OfRead (S.to_come source.old) (S.to_come source.new) (λ bytes. BreaksOff
        (WritesSomeRows A.gives pending.old.cutter.format first)
        pending.old.cutter.format.delimiter start bytes (W.taken sink.old)
        (W.taken sink.new))) }
    ensures no_fault { result ≡ Ok end.Whole → S.faults source.new ≡ S.faults source.old }
    ensures no_fault_at_a_record { result ≡ Ok end.Record →
        S.faults source.new ≡ S.faults source.old }
    ensures no_fault_without_memory { result ≡ Ok end.Memory →
        S.faults source.new ≡ S.faults source.old }
    ensures sink_no_fault { OnOk result (W.faults sink.new ≡ W.faults sink.old) }
    ensures sink_fault { OnErr result (W.faults sink.new ≡ W.faults sink.old + 1) }
{
    match take_blocks(alloc, answers, source, sink, pending) {
        Ok(End::Whole) => {}
        Ok(End::Input) => return Ok(End::Input),
        Ok(End::Record) => return Ok(End::Record),
        Ok(End::Memory) => return Ok(End::Memory),
        Ok(End::Quote) => return Ok(End::Quote),
        Err(_) => return Err(Fault),
    }
    if in_quotes(pending.cutter.place) {
        return Ok(End::Quote);
    }
    match pending.take_last(alloc, answers) {
        Ok(()) => Ok(End::Whole),
        Err(Refusal::Record) => Ok(End::Record),
        Err(Refusal::Memory) => Ok(End::Memory),
    }
}

/// Gives each record of a source back to a sink, unchanged, with the fields of its answer after its
/// own, in the order of the records, unless the record is left out. The source is read in blocks
/// to its end, from this start in front of a record, as the kit's `csv` reads, and records are
/// written as it writes, with this delimiter and line end. What is held in memory are a block, the
/// longest record and its answer: it does not grow with the number of records.
///
/// The sink is flushed at the end, unless it failed before. Errors, and what was written:
///
/// - `Input`: the source failed, or 2^64 - 1 bytes were read. The answers to all records that are
///   ended are written.
/// - `Output`: the sink failed, or took no byte of some. A beginning of the report is written.
/// - `Record`: a record is not answered; the error has the number of line feeds before that record,
///   those of the start among them. The answers to all records before are written.
/// - `Quote`: the source ends between quotes; the error has the line of the one that opened the
///   field, the line feeds of the start counted too. The answers to all records that are ended are
///   written.
/// - `Memory`: there was no room for a record or its answer. The answers to some first records are
///   written, each whole.
pub fn answer_records<A: Answers, S: ByteSource, W: ByteSink>(
    alloc: Global,
    answers: &mut A,
    format: Format,
    start: Start,
    source: &mut S,
    sink: &mut W,
) -> Result<(), RunError>
    ensures end { OnOk result (IsAtEnd (S.to_come source.new)) }
    ensures report { OnOk result (OfRead (S.to_come source.old) (S.to_come source.new)
        (λ bytes. TakesA (IsReport (WritesRows A.gives format answers.old answers.new)
        format.delimiter (state_of start.place) bytes)
        (W.taken sink.old) (W.taken sink.new))) }
    ensures no_fault { OnOk result (S.faults source.new ≡ S.faults source.old) }
    ensures ended { result ≡ Err error.Input →
        OfRead (S.to_come source.old) (S.to_come source.new) (λ bytes. TakesA (IsReportOnEnded
        (WritesRows A.gives format answers.old answers.new)
        format.delimiter (state_of start.place) bytes) (W.taken sink.old)
        (W.taken sink.new)) }
    ensures cause { result ≡ Err error.Input → (S.faults source.new ≡ S.faults source.old + 1) ⊎
        OfRead (S.to_come source.old) (S.to_come source.new) (λ bytes. length bytes ≡ most_bytes) }
    ensures beginning { result ≡ Err error.Output →
        OfRead (S.to_come source.old) (S.to_come source.new) (λ bytes. TakesA (IsBeginning
        (WritesSomeRows A.gives format answers.old)
        format.delimiter (state_of start.place) (S.to_come source.new) bytes)
        (W.taken sink.old) (W.taken sink.new)) }
    ensures before { (feeds : ℕ) → result ≡ Err (error.Record feeds) →
        OfRead (S.to_come source.old) (S.to_come source.new) (λ bytes. TakesA (IsReportBefore
        (WritesRows A.gives format answers.old answers.new)
        (A.refuses answers.new) format.delimiter (state_of start.place)
        start.feeds feeds (S.to_come source.new) bytes) (W.taken sink.old) (W.taken sink.new)) }
    ensures first { result ≡ Err error.Memory →
        OfRead (S.to_come source.old) (S.to_come source.new) (λ bytes. TakesA (IsReportOnFirst
        (WritesSomeRows A.gives format answers.old)
        format.delimiter (state_of start.place) bytes) (W.taken sink.old)
        (W.taken sink.new)) }
    ensures quote { (line : ℕ) → result ≡ Err (error.Quote line) →
        OfRead (S.to_come source.old) (S.to_come source.new) (λ bytes. TakesA (IsReportBeforeQuote
        (WritesRows A.gives format answers.old answers.new)
        format.delimiter (state_of start.place) start.feeds line bytes)
        (W.taken sink.old) (W.taken sink.new)) }
    ensures quote_end { (line : ℕ) → result ≡ Err (error.Quote line) →
        IsAtEnd (S.to_come source.new) }
    ensures no_fault_at_a_quote { (line : ℕ) → result ≡ Err (error.Quote line) →
        S.faults source.new ≡ S.faults source.old }
    ensures no_fault_at_a_record { (feeds : ℕ) → result ≡ Err (error.Record feeds) →
        S.faults source.new ≡ S.faults source.old }
    ensures no_fault_without_memory { result ≡ Err error.Memory →
        S.faults source.new ≡ S.faults source.old }
    ensures sink_faults { W.faults sink.new ≡ W.faults sink.old + sink_faults_of result }
    ensures handed_on { result ≢ Err error.Output → W.unflushed sink.new ≡ 0 }
{
    let mut pending = PendingOutput::new(alloc, format, start.place);
    let Ok(end) = take_all(alloc, answers, source, sink, &mut pending) else {
        return Err(RunError::Output);
    };
    let Ok(()) = write_out(sink, pending.answers.as_slice()) else {
        return Err(RunError::Output);
    };
    match end {
        End::Whole => Ok(()),
        End::Input => Err(RunError::Input),
        End::Record => Err(RunError::Record(
            start.feeds.saturating_add(pending.cutter.feeds_before),
        )),
        End::Quote => Err(RunError::Quote(line_of_quote(start, pending.cutter.feeds_to_quote))),
        End::Memory => Err(RunError::Memory),
    }
}

/// The line of a quote in front of which so many line feeds stand behind a start, counted from 1.
fn line_of_quote(start: Start, feeds: u64) -> u64
    ensures { result ≡ counted (start.feeds + feeds + 1) }
{
    start.feeds.saturating_add(feeds).saturating_add(1)
}
