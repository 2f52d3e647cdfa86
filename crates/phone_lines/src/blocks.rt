//! The run over all lines.
ghost use Rattle.std.specs.Prelude.{◌≡◌, ◌<◌, List, ℕ, [], Err, IfOk, OnErr, Option, vec_len};
ghost use Rattle.phone_lines.specs.Ends.{Ends, seen};
ghost use Rattle.phone_lines.specs.Faults.{number_of};
ghost use Rattle.phone_lines.specs.Runs.{Halts, Stands};
ghost use Rattle.phone_lines.specs.TakenEnds.{EndsBy};

use crate::answers::Answers;
use crate::pending_output::{PendingOutput, Refusal};
use crate::takers::{Each, LineTaker};
use phone_device::{BLOCK_LENGTH, Block, ByteSink, ByteSource, Fault, write_out};
use std::alloc::Global;

/// Why a run ended before all lines were answered.
#[derive(Clone, Copy, PartialEq, Eq, Debug)]
pub enum RunError {
    /// The source failed, or gave 2^64 - 1 bytes.
    Input,

    /// The sink failed, or took no byte of some.
    Output,

    /// There was no memory for a line or its answer.
    Memory,
}

impl RunError {
    /// Which one it is: 1 the input, 2 the output, 3 memory.
    pub fn number(self) -> u8
        ensures { result ≡ number_of self }
    {
        match self {
            RunError::Input => 1,
            RunError::Output => 2,
            RunError::Memory => 3,
        }
    }
}

/// Reads all blocks, and takes all lines. Returns how the run ends, once the answers that are still
/// held are written; an error where the sink fails earlier.
fn take_blocks<T: LineTaker, S: ByteSource, W: ByteSink>(
    alloc: Global,
    taker: &mut T,
    source: &mut S,
    sink: &mut W,
    pending: &mut PendingOutput,
) -> Result<Result<(), RunError>, Fault>
    requires { vec_len pending.old.answers < BLOCK_LENGTH }
    ensures halts { IfOk result (λ end. (first : T) (before : Option (List ℕ)) (unflushed : ℕ) →
        Stands T.begins T.gives first [] pending.old.line.items taker.old pending.old.answers.items
        before (W.taken sink.old) → Halts T.begins T.gives first
        (seen (S.to_come source.old) (S.faults source.old) before (W.faults sink.old) unflushed)
        (seen (S.to_come source.new) (S.faults source.new) (W.taken sink.new)
        (W.faults sink.new) (W.unflushed sink.new))
        pending.new.answers.items taker.new end) }
    ensures broken { OnErr result ((first : T) (before : Option (List ℕ)) (unflushed : ℕ) →
        Stands T.begins T.gives first [] pending.old.line.items taker.old pending.old.answers.items
        before (W.taken sink.old) → EndsBy T.begins T.gives first
        (seen (S.to_come source.old) (S.faults source.old) before (W.faults sink.old) unflushed)
        (seen (S.to_come source.new) (S.faults source.new) (W.taken sink.new)
        (W.faults sink.new) (W.unflushed sink.new))
        taker.new (Err RunError.Output)) }
{
    let mut block = Block::new();
    let mut read: u64 = 0;
    'blocks: loop {
        if read == u64::MAX {
            return Ok(Err(RunError::Input));
        }
        let Ok(()) = block.fill(source, u64::MAX - read) else {
            return Ok(Err(RunError::Input));
        };
        let bytes = block.bytes();
        if bytes.is_empty() {
            return match pending.take_last(alloc, taker) {
                Ok(()) => Ok(Ok(())),
                Err(_) => Ok(Err(RunError::Memory)),
            };
        }
        read += bytes.len() as u64;
        match pending.take_block(alloc, taker, sink, bytes) {
            Ok(()) => {}
            Err(Refusal::Fault) => return Err(Fault),
            Err(Refusal::Memory) => return Ok(Err(RunError::Memory)),
        }
    }
}

/// Begins an input, reads all its blocks, and takes all its lines. Returns how the run ends, once
/// the answers that are still held are written; an error where the sink fails earlier.
fn take_all<T: LineTaker, S: ByteSource, W: ByteSink>(
    alloc: Global,
    taker: &mut T,
    source: &mut S,
    sink: &mut W,
    pending: &mut PendingOutput,
) -> Result<Result<(), RunError>, Fault>
    requires line { pending.old.line.items ≡ [] }
    requires answers { pending.old.answers.items ≡ [] }
    ensures halts { IfOk result (λ end. Halts T.begins T.gives taker.old
        (seen (S.to_come source.old) (S.faults source.old) (W.taken sink.old)
        (W.faults sink.old) (W.unflushed sink.old))
        (seen (S.to_come source.new) (S.faults source.new) (W.taken sink.new)
        (W.faults sink.new) (W.unflushed sink.new))
        pending.new.answers.items taker.new end) }
    ensures broken { OnErr result (EndsBy T.begins T.gives taker.old
        (seen (S.to_come source.old) (S.faults source.old) (W.taken sink.old)
        (W.faults sink.old) (W.unflushed sink.old))
        (seen (S.to_come source.new) (S.faults source.new) (W.taken sink.new)
        (W.faults sink.new) (W.unflushed sink.new))
        taker.new (Err RunError.Output)) }
{
    match pending.take_beginning(alloc, taker, sink) {
        Ok(()) => take_blocks(alloc, taker, source, sink, pending),
        Err(Refusal::Fault) => Err(Fault),
        Err(Refusal::Memory) => Ok(Err(RunError::Memory)),
    }
}

/// Takes each line of a source in its turn, and writes what each is answered to a sink. What the
/// taker puts in front of an input's answers is written first. The source is read in blocks to its
/// end, and cut at each line feed; what stands after the last one is a line where it has a byte.
/// One carriage return at a line's end is dropped. Where a block isn't full, the answers to its
/// lines are handed on before the next one is read. What is held in memory are a block, the longest
/// line and its answer, and what the taker keeps: the rest does not grow with the number of lines.
///
/// The sink is flushed at the end, unless it failed before. Errors, and what was written:
///
/// - `Input`: the source failed, or 2^64 - 1 bytes were read. The answers to all lines that a line
///   feed ended are written.
/// - `Output`: the sink failed, or took no byte of some. The answers to some first lines are
///   written, each whole, then a beginning of the next answer, and nothing of a later answer. The
///   bytes after the last line feed count as a line only if the source was at its end.
/// - `Memory`: there was no room for a line or its answer. The answers to some first lines are
///   written, each whole.
pub fn take_lines<T: LineTaker, S: ByteSource, W: ByteSink>(
    alloc: Global,
    taker: &mut T,
    source: &mut S,
    sink: &mut W,
) -> Result<(), RunError>
    ensures ends { EndsBy T.begins T.gives taker.old
        (seen (S.to_come source.old) (S.faults source.old) (W.taken sink.old)
        (W.faults sink.old) (W.unflushed sink.old))
        (seen (S.to_come source.new) (S.faults source.new) (W.taken sink.new)
        (W.faults sink.new) (W.unflushed sink.new))
        taker.new result }
{
    let mut pending = PendingOutput::new(alloc);
    let Ok(end) = take_all(alloc, taker, source, sink, &mut pending) else {
        return Err(RunError::Output);
    };
    let Ok(()) = write_out(sink, pending.answers.as_slice()) else {
        return Err(RunError::Output);
    };
    end
}

/// Answers each line of a source by itself, by a line to a sink, in the order of the lines: the run
/// of `take_lines`, in which nothing is kept from line to line. Each answer is ended by a line
/// feed. What is held in memory does not grow with the number of lines.
///
/// The sink is flushed at the end, unless it failed before. The errors are those of `take_lines`,
/// and what was written then, too.
pub fn answer_lines<A: Answers, S: ByteSource, W: ByteSink>(
    alloc: Global,
    answers: &A,
    source: &mut S,
    sink: &mut W,
) -> Result<(), RunError>
    ensures ends { Ends (A.gives answers.now)
        (seen (S.to_come source.old) (S.faults source.old) (W.taken sink.old)
        (W.faults sink.old) (W.unflushed sink.old))
        (seen (S.to_come source.new) (S.faults source.new) (W.taken sink.new)
        (W.faults sink.new) (W.unflushed sink.new))
        result }
{
    take_lines(alloc, &mut Each { answers }, source, sink)
}
