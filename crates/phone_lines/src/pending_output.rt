//! What a run holds: the line that isn't ended yet, and answers that aren't written yet.
ghost use Rattle.std.specs.Prelude.{◌≡◌, ◌+◌, ◌<◌, ◌++◌, ◌∷◌, [], ℕ, List, Option, Err, OnOk};
ghost use Rattle.std.specs.Prelude.{OnErr, IfSome, MatchOption, length, vec_len};
ghost use Rattle.phone_device.specs.Passing.{Holds, Takes, TakesFront};
ghost use Rattle.phone_lines.specs.Faults.{faults_of};
ghost use Rattle.phone_lines.specs.Lines.{IsUnbroken};
ghost use Rattle.phone_lines.specs.Runs.{IsTakenSoFar, Stands};
ghost use Rattle.phone_lines.specs.Taken.{BreaksOff, IsReport, IsReportOnFirst};
ghost use Rattle.phone_lines.specs.declared.pending_output.Refusal.TheVariants as refusal;

use crate::takers::{LineTaker, add_begun, add_taken};
use phone_device::{BLOCK_LENGTH, ByteSink, Fault, hand_on, write_out};
use std::alloc::{AllocError, Global};

/// Why a block was not taken whole.
#[derive(Clone, Copy, PartialEq, Eq, Debug)]
pub(crate) enum Refusal {
    /// The sink failed.
    Fault,
    /// There was no memory for a line or its answer.
    Memory,
}

/// What a run holds.
#[derive(Drop)]
pub(crate) struct PendingOutput {
    /// The bytes of the line that isn't ended yet.
    pub line: Vec<u8>,
    /// Answers that aren't written yet, each whole.
    pub answers: Vec<u8>,
    /// Room for what a line is answered, until the answer is whole.
    room: Vec<u8>,
}

/// What stands before the first line feed, and after it; none where there is no line feed.
fn split_line(bytes: &[u8]) -> Option<(&[u8], &[u8])>
    ensures line { MatchOption result (IsUnbroken bytes.now) (λ r. IsUnbroken r.0.now) }
    ensures cut { IfSome result (λ r. bytes.now ≡ r.0.now ++ 10 ∷ r.1.now) }
    ensures shorter { IfSome result (λ r. length r.1.now < length bytes.now) }
{
    match bytes.iter().position(|byte| *byte == b'\n') {
        Some(at) => Some((&bytes[..at], &bytes[at + 1..])),
        None => None,
    }
}

/// Writes all answers that are held, where the block that was taken isn't full: the next read may
/// wait then, as that of a pipe or a terminal does. At `Err` the sink failed, and has taken a
/// beginning of them.
fn hand_on_short<W: ByteSink>(
    sink: &mut W,
    held: &mut Vec<u8>,
    block_length: usize,
) -> Result<(), Fault>
    requires { vec_len held.old < BLOCK_LENGTH }
    ensures short { OnOk result (vec_len held.new < BLOCK_LENGTH) }
    ensures handed { OnOk result ((written : List ℕ) ×
        (held.old.items ≡ written ++ held.new.items) ×
        Takes (W.taken sink.old) written (W.taken sink.new)) }
    ensures no_fault { OnOk result (W.faults sink.new ≡ W.faults sink.old) }
    ensures front { OnErr result (TakesFront (W.taken sink.old) held.old.items
        (W.taken sink.new)) }
    ensures fault { OnErr result (W.faults sink.new ≡ W.faults sink.old + 1) }
{
    if block_length >= BLOCK_LENGTH {
        return Ok(());
    }
    write_out(sink, held.as_slice())?;
    held.clear();
    Ok(())
}

impl PendingOutput {
    /// Holds nothing yet.
    pub fn new(alloc: Global) -> PendingOutput
        ensures line { result.line.items ≡ [] }
        ensures answers { result.answers.items ≡ [] }
    {
        PendingOutput {
            line: Vec::new(alloc),
            answers: Vec::new(alloc),
            room: Vec::new(alloc),
        }
    }

    /// Begins an input, of which nothing was read, and holds what stands in front of its answers.
    /// Refused by `Fault` where the sink fails, and by `Memory`.
    pub fn take_beginning<T: LineTaker, W: ByteSink>(
        &mut self,
        alloc: Global,
        taker: &mut T,
        sink: &mut W,
    ) -> Result<(), Refusal>
        requires line { self.old.line.items ≡ [] }
        requires nothing { self.old.answers.items ≡ [] }
        ensures begun { OnOk result (Stands T.begins T.gives taker.old [] self.new.line.items
            taker.new self.new.answers.items (W.taken sink.old) (W.taken sink.new)) }
        ensures memory { result ≡ Err refusal.Memory →
            Holds (IsReportOnFirst T.begins T.gives taker.old []) self.new.answers.items
            (W.taken sink.old) (W.taken sink.new) }
        ensures broken { result ≡ Err refusal.Fault → (to_come : Option (List ℕ)) →
            BreaksOff T.begins T.gives taker.old to_come [] (W.taken sink.old)
            (W.taken sink.new) }
        ensures faults { W.faults sink.new ≡ W.faults sink.old + faults_of result }
        ensures short { OnOk result (vec_len self.new.answers < BLOCK_LENGTH) }
    {
        let Ok(()) = add_begun(alloc, taker, &mut self.room, &mut self.answers) else {
            return Err(Refusal::Memory);
        };
        match hand_on(sink, &mut self.answers) {
            Ok(()) => Ok(()),
            Err(_) => Err(Refusal::Fault),
        }
    }

    /// Answers a line, of which nothing is held, where it stands.
    fn take_whole_line<T: LineTaker>(
        &mut self,
        alloc: Global,
        taker: &mut T,
        line: &[u8],
    ) -> Result<(), AllocError>
        requires unbroken { IsUnbroken line.now }
        requires nothing { self.old.line.items ≡ [] }
        ensures taken { OnOk result ((first : T) (bytes : List ℕ) (written : List ℕ) →
            IsTakenSoFar T.begins T.gives first bytes self.old.line.items taker.old
            (written ++ self.old.answers.items) →
            IsTakenSoFar T.begins T.gives first (bytes ++ (line.now ++ 10 ∷ []))
            self.new.line.items taker.new (written ++ self.new.answers.items)) }
        ensures answers_kept { OnErr result (self.new.answers.items ≡ self.old.answers.items) }
    {
        add_taken(alloc, taker, line, &mut self.room, &mut self.answers)?;
        Ok(())
    }

    /// Takes the rest of a line, which a line feed ends, and answers the line. Where this is all of
    /// it, it isn't copied.
    fn take_line<T: LineTaker>(
        &mut self,
        alloc: Global,
        taker: &mut T,
        rest: &[u8],
    ) -> Result<(), AllocError>
        requires { IsUnbroken rest.now }
        ensures taken { OnOk result ((first : T) (bytes : List ℕ) (written : List ℕ) →
            IsTakenSoFar T.begins T.gives first bytes self.old.line.items taker.old
            (written ++ self.old.answers.items) →
            IsTakenSoFar T.begins T.gives first (bytes ++ (rest.now ++ 10 ∷ []))
            self.new.line.items taker.new (written ++ self.new.answers.items)) }
        ensures answers_kept { OnErr result (self.new.answers.items ≡ self.old.answers.items) }
    {
        if self.line.is_empty() {
            return self.take_whole_line(alloc, taker, rest);
        }
        self.line.extend_from_slice(rest)?;
        add_taken(
            alloc,
            taker,
            self.line.as_slice(),
            &mut self.room,
            &mut self.answers,
        )?;
        self.line.clear();
        Ok(())
    }

    /// Takes the lines of a block, one after the other, and holds what follows its last line feed.
    /// Refused by `Fault` where the sink fails, and by `Memory` where there is no memory for a line
    /// or its answer.
    fn take_pieces<T: LineTaker, W: ByteSink>(
        &mut self,
        alloc: Global,
        taker: &mut T,
        sink: &mut W,
        block: &[u8],
    ) -> Result<(), Refusal>
        requires { vec_len self.old.answers < BLOCK_LENGTH }
        ensures taken { OnOk result ((first : T) (bytes : List ℕ) (before : Option (List ℕ)) →
            Stands T.begins T.gives first bytes self.old.line.items taker.old
            self.old.answers.items before (W.taken sink.old) →
            Stands T.begins T.gives first (bytes ++ block.now) self.new.line.items taker.new
            self.new.answers.items before (W.taken sink.new)) }
        ensures memory { result ≡ Err refusal.Memory →
            (first : T) (bytes : List ℕ) (before : Option (List ℕ)) →
            Stands T.begins T.gives first bytes self.old.line.items taker.old
            self.old.answers.items before (W.taken sink.old) →
            Holds (IsReportOnFirst T.begins T.gives first (bytes ++ block.now))
            self.new.answers.items before (W.taken sink.new) }
        ensures broken { result ≡ Err refusal.Fault →
            (first : T) (bytes : List ℕ) (before to_come : Option (List ℕ)) →
            Stands T.begins T.gives first bytes self.old.line.items taker.old
            self.old.answers.items before (W.taken sink.old) →
            BreaksOff T.begins T.gives first to_come (bytes ++ block.now) before
            (W.taken sink.new) }
        ensures faults { W.faults sink.new ≡ W.faults sink.old + faults_of result }
        ensures short { OnOk result (vec_len self.new.answers < BLOCK_LENGTH) }
    {
        let mut rest = block;
        while let Some((line, after)) = split_line(rest) {
            let Ok(()) = self.take_line(alloc, taker, line) else {
                return Err(Refusal::Memory);
            };
            let Ok(()) = hand_on(sink, &mut self.answers) else {
                return Err(Refusal::Fault);
            };
            rest = after;
        }
        match self.line.extend_from_slice(rest) {
            Ok(()) => Ok(()),
            Err(_) => Err(Refusal::Memory),
        }
    }

    /// Takes the lines of a block, as `take_pieces` does. Where the block isn't full, all answers
    /// are written.
    pub fn take_block<T: LineTaker, W: ByteSink>(
        &mut self,
        alloc: Global,
        taker: &mut T,
        sink: &mut W,
        block: &[u8],
    ) -> Result<(), Refusal>
        requires { vec_len self.old.answers < BLOCK_LENGTH }
        ensures taken { OnOk result ((first : T) (bytes : List ℕ) (before : Option (List ℕ)) →
            Stands T.begins T.gives first bytes self.old.line.items taker.old
            self.old.answers.items before (W.taken sink.old) →
            Stands T.begins T.gives first (bytes ++ block.now) self.new.line.items taker.new
            self.new.answers.items before (W.taken sink.new)) }
        ensures memory { result ≡ Err refusal.Memory →
            (first : T) (bytes : List ℕ) (before : Option (List ℕ)) →
            Stands T.begins T.gives first bytes self.old.line.items taker.old
            self.old.answers.items before (W.taken sink.old) →
            Holds (IsReportOnFirst T.begins T.gives first (bytes ++ block.now))
            self.new.answers.items before (W.taken sink.new) }
        ensures broken { result ≡ Err refusal.Fault →
            (first : T) (bytes : List ℕ) (before to_come : Option (List ℕ)) →
            Stands T.begins T.gives first bytes self.old.line.items taker.old
            self.old.answers.items before (W.taken sink.old) →
            BreaksOff T.begins T.gives first to_come (bytes ++ block.now) before
            (W.taken sink.new) }
        ensures faults { W.faults sink.new ≡ W.faults sink.old + faults_of result }
        ensures short { OnOk result (vec_len self.new.answers < BLOCK_LENGTH) }
    {
        self.take_pieces(alloc, taker, sink, block)?;
        match hand_on_short(sink, &mut self.answers, block.len()) {
            Ok(()) => Ok(()),
            Err(_) => Err(Refusal::Fault),
        }
    }

    /// Answers what stands after the last line feed, where it has a byte. Refused only for memory.
    pub fn take_last<T: LineTaker>(
        &mut self,
        alloc: Global,
        taker: &mut T,
    ) -> Result<(), AllocError>
        ensures taken { OnOk result ((first : T) (bytes : List ℕ) (before after : Option (List ℕ)) →
            Stands T.begins T.gives first bytes self.old.line.items taker.old
            self.old.answers.items before after →
            Holds (IsReport T.begins T.gives first bytes taker.new) self.new.answers.items before
            after) }
        ensures kept { OnErr result (self.new.answers.items ≡ self.old.answers.items) }
        ensures line_kept { OnErr result (self.new.line.items ≡ self.old.line.items) }
    {
        let line = self.line.as_slice();
        if line.is_empty() {
            return Ok(());
        }
        add_taken(alloc, taker, line, &mut self.room, &mut self.answers)?;
        Ok(())
    }
}
