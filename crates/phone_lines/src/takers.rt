//! What takes lines, each in its turn.
ghost use Rattle.std.specs.Prelude.{◌≡◌, ◌++◌, ℕ, List, OnOk, OnErr};
ghost use Rattle.phone_lines.specs.Lines.{without_return};

use crate::answers::{Answers, without_return};
use std::alloc::{AllocError, Global};

/// What takes lines, each in its turn, and may keep something from one to the next.
pub trait LineTaker {
    // What may stand in front of an input's answers: what is kept before, the bytes, what is kept
    // then.
    ghost begins: { Self → List ℕ → Self → Type 0 };

    // What may be answered to a line, which is without its end: what is kept before, the line, the
    // bytes, what is kept then.
    ghost gives: { Self → List ℕ → List ℕ → Self → Type 0 };

    /// Begins an input, and puts what stands in front of its answers at their end. Refused only for
    /// memory.
    fn begin(&mut self, alloc: Global, answers: &mut Vec<u8>) -> Result<(), AllocError>
        ensures begun { OnOk result ((head : List ℕ) × begins self.old head self.new ×
            (answers.new.items ≡ answers.old.items ++ head)) };

    /// Takes a line, which is without its end, and puts what it is answered at the end of the
    /// answers: any number of lines, each with its line feed. Refused only for memory.
    fn take(&mut self, alloc: Global, line: &[u8], answers: &mut Vec<u8>) -> Result<(), AllocError>
        ensures taken { OnOk result ((answer : List ℕ) ×
            gives self.old line.now answer self.new ×
            (answers.new.items ≡ answers.old.items ++ answer)) };
}

/// What answers each line by itself, as a taker of lines.
#[derive(Drop)]
pub(crate) struct Each<'a, A> {
    /// What answers.
    pub answers: &'a A,
}

impl<'a, A: Answers> LineTaker for Each<'a, A> {
    ghost use Rattle.phone_lines.specs.Taken.{begins_with_nothing, each_by_itself};

    ghost begins = { begins_with_nothing };

    ghost gives = { each_by_itself (λ e. A.gives e.answers.now) };

    fn begin(&mut self, _alloc: Global, _answers: &mut Vec<u8>) -> Result<(), AllocError> {
        Ok(())
    }

    fn take(
        &mut self,
        alloc: Global,
        line: &[u8],
        answers: &mut Vec<u8>,
    ) -> Result<(), AllocError> {
        let mut answer = self.answers.answer(alloc, line)?;
        answer.push('\n')?;
        answers.extend_from_slice(answer.as_bytes())
    }
}

/// Takes a line, and puts what it is answered at the end of the answers. Refused only for memory;
/// then the answers are as they were. The room serves each line.
pub(crate) fn add_taken<T: LineTaker>(
    alloc: Global,
    taker: &mut T,
    line: &[u8],
    room: &mut Vec<u8>,
    answers: &mut Vec<u8>,
) -> Result<(), AllocError>
    ensures added { OnOk result ((answer : List ℕ) ×
        T.gives taker.old (without_return line.now) answer taker.new ×
        (answers.new.items ≡ answers.old.items ++ answer)) }
    ensures kept { OnErr result (answers.new.items ≡ answers.old.items) }
{
    room.clear();
    taker.take(alloc, without_return(line), room)?;
    answers.extend_from_slice(room.as_slice())
}

/// Begins an input, and puts what stands in front of its answers at their end. Refused only for
/// memory; then the answers are as they were. The room serves each line.
pub(crate) fn add_begun<T: LineTaker>(
    alloc: Global,
    taker: &mut T,
    room: &mut Vec<u8>,
    answers: &mut Vec<u8>,
) -> Result<(), AllocError>
    ensures added { OnOk result ((head : List ℕ) × T.begins taker.old head taker.new ×
        (answers.new.items ≡ answers.old.items ++ head)) }
    ensures kept { OnErr result (answers.new.items ≡ answers.old.items) }
{
    room.clear();
    taker.begin(alloc, room)?;
    answers.extend_from_slice(room.as_slice())
}
