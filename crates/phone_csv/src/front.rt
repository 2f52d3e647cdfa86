//! The beginning of a source, up to the end of its first record.
ghost use Rattle.std.specs.Prelude.{◌≡◌, ◌+◌, ◌⊎◌, [], ◌++◌, ◌∷◌, ℕ, List, OnOk, OnErr, IfOk};
ghost use Rattle.std.specs.Prelude.{IfSome, IsNone, true, false, length, Ok, Err};
ghost use Rattle.csv.specs.Records.{fields_of, partial_of};
ghost use Rattle.phone_device.specs.Passing.{IsAtEnd, Passes};
ghost use Rattle.phone_csv.specs.Firsts.{EndsNoFirst, IsFront, IsHead, holds_mark, mark_after};
ghost use Rattle.phone_csv.specs.Formats.{state_of};
ghost use Rattle.phone_csv.specs.Runs.{OfRead, most_bytes};
ghost use Rattle.phone_csv.specs.declared.first.FirstError.TheVariants as error;

use crate::cutter::Cutter;
use crate::first::FirstError;
use crate::format::format_after;
use crate::machine::Place;
use phone_device::{ByteSource, Fault};
use std::alloc::{AllocError, Global};

/// How much of a byte-order mark the bytes so far are.
#[derive(Clone, Copy, PartialEq, Eq, Debug)]
pub enum Mark {
    /// No byte was read yet.
    Start,
    /// The first one of its three bytes.
    One,
    /// Two of them.
    Two,
    /// The whole mark.
    Whole,
    /// The mark, and more behind it.
    Behind,
    /// Bytes that are no mark, nor the beginning of one.
    Past,
}

/// The same after one more byte.
fn mark_after(mark: Mark, byte: u8) -> Mark
    ensures { result ≡ mark_after mark byte }
{
    match mark {
        Mark::Start if byte == 0xEF => Mark::One,
        Mark::One if byte == 0xBB => Mark::Two,
        Mark::Two if byte == 0xBF => Mark::Whole,
        Mark::Whole | Mark::Behind => Mark::Behind,
        Mark::Start | Mark::One | Mark::Two | Mark::Past => Mark::Past,
    }
}

/// Whether the bytes so far begin with a whole byte-order mark.
pub(crate) fn holds_mark(mark: Mark) -> bool
    ensures { result ≡ holds_mark mark }
{
    match mark {
        Mark::Whole | Mark::Behind => true,
        Mark::Start | Mark::One | Mark::Two | Mark::Past => false,
    }
}

/// One byte of a source, where one is to come.
fn next_byte<S: ByteSource>(source: &mut S) -> Result<Option<u8>, Fault>
    ensures passes { IfOk result (λ next. IfSome next (λ byte.
        Passes (S.to_come source.old) (byte ∷ []) (S.to_come source.new))) }
    ensures nothing { IfOk result (λ next. IsNone next →
        Passes (S.to_come source.old) [] (S.to_come source.new)) }
    ensures end { IfOk result (λ next. IsNone next → IsAtEnd (S.to_come source.new)) }
    ensures no_fault { OnOk result (S.faults source.new ≡ S.faults source.old) }
    ensures fault { OnErr result (S.faults source.new ≡ S.faults source.old + 1) }
    ensures kept { OnErr result (S.to_come source.new ≡ S.to_come source.old) }
{
    let mut room = [0; 1];
    let read = source.read(&mut room)?;
    if read == 0 {
        return Ok(None);
    }
    Ok(Some(room[0]))
}

/// The beginning of a source, up to the end of its first record.
#[derive(Drop)]
pub(crate) struct Front {
    /// The record.
    pub cutter: Cutter,
    /// How much of a byte-order mark was read.
    pub mark: Mark,
}

impl Front {
    /// Nothing was read yet.
    pub fn new(alloc: Global, delimiter: u8) -> Front
        ensures front { IsFront result.mark [] result.cutter }
        ensures delimiter { result.cutter.format.delimiter ≡ delimiter }
        ensures partial { partial_of result.cutter.fields ≡ [] }
    {
        Front {
            cutter: Cutter::new(alloc, format_after(delimiter, None), Place::StartRecord),
            mark: Mark::Start,
        }
    }

    /// Takes one more byte, and says whether it ended the record. Refused only for memory.
    fn take(&mut self, byte: u8) -> Result<bool, AllocError>
        requires { partial_of self.old.cutter.fields ≡ [] }
        ensures partial { OnOk result (partial_of self.new.cutter.fields ≡ []) }
        ensures format { self.new.cutter.format ≡ self.old.cutter.format }
        ensures grown { IfOk result (λ ended. ended ≡ false → (bytes : List ℕ) →
            IsFront self.old.mark bytes self.old.cutter →
            IsFront self.new.mark (bytes ++ byte ∷ []) self.new.cutter) }
        ensures ended { IfOk result (λ ended. ended ≡ true → (bytes : List ℕ) →
            IsFront self.old.mark bytes self.old.cutter →
            IsHead self.old.cutter.format.delimiter (bytes ++ byte ∷ [])
            (fields_of self.new.cutter.fields) (state_of self.new.cutter.place)
            self.new.cutter.feeds (holds_mark self.new.mark)) }
    {
        let ended = self.cutter.take(byte)?;
        self.mark = mark_after(self.mark, byte);
        if self.mark == Mark::Whole {
            self.cutter.begin_again();
        }
        Ok(ended)
    }

    /// Reads to the end of the record, or of the source, and says whether the record is ended.
    pub fn read<S: ByteSource>(&mut self, source: &mut S) -> Result<bool, FirstError>
        requires partial { partial_of self.old.cutter.fields ≡ [] }
        requires front { IsFront self.old.mark [] self.old.cutter }
        ensures partial { OnOk result (partial_of self.new.cutter.fields ≡ []) }
        ensures format { OnOk result (self.new.cutter.format ≡ self.old.cutter.format) }
        ensures ended { result ≡ Ok true →
            OfRead (S.to_come source.old) (S.to_come source.new) (λ bytes.
            IsHead self.old.cutter.format.delimiter bytes (fields_of self.new.cutter.fields)
            (state_of self.new.cutter.place) self.new.cutter.feeds
            (holds_mark self.new.mark)) }
        ensures front { result ≡ Ok false →
            OfRead (S.to_come source.old) (S.to_come source.new) (λ bytes.
            IsFront self.new.mark bytes self.new.cutter) }
        ensures end { result ≡ Ok false → IsAtEnd (S.to_come source.new) }
        ensures no_fault { OnOk result (S.faults source.new ≡ S.faults source.old) }
        ensures not_absent { ¬ (result ≡ Err error.Absent) }
        ensures not_quote { (line : ℕ) → ¬ (result ≡ Err (error.Quote line)) }
        ensures unended { OnErr result (OfRead (S.to_come source.old) (S.to_come source.new)
            (EndsNoFirst self.old.cutter.format.delimiter)) }
        ensures cause { result ≡ Err error.Input →
            (S.faults source.new ≡ S.faults source.old + 1) ⊎
            OfRead (S.to_come source.old) (S.to_come source.new)
            (λ bytes. length bytes ≡ most_bytes) }
        ensures no_fault_without_memory { result ≡ Err error.Memory →
            S.faults source.new ≡ S.faults source.old }
    {
        for _ in 0..u64::MAX {
            let Ok(next) = next_byte(source) else {
                return Err(FirstError::Input);
            };
            let Some(byte) = next else {
                return Ok(false);
            };
            match self.take(byte) {
                Ok(false) => {}
                Ok(true) => return Ok(true),
                Err(_) => return Err(FirstError::Memory),
            }
        }
        Err(FirstError::Input)
    }
}
