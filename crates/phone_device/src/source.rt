//! Sources of bytes, and the reading of all that one has.
ghost use Rattle.std.specs.Prelude.{◌≡◌, ℕ, ◌+◌, ◌<◌, ◌≤◌, List, length, take, Option, IfOk, OnOk};
ghost use Rattle.std.specs.Prelude.{OnErr};
ghost use Rattle.phone_device.specs.Passing.{Passes, PassesSome, IsAll, IsAtEnd};

use crate::{Block, Fault};
use std::alloc::{AllocError, Global};

/// Where bytes come from. A source may tell the bytes that are to come, and its faults are counted.
pub trait ByteSource {
    // The bytes to come, where the source tells them.
    ghost to_come: { Self → Option (List ℕ) };

    // How many calls have failed.
    ghost faults: { Self → ℕ };

    /// Reads once. At `Ok(n)` n bytes passed, and are the first n of the slice; n is at most its
    /// length. A read of 0 bytes into a slice that has room says that none are to come. A call that
    /// fails passes none, and counts as one fault.
    fn read(&mut self, buf: &mut [u8]) -> Result<usize, Fault>
        ensures within { IfOk result (λ n. n ≤ length buf.old) }
        ensures passes { IfOk result (λ n. Passes (to_come self.old) (take n buf.new)
            (to_come self.new)) }
        ensures end { IfOk result (λ n. n ≡ 0 → 0 < length buf.old → IsAtEnd (to_come self.old)) }
        ensures no_fault { OnOk result (faults self.new ≡ faults self.old) }
        ensures fault { OnErr result (faults self.new ≡ faults self.old + 1) }
        ensures kept { OnErr result (to_come self.new ≡ to_come self.old) };
}

/// Why a source was not read to its end.
#[derive(Clone, Copy, PartialEq, Eq, Debug)]
pub enum ReadError {
    /// A read failed.
    Fault,

    /// There was no memory for the bytes.
    Memory,
}

impl From<Fault> for ReadError {
    ghost use Rattle.phone_device.specs.declared.source.ReadError.TheVariants as error;

    ghost from_gives = { λ _ e. e ≡ error.Fault };

    fn from(_fault: Fault) -> ReadError {
        ReadError::Fault
    }
}

impl From<AllocError> for ReadError {
    ghost use Rattle.phone_device.specs.declared.source.ReadError.TheVariants as error;

    ghost from_gives = { λ _ e. e ≡ error.Memory };

    fn from(_refusal: AllocError) -> ReadError {
        ReadError::Memory
    }
}

/// Reads all bytes that are to come, block by block. Errors: `Fault` where a read failed, `Memory`
/// where there was no room for the bytes. At an error some bytes have passed and are lost.
pub fn read_all<S: ByteSource>(alloc: Global, source: &mut S) -> Result<Vec<u8>, ReadError>
    ensures all { IfOk result (λ v. IsAll (S.to_come source.old) v.items) }
    ensures end { OnOk result (IsAtEnd (S.to_come source.new)) }
    ensures no_fault { OnOk result (S.faults source.new ≡ S.faults source.old) }
    ensures fault { result ≡ Err ReadError.Fault → S.faults source.new ≡ S.faults source.old + 1 }
    ensures memory { result ≡ Err ReadError.Memory → S.faults source.new ≡ S.faults source.old }
    ensures lost { OnErr result (PassesSome (S.to_come source.old) (S.to_come source.new)) }
{
    let mut bytes = Vec::new(alloc);
    let mut block = Block::new();
    'blocks: loop {
        block.fill(source, u64::MAX)?;
        if block.bytes().is_empty() {
            return Ok(bytes);
        }
        bytes.extend_from_slice(block.bytes())?;
    }
}
