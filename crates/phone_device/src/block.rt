//! A block of bytes that is read again and again.
ghost use Rattle.std.specs.Prelude.{◌≡◌, ◌+◌, ◌<◌, ◌≤◌, List, [], length, min, OnOk, OnErr};
ghost use Rattle.phone_device.specs.Passing.{Passes, IsAtEnd};

use crate::{ByteSource, Fault};
use std::marker::Model;

/// The most bytes that a block holds.
pub const BLOCK_LENGTH: usize = 8192;

/// The bytes that one read gave, in room that serves each read. Contracts see the bytes.
#[derive(Drop)]
pub struct Block {
    buffer: [u8; BLOCK_LENGTH],
    filled: usize,
}

impl Model for Block {
    ghost use Rattle.std.specs.Prelude.{◌≤◌, ℕ, List, take};

    ghost Value = { List ℕ };

    ghost view = { λ b. take b.filled b.buffer };

    ghost invariant = { λ b. b.filled ≤ 8192 };
}

impl Block {
    /// An empty block. It takes no memory.
    pub fn new() -> Block
        ensures { result ≡ [] }
    {
        Block {
            buffer: [0; BLOCK_LENGTH],
            filled: 0,
        }
    }

    /// The bytes of the last read.
    pub fn bytes(&self) -> &[u8]
        ensures { result.now ≡ self.now }
    {
        &self.buffer[..self.filled]
    }

    /// Reads once, at most `most` bytes, in place of those that the block held. A block that stays
    /// empty where some were wanted says that none are to come. After a fault it is empty too. It
    /// takes no memory.
    pub fn fill<S: ByteSource>(&mut self, source: &mut S, most: u64) -> Result<(), Fault>
        ensures within { length self.new ≤ min most BLOCK_LENGTH }
        ensures passes { OnOk result
            (Passes (S.to_come source.old) self.new (S.to_come source.new)) }
        ensures end { OnOk result (self.new ≡ [] → 0 < most → IsAtEnd (S.to_come source.old)) }
        ensures no_fault { OnOk result (S.faults source.new ≡ S.faults source.old) }
        ensures fault { OnErr result (S.faults source.new ≡ S.faults source.old + 1) }
        ensures kept { OnErr result (S.to_come source.new ≡ S.to_come source.old) }
        ensures emptied { OnErr result (self.new ≡ []) }
    {
        self.filled = 0;
        let room = usize::try_from(most)
            .unwrap_or(BLOCK_LENGTH)
            .min(BLOCK_LENGTH);
        self.filled = source.read(&mut self.buffer[..room])?;
        Ok(())
    }
}
