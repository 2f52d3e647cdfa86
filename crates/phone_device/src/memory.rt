//! Devices in memory, which tell their bytes.
ghost use Rattle.std.specs.Prelude.{◌≡◌, ◌+◌, ◌≤◌, [], length, take, Some, IsOk, IfOk, OnOk, OnErr};
ghost use Rattle.phone_device.specs.Passing.{Takes, faults_of_write};

use crate::{ByteSink, ByteSource, Count, Fault};
use std::alloc::Global;
use std::marker::Model;

/// A source over bytes in memory. It never fails. Contracts see the bytes to come.
#[derive(Drop)]
pub struct MemorySource<'a> {
    rest: &'a [u8],
}

impl<'a> Model for MemorySource<'a> {
    ghost use Rattle.std.specs.Prelude.{ℕ, List};

    ghost Value = { List ℕ };

    ghost view = { λ s. s.rest.now };
}

impl<'a> MemorySource<'a> {
    /// A source of these bytes.
    pub fn new(bytes: &'a [u8]) -> MemorySource<'a>
        ensures { result ≡ bytes.now }
    {
        MemorySource { rest: bytes }
    }
}

impl<'a> ByteSource for MemorySource<'a> {
    ghost use Rattle.std.specs.Prelude.{Some};

    ghost to_come = { λ s. Some s };

    ghost faults = { λ _. 0 };

    // It never fails: that would be a fault.
    fn read(&mut self, buf: &mut [u8]) -> Result<usize, Fault> {
        let n = buf.len().min(self.rest.len());
        let (front, back) = self.rest.split_at(n);
        buf[..n].copy_from_slice(front);
        self.rest = back;
        Ok(n)
    }
}

/// A sink that keeps its bytes in memory. Each write takes all its bytes, or fails for want of
/// memory. Contracts see the bytes taken, the faults, and how many writes no flush has handed on.
#[derive(Drop)]
pub struct MemorySink {
    bytes: Vec<u8>,
    faults: Count,
    unflushed: Count,
}

impl Model for MemorySink {
    ghost use Rattle.phone_device.specs.Kept.{Kept};

    ghost Value = { Kept };

    ghost view = { λ s. record {
      taken = s.bytes.items;
      faults = s.faults.value;
      unflushed = s.unflushed.value;
    } };
}

impl MemorySink {
    /// A sink that has taken nothing yet. It takes no memory.
    pub fn new(alloc: Global) -> MemorySink
        ensures { result ≡ record { taken = []; faults = 0; unflushed = 0 } }
    {
        MemorySink {
            bytes: Vec::new(alloc),
            faults: Count::new(),
            unflushed: Count::new(),
        }
    }

    /// The bytes taken so far.
    pub fn bytes(&self) -> &[u8]
        ensures { result.now ≡ self.now.taken }
    {
        self.bytes.as_slice()
    }
}

impl ByteSink for MemorySink {
    ghost use Rattle.std.specs.Prelude.{Some};

    ghost taken = { λ s. Some s.taken };

    ghost faults = { λ s. s.faults };

    ghost unflushed = { λ s. s.unflushed };

    fn write(&mut self, bytes: &[u8]) -> Result<usize, Fault>
        ensures within { IfOk result (λ n. n ≤ length bytes.now) }
        ensures takes { IfOk result (λ n. Takes (Some self.old.taken) (take n bytes.now)
            (Some self.new.taken)) }
        ensures stalled { IfOk result (λ n. self.new.faults ≡
            self.old.faults + faults_of_write n bytes.now) }
        ensures fault { OnErr result (self.new.faults ≡ self.old.faults + 1) }
        ensures kept { OnErr result (Some self.new.taken ≡ Some self.old.taken) }
        ensures held { self.new.unflushed ≡ self.old.unflushed + 1 }

        // No byte is left over.
        ensures all { IfOk result (λ n. n ≡ length bytes.now) }
    {
        self.unflushed.tick();
        if let Ok(()) = self.bytes.extend_from_slice(bytes) {
            return Ok(bytes.len());
        }
        self.faults.tick();
        Err(Fault)
    }

    fn flush(&mut self) -> Result<(), Fault>
        ensures handed_on { OnOk result (self.new.unflushed ≡ 0) }
        ensures no_fault { OnOk result (self.new.faults ≡ self.old.faults) }
        ensures fault { OnErr result (self.new.faults ≡ self.old.faults + 1) }
        ensures kept { Some self.new.taken ≡ Some self.old.taken }
        ensures never_fails { IsOk result }
    {
        self.unflushed = Count::new();
        Ok(())
    }
}
