//! Readers and writers of std as devices.
ghost use Rattle.std.specs.Prelude.{◌≡◌, ◌+◌, ◌<◌, ◌≤◌, length, take, IfOk, OnOk, OnErr};
ghost use Rattle.std.specs.Io.KnownBytes.{ReadConsumes, WriteAppends, Keeps};
ghost use Rattle.phone_device.specs.Passing.{Passes, IsAtEnd, Takes, faults_of_write, untold};

use crate::{ByteSink, ByteSource, Count, Fault};
use std::io::{Read, Write};

/// A device over a reader or a writer of std. It tells nothing of its bytes. A call that the reader
/// or writer refuses is a fault, one that was interrupted among them: it is not tried again.
#[derive(Drop)]
pub struct Std<D: Drop> {
    /// The reader or writer below.
    pub device: D,
    faults: Count,
    unflushed: Count,
}

impl<D: Drop> Std<D> {
    /// A device over this reader or writer.
    pub fn new(device: D) -> Std<D>
        ensures device { result.device ≡ device }
        ensures faults { result.faults.value ≡ 0 }
        ensures unflushed { result.unflushed.value ≡ 0 }
    {
        Std {
            device,
            faults: Count::new(),
            unflushed: Count::new(),
        }
    }
}

impl<R: Read + Drop> ByteSource for Std<R> {
    ghost use Rattle.phone_device.specs.Passing.{untold};

    ghost to_come = { λ _. untold };

    ghost faults = { λ s. s.faults.value };

    fn read(&mut self, buf: &mut [u8]) -> Result<usize, Fault>
        ensures within { IfOk result (λ n. n ≤ length buf.old) }
        ensures passes { IfOk result (λ n. Passes untold (take n buf.new) untold) }
        ensures end { IfOk result (λ n. n ≡ 0 → 0 < length buf.old → IsAtEnd untold) }
        ensures no_fault { OnOk result (self.new.faults.value ≡ self.old.faults.value) }
        ensures fault { OnErr result (self.new.faults.value ≡ self.old.faults.value + 1) }
        ensures kept { OnErr result (untold ≡ untold) }

        // Where std knows the reader's bytes, they are those that pass.
        ensures reader { ReadConsumes (R.remaining self.old.device)
            (R.remaining self.new.device) result buf.new }
    {
        if let Ok(n) = self.device.read(buf) {
            return Ok(n);
        }
        self.faults.tick();
        Err(Fault)
    }
}

impl<W: Write + Drop> ByteSink for Std<W> {
    ghost use Rattle.phone_device.specs.Passing.{untold};

    ghost taken = { λ _. untold };

    ghost faults = { λ s. s.faults.value };

    ghost unflushed = { λ s. s.unflushed.value };

    fn write(&mut self, bytes: &[u8]) -> Result<usize, Fault>
        ensures within { IfOk result (λ n. n ≤ length bytes.now) }
        ensures takes { IfOk result (λ n. Takes untold (take n bytes.now) untold) }
        ensures stalled { IfOk result (λ n. self.new.faults.value ≡
            self.old.faults.value + faults_of_write n bytes.now) }
        ensures fault { OnErr result (self.new.faults.value ≡ self.old.faults.value + 1) }
        ensures kept { OnErr result (untold ≡ untold) }
        ensures held { self.new.unflushed.value ≡ self.old.unflushed.value + 1 }

        // Where std knows the writer's bytes, it gets those that were taken.
        ensures writer { WriteAppends (W.contents self.old.device)
            (W.contents self.new.device) result bytes.now }
    {
        self.unflushed.tick();
        let Ok(n) = self.device.write(bytes) else {
            self.faults.tick();
            return Err(Fault);
        };
        if n == 0 && !bytes.is_empty() {
            self.faults.tick();
        }
        Ok(n)
    }

    fn flush(&mut self) -> Result<(), Fault>
        ensures handed_on { OnOk result (self.new.unflushed.value ≡ 0) }
        ensures no_fault { OnOk result (self.new.faults.value ≡ self.old.faults.value) }
        ensures fault { OnErr result (self.new.faults.value ≡ self.old.faults.value + 1) }
        ensures kept { untold ≡ untold }
        ensures writer { Keeps (W.contents self.old.device) (W.contents self.new.device) }
    {
        if let Ok(()) = self.device.flush() {
            self.unflushed = Count::new();
            return Ok(());
        }
        self.faults.tick();
        Err(Fault)
    }
}
