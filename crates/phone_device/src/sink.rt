//! Sinks of bytes, and the writing of all bytes of a slice.
ghost use Rattle.std.specs.Prelude.{◌≡◌, ℕ, ◌+◌, ◌<◌, ◌≤◌, ◌++◌, List, length, take, Option, IfOk};
ghost use Rattle.std.specs.Prelude.{OnErr, OnOk, vec_len};
ghost use Rattle.phone_device.specs.Passing.{Takes, TakesFront, faults_of_write};

use crate::{BLOCK_LENGTH, Fault};

/// Where bytes go. A sink may tell the bytes that it has taken. Its faults are counted, and the
/// writes that no flush has handed on.
pub trait ByteSink {
    // The bytes taken so far, where the sink tells them.
    ghost taken: { Self → Option (List ℕ) };

    // How many calls have failed.
    ghost faults: { Self → ℕ };

    // How many writes came after the last flush that succeeded, or after the beginning.
    ghost unflushed: { Self → ℕ };

    /// Writes once. At `Ok(n)` the first n bytes of the slice were taken; n is at most its length.
    /// A call that fails takes no byte and counts as one fault; so does a call that takes 0 bytes
    /// of a slice that has some. The sink may hold back what it took until a flush.
    fn write(&mut self, bytes: &[u8]) -> Result<usize, Fault>
        ensures within { IfOk result (λ n. n ≤ length bytes.now) }
        ensures takes { IfOk result (λ n. Takes (taken self.old) (take n bytes.now)
            (taken self.new)) }
        ensures stalled { IfOk result (λ n. faults self.new ≡
            faults self.old + faults_of_write n bytes.now) }
        ensures fault { OnErr result (faults self.new ≡ faults self.old + 1) }
        ensures kept { OnErr result (taken self.new ≡ taken self.old) }
        ensures held { unflushed self.new ≡ unflushed self.old + 1 };

    /// Hands on what the sink holds back. A call that fails counts as one fault; the bytes taken
    /// stay.
    fn flush(&mut self) -> Result<(), Fault>
        ensures handed_on { OnOk result (unflushed self.new ≡ 0) }
        ensures no_fault { OnOk result (faults self.new ≡ faults self.old) }
        ensures fault { OnErr result (faults self.new ≡ faults self.old + 1) }
        ensures kept { taken self.new ≡ taken self.old };
}

/// Writes all bytes of a slice, by as many writes as the sink needs. At `Err` one write failed or
/// took no byte, and the sink has taken a beginning of the bytes. The call takes no memory itself.
pub fn write_all<S: ByteSink>(sink: &mut S, bytes: &[u8]) -> Result<(), Fault>
    ensures all { OnOk result (Takes (S.taken sink.old) bytes.now (S.taken sink.new)) }
    ensures no_fault { OnOk result (S.faults sink.new ≡ S.faults sink.old) }
    ensures beginning { OnErr result (TakesFront (S.taken sink.old) bytes.now (S.taken sink.new)) }
    ensures fault { OnErr result (S.faults sink.new ≡ S.faults sink.old + 1) }
{
    let mut rest = bytes;
    while !rest.is_empty() {
        let n = sink.write(rest)?;
        if n == 0 {
            return Err(Fault);
        }
        rest = rest.split_at(n).1;
    }
    Ok(())
}

/// Writes the bytes that are held, once they fill a block; none are held then. At `Err` the sink
/// failed, and has taken a beginning of them.
pub fn hand_on<S: ByteSink>(sink: &mut S, held: &mut Vec<u8>) -> Result<(), Fault>
    ensures short { OnOk result (vec_len held.new < BLOCK_LENGTH) }
    ensures handed { OnOk result ((written : List ℕ) ×
        (held.old.items ≡ written ++ held.new.items) ×
        Takes (S.taken sink.old) written (S.taken sink.new)) }
    ensures no_fault { OnOk result (S.faults sink.new ≡ S.faults sink.old) }
    ensures front { OnErr result (TakesFront (S.taken sink.old) held.old.items
        (S.taken sink.new)) }
    ensures fault { OnErr result (S.faults sink.new ≡ S.faults sink.old + 1) }
{
    if held.len() < BLOCK_LENGTH {
        return Ok(());
    }
    write_all(sink, held.as_slice())?;
    held.clear();
    Ok(())
}

/// Writes all bytes of a slice, and has the sink hand on what it holds back. At `Err` the sink
/// failed, and has taken a beginning of the bytes.
pub fn write_out<S: ByteSink>(sink: &mut S, bytes: &[u8]) -> Result<(), Fault>
    ensures all { OnOk result (Takes (S.taken sink.old) bytes.now (S.taken sink.new)) }
    ensures handed_on { OnOk result (S.unflushed sink.new ≡ 0) }
    ensures no_fault { OnOk result (S.faults sink.new ≡ S.faults sink.old) }
    ensures front { OnErr result (TakesFront (S.taken sink.old) bytes.now (S.taken sink.new)) }
    ensures fault { OnErr result (S.faults sink.new ≡ S.faults sink.old + 1) }
{
    write_all(sink, bytes)?;
    sink.flush()
}
