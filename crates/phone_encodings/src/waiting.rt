//! Bytes that wait.
ghost use Rattle.std.specs.Prelude.{◌≡◌, ◌+◌, ◌-◌, ◌<◌, ◌≤◌, ◌++◌, [], ℕ, List, IfOk, OnOk, OnErr};
ghost use Rattle.std.specs.Prelude.{drop, false, length, take, true};
ghost use Rattle.phone_device.specs.Passing.{IsAtEnd, Passes};

use phone_device::{BLOCK_LENGTH, ByteSource, Fault};
use std::marker::Model;

/// Bytes that wait, in the order in which they came, in room for one block. No call takes memory.
/// Contracts see the bytes.
#[derive(Drop)]
pub(crate) struct Waiting {
    room: [u8; BLOCK_LENGTH],
    passed: usize,
    filled: usize,
}

impl Model for Waiting {
    ghost use Rattle.std.specs.Prelude.{◌≤◌, ◌-◌, ℕ, List, drop, take};

    ghost Value = { List ℕ };

    ghost view = { λ w. take (w.filled - w.passed) (drop w.passed w.room) };

    ghost invariant = { λ w. (w.passed ≤ w.filled) × (w.filled ≤ 8192) };
}

/// Moves the bytes of a room between two places to its front.
fn move_to_front(room: &mut [u8], from: usize, to: usize)
    requires { (from ≤ to) × (to ≤ length room.old) }
    ensures same { take (to - from) room.new ≡ take (to - from) (drop from room.old) }
    ensures room { length room.new ≡ length room.old }
{
    room.rotate_left(from);
}

/// Puts bytes behind those of a room between two places.
fn put(room: &mut [u8], from: usize, to: usize, bytes: &[u8])
    requires { (from ≤ to) × (to + length bytes.now ≤ length room.old) }
    ensures put { take (to + length bytes.now - from) (drop from room.new) ≡
        take (to - from) (drop from room.old) ++ bytes.now }
    ensures room { length room.new ≡ length room.old }
{
    room[to..to + bytes.len()].copy_from_slice(bytes);
}

/// Reads once, behind this place of a room.
fn read_at<S: ByteSource>(source: &mut S, room: &mut [u8], at: usize) -> Result<usize, Fault>
    requires { at ≤ length room.old }
    ensures passes { IfOk result (λ n. (read : List ℕ) × (length read ≡ n) ×
        (take (at + n) room.new ≡ take at room.old ++ read) ×
        Passes (S.to_come source.old) read (S.to_come source.new)) }
    ensures within { IfOk result (λ n. at + n ≤ length room.old) }
    ensures end { IfOk result (λ n. n ≡ 0 → at < length room.old →
        IsAtEnd (S.to_come source.old)) }
    ensures no_fault { OnOk result (S.faults source.new ≡ S.faults source.old) }
    ensures fault { OnErr result (S.faults source.new ≡ S.faults source.old + 1) }
    ensures kept { OnErr result (S.to_come source.new ≡ S.to_come source.old) }
    ensures same { OnErr result (take at room.new ≡ take at room.old) }
    ensures room { length room.new ≡ length room.old }
{
    let n = source.read(&mut room[at..])?;
    Ok(n)
}

impl Waiting {
    /// No bytes.
    pub fn new() -> Waiting
        ensures { result ≡ [] }
    {
        Waiting {
            room: [0; BLOCK_LENGTH],
            passed: 0,
            filled: 0,
        }
    }

    /// The bytes.
    pub fn bytes(&self) -> &[u8]
        ensures { result.now ≡ self.now }
    {
        &self.room[self.passed..self.filled]
    }

    /// Whether there are none.
    pub fn is_empty(&self) -> bool
        ensures none { result ≡ true → self.now ≡ [] }
        ensures some { result ≡ false → ¬ (self.now ≡ []) }
    {
        self.bytes().is_empty()
    }

    /// Leaves out the first n bytes.
    pub fn pass(&mut self, n: usize)
        requires { n ≤ length self.old }
        ensures { self.new ≡ drop n self.old }
    {
        self.passed += n;
    }

    /// Adds bytes at the end, where they fit.
    pub fn push(&mut self, bytes: &[u8]) -> bool
        ensures pushed { result ≡ true → self.new ≡ self.old ++ bytes.now }
        ensures full { result ≡ false → self.new ≡ self.old }
        ensures fits { self.old ≡ [] → length bytes.now ≤ BLOCK_LENGTH → result ≡ true }
    {
        if self.passed == self.filled {
            self.passed = 0;
            self.filled = 0;
        }
        if BLOCK_LENGTH - self.filled < bytes.len() {
            return false;
        }
        put(&mut self.room, self.passed, self.filled, bytes);
        self.filled += bytes.len();
        true
    }

    /// Reads once, and adds the bytes at the end, where there is room. It gives their count.
    pub fn fill<S: ByteSource>(&mut self, source: &mut S) -> Result<usize, Fault>
        ensures passes { IfOk result (λ n. (read : List ℕ) × (length read ≡ n) ×
            (self.new ≡ self.old ++ read) ×
            Passes (S.to_come source.old) read (S.to_come source.new)) }
        ensures end { IfOk result (λ n. n ≡ 0 → length self.old < BLOCK_LENGTH →
            IsAtEnd (S.to_come source.old)) }
        ensures no_fault { OnOk result (S.faults source.new ≡ S.faults source.old) }
        ensures fault { OnErr result (S.faults source.new ≡ S.faults source.old + 1) }
        ensures kept { OnErr result (S.to_come source.new ≡ S.to_come source.old) }
        ensures same { OnErr result (self.new ≡ self.old) }
    {
        move_to_front(&mut self.room, self.passed, self.filled);
        self.filled -= self.passed;
        self.passed = 0;
        let n = read_at(source, &mut self.room, self.filled)?;
        self.filled += n;
        Ok(n)
    }

    /// Gives first bytes, as many as the slice takes, and leaves them out. It gives their count.
    pub fn give(&mut self, to: &mut [u8]) -> usize
        ensures within { result ≤ length to.old }
        ensures given { self.old ≡ take result to.new ++ self.new }
        ensures end { result ≡ 0 → 0 < length to.old → self.old ≡ [] }
    {
        let bytes = self.bytes();
        let n = to.len().min(bytes.len());
        to[..n].copy_from_slice(&bytes[..n]);
        self.pass(n);
        n
    }
}
