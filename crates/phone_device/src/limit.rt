//! A sink that takes so many bytes and no more, for tests.
ghost use Rattle.std.specs.Prelude.{◌≡◌, ◌+◌, ◌-◌, ◌≤◌, ◌↔◌, List, [], length, min, take, Some};
ghost use Rattle.std.specs.Prelude.{IsErr, IsTrue, IfOk, OnOk, OnErr};
ghost use Rattle.std.specs.Result.{result_unwrap_or};
ghost use Rattle.phone_device.specs.Passing.{Takes, faults_of_write};
ghost use Rattle.phone_device.specs.Limits.{is_refused, is_flush_refused};

use crate::{ByteSink, Count, Fault};
use std::alloc::{AllocError, Global};
use std::marker::Model;

/// What a sink does once it has taken as many bytes as it takes.
#[derive(Clone, Copy, PartialEq, Eq, Debug)]
pub enum Then {
    /// Each write fails.
    Fail,

    /// Each write fails, and each flush, also before then.
    FlushFail,

    /// Each write takes no bytes.
    Zero,
}

/// A sink in memory that takes so many bytes, each write as many as it can. No call but `new` takes
/// memory. Contracts see the bytes, the room that is left, what is done then, the faults so far,
/// and how many writes no flush has handed on.
#[derive(Drop)]
pub struct Limit {
    bytes: Vec<u8>,
    left: usize,
    after: Then,
    faults: Count,
    unflushed: Count,
}

impl Model for Limit {
    ghost use Rattle.std.specs.Prelude.{◌+◌, ◌≤◌, vec_len, vec_capacity};
    ghost use Rattle.phone_device.specs.Limits.{Limited};

    ghost Value = { Limited };

    ghost view = { λ s. record {
      taken = s.bytes.items;
      left = s.left;
      after = s.after;
      faults = s.faults.value;
      unflushed = s.unflushed.value;
    } };

    ghost invariant = { λ s. vec_len s.bytes + s.left ≤ vec_capacity s.bytes };
}

impl Limit {
    /// A sink that takes n bytes, and then does what `then` says. It makes room for n bytes at
    /// once; refused only for memory.
    pub fn new(alloc: Global, n: usize, then: Then) -> Result<Limit, AllocError>
        ensures { IfOk result (λ s. s ≡ record {
          taken = [];
          left = n;
          after = then;
          faults = 0;
          unflushed = 0;
        }) }
    {
        Ok(Limit {
            bytes: Vec::with_capacity(alloc, n)?,
            left: n,
            after: then,
            faults: Count::new(),
            unflushed: Count::new(),
        })
    }

    /// The bytes taken so far.
    pub fn bytes(&self) -> &[u8]
        ensures { result.now ≡ self.now.taken }
    {
        self.bytes.as_slice()
    }
}

impl ByteSink for Limit {
    ghost use Rattle.std.specs.Prelude.{Some};

    ghost taken = { λ s. Some s.taken };

    ghost faults = { λ s. s.faults };

    ghost unflushed = { λ s. s.unflushed };

    fn write(&mut self, bytes: &[u8]) -> Result<usize, Fault>
        ensures within { IfOk result (λ n. n ≤ length bytes.now) }
        ensures takes { IfOk result (λ n. Takes (Some self.old.taken) (take n bytes.now)
            (Some self.new.taken)) }
        ensures stalled { IfOk result (λ n. self.new.faults ≡
            self.old.faults + faults_of_write n bytes.now) }
        ensures fault { OnErr result (self.new.faults ≡ self.old.faults + 1) }
        ensures kept { OnErr result (Some self.new.taken ≡ Some self.old.taken) }
        ensures held { self.new.unflushed ≡ self.old.unflushed + 1 }

        // The limit is kept.
        ensures refused { IsErr result ↔ IsTrue (is_refused self.old.left self.old.after) }
        ensures count { IfOk result (λ n. n ≡ min (length bytes.now) self.old.left) }
        ensures left { self.new.left ≡ self.old.left - result_unwrap_or result 0 }
        ensures after { self.new.after ≡ self.old.after }
    {
        self.unflushed.tick();
        let n = bytes.len().min(self.left);
        if is_full(self.left, self.after) {
            self.faults.tick();
            return Err(Fault);
        }
        let Ok(()) = self.bytes.extend_from_slice(&bytes[..n]) else {
            self.faults.tick();
            return Err(Fault);
        };
        self.left -= n;
        if n == 0 && !bytes.is_empty() {
            self.faults.tick();
        }
        Ok(n)
    }

    fn flush(&mut self) -> Result<(), Fault>
        ensures handed_on { OnOk result (self.new.unflushed ≡ 0) }
        ensures no_fault { OnOk result (self.new.faults ≡ self.old.faults) }
        ensures fault { OnErr result (self.new.faults ≡ self.old.faults + 1) }
        ensures kept { Some self.new.taken ≡ Some self.old.taken }

        // It fails under `FlushFail` alone, and changes nothing of the limit.
        ensures refused { IsErr result ↔ IsTrue (is_flush_refused self.old.after) }
        ensures left { self.new.left ≡ self.old.left }
        ensures after { self.new.after ≡ self.old.after }
    {
        if self.after == Then::FlushFail {
            self.faults.tick();
            return Err(Fault);
        }
        self.unflushed = Count::new();
        Ok(())
    }
}

/// Whether a write fails where so much room is left.
fn is_full(left: usize, after: Then) -> bool
    ensures { result ≡ is_refused left after }
{
    left == 0 && after != Then::Zero
}
