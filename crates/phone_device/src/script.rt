//! A source that fails where its script says, for tests.
ghost use Rattle.std.specs.Prelude.{◌≡◌, ℕ, ◌+◌, ◌<◌, ◌≤◌, ◌↔◌, List, length, min, take, Some};
ghost use Rattle.std.specs.Prelude.{IsErr, IsTrue, IfOk, OnOk, OnErr};
ghost use Rattle.std.specs.Result.{result_unwrap_or};
ghost use Rattle.phone_device.specs.Passing.{Passes, IsAtEnd};
ghost use Rattle.phone_device.specs.Scripts.{is_at_fault, before_fault, fault_after};

use crate::{ByteSource, Count, Fault};
use std::marker::Model;

/// Where a script fails.
#[derive(Clone, Copy, PartialEq, Eq, Debug)]
pub enum At {
    /// At this call, counted from 0, and at no other.
    Call(usize),

    /// At each read that begins at this byte, counted from 0; a read that begins earlier stops
    /// there.
    Byte(usize),
}

/// A source in memory that gives its bytes as far as it can, and fails at one place. No call takes
/// memory. Contracts see what is left of it.
#[derive(Drop)]
pub struct Script {
    bytes: Vec<u8>,
    passed: usize,
    fault: Option<At>,
    faults: Count,
}

impl Model for Script {
    ghost use Rattle.std.specs.Prelude.{◌≤◌, drop, vec_len};
    ghost use Rattle.phone_device.specs.Scripts.{Scripted};

    ghost Value = { Scripted };

    ghost view = { λ s. record {
      rest = drop s.passed s.bytes.items;
      fault = s.fault;
      faults = s.faults.value;
    } };

    ghost invariant = { λ s. s.passed ≤ vec_len s.bytes };
}

impl Script {
    /// A source of these bytes that fails at this place, or nowhere.
    pub fn new(bytes: Vec<u8>, at: Option<At>) -> Script
        ensures { result ≡ record { rest = bytes.items; fault = at; faults = 0 } }
    {
        Script {
            bytes,
            passed: 0,
            fault: at,
            faults: Count::new(),
        }
    }
}

impl ByteSource for Script {
    ghost use Rattle.std.specs.Prelude.{Some};

    ghost to_come = { λ s. Some s.rest };

    ghost faults = { λ s. s.faults };

    fn read(&mut self, buf: &mut [u8]) -> Result<usize, Fault>
        ensures within { IfOk result (λ n. n ≤ length buf.old) }
        ensures passes { IfOk result (λ n. Passes (Some self.old.rest) (take n buf.new)
            (Some self.new.rest)) }
        ensures end { IfOk result (λ n. n ≡ 0 → 0 < length buf.old → IsAtEnd (Some self.old.rest)) }
        ensures no_fault { OnOk result (self.new.faults ≡ self.old.faults) }
        ensures fault { OnErr result (self.new.faults ≡ self.old.faults + 1) }
        ensures kept { OnErr result (Some self.new.rest ≡ Some self.old.rest) }

        // The script is followed.
        ensures fails { IsErr result ↔ IsTrue (is_at_fault self.old.fault) }
        ensures count { IfOk result (λ n. n ≡
            min (length buf.old) (length (before_fault self.old.fault self.old.rest))) }
        ensures next { self.new.fault ≡ fault_after (result_unwrap_or result 0) self.old.fault }
    {
        let fault = self.fault;
        if is_here(fault) {
            self.fault = after(fault, 0);
            self.faults.tick();
            return Err(Fault);
        }
        let rest = &self.bytes[self.passed..];
        let n = buf.len().min(reach(fault, rest.len()));
        buf[..n].copy_from_slice(&rest[..n]);
        self.passed += n;
        self.fault = after(fault, n);
        Ok(n)
    }
}

/// Whether the next read fails.
fn is_here(fault: Option<At>) -> bool
    ensures { result ≡ is_at_fault fault }
{
    matches!(fault, Some(At::Call(0) | At::Byte(0)))
}

/// How many of so many bytes come before the fault.
fn reach(fault: Option<At>, count: usize) -> usize
    ensures { (bytes : List ℕ) → length bytes ≡ count → result ≡ length (before_fault fault bytes) }
{
    match fault {
        Some(At::Byte(n)) => n.min(count),
        _ => count,
    }
}

/// Where it fails, counted from after a read that passed n bytes.
fn after(fault: Option<At>, n: usize) -> Option<At>
    ensures { result ≡ fault_after n fault }
{
    match fault? {
        At::Call(k) => Some(At::Call(k.checked_sub(1)?)),
        At::Byte(at) => Some(At::Byte(at.saturating_sub(n))),
    }
}
