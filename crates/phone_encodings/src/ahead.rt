//! Sources that tell, before they are read, whether they begin with the mark of UTF-16.
ghost use Rattle.std.specs.Prelude.{◌≡◌, ◌+◌, ◌++◌, ℕ, List, [], IfOk, OnOk, OnErr, true};
ghost use Rattle.phone_device.specs.Passing.{IsAtEnd, Passes};
ghost use Rattle.phone_encodings.specs.Marks.{Marks, has_mark, is_open};

use crate::waiting::Waiting;
use phone_device::{ByteSource, Fault};
use std::marker::Model;

/// A source that tells whether it begins with the mark of UTF-16.
pub trait Inlet: ByteSource {
    ghost use Rattle.phone_encodings.specs.Marks.{Marks};

    /// Whether the bytes to come begin with that mark, in either order of its bytes. All of them
    /// are still to come then. A source that fails is asked again by the next read.
    fn is_utf_16(&mut self) -> Result<bool, Fault>
        ensures mark { IfOk result (λ is. Marks is (Self.to_come self.old)) }
        ensures to_come { Self.to_come self.new ≡ Self.to_come self.old }
        ensures no_fault { OnOk result (Self.faults self.new ≡ Self.faults self.old) }
        ensures fault { OnErr result (Self.faults self.new ≡ Self.faults self.old + 1) };
}

/// A source of which some bytes may be read ahead: they are the first ones to come. No call takes
/// memory. Contracts see the source below, and these bytes.
#[derive(Drop)]
pub struct Ahead<S: Drop> {
    source: S,
    held: Waiting,
}

impl<S: Drop> Model for Ahead<S> {
    ghost use Rattle.phone_encodings.specs.Marks.{Looking};

    ghost Value = { Looking S };

    ghost view = { λ a. record { source = a.source; held = a.held } };
}

impl<S: Drop> Ahead<S> {
    /// The bytes of another source, of which none is read yet.
    pub fn new(source: S) -> Ahead<S>
        ensures { result ≡ record { source = source; held = [] } }
    {
        let held = Waiting::new();
        Ahead { source, held }
    }
}

/// Whether bytes begin with the mark of UTF-16.
fn has_mark(bytes: &[u8]) -> bool
    ensures { result ≡ has_mark bytes.now }
{
    match bytes {
        [first, second, ..] => {
            (*first == 0xFF && *second == 0xFE) || (*first == 0xFE && *second == 0xFF)
        }
        _ => false,
    }
}

/// Whether more bytes than these first ones have to be known to tell that.
fn is_open(bytes: &[u8]) -> bool
    ensures { result ≡ is_open bytes.now }
{
    match bytes {
        [] => true,
        [first] => *first == 0xFF || *first == 0xFE,
        _ => false,
    }
}

/// Reads until what is held tells whether the mark is there, or the source has ended.
fn fill_up<S: ByteSource>(held: &mut Waiting, source: &mut S) -> Result<(), Fault>
    ensures read { (read : List ℕ) × (held.new ≡ held.old ++ read) ×
        Passes (S.to_come source.old) read (S.to_come source.new) }
    ensures told { OnOk result (is_open held.new ≡ true → IsAtEnd (S.to_come source.new)) }
    ensures no_fault { OnOk result (S.faults source.new ≡ S.faults source.old) }
    ensures fault { OnErr result (S.faults source.new ≡ S.faults source.old + 1) }
{
    while is_open(held.bytes()) {
        if held.fill(source)? == 0 {
            return Ok(());
        }
    }
    Ok(())
}

impl<S: ByteSource + Drop> ByteSource for Ahead<S> {
    ghost use Rattle.phone_encodings.specs.Marks.{held_back};

    ghost to_come = { λ a. held_back a.held (S.to_come a.source) };

    ghost faults = { λ a. S.faults a.source };

    fn read(&mut self, buf: &mut [u8]) -> Result<usize, Fault> {
        if self.held.is_empty() {
            return self.source.read(buf);
        }
        Ok(self.held.give(buf))
    }
}

impl<S: ByteSource + Drop> Inlet for Ahead<S> {
    fn is_utf_16(&mut self) -> Result<bool, Fault> {
        fill_up(&mut self.held, &mut self.source)?;
        Ok(has_mark(self.held.bytes()))
    }
}
