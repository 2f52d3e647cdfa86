//! Bytes that are read from the front.
ghost use Rattle.std.specs.Prelude.{◌≡◌, ◌≤◌, ◌<◌, ◌↔◌, ℕ, List, [], ◌∷◌, ◌++◌, IfOk};
ghost use Rattle.std.specs.Prelude.{IfErr, IsTrue, length};
ghost use Rattle.phone_compact.specs.Forms.{number_written};

use crate::error::NotRead;
use std::marker::Model;

/// The bytes that are still to be read.
#[derive(Drop)]
pub(crate) struct Reader<'a> {
    rest: &'a [u8],
}

impl<'a> Model for Reader<'a> {
    ghost use Rattle.std.specs.Prelude.{ℕ, List};

    ghost Value = { List ℕ };

    ghost view = { λ r. r.rest.now };
}

impl<'a> Reader<'a> {
    /// Reads these bytes.
    pub(crate) fn of(bytes: &'a [u8]) -> Reader<'a>
        ensures { result ≡ bytes.now }
    {
        Reader { rest: bytes }
    }

    /// Whether all has been read.
    pub(crate) fn is_at_end(&self) -> bool
        ensures { IsTrue result ↔ (self.now ≡ []) }
    {
        self.rest.is_empty()
    }

    /// How many bytes are still to be read.
    pub(crate) fn remaining(&self) -> usize
        ensures { result ≡ length self.now }
    {
        self.rest.len()
    }

    /// The next byte.
    pub(crate) fn byte(&mut self) -> Result<u8, NotRead>
        ensures byte { IfOk result (λ b. self.old ≡ b ∷ self.new) }
        ensures none { IfErr result (λ e. self.old ≡ []) }
    {
        let Some((byte, rest)) = self.rest.split_first() else {
            return Err(NotRead::Malformed);
        };
        self.rest = rest;
        Ok(*byte)
    }

    /// The next bytes, as many as these.
    pub(crate) fn bytes(&mut self, count: usize) -> Result<&'a [u8], NotRead>
        ensures bytes { IfOk result (λ bs. self.old ≡ bs.now ++ self.new) }
        ensures count { IfOk result (λ bs. length bs.now ≡ count) }
        ensures few { IfErr result (λ e. length self.old < count) }
    {
        if count > self.rest.len() {
            return Err(NotRead::Malformed);
        }
        let (bytes, rest) = self.rest.split_at(count);
        self.rest = rest;
        Ok(bytes)
    }

    /// The next number, which may not be greater than this one.
    pub(crate) fn number(&mut self, greatest: usize) -> Result<usize, NotRead>
        ensures number { IfOk result (λ n. self.old ≡ number_written n ++ self.new) }
        ensures small { IfOk result (λ n. n ≤ greatest) }
        ensures none { IfErr result (λ e. (n : ℕ) (rest : List ℕ) → n ≤ greatest →
            ¬ (self.old ≡ number_written n ++ rest)) }
    {
        let mut number = 0;
        loop {
            let byte = self.byte()?;
            if usize::from(byte) > greatest - number {
                return Err(NotRead::Malformed);
            }
            number += usize::from(byte);
            if byte < 255 {
                return Ok(number);
            }
        }
    }
}
