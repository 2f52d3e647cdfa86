//! Columns of texts, as they are given.
ghost use Rattle.std.specs.Prelude.{◌≡◌, ◌↔◌, ◌+◌, ◌<◌, ◌≤◌, IfSome, IsSome, None, get_or};
ghost use Rattle.std.specs.Prelude.{length, slice_range, true};
ghost use Rattle.std.specs.Option.{option_copied};
ghost use Rattle.phone_arrow.specs.Texts.{are_ascending, has_flags, is_column, texts_in};

use crate::bits::is_set;
use std::marker::Model;

/// Texts that stand side by side in bytes, each between two neighbours of the offsets, and of which
/// a bitmap may say which are there. Contracts see the texts, none for one that isn't there.
#[derive(Drop)]
pub struct Texts<'a> {
    offsets: &'a [u64],
    bytes: &'a [u8],
    bits: &'a [u8],
    first: usize,
}

impl<'a> Model for Texts<'a> {
    ghost use Rattle.std.specs.Prelude.{◌≡◌, ℕ, List, Option, true};
    ghost use Rattle.phone_arrow.specs.Texts.{is_column, texts_in};

    ghost Value = { List (Option (List ℕ)) };

    ghost view = { λ t. texts_in t.offsets.now t.bytes.now t.bits.now t.first };

    ghost invariant = { λ t. is_column t.offsets.now t.bytes.now t.bits.now t.first ≡ true };
}

impl<'a> Texts<'a> {
    /// The texts of a column in Arrow's layout: one less than there are offsets. The bitmap may
    /// have no byte where each text is there; else the flag of the first text is at this place of
    /// it. None exactly where an offset is below the one before it or past the bytes, or where the
    /// bitmap lacks a text's flag.
    pub fn new(
        offsets: &'a [u64],
        bytes: &'a [u8],
        bits: &'a [u8],
        first: usize,
    ) -> Option<Texts<'a>>
        ensures texts { IfSome result (λ t. t ≡ texts_in offsets.now bytes.now bits.now first) }
        ensures some { IsSome result ↔
            (is_column offsets.now bytes.now bits.now first ≡ true) }
    {
        let count = first.checked_add(offsets.len().saturating_sub(1))?;
        if are_ascending(offsets, bytes.len()) && has_flags(bits, count) {
            Some(Texts {
                offsets,
                bytes,
                bits,
                first,
            })
        } else {
            None
        }
    }

    /// How many texts there are, with those that aren't there.
    pub fn len(&self) -> usize
        ensures { result ≡ length self.now }
    {
        self.offsets.len().saturating_sub(1)
    }

    /// The text at a place, counted from 0; none where it isn't there, and past the last.
    pub fn get(&self, at: usize) -> Option<&'a [u8]>
        ensures { option_copied result ≡ get_or self.now at None }
    {
        if at >= self.offsets.len().saturating_sub(1) {
            return None;
        }
        if is_set(self.bits, self.first + at) {
            Some(piece(self.offsets, self.bytes, at))
        } else {
            None
        }
    }
}

/// What stands between two neighbouring offsets.
fn piece<'a>(offsets: &[u64], bytes: &'a [u8], at: usize) -> &'a [u8]
    requires within { at + 1 < length offsets.now }
    requires ascending { are_ascending 0 offsets.now (length bytes.now) ≡ true }
    ensures { result.now ≡
        slice_range bytes.now (get_or offsets.now at 0) (get_or offsets.now (at + 1) 0) }
{
    cut(bytes, offsets[at] as usize, offsets[at + 1] as usize)
}

/// What stands in bytes from a start to before an end.
fn cut(bytes: &[u8], start: usize, end: usize) -> &[u8]
    requires ordered { start ≤ end }
    requires inside { end ≤ length bytes.now }
    ensures { result.now ≡ slice_range bytes.now start end }
{
    &bytes[start..end]
}

/// Whether no offset is below the one before it, nor above the count of bytes.
fn are_ascending(offsets: &[u64], len: usize) -> bool
    ensures { result ≡ are_ascending 0 offsets.now len }
{
    let mut before = 0;
    for offset in offsets {
        if *offset < before {
            return false;
        }
        before = *offset;
    }
    before <= len as u64
}

/// Whether a bitmap has so many flags; so has one without a byte.
fn has_flags(bits: &[u8], count: usize) -> bool
    ensures { result ≡ has_flags bits.now count }
{
    bits.is_empty() || count.div_ceil(8) <= bits.len()
}
