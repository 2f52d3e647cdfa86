//! A table of which some lines were taken.
ghost use Rattle.std.specs.Prelude.{◌≡◌, ◌≤◌, ℕ, List, [], drop, length, slice_range, IfErr};
ghost use Rattle.std.specs.Prelude.{IfOk, OnOk};
ghost use Rattle.phone_lines.specs.Lines.{without_return, IsUnbroken};
ghost use Rattle.phone_prefixes.specs.Loads.{IsSoFar};
ghost use Rattle.phone_prefixes.specs.Refusals.{Refuses, RefusesLine};
ghost use Rattle.phone_prefixes.specs.Spans.{entries_in, IsLoaded};
ghost use Rattle.phone_prefixes.specs.Tables.{IsOneMore, IsTable};

use crate::fault::{LineFault, PrefixesError};
use crate::lines::{feed_after, tab_of};
use crate::span::Span;
use crate::trie::Trie;
use phone_lines::without_return;
use std::alloc::{AllocError, Global};

/// Where the entries so far stand, and their places by prefix.
#[derive(Drop)]
pub(crate) struct Loading {
    pub(crate) spans: Vec<Span>,
    pub(crate) trie: Trie,
}

impl Loading {
    /// No entry. Refused only for memory.
    pub(crate) fn new(alloc: Global) -> Result<Loading, AllocError>
        ensures spans { IfOk result (λ l. l.spans.items ≡ []) }
        ensures loaded { IfOk result (λ l. (bytes : List ℕ) →
            IsLoaded bytes l.spans.items l.trie.nodes.items) }
    {
        Ok(Loading {
            spans: Vec::new(alloc),
            trie: Trie::new(alloc)?,
        })
    }

    /// Takes the line that begins and ends at these places. One carriage return at its end is
    /// dropped. Refused by `Line` where it is no entry's or has an earlier one's prefix, else only
    /// for memory.
    pub(crate) fn take_line(
        &mut self,
        bytes: &[u8],
        start: usize,
        end: usize,
    ) -> Result<(), PrefixesError>
        requires order { start ≤ end }
        requires inside { end ≤ length bytes.now }
        requires loaded { IsLoaded bytes.now self.old.spans.items self.old.trie.nodes.items }
        ensures loaded { OnOk result (IsLoaded bytes.now self.new.spans.items
            self.new.trie.nodes.items) }
        ensures taken { OnOk result (IsOneMore (entries_in bytes.now self.old.spans.items)
            (without_return (slice_range bytes.now start end))
            (entries_in bytes.now self.new.spans.items)) }
        ensures refused { IfErr result (RefusesLine (entries_in bytes.now self.old.spans.items)
            (without_return (slice_range bytes.now start end))) }
    {
        let line = without_return(&bytes[start..end]);
        let number = self.spans.len();
        let tab = match tab_of(line) {
            Ok(tab) => tab,
            Err(fault) => return Err(PrefixesError::Line(number + 1, fault)),
        };
        if !self.trie.mark(&line[..tab], number)? {
            return Err(PrefixesError::Line(number + 1, LineFault::PrefixTwice));
        }
        let span = Span {
            start,
            tab: start + tab,
            end: start + line.len(),
        };
        match self.spans.push(span) {
            Ok(()) => Ok(()),
            Err(_) => Err(PrefixesError::Memory),
        }
    }

    /// Takes each line that a line feed ends, and says where the last one ends. Refused as
    /// `take_line`.
    pub(crate) fn take_ended(&mut self, bytes: &[u8]) -> Result<usize, PrefixesError>
        requires none { self.old.spans.items ≡ [] }
        requires loaded { IsLoaded bytes.now self.old.spans.items self.old.trie.nodes.items }
        ensures so_far { IfOk result (λ at. IsSoFar bytes.now at self.new.spans.items
            self.new.trie.nodes.items) }
        ensures unbroken { IfOk result (λ at. IsUnbroken (drop at bytes.now)) }
        ensures refused { IfErr result (Refuses bytes.now) }
    {
        let mut at = 0;
        while let Some(end) = feed_after(bytes, at) {
            match self.take_line(bytes, at, end) {
                Ok(()) => at = end + 1,
                Err(error) => return Err(error),
            }
        }
        Ok(at)
    }

    /// Takes what stands after the last line feed, where it has a byte. Refused as `take_line`.
    pub(crate) fn take_last(&mut self, bytes: &[u8], at: usize) -> Result<(), PrefixesError>
        requires so_far { IsSoFar bytes.now at self.old.spans.items self.old.trie.nodes.items }
        requires unbroken { IsUnbroken (drop at bytes.now) }
        ensures loaded { OnOk result (IsLoaded bytes.now self.new.spans.items
            self.new.trie.nodes.items) }
        ensures table { OnOk result (IsTable bytes.now (entries_in bytes.now
            self.new.spans.items)) }
        ensures refused { IfErr result (Refuses bytes.now) }
    {
        let end = bytes.len();
        if at >= end {
            return Ok(());
        }
        match self.take_line(bytes, at, end) {
            Ok(()) => Ok(()),
            Err(error) => Err(error),
        }
    }
}
