//! The table.
ghost use Rattle.std.specs.Prelude.{◌≡◌, ◌≢◌, ◌≤◌, ◌<◌, ◌+◌, ℕ, List, length, IfErr, IfOk, Err};
ghost use Rattle.std.specs.Prelude.{MatchOption, slice_index_or};
ghost use Rattle.phone_device.specs.Passing.{IsAll};
ghost use Rattle.phone_prefixes.specs.Refusals.{Refuses};
ghost use Rattle.phone_prefixes.specs.Spans.{entry_in, IsSpan};
ghost use Rattle.phone_prefixes.specs.Tables.{Entry, IsLongest, IsTable, NoneBegins};

use crate::fault::PrefixesError;
use crate::loading::Loading;
use crate::span::Span;
use crate::trie::Trie;
use phone_device::{ByteSource, read_all};
use phone_index::Steps;
use std::alloc::Global;
use std::marker::Model;

/// A table of prefixes, each with a text. It keeps the bytes that it was read from, where each
/// entry stands in them, and a trie of the prefixes; an entry has no memory of its own. Contracts
/// see the list of the entries, in the order of their lines.
#[derive(Drop)]
pub struct Prefixes {
    bytes: Vec<u8>,
    spans: Vec<Span>,
    trie: Trie,
}

impl Model for Prefixes {
    ghost use Rattle.std.specs.Prelude.{List};
    ghost use Rattle.phone_prefixes.specs.Spans.{entries_in, IsLoaded};
    ghost use Rattle.phone_prefixes.specs.Tables.{Entry};

    ghost Value = { List Entry };

    ghost view = { λ p. entries_in p.bytes.items p.spans.items };

    ghost invariant = { λ p. IsLoaded p.bytes.items p.spans.items p.trie.nodes.items };
}

impl Prefixes {
    /// The table of these bytes: lines of a prefix of 1 to 15 digits, a tab, and a text in UTF-8.
    /// What stands after the last line feed is a line where it has a byte; one carriage return at a
    /// line's end is dropped. Refused by `Line` where a line is no entry's, or has the prefix of an
    /// earlier one; else only for memory.
    pub fn of(alloc: Global, bytes: Vec<u8>) -> Result<Prefixes, PrefixesError>
        ensures table { IfOk result (IsTable bytes.items) }
        ensures refused { IfErr result (Refuses bytes.items) }
    {
        let mut loading = Loading::new(alloc)?;
        let at = match loading.take_ended(bytes.as_slice()) {
            Ok(at) => at,
            Err(error) => return Err(error),
        };
        match loading.take_last(bytes.as_slice(), at) {
            Ok(()) => {}
            Err(error) => return Err(error),
        }
        let Loading { spans, trie } = loading;
        Ok(Prefixes { bytes, spans, trie })
    }

    /// The table of all bytes of a source. Refused as `of`, and by `Source` where the source fails.
    /// A refusal leaves nothing of the table.
    pub fn read<S: ByteSource>(alloc: Global, source: &mut S) -> Result<Prefixes, PrefixesError>
        ensures table { IfOk result (λ table. (bytes : List ℕ) ×
            IsAll (S.to_come source.old) bytes × IsTable bytes table) }
        ensures refused { IfErr result (λ error. error ≢ PrefixesError.Source → (bytes : List ℕ) ×
            IsAll (S.to_come source.old) bytes × Refuses bytes error) }
        ensures no_fault { result ≢ Err PrefixesError.Source →
            S.faults source.new ≡ S.faults source.old }
        ensures fault { result ≡ Err PrefixesError.Source →
            S.faults source.new ≡ S.faults source.old + 1 }
    {
        let bytes = match read_all(alloc, source) {
            Ok(bytes) => bytes,
            Err(refusal) => return Err(PrefixesError::from(refusal)),
        };
        Prefixes::of(alloc, bytes)
    }

    /// How many entries there are.
    pub fn len(&self) -> usize
        ensures { result ≡ length self.now }
    {
        self.spans.len()
    }

    /// The prefix and the text of the entry at a place in the list, counted from 0; none past the
    /// last. Takes no memory.
    pub fn get(&self, place: usize) -> Option<(&str, &str)>
        ensures { MatchOption result (length self.now ≤ place) (λ e. (place < length self.now) ×
            ((d : Entry) → slice_index_or self.now place d ≡ record {
              prefix = e.0.now;
              text = e.1.now;
            })) }
    {
        let span = self.spans.get(place)?;
        Some(entry_at(self.bytes.as_slice(), span))
    }

    /// The prefix and the text of the entry whose prefix is the longest that begins a text, such as
    /// the digits of an E.164 number; none exactly where no prefix begins it. Takes no memory.
    pub fn longest(&self, digits: &str) -> Option<(&str, &str)>
        ensures { MatchOption result (NoneBegins self.now digits.now)
            (λ e. IsLongest self.now digits.now (record { prefix = e.0.now; text = e.1.now })) }
    {
        self.longest_in(digits, &mut Steps::new())
    }

    /// As `longest`. Each digit that is looked up is a step, of which it takes at most 15, however
    /// many entries there are.
    pub fn longest_in(&self, digits: &str, steps: &mut Steps) -> Option<(&str, &str)>
        ensures longest { MatchOption result (NoneBegins self.now digits.now)
            (λ e. IsLongest self.now digits.now (record { prefix = e.0.now; text = e.1.now })) }
        ensures bound { steps.new ≤ steps.old + 15 }
    {
        match self.trie.longest(digits.as_bytes(), steps) {
            Some(place) => Some(entry_at(self.bytes.as_slice(), &self.spans[place])),
            None => None,
        }
    }
}

/// The prefix and the text that stand there.
fn entry_at<'a>(bytes: &'a [u8], span: &Span) -> (&'a str, &'a str)
    requires { IsSpan bytes.now span.now }
    ensures prefix { result.0.now ≡ (entry_in bytes.now span.now).prefix }
    ensures text { result.1.now ≡ (entry_in bytes.now span.now).text }
{
    let prefix = &bytes[span.start..span.tab];
    let text = &bytes[span.tab + 1..span.end];
    // The table was refused if it weren't UTF-8.
    unsafe {
        (
            std::str::from_utf8_unchecked(prefix),
            std::str::from_utf8_unchecked(text),
        )
    }
}
