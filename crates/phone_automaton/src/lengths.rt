//! How long the matches of a pattern are. A text that is shorter than each has no match at its
//! front, and one that is longer isn't a match, which is known without a search.
ghost use Rattle.std.specs.Prelude.{◌≡◌, ◌↔◌, ◌⊎◌, false, length, IfSome, IsTrue};
ghost use Rattle.phone_automaton.specs.Lengths.{any_length, HasLengths, IsMaxLenInAscii};
ghost use Rattle.phone_automaton.specs.Lengths.{IsTooLong, IsTooShort};
ghost use Rattle.regex_hir.specs.Meaning.{meaning};

use crate::narrow::narrow_classes;
use regex_hir::Hir;
use std::alloc::Global;
use std::marker::Model;

/// The least length of matches, and the greatest in texts of ASCII, in bytes. Contracts see both.
#[derive(Drop)]
pub struct Lengths {
    least: usize,
    most: Option<usize>,
}

impl Model for Lengths {
    ghost use Rattle.phone_automaton.specs.Lengths.{Bounds};

    ghost Value = { Bounds };

    ghost view = { λ l. record { least = l.least; most = l.most } };
}

impl Lengths {
    /// Any length.
    pub fn any() -> Lengths
        ensures { result ≡ any_length }
    {
        Lengths {
            least: 0,
            most: None,
        }
    }

    /// The lengths of a tree's matches. Where memory is refused no greatest length is known.
    pub fn of(alloc: Global, hir: &Hir) -> Lengths
        ensures { HasLengths result (meaning hir.now) }
    {
        Lengths {
            least: hir.min_len(),
            most: longest_in_ascii(alloc, hir),
        }
    }

    /// Whether a match may stand at the front of a text of so many bytes: the text isn't shorter
    /// than each match.
    #[inline]
    pub fn may_match_front(&self, len: usize) -> bool
        ensures { result ≡ false ↔ IsTooShort self.now len }
    {
        self.least <= len
    }

    /// Whether a match may be a whole text: the text isn't shorter than each match nor, if it is of
    /// ASCII, longer.
    #[inline]
    pub fn may_match_whole(&self, text: &[u8]) -> bool
        ensures { result ≡ false ↔
            (IsTooShort self.now (length text.now) ⊎ IsTooLong self.now text.now) }
    {
        self.may_match_front(text.len()) && !self.is_too_long(text)
    }

    /// Whether a text is of ASCII, and longer than each match in such a text.
    #[inline]
    fn is_too_long(&self, text: &[u8]) -> bool
        ensures { IsTrue result ↔ IsTooLong self.now text.now }
    {
        match self.most {
            Some(most) => most < text.len() && text.is_ascii(),
            None => false,
        }
    }
}

/// The greatest length of a tree's matches in texts of ASCII, in bytes. None where there is none,
/// and where memory is refused.
fn longest_in_ascii(alloc: Global, hir: &Hir) -> Option<usize>
    ensures { IfSome result (IsMaxLenInAscii (meaning hir.now)) }
{
    match narrow_classes(alloc, hir) {
        Ok(narrow) => regex_extract::max_len(&narrow),
        Err(_) => None,
    }
}
