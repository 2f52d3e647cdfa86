//! What is made of a pattern's text for searches of texts that aren't of digits alone: what is
//! known of its matches before any search, and the automaton that searches texts of ASCII.
ghost use Rattle.std.specs.Prelude.{◌≡◌, ℕ, false, List, IfSome, IsTrue, Some};
ghost use Rattle.phone_pattern.specs.First.{at_start};
ghost use Rattle.phone_pattern.specs.Outlines.{IsShape};

use crate::reading;
use phone_automaton::{Automaton, Fronts, Lengths, Machine};
use phone_base::Text;
use std::alloc::{AllocError, Global};
use std::marker::Model;

/// What is made of a pattern's text when such a search first asks for it, for all patterns of that
/// text. Contracts see what is known of its matches, and what its automaton finds.
pub(crate) struct Outline {
    text: Text,
    /// The bytes with which matches may begin.
    fronts: Fronts,
    lengths: Lengths,
    /// None where memory was refused for it, or it would be too large.
    automaton: Option<Automaton>,
}

impl Model for Outline {
    ghost use Rattle.phone_pattern.specs.Outlines.{IsShape, Shape};

    ghost Value = { Shape };

    ghost view = { λ o. record {
      fronts = o.fronts;
      lengths = o.lengths;
      searcher = o.automaton;
    } };

    ghost invariant = { λ o. IsShape o.text (record {
      fronts = o.fronts;
      lengths = o.lengths;
      searcher = o.automaton;
    }) };
}

/// Drops what was made: as a function it is proved once.
impl Drop for Outline {
    fn drop(self) {
        let Outline {
            text,
            fronts,
            lengths,
            automaton,
        } = self;
        drop(text);
        drop(fronts);
        drop(lengths);
        drop(automaton);
    }
}

impl Outline {
    /// That of a pattern's text, in a place of its own. Refused where memory is, and where the text
    /// is no pattern.
    pub(crate) fn boxed(alloc: Global, pattern: &str) -> Result<Box<Outline>, AllocError> {
        let text = Text::from(String::from_str(alloc, pattern)?);
        let outline = Outline::of(alloc, text)?;
        Ok(Box::new(alloc, outline)?)
    }

    /// That of a pattern's text.
    fn of(alloc: Global, text: Text) -> Result<Outline, AllocError> {
        let Ok(parsed) = reading::parse(alloc, text.as_str()) else {
            return Err(AllocError);
        };
        Ok(Outline {
            text,
            fronts: Fronts::of(&parsed.hir),
            lengths: Lengths::of(alloc, &parsed.hir),
            automaton: Automaton::new(alloc, &parsed),
        })
    }

    /// Whether this is the text that it is made of.
    pub(crate) fn is_of(&self, pattern: &str) -> bool
        ensures { IsTrue result → IsShape pattern.now self.now }
    {
        self.text.as_str() == pattern
    }

    /// A machine of the automaton, for a search. None where there is no automaton, and where memory
    /// is refused.
    #[inline]
    pub(crate) fn take(&self, alloc: Global) -> Option<Box<Machine>>
        ensures { IfSome result (λ m. self.now.searcher ≡ Some m.value) }
    {
        match &self.automaton {
            Some(automaton) => automaton.take(alloc),
            None => None,
        }
    }

    /// Keeps a machine of the automaton for the next search.
    #[inline]
    pub(crate) fn keep(&self, machine: Box<Machine>)
        requires { self.now.searcher ≡ Some machine.value }
    {
        if let Some(automaton) = &self.automaton {
            automaton.keep(machine);
        }
    }

    /// Whether the first match may begin at the first byte of a text. Where not, it doesn't.
    #[inline]
    pub(crate) fn may_match_front(&self, text: &str) -> bool
        ensures { (pattern : List ℕ) → IsShape pattern self.now → result ≡ false →
            at_start pattern text.now ≡ false }
    {
        self.lengths.may_match_front(text.len()) && self.fronts.may_begin(text.as_bytes())
    }
}
