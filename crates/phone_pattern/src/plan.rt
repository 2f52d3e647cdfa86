//! A pattern's text that was read, and what is made of it for searches. Contracts see the text.
ghost use Rattle.std.specs.Prelude.{◌≡◌, ◌≤◌, [], ◌∷◌, length, IfErr, IfOk, IfSome, IsTrue, Some};
ghost use Rattle.std.specs.Prelude.{string_bytes};
ghost use Rattle.phone_automaton.specs.Digits.{AreDigits};
ghost use Rattle.phone_automaton.specs.Tables.{Tells};
ghost use Rattle.phone_pattern.specs.First.{at_start, front_end, names_in, replaced};
ghost use Rattle.phone_pattern.specs.First.{IsPattern, IsPatternOf};
ghost use Rattle.phone_pattern.specs.Outlines.{IsReadAs, IsShape};
ghost use Rattle.phone_pattern.specs.Refusals.{IsPatternRefusal};
ghost use Rattle.regex_hir.specs.Meaning.{meaning};

use crate::outline::Outline;
use crate::reading::{self, ReadPattern, Unread};
use crate::under_x::UnderX;
use once_cell::race::OnceBox;
use phone_automaton::FrontTable;
use phone_base::{LoadMetadata, Text};
use regex::Regex;
use std::alloc::{AllocError, Global};
use std::marker::Model;

/// A text that the grammar of patterns reads under flag x: white space and `#` comments in it don't
/// count.
pub(crate) struct Plan {
    alloc: Global,
    text: Text,
    /// How many groups there are, the match itself included.
    groups: usize,
    /// What it finds at the front of texts of digits. None where memory was refused for it, and
    /// where such a table would be too large.
    table: Option<FrontTable>,
    /// What searches other texts, from the first such search on.
    outline: OnceBox<Outline>,
    /// The compiled text, from the first search on that asks for it.
    compiled: OnceBox<UnderX>,
}

impl Model for Plan {
    ghost use Rattle.std.specs.Prelude.{◌≡◌, ℕ, List, length, IfSome};
    ghost use Rattle.phone_pattern.specs.First.{names_in, IsPattern};
    ghost use Rattle.phone_pattern.specs.Outlines.{TellsOf};

    ghost Value = { List ℕ };

    ghost view = { λ p. p.text };

    ghost invariant = { λ p. IsPattern p.text × (p.groups ≡ length (names_in p.text)) ×
        IfSome p.table (TellsOf p.text) };
}

/// Drops what was made: as a function it is proved once.
impl Drop for Plan {
    fn drop(self) {
        let Plan {
            alloc: _,
            text,
            groups: _,
            table,
            outline,
            compiled,
        } = self;
        drop(text);
        drop(table);
        drop(outline);
        drop(compiled);
    }
}

impl Plan {
    /// Reads a text. Refused by `Regex` with the text where it is no pattern or compiles to more
    /// than 10 MiB, by `Memory` where memory is refused.
    pub(crate) fn new(alloc: Global, text: Text) -> Result<Plan, LoadMetadata>
        ensures made { IfOk result (λ p. p ≡ text) }
        ensures read { IfOk result (λ p. IsPattern text) }
        ensures refused { IfErr result (IsPatternRefusal (text ∷ [])) }
    {
        match reading::read(alloc, text.as_str()) {
            Ok(read) => Ok(Plan::of(alloc, text, read)),
            Err(Unread::Memory) => Err(LoadMetadata::Memory),
            Err(Unread::Refused) => Err(LoadMetadata::Regex(text.into_string())),
        }
    }

    /// The same of a text and what it was read as.
    fn of(alloc: Global, text: Text, read: ReadPattern) -> Plan
        requires { IsReadAs text (meaning read.hir) read.groups }
        ensures { result ≡ text }
    {
        Plan {
            alloc,
            text,
            groups: read.groups,
            table: table(alloc, &read),
            outline: OnceBox::new(alloc),
            compiled: OnceBox::new(alloc),
        }
    }

    /// The allocator of what is made for searches.
    pub(crate) fn allocator(&self) -> Global {
        self.alloc
    }

    /// How many groups there are, the match itself included.
    pub(crate) fn groups(&self) -> usize
        ensures { result ≡ length (names_in self.now) }
    {
        self.groups
    }

    /// The text of the pattern.
    pub(crate) fn as_str(&self) -> &str
        ensures { result.now ≡ self.now }
    {
        self.text.as_str()
    }

    /// Whether this is the text of the pattern. It is a pattern then.
    pub(crate) fn is_of(&self, text: &str) -> bool
        ensures same { IsTrue result → self.now ≡ text.now }
        ensures read { IsTrue result → IsPattern text.now }
    {
        self.text.as_str() == text
    }

    /// Where the match ends that begins at the front of a text of digits, in bytes; none where
    /// there is none. None where the text isn't of digits alone, and where there is no table.
    #[inline]
    pub(crate) fn front_end_of_digits(&self, text: &str) -> Option<Option<usize>>
        ensures end { IfSome result (λ end. end ≡ front_end self.now text.now) }
        ensures within { IfSome result (λ end. IfSome end (λ e. e ≤ length text.now)) }
        ensures digits { IfSome result (λ end. AreDigits text.now) }
    {
        match &self.table {
            Some(table) => table.front_end_of_digits(text.as_bytes()),
            None => None,
        }
    }

    /// The same of a text that is known to be of digits. None where there is no table.
    #[inline]
    pub(crate) fn end_in_digits(&self, text: &str) -> Option<Option<usize>>
        requires { AreDigits text.now }
        ensures { IfSome result (λ end. end ≡ front_end self.now text.now) }
    {
        match &self.table {
            Some(table) => Some(table.end_in_digits(text.as_bytes())),
            None => None,
        }
    }

    /// Whether the first match begins at the front of a text that is known to be of digits. None
    /// where there is no table.
    #[inline]
    pub(crate) fn begins_digits(&self, text: &str) -> Option<bool>
        requires { AreDigits text.now }
        ensures { IfSome result (λ b. b ≡ at_start self.now text.now) }
    {
        match &self.table {
            Some(table) => Some(table.begins_digits(text.as_bytes())),
            None => None,
        }
    }

    /// A text of digits with the match at its front, which ends here, replaced by a template, where
    /// that needs no search. None where it needs one. Refused only for memory.
    pub(crate) fn replace_at_front(
        &self,
        template: &str,
        text: &str,
        end: usize,
    ) -> Result<Option<String>, AllocError>
        requires end { front_end self.now text.now ≡ Some end }
        requires digits { AreDigits text.now }
        ensures { IfOk result (λ made. IfSome made (λ out.
            string_bytes out ≡ replaced self.now template.now text.now)) }
    {
        match &self.table {
            Some(table) => table.replace_at_front(self.alloc, template, text, end),
            None => Ok(None),
        }
    }

    /// What searches texts that aren't of digits alone, which is made when it is first asked for
    /// and kept from then on. None where memory is refused; and where another text's is kept, which
    /// no function puts there, though of what a cell holds nothing is known.
    #[cold]
    #[inline(never)]
    pub(crate) fn outline(&self) -> Option<&Outline>
        ensures { IfSome result (λ o. IsShape self.now o.now) }
    {
        let alloc = self.alloc;
        let text = self.text.as_str();
        match self
            .outline
            .get_or_try_init(move || Outline::boxed(alloc, text))
        {
            Ok(found) => { if found.is_of(text) { Some(found) } else { None } }
            Err(_) => None,
        }
    }

    /// The compiled text, which is compiled when it is first asked for and kept from then on.
    /// Refused for memory; and where another text's is kept, which no function puts there, though
    /// of what a cell holds nothing is known.
    #[cold]
    #[inline(never)]
    pub(crate) fn regex(&self) -> Result<&Regex, AllocError>
        ensures { IfOk result (λ re. IsPatternOf self.now re.now) }
    {
        let alloc = self.alloc;
        let text = self.text.as_str();
        let found = self
            .compiled
            .get_or_try_init(move || UnderX::boxed(alloc, text))?;
        if found.is_of(text) {
            Ok(found.regex())
        } else {
            Err(AllocError)
        }
    }
}

/// The table of what was read.
fn table(alloc: Global, read: &ReadPattern) -> Option<FrontTable>
    ensures { IfSome result (Tells (meaning read.now.hir)) }
{
    FrontTable::new(alloc, &read.hir)
}
