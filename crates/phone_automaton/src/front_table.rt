//! A table of a pattern alone: what the pattern finds at the front of a text of digits, told
//! without an automaton.
ghost use Rattle.std.specs.Prelude.{◌≡◌, ◌≤◌, length, string_bytes, IfOk, IfSome, Some};
ghost use Rattle.std.specs.Option.{is_some};
ghost use Rattle.phone_automaton.specs.Digits.{AreDigits, end_of_digits};
ghost use Rattle.phone_automaton.specs.Tables.{Tells};
ghost use Rattle.phone_automaton.specs.Templates.{with_match_replaced};
ghost use Rattle.regex_hir.specs.Find.{find_str};
ghost use Rattle.regex_hir.specs.Meaning.{meaning};
ghost use Rattle.regex_hir.specs.Re.{Re};
ghost use Rattle.regex_syntax.specs.Grammar.{Names};

use crate::digits::Digits;
use crate::parts::{front_cells, replace_in_digits};
use regex_hir::Hir;
use std::alloc::{AllocError, Global};
use std::marker::Model;

/// The steps of a pattern over digits, and the cells of its groups in matches at the front. It is
/// only read, so threads may share it. Contracts see both kinds of cells; `Tells` says of which
/// tree they tell.
pub struct FrontTable {
    digits: Digits,
    /// The cells of matches at the front, but for the place of their end; none where the groups
    /// aren't known by it.
    front: Vec<usize>,
}

impl Model for FrontTable {
    ghost use Rattle.phone_automaton.specs.Tables.{FrontCells};

    ghost Value = { FrontCells };

    ghost view = { λ t. record { steps = t.digits; front = t.front.items } };
}

/// Drops the table: as a function it is proved once.
impl Drop for FrontTable {
    fn drop(self) {
        let FrontTable { digits, front } = self;
        drop(digits);
        drop(front);
    }
}

impl FrontTable {
    /// The table of a tree. None where memory is refused, where the
    /// table would have more than a thousand rows, where a loop has no bound, and where a step
    /// looks at what stands around it otherwise than for the text's end. No later call asks for the
    /// memory again.
    pub fn new(alloc: Global, hir: &Hir) -> Option<FrontTable>
        ensures { IfSome result (Tells (meaning hir.now)) }
    {
        let Ok(front) = front_cells(alloc, hir) else {
            return None;
        };
        let digits = Digits::new(alloc, hir)?;
        Some(FrontTable { digits, front })
    }

    /// Where the match ends that begins at the front of a text of digits, in bytes; none where
    /// there is none. None where the text isn't of digits alone.
    #[inline]
    pub fn front_end_of_digits(&self, text: &[u8]) -> Option<Option<usize>>
        ensures end { IfSome result (λ end. end ≡ end_of_digits self.now.steps text.now) }
        ensures within { IfSome result (λ end. IfSome end (λ e. e ≤ length text.now)) }
        ensures digits { IfSome result (λ end. AreDigits text.now) }
    {
        self.digits.end(text)
    }

    /// The same of a text that is known to be of digits, which isn't gone over to see it.
    #[inline]
    pub fn end_in_digits(&self, text: &[u8]) -> Option<usize>
        requires { AreDigits text.now }
        ensures end { result ≡ end_of_digits self.now.steps text.now }
        ensures within { IfSome result (λ e. e ≤ length text.now) }
    {
        self.digits.end_in_digits(text)
    }

    /// Whether a match begins at the front of a text that is known to be of digits.
    #[inline]
    pub fn begins_digits(&self, text: &[u8]) -> bool
        requires { AreDigits text.now }
        ensures { result ≡ is_some (end_of_digits self.now.steps text.now) }
    {
        self.digits.begins_digits(text)
    }

    /// The text with its match at the front, which ends here, replaced by a template, in which `$1`
    /// stands for the first group. None where the pattern is no sequence of groups of fixed lengths
    /// but the last, and where the template names a group in another way than by one digit, in
    /// braces or not. Refused only for memory.
    pub fn replace_at_front(
        &self,
        alloc: Global,
        template: &str,
        hay: &str,
        end: usize,
    ) -> Result<Option<String>, AllocError>
        requires digits { AreDigits hay.now }
        requires end { end_of_digits self.now.steps hay.now ≡ Some end }
        ensures { (re : Re) → Tells re self.now → IfOk result (λ made. IfSome made (λ out.
            (names : Names) → string_bytes out ≡
            with_match_replaced names template.now hay.now (find_str re hay.now 0))) }
    {
        replace_in_digits(alloc, self.front.as_slice(), template, hay, end)
    }
}
