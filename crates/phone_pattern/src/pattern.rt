//! A pattern that was read once and is held. Contracts see its text.
ghost use Rattle.std.specs.Prelude.{◌≡◌, [], ◌∷◌, true, IfErr, IfOk, IfSome, length, string_bytes};
ghost use Rattle.std.specs.Arc.{arc_value};
ghost use Rattle.phone_pattern.specs.First.{at_start, captured, first_span, front_end, names_in};
ghost use Rattle.phone_pattern.specs.First.{is_whole_match, replaced, AreCuts, IsCut, IsPattern};
ghost use Rattle.phone_pattern.specs.Refusals.{IsPatternRefusal};

use crate::plan::Plan;
use crate::subject::Subject;
use crate::{searches, subjects};
use phone_base::{LoadMetadata, Text};
use std::alloc::{AllocError, Global};
use std::marker::Model;
use std::sync::Arc;

/// A pattern of a database, read under flag x: white space and `#` comments in it don't count. What
/// is made for its searches is shared with all patterns of the same text, and may be shared with
/// other threads.
pub struct Pattern {
    plan: Arc<Plan>,
}

impl Model for Pattern {
    ghost use Rattle.std.specs.Prelude.{ℕ, List};
    ghost use Rattle.std.specs.Arc.{arc_value};

    ghost Value = { List ℕ };

    ghost view = { λ p. arc_value p.plan };
}

/// Drops what was made: as a function it is proved once.
impl Drop for Pattern {
    fn drop(self) {
        let Pattern { plan } = self;
        drop(plan);
    }
}

impl Pattern {
    /// Reads a text. Refused by `Regex` with the text where it is no pattern or compiles to more
    /// than 10 MiB, by `Memory` where memory is refused.
    pub fn new(alloc: Global, text: Text) -> Result<Pattern, LoadMetadata>
        ensures made { IfOk result (λ p. p ≡ text) }
        ensures read { IfOk result (λ p. IsPattern text) }
        ensures refused { IfErr result (IsPatternRefusal (text ∷ [])) }
    {
        let plan = Arc::new(alloc, Plan::new(alloc, text)?)?;
        Ok(Pattern::of(plan))
    }

    /// The pattern of what was made.
    pub(crate) fn of(plan: Arc<Plan>) -> Pattern
        ensures { result ≡ arc_value plan }
    {
        Pattern { plan }
    }

    /// The text of the pattern.
    pub fn as_str(&self) -> &str
        ensures { result.now ≡ self.now }
    {
        self.plan.as_str()
    }

    /// The allocator that the pattern keeps, for its searches.
    pub fn allocator(&self) -> Global {
        self.plan.allocator()
    }

    /// How many groups the pattern has, the match itself included.
    pub fn captures_len(&self) -> usize
        ensures { result ≡ length (names_in self.now) }
    {
        self.plan.groups()
    }

    /// Whether the first match begins at the first byte; it need not reach the end. Refused only
    /// for memory.
    #[inline]
    pub fn is_at_start(&self, text: &str) -> Result<bool, AllocError>
        ensures { IfOk result (λ b. b ≡ at_start self.now text.now) }
    {
        searches::is_at_start(&self.plan, text)
    }

    /// Where the first match ends, if it begins at the first byte; none where it doesn't, and where
    /// the text has no match. Refused only for memory.
    #[inline]
    pub fn front_end(&self, text: &str) -> Result<Option<usize>, AllocError>
        ensures end { IfOk result (λ end. end ≡ front_end self.now text.now) }
        ensures border { IfOk result (λ end. IfSome end (λ e. IsCut text.now (0, e))) }
    {
        searches::front_end(&self.plan, text)
    }

    /// The bytes at which the first match begins and ends; none where the text has no match.
    /// Refused only for memory.
    #[inline]
    pub fn first_span(&self, text: &str) -> Result<Option<(usize, usize)>, AllocError>
        ensures span { IfOk result (λ found. found ≡ first_span self.now text.now) }
        ensures borders { IfOk result (λ found. IfSome found (IsCut text.now)) }
    {
        searches::first_span(&self.plan, text)
    }

    /// Whether the first match begins at the first byte and ends after the last. Refused only for
    /// memory.
    #[inline]
    pub fn is_whole_match(&self, text: &str) -> Result<bool, AllocError>
        ensures { IfOk result (λ b. b ≡ is_whole_match self.now text.now) }
    {
        searches::is_whole_match(&self.plan, text)
    }

    /// What the first match spans, and its first and its last group; none where the text has no
    /// match. Refused only for memory.
    #[inline]
    pub fn captures(&self, text: &str) -> Result<Option<Captured>, AllocError>
        ensures found { IfOk result (λ found. found ≡ captured self.now text.now) }
        ensures borders { IfOk result (λ found. IfSome found (AreCuts text.now)) }
    {
        searches::captures(&self.plan, text)
    }

    /// The text with its first match replaced by a template, in which `$1` stands for the first
    /// group; a text without a match stays as it is. Refused only for memory.
    #[inline]
    pub fn replace(&self, template: &str, text: &str) -> Result<String, AllocError>
        ensures { IfOk result (λ out. string_bytes out ≡ replaced self.now template.now text.now) }
    {
        searches::replace(&self.plan, template, text)
    }

    /// Whether the first match begins at the first byte, as [`Pattern::is_at_start`] has it.
    /// Refused only for memory.
    #[inline]
    pub fn is_at_start_in(&self, subject: &Subject<'_>) -> Result<bool, AllocError>
        ensures { IfOk result (λ b. b ≡ at_start self.now subject.now) }
    {
        subjects::is_at_start(&self.plan, subject)
    }

    /// Whether the first match begins at the first byte and ends after the last. Refused only for
    /// memory.
    #[inline]
    pub fn is_whole_match_in(&self, subject: &Subject<'_>) -> Result<bool, AllocError>
        ensures { IfOk result (λ b. b ≡ is_whole_match self.now subject.now) }
    {
        subjects::is_whole_match(&self.plan, subject)
    }

    /// The text with its first match replaced by a template, as [`Pattern::replace`] has it.
    /// Refused only for memory.
    #[inline]
    pub fn replace_in(&self, template: &str, subject: &Subject<'_>) -> Result<String, AllocError>
        ensures { IfOk result (λ out. string_bytes out ≡
            replaced self.now template.now subject.now) }
    {
        subjects::replace(&self.plan, template, subject)
    }

    /// The same of a text that is known to be matched as a whole. Refused only for memory.
    #[inline]
    pub fn replace_whole_in(
        &self,
        template: &str,
        subject: &Subject<'_>,
    ) -> Result<String, AllocError>
        requires { is_whole_match self.now subject.now ≡ true }
        ensures { IfOk result (λ out. string_bytes out ≡
            replaced self.now template.now subject.now) }
    {
        subjects::replace_whole(&self.plan, template, subject)
    }
}

/// What the first match of a pattern captures, each part by the bytes at which it begins and ends.
#[derive(Clone, Copy, Debug, PartialEq, Eq)]
pub struct Captured {
    /// The match.
    pub span: (usize, usize),
    /// The first group; none where the pattern has no group, or the group took no part in the
    /// match.
    pub first: Option<(usize, usize)>,
    /// The last group, or the match where the pattern has no group; none where the group took no
    /// part in the match.
    pub last: Option<(usize, usize)>,
}
