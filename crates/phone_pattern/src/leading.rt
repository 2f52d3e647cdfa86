//! The leading digits for which a layout is meant.
ghost use Rattle.std.specs.Prelude.{◌≡◌, ◌==◌, ◌++◌, ◌-◌, [], ◌∷◌, true, length, reverse, Ok, IfOk};
ghost use Rattle.std.specs.Prelude.{slice_get};
ghost use Rattle.std.specs.Option.{option_copied, option_or};
ghost use Rattle.phone_pattern.specs.First.{led_by};

use crate::pattern::Pattern;
use crate::subject::Subject;
use std::alloc::AllocError;
use std::marker::Model;

/// Patterns of digits in front, of which the last decides. Contracts see their texts.
pub struct Leading {
    others: Vec<Pattern>,
    /// None where there is no pattern at all.
    last: Option<Pattern>,
}

impl Model for Leading {
    ghost use Rattle.std.specs.Prelude.{◌≡◌, ◌++◌, ℕ, List, [], None};
    ghost use Rattle.std.specs.Option.{option_to_list};

    ghost Value = { List (List ℕ) };

    ghost view = { λ l. l.others.items ++ option_to_list l.last };

    ghost invariant = { λ l. l.last ≡ None → l.others.items ≡ [] };
}

/// Drops the patterns: as a function it is proved once.
impl Drop for Leading {
    fn drop(self) {
        let Leading { others, last } = self;
        drop(others);
        drop(last);
    }
}

impl Leading {
    /// No patterns.
    pub(crate) fn none(others: Vec<Pattern>) -> Leading
        requires { others.items ≡ [] }
        ensures { result ≡ [] }
    {
        Leading { others, last: None }
    }

    /// A pattern, with those before it.
    pub(crate) fn of(others: Vec<Pattern>, last: Pattern) -> Leading
        ensures { result ≡ others.items ++ last ∷ [] }
    {
        Leading {
            others,
            last: Some(last),
        }
    }

    /// Whether there is none.
    pub fn is_empty(&self) -> bool
        ensures { result ≡ (length self.now == 0) }
    {
        self.last.is_none()
    }

    /// The n-th pattern, counted from 0, or else the last. None where there is none.
    pub fn at_or_last(&self, n: usize) -> Option<&Pattern>
        ensures { option_copied result ≡ option_or (slice_get self.now n)
            (slice_get self.now (length self.now - 1)) }
    {
        match self.others.get(n) {
            Some(found) => Some(found),
            None => self.last.as_ref(),
        }
    }

    /// Whether digits are led by these patterns: there is none, or the first match of the last
    /// begins at the first byte. Where there is none nothing is searched, and nothing refused. Else
    /// refused only for memory.
    pub fn lead(&self, digits: &str) -> Result<bool, AllocError>
        ensures led { IfOk result (λ b. b ≡ led_by digits.now (reverse self.now)) }
        ensures unsearched { self.now ≡ [] → result ≡ Ok true }
    {
        match &self.last {
            Some(last) => last.is_at_start(digits),
            None => Ok(true),
        }
    }

    /// The same of a text of which it is known whether it is of digits.
    #[inline]
    pub fn lead_in(&self, subject: &Subject<'_>) -> Result<bool, AllocError>
        ensures led { IfOk result (λ b. b ≡ led_by subject.now (reverse self.now)) }
        ensures unsearched { self.now ≡ [] → result ≡ Ok true }
    {
        match &self.last {
            Some(last) => last.is_at_start_in(subject),
            None => Ok(true),
        }
    }
}
