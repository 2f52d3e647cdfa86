//! Ends of a text, found from its last character on.
ghost use Rattle.std.specs.Prelude.{◌≡◌, ℕ, List, ◌++◌, chars};
ghost use Rattle.phone_parts.specs.Longest.{AreEndsUpTo, IsWithoutLongest};
ghost use Rattle.phone_parts.specs.Suffixes.{IsFew};
ghost use Rattle.phone_library_text.specs.Scans.{IsMarkGap, IsSignless};

use phone_chars::cuts::{CharSet, split_last};
use phone_parts::before_run;
use phone_parts::sets::{Gaps, Marks};

/// What follows a front of the text. Where the other text is no front of this one, the answer is
/// some end of this one.
pub(crate) fn after<'a>(text: &'a str, front: &str) -> &'a str
    ensures { (w : List ℕ) → text.now ≡ front.now ++ w → result.now ≡ w }
{
    text.get(front.len()..).unwrap_or(text)
}

/// The text without its last character, where that is in the set; else all of it.
fn before_one<'a, S: CharSet>(text: &'a str, set: &S) -> &'a str
    ensures read { IsWithoutLongest (λ w. IsFew (S.members set.now) 1 w) (chars text.now)
        (chars result.now) }
    ensures front { (v : List ℕ) × (text.now ≡ result.now ++ v) }
{
    if let Some((front, c)) = split_last(text) {
        if set.has(c) {
            return front;
        }
    }
    text
}

/// How many bytes an end of the text may have that is perhaps a mark, and then a gap. Each end with
/// no more bytes is such a one, and none with more. The time is that of the gap.
pub(crate) fn mark_gap_limit(text: &str) -> usize
    ensures { AreEndsUpTo IsMarkGap result text.now }
{
    let left = before_one(before_run(text, &Gaps), &Marks);
    text.len() - left.len()
}

/// The text without a number sign at its end, and whether there was one.
pub(crate) fn split_sign(text: &str) -> (&str, bool)
    ensures read { IsSignless (chars text.now) (chars result.0.now) result.1 }
    ensures front { (v : List ℕ) × (text.now ≡ result.0.now ++ v) }
{
    if let Some((front, c)) = split_last(text) {
        if c == '#' {
            return (front, true);
        }
    }
    (text, false)
}
