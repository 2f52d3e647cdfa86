//! What a text ends in: how long an end of some kind may be, found out once, from the last
//! character on.
ghost use Rattle.std.specs.Prelude.{◌≡◌, ℕ, ◌<◌, List, ◌++◌, true, chars, length};
ghost use Rattle.std.specs.List.{list_all};
ghost use Rattle.phone_parts.specs.Longest.{IsWithoutLongest, AreEndsUpTo, AreEndsWithin};
ghost use Rattle.phone_parts.specs.Suffixes.{IsFew, IsSomeEnding, IsSomeNumberSigned};

use crate::sets::{Dashes, Digits, Gaps, Marks, Sign};
use phone_chars::cuts::{CharSet, split_last};

/// The text without its longest end of characters of the set, at most so many.
fn before_few<'a, S: CharSet>(text: &'a str, set: &S, most: usize) -> &'a str
    ensures read { IsWithoutLongest (λ w. IsFew (S.members set.now) most w) (chars text.now)
        (chars result.now) }
    ensures front { (v : List ℕ) × (text.now ≡ result.now ++ v) }
{
    let mut left = text;
    for _taken in 0..most {
        let Some((front, c)) = split_last(left) else {
            return left;
        };
        if !set.has(c) {
            return left;
        }
        left = front;
    }
    left
}

/// The text without its longest end of characters of the set. It is lent from the text and takes no
/// memory; its time is that of the end.
pub fn before_run<'a, S: CharSet>(text: &'a str, set: &S) -> &'a str
    ensures read { IsWithoutLongest (λ w. list_all (S.members set.now) w ≡
        true) (chars text.now) (chars result.now) }
    ensures front { (v : List ℕ) × (text.now ≡ result.now ++ v) }
{
    text.trim_end_matches(|c: char| set.has(c))
}

/// How many bytes an end of the text may have that may follow an indicator: perhaps a mark, a gap,
/// at most seven digits, perhaps a number sign. Each end with no more bytes is such a one, and none
/// with more. The time is that of its gap.
pub(crate) fn ending_limit(text: &str) -> usize
    ensures { AreEndsUpTo IsSomeEnding result text.now }
{
    let without_sign = before_few(text, &Sign, 1);
    let without_digits = before_few(without_sign, &Digits, 7);
    let without_gap = before_run(without_digits, &Gaps);
    let left = before_few(without_gap, &Marks, 1);
    text.len() - left.len()
}

/// How many bytes the longest end of the text has that is an extension with a number sign behind
/// its digits; none where no end is one. The time is that of the hyphens and spaces before the
/// digits.
pub(crate) fn number_sign_limit(text: &str) -> usize
    ensures longest { AreEndsWithin IsSomeNumberSigned result text.now }
    ensures reached { 0 < result → (before end : List ℕ) → text.now ≡
        before ++ end → length end ≡ result → IsSomeNumberSigned (chars end) }
{
    let Some((without_sign, last)) = split_last(text) else {
        return 0;
    };
    if last != '#' {
        return 0;
    }
    let without_digits = before_few(without_sign, &Digits, 5);
    if without_digits.len() == without_sign.len() {
        return 0;
    }
    let left = before_run(without_digits, &Dashes);
    if left.len() == without_digits.len() {
        return 0;
    }
    text.len() - left.len()
}
