//! Where a number may stand in a text, by the characters alone: the candidates.
ghost use Rattle.std.specs.Prelude.{◌≡◌, ◌++◌, ℕ, List, [], MatchOption, IfSome, chars};
ghost use Rattle.phone_chars.specs.Cuts.{IsEnd};
ghost use Rattle.phone_matches_text.specs.Candidates.{after_candidate, after_first_digits};
ghost use Rattle.phone_matches_text.specs.Candidates.{after_group, after_led_digits};
ghost use Rattle.phone_matches_text.specs.Candidates.{after_groups, behind_first};
ghost use Rattle.phone_matches_text.specs.Candidates.{before_second};
ghost use Rattle.phone_matches_text.specs.Told.{told};
ghost use Rattle.phone_matches_text.specs.Candidates.{candidate_at, from_candidate};
ghost use Rattle.phone_parts.specs.Cores.{begins_second_number};

use crate::cuts::{behind, between, has_some, peel};
use crate::extension::after_perhaps_extension;
use crate::neighbours::begins_in;
use crate::sets::Set;
use crate::shapes::{Always, Any, Either, One, Shape, Within, after_few, from_first};
use phone_chars::chars::is_nd;
use phone_chars::cuts::{CharSet, after_run, before};

/// A digit of any script.
#[derive(Clone, Copy)]
struct BeginsDigit;

impl Shape for BeginsDigit {
    ghost use Rattle.phone_matches_text.specs.Candidates.{begins_digit};

    ghost passes = { λ _. begins_digit };

    fn passes(&self, text: &str) -> bool {
        One {
            set: Set::AnyDigit,
            then: Always,
        }
        .passes(text)
    }
}

/// What an opening bracket or a plus sign leads.
#[derive(Clone, Copy)]
struct Led<T> {
    then: T,
}

impl<T: Shape + Copy> Shape for Led<T> {
    ghost use Rattle.phone_matches_text.specs.Candidates.{is_led};

    ghost passes = { λ s. is_led (T.passes s.then) };

    fn passes(&self, text: &str) -> bool {
        One {
            set: Set::Lead,
            then: Within {
                set: Set::Between,
                most: 4,
                then: self.then,
            },
        }
        .passes(text)
    }
}

/// What a candidate begins as.
struct BeginsCandidate;

impl Shape for BeginsCandidate {
    ghost use Rattle.phone_matches_text.specs.Candidates.{begins_candidate};

    ghost passes = { λ _. begins_candidate };

    fn passes(&self, text: &str) -> bool {
        Either {
            this: BeginsDigit,
            other: Either {
                this: Led { then: BeginsDigit },
                other: Led {
                    then: Led { then: BeginsDigit },
                },
            },
        }
        .passes(text)
    }
}

/// What follows a group: at most four characters from between digits, and one to twenty digits;
/// none where no group is here.
fn after_group(text: &str) -> Option<&str>
    ensures rest { told result ≡ after_group (chars text.now) }
    ensures end { IfSome result (λ rest. IsEnd text.now rest.now) }
{
    let group = after_few(text, Set::Between, 4);
    if BeginsDigit.passes(group) {
        Some(after_few(group, Set::AnyDigit, 20))
    } else {
        None
    }
}

/// What follows at most so many groups of digits.
fn after_groups(text: &str, most: usize) -> &str
    ensures rest { chars result.now ≡ after_groups most (chars text.now) }
    ensures end { IsEnd text.now result.now }
{
    let mut rest = text;
    let mut left = most;
    while left > 0 {
        let Some(after) = after_group(rest) else {
            return rest;
        };
        rest = after;
        left -= 1;
    }
    rest
}

/// All but digits.
struct NoDigit;

impl CharSet for NoDigit {
    ghost use Rattle.phone_matches_text.specs.Candidates.{is_no_digit};

    ghost members = { λ _ c. is_no_digit c };

    fn has(&self, c: char) -> bool {
        !is_nd(c)
    }
}

/// What follows at most twenty digits, behind all that stands before the first.
fn after_led_digits(text: &str) -> &str
    ensures rest { chars result.now ≡ after_led_digits (chars text.now) }
    ensures end { IsEnd text.now result.now }
{
    let digits = after_run(text, &NoDigit);
    after_few(digits, Set::AnyDigit, 20)
}

/// What follows the first digits of a candidate, which begins with this character.
fn after_first_digits(first: char, rest: &str) -> &str
    ensures rest { chars result.now ≡ after_first_digits first (chars rest.now) }
    ensures end { IsEnd rest.now result.now }
{
    if Set::AnyDigit.has(first) {
        after_few(rest, Set::AnyDigit, 19)
    } else {
        after_led_digits(rest)
    }
}

/// What follows the candidate that begins with this character.
fn after_candidate(first: char, rest: &str) -> &str
    ensures rest { chars result.now ≡ after_candidate first (chars rest.now) }
    ensures end { IsEnd rest.now result.now }
{
    let digits = after_first_digits(first, rest);
    let groups = after_groups(digits, 20);
    after_perhaps_extension(groups)
}

/// Whether the mark of a second number stands at the front.
fn is_second_number(text: &str) -> bool
    ensures { result ≡ begins_second_number (chars text.now) }
{
    match peel(text) {
        Some((c, rest)) => {
            matches!(c, '/' | '\\') && begins_in(after_run(rest, &Set::Blank), Set::SmallX)
        }
        None => false,
    }
}

/// The text up to the mark of a second number, a slash or backslash that any number of spaces and a
/// small `x` follow, or all of it.
fn before_second(text: &str) -> &str
    ensures read { chars result.now ≡ before_second (chars text.now) }
    ensures front { (v : List ℕ) × (text.now ≡ result.now ++ v) }
{
    let mut rest = text;
    while let Some((_, after)) = peel(rest) {
        if is_second_number(rest) {
            return before(text, rest);
        }
        rest = after;
    }
    text
}

/// What stands behind the first character of the candidate that begins with it.
fn behind_first(first: char, rest: &str) -> &str
    ensures read { chars result.now ≡ behind_first first (chars rest.now) }
    ensures front { (v : List ℕ) × (rest.now ≡ result.now ++ v) }
{
    before_second(between(rest, after_candidate(first, rest)))
}

/// The candidate that begins here.
fn candidate_at(text: &str) -> &str
    ensures read { chars result.now ≡ candidate_at (chars text.now) }
    ensures front { (v : List ℕ) × (text.now ≡ result.now ++ v) }
{
    let Some((first, rest)) = peel(text) else {
        return text;
    };
    let body = behind_first(first, rest);
    let last = behind(rest, body);
    before(text, last)
}

/// The text from its first candidate on, and that candidate; none where none begins.
///
/// A candidate begins at a digit of any script, or at one or two signs before it, an opening
/// bracket or a plus sign each, with at most four characters from between digits behind each. It is
/// one to twenty digits, at most twenty further groups of these, each behind at most four
/// characters from between digits, and perhaps an extension. It ends before the mark of a second
/// number. The time is linear in the text.
pub fn first_candidate(text: &str) -> Option<(&str, &str)>
    ensures read { MatchOption result (from_candidate (chars text.now) ≡ [])
        (λ p. (chars p.0.now ≡ from_candidate (chars text.now)) ×
        (chars p.1.now ≡ candidate_at (from_candidate (chars text.now)))) }
    ensures end { IfSome result (λ p. IsEnd text.now p.0.now) }
    ensures front { IfSome result (λ p. (v : List ℕ) × (p.0.now ≡ p.1.now ++ v)) }
    ensures some { IfSome result (λ p. ¬ (chars p.1.now ≡ [])) }
{
    let from = from_first(text, &BeginsCandidate);
    if !has_some(from) {
        return None;
    }
    Some((from, candidate_at(from)))
}
