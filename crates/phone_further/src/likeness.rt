//! How like two numbers are, by whose rules.
ghost use Rattle.std.specs.Prelude.{◌≡◌, IfOk};
ghost use Rattle.phone_values.specs.declared.reading.Reading.{Reading};
ghost use Rattle.phone_questions.specs.declared.matches.NumberMatch.{NumberMatch as Match};
ghost use Rattle.phone_further.specs.TextMatches.{is_behind_prefix, match_guessed, match_unsure};
ghost use Rattle.phone_further.specs.TextMatches.{unsure};

use crate::matches::match_numbers;
use phone_questions::{NumberMatch, match_of};
use phone_values::country::Source;
use phonenumber::PhoneNumber;
use std::alloc::{AllocError, Global};

/// What tells how like two numbers are. Contracts see its answers.
pub trait Likeness {
    // How like two numbers are.
    ghost like: { Self → Reading → Reading → Match };

    // How like a number is to one that was read beside it, so that its calling code was guessed.
    ghost guessed: { Self → Reading → Reading → Match };

    /// How like two numbers are. Refused only for memory.
    fn match_numbers(
        &self,
        alloc: Global,
        a: &PhoneNumber,
        b: &PhoneNumber,
    ) -> Result<NumberMatch, AllocError>
        ensures { IfOk result (λ m. m ≡ like self.now a.now b.now) };

    /// How like a number is to one that was read beside it. Refused only for memory.
    fn match_beside(
        &self,
        alloc: Global,
        a: &PhoneNumber,
        b: &PhoneNumber,
    ) -> Result<NumberMatch, AllocError>
        ensures { IfOk result (λ m. m ≡ guessed self.now a.now b.now) };
}

/// As libphonenumber tells: no match is exact where a calling code was guessed.
#[derive(Clone, Copy)]
pub struct LibraryLikeness;

impl Likeness for LibraryLikeness {
    ghost use Rattle.phone_questions.specs.Matches.{match_of};
    ghost use Rattle.phone_further.specs.TextMatches.{match_unsure};

    ghost like = { λ _. match_of };

    ghost guessed = { λ _. match_unsure };

    fn match_numbers(
        &self,
        alloc: Global,
        a: &PhoneNumber,
        b: &PhoneNumber,
    ) -> Result<NumberMatch, AllocError> {
        match_of(alloc, a, b)
    }

    fn match_beside(
        &self,
        alloc: Global,
        a: &PhoneNumber,
        b: &PhoneNumber,
    ) -> Result<NumberMatch, AllocError> {
        match_unsure(alloc, a, b)
    }
}

/// Our own answer: the end of a number counts from seven digits on, and a match may be exact where
/// the calling code stands behind an international prefix, as `0064 3 331 6005` beside a number of
/// New Zealand.
#[derive(Clone, Copy)]
pub struct OwnLikeness;

impl Likeness for OwnLikeness {
    ghost use Rattle.phone_further.specs.Matches.{match_numbers};
    ghost use Rattle.phone_further.specs.TextMatches.{match_guessed};

    ghost like = { λ _. match_numbers };

    ghost guessed = { λ _. match_guessed };

    fn match_numbers(
        &self,
        alloc: Global,
        a: &PhoneNumber,
        b: &PhoneNumber,
    ) -> Result<NumberMatch, AllocError> {
        match_numbers(alloc, a, b)
    }

    fn match_beside(
        &self,
        alloc: Global,
        a: &PhoneNumber,
        b: &PhoneNumber,
    ) -> Result<NumberMatch, AllocError> {
        match_guessed(alloc, a, b)
    }
}

/// How like two numbers are, where the calling code of one was guessed. Refused only for memory.
fn match_unsure(alloc: Global, a: &PhoneNumber, b: &PhoneNumber) -> Result<NumberMatch, AllocError>
    ensures { IfOk result (λ m. m ≡ match_unsure a.now b.now) }
{
    Ok(unsure(match_of(alloc, a, b)?))
}

/// The same by our own answer. Refused only for memory.
fn match_guessed(alloc: Global, a: &PhoneNumber, b: &PhoneNumber) -> Result<NumberMatch, AllocError>
    ensures { IfOk result (λ m. m ≡ match_guessed a.now b.now) }
{
    let found = match_numbers(alloc, a, b)?;
    if is_behind_prefix(b.code().source()) {
        Ok(found)
    } else {
        Ok(unsure(found))
    }
}

/// Whether a calling code stands behind an international prefix.
fn is_behind_prefix(source: Source) -> bool
    ensures { result ≡ is_behind_prefix source }
{
    matches!(source, Source::Idd)
}

/// No match is exact where a calling code was guessed.
fn unsure(found: NumberMatch) -> NumberMatch
    ensures { result ≡ unsure found }
{
    match found {
        NumberMatch::ExactMatch => NumberMatch::NsnMatch,
        _ => found,
    }
}
