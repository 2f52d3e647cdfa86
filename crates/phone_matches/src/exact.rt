//! Exactly grouped: the runs of digits in a text are the groups of its number.
ghost use Rattle.std.specs.Prelude.{◌≡◌, ◌==◌, IfOk, chars, drop, length};
ghost use Rattle.std.specs.List.{list_any};
ghost use Rattle.phone_chars.specs.Characters.{is_digit};
ghost use Rattle.phone_matches.specs.Exact.{are_groups, are_same, digit_runs, end_as};
ghost use Rattle.phone_matches.specs.Exact.{is_exact, is_whole_in_last, without_extension};
ghost use Rattle.phone_matches.specs.Runs.{told};
ghost use Rattle.phone_parts.specs.Texts.{begins};

use crate::runs::groups;
use crate::test::Test;
use crate::texts::contains;
use phone_chars::chars::is_digit;
use phone_chars::cuts::{CharSet, split_first};
use std::alloc::{AllocError, Global};

/// The digits of ASCII.
#[derive(Drop)]
struct Digits;

impl CharSet for Digits {
    ghost use Rattle.phone_chars.specs.Characters.{is_digit};

    ghost members = { λ _. is_digit };

    fn has(&self, c: char) -> bool {
        is_digit(c)
    }
}

/// Whether a text begins with a digit.
fn begins_digit(text: &str) -> bool
    ensures { result ≡ begins is_digit (chars text.now) }
{
    match split_first(text) {
        Some((c, _)) => is_digit(c),
        None => false,
    }
}

/// The runs of digits of a text, with an empty one before them where it doesn't begin with a digit.
/// Refused only for memory.
#[tactic(auto, using(crate::proofs::Lists::told_insert))]
pub fn digit_runs(alloc: Global, text: &str) -> Result<Vec<&[u8]>, AllocError>
    ensures { IfOk result (λ all. told all.items ≡ digit_runs (chars text.now)) }
{
    let mut all = groups(alloc, text, &Digits)?;
    if !begins_digit(text) {
        all.insert(0, &[])?;
    }
    Ok(all)
}

/// Whether lists of texts are the same.
fn are_same(texts: &[&[u8]], others: &[&[u8]]) -> bool
    ensures { result ≡ are_same (told texts.now) (told others.now) }
{
    if texts.len() != others.len() {
        return false;
    }
    for at in 0..texts.len() {
        if *texts[at] != *others[at] {
            return false;
        }
    }
    true
}

/// Whether these runs are these groups, but the first may have more digits in front.
fn are_groups(runs: &[&[u8]], first: &[u8], others: &[&[u8]]) -> bool
    ensures { result ≡ are_groups first.now (told others.now) (told runs.now) }
{
    match runs.split_first() {
        Some((run, rest)) => run.ends_with(first) && are_same(rest, others),
        None => false,
    }
}

/// Runs without so many in front; none where there are no more.
fn without_first<'a>(runs: &'a [&'a [u8]], count: usize) -> &'a [&'a [u8]]
    ensures { result.now ≡ drop count runs.now }
{
    runs.get(count..).unwrap_or(&[])
}

/// Whether the last runs, as many as there are groups, are the groups so.
fn end_as(runs: &[&[u8]], groups: &[&[u8]]) -> bool
    ensures { result ≡ end_as (told groups.now) (told runs.now) }
{
    match groups.split_first() {
        Some((first, others)) => {
            let at = runs.len().saturating_sub(groups.len());
            are_groups(without_first(runs, at), first, others)
        }
        None => false,
    }
}

/// Whether the last run has all digits in it.
#[tactic(auto, using(crate::proofs::Lists::whole_in_last))]
fn is_whole_in_last(runs: &[&[u8]], digits: &[u8]) -> bool
    ensures { result ≡ is_whole_in_last digits.now (told runs.now) }
{
    let at = runs.len().saturating_sub(1);
    runs[at..].iter().any(|run| contains(run, digits))
}

/// Whether there is one run alone.
#[tactic(auto, using(crate::proofs::Lists::told_length))]
fn is_alone(runs: &[&[u8]]) -> bool
    ensures { result ≡ (length (told runs.now) == 1) }
{
    runs.len() == 1
}

/// The test that the runs of digits of a text are the groups of its number.
#[derive(Drop)]
pub struct IsExact<'a> {
    /// Whether the number has an extension.
    pub has_extension: bool,
    /// All digits of the number.
    pub digits: &'a [u8],
    /// The runs.
    pub runs: &'a [&'a [u8]],
}

impl<'a> IsExact<'a> {
    /// The runs without that of the extension.
    fn without_extension(&self) -> &[&'a [u8]]
        ensures { told result.now ≡
            without_extension self.now.has_extension (told self.now.runs.now) }
    {
        if self.has_extension {
            &self.runs[..self.runs.len().saturating_sub(1)]
        } else {
            self.runs
        }
    }
}

impl<'a> Test for IsExact<'a> {
    ghost use Rattle.phone_matches.specs.Exact.{is_exact};
    ghost use Rattle.phone_matches.specs.Runs.{told};

    ghost passes = { λ s. is_exact s.has_extension s.digits.now (told s.runs.now) };

    fn is_passed(&self, groups: &[&[u8]]) -> bool {
        let runs = self.without_extension();
        is_alone(self.runs) || is_whole_in_last(runs, self.digits) || end_as(runs, groups)
    }
}
