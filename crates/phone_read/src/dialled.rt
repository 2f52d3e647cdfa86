//! How a number was dialled: by a plus sign, an international prefix, or neither.
ghost use Rattle.std.specs.Prelude.{◌≡◌, ◌==◌, ℕ, Bool, true, false, List, Option, drop};
ghost use Rattle.std.specs.Prelude.{IsCharBoundary};
ghost use Rattle.std.specs.Prelude.{IfOk, IsOk, IfSome, None, option_map, chars, if◌then◌else◌};
ghost use Rattle.std.specs.Cow.{cow_str_bytes, IsBorrowedStr};
ghost use Rattle.std.specs.List.{list_all};
ghost use Rattle.std.specs.Option.{option_map_or};
ghost use Rattle.regex.specs.Strings.{match_span};
ghost use Rattle.phone_chars.specs.Characters.{is_digit, is_plus};
ghost use Rattle.phone_chars.specs.Cuts.{after_front};
ghost use Rattle.phone_chars.specs.Norm.{norm};
ghost use Rattle.phone_values.specs.declared.country.Source.TheVariants.{Plus};
ghost use Rattle.phone_territory.specs.First.{IsCut};
ghost use Rattle.phone_parts.specs.Parts.{parts_of};
ghost use Rattle.phone_parts.specs.Texts.{begins};
ghost use Rattle.phone_read.specs.Dialling.{after_match, dialled, found_by, is_bare, is_plain};
ghost use Rattle.phone_read.specs.Dialling.{front_of, unsigned};
ghost use Rattle.phone_read.specs.Lent.{IsLentDigits, KeepsLent};

use crate::trims::trim;
use phone_base::results::{zip, zip_value};
use phone_chars::chars::{is_plus, normalize};
use phone_chars::cuts::{CharSet, after_run};
use phone_parts::Number;
use phone_territory::Pattern;
use phone_values::country::Source;
use regex::{Match, Regex};
use std::alloc::{AllocError, Global};
use std::borrow::CowStr;

/// What finds an international prefix in digits. Contracts see the span that it finds in each text,
/// and whether it is idle: it has nothing to find, and asks for no memory.
pub trait Finder {
    ghost found: { Self → List ℕ → Option (ℕ × ℕ) };

    ghost is_idle: { Self → Bool };

    /// The first match, by the bytes where it begins and ends.
    fn find(&self, digits: &str) -> Result<Option<(usize, usize)>, AllocError>
        ensures span { IfOk result (λ span. span ≡ found self.now digits.now) }
        ensures cut { IfOk result (λ span. IfSome span (IsCut digits.now)) }
        ensures no_memory { is_idle self.now ≡ true → IsOk result };

    /// Where the first match ends, if it begins at the first byte.
    fn find_front(&self, digits: &str) -> Result<Option<usize>, AllocError>
        ensures end { IfOk result (λ end. end ≡ front_of (found self.now digits.now)) }
        ensures border { IfOk result (λ end. IfSome end (λ e. IsCut digits.now (0, e))) }
        ensures no_memory { is_idle self.now ≡ true → IsOk result };
}

/// A compiled pattern that was handed in, or none.
#[derive(Clone, Copy)]
struct Handed<'p> {
    alloc: Global,
    pattern: Option<&'p Regex>,
}

impl Finder for Handed<'_> {
    ghost use Rattle.std.specs.Prelude.{true, false};
    ghost use Rattle.std.specs.Option.{option_map_or};
    ghost use Rattle.phone_read.specs.Dialling.{found_by};

    ghost found = { λ h. found_by h.pattern };

    ghost is_idle = { λ h. option_map_or (λ _. false) h.pattern true };

    fn find(&self, digits: &str) -> Result<Option<(usize, usize)>, AllocError> {
        let Some(pattern) = self.pattern else {
            return Ok(None);
        };
        let mut matcher = pattern.matcher(self.alloc)?;
        Ok(span_of(matcher.find(digits)))
    }

    fn find_front(&self, digits: &str) -> Result<Option<usize>, AllocError> {
        match self.find(digits)? {
            Some((0, end)) => Ok(Some(end)),
            _ => Ok(None),
        }
    }
}

/// The bytes at which a match begins and ends, if there is one.
fn span_of(found: Option<Match<'_>>) -> Option<(usize, usize)>
    ensures { result ≡ option_map match_span found.entry }
{
    match found {
        Some(found) => Some((found.start(), found.end())),
        None => None,
    }
}

/// A territory's international prefix, or none.
#[derive(Clone, Copy)]
pub struct OfTerritory<'p> {
    pub pattern: Option<&'p Pattern>,
}

impl Finder for OfTerritory<'_> {
    ghost use Rattle.std.specs.Prelude.{true, false};
    ghost use Rattle.std.specs.Option.{option_copied, option_map_or};
    ghost use Rattle.phone_read.specs.Dialling.{found_in};

    ghost found = { λ t. found_in (option_copied t.pattern) };

    ghost is_idle = { λ t. option_map_or (λ _. false) t.pattern true };

    fn find(&self, digits: &str) -> Result<Option<(usize, usize)>, AllocError> {
        match self.pattern {
            Some(pattern) => pattern.first_span(digits),
            None => Ok(None),
        }
    }

    fn find_front(&self, digits: &str) -> Result<Option<usize>, AllocError> {
        match self.pattern {
            Some(pattern) => pattern.front_end(digits),
            None => Ok(None),
        }
    }
}

/// Plus signs.
struct PlusSigns;

impl CharSet for PlusSigns {
    ghost use Rattle.phone_chars.specs.Characters.{is_plus};

    ghost members = { λ _ c. is_plus c };

    fn has(&self, c: char) -> bool {
        is_plus(c)
    }
}

/// A number whose parts are digits, as `normalize` gives them, and how its calling code is told.
/// With a prefix from the reader the source is `Plus`. Without one, leading plus signs are dropped
/// and give `Plus`, none give `Default`; and where the pattern's first match is at the front of the
/// digits and no `0` follows it, the match is dropped, and the source becomes `Idd` unless it is
/// `Plus`. The carrier stays as it is. Refused only for memory, which is asked for only where there
/// is a pattern, or a part has other characters than ASCII digits, leading plus signs aside. A
/// borrowed national part of ASCII digits, leading plus signs aside, stays borrowed.
pub fn international_prefix<'a>(
    alloc: Global,
    pattern: Option<&Regex>,
    number: Number<'a>,
) -> Result<Number<'a>, AllocError>
    ensures source { IfOk result (λ n. n.country ≡
        (dialled (found_by pattern.entry) (parts_of number.entry).national
        (parts_of number.entry).prefix).source) }
    ensures national { IfOk result (λ n. cow_str_bytes n.national ≡
        (dialled (found_by pattern.entry) (parts_of number.entry).national
        (parts_of number.entry).prefix).digits) }
    ensures prefix { IfOk result (λ n. option_map cow_str_bytes n.prefix ≡
        option_map norm (parts_of number.entry).prefix) }
    ensures extension { IfOk result
        (λ n. option_map cow_str_bytes n.extension ≡
        option_map norm (parts_of number.entry).extension) }
    ensures carrier { IfOk result (λ n. n.carrier ≡ number.entry.carrier) }
    ensures no_memory { pattern.entry ≡ None →
        is_bare (parts_of number.entry).national (parts_of number.entry).prefix
        (parts_of number.entry).extension ≡ true → IsOk result }
    ensures lent { IfOk result (λ n. IsLentDigits number.entry.national →
        KeepsLent number.entry false n) }
{
    read_dialling(alloc, &Handed { alloc, pattern }, number)
}

/// How a number was dialled, by what finds an international prefix; its parts as digits.
pub fn read_dialling<'a, F: Finder>(
    alloc: Global,
    finder: &F,
    number: Number<'a>,
) -> Result<Number<'a>, AllocError>
    ensures source { IfOk result (λ n. n.country ≡
        (dialled (F.found finder.now) (parts_of number.entry).national
        (parts_of number.entry).prefix).source) }
    ensures national { IfOk result (λ n. cow_str_bytes n.national ≡
        (dialled (F.found finder.now) (parts_of number.entry).national
        (parts_of number.entry).prefix).digits) }
    ensures prefix { IfOk result (λ n. option_map cow_str_bytes n.prefix ≡
        option_map norm (parts_of number.entry).prefix) }
    ensures extension { IfOk result
        (λ n. option_map cow_str_bytes n.extension ≡
        option_map norm (parts_of number.entry).extension) }
    ensures carrier { IfOk result (λ n. n.carrier ≡ number.entry.carrier) }
    ensures no_memory { F.is_idle finder.now ≡ true →
        is_plain (parts_of number.entry).national (parts_of number.entry).prefix
        (parts_of number.entry).extension ≡ true → IsOk result }
    ensures lent { IfOk result (λ n. IsLentDigits number.entry.national →
        KeepsLent number.entry false n) }
{
    let Number {
        national,
        prefix,
        extension,
        carrier,
        ..
    } = number;
    let start = dialled_beside(alloc, finder, &prefix, national);
    let rest = zip(
        digits_if_any(alloc, prefix),
        digits_if_any(alloc, extension),
    );
    let ((start, rest), carrier) = zip_value(zip(start, rest), carrier)?;
    Ok(Number {
        country: start.0,
        national: start.1,
        prefix: rest.0,
        extension: rest.1,
        carrier,
    })
}

/// The source of a national part, and its digits: those after plus signs where the reader gave a
/// prefix, else those that [`dialled_alone`] finds.
fn dialled_beside<'a, F: Finder>(
    alloc: Global,
    finder: &F,
    prefix: &Option<CowStr<'a>>,
    national: CowStr<'a>,
) -> Result<(Source, CowStr<'a>), AllocError>
    ensures source { IfOk result (λ r. r.0 ≡ (dialled (F.found finder.now)
        (chars (cow_str_bytes national.entry))
        (option_map (λ p. chars (cow_str_bytes p)) prefix.now)).source) }
    ensures digits { IfOk result (λ r. cow_str_bytes r.1 ≡ (dialled (F.found finder.now)
        (chars (cow_str_bytes national.entry))
        (option_map (λ p. chars (cow_str_bytes p)) prefix.now)).digits) }
    ensures no_memory { F.is_idle finder.now ≡ true →
        list_all is_digit (after_front is_plus (chars (cow_str_bytes national.entry))) ≡ true →
        IsOk result }
    ensures lent { IfOk result (λ r. IsLentDigits national.entry → IsBorrowedStr r.1) }
{
    match prefix {
        Some(_) => Ok((Source::Plus, digits_after_signs(alloc, national)?)),
        None => dialled_alone(alloc, finder, national),
    }
}

/// The source of a national part that the reader gave no prefix for, and its digits after plus
/// signs and international prefix.
fn dialled_alone<'a, F: Finder>(
    alloc: Global,
    finder: &F,
    national: CowStr<'a>,
) -> Result<(Source, CowStr<'a>), AllocError>
    ensures source { IfOk result (λ r.
        r.0 ≡ (dialled (F.found finder.now) (chars (cow_str_bytes national.entry)) None).source) }
    ensures digits { IfOk result (λ r. cow_str_bytes r.1 ≡
        (dialled (F.found finder.now) (chars (cow_str_bytes national.entry)) None).digits) }
    ensures no_memory { F.is_idle finder.now ≡ true →
        list_all is_digit (after_front is_plus (chars (cow_str_bytes national.entry))) ≡ true →
        IsOk result }
    ensures lent { IfOk result (λ r. IsLentDigits national.entry → IsBorrowedStr r.1) }
{
    let has_plus = begins_with_plus(national.as_str());
    let digits = digits_after_signs(alloc, national)?;
    let after = place_after(finder, digits.as_str());
    let (after, digits) = zip_value(after, digits)?;
    Ok(match after {
        Some(at) => (unless_plus(has_plus, Source::Idd), trim(digits, at)),
        None => (unless_plus(has_plus, Source::Default), digits),
    })
}

/// `Plus` where the digits have a plus sign, else the source that they have without one.
fn unless_plus(has_plus: bool, source: Source) -> Source
    ensures { result ≡ (if has_plus then Plus else source) }
{
    if has_plus { Source::Plus } else { source }
}

/// The digits of a national part, whose leading plus signs are dropped first. Where digits alone
/// follow them, that takes no memory.
fn digits_after_signs(alloc: Global, national: CowStr<'_>) -> Result<CowStr<'_>, AllocError>
    ensures digits { IfOk result (λ d. cow_str_bytes d ≡
        unsigned (chars (cow_str_bytes national.entry))) }
    ensures same { IfOk result (λ d. cow_str_bytes d ≡
        norm (chars (cow_str_bytes national.entry))) }
    ensures no_memory { list_all is_digit
        (after_front is_plus (chars (cow_str_bytes national.entry))) ≡ true → IsOk result }
    ensures lent { IfOk result (λ d. IsLentDigits national.entry → IsBorrowedStr d) }
{
    digits(alloc, without_plus_signs(national))
}

/// The digits of a part. A part that is digits alone takes no memory.
fn digits(alloc: Global, part: CowStr<'_>) -> Result<CowStr<'_>, AllocError>
    ensures digits { IfOk result (λ d. cow_str_bytes d ≡ norm (chars (cow_str_bytes part.entry))) }
    ensures no_memory { list_all is_digit (chars (cow_str_bytes part.entry)) ≡ true → IsOk result }
    ensures borrowed { IfOk result (λ d. IsBorrowedStr part.entry →
        list_all is_digit (chars (cow_str_bytes part.entry)) ≡ true → IsBorrowedStr d) }
{
    normalize(alloc, part)
}

/// The digits of a part, if it is there.
fn digits_if_any<'a>(
    alloc: Global,
    part: Option<CowStr<'a>>,
) -> Result<Option<CowStr<'a>>, AllocError>
    ensures digits { IfOk result (λ d. option_map cow_str_bytes d ≡
        option_map norm (option_map (λ p. chars (cow_str_bytes p)) part.entry)) }
    ensures no_memory { option_map_or (list_all is_digit)
        (option_map (λ p. chars (cow_str_bytes p)) part.entry) true ≡ true → IsOk result }
{
    match part {
        Some(part) => Ok(Some(digits(alloc, part)?)),
        None => Ok(None),
    }
}

/// Whether the text begins with a plus sign.
fn begins_with_plus(text: &str) -> bool
    ensures { result ≡ begins is_plus (chars text.now) }
{
    text.starts_with(|c| is_plus(c))
}

/// The text without its leading plus signs.
fn without_plus_signs(text: CowStr<'_>) -> CowStr<'_>
    ensures text { chars (cow_str_bytes result) ≡
        after_front is_plus (chars (cow_str_bytes text.entry)) }
    ensures borrowed { IsBorrowedStr text.entry → IsBorrowedStr result }
{
    let at = text.as_str().len() - after_run(text.as_str(), &PlusSigns).len();
    trim(text, at)
}

/// Where digits go on after an international prefix at their front that no `0` follows.
fn place_after<F: Finder>(finder: &F, digits: &str) -> Result<Option<usize>, AllocError>
    ensures place { IfOk result (λ at. option_map (λ n. drop n digits.now) at ≡
        after_match digits.now (F.found finder.now digits.now)) }
    ensures border { IfOk result (λ at. IfSome at (λ n. IsCharBoundary digits.now n)) }
    ensures no_memory { F.is_idle finder.now ≡ true → IsOk result }
{
    let Some(end) = finder.find_front(digits)? else {
        return Ok(None);
    };
    if begins_with_zero(&digits[end..]) {
        Ok(None)
    } else {
        Ok(Some(end))
    }
}

/// Whether the digits begin with `0`.
fn begins_with_zero(digits: &str) -> bool
    ensures { result ≡ begins (λ d. d == 48) digits.now }
{
    digits.starts_with('0')
}
