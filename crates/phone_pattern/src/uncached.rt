//! Searches of a compiled pattern that keep nothing, for texts that no machine serves.
ghost use Rattle.std.specs.Prelude.{◌≡◌, ℕ, List, nat_le, if◌then◌else◌, Some, None, IfOk, IfSome};
ghost use Rattle.std.specs.Prelude.{string_bytes};
ghost use Rattle.regex.specs.Strings.{captures_haystack, captures_span, match_haystack};
ghost use Rattle.regex.specs.Strings.{match_span, regex_names, regex_source, IsReadFrom};
ghost use Rattle.phone_pattern.specs.First.{at_start, captured, first_span, front_end, replaced};
ghost use Rattle.phone_pattern.specs.First.{AreCuts, IsCut, IsUnderX};

use crate::pattern::Captured;
use regex::{Captures, Match, Regex, Template};
use std::alloc::{AllocError, Global};

/// Whether the first match of a compiled pattern begins at the first byte.
pub(crate) fn is_at_start(alloc: Global, re: &Regex, text: &str) -> Result<bool, AllocError>
    requires { IsUnderX re.now }
    ensures { IfOk result (λ b. b ≡ at_start (regex_source re.now) text.now) }
{
    match first_span(alloc, re, text)? {
        Some((start, _)) => Ok(start == 0),
        None => Ok(false),
    }
}

/// Where the first match of a compiled pattern ends, if it begins at the first byte.
pub(crate) fn front_end(alloc: Global, re: &Regex, text: &str) -> Result<Option<usize>, AllocError>
    requires { IsUnderX re.now }
    ensures end { IfOk result (λ end. end ≡ front_end (regex_source re.now) text.now) }
    ensures border { IfOk result (λ end. IfSome end (λ e. IsCut text.now (0, e))) }
{
    match first_span(alloc, re, text)? {
        Some((0, end)) => Ok(Some(end)),
        _ => Ok(None),
    }
}

/// Where the first match of a compiled pattern begins and ends.
#[cold]
#[inline(never)]
pub(crate) fn first_span(
    alloc: Global,
    re: &Regex,
    text: &str,
) -> Result<Option<(usize, usize)>, AllocError>
    requires { IsUnderX re.now }
    ensures span { IfOk result (λ found. found ≡ first_span (regex_source re.now) text.now) }
    ensures borders { IfOk result (λ found. IfSome found (IsCut text.now)) }
{
    let mut matcher = re.matcher(alloc)?;
    match matcher.find(text) {
        Some(found) => Ok(Some(span_of(found))),
        None => Ok(None),
    }
}

/// What the first match of a compiled pattern captures.
#[cold]
#[inline(never)]
pub(crate) fn captures(
    alloc: Global,
    re: &Regex,
    text: &str,
) -> Result<Option<Captured>, AllocError>
    requires { IsUnderX re.now }
    ensures found { IfOk result (λ found. found ≡ captured (regex_source re.now) text.now) }
    ensures borders { IfOk result (λ found. IfSome found (AreCuts text.now)) }
{
    let mut matcher = re.matcher(alloc)?;
    let last = re.captures_len().saturating_sub(1);
    match matcher.captures(text) {
        Some(captures) => Ok(Some(captured_in(&captures, last))),
        None => Ok(None),
    }
}

/// A text with the first match of a compiled pattern replaced by a template.
#[cold]
#[inline(never)]
pub(crate) fn replace(
    alloc: Global,
    re: &Regex,
    template: &str,
    text: &str,
) -> Result<String, AllocError>
    requires { IsUnderX re.now }
    ensures { IfOk result (λ out. string_bytes out ≡
        replaced (regex_source re.now) template.now text.now) }
{
    let template = Template::new(alloc, re.capture_names(), template)?;
    replace_by(alloc, re, &template, text)
}

/// The same, by a template that was read from its text.
fn replace_by(
    alloc: Global,
    re: &Regex,
    template: &Template,
    text: &str,
) -> Result<String, AllocError>
    requires { IsUnderX re.now }
    ensures { (source : List ℕ) → IsReadFrom (regex_names re.now) source template.now →
        IfOk result (λ out. string_bytes out ≡ replaced (regex_source re.now) source text.now) }
{
    let mut matcher = re.matcher(alloc)?;
    matcher.replace(alloc, text, template)
}

/// What a match captures, if its last group has this number.
fn captured_in(captures: &Captures<'_, '_>, last: usize) -> Captured
    ensures span { Some result.span ≡ captures_span captures.now 0 }
    ensures first { result.first ≡ (if nat_le 1 last then captures_span captures.now 1 else None) }
    ensures last { result.last ≡ captures_span captures.now last }
    ensures borders { AreCuts (captures_haystack captures.now) result }
{
    Captured {
        span: span_of(captures.get_match()),
        first: first_group(captures, last),
        last: group(captures, last),
    }
}

/// What a group of a match spans; group 0 is the match.
fn group(captures: &Captures<'_, '_>, n: usize) -> Option<(usize, usize)>
    ensures span { result ≡ captures_span captures.now n }
    ensures borders { IfSome result (IsCut (captures_haystack captures.now)) }
{
    Some(span_of(captures.get(n)?))
}

/// What the first group of a match spans, if the number of the last group is at least 1.
fn first_group(captures: &Captures<'_, '_>, last: usize) -> Option<(usize, usize)>
    ensures span { result ≡ (if nat_le 1 last then captures_span captures.now 1 else None) }
    ensures borders { IfSome result (IsCut (captures_haystack captures.now)) }
{
    if last == 0 {
        return None;
    }
    group(captures, 1)
}

fn span_of(found: Match<'_>) -> (usize, usize)
    ensures span { result ≡ match_span found.entry }
    ensures borders { IsCut (match_haystack found.entry) result }
{
    (found.start(), found.end())
}
