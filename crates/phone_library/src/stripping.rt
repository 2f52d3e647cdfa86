//! What a territory cuts off digits that are dialled inside it: a national prefix, perhaps with a
//! carrier's selection code.
ghost use Rattle.std.specs.Prelude.{◌≡◌, ◌&&◌, not, nat_le, IfOk, IfSome, Some, None};
ghost use Rattle.std.specs.Option.{option_copied};
ghost use Rattle.phone_library.specs.Kinds.{matches_whole};
ghost use Rattle.phone_library.specs.Lent.{left_of};
ghost use Rattle.phone_library.specs.Stripping.{left_by_match, left_by_pattern, left_by_prefix};
ghost use Rattle.phone_library.specs.Stripping.{left_by_text, strip, stripped};
ghost use Rattle.phone_read.specs.Strips.{held};
ghost use Rattle.phone_territory.specs.First.{AreCuts, IsCut, last_group};

use crate::kinds::matches_general;
use crate::lengths::{length_in, may_be_left};
use phone_base::results::{in_place_of, zip_value};
use phone_read::trims::{has_front, trim};
use phone_territory::{Captured, Pattern, Territory};
use std::alloc::AllocError;
use std::borrow::CowStr;

/// What is left of digits once something was cut off, and the carrier that was dialled with it.
#[derive(Drop)]
pub(crate) struct Left<'a> {
    /// The digits, which a transform rule may have written anew.
    pub(crate) national: CowStr<'a>,
    /// The carrier's selection code.
    pub(crate) carrier: Option<&'a str>,
}

/// What a territory's stripping leaves of digits; none where they stay, as they do where fewer than
/// a number has would be left, or not as many as one can have.
pub(crate) fn strip_national_prefix<'a>(
    m: &Territory,
    digits: &'a str,
) -> Result<Option<Left<'a>>, AllocError>
    ensures { IfOk result (λ left. left_of digits.entry.now left ≡
        stripped (Some m.now) digits.entry.now) }
{
    let Some(left) = strip(m, digits)? else {
        return Ok(None);
    };
    if may_be_left(length_in(m, left.national.as_str().len())) {
        Ok(Some(left))
    } else {
        Ok(in_place_of(left, None))
    }
}

/// What a territory cuts off digits, whatever their count; none where they stay, as they do where
/// the general pattern matches them and would no longer match what is left.
pub(crate) fn strip<'a>(m: &Territory, digits: &'a str) -> Result<Option<Left<'a>>, AllocError>
    ensures { IfOk result (λ left. left_of digits.entry.now left ≡ strip m.now digits.entry.now) }
{
    let Some(left) = left_by_prefix(m, digits)? else {
        return Ok(None);
    };
    let leaves = leaves_general(m, digits, left.national.as_str());
    let (leaves, left) = zip_value(leaves, left)?;
    if leaves {
        Ok(in_place_of(left, None))
    } else {
        Ok(Some(left))
    }
}

/// Whether the general pattern matches the digits, and no longer what is left of them.
fn leaves_general(m: &Territory, digits: &str, left: &str) -> Result<bool, AllocError>
    ensures { IfOk result (λ b. b ≡
        (matches_whole m.now.general digits.now && not (matches_whole m.now.general left.now))) }
{
    if !matches_general(m, digits)? {
        return Ok(false);
    }
    Ok(!matches_general(m, left)?)
}

/// What is left once the national prefix is cut off; none where the digits don't begin with it.
fn left_by_prefix<'a>(m: &Territory, digits: &'a str) -> Result<Option<Left<'a>>, AllocError>
    ensures { IfOk result (λ left. left_of digits.entry.now left ≡
        left_by_prefix m.now digits.entry.now) }
{
    match m.national_prefix_for_parsing_pattern() {
        Some(pattern) => left_by_pattern(m.national_prefix_transform_rule(), pattern, digits),
        None => Ok(left_by_text(m.national_prefix(), digits)),
    }
}

/// The same by the text of the national prefix.
fn left_by_text<'a>(prefix: Option<&str>, digits: &'a str) -> Option<Left<'a>>
    ensures { left_of digits.entry.now result ≡
        left_by_text (option_copied prefix.entry) digits.entry.now }
{
    match prefix {
        Some(prefix) => behind_text(prefix, digits),
        None => None,
    }
}

/// What follows a text that the digits begin with.
fn behind_text<'a>(prefix: &str, digits: &'a str) -> Option<Left<'a>>
    ensures { left_of digits.entry.now result ≡ left_by_text (Some prefix.now) digits.entry.now }
{
    if has_front(digits, prefix) {
        Some(Left {
            national: trim(CowStr::Borrowed(digits), prefix.len()),
            carrier: None,
        })
    } else {
        None
    }
}

/// The same by the parsing pattern. Mostly its first match isn't at the front, which a search of
/// that alone tells.
fn left_by_pattern<'a>(
    rule: Option<&str>,
    pattern: &Pattern,
    digits: &'a str,
) -> Result<Option<Left<'a>>, AllocError>
    ensures { IfOk result (λ left. left_of digits.entry.now left ≡
        left_by_pattern pattern.now (option_copied rule.entry) digits.entry.now) }
{
    if !pattern.is_at_start(digits)? {
        return Ok(None);
    }
    match pattern.captures(digits)? {
        Some(found) if found.span.0 == 0 => {
            Ok(Some(left_by_match(rule, pattern, digits, found)?))
        }
        _ => Ok(None),
    }
}

/// What a match at the front leaves.
fn left_by_match<'a>(
    rule: Option<&str>,
    pattern: &Pattern,
    digits: &'a str,
    found: Captured,
) -> Result<Left<'a>, AllocError>
    requires { AreCuts digits.now found }
    ensures { IfOk result (λ left. left_of digits.entry.now (Some left) ≡
        left_by_match pattern.now (option_copied rule.entry) digits.entry.now found found.last) }
{
    match (rule, found.last) {
        (Some(rule), Some(_)) => {
            let written = pattern.replace(rule, digits)?;
            Ok(Left {
                national: CowStr::Owned(written),
                carrier: if has_two_groups(pattern) {
                    part(digits, found.first)
                } else {
                    None
                },
            })
        }
        _ => Ok(Left {
            national: CowStr::Borrowed(&digits[found.span.1..]),
            carrier: part(digits, found.first),
        }),
    }
}

/// Whether a pattern has two groups or more.
fn has_two_groups(pattern: &Pattern) -> bool
    ensures { result ≡ nat_le 2 (last_group pattern.now) }
{
    pattern.captures_len() > 2
}

/// The part of a text that a group holds, where it took part.
fn part(text: &str, group: Option<(usize, usize)>) -> Option<&str>
    requires { IfSome group (IsCut text.now) }
    ensures { option_copied result ≡ held text.now group }
{
    let (start, end) = group?;
    Some(&text[start..end])
}
