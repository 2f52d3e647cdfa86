//! That a number has the national prefix that its territory writes.
ghost use Rattle.std.specs.Prelude.{◌≡◌, ◌||◌, false, not, IfOk, chars, string_bytes};
ghost use Rattle.std.specs.List.{find, list_any};
ghost use Rattle.std.specs.Option.{option_copied, option_map_or};
ghost use Rattle.phone_library.specs.Kinds.{matches_whole};
ghost use Rattle.phone_library.specs.Stripping.{left_by_match, left_by_pattern, left_by_prefix};
ghost use Rattle.phone_matches.specs.Prefixes.{asked, is_bare};
ghost use Rattle.phone_plans.specs.CodeLookUps.{first_of, territories};
ghost use Rattle.phone_questions.specs.Letters.{digits_only};
ghost use Rattle.phone_matches.specs.Prefixes.{begins_prefixed, fits, has_prefix, is_kept};
ghost use Rattle.phone_matches.specs.Prefixes.{is_prefixed, is_prefixing, wants_prefix};
ghost use Rattle.phone_matches.specs.Prefixes.{writes_prefix};
ghost use Rattle.phone_territory.specs.First.{AreCuts};
ghost use Rattle.phone_values.specs.Numbers.{text_of};
ghost use Rattle.phone_parts.specs.Texts.{is_front, without_front};

use phone_plans::{Plans, Territory};
use phone_questions::digits_only;
use phone_read::trims::{has_front, without_front};
use phone_territory::{Captured, Format, Pattern};
use phone_values::country::Source;
use phonenumber::PhoneNumber;
use std::alloc::AllocError;
use std::borrow::CowStr;

/// Whether a layout is that of digits. Refused only for memory.
fn fits(layout: &Format, digits: &str) -> Result<bool, AllocError>
    ensures { IfOk result (λ b. b ≡ fits digits.now layout.now) }
{
    if !layout.is_led(digits)? {
        return Ok(false);
    }
    layout.whole_pattern().is_whole_match(digits)
}

/// The first of these layouts that is that of digits: its last leading pattern matches at their
/// front, or it has none, and its pattern matches them as a whole. Refused only for memory.
pub fn first_fitting<'a>(
    layouts: &'a [Format],
    digits: &str,
) -> Result<Option<&'a Format>, AllocError>
    ensures { IfOk result (λ f. option_copied f ≡ find (fits digits.now) layouts.entry.now) }
{
    for layout in layouts {
        if fits(layout, digits)? {
            return Ok(Some(layout));
        }
    }
    Ok(None)
}

/// Whether a rule writes the first group alone, perhaps in round brackets.
fn is_bare(rule: &str) -> bool
    ensures { result ≡ is_bare rule.now }
{
    matches!(rule, "$FG" | "($FG" | "$FG)" | "($FG)")
}

/// Whether a rule writes more than the first group, perhaps in round brackets.
fn is_prefixing(rule: &str) -> bool
    ensures { result ≡ is_prefixing rule.now }
{
    !rule.is_empty() && !is_bare(rule)
}

/// Whether a layout writes a national prefix, which may not be left out.
fn writes_prefix(layout: &Format) -> bool
    ensures { result ≡ writes_prefix layout.now }
{
    match layout.national_prefix() {
        Some(rule) => !layout.is_national_prefix_optional() && is_prefixing(rule),
        None => false,
    }
}

/// Whether a territory's layout of digits does. Refused only for memory.
fn wants_prefix(m: &Territory, digits: &str) -> Result<bool, AllocError>
    ensures { IfOk result (λ b. b ≡ wants_prefix m.now digits.now) }
{
    match first_fitting(m.formats(), digits)? {
        Some(layout) => Ok(writes_prefix(layout)),
        None => Ok(false),
    }
}

/// Whether a territory's parsing pattern matches at the front of digits, or where it has none they
/// begin with its national prefix. Refused only for memory.
fn begins_prefixed(m: &Territory, digits: &str) -> Result<bool, AllocError>
    ensures { IfOk result (λ b. b ≡ begins_prefixed m.now digits.now) }
{
    match m.national_prefix_for_parsing_pattern() {
        Some(pattern) => pattern.is_at_start(digits),
        None => Ok(begins_by_text(m, digits)),
    }
}

/// Whether digits begin with a territory's national prefix.
fn begins_by_text(m: &Territory, digits: &str) -> bool
    ensures { result ≡
        option_map_or (λ prefix. is_front prefix digits.now) m.now.national_prefix false }
{
    match m.national_prefix() {
        Some(prefix) => has_front(digits, prefix),
        None => false,
    }
}

/// What is left of digits behind a match at their front. Refused only for memory.
fn left_by_match(
    rule: Option<&str>,
    pattern: &Pattern,
    digits: &str,
    found: Captured,
) -> Result<String, AllocError>
    requires { AreCuts digits.now found }
    ensures { IfOk result (λ t. string_bytes t ≡ (left_by_match pattern.now
        (option_copied rule.entry) digits.now found found.last).national) }
{
    match (rule, found.last) {
        (Some(rule), Some(_)) => pattern.replace(rule, digits),
        _ => String::from_str(pattern.allocator(), &digits[found.span.1..]),
    }
}

/// What a parsing pattern leaves of digits. Refused only for memory.
fn left_by_pattern(
    rule: Option<&str>,
    pattern: &Pattern,
    digits: &str,
) -> Result<String, AllocError>
    ensures { IfOk result (λ t. string_bytes t ≡ (left_by_pattern pattern.now
        (option_copied rule.entry) digits.now).national) }
{
    match pattern.captures(digits)? {
        Some(found) if found.span.0 == 0 => left_by_match(rule, pattern, digits, found),
        _ => String::from_str(pattern.allocator(), digits),
    }
}

/// What is left of digits once the national prefix is cut off. Refused only for memory.
fn left_by_prefix(m: &Territory, digits: &str) -> Result<String, AllocError>
    ensures { IfOk result (λ t. string_bytes t ≡ (left_by_prefix m.now digits.now).national) }
{
    match m.national_prefix_for_parsing_pattern() {
        Some(pattern) => left_by_pattern(m.national_prefix_transform_rule(), pattern, digits),
        None => left_by_text(m, digits),
    }
}

/// The same by the text of the national prefix. Refused only for memory.
fn left_by_text(m: &Territory, digits: &str) -> Result<String, AllocError>
    ensures { IfOk result (λ t. string_bytes t ≡
        without_front m.now.national_prefix digits.now) }
{
    let left = without_front(m.national_prefix(), CowStr::Borrowed(digits));
    String::from_str(m.allocator(), left.as_str())
}

/// Whether a territory's general pattern matches all of the digits. Refused only for memory.
fn matches_general(m: &Territory, digits: &str) -> Result<bool, AllocError>
    ensures { IfOk result (λ b. b ≡ matches_whole m.now.general digits.now) }
{
    m.descriptors().general().pattern().is_whole_match(digits)
}

/// Whether the general pattern matches digits, and would no longer once the prefix is cut off.
/// Refused only for memory.
fn is_kept(m: &Territory, digits: &str) -> Result<bool, AllocError>
    ensures { IfOk result (λ b. b ≡ is_kept m.now digits.now) }
{
    if !matches_general(m, digits)? {
        return Ok(false);
    }
    let left = left_by_prefix(m, digits)?;
    Ok(!matches_general(m, left.as_str())?)
}

/// Whether digits have a territory's national prefix, if only an empty one. Refused only for
/// memory.
fn is_prefixed(m: &Territory, digits: &str) -> Result<bool, AllocError>
    ensures { IfOk result (λ b. b ≡ is_prefixed m.now digits.now) }
{
    if !begins_prefixed(m, digits)? {
        return Ok(false);
    }
    Ok(!is_kept(m, digits)?)
}

/// Whether digits are no number of this territory that wants a prefix, or the text has it. Refused
/// only for memory.
fn has_prefix_in(m: &Territory, digits: &str, text: &str) -> Result<bool, AllocError>
    ensures { IfOk result (λ b. b ≡
        (not (wants_prefix m.now digits.now) || is_prefixed m.now (digits_only (chars text.now)))) }
{
    if !wants_prefix(m, digits)? {
        return Ok(true);
    }
    let all = digits_only(m.allocator(), text)?;
    is_prefixed(m, all.as_str())
}

/// The territory that is asked for the prefix of a number.
fn asked<'d>(db: &'d Plans, number: &PhoneNumber) -> Option<&'d Territory>
    ensures { option_copied result ≡ asked number.now.code.source
        (first_of (territories number.now.code.value db.entry.now)) }
{
    match number.code().source() {
        Source::Default => db.first_by_code(&number.code().value()),
        _ => None,
    }
}

/// Whether a number that is read from a text has the national prefix that it should have: where its
/// calling code is the hint's own, and its main territory writes a prefix before such numbers, the
/// text's digits begin with it. Refused only for memory.
pub fn has_prefix(db: &Plans, number: &PhoneNumber, text: &str) -> Result<bool, AllocError>
    ensures { IfOk result (λ b. b ≡ has_prefix db.now number.now (chars text.now)) }
{
    let Some(m) = asked(db, number) else {
        return Ok(true);
    };
    let digits = number.national().to_string(db.allocator())?;
    has_prefix_in(m, digits.as_str(), text)
}
