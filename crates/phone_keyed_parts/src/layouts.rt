//! Which layouts may show the digits of a number that is keyed in, and what they print.
ghost use Rattle.std.specs.Prelude.{◌≡◌, filter, map, IfOk, option_map, string_bytes};
ghost use Rattle.std.specs.Borrow.{Bor};
ghost use Rattle.std.specs.List.{list_any};
ghost use Rattle.std.specs.Option.{option_copied};
ghost use Rattle.phone_records.specs.declared.loader.Format as loader;
ghost use Rattle.phone_keyed_parts.specs.Layouts as layout_rules;

use crate::line::Line;
use crate::templates::is_simple;
use phone_base::results::in_place_of;
use phone_territory::{Format, Territory};
use std::alloc::{AllocError, Global};

/// Whether a rule writes the first group alone, perhaps in brackets.
fn is_first_group(rule: &str) -> bool
    ensures { result ≡ layout_rules.is_first_group rule.now }
{
    matches!(
        rule,
        "" | "$FG" | "($FG)" | "($FG" | "$FG)" | "$1" | "($1)" | "($1" | "$1)"
    )
}

/// Whether a layout writes no national prefix: it has no rule, or its rule writes the first group
/// alone.
fn has_no_prefix(layout: &Format) -> bool
    ensures { result ≡ layout_rules.has_no_prefix layout.now }
{
    match layout.national_prefix() {
        Some(rule) => is_first_group(rule),
        None => true,
    }
}

/// Whether a layout's rule parts the national prefix by a space or a hyphen.
pub(crate) fn is_spaced(layout: &Format) -> bool
    ensures { result ≡ layout_rules.is_spaced layout.now }
{
    match layout.national_prefix() {
        Some(rule) => has_gap(rule),
        None => false,
    }
}

/// Whether a rule has a space or a hyphen.
fn has_gap(rule: &str) -> bool
    ensures { result ≡ list_any layout_rules.is_gap rule.now }
{
    rule.as_bytes().iter().any(|b| is_gap(*b))
}

/// Whether a byte is a space or a hyphen.
fn is_gap(byte: u8) -> bool
    ensures { result ≡ layout_rules.is_gap byte }
{
    byte == b' ' || byte == b'-'
}

/// Whether a layout has a rule for carriers, which isn't empty.
fn has_carrier_rule(layout: &Format) -> bool
    ensures { result ≡ layout_rules.has_carrier_rule layout.now }
{
    match layout.domestic_carrier() {
        Some(rule) => !rule.is_empty(),
        None => false,
    }
}

/// Whether a layout's rule goes with the national prefix that was typed, or with its absence.
fn goes_with_prefix(line: &Line<'_>, layout: &Format) -> bool
    ensures { result ≡ layout_rules.goes_with_prefix line.now layout.now }
{
    let is_optional = layout.is_national_prefix_optional();
    if line.prefix.is_empty() {
        line.is_whole || has_no_prefix(layout) || is_optional
    } else {
        !has_no_prefix(layout) || is_optional || has_carrier_rule(layout)
    }
}

/// Whether a layout may show the digits of a line.
fn is_eligible(line: &Line<'_>, layout: &Format) -> bool
    ensures { result ≡ layout_rules.is_eligible line.now layout.now }
{
    is_simple(layout.format()) && goes_with_prefix(line, layout)
}

/// The territory's layouts: of a whole number without a national prefix the international ones,
/// where it has any.
fn layouts_of<'d>(line: &Line<'_>, m: &'d Territory) -> &'d [Format]
    ensures { result.now ≡ layout_rules.layouts_of line.now m.entry.now }
{
    if line.is_whole && line.prefix.is_empty() && !m.international_formats().is_empty() {
        m.international_formats()
    } else {
        m.formats()
    }
}

/// Which of the territory's layouts may show the digits of a line. Refused only for memory.
pub(crate) fn eligible<'d>(alloc: Global, line: &Line<'d>) -> Result<Vec<&'d Format>, AllocError>
    ensures { IfOk result (λ v. map (λ (f : Bor loader.Format). f.now) v.items ≡
        layout_rules.eligible line.now) }
{
    match line.territory {
        Some(m) => eligible_of(alloc, line, layouts_of(line, m)),
        None => Ok(Vec::new(alloc)),
    }
}

/// Which of these layouts may show the digits of a line. Refused only for memory.
fn eligible_of<'d>(
    alloc: Global,
    line: &Line<'_>,
    all: &'d [Format],
) -> Result<Vec<&'d Format>, AllocError>
    ensures { IfOk result (λ v. map (λ (f : Bor loader.Format). f.now) v.items ≡
        filter (layout_rules.is_eligible line.now) all.entry.now) }
{
    all.iter().filter(|f| is_eligible(line, f)).collect(alloc)
}

/// What stands in front, a space if there is to be one, and the national digits as they are laid
/// out. Refused only for memory.
pub fn joined(alloc: Global, front: &str, is_spaced: bool, text: &str) -> Result<String, AllocError>
    ensures { IfOk result (λ t. string_bytes t ≡ layout_rules.joined front.now is_spaced text.now) }
{
    let mut shown = String::from_str(alloc, front)?;
    if is_spaced && needs_space(front) {
        shown.push(' ')?;
    }
    shown.push_str(text)?;
    Ok(shown)
}

/// Whether a text has something in it, and doesn't end in a space.
fn needs_space(front: &str) -> bool
    ensures { result ≡ layout_rules.needs_space front.now }
{
    match front.as_bytes().last() {
        Some(byte) => *byte != b' ',
        None => false,
    }
}

/// The national digits laid out by a layout, behind what stands in front of them. Refused only for
/// memory.
fn complete_text(alloc: Global, line: &Line<'_>, layout: &Format) -> Result<String, AllocError>
    ensures { IfOk result (λ t. string_bytes t ≡ layout_rules.complete_text line.now layout.now) }
{
    let text = layout.lay_out(line.national.as_str())?;
    let shown = joined(alloc, line.front.as_str(), is_spaced(layout), text.as_str());
    in_place_of(text, shown)
}

/// Whether a byte is a digit or a plus sign.
fn is_key(byte: u8) -> bool
    ensures { result ≡ layout_rules.is_key byte }
{
    byte.is_ascii_digit() || byte == b'+'
}

/// The keys that are left behind this byte of a text: all where it is none, else what follows it
/// among them; none where it isn't their first.
fn past_key(byte: u8, keys: &[u8]) -> Option<&[u8]>
    ensures { option_copied result ≡ layout_rules.past_key byte keys.now }
{
    if !is_key(byte) {
        return Some(keys);
    }
    let (first, others) = keys.split_first()?;
    if byte == *first { Some(others) } else { None }
}

/// Whether a text has these keys and no others: digits and plus signs.
fn has_keys(text: &str, keys: &str) -> bool
    ensures { result ≡ layout_rules.has_keys text.now keys.now }
{
    let mut left = keys.as_bytes();
    let mut rest = text.as_bytes();
    while let Some((byte, after)) = rest.split_first() {
        let Some(others) = past_key(*byte, left) else {
            return false;
        };
        left = others;
        rest = after;
    }
    left.is_empty()
}

/// The text, if it has these keys and no others.
fn if_has_keys(keys: &str, text: String) -> Option<String>
    ensures { option_map string_bytes result ≡
        layout_rules.if_has_keys keys.now (string_bytes text) }
{
    if has_keys(text.as_str(), keys) {
        Some(text)
    } else {
        None
    }
}

/// The national digits laid out by a layout whose pattern matches them whole, where the text has
/// all keys and no others. Refused only for memory.
fn text_by(
    alloc: Global,
    line: &Line<'_>,
    keys: &str,
    layout: &Format,
) -> Result<Option<String>, AllocError>
    ensures { IfOk result (λ t. option_map string_bytes t ≡
        layout_rules.text_by line.now keys.now layout.now) }
{
    if !matches_whole(line, layout)? {
        return Ok(None);
    }
    let text = complete_text(alloc, line, layout)?;
    Ok(if_has_keys(keys, text))
}

/// Whether a layout's pattern matches the national digits whole. Refused only for memory.
fn matches_whole(line: &Line<'_>, layout: &Format) -> Result<bool, AllocError>
    ensures { IfOk result (λ b. b ≡ layout_rules.matches_whole line.now layout.now) }
{
    layout
        .whole_pattern()
        .is_whole_match(line.national.as_str())
}

/// Whether a space parts the text from the front: a layout whose pattern matches the national
/// digits whole tells. Refused only for memory.
fn spaced_by(line: &Line<'_>, layout: &Format, is_spaced_before: bool) -> Result<bool, AllocError>
    ensures { IfOk result (λ b. b ≡
        layout_rules.spaced_by line.now layout.now is_spaced_before) }
{
    if matches_whole(line, layout)? {
        Ok(is_spaced(layout))
    } else {
        Ok(is_spaced_before)
    }
}

/// The national digits laid out as a complete number's, by the first layout that gives a text with
/// all keys and no others; beside it, whether a space parts it from the front. Refused only for
/// memory.
pub fn complete(
    alloc: Global,
    line: &Line<'_>,
    keys: &str,
    is_spaced_before: bool,
    left: &[&Format],
) -> Result<(bool, Option<String>), AllocError>
    ensures { IfOk result (λ c. (c.0, option_map string_bytes c.1) ≡
        layout_rules.complete line.now keys.now is_spaced_before
        (map (λ (f : Bor loader.Format). f.now) left.now)) }
{
    let mut spaced = is_spaced_before;
    for layout in left {
        spaced = spaced_by(line, layout, spaced)?;
        if let Some(text) = text_by(alloc, line, keys, layout)? {
            return Ok((spaced, Some(text)));
        }
    }
    Ok((spaced, None))
}
