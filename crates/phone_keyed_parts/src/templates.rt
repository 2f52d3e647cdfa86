//! Templates that show a number's beginning: a layout's text of nines, in which digits take the
//! places of nines.
ghost use Rattle.std.specs.Prelude.{◌≡◌, ◌≤◌, ◌||◌, [], false, chars, take, IfOk, option_map};
ghost use Rattle.std.specs.Prelude.{string_bytes, IsCharBoundary};
ghost use Rattle.phone_keyed_parts.specs.Templates as template_rules;

use phone_chars::chars::is_separator;
use phone_chars::cuts::split_first;
use phone_territory::Format;
use std::alloc::{AllocError, Global};

/// The digits of a longest number.
const NINES: &str = "999999999999999";

/// Whether a layout's template is of marks and groups alone, and its first group comes first.
pub(crate) fn is_simple(template: &str) -> bool
    ensures { result ≡ template_rules.is_simple false false (chars template.now) }
{
    let mut rest = template;
    let mut is_open = false;
    let mut seen = false;
    while let Some((c, after)) = split_first(rest) {
        if !may_stand(is_open, seen, c) {
            return false;
        }
        seen = is_seen(seen, is_open);
        is_open = opens(is_open, c);
        rest = after;
    }
    seen && !is_open
}

/// Whether a character may stand in a simple template: behind a dollar sign the name of a group,
/// else a dollar sign or a mark.
fn may_stand(is_open: bool, seen: bool, c: char) -> bool
    ensures { result ≡ template_rules.may_stand is_open seen c }
{
    if is_open {
        is_group(c, seen)
    } else {
        c == '$' || is_separator(c)
    }
}

/// Whether a dollar sign that names a group begins here.
fn opens(is_open: bool, c: char) -> bool
    ensures { result ≡ template_rules.opens is_open c }
{
    !is_open && c == '$'
}

/// Whether a group stands in front, after one was seen or not.
fn is_seen(seen: bool, is_open: bool) -> bool
    ensures { result ≡ (seen || is_open) }
{
    seen || is_open
}

/// Whether a group's name may stand here: 1 comes first.
fn is_group(group: char, seen: bool) -> bool
    ensures { result ≡ template_rules.is_group seen group }
{
    if seen {
        group.is_ascii_digit()
    } else {
        group == '1'
    }
}

/// So many nines.
fn nines(n: usize) -> &'static str
    requires { n ≤ 15 }
    ensures { result.now ≡ take n template_rules.nines }
{
    front(NINES, n)
}

/// What stands in a text in front of a place between two of its characters.
fn front(text: &str, at: usize) -> &str
    requires { IsCharBoundary text.now at }
    ensures { result.now ≡ take at text.now }
{
    &text[..at]
}

/// What a layout prints of as many nines as its pattern matches; none where these are fewer than
/// the digits. Refused only for memory.
pub(crate) fn template_of(layout: &Format, digits: &str) -> Result<Option<String>, AllocError>
    ensures { IfOk result (λ t. option_map string_bytes t ≡
        template_rules.template_of digits.now layout.now) }
{
    let Some((start, end)) = layout.whole_pattern().first_span(NINES)? else {
        return Ok(None);
    };
    let n = end - start;
    if digits.len() <= n {
        Ok(Some(layout.lay_out(nines(n))?))
    } else {
        Ok(None)
    }
}

/// The beginning of a template up to the last digit, each digit in the place of a nine; none where
/// nines are lacking. Refused only for memory.
pub(crate) fn begun(
    alloc: Global,
    template: &str,
    digits: &str,
) -> Result<Option<String>, AllocError>
    ensures { IfOk result (λ t. option_map string_bytes t ≡
        template_rules.begun [] (chars template.now) (chars digits.now)) }
{
    let mut shown = String::new(alloc);
    let mut rest = template;
    let mut left = digits;
    while let Some((digit, others)) = split_first(left) {
        let Some((c, after)) = split_first(rest) else {
            return Ok(None);
        };
        rest = after;
        if c == '9' {
            shown.push(digit)?;
            left = others;
        } else {
            shown.push(c)?;
        }
    }
    Ok(Some(shown))
}
