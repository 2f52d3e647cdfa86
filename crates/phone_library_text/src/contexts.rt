//! The context of a local number in a `tel:` text: whether a text is one.
ghost use Rattle.std.specs.Prelude.{◌≡◌, ◌↔◌, ◌==◌, ◌||◌, ◌&&◌, IsTrue, chars};
ghost use Rattle.std.specs.List.{list_all, list_any};
ghost use Rattle.phone_chars.specs.Characters.{is_alpha, is_nd};
ghost use Rattle.phone_parts.specs.Texts.{begins, ends};
ghost use Rattle.phone_library_text.specs.Contexts.{IsContext, IsDomain, IsGlobal};
ghost use Rattle.phone_library_text.specs.Contexts.{are_global_digits, is_alphanumeric, is_label};
ghost use Rattle.phone_library_text.specs.Contexts.{may_follow};

use crate::places::{is_nothing, split_at_word};
use phone_chars::chars::{is_alpha, is_nd};
use phone_chars::cuts::{split_first, split_last};

/// Whether a text is a context, which says where a local number is dialled: a global number's
/// digits, or a domain's name (RFC 3966, section 5.1.5).
pub(crate) fn is_context(text: &str) -> bool
    ensures { IsTrue result ↔ IsContext (chars text.now) }
{
    is_global(text) || is_domain(text)
}

/// Whether a text is a plus sign, and then digits of any script and visual separators, with at
/// least one digit.
fn is_global(text: &str) -> bool
    ensures { IsTrue result ↔ IsGlobal (chars text.now) }
{
    match text.strip_prefix('+') {
        Some(rest) => are_global_digits(rest),
        None => false,
    }
}

/// Whether a text is digits of any script and visual separators, with at least one digit.
fn are_global_digits(text: &str) -> bool
    ensures { result ≡ are_global_digits (chars text.now) }
{
    may_all_follow(text) && has_digit(text)
}

/// Whether each character of a text may follow a plus sign.
fn may_all_follow(text: &str) -> bool
    ensures { result ≡ list_all may_follow (chars text.now) }
{
    text.chars().all(|c| may_follow(c))
}

/// Whether a character is a digit of any script, or a visual separator.
fn may_follow(c: char) -> bool
    ensures { result ≡ may_follow c }
{
    is_nd(c) || matches!(c, '-' | '.' | '(' | ')')
}

/// Whether a text has a digit.
fn has_digit(text: &str) -> bool
    ensures { result ≡ list_any is_nd (chars text.now) }
{
    text.chars().any(|c| is_nd(c))
}

/// Whether a character may stand at the ends of a label: a letter of ASCII, or a digit.
fn is_alphanumeric(c: char) -> bool
    ensures { result ≡ is_alphanumeric c }
{
    is_alpha(c) || is_nd(c)
}

/// Whether a text is a label of a domain's name.
fn is_label(text: &str) -> bool
    ensures { result ≡ is_label (chars text.now) }
{
    may_all_stand(text) && begins_label(text) && ends_label(text)
}

/// Whether each character of a text may stand in a label.
fn may_all_stand(text: &str) -> bool
    ensures { result ≡ list_all (λ c. is_alphanumeric c || (c == 45)) (chars text.now) }
{
    text.chars().all(|c| is_alphanumeric(c) || c == '-')
}

/// Whether a text begins as a label may.
fn begins_label(text: &str) -> bool
    ensures { result ≡ begins is_alphanumeric (chars text.now) }
{
    match split_first(text) {
        Some((c, _)) => is_alphanumeric(c),
        None => false,
    }
}

/// Whether a text ends as a label may.
fn ends_label(text: &str) -> bool
    ensures { result ≡ ends is_alphanumeric (chars text.now) }
{
    match split_last(text) {
        Some((_, c)) => is_alphanumeric(c),
        None => false,
    }
}

/// Whether a text begins with a letter of ASCII.
fn begins_with_letter(text: &str) -> bool
    ensures { result ≡ begins is_alpha (chars text.now) }
{
    match split_first(text) {
        Some((c, _)) => is_alpha(c),
        None => false,
    }
}

/// Whether a text is a domain's last label: one that begins with a letter.
fn is_last_label(text: &str) -> bool
    ensures { result ≡ (is_label (chars text.now) && begins is_alpha (chars text.now)) }
{
    is_label(text) && begins_with_letter(text)
}

/// Whether a text is a domain's name.
fn is_domain(text: &str) -> bool
    ensures { IsTrue result ↔ IsDomain (chars text.now) }
{
    let mut rest = text;
    while let Some((label, after)) = split_at_word(rest, ".") {
        if is_nothing(after) {
            return is_last_label(label);
        }
        if !is_label(label) {
            return false;
        }
        rest = after;
    }
    is_last_label(rest)
}
