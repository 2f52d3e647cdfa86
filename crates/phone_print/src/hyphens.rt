//! Separators made hyphens, as texts of RFC 3966 have them.
ghost use Rattle.std.specs.Prelude.{◌≡◌, ◌++◌, chars, encode_utf8_all, string_bytes};
ghost use Rattle.std.specs.Prelude.{OnErr, OnOk};
ghost use Rattle.phone_chars.specs.Characters.{is_separator};
ghost use Rattle.phone_parts.specs.Texts.{begins};
ghost use Rattle.phone_print.specs.Behind.{IsBehind};
ghost use Rattle.phone_print.specs.Texts.{hyphenated};

use phone_chars::chars::is_separator;
use phone_chars::cuts::split_first;
use std::alloc::AllocError;

/// Whether the first character of a text is a separator.
fn begins_apart(text: &str) -> bool
    ensures { result ≡ begins is_separator (chars text.now) }
{
    match split_first(text) {
        Some((c, _)) => is_separator(c),
        None => false,
    }
}

/// Whether a character is a separator. Most are digits, which aren't.
#[inline]
#[tactic(auto, using(crate::proofs::Digits::digit_apart))]
fn is_apart(c: char) -> bool
    ensures { result ≡ is_separator c }
{
    if c.is_ascii_digit() {
        false
    } else {
        is_separator(c)
    }
}

/// Puts a text behind another, with each longest run of separators made one hyphen; all other
/// characters stay in their order. Refused only for memory; then a part of it may stand there.
pub fn push_hyphenated(out: &mut String, text: &str) -> Result<(), AllocError>
    ensures text { OnOk result (string_bytes out.new ≡ string_bytes out.old ++
        encode_utf8_all (hyphenated (chars text.now))) }
    ensures behind { OnErr result (IsBehind (string_bytes out.old) (string_bytes out.new)) }
{
    let mut rest = text;
    while let Some((c, after)) = split_first(rest) {
        if !is_apart(c) {
            out.push(c)?;
        } else if !begins_apart(after) {
            out.push('-')?;
        }
        rest = after;
    }
    Ok(())
}
