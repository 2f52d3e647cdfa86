//! What is kept of a text in which a number was written with letters.
ghost use Rattle.std.specs.Prelude.{◌≡◌, IfOk, chars, option_map, string_bytes, unwrap_or};
ghost use Rattle.std.specs.Option.{option_copied};
ghost use Rattle.phone_dialling.specs.Kept.{begins_so, capital_of, first_three, from_digits};
ghost use Rattle.phone_dialling.specs.Kept.{from_first, is_hyphen, is_slash, is_space, is_stop};
ghost use Rattle.phone_dialling.specs.Kept.{kept_char, kept_of, sign_of};

use phone_chars::chars::{is_alpha, is_digit};
use phone_chars::cuts::split_first;
use std::alloc::{AllocError, Global};

/// What is kept of a text: its digits from `0` to `9`, letters of ASCII as capitals, and the signs
/// between groups, each as the plain one. Refused only for memory.
pub(crate) fn kept_of(alloc: Global, raw: &str) -> Result<String, AllocError>
    ensures { IfOk result (λ t. string_bytes t ≡ kept_of raw.now) }
{
    raw.chars().filter_map(kept_char).collect(alloc)
}

/// What is kept of a character.
fn kept_char(c: char) -> Option<char>
    ensures { result ≡ kept_char c }
{
    if is_digit(c) {
        return Some(c);
    }
    match capital_of(c) {
        Some(capital) => Some(capital),
        None => sign_of(c),
    }
}

/// The capital of a letter, where that is one from `A` to `Z`.
fn capital_of(c: char) -> Option<char>
    ensures { result ≡ capital_of c }
{
    match c {
        '\u{131}' => Some('I'),
        '\u{17F}' => Some('S'),
        _ => {
            if is_alpha(c) {
                Some(c.to_ascii_uppercase())
            } else {
                None
            }
        }
    }
}

/// A sign between groups, as it is kept.
fn sign_of(c: char) -> Option<char>
    ensures { result ≡ sign_of c }
{
    if is_hyphen(c) {
        Some('-')
    } else if is_slash(c) {
        Some('/')
    } else if is_space(c) {
        Some(' ')
    } else if is_stop(c) {
        Some('.')
    } else {
        None
    }
}

/// Whether a character is a hyphen, a dash or a minus sign.
fn is_hyphen(c: char) -> bool
    ensures { result ≡ is_hyphen c }
{
    matches!(
        c,
        '-' | '\u{2010}'
            | '\u{2011}'
            | '\u{2012}'
            | '\u{2013}'
            | '\u{2014}'
            | '\u{2015}'
            | '\u{2212}'
            | '\u{FF0D}'
    )
}

/// Whether a character is a slash.
fn is_slash(c: char) -> bool
    ensures { result ≡ is_slash c }
{
    matches!(c, '/' | '\u{FF0F}')
}

/// Whether a character is a space.
fn is_space(c: char) -> bool
    ensures { result ≡ is_space c }
{
    matches!(c, ' ' | '\u{2060}' | '\u{3000}')
}

/// Whether a character is a full stop.
fn is_stop(c: char) -> bool
    ensures { result ≡ is_stop c }
{
    matches!(c, '.' | '\u{FF0E}')
}

/// A text from where the first three of a number's digits stand in it for the first time.
pub(crate) fn from_digits<'a>(text: &'a str, digits: &str) -> &'a str
    ensures { chars result.now ≡ from_digits digits.now (chars text.entry.now) }
{
    match first_three(digits) {
        Some(front) => from_front(text, front),
        None => text,
    }
}

/// A text from where these bytes stand in it for the first time; all of it where they don't.
fn from_front<'a>(text: &'a str, front: &[u8]) -> &'a str
    ensures { chars result.now ≡
        unwrap_or (from_first front.now (chars text.entry.now)) (chars text.entry.now) }
{
    match from_first(text, front) {
        Some(found) => found,
        None => text,
    }
}

/// The first three of more than three digits.
fn first_three(digits: &str) -> Option<&[u8]>
    ensures { option_copied result ≡ first_three digits.entry.now }
{
    let bytes = digits.as_bytes();
    if bytes.len() > 3 {
        Some(&bytes[..3])
    } else {
        None
    }
}

/// The longest end of a text that begins with these bytes.
fn from_first<'a>(text: &'a str, front: &[u8]) -> Option<&'a str>
    ensures { option_map chars (option_copied result) ≡
        from_first front.now (chars text.entry.now) }
{
    let mut rest = text;
    while let Some((_, after)) = split_first(rest) {
        if begins_so(rest, front) {
            return Some(rest);
        }
        rest = after;
    }
    None
}

/// Whether a text begins with these bytes.
fn begins_so(text: &str, front: &[u8]) -> bool
    ensures { result ≡ begins_so front.now (chars text.now) }
{
    text.as_bytes().starts_with(front)
}
