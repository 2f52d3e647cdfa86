//! The end of a text that is dialled by a number's digits.
ghost use Rattle.std.specs.Prelude.{◌≡◌, chars};
ghost use Rattle.std.specs.Option.{option_copied};
ghost use Rattle.std.specs.Str.{bytes_eq};
ghost use Rattle.phone_parts.specs.Texts.{begins};
ghost use Rattle.phone_dialling.specs.Keys.{behind, behind_key, dialled_end, has_key};
ghost use Rattle.phone_dialling.specs.Keys.{is_dialled_by, keys_of};

use phone_chars::cuts::split_first;
use phone_questions::key_of;

/// The end of a text that is dialled by these digits, and begins with a key. It takes no memory;
/// its time is linear in the text.
pub(crate) fn dialled_end<'a>(text: &'a str, digits: &str) -> Option<&'a str>
    ensures { option_copied result ≡ dialled_end digits.now (chars text.entry.now) }
{
    let mut rest = text;
    while let Some((_, after)) = split_first(rest) {
        if is_dialled_by(rest, digits) {
            return Some(rest);
        }
        rest = after;
    }
    None
}

/// Whether a text begins with a key, and is dialled by these digits.
fn is_dialled_by(text: &str, digits: &str) -> bool
    ensures { result ≡ is_dialled_by digits.now (chars text.now) }
{
    begins_with_key(text) && has_keys(text, digits.as_bytes())
}

/// Whether the first character of a text stands on a key.
fn begins_with_key(text: &str) -> bool
    ensures { result ≡ begins has_key (chars text.now) }
{
    match split_first(text) {
        Some((c, _)) => key_of(c).is_some(),
        None => false,
    }
}

/// Whether these digits are the keys of a text. Of a text that has others it sees no more than
/// their first difference.
fn has_keys(text: &str, digits: &[u8]) -> bool
    ensures { result ≡ bytes_eq (keys_of (chars text.now)) digits.now }
{
    let mut rest = text;
    let mut left = digits;
    while let Some((c, after)) = split_first(rest) {
        let Some(more) = behind_key(c, left) else {
            return false;
        };
        left = more;
        rest = after;
    }
    left.is_empty()
}

/// What is left of digits behind the key of a character, where that is the first of them; all of
/// them where the character stands on no key.
fn behind_key(c: char, digits: &[u8]) -> Option<&[u8]>
    ensures { option_copied result ≡ behind_key c digits.entry.now }
{
    match key_of(c) {
        Some(key) => behind(key, digits),
        None => Some(digits),
    }
}

/// What is left of digits behind the first one, where that is this key.
fn behind(key: char, digits: &[u8]) -> Option<&[u8]>
    ensures { option_copied result ≡ behind key digits.entry.now }
{
    let (first, rest) = digits.split_first()?;
    if key == char::from(*first) {
        Some(rest)
    } else {
        None
    }
}
