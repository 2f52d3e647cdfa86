//! The keys that are pressed while a number is typed, and how a text shows them.
ghost use Rattle.std.specs.Prelude.{◌≡◌, ◌<◌, string_bytes, take, chars, length, option_map, IfOk};
ghost use Rattle.std.specs.Prelude.{IfSome, IsCharBoundary, IsTrue, OnErr, OnOk};
ghost use Rattle.std.specs.List.{list_all};
ghost use Rattle.phone_chars.specs.Characters.{is_digit};
ghost use Rattle.phone_typed.specs.Keys.{is_key, is_mark, key_of, keys_in, passed, shows};
ghost use Rattle.phone_typed.specs.Keys.{up_to_key, with_key};
ghost use Rattle.phone_typed.specs.Typed.{if_shows};

use phone_chars::chars::is_plus;
use phone_chars::cuts::split_first;
use phone_library_text::value_of;
use std::alloc::{AllocError, Global};

/// Whether a byte is a key: a digit, or the plus sign.
fn is_key(byte: u8) -> bool
    ensures { result ≡ is_key byte }
{
    byte.is_ascii_digit() || byte == b'+'
}

/// Whether a byte is a mark that layouts write between keys.
fn is_mark(byte: u8) -> bool
    ensures { result ≡ is_mark byte }
{
    matches!(byte, b' ' | b'(' | b')' | b'-' | b'.')
}

/// The key of a character that is typed after these keys: the digit of its value, in any script;
/// before all other keys also a plus sign, U+002B or the wide U+FF0B, as U+002B. None for all other
/// characters.
fn key_of(keys: &str, c: char) -> Option<char>
    ensures { result ≡ key_of keys.now c }
{
    if keys.is_empty() && is_plus(c) {
        Some('+')
    } else {
        value_of(c)
    }
}

/// Puts the key of a character after these keys. Refused only for memory; then the keys stay.
pub(crate) fn push_key(keys: &mut String, c: char) -> Result<(), AllocError>
    ensures pushed { OnOk result (string_bytes keys.new ≡ with_key (string_bytes keys.old) c) }
    ensures kept { OnErr result (string_bytes keys.new ≡ string_bytes keys.old) }
{
    match key_of(keys.as_str(), c) {
        Some(key) => keys.push(key),
        None => Ok(()),
    }
}

/// Whether bytes are digits of ASCII.
fn are_digits(bytes: &[u8]) -> bool
    ensures { result ≡ list_all is_digit bytes.now }
{
    bytes.iter().all(|b| b.is_ascii_digit())
}

/// Whether a text is nothing but its keys: digits of ASCII, and perhaps a plus sign before them.
pub(crate) fn are_keys(text: &str) -> bool
    ensures { IsTrue result → keys_in (chars text.now) ≡ text.now }
{
    match text.strip_prefix('+') {
        Some(digits) => are_digits(digits.as_bytes()),
        None => are_digits(text.as_bytes()),
    }
}

/// The keys of a text. Refused only for memory.
pub(crate) fn keys_in(alloc: Global, text: &str) -> Result<String, AllocError>
    ensures { IfOk result (λ keys. string_bytes keys ≡ keys_in (chars text.now)) }
{
    let mut keys = String::with_capacity(alloc, text.len())?;
    let mut rest = text;
    while let Some((c, after)) = split_first(rest) {
        push_key(&mut keys, c)?;
        rest = after;
    }
    Ok(keys)
}

/// Whether a text shows these keys: whether they are all that stands in it, but for marks.
pub(crate) fn shows(keys: &str, text: &str) -> bool
    ensures { result ≡ shows keys.now text.now }
{
    let mut left = keys.as_bytes();
    let mut rest = text.as_bytes();
    while let Some((byte, after)) = rest.split_first() {
        if is_key(*byte) {
            let Some((key, others)) = left.split_first() else {
                return false;
            };
            if key != byte {
                return false;
            }
            left = others;
        } else if !is_mark(*byte) {
            return false;
        }
        rest = after;
    }
    left.is_empty()
}

/// After how many bytes of a text its n-th key stands; all of them where it has fewer keys.
pub(crate) fn end_of_key(text: &str, n: usize) -> usize
    ensures place { take result text.now ≡ up_to_key n text.now }
    ensures border { IsCharBoundary text.now result }
{
    let bytes = text.as_bytes();
    let mut left = n;
    for at in 0..bytes.len() {
        if left == 0 {
            return at;
        }
        if is_key(bytes[at]) {
            left -= 1;
        }
    }
    bytes.len()
}

/// After how many bytes of a text the last of these keys stands, if the text up to there shows
/// them.
pub(crate) fn end_of_shown(keys: &str, text: &str) -> Option<usize>
    ensures shown { option_map (λ end. take end text.now) result ≡
        if_shows keys.now (up_to_key (length keys.now) text.now) }
    ensures border { IfSome result (IsCharBoundary text.now) }
{
    let wanted = keys.as_bytes();
    let bytes = text.as_bytes();
    let mut n = 0;
    for at in 0..bytes.len() {
        if n == wanted.len() {
            return Some(at);
        }
        n = passed(wanted, n, bytes[at])?;
    }
    if n == wanted.len() {
        Some(bytes.len())
    } else {
        None
    }
}

/// How many of the keys stand up to a byte of a text that shows them, where n of them, not all,
/// stand before it. None where the byte isn't the next key, nor a mark.
fn passed(keys: &[u8], n: usize, byte: u8) -> Option<usize>
    requires { n < length keys.now }
    ensures { result ≡ passed keys.now n byte }
{
    if is_key(byte) {
        if byte == keys[n] { Some(n + 1) } else { None }
    } else if is_mark(byte) {
        Some(n)
    } else {
        None
    }
}
