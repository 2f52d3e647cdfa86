//! A text's digits: what is left of it once each character is read as a digit or dialled on a
//! keypad.
ghost use Rattle.std.specs.Prelude.{◌≡◌, ◌<◌, ◌++◌, string_bytes, encode_utf8_all, IfOk, Ok};
ghost use Rattle.std.specs.Prelude.{All, IsTrue, chars};
ghost use Rattle.std.specs.Cow.{cow_str_bytes, IsBorrowedStr};
ghost use Rattle.std.specs.List.{list_all};
ghost use Rattle.std.specs.Option.{option_or};
ghost use Rattle.phone_chars.specs.Characters.{is_digit, digit_of};
ghost use Rattle.phone_chars.specs.Norm.{norm};

use crate::chars::{as_dec_digit, keypad};
use std::alloc::{AllocError, Global};
use std::borrow::CowStr;

/// The digit of a character: as a digit of some script, else on the keypad.
fn digit_of(c: char) -> Option<char>
    ensures { result ≡ digit_of c }
{
    match as_dec_digit(c) {
        Some(digit) => Some(digit),
        None => keypad(c),
    }
}

/// The digits of a text, in a text of their own.
fn digits(alloc: Global, text: &str) -> Result<String, AllocError>
    ensures { IfOk result (λ s. string_bytes s ≡ encode_utf8_all (norm (chars text.now))) }
{
    if is_ascii(text.as_bytes()) {
        let digits = digits_of_ascii(alloc, text.as_bytes())?;
        // SAFETY: digits are text.
        return Ok(unsafe { String::from_utf8_unchecked(digits) });
    }
    with_digits(String::with_capacity(alloc, text.len())?, text)
}

/// A text and the digits of another behind it.
fn with_digits(before: String, text: &str) -> Result<String, AllocError>
    ensures { IfOk result (λ s. string_bytes s ≡ string_bytes before ++
        encode_utf8_all (norm (chars text.now))) }
{
    let mut out = before;
    out.extend(text.chars().filter_map(digit_of))?;
    Ok(out)
}

/// Whether bytes are ASCII. Most texts have so few that a plain loop takes less than
/// `str::is_ascii`.
fn is_ascii(bytes: &[u8]) -> bool
    ensures { IsTrue result → All (λ b. b < 128) bytes.now }
{
    bytes.iter().all(|byte| *byte < 128)
}

/// The digit of each character of ASCII; zero for one that has none.
const DIGITS: [u8; 128] = [
    0, 0, 0, 0, 0, 0, 0, 0, 0, 0, 0, 0, 0, 0, 0, 0, 0, 0, 0, 0, 0, 0, 0, 0, 0, 0, 0, 0, 0, 0, 0, 0,
    0, 0, 0, 0, 0, 0, 0, 0, 0, 0, 0, 0, 0, 0, 0, 0, 48, 49, 50, 51, 52, 53, 54, 55, 56, 57, 0, 0,
    0, 0, 0, 0, 0, 50, 50, 50, 51, 51, 51, 52, 52, 52, 53, 53, 53, 54, 54, 54, 55, 55, 55, 55, 56,
    56, 56, 57, 57, 57, 57, 0, 0, 0, 0, 0, 0, 50, 50, 50, 51, 51, 51, 52, 52, 52, 53, 53, 53, 54,
    54, 54, 55, 55, 55, 55, 56, 56, 56, 57, 57, 57, 57, 0, 0, 0, 0, 0,
];

/// The digit of a character of ASCII, by its place in the table.
fn digit_of_ascii(byte: u8) -> Option<u8>
    requires { byte < 128 }
    ensures { result ≡ digit_of byte }
{
    let digit = DIGITS[usize::from(byte)];
    if digit == 0 { None } else { Some(digit) }
}

/// The digits of characters of ASCII, which are these bytes, as bytes.
fn digits_of_ascii(alloc: Global, bytes: &[u8]) -> Result<Vec<u8>, AllocError>
    requires { All (λ b. b < 128) bytes.now }
    ensures { IfOk result (λ digits. digits.items ≡ norm bytes.now) }
{
    let mut digits = Vec::with_capacity(alloc, bytes.len())?;
    for byte in bytes {
        if let Some(digit) = digit_of_ascii(*byte) {
            digits.push(digit)?;
        }
    }
    Ok(digits)
}

/// Whether each character of a text is a digit from `0` to `9`.
pub(crate) fn has_digits_alone(text: &str) -> bool
    ensures { result ≡ list_all is_digit (chars text.now) }
{
    are_digits(text.as_bytes())
}

/// The same of bytes.
fn are_digits(bytes: &[u8]) -> bool
    ensures { result ≡ list_all is_digit bytes.now }
{
    bytes.iter().all(|byte| byte.is_ascii_digit())
}

/// Whether a text is digits from `0` to `9` alone, and so is its own digits; no other text is.
fn is_normal(text: &str) -> bool
    ensures digits { result ≡ list_all is_digit (chars text.now) }
    ensures own { IsTrue result → encode_utf8_all (norm (chars text.now)) ≡ text.now }
    ensures only { encode_utf8_all (norm (chars text.now)) ≡ text.now → IsTrue result }
{
    has_digits_alone(text)
}

/// The digits of a text: for each character the digit that `as_dec_digit` gives it, else the one of
/// its key on a telephone (`keypad`), else nothing. A text of digits from `0` to `9` alone, also
/// the empty one, is given back as it is, and takes no memory; so a borrowed one stays borrowed. No
/// other text is its own digits. Refused only for memory.
pub fn normalize(alloc: Global, text: CowStr<'_>) -> Result<CowStr<'_>, AllocError>
    ensures text { IfOk result (λ out. cow_str_bytes out ≡
        encode_utf8_all (norm (chars (cow_str_bytes text.entry)))) }
    ensures no_memory { IsTrue (list_all is_digit (chars (cow_str_bytes text.entry))) →
        result ≡ Ok text.entry }
    ensures own { encode_utf8_all (norm (chars (cow_str_bytes text.entry))) ≡
        cow_str_bytes text.entry → result ≡ Ok text.entry }
    ensures borrowed { IfOk result (λ out. IsBorrowedStr text.entry →
        IsTrue (list_all is_digit (chars (cow_str_bytes text.entry))) → IsBorrowedStr out) }
{
    if is_normal(text.as_str()) {
        return Ok(text);
    }
    Ok(CowStr::Owned(digits(alloc, text.as_str())?))
}
