//! What characters are by libphonenumber's rules, and the digits of a text. Most characters of a
//! number are of ASCII, so these are asked first.
ghost use Rattle.std.specs.Prelude.{◌≡◌, ℕ, ◌+◌, ◌-◌, true, IfOk, string_bytes, chars, count_by};
ghost use Rattle.std.specs.Prelude.{option_map, All, IsTrue, ◌<◌, ◌&&◌, not, nat_lt};
ghost use Rattle.std.specs.Cow.{cow_str_bytes, IsBorrowedStr};
ghost use Rattle.std.specs.List.{filter_map, find, list_all};
ghost use Rattle.phone_chars.specs.Characters.{is_alpha, is_digit, is_in_run, is_nd};
ghost use Rattle.phone_chars.specs.Characters.{is_plus};
ghost use Rattle.phone_chars.specs.Cuts.{after_front};
ghost use Rattle.phone_library_text.specs.Letters.{digits_in, folded, is_early, is_latin};
ghost use Rattle.phone_library_text.specs.Letters.{is_lettered, key_of, script_zeros, value_of};

use phone_chars::PlusSigns;
use phone_chars::chars::{is_alpha, is_digit, is_nd, is_separator, is_star, keypad};
use phone_chars::cuts::after_run;
use std::alloc::{AllocError, Global};
use std::borrow::CowStr;
use unicode::case::simple_fold;

/// The letter that the character is without case: its simple folding, and `i` for U+0130 and
/// U+0131.
pub(crate) fn fold(c: char) -> char
    ensures { result ≡ folded c }
{
    if c.is_ascii() {
        c.to_ascii_lowercase()
    } else {
        folded_other(c)
    }
}

/// The same, without asking ASCII first.
fn folded_other(c: char) -> char
    ensures { result ≡ folded c }
{
    if matches!(c, '\u{130}' | '\u{131}') {
        'i'
    } else {
        simple_fold(c)
    }
}

/// Whether the character is a letter of ASCII, or one that folds to such a letter.
pub(crate) fn is_latin(c: char) -> bool
    ensures { result ≡ is_latin c }
{
    is_alpha(c) || matches!(c, '\u{130}' | '\u{131}' | '\u{17F}' | '\u{212A}')
}

/// Whether the character may stand anywhere in a number: a separator, `x` of either case, a star,
/// or a digit of any script.
pub(crate) fn is_early(c: char) -> bool
    ensures { result ≡ is_early c }
{
    is_digit(c) || is_early_other(c)
}

/// The same, asked of a character that is hardly an ASCII digit.
fn is_early_other(c: char) -> bool
    ensures { result ≡ is_early c }
{
    is_separator(c) || c == 'X' || is_star(c) || is_nd(c)
}

/// The zeros of the digits of each script but ASCII's, in the order of their code points.
const SCRIPT_ZEROS: [u32; 76] = [
    0x660, 0x6F0, 0x7C0, 0x966, 0x9E6, 0xA66, 0xAE6, 0xB66, 0xBE6, 0xC66, 0xCE6, 0xD66, 0xDE6,
    0xE50, 0xED0, 0xF20, 0x1040, 0x1090, 0x17E0, 0x1810, 0x1946, 0x19D0, 0x1A80, 0x1A90, 0x1B50,
    0x1BB0, 0x1C40, 0x1C50, 0xA620, 0xA8D0, 0xA900, 0xA9D0, 0xA9F0, 0xAA50, 0xABF0, 0xFF10,
    0x104A0, 0x10D30, 0x10D40, 0x11066, 0x110F0, 0x11136, 0x111D0, 0x112F0, 0x11450, 0x114D0,
    0x11650, 0x116C0, 0x116D0, 0x116DA, 0x11730, 0x118E0, 0x11950, 0x11BF0, 0x11C50, 0x11D50,
    0x11DA0, 0x11DE0, 0x11F50, 0x16130, 0x16A60, 0x16AC0, 0x16B50, 0x16D70, 0x1CCF0, 0x1D7CE,
    0x1D7D8, 0x1D7E2, 0x1D7EC, 0x1D7F6, 0x1E140, 0x1E2F0, 0x1E4F0, 0x1E5F1, 0x1E950, 0x1FBF0,
];

/// The first of these zeros that begins the run of ten digits in which the character stands.
fn find_zero(zeros: &[u32], c: u32) -> Option<u32>
    ensures { result ≡ find (λ zero. is_in_run zero c) zeros.now }
{
    zeros
        .iter()
        .copied()
        .find(|zero| *zero <= c && c - *zero < 10)
}

/// The ASCII digit, `0` to `9`, of the value of a decimal digit of any script; none for every other
/// character. Digits of ASCII are asked first; the time is at most that of a table of 76 scripts.
pub fn value_of(c: char) -> Option<char>
    ensures { result ≡ value_of c }
{
    if is_digit(c) {
        return Some(c);
    }
    if c.is_ascii() {
        return None;
    }
    script_value(c)
}

/// The same of a digit of one of these scripts.
fn script_value(c: char) -> Option<char>
    ensures { result ≡ option_map (λ zero. 48 + (c - zero))
        (find (λ zero. is_in_run zero c) script_zeros) }
{
    value_by(&SCRIPT_ZEROS, c)
}

/// The ASCII digit of the place that the character has in its run, where one of these zeros begins
/// that run.
fn value_by(zeros: &[u32], c: char) -> Option<char>
    ensures { result ≡ option_map (λ zero. 48 + (c - zero))
        (find (λ zero. is_in_run zero c) zeros.now) }
{
    let zero = find_zero(zeros, c as u32)?;
    char::from_digit(c as u32 - zero, 10)
}

/// The key that a character is dialled on, as its upper case is; none for what stands on no key.
fn key_of(c: char) -> Option<char>
    ensures { result ≡ key_of c }
{
    match c {
        '\u{131}' => Some('4'),
        '\u{17F}' => Some('7'),
        _ => keypad(c),
    }
}

/// How many letters of ASCII the text has.
fn count_letters(text: &str) -> usize
    ensures { result ≡ count_by is_alpha (chars text.now) }
{
    text.chars().filter(|c| is_alpha(*c)).count()
}

/// Whether the text has at least three letters of ASCII, and so is dialled on a keypad.
fn is_lettered(text: &str) -> bool
    ensures { result ≡ is_lettered (chars text.now) }
{
    count_letters(text) >= 3
}

/// The values of the text's digits of any script, as digits from `0` to `9`, in a text of their
/// own. Refused only for memory.
pub fn digit_values(alloc: Global, text: &str) -> Result<String, AllocError>
    ensures { IfOk result (λ s. string_bytes s ≡ filter_map value_of (chars text.now)) }
{
    if is_ascii(text.as_bytes()) {
        return ascii_values(alloc, text);
    }
    values(alloc, text)
}

/// The same of a text of ASCII.
fn ascii_values(alloc: Global, text: &str) -> Result<String, AllocError>
    requires { All (λ b. b < 128) text.now }
    ensures { IfOk result (λ s. string_bytes s ≡ filter_map value_of (chars text.now)) }
{
    let digits = ascii_digits(alloc, text.as_bytes())?;
    // SAFETY: digits are text.
    Ok(unsafe { String::from_utf8_unchecked(digits) })
}

/// The same, without asking ASCII first.
fn values(alloc: Global, text: &str) -> Result<String, AllocError>
    ensures { IfOk result (λ s. string_bytes s ≡ filter_map value_of (chars text.now)) }
{
    let mut out = String::with_capacity(alloc, text.len())?;
    out.extend(text.chars().filter_map(value_of))?;
    Ok(out)
}

/// Whether bytes are ASCII.
fn is_ascii(bytes: &[u8]) -> bool
    ensures { IsTrue result → All (λ b. b < 128) bytes.now }
{
    bytes.iter().all(|byte| *byte < 128)
}

/// The digit that a character of ASCII is.
fn ascii_digit(byte: u8) -> Option<u8>
    requires { byte < 128 }
    ensures { result ≡ value_of byte }
{
    if byte.is_ascii_digit() {
        Some(byte)
    } else {
        None
    }
}

/// The digits among characters of ASCII, which are these bytes, as bytes.
fn ascii_digits(alloc: Global, bytes: &[u8]) -> Result<Vec<u8>, AllocError>
    requires { All (λ b. b < 128) bytes.now }
    ensures { IfOk result (λ digits. digits.items ≡ filter_map value_of bytes.now) }
{
    let mut digits = Vec::with_capacity(alloc, bytes.len())?;
    for byte in bytes {
        if let Some(digit) = ascii_digit(*byte) {
            digits.push(digit)?;
        }
    }
    Ok(digits)
}

/// The keys of the text's digits and letters, in a text of their own.
fn keys(alloc: Global, text: &str) -> Result<String, AllocError>
    ensures { IfOk result (λ s. string_bytes s ≡ filter_map key_of (chars text.now)) }
{
    let mut out = String::with_capacity(alloc, text.len())?;
    out.extend(text.chars().filter_map(key_of))?;
    Ok(out)
}

/// Whether each character of a text is a digit from `0` to `9`.
fn has_digits_alone(text: &str) -> bool
    ensures { result ≡ list_all is_digit (chars text.now) }
{
    text.chars().all(|c| is_digit(c))
}

/// Whether a byte is a character of ASCII, and no letter.
fn is_unlettered(byte: u8) -> bool
    ensures { result ≡ (nat_lt byte 128 && not (is_alpha byte)) }
{
    byte < 128 && !byte.is_ascii_alphabetic()
}

/// Whether each of these bytes is a character of ASCII, and no letter.
fn are_unlettered(bytes: &[u8]) -> bool
    ensures { result ≡ list_all (λ b. nat_lt b 128 && not (is_alpha b)) bytes.now }
{
    bytes.iter().all(|byte| is_unlettered(*byte))
}

/// The digits of a text, in a text of their own. Mostly it is ASCII without a letter: that is asked
/// first, at one look at each byte.
fn own_digits(alloc: Global, text: &str) -> Result<String, AllocError>
    ensures { IfOk result (λ s. string_bytes s ≡ digits_in (chars text.now)) }
{
    if are_unlettered(text.as_bytes()) {
        return ascii_values(alloc, text);
    }
    if is_lettered(text) {
        keys(alloc, text)
    } else {
        digit_values(alloc, text)
    }
}

/// The digits of a text, from `0` to `9`: the keys of its ASCII digits and letters where it has at
/// least three letters of ASCII, else the values of its digits of any script; nothing else counts.
/// A text of ASCII digits alone is lent, also behind plus signs, and takes no memory. Refused only
/// for memory.
pub(crate) fn digits_in(alloc: Global, text: &str) -> Result<CowStr<'_>, AllocError>
    ensures digits { IfOk result (λ out. cow_str_bytes out ≡ digits_in (chars text.now)) }
    ensures lent { IfOk result (λ out. list_all is_digit (after_front is_plus (chars text.now)) ≡
        true → IsBorrowedStr out) }
{
    let unsigned = after_run(text, &PlusSigns);
    if has_digits_alone(unsigned) {
        return Ok(CowStr::Borrowed(unsigned));
    }
    Ok(CowStr::Owned(own_digits(alloc, text)?))
}
