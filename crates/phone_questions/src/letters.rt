//! What the characters of a text stand for as it is dialled.
ghost use Rattle.std.specs.Prelude.{◌≡◌, ◌↔◌, ◌≤◌, IfOk, IsTrue, chars, count_by, encode_utf8_all};
ghost use Rattle.std.specs.Prelude.{string_bytes};
ghost use Rattle.phone_chars.specs.Characters.{is_alpha};
ghost use Rattle.phone_library_text.specs.Letters.{key_of};
ghost use Rattle.phone_questions.specs.Letters.{HasLetteredFront, HasLetters, as_key};
ghost use Rattle.phone_questions.specs.Letters.{diallable_only, digits_only};
ghost use Rattle.phone_questions.specs.Letters.{is_diallable, with_keys};

use phone_chars::chars::{is_alpha, is_digit, keypad};
use phone_library_text::{digit_values, is_viable, split_extension};
use std::alloc::{AllocError, Global};

/// Whether a text is a number that is written with letters, as `1-800-FLOWERS`: it may be a number
/// as it stands, and has three letters of ASCII at least besides those of its extension. Nothing is
/// cut off before. It takes no memory.
pub fn has_letters(text: &str) -> bool
    ensures { IsTrue result ↔ HasLetters (chars text.now) }
{
    is_viable(text) && has_lettered_front(text)
}

/// Whether a text has three letters of ASCII at least besides those of its extension.
fn has_lettered_front(text: &str) -> bool
    ensures { IsTrue result ↔ HasLetteredFront (chars text.now) }
{
    let (front, _) = split_extension(text);
    count_letters(front) >= 3
}

/// How many letters of ASCII a text has.
fn count_letters(text: &str) -> usize
    ensures { result ≡ count_by is_alpha (chars text.now) }
{
    text.chars().filter(|c| is_alpha(*c)).count()
}

/// A text with each letter turned to the digit of its key, by its upper case; all else stays as it
/// is. Refused only for memory.
pub fn with_keys(alloc: Global, text: &str) -> Result<String, AllocError>
    ensures { IfOk result (λ t. string_bytes t ≡ encode_utf8_all (with_keys (chars text.now))) }
{
    text.chars().map(as_key).collect(alloc)
}

/// A character as it is dialled.
fn as_key(c: char) -> char
    ensures { result ≡ as_key c }
{
    match key_of(c) {
        Some(key) => key,
        None => c,
    }
}

/// The key that a character is dialled on, as its upper case is; none for what stands on no key.
pub fn key_of(c: char) -> Option<char>
    ensures { result ≡ key_of c }
{
    match c {
        '\u{131}' => Some('4'),
        '\u{17F}' => Some('7'),
        _ => keypad(c),
    }
}

/// The values of a text's digits of any script, as digits from `0` to `9`; nothing else of it.
/// Refused only for memory.
pub fn digits_only(alloc: Global, text: &str) -> Result<String, AllocError>
    ensures { IfOk result (λ t. string_bytes t ≡ digits_only (chars text.now)) }
{
    digit_values(alloc, text)
}

/// What of a text a telephone can dial: its digits from `0` to `9`, plus signs, stars and number
/// signs. Refused only for memory.
pub fn diallable_only(alloc: Global, text: &str) -> Result<String, AllocError>
    ensures { IfOk result (λ t. string_bytes t ≡
        encode_utf8_all (diallable_only (chars text.now))) }
{
    text.chars().filter(|c| is_diallable(*c)).collect(alloc)
}

/// Whether a telephone can dial a character: a digit from `0` to `9`, a plus sign, a star or a
/// number sign.
pub fn is_diallable(c: char) -> bool
    ensures { result ≡ is_diallable c }
{
    is_digit(c) || matches!(c, '+' | '*' | '#')
}
