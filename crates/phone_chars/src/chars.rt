//! The classes of characters that the reading of numbers knows, each as a set.
ghost use Rattle.std.specs.Prelude.{◌≡◌};
ghost use Rattle.std.specs.List.{find};
ghost use Rattle.phone_chars.specs.Characters.{is_digit, is_alpha, is_plus, is_star};
ghost use Rattle.phone_chars.specs.Characters.{is_punctuation, is_separator, is_nd, is_number};
ghost use Rattle.phone_chars.specs.Characters.{is_letter, same_fold, as_dec_digit, keypad};
ghost use Rattle.phone_chars.specs.Characters.{is_in_run};
ghost use Rattle.ucd_case.specs.CaseFolding.{simple_fold};

pub use crate::norm::normalize;
pub use crate::viable::is_viable;
use phone_values::consts::{PLUS_SIGN, STAR_SIGN};
use unicode::case::simple_fold;
use unicode::properties::{GeneralCategory, GeneralCategoryGroup};

/// Whether the character may stand between the digits of a number: one of 31 dashes, spaces,
/// brackets, dots, slashes and tildes, plain and wide, or the small `x`, which is often written for
/// a carrier's place.
pub fn is_punctuation(c: char) -> bool
    ensures { result ≡ is_punctuation c }
{
    matches!(
        c,
        '-' | 'x' | '\u{2010}'..='\u{2015}'
            | '\u{2212}'
            | '\u{30FC}'
            | '\u{FF0D}'
            | '\u{FF0F}'
            | ' '
            | '\u{A0}'
            | '\u{AD}'
            | '\u{200B}'
            | '\u{2060}'
            | '\u{3000}'
            | '('
            | ')'
            | '\u{FF08}'
            | '\u{FF09}'
            | '\u{FF3B}'
            | '\u{FF3D}'
            | '.'
            | '['
            | ']'
            | '/'
            | '~'
            | '\u{2053}'
            | '\u{223C}'
            | '\u{FF5E}'
    )
}

/// Whether the character is a letter from `a` to `z` or from `A` to `Z`.
pub fn is_alpha(c: char) -> bool
    ensures { result ≡ is_alpha c }
{
    c.is_ascii_alphabetic()
}

/// Whether the character is a digit from `0` to `9`.
pub fn is_digit(c: char) -> bool
    ensures { result ≡ is_digit c }
{
    c.is_ascii_digit()
}

/// Whether the character is a plus sign: `+`, or the wide one of Chinese and Japanese texts,
/// U+FF0B.
pub fn is_plus(c: char) -> bool
    ensures { result ≡ is_plus c }
{
    c == PLUS_SIGN || c == '\u{FF0B}'
}

/// Whether the character is the star of a keypad, `*`.
pub fn is_star(c: char) -> bool
    ensures { result ≡ is_star c }
{
    c == STAR_SIGN
}

/// Whether the character parts the groups of a number's digits: punctuation, or the wide full stop,
/// U+FF0E.
pub fn is_separator(c: char) -> bool
    ensures { result ≡ is_separator c }
{
    is_punctuation(c) || c == '\u{FF0E}'
}

/// Whether the character is a digit from `0` to `9`. It is named for the wide digits that a number
/// in free text may have, but takes none of them: wide digits are read by `as_dec_digit`.
pub fn is_wide_digit(c: char) -> bool
    ensures { result ≡ is_digit c }
{
    matches!(c, '0'..='9')
}

/// Whether the character is a decimal digit of some script: Unicode's general category Nd. In ASCII
/// those are `0` to `9`.
pub fn is_nd(c: char) -> bool
    ensures { result ≡ is_nd c }
{
    if c.is_ascii() {
        is_digit(c)
    } else {
        GeneralCategory::for_char(c) == GeneralCategory::DecimalNumber
    }
}

/// Whether the character is a number of some script, as digits, Roman numerals and fractions are:
/// Unicode's general category N, that is Nd, Nl or No.
pub fn is_number(c: char) -> bool
    ensures { result ≡ is_number c }
{
    GeneralCategoryGroup::Number.contains(GeneralCategory::for_char(c))
}

/// Whether the character is a letter of some script: Unicode's general category L.
pub fn is_letter(c: char) -> bool
    ensures { result ≡ is_letter c }
{
    GeneralCategoryGroup::Letter.contains(GeneralCategory::for_char(c))
}

/// Whether two characters are one when case is ignored: whether Unicode's simple case folding makes
/// them the same.
pub fn same_fold(a: char, b: char) -> bool
    ensures { result ≡ same_fold a b }
{
    fold(a) == fold(b)
}

/// The simple case folding of a character. In ASCII it makes the capital letters small.
fn fold(c: char) -> char
    ensures { result ≡ simple_fold c }
{
    if c.is_ascii() {
        c.to_ascii_lowercase()
    } else {
        simple_fold(c)
    }
}

/// The zeros of the fifteen runs of ten digits that are read beside ASCII's, in the order of their
/// code points.
const SCRIPT_ZEROS: [u32; 15] = [
    0x660, 0x6F0, 0x7C0, 0x966, 0x9E6, 0xA66, 0xAE6, 0xB66, 0xBE6, 0xC66, 0xCE6, 0xD66, 0xE50,
    0xED0, 0xFF10,
];

/// The first of these zeros that begins the run of ten digits in which the character stands.
fn find_zero(zeros: &[u32], c: u32) -> Option<u32>
    ensures { result ≡ find (λ first. is_in_run first c) zeros.now }
{
    zeros
        .iter()
        .copied()
        .find(|zero| *zero <= c && c - *zero < 10)
}

/// The digit from `0` to `9` that the character stands for as a digit: an ASCII digit itself, a
/// digit of one of fifteen other runs (that of the wide digits, U+FF10 to U+FF19, among them) the
/// digit of its place; none for all others.
pub fn as_dec_digit(c: char) -> Option<char>
    ensures { result ≡ as_dec_digit c }
{
    if is_digit(c) {
        return Some(c);
    }
    if c.is_ascii() {
        return None;
    }
    let zero = find_zero(&SCRIPT_ZEROS, c as u32)?;
    char::from_digit(c as u32 - zero, 10)
}

/// The digit from `0` to `9` on whose key of a telephone the character stands: an ASCII digit
/// itself, a letter from `a` to `z` or from `A` to `Z` the digit of its key, as `2` for `A`, `B`
/// and `C`; none for all others.
pub fn keypad(c: char) -> Option<char>
    ensures { result ≡ keypad c }
{
    match c {
        '0'..='9' => Some(c),
        'A' | 'B' | 'C' | 'a' | 'b' | 'c' => Some('2'),
        'D' | 'E' | 'F' | 'd' | 'e' | 'f' => Some('3'),
        'G' | 'H' | 'I' | 'g' | 'h' | 'i' => Some('4'),
        'J' | 'K' | 'L' | 'j' | 'k' | 'l' => Some('5'),
        'M' | 'N' | 'O' | 'm' | 'n' | 'o' => Some('6'),
        'P' | 'Q' | 'R' | 'S' | 'p' | 'q' | 'r' | 's' => Some('7'),
        'T' | 'U' | 'V' | 't' | 'u' | 'v' => Some('8'),
        'W' | 'X' | 'Y' | 'Z' | 'w' | 'x' | 'y' | 'z' => Some('9'),
        _ => None,
    }
}
