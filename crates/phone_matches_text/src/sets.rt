//! The sets of characters that candidates and their pieces are told by.
ghost use Rattle.std.specs.Prelude.{◌≡◌};
ghost use Rattle.phone_matches_text.specs.Sets.{is_closing, is_in_latin_block, is_latin};
ghost use Rattle.phone_matches_text.specs.Sets.{is_opening, is_space, is_sticking, is_within};
ghost use Rattle.phone_parts.specs.Suffixes.{is_dash, is_gap, is_mark};

use phone_chars::chars::{is_digit, is_letter, is_nd, is_plus, is_separator};
use phone_chars::cuts::CharSet;
use unicode::properties::{GeneralCategory, GeneralCategoryGroup};

/// A set of characters.
#[derive(Clone, Copy)]
pub enum Set {
    /// No character.
    Nothing,
    /// `0` to `9`.
    Digit,
    /// Decimal digits of any script.
    AnyDigit,
    /// `0` and `1`.
    UpToOne,
    /// `0` to `2`.
    UpToTwo,
    /// `0` to `3`.
    UpToThree,
    /// `0` to `5`.
    UpToFive,
    /// `1` and `2`.
    OneOrTwo,
    /// Opening brackets.
    Opening,
    /// Closing brackets.
    Closing,
    /// All but brackets.
    Unbracketed,
    /// Opening brackets and plus signs.
    Lead,
    /// What may stand between a number's digits.
    Between,
    /// The slash.
    Slash,
    /// The hyphen.
    Hyphen,
    /// What parts a date: hyphen and slash.
    DateMark,
    /// The space of ASCII.
    Blank,
    /// The small `x`.
    SmallX,
    /// The round opening bracket of ASCII.
    Round,
    /// The colon.
    Colon,
    /// The full stop.
    Dot,
    /// The number sign.
    NumberSign,
    /// Spaces of all scripts.
    Space,
    /// Dashes of a wide letter's breadth.
    WideDash,
    /// What may follow an extension's label at once.
    Mark,
    /// What may stand before an extension's digits.
    Gap,
    /// Hyphen and space.
    Dash,
    /// What sticks to a number beside it.
    Sticking,
}

/// Whether the character is an opening bracket, round or square, plain or fullwidth.
fn is_opening(c: char) -> bool
    ensures { result ≡ is_opening c }
{
    matches!(c, '(' | '[' | '\u{FF08}' | '\u{FF3B}')
}

/// Whether it is a closing one.
fn is_closing(c: char) -> bool
    ensures { result ≡ is_closing c }
{
    matches!(c, ')' | ']' | '\u{FF09}' | '\u{FF3D}')
}

/// Whether it stands between two others, or is one of these.
fn is_within(first: char, last: char, c: char) -> bool
    ensures { result ≡ is_within first last c }
{
    first <= c && c <= last
}

/// Whether it is a space of some script.
fn is_space(c: char) -> bool
    ensures { result ≡ is_space c }
{
    GeneralCategoryGroup::Separator.contains(GeneralCategory::for_char(c))
}

/// Whether it stands in a block of Latin letters or of marks on them.
fn is_in_latin_block(c: char) -> bool
    ensures { result ≡ is_in_latin_block c }
{
    c <= '\u{24F}' || is_within('\u{300}', '\u{36F}', c) || is_within('\u{1E00}', '\u{1EFF}', c)
}

/// Whether it is a Latin letter, or a mark on one.
fn is_latin(c: char) -> bool
    ensures { result ≡ is_latin c }
{
    (is_letter(c) || GeneralCategory::for_char(c) == GeneralCategory::NonspacingMark)
        && is_in_latin_block(c)
}

/// Whether it sticks to a number beside it: a percent sign, a currency sign, a Latin letter.
fn is_sticking(c: char) -> bool
    ensures { result ≡ is_sticking c }
{
    c == '%' || GeneralCategory::for_char(c) == GeneralCategory::CurrencySymbol || is_latin(c)
}

/// Whether it may follow an extension's label at once.
fn is_mark(c: char) -> bool
    ensures { result ≡ is_mark c }
{
    matches!(c, ':' | '.' | '\u{FF0E}')
}

/// Whether it may stand before an extension's digits.
fn is_gap(c: char) -> bool
    ensures { result ≡ is_gap c }
{
    matches!(c, ' ' | '\u{A0}' | '\t' | ',' | '-')
}

/// Whether it is a hyphen or a space of ASCII.
fn is_dash(c: char) -> bool
    ensures { result ≡ is_dash c }
{
    c == '-' || c == ' '
}

impl CharSet for Set {
    ghost use Rattle.phone_matches_text.specs.Sets.{is_in};

    ghost members = { λ s. is_in s };

    fn has(&self, c: char) -> bool {
        match self {
            Set::Nothing => false,
            Set::Digit => is_digit(c),
            Set::AnyDigit => is_nd(c),
            Set::UpToOne => is_within('0', '1', c),
            Set::UpToTwo => is_within('0', '2', c),
            Set::UpToThree => is_within('0', '3', c),
            Set::UpToFive => is_within('0', '5', c),
            Set::OneOrTwo => is_within('1', '2', c),
            Set::Opening => is_opening(c),
            Set::Closing => is_closing(c),
            Set::Unbracketed => !(is_opening(c) || is_closing(c)),
            Set::Lead => is_opening(c) || is_plus(c),
            Set::Between => is_separator(c) || c == 'X',
            Set::Slash => c == '/',
            Set::Hyphen => c == '-',
            Set::DateMark => matches!(c, '-' | '/'),
            Set::Blank => c == ' ',
            Set::SmallX => c == 'x',
            Set::Round => c == '(',
            Set::Colon => c == ':',
            Set::Dot => c == '.',
            Set::NumberSign => c == '#',
            Set::Space => is_space(c),
            Set::WideDash => matches!(c, '\u{2012}'..='\u{2015}' | '\u{FF0D}'),
            Set::Mark => is_mark(c),
            Set::Gap => is_gap(c),
            Set::Dash => is_dash(c),
            Set::Sticking => is_sticking(c),
        }
    }
}
