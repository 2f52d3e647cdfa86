//! The sets of characters that numbers in a text are told by.
ghost use Rattle.std.specs.Prelude.{◌≡◌};
ghost use Rattle.phone_find.specs.Sets.{is_capital, is_closing, is_date_mark};
ghost use Rattle.phone_find.specs.Sets.{is_high_digit, is_joiner, is_low_digit, is_money};
ghost use Rattle.phone_find.specs.Sets.{is_opening, is_space};

use phone_chars::chars::{is_nd, is_plus, is_separator};
use phone_chars::cuts::CharSet;
use unicode::properties::{GeneralCategory, GeneralCategoryGroup};

/// Whether the character is an opening bracket, round or square, plain or fullwidth.
pub(crate) fn is_opening(c: char) -> bool
    ensures { result ≡ is_opening c }
{
    matches!(c, '(' | '[' | '\u{FF08}' | '\u{FF3B}')
}

/// Whether it is a closing one.
pub(crate) fn is_closing(c: char) -> bool
    ensures { result ≡ is_closing c }
{
    matches!(c, ')' | ']' | '\u{FF09}' | '\u{FF3D}')
}

/// Whether it is a digit of some script, but none of `4` to `9`.
pub(crate) fn is_low_digit(c: char) -> bool
    ensures { result ≡ is_low_digit c }
{
    is_nd(c) && !('4' <= c && c <= '9')
}

/// Whether it is a digit of any script but `0`.
pub(crate) fn is_high_digit(c: char) -> bool
    ensures { result ≡ is_high_digit c }
{
    is_nd(c) && c != '0'
}

/// Whether it is a space of some script.
pub(crate) fn is_space(c: char) -> bool
    ensures { result ≡ is_space c }
{
    GeneralCategoryGroup::Separator.contains(GeneralCategory::for_char(c))
}

/// Whether it is a currency sign or the percent sign.
pub(crate) fn is_money(c: char) -> bool
    ensures { result ≡ is_money c }
{
    c == '%' || GeneralCategory::for_char(c) == GeneralCategory::CurrencySymbol
}

/// Whether it joins digits at once.
pub(crate) fn is_joiner(c: char) -> bool
    ensures { result ≡ is_joiner c }
{
    matches!(
        c,
        '\'' | '-' | '.' | ':' | '~' | '\u{2010}' | '\u{2011}' | '\u{2212}'
    )
}

/// Whether it parts a date.
pub(crate) fn is_date_mark(c: char) -> bool
    ensures { result ≡ is_date_mark c }
{
    matches!(c, '-' | '.' | '/')
}

/// Whether it is a capital letter of ASCII.
pub(crate) fn is_capital(c: char) -> bool
    ensures { result ≡ is_capital c }
{
    'A' <= c && c <= 'Z'
}

/// What may stand in a number.
pub(crate) struct Inner;

impl CharSet for Inner {
    ghost use Rattle.phone_find.specs.Sets.{is_inner};

    ghost members = { λ _ c. is_inner c };

    fn has(&self, c: char) -> bool {
        is_nd(c) || is_plus(c) || is_separator(c) || c == 'X'
    }
}

/// What a number ends in.
pub(crate) struct Last;

impl CharSet for Last {
    ghost use Rattle.phone_find.specs.Sets.{is_last};

    ghost members = { λ _ c. is_last c };

    fn has(&self, c: char) -> bool {
        is_nd(c) || c == '#'
    }
}

/// What a number begins with, if not with a plus sign.
pub(crate) struct First;

impl CharSet for First {
    ghost use Rattle.phone_find.specs.Sets.{is_first};

    ghost members = { λ _ c. is_first c };

    fn has(&self, c: char) -> bool {
        is_nd(c) || is_opening(c)
    }
}

/// Plus signs.
pub(crate) struct Plus;

impl CharSet for Plus {
    ghost use Rattle.phone_chars.specs.Characters.{is_plus};

    ghost members = { λ _ c. is_plus c };

    fn has(&self, c: char) -> bool {
        is_plus(c)
    }
}

/// Digits of all scripts.
pub(crate) struct Digits;

impl CharSet for Digits {
    ghost use Rattle.phone_chars.specs.Characters.{is_nd};

    ghost members = { λ _ c. is_nd c };

    fn has(&self, c: char) -> bool {
        is_nd(c)
    }
}

/// What may stand between a word that announces an extension and its digits.
pub(crate) struct Gaps;

impl CharSet for Gaps {
    ghost use Rattle.phone_find.specs.Sets.{is_gap};

    ghost members = { λ _ c. is_gap c };

    fn has(&self, c: char) -> bool {
        matches!(
            c,
            ' ' | '\u{A0}' | '\t' | ',' | '-' | '.' | ':' | '\u{FF0E}'
        )
    }
}

/// Closing brackets.
pub(crate) struct Closing;

impl CharSet for Closing {
    ghost use Rattle.phone_find.specs.Sets.{is_closing};

    ghost members = { λ _ c. is_closing c };

    fn has(&self, c: char) -> bool {
        is_closing(c)
    }
}

/// All but brackets.
pub(crate) struct Unbracketed;

impl CharSet for Unbracketed {
    ghost use Rattle.phone_find.specs.Sets.{is_unbracketed};

    ghost members = { λ _ c. is_unbracketed c };

    fn has(&self, c: char) -> bool {
        !(is_opening(c) || is_closing(c))
    }
}
