//! The sets of characters that the parts of an extension are made of.

use phone_chars::chars::is_nd;
use phone_chars::cuts::CharSet;

/// What may follow an indicator at once.
pub struct Marks;

impl CharSet for Marks {
    ghost use Rattle.phone_parts.specs.Suffixes.{is_mark};

    ghost members = { λ _ c. is_mark c };

    fn has(&self, c: char) -> bool {
        matches!(c, ':' | '.' | '\u{FF0E}')
    }
}

/// What may stand between an indicator and the digits.
pub struct Gaps;

impl CharSet for Gaps {
    ghost use Rattle.phone_parts.specs.Suffixes.{is_gap};

    ghost members = { λ _ c. is_gap c };

    fn has(&self, c: char) -> bool {
        matches!(c, ' ' | '\u{A0}' | '\t' | ',' | '-')
    }
}

/// Digits of any script.
pub struct Digits;

impl CharSet for Digits {
    ghost use Rattle.phone_chars.specs.Characters.{is_nd};

    ghost members = { λ _ c. is_nd c };

    fn has(&self, c: char) -> bool {
        is_nd(c)
    }
}

/// What stands before the digits of an extension with a number sign behind them.
pub(crate) struct Dashes;

impl CharSet for Dashes {
    ghost use Rattle.phone_parts.specs.Suffixes.{is_dash};

    ghost members = { λ _ c. is_dash c };

    fn has(&self, c: char) -> bool {
        c == '-' || c == ' '
    }
}

/// The number sign.
pub(crate) struct Sign;

impl CharSet for Sign {
    ghost use Rattle.phone_parts.specs.Suffixes.{is_sign};

    ghost members = { λ _ c. is_sign c };

    fn has(&self, c: char) -> bool {
        c == '#'
    }
}
