//! Whether a text may be a number at all.
ghost use Rattle.std.specs.Prelude.{◌≡◌, ◌↔◌, ◌&&◌, ◌||◌, IsTrue, chars};
ghost use Rattle.phone_chars.specs.Characters.{is_alpha, is_digit, is_plus, is_punctuation};
ghost use Rattle.phone_chars.specs.Characters.{is_star};
ghost use Rattle.phone_chars.specs.Viable.{IsTwoDigits, IsSignedDigits, IsViable};

use crate::chars::{is_alpha, is_digit, is_plus, is_punctuation, is_star};
use crate::cuts::{CharSet, after_run, split_first};
use crate::norm::has_digits_alone;

/// The plus signs, `+` and the fullwidth one.
pub struct PlusSigns;

impl CharSet for PlusSigns {
    ghost members = { λ _. is_plus };

    fn has(&self, c: char) -> bool {
        is_plus(c)
    }
}

/// Whether a text is exactly two digits. Digits take one byte each.
fn is_two_digits(text: &str) -> bool
    ensures { IsTrue result ↔ IsTwoDigits (chars text.now) }
{
    text.len() == 2 && has_digits_alone(text)
}

/// Whether a character that is no digit may stand in a number, where letters may or may not.
fn may_stand(c: char, letters: bool) -> bool
    ensures { result ≡ (is_punctuation c || is_star c || (letters && is_alpha c)) }
{
    is_punctuation(c) || is_star(c) || (letters && is_alpha(c))
}

/// Whether a text is plus signs, or none, and then a number of at least three digits.
fn is_signed_digits(text: &str) -> bool
    ensures { IsTrue result ↔ IsSignedDigits (chars text.now) }
{
    let mut rest = after_run(text, &PlusSigns);
    let mut missing: u8 = 3;
    while let Some((c, after)) = split_first(rest) {
        if is_digit(c) {
            missing = missing.saturating_sub(1);
        } else if !may_stand(c, missing == 0) {
            return false;
        }
        rest = after;
    }
    missing == 0
}

/// Whether a text may be a number at all: two digits and nothing else; or, after any plus signs, at
/// least three digits among punctuation, stars and letters, where up to the third digit the only
/// letter is the small `x`. It takes no memory. Digits are those from `0` to `9`.
pub fn is_viable(text: &str) -> bool
    ensures { IsTrue result ↔ IsViable (chars text.now) }
{
    is_two_digits(text) || is_signed_digits(text)
}
