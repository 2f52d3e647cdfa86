//! Floats of a spreadsheet.
ghost use Rattle.std.specs.Prelude.{◌≡◌, ◌==◌};
ghost use Rattle.std.specs.List.{list_all};
ghost use Rattle.phone_doubts.specs.Spreadsheets.{are_zeros, is_exponent, is_float, is_float_by};
ghost use Rattle.phone_doubts.specs.Spreadsheets.{is_fraction, is_scaled, is_sign};

use crate::parted::{are_digits, split_at_word};

/// Whether a text is a spreadsheet's float, as `4930123437.0` or `6.4E+10`.
pub(crate) fn is_float(text: &[u8]) -> bool
    ensures { result ≡ is_float text.now }
{
    is_float_by(text, b".") || is_float_by(text, b",")
}

/// Whether a text is digits, this mark, and a fraction.
fn is_float_by(text: &[u8], mark: &[u8]) -> bool
    ensures { result ≡ is_float_by mark.now text.now }
{
    match split_at_word(text, mark) {
        Some((before, behind)) => are_digits(before) && is_fraction(behind),
        None => false,
    }
}

/// Whether a text may stand behind the mark: zeros, or digits with an exponent.
fn is_fraction(text: &[u8]) -> bool
    ensures { result ≡ is_fraction text.now }
{
    are_zeros(text) || is_scaled(text, b"E") || is_scaled(text, b"e")
}

/// Whether a text is zeros alone, one at least.
fn are_zeros(text: &[u8]) -> bool
    ensures { result ≡ are_zeros text.now }
{
    !text.is_empty() && has_only_zeros(text)
}

/// Whether each byte of a text is a zero.
fn has_only_zeros(text: &[u8]) -> bool
    ensures { result ≡ list_all (λ c. c == 48) text.now }
{
    text.iter().all(|byte| *byte == b'0')
}

/// Whether a text is digits, this letter, and an exponent.
fn is_scaled(text: &[u8], letter: &[u8]) -> bool
    ensures { result ≡ is_scaled letter.now text.now }
{
    match split_at_word(text, letter) {
        Some((before, behind)) => are_digits(before) && is_exponent(behind),
        None => false,
    }
}

/// Whether a text is a sign, and digits behind it.
fn is_exponent(text: &[u8]) -> bool
    ensures { result ≡ is_exponent text.now }
{
    match text.split_first() {
        Some((sign, digits)) => is_sign(*sign) && are_digits(digits),
        None => false,
    }
}

/// Whether a byte is a sign.
fn is_sign(byte: u8) -> bool
    ensures { result ≡ is_sign byte }
{
    byte == b'+' || byte == b'-'
}
