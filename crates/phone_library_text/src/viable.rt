//! Whether a text may be a number at all, and the number and the extension of such a text.
ghost use Rattle.std.specs.Prelude.{◌≡◌, ◌↔◌, ◌||◌, ◌&&◌, ℕ, List, ◌++◌, IsTrue, IfSome, chars};
ghost use Rattle.std.specs.Prelude.{MatchOption};
ghost use Rattle.phone_parts.specs.Parts.{IsSlice};
ghost use Rattle.phone_library_text.specs.Extensions.{HasLongestExtension, HasNoExtension};
ghost use Rattle.phone_library_text.specs.Letters.{is_early, is_latin};
ghost use Rattle.phone_library_text.specs.NumberTexts.{chars_of};
ghost use Rattle.phone_library_text.specs.Scans.{is_two_digits};
ghost use Rattle.phone_library_text.specs.Viable.{HasNumber, IsExtended, IsSignedDigits};
ghost use Rattle.phone_library_text.specs.Viable.{IsTwoDigits};
ghost use Rattle.phone_library_text.specs.Viable.{IsViable};

use crate::extension::find_extension;
use crate::labels::is_nothing;
use crate::letters::{is_early, is_latin};
use phone_chars::PlusSigns;
use phone_chars::chars::is_nd;
use phone_chars::cuts::{after_run, split_first};

/// Whether the text is a digit and another.
fn is_digit_pair(text: &str) -> bool
    ensures { result ≡ is_two_digits (chars text.now) }
{
    let Some((first, rest)) = split_first(text) else {
        return false;
    };
    let Some((second, after)) = split_first(rest) else {
        return false;
    };
    is_nothing(after) && is_nd(first) && is_nd(second)
}

/// Whether the text is exactly two digits.
fn is_two_digits(text: &str) -> bool
    ensures { IsTrue result ↔ IsTwoDigits (chars text.now) }
{
    is_digit_pair(text)
}

/// Whether a character that is no digit may stand in a number, where letters may or may not.
fn may_stand(c: char, letters: bool) -> bool
    ensures { result ≡ (is_early c || (letters && is_latin c)) }
{
    is_early(c) || (letters && is_latin(c))
}

/// Whether the text is plus signs, or none, and then a number of at least three digits.
fn is_signed_digits(text: &str) -> bool
    ensures { IsTrue result ↔ IsSignedDigits (chars text.now) }
{
    let mut rest = after_run(text, &PlusSigns);
    let mut missing: u8 = 3;
    while let Some((c, after)) = split_first(rest) {
        if is_nd(c) {
            missing = missing.saturating_sub(1);
        } else if !may_stand(c, missing == 0) {
            return false;
        }
        rest = after;
    }
    missing == 0
}

/// Whether the text is signed digits before its longest extension. Where it is so before any, it is
/// so before the longest, as no digit stands between.
fn is_extended(text: &str) -> bool
    ensures { IsTrue result ↔ IsExtended (chars text.now) }
{
    match find_extension(text) {
        Some((front, _)) => is_signed_digits(front),
        None => false,
    }
}

/// Whether a text may be a number at all: two digits of any script and nothing else; or, after any
/// plus signs, at least three digits among separators, stars and letters, where up to the third
/// digit the only letter is `x` of either case; or such digits and an extension. It takes no
/// memory, and its time is linear in the text.
pub fn is_viable(text: &str) -> bool
    ensures { IsTrue result ↔ IsViable (chars text.now) }
{
    is_two_digits(text) || is_signed_digits(text) || is_extended(text)
}

/// The number of a text without its extension, and the extension's digits, which may be of any
/// script. A text is parted before its longest end that is an extension, where what stands before
/// it is viable itself; else it has no extension, and is its own number. Both are lent from the
/// text. It takes no memory, and its time is linear in the text.
pub fn split_extension(text: &str) -> (&str, Option<&str>)
    ensures read { HasNumber (chars text.now) (chars result.0.now) (chars_of result.1) }
    ensures front { (v : List ℕ) × (text.now ≡ result.0.now ++ v) }
    ensures digits { IfSome result.1 (λ d. IsSlice text.now d.now) }
{
    if let Some((front, digits)) = find_extension(text) {
        if is_viable(front) {
            return (front, Some(digits));
        }
    }
    (text, None)
}

/// The number of a viable text without its extension, and the extension's digits, as
/// [`split_extension`] parts it; none where the text isn't viable. An extension is looked for once.
/// It takes no memory, and its time is linear in the text.
pub(crate) fn viable_parts(text: &str) -> Option<(&str, Option<&str>)>
    ensures { MatchOption result (¬ (IsViable (chars text.now))) (λ p.
        IsViable (chars text.now) × HasNumber (chars text.now) (chars p.0.now) (chars_of p.1)) }
{
    match find_extension(text) {
        Some((front, digits)) => parts_before(text, front, digits),
        None => all_if_viable(text),
    }
}

/// The same of a text without an extension.
fn all_if_viable(text: &str) -> Option<(&str, Option<&str>)>
    requires { HasNoExtension (chars text.now) }
    ensures { MatchOption result (¬ (IsViable (chars text.now))) (λ p.
        IsViable (chars text.now) × HasNumber (chars text.now) (chars p.0.now) (chars_of p.1)) }
{
    if is_viable(text) {
        Some((text, None))
    } else {
        None
    }
}

/// The same of a text whose longest extension stands behind this front. Mostly signed digits stand
/// there: these are asked first.
fn parts_before<'a>(
    text: &'a str,
    front: &'a str,
    digits: &'a str,
) -> Option<(&'a str, Option<&'a str>)>
    requires { HasLongestExtension (chars text.now) (chars front.now) (chars digits.now) }
    ensures { MatchOption result (¬ (IsViable (chars text.now))) (λ p.
        IsViable (chars text.now) × HasNumber (chars text.now) (chars p.0.now) (chars_of p.1)) }
{
    if is_signed_digits(front) {
        return Some((front, Some(digits)));
    }
    if is_viable(text) {
        Some(split_extension(text))
    } else {
        None
    }
}
