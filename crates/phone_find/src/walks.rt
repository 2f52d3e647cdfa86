//! How a rule fits a place of a text.
ghost use Rattle.std.specs.Prelude.{◌≡◌, option_map, chars, reverse};
ghost use Rattle.phone_find.specs.Told.{all_told, told};
ghost use Rattle.phone_find.specs.Walks.{after_sign, after_signs, fits, fits_place};
ghost use Rattle.phone_find.specs.Walks.{fits_some};

use crate::cuts::{peel, peel_back};
use crate::signs::{is_absent, stands_for};

/// What follows a first character that the sign stands for; none where another stands there.
fn after_sign(text: &str, sign: char) -> Option<&str>
    ensures { told result ≡ after_sign sign (chars text.now) }
{
    match peel(text) {
        Some((c, rest)) => {
            if stands_for(sign, c) {
                Some(rest)
            } else {
                None
            }
        }
        None => { if is_absent(sign) { Some(text) } else { None } }
    }
}

/// What stands before a last character that the sign stands for; none where another stands there.
fn before_sign(text: &str, sign: char) -> Option<&str>
    ensures { option_map reverse (told result) ≡ after_sign sign (reverse (chars text.now)) }
{
    match peel_back(text) {
        Some((c, rest)) => {
            if stands_for(sign, c) {
                Some(rest)
            } else {
                None
            }
        }
        None => { if is_absent(sign) { Some(text) } else { None } }
    }
}

/// What follows characters that the signs stand for, one for one; none where others stand there.
pub(crate) fn after_signs<'a>(text: &'a str, signs: &str) -> Option<&'a str>
    ensures { told result ≡ after_signs (chars signs.now) (chars text.now) }
{
    let mut rest = text;
    let mut wanted = signs;
    while let Some((sign, others)) = peel(wanted) {
        let after = after_sign(rest, sign)?;
        rest = after;
        wanted = others;
    }
    Some(rest)
}

/// Whether the signs fit the front of the text.
pub(crate) fn fits(text: &str, signs: &str) -> bool
    ensures { result ≡ fits (chars signs.now) (chars text.now) }
{
    match after_signs(text, signs) {
        Some(_) => true,
        None => false,
    }
}

/// Whether a rule fits the place between two parts of a text.
fn fits_place(before: &str, from: &str, rule: &str) -> bool
    ensures { result ≡
        fits_place (chars rule.now) (reverse (chars before.now)) (chars from.now) }
{
    let mut rest = before;
    let mut wanted = rule;
    while let Some((sign, others)) = peel(wanted) {
        if sign == '^' {
            return fits(from, others);
        }
        let Some(front) = before_sign(rest, sign) else {
            return false;
        };
        rest = front;
        wanted = others;
    }
    true
}

/// Whether one of the rules fits that place.
pub(crate) fn fits_some(before: &str, from: &str, rules: &[&str]) -> bool
    ensures { result ≡
        fits_some (all_told rules.now) (reverse (chars before.now)) (chars from.now) }
{
    for rule in rules {
        if fits_place(before, from, rule) {
            return true;
        }
    }
    false
}
