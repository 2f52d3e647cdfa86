//! Where a number may begin and end in a text, and what it is made of.
ghost use Rattle.std.specs.Prelude.{◌≡◌, ◌≤◌, ◌++◌, ℕ, List, true, chars, length};
ghost use Rattle.std.specs.Prelude.{reverse};
ghost use Rattle.std.specs.List.{list_any};
ghost use Rattle.phone_chars.specs.Cuts.{IsEnd};
ghost use Rattle.phone_find.specs.Standing.{is_begin, is_end, is_inside, is_plain};
ghost use Rattle.phone_find.specs.Standing.{is_shaped};
ghost use Rattle.phone_find.specs.Shapes.{are_extension_digits, has_few_digits};
ghost use Rattle.phone_find.specs.Shapes.{is_bracketed, is_extension, is_labelled, is_made};
ghost use Rattle.phone_find.specs.Shapes.{is_nil, is_sign_or_end};
ghost use Rattle.phone_find.specs.Told.{all_told};

use crate::cuts::{begins_in, ends_in, is_nil, peel};
use crate::dates::has_date;
use crate::rules::{
    accounts, areas, cards, codes_before, followers, labels, links, neighbours, stamps,
};
use crate::sets::{Closing, Digits, First, Gaps, Inner, Last, Plus, Unbracketed};
use crate::walks::{after_signs, fits_some};
use phone_chars::chars::is_nd;
use phone_chars::cuts::{CharSet, after_run, split_first};
use phone_matches_text::has_good_brackets;

/// Whether the place between two parts of a text is inside something else.
fn is_inside(before: &str, from: &str) -> bool
    ensures { result ≡ is_inside (reverse (chars before.now)) (chars from.now) }
{
    fits_some(before, from, neighbours())
        || fits_some(before, from, areas())
        || fits_some(before, from, codes_before())
        || fits_some(before, from, accounts())
        || fits_some(before, from, cards())
}

/// Whether a number may begin between these two parts of a text: at a plus sign; or at a digit or
/// an opening bracket, behind what makes a link dial, such as `tel:`, or where the place isn't
/// inside a longer number, a price, an address of the net, an account number or a card's. The time
/// is bounded, whatever the parts' lengths.
pub fn may_begin(before: &str, from: &str) -> bool
    ensures { result ≡ is_begin (chars before.now) (chars from.now) }
{
    begins_in(from, &Plus)
        || (begins_in(from, &First)
            && (fits_some(before, from, links()) || !is_inside(before, from)))
}

/// Whether a number may end between its piece and what follows: the piece ends in a digit, or in a
/// number sign behind an extension, and isn't the front of a longer number, a price, or a date with
/// its time. The time is bounded, whatever the lengths.
pub fn may_end(piece: &str, after: &str) -> bool
    ensures { result ≡ is_end (chars piece.now) (chars after.now) }
{
    ends_in(piece, &Last)
        && !fits_some(piece, after, followers())
        && !fits_some(piece, after, stamps())
}

/// Whether the text is nothing, or a number sign alone.
fn is_sign_or_end(text: &str) -> bool
    ensures { result ≡ is_sign_or_end (chars text.now) }
{
    match peel(text) {
        Some((c, rest)) => c == '#' && is_nil(rest),
        None => true,
    }
}

/// Whether the text is the digits of an extension, perhaps behind a gap.
fn are_extension_digits(text: &str) -> bool
    ensures { result ≡ are_extension_digits (chars text.now) }
{
    let digits = after_run(text, &Gaps);
    begins_in(digits, &Digits) && is_sign_or_end(after_run(digits, &Digits))
}

/// Whether the text is a label of extensions and an extension's digits.
fn is_labelled(text: &str, label: &str) -> bool
    ensures { result ≡ is_labelled (chars text.now) (chars label.now) }
{
    match after_signs(text, label) {
        Some(rest) => are_extension_digits(rest),
        None => false,
    }
}

/// The same for one of the labels.
fn is_labelled_so(text: &str, many: &[&str]) -> bool
    ensures { result ≡ list_any (is_labelled (chars text.now)) (all_told many.now) }
{
    for label in many {
        if is_labelled(text, label) {
            return true;
        }
    }
    false
}

/// Whether the text is an announced extension.
fn is_extension(text: &str) -> bool
    ensures { result ≡ is_extension (chars text.now) }
{
    is_labelled_so(text, labels())
}

/// Whether the text is what may stand in a number, and behind it perhaps an extension.
fn is_made(text: &str) -> bool
    ensures { result ≡ is_made (chars text.now) }
{
    let rest = after_run(text, &Inner);
    is_nil(rest) || is_extension(rest)
}

/// Whether the first bracket isn't a closing one, and brackets stand as they may in a number.
fn is_bracketed(text: &str) -> bool
    ensures { result ≡ is_bracketed (chars text.now) }
{
    !begins_in(after_run(text, &Unbracketed), &Closing) && has_good_brackets(text)
}

/// The most digits that a number has: 17 of its national number, 3 of its calling code, 5 of an
/// international prefix, 9 of an extension behind an `x`.
const MOST_DIGITS: usize = 34;

/// The text from the first digit on that would be one too many for a number that begins the text;
/// nothing where there is none, or a character stands before it that may not stand in a number. The
/// time is linear in what stands before that digit.
pub fn from_too_many(text: &str) -> &str
    ensures end { IsEnd text.now result.now }
    ensures few { is_nil (chars result.now) ≡ has_few_digits (chars text.now) }
    ensures bound { (piece after : List ℕ) → chars text.now ≡ piece ++ after →
        has_few_digits piece ≡ true → length (chars result.now) ≤ length after }
{
    let mut rest = text;
    let mut left = MOST_DIGITS;
    while let Some((c, after)) = split_first(rest) {
        if !Inner.has(c) {
            return "";
        }
        if is_nd(c) {
            if left == 0 {
                return rest;
            }
            left -= 1;
        }
        rest = after;
    }
    ""
}

/// Whether few digits stand in a text before the first character that may not stand in a number.
fn has_few_digits(text: &str) -> bool
    ensures { result ≡ has_few_digits (chars text.now) }
{
    is_nil(from_too_many(text))
}

/// Whether a piece is digits, plus signs and what may stand between groups, perhaps with an
/// extension, and its brackets stand as they may in a number. The time is linear in the piece.
pub fn is_plain(piece: &str) -> bool
    ensures { result ≡ is_plain (chars piece.now) }
{
    is_made(piece) && is_bracketed(piece)
}

/// Whether a piece is made as a number is: it is a plain one, has few digits, and no date stands in
/// it. The time is linear in the piece.
pub fn is_shaped(piece: &str) -> bool
    ensures { result ≡ is_shaped (chars piece.now) }
{
    has_few_digits(piece) && is_plain(piece) && !has_date(piece)
}
