//! The extension that stands at the front of a text.
ghost use Rattle.std.specs.Prelude.{◌≡◌, ◌==◌, None, Some, MatchOption, IfSome, List, ℕ, ◌++◌};
ghost use Rattle.std.specs.Prelude.{chars, map};
ghost use Rattle.std.specs.Borrow.{Bor};
ghost use Rattle.phone_chars.specs.Cuts.{IsEnd};
ghost use Rattle.phone_library_text.specs.Announcements.{signs, words};
ghost use Rattle.phone_library_text.specs.Letters.{folded};
ghost use Rattle.phone_library_text.specs.Scans.{after_alike};
ghost use Rattle.phone_matches_text.specs.Extensions.{after_dashed, after_digits, after_ending};
ghost use Rattle.phone_matches_text.specs.Extensions.{after_extension, after_label};
ghost use Rattle.phone_matches_text.specs.Extensions.{after_labelled, after_number_sign};
ghost use Rattle.phone_matches_text.specs.Extensions.{after_parameter, after_some_label};
ghost use Rattle.phone_matches_text.specs.Extensions.{after_perhaps_extension};
ghost use Rattle.phone_matches_text.specs.Told.{told};
ghost use Rattle.phone_matches_text.specs.Sets.{is_in};
ghost use Rattle.phone_parts.specs.Texts.{after_one};

use crate::cuts::peel;
use crate::neighbours::begins_in;
use crate::sets::Set;
use crate::shapes::after_few;
use phone_chars::cuts::{CharSet, after_run};
use unicode::case::simple_fold;

/// The words that mean an extension.
const WORDS: [&str; 22] = [
    "xt",
    "xtn",
    "xtensio",
    "xtension",
    "xtensio\u{301}",
    "xtensio\u{301}n",
    "xtensi\u{F3}",
    "xtensi\u{F3}n",
    "ext",
    "extn",
    "extensio",
    "extension",
    "extensio\u{301}",
    "extensio\u{301}n",
    "extensi\u{F3}",
    "extensi\u{F3}n",
    "\u{FF58}\u{FF54}",
    "\u{FF58}\u{FF54}\u{FF4E}",
    "\u{FF45}\u{FF58}\u{FF54}",
    "\u{FF45}\u{FF58}\u{FF54}\u{FF4E}",
    "\u{434}\u{43E}\u{431}",
    "anexo",
];

/// The signs that may mean one.
const SIGNS: [&str; 8] = [
    "x",
    "\u{FF58}",
    "#",
    "\u{FF03}",
    "~",
    "\u{FF5E}",
    "int",
    "\u{FF49}\u{FF4E}\u{FF54}",
];

/// The words that mean an extension.
fn words() -> &'static [&'static str]
    ensures { map (λ (w : Bor (List ℕ)). chars w.now) result.now ≡ words }
{
    &WORDS
}

/// The signs that may mean one.
fn signs() -> &'static [&'static str]
    ensures { map (λ (w : Bor (List ℕ)). chars w.now) result.now ≡ signs }
{
    &SIGNS
}

/// The letter that the character is without case.
fn fold(c: char) -> char
    ensures { result ≡ folded c }
{
    if matches!(c, '\u{130}' | '\u{131}') {
        'i'
    } else {
        simple_fold(c)
    }
}

/// Whether two characters have one folding.
fn same_folded(a: char, b: char) -> bool
    ensures { result ≡ (folded a == folded b) }
{
    fold(a) == fold(b)
}

/// What follows a front of the text that is alike the word, whatever the case of its letters; none
/// where no such front is there.
fn strip_alike<'a>(text: &'a str, word: &str) -> Option<&'a str>
    ensures read { told result ≡ after_alike (chars text.now) (chars word.now) }
    ensures end { IfSome result (λ rest. IsEnd text.now rest.now) }
{
    let mut rest = text;
    let mut wanted = word;
    while let Some((w, after_word)) = peel(wanted) {
        let (c, after) = peel(rest)?;
        if !same_folded(c, w) {
            return None;
        }
        rest = after;
        wanted = after_word;
    }
    Some(rest)
}

/// The text without its first character, where that is in the set; else all of it.
fn after_one(text: &str, set: Set) -> &str
    ensures rest { chars result.now ≡ after_one (is_in set) (chars text.now) }
    ensures end { IsEnd text.now result.now }
{
    if let Some((c, rest)) = peel(text) {
        if set.has(c) {
            return rest;
        }
    }
    text
}

/// What follows digits, at least one and at most so many.
fn after_digits(text: &str, most: usize) -> Option<&str>
    ensures rest { told result ≡ after_digits most (chars text.now) }
    ensures end { IfSome result (λ rest. IsEnd text.now rest.now) }
{
    if begins_in(text, Set::AnyDigit) {
        Some(after_few(text, Set::AnyDigit, most))
    } else {
        None
    }
}

/// What follows perhaps a mark, a gap, digits, and perhaps a number sign.
fn after_ending(text: &str, most: usize) -> Option<&str>
    ensures rest { told result ≡ after_ending most (chars text.now) }
    ensures end { IfSome result (λ rest. IsEnd text.now rest.now) }
{
    let unmarked = after_one(text, Set::Mark);
    let digits = after_run(unmarked, &Set::Gap);
    let rest = after_digits(digits, most)?;
    Some(after_one(rest, Set::NumberSign))
}

/// What follows a label and such an ending.
fn after_label<'a>(text: &'a str, label: &str, most: usize) -> Option<&'a str>
    ensures rest { told result ≡ after_label most (chars text.now) (chars label.now) }
    ensures end { IfSome result (λ rest. IsEnd text.now rest.now) }
{
    let rest = strip_alike(text, label)?;
    after_ending(rest, most)
}

/// The same for the first of the labels that stands here so.
fn after_some_label<'a>(text: &'a str, labels: &[&str], most: usize) -> Option<&'a str>
    ensures rest { told result ≡ after_some_label most
        (map (λ (w : Bor (List ℕ)). chars w.now) labels.now) (chars text.now) }
    ensures end { IfSome result (λ rest. IsEnd text.now rest.now) }
{
    for label in labels {
        if let Some(rest) = after_label(text, label, most) {
            return Some(rest);
        }
    }
    None
}

/// What follows `;ext=` and at most twenty digits.
#[tactic(auto, using(crate::proofs::Ends::chars_parameter))]
fn after_parameter(text: &str) -> Option<&str>
    ensures rest { told result ≡ after_parameter (chars text.now) }
    ensures end { IfSome result (λ rest. IsEnd text.now rest.now) }
{
    let rest = strip_alike(text, ";ext=")?;
    after_digits(rest, 20)
}

/// What may stand before a label.
struct Leads;

impl CharSet for Leads {
    ghost use Rattle.phone_parts.specs.Suffixes.{is_lead};

    ghost members = { λ _ c. is_lead c };

    fn has(&self, c: char) -> bool {
        matches!(c, ' ' | '\u{A0}' | '\t' | ',')
    }
}

/// What follows a word and at most twenty digits.
fn after_word(text: &str) -> Option<&str>
    ensures rest { told result ≡ after_some_label 20 words (chars text.now) }
    ensures end { IfSome result (λ rest. IsEnd text.now rest.now) }
{
    after_some_label(text, words(), 20)
}

/// What follows a sign and at most nine digits.
fn after_sign(text: &str) -> Option<&str>
    ensures rest { told result ≡ after_some_label 9 signs (chars text.now) }
    ensures end { IfSome result (λ rest. IsEnd text.now rest.now) }
{
    after_some_label(text, signs(), 9)
}

/// What follows a lead, a word or a sign, and its digits.
fn after_labelled(text: &str) -> Option<&str>
    ensures rest { told result ≡ after_labelled (chars text.now) }
    ensures end { IfSome result (λ rest. IsEnd text.now rest.now) }
{
    let label = after_run(text, &Leads);
    match after_word(label) {
        Some(rest) => Some(rest),
        None => after_sign(label),
    }
}

/// What follows a number sign.
fn after_number_sign(text: &str) -> Option<&str>
    ensures rest { told result ≡ after_number_sign (chars text.now) }
    ensures end { IfSome result (λ rest. IsEnd text.now rest.now) }
{
    if begins_in(text, Set::NumberSign) {
        Some(after_one(text, Set::NumberSign))
    } else {
        None
    }
}

/// What follows hyphens and spaces, at most six digits, and a number sign.
fn after_dashed(text: &str) -> Option<&str>
    ensures rest { told result ≡ after_dashed (chars text.now) }
    ensures end { IfSome result (λ rest. IsEnd text.now rest.now) }
{
    if !begins_in(text, Set::Dash) {
        return None;
    }
    let digits = after_run(text, &Set::Dash);
    let rest = after_digits(digits, 6)?;
    after_number_sign(rest)
}

/// What follows an extension of one of these forms; none where none stands here.
fn after_extension(text: &str) -> Option<&str>
    ensures rest { told result ≡ after_extension (chars text.now) }
    ensures end { IfSome result (λ rest. IsEnd text.now rest.now) }
{
    if let Some(rest) = after_parameter(text) {
        return Some(rest);
    }
    match after_labelled(text) {
        Some(rest) => Some(rest),
        None => after_dashed(text),
    }
}

/// What follows perhaps an extension: a parameter `;ext=`, a word or a sign with its digits, or
/// digits between hyphens or spaces and a number sign.
pub(crate) fn after_perhaps_extension(text: &str) -> &str
    ensures rest { chars result.now ≡ after_perhaps_extension (chars text.now) }
    ensures end { IsEnd text.now result.now }
{
    match after_extension(text) {
        Some(rest) => rest,
        None => text,
    }
}
