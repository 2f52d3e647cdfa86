//! The extension at the end of a text, in its three forms.
ghost use Rattle.std.specs.Prelude.{◌≡◌, ℕ, List, ◌∷◌, ◌++◌, ◌&&◌, [], nat_le, length, MatchOption};
ghost use Rattle.std.specs.Prelude.{IfSome, IsTrue, chars, map};
ghost use Rattle.std.specs.Borrow.{Bor};
ghost use Rattle.std.specs.List.{list_all, list_any};
ghost use Rattle.phone_chars.specs.Characters.{is_nd};
ghost use Rattle.phone_parts.specs.Longest.{AreEndsUpTo, AreEndsWithin};
ghost use Rattle.phone_parts.specs.Parts.{IsSlice};
ghost use Rattle.phone_parts.specs.Texts.{begins};
ghost use Rattle.phone_parts.specs.Suffixes.{IsParameter, IsNumberSigned, IsSomeNumberSigned};
ghost use Rattle.phone_parts.specs.Suffixes.{IsIndicated, IsAnnounced, IsEnding, IsSomeEnding};
ghost use Rattle.phone_parts.specs.Suffixes.{IsSuffix, announces, indicators, is_lead, is_plain};
ghost use Rattle.phone_parts.specs.Suffixes.{is_suffix_start};
ghost use Rattle.phone_parts.specs.Suffixes.{IsSomeSuffix, HasNoSuffix, HasLongestSuffix};

use crate::fronts::{is_nothing, skip_one, strip_char, strip_like};
use crate::indicators::indicators_from;
use crate::sets::{Dashes, Digits, Gaps, Marks, Sign};
use crate::tails::{ending_limit, number_sign_limit};
use phone_chars::chars::{is_digit, is_nd};
use phone_chars::cuts::{after_run, before, split_first, split_run};
use unicode::case::simple_fold;

/// The forms of an extension, as the definitions name them.
#[derive(Clone, Copy, PartialEq, Eq, Debug)]
pub enum Form {
    /// `;ext=` before the digits.
    Parameter,
    /// An indicator before the digits, as in ` ext. 5`.
    Indicated,
    /// A number sign behind the digits, as in ` 5#`.
    NumberSign,
}

/// Whether the character may stand before an indicator.
fn is_lead(c: char) -> bool
    ensures { result ≡ is_lead c }
{
    matches!(c, ' ' | '\u{A0}' | '\t' | ',')
}

/// Whether an extension may begin with this character. A digit is its own folding and begins none:
/// most characters of a number are digits, so they are asked first.
fn is_suffix_start(c: char) -> bool
    ensures { result ≡ is_suffix_start c }
{
    !is_digit(c) && folds_to_suffix_start(c)
}

/// Whether the folding of this character begins an extension.
fn folds_to_suffix_start(c: char) -> bool
    ensures { result ≡ is_suffix_start c }
{
    matches!(
        simple_fold(c),
        ' ' | '\t'
            | '\u{A0}'
            | ','
            | '-'
            | ';'
            | '#'
            | '~'
            | 'x'
            | 'e'
            | 'i'
            | 'a'
            | '\u{FF03}'
            | '\u{FF5E}'
            | '\u{FF58}'
            | '\u{FF45}'
            | '\u{FF49}'
    )
}

/// Whether the text begins as an extension may.
fn begins_suffix(text: &str) -> bool
    ensures { result ≡ begins is_suffix_start (chars text.now) }
{
    text.starts_with(|c| is_suffix_start(c))
}

/// Whether the character is one of those that most numbers are made of: none of them announces an
/// extension.
fn is_plain(c: char) -> bool
    ensures { result ≡ is_plain c }
{
    is_digit(c) || matches!(c, ' ' | '(' | ')' | '+' | '-' | '.' | '/')
}

/// Whether each extension has such a character: its folding begins an indicator or a parameter, or
/// is the number sign.
fn announces(c: char) -> bool
    ensures { result ≡ announces c }
{
    !is_plain(c) && folds_to_announcer(c)
}

/// Whether the folding of this character is one that each extension has.
fn folds_to_announcer(c: char) -> bool
    ensures { result ≡ announces c }
{
    matches!(
        simple_fold(c),
        ',' | ';'
            | '#'
            | '~'
            | 'x'
            | 'e'
            | 'i'
            | 'a'
            | '\u{FF03}'
            | '\u{FF5E}'
            | '\u{FF58}'
            | '\u{FF45}'
            | '\u{FF49}'
    )
}

/// Whether a text has a character that each extension has. Most texts are made of plain characters
/// alone, which are ASCII: these are gone over byte by byte.
fn has_announcer(text: &str) -> bool
    ensures { result ≡ list_any announces (chars text.now) }
{
    !are_plain(text.as_bytes()) && some_announces(text)
}

/// Whether bytes are plain characters alone.
fn are_plain(bytes: &[u8]) -> bool
    ensures { result ≡ list_all is_plain bytes.now }
{
    bytes.iter().all(|byte| is_plain(char::from(*byte)))
}

/// Whether a character of a text announces an extension.
fn some_announces(text: &str) -> bool
    ensures { result ≡ list_any announces (chars text.now) }
{
    text.chars().any(|c| announces(c))
}

/// How many bytes the ends of a text may have that end an extension.
#[derive(Clone, Copy)]
struct Limits {
    /// An end that may follow an indicator: each end with no more bytes is one.
    ending: usize,

    /// An extension with a number sign behind its digits: none has more bytes.
    number_sign: usize,
}

/// What stands before the longest end of a text that is an extension, and the digits of that
/// extension; none where no end is one. Most texts have no character that an extension has: these
/// are passed over once.
pub(crate) fn find_suffix(text: &str) -> Option<(&str, &str)>
    ensures read { MatchOption result (HasNoSuffix (chars text.now))
        (λ p. HasLongestSuffix (chars text.now) (chars p.0.now) (chars p.1.now)) }
    ensures front { IfSome result (λ p. (v : List ℕ) × (text.now ≡ p.0.now ++ v)) }
    ensures slice { IfSome result (λ p. IsSlice text.now p.1.now) }
{
    if has_announcer(text) {
        longest_suffix(text)
    } else {
        None
    }
}

/// What stands before the longest end of a text that is an extension, and the digits of that
/// extension; none where no end is one. What an extension ends in is found out once, from the
/// right. Then it is asked from the left, at each border between characters, whether an extension
/// begins there, and a border whose character can't begin one is passed at once. The indicators are
/// tried only where the character begins one, and what follows is compared by its length alone.
/// Where a run of spaces, tabs and commas is followed by no indicator, that is found out once, at
/// the front of the run. So the time is linear in the text.
fn longest_suffix(text: &str) -> Option<(&str, &str)>
    ensures read { MatchOption result (HasNoSuffix (chars text.now))
        (λ p. HasLongestSuffix (chars text.now) (chars p.0.now) (chars p.1.now)) }
    ensures front { IfSome result (λ p. (v : List ℕ) × (text.now ≡ p.0.now ++ v)) }
    ensures slice { IfSome result (λ p. IsSlice text.now p.1.now) }
{
    let limits = Limits {
        ending: ending_limit(text),
        number_sign: number_sign_limit(text),
    };
    let mut rest = text;
    let mut in_lead = false;
    while let Some((c, after)) = split_first(rest) {
        if let Some(digits) = read_suffix(rest, limits, in_lead) {
            return Some((before(text, rest), digits));
        }
        in_lead = is_lead(c);
        rest = after;
    }
    None
}

/// The digits of an extension of any form. It may be known that the text has no indicator: then
/// that form isn't tried.
fn read_suffix(text: &str, limits: Limits, no_indicator: bool) -> Option<&str>
    requires unindicated { IsTrue no_indicator → (d : List ℕ) → ¬ (IsIndicated (chars text.now) d) }
    requires ending { AreEndsUpTo IsSomeEnding limits.ending text.now }
    requires number_sign { AreEndsWithin IsSomeNumberSigned limits.number_sign text.now }
    ensures read { MatchOption result
        ((f : Form) (d : List ℕ) → ¬ (IsSuffix (chars text.now) f d))
        (λ d. IsSomeSuffix (chars text.now) (chars d.now)) }
    ensures slice { IfSome result (λ d. IsSlice text.now d.now) }
{
    if !begins_suffix(text) {
        return None;
    }
    if let Some(digits) = parameter(text) {
        return Some(digits);
    }
    if let Some(digits) = indicated_unless(text, limits.ending, no_indicator) {
        return Some(digits);
    }
    number_signed(text, limits.number_sign)
}

/// The digits of an extension with an indicator, unless it is known that the text is none.
fn indicated_unless(text: &str, limit: usize, no_indicator: bool) -> Option<&str>
    requires unindicated { IsTrue no_indicator → (d : List ℕ) → ¬ (IsIndicated (chars text.now) d) }
    requires limit { AreEndsUpTo IsSomeEnding limit text.now }
    ensures read { MatchOption result ((d : List ℕ) →
        ¬ (IsIndicated (chars text.now) d)) (λ d. IsIndicated (chars text.now) (chars d.now)) }
    ensures slice { IfSome result (λ d. IsSlice text.now d.now) }
{
    if no_indicator {
        None
    } else {
        indicated_digits(text, limit)
    }
}

/// Whether the text is digits of any script, and no more of them than this.
fn are_digits(text: &str, most: usize) -> bool
    ensures { result ≡ (list_all is_nd (chars text.now) && nat_le (length (chars text.now)) most) }
{
    only_digits(text) && count_chars(text) <= most
}

fn only_digits(text: &str) -> bool
    ensures { result ≡ list_all is_nd (chars text.now) }
{
    text.chars().all(|c| is_nd(c))
}

fn count_chars(text: &str) -> usize
    ensures { result ≡ length (chars text.now) }
{
    text.chars().count()
}

/// The digits of `;ext=5`.
fn parameter(text: &str) -> Option<&str>
    ensures read { MatchOption result ((d : List ℕ) →
        ¬ (IsParameter (chars text.now) d)) (λ d. IsParameter (chars text.now) (chars d.now)) }
    ensures slice { IfSome result (λ d. IsSlice text.now d.now) }
{
    let digits = strip_like(text, ";ext=")?;
    if !are_digits(digits, 7) {
        return None;
    }
    Some(digits)
}

/// The digits of ` 5#`, where the text is no longer than such an extension may be.
fn number_signed(text: &str, limit: usize) -> Option<&str>
    requires { AreEndsWithin IsSomeNumberSigned limit text.now }
    ensures read { MatchOption result ((d : List ℕ) →
        ¬ (IsNumberSigned (chars text.now) d))
        (λ d. IsNumberSigned (chars text.now) (chars d.now)) }
    ensures slice { IfSome result (λ d. IsSlice text.now d.now) }
{
    if text.len() > limit {
        return None;
    }
    let (lead, rest) = split_run(text, &Dashes);
    let (digits, sign) = split_run(rest, &Digits);
    if is_nothing(lead) {
        return None;
    }
    if is_nothing(digits) {
        return None;
    }
    if !are_digits(digits, 5) {
        return None;
    }
    let end = strip_char(sign, '#')?;
    if !is_nothing(end) {
        return None;
    }
    Some(digits)
}

/// The digits of an extension with an indicator.
fn indicated_digits(text: &str, limit: usize) -> Option<&str>
    requires { AreEndsUpTo IsSomeEnding limit text.now }
    ensures read { MatchOption result ((d : List ℕ) →
        ¬ (IsIndicated (chars text.now) d)) (λ d. IsIndicated (chars text.now) (chars d.now)) }
    ensures slice { IfSome result (λ d. IsSlice text.now d.now) }
{
    let mut rest = text;
    while let Some((c, after)) = split_first(rest) {
        if let Some(digits) = announced_digits(rest, limit) {
            return Some(digits);
        }
        if !is_lead(c) {
            return None;
        }
        rest = after;
    }
    None
}

/// The digits of an indicator at the front of the text, and what may follow one. Only the
/// indicators are tried that begin with the text's first character.
fn announced_digits(text: &str, limit: usize) -> Option<&str>
    requires { AreEndsUpTo IsSomeEnding limit text.now }
    ensures read { MatchOption result
        ((d : List ℕ) → ¬ (IsAnnounced indicators (chars text.now) d))
        (λ d. IsAnnounced indicators (chars text.now) (chars d.now)) }
    ensures slice { IfSome result (λ d. IsSlice text.now d.now) }
{
    let (c, _) = split_first(text)?;
    after_some_word(text, indicators_from(c), limit)
}

/// The digits of an ending after one of the words.
fn after_some_word<'a>(text: &'a str, words: &[&str], limit: usize) -> Option<&'a str>
    requires { AreEndsUpTo IsSomeEnding limit text.now }
    ensures read { MatchOption result
        ((d : List ℕ) → ¬ (IsAnnounced (map (λ (w : Bor (List ℕ)). chars w.now) words.now)
        (chars text.now) d))
        (λ d. IsAnnounced (map (λ (w : Bor (List ℕ)). chars w.now) words.now) (chars text.now)
        (chars d.now)) }
    ensures slice { IfSome result (λ d. IsSlice text.now d.now) }
{
    for word in words {
        if let Some(digits) = after_word(text, word, limit) {
            return Some(digits);
        }
    }
    None
}

/// The digits of an ending after this word.
fn after_word<'a>(text: &'a str, word: &str, limit: usize) -> Option<&'a str>
    requires { AreEndsUpTo IsSomeEnding limit text.now }
    ensures read { MatchOption result
        ((d : List ℕ) → ¬ (IsAnnounced (chars word.now ∷ []) (chars text.now) d))
        (λ d. IsAnnounced (chars word.now ∷ []) (chars text.now) (chars d.now)) }
    ensures slice { IfSome result (λ d. IsSlice text.now d.now) }
{
    let rest = strip_like(text, word)?;
    if rest.len() > limit {
        return None;
    }
    ending(rest)
}

/// The digits of what may follow an indicator.
fn ending(text: &str) -> Option<&str>
    ensures read { MatchOption result ((d : List ℕ) →
        ¬ (IsEnding (chars text.now) d)) (λ d. IsEnding (chars text.now) (chars d.now)) }
    ensures slice { IfSome result (λ d. IsSlice text.now d.now) }
{
    let from = after_run(skip_one(text, &Marks), &Gaps);
    let (digits, sign) = split_run(from, &Digits);
    if !is_nothing(skip_one(sign, &Sign)) {
        return None;
    }
    if !are_digits(digits, 7) {
        return None;
    }
    Some(digits)
}
