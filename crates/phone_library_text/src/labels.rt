//! The words, signs and pauses that announce an extension, looked for at the front of a text.
ghost use Rattle.std.specs.Prelude.{◌≡◌, ◌||◌, ◌&&◌, ◌==◌, ℕ, List, ◌++◌, chars, codes, map, None};
ghost use Rattle.std.specs.Prelude.{Some, true};
ghost use Rattle.std.specs.Prelude.{IfSome, MatchOption};
ghost use Rattle.std.specs.Borrow.{Bor};
ghost use Rattle.phone_chars.specs.Characters.{is_one_of};
ghost use Rattle.phone_parts.specs.Longest.{AreEndsUpTo};
ghost use Rattle.phone_parts.specs.Texts.{begins};
ghost use Rattle.phone_library_text.specs.Announcements.{pauses, signs, words};
ghost use Rattle.phone_library_text.specs.Letters.{folded, is_alike};
ghost use Rattle.phone_library_text.specs.Scans.{IsMarkGap, after_alike, follows, follows_some};
ghost use Rattle.phone_library_text.specs.Scans.{all_behind, is_named, is_nil, label_starts};
ghost use Rattle.phone_library_text.specs.Scans.{pause_starts};

use crate::announcement::Allowed;
use crate::families::{Family, signs_from, words_from};
use crate::letters::fold;
use phone_chars::cuts::split_first;

const PAUSES: [&str; 2] = [",,", ";"];

/// The pauses in dialling.
fn pauses() -> &'static [&'static str]
    ensures { map (λ (w : Bor (List ℕ)). chars w.now) result.now ≡ pauses }
{
    &PAUSES
}

/// Whether two characters have one folding.
fn same_folded(a: char, b: char) -> bool
    ensures { result ≡ (folded a == folded b) }
{
    fold(a) == fold(b)
}

/// Whether the text has no character.
pub(crate) fn is_nothing(text: &str) -> bool
    ensures { result ≡ is_nil (chars text.now) }
{
    text.is_empty()
}

/// What follows a front of the text that is alike the word: each of its characters has the folding
/// of the word's character in that place. None where no such front is there.
fn strip_alike<'a>(text: &'a str, word: &str) -> Option<&'a str>
    ensures read { MatchOption result
        (after_alike (chars text.now) (chars word.now) ≡ None)
        (λ rest. after_alike (chars text.now) (chars word.now) ≡ Some (chars rest.now)) }
    ensures end { IfSome result (λ rest. (v : List ℕ) × (text.now ≡ v ++ rest.now)) }
{
    let mut rest = text;
    let mut wanted = word;
    while let Some((w, after_word)) = split_first(wanted) {
        let (c, after) = split_first(rest)?;
        if !same_folded(c, w) {
            return None;
        }
        rest = after;
        wanted = after_word;
    }
    Some(rest)
}

/// Whether the parameter's name begins with this folding.
fn starts_parameter(folding: char) -> bool
    ensures { result ≡ (folding == 59) }
{
    folding == ';'
}

/// Whether the text is `;ext=`, of either case. Most texts begin with another character: that is
/// asked first.
pub(crate) fn is_parameter(text: &str) -> bool
    ensures { result ≡ is_alike (chars text.now) (codes ";ext=") }
{
    let Some((c, _)) = split_first(text) else {
        return false;
    };
    if !starts_parameter(fold(c)) {
        return false;
    }
    names_parameter(text)
}

/// The same, by all characters of the text.
fn names_parameter(text: &str) -> bool
    ensures { result ≡ is_alike (chars text.now) (codes ";ext=") }
{
    match strip_alike(text, ";ext=") {
        Some(rest) => is_nothing(rest),
        None => false,
    }
}

/// Whether the text is this word, perhaps a mark, and a gap.
fn follows(text: &str, word: &str, limit: usize) -> bool
    requires { AreEndsUpTo IsMarkGap limit text.now }
    ensures { result ≡ follows (chars text.now) (chars word.now) }
{
    match strip_alike(text, word) {
        Some(rest) => rest.len() <= limit,
        None => false,
    }
}

/// Whether the text is one of these words, perhaps a mark, and a gap.
fn follows_some(text: &str, words: &[&str], limit: usize) -> bool
    requires { AreEndsUpTo IsMarkGap limit text.now }
    ensures { result ≡
        follows_some (map (λ (w : Bor (List ℕ)). chars w.now) words.now) (chars text.now) }
{
    for word in words {
        if follows(text, word, limit) {
            return true;
        }
    }
    false
}

/// Whether a word or a sign begins with this folding.
fn starts_label(folding: char) -> bool
    ensures { result ≡ is_one_of label_starts folding }
{
    matches!(
        folding,
        'e' | 'x'
            | 'a'
            | 'i'
            | '#'
            | '~'
            | '\u{434}'
            | '\u{FF45}'
            | '\u{FF58}'
            | '\u{FF49}'
            | '\u{FF03}'
            | '\u{FF5E}'
    )
}

/// Whether a pause begins with this folding.
fn starts_pause(folding: char) -> bool
    ensures { result ≡ is_one_of pause_starts folding }
{
    folding == ',' || folding == ';'
}

/// Whether the text is one of the family, perhaps a mark, and a gap. The front that all of it have
/// is compared once.
fn follows_family(text: &str, family: Family, limit: usize) -> bool
    requires { AreEndsUpTo IsMarkGap limit text.now }
    ensures { result ≡ follows_some (all_behind (chars family.front.now)
        (map (λ (w : Bor (List ℕ)). chars w.now) family.ends.now)) (chars text.now) }
{
    match strip_alike(text, family.front) {
        Some(rest) => follows_some(rest, family.ends, limit),
        None => false,
    }
}

/// Whether the text, whose first character has this folding, is a word, perhaps a mark, and a gap.
fn begins_word(text: &str, folding: char, limit: usize) -> bool
    requires first { begins (λ c. folded c == folding) (chars text.now) ≡ true }
    requires limit { AreEndsUpTo IsMarkGap limit text.now }
    ensures { result ≡ follows_some words (chars text.now) }
{
    follows_family(text, words_from(folding), limit)
}

/// Whether the text, whose first character has this folding, is a sign, perhaps a mark, and a gap.
fn begins_sign(text: &str, folding: char, limit: usize) -> bool
    requires first { begins (λ c. folded c == folding) (chars text.now) ≡ true }
    requires limit { AreEndsUpTo IsMarkGap limit text.now }
    ensures { result ≡ follows_some signs (chars text.now) }
{
    follows_family(text, signs_from(folding), limit)
}

/// Whether the text, whose first character has this folding, is a word or a sign that may stand
/// there, perhaps a mark, and a gap.
fn is_named(text: &str, folding: char, allowed: Allowed, limit: usize) -> bool
    requires first { begins (λ c. folded c == folding) (chars text.now) ≡ true }
    requires limit { AreEndsUpTo IsMarkGap limit text.now }
    ensures { result ≡ is_named allowed (chars text.now) }
{
    (allowed.words && begins_word(text, folding, limit))
        || (allowed.signs && begins_sign(text, folding, limit))
}

/// Whether the text is a word or a sign that may stand there, perhaps a mark, and a gap. Most texts
/// begin with another character: that is asked first.
pub(crate) fn begins_named(text: &str, allowed: Allowed, limit: usize) -> bool
    requires { AreEndsUpTo IsMarkGap limit text.now }
    ensures { result ≡ is_named allowed (chars text.now) }
{
    let Some((c, _)) = split_first(text) else {
        return false;
    };
    let folding = fold(c);
    if !starts_label(folding) {
        return false;
    }
    is_named(text, folding, allowed, limit)
}

/// Whether the text is a pause, perhaps a mark, and a gap.
pub(crate) fn begins_pause(text: &str, limit: usize) -> bool
    requires { AreEndsUpTo IsMarkGap limit text.now }
    ensures { result ≡ follows_some pauses (chars text.now) }
{
    let Some((c, _)) = split_first(text) else {
        return false;
    };
    if !starts_pause(fold(c)) {
        return false;
    }
    follows_some(text, pauses(), limit)
}
