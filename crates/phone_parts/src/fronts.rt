//! What a text begins with.
ghost use Rattle.std.specs.Prelude.{◌≡◌, ◌==◌, ℕ, List, [], true, ◌∷◌, ◌++◌, ◌<◌, length, false};
ghost use Rattle.std.specs.Prelude.{None, Some, MatchOption, IfSome, chars};
ghost use Rattle.phone_parts.specs.Texts.{begins, after_like, after_one};

use phone_chars::chars::same_fold;
use phone_chars::cuts::{CharSet, split_first};

/// Whether the text has no character.
pub(crate) fn is_nothing(text: &str) -> bool
    ensures nothing { result ≡ true → chars text.now ≡ [] }
    ensures something { result ≡ false → ¬ (chars text.now ≡ []) }
{
    text.is_empty()
}

/// Whether the text begins with this character.
pub(crate) fn begins_with(text: &str, c: char) -> bool
    ensures { result ≡ begins (λ d. d == c) (chars text.now) }
{
    text.starts_with(c)
}

/// What follows a front of the text that is like the word: each of its characters has the folding
/// of the word's character in that place. None where no such front is there.
pub(crate) fn strip_like<'a>(text: &'a str, word: &str) -> Option<&'a str>
    ensures read { MatchOption result
        (after_like (chars text.now) (chars word.now) ≡ None)
        (λ rest. after_like (chars text.now) (chars word.now) ≡ Some (chars rest.now)) }
    ensures end { IfSome result (λ rest. (v : List ℕ) × (text.now ≡ v ++ rest.now)) }
{
    let mut rest = text;
    let mut wanted = word;
    while let Some((w, after_word)) = split_first(wanted) {
        let (c, after) = split_first(rest)?;
        if !same_fold(c, w) {
            return None;
        }
        rest = after;
        wanted = after_word;
    }
    Some(rest)
}

/// What follows this character, where the text begins with it.
pub(crate) fn strip_char(text: &str, c: char) -> Option<&str>
    ensures read { MatchOption result (begins (λ d. d == c) (chars text.now) ≡
        false) (λ rest. chars text.now ≡ c ∷ chars rest.now) }
    ensures end { IfSome result (λ rest. (v : List ℕ) × (text.now ≡ v ++ rest.now)) }
    ensures shorter { IfSome result (λ rest. length rest.now < length text.now) }
{
    text.strip_prefix(c)
}

/// The text without its first character, where that is in the set; else all of it.
pub(crate) fn skip_one<'a, S: CharSet>(text: &'a str, set: &S) -> &'a str
    ensures read { chars result.now ≡ after_one (S.members set.now) (chars text.now) }
    ensures end { (v : List ℕ) × (text.now ≡ v ++ result.now) }
{
    text.strip_prefix(|c| set.has(c)).unwrap_or(text)
}
