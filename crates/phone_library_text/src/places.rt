//! Where a text is parted: at the first place where a word stands in it.
ghost use Rattle.std.specs.Prelude.{◌≡◌, ◌++◌, [], true, false, None, Some, MatchOption};
ghost use Rattle.std.specs.Prelude.{IfSome, chars};
ghost use Rattle.phone_library_text.specs.Places.{before_first, parted};

use phone_chars::cuts::{before, split_first};

/// What stands before the first place of a word in a text, and what follows the word there; none
/// where the word stands nowhere in it. No part is copied.
pub(crate) fn split_at_word<'a>(text: &'a str, word: &str) -> Option<(&'a str, &'a str)>
    ensures parted { MatchOption result (parted (chars word.now) (chars text.now) ≡ None)
        (λ p. parted (chars word.now) (chars text.now) ≡ Some (chars p.0.now, chars p.1.now)) }
    ensures whole { IfSome result (λ p. text.now ≡ p.0.now ++ (word.now ++ p.1.now)) }
{
    let mut rest = text;
    while let Some((_, next)) = split_first(rest) {
        if let Some(after) = rest.strip_prefix(word) {
            return Some((before(text, rest), after));
        }
        rest = next;
    }
    None
}

/// What stands before the first place of a word in a text; all of the text where the word stands
/// nowhere in it.
pub(crate) fn before_first<'a>(text: &'a str, word: &str) -> &'a str
    ensures { chars result.now ≡ before_first (chars word.now) (chars text.now) }
{
    match split_at_word(text, word) {
        Some((front, _)) => front,
        None => text,
    }
}

/// Whether a text has no character.
pub(crate) fn is_nothing(text: &str) -> bool
    ensures nothing { result ≡ true → chars text.now ≡ [] }
    ensures something { result ≡ false → ¬ (chars text.now ≡ []) }
{
    text.is_empty()
}
