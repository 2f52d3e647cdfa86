//! The ends of a text.
ghost use Rattle.std.specs.Prelude.{◌≡◌, ◌∷◌, ◌<◌, [], ℕ, List, MatchOption, IfSome, chars};
ghost use Rattle.std.specs.Prelude.{length, reverse};
ghost use Rattle.phone_find.specs.Shapes.{is_nil};
ghost use Rattle.phone_parts.specs.Texts.{begins, ends};

use phone_chars::cuts::{CharSet, split_first, split_last};

/// The first character of a text, and what follows it; none for the empty text.
pub(crate) fn peel(text: &str) -> Option<(char, &str)>
    ensures read { MatchOption result (chars text.now ≡ [])
        (λ p. chars text.now ≡ p.0 ∷ chars p.1.now) }
    ensures shorter { IfSome result (λ p. length p.1.now < length text.now) }
{
    let (c, rest) = split_first(text)?;
    Some((c, rest))
}

/// The last character of a text, and what stands before it; none for the empty text.
pub(crate) fn peel_back(text: &str) -> Option<(char, &str)>
    ensures read { MatchOption result (reverse (chars text.now) ≡ [])
        (λ p. reverse (chars text.now) ≡ p.0 ∷ reverse (chars p.1.now)) }
    ensures shorter { IfSome result (λ p. length p.1.now < length text.now) }
{
    match split_last(text) {
        Some((rest, c)) => Some((c, rest)),
        None => None,
    }
}

/// Whether a text has no character.
pub(crate) fn is_nil(text: &str) -> bool
    ensures { result ≡ is_nil (chars text.now) }
{
    match peel(text) {
        Some(_) => false,
        None => true,
    }
}

/// Whether the text begins with a character of the set.
pub(crate) fn begins_in<S: CharSet>(text: &str, set: &S) -> bool
    ensures { result ≡ begins (S.members set.now) (chars text.now) }
{
    match peel(text) {
        Some((c, _)) => set.has(c),
        None => false,
    }
}

/// Whether the text ends in a character of the set.
pub(crate) fn ends_in<S: CharSet>(text: &str, set: &S) -> bool
    ensures { result ≡ ends (S.members set.now) (chars text.now) }
{
    match split_last(text) {
        Some((_, c)) => set.has(c),
        None => false,
    }
}
