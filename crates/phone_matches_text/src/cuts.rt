//! Cuts of a text, told by its characters.
ghost use Rattle.std.specs.Prelude.{◌≡◌, ◌∷◌, ◌++◌, ◌<◌, [], ℕ, List, MatchOption, IfSome};
ghost use Rattle.std.specs.Prelude.{chars, length};
ghost use Rattle.phone_chars.specs.Cuts.{IsEnd};
ghost use Rattle.phone_matches_text.specs.Pieces.{is_some};
ghost use Rattle.phone_matches_text.specs.Shapes.{before_end};

use phone_chars::cuts::{before, split_first};

/// The first character of a text, and what follows it; none for the empty text.
pub(crate) fn peel(text: &str) -> Option<(char, &str)>
    ensures read { MatchOption result (chars text.now ≡ [])
        (λ p. chars text.now ≡ p.0 ∷ chars p.1.now) }
    ensures end { IfSome result (λ p. IsEnd text.now p.1.now) }
    ensures shorter { IfSome result (λ p. length p.1.now < length text.now) }
{
    let (c, rest) = split_first(text)?;
    Some((c, rest))
}

/// Whether a text has a character.
pub(crate) fn has_some(text: &str) -> bool
    ensures { result ≡ is_some (chars text.now) }
{
    match peel(text) {
        Some(_) => true,
        None => false,
    }
}

/// What follows a front of the text. Where the other text is no front of this one, the answer is
/// some end of this one.
pub fn after<'a>(text: &'a str, front: &str) -> &'a str
    ensures { (w : List ℕ) → text.now ≡ front.now ++ w → result.now ≡ w }
{
    text.get(front.len()..).unwrap_or(text)
}

/// What stands before an end of the text.
pub(crate) fn between<'a>(text: &'a str, end: &str) -> &'a str
    requires { IsEnd text.now end.now }
    ensures read { chars result.now ≡ before_end (chars text.now) (chars end.now) }
    ensures cut { text.now ≡ result.now ++ end.now }
{
    before(text, end)
}

/// What follows a front of the text.
pub fn behind<'a>(text: &'a str, front: &str) -> &'a str
    requires { (v : List ℕ) × (text.now ≡ front.now ++ v) }
    ensures whole { text.now ≡ front.now ++ result.now }
    ensures read { chars text.now ≡ chars front.now ++ chars result.now }
{
    after(text, front)
}
