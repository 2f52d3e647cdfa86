//! Cuts of a text between two of its characters: what all readers of texts stand on.
//! No cut copies; each part is lent from the text.
ghost use Rattle.std.specs.Prelude.{◌≡◌, ℕ, ◌<◌, Bool, List, [], ◌∷◌, ◌++◌, length, IfSome};
ghost use Rattle.std.specs.Prelude.{MatchOption, encode_utf8, chars};
ghost use Rattle.phone_chars.specs.Cuts.{IsEnd, front, after_front};

/// The first character of a text, and what follows it; none for the empty text.
pub fn split_first(text: &str) -> Option<(char, &str)>
    ensures cut { MatchOption result (text.now ≡ []) (λ p. text.now ≡ encode_utf8 p.0 ++ p.1.now) }
    ensures read { IfSome result (λ p. chars text.now ≡ p.0 ∷ chars p.1.now) }
    ensures shorter { IfSome result (λ p. length p.1.now < length text.now) }
{
    let (byte, _) = text.as_bytes().split_first()?;
    if *byte < 128 {
        return Some((char::from(*byte), &text[1..]));
    }
    split_first_char(text)
}

/// The same, whatever the first character is.
fn split_first_char(text: &str) -> Option<(char, &str)>
    ensures cut { MatchOption result (text.now ≡ []) (λ p. text.now ≡ encode_utf8 p.0 ++ p.1.now) }
    ensures read { IfSome result (λ p. chars text.now ≡ p.0 ∷ chars p.1.now) }
    ensures shorter { IfSome result (λ p. length p.1.now < length text.now) }
{
    let mut rest = text.chars();
    let c = rest.next()?;
    Some((c, rest.as_str()))
}

/// What stands before the last character of a text, and that character; none for the empty text.
pub fn split_last(text: &str) -> Option<(&str, char)>
    ensures cut { MatchOption result (text.now ≡ []) (λ p. text.now ≡ p.0.now ++ encode_utf8 p.1) }
    ensures read { IfSome result (λ p. chars text.now ≡ chars p.0.now ++ p.1 ∷ []) }
    ensures shorter { IfSome result (λ p. length p.0.now < length text.now) }
{
    let mut rest = text.chars();
    let c = rest.next_back()?;
    Some((rest.as_str(), c))
}

/// What stands before an end of the text; the end may be all of it, or empty. Where the other text
/// is no end of this one, the answer is some front of this one. It is found by the texts' lengths
/// in bytes, so its cost does not grow with them.
pub fn before<'a>(text: &'a str, rest: &str) -> &'a str
    ensures before { (v : List ℕ) → text.now ≡ v ++ rest.now → result.now ≡ v }
    ensures front { (w : List ℕ) × (text.now ≡ result.now ++ w) }
    ensures cut { IsEnd text.now rest.now → text.now ≡ result.now ++ rest.now }
    ensures read { IsEnd text.now rest.now → chars text.now ≡ chars result.now ++ chars rest.now }
{
    text.get(..text.len().saturating_sub(rest.len()))
        .unwrap_or(text)
}

/// A set of characters. Contracts see its members.
pub trait CharSet {
    ghost members: { Self → ℕ → Bool };

    /// Whether the character is in the set.
    fn has(&self, c: char) -> bool
        ensures { result ≡ members self.now c };
}

/// What follows the longest front of characters of the set. The answer is an end of the text, and
/// empty where all its characters are in the set.
pub fn after_run<'a, S: CharSet>(text: &'a str, set: &S) -> &'a str
    ensures end { IsEnd text.now result.now }
    ensures rest { chars result.now ≡ after_front (S.members set.now) (chars text.now) }
{
    text.trim_start_matches(|c| set.has(c))
}

/// The longest front of characters of the set, and what follows it.
pub fn split_run<'a, S: CharSet>(text: &'a str, set: &S) -> (&'a str, &'a str)
    ensures whole { text.now ≡ result.0.now ++ result.1.now }
    ensures front { chars result.0.now ≡ front (S.members set.now) (chars text.now) }
    ensures rest { chars result.1.now ≡ after_front (S.members set.now) (chars text.now) }
{
    let rest = after_run(text, set);
    (before(text, rest), rest)
}
