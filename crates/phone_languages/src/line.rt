//! One line of a table of names.
ghost use Rattle.std.specs.Prelude.{◌≡◌, ◌++◌, ◌∷◌, MatchOption, ◌<◌};
ghost use Rattle.phone_languages.specs.Locales.{Lacks};

/// What stands before and after the first of this ASCII character in a text; none where the text
/// lacks it.
pub(crate) fn cut_at(text: &str, at: char) -> Option<(&str, &str)>
    requires { at < 128 }
    ensures { MatchOption result (Lacks at text.now)
        (λ p. (text.now ≡ p.0.now ++ at ∷ p.1.now) × Lacks at p.0.now) }
{
    text.split_once(at)
}
