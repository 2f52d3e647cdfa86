//! Parts that a record may lack, lent where they are there.
ghost use Rattle.std.specs.Prelude.{◌≡◌};
ghost use Rattle.std.specs.Option.{option_copied};

use crate::loader::Text;
use phone_pattern::Pattern;

/// The pattern.
pub fn pattern(pattern: &Option<Pattern>) -> Option<&Pattern>
    ensures { option_copied result ≡ pattern.now }
{
    match pattern {
        Some(pattern) => Some(pattern),
        None => None,
    }
}

/// The text.
pub fn text(text: &Option<Text>) -> Option<&str>
    ensures { option_copied result ≡ text.now }
{
    match text {
        Some(text) => Some(text.as_str()),
        None => None,
    }
}
