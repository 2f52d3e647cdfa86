//! Strictly grouped: each group of a number stands in its text, one behind the other.
ghost use Rattle.std.specs.Prelude.{◌≡◌};
ghost use Rattle.phone_chars.specs.Characters.{is_digit};
ghost use Rattle.phone_matches.specs.Runs.{told};
ghost use Rattle.phone_matches.specs.Strict.{behind_code, behind_digits, is_strict};
ghost use Rattle.phone_matches.specs.Strict.{stand_from, stand_in_order};
ghost use Rattle.phone_parts.specs.Texts.{begins};

use crate::test::Test;
use crate::texts::{behind_all, contains, from_part, without_first};
use phone_values::country::Source;

/// What follows the first place of a calling code's digits in a text; where they stand nowhere, as
/// many bytes are passed as the code has digits, but one.
fn behind_digits<'a>(text: &'a [u8], code: &[u8]) -> &'a [u8]
    ensures { result.now ≡ behind_digits code.now text.now }
{
    match from_part(text, code) {
        Some(rest) => without_first(rest, code.len()),
        None => without_first(text, code.len().saturating_sub(1)),
    }
}

/// Where groups are looked for in a text, by how the calling code was found.
pub fn behind_code<'a>(source: Source, text: &'a [u8], code: &[u8]) -> &'a [u8]
    ensures { result.now ≡ behind_code source code.now text.now }
{
    match source {
        Source::Default => text,
        _ => behind_digits(text, code),
    }
}

/// Whether groups stand in a text one behind the other, and behind them somewhere the extension.
fn stand_in_order(text: &[u8], groups: &[&[u8]], extension: &[u8]) -> bool
    ensures { result ≡ stand_in_order extension.now (told groups.now) text.now }
{
    match behind_all(text, groups) {
        Some(rest) => contains(rest, extension),
        None => false,
    }
}

/// Whether the first byte is a digit.
fn begins_digit(text: &[u8]) -> bool
    ensures { result ≡ begins is_digit text.now }
{
    match text.first() {
        Some(byte) => byte.is_ascii_digit(),
        None => false,
    }
}

/// The test that the groups of a number stand in a text, one behind the other.
#[derive(Drop)]
pub struct StandsInOrder<'a> {
    /// Whether the number's main territory has a national prefix.
    pub is_prefixed: bool,
    /// All digits of the number.
    pub digits: &'a [u8],
    /// Those of its extension; none where it has none.
    pub extension: &'a [u8],
    /// Where groups are looked for.
    pub text: &'a [u8],
}

impl<'a> StandsInOrder<'a> {
    /// Whether groups stand from a place on where the first of them does.
    fn stand_from(&self, first: &[u8], others: &[&[u8]], text: &[u8]) -> bool
        ensures { result ≡ stand_from self.now.is_prefixed self.now.digits.now
            self.now.extension.now first.now (told others.now) text.now }
    {
        let rest = without_first(text, first.len());
        if self.is_prefixed && begins_digit(rest) {
            text.starts_with(self.digits)
        } else {
            stand_in_order(rest, others, self.extension)
        }
    }
}

impl<'a> Test for StandsInOrder<'a> {
    ghost use Rattle.phone_matches.specs.Strict.{is_strict};

    ghost passes = { λ s. is_strict s.is_prefixed s.digits.now s.extension.now s.text.now };

    fn is_passed(&self, groups: &[&[u8]]) -> bool {
        match groups.split_first() {
            Some((first, others)) => match from_part(self.text, first) {
                Some(rest) => self.stand_from(first, others, rest),
                None => false,
            },
            None => contains(self.text, self.extension),
        }
    }
}
