//! What may stand beside a number.
ghost use Rattle.std.specs.Prelude.{◌≡◌, chars};
ghost use Rattle.phone_matches_text.specs.Neighbours.{stands_free};
ghost use Rattle.phone_matches_text.specs.Sets.{is_in};
ghost use Rattle.phone_parts.specs.Texts.{begins, ends};

use crate::cuts::peel;
use crate::sets::Set;
use phone_chars::cuts::{CharSet, split_last};

/// Whether the text begins with a character of the set.
pub(crate) fn begins_in(text: &str, set: Set) -> bool
    ensures { result ≡ begins (is_in set) (chars text.now) }
{
    match peel(text) {
        Some((c, _)) => set.has(c),
        None => false,
    }
}

/// Whether the text ends in a character of the set.
fn ends_in(text: &str, set: Set) -> bool
    ensures { result ≡ ends (is_in set) (chars text.now) }
{
    match split_last(text) {
        Some((_, c)) => set.has(c),
        None => false,
    }
}

/// Whether nothing sticks to a piece of a text: no Latin letter, currency sign or percent sign
/// stands right behind it, nor right before it where it begins with neither an opening bracket nor
/// a plus sign.
pub fn stands_free(before: &str, piece: &str, after: &str) -> bool
    ensures { result ≡ stands_free (chars before.now) (chars piece.now) (chars after.now) }
{
    !begins_in(after, Set::Sticking)
        && (begins_in(piece, Set::Lead) || !ends_in(before, Set::Sticking))
}
