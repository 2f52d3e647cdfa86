//! What is read in a text before its calling code is looked for.
ghost use Rattle.std.specs.Prelude.{◌≡◌, None, IfSome, chars, option_map};
ghost use Rattle.phone_values.specs.declared.country.Source.TheVariants.{Default};
ghost use Rattle.phone_parts.specs.Parts.{AreLent, parts_of};
ghost use Rattle.phone_parts.specs.Readers.{HasParts};

use crate::number::Number;
use crate::{natural, rfc3966};

/// The parts of a text: those of its `tel:` form where it has that form, else those of free text;
/// none where it is read as neither. They are lent from the text, and no memory is taken.
pub fn parts(text: &str) -> Option<Number<'_>>
    ensures read { HasParts (chars text.now) (option_map parts_of result) }
    ensures lent { IfSome result (λ n. AreLent text.now n) }
    ensures country { IfSome result (λ n. n.country ≡ Default) }
    ensures no_carrier { IfSome result (λ n. n.carrier ≡ None) }
{
    if let Some(number) = rfc3966::phone_number(text) {
        return Some(number);
    }
    match natural::phone_number(text) {
        Ok(number) => Some(number),
        Err(_) => None,
    }
}
