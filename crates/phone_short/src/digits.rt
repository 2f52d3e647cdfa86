//! What of a text is dialled.
ghost use Rattle.std.specs.Prelude.{◌≡◌, IfOk, chars, string_bytes, true};
ghost use Rattle.std.specs.List.{list_all};
ghost use Rattle.phone_chars.specs.Characters.{is_digit};
ghost use Rattle.phone_short.specs.Texts.{digits_in, is_dialled_within};

use phone_chars::chars::is_nd;
use phone_chars::cuts::{after_run, split_first};
use phone_library_text::digit_values;
use phone_parts::helper::{BeforeStart, extract};
use std::alloc::{AllocError, Global};

/// Whether a text is dialled within a region: the first of its plus signs and digits is a digit.
/// It takes no memory.
pub(crate) fn is_dialled_within(text: &str) -> bool
    ensures { result ≡ is_dialled_within (chars text.now) }
{
    match split_first(after_run(text, &BeforeStart)) {
        Some((c, _)) => is_nd(c),
        None => false,
    }
}

/// The digits of a text, from `0` to `9`: the values of the digits of any script in its core, which
/// is all that is dialled of two numbers in one text. Refused only for memory.
pub(crate) fn digits_in(alloc: Global, text: &str) -> Result<String, AllocError>
    ensures values { IfOk result (λ s. string_bytes s ≡ digits_in (chars text.now)) }
    ensures digits { IfOk result (λ s. list_all is_digit (string_bytes s) ≡ true) }
{
    match extract(text) {
        Some(core) => digit_values(alloc, core),
        None => Ok(String::new(alloc)),
    }
}
