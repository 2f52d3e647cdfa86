//! Texts of numbers, made with room for most of them, so that they don't grow as they are written.
ghost use Rattle.std.specs.Prelude.{◌≡◌, IfOk, IfSome, string_bytes};

use std::alloc::{AllocError, Global};
use std::fmt::Display;

/// How many bytes a text has room for at first: more than the texts of most numbers take.
pub const ROOM: usize = 48;

/// The text that a value writes. Refused only for memory.
pub fn text_of_value<D: Display + Drop>(alloc: Global, value: D) -> Result<String, AllocError>
    ensures { IfOk result (λ text. IfSome (D.output value) (λ bytes. string_bytes text ≡ bytes)) }
{
    let mut text = String::with_capacity(alloc, ROOM)?;
    text.write(value)?;
    Ok(text)
}
