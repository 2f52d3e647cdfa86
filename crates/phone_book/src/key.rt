//! The key of a number.
ghost use Rattle.std.specs.Prelude.{◌≡◌, IfOk, string_bytes};
ghost use Rattle.phone_book.specs.Keys.{key_text};

use phonenumber::PhoneNumber;
use std::alloc::{AllocError, Global};

/// The key of a number, which tells it from others: its E.164 text and, where it has one, its
/// extension, announced by `;ext=` as in RFC 3966. How its code was found and its carrier play no
/// part. Refused only for memory.
pub fn key_text(alloc: Global, number: &PhoneNumber) -> Result<String, AllocError>
    ensures { IfOk result (λ key. string_bytes key ≡ key_text number.now) }
{
    match number.extension() {
        Some(extension) => {
            let extension = extension.as_str();
            format!(in alloc; "{number};ext={extension}")
        }
        None => number.to_string(alloc),
    }
}
