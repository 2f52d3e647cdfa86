//! What is shown of a number while it is typed, in a buffer, and where the caret stands.
ghost use Rattle.std.specs.Prelude.{◌≡◌, ◌↔◌, IfOk, IsUtf8, chars, length};
ghost use Rattle.phone_c_base.specs.Buffers.{IsTooLongA, IsWrittenA};
ghost use Rattle.phone_c_base.specs.Typing.{IsCaret, IsPlaceOfKey, IsShown};
ghost use Rattle.phone_typed.specs.Keys.{is_key, keys_in, up_to_key};
ghost use Rattle.phone_typed.specs.Typed.{typed};

use crate::buffer::give;
use crate::status::{MEMORY, NOT_UTF8, OK, TOO_SMALL};
use phone_plans::Plans;
use phone_typed::typed;
use phone_values::country::Id;
use std::alloc::AllocError;

/// Shows the keys of a text in a buffer, under a hint.
pub fn show(
    database: &Plans,
    hint: Option<Id>,
    keys: &[u8],
    out: &mut [u8],
    wrote: &mut usize,
) -> u32
    ensures written { result ≡ OK →
        IsWrittenA (IsShown database.now hint keys.now) out.old out.new wrote.new }
    ensures too_small { result ≡ TOO_SMALL →
        IsTooLongA (IsShown database.now hint keys.now) out.old out.new wrote.new }
    ensures not_utf8 { (result ≡ NOT_UTF8) ↔ ¬ (IsUtf8 keys.now) }
    ensures other { ¬ (result ≡ OK) → ¬ (result ≡ TOO_SMALL) → ¬ (result ≡ NOT_UTF8) →
        result ≡ MEMORY }
    ensures untouched { ¬ (result ≡ OK) → out.new ≡ out.old }
    ensures no_length { ¬ (result ≡ OK) → ¬ (result ≡ TOO_SMALL) → wrote.new ≡ 0 }
{
    *wrote = 0;
    let Ok(keys) = std::str::from_utf8(keys) else {
        return NOT_UTF8;
    };
    match typed(database, hint, keys) {
        Ok(shown) => give(shown.as_bytes(), out, wrote),
        Err(_) => MEMORY,
    }
}

/// Whether a byte is a key: a digit, or the plus sign.
fn is_key(byte: u8) -> bool
    ensures { result ≡ is_key byte }
{
    byte.is_ascii_digit() || byte == b'+'
}

/// After how many bytes of a text its n-th key stands; all of them where it has fewer keys.
fn end_of_key(text: &[u8], n: usize) -> usize
    ensures { result ≡ length (up_to_key n text.now) }
{
    let mut left = n;
    let mut rest = text;
    while let Some((byte, after)) = rest.split_first() {
        if left == 0 {
            return text.len() - rest.len();
        }
        if is_key(*byte) {
            left -= 1;
        }
        rest = after;
    }
    text.len()
}

/// Where the caret stands after the n-th of the keys of a text, under a hint.
#[tactic(auto, using(crate::proofs::CaretPlaces::one_byte_each))]
fn caret_of(database: &Plans, hint: Option<Id>, keys: &str, n: usize) -> Result<usize, AllocError>
    ensures { IfOk result (IsPlaceOfKey (typed database.now hint (keys_in (chars keys.now))) n) }
{
    let shown = typed(database, hint, keys)?;
    Ok(end_of_key(shown.as_bytes(), n))
}

/// Tells where the caret stands after the n-th of the keys of a text, under a hint.
pub fn caret(database: &Plans, hint: Option<Id>, keys: &[u8], n: usize, told: &mut usize) -> u32
    ensures told { result ≡ OK → IsCaret database.now hint keys.now n told.new }
    ensures not_utf8 { (result ≡ NOT_UTF8) ↔ ¬ (IsUtf8 keys.now) }
    ensures other { ¬ (result ≡ OK) → ¬ (result ≡ NOT_UTF8) → result ≡ MEMORY }
    ensures untouched { ¬ (result ≡ OK) → told.new ≡ told.old }
{
    let Ok(keys) = std::str::from_utf8(keys) else {
        return NOT_UTF8;
    };
    match caret_of(database, hint, keys, n) {
        Ok(caret) => {
            *told = caret;
            OK
        }
        Err(_) => MEMORY,
    }
}
