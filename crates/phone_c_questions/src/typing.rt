//! What libphonenumber's formatter shows of a number while it is typed, in a buffer, and where the
//! caret stands.
ghost use Rattle.std.specs.Prelude.{◌≡◌, ◌↔◌, IsUtf8};
ghost use Rattle.phone_c_base.specs.Buffers.{IsTooLongA, IsWrittenA};
ghost use Rattle.phone_c_questions.specs.Typing.{IsCaret, IsShown};

use phone_c_base::buffer::give;
use phone_c_base::status::{MEMORY, NOT_UTF8, OK, TOO_SMALL};
use phone_plans::Plans;
use phone_typed::Keyed;
use phone_values::country::Id;

/// Shows a text in a buffer as it is typed, under a hint.
pub fn show(
    database: &Plans,
    hint: Option<Id>,
    text: &[u8],
    out: &mut [u8],
    wrote: &mut usize,
) -> u32
    ensures written { result ≡ OK →
        IsWrittenA (IsShown database.now hint text.now) out.old out.new wrote.new }
    ensures too_small { result ≡ TOO_SMALL →
        IsTooLongA (IsShown database.now hint text.now) out.old out.new wrote.new }
    ensures not_utf8 { (result ≡ NOT_UTF8) ↔ ¬ (IsUtf8 text.now) }
    ensures other { ¬ (result ≡ OK) → ¬ (result ≡ TOO_SMALL) → ¬ (result ≡ NOT_UTF8) →
        result ≡ MEMORY }
    ensures untouched { ¬ (result ≡ OK) → out.new ≡ out.old }
    ensures no_length { ¬ (result ≡ OK) → ¬ (result ≡ TOO_SMALL) → wrote.new ≡ 0 }
{
    *wrote = 0;
    let Ok(text) = std::str::from_utf8(text) else {
        return NOT_UTF8;
    };
    match Keyed::typed(database, hint, text) {
        Ok(field) => give(field.shown().as_bytes(), out, wrote),
        Err(_) => MEMORY,
    }
}

/// Tells after how many characters of what is shown of a text its n-th character stands, under a
/// hint.
pub fn caret(database: &Plans, hint: Option<Id>, text: &[u8], n: usize, told: &mut usize) -> u32
    ensures told { result ≡ OK → IsCaret database.now hint text.now n told.new }
    ensures not_utf8 { (result ≡ NOT_UTF8) ↔ ¬ (IsUtf8 text.now) }
    ensures other { ¬ (result ≡ OK) → ¬ (result ≡ NOT_UTF8) → result ≡ MEMORY }
    ensures untouched { ¬ (result ≡ OK) → told.new ≡ told.old }
{
    let Ok(text) = std::str::from_utf8(text) else {
        return NOT_UTF8;
    };
    match Keyed::typed(database, hint, text) {
        Ok(field) => {
            *told = field.caret(n);
            OK
        }
        Err(_) => MEMORY,
    }
}
