//! The national text of a number as it is dialled with a carrier's code.
ghost use Rattle.std.specs.Prelude.{◌≡◌, ◌↔◌, IfOk, IsUtf8, string_bytes};
ghost use Rattle.phone_c_base.specs.Buffers.{IsTooLongA, IsWrittenA};
ghost use Rattle.phone_c_base.specs.Numbers.{AreNoNumber};
ghost use Rattle.phone_c_questions.specs.Carriers.{IsNationalWith, national_text};

use phone_c_base::buffer::give;
use phone_c_base::number::{Number, to_phone_number};
use phone_c_base::status::{BAD_NUMBER, MEMORY, NOT_UTF8, OK, TOO_SMALL};
use phone_plans::Plans;
use phone_questions::{national_with_carrier, national_with_preferred_carrier};
use phonenumber::PhoneNumber;
use std::alloc::AllocError;

/// The national text of a number with a carrier, or with its own one, where that is preferred and
/// it has one. Refused only for memory.
fn national_text(
    database: &Plans,
    carrier: &str,
    prefers_own: u8,
    number: &PhoneNumber,
) -> Result<String, AllocError>
    ensures { IfOk result (λ t. string_bytes t ≡
        national_text database.now carrier.now prefers_own number.now) }
{
    if prefers_own == 0 {
        national_with_carrier(database, carrier, number)
    } else {
        national_with_preferred_carrier(database, carrier, number)
    }
}

/// The same of a number that is given as plain numbers, in a buffer.
pub fn national_with(
    database: &Plans,
    number: &Number,
    bytes: &[u8],
    carrier: &[u8],
    prefers_own: u8,
    out: &mut [u8],
    wrote: &mut usize,
) -> u32
    ensures written { result ≡ OK → IsWrittenA
        (IsNationalWith database.now number.now bytes.now carrier.now prefers_own)
        out.old out.new wrote.new }
    ensures too_small { result ≡ TOO_SMALL → IsTooLongA
        (IsNationalWith database.now number.now bytes.now carrier.now prefers_own)
        out.old out.new wrote.new }
    ensures not_utf8 { (result ≡ NOT_UTF8) ↔ ¬ (IsUtf8 carrier.now) }
    ensures bad { (result ≡ BAD_NUMBER) ↔
        (IsUtf8 carrier.now × AreNoNumber number.now bytes.now) }
    ensures other { ¬ (result ≡ OK) → ¬ (result ≡ TOO_SMALL) → ¬ (result ≡ NOT_UTF8) →
        ¬ (result ≡ BAD_NUMBER) → result ≡ MEMORY }
    ensures untouched { ¬ (result ≡ OK) → out.new ≡ out.old }
    ensures no_length { ¬ (result ≡ OK) → ¬ (result ≡ TOO_SMALL) → wrote.new ≡ 0 }
{
    *wrote = 0;
    let Ok(carrier) = std::str::from_utf8(carrier) else {
        return NOT_UTF8;
    };
    let number = match to_phone_number(database.allocator(), number, bytes) {
        Ok(number) => number,
        Err(status) => return status,
    };
    match national_text(database, carrier, prefers_own, &number) {
        Ok(text) => give(text.as_bytes(), out, wrote),
        Err(_) => MEMORY,
    }
}
