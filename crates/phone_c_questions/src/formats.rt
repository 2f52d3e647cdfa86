//! The text in a mode of a number that is given as plain numbers, and what a mobile phone dials to
//! reach it, where the text may be known that it was read from.
ghost use Rattle.std.specs.Prelude.{◌≡◌, ◌<◌, ◌↔◌, IfNone, IfSome, IsUtf8};
ghost use Rattle.std.specs.Option.{option_copied};
ghost use Rattle.phone_dialling.specs.Abroad.{if_some};
ghost use Rattle.phone_c_base.specs.Buffers.{IsTooLongA, IsWrittenA};
ghost use Rattle.phone_c_base.specs.Numbers.{AreNoNumber};
ghost use Rattle.phone_c_questions.specs.Formats.{IsMobileText, IsTextIn};

use crate::modes::mode_of;
use phone_c_base::buffer::give;
use phone_c_base::number::{Number, to_phone_number};
use phone_c_base::status::{BAD_NUMBER, MEMORY, NO_MODE, NOT_UTF8, OK, TOO_SMALL};
use phone_dialling::{mobile_text, text_in, unless_empty};
use phone_plans::Plans;

/// The text that a number was read from, of its bytes: no such text where there is no byte; none
/// where they aren't UTF-8.
fn raw_of(raw: &[u8]) -> Option<Option<&str>>
    ensures found { IfSome result (λ text. option_copied text ≡ if_some raw.entry.now) }
    ensures utf8 { IfSome result (λ _. IsUtf8 raw.entry.now) }
    ensures none { IfNone result (¬ (IsUtf8 raw.entry.now)) }
{
    match std::str::from_utf8(raw) {
        Ok(text) => Some(unless_empty(text)),
        Err(_) => None,
    }
}

/// The text of a number in a mode, where the text that it was read from may be known, in a buffer.
pub fn in_mode(
    database: &Plans,
    mode: u32,
    raw: &[u8],
    number: &Number,
    bytes: &[u8],
    out: &mut [u8],
    wrote: &mut usize,
) -> u32
    ensures written { result ≡ OK → IsWrittenA
        (IsTextIn database.now mode raw.now number.now bytes.now) out.old out.new wrote.new }
    ensures too_small { result ≡ TOO_SMALL → IsTooLongA
        (IsTextIn database.now mode raw.now number.now bytes.now) out.old out.new wrote.new }
    ensures no_mode { (result ≡ NO_MODE) ↔ (3 < mode) }
    ensures not_utf8 { (result ≡ NOT_UTF8) ↔ (¬ (3 < mode) × ¬ (IsUtf8 raw.now)) }
    ensures bad { (result ≡ BAD_NUMBER) ↔
        (¬ (3 < mode) × IsUtf8 raw.now × AreNoNumber number.now bytes.now) }
    ensures other { ¬ (result ≡ OK) → ¬ (result ≡ TOO_SMALL) → ¬ (result ≡ NO_MODE) →
        ¬ (result ≡ NOT_UTF8) → ¬ (result ≡ BAD_NUMBER) → result ≡ MEMORY }
    ensures untouched { ¬ (result ≡ OK) → out.new ≡ out.old }
    ensures no_length { ¬ (result ≡ OK) → ¬ (result ≡ TOO_SMALL) → wrote.new ≡ 0 }
{
    *wrote = 0;
    let Some(mode) = mode_of(mode) else {
        return NO_MODE;
    };
    let Some(raw) = raw_of(raw) else {
        return NOT_UTF8;
    };
    let number = match to_phone_number(database.allocator(), number, bytes) {
        Ok(number) => number,
        Err(status) => return status,
    };
    match text_in(database, mode, raw, &number) {
        Ok(text) => give(text.as_bytes(), out, wrote),
        Err(_) => MEMORY,
    }
}

/// What a mobile phone dials to reach a number where the region's id is this, in a buffer.
pub fn for_mobile(
    database: &Plans,
    id: &[u8],
    with_symbols: u8,
    raw: &[u8],
    number: &Number,
    bytes: &[u8],
    out: &mut [u8],
    wrote: &mut usize,
) -> u32
    ensures written { result ≡ OK → IsWrittenA
        (IsMobileText database.now id.now with_symbols raw.now number.now bytes.now)
        out.old out.new wrote.new }
    ensures too_small { result ≡ TOO_SMALL → IsTooLongA
        (IsMobileText database.now id.now with_symbols raw.now number.now bytes.now)
        out.old out.new wrote.new }
    ensures not_utf8 { (result ≡ NOT_UTF8) ↔ ¬ (IsUtf8 id.now × IsUtf8 raw.now) }
    ensures bad { (result ≡ BAD_NUMBER) ↔
        (IsUtf8 id.now × IsUtf8 raw.now × AreNoNumber number.now bytes.now) }
    ensures other { ¬ (result ≡ OK) → ¬ (result ≡ TOO_SMALL) → ¬ (result ≡ NOT_UTF8) →
        ¬ (result ≡ BAD_NUMBER) → result ≡ MEMORY }
    ensures untouched { ¬ (result ≡ OK) → out.new ≡ out.old }
    ensures no_length { ¬ (result ≡ OK) → ¬ (result ≡ TOO_SMALL) → wrote.new ≡ 0 }
{
    *wrote = 0;
    let Ok(id) = std::str::from_utf8(id) else {
        return NOT_UTF8;
    };
    let Some(raw) = raw_of(raw) else {
        return NOT_UTF8;
    };
    let number = match to_phone_number(database.allocator(), number, bytes) {
        Ok(number) => number,
        Err(status) => return status,
    };
    match mobile_text(database, id, with_symbols != 0, raw, &number) {
        Ok(text) => give(text.as_bytes(), out, wrote),
        Err(_) => MEMORY,
    }
}
