//! The calls that tell how like numbers and texts are, and what a text, or a number with a carrier,
//! is as it is dialled: by libphonenumber's rules, whatever the rules of the handle.
ghost use Rattle.std.specs.Prelude.{◌≡◌, ◌⊎◌, ◌↔◌, ◌<◌, IsUtf8, chars};
ghost use Rattle.phone_questions.specs.Letters.{HasLetters};
ghost use Rattle.phone_c_base.specs.Buffers.{IsTooLong, IsTooLongA, IsWritten, IsWrittenA};
ghost use Rattle.phone_c_base.specs.Handles.{IsClosed, IsKept};
ghost use Rattle.phone_c_base.specs.Numbers.{AreNoNumber};
ghost use Rattle.phone_c_questions.specs.Carriers.{IsNationalWith};
ghost use Rattle.phone_c_questions.specs.Matches.{AreMatch, AreMatchTexts, IsMatchText};
ghost use Rattle.phone_c_questions.specs.Texts.{as_form, form_number};
ghost use Rattle.phone_c_questions.specs.declared.texts.Form.{Form};

use phone_c_base::handle::{Handle, put, take};
use phone_c_base::number::Number;
use phone_c_base::status::{BAD_NUMBER, CLOSED, MEMORY, NO_MODE, NOT_UTF8, OK, TOO_SMALL};
use phone_c_questions::carriers::national_with;
use phone_c_questions::matches;
use phone_c_questions::texts::{letters, normalized};
use phone_further::LibraryLikeness;
use std::alloc::Global;

/// Tells how like two numbers are, which are given as `phone_format` takes them: 1 two numbers, 2
/// the national number of one is an end of the other's, or just one has an extension, 3 the calling
/// code of one isn't known, which is 0, 4 one number. It needs no database.
///
/// `BAD_NUMBER` exactly where plain numbers and bytes of one are no number; `MEMORY`. For each but
/// `OK` `told` is as it was.
#[unsafe(no_mangle)]
pub extern "C" fn phone_match_numbers(
    alloc: Global,
    first: &Number,
    first_bytes: &[u8],
    second: &Number,
    second_bytes: &[u8],
    told: &mut u32,
) -> u32
    ensures told { result ≡ OK → AreMatch first.now first_bytes.now second.now second_bytes.now
        told.new }
    ensures bad { (result ≡ BAD_NUMBER) ↔ (AreNoNumber first.now first_bytes.now ⊎
        AreNoNumber second.now second_bytes.now) }
    ensures other { ¬ (result ≡ OK) → ¬ (result ≡ BAD_NUMBER) → result ≡ MEMORY }
    ensures untouched { ¬ (result ≡ OK) → told.new ≡ told.old }
{
    matches::numbers(
        &LibraryLikeness,
        alloc,
        first,
        first_bytes,
        second,
        second_bytes,
        told,
    )
}

/// Tells the same of a number and a text, perhaps without its calling code; 0 where the text is no
/// number.
///
/// `CLOSED` exactly where the handle is closed, else `NOT_UTF8` exactly where the text isn't UTF-8,
/// else `BAD_NUMBER` exactly where plain numbers and bytes are no number; `MEMORY`. For each but
/// `OK` `told` is as it was.
#[unsafe(no_mangle)]
pub extern "C" fn phone_match_text(
    alloc: Global,
    handle: &mut Handle,
    number: &Number,
    bytes: &[u8],
    text: &[u8],
    told: &mut u32,
) -> u32
    ensures told { result ≡ OK →
        IsMatchText handle.old.records number.now bytes.now text.now told.new }
    ensures closed { (result ≡ CLOSED) ↔ IsClosed handle.old }
    ensures not_utf8 { (result ≡ NOT_UTF8) ↔ (¬ (IsClosed handle.old) × ¬ (IsUtf8 text.now)) }
    ensures bad { (result ≡ BAD_NUMBER) ↔
        (¬ (IsClosed handle.old) × IsUtf8 text.now × AreNoNumber number.now bytes.now) }
    ensures other { ¬ (result ≡ OK) → ¬ (result ≡ CLOSED) → ¬ (result ≡ NOT_UTF8) →
        ¬ (result ≡ BAD_NUMBER) → result ≡ MEMORY }
    ensures untouched { ¬ (result ≡ OK) → told.new ≡ told.old }
    ensures kept { IsKept handle.old handle.new }
{
    let Some(opened) = take(alloc, handle) else {
        return CLOSED;
    };
    let status = matches::text(
        &LibraryLikeness,
        opened.database(),
        number,
        bytes,
        text,
        told,
    );
    put(alloc, handle, opened);
    status
}

/// Tells the same of two texts, each perhaps without its calling code; 0 where one is no number.
///
/// `CLOSED` exactly where the handle is closed, else `NOT_UTF8` exactly where one of the texts
/// isn't UTF-8; `MEMORY`. For each but `OK` `told` is as it was.
#[unsafe(no_mangle)]
pub extern "C" fn phone_match_texts(
    alloc: Global,
    handle: &mut Handle,
    first: &[u8],
    second: &[u8],
    told: &mut u32,
) -> u32
    ensures told { result ≡ OK →
        AreMatchTexts handle.old.records first.now second.now told.new }
    ensures closed { (result ≡ CLOSED) ↔ IsClosed handle.old }
    ensures not_utf8 { (result ≡ NOT_UTF8) ↔ (¬ (IsClosed handle.old) ×
        ¬ (IsUtf8 first.now × IsUtf8 second.now)) }
    ensures other { ¬ (result ≡ OK) → ¬ (result ≡ CLOSED) → ¬ (result ≡ NOT_UTF8) →
        result ≡ MEMORY }
    ensures untouched { ¬ (result ≡ OK) → told.new ≡ told.old }
    ensures kept { IsKept handle.old handle.new }
{
    let Some(opened) = take(alloc, handle) else {
        return CLOSED;
    };
    let status = matches::texts(&LibraryLikeness, opened.database(), first, second, told);
    put(alloc, handle, opened);
    status
}

/// Writes the national text of a number as it is dialled with the selection code of a carrier. The
/// number is given as `phone_format` takes it. Where `prefers_own` isn't 0, the number's own
/// carrier takes the place of the other, if it has one that isn't empty. A number whose
/// calling code isn't listed is written as its digits.
///
/// `OK`, `TOO_SMALL`, `CLOSED` and `MEMORY` as `phone_report` has them; else `NOT_UTF8` exactly
/// where the carrier isn't UTF-8, then `BAD_NUMBER` exactly where plain numbers and bytes are no
/// number.
#[unsafe(no_mangle)]
pub extern "C" fn phone_national_with(
    alloc: Global,
    handle: &mut Handle,
    number: &Number,
    bytes: &[u8],
    carrier: &[u8],
    prefers_own: u8,
    out: &mut [u8],
    wrote: &mut usize,
) -> u32
    ensures written { result ≡ OK → IsWrittenA
        (IsNationalWith handle.old.records number.now bytes.now carrier.now prefers_own)
        out.old out.new wrote.new }
    ensures too_small { result ≡ TOO_SMALL → IsTooLongA
        (IsNationalWith handle.old.records number.now bytes.now carrier.now prefers_own)
        out.old out.new wrote.new }
    ensures closed { (result ≡ CLOSED) ↔ IsClosed handle.old }
    ensures not_utf8 { (result ≡ NOT_UTF8) ↔
        (¬ (IsClosed handle.old) × ¬ (IsUtf8 carrier.now)) }
    ensures bad { (result ≡ BAD_NUMBER) ↔
        (¬ (IsClosed handle.old) × IsUtf8 carrier.now × AreNoNumber number.now bytes.now) }
    ensures other { ¬ (result ≡ OK) → ¬ (result ≡ TOO_SMALL) → ¬ (result ≡ CLOSED) →
        ¬ (result ≡ NOT_UTF8) → ¬ (result ≡ BAD_NUMBER) → result ≡ MEMORY }
    ensures untouched { ¬ (result ≡ OK) → out.new ≡ out.old }
    ensures no_length { ¬ (result ≡ OK) → ¬ (result ≡ TOO_SMALL) → wrote.new ≡ 0 }
    ensures kept { IsKept handle.old handle.new }
{
    *wrote = 0;
    let Some(opened) = take(alloc, handle) else {
        return CLOSED;
    };
    let status = national_with(
        opened.database(),
        number,
        bytes,
        carrier,
        prefers_own,
        out,
        wrote,
    );
    put(alloc, handle, opened);
    status
}

/// Writes a text in a form: 0 with each letter turned to the digit of its key, 1 the values of its
/// digits of any script alone, 2 its digits from `0` to `9`, plus signs, stars and number signs
/// alone. It needs no database.
///
/// `OK`, `TOO_SMALL` and `MEMORY` as `phone_report` has them; else `NO_MODE` exactly where the form
/// is above 2, then `NOT_UTF8` exactly where the text isn't UTF-8.
#[unsafe(no_mangle)]
pub extern "C" fn phone_normalize(
    alloc: Global,
    form: u32,
    text: &[u8],
    out: &mut [u8],
    wrote: &mut usize,
) -> u32
    ensures written { result ≡ OK → (f : Form) × (form ≡ form_number f) ×
        IsWritten (as_form f (chars text.now)) out.old out.new wrote.new }
    ensures too_small { result ≡ TOO_SMALL → (f : Form) × (form ≡ form_number f) ×
        IsTooLong (as_form f (chars text.now)) out.old out.new wrote.new }
    ensures no_mode { (result ≡ NO_MODE) ↔ (2 < form) }
    ensures not_utf8 { (result ≡ NOT_UTF8) ↔ (¬ (2 < form) × ¬ (IsUtf8 text.now)) }
    ensures other { ¬ (result ≡ OK) → ¬ (result ≡ TOO_SMALL) → ¬ (result ≡ NO_MODE) →
        ¬ (result ≡ NOT_UTF8) → result ≡ MEMORY }
    ensures untouched { ¬ (result ≡ OK) → out.new ≡ out.old }
    ensures no_length { ¬ (result ≡ OK) → ¬ (result ≡ TOO_SMALL) → wrote.new ≡ 0 }
{
    normalized(alloc, form, text, out, wrote)
}

/// Tells whether a text is a number that is written with letters, as `1-800-FLOWERS`: 1, else 0. It
/// needs no database and takes no memory. `NOT_UTF8` exactly where the text isn't UTF-8; then
/// `told` is as it was; else `OK`.
#[unsafe(no_mangle)]
pub extern "C" fn phone_has_letters(text: &[u8], told: &mut u8) -> u32
    ensures letters { result ≡ OK → (told.new ≡ 1) ↔ HasLetters (chars text.now) }
    ensures flag { result ≡ OK → (told.new ≡ 0) ⊎ (told.new ≡ 1) }
    ensures not_utf8 { (result ≡ NOT_UTF8) ↔ ¬ (IsUtf8 text.now) }
    ensures status { (result ≡ OK) ⊎ (result ≡ NOT_UTF8) }
    ensures untouched { ¬ (result ≡ OK) → told.new ≡ told.old }
{
    letters(text, told)
}
