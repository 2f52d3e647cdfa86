//! The calls that read a number, print it, or tell something of it.
ghost use Rattle.std.specs.Prelude.{◌≡◌, ◌⊎◌, ◌↔◌, ◌<◌, None, IsUtf8};
ghost use Rattle.phone_c_base.specs.Answers.{IsKey, IsKind, IsPrinted, IsRegion, IsUnprinted};
ghost use Rattle.phone_c_base.specs.Answers.{IsValidity};
ghost use Rattle.phone_c_base.specs.Buffers.{IsTooLongA, IsWrittenA};
ghost use Rattle.phone_c_base.specs.Handles.{IsClosed, IsKept};
ghost use Rattle.phone_c_base.specs.Hints.{UnderHint, hint_of};
ghost use Rattle.phone_c_base.specs.Numbers.{AreNoNumber, AreNone};
ghost use Rattle.phone_c_base.specs.Parses.{IsParsed, IsParsedTooLong, IsRefusedAs};

use phone_c_base::asked::{key, kind, region, validity};
use phone_c_base::engines::{engine_of, under};
use phone_c_base::handle::{Handle, put, take};
use phone_c_base::number::Number;
use phone_c_base::parse::parse;
use phone_c_base::print::print;
use phone_c_base::status::{
    BAD_NUMBER, CLOSED, MEMORY, NO_MODE, NO_REGION, NOT_UTF8, OK, TOO_SMALL, UNKNOWN_CODE,
};
use std::alloc::Global;

/// Reads a text as a phone number, under the hint that `phone_report` takes, by the rules of the
/// handle: into plain numbers, and its texts, the extension and then the carrier, into a buffer.
///
/// `OK`: `number` is the number, with its texts at the front of `out`, which is else as it was, and
/// `wrote` is their length. `TOO_SMALL` only where `out` is shorter than the texts: then `wrote` is
/// the length that they need. `CLOSED`, `NO_REGION` and `MEMORY` as `phone_report` has them; else
/// `NOT_UTF8` exactly where the text isn't UTF-8; 1 to 6: the number of the refusal. For each but
/// `OK` `number` and `out` are as they were.
#[unsafe(no_mangle)]
pub extern "C" fn phone_parse(
    alloc: Global,
    handle: &mut Handle,
    hint: &[u8],
    text: &[u8],
    number: &mut Number,
    out: &mut [u8],
    wrote: &mut usize,
) -> u32
    ensures read { result ≡ OK → UnderHint hint.now (λ h. IsParsed handle.old.rules
        handle.old.records h text.now number.new out.old out.new wrote.new) }
    ensures too_small { result ≡ TOO_SMALL → UnderHint hint.now (λ h. IsParsedTooLong
        handle.old.rules handle.old.records h text.now out.old out.new wrote.new) }
    ensures closed { (result ≡ CLOSED) ↔ IsClosed handle.old }
    ensures no_region { (result ≡ NO_REGION) ↔
        (¬ (IsClosed handle.old) × (hint_of hint.now ≡ None)) }
    ensures not_utf8 { (result ≡ NOT_UTF8) ↔
        (¬ (IsClosed handle.old) × ¬ (hint_of hint.now ≡ None) × ¬ (IsUtf8 text.now)) }
    ensures refused { ¬ (result ≡ OK) → ¬ (result ≡ TOO_SMALL) → ¬ (result ≡ CLOSED) →
        ¬ (result ≡ NO_REGION) → ¬ (result ≡ NOT_UTF8) →
        (result ≡ MEMORY) ⊎ UnderHint hint.now (λ h. IsRefusedAs handle.old.rules
        handle.old.records h text.now result) }
    ensures untouched { ¬ (result ≡ OK) → (number.new ≡ number.old) × (out.new ≡ out.old) }
    ensures no_length { ¬ (result ≡ OK) → ¬ (result ≡ TOO_SMALL) → wrote.new ≡ 0 }
    ensures kept { IsKept handle.old handle.new }
{
    *wrote = 0;
    let Some(opened) = take(alloc, handle) else {
        return CLOSED;
    };
    let status = match under(engine_of(&opened), hint) {
        Some(engine) => parse(engine, text, number, out, wrote),
        None => NO_REGION,
    };
    put(alloc, handle, opened);
    status
}

/// Writes the text of a number in a mode, as the rules of the handle print it: by those of
/// libphonenumber without its carrier. The number is given as plain numbers, with the bytes in
/// which its texts stand; the mode is 0 for `E164`, 1 for `International`, 2 for `National`, 3 for
/// `Rfc3966`.
///
/// `OK`, `TOO_SMALL`, `CLOSED` and `MEMORY` as `phone_report` has them; else `NO_MODE` exactly
/// where the mode is above 3, then `BAD_NUMBER` exactly where plain numbers and bytes are no
/// number: its source is above 3, its value 2^56 or more, a text lies outside the bytes or isn't
/// UTF-8. `UNKNOWN_CODE` only where no territory has the number's calling code; there the answer is
/// it or `MEMORY`. For each but `OK` `out` is as it was.
#[unsafe(no_mangle)]
pub extern "C" fn phone_format(
    alloc: Global,
    handle: &mut Handle,
    number: &Number,
    bytes: &[u8],
    mode: u32,
    out: &mut [u8],
    wrote: &mut usize,
) -> u32
    ensures written { result ≡ OK → IsWrittenA
        (IsPrinted handle.old.rules handle.old.records number.now bytes.now mode)
        out.old out.new wrote.new }
    ensures too_small { result ≡ TOO_SMALL → IsTooLongA
        (IsPrinted handle.old.rules handle.old.records number.now bytes.now mode)
        out.old out.new wrote.new }
    ensures closed { (result ≡ CLOSED) ↔ IsClosed handle.old }
    ensures no_mode { (result ≡ NO_MODE) ↔ (¬ (IsClosed handle.old) × (3 < mode)) }
    ensures bad { (result ≡ BAD_NUMBER) ↔
        (¬ (IsClosed handle.old) × ¬ (3 < mode) × AreNoNumber number.now bytes.now) }
    ensures unknown { result ≡ UNKNOWN_CODE →
        IsUnprinted handle.old.rules handle.old.records number.now bytes.now mode }
    ensures other { ¬ (result ≡ OK) → ¬ (result ≡ TOO_SMALL) → ¬ (result ≡ CLOSED) →
        ¬ (result ≡ NO_MODE) → ¬ (result ≡ BAD_NUMBER) → ¬ (result ≡ UNKNOWN_CODE) →
        result ≡ MEMORY }
    ensures untouched { ¬ (result ≡ OK) → out.new ≡ out.old }
    ensures no_length { ¬ (result ≡ OK) → ¬ (result ≡ TOO_SMALL) → wrote.new ≡ 0 }
    ensures kept { IsKept handle.old handle.new }
{
    *wrote = 0;
    let Some(opened) = take(alloc, handle) else {
        return CLOSED;
    };
    let status = print(engine_of(&opened), number, bytes, mode, out, wrote);
    put(alloc, handle, opened);
    status
}

/// Tells the kind of a number that is given as plain numbers, by the kind's number: 0 a fixed line,
/// 1 mobile, 2 one of these, 3 toll free, 4 premium rate, 5 shared cost, 6 personal, 7 over the
/// internet, 8 a pager, 9 a company's number for all its places, 10 emergency, 11 voicemail, 12 a
/// short code, 13 standard rate, 14 the carrier's, 15 not from abroad, 16 unknown.
///
/// `CLOSED` exactly where the handle is closed, else `BAD_NUMBER` exactly where the plain numbers
/// are no number's; `MEMORY`. For each but `OK` `told` is as it was.
#[unsafe(no_mangle)]
pub extern "C" fn phone_kind(
    alloc: Global,
    handle: &mut Handle,
    number: &Number,
    told: &mut u32,
) -> u32
    ensures told { result ≡ OK → IsKind handle.old.rules handle.old.records number.now told.new }
    ensures closed { (result ≡ CLOSED) ↔ IsClosed handle.old }
    ensures bad { (result ≡ BAD_NUMBER) ↔ (¬ (IsClosed handle.old) × AreNone number.now) }
    ensures other { ¬ (result ≡ OK) → ¬ (result ≡ CLOSED) → ¬ (result ≡ BAD_NUMBER) →
        result ≡ MEMORY }
    ensures untouched { ¬ (result ≡ OK) → told.new ≡ told.old }
    ensures kept { IsKept handle.old handle.new }
{
    let Some(opened) = take(alloc, handle) else {
        return CLOSED;
    };
    let status = kind(engine_of(&opened), number, told);
    put(alloc, handle, opened);
    status
}

/// Writes the id of the region of a number that is given as plain numbers; no byte where it has
/// none.
///
/// `OK`, `TOO_SMALL`, `CLOSED` and `MEMORY` as `phone_report` has them; else `BAD_NUMBER` exactly
/// where the plain numbers are no number's.
#[unsafe(no_mangle)]
pub extern "C" fn phone_region(
    alloc: Global,
    handle: &mut Handle,
    number: &Number,
    out: &mut [u8],
    wrote: &mut usize,
) -> u32
    ensures written { result ≡ OK → IsWrittenA
        (IsRegion handle.old.rules handle.old.records number.now) out.old out.new wrote.new }
    ensures too_small { result ≡ TOO_SMALL → IsTooLongA
        (IsRegion handle.old.rules handle.old.records number.now) out.old out.new wrote.new }
    ensures closed { (result ≡ CLOSED) ↔ IsClosed handle.old }
    ensures bad { (result ≡ BAD_NUMBER) ↔ (¬ (IsClosed handle.old) × AreNone number.now) }
    ensures other { ¬ (result ≡ OK) → ¬ (result ≡ TOO_SMALL) → ¬ (result ≡ CLOSED) →
        ¬ (result ≡ BAD_NUMBER) → result ≡ MEMORY }
    ensures untouched { ¬ (result ≡ OK) → out.new ≡ out.old }
    ensures no_length { ¬ (result ≡ OK) → ¬ (result ≡ TOO_SMALL) → wrote.new ≡ 0 }
    ensures kept { IsKept handle.old handle.new }
{
    *wrote = 0;
    let Some(opened) = take(alloc, handle) else {
        return CLOSED;
    };
    let status = region(engine_of(&opened), number, out, wrote);
    put(alloc, handle, opened);
    status
}

/// Tells whether a number that is given as plain numbers is valid: 1, else 0. Its statuses are
/// those of `phone_kind`.
#[unsafe(no_mangle)]
pub extern "C" fn phone_is_valid(
    alloc: Global,
    handle: &mut Handle,
    number: &Number,
    told: &mut u8,
) -> u32
    ensures told { result ≡ OK →
        IsValidity handle.old.rules handle.old.records number.now told.new }
    ensures closed { (result ≡ CLOSED) ↔ IsClosed handle.old }
    ensures bad { (result ≡ BAD_NUMBER) ↔ (¬ (IsClosed handle.old) × AreNone number.now) }
    ensures other { ¬ (result ≡ OK) → ¬ (result ≡ CLOSED) → ¬ (result ≡ BAD_NUMBER) →
        result ≡ MEMORY }
    ensures untouched { ¬ (result ≡ OK) → told.new ≡ told.old }
    ensures kept { IsKept handle.old handle.new }
{
    let Some(opened) = take(alloc, handle) else {
        return CLOSED;
    };
    let status = validity(engine_of(&opened), number, told);
    put(alloc, handle, opened);
    status
}

/// Writes the E.164 text of a number that is given as plain numbers: equal texts mean equal calling
/// code and national number where no calling code of the database begins another. It needs no
/// database. `OK`, `TOO_SMALL` and `MEMORY` as `phone_report` has them; `BAD_NUMBER` exactly where
/// the plain numbers are no number's.
#[unsafe(no_mangle)]
pub extern "C" fn phone_key(
    alloc: Global,
    number: &Number,
    out: &mut [u8],
    wrote: &mut usize,
) -> u32
    ensures written { result ≡ OK → IsWrittenA (IsKey number.now) out.old out.new wrote.new }
    ensures too_small { result ≡ TOO_SMALL →
        IsTooLongA (IsKey number.now) out.old out.new wrote.new }
    ensures bad { (result ≡ BAD_NUMBER) ↔ AreNone number.now }
    ensures other { ¬ (result ≡ OK) → ¬ (result ≡ TOO_SMALL) → ¬ (result ≡ BAD_NUMBER) →
        result ≡ MEMORY }
    ensures untouched { ¬ (result ≡ OK) → out.new ≡ out.old }
    ensures no_length { ¬ (result ≡ OK) → ¬ (result ≡ TOO_SMALL) → wrote.new ≡ 0 }
{
    key(alloc, number, out, wrote)
}
