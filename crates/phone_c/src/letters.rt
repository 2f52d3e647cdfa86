//! The calls that dial a number with the letters in which it was written, that part a text, and
//! that give an example of a kind: whatever the rules of the handle.
ghost use Rattle.std.specs.Prelude.{◌≡◌, ◌⊎◌, ◌↔◌, IsUtf8, None};
ghost use Rattle.phone_c_base.specs.Buffers.{IsTooLongA, IsWrittenA};
ghost use Rattle.phone_c_base.specs.Handles.{IsClosed, IsKept};
ghost use Rattle.phone_c_base.specs.Hints.{hint_of};
ghost use Rattle.phone_c_base.specs.Kinds.{kind_of};
ghost use Rattle.phone_c_base.specs.Numbers.{AreNoNumber};
ghost use Rattle.phone_c_questions.specs.Examples.{IsNumberTooLong, IsNumberWritten};
ghost use Rattle.phone_c_questions.specs.KindExamples.{HasNoneOfKind, IsKindRefused, IsOfKind};
ghost use Rattle.phone_c_questions.specs.Letters.{IsDialledText, IsExtracted, IsLetteredText};

use phone_c_base::handle::{Handle, put, take};
use phone_c_base::number::Number;
use phone_c_base::status::{
    BAD_NUMBER, CLOSED, MEMORY, NO_EXAMPLE, NO_KIND, NO_REGION, NOT_UTF8, OK, TOO_SMALL,
};
use phone_c_questions::forms::{Dialled, Lettered, from_region};
use phone_c_questions::kind_examples::of_kind;
use phone_c_questions::letters::extracted;
use std::alloc::Global;

/// Writes how a number is dialled from a region, which is a hint as `phone_report` takes it, with
/// the letters of the text that it was read from, as libphonenumber has it: `1 800-FLOWERS`. That
/// text has no byte where it isn't known: then it is written as `phone_text_from` does. The number
/// is given as `phone_format` takes it.
///
/// Its statuses are those of `phone_text_from`.
#[unsafe(no_mangle)]
pub extern "C" fn phone_text_with_letters(
    alloc: Global,
    handle: &mut Handle,
    region: &[u8],
    raw: &[u8],
    number: &Number,
    bytes: &[u8],
    out: &mut [u8],
    wrote: &mut usize,
) -> u32
    ensures written { result ≡ OK → IsWrittenA
        (IsLetteredText handle.old.records region.now raw.now number.now bytes.now)
        out.old out.new wrote.new }
    ensures too_small { result ≡ TOO_SMALL → IsTooLongA
        (IsLetteredText handle.old.records region.now raw.now number.now bytes.now)
        out.old out.new wrote.new }
    ensures closed { (result ≡ CLOSED) ↔ IsClosed handle.old }
    ensures no_region { (result ≡ NO_REGION) ↔
        (¬ (IsClosed handle.old) × (hint_of region.now ≡ None)) }
    ensures not_utf8 { (result ≡ NOT_UTF8) ↔ (¬ (IsClosed handle.old) ×
        ¬ (hint_of region.now ≡ None) × ¬ (IsUtf8 raw.now)) }
    ensures bad { (result ≡ BAD_NUMBER) ↔ (¬ (IsClosed handle.old) ×
        ¬ (hint_of region.now ≡ None) × IsUtf8 raw.now × AreNoNumber number.now bytes.now) }
    ensures other { ¬ (result ≡ OK) → ¬ (result ≡ TOO_SMALL) → ¬ (result ≡ CLOSED) →
        ¬ (result ≡ NO_REGION) → ¬ (result ≡ NOT_UTF8) → ¬ (result ≡ BAD_NUMBER) →
        result ≡ MEMORY }
    ensures untouched { ¬ (result ≡ OK) → out.new ≡ out.old }
    ensures no_length { ¬ (result ≡ OK) → ¬ (result ≡ TOO_SMALL) → wrote.new ≡ 0 }
    ensures kept { IsKept handle.old handle.new }
{
    *wrote = 0;
    let Some(opened) = take(alloc, handle) else {
        return CLOSED;
    };
    let database = opened.database();
    let status = from_region(&Lettered, database, region, raw, number, bytes, out, wrote);
    put(alloc, handle, opened);
    status
}

/// Writes the same by our own answer: what is dialled reaches the number, where the other may lose
/// the national prefix, or write it twice.
///
/// Its statuses are those of `phone_text_from`.
#[unsafe(no_mangle)]
pub extern "C" fn phone_dialled_with_letters(
    alloc: Global,
    handle: &mut Handle,
    region: &[u8],
    raw: &[u8],
    number: &Number,
    bytes: &[u8],
    out: &mut [u8],
    wrote: &mut usize,
) -> u32
    ensures written { result ≡ OK → IsWrittenA
        (IsDialledText handle.old.records region.now raw.now number.now bytes.now)
        out.old out.new wrote.new }
    ensures too_small { result ≡ TOO_SMALL → IsTooLongA
        (IsDialledText handle.old.records region.now raw.now number.now bytes.now)
        out.old out.new wrote.new }
    ensures closed { (result ≡ CLOSED) ↔ IsClosed handle.old }
    ensures no_region { (result ≡ NO_REGION) ↔
        (¬ (IsClosed handle.old) × (hint_of region.now ≡ None)) }
    ensures not_utf8 { (result ≡ NOT_UTF8) ↔ (¬ (IsClosed handle.old) ×
        ¬ (hint_of region.now ≡ None) × ¬ (IsUtf8 raw.now)) }
    ensures bad { (result ≡ BAD_NUMBER) ↔ (¬ (IsClosed handle.old) ×
        ¬ (hint_of region.now ≡ None) × IsUtf8 raw.now × AreNoNumber number.now bytes.now) }
    ensures other { ¬ (result ≡ OK) → ¬ (result ≡ TOO_SMALL) → ¬ (result ≡ CLOSED) →
        ¬ (result ≡ NO_REGION) → ¬ (result ≡ NOT_UTF8) → ¬ (result ≡ BAD_NUMBER) →
        result ≡ MEMORY }
    ensures untouched { ¬ (result ≡ OK) → out.new ≡ out.old }
    ensures no_length { ¬ (result ≡ OK) → ¬ (result ≡ TOO_SMALL) → wrote.new ≡ 0 }
    ensures kept { IsKept handle.old handle.new }
{
    *wrote = 0;
    let Some(opened) = take(alloc, handle) else {
        return CLOSED;
    };
    let database = opened.database();
    let status = from_region(&Dialled, database, region, raw, number, bytes, out, wrote);
    put(alloc, handle, opened);
    status
}

/// Writes the part of a text in which a number may stand: from its first digit or plus sign on,
/// without what can't end a number, and up to a second number; no byte where there is none. It
/// needs no database and takes no memory.
///
/// `OK` and `TOO_SMALL` as `phone_report` has them, `NOT_UTF8` exactly where the text isn't UTF-8.
#[unsafe(no_mangle)]
pub extern "C" fn phone_extract(text: &[u8], out: &mut [u8], wrote: &mut usize) -> u32
    ensures written { result ≡ OK →
        IsWrittenA (IsExtracted text.now) out.old out.new wrote.new }
    ensures too_small { result ≡ TOO_SMALL →
        IsTooLongA (IsExtracted text.now) out.old out.new wrote.new }
    ensures not_utf8 { (result ≡ NOT_UTF8) ↔ ¬ (IsUtf8 text.now) }
    ensures status { (result ≡ OK) ⊎ (result ≡ TOO_SMALL) ⊎ (result ≡ NOT_UTF8) }
    ensures untouched { ¬ (result ≡ OK) → out.new ≡ out.old }
    ensures no_length { result ≡ NOT_UTF8 → wrote.new ≡ 0 }
{
    extracted(text, out, wrote)
}

/// Reads the example of a kind, of whatever region: that of the lowest calling code that has one,
/// of a code that serves no region only where no region has one. Into plain numbers, and its texts,
/// as `phone_parse` writes them, into a buffer.
///
/// `CLOSED` exactly where the handle is closed, else `NO_KIND` exactly where the kind is above 16;
/// `NO_EXAMPLE` where the database gives none. `TOO_SMALL` and `MEMORY` as `phone_parse` has them;
/// 1 to 6: the number of the refusal of the example. For each but `OK` `number` and `out` are as
/// they were.
#[unsafe(no_mangle)]
pub extern "C" fn phone_example_of_kind(
    alloc: Global,
    handle: &mut Handle,
    kind: u32,
    number: &mut Number,
    out: &mut [u8],
    wrote: &mut usize,
) -> u32
    ensures read { result ≡ OK → IsNumberWritten
        (IsOfKind handle.old.records kind) number.new out.old out.new wrote.new }
    ensures too_small { result ≡ TOO_SMALL → IsNumberTooLong
        (IsOfKind handle.old.records kind) out.old out.new wrote.new }
    ensures closed { (result ≡ CLOSED) ↔ IsClosed handle.old }
    ensures no_kind { (result ≡ NO_KIND) ↔
        (¬ (IsClosed handle.old) × (kind_of kind ≡ None)) }
    ensures no_example { result ≡ NO_EXAMPLE → HasNoneOfKind handle.old.records kind }
    ensures refused { ¬ (result ≡ OK) → ¬ (result ≡ TOO_SMALL) → ¬ (result ≡ CLOSED) →
        ¬ (result ≡ NO_KIND) → ¬ (result ≡ NO_EXAMPLE) →
        (result ≡ MEMORY) ⊎ IsKindRefused handle.old.records kind result }
    ensures untouched { ¬ (result ≡ OK) → (number.new ≡ number.old) × (out.new ≡ out.old) }
    ensures no_length { ¬ (result ≡ OK) → ¬ (result ≡ TOO_SMALL) → wrote.new ≡ 0 }
    ensures kept { IsKept handle.old handle.new }
{
    *wrote = 0;
    let Some(opened) = take(alloc, handle) else {
        return CLOSED;
    };
    let status = of_kind(opened.database(), kind, number, out, wrote);
    put(alloc, handle, opened);
    status
}
