//! The calls that write a number so that it can be dialled, or as it was written, and that tell of
//! short numbers whose region isn't told: by libphonenumber's rules, whatever the rules of the
//! handle.
ghost use Rattle.std.specs.Prelude.{◌≡◌, ◌⊎◌, ◌↔◌, ◌<◌, IsUtf8, None, Some};
ghost use Rattle.phone_values.specs.Ids.{id_of};
ghost use Rattle.phone_c_base.specs.Buffers.{IsTooLongA, IsWrittenA};
ghost use Rattle.phone_c_base.specs.Handles.{IsClosed, IsKept};
ghost use Rattle.phone_c_base.specs.Hints.{hint_of};
ghost use Rattle.phone_c_base.specs.Numbers.{AreNoNumber, AreNone};
ghost use Rattle.phone_c_questions.specs.Formats.{IsMobileText, IsTextAsWritten, IsTextFrom};
ghost use Rattle.phone_c_questions.specs.Formats.{IsTextIn};
ghost use Rattle.phone_c_questions.specs.Layouts.{IsTextBy};
ghost use Rattle.phone_c_questions.specs.ShortNumbers.{AreFactsAnywhere, HasExample, cost_asked};

use phone_c_base::handle::{Handle, put, take};
use phone_c_base::number::Number;
use phone_c_base::status::{
    BAD_NUMBER, CLOSED, MEMORY, NO_EXAMPLE, NO_MODE, NO_REGION, NO_WORD, NOT_UTF8, OK, TOO_SMALL,
};
use phone_c_questions::formats::{for_mobile, in_mode};
use phone_c_questions::forms::{Abroad, Original, from_region};
use phone_c_questions::layouts::by_layouts;
use phone_c_questions::short::{FactsAnywhere, anywhere, example};
use std::alloc::Global;

/// Writes the text of a number in a mode, as `phone_format` does, where the text that it was read
/// from may be known, which has no byte where it isn't: that stands for a number whose value is 0.
/// A number whose calling code isn't listed is written as its E.164 text, in the other modes as its
/// digits.
///
/// `OK`, `TOO_SMALL`, `CLOSED` and `MEMORY` as `phone_report` has them; else `NO_MODE` exactly
/// where the mode is above 3, then `NOT_UTF8` exactly where that text isn't UTF-8, then
/// `BAD_NUMBER` exactly where plain numbers and bytes are no number.
#[unsafe(no_mangle)]
pub extern "C" fn phone_format_read(
    alloc: Global,
    handle: &mut Handle,
    mode: u32,
    raw: &[u8],
    number: &Number,
    bytes: &[u8],
    out: &mut [u8],
    wrote: &mut usize,
) -> u32
    ensures written { result ≡ OK → IsWrittenA
        (IsTextIn handle.old.records mode raw.now number.now bytes.now)
        out.old out.new wrote.new }
    ensures too_small { result ≡ TOO_SMALL → IsTooLongA
        (IsTextIn handle.old.records mode raw.now number.now bytes.now)
        out.old out.new wrote.new }
    ensures closed { (result ≡ CLOSED) ↔ IsClosed handle.old }
    ensures no_mode { (result ≡ NO_MODE) ↔ (¬ (IsClosed handle.old) × (3 < mode)) }
    ensures not_utf8 { (result ≡ NOT_UTF8) ↔
        (¬ (IsClosed handle.old) × ¬ (3 < mode) × ¬ (IsUtf8 raw.now)) }
    ensures bad { (result ≡ BAD_NUMBER) ↔ (¬ (IsClosed handle.old) × ¬ (3 < mode) ×
        IsUtf8 raw.now × AreNoNumber number.now bytes.now) }
    ensures other { ¬ (result ≡ OK) → ¬ (result ≡ TOO_SMALL) → ¬ (result ≡ CLOSED) →
        ¬ (result ≡ NO_MODE) → ¬ (result ≡ NOT_UTF8) → ¬ (result ≡ BAD_NUMBER) →
        result ≡ MEMORY }
    ensures untouched { ¬ (result ≡ OK) → out.new ≡ out.old }
    ensures no_length { ¬ (result ≡ OK) → ¬ (result ≡ TOO_SMALL) → wrote.new ≡ 0 }
    ensures kept { IsKept handle.old handle.new }
{
    *wrote = 0;
    let Some(opened) = take(alloc, handle) else {
        return CLOSED;
    };
    let status = in_mode(opened.database(), mode, raw, number, bytes, out, wrote);
    put(alloc, handle, opened);
    status
}

/// Writes what a mobile phone dials to reach a number where a region's id is this, or `001` for the
/// whole world; no byte where the number can't be dialled there. Where `with_symbols` is 0 only
/// digits, plus signs, stars and number signs are written. The text that the number was read from
/// has no byte where it isn't known. The number is given as `phone_format` takes it.
///
/// `OK`, `TOO_SMALL`, `CLOSED` and `MEMORY` as `phone_report` has them; else `NOT_UTF8` exactly
/// where the id or that text isn't UTF-8, then `BAD_NUMBER` exactly where plain numbers and bytes
/// are no number.
#[unsafe(no_mangle)]
pub extern "C" fn phone_mobile_text(
    alloc: Global,
    handle: &mut Handle,
    id: &[u8],
    with_symbols: u8,
    raw: &[u8],
    number: &Number,
    bytes: &[u8],
    out: &mut [u8],
    wrote: &mut usize,
) -> u32
    ensures written { result ≡ OK → IsWrittenA
        (IsMobileText handle.old.records id.now with_symbols raw.now number.now bytes.now)
        out.old out.new wrote.new }
    ensures too_small { result ≡ TOO_SMALL → IsTooLongA
        (IsMobileText handle.old.records id.now with_symbols raw.now number.now bytes.now)
        out.old out.new wrote.new }
    ensures closed { (result ≡ CLOSED) ↔ IsClosed handle.old }
    ensures not_utf8 { (result ≡ NOT_UTF8) ↔
        (¬ (IsClosed handle.old) × ¬ (IsUtf8 id.now × IsUtf8 raw.now)) }
    ensures bad { (result ≡ BAD_NUMBER) ↔ (¬ (IsClosed handle.old) × IsUtf8 id.now ×
        IsUtf8 raw.now × AreNoNumber number.now bytes.now) }
    ensures other { ¬ (result ≡ OK) → ¬ (result ≡ TOO_SMALL) → ¬ (result ≡ CLOSED) →
        ¬ (result ≡ NOT_UTF8) → ¬ (result ≡ BAD_NUMBER) → result ≡ MEMORY }
    ensures untouched { ¬ (result ≡ OK) → out.new ≡ out.old }
    ensures no_length { ¬ (result ≡ OK) → ¬ (result ≡ TOO_SMALL) → wrote.new ≡ 0 }
    ensures kept { IsKept handle.old handle.new }
{
    *wrote = 0;
    let Some(opened) = take(alloc, handle) else {
        return CLOSED;
    };
    let database = opened.database();
    let status = for_mobile(database, id, with_symbols, raw, number, bytes, out, wrote);
    put(alloc, handle, opened);
    status
}

/// Writes how a number is dialled from a region, which is a hint as `phone_report` takes it, as
/// libphonenumber has it: from no region as international text. The text that the number was read
/// from has no byte where it isn't known. The number is given as `phone_format` takes it.
///
/// `OK`, `TOO_SMALL`, `CLOSED` and `MEMORY` as `phone_report` has them; else `NO_REGION` exactly
/// where the region has a byte and is no region's id, then `NOT_UTF8` exactly where that text isn't
/// UTF-8, then `BAD_NUMBER` exactly where plain numbers and bytes are no number.
#[unsafe(no_mangle)]
pub extern "C" fn phone_text_from(
    alloc: Global,
    handle: &mut Handle,
    region: &[u8],
    raw: &[u8],
    number: &Number,
    bytes: &[u8],
    out: &mut [u8],
    wrote: &mut usize,
) -> u32
    ensures written { result ≡ OK → IsWrittenA
        (IsTextFrom handle.old.records region.now raw.now number.now bytes.now)
        out.old out.new wrote.new }
    ensures too_small { result ≡ TOO_SMALL → IsTooLongA
        (IsTextFrom handle.old.records region.now raw.now number.now bytes.now)
        out.old out.new wrote.new }
    ensures closed { (result ≡ CLOSED) ↔ IsClosed handle.old }
    ensures no_region { (result ≡ NO_REGION) ↔
        (¬ (IsClosed handle.old) × (hint_of region.now ≡ None)) }
    ensures not_utf8 { (result ≡ NOT_UTF8) ↔ (¬ (IsClosed handle.old) ×
        ¬ (hint_of region.now ≡ None) × ¬ (IsUtf8 raw.now)) }
    ensures bad { (result ≡ BAD_NUMBER) ↔ (¬ (IsClosed handle.old) ×
        ¬ (hint_of region.now ≡ None) × IsUtf8 raw.now × AreNoNumber number.now bytes.now) }
    ensures other { ¬ (result ≡ OK) → ¬ (result ≡ TOO_SMALL) → ¬ (result ≡ CLOSED) →
        ¬ (result ≡ NO_REGION) → ¬ (result ≡ NOT_UTF8) → ¬ (result ≡ BAD_NUMBER) →
        result ≡ MEMORY }
    ensures untouched { ¬ (result ≡ OK) → out.new ≡ out.old }
    ensures no_length { ¬ (result ≡ OK) → ¬ (result ≡ TOO_SMALL) → wrote.new ≡ 0 }
    ensures kept { IsKept handle.old handle.new }
{
    *wrote = 0;
    let Some(opened) = take(alloc, handle) else {
        return CLOSED;
    };
    let database = opened.database();
    let status = from_region(&Abroad, database, region, raw, number, bytes, out, wrote);
    put(alloc, handle, opened);
    status
}

/// Writes a number as the text was written that it was read from, which has no byte where it isn't
/// known: then as national text. The region is where it would be dialled from, a hint as
/// `phone_report` takes it. The number is given as `phone_format` takes it, with the source that
/// `phone_parse` told.
///
/// Its statuses are those of `phone_text_from`.
#[unsafe(no_mangle)]
pub extern "C" fn phone_original_text(
    alloc: Global,
    handle: &mut Handle,
    region: &[u8],
    raw: &[u8],
    number: &Number,
    bytes: &[u8],
    out: &mut [u8],
    wrote: &mut usize,
) -> u32
    ensures written { result ≡ OK → IsWrittenA
        (IsTextAsWritten handle.old.records region.now raw.now number.now bytes.now)
        out.old out.new wrote.new }
    ensures too_small { result ≡ TOO_SMALL → IsTooLongA
        (IsTextAsWritten handle.old.records region.now raw.now number.now bytes.now)
        out.old out.new wrote.new }
    ensures closed { (result ≡ CLOSED) ↔ IsClosed handle.old }
    ensures no_region { (result ≡ NO_REGION) ↔
        (¬ (IsClosed handle.old) × (hint_of region.now ≡ None)) }
    ensures not_utf8 { (result ≡ NOT_UTF8) ↔ (¬ (IsClosed handle.old) ×
        ¬ (hint_of region.now ≡ None) × ¬ (IsUtf8 raw.now)) }
    ensures bad { (result ≡ BAD_NUMBER) ↔ (¬ (IsClosed handle.old) ×
        ¬ (hint_of region.now ≡ None) × IsUtf8 raw.now × AreNoNumber number.now bytes.now) }
    ensures other { ¬ (result ≡ OK) → ¬ (result ≡ TOO_SMALL) → ¬ (result ≡ CLOSED) →
        ¬ (result ≡ NO_REGION) → ¬ (result ≡ NOT_UTF8) → ¬ (result ≡ BAD_NUMBER) →
        result ≡ MEMORY }
    ensures untouched { ¬ (result ≡ OK) → out.new ≡ out.old }
    ensures no_length { ¬ (result ≡ OK) → ¬ (result ≡ TOO_SMALL) → wrote.new ≡ 0 }
    ensures kept { IsKept handle.old handle.new }
{
    *wrote = 0;
    let Some(opened) = take(alloc, handle) else {
        return CLOSED;
    };
    let database = opened.database();
    let status = from_region(&Original, database, region, raw, number, bytes, out, wrote);
    put(alloc, handle, opened);
    status
}

/// Writes the text of a number in a mode by layouts of the caller's, which a second handle has: the
/// `formats` of its table's record `001`, of which the first counts that suits the digits. A rule
/// of national text counts where the main territory of the calling code has a national prefix.
///
/// `OK`, `TOO_SMALL` and `MEMORY` as `phone_report` has them. `CLOSED` exactly where one of the
/// handles is closed; else `NO_MODE` exactly where the mode is above 3, then `BAD_NUMBER` exactly
/// where plain numbers and bytes are no number.
#[unsafe(no_mangle)]
#[tactic(auto, using(crate::proofs::Kept::kept))]
pub extern "C" fn phone_format_by(
    alloc: Global,
    handle: &mut Handle,
    layouts: &mut Handle,
    mode: u32,
    number: &Number,
    bytes: &[u8],
    out: &mut [u8],
    wrote: &mut usize,
) -> u32
    ensures written { result ≡ OK → IsWrittenA
        (IsTextBy handle.old.records layouts.old.records mode number.now bytes.now)
        out.old out.new wrote.new }
    ensures too_small { result ≡ TOO_SMALL → IsTooLongA
        (IsTextBy handle.old.records layouts.old.records mode number.now bytes.now)
        out.old out.new wrote.new }
    ensures closed { (result ≡ CLOSED) ↔ (IsClosed handle.old ⊎ IsClosed layouts.old) }
    ensures no_mode { (result ≡ NO_MODE) ↔
        (¬ (IsClosed handle.old) × ¬ (IsClosed layouts.old) × (3 < mode)) }
    ensures bad { (result ≡ BAD_NUMBER) ↔ (¬ (IsClosed handle.old) × ¬ (IsClosed layouts.old) ×
        ¬ (3 < mode) × AreNoNumber number.now bytes.now) }
    ensures other { ¬ (result ≡ OK) → ¬ (result ≡ TOO_SMALL) → ¬ (result ≡ CLOSED) →
        ¬ (result ≡ NO_MODE) → ¬ (result ≡ BAD_NUMBER) → result ≡ MEMORY }
    ensures untouched { ¬ (result ≡ OK) → out.new ≡ out.old }
    ensures no_length { ¬ (result ≡ OK) → ¬ (result ≡ TOO_SMALL) → wrote.new ≡ 0 }
    ensures kept { IsKept handle.old handle.new }
    ensures layouts_kept { IsKept layouts.old layouts.new }
{
    *wrote = 0;
    let Some(opened) = take(alloc, handle) else {
        return CLOSED;
    };
    let Some(own) = take(alloc, layouts) else {
        put(alloc, handle, opened);
        return CLOSED;
    };
    let (database, table) = (opened.database(), own.database());
    let status = by_layouts(database, table, mode, number, bytes, out, wrote);
    put(alloc, layouts, own);
    put(alloc, handle, opened);
    status
}

/// Tells what is known of a number as a short number where its region isn't told: of the regions of
/// its calling code. The second handle is one that was opened on a table of short numbers. The
/// number's texts are not looked at.
///
/// `CLOSED` exactly where one of the handles is closed, else `BAD_NUMBER` exactly where the plain
/// numbers are no number's; `MEMORY`. For each but `OK` `facts` is as it was.
#[unsafe(no_mangle)]
#[tactic(auto, using(crate::proofs::Kept::kept))]
pub extern "C" fn phone_short_anywhere(
    alloc: Global,
    handle: &mut Handle,
    shorts: &mut Handle,
    number: &Number,
    facts: &mut FactsAnywhere,
) -> u32
    ensures told { result ≡ OK →
        AreFactsAnywhere handle.old.records shorts.old.records number.now facts.new }
    ensures closed { (result ≡ CLOSED) ↔ (IsClosed handle.old ⊎ IsClosed shorts.old) }
    ensures bad { (result ≡ BAD_NUMBER) ↔
        (¬ (IsClosed handle.old) × ¬ (IsClosed shorts.old) × AreNone number.now) }
    ensures other { ¬ (result ≡ OK) → ¬ (result ≡ CLOSED) → ¬ (result ≡ BAD_NUMBER) →
        result ≡ MEMORY }
    ensures untouched { ¬ (result ≡ OK) → facts.new ≡ facts.old }
    ensures kept { IsKept handle.old handle.new }
    ensures shorts_kept { IsKept shorts.old shorts.new }
{
    let Some(opened) = take(alloc, handle) else {
        return CLOSED;
    };
    let Some(own) = take(alloc, shorts) else {
        put(alloc, handle, opened);
        return CLOSED;
    };
    let status = anywhere(opened.database(), own.database(), number, facts);
    put(alloc, shorts, own);
    put(alloc, handle, opened);
    status
}

/// Writes the example of a region's short numbers, of those of this cost or, for 4, of all. The
/// handle is one that was opened on a table of short numbers; the region is given by its id. It
/// takes no memory.
///
/// `OK`, `TOO_SMALL` and `CLOSED` as `phone_report` has them; else `NO_REGION` exactly where the
/// region is no region's id, then `NO_WORD` exactly where the cost is above 4, then `NO_EXAMPLE`
/// exactly where the table gives no such example, as of the unknown cost.
#[unsafe(no_mangle)]
pub extern "C" fn phone_short_example(
    alloc: Global,
    handle: &mut Handle,
    region: &[u8],
    cost: u32,
    out: &mut [u8],
    wrote: &mut usize,
) -> u32
    ensures written { result ≡ OK → IsWrittenA
        (λ text. HasExample handle.old.records region.now cost (Some text))
        out.old out.new wrote.new }
    ensures too_small { result ≡ TOO_SMALL → IsTooLongA
        (λ text. HasExample handle.old.records region.now cost (Some text))
        out.old out.new wrote.new }
    ensures closed { (result ≡ CLOSED) ↔ IsClosed handle.old }
    ensures no_region { (result ≡ NO_REGION) ↔
        (¬ (IsClosed handle.old) × (id_of region.now ≡ None)) }
    ensures no_cost { (result ≡ NO_WORD) ↔ (¬ (IsClosed handle.old) ×
        ¬ (id_of region.now ≡ None) × (cost_asked cost ≡ None)) }
    ensures none { (result ≡ NO_EXAMPLE) ↔ (¬ (IsClosed handle.old) ×
        HasExample handle.old.records region.now cost None) }
    ensures status { (result ≡ OK) ⊎ (result ≡ TOO_SMALL) ⊎ (result ≡ CLOSED) ⊎
        (result ≡ NO_REGION) ⊎ (result ≡ NO_WORD) ⊎ (result ≡ NO_EXAMPLE) }
    ensures untouched { ¬ (result ≡ OK) → out.new ≡ out.old }
    ensures no_length { ¬ (result ≡ OK) → ¬ (result ≡ TOO_SMALL) → wrote.new ≡ 0 }
    ensures kept { IsKept handle.old handle.new }
{
    *wrote = 0;
    let Some(opened) = take(alloc, handle) else {
        return CLOSED;
    };
    let status = example(opened.database(), region, cost, out, wrote);
    put(alloc, handle, opened);
    status
}
