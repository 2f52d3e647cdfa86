//! The calls that tell whether a number or a text is possible, whether two texts are one number,
//! what an example number is, and how a number is dialled.
ghost use Rattle.std.specs.Prelude.{◌≡◌, ◌⊎◌, ◌↔◌, ◌<◌, None, IsUtf8};
ghost use Rattle.phone_values.specs.Ids.{id_of};
ghost use Rattle.phone_engine.specs.declared.dialled.DialError.TheVariants as dial;
ghost use Rattle.phone_c_base.specs.Buffers.{IsTooLongA, IsWrittenA};
ghost use Rattle.phone_c_base.specs.Comparisons.{AreAlike, AreRefusedAs};
ghost use Rattle.phone_c_base.specs.Dialled.{IsDialled, IsUndialled};
ghost use Rattle.phone_c_base.specs.Examples.{HasNoExample, IsExample, IsExampleRefused};
ghost use Rattle.phone_c_base.specs.Examples.{IsExampleTooLong};
ghost use Rattle.phone_c_base.specs.Handles.{IsClosed, IsKept};
ghost use Rattle.phone_c_base.specs.Hints.{UnderHint, hint_of};
ghost use Rattle.phone_c_base.specs.Kinds.{kind_of};
ghost use Rattle.phone_c_base.specs.Numbers.{AreNoNumber, AreNone};
ghost use Rattle.phone_c_base.specs.Possibilities.{IsNoPossibility, IsPossibility};
ghost use Rattle.phone_c_base.specs.Possibilities.{IsTextPossibility};

use phone_c_base::comparison::comparison;
use phone_c_base::dialling::dialled;
use phone_c_base::engines::{engine_of, under};
use phone_c_base::example::example;
use phone_c_base::handle::{Handle, put, take};
use phone_c_base::number::Number;
use phone_c_base::possibility::{possibility, text_possibility};
use phone_c_base::status::{
    BAD_NUMBER, CLOSED, MEMORY, NO_EXAMPLE, NO_KIND, NO_REGION, NO_TERRITORY, NOT_UTF8, OK,
    TOO_SMALL, UNKNOWN_CODE,
};
use std::alloc::Global;

/// Tells what the count of a number's digits says, as `phone_engine::possibility_of` does: 0
/// `Possible`, 1 `PossibleLocally`, 2 `TooShort`, 3 `TooLong`, 4 `WrongLength`, 5 `UnknownCode`.
/// The number's texts are not looked at.
///
/// Its statuses are those of `phone_kind`. For each but `OK` `told` is as it was.
#[unsafe(no_mangle)]
pub extern "C" fn phone_possibility(
    alloc: Global,
    handle: &mut Handle,
    number: &Number,
    told: &mut u32,
) -> u32
    ensures told { result ≡ OK →
        IsPossibility handle.old.rules handle.old.records number.now told.new }
    ensures closed { (result ≡ CLOSED) ↔ IsClosed handle.old }
    ensures bad { (result ≡ BAD_NUMBER) ↔
        (¬ (IsClosed handle.old) × AreNone number.now) }
    ensures other { ¬ (result ≡ OK) → ¬ (result ≡ CLOSED) →
        ¬ (result ≡ BAD_NUMBER) → result ≡ MEMORY }
    ensures untouched { ¬ (result ≡ OK) → told.new ≡ told.old }
    ensures kept { IsKept handle.old handle.new }
{
    let Some(opened) = take(alloc, handle) else {
        return CLOSED;
    };
    let status = possibility(engine_of(&opened), number, told);
    put(alloc, handle, opened);
    status
}

/// Tells the same of a text, perhaps not yet whole, as `phone_engine::possibility_of_text` does,
/// under the hint that `phone_report` takes: a text that is refused for its length or for its
/// calling code has an answer.
///
/// `CLOSED`, `NO_REGION`, `NOT_UTF8` and `MEMORY` as `phone_parse` has them; 1 or 6: the number of
/// another refusal. For each but `OK` `told` is as it was.
#[unsafe(no_mangle)]
pub extern "C" fn phone_text_possibility(
    alloc: Global,
    handle: &mut Handle,
    hint: &[u8],
    text: &[u8],
    told: &mut u32,
) -> u32
    ensures told { result ≡ OK → UnderHint hint.now (λ h.
        IsTextPossibility handle.old.rules handle.old.records h text.now told.new) }
    ensures closed { (result ≡ CLOSED) ↔ IsClosed handle.old }
    ensures no_region { (result ≡ NO_REGION) ↔
        (¬ (IsClosed handle.old) × (hint_of hint.now ≡ None)) }
    ensures not_utf8 { (result ≡ NOT_UTF8) ↔ (¬ (IsClosed handle.old) ×
        ¬ (hint_of hint.now ≡ None) × ¬ (IsUtf8 text.now)) }
    ensures refused { ¬ (result ≡ OK) → ¬ (result ≡ CLOSED) →
        ¬ (result ≡ NO_REGION) → ¬ (result ≡ NOT_UTF8) →
        (result ≡ MEMORY) ⊎ UnderHint hint.now (λ h. IsNoPossibility handle.old.rules
        handle.old.records h text.now result) }
    ensures untouched { ¬ (result ≡ OK) → told.new ≡ told.old }
    ensures kept { IsKept handle.old handle.new }
{
    let Some(opened) = take(alloc, handle) else {
        return CLOSED;
    };
    let status = match under(engine_of(&opened), hint) {
        Some(engine) => text_possibility(engine, text, told),
        None => NO_REGION,
    };
    put(alloc, handle, opened);
    status
}

/// Tells whether two texts are one number, each perhaps without its calling code, as
/// `phone_engine::compare_texts` does: 0 `Exact`, 1 `Number`, 2 `National`, 3 `End`, 4 `Different`.
///
/// `CLOSED` exactly where the handle is closed, else `NOT_UTF8` exactly where one of the texts
/// isn't UTF-8; 1 to 6: the number of the refusal of the first text, else of the second; `MEMORY`.
/// For each but `OK` `told` is as it was.
#[unsafe(no_mangle)]
pub extern "C" fn phone_compare(
    alloc: Global,
    handle: &mut Handle,
    first: &[u8],
    second: &[u8],
    told: &mut u32,
) -> u32
    ensures told { result ≡ OK → AreAlike handle.old.rules handle.old.records first.now
        second.now told.new }
    ensures closed { (result ≡ CLOSED) ↔ IsClosed handle.old }
    ensures not_utf8 { (result ≡ NOT_UTF8) ↔ (¬ (IsClosed handle.old) ×
        ¬ (IsUtf8 first.now × IsUtf8 second.now)) }
    ensures refused { ¬ (result ≡ OK) → ¬ (result ≡ CLOSED) → ¬ (result ≡ NOT_UTF8) →
        (result ≡ MEMORY) ⊎ AreRefusedAs handle.old.rules handle.old.records first.now second.now
        result }
    ensures untouched { ¬ (result ≡ OK) → told.new ≡ told.old }
    ensures kept { IsKept handle.old handle.new }
{
    let Some(opened) = take(alloc, handle) else {
        return CLOSED;
    };
    let status = comparison(engine_of(&opened), first, second, told);
    put(alloc, handle, opened);
    status
}

/// Writes how a number is dialled from a region, as `phone_engine::dialled::dialled_from` prints
/// it. The number is given as `phone_format` takes it, the region by its id, as `NZ`.
///
/// `OK`, `TOO_SMALL`, `CLOSED` and `MEMORY` as `phone_report` has them; else `NO_REGION` exactly
/// where the region is no region's id, then `BAD_NUMBER` exactly where plain numbers and bytes are
/// no number. `NO_TERRITORY` only where the database has no territory of the region; `UNKNOWN_CODE`
/// only where it has one, but none of the number's calling code. For each but `OK` `out` is as it
/// was.
#[unsafe(no_mangle)]
pub extern "C" fn phone_dialled_from(
    alloc: Global,
    handle: &mut Handle,
    region: &[u8],
    number: &Number,
    bytes: &[u8],
    out: &mut [u8],
    wrote: &mut usize,
) -> u32
    ensures written { result ≡ OK → IsWrittenA
        (IsDialled handle.old.records region.now number.now bytes.now)
        out.old out.new wrote.new }
    ensures too_small { result ≡ TOO_SMALL → IsTooLongA
        (IsDialled handle.old.records region.now number.now bytes.now)
        out.old out.new wrote.new }
    ensures closed { (result ≡ CLOSED) ↔ IsClosed handle.old }
    ensures no_region { (result ≡ NO_REGION) ↔
        (¬ (IsClosed handle.old) × (id_of region.now ≡ None)) }
    ensures bad { (result ≡ BAD_NUMBER) ↔ (¬ (IsClosed handle.old) ×
        ¬ (id_of region.now ≡ None) × AreNoNumber number.now bytes.now) }
    ensures no_territory { result ≡ NO_TERRITORY →
        IsUndialled handle.old.records region.now number.now bytes.now dial.UnknownRegion }
    ensures unknown { result ≡ UNKNOWN_CODE →
        IsUndialled handle.old.records region.now number.now bytes.now dial.UnknownCode }
    ensures other { ¬ (result ≡ OK) → ¬ (result ≡ TOO_SMALL) → ¬ (result ≡ CLOSED) →
        ¬ (result ≡ NO_REGION) → ¬ (result ≡ BAD_NUMBER) → ¬ (result ≡ NO_TERRITORY) →
        ¬ (result ≡ UNKNOWN_CODE) → result ≡ MEMORY }
    ensures untouched { ¬ (result ≡ OK) → out.new ≡ out.old }
    ensures no_length { ¬ (result ≡ OK) → ¬ (result ≡ TOO_SMALL) → wrote.new ≡ 0 }
    ensures kept { IsKept handle.old handle.new }
{
    *wrote = 0;
    let Some(opened) = take(alloc, handle) else {
        return CLOSED;
    };
    let status = dialled(opened.database(), region, number, bytes, out, wrote);
    put(alloc, handle, opened);
    status
}

/// Reads the example number of a region and a kind, with the region as hint, as
/// `phone_engine::example` reads it: into plain numbers, and its texts, as `phone_parse` writes
/// them, into a buffer. The region is given by its id, as `NZ`, the kind by the number by which
/// `phone_kind` tells it.
///
/// `CLOSED` exactly where the handle is closed, else `NO_REGION` exactly where the region is no
/// region's id, else `NO_KIND` exactly where the kind is above 16, else `NO_EXAMPLE` exactly where
/// the database gives no example of them. `TOO_SMALL` and `MEMORY` as `phone_parse` has them; 1 to
/// 6: the number of the refusal of the example. For each but `OK` `number` and `out` are as they
/// were.
#[unsafe(no_mangle)]
pub extern "C" fn phone_example(
    alloc: Global,
    handle: &mut Handle,
    region: &[u8],
    kind: u32,
    number: &mut Number,
    out: &mut [u8],
    wrote: &mut usize,
) -> u32
    ensures read { result ≡ OK → IsExample handle.old.rules handle.old.records
        region.now kind number.new out.old out.new wrote.new }
    ensures too_small { result ≡ TOO_SMALL → IsExampleTooLong handle.old.rules
        handle.old.records region.now kind out.old out.new wrote.new }
    ensures closed { (result ≡ CLOSED) ↔ IsClosed handle.old }
    ensures no_region { (result ≡ NO_REGION) ↔
        (¬ (IsClosed handle.old) × (id_of region.now ≡ None)) }
    ensures no_kind { (result ≡ NO_KIND) ↔ (¬ (IsClosed handle.old) ×
        ¬ (id_of region.now ≡ None) × (kind_of kind ≡ None)) }
    ensures no_example { (result ≡ NO_EXAMPLE) ↔ (¬ (IsClosed handle.old) ×
        HasNoExample handle.old.records region.now kind) }
    ensures refused { ¬ (result ≡ OK) → ¬ (result ≡ TOO_SMALL) → ¬ (result ≡ CLOSED) →
        ¬ (result ≡ NO_REGION) → ¬ (result ≡ NO_KIND) → ¬ (result ≡ NO_EXAMPLE) →
        (result ≡ MEMORY) ⊎ IsExampleRefused handle.old.rules handle.old.records region.now kind
        result }
    ensures untouched { ¬ (result ≡ OK) → (number.new ≡ number.old) × (out.new ≡ out.old) }
    ensures no_length { ¬ (result ≡ OK) → ¬ (result ≡ TOO_SMALL) → wrote.new ≡ 0 }
    ensures kept { IsKept handle.old handle.new }
{
    *wrote = 0;
    let Some(opened) = take(alloc, handle) else {
        return CLOSED;
    };
    let status = example(engine_of(&opened), region, kind, number, out, wrote);
    put(alloc, handle, opened);
    status
}
