//! The calls that give our own answers where libphonenumber's mislead: whatever the rules of the
//! handle.
ghost use Rattle.std.specs.Prelude.{◌≡◌, ◌⊎◌, ◌↔◌, IsUtf8, None};
ghost use Rattle.phone_c_base.specs.Buffers.{IsTooLongA, IsWrittenA};
ghost use Rattle.phone_c_base.specs.Handles.{IsClosed, IsKept};
ghost use Rattle.phone_c_base.specs.Kinds.{kind_of};
ghost use Rattle.phone_c_base.specs.Numbers.{AreNoNumber, AreNone};
ghost use Rattle.phone_c_questions.specs.Matches.{AreOwnMatch, AreOwnMatchTexts, IsOwnMatchText};
ghost use Rattle.phone_c_questions.specs.Own.{IsKnownCost, IsOwnMobileText, IsPossibilityOf};
ghost use Rattle.phone_c_questions.specs.Own.{IsReach};

use phone_c_base::handle::{Handle, put, take};
use phone_c_base::number::Number;
use phone_c_base::status::{BAD_NUMBER, CLOSED, MEMORY, NO_KIND, NOT_UTF8, OK, TOO_SMALL};
use phone_c_questions::matches;
use phone_c_questions::own::{cost, mobile, possibility, reach};
use phone_further::OwnLikeness;
use std::alloc::Global;

/// Writes what a mobile phone dials to reach a number, as `phone_mobile_text` does, but each region
/// of the number's calling code is at home for it, as `CA` for `+1 911`; and a number whose value
/// is 0 is written as any other.
///
/// `OK`, `TOO_SMALL`, `CLOSED` and `MEMORY` as `phone_report` has them; else `NOT_UTF8` exactly
/// where the id isn't UTF-8, then `BAD_NUMBER` exactly where plain numbers and bytes are no number.
#[unsafe(no_mangle)]
pub extern "C" fn phone_own_mobile_text(
    alloc: Global,
    handle: &mut Handle,
    id: &[u8],
    with_symbols: u8,
    number: &Number,
    bytes: &[u8],
    out: &mut [u8],
    wrote: &mut usize,
) -> u32
    ensures written { result ≡ OK → IsWrittenA
        (IsOwnMobileText handle.old.records id.now with_symbols number.now bytes.now)
        out.old out.new wrote.new }
    ensures too_small { result ≡ TOO_SMALL → IsTooLongA
        (IsOwnMobileText handle.old.records id.now with_symbols number.now bytes.now)
        out.old out.new wrote.new }
    ensures closed { (result ≡ CLOSED) ↔ IsClosed handle.old }
    ensures not_utf8 { (result ≡ NOT_UTF8) ↔ (¬ (IsClosed handle.old) × ¬ (IsUtf8 id.now)) }
    ensures bad { (result ≡ BAD_NUMBER) ↔
        (¬ (IsClosed handle.old) × IsUtf8 id.now × AreNoNumber number.now bytes.now) }
    ensures other { ¬ (result ≡ OK) → ¬ (result ≡ TOO_SMALL) → ¬ (result ≡ CLOSED) →
        ¬ (result ≡ NOT_UTF8) → ¬ (result ≡ BAD_NUMBER) → result ≡ MEMORY }
    ensures untouched { ¬ (result ≡ OK) → out.new ≡ out.old }
    ensures no_length { ¬ (result ≡ OK) → ¬ (result ≡ TOO_SMALL) → wrote.new ≡ 0 }
    ensures kept { IsKept handle.old handle.new }
{
    *wrote = 0;
    let Some(opened) = take(alloc, handle) else {
        return CLOSED;
    };
    let status = mobile(
        opened.database(),
        id,
        with_symbols,
        number,
        bytes,
        out,
        wrote,
    );
    put(alloc, handle, opened);
    status
}

/// Tells whether a number can be dialled from abroad, 1, else 0: a valid one, whose region doesn't
/// say that it is dialled at home alone. The number's texts are not looked at.
///
/// `CLOSED` exactly where the handle is closed, else `BAD_NUMBER` exactly where the plain numbers
/// are no number's; `MEMORY`. For each but `OK` `told` is as it was.
#[unsafe(no_mangle)]
pub extern "C" fn phone_reaches_from_abroad(
    alloc: Global,
    handle: &mut Handle,
    number: &Number,
    told: &mut u8,
) -> u32
    ensures told { result ≡ OK → IsReach handle.old.records number.now told.new }
    ensures closed { (result ≡ CLOSED) ↔ IsClosed handle.old }
    ensures bad { (result ≡ BAD_NUMBER) ↔ (¬ (IsClosed handle.old) × AreNone number.now) }
    ensures other { ¬ (result ≡ OK) → ¬ (result ≡ CLOSED) → ¬ (result ≡ BAD_NUMBER) →
        result ≡ MEMORY }
    ensures untouched { ¬ (result ≡ OK) → told.new ≡ told.old }
    ensures kept { IsKept handle.old handle.new }
{
    let Some(opened) = take(alloc, handle) else {
        return CLOSED;
    };
    let status = reach(opened.database(), number, told);
    put(alloc, handle, opened);
    status
}

/// Tells what a number costs as a short number whose region isn't told: in the regions of its
/// calling code whose table knows it; 0 nothing, 1 the standard rate, 2 a premium rate, 3 unknown.
/// The second handle is one that was opened on a table of short numbers. The number's texts are not
/// looked at.
///
/// `CLOSED` exactly where one of the handles is closed, else `BAD_NUMBER` exactly where the plain
/// numbers are no number's; `MEMORY`. For each but `OK` `told` is as it was.
#[unsafe(no_mangle)]
#[tactic(auto, using(crate::proofs::Kept::kept))]
pub extern "C" fn phone_known_cost(
    alloc: Global,
    handle: &mut Handle,
    shorts: &mut Handle,
    number: &Number,
    told: &mut u32,
) -> u32
    ensures told { result ≡ OK →
        IsKnownCost handle.old.records shorts.old.records number.now told.new }
    ensures closed { (result ≡ CLOSED) ↔ (IsClosed handle.old ⊎ IsClosed shorts.old) }
    ensures bad { (result ≡ BAD_NUMBER) ↔
        (¬ (IsClosed handle.old) × ¬ (IsClosed shorts.old) × AreNone number.now) }
    ensures other { ¬ (result ≡ OK) → ¬ (result ≡ CLOSED) → ¬ (result ≡ BAD_NUMBER) →
        result ≡ MEMORY }
    ensures untouched { ¬ (result ≡ OK) → told.new ≡ told.old }
    ensures kept { IsKept handle.old handle.new }
    ensures shorts_kept { IsKept shorts.old shorts.new }
{
    let Some(opened) = take(alloc, handle) else {
        return CLOSED;
    };
    let Some(own) = take(alloc, shorts) else {
        put(alloc, handle, opened);
        return CLOSED;
    };
    let status = cost(opened.database(), own.database(), number, told);
    put(alloc, shorts, own);
    put(alloc, handle, opened);
    status
}

/// Tells what the count of a number's digits says of it as a number of a kind, as
/// `phone_possibility_as` does, but of a valid number by the lengths of its own region. The
/// number's texts are not looked at.
///
/// `CLOSED` exactly where the handle is closed, else `NO_KIND` exactly where the kind is above 16,
/// else `BAD_NUMBER` exactly where the plain numbers are no number's; `MEMORY`. For each but `OK`
/// `told` is as it was.
#[unsafe(no_mangle)]
pub extern "C" fn phone_own_possibility(
    alloc: Global,
    handle: &mut Handle,
    kind: u32,
    number: &Number,
    told: &mut u32,
) -> u32
    ensures told { result ≡ OK →
        IsPossibilityOf handle.old.records kind number.now told.new }
    ensures closed { (result ≡ CLOSED) ↔ IsClosed handle.old }
    ensures no_kind { (result ≡ NO_KIND) ↔
        (¬ (IsClosed handle.old) × (kind_of kind ≡ None)) }
    ensures bad { (result ≡ BAD_NUMBER) ↔
        (¬ (IsClosed handle.old) × ¬ (kind_of kind ≡ None) × AreNone number.now) }
    ensures other { ¬ (result ≡ OK) → ¬ (result ≡ CLOSED) → ¬ (result ≡ NO_KIND) →
        ¬ (result ≡ BAD_NUMBER) → result ≡ MEMORY }
    ensures untouched { ¬ (result ≡ OK) → told.new ≡ told.old }
    ensures kept { IsKept handle.old handle.new }
{
    let Some(opened) = take(alloc, handle) else {
        return CLOSED;
    };
    let status = possibility(opened.database(), kind, number, told);
    put(alloc, handle, opened);
    status
}

/// Tells how like two numbers are, as `phone_match_numbers` does, but the national number of one is
/// an end of the other's only from seven digits on, its leading zeros included. It needs no
/// database.
///
/// `BAD_NUMBER` exactly where plain numbers and bytes of one are no number; `MEMORY`. For each but
/// `OK` `told` is as it was.
#[unsafe(no_mangle)]
pub extern "C" fn phone_own_match_numbers(
    alloc: Global,
    first: &Number,
    first_bytes: &[u8],
    second: &Number,
    second_bytes: &[u8],
    told: &mut u32,
) -> u32
    ensures told { result ≡ OK → AreOwnMatch first.now first_bytes.now second.now
        second_bytes.now told.new }
    ensures bad { (result ≡ BAD_NUMBER) ↔ (AreNoNumber first.now first_bytes.now ⊎
        AreNoNumber second.now second_bytes.now) }
    ensures other { ¬ (result ≡ OK) → ¬ (result ≡ BAD_NUMBER) → result ≡ MEMORY }
    ensures untouched { ¬ (result ≡ OK) → told.new ≡ told.old }
{
    matches::numbers(
        &OwnLikeness,
        alloc,
        first,
        first_bytes,
        second,
        second_bytes,
        told,
    )
}

/// Tells the same of a number and a text, perhaps without its calling code, as `phone_match_text`
/// does; the match is exact as well where the code stands behind an international prefix.
///
/// `CLOSED` exactly where the handle is closed, else `NOT_UTF8` exactly where the text isn't UTF-8,
/// else `BAD_NUMBER` exactly where plain numbers and bytes are no number; `MEMORY`. For each but
/// `OK` `told` is as it was.
#[unsafe(no_mangle)]
pub extern "C" fn phone_own_match_text(
    alloc: Global,
    handle: &mut Handle,
    number: &Number,
    bytes: &[u8],
    text: &[u8],
    told: &mut u32,
) -> u32
    ensures told { result ≡ OK →
        IsOwnMatchText handle.old.records number.now bytes.now text.now told.new }
    ensures closed { (result ≡ CLOSED) ↔ IsClosed handle.old }
    ensures not_utf8 { (result ≡ NOT_UTF8) ↔ (¬ (IsClosed handle.old) × ¬ (IsUtf8 text.now)) }
    ensures bad { (result ≡ BAD_NUMBER) ↔
        (¬ (IsClosed handle.old) × IsUtf8 text.now × AreNoNumber number.now bytes.now) }
    ensures other { ¬ (result ≡ OK) → ¬ (result ≡ CLOSED) → ¬ (result ≡ NOT_UTF8) →
        ¬ (result ≡ BAD_NUMBER) → result ≡ MEMORY }
    ensures untouched { ¬ (result ≡ OK) → told.new ≡ told.old }
    ensures kept { IsKept handle.old handle.new }
{
    let Some(opened) = take(alloc, handle) else {
        return CLOSED;
    };
    let status = matches::text(&OwnLikeness, opened.database(), number, bytes, text, told);
    put(alloc, handle, opened);
    status
}

/// Tells the same of two texts, each perhaps without its calling code.
///
/// `CLOSED` exactly where the handle is closed, else `NOT_UTF8` exactly where one of the texts
/// isn't UTF-8; `MEMORY`. For each but `OK` `told` is as it was.
#[unsafe(no_mangle)]
pub extern "C" fn phone_own_match_texts(
    alloc: Global,
    handle: &mut Handle,
    first: &[u8],
    second: &[u8],
    told: &mut u32,
) -> u32
    ensures told { result ≡ OK →
        AreOwnMatchTexts handle.old.records first.now second.now told.new }
    ensures closed { (result ≡ CLOSED) ↔ IsClosed handle.old }
    ensures not_utf8 { (result ≡ NOT_UTF8) ↔ (¬ (IsClosed handle.old) ×
        ¬ (IsUtf8 first.now × IsUtf8 second.now)) }
    ensures other { ¬ (result ≡ OK) → ¬ (result ≡ CLOSED) → ¬ (result ≡ NOT_UTF8) →
        result ≡ MEMORY }
    ensures untouched { ¬ (result ≡ OK) → told.new ≡ told.old }
    ensures kept { IsKept handle.old handle.new }
{
    let Some(opened) = take(alloc, handle) else {
        return CLOSED;
    };
    let status = matches::texts(&OwnLikeness, opened.database(), first, second, told);
    put(alloc, handle, opened);
    status
}
