//! The calls that show a number while it is typed as libphonenumber's formatter does.
ghost use Rattle.std.specs.Prelude.{◌≡◌, ◌↔◌, None, IsUtf8};
ghost use Rattle.phone_c_base.specs.Buffers.{IsTooLongA, IsWrittenA};
ghost use Rattle.phone_c_base.specs.Handles.{IsClosed, IsKept};
ghost use Rattle.phone_c_base.specs.Hints.{UnderHint, hint_of};
ghost use Rattle.phone_c_questions.specs.Typing.{IsCaret, IsShown};

use phone_c_base::handle::{Handle, put, take};
use phone_c_base::hint::hint_of;
use phone_c_base::status::{CLOSED, MEMORY, NO_REGION, NOT_UTF8, OK, TOO_SMALL};
use phone_c_questions::typing::{caret, show};
use std::alloc::Global;

/// Writes what libphonenumber's formatter shows of a number while it is typed, as
/// `phone_typed::Keyed::typed` gives it, once the characters of this text are. A digit of any
/// script is the key of its value, and a plus sign is one before all else; after any other
/// character the text is shown as it was typed. The hint is the region that digits without a plus
/// sign are dialled in, as `phone_report` takes it. Nothing of it is kept for the next call.
///
/// `OK`, `TOO_SMALL`, `CLOSED`, `NO_REGION` and `MEMORY` as `phone_report` has them; else
/// `NOT_UTF8` exactly where the text isn't UTF-8.
#[unsafe(no_mangle)]
pub extern "C" fn phone_keyed_shown(
    alloc: Global,
    handle: &mut Handle,
    hint: &[u8],
    typed: &[u8],
    out: &mut [u8],
    wrote: &mut usize,
) -> u32
    ensures written { result ≡ OK → UnderHint hint.now (λ h. IsWrittenA
        (IsShown handle.old.records h typed.now) out.old out.new wrote.new) }
    ensures too_small { result ≡ TOO_SMALL → UnderHint hint.now (λ h. IsTooLongA
        (IsShown handle.old.records h typed.now) out.old out.new wrote.new) }
    ensures closed { (result ≡ CLOSED) ↔ IsClosed handle.old }
    ensures no_region { (result ≡ NO_REGION) ↔
        (¬ (IsClosed handle.old) × (hint_of hint.now ≡ None)) }
    ensures not_utf8 { (result ≡ NOT_UTF8) ↔
        (¬ (IsClosed handle.old) × ¬ (hint_of hint.now ≡ None) × ¬ (IsUtf8 typed.now)) }
    ensures other { ¬ (result ≡ OK) → ¬ (result ≡ TOO_SMALL) → ¬ (result ≡ CLOSED) →
        ¬ (result ≡ NO_REGION) → ¬ (result ≡ NOT_UTF8) → result ≡ MEMORY }
    ensures untouched { ¬ (result ≡ OK) → out.new ≡ out.old }
    ensures no_length { ¬ (result ≡ OK) → ¬ (result ≡ TOO_SMALL) → wrote.new ≡ 0 }
    ensures kept { IsKept handle.old handle.new }
{
    *wrote = 0;
    let Some(opened) = take(alloc, handle) else {
        return CLOSED;
    };
    let status = match hint_of(hint) {
        Some(hint) => show(opened.database(), hint, typed, out, wrote),
        None => NO_REGION,
    };
    put(alloc, handle, opened);
    status
}

/// Tells after how many characters of what `phone_keyed_shown` shows of this text its n-th
/// character stands, counted from 1: where the caret stands after it. 0 for none. A character that
/// is shown may be several bytes.
///
/// Its statuses are those of `phone_keyed_shown`, but for `TOO_SMALL`. For each but `OK` `told` is
/// as it was.
#[unsafe(no_mangle)]
pub extern "C" fn phone_keyed_caret(
    alloc: Global,
    handle: &mut Handle,
    hint: &[u8],
    typed: &[u8],
    n: usize,
    told: &mut usize,
) -> u32
    ensures told { result ≡ OK → UnderHint hint.now (λ h.
        IsCaret handle.old.records h typed.now n told.new) }
    ensures closed { (result ≡ CLOSED) ↔ IsClosed handle.old }
    ensures no_region { (result ≡ NO_REGION) ↔
        (¬ (IsClosed handle.old) × (hint_of hint.now ≡ None)) }
    ensures not_utf8 { (result ≡ NOT_UTF8) ↔
        (¬ (IsClosed handle.old) × ¬ (hint_of hint.now ≡ None) × ¬ (IsUtf8 typed.now)) }
    ensures other { ¬ (result ≡ OK) → ¬ (result ≡ CLOSED) → ¬ (result ≡ NO_REGION) →
        ¬ (result ≡ NOT_UTF8) → result ≡ MEMORY }
    ensures untouched { ¬ (result ≡ OK) → told.new ≡ told.old }
    ensures kept { IsKept handle.old handle.new }
{
    let Some(opened) = take(alloc, handle) else {
        return CLOSED;
    };
    let status = match hint_of(hint) {
        Some(hint) => caret(opened.database(), hint, typed, n, told),
        None => NO_REGION,
    };
    put(alloc, handle, opened);
    status
}
