//! The calls that show a number while it is typed.
ghost use Rattle.std.specs.Prelude.{◌≡◌, ◌↔◌, None, IsUtf8};
ghost use Rattle.phone_c_base.specs.Buffers.{IsTooLongA, IsWrittenA};
ghost use Rattle.phone_c_base.specs.Handles.{IsClosed, IsKept};
ghost use Rattle.phone_c_base.specs.Hints.{UnderHint, hint_of};
ghost use Rattle.phone_c_base.specs.Typing.{IsCaret, IsShown};

use phone_c_base::handle::{Handle, put, take};
use phone_c_base::hint::hint_of;
use phone_c_base::status::{CLOSED, MEMORY, NO_REGION, NOT_UTF8, OK, TOO_SMALL};
use phone_c_base::typing::{caret, show};
use std::alloc::Global;

/// Writes what is shown of a number while it is typed, as `phone_typed::typed` gives it, once the
/// keys of this text are: its digits of any script, and a plus sign before all of them. The hint is
/// the region that digits without a plus sign are dialled in, as `phone_report` takes it. Nothing
/// of it is kept for the next call.
///
/// `OK`, `TOO_SMALL`, `CLOSED`, `NO_REGION` and `MEMORY` as `phone_report` has them; else
/// `NOT_UTF8` exactly where the text isn't UTF-8.
#[unsafe(no_mangle)]
pub extern "C" fn phone_typing_shown(
    alloc: Global,
    handle: &mut Handle,
    hint: &[u8],
    keys: &[u8],
    out: &mut [u8],
    wrote: &mut usize,
) -> u32
    ensures written { result ≡ OK → UnderHint hint.now (λ h. IsWrittenA
        (IsShown handle.old.records h keys.now) out.old out.new wrote.new) }
    ensures too_small { result ≡ TOO_SMALL → UnderHint hint.now (λ h. IsTooLongA
        (IsShown handle.old.records h keys.now) out.old out.new wrote.new) }
    ensures closed { (result ≡ CLOSED) ↔ IsClosed handle.old }
    ensures no_region { (result ≡ NO_REGION) ↔
        (¬ (IsClosed handle.old) × (hint_of hint.now ≡ None)) }
    ensures not_utf8 { (result ≡ NOT_UTF8) ↔
        (¬ (IsClosed handle.old) × ¬ (hint_of hint.now ≡ None) × ¬ (IsUtf8 keys.now)) }
    ensures other { ¬ (result ≡ OK) → ¬ (result ≡ TOO_SMALL) → ¬ (result ≡ CLOSED) →
        ¬ (result ≡ NO_REGION) → ¬ (result ≡ NOT_UTF8) → result ≡ MEMORY }
    ensures untouched { ¬ (result ≡ OK) → out.new ≡ out.old }
    ensures no_length { ¬ (result ≡ OK) → ¬ (result ≡ TOO_SMALL) → wrote.new ≡ 0 }
    ensures kept { IsKept handle.old handle.new }
{
    *wrote = 0;
    let Some(opened) = take(alloc, handle) else {
        return CLOSED;
    };
    let status = match hint_of(hint) {
        Some(hint) => show(opened.database(), hint, keys, out, wrote),
        None => NO_REGION,
    };
    put(alloc, handle, opened);
    status
}

/// Tells after how many characters of what `phone_typing_shown` shows of these keys the n-th key
/// stands, counted from 1: where the caret stands after it. 0 for no key; all of them from the last
/// key on. Each character that is shown is one byte.
///
/// Its statuses are those of `phone_typing_shown`, but for `TOO_SMALL`. For each but `OK` `told` is
/// as it was.
#[unsafe(no_mangle)]
pub extern "C" fn phone_typing_caret(
    alloc: Global,
    handle: &mut Handle,
    hint: &[u8],
    keys: &[u8],
    n: usize,
    told: &mut usize,
) -> u32
    ensures told { result ≡ OK → UnderHint hint.now (λ h.
        IsCaret handle.old.records h keys.now n told.new) }
    ensures closed { (result ≡ CLOSED) ↔ IsClosed handle.old }
    ensures no_region { (result ≡ NO_REGION) ↔
        (¬ (IsClosed handle.old) × (hint_of hint.now ≡ None)) }
    ensures not_utf8 { (result ≡ NOT_UTF8) ↔
        (¬ (IsClosed handle.old) × ¬ (hint_of hint.now ≡ None) × ¬ (IsUtf8 keys.now)) }
    ensures other { ¬ (result ≡ OK) → ¬ (result ≡ CLOSED) → ¬ (result ≡ NO_REGION) →
        ¬ (result ≡ NOT_UTF8) → result ≡ MEMORY }
    ensures untouched { ¬ (result ≡ OK) → told.new ≡ told.old }
    ensures kept { IsKept handle.old handle.new }
{
    let Some(opened) = take(alloc, handle) else {
        return CLOSED;
    };
    let status = match hint_of(hint) {
        Some(hint) => caret(opened.database(), hint, keys, n, told),
        None => NO_REGION,
    };
    put(alloc, handle, opened);
    status
}
