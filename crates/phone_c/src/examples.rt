//! The calls that give examples of numbers, and that tell SMS services: by libphonenumber's rules,
//! whatever the rules of the handle.
ghost use Rattle.std.specs.Prelude.{◌≡◌, ◌⊎◌, ◌↔◌, None};
ghost use Rattle.phone_values.specs.Ids.{id_of};
ghost use Rattle.phone_c_base.specs.Handles.{IsClosed, IsKept};
ghost use Rattle.phone_c_base.specs.Numbers.{AreNone};
ghost use Rattle.phone_c_questions.specs.Examples.{HasNoInvalid, IsInvalidOf, IsNumberTooLong};
ghost use Rattle.phone_c_questions.specs.Examples.{IsNumberWritten, IsOfCode, IsOfCodeRefused};
ghost use Rattle.phone_c_questions.specs.Examples.{code_text};
ghost use Rattle.phone_c_questions.specs.Services.{IsServiceOf};

use phone_c_base::handle::{Handle, put, take};
use phone_c_base::number::Number;
use phone_c_base::status::{BAD_NUMBER, CLOSED, MEMORY, NO_EXAMPLE, NO_REGION, OK, TOO_SMALL};
use phone_c_questions::examples::{invalid_of, of_code};
use phone_c_questions::services::sms_service;
use std::alloc::Global;

/// Reads the example of a calling code that serves no region, as 800: into plain numbers, and its
/// texts, as `phone_parse` writes them, into a buffer.
///
/// `CLOSED` exactly where the handle is closed; `NO_EXAMPLE` where the code serves a region, isn't
/// listed or has no example. `TOO_SMALL` and `MEMORY` as `phone_parse` has them; 1 to 6: the number
/// of the refusal of the example. For each but `OK` `number` and `out` are as they were.
#[unsafe(no_mangle)]
pub extern "C" fn phone_example_of_code(
    alloc: Global,
    handle: &mut Handle,
    code: u16,
    number: &mut Number,
    out: &mut [u8],
    wrote: &mut usize,
) -> u32
    ensures read { result ≡ OK → IsNumberWritten
        (IsOfCode handle.old.records code) number.new out.old out.new wrote.new }
    ensures too_small { result ≡ TOO_SMALL → IsNumberTooLong
        (IsOfCode handle.old.records code) out.old out.new wrote.new }
    ensures closed { (result ≡ CLOSED) ↔ IsClosed handle.old }
    ensures no_example { result ≡ NO_EXAMPLE → code_text handle.old.records code ≡ None }
    ensures refused { ¬ (result ≡ OK) → ¬ (result ≡ TOO_SMALL) → ¬ (result ≡ CLOSED) →
        ¬ (result ≡ NO_EXAMPLE) →
        (result ≡ MEMORY) ⊎ IsOfCodeRefused handle.old.records code result }
    ensures untouched { ¬ (result ≡ OK) → (number.new ≡ number.old) × (out.new ≡ out.old) }
    ensures no_length { ¬ (result ≡ OK) → ¬ (result ≡ TOO_SMALL) → wrote.new ≡ 0 }
    ensures kept { IsKept handle.old handle.new }
{
    *wrote = 0;
    let Some(opened) = take(alloc, handle) else {
        return CLOSED;
    };
    let status = of_code(opened.database(), code, number, out, wrote);
    put(alloc, handle, opened);
    status
}

/// Makes a number of a region that isn't valid: the first, of the example of its fixed lines
/// without its last digit, its last two and so on, that is read and isn't. Into plain numbers, and
/// its texts, as `phone_parse` writes them, into a buffer. The region is given by its id.
///
/// `CLOSED` exactly where the handle is closed, else `NO_REGION` exactly where the region is no
/// region's id; `NO_EXAMPLE` where there is no such number. `TOO_SMALL` and `MEMORY` as
/// `phone_parse` has them. For each but `OK` `number` and `out` are as they were.
#[unsafe(no_mangle)]
pub extern "C" fn phone_invalid_example(
    alloc: Global,
    handle: &mut Handle,
    region: &[u8],
    number: &mut Number,
    out: &mut [u8],
    wrote: &mut usize,
) -> u32
    ensures read { result ≡ OK → IsNumberWritten
        (IsInvalidOf handle.old.records region.now) number.new out.old out.new wrote.new }
    ensures too_small { result ≡ TOO_SMALL → IsNumberTooLong
        (IsInvalidOf handle.old.records region.now) out.old out.new wrote.new }
    ensures closed { (result ≡ CLOSED) ↔ IsClosed handle.old }
    ensures no_region { (result ≡ NO_REGION) ↔
        (¬ (IsClosed handle.old) × (id_of region.now ≡ None)) }
    ensures no_example { result ≡ NO_EXAMPLE → HasNoInvalid handle.old.records region.now }
    ensures other { ¬ (result ≡ OK) → ¬ (result ≡ TOO_SMALL) → ¬ (result ≡ CLOSED) →
        ¬ (result ≡ NO_REGION) → ¬ (result ≡ NO_EXAMPLE) → result ≡ MEMORY }
    ensures untouched { ¬ (result ≡ OK) → (number.new ≡ number.old) × (out.new ≡ out.old) }
    ensures no_length { ¬ (result ≡ OK) → ¬ (result ≡ TOO_SMALL) → wrote.new ≡ 0 }
    ensures kept { IsKept handle.old handle.new }
{
    *wrote = 0;
    let Some(opened) = take(alloc, handle) else {
        return CLOSED;
    };
    let status = invalid_of(opened.database(), region, number, out, wrote);
    put(alloc, handle, opened);
    status
}

/// Tells whether a number is an SMS service of a region, 1, or not, 0. The second handle is one
/// that was opened on a table of these services; the region is given by its id. The number's texts
/// are not looked at.
///
/// `CLOSED` exactly where one of the handles is closed, else `NO_REGION` exactly where the region
/// is no region's id, else `BAD_NUMBER` exactly where the plain numbers are no number's; `MEMORY`.
/// For each but `OK` `told` is as it was.
#[unsafe(no_mangle)]
#[tactic(auto, using(crate::proofs::Kept::kept))]
pub extern "C" fn phone_is_sms_service(
    alloc: Global,
    handle: &mut Handle,
    services: &mut Handle,
    region: &[u8],
    number: &Number,
    told: &mut u8,
) -> u32
    ensures told { result ≡ OK → IsServiceOf handle.old.records services.old.records
        region.now number.now told.new }
    ensures closed { (result ≡ CLOSED) ↔ (IsClosed handle.old ⊎ IsClosed services.old) }
    ensures no_region { (result ≡ NO_REGION) ↔
        (¬ (IsClosed handle.old) × ¬ (IsClosed services.old) × (id_of region.now ≡ None)) }
    ensures bad { (result ≡ BAD_NUMBER) ↔ (¬ (IsClosed handle.old) ×
        ¬ (IsClosed services.old) × ¬ (id_of region.now ≡ None) × AreNone number.now) }
    ensures other { ¬ (result ≡ OK) → ¬ (result ≡ CLOSED) → ¬ (result ≡ NO_REGION) →
        ¬ (result ≡ BAD_NUMBER) → result ≡ MEMORY }
    ensures untouched { ¬ (result ≡ OK) → told.new ≡ told.old }
    ensures kept { IsKept handle.old handle.new }
    ensures services_kept { IsKept services.old services.new }
{
    let Some(opened) = take(alloc, handle) else {
        return CLOSED;
    };
    let Some(own) = take(alloc, services) else {
        put(alloc, handle, opened);
        return CLOSED;
    };
    let status = sms_service(opened.database(), own.database(), region, number, told);
    put(alloc, services, own);
    put(alloc, handle, opened);
    status
}
