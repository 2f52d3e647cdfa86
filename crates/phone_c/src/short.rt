//! The call that tells of short numbers.
ghost use Rattle.std.specs.Prelude.{◌≡◌, ◌↔◌, None, IsUtf8};
ghost use Rattle.phone_values.specs.Ids.{id_of};
ghost use Rattle.phone_c_base.specs.Handles.{IsClosed, IsKept};
ghost use Rattle.phone_c_base.specs.ShortNumbers.{AreShortFacts};

use phone_c_base::handle::{Handle, put, take};
use phone_c_base::short::{PlainFacts, short};
use phone_c_base::status::{CLOSED, MEMORY, NO_REGION, NOT_UTF8, OK};
use std::alloc::Global;

/// Tells what is known of a text as a short number of a region, as `phone_short::short_facts` does:
/// of its digits of any script. The handle is one that was opened on a table of short numbers; the
/// region is given by its id, as `NZ`.
///
/// `CLOSED` exactly where the handle is closed, else `NO_REGION` exactly where the region is no
/// region's id, else `NOT_UTF8` exactly where the text isn't UTF-8; `MEMORY`. For each but `OK`
/// `facts` is as it was.
#[unsafe(no_mangle)]
pub extern "C" fn phone_short(
    alloc: Global,
    handle: &mut Handle,
    region: &[u8],
    text: &[u8],
    facts: &mut PlainFacts,
) -> u32
    ensures told { result ≡ OK →
        AreShortFacts handle.old.records region.now text.now facts.new }
    ensures closed { (result ≡ CLOSED) ↔ IsClosed handle.old }
    ensures no_region { (result ≡ NO_REGION) ↔
        (¬ (IsClosed handle.old) × (id_of region.now ≡ None)) }
    ensures not_utf8 { (result ≡ NOT_UTF8) ↔
        (¬ (IsClosed handle.old) × ¬ (id_of region.now ≡ None) × ¬ (IsUtf8 text.now)) }
    ensures other { ¬ (result ≡ OK) → ¬ (result ≡ CLOSED) → ¬ (result ≡ NO_REGION) →
        ¬ (result ≡ NOT_UTF8) → result ≡ MEMORY }
    ensures untouched { ¬ (result ≡ OK) → facts.new ≡ facts.old }
    ensures kept { IsKept handle.old handle.new }
{
    let Some(opened) = take(alloc, handle) else {
        return CLOSED;
    };
    let status = short(opened.database(), region, text, facts);
    put(alloc, handle, opened);
    status
}
