//! The calls that list what a database has.
ghost use Rattle.std.specs.Prelude.{◌≡◌, ◌↔◌};
ghost use Rattle.phone_engine.specs.Listed.{listed_codes};
ghost use Rattle.phone_c_base.specs.Buffers.{IsTooLong, IsWritten};
ghost use Rattle.phone_c_base.specs.Handles.{IsClosed, IsKept};
ghost use Rattle.phone_c_base.specs.Listed.{region_names};

use phone_c_base::handle::{Handle, put, take};
use phone_c_base::listed::{codes, regions};
use phone_c_base::status::{CLOSED, MEMORY, OK, TOO_SMALL};
use std::alloc::Global;

/// Writes the ids of the regions that the database has a territory of, by the alphabet, two bytes
/// each, one behind the other.
///
/// `OK`, `TOO_SMALL`, `CLOSED` and `MEMORY` as `phone_report` has them. For each but `OK` `out` is
/// as it was.
#[unsafe(no_mangle)]
pub extern "C" fn phone_regions(
    alloc: Global,
    handle: &mut Handle,
    out: &mut [u8],
    wrote: &mut usize,
) -> u32
    ensures written { result ≡ OK →
        IsWritten (region_names handle.old.records) out.old out.new wrote.new }
    ensures too_small { result ≡ TOO_SMALL →
        IsTooLong (region_names handle.old.records) out.old out.new wrote.new }
    ensures closed { (result ≡ CLOSED) ↔ IsClosed handle.old }
    ensures other { ¬ (result ≡ OK) → ¬ (result ≡ TOO_SMALL) → ¬ (result ≡ CLOSED) →
        result ≡ MEMORY }
    ensures untouched { ¬ (result ≡ OK) → out.new ≡ out.old }
    ensures no_length { ¬ (result ≡ OK) → ¬ (result ≡ TOO_SMALL) → wrote.new ≡ 0 }
    ensures kept { IsKept handle.old handle.new }
{
    *wrote = 0;
    let Some(opened) = take(alloc, handle) else {
        return CLOSED;
    };
    let status = regions(opened.database(), out, wrote);
    put(alloc, handle, opened);
    status
}

/// Writes the calling codes that the database has a territory of, ascending. The room of `out` and
/// `wrote` are counts of codes.
///
/// `OK`, `TOO_SMALL`, `CLOSED` and `MEMORY` as `phone_report` has them. For each but `OK` `out` is
/// as it was.
#[unsafe(no_mangle)]
pub extern "C" fn phone_codes(
    alloc: Global,
    handle: &mut Handle,
    out: &mut [u16],
    wrote: &mut usize,
) -> u32
    ensures written { result ≡ OK →
        IsWritten (listed_codes handle.old.records) out.old out.new wrote.new }
    ensures too_small { result ≡ TOO_SMALL →
        IsTooLong (listed_codes handle.old.records) out.old out.new wrote.new }
    ensures closed { (result ≡ CLOSED) ↔ IsClosed handle.old }
    ensures other { ¬ (result ≡ OK) → ¬ (result ≡ TOO_SMALL) → ¬ (result ≡ CLOSED) →
        result ≡ MEMORY }
    ensures untouched { ¬ (result ≡ OK) → out.new ≡ out.old }
    ensures no_length { ¬ (result ≡ OK) → ¬ (result ≡ TOO_SMALL) → wrote.new ≡ 0 }
    ensures kept { IsKept handle.old handle.new }
{
    *wrote = 0;
    let Some(opened) = take(alloc, handle) else {
        return CLOSED;
    };
    let status = codes(opened.database(), out, wrote);
    put(alloc, handle, opened);
    status
}
