//! What a database lists, in a buffer: the ids of its regions, and its calling codes.
ghost use Rattle.std.specs.Prelude.{◌≡◌, IfOk};
ghost use Rattle.std.specs.List.{flat_map};
ghost use Rattle.phone_values.specs.Ids.{name};
ghost use Rattle.phone_engine.specs.Listed.{listed_codes};
ghost use Rattle.phone_c_base.specs.Buffers.{IsTooLong, IsWritten};
ghost use Rattle.phone_c_base.specs.Listed.{region_names};

use crate::buffer::give;
use crate::status::{MEMORY, OK, TOO_SMALL};
use phone_plans::Plans;
use phone_values::country::Id;
use std::alloc::{AllocError, Global};

/// The ids of a database's regions, one behind the other, in a buffer.
pub fn regions(database: &Plans, out: &mut [u8], wrote: &mut usize) -> u32
    ensures written { result ≡ OK →
        IsWritten (region_names database.now) out.old out.new wrote.new }
    ensures too_small { result ≡ TOO_SMALL →
        IsTooLong (region_names database.now) out.old out.new wrote.new }
    ensures other { ¬ (result ≡ OK) → ¬ (result ≡ TOO_SMALL) → result ≡ MEMORY }
    ensures untouched { ¬ (result ≡ OK) → out.new ≡ out.old }
    ensures no_length { ¬ (result ≡ OK) → ¬ (result ≡ TOO_SMALL) → wrote.new ≡ 0 }
{
    *wrote = 0;
    let Ok(ids) = phone_engine::regions(database) else {
        return MEMORY;
    };
    match names_of(database.allocator(), ids.as_slice()) {
        Ok(names) => give(names.as_slice(), out, wrote),
        Err(_) => MEMORY,
    }
}

/// The names of ids, one behind the other. Refused only for memory.
fn names_of(alloc: Global, ids: &[Id]) -> Result<Vec<u8>, AllocError>
    ensures { IfOk result (λ v. v.items ≡ flat_map name ids.now) }
{
    let mut names = Vec::new(alloc);
    for id in ids {
        names.extend_from_slice(id.as_str().as_bytes())?;
    }
    Ok(names)
}

/// A database's calling codes, ascending, in a buffer.
pub fn codes(database: &Plans, out: &mut [u16], wrote: &mut usize) -> u32
    ensures written { result ≡ OK →
        IsWritten (listed_codes database.now) out.old out.new wrote.new }
    ensures too_small { result ≡ TOO_SMALL →
        IsTooLong (listed_codes database.now) out.old out.new wrote.new }
    ensures other { ¬ (result ≡ OK) → ¬ (result ≡ TOO_SMALL) → result ≡ MEMORY }
    ensures untouched { ¬ (result ≡ OK) → out.new ≡ out.old }
    ensures no_length { ¬ (result ≡ OK) → ¬ (result ≡ TOO_SMALL) → wrote.new ≡ 0 }
{
    *wrote = 0;
    match phone_engine::codes(database) {
        Ok(codes) => give(codes.as_slice(), out, wrote),
        Err(_) => MEMORY,
    }
}
