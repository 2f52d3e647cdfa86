//! Offsets of 32 bits, as those of 64.
ghost use Rattle.std.specs.Prelude.{◌≡◌, IfOk};

use std::alloc::{AllocError, Global};

/// Offsets of 32 bits as those of 64 bits. Refused only for memory.
pub fn wide(alloc: Global, offsets: &[u32]) -> Result<Vec<u64>, AllocError>
    ensures { IfOk result (λ v. v.items ≡ offsets.now) }
{
    let mut wide = Vec::with_capacity(alloc, offsets.len())?;
    for offset in offsets {
        wide.push(u64::from(*offset))?;
    }
    Ok(wide)
}
