//! Buffers of columns.
ghost use Rattle.std.specs.Prelude.{◌≡◌, ◌++◌, OnOk};
ghost use Rattle.phone_arrow.specs.Buffers.{padding};

use std::alloc::AllocError;

/// Puts as many zeros behind bytes as a buffer of this length needs, so that what follows begins at
/// a multiple of eight bytes. Refused only for memory.
pub fn pad(bytes: &mut Vec<u8>, len: usize) -> Result<(), AllocError>
    ensures { OnOk result (bytes.new.items ≡ bytes.old.items ++ padding len) }
{
    bytes.resize(bytes.len() + (8 - len % 8) % 8, 0)
}
