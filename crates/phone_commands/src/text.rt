//! Bytes and texts at the end of bytes.
ghost use Rattle.std.specs.Prelude.{◌≡◌, ◌++◌, ◌∷◌, [], OnOk};

use std::alloc::AllocError;

/// Puts bytes at the end of others. Refused only for memory.
pub(crate) fn push_bytes(bytes: &mut Vec<u8>, more: &[u8]) -> Result<(), AllocError>
    ensures { OnOk result (bytes.new.items ≡ bytes.old.items ++ more.now) }
{
    bytes.extend_from_slice(more)
}

/// Puts a text at the end of bytes. Refused only for memory.
pub(crate) fn push_text(bytes: &mut Vec<u8>, text: &str) -> Result<(), AllocError>
    ensures { OnOk result (bytes.new.items ≡ bytes.old.items ++ text.now) }
{
    push_bytes(bytes, text.as_bytes())
}

/// Puts a text and a line feed at the end of bytes. Refused only for memory.
pub(crate) fn push_line(bytes: &mut Vec<u8>, text: &str) -> Result<(), AllocError>
    ensures { OnOk result (bytes.new.items ≡ bytes.old.items ++ (text.now ++ 10 ∷ [])) }
{
    push_text(bytes, text)?;
    push_text(bytes, "\n")
}
