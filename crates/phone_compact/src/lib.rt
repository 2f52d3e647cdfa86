//! The compact form of a table's records: bytes that are read in one pass.
#![tactic(auto)]

ghost use Rattle.std.specs.Prelude.{◌≡◌, ◌⊎◌, ◌++◌, ℕ, List, IfOk, IfErr, IsTrue, MatchOption};
ghost use Rattle.std.specs.Prelude.{false};
ghost use Rattle.phone_compact.specs.Records.{first_line, written, IsCompact, IsNotWritten};
ghost use Rattle.phone_compact.specs.declared.error.NotRead.TheVariants as error;

mod error;
mod form;
mod loader;
mod reader;
mod values;

use crate::values::{read_whole, write_items};
pub use error::NotRead;
use phone_records::loader::Metadata;
use std::alloc::{AllocError, Global};

/// The first line, with the version of the form.
const FIRST_LINE: &[u8] = b"phone_compact 1\n";

/// What stands after the first line, where it stands there.
fn after_first_line(bytes: &[u8]) -> Option<&[u8]>
    ensures { MatchOption result
        ((rest : List ℕ) → ¬ (bytes.now ≡ first_line ++ rest))
        (λ rest. bytes.now ≡ first_line ++ rest.now) }
{
    bytes.strip_prefix(FIRST_LINE)
}

/// Whether bytes begin with the first line of the form, and so are meant as records. Takes no
/// memory.
pub fn is_compact(bytes: &[u8]) -> bool
    ensures compact { IsTrue result → IsCompact bytes.now }
    ensures other { result ≡ false → ¬ (IsCompact bytes.now) }
{
    match after_first_line(bytes) {
        Some(_) => true,
        None => false,
    }
}

/// The records that are written as these bytes. Refused by `Malformed` where no records are written
/// so, and by `Memory` where memory is refused.
pub fn records(alloc: Global, bytes: &[u8]) -> Result<Vec<Metadata>, NotRead>
    ensures read { IfOk result (λ v. bytes.now ≡ written v.items) }
    ensures refused { IfErr result (λ e. (e ≡ error.Memory) ⊎ IsNotWritten bytes.now) }
{
    match after_first_line(bytes) {
        Some(rest) => read_whole(alloc, rest),
        None => Err(NotRead::Malformed),
    }
}

/// The bytes that these records are written as. Refused only for memory.
pub fn write(alloc: Global, records: &[Metadata]) -> Result<Vec<u8>, AllocError>
    ensures { IfOk result (λ v. v.items ≡ written records.now) }
{
    let mut out = Vec::from_slice(alloc, FIRST_LINE)?;
    write_items(records, &mut out)?;
    Ok(out)
}
