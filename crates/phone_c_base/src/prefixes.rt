//! Tables of prefixes: one read from a text, as a handle holds it, and digits looked up in one.
ghost use Rattle.std.specs.Prelude.{◌≡◌, ◌⊎◌, ◌↔◌, IfErr, IfOk, IsUtf8, length};
ghost use Rattle.phone_prefixes.specs.Refusals.{Refuses};
ghost use Rattle.phone_prefixes.specs.Tables.{IsTable, NoneBegins};
ghost use Rattle.phone_prefixes.specs.declared.fault.PrefixesError as error;
ghost use Rattle.phone_c_base.specs.Buffers.{IsTooLong, IsTooLongA, IsWritten, IsWrittenA};
ghost use Rattle.phone_c_base.specs.PrefixTables.{fault_number, IsLineRefusedAs};
ghost use Rattle.phone_c_base.specs.PrefixTables.{IsTextFor, IsTextOfLongest};

use crate::buffer::give;
use crate::shared::Owner;
use crate::status::{
    LINE_EMPTY, LINE_NO_PREFIX, LINE_NO_TAB, LINE_NOT_UTF8, LINE_TWICE, MEMORY, NO_PREFIX,
    NOT_UTF8, OK, TOO_SMALL,
};
use phone_prefixes::{LineFault, Prefixes, PrefixesError};
use std::alloc::{AllocError, Global};

/// What is wrong with a line, by its number.
fn fault_number(what: LineFault) -> u32
    ensures { result ≡ fault_number what }
{
    match what {
        LineFault::Empty => LINE_EMPTY,
        LineFault::NoTab => LINE_NO_TAB,
        LineFault::NoPrefix => LINE_NO_PREFIX,
        LineFault::NotUtf8 => LINE_NOT_UTF8,
        LineFault::PrefixTwice => LINE_TWICE,
    }
}

/// The table that a text is. Refused as `Prefixes::of` refuses it.
fn read_table(alloc: Global, text: &[u8]) -> Result<Prefixes, PrefixesError>
    ensures table { IfOk result (IsTable text.now) }
    ensures refused { IfErr result (Refuses text.now) }
{
    match Vec::from_slice(alloc, text) {
        Ok(bytes) => Prefixes::of(alloc, bytes),
        Err(_) => Err(PrefixesError::Memory),
    }
}

/// The table that a text is, as it stands behind a handle; or the status of the refusal, and the
/// number of the line, 0 where none is refused.
pub fn open_table(alloc: Global, text: &[u8]) -> Result<Box<Owner<Prefixes>>, (u32, usize)>
    ensures opened { IfOk result (λ owner. IsTable text.now owner.value) }
    ensures refused { IfErr result (λ e. ((e.0 ≡ MEMORY) × (e.1 ≡ 0)) ⊎
        IsLineRefusedAs text.now e.1 e.0) }
{
    match read_table(alloc, text) {
        Ok(prefixes) => match owned(alloc, prefixes) {
            Ok(owner) => Ok(owner),
            Err(_) => Err((MEMORY, 0)),
        },
        Err(PrefixesError::Line(line, what)) => Err((fault_number(what), line)),
        Err(_) => Err((MEMORY, 0)),
    }
}

/// The only owner of a table, in a box. Refused only for memory.
fn owned(alloc: Global, prefixes: Prefixes) -> Result<Box<Owner<Prefixes>>, AllocError>
    ensures { IfOk result (λ owner. owner.value ≡ prefixes) }
{
    Owner::of(alloc, prefixes)?.boxed(alloc)
}

/// Writes the text of an entry to the front of a buffer, its length, and that of the prefix; only
/// the length of the text where the buffer is too short.
fn give_entry(
    prefix: &str,
    text: &str,
    out: &mut [u8],
    wrote: &mut usize,
    prefix_len: &mut usize,
) -> u32
    ensures written { result ≡ OK → IsWritten text.now out.old out.new wrote.new }
    ensures prefix { result ≡ OK → prefix_len.new ≡ length prefix.now }
    ensures too_small { result ≡ TOO_SMALL → IsTooLong text.now out.old out.new wrote.new }
    ensures status { (result ≡ OK) ⊎ (result ≡ TOO_SMALL) }
    ensures no_prefix { ¬ (result ≡ OK) → prefix_len.new ≡ prefix_len.old }
{
    let status = give(text.as_bytes(), out, wrote);
    if status == OK {
        *prefix_len = prefix.len();
    }
    status
}

/// Looks up digits in a table.
pub fn longest(
    prefixes: &Prefixes,
    digits: &[u8],
    out: &mut [u8],
    wrote: &mut usize,
    prefix_len: &mut usize,
) -> u32
    ensures written { result ≡ OK → IsWrittenA (λ text. IsTextOfLongest prefixes.now digits.now text
        prefix_len.new) out.old out.new wrote.new }
    ensures too_small { result ≡ TOO_SMALL →
        IsTooLongA (IsTextFor prefixes.now digits.now) out.old out.new wrote.new }
    ensures not_utf8 { (result ≡ NOT_UTF8) ↔ ¬ (IsUtf8 digits.now) }
    ensures none { ¬ (result ≡ NOT_UTF8) →
        (result ≡ NO_PREFIX) ↔ NoneBegins prefixes.now digits.now }
    ensures status { ¬ (result ≡ OK) → ¬ (result ≡ TOO_SMALL) → ¬ (result ≡ NOT_UTF8) →
        result ≡ NO_PREFIX }
    ensures untouched { ¬ (result ≡ OK) → out.new ≡ out.old }
    ensures no_prefix { ¬ (result ≡ OK) → prefix_len.new ≡ prefix_len.old }
    ensures no_length { ¬ (result ≡ OK) → ¬ (result ≡ TOO_SMALL) → wrote.new ≡ 0 }
{
    *wrote = 0;
    let Ok(digits) = std::str::from_utf8(digits) else {
        return NOT_UTF8;
    };
    match prefixes.longest(digits) {
        Some((prefix, text)) => give_entry(prefix, text, out, wrote, prefix_len),
        None => NO_PREFIX,
    }
}
