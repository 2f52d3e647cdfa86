//! Bitmaps.
ghost use Rattle.std.specs.Prelude.{◌≡◌, ◌+◌, ◌<◌, ◌^◌, IfOk};
ghost use Rattle.phone_arrow.specs.Bits.{bitmap_of, byte_from, flag_at, is_set};

use std::alloc::{AllocError, Global};

/// Whether the flag at a place of a bitmap is set: eight flags stand in a byte, the first as its
/// lowest bit. In a bitmap without a byte each is set, in another none past its end.
pub fn is_set(bits: &[u8], place: usize) -> bool
    ensures { result ≡ is_set bits.now place }
{
    if bits.is_empty() {
        return true;
    }
    match bits.get(place / 8) {
        Some(byte) => (*byte >> (place % 8)) % 2 == 1,
        None => false,
    }
}

/// The bitmap of flags: eight in a byte, the first as its lowest bit; the last byte's bits behind
/// the last flag are 0. Refused only for memory.
#[tactic(auto, using(crate::proofs::BitLemmas::first_bytes_more))]
pub fn bitmap(alloc: Global, flags: &[bool]) -> Result<Vec<u8>, AllocError>
    ensures { IfOk result (λ v. v.items ≡ bitmap_of flags.now) }
{
    let mut bits = Vec::new(alloc);
    for k in 0..flags.len().div_ceil(8) {
        bits.push(byte_from(flags, 8 * k))?;
    }
    Ok(bits)
}

/// The byte of eight flags, from this place on.
fn byte_from(flags: &[bool], at: usize) -> u8
    requires { at + 8 < 2 ^ 64 }
    ensures { result ≡ byte_from flags.now at }
{
    flag_at(flags, at)
        + 2 * flag_at(flags, at + 1)
        + 4 * flag_at(flags, at + 2)
        + 8 * flag_at(flags, at + 3)
        + 16 * flag_at(flags, at + 4)
        + 32 * flag_at(flags, at + 5)
        + 64 * flag_at(flags, at + 6)
        + 128 * flag_at(flags, at + 7)
}

/// The flag at a place, by its number; 0 past the last.
fn flag_at(flags: &[bool], at: usize) -> u8
    ensures flag { result ≡ flag_at flags.now at }
    ensures small { result < 2 }
{
    match flags.get(at) {
        Some(true) => 1,
        _ => 0,
    }
}
