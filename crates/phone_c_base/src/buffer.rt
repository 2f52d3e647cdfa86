//! An answer that goes into a buffer of the caller's.
ghost use Rattle.std.specs.Prelude.{◌≡◌, ◌⊎◌, ◌+◌, ◌≤◌, ◌++◌, drop, length, take};
ghost use Rattle.phone_c_base.specs.Buffers.{IsTooLong, IsWritten};

use crate::status::{OK, TOO_SMALL};

/// Writes an answer to the front of a buffer, and its length to `wrote`; only the length where the
/// buffer is too short.
pub fn give<T: Copy>(answer: &[T], out: &mut [T], wrote: &mut usize) -> u32
    ensures written { result ≡ OK → IsWritten answer.now out.old out.new wrote.new }
    ensures too_long { result ≡ TOO_SMALL → IsTooLong answer.now out.old out.new wrote.new }
    ensures status { (result ≡ OK) ⊎ (result ≡ TOO_SMALL) }
{
    *wrote = answer.len();
    if out.len() < answer.len() {
        return TOO_SMALL;
    }
    copy(answer, out, 0);
    OK
}

/// The same of a text in two parts.
pub fn give_two(first: &[u8], second: &[u8], out: &mut [u8], wrote: &mut usize) -> u32
    ensures written { result ≡ OK →
        IsWritten (first.now ++ second.now) out.old out.new wrote.new }
    ensures too_long { result ≡ TOO_SMALL →
        IsTooLong (first.now ++ second.now) out.old out.new wrote.new }
    ensures status { (result ≡ OK) ⊎ (result ≡ TOO_SMALL) }
{
    *wrote = first.len() + second.len();
    if out.len() < first.len() + second.len() {
        return TOO_SMALL;
    }
    copy(first, out, 0);
    copy(second, out, first.len());
    OK
}

/// Copies values to a place in others, which have room for them there.
fn copy<T: Copy>(from: &[T], to: &mut [T], at: usize)
    requires { at + length from.now ≤ length to.old }
    ensures { to.new ≡ take at to.old ++ from.now ++ drop (at + length from.now) to.old }
{
    // Most numbers have neither extension nor carrier: to look costs less than to copy nothing.
    if !from.is_empty() {
        to[at..at + from.len()].copy_from_slice(from);
    }
}
