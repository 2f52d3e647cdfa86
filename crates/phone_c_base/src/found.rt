//! Where the numbers of a running text stand, in a buffer.
ghost use Rattle.std.specs.Prelude.{◌≡◌, ◌↔◌, ◌<◌, IfOk, IfNone, IfSome, IsUtf8};
ghost use Rattle.phone_c_base.specs.Buffers.{IsTooLongA, IsWrittenA};
ghost use Rattle.phone_c_base.specs.Found.{ArePlaces, leniency_number, places_of};

use crate::buffer::give;
use crate::status::{MEMORY, NOT_UTF8, OK, TOO_SMALL};
use phone_engine::Engine;
use phone_find::{Found, Leniency, find_numbers_with};
use phonenumber::PhoneNumber;
use std::alloc::{AllocError, Global};

/// Where a number stands in a text.
#[repr(C)]
#[derive(Clone, Copy, Debug, PartialEq, Eq)]
pub struct Place {
    /// The place of its first byte.
    pub start: usize,
    /// The place behind its last byte.
    pub end: usize,
}

/// The leniency that has this number; none for others than these two.
pub fn leniency_of(number: u32) -> Option<Leniency>
    ensures found { IfSome result (λ l. number ≡ leniency_number l) }
    ensures none { IfNone result (1 < number) }
{
    match number {
        0 => Some(Leniency::Possible),
        1 => Some(Leniency::Valid),
        _ => None,
    }
}

/// Where numbers were found. Refused only for memory.
fn places_of(alloc: Global, all: &[Found<PhoneNumber>]) -> Result<Vec<Place>, AllocError>
    ensures { IfOk result (λ v. v.items ≡ places_of all.now) }
{
    let mut places = Vec::new(alloc);
    for found in all {
        places.push(Place {
            start: found.start,
            end: found.end,
        })?;
    }
    Ok(places)
}

/// Where the numbers of a text stand under a leniency. Refused only for memory.
fn places_in(engine: Engine<'_>, leniency: Leniency, text: &str) -> Result<Vec<Place>, AllocError>
    ensures { IfOk result (λ v. ArePlaces engine.entry.rules engine.entry.database.now
        engine.entry.hint leniency text.now v.items) }
{
    let all = find_numbers_with(engine, leniency, text)?;
    places_of(engine.database.allocator(), all.as_slice())
}

/// Where the numbers of a text stand under a leniency, in a buffer.
pub fn find(
    engine: Engine<'_>,
    leniency: Leniency,
    text: &[u8],
    out: &mut [Place],
    wrote: &mut usize,
) -> u32
    ensures written { result ≡ OK →
        IsWrittenA (ArePlaces engine.entry.rules engine.entry.database.now engine.entry.hint
        leniency text.now) out.old out.new wrote.new }
    ensures too_small { result ≡ TOO_SMALL →
        IsTooLongA (ArePlaces engine.entry.rules engine.entry.database.now engine.entry.hint
        leniency text.now) out.old out.new wrote.new }
    ensures not_utf8 { (result ≡ NOT_UTF8) ↔ ¬ (IsUtf8 text.now) }
    ensures other { ¬ (result ≡ OK) → ¬ (result ≡ TOO_SMALL) → ¬ (result ≡ NOT_UTF8) →
        result ≡ MEMORY }
    ensures untouched { ¬ (result ≡ OK) → out.new ≡ out.old }
    ensures no_length { ¬ (result ≡ OK) → ¬ (result ≡ TOO_SMALL) → wrote.new ≡ 0 }
{
    *wrote = 0;
    let Ok(text) = std::str::from_utf8(text) else {
        return NOT_UTF8;
    };
    match places_in(engine, leniency, text) {
        Ok(places) => give(places.as_slice(), out, wrote),
        Err(_) => MEMORY,
    }
}
