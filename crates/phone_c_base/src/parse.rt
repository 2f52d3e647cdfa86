//! The reading of a text as plain numbers, whose texts go into a buffer.
ghost use Rattle.std.specs.Prelude.{◌≡◌, ◌⊎◌, ◌↔◌, IsUtf8};
ghost use Rattle.phone_c_base.specs.Buffers.{IsTooLong, IsWritten};
ghost use Rattle.phone_c_base.specs.Numbers.{IsNumber, texts_of};
ghost use Rattle.phone_c_base.specs.Parses.{IsParsed, IsParsedTooLong, IsRefusedAs};

use crate::buffer::give_two;
use crate::number::{Number, carrier_of, extension_of, number_of, or_empty, part_of};
use crate::status::{MEMORY, NOT_UTF8, OK, TOO_SMALL};
use phone_engine::Engine;
use phonenumber::PhoneNumber;

/// The plain numbers of a number, its texts at the front of a buffer, and their length; only the
/// length where the buffer is too short.
pub fn write_number(
    read: &PhoneNumber,
    number: &mut Number,
    out: &mut [u8],
    wrote: &mut usize,
) -> u32
    ensures number { result ≡ OK → IsNumber number.new out.new read.now }
    ensures written { result ≡ OK → IsWritten (texts_of read.now) out.old out.new wrote.new }
    ensures too_long { result ≡ TOO_SMALL →
        IsTooLong (texts_of read.now) out.old out.new wrote.new }
    ensures kept { ¬ (result ≡ OK) → number.new ≡ number.old }
    ensures status { (result ≡ OK) ⊎ (result ≡ TOO_SMALL) }
{
    let extension = extension_of(read);
    let carrier = carrier_of(read);
    let front = or_empty(extension);
    let back = or_empty(carrier);
    let status = give_two(front.as_bytes(), back.as_bytes(), out, wrote);
    if status == OK {
        *number = number_of(read, part_of(extension, 0), part_of(carrier, front.len()));
    }
    status
}

/// Reads a text into plain numbers and a buffer.
pub fn parse(
    engine: Engine<'_>,
    text: &[u8],
    number: &mut Number,
    out: &mut [u8],
    wrote: &mut usize,
) -> u32
    ensures read { result ≡ OK → IsParsed engine.entry.rules engine.entry.database.now
        engine.entry.hint text.now number.new out.old out.new wrote.new }
    ensures too_small { result ≡ TOO_SMALL → IsParsedTooLong engine.entry.rules
        engine.entry.database.now engine.entry.hint text.now out.old out.new wrote.new }
    ensures not_utf8 { (result ≡ NOT_UTF8) ↔ ¬ (IsUtf8 text.now) }
    ensures refused { ¬ (result ≡ OK) → ¬ (result ≡ TOO_SMALL) → ¬ (result ≡ NOT_UTF8) →
        (result ≡ MEMORY) ⊎ IsRefusedAs engine.entry.rules engine.entry.database.now
        engine.entry.hint text.now result }
    ensures untouched { ¬ (result ≡ OK) → out.new ≡ out.old }
    ensures kept { ¬ (result ≡ OK) → number.new ≡ number.old }
    ensures no_length { ¬ (result ≡ OK) → ¬ (result ≡ TOO_SMALL) → wrote.new ≡ 0 }
{
    *wrote = 0;
    let Ok(text) = std::str::from_utf8(text) else {
        return NOT_UTF8;
    };
    match engine.parse(text) {
        Ok(read) => write_number(&read, number, out, wrote),
        Err(error) => u32::from(error.number()),
    }
}
