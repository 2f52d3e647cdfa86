//! The part of a text in which a number may stand.
ghost use Rattle.std.specs.Prelude.{◌≡◌, ◌⊎◌, ◌↔◌, IsUtf8};
ghost use Rattle.phone_c_base.specs.Buffers.{IsTooLongA, IsWrittenA};
ghost use Rattle.phone_c_questions.specs.Letters.{IsExtracted};

use phone_c_base::buffer::give;
use phone_c_base::status::{NOT_UTF8, OK, TOO_SMALL};
use phone_parts::helper::extract;

/// The part of a text in which a number may stand, or nothing.
fn part_of(text: &str) -> &str
    ensures { IsExtracted text.entry.now result.now }
{
    match extract(text) {
        Some(core) => core,
        None => "",
    }
}

/// The part of a text in which a number may stand, or nothing, in a buffer. Takes no memory.
pub fn extracted(text: &[u8], out: &mut [u8], wrote: &mut usize) -> u32
    ensures written { result ≡ OK →
        IsWrittenA (IsExtracted text.now) out.old out.new wrote.new }
    ensures too_small { result ≡ TOO_SMALL →
        IsTooLongA (IsExtracted text.now) out.old out.new wrote.new }
    ensures not_utf8 { (result ≡ NOT_UTF8) ↔ ¬ (IsUtf8 text.now) }
    ensures status { (result ≡ OK) ⊎ (result ≡ TOO_SMALL) ⊎ (result ≡ NOT_UTF8) }
    ensures untouched { ¬ (result ≡ OK) → out.new ≡ out.old }
    ensures no_length { result ≡ NOT_UTF8 → wrote.new ≡ 0 }
{
    *wrote = 0;
    let Ok(text) = std::str::from_utf8(text) else {
        return NOT_UTF8;
    };
    give(part_of(text).as_bytes(), out, wrote)
}
