//! The text of a number by layouts that a second table has.
ghost use Rattle.std.specs.Prelude.{◌≡◌, ◌<◌, ◌↔◌};
ghost use Rattle.phone_c_base.specs.Buffers.{IsTooLongA, IsWrittenA};
ghost use Rattle.phone_c_base.specs.Numbers.{AreNoNumber};
ghost use Rattle.phone_c_questions.specs.Layouts.{IsTextBy, layouts_of};

use crate::modes::mode_of;
use phone_c_base::buffer::give;
use phone_c_base::number::{Number, to_phone_number};
use phone_c_base::status::{BAD_NUMBER, MEMORY, NO_MODE, OK, TOO_SMALL};
use phone_further::text_by_layouts;
use phone_plans::{Format, Plans};

/// The id of the record that has the layouts.
const LAYOUTS_ID: &str = "001";

/// The layouts of a table: those of national text of its record `001`.
fn layouts_of(own: &Plans) -> &[Format]
    ensures { result.now ≡ layouts_of own.entry.now }
{
    match own.by_id(LAYOUTS_ID) {
        Some(territory) => territory.formats(),
        None => &[],
    }
}

/// The text of a number in a mode by the layouts of a second table, in a buffer.
pub fn by_layouts(
    database: &Plans,
    own: &Plans,
    mode: u32,
    number: &Number,
    bytes: &[u8],
    out: &mut [u8],
    wrote: &mut usize,
) -> u32
    ensures written { result ≡ OK → IsWrittenA
        (IsTextBy database.now own.now mode number.now bytes.now) out.old out.new wrote.new }
    ensures too_small { result ≡ TOO_SMALL → IsTooLongA
        (IsTextBy database.now own.now mode number.now bytes.now) out.old out.new wrote.new }
    ensures no_mode { (result ≡ NO_MODE) ↔ (3 < mode) }
    ensures bad { (result ≡ BAD_NUMBER) ↔
        (¬ (3 < mode) × AreNoNumber number.now bytes.now) }
    ensures other { ¬ (result ≡ OK) → ¬ (result ≡ TOO_SMALL) → ¬ (result ≡ NO_MODE) →
        ¬ (result ≡ BAD_NUMBER) → result ≡ MEMORY }
    ensures untouched { ¬ (result ≡ OK) → out.new ≡ out.old }
    ensures no_length { ¬ (result ≡ OK) → ¬ (result ≡ TOO_SMALL) → wrote.new ≡ 0 }
{
    *wrote = 0;
    let Some(mode) = mode_of(mode) else {
        return NO_MODE;
    };
    let number = match to_phone_number(database.allocator(), number, bytes) {
        Ok(number) => number,
        Err(status) => return status,
    };
    match text_by_layouts(database, mode, layouts_of(own), &number) {
        Ok(text) => give(text.as_bytes(), out, wrote),
        Err(_) => MEMORY,
    }
}
