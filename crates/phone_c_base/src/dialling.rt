//! How a number that is given as plain numbers is dialled from a region.
ghost use Rattle.std.specs.Prelude.{◌≡◌, ◌↔◌, None};
ghost use Rattle.phone_values.specs.Ids.{id_of};
ghost use Rattle.phone_engine.specs.declared.dialled.DialError.TheVariants as dial;
ghost use Rattle.phone_c_base.specs.Buffers.{IsTooLongA, IsWrittenA};
ghost use Rattle.phone_c_base.specs.Dialled.{IsDialled, IsUndialled};
ghost use Rattle.phone_c_base.specs.Numbers.{AreNoNumber};

use crate::buffer::give;
use crate::hint::id_of;
use crate::number::{Number, to_phone_number};
use crate::status::{BAD_NUMBER, MEMORY, NO_REGION, NO_TERRITORY, OK, TOO_SMALL, UNKNOWN_CODE};
use phone_engine::dialled::{DialError, dialled_from};
use phone_plans::Plans;

/// How a number is dialled from a region, in a buffer.
pub fn dialled(
    database: &Plans,
    region: &[u8],
    number: &Number,
    bytes: &[u8],
    out: &mut [u8],
    wrote: &mut usize,
) -> u32
    ensures written { result ≡ OK →
        IsWrittenA (IsDialled database.now region.now number.now bytes.now)
        out.old out.new wrote.new }
    ensures too_small { result ≡ TOO_SMALL →
        IsTooLongA (IsDialled database.now region.now number.now bytes.now)
        out.old out.new wrote.new }
    ensures no_region { (result ≡ NO_REGION) ↔ (id_of region.now ≡ None) }
    ensures bad { (result ≡ BAD_NUMBER) ↔
        (¬ (id_of region.now ≡ None) × AreNoNumber number.now bytes.now) }
    ensures no_territory { result ≡ NO_TERRITORY →
        IsUndialled database.now region.now number.now bytes.now dial.UnknownRegion }
    ensures unknown { result ≡ UNKNOWN_CODE →
        IsUndialled database.now region.now number.now bytes.now dial.UnknownCode }
    ensures other { ¬ (result ≡ OK) → ¬ (result ≡ TOO_SMALL) → ¬ (result ≡ NO_REGION) →
        ¬ (result ≡ BAD_NUMBER) → ¬ (result ≡ NO_TERRITORY) → ¬ (result ≡ UNKNOWN_CODE) →
        result ≡ MEMORY }
    ensures untouched { ¬ (result ≡ OK) → out.new ≡ out.old }
    ensures no_length { ¬ (result ≡ OK) → ¬ (result ≡ TOO_SMALL) → wrote.new ≡ 0 }
{
    *wrote = 0;
    let Some(region) = id_of(region) else {
        return NO_REGION;
    };
    let number = match to_phone_number(database.allocator(), number, bytes) {
        Ok(number) => number,
        Err(status) => return status,
    };
    match dialled_from(database, region, &number) {
        Ok(text) => give(text.as_bytes(), out, wrote),
        Err(DialError::UnknownRegion) => NO_TERRITORY,
        Err(DialError::UnknownCode) => UNKNOWN_CODE,
        Err(DialError::Memory) => MEMORY,
    }
}
