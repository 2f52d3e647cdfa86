//! What a database tells of a region that is given by its id.
ghost use Rattle.std.specs.Prelude.{◌≡◌, ◌⊎◌, ◌↔◌, None};
ghost use Rattle.phone_values.specs.Ids.{id_of};
ghost use Rattle.phone_c_base.specs.Buffers.{IsTooLong, IsTooLongA, IsWritten, IsWrittenA};
ghost use Rattle.phone_c_questions.specs.Regions.{AreKindsOf, AreRegionFacts, HasNoTerritory};
ghost use Rattle.phone_c_questions.specs.Regions.{IsPrefixOf, prefix_of, region_facts};

use crate::plain::give_kinds;
use phone_c_base::buffer::give;
use phone_c_base::hint::id_of;
use phone_c_base::number::or_empty;
use phone_c_base::short::flag;
use phone_c_base::status::{MEMORY, NO_REGION, NO_TERRITORY, OK, TOO_SMALL};
use phone_plans::Plans;
use phone_questions::{
    code_of_region, is_nanpa, is_portable, kinds_of_region, national_prefix, national_prefix_digits,
};
use phone_values::country::Id;

/// What is known of a region. Each but the code is 1, else 0.
#[repr(C)]
#[derive(Clone, Copy, Debug, PartialEq, Eq)]
pub struct RegionFacts {
    /// Its calling code, as 64 for New Zealand.
    pub code: u16,
    /// Whether it is of the North American Numbering Plan.
    pub is_nanpa: u8,
    /// Whether a mobile number is kept when the carrier is changed.
    pub is_portable: u8,
}

/// What is known of a region that has this calling code.
fn region_facts(database: &Plans, region: Id, code: u16) -> RegionFacts
    ensures { result ≡ region_facts database.now region code }
{
    RegionFacts {
        code,
        is_nanpa: flag(is_nanpa(database, region)),
        is_portable: flag(is_portable(database, region)),
    }
}

/// What is known of a region.
pub fn about_region(database: &Plans, region: &[u8], facts: &mut RegionFacts) -> u32
    ensures told { result ≡ OK → AreRegionFacts database.now region.now facts.new }
    ensures no_region { (result ≡ NO_REGION) ↔ (id_of region.now ≡ None) }
    ensures no_territory { (result ≡ NO_TERRITORY) ↔ HasNoTerritory database.now region.now }
    ensures status { (result ≡ OK) ⊎ (result ≡ NO_REGION) ⊎ (result ≡ NO_TERRITORY) }
    ensures untouched { ¬ (result ≡ OK) → facts.new ≡ facts.old }
{
    let Some(region) = id_of(region) else {
        return NO_REGION;
    };
    match code_of_region(database, region) {
        Some(code) => {
            *facts = region_facts(database, region, code);
            OK
        }
        None => NO_TERRITORY,
    }
}

/// The national prefix of a region, in a buffer; no byte where it has none.
pub fn prefix(
    database: &Plans,
    region: &[u8],
    only_digits: u8,
    out: &mut [u8],
    wrote: &mut usize,
) -> u32
    ensures written { result ≡ OK →
        IsWrittenA (IsPrefixOf database.now region.now only_digits) out.old out.new wrote.new }
    ensures too_small { result ≡ TOO_SMALL →
        IsTooLongA (IsPrefixOf database.now region.now only_digits) out.old out.new wrote.new }
    ensures no_region { (result ≡ NO_REGION) ↔ (id_of region.now ≡ None) }
    ensures other { ¬ (result ≡ OK) → ¬ (result ≡ TOO_SMALL) → ¬ (result ≡ NO_REGION) →
        result ≡ MEMORY }
    ensures untouched { ¬ (result ≡ OK) → out.new ≡ out.old }
    ensures no_length { ¬ (result ≡ OK) → ¬ (result ≡ TOO_SMALL) → wrote.new ≡ 0 }
{
    *wrote = 0;
    let Some(region) = id_of(region) else {
        return NO_REGION;
    };
    if only_digits == 0 {
        give(
            or_empty(national_prefix(database, region)).as_bytes(),
            out,
            wrote,
        )
    } else {
        give_digits(database, region, out, wrote)
    }
}

/// The digits of a region's national prefix, in a buffer.
fn give_digits(database: &Plans, region: Id, out: &mut [u8], wrote: &mut usize) -> u32
    ensures written { result ≡ OK →
        IsWritten (prefix_of database.now region 1) out.old out.new wrote.new }
    ensures too_small { result ≡ TOO_SMALL →
        IsTooLong (prefix_of database.now region 1) out.old out.new wrote.new }
    ensures other { ¬ (result ≡ OK) → ¬ (result ≡ TOO_SMALL) → result ≡ MEMORY }
    ensures untouched { ¬ (result ≡ OK) → out.new ≡ out.old }
    ensures no_length { ¬ (result ≡ OK) → ¬ (result ≡ TOO_SMALL) → wrote.new ≡ 0 }
{
    *wrote = 0;
    match national_prefix_digits(database, region) {
        Ok(Some(digits)) => give(digits.as_bytes(), out, wrote),
        Ok(None) => give(b"", out, wrote),
        Err(_) => MEMORY,
    }
}

/// The kinds of number that a region has, by their numbers, in a buffer.
pub fn region_kinds(database: &Plans, region: &[u8], out: &mut [u32], wrote: &mut usize) -> u32
    ensures written { result ≡ OK →
        IsWrittenA (AreKindsOf database.now region.now) out.old out.new wrote.new }
    ensures too_small { result ≡ TOO_SMALL →
        IsTooLongA (AreKindsOf database.now region.now) out.old out.new wrote.new }
    ensures no_region { (result ≡ NO_REGION) ↔ (id_of region.now ≡ None) }
    ensures other { ¬ (result ≡ OK) → ¬ (result ≡ TOO_SMALL) → ¬ (result ≡ NO_REGION) →
        result ≡ MEMORY }
    ensures untouched { ¬ (result ≡ OK) → out.new ≡ out.old }
    ensures no_length { ¬ (result ≡ OK) → ¬ (result ≡ TOO_SMALL) → wrote.new ≡ 0 }
{
    *wrote = 0;
    let Some(region) = id_of(region) else {
        return NO_REGION;
    };
    match kinds_of_region(database, region) {
        Ok(kinds) => give_kinds(database.allocator(), kinds.as_slice(), out, wrote),
        Err(_) => MEMORY,
    }
}
