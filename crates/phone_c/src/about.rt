//! The calls that tell of a region, of a calling code, and of a number as libphonenumber's further
//! questions ask. They are answered by libphonenumber's rules, whatever the rules of the handle.
ghost use Rattle.std.specs.Prelude.{◌≡◌, ◌⊎◌, ◌↔◌, IsUtf8, None, Some, map};
ghost use Rattle.phone_values.specs.Ids.{id_of};
ghost use Rattle.phone_questions.specs.Kinds.{kinds_of_code, mobile_token};
ghost use Rattle.phone_questions.specs.Regions.{main_region};
ghost use Rattle.phone_c_base.specs.Answers.{kind_number};
ghost use Rattle.phone_c_base.specs.Buffers.{IsTooLong, IsTooLongA, IsWritten, IsWrittenA};
ghost use Rattle.phone_c_base.specs.Handles.{IsClosed, IsKept};
ghost use Rattle.phone_c_base.specs.Kinds.{kind_of};
ghost use Rattle.phone_c_base.specs.Numbers.{AreNone};
ghost use Rattle.phone_c_questions.specs.Numbers.{AreNumberFacts, IsGeographicalAs};
ghost use Rattle.phone_c_questions.specs.Numbers.{IsPossibilityAs, IsValidityFor};
ghost use Rattle.phone_c_questions.specs.Regions.{AreKindsOf, AreRegionFacts, HasNoTerritory};
ghost use Rattle.phone_c_questions.specs.Regions.{IsPrefixOf};
ghost use Rattle.phone_c_questions.specs.Truncation.{IsTruncated};

use phone_c_base::handle::{Handle, put, take};
use phone_c_base::number::Number;
use phone_c_base::status::{
    BAD_NUMBER, CLOSED, MEMORY, NO_KIND, NO_REGION, NO_TERRITORY, NOT_UTF8, OK, TOO_SMALL,
    UNKNOWN_CODE,
};
use phone_c_questions::codes;
use phone_c_questions::numbers::{
    NumberFacts, about_number, geography, possibility_of_kind, validity_for,
};
use phone_c_questions::regions::{RegionFacts, about_region, prefix, region_kinds};
use phone_c_questions::truncation::truncate;
use std::alloc::Global;

/// Tells what is known of a region that is given by its id, as `NZ`: its calling code, whether that
/// is 1, and whether a mobile number is kept there when the carrier is changed. It takes no memory.
///
/// `CLOSED` exactly where the handle is closed, else `NO_REGION` exactly where the region is no
/// region's id, else `NO_TERRITORY` exactly where the database has no territory of it. For each but
/// `OK` `facts` is as it was.
#[unsafe(no_mangle)]
pub extern "C" fn phone_about_region(
    alloc: Global,
    handle: &mut Handle,
    region: &[u8],
    facts: &mut RegionFacts,
) -> u32
    ensures told { result ≡ OK →
        AreRegionFacts handle.old.records region.now facts.new }
    ensures closed { (result ≡ CLOSED) ↔ IsClosed handle.old }
    ensures no_region { (result ≡ NO_REGION) ↔
        (¬ (IsClosed handle.old) × (id_of region.now ≡ None)) }
    ensures no_territory { (result ≡ NO_TERRITORY) ↔
        (¬ (IsClosed handle.old) × HasNoTerritory handle.old.records region.now) }
    ensures status { (result ≡ OK) ⊎ (result ≡ CLOSED) ⊎ (result ≡ NO_REGION) ⊎
        (result ≡ NO_TERRITORY) }
    ensures untouched { ¬ (result ≡ OK) → facts.new ≡ facts.old }
    ensures kept { IsKept handle.old handle.new }
{
    let Some(opened) = take(alloc, handle) else {
        return CLOSED;
    };
    let status = about_region(opened.database(), region, facts);
    put(alloc, handle, opened);
    status
}

/// Writes the national prefix of a region, which is dialled there before a national number; no byte
/// where it has none, or the database has no territory of it. A tilde in it means to wait for a
/// tone; `only_digits`, where it isn't 0, leaves tildes out.
///
/// `OK`, `TOO_SMALL`, `CLOSED` and `MEMORY` as `phone_report` has them; else `NO_REGION` exactly
/// where the region is no region's id.
#[unsafe(no_mangle)]
pub extern "C" fn phone_national_prefix(
    alloc: Global,
    handle: &mut Handle,
    region: &[u8],
    only_digits: u8,
    out: &mut [u8],
    wrote: &mut usize,
) -> u32
    ensures written { result ≡ OK → IsWrittenA
        (IsPrefixOf handle.old.records region.now only_digits) out.old out.new wrote.new }
    ensures too_small { result ≡ TOO_SMALL → IsTooLongA
        (IsPrefixOf handle.old.records region.now only_digits) out.old out.new wrote.new }
    ensures closed { (result ≡ CLOSED) ↔ IsClosed handle.old }
    ensures no_region { (result ≡ NO_REGION) ↔
        (¬ (IsClosed handle.old) × (id_of region.now ≡ None)) }
    ensures other { ¬ (result ≡ OK) → ¬ (result ≡ TOO_SMALL) → ¬ (result ≡ CLOSED) →
        ¬ (result ≡ NO_REGION) → result ≡ MEMORY }
    ensures untouched { ¬ (result ≡ OK) → out.new ≡ out.old }
    ensures no_length { ¬ (result ≡ OK) → ¬ (result ≡ TOO_SMALL) → wrote.new ≡ 0 }
    ensures kept { IsKept handle.old handle.new }
{
    *wrote = 0;
    let Some(opened) = take(alloc, handle) else {
        return CLOSED;
    };
    let status = prefix(opened.database(), region, only_digits, out, wrote);
    put(alloc, handle, opened);
    status
}

/// Writes the kinds of number that a region has, by the numbers by which `phone_kind` tells them,
/// in the order 0, 1, 3, 4, 5, 7, 6, 8, 9, 11; none where the database has no territory of it. The
/// room of `out` and `wrote` are counts of kinds.
///
/// Its statuses are those of `phone_national_prefix`.
#[unsafe(no_mangle)]
pub extern "C" fn phone_region_kinds(
    alloc: Global,
    handle: &mut Handle,
    region: &[u8],
    out: &mut [u32],
    wrote: &mut usize,
) -> u32
    ensures written { result ≡ OK → IsWrittenA
        (AreKindsOf handle.old.records region.now) out.old out.new wrote.new }
    ensures too_small { result ≡ TOO_SMALL → IsTooLongA
        (AreKindsOf handle.old.records region.now) out.old out.new wrote.new }
    ensures closed { (result ≡ CLOSED) ↔ IsClosed handle.old }
    ensures no_region { (result ≡ NO_REGION) ↔
        (¬ (IsClosed handle.old) × (id_of region.now ≡ None)) }
    ensures other { ¬ (result ≡ OK) → ¬ (result ≡ TOO_SMALL) → ¬ (result ≡ CLOSED) →
        ¬ (result ≡ NO_REGION) → result ≡ MEMORY }
    ensures untouched { ¬ (result ≡ OK) → out.new ≡ out.old }
    ensures no_length { ¬ (result ≡ OK) → ¬ (result ≡ TOO_SMALL) → wrote.new ≡ 0 }
    ensures kept { IsKept handle.old handle.new }
{
    *wrote = 0;
    let Some(opened) = take(alloc, handle) else {
        return CLOSED;
    };
    let status = region_kinds(opened.database(), region, out, wrote);
    put(alloc, handle, opened);
    status
}

/// Writes the id of a calling code's main region, as `GB`; `001` for a code that serves no region.
///
/// `OK`, `TOO_SMALL` and `CLOSED` as `phone_report` has them; else `UNKNOWN_CODE` exactly where no
/// territory has the code. It takes no memory.
#[unsafe(no_mangle)]
pub extern "C" fn phone_main_region(
    alloc: Global,
    handle: &mut Handle,
    code: u16,
    out: &mut [u8],
    wrote: &mut usize,
) -> u32
    ensures written { result ≡ OK → IsWrittenA
        (λ id. main_region handle.old.records code ≡ Some id) out.old out.new wrote.new }
    ensures too_small { result ≡ TOO_SMALL → IsTooLongA
        (λ id. main_region handle.old.records code ≡ Some id) out.old out.new wrote.new }
    ensures closed { (result ≡ CLOSED) ↔ IsClosed handle.old }
    ensures unknown { (result ≡ UNKNOWN_CODE) ↔
        (¬ (IsClosed handle.old) × (main_region handle.old.records code ≡ None)) }
    ensures status { (result ≡ OK) ⊎ (result ≡ TOO_SMALL) ⊎ (result ≡ CLOSED) ⊎
        (result ≡ UNKNOWN_CODE) }
    ensures untouched { ¬ (result ≡ OK) → out.new ≡ out.old }
    ensures no_length { ¬ (result ≡ OK) → ¬ (result ≡ TOO_SMALL) → wrote.new ≡ 0 }
    ensures kept { IsKept handle.old handle.new }
{
    *wrote = 0;
    let Some(opened) = take(alloc, handle) else {
        return CLOSED;
    };
    let status = codes::main_region(opened.database(), code, out, wrote);
    put(alloc, handle, opened);
    status
}

/// Writes the kinds of number of a calling code that serves no region, as `phone_region_kinds`
/// writes those of a region; none for the code of a region, and where it isn't listed.
///
/// `OK`, `TOO_SMALL`, `CLOSED` and `MEMORY` as `phone_report` has them.
#[unsafe(no_mangle)]
pub extern "C" fn phone_code_kinds(
    alloc: Global,
    handle: &mut Handle,
    code: u16,
    out: &mut [u32],
    wrote: &mut usize,
) -> u32
    ensures written { result ≡ OK → IsWritten
        (map kind_number (kinds_of_code handle.old.records code)) out.old out.new wrote.new }
    ensures too_small { result ≡ TOO_SMALL → IsTooLong
        (map kind_number (kinds_of_code handle.old.records code)) out.old out.new wrote.new }
    ensures closed { (result ≡ CLOSED) ↔ IsClosed handle.old }
    ensures other { ¬ (result ≡ OK) → ¬ (result ≡ TOO_SMALL) → ¬ (result ≡ CLOSED) →
        result ≡ MEMORY }
    ensures untouched { ¬ (result ≡ OK) → out.new ≡ out.old }
    ensures no_length { ¬ (result ≡ OK) → ¬ (result ≡ TOO_SMALL) → wrote.new ≡ 0 }
    ensures kept { IsKept handle.old handle.new }
{
    *wrote = 0;
    let Some(opened) = take(alloc, handle) else {
        return CLOSED;
    };
    let status = codes::code_kinds(opened.database(), code, out, wrote);
    put(alloc, handle, opened);
    status
}

/// Writes what stands before the area code of a mobile number of a calling code: `9` for 54, no
/// byte for others. It needs no database and takes no memory. `OK` and `TOO_SMALL` as
/// `phone_report` has them.
#[unsafe(no_mangle)]
pub extern "C" fn phone_mobile_token(code: u16, out: &mut [u8], wrote: &mut usize) -> u32
    ensures written { result ≡ OK → IsWritten (mobile_token code) out.old out.new wrote.new }
    ensures too_small { result ≡ TOO_SMALL →
        IsTooLong (mobile_token code) out.old out.new wrote.new }
    ensures status { (result ≡ OK) ⊎ (result ≡ TOO_SMALL) }
{
    codes::mobile_token(code, out, wrote)
}

/// Tells what is known of a number that is given as plain numbers: how many of its digits are an
/// area code, and how many a destination code, whether it is of a place, and whether it can be
/// dialled from abroad, which is also said of a number that isn't valid. Its texts are not looked
/// at.
///
/// Its statuses are those of `phone_kind`. For each but `OK` `facts` is as it was.
#[unsafe(no_mangle)]
pub extern "C" fn phone_about_number(
    alloc: Global,
    handle: &mut Handle,
    number: &Number,
    facts: &mut NumberFacts,
) -> u32
    ensures told { result ≡ OK →
        AreNumberFacts handle.old.records number.now facts.new }
    ensures closed { (result ≡ CLOSED) ↔ IsClosed handle.old }
    ensures bad { (result ≡ BAD_NUMBER) ↔ (¬ (IsClosed handle.old) × AreNone number.now) }
    ensures other { ¬ (result ≡ OK) → ¬ (result ≡ CLOSED) → ¬ (result ≡ BAD_NUMBER) →
        result ≡ MEMORY }
    ensures untouched { ¬ (result ≡ OK) → facts.new ≡ facts.old }
    ensures kept { IsKept handle.old handle.new }
{
    let Some(opened) = take(alloc, handle) else {
        return CLOSED;
    };
    let status = about_number(opened.database(), number, facts);
    put(alloc, handle, opened);
    status
}

/// Tells whether a number that is given as plain numbers is valid for the territory of its calling
/// code that has this id, as `NZ`, or `001` of a code that serves no region: 1, else 0. So it is 0
/// where no territory of its code has the id.
///
/// `CLOSED` exactly where the handle is closed, else `NOT_UTF8` exactly where the id isn't UTF-8,
/// else `BAD_NUMBER` exactly where the plain numbers are no number's; `MEMORY`. For each but `OK`
/// `told` is as it was.
#[unsafe(no_mangle)]
pub extern "C" fn phone_is_valid_for(
    alloc: Global,
    handle: &mut Handle,
    id: &[u8],
    number: &Number,
    told: &mut u8,
) -> u32
    ensures told { result ≡ OK →
        IsValidityFor handle.old.records id.now number.now told.new }
    ensures closed { (result ≡ CLOSED) ↔ IsClosed handle.old }
    ensures not_utf8 { (result ≡ NOT_UTF8) ↔ (¬ (IsClosed handle.old) × ¬ (IsUtf8 id.now)) }
    ensures bad { (result ≡ BAD_NUMBER) ↔
        (¬ (IsClosed handle.old) × IsUtf8 id.now × AreNone number.now) }
    ensures other { ¬ (result ≡ OK) → ¬ (result ≡ CLOSED) → ¬ (result ≡ NOT_UTF8) →
        ¬ (result ≡ BAD_NUMBER) → result ≡ MEMORY }
    ensures untouched { ¬ (result ≡ OK) → told.new ≡ told.old }
    ensures kept { IsKept handle.old handle.new }
{
    let Some(opened) = take(alloc, handle) else {
        return CLOSED;
    };
    let status = validity_for(opened.database(), id, number, told);
    put(alloc, handle, opened);
    status
}

/// Tells what the count of a number's digits says of it as a number of a kind, by the numbers by
/// which `phone_possibility` tells it; the kind is given by its number, 16 being any.
///
/// `CLOSED` exactly where the handle is closed, else `NO_KIND` exactly where the kind is above 16,
/// else `BAD_NUMBER` exactly where the plain numbers are no number's; `MEMORY`. For each but `OK`
/// `told` is as it was.
#[unsafe(no_mangle)]
pub extern "C" fn phone_possibility_as(
    alloc: Global,
    handle: &mut Handle,
    kind: u32,
    number: &Number,
    told: &mut u32,
) -> u32
    ensures told { result ≡ OK →
        IsPossibilityAs handle.old.records kind number.now told.new }
    ensures closed { (result ≡ CLOSED) ↔ IsClosed handle.old }
    ensures no_kind { (result ≡ NO_KIND) ↔
        (¬ (IsClosed handle.old) × (kind_of kind ≡ None)) }
    ensures bad { (result ≡ BAD_NUMBER) ↔
        (¬ (IsClosed handle.old) × ¬ (kind_of kind ≡ None) × AreNone number.now) }
    ensures other { ¬ (result ≡ OK) → ¬ (result ≡ CLOSED) → ¬ (result ≡ NO_KIND) →
        ¬ (result ≡ BAD_NUMBER) → result ≡ MEMORY }
    ensures untouched { ¬ (result ≡ OK) → told.new ≡ told.old }
    ensures kept { IsKept handle.old handle.new }
{
    let Some(opened) = take(alloc, handle) else {
        return CLOSED;
    };
    let status = possibility_of_kind(opened.database(), kind, number, told);
    put(alloc, handle, opened);
    status
}

/// Tells whether numbers of a kind are of a place under a calling code: 1, else 0. It needs no
/// database and takes no memory. `NO_KIND` exactly where the kind is above 16; then `told` is as it
/// was; else `OK`.
#[unsafe(no_mangle)]
pub extern "C" fn phone_is_geographical(kind: u32, code: u16, told: &mut u8) -> u32
    ensures told { result ≡ OK → IsGeographicalAs kind code told.new }
    ensures no_kind { (result ≡ NO_KIND) ↔ (kind_of kind ≡ None) }
    ensures status { (result ≡ OK) ⊎ (result ≡ NO_KIND) }
    ensures untouched { ¬ (result ≡ OK) → told.new ≡ told.old }
{
    geography(kind, code, told)
}

/// Cuts digits off the end of a number that is given as plain numbers until it is valid, and tells
/// whether it is: 1, and `number` is what is left; else 0, and it is as it was. A valid number
/// stays whole. The number's texts stay at their places.
///
/// Its statuses are those of `phone_kind`. For each but `OK` `number` and `told` are as they were.
#[unsafe(no_mangle)]
pub extern "C" fn phone_truncate(
    alloc: Global,
    handle: &mut Handle,
    number: &mut Number,
    told: &mut u8,
) -> u32
    ensures told { result ≡ OK →
        IsTruncated handle.old.records number.old number.new told.new }
    ensures closed { (result ≡ CLOSED) ↔ IsClosed handle.old }
    ensures bad { (result ≡ BAD_NUMBER) ↔ (¬ (IsClosed handle.old) × AreNone number.old) }
    ensures other { ¬ (result ≡ OK) → ¬ (result ≡ CLOSED) → ¬ (result ≡ BAD_NUMBER) →
        result ≡ MEMORY }
    ensures untouched { ¬ (result ≡ OK) →
        (number.new ≡ number.old) × (told.new ≡ told.old) }
    ensures kept { IsKept handle.old handle.new }
{
    let Some(opened) = take(alloc, handle) else {
        return CLOSED;
    };
    let status = truncate(opened.database(), number, told);
    put(alloc, handle, opened);
    status
}
