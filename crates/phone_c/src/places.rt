//! The calls that tell where a number is: by libphonenumber's rules, whatever the rules of the
//! handle.
ghost use Rattle.std.specs.Prelude.{◌≡◌, ◌⊎◌, ◌↔◌, IsUtf8};
ghost use Rattle.phone_c_base.specs.Buffers.{IsTooLongA, IsWrittenA};
ghost use Rattle.phone_c_base.specs.Handles.{IsClosed, IsKept};
ghost use Rattle.phone_c_base.specs.Numbers.{AreNoNumber};
ghost use Rattle.phone_c_base.specs.PrefixTables.{IsTableClosed, IsTableKept};
ghost use Rattle.phone_c.specs.Atlases.{AreTextsOf, IsAtlasClosed, IsAtlasKept};
ghost use Rattle.phone_c.specs.Atlases.{IsAtlasOpenOf, IsAtlasRefused};
ghost use Rattle.phone_c.specs.Places.{AreZonesOf, IsCarrierOf, IsCountryOf};
ghost use Rattle.phone_c.specs.Places.{IsDescriptionOf, IsSafeCarrierOf};

pub mod carriers;
pub mod country;
pub mod descriptions;
pub mod handle;
pub mod opening;
pub mod owned;
pub mod told;
pub mod zones;

use crate::places::carriers::{Carrier, SafeCarrier};
use crate::places::country::Country;
use crate::places::descriptions::description;
use crate::places::handle::{AtlasHandle, close_atlas, put_atlas};
use crate::places::opening::open_atlas;
use crate::places::told::told;
use crate::places::zones::time_zones;
use phone_c_base::handle::{Handle, put, take};
use phone_c_base::number::Number;
use phone_c_base::status::{BAD_NUMBER, CLOSED, MEMORY, NOT_UTF8, OK, TOO_SMALL};
use phone_c_base::table::PrefixTable;
use std::alloc::Global;

/// Opens an atlas: the tables of texts that a locale asks, as `de`, `zh_TW` or `sr-Latn-RS`. The
/// tables of prefixes are those of the locale's language, of areas and of carriers, each with that
/// of English, which is asked behind it unless the language is Chinese, Japanese or Korean; they
/// are four handles, closed where there is no table, and stay as they were: the atlas takes the
/// memory of a few words for each, and copies none. The names are lines of a region's id, a tab and
/// its name, in UTF-8; of several names of a region the first counts, so the names of a locale
/// may stand before those of its language. What the handle had open is closed first, whatever
/// comes.
///
/// `OK`: the atlas is open. `NOT_UTF8` only where the locale or the names aren't UTF-8.
/// `LINE_NO_TAB` only where a line of the names has no tab: `line` is the number of the first,
/// counted from 1, and is 0 for all other statuses. `MEMORY`: memory was refused. For each but `OK`
/// the handle is closed.
#[unsafe(no_mangle)]
pub extern "C" fn phone_atlas_open(
    alloc: Global,
    locale: &[u8],
    areas: &mut PrefixTable,
    english_areas: &mut PrefixTable,
    carriers: &mut PrefixTable,
    english_carriers: &mut PrefixTable,
    names: &[u8],
    atlas: &mut AtlasHandle,
    line: &mut usize,
) -> u32
    ensures opened { result ≡ OK → IsAtlasOpenOf locale.now names.now atlas.new }
    ensures areas { result ≡ OK → AreTextsOf areas.old english_areas.old atlas.new.held.areas }
    ensures carriers { result ≡ OK →
        AreTextsOf carriers.old english_carriers.old atlas.new.held.carriers }
    ensures refused { ¬ (result ≡ OK) → IsAtlasRefused locale.now names.now line.new result }
    ensures no_line { result ≡ OK → line.new ≡ 0 }
    ensures closed { ¬ (result ≡ OK) → IsAtlasClosed atlas.new }
    ensures areas_kept { IsTableKept areas.old areas.new }
    ensures english_areas_kept { IsTableKept english_areas.old english_areas.new }
    ensures carriers_kept { IsTableKept carriers.old carriers.new }
    ensures english_carriers_kept { IsTableKept english_carriers.old english_carriers.new }
{
    *line = 0;
    close_atlas(alloc, atlas);
    match open_atlas(
        alloc,
        locale,
        areas,
        english_areas,
        carriers,
        english_carriers,
        names,
    ) {
        Ok(held) => {
            put_atlas(alloc, atlas, held);
            OK
        }
        Err((status, at)) => {
            *line = at;
            status
        }
    }
}

/// Closes the handle of an atlas; nothing where it is closed already. Tables of prefixes are freed
/// with the last of what stands on them.
#[unsafe(no_mangle)]
pub extern "C" fn phone_atlas_close(alloc: Global, atlas: &mut AtlasHandle)
    ensures { IsAtlasClosed atlas.new }
{
    close_atlas(alloc, atlas)
}

/// Writes the description of a number, which is given as `phone_format` takes it, for a user in a
/// region; where that has no byte, none is told. Where the number's kind is unknown it is empty;
/// where its kind is of no place it is the name of its country. Else, and of each number where
/// `as_it_stands` isn't 0: empty where the number has no region; the name of its region where the
/// user's is another, or is no region's id; else its area, and where none is known the name of its
/// country. Areas and names are the atlas's.
///
/// `OK`, `TOO_SMALL` and `MEMORY` as `phone_report` has them. `CLOSED` exactly where one of the
/// handles is closed, else `NOT_UTF8` exactly where the user's region isn't UTF-8, then
/// `BAD_NUMBER` exactly where plain numbers and bytes are no number.
#[unsafe(no_mangle)]
#[tactic(auto, using(crate::proofs::KeptAtlas::kept))]
pub extern "C" fn phone_description(
    alloc: Global,
    handle: &mut Handle,
    atlas: &mut AtlasHandle,
    number: &Number,
    bytes: &[u8],
    user: &[u8],
    as_it_stands: u8,
    out: &mut [u8],
    wrote: &mut usize,
) -> u32
    ensures written { result ≡ OK → IsWrittenA
        (IsDescriptionOf handle.old.records atlas.old.held number.now bytes.now user.now
        as_it_stands)
        out.old out.new wrote.new }
    ensures too_small { result ≡ TOO_SMALL → IsTooLongA
        (IsDescriptionOf handle.old.records atlas.old.held number.now bytes.now user.now
        as_it_stands)
        out.old out.new wrote.new }
    ensures closed { (result ≡ CLOSED) ↔ (IsClosed handle.old ⊎ IsAtlasClosed atlas.old) }
    ensures not_utf8 { (result ≡ NOT_UTF8) ↔ (¬ (IsClosed handle.old) ×
        ¬ (IsAtlasClosed atlas.old) × ¬ (IsUtf8 user.now)) }
    ensures bad { (result ≡ BAD_NUMBER) ↔ (¬ (IsClosed handle.old) ×
        ¬ (IsAtlasClosed atlas.old) × IsUtf8 user.now × AreNoNumber number.now bytes.now) }
    ensures other { ¬ (result ≡ OK) → ¬ (result ≡ TOO_SMALL) → ¬ (result ≡ CLOSED) →
        ¬ (result ≡ NOT_UTF8) → ¬ (result ≡ BAD_NUMBER) → result ≡ MEMORY }
    ensures untouched { ¬ (result ≡ OK) → out.new ≡ out.old }
    ensures no_length { ¬ (result ≡ OK) → ¬ (result ≡ TOO_SMALL) → wrote.new ≡ 0 }
    ensures kept { IsKept handle.old handle.new }
    ensures atlas_kept { IsAtlasKept atlas.old atlas.new }
{
    *wrote = 0;
    let Some(opened) = take(alloc, handle) else {
        return CLOSED;
    };
    let status = description(
        alloc,
        opened.database(),
        atlas,
        number,
        bytes,
        user,
        as_it_stands,
        out,
        wrote,
    );
    put(alloc, handle, opened);
    status
}

/// Writes the name of the carrier to which a number's range was given first: empty where none is
/// known, and where the number's kind has no mobile carrier, unless `as_it_stands` isn't 0.
///
/// `OK`, `TOO_SMALL` and `MEMORY` as `phone_report` has them. `CLOSED` exactly where one of the
/// handles is closed, else `BAD_NUMBER` exactly where plain numbers and bytes are no number.
#[unsafe(no_mangle)]
#[tactic(auto, using(crate::proofs::KeptAtlas::kept))]
pub extern "C" fn phone_carrier(
    alloc: Global,
    handle: &mut Handle,
    atlas: &mut AtlasHandle,
    number: &Number,
    bytes: &[u8],
    as_it_stands: u8,
    out: &mut [u8],
    wrote: &mut usize,
) -> u32
    ensures written { result ≡ OK → IsWrittenA
        (IsCarrierOf handle.old.records atlas.old.held number.now bytes.now as_it_stands)
        out.old out.new wrote.new }
    ensures too_small { result ≡ TOO_SMALL → IsTooLongA
        (IsCarrierOf handle.old.records atlas.old.held number.now bytes.now as_it_stands)
        out.old out.new wrote.new }
    ensures closed { (result ≡ CLOSED) ↔ (IsClosed handle.old ⊎ IsAtlasClosed atlas.old) }
    ensures bad { (result ≡ BAD_NUMBER) ↔ (¬ (IsClosed handle.old) ×
        ¬ (IsAtlasClosed atlas.old) × AreNoNumber number.now bytes.now) }
    ensures other { ¬ (result ≡ OK) → ¬ (result ≡ TOO_SMALL) → ¬ (result ≡ CLOSED) →
        ¬ (result ≡ BAD_NUMBER) → result ≡ MEMORY }
    ensures untouched { ¬ (result ≡ OK) → out.new ≡ out.old }
    ensures no_length { ¬ (result ≡ OK) → ¬ (result ≡ TOO_SMALL) → wrote.new ≡ 0 }
    ensures kept { IsKept handle.old handle.new }
    ensures atlas_kept { IsAtlasKept atlas.old atlas.new }
{
    *wrote = 0;
    let Some(opened) = take(alloc, handle) else {
        return CLOSED;
    };
    let asked = Carrier { as_it_stands };
    let database = opened.database();
    let status = told(&asked, alloc, database, atlas, number, bytes, out, wrote);
    put(alloc, handle, opened);
    status
}

/// Writes the name of the carrier where it is safe to show it as today's: empty where a mobile
/// number of the number's region can be kept when the carrier changes; else as `phone_carrier`, by
/// the number's kind. Its statuses are those of `phone_carrier`.
#[unsafe(no_mangle)]
#[tactic(auto, using(crate::proofs::KeptAtlas::kept))]
pub extern "C" fn phone_safe_carrier(
    alloc: Global,
    handle: &mut Handle,
    atlas: &mut AtlasHandle,
    number: &Number,
    bytes: &[u8],
    out: &mut [u8],
    wrote: &mut usize,
) -> u32
    ensures written { result ≡ OK → IsWrittenA
        (IsSafeCarrierOf handle.old.records atlas.old.held number.now bytes.now)
        out.old out.new wrote.new }
    ensures too_small { result ≡ TOO_SMALL → IsTooLongA
        (IsSafeCarrierOf handle.old.records atlas.old.held number.now bytes.now)
        out.old out.new wrote.new }
    ensures closed { (result ≡ CLOSED) ↔ (IsClosed handle.old ⊎ IsAtlasClosed atlas.old) }
    ensures bad { (result ≡ BAD_NUMBER) ↔ (¬ (IsClosed handle.old) ×
        ¬ (IsAtlasClosed atlas.old) × AreNoNumber number.now bytes.now) }
    ensures other { ¬ (result ≡ OK) → ¬ (result ≡ TOO_SMALL) → ¬ (result ≡ CLOSED) →
        ¬ (result ≡ BAD_NUMBER) → result ≡ MEMORY }
    ensures untouched { ¬ (result ≡ OK) → out.new ≡ out.old }
    ensures no_length { ¬ (result ≡ OK) → ¬ (result ≡ TOO_SMALL) → wrote.new ≡ 0 }
    ensures kept { IsKept handle.old handle.new }
    ensures atlas_kept { IsAtlasKept atlas.old atlas.new }
{
    *wrote = 0;
    let Some(opened) = take(alloc, handle) else {
        return CLOSED;
    };
    let database = opened.database();
    let status = told(
        &SafeCarrier,
        alloc,
        database,
        atlas,
        number,
        bytes,
        out,
        wrote,
    );
    put(alloc, handle, opened);
    status
}

/// Writes the name of a number's country: empty where no name is known, and where the number
/// belongs to no country, as one that is valid in several. Its statuses are those of
/// `phone_carrier`.
#[unsafe(no_mangle)]
#[tactic(auto, using(crate::proofs::KeptAtlas::kept))]
pub extern "C" fn phone_country_name(
    alloc: Global,
    handle: &mut Handle,
    atlas: &mut AtlasHandle,
    number: &Number,
    bytes: &[u8],
    out: &mut [u8],
    wrote: &mut usize,
) -> u32
    ensures written { result ≡ OK → IsWrittenA
        (IsCountryOf handle.old.records atlas.old.held number.now bytes.now)
        out.old out.new wrote.new }
    ensures too_small { result ≡ TOO_SMALL → IsTooLongA
        (IsCountryOf handle.old.records atlas.old.held number.now bytes.now)
        out.old out.new wrote.new }
    ensures closed { (result ≡ CLOSED) ↔ (IsClosed handle.old ⊎ IsAtlasClosed atlas.old) }
    ensures bad { (result ≡ BAD_NUMBER) ↔ (¬ (IsClosed handle.old) ×
        ¬ (IsAtlasClosed atlas.old) × AreNoNumber number.now bytes.now) }
    ensures other { ¬ (result ≡ OK) → ¬ (result ≡ TOO_SMALL) → ¬ (result ≡ CLOSED) →
        ¬ (result ≡ BAD_NUMBER) → result ≡ MEMORY }
    ensures untouched { ¬ (result ≡ OK) → out.new ≡ out.old }
    ensures no_length { ¬ (result ≡ OK) → ¬ (result ≡ TOO_SMALL) → wrote.new ≡ 0 }
    ensures kept { IsKept handle.old handle.new }
    ensures atlas_kept { IsAtlasKept atlas.old atlas.new }
{
    *wrote = 0;
    let Some(opened) = take(alloc, handle) else {
        return CLOSED;
    };
    let database = opened.database();
    let status = told(&Country, alloc, database, atlas, number, bytes, out, wrote);
    put(alloc, handle, opened);
    status
}

/// Writes the time zones of a number by a table of them, as it has them: `Etc/Unknown` where it
/// knows none, and where the number's kind is unknown; where its kind is of no place those of its
/// calling code; else, and of each number where `as_it_stands` isn't 0, those of its digits. Its
/// statuses are those of `phone_carrier`.
#[unsafe(no_mangle)]
#[tactic(auto, using(crate::proofs::KeptTable::kept))]
pub extern "C" fn phone_time_zones(
    alloc: Global,
    handle: &mut Handle,
    zones: &mut PrefixTable,
    number: &Number,
    bytes: &[u8],
    as_it_stands: u8,
    out: &mut [u8],
    wrote: &mut usize,
) -> u32
    ensures written { result ≡ OK → IsWrittenA
        (AreZonesOf handle.old.records zones.old.entries number.now bytes.now as_it_stands)
        out.old out.new wrote.new }
    ensures too_small { result ≡ TOO_SMALL → IsTooLongA
        (AreZonesOf handle.old.records zones.old.entries number.now bytes.now as_it_stands)
        out.old out.new wrote.new }
    ensures closed { (result ≡ CLOSED) ↔ (IsClosed handle.old ⊎ IsTableClosed zones.old) }
    ensures bad { (result ≡ BAD_NUMBER) ↔ (¬ (IsClosed handle.old) ×
        ¬ (IsTableClosed zones.old) × AreNoNumber number.now bytes.now) }
    ensures other { ¬ (result ≡ OK) → ¬ (result ≡ TOO_SMALL) → ¬ (result ≡ CLOSED) →
        ¬ (result ≡ BAD_NUMBER) → result ≡ MEMORY }
    ensures untouched { ¬ (result ≡ OK) → out.new ≡ out.old }
    ensures no_length { ¬ (result ≡ OK) → ¬ (result ≡ TOO_SMALL) → wrote.new ≡ 0 }
    ensures kept { IsKept handle.old handle.new }
    ensures zones_kept { IsTableKept zones.old zones.new }
{
    *wrote = 0;
    let Some(opened) = take(alloc, handle) else {
        return CLOSED;
    };
    let status = time_zones(
        alloc,
        opened.database(),
        zones,
        number,
        bytes,
        as_it_stands,
        out,
        wrote,
    );
    put(alloc, handle, opened);
    status
}
