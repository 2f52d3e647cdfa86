//! The time zones of a number that is given as plain numbers.
ghost use Rattle.std.specs.Prelude.{◌≡◌, ◌↔◌, IfOk};
ghost use Rattle.phone_c_base.specs.Buffers.{IsTooLongA, IsWrittenA};
ghost use Rattle.phone_c_base.specs.Numbers.{AreNoNumber};
ghost use Rattle.phone_c_base.specs.PrefixTables.{IsTableClosed, IsTableKept};
ghost use Rattle.phone_places.specs.Maps.{digits_of};
ghost use Rattle.phone_places.specs.Zones.{AreZones};
ghost use Rattle.phone_c.specs.Places.{AreZonesByKind, AreZonesOf, IsAsAsked};

use phone_c_base::buffer::give;
use phone_c_base::number::{Number, to_phone_number};
use phone_c_base::status::{BAD_NUMBER, CLOSED, MEMORY, OK, TOO_SMALL};
use phone_c_base::table::{PrefixTable, put_table, take_table};
use phone_places::placed_time_zones;
use phone_plans::Plans;
use phone_prefixes::Prefixes;
use phonenumber::PhoneNumber;
use std::alloc::{AllocError, Global};

/// The time zones of a number by its kind. Refused only for memory.
fn by_kind<'t>(
    database: &Plans,
    zones: &'t Prefixes,
    number: &PhoneNumber,
) -> Result<&'t str, AllocError>
    ensures { IfOk result (λ t. AreZonesByKind database.now zones.entry.now number.now t.now) }
{
    let text = phone_places::time_zones(database, zones, number)?;
    Ok(text)
}

/// The time zones of a number, by its kind or as it stands. Refused only for memory.
fn zones_as<'t>(
    database: &Plans,
    zones: &'t Prefixes,
    number: &PhoneNumber,
    as_it_stands: u8,
) -> Result<&'t str, AllocError>
    ensures { IfOk result (λ t. IsAsAsked as_it_stands
        (AreZonesByKind database.now zones.entry.now number.now t.now)
        (AreZones zones.entry.now (digits_of number.now) t.now)) }
{
    if as_it_stands == 0 {
        Ok(by_kind(database, zones, number)?)
    } else {
        Ok(placed_time_zones(database.allocator(), zones, number)?)
    }
}

/// The time zones of a number that is given as plain numbers, in a buffer.
fn tell_zones(
    database: &Plans,
    zones: &Prefixes,
    number: &Number,
    bytes: &[u8],
    as_it_stands: u8,
    out: &mut [u8],
    wrote: &mut usize,
) -> u32
    ensures written { result ≡ OK → IsWrittenA
        (AreZonesOf database.now zones.now number.now bytes.now as_it_stands)
        out.old out.new wrote.new }
    ensures too_small { result ≡ TOO_SMALL → IsTooLongA
        (AreZonesOf database.now zones.now number.now bytes.now as_it_stands)
        out.old out.new wrote.new }
    ensures bad { (result ≡ BAD_NUMBER) ↔ AreNoNumber number.now bytes.now }
    ensures other { ¬ (result ≡ OK) → ¬ (result ≡ TOO_SMALL) → ¬ (result ≡ BAD_NUMBER) →
        result ≡ MEMORY }
    ensures untouched { ¬ (result ≡ OK) → out.new ≡ out.old }
    ensures no_length { ¬ (result ≡ OK) → ¬ (result ≡ TOO_SMALL) → wrote.new ≡ 0 }
{
    *wrote = 0;
    let number = match to_phone_number(database.allocator(), number, bytes) {
        Ok(number) => number,
        Err(status) => return status,
    };
    match zones_as(database, zones, &number, as_it_stands) {
        Ok(text) => give(text.as_bytes(), out, wrote),
        Err(_) => MEMORY,
    }
}

/// The same by the table that is open behind a handle.
pub fn time_zones(
    alloc: Global,
    database: &Plans,
    zones: &mut PrefixTable,
    number: &Number,
    bytes: &[u8],
    as_it_stands: u8,
    out: &mut [u8],
    wrote: &mut usize,
) -> u32
    ensures written { result ≡ OK → IsWrittenA
        (AreZonesOf database.now zones.old.entries number.now bytes.now as_it_stands)
        out.old out.new wrote.new }
    ensures too_small { result ≡ TOO_SMALL → IsTooLongA
        (AreZonesOf database.now zones.old.entries number.now bytes.now as_it_stands)
        out.old out.new wrote.new }
    ensures closed { (result ≡ CLOSED) ↔ IsTableClosed zones.old }
    ensures bad { (result ≡ BAD_NUMBER) ↔
        (¬ (IsTableClosed zones.old) × AreNoNumber number.now bytes.now) }
    ensures other { ¬ (result ≡ OK) → ¬ (result ≡ TOO_SMALL) → ¬ (result ≡ CLOSED) →
        ¬ (result ≡ BAD_NUMBER) → result ≡ MEMORY }
    ensures untouched { ¬ (result ≡ OK) → out.new ≡ out.old }
    ensures no_length { ¬ (result ≡ OK) → ¬ (result ≡ TOO_SMALL) → wrote.new ≡ 0 }
    ensures kept { IsTableKept zones.old zones.new }
{
    *wrote = 0;
    let Some(owner) = take_table(alloc, zones) else {
        return CLOSED;
    };
    let status = tell_zones(
        database,
        owner.thing(),
        number,
        bytes,
        as_it_stands,
        out,
        wrote,
    );
    put_table(alloc, zones, owner);
    status
}
