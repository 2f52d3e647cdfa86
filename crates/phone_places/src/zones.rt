//! The time zones of a number.
ghost use Rattle.std.specs.Prelude.{◌≡◌, ◌≢◌, IfOk, true, false};
ghost use Rattle.std.specs.Option.{option_copied};
ghost use Rattle.phone_library.specs.Facts.{kind_of_number};
ghost use Rattle.phone_places.specs.Maps.{code_digits, digits_of, is_geographical};
ghost use Rattle.phone_places.specs.Placed.{is_placed};
ghost use Rattle.phone_places.specs.Zones.{AreZones, unknown_zone, zones_told};
ghost use Rattle.phone_values.specs.declared.kind.«Type».TheVariants.{Unknown};

use crate::{digits_of, time_zones_of};
use phone_languages::text_in;
use phone_library::number_type;
use phone_plans::Plans;
use phone_prefixes::Prefixes;
use phone_values::Type;
use phonenumber::PhoneNumber;
use std::alloc::{AllocError, Global};

/// The time zone of numbers of which none is known.
pub const UNKNOWN_ZONE: &str = "Etc/Unknown";

/// The time zones of a number, with `&` between several: `Etc/Unknown` where its kind is unknown;
/// where its kind is of no place those of its calling code; else those of its digits. `Etc/Unknown`
/// as well where the table knows none. Refused only for memory.
pub fn time_zones<'t>(
    database: &Plans,
    zones: &'t Prefixes,
    number: &PhoneNumber,
) -> Result<&'t str, AllocError>
    ensures unknown { kind_of_number database.now number.now ≡ Unknown →
        IfOk result (λ t. t.now ≡ unknown_zone) }
    ensures at_place { is_placed database.now number.now ≡ true →
        IfOk result (λ t. AreZones zones.entry.now (digits_of number.now) t.now) }
    ensures elsewhere { kind_of_number database.now number.now ≢ Unknown →
        is_placed database.now number.now ≡ false →
        IfOk result (λ t. AreZones zones.entry.now (code_digits number.now) t.now) }
{
    let kind = number_type(database, number)?;
    zones_as(database.allocator(), zones, number, kind)
}

/// The time zones of a number of a kind.
fn zones_as<'t>(
    alloc: Global,
    zones: &'t Prefixes,
    number: &PhoneNumber,
    kind: Type,
) -> Result<&'t str, AllocError>
    ensures unknown { kind ≡ Unknown → IfOk result (λ t. t.now ≡ unknown_zone) }
    ensures at_place { is_geographical kind number.now.code.value ≡ true →
        IfOk result (λ t. AreZones zones.entry.now (digits_of number.now) t.now) }
    ensures elsewhere { kind ≢ Unknown → is_geographical kind number.now.code.value ≡ false →
        IfOk result (λ t. AreZones zones.entry.now (code_digits number.now) t.now) }
{
    let found = time_zones_of(alloc, zones, number, kind)?;
    Ok(told(found))
}

/// The time zones of the digits of a number, whatever its kind is; `Etc/Unknown` where the table
/// knows none. Refused only for memory.
pub fn placed_time_zones<'t>(
    alloc: Global,
    zones: &'t Prefixes,
    number: &PhoneNumber,
) -> Result<&'t str, AllocError>
    ensures { IfOk result (λ t. AreZones zones.entry.now (digits_of number.now) t.now) }
{
    let digits = digits_of(alloc, number)?;
    Ok(told(text_in(Some(zones), digits.as_str())))
}

/// The zones that a table has; where it has none, the unknown one.
fn told(found: Option<&str>) -> &str
    ensures { result.now ≡ zones_told (option_copied found.entry) }
{
    found.unwrap_or(UNKNOWN_ZONE)
}
