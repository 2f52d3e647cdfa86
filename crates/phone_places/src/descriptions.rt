//! The description of a number: its area, its country, or the region that it is of.
ghost use Rattle.std.specs.Prelude.{◌≡◌, ◌≢◌, IfOk, true, false, []};
ghost use Rattle.std.specs.Option.{option_copied};
ghost use Rattle.phone_library.specs.Facts.{kind_of_number};
ghost use Rattle.phone_places.specs.Maps.{is_geographical};
ghost use Rattle.phone_places.specs.Countries.{country_name};
ghost use Rattle.phone_places.specs.Descriptions.{IsAreaOrCountry, IsDescribed, IsDescribedIn};
ghost use Rattle.phone_places.specs.Descriptions.{is_elsewhere};
ghost use Rattle.phone_places.specs.Placed.{is_placed};
ghost use Rattle.phone_values.specs.declared.kind.«Type».TheVariants.{Unknown};

use crate::areas::area;
use crate::country::country_name;
use crate::is_geographical;
use phone_languages::Atlas;
use phone_library::{number_type, region};
use phone_plans::Plans;
use phone_values::Type;
use phone_values::country::Id;
use phonenumber::PhoneNumber;
use std::alloc::AllocError;

/// The description of a number in a locale, for a user in a region, if that is told: empty where
/// the number's kind is unknown; the name of its country where its kind is of no place; else that
/// of [`valid_description`]. Refused only for memory.
pub fn description<'t>(
    database: &Plans,
    atlas: &Atlas<'t>,
    number: &PhoneNumber,
    user: Option<&str>,
) -> Result<&'t str, AllocError>
    ensures unknown { kind_of_number database.now number.now ≡ Unknown →
        IfOk result (λ t. t.now ≡ []) }
    ensures at_place { is_placed database.now number.now ≡ true →
        IfOk result (λ t. IsDescribed database.now atlas.now (option_copied user.entry) number.now
        t.now) }
    ensures elsewhere { kind_of_number database.now number.now ≢ Unknown →
        is_placed database.now number.now ≡ false →
        IfOk result (λ t. t.now ≡ country_name database.now atlas.now number.now) }
{
    let kind = number_type(database, number)?;
    described_as(database, atlas, number, user, kind)
}

/// The description of a number of a kind.
fn described_as<'t>(
    database: &Plans,
    atlas: &Atlas<'t>,
    number: &PhoneNumber,
    user: Option<&str>,
    kind: Type,
) -> Result<&'t str, AllocError>
    ensures unknown { kind ≡ Unknown → IfOk result (λ t. t.now ≡ []) }
    ensures at_place { is_geographical kind number.now.code.value ≡ true →
        IfOk result (λ t. IsDescribed database.now atlas.now (option_copied user.entry) number.now
        t.now) }
    ensures elsewhere { kind ≢ Unknown → is_geographical kind number.now.code.value ≡ false →
        IfOk result (λ t. t.now ≡ country_name database.now atlas.now number.now) }
{
    if kind == Type::Unknown {
        return Ok("");
    }
    if is_geographical(kind, number.code().value()) {
        valid_description(database, atlas, number, user)
    } else {
        country_name(database, atlas, number)
    }
}

/// The same of a number as it stands, as if it were valid and of a place: empty where it has no
/// region; the name of its region where the user's is another, or a text that is no region's id;
/// else its area, and where none is known the name of its country. Refused only for memory.
pub fn valid_description<'t>(
    database: &Plans,
    atlas: &Atlas<'t>,
    number: &PhoneNumber,
    user: Option<&str>,
) -> Result<&'t str, AllocError>
    ensures { IfOk result (λ t. IsDescribed database.now atlas.now (option_copied user.entry)
        number.now t.now) }
{
    match region(database, number)? {
        Some(region) => described_in(database, atlas, number, region, user),
        None => Ok(""),
    }
}

/// The description of a number of a region.
fn described_in<'t>(
    database: &Plans,
    atlas: &Atlas<'t>,
    number: &PhoneNumber,
    region: Id,
    user: Option<&str>,
) -> Result<&'t str, AllocError>
    ensures { IfOk result (λ t. IsDescribedIn region database.now atlas.now
        (option_copied user.entry) number.now t.now) }
{
    if is_elsewhere(user, region) {
        Ok(atlas.name(region.as_str()))
    } else {
        area_or_country(database, atlas, number)
    }
}

/// Whether a user's region is told, and another.
fn is_elsewhere(user: Option<&str>, region: Id) -> bool
    ensures { result ≡ is_elsewhere (option_copied user.entry) region }
{
    match user {
        Some(user) => user != region.as_str(),
        None => false,
    }
}

/// The area of a number; where none is known, the name of its country.
fn area_or_country<'t>(
    database: &Plans,
    atlas: &Atlas<'t>,
    number: &PhoneNumber,
) -> Result<&'t str, AllocError>
    ensures { IfOk result (λ t. IsAreaOrCountry database.now atlas.now number.now t.now) }
{
    let area = area(database, atlas, number)?;
    if area.is_empty() {
        country_name(database, atlas, number)
    } else {
        Ok(area)
    }
}
