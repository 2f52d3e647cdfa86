//! The country of a number.
ghost use Rattle.std.specs.Prelude.{◌≡◌, IfOk, filter};
ghost use Rattle.std.specs.Option.{option_copied};
ghost use Rattle.phone_plans.specs.Records.{has_code};
ghost use Rattle.phone_read.specs.Kinds.{is_known};
ghost use Rattle.phone_places.specs.Countries.{country_name, country_of, knows, region_name};
ghost use Rattle.phone_places.specs.Countries.{candidates, sole, territory_of};

use phone_languages::Atlas;
use phone_library::kind_in;
use phone_plans::{Plans, Territory};
use phone_values::Type;
use phone_values::country::Id;
use phonenumber::PhoneNumber;
use std::alloc::AllocError;

/// The name of a number's country in a locale; empty where it has none, or none is known. Refused
/// only for memory.
pub fn country_name<'t>(
    database: &Plans,
    atlas: &Atlas<'t>,
    number: &PhoneNumber,
) -> Result<&'t str, AllocError>
    ensures { IfOk result (λ t. t.now ≡ country_name database.now atlas.now number.now) }
{
    let region = country_of(database, number)?;
    Ok(region_name(atlas, region))
}

/// The name of a region, if there is one.
fn region_name<'t>(atlas: &Atlas<'t>, region: Option<Id>) -> &'t str
    ensures { result.now ≡ region_name atlas.now region }
{
    match region {
        Some(region) => atlas.name(region.as_str()),
        None => "",
    }
}

/// The region of a number's country: that of the only territory of its calling code; of several
/// that of the only one that knows the number's kind. None where several do, as of a number that is
/// valid in each, or none does, and where the territory is no region's. Refused only for memory.
pub fn country_of(database: &Plans, number: &PhoneNumber) -> Result<Option<Id>, AllocError>
    ensures { IfOk result (λ id. id ≡ country_of database.now number.now) }
{
    match territory_of(database, number)? {
        Some(territory) => Ok(territory.region()),
        None => Ok(None),
    }
}

/// The territory that is a number's country.
fn territory_of<'d>(
    database: &'d Plans,
    number: &PhoneNumber,
) -> Result<Option<&'d Territory>, AllocError>
    ensures { IfOk result (λ m. option_copied m ≡ territory_of database.entry.now number.now) }
{
    let digits = number.national().to_string(database.allocator())?;
    territory_in(database, number.code().value(), digits.as_str())
}

/// The territory that is the country of digits of a code.
fn territory_in<'d>(
    database: &'d Plans,
    code: u16,
    digits: &str,
) -> Result<Option<&'d Territory>, AllocError>
    ensures { IfOk result (λ m. option_copied m ≡
        sole (candidates digits.now (filter (has_code code) database.entry.now))) }
{
    let mut all = database.of_code(code);
    let Some(first) = all.next() else {
        return Ok(None);
    };
    match all.next() {
        Some(_) => sole_that_knows(database, code, digits),
        None => Ok(Some(first)),
    }
}

/// Of the territories of a code the only one that knows the kind of digits.
fn sole_that_knows<'d>(
    database: &'d Plans,
    code: u16,
    digits: &str,
) -> Result<Option<&'d Territory>, AllocError>
    ensures { IfOk result (λ m. option_copied m ≡
        sole (filter (knows digits.now) (filter (has_code code) database.entry.now))) }
{
    let mut found = None;
    for territory in database.of_code(code) {
        if knows(territory, digits)? {
            match found {
                None => found = Some(territory),
                Some(_) => return Ok(None),
            }
        }
    }
    Ok(found)
}

/// Whether a territory knows the kind of digits.
fn knows(m: &Territory, digits: &str) -> Result<bool, AllocError>
    ensures { IfOk result (λ b. b ≡ knows digits.now m.now) }
{
    Ok(is_known(kind_in(m, digits)?))
}

/// Whether a kind is known.
fn is_known(kind: Type) -> bool
    ensures { result ≡ is_known kind }
{
    !matches!(kind, Type::Unknown)
}
