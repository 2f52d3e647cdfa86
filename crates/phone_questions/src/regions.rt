//! What a database tells of a region and of a calling code.
ghost use Rattle.std.specs.Prelude.{◌≡◌, IfOk, option_map, string_bytes};
ghost use Rattle.std.specs.Option.{option_copied};
ghost use Rattle.phone_questions.specs.Regions.{code_of_region, is_nanpa, is_portable};
ghost use Rattle.phone_questions.specs.Regions.{is_worldwide, main_region, national_prefix};
ghost use Rattle.phone_questions.specs.Regions.{national_prefix_digits, territory_of};
ghost use Rattle.phone_questions.specs.Regions.{without_tildes};

use phone_plans::{Plans, Territory};
use phone_values::country::Id;
use std::alloc::{AllocError, Global};

/// The calling code of the North American Numbering Plan.
const NANPA_CODE: u16 = 1;

/// The id of a territory of a code that serves no region.
const WORLDWIDE: &str = "001";

/// The territory of a region: the last of its records.
pub(crate) fn territory_of(database: &Plans, region: Id) -> Option<&Territory>
    ensures { option_copied result ≡ territory_of database.entry.now region }
{
    database.by_id(region.as_str())
}

/// The calling code of a region; none where the database has no territory of it. Takes no memory.
pub fn code_of_region(database: &Plans, region: Id) -> Option<u16>
    ensures { result ≡ code_of_region database.now region }
{
    match territory_of(database, region) {
        Some(territory) => Some(territory.country_code()),
        None => None,
    }
}

/// Whether a region is of the North American Numbering Plan, whose calling code is 1. Takes no
/// memory.
pub fn is_nanpa(database: &Plans, region: Id) -> bool
    ensures { result ≡ is_nanpa database.now region }
{
    match code_of_region(database, region) {
        Some(code) => code == NANPA_CODE,
        None => false,
    }
}

/// Whether a mobile number of a region can be kept when the carrier changes; false where the
/// database has no territory of the region. Takes no memory.
pub fn is_portable(database: &Plans, region: Id) -> bool
    ensures { result ≡ is_portable database.now region }
{
    match territory_of(database, region) {
        Some(territory) => territory.is_mobile_number_portable(),
        None => false,
    }
}

/// The national prefix of a region, dialled there before a national number, as it stands in the
/// table: a tilde in it means to wait for a tone. None where the region has no territory, or that
/// no prefix. Takes no memory.
pub fn national_prefix(database: &Plans, region: Id) -> Option<&str>
    ensures { option_copied result ≡ national_prefix database.entry.now region }
{
    match territory_of(database, region) {
        Some(territory) => territory.national_prefix(),
        None => None,
    }
}

/// The same prefix without its tildes, so that its digits stand alone. Refused only for memory.
pub fn national_prefix_digits(database: &Plans, region: Id) -> Result<Option<String>, AllocError>
    ensures { IfOk result (λ t. option_map string_bytes t ≡
        national_prefix_digits database.now region) }
{
    match national_prefix(database, region) {
        Some(prefix) => Ok(Some(without_tildes(database.allocator(), prefix)?)),
        None => Ok(None),
    }
}

/// A text without its tildes. Refused only for memory.
fn without_tildes(alloc: Global, prefix: &str) -> Result<String, AllocError>
    ensures { IfOk result (λ t. string_bytes t ≡ without_tildes prefix.now) }
{
    prefix.chars().filter(|c| *c != '~').collect(alloc)
}

/// The id of a calling code's main region: of its latest main territory, else of its earliest one;
/// `001` for a code that serves no region, and none where the code isn't listed. Takes no memory.
pub fn main_region(database: &Plans, code: u16) -> Option<&str>
    ensures { option_copied result ≡ main_region database.entry.now code }
{
    match database.first_by_code(&code) {
        Some(territory) => Some(territory.id()),
        None => None,
    }
}

/// Whether a territory is no region's.
pub(crate) fn is_worldwide(m: &Territory) -> bool
    ensures { result ≡ is_worldwide m.now }
{
    m.id() == WORLDWIDE
}
