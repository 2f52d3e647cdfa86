//! What a number's kind, its region and its layout tell of it, at once.
ghost use Rattle.std.specs.Prelude.{◌≡◌, if◌then◌else◌, IfOk};
ghost use Rattle.std.specs.Option.{option_copied, option_map_or};
ghost use Rattle.phone_questions.specs.Details.{details_of};
ghost use Rattle.phone_questions.specs.Groups.{has_area};

use crate::belonging::{is_home_in, territory_of_own};
use crate::groups::{destination_by, has_area};
use crate::kinds::is_geographical_kind;
use phone_library::facts;
use phone_plans::{Plans, Territory};
use phone_values::Type;
use phonenumber::PhoneNumber;
use std::alloc::AllocError;

/// What is known of a number. Lengths are counts of digits.
#[derive(Clone, Copy, PartialEq, Eq, Debug)]
pub struct NumberDetails {
    /// How many of its digits are its area's code.
    pub area_length: usize,
    /// How many are its national destination code.
    pub destination_length: usize,
    /// Whether it is of a place.
    pub is_geographical: bool,
    /// Whether it can be dialled from abroad.
    pub is_dialled_from_abroad: bool,
}

/// What `area_length`, `destination_length`, `is_geographical` and `is_dialled_from_abroad` tell of
/// a number, whose kind and region are looked up once. Refused only for memory.
pub fn details_of(database: &Plans, number: &PhoneNumber) -> Result<NumberDetails, AllocError>
    ensures { IfOk result (λ d. d ≡ details_of database.now number.now) }
{
    let told = facts(database, number)?;
    let territory = territory_of_own(database, told.region);
    let destination_length = destination_by(database, told.kind, number)?;
    Ok(NumberDetails {
        area_length: area_by(territory, told.kind, number, destination_length),
        destination_length,
        is_geographical: is_geographical_kind(told.kind, number.code().value()),
        is_dialled_from_abroad: !is_home_in(number, territory)?,
    })
}

/// The count of digits of a destination code, where a number of a kind has an area code by the
/// territory of its region; else 0.
fn area_by(
    territory: Option<&Territory>,
    kind: Type,
    number: &PhoneNumber,
    destination: usize,
) -> usize
    ensures { result ≡ option_map_or
        (λ m. if has_area kind number.now m then destination else 0)
        (option_copied territory.entry) 0 }
{
    match territory {
        Some(territory) => {
            if has_area(kind, number, territory) {
                destination
            } else {
                0
            }
        }
        None => 0,
    }
}
