//! What a short number of a calling code costs, of which no region is told: our own answer.
ghost use Rattle.std.specs.Prelude.{◌≡◌, IfOk, filter, map, not};
ghost use Rattle.std.specs.Option.{option_copied};
ghost use Rattle.phone_further.specs.ShortNumbers.{dearest_of, is_one_cost};
ghost use Rattle.phone_further.specs.ShortRecords.{cost_by};
ghost use Rattle.phone_further.specs.Costs.{is_valid_by, known_by, known_cost};
ghost use Rattle.phone_values.specs.Numbers.{text_of};

use crate::records::{cost_by, dearer, is_number_by, is_possible_by, short_records};
use itoa::Buffer;
use phone_pattern::Subject;
use phone_plans::{Plans, Territory};
use phone_short::Cost;
use phonenumber::PhoneNumber;
use std::alloc::AllocError;

/// What a short number costs, where its region isn't told: as `cost_anywhere`, but in the regions
/// of its calling code whose table knows it, so that `911` costs nothing under the code 1 though
/// two of its regions have another number. Unknown where no region knows it, and where the code
/// isn't listed. Refused only for memory.
pub fn known_cost(database: &Plans, short: &Plans, number: &PhoneNumber) -> Result<Cost, AllocError>
    ensures { IfOk result (λ c. c ≡ known_cost database.now short.now number.now) }
{
    let national = number.national();
    if national.zeros() == 0 {
        let mut buffer = Buffer::new();
        let digits = buffer.format(national.value());
        return cost_of_digits(database, short, number, digits);
    }
    let digits = national.to_string(database.allocator())?;
    cost_of_digits(database, short, number, digits.as_str())
}

/// The same of a number that has these digits. Refused only for memory.
fn cost_of_digits(
    database: &Plans,
    short: &Plans,
    number: &PhoneNumber,
    digits: &str,
) -> Result<Cost, AllocError>
    requires { digits.now ≡ text_of number.now.national }
    ensures { IfOk result (λ c. c ≡ known_cost database.now short.now number.now) }
{
    let records = short_records(database, short, number)?;
    dearest_known(records.as_slice(), &Subject::of(digits))
}

/// The first that digits cost by those of these records that know them of premium rate, an unknown
/// cost, standard rate and nothing; unknown without one. Refused only for memory.
fn dearest_known(records: &[Option<&Territory>], digits: &Subject<'_>) -> Result<Cost, AllocError>
    ensures { IfOk result (λ c. c ≡ dearest_of (map (cost_by digits.now)
        (filter (known_by digits.now) (map option_copied records.now)))) }
{
    let mut dearest = None;
    for row in records {
        let cost = cost_by(*row, digits)?;
        if is_known_by(*row, digits, cost)? {
            dearest = Some(dearer(dearest, cost));
        }
    }
    Ok(dearest.unwrap_or(Cost::Unknown))
}

/// Whether a record knows digits, of which it tells this cost. Refused only for memory.
fn is_known_by(
    row: Option<&Territory>,
    digits: &Subject<'_>,
    cost: Cost,
) -> Result<bool, AllocError>
    requires { cost ≡ cost_by digits.now (option_copied row) }
    ensures { IfOk result (λ b. b ≡ known_by digits.now (option_copied row.entry)) }
{
    Ok(is_told(cost) || is_valid_by(row, digits)?)
}

/// Whether digits are a short number by a record; not without one. Refused only for memory.
fn is_valid_by(row: Option<&Territory>, digits: &Subject<'_>) -> Result<bool, AllocError>
    ensures { IfOk result (λ b. b ≡ is_valid_by digits.now (option_copied row.entry)) }
{
    if !is_possible_by(row, digits.as_str()) {
        return Ok(false);
    }
    is_number_by(row, digits)
}

/// Whether a cost is told.
fn is_told(cost: Cost) -> bool
    ensures { result ≡ not (is_one_cost Cost.Unknown cost) }
{
    match cost {
        Cost::Unknown => false,
        _ => true,
    }
}
