//! Short numbers of a calling code, of which no region is told.
ghost use Rattle.std.specs.Prelude.{◌≡◌, IfOk, map};
ghost use Rattle.std.specs.Option.{option_copied};
ghost use Rattle.phone_further.specs.ShortNumbers.{cost_anywhere, example_of};
ghost use Rattle.phone_further.specs.ShortNumbers.{facts_anywhere, is_carrier_anywhere};
ghost use Rattle.phone_further.specs.ShortNumbers.{is_possible_anywhere};
ghost use Rattle.phone_further.specs.ShortNumbers.{is_valid_anywhere, numbers_of_cost};
ghost use Rattle.phone_further.specs.ShortNumbers.{short_example};
ghost use Rattle.phone_further.specs.ShortNumbers.{short_example_of_cost};
ghost use Rattle.phone_further.specs.ShortRecords.{chosen_by, facts_among};
ghost use Rattle.phone_further.specs.ShortRecords.{is_carrier_by, is_valid_among};

use crate::records::{
    chosen_by, dearest_by, is_carrier_by, is_possible_among, is_valid_by_chosen, short_records,
};
use phone_pattern::Subject;
use phone_plans::{Descriptor, Plans, Territory};
use phone_short::Cost;
use phone_values::country::Id;
use phonenumber::PhoneNumber;
use std::alloc::AllocError;

/// What is known of a number as a short number of any region of its calling code.
#[derive(Clone, Copy, PartialEq, Eq, Debug)]
pub struct FactsAnywhere {
    /// What a call of it costs.
    pub cost: Cost,
    /// Whether the count of its digits is possible in some region.
    pub is_possible: bool,
    /// Whether it is a short number of some region.
    pub is_valid: bool,
    /// Whether only some carriers connect it.
    pub is_carrier_specific: bool,
}

/// Whether a number may be a short number of some region of its calling code: the region's table of
/// short numbers lists the count of its digits. Refused only for memory.
pub fn is_possible_anywhere(
    database: &Plans,
    short: &Plans,
    number: &PhoneNumber,
) -> Result<bool, AllocError>
    ensures { IfOk result (λ b. b ≡
        is_possible_anywhere database.now short.now number.now) }
{
    let digits = number.national().to_string(database.allocator())?;
    let records = short_records(database, short, number)?;
    Ok(is_possible_among(records.as_slice(), digits.as_str()))
}

/// Whether a number is a short number of some region of its calling code. Where the code has one
/// region, its digits are a number of that one and a short code; where it has several, they are a
/// short code of one of them. Refused only for memory.
pub fn is_valid_anywhere(
    database: &Plans,
    short: &Plans,
    number: &PhoneNumber,
) -> Result<bool, AllocError>
    ensures { IfOk result (λ b. b ≡ is_valid_anywhere database.now short.now number.now) }
{
    let digits = number.national().to_string(database.allocator())?;
    let records = short_records(database, short, number)?;
    is_valid_among(records.as_slice(), &Subject::of(digits.as_str()))
}

/// Whether digits are valid by these records. Refused only for memory.
fn is_valid_among(records: &[Option<&Territory>], digits: &Subject<'_>) -> Result<bool, AllocError>
    ensures { IfOk result (λ b. b ≡
        is_valid_among digits.now (map option_copied records.now)) }
{
    let chosen = chosen_by(records, digits)?;
    is_valid_by_chosen(records, chosen, digits)
}

/// Whether only some carriers connect a number, by the region that is chosen for it: the only one
/// of its calling code, or of several the first of which it is a short code. Refused only for
/// memory.
pub fn is_carrier_anywhere(
    database: &Plans,
    short: &Plans,
    number: &PhoneNumber,
) -> Result<bool, AllocError>
    ensures { IfOk result (λ b. b ≡ is_carrier_anywhere database.now short.now number.now) }
{
    let digits = number.national().to_string(database.allocator())?;
    let records = short_records(database, short, number)?;
    is_carrier_among(records.as_slice(), &Subject::of(digits.as_str()))
}

/// Whether digits are a carrier's by the record that is chosen of these. Refused only for memory.
fn is_carrier_among(
    records: &[Option<&Territory>],
    digits: &Subject<'_>,
) -> Result<bool, AllocError>
    ensures { IfOk result (λ b. b ≡
        is_carrier_by digits.now (chosen_by digits.now (map option_copied records.now))) }
{
    let chosen = chosen_by(records, digits)?;
    is_carrier_by(chosen, digits)
}

/// What a number costs, where its region isn't told: the first that it costs in a region of its
/// calling code of premium rate, an unknown cost, standard rate and nothing. Unknown where the code
/// isn't listed. Refused only for memory.
pub fn cost_anywhere(
    database: &Plans,
    short: &Plans,
    number: &PhoneNumber,
) -> Result<Cost, AllocError>
    ensures { IfOk result (λ c. c ≡ cost_anywhere database.now short.now number.now) }
{
    let digits = number.national().to_string(database.allocator())?;
    let records = short_records(database, short, number)?;
    dearest_by(records.as_slice(), &Subject::of(digits.as_str()))
}

/// All that is known of a number as a short number of any region of its calling code, whose
/// territories are looked up once. Refused only for memory.
pub fn facts_anywhere(
    database: &Plans,
    short: &Plans,
    number: &PhoneNumber,
) -> Result<FactsAnywhere, AllocError>
    ensures { IfOk result (λ facts. facts ≡
        facts_anywhere database.now short.now number.now) }
{
    let digits = number.national().to_string(database.allocator())?;
    let records = short_records(database, short, number)?;
    facts_among(records.as_slice(), &Subject::of(digits.as_str()))
}

/// The same of digits, by these records. Refused only for memory.
fn facts_among(
    records: &[Option<&Territory>],
    digits: &Subject<'_>,
) -> Result<FactsAnywhere, AllocError>
    ensures { IfOk result (λ facts. facts ≡
        facts_among digits.now (map option_copied records.now)) }
{
    let chosen = chosen_by(records, digits)?;
    Ok(FactsAnywhere {
        cost: dearest_by(records, digits)?,
        is_possible: is_possible_among(records, digits.as_str()),
        is_valid: is_valid_by_chosen(records, chosen, digits)?,
        is_carrier_specific: is_carrier_by(chosen, digits)?,
    })
}

/// The example of a region's short numbers, where its table gives one. Takes no memory.
pub fn short_example(short: &Plans, region: Id) -> Option<&str>
    ensures { option_copied result ≡ short_example short.entry.now region }
{
    match short.by_id(region.as_str()) {
        Some(row) => example_of(row.descriptors().short_code()),
        None => None,
    }
}

/// The example of a descriptor.
fn example_of(descriptor: Option<&Descriptor>) -> Option<&str>
    ensures { option_copied result ≡ example_of (option_copied descriptor.entry) }
{
    match descriptor {
        Some(descriptor) => descriptor.example(),
        None => None,
    }
}

/// The example of a region's short numbers of a cost, where its table gives one; none for the
/// unknown cost. Takes no memory.
pub fn short_example_of_cost(short: &Plans, region: Id, cost: Cost) -> Option<&str>
    ensures { option_copied result ≡ short_example_of_cost short.entry.now region cost }
{
    match short.by_id(region.as_str()) {
        Some(row) => example_of(numbers_of_cost(cost, row)),
        None => None,
    }
}

/// The descriptor of a record's numbers of a cost.
fn numbers_of_cost(cost: Cost, row: &Territory) -> Option<&Descriptor>
    ensures { option_copied result ≡ numbers_of_cost cost row.entry.now }
{
    let kinds = row.descriptors();
    match cost {
        Cost::PremiumRate => kinds.premium_rate(),
        Cost::StandardRate => kinds.standard_rate(),
        Cost::TollFree => kinds.toll_free(),
        Cost::Unknown => None,
    }
}
