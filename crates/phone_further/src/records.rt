//! Short numbers by the records of the regions of a calling code: each region's is looked up once,
//! and what is asked of it is asked of digits that were read before.
ghost use Rattle.std.specs.Prelude.{◌≡◌, ◌∷◌, ◌++◌, [], IfOk, map};
ghost use Rattle.std.specs.List.{list_any};
ghost use Rattle.std.specs.Option.{option_and_then, option_copied};
ghost use Rattle.phone_plans.specs.CodeLookUps.{territories};
ghost use Rattle.phone_further.specs.ShortNumbers.{dearest_of, held, is_valid_by};
ghost use Rattle.phone_further.specs.ShortNumbers.{short_record};
ghost use Rattle.phone_further.specs.ShortRecords.{chosen_by, cost_by, first_code};
ghost use Rattle.phone_further.specs.ShortRecords.{if_code, is_carrier_by, is_number_by};
ghost use Rattle.phone_further.specs.ShortRecords.{is_possible_by, is_valid_among};
ghost use Rattle.phone_further.specs.ShortRecords.{short_records};

use crate::rows::Rows;
use phone_pattern::Subject;
use phone_plans::{Plans, Territory};
use phone_short::{Cost, cost_in, has_number, is_possible};
use phonenumber::PhoneNumber;
use std::alloc::AllocError;

/// The records of short numbers of the regions of a number's calling code, in the order of the
/// code's territories; none for a territory whose region has no short numbers, or that is no
/// region's. Refused only for memory.
pub(crate) fn short_records<'d>(
    database: &Plans,
    short: &'d Plans,
    number: &PhoneNumber,
) -> Result<Vec<Option<&'d Territory>>, AllocError>
    ensures { IfOk result (λ v. map option_copied v.items ≡
        short_records database.now short.entry.now number.now) }
{
    records_of(database, short, number.code().value())
}

/// The records of the regions of a calling code. Refused only for memory.
fn records_of<'d>(
    database: &Plans,
    short: &'d Plans,
    code: u16,
) -> Result<Vec<Option<&'d Territory>>, AllocError>
    ensures { IfOk result (λ v. map option_copied v.items ≡
        map (short_record short.entry.now) (territories code database.now)) }
{
    // Room for those of 1, the code of most regions.
    let mut records = Vec::with_capacity(database.allocator(), 32)?;
    let mut rows = Rows::of_code(short, code);
    for m in database.of_code(code) {
        let record = rows.record_of(m);
        if m.is_main_country_for_code() {
            records.insert(0, record)?;
        } else {
            records.push(record)?;
        }
    }
    Ok(records)
}

/// Whether digits are possible by one of these records.
pub(crate) fn is_possible_among(records: &[Option<&Territory>], digits: &str) -> bool
    ensures { result ≡ list_any (is_possible_by digits.now) (map option_copied records.now) }
{
    for row in records {
        if is_possible_by(*row, digits) {
            return true;
        }
    }
    false
}

/// Whether a record lists the count of digits; not without one. Takes no memory.
pub(crate) fn is_possible_by(row: Option<&Territory>, digits: &str) -> bool
    ensures { result ≡ is_possible_by digits.now (option_copied row.entry) }
{
    match row {
        Some(m) => is_possible(m, digits),
        None => false,
    }
}

/// What digits cost by these records: the first there is of premium rate, an unknown cost, standard
/// rate and nothing; unknown without a record. Refused only for memory.
pub(crate) fn dearest_by(
    records: &[Option<&Territory>],
    digits: &Subject<'_>,
) -> Result<Cost, AllocError>
    ensures { IfOk result (λ c. c ≡
        dearest_of (map (cost_by digits.now) (map option_copied records.now))) }
{
    let mut dearest = None;
    for row in records {
        dearest = Some(dearer(dearest, cost_by(*row, digits)?));
    }
    Ok(dearest.unwrap_or(Cost::Unknown))
}

/// What digits cost by a record: of premium rate, standard rate and toll free the first whose
/// descriptor has them; without one an emergency number is free. Unknown for all others, where the
/// digits aren't possible, and without a record. Refused only for memory.
pub(crate) fn cost_by(row: Option<&Territory>, digits: &Subject<'_>) -> Result<Cost, AllocError>
    ensures { IfOk result (λ c. c ≡ cost_by digits.now (option_copied row.entry)) }
{
    match row {
        Some(m) => cost_in(m, digits),
        None => Ok(Cost::Unknown),
    }
}

/// Of two costs, or of the second alone, the first there is of premium rate, an unknown cost,
/// standard rate and nothing. Takes no memory.
pub(crate) fn dearer(first: Option<Cost>, second: Cost) -> Cost
    ensures { result ≡ dearest_of (held first ++ second ∷ []) }
{
    match (first, second) {
        (Some(Cost::PremiumRate), _) | (_, Cost::PremiumRate) => Cost::PremiumRate,
        (Some(Cost::Unknown), _) | (_, Cost::Unknown) => Cost::Unknown,
        (Some(Cost::StandardRate), _) | (_, Cost::StandardRate) => Cost::StandardRate,
        _ => Cost::TollFree,
    }
}

/// The record that is chosen of these for digits: the only one, or of several the first of which
/// they are a short code. Refused only for memory.
pub(crate) fn chosen_by<'d>(
    records: &[Option<&'d Territory>],
    digits: &Subject<'_>,
) -> Result<Option<&'d Territory>, AllocError>
    ensures { IfOk result (λ m. option_copied m ≡
        chosen_by digits.now (map option_copied records.now)) }
{
    match records {
        [] => Ok(None),
        [only] => Ok(*only),
        several => first_code(several, digits),
    }
}

/// The first of these records of which digits are a short code. Refused only for memory.
fn first_code<'d>(
    records: &[Option<&'d Territory>],
    digits: &Subject<'_>,
) -> Result<Option<&'d Territory>, AllocError>
    ensures { IfOk result (λ m. option_copied m ≡
        first_code digits.now (map option_copied records.now)) }
{
    for row in records {
        let found = if_code(*row, digits)?;
        if found.is_some() {
            return Ok(found);
        }
    }
    Ok(None)
}

/// A record, where it is there and digits are a short code of it. Refused only for memory.
fn if_code<'d>(
    row: Option<&'d Territory>,
    digits: &Subject<'_>,
) -> Result<Option<&'d Territory>, AllocError>
    ensures { IfOk result (λ m. option_copied m ≡
        option_and_then (if_code digits.now) (option_copied row.entry)) }
{
    match row {
        Some(m) => if_its_code(m, digits),
        None => Ok(None),
    }
}

/// A record, where digits are a short code of it. Refused only for memory.
fn if_its_code<'d>(
    m: &'d Territory,
    digits: &Subject<'_>,
) -> Result<Option<&'d Territory>, AllocError>
    ensures { IfOk result (λ found. option_copied found ≡ if_code digits.now m.entry.now) }
{
    if has_number(m.descriptors().short_code(), digits)? {
        Ok(Some(m))
    } else {
        Ok(None)
    }
}

/// Whether digits are valid by these records, of which one is chosen for them, or none. Refused
/// only for memory.
pub(crate) fn is_valid_by_chosen(
    records: &[Option<&Territory>],
    chosen: Option<&Territory>,
    digits: &Subject<'_>,
) -> Result<bool, AllocError>
    requires { option_copied chosen ≡ chosen_by digits.now (map option_copied records.now) }
    ensures { IfOk result (λ b. b ≡
        is_valid_among digits.now (map option_copied records.now)) }
{
    match records {
        [] => Ok(false),
        [only] => is_number_by(*only, digits),
        _ => Ok(chosen.is_some()),
    }
}

/// Whether digits are a number and a short code of a record; not without one. Refused only for
/// memory.
pub(crate) fn is_number_by(
    row: Option<&Territory>,
    digits: &Subject<'_>,
) -> Result<bool, AllocError>
    ensures { IfOk result (λ b. b ≡ is_number_by digits.now (option_copied row.entry)) }
{
    match row {
        Some(m) => is_valid_by(m, digits),
        None => Ok(false),
    }
}

/// Whether digits are a number and a short code of a record that is there. Refused only for memory.
fn is_valid_by(m: &Territory, digits: &Subject<'_>) -> Result<bool, AllocError>
    ensures { IfOk result (λ b. b ≡ is_valid_by digits.now m.now) }
{
    let kinds = m.descriptors();
    Ok(has_number(Some(kinds.general()), digits)? && has_number(kinds.short_code(), digits)?)
}

/// Whether digits are a carrier's by a record; not without one. Refused only for memory.
pub(crate) fn is_carrier_by(
    row: Option<&Territory>,
    digits: &Subject<'_>,
) -> Result<bool, AllocError>
    ensures { IfOk result (λ b. b ≡ is_carrier_by digits.now (option_copied row.entry)) }
{
    match row {
        Some(m) => has_number(m.descriptors().carrier(), digits),
        None => Ok(false),
    }
}
