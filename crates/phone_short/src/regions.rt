//! Short numbers of a region, under a database of them. A region without a record has none.
ghost use Rattle.std.specs.Prelude.{◌≡◌, IfOk, chars};
ghost use Rattle.phone_short.specs.Regions as regions;

use crate::digits::digits_in;
use crate::emergency::{is_emergency_in, reaches_emergency_in};
use crate::kind::{ShortKind, kind_in};
use crate::numbers;
use crate::rates::{Cost, cost_in};
use phone_pattern::Subject;
use phone_plans::Plans;
use phone_values::country::Id;
use std::alloc::AllocError;

/// Whether a text may be a short number of a region: the region's general descriptor lists the
/// count of its digits. These are the values of its digits of any script, up to a second number, as
/// in `112/x30`; nothing else counts, not even a plus sign. Refused only for memory.
pub fn is_possible_short(db: &Plans, region: Id, text: &str) -> Result<bool, AllocError>
    ensures { IfOk result (λ b. b ≡ regions.is_possible_short db.now region (chars text.now)) }
{
    let Some(m) = db.by_id(region.as_str()) else {
        return Ok(false);
    };
    let digits = digits_in(db.allocator(), text)?;
    Ok(numbers::is_possible(m, digits.as_str()))
}

/// Whether a text is a short number of a region: its digits are possible, and both the general
/// descriptor and that of short codes have them. Refused only for memory.
pub fn is_valid_short(db: &Plans, region: Id, text: &str) -> Result<bool, AllocError>
    ensures { IfOk result (λ b. b ≡ regions.is_valid_short db.now region (chars text.now)) }
{
    let Some(m) = db.by_id(region.as_str()) else {
        return Ok(false);
    };
    let digits = digits_in(db.allocator(), text)?;
    numbers::is_valid(m, &Subject::of(digits.as_str()))
}

/// What a call of a text's digits costs in a region: of premium rate, standard rate and toll free
/// the first whose descriptor has them; without one an emergency number is free. Unknown for all
/// others, and where the digits aren't possible. Refused only for memory.
pub fn cost(db: &Plans, region: Id, text: &str) -> Result<Cost, AllocError>
    ensures { IfOk result (λ cost. cost ≡ regions.cost db.now region (chars text.now)) }
{
    let Some(m) = db.by_id(region.as_str()) else {
        return Ok(Cost::Unknown);
    };
    let digits = digits_in(db.allocator(), text)?;
    cost_in(m, &Subject::of(digits.as_str()))
}

/// Whether only some carriers of a region connect a text's digits: the carriers' descriptor has
/// them. Refused only for memory.
pub fn is_carrier_specific(db: &Plans, region: Id, text: &str) -> Result<bool, AllocError>
    ensures { IfOk result (λ b. b ≡ regions.is_carrier_specific db.now region (chars text.now)) }
{
    let Some(m) = db.by_id(region.as_str()) else {
        return Ok(false);
    };
    let digits = digits_in(db.allocator(), text)?;
    numbers::is_carrier_specific(m, &Subject::of(digits.as_str()))
}

/// Whether a text is an emergency number of a region: the first of its plus signs and digits is a
/// digit, and the pattern of emergency numbers matches all of its digits, whatever their count.
/// Refused only for memory.
pub fn is_emergency(db: &Plans, region: Id, text: &str) -> Result<bool, AllocError>
    ensures { IfOk result (λ b. b ≡ regions.is_emergency db.now region (chars text.now)) }
{
    match db.by_id(region.as_str()) {
        Some(m) => is_emergency_in(m, text),
        None => Ok(false),
    }
}

/// Whether a text that is dialled in a region reaches emergency services: the first of its plus
/// signs and digits is a digit, and its digits begin with an emergency number; in Brazil, Chile and
/// Nicaragua they have to be one. Refused only for memory.
pub fn reaches_emergency(db: &Plans, region: Id, text: &str) -> Result<bool, AllocError>
    ensures { IfOk result (λ b. b ≡ regions.reaches_emergency db.now region (chars text.now)) }
{
    match db.by_id(region.as_str()) {
        Some(m) => reaches_emergency_in(m, text),
        None => Ok(false),
    }
}

/// What kind of short number a text is in a region: an emergency number; or one that is valid, and
/// the first of whose plus signs and digits is a digit; else none. Refused only for memory.
pub fn short_kind(db: &Plans, region: Id, text: &str) -> Result<Option<ShortKind>, AllocError>
    ensures { IfOk result (λ kind. kind ≡ regions.short_kind db.now region (chars text.now)) }
{
    match db.by_id(region.as_str()) {
        Some(m) => kind_in(m, text),
        None => Ok(None),
    }
}
