//! What a call of a short number costs.
ghost use Rattle.std.specs.Prelude.{◌≡◌, IfOk};
ghost use Rattle.phone_short.specs.Costs.{cost_in, cost_word, otherwise};

use crate::emergency::is_emergency_number;
use crate::numbers::{has_number, is_possible};
use phone_pattern::Subject;
use phone_territory::Territory;
use std::alloc::AllocError;

/// What a call of a short number costs.
#[derive(Clone, Copy, PartialEq, Eq, Debug)]
pub enum Cost {
    /// Nothing.
    TollFree,
    /// What a call of any number does.
    StandardRate,
    /// More than that.
    PremiumRate,
    /// It isn't known.
    Unknown,
}

impl Cost {
    /// The word for the cost, as libphonenumber has it.
    pub fn as_str(&self) -> &'static str
        ensures { result.now ≡ cost_word self.now }
    {
        match self {
            Cost::TollFree => "TOLL_FREE",
            Cost::StandardRate => "STANDARD_RATE",
            Cost::PremiumRate => "PREMIUM_RATE",
            Cost::Unknown => "UNKNOWN_COST",
        }
    }
}

/// The cost of digits by a record: that of the first descriptor that has them, of premium rate,
/// standard rate and toll free; without one an emergency number is free. Unknown for all others,
/// and where the digits aren't possible. Refused only for memory.
pub fn cost_in(m: &Territory, digits: &Subject<'_>) -> Result<Cost, AllocError>
    ensures { IfOk result (λ cost. cost ≡ cost_in m.now digits.now) }
{
    if !is_possible(m, digits.as_str()) {
        return Ok(Cost::Unknown);
    }
    let kinds = m.descriptors();
    if has_number(kinds.premium_rate(), digits)? {
        return Ok(Cost::PremiumRate);
    }
    if has_number(kinds.standard_rate(), digits)? {
        return Ok(Cost::StandardRate);
    }
    if has_number(kinds.toll_free(), digits)? {
        return Ok(Cost::TollFree);
    }
    otherwise(m, digits)
}

/// The cost of digits that no descriptor of a cost has. Refused only for memory.
fn otherwise(m: &Territory, digits: &Subject<'_>) -> Result<Cost, AllocError>
    ensures { IfOk result (λ cost. cost ≡ otherwise m.now digits.now) }
{
    if is_emergency_number(m, digits.as_str())? {
        Ok(Cost::TollFree)
    } else {
        Ok(Cost::Unknown)
    }
}
