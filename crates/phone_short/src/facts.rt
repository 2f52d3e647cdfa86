//! All that is known of a text as a short number.
ghost use Rattle.std.specs.Prelude.{◌≡◌, IfOk, chars};
ghost use Rattle.phone_short.specs.Regions as regions;

use crate::digits::digits_in;
use crate::emergency::{is_emergency_in, reaches_emergency_in};
use crate::numbers::{is_carrier_specific, is_possible, is_valid};
use crate::rates::{Cost, cost_in};
use phone_pattern::Subject;
use phone_plans::{Plans, Territory};
use phone_values::country::Id;
use std::alloc::AllocError;

/// What is known of a text as a short number of a region.
#[derive(Clone, Copy, PartialEq, Eq, Debug)]
pub struct ShortFacts {
    /// Whether the count of its digits is possible.
    pub is_possible: bool,
    /// Whether it is a short number of the region.
    pub is_valid: bool,
    /// What a call of it costs.
    pub cost: Cost,
    /// Whether only some carriers connect it.
    pub is_carrier_specific: bool,
    /// Whether it is an emergency number.
    pub is_emergency: bool,
    /// Whether it reaches emergency services.
    pub reaches_emergency: bool,
}

/// What is known under a region without a record.
const UNKNOWN: ShortFacts = ShortFacts {
    is_possible: false,
    is_valid: false,
    cost: Cost::Unknown,
    is_carrier_specific: false,
    is_emergency: false,
    reaches_emergency: false,
};

/// The answers of the six calls on a text, at once. Refused only for memory.
pub fn short_facts(db: &Plans, region: Id, text: &str) -> Result<ShortFacts, AllocError>
    ensures { IfOk result (λ facts. facts ≡ regions.short_facts db.now region (chars text.now)) }
{
    match db.by_id(region.as_str()) {
        Some(m) => facts_in(m, text),
        None => Ok(UNKNOWN),
    }
}

/// What is known of a text by a region's record. Refused only for memory.
fn facts_in(m: &Territory, text: &str) -> Result<ShortFacts, AllocError>
    ensures { IfOk result (λ facts. facts ≡ regions.facts_in m.now (chars text.now)) }
{
    let digits = digits_in(m.allocator(), text)?;
    let subject = Subject::of(digits.as_str());
    Ok(ShortFacts {
        is_possible: is_possible(m, digits.as_str()),
        is_valid: is_valid(m, &subject)?,
        cost: cost_in(m, &subject)?,
        is_carrier_specific: is_carrier_specific(m, &subject)?,
        is_emergency: is_emergency_in(m, text)?,
        reaches_emergency: reaches_emergency_in(m, text)?,
    })
}
