//! What is known of a text as a short number, as plain numbers.
ghost use Rattle.std.specs.Prelude.{◌≡◌, ◌↔◌, None, IsUtf8};
ghost use Rattle.phone_values.specs.Ids.{id_of};
ghost use Rattle.phone_c_base.specs.ShortNumbers.{AreShortFacts, cost_number, flag, plain_facts};

use crate::hint::id_of;
use crate::status::{MEMORY, NO_REGION, NOT_UTF8, OK};
use phone_plans::Plans;
use phone_short::{Cost, ShortFacts, short_facts};
use std::alloc::Global;

/// What is known of a text as a short number of a region. Each but the cost is 1, else 0.
#[repr(C)]
#[derive(Clone, Copy, Debug, PartialEq, Eq)]
pub struct PlainFacts {
    /// What a call costs: 0 nothing, 1 the standard rate, 2 a premium rate, 3 unknown.
    pub cost: u32,
    /// Whether the count of its digits is possible.
    pub is_possible: u8,
    /// Whether it is a short number of the region.
    pub is_valid: u8,
    /// Whether only some carriers connect it.
    pub is_carrier_specific: u8,
    /// Whether it is an emergency number.
    pub is_emergency: u8,
    /// Whether it reaches emergency services.
    pub reaches_emergency: u8,
}

/// A cost by its number.
pub fn cost_number(cost: Cost) -> u32
    ensures { result ≡ cost_number cost }
{
    match cost {
        Cost::TollFree => 0,
        Cost::StandardRate => 1,
        Cost::PremiumRate => 2,
        Cost::Unknown => 3,
    }
}

/// 1 where it is so, else 0.
pub fn flag(is_so: bool) -> u8
    ensures { result ≡ flag is_so }
{
    if is_so { 1 } else { 0 }
}

/// What is known of a short number, as plain numbers.
fn plain_facts(facts: &ShortFacts) -> PlainFacts
    ensures { result ≡ plain_facts facts.now }
{
    PlainFacts {
        cost: cost_number(facts.cost),
        is_possible: flag(facts.is_possible),
        is_valid: flag(facts.is_valid),
        is_carrier_specific: flag(facts.is_carrier_specific),
        is_emergency: flag(facts.is_emergency),
        reaches_emergency: flag(facts.reaches_emergency),
    }
}

/// Tells what is known of a text as a short number of a region, under a database of short numbers.
pub fn short(database: &Plans, region: &[u8], text: &[u8], facts: &mut PlainFacts) -> u32
    ensures told { result ≡ OK → AreShortFacts database.now region.now text.now facts.new }
    ensures no_region { (result ≡ NO_REGION) ↔ (id_of region.now ≡ None) }
    ensures not_utf8 { (result ≡ NOT_UTF8) ↔
        (¬ (id_of region.now ≡ None) × ¬ (IsUtf8 text.now)) }
    ensures other { ¬ (result ≡ OK) → ¬ (result ≡ NO_REGION) → ¬ (result ≡ NOT_UTF8) →
        result ≡ MEMORY }
    ensures untouched { ¬ (result ≡ OK) → facts.new ≡ facts.old }
{
    let Some(region) = id_of(region) else {
        return NO_REGION;
    };
    let Ok(text) = std::str::from_utf8(text) else {
        return NOT_UTF8;
    };
    match short_facts(database, region, text) {
        Ok(told) => {
            *facts = plain_facts(&told);
            OK
        }
        Err(_) => MEMORY,
    }
}
