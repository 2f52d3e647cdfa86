//! What is known of a number as a short number where its region isn't told, and examples of short
//! numbers.
ghost use Rattle.std.specs.Prelude.{◌≡◌, ◌⊎◌, ◌↔◌, IfOk, None, Some};
ghost use Rattle.std.specs.Option.{option_copied};
ghost use Rattle.phone_values.specs.Ids.{id_of};
ghost use Rattle.phone_c_base.specs.Buffers.{IsTooLongA, IsWrittenA};
ghost use Rattle.phone_c_base.specs.Numbers.{AreNone};
ghost use Rattle.phone_c_base.specs.ShortNumbers.{cost_number, flag};
ghost use Rattle.phone_c_questions.specs.ShortNumbers.{AreFactsAnywhere, HasExample, cost_asked};
ghost use Rattle.phone_c_questions.specs.ShortNumbers.{example_of, facts_anywhere};

use phone_c_base::buffer::give;
use phone_c_base::hint::id_of;
use phone_c_base::number::{Number, bare};
use phone_c_base::short::{cost_number, flag};
use phone_c_base::status::{BAD_NUMBER, MEMORY, NO_EXAMPLE, NO_REGION, NO_WORD, OK, TOO_SMALL};
use phone_further::{short_example, short_example_of_cost};
use phone_plans::Plans;
use phone_short::Cost;
use phone_values::country::Id;
use phonenumber::PhoneNumber;
use std::alloc::AllocError;

/// What is known of a number as a short number of any region of its calling code. Each but the cost
/// is 1, else 0.
#[repr(C)]
#[derive(Clone, Copy, Debug, PartialEq, Eq)]
pub struct FactsAnywhere {
    /// What a call costs: 0 nothing, 1 the standard rate, 2 a premium rate, 3 unknown.
    pub cost: u32,
    /// Whether the count of its digits is possible in some region.
    pub is_possible: u8,
    /// Whether it is a short number of some region.
    pub is_valid: u8,
    /// Whether only some carriers connect it.
    pub is_carrier_specific: u8,
}

/// What is known of a number. Refused only for memory.
fn facts_anywhere(
    database: &Plans,
    short: &Plans,
    number: &PhoneNumber,
) -> Result<FactsAnywhere, AllocError>
    ensures { IfOk result (λ facts. facts ≡
        facts_anywhere database.now short.now number.now) }
{
    let told = phone_further::facts_anywhere(database, short, number)?;
    Ok(FactsAnywhere {
        cost: cost_number(told.cost),
        is_possible: flag(told.is_possible),
        is_valid: flag(told.is_valid),
        is_carrier_specific: flag(told.is_carrier_specific),
    })
}

/// What is known of a number that is given as plain numbers, whose region isn't told. Its texts are
/// not looked at.
pub fn anywhere(database: &Plans, short: &Plans, number: &Number, facts: &mut FactsAnywhere) -> u32
    ensures told { result ≡ OK →
        AreFactsAnywhere database.now short.now number.now facts.new }
    ensures bad { (result ≡ BAD_NUMBER) ↔ AreNone number.now }
    ensures other { ¬ (result ≡ OK) → ¬ (result ≡ BAD_NUMBER) → result ≡ MEMORY }
    ensures untouched { ¬ (result ≡ OK) → facts.new ≡ facts.old }
{
    let Some(number) = bare(number) else {
        return BAD_NUMBER;
    };
    match facts_anywhere(database, short, &number) {
        Ok(told) => {
            *facts = told;
            OK
        }
        Err(_) => MEMORY,
    }
}

/// Of which cost an example is asked, by its number: of any for 4; none for others than these five.
fn cost_asked(number: u32) -> Option<Option<Cost>>
    ensures { result ≡ cost_asked number }
{
    match number {
        0 => Some(Some(Cost::TollFree)),
        1 => Some(Some(Cost::StandardRate)),
        2 => Some(Some(Cost::PremiumRate)),
        3 => Some(Some(Cost::Unknown)),
        4 => Some(None),
        _ => None,
    }
}

/// The example of a region's short numbers, of all or of those of a cost.
fn example_of(short: &Plans, region: Id, cost: Option<Cost>) -> Option<&str>
    ensures { option_copied result ≡ example_of short.entry.now region cost }
{
    match cost {
        Some(cost) => short_example_of_cost(short, region, cost),
        None => short_example(short, region),
    }
}

/// The example of a region's short numbers, of all or of those of a cost, in a buffer. Takes no
/// memory.
pub fn example(short: &Plans, region: &[u8], cost: u32, out: &mut [u8], wrote: &mut usize) -> u32
    ensures written { result ≡ OK → IsWrittenA
        (λ text. HasExample short.now region.now cost (Some text)) out.old out.new wrote.new }
    ensures too_small { result ≡ TOO_SMALL → IsTooLongA
        (λ text. HasExample short.now region.now cost (Some text)) out.old out.new wrote.new }
    ensures no_region { (result ≡ NO_REGION) ↔ (id_of region.now ≡ None) }
    ensures no_cost { (result ≡ NO_WORD) ↔
        (¬ (id_of region.now ≡ None) × (cost_asked cost ≡ None)) }
    ensures none { (result ≡ NO_EXAMPLE) ↔ HasExample short.now region.now cost None }
    ensures status { (result ≡ OK) ⊎ (result ≡ TOO_SMALL) ⊎ (result ≡ NO_REGION) ⊎
        (result ≡ NO_WORD) ⊎ (result ≡ NO_EXAMPLE) }
    ensures untouched { ¬ (result ≡ OK) → out.new ≡ out.old }
    ensures no_length { ¬ (result ≡ OK) → ¬ (result ≡ TOO_SMALL) → wrote.new ≡ 0 }
{
    *wrote = 0;
    let Some(region) = id_of(region) else {
        return NO_REGION;
    };
    let Some(cost) = cost_asked(cost) else {
        return NO_WORD;
    };
    match example_of(short, region, cost) {
        Some(text) => give(text.as_bytes(), out, wrote),
        None => NO_EXAMPLE,
    }
}
