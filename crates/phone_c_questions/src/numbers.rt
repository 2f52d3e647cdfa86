//! What a database tells of a number that is given as plain numbers.
ghost use Rattle.std.specs.Prelude.{◌≡◌, ◌⊎◌, ◌↔◌, IfOk, IsUtf8, None};
ghost use Rattle.phone_c_base.specs.Kinds.{kind_of};
ghost use Rattle.phone_c_base.specs.Numbers.{AreNone};
ghost use Rattle.phone_c_questions.specs.Numbers.{AreNumberFacts, IsGeographicalAs};
ghost use Rattle.phone_c_questions.specs.Numbers.{IsPossibilityAs, IsValidityFor, number_facts};
ghost use Rattle.phone_c_questions.specs.Numbers.{validation_number};

use phone_c_base::asked::kind_of;
use phone_c_base::number::{Number, bare};
use phone_c_base::short::flag;
use phone_c_base::status::{BAD_NUMBER, MEMORY, NO_KIND, NOT_UTF8, OK};
use phone_plans::Plans;
use phone_questions::{details_of, is_geographical_kind, is_valid_for, possibility_as};
use phone_values::Validation;
use phonenumber::PhoneNumber;
use std::alloc::AllocError;

/// What is known of a number. Lengths are counts of digits; each of the others is 1, else 0.
#[repr(C)]
#[derive(Clone, Copy, Debug, PartialEq, Eq)]
pub struct NumberFacts {
    /// How many of its digits are its area's code.
    pub area_length: usize,
    /// How many are its national destination code.
    pub destination_length: usize,
    /// Whether it is of a place.
    pub is_geographical: u8,
    /// Whether it can be dialled from abroad.
    pub is_dialled_from_abroad: u8,
}

/// What is known of a number. Refused only for memory.
fn number_facts(database: &Plans, number: &PhoneNumber) -> Result<NumberFacts, AllocError>
    ensures { IfOk result (λ facts. facts ≡ number_facts database.now number.now) }
{
    let told = details_of(database, number)?;
    Ok(NumberFacts {
        area_length: told.area_length,
        destination_length: told.destination_length,
        is_geographical: flag(told.is_geographical),
        is_dialled_from_abroad: flag(told.is_dialled_from_abroad),
    })
}

/// What is known of a number that is given as plain numbers.
pub fn about_number(database: &Plans, number: &Number, facts: &mut NumberFacts) -> u32
    ensures told { result ≡ OK → AreNumberFacts database.now number.now facts.new }
    ensures bad { (result ≡ BAD_NUMBER) ↔ AreNone number.now }
    ensures other { ¬ (result ≡ OK) → ¬ (result ≡ BAD_NUMBER) → result ≡ MEMORY }
    ensures untouched { ¬ (result ≡ OK) → facts.new ≡ facts.old }
{
    let Some(number) = bare(number) else {
        return BAD_NUMBER;
    };
    match number_facts(database, &number) {
        Ok(told) => {
            *facts = told;
            OK
        }
        Err(_) => MEMORY,
    }
}

/// Whether a number is valid for the territory of its calling code that has this id: 1, else 0.
pub fn validity_for(database: &Plans, id: &[u8], number: &Number, told: &mut u8) -> u32
    ensures told { result ≡ OK → IsValidityFor database.now id.now number.now told.new }
    ensures not_utf8 { (result ≡ NOT_UTF8) ↔ ¬ (IsUtf8 id.now) }
    ensures bad { (result ≡ BAD_NUMBER) ↔ (IsUtf8 id.now × AreNone number.now) }
    ensures other { ¬ (result ≡ OK) → ¬ (result ≡ NOT_UTF8) → ¬ (result ≡ BAD_NUMBER) →
        result ≡ MEMORY }
    ensures untouched { ¬ (result ≡ OK) → told.new ≡ told.old }
{
    let Ok(id) = std::str::from_utf8(id) else {
        return NOT_UTF8;
    };
    let Some(number) = bare(number) else {
        return BAD_NUMBER;
    };
    match is_valid_for(database, id, &number) {
        Ok(is_valid) => {
            *told = flag(is_valid);
            OK
        }
        Err(_) => MEMORY,
    }
}

/// What a length says, by the number by which the calls for possible numbers tell it.
pub(crate) fn validation_number(verdict: Validation) -> u32
    ensures { result ≡ validation_number verdict }
{
    match verdict {
        Validation::IsPossible => 0,
        Validation::IsPossibleLocalOnly => 1,
        Validation::TooShort => 2,
        Validation::TooLong => 3,
        Validation::InvalidLength => 4,
        Validation::InvalidCountryCode => 5,
    }
}

/// What the count of a number's digits says of it as a number of a kind.
pub fn possibility_of_kind(database: &Plans, kind: u32, number: &Number, told: &mut u32) -> u32
    ensures told { result ≡ OK →
        IsPossibilityAs database.now kind number.now told.new }
    ensures no_kind { (result ≡ NO_KIND) ↔ (kind_of kind ≡ None) }
    ensures bad { (result ≡ BAD_NUMBER) ↔ (¬ (kind_of kind ≡ None) × AreNone number.now) }
    ensures other { ¬ (result ≡ OK) → ¬ (result ≡ NO_KIND) → ¬ (result ≡ BAD_NUMBER) →
        result ≡ MEMORY }
    ensures untouched { ¬ (result ≡ OK) → told.new ≡ told.old }
{
    let Some(kind) = kind_of(kind) else {
        return NO_KIND;
    };
    let Some(number) = bare(number) else {
        return BAD_NUMBER;
    };
    *told = validation_number(possibility_as(database, kind, &number));
    OK
}

/// Whether numbers of a kind are of a place under a calling code: 1, else 0.
pub fn geography(kind: u32, code: u16, told: &mut u8) -> u32
    ensures told { result ≡ OK → IsGeographicalAs kind code told.new }
    ensures no_kind { (result ≡ NO_KIND) ↔ (kind_of kind ≡ None) }
    ensures status { (result ≡ OK) ⊎ (result ≡ NO_KIND) }
    ensures untouched { ¬ (result ≡ OK) → told.new ≡ told.old }
{
    let Some(kind) = kind_of(kind) else {
        return NO_KIND;
    };
    *told = flag(is_geographical_kind(kind, code));
    OK
}
