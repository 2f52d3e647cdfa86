//! What a database tells of a number, by libphonenumber's rules: its region, its kind, and whether
//! it is valid.
ghost use Rattle.std.specs.Prelude.{◌≡◌, IfOk, string_bytes};
ghost use Rattle.std.specs.Option.{option_and_then, option_map_or};
ghost use Rattle.phone_values.specs.Ids.{id_of};
ghost use Rattle.phone_values.specs.Numbers.{text_of};
ghost use Rattle.phone_values.specs.declared.kind.«Type».TheVariants.{Unknown};
ghost use Rattle.phone_library.specs.Facts.{is_valid_number, kind_of_number, region_of_number};
ghost use Rattle.phone_library.specs.Homes.{TellsKind};
ghost use Rattle.phone_library.specs.Told.{facts_by};
ghost use Rattle.phone_library.specs.Kinds.{kind_in, territory_in};
ghost use Rattle.phone_records.specs.declared.loader.Metadata as loader;

use crate::homes::{Home, home_in};
use crate::kinds::{is_known, kind_in};
use itoa::Buffer;
use phone_plans::Plans;
use phone_print::written::ROOM;
use phone_values::country::Id;
use phone_values::{NationalNumber, Type};
use phonenumber::PhoneNumber;
use std::alloc::{AllocError, Global};

/// What a database tells of a number.
#[derive(Clone, Copy, PartialEq, Eq, Debug)]
pub struct NumberFacts {
    /// The kind of number.
    pub kind: Type,
    /// The region's id, where the number has one.
    pub region: Option<Id>,
    /// Whether it is valid.
    pub is_valid: bool,
}

/// The region of a number, its kind, and whether it is valid, as [`region`], [`number_type`] and
/// [`is_valid`] tell them, at once. Refused only for memory.
pub fn facts(database: &Plans, number: &PhoneNumber) -> Result<NumberFacts, AllocError>
    ensures region { IfOk result (λ f. f.region ≡ region_of_number database.now number.now) }
    ensures kind { IfOk result (λ f. f.kind ≡ kind_of_number database.now number.now) }
    ensures is_valid { IfOk result (λ f. f.is_valid ≡ is_valid_number database.now number.now) }
{
    facts_told(database, number)
}

/// The same as one value.
fn facts_told(database: &Plans, number: &PhoneNumber) -> Result<NumberFacts, AllocError>
    ensures { IfOk result (λ f. f ≡ facts_by database.now number.now.code.value
        (text_of number.now.national)) }
{
    let national = number.national();
    if national.zeros() == 0 {
        let mut buffer = Buffer::new();
        let digits = buffer.format(national.value());
        return facts_in(database, number.code().value(), digits);
    }
    let digits = digits_of(database.allocator(), &national)?;
    facts_in(database, number.code().value(), digits.as_str())
}

/// The kind of a number in the territory that has it, its leading zeros counted as digits;
/// `Unknown` where none has it. Refused only for memory.
pub fn number_type(database: &Plans, number: &PhoneNumber) -> Result<Type, AllocError>
    ensures { IfOk result (λ kind. kind ≡ kind_of_number database.now number.now) }
{
    Ok(facts(database, number)?.kind)
}

/// Whether a number's kind is known in the territory that has it. Refused only for memory.
pub fn is_valid(database: &Plans, number: &PhoneNumber) -> Result<bool, AllocError>
    ensures { IfOk result (λ valid. valid ≡ is_valid_number database.now number.now) }
{
    Ok(facts(database, number)?.is_valid)
}

/// The id of the territory that has a number, its leading zeros counted as digits: the sole
/// territory of its calling code; of several the first whose leading digits match at its front, or
/// that has no leading digits and knows its kind. None where no territory has it, and where that
/// one's id is no region's. Refused only for memory.
pub fn region(database: &Plans, number: &PhoneNumber) -> Result<Option<Id>, AllocError>
    ensures { IfOk result (λ id. id ≡ region_of_number database.now number.now) }
{
    let national = number.national();
    if national.zeros() == 0 {
        let mut buffer = Buffer::new();
        let digits = buffer.format(national.value());
        return region_in(database, number.code().value(), digits);
    }
    let digits = digits_of(database.allocator(), &national)?;
    region_in(database, number.code().value(), digits.as_str())
}

/// The digits of a national number, its leading zeros among them, in a text of their own. Refused
/// only for memory.
fn digits_of(alloc: Global, national: &NationalNumber) -> Result<String, AllocError>
    ensures { IfOk result (λ digits. string_bytes digits ≡ text_of national.now) }
{
    let mut digits = String::with_capacity(alloc, ROOM)?;
    for _i in 0..national.zeros() {
        digits.push('0')?;
    }
    let mut buffer = Buffer::new();
    digits.push_str(buffer.format(national.value()))?;
    Ok(digits)
}

/// The region of digits of a calling code.
fn region_in(database: &Plans, code: u16, digits: &str) -> Result<Option<Id>, AllocError>
    ensures { IfOk result (λ id. id ≡ option_and_then
        (λ (m : loader.Metadata). option_and_then id_of m.id)
        (territory_in database.now code digits.now)) }
{
    match home_in(database, code, digits)? {
        Some(home) => Ok(home.territory.region()),
        None => Ok(None),
    }
}

/// What is told of digits of a calling code.
fn facts_in(database: &Plans, code: u16, digits: &str) -> Result<NumberFacts, AllocError>
    ensures { IfOk result (λ f. f ≡ facts_by database.now code digits.now) }
{
    let (region, kind) = region_and_kind_in(database, code, digits)?;
    Ok(NumberFacts {
        kind,
        region,
        is_valid: is_known(kind),
    })
}

/// The region of digits of a calling code, and their kind there.
fn region_and_kind_in(
    database: &Plans,
    code: u16,
    digits: &str,
) -> Result<(Option<Id>, Type), AllocError>
    ensures region { IfOk result (λ t. t.0 ≡ option_and_then
        (λ (m : loader.Metadata). option_and_then id_of m.id)
        (territory_in database.now code digits.now)) }
    ensures kind { IfOk result (λ t. t.1 ≡ option_map_or
        (λ (m : loader.Metadata). kind_in m digits.now)
        (territory_in database.now code digits.now) Unknown) }
{
    match home_in(database, code, digits)? {
        Some(home) => {
            let kind = kind_at(home, digits)?;
            Ok((home.territory.region(), kind))
        }
        None => Ok((None, Type::Unknown)),
    }
}

/// The kind of digits in the territory that has them.
fn kind_at(home: Home<'_>, digits: &str) -> Result<Type, AllocError>
    requires { TellsKind digits.now home }
    ensures { IfOk result (λ kind. kind ≡ kind_in home.entry.territory.now digits.now) }
{
    match home.kind {
        Some(kind) => Ok(kind),
        None => kind_in(home.territory, digits),
    }
}
