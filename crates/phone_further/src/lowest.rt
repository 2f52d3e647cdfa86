//! An example of a kind, of whatever region or calling code.
ghost use Rattle.std.specs.Prelude.{◌≡◌, ◌⊎◌, ℕ, Err, IfOk, List, None, Option, map, option_map};
ghost use Rattle.std.specs.Prelude.{Some, string_bytes};
ghost use Rattle.phone_further.specs.Examples.{IsExample};
ghost use Rattle.std.specs.Borrow.{Bor};
ghost use Rattle.phone_further.specs.Lowest.{AnswersAny, IsLeast, IsLowest, example_of_code};
ghost use Rattle.phone_further.specs.Lowest.{example_of_regions, gives, is_lower, is_served};
ghost use Rattle.phone_further.specs.Lowest.{region_example, seen, serves};
ghost use Rattle.phone_records.specs.Missing.{first_given};
ghost use Rattle.phone_records.specs.declared.loader.Metadata as loader;

use crate::examples::{code_example, example_in, if_worldwide, read_example};
use phone_plans::{Plans, Territory};
use phone_values::country::Id;
use phone_values::{ParseError, Type};
use phonenumber::PhoneNumber;
use std::alloc::AllocError;

/// An example of a number of a kind, of whatever region: that of the lowest calling code with a
/// region whose territory gives one, of these the first, read under the region; else that of the
/// lowest code which serves no region and has one, read behind a plus sign and the code. None where
/// no territory gives one. Refused as the example's text is; `Memory` where memory was refused.
pub fn example_of_kind(database: &Plans, kind: Type) -> Result<Option<PhoneNumber>, ParseError>
    ensures { AnswersAny database.now kind result }
{
    let found = lowest_of_regions(database, kind)?;
    match found {
        Some((region, text)) => read_example(database, Some(region), text),
        None => example_of_codes(database, kind),
    }
}

/// The same of the codes that serve no region.
fn example_of_codes(database: &Plans, kind: Type) -> Result<Option<PhoneNumber>, ParseError>
    ensures { (result ≡ Err ParseError.Memory) ⊎ ((text : Option (List ℕ)) ×
        IsLowest (example_of_code database.now kind) text ×
        IsExample database.now None text result) }
{
    let text = lowest_of_codes(database, kind)?;
    match text {
        Some(text) => read_example(database, None, text.as_str()),
        None => Ok(None),
    }
}

/// The example of a region of the lowest code that has one. Refused only for memory.
fn lowest_of_regions(database: &Plans, kind: Type) -> Result<Option<(Id, &str)>, AllocError>
    ensures { IfOk result (λ found. IsLowest (example_of_regions database.entry.now kind)
        (option_map seen found)) }
{
    match lowest_giving(kind, database.territories()) {
        Some(code) => of_lowest(database, kind, code),
        None => Ok(None),
    }
}

/// The same of the lowest code itself. Refused only for memory.
fn of_lowest(database: &Plans, kind: Type, code: u16) -> Result<Option<(Id, &str)>, AllocError>
    requires { IsLeast (gives kind) database.now (Some code) }
    ensures { IfOk result (λ found. IsLowest (example_of_regions database.entry.now kind)
        (option_map seen found)) }
{
    of_regions(database, kind, code)
}

/// The lowest code of those of these territories that give an example of a kind and are a region's.
fn lowest_giving(kind: Type, territories: &[Territory]) -> Option<u16>
    ensures { IsLeast (gives kind) territories.now result }
{
    let mut low = None;
    for m in territories {
        if is_lower(m.country_code(), low) && gives(kind, m) {
            low = Some(m.country_code());
        }
    }
    low
}

/// Whether a code is lower than what was found before.
fn is_lower(code: u16, low: Option<u16>) -> bool
    ensures { result ≡ is_lower code low }
{
    match low {
        Some(low) => code < low,
        None => true,
    }
}

/// Whether a territory gives an example of a kind and is a region's.
fn gives(kind: Type, m: &Territory) -> bool
    ensures { result ≡ gives kind m.now }
{
    region_example(kind, m).is_some()
}

/// The first example that a code's territories give. Refused only for memory.
fn of_regions(database: &Plans, kind: Type, code: u16) -> Result<Option<(Id, &str)>, AllocError>
    ensures { IfOk result (λ found. option_map seen found ≡
        example_of_regions database.entry.now kind code) }
{
    match database.by_code(&code)? {
        Some(found) => Ok(first_among(kind, found.as_slice())),
        None => Ok(None),
    }
}

/// The first example that these territories give.
fn first_among<'d>(kind: Type, found: &[&'d Territory]) -> Option<(Id, &'d str)>
    ensures { option_map seen result ≡ first_given (map (region_example kind)
        (map (λ (m : Bor loader.Metadata). m.now) found.now)) }
{
    for m in found {
        if let Some(found) = region_example(kind, m) {
            return Some(found);
        }
    }
    None
}

/// The region of a territory with the example that it gives of a kind.
fn region_example(kind: Type, m: &Territory) -> Option<(Id, &str)>
    ensures { option_map seen result ≡ region_example kind m.entry.now }
{
    let region = m.region()?;
    let text = example_in(m, kind)?;
    Some((region, text))
}

/// The example of the lowest code that serves no region and has one. Refused only for memory.
fn lowest_of_codes(database: &Plans, kind: Type) -> Result<Option<String>, AllocError>
    ensures { IfOk result (λ found. IsLowest (example_of_code database.now kind)
        (option_map string_bytes found)) }
{
    let low = lowest_serving(database, kind, database.territories())?;
    match low {
        Some(code) => of_lowest_code(database, kind, code),
        None => Ok(None),
    }
}

/// The same of the lowest code itself. Refused only for memory.
fn of_lowest_code(database: &Plans, kind: Type, code: u16) -> Result<Option<String>, AllocError>
    requires { IsLeast (serves database.now kind) database.now (Some code) }
    ensures { IfOk result (λ found. IsLowest (example_of_code database.now kind)
        (option_map string_bytes found)) }
{
    code_example(database, &[kind], code)
}

/// The lowest code of those of these territories that serves no region and has an example. Refused
/// only for memory.
fn lowest_serving(
    database: &Plans,
    kind: Type,
    territories: &[Territory],
) -> Result<Option<u16>, AllocError>
    ensures { IfOk result (IsLeast (serves database.now kind) territories.now) }
{
    let mut low = None;
    for m in territories {
        if is_lower(m.country_code(), low) && serves(database, kind, m)? {
            low = Some(m.country_code());
        }
    }
    Ok(low)
}

/// Whether a territory is no region's, gives an example of a kind, and its code has one. Refused
/// only for memory.
fn serves(database: &Plans, kind: Type, m: &Territory) -> Result<bool, AllocError>
    ensures { IfOk result (λ b. b ≡ serves database.now kind m.now) }
{
    if !is_served(kind, m) {
        return Ok(false);
    }
    Ok(code_example(database, &[kind], m.country_code())?.is_some())
}

/// Whether a territory is no region's and gives an example of a kind.
fn is_served(kind: Type, m: &Territory) -> bool
    ensures { result ≡ is_served kind m.now }
{
    example_in(m, kind).is_some() && if_worldwide(m).is_some()
}
