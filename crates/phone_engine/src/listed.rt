//! What a database lists: its regions, and example numbers.
ghost use Rattle.std.specs.Prelude.{◌≡◌, ◌≤◌, IfOk, filter};
ghost use Rattle.phone_engine.specs.Listed.{AnswersExample, example_text, has_region};
ghost use Rattle.phone_engine.specs.Listed.{codes_below, listed_codes, listed_regions};

use crate::Engine;
use phone_plans::Plans;
use phone_values::country::{ALL, Id};
use phone_values::{ParseError, Type};
use phonenumber::PhoneNumber;
use std::alloc::AllocError;

/// The regions that a database has a territory of, each once, by the alphabet of their ids. Refused
/// only for memory.
pub fn regions(database: &Plans) -> Result<Vec<Id>, AllocError>
    ensures { IfOk result (λ v. v.items ≡ listed_regions database.now) }
{
    listed_among(database, &ALL)
}

/// Of these ids those that a database has a territory of. Refused only for memory.
fn listed_among(database: &Plans, ids: &[Id]) -> Result<Vec<Id>, AllocError>
    ensures { IfOk result (λ v. v.items ≡ filter (has_region database.now) ids.now) }
{
    let mut found = Vec::new(database.allocator());
    for id in ids {
        if has_region(database, *id) {
            found.push(*id)?;
        }
    }
    Ok(found)
}

/// Whether a database has a territory of a region.
#[tactic(auto, unfolding(crate::specs::Listed::has_region))]
fn has_region(database: &Plans, region: Id) -> bool
    ensures { result ≡ has_region database.now region }
{
    database.by_id(region.as_str()).is_some()
}

/// The calling codes that a database has a territory of, each once, ascending. Refused only for
/// memory.
pub fn codes(database: &Plans) -> Result<Vec<u16>, AllocError>
    ensures { IfOk result (λ v. v.items ≡ listed_codes database.now) }
{
    codes_below(database, 65536)
}

/// The calling codes below this number that a database has a territory of, ascending. Refused only
/// for memory.
fn codes_below(database: &Plans, end: u32) -> Result<Vec<u16>, AllocError>
    requires { end ≤ 65536 }
    ensures { IfOk result (λ v. v.items ≡ codes_below database.now end) }
{
    let mut found = Vec::new(database.allocator());
    for n in 0..end {
        let code = n as u16;
        if database.is_listed(&code) {
            found.push(code)?;
        }
    }
    Ok(found)
}

/// The example number of a region and a kind in an engine's database, read by its rules with the
/// region as hint: the engine's doesn't count. None where the database has no territory of the
/// region, the territory no descriptor of the kind, or that no example. Refused as
/// [`Engine::parse`] refuses the example's text; `Memory` where memory was refused.
pub fn example(
    engine: Engine<'_>,
    region: Id,
    kind: Type,
) -> Result<Option<PhoneNumber>, ParseError>
    ensures { AnswersExample engine.entry.rules engine.entry.database.now region
        (example_text engine.entry.database.now region kind) result }
{
    let Some(territory) = engine.database.by_id(region.as_str()) else {
        return Ok(None);
    };
    let Some(descriptor) = territory.descriptors().get(kind) else {
        return Ok(None);
    };
    let hinted = Engine {
        hint: Some(region),
        ..engine
    };
    match descriptor.example() {
        Some(text) => Ok(Some(hinted.parse(text)?)),
        None => Ok(None),
    }
}
