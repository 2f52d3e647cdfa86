//! The region that a text names.
ghost use Rattle.std.specs.Prelude.{◌≡◌, IfOk};
ghost use Rattle.phone_places.specs.Names.{code_region, region_named, region_of};

use crate::countries::Countries;
use crate::id::id_in;
use phone_plans::Plans;
use phone_values::country::Id;
use std::alloc::AllocError;

/// The region of a calling code: the first of its territories, where that is a region's.
fn region_of(plans: &Plans, code: u16) -> Option<Id>
    ensures { result ≡ region_of plans.now code }
{
    let territory = plans.first_by_code(&code)?;
    territory.id().parse::<Id>().ok()
}

/// The region whose calling code a text is, with a plus sign in front or without.
fn code_region(plans: &Plans, text: &str) -> Option<Id>
    ensures { result ≡ code_region plans.now text.now }
{
    match text.parse::<u16>() {
        Ok(code) => region_of(plans, code),
        Err(_) => None,
    }
}

/// The region that a text names: by its id, in capital or small letters; else by a name of the
/// table, once it is folded; else by its calling code, in digits with a plus sign in front or
/// without, which names the first territory of the code. Refused only for memory.
pub fn region_named(
    countries: &Countries,
    plans: &Plans,
    text: &str,
) -> Result<Option<Id>, AllocError>
    ensures { IfOk result (λ found. found ≡ region_named countries.now plans.now text.now) }
{
    if let Some(id) = id_in(text) {
        return Ok(Some(id));
    }
    match countries.region(plans.allocator(), text)? {
        Some(id) => Ok(Some(id)),
        None => Ok(code_region(plans, text)),
    }
}
