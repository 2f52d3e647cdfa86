//! The region of a number beside the hint.
ghost use Rattle.std.specs.Prelude.{◌≡◌, ◌↔◌, IfOk, IsTrue};
ghost use Rattle.std.specs.Str.{bytes_eq};
ghost use Rattle.phone_doubts.specs.Doubts.{IsElsewhere};
ghost use Rattle.phone_values.specs.Ids.{name};

use phone_engine::Engine;
use phone_values::country::Id;
use phonenumber::PhoneNumber;
use std::alloc::AllocError;

/// Whether a number has a region, and that isn't the hint. Refused only for memory.
pub(crate) fn is_elsewhere(
    engine: Engine<'_>,
    hint: Id,
    number: &PhoneNumber,
) -> Result<bool, AllocError>
    ensures { IfOk result (λ other. IsTrue other ↔ IsElsewhere engine.entry.rules
        engine.entry.database.now hint number.now) }
{
    match engine.facts(number)?.region {
        Some(region) => Ok(is_other(region, hint)),
        None => Ok(false),
    }
}

/// Whether two regions differ.
fn is_other(region: Id, hint: Id) -> bool
    ensures { IsTrue result ↔ ¬ (region ≡ hint) }
{
    !has_name_of(region, hint)
}

/// Whether two regions have one name.
fn has_name_of(region: Id, hint: Id) -> bool
    ensures { result ≡ bytes_eq (name region) (name hint) }
{
    region.as_str() == hint.as_str()
}
