//! How strictly the numbers of a text are judged.
ghost use Rattle.std.specs.Prelude.{◌≡◌, IfOk, chars};
ghost use Rattle.phone_find.specs.Leniencies.{has_prefix_by, is_possible, suffices, suffices_in};

use phone_engine::{Engine, Possibility, Rules, possibility_of};
use phone_matches::has_prefix;
use phonenumber::PhoneNumber;
use std::alloc::AllocError;

/// What is asked of a number that stands in a text.
#[derive(Clone, Copy, PartialEq, Eq, Debug)]
pub enum Leniency {
    /// It is possible by the count of its digits, perhaps only inside its area.
    Possible,

    /// It is valid; by the rules of libphonenumber it has the national prefix that its layout
    /// writes, too.
    Valid,
}

/// Whether a number is possible, perhaps only inside its area. Refused only for memory.
fn is_possible(engine: Engine<'_>, number: &PhoneNumber) -> Result<bool, AllocError>
    ensures { IfOk result
        (λ b. b ≡ is_possible engine.entry.rules engine.entry.database.now number.now) }
{
    match possibility_of(engine, number)? {
        Possibility::Possible | Possibility::PossibleLocally => Ok(true),
        _ => Ok(false),
    }
}

/// Whether a number suffices. Refused only for memory.
fn suffices(
    engine: Engine<'_>,
    leniency: Leniency,
    number: &PhoneNumber,
) -> Result<bool, AllocError>
    ensures { IfOk result
        (λ b. b ≡ suffices engine.entry.rules engine.entry.database.now leniency number.now) }
{
    match leniency {
        Leniency::Possible => is_possible(engine, number),
        Leniency::Valid => engine.is_valid(number),
    }
}

/// Whether a number has in its text the national prefix that it should have. Refused only for
/// memory.
fn has_prefix_by(
    engine: Engine<'_>,
    leniency: Leniency,
    number: &PhoneNumber,
    text: &str,
) -> Result<bool, AllocError>
    ensures { IfOk result (λ b. b ≡ has_prefix_by engine.entry.rules engine.entry.database.now
        leniency number.now (chars text.now)) }
{
    match (engine.rules, leniency) {
        (Rules::Library, Leniency::Valid) => has_prefix(engine.database, number, text),
        _ => Ok(true),
    }
}

/// Whether a number that is read from a text suffices there. Refused only for memory.
pub(crate) fn suffices_in(
    engine: Engine<'_>,
    leniency: Leniency,
    number: &PhoneNumber,
    text: &str,
) -> Result<bool, AllocError>
    ensures { IfOk result (λ b. b ≡ suffices_in engine.entry.rules engine.entry.database.now
        leniency (chars text.now) number.now) }
{
    if !suffices(engine, leniency, number)? {
        return Ok(false);
    }
    has_prefix_by(engine, leniency, number, text)
}
