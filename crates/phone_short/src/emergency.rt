//! Emergency numbers of a region, and what reaches emergency services.
ghost use Rattle.std.specs.Prelude.{◌≡◌, IfOk, chars, true};
ghost use Rattle.std.specs.List.{list_all};
ghost use Rattle.phone_chars.specs.Characters.{is_digit};
ghost use Rattle.phone_short.specs.Emergencies.{begins_with_emergency, connects, is_emergency_in};
ghost use Rattle.phone_short.specs.Emergencies.{is_emergency_number, is_exact};
ghost use Rattle.phone_short.specs.Emergencies.{reaches_emergency_in};

use crate::digits::{digits_in, is_dialled_within};
use phone_chars::cuts::{before, split_first};
use phone_territory::Territory;
use std::alloc::AllocError;

/// Whether digits are an emergency number: the pattern of these matches all of them. Refused only
/// for memory.
pub(crate) fn is_emergency_number(m: &Territory, digits: &str) -> Result<bool, AllocError>
    ensures { IfOk result (λ b. b ≡ is_emergency_number m.now digits.now) }
{
    match m.descriptors().emergency() {
        Some(descriptor) => descriptor.pattern().is_whole_match(digits),
        None => Ok(false),
    }
}

/// Whether digits begin with an emergency number. Each of their fronts is asked; a pattern is left
/// at the first digit that none of its numbers has there. Refused only for memory.
fn begins_with_emergency(m: &Territory, digits: &str) -> Result<bool, AllocError>
    requires { list_all is_digit digits.now ≡ true }
    ensures { IfOk result (λ b. b ≡ begins_with_emergency m.now digits.now) }
{
    let mut rest = digits;
    while let Some((_, after)) = split_first(rest) {
        if is_emergency_number(m, before(digits, rest))? {
            return Ok(true);
        }
        rest = after;
    }
    is_emergency_number(m, digits)
}

/// Whether the region is one in which an emergency number connects only where nothing follows it.
fn is_exact(m: &Territory) -> bool
    ensures { result ≡ is_exact m.now }
{
    matches!(m.id(), "BR" | "CL" | "NI")
}

/// Whether digits reach emergency services. Refused only for memory.
fn connects(m: &Territory, digits: &str) -> Result<bool, AllocError>
    requires { list_all is_digit digits.now ≡ true }
    ensures { IfOk result (λ b. b ≡ connects m.now digits.now) }
{
    if is_exact(m) {
        is_emergency_number(m, digits)
    } else {
        begins_with_emergency(m, digits)
    }
}

/// Whether a text is an emergency number: it is dialled within the region, and its digits are one.
/// Refused only for memory.
pub(crate) fn is_emergency_in(m: &Territory, text: &str) -> Result<bool, AllocError>
    ensures { IfOk result (λ b. b ≡ is_emergency_in m.now (chars text.now)) }
{
    if !is_dialled_within(text) {
        return Ok(false);
    }
    let digits = digits_in(m.allocator(), text)?;
    is_emergency_number(m, digits.as_str())
}

/// Whether a text reaches emergency services: it is dialled within the region, and its digits do.
/// Refused only for memory.
pub(crate) fn reaches_emergency_in(m: &Territory, text: &str) -> Result<bool, AllocError>
    ensures { IfOk result (λ b. b ≡ reaches_emergency_in m.now (chars text.now)) }
{
    if !is_dialled_within(text) {
        return Ok(false);
    }
    let digits = digits_in(m.allocator(), text)?;
    connects(m, digits.as_str())
}
