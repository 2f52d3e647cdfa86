//! What digits are among the short numbers of a region.
ghost use Rattle.std.specs.Prelude.{◌≡◌, ◌==◌, IfOk, Some};
ghost use Rattle.std.specs.List.{list_any};
ghost use Rattle.std.specs.Option.{option_copied};
ghost use Rattle.phone_short.specs.Numbers.{has_number, is_carrier_specific, is_possible, is_valid};

use phone_pattern::Subject;
use phone_territory::{Descriptor, Territory};
use std::alloc::AllocError;

/// Whether a descriptor is there and has the digits: it allows their count, and its pattern matches
/// all of them. Refused only for memory.
pub fn has_number(descriptor: Option<&Descriptor>, digits: &Subject<'_>) -> Result<bool, AllocError>
    ensures { IfOk result (λ b. b ≡ has_number (option_copied descriptor.entry) digits.now) }
{
    match descriptor {
        Some(descriptor) => has_digits(descriptor, digits),
        None => Ok(false),
    }
}

/// Whether a descriptor allows the count of the digits, and its pattern matches all of them.
/// Refused only for memory.
fn has_digits(descriptor: &Descriptor, digits: &Subject<'_>) -> Result<bool, AllocError>
    ensures { IfOk result (λ b. b ≡ has_number (Some descriptor.now) digits.now) }
{
    if !descriptor.allows_length(digits.as_str().len()) {
        return Ok(false);
    }
    descriptor.pattern().is_whole_match_in(digits)
}

/// Whether a count of digits is listed.
fn lists(lengths: &[u16], count: usize) -> bool
    ensures { result ≡ list_any (λ n. n == count) lengths.now }
{
    lengths.iter().any(|n| usize::from(*n) == count)
}

/// Whether the general descriptor lists the count of the digits. Takes no memory.
pub fn is_possible(m: &Territory, digits: &str) -> bool
    ensures { result ≡ is_possible m.now digits.now }
{
    lists(m.descriptors().general().possible_length(), digits.len())
}

/// Whether the digits are possible, and both the general descriptor and that of short codes have
/// them. Refused only for memory.
pub(crate) fn is_valid(m: &Territory, digits: &Subject<'_>) -> Result<bool, AllocError>
    ensures { IfOk result (λ b. b ≡ is_valid m.now digits.now) }
{
    let kinds = m.descriptors();
    if !is_possible(m, digits.as_str()) {
        return Ok(false);
    }
    Ok(has_digits(kinds.general(), digits)? && has_number(kinds.short_code(), digits)?)
}

/// Whether the carriers' descriptor has the digits. Refused only for memory.
pub(crate) fn is_carrier_specific(m: &Territory, digits: &Subject<'_>) -> Result<bool, AllocError>
    ensures { IfOk result (λ b. b ≡ is_carrier_specific m.now digits.now) }
{
    has_number(m.descriptors().carrier(), digits)
}
