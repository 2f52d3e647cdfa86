//! Searches of a pattern: of texts of digits by a table, and of others as `scans` does.
ghost use Rattle.std.specs.Prelude.{◌≡◌, None, Some, IfOk, IfSome, string_bytes};
ghost use Rattle.phone_pattern.specs.First.{at_start, captured, first_span, front_end, replaced};
ghost use Rattle.phone_pattern.specs.First.{is_whole_match, AreCuts, IsCut};

use crate::pattern::Captured;
use crate::plan::Plan;
use crate::scans;
use std::alloc::AllocError;

/// Whether the first match of a pattern begins at the first byte. Refused only for memory.
#[inline]
pub(crate) fn is_at_start(plan: &Plan, text: &str) -> Result<bool, AllocError>
    ensures { IfOk result (λ b. b ≡ at_start plan.now text.now) }
{
    match plan.front_end_of_digits(text) {
        Some(end) => Ok(end.is_some()),
        None => scans::is_at_start(plan, text),
    }
}

/// Where the first match of a pattern ends, if it begins at the first byte. Refused only for
/// memory.
#[inline]
pub(crate) fn front_end(plan: &Plan, text: &str) -> Result<Option<usize>, AllocError>
    ensures end { IfOk result (λ end. end ≡ front_end plan.now text.now) }
    ensures border { IfOk result (λ end. IfSome end (λ e. IsCut text.now (0, e))) }
{
    match plan.front_end_of_digits(text) {
        Some(end) => Ok(end),
        None => scans::front_end(plan, text),
    }
}

/// Whether the first match of a pattern begins at the first byte and ends after the last. Refused
/// only for memory.
pub(crate) fn is_whole_match(plan: &Plan, text: &str) -> Result<bool, AllocError>
    ensures { IfOk result (λ b. b ≡ is_whole_match plan.now text.now) }
{
    match front_end(plan, text)? {
        Some(end) => Ok(end == text.len()),
        None => Ok(false),
    }
}

/// The bytes at which the first match of a pattern begins and ends. Refused only for memory.
pub(crate) fn first_span(plan: &Plan, text: &str) -> Result<Option<(usize, usize)>, AllocError>
    ensures span { IfOk result (λ found. found ≡ first_span plan.now text.now) }
    ensures borders { IfOk result (λ found. IfSome found (IsCut text.now)) }
{
    if let Some(Some(end)) = plan.front_end_of_digits(text) {
        return Ok(Some((0, end)));
    }
    scans::first_span(plan, text)
}

/// What the first match of a pattern captures. Refused only for memory.
pub(crate) fn captures(plan: &Plan, text: &str) -> Result<Option<Captured>, AllocError>
    ensures found { IfOk result (λ found. found ≡ captured plan.now text.now) }
    ensures borders { IfOk result (λ found. IfSome found (AreCuts text.now)) }
{
    if plan.groups() <= 1 {
        if let Some(Some(end)) = plan.front_end_of_digits(text) {
            return Ok(Some(without_groups(end)));
        }
    }
    scans::captures(plan, text)
}

/// What a match at the front captures, if its pattern has no groups.
fn without_groups(end: usize) -> Captured
    ensures span { result.span ≡ (0, end) }
    ensures first { result.first ≡ None }
    ensures last { result.last ≡ Some (0, end) }
{
    Captured {
        span: (0, end),
        first: None,
        last: Some((0, end)),
    }
}

/// The text with the first match of a pattern replaced by a template. Refused only for memory.
pub(crate) fn replace(plan: &Plan, template: &str, text: &str) -> Result<String, AllocError>
    ensures { IfOk result (λ out. string_bytes out ≡
        replaced plan.now template.now text.now) }
{
    if let Some(Some(end)) = plan.front_end_of_digits(text) {
        if let Some(out) = plan.replace_at_front(template, text, end)? {
            return Ok(out);
        }
    }
    scans::replace(plan, template, text)
}
