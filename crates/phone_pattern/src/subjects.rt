//! Searches of a pattern in a text of which it is known whether it is of digits: by the pattern's
//! table where it is, and as `scans` does where it isn't, or where there is no table.
ghost use Rattle.std.specs.Prelude.{◌≡◌, ◌==◌, true, false, IfOk, string_bytes};
ghost use Rattle.std.specs.Option.{option_map_or};
ghost use Rattle.phone_pattern.specs.First.{at_start, is_whole_match, replaced};

use crate::plan::Plan;
use crate::scans;
use crate::subject::Subject;
use std::alloc::AllocError;

/// Whether the first match of a pattern begins at the first byte. Refused only for memory.
#[inline]
pub(crate) fn is_at_start(plan: &Plan, subject: &Subject<'_>) -> Result<bool, AllocError>
    ensures { IfOk result (λ b. b ≡ at_start plan.now subject.now) }
{
    if let Some(digits) = subject.as_digits() {
        if let Some(begins) = plan.begins_digits(digits) {
            return Ok(begins);
        }
    }
    scans::is_at_start(plan, subject.as_str())
}

/// Whether the first match of a pattern begins at the first byte and ends after the last. Refused
/// only for memory.
#[inline]
pub(crate) fn is_whole_match(plan: &Plan, subject: &Subject<'_>) -> Result<bool, AllocError>
    ensures { IfOk result (λ b. b ≡ is_whole_match plan.now subject.now) }
{
    let text = subject.as_str();
    if let Some(digits) = subject.as_digits() {
        if let Some(end) = plan.end_in_digits(digits) {
            return Ok(ends_at(end, text.len()));
        }
    }
    Ok(ends_at(scans::front_end(plan, text)?, text.len()))
}

/// Whether a match ends there.
#[inline]
fn ends_at(end: Option<usize>, place: usize) -> bool
    ensures { result ≡ option_map_or (λ e. e == place) end false }
{
    match end {
        Some(end) => end == place,
        None => false,
    }
}

/// The text with the first match of a pattern replaced by a template. Refused only for memory.
pub(crate) fn replace(
    plan: &Plan,
    template: &str,
    subject: &Subject<'_>,
) -> Result<String, AllocError>
    ensures { IfOk result (λ out. string_bytes out ≡
        replaced plan.now template.now subject.now) }
{
    if let Some(digits) = subject.as_digits() {
        if let Some(Some(end)) = plan.end_in_digits(digits) {
            if let Some(out) = plan.replace_at_front(template, digits, end)? {
                return Ok(out);
            }
        }
    }
    scans::replace(plan, template, subject.as_str())
}

/// The same where the pattern is known to match the whole text: it isn't searched for then.
pub(crate) fn replace_whole(
    plan: &Plan,
    template: &str,
    subject: &Subject<'_>,
) -> Result<String, AllocError>
    requires { is_whole_match plan.now subject.now ≡ true }
    ensures { IfOk result (λ out. string_bytes out ≡
        replaced plan.now template.now subject.now) }
{
    if let Some(digits) = subject.as_digits() {
        if let Some(out) = plan.replace_at_front(template, digits, digits.len())? {
            return Ok(out);
        }
    }
    scans::replace(plan, template, subject.as_str())
}
