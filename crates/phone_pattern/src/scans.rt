//! Searches of texts that aren't of digits alone: by a machine of a pattern's automaton where the
//! text is of ASCII, and by its `Regex` where it isn't, where the machine gives up, and where
//! memory is refused for it.
ghost use Rattle.std.specs.Prelude.{◌≡◌, ◌<◌, All, None, Some, IfOk, IfSome, IsTrue, option_map};
ghost use Rattle.std.specs.Prelude.{string_bytes};
ghost use Rattle.phone_pattern.specs.First.{at_start, captured, first_span, front_end, replaced};
ghost use Rattle.phone_pattern.specs.First.{AreCuts, IsCut};
ghost use Rattle.phone_pattern.specs.Machines.{as_captured, Serves};

use crate::outline::Outline;
use crate::pattern::Captured;
use crate::plan::Plan;
use crate::uncached;
use phone_automaton::Machine;
use std::alloc::{AllocError, Global};

/// A machine of a pattern's automaton for a text; none where the text isn't of ASCII, where there
/// is no automaton, and where memory is refused.
#[inline]
fn take(alloc: Global, outline: &Outline, text: &str) -> Option<Box<Machine>>
    ensures own { IfSome result (λ m. outline.now.searcher ≡ Some m.value) }
    ensures ascii { IfSome result (λ m. All (λ x. x < 128) text.now) }
{
    if !is_ascii(text) {
        return None;
    }
    outline.take(alloc)
}

/// Whether the first match of a pattern begins at the first byte. Refused only for memory.
#[cold]
#[inline(never)]
pub(crate) fn is_at_start(plan: &Plan, text: &str) -> Result<bool, AllocError>
    ensures { IfOk result (λ b. b ≡ at_start plan.now text.now) }
{
    if let Some(outline) = plan.outline() {
        if !outline.may_match_front(text) {
            return Ok(false);
        }
        if let Some(mut machine) = take(plan.allocator(), outline, text) {
            let found = machine.is_at_front(text.as_bytes());
            outline.keep(machine);
            if let Some(found) = found {
                return Ok(found);
            }
        }
    }
    uncached::is_at_start(plan.allocator(), plan.regex()?, text)
}

/// Where the first match of a pattern ends, if it begins at the first byte. Refused only for
/// memory.
#[cold]
#[inline(never)]
pub(crate) fn front_end(plan: &Plan, text: &str) -> Result<Option<usize>, AllocError>
    ensures end { IfOk result (λ end. end ≡ front_end plan.now text.now) }
    ensures border { IfOk result (λ end. IfSome end (λ e. IsCut text.now (0, e))) }
{
    if let Some(outline) = plan.outline() {
        if !outline.may_match_front(text) {
            return Ok(None);
        }
        if let Some(mut machine) = take(plan.allocator(), outline, text) {
            let found = machine.front_end(text.as_bytes());
            outline.keep(machine);
            if let Some(end) = found {
                return Ok(end);
            }
        }
    }
    uncached::front_end(plan.allocator(), plan.regex()?, text)
}

/// The bytes at which the first match of a pattern begins and ends. Refused only for memory.
#[cold]
#[inline(never)]
pub(crate) fn first_span(plan: &Plan, text: &str) -> Result<Option<(usize, usize)>, AllocError>
    ensures span { IfOk result (λ found. found ≡ first_span plan.now text.now) }
    ensures borders { IfOk result (λ found. IfSome found (IsCut text.now)) }
{
    if let Some(outline) = plan.outline() {
        if let Some(mut machine) = take(plan.allocator(), outline, text) {
            let found = machine.span(text.as_bytes());
            outline.keep(machine);
            if let Some(found) = found {
                if is_cut_if_any(text, found) {
                    return Ok(found);
                }
            }
        }
    }
    uncached::first_span(plan.allocator(), plan.regex()?, text)
}

/// What the first match of a pattern captures. Refused only for memory.
#[cold]
#[inline(never)]
pub(crate) fn captures(plan: &Plan, text: &str) -> Result<Option<Captured>, AllocError>
    ensures found { IfOk result (λ found. found ≡ captured plan.now text.now) }
    ensures borders { IfOk result (λ found. IfSome found (AreCuts text.now)) }
{
    if let Some(outline) = plan.outline() {
        if let Some(mut machine) = take(plan.allocator(), outline, text) {
            let last = machine.last_group();
            let found = machine.captures(text.as_bytes());
            outline.keep(machine);
            if let Some(found) = found {
                let found = as_captured(last, found);
                if are_cuts_if_any(text, found) {
                    return Ok(found);
                }
            }
        }
    }
    uncached::captures(plan.allocator(), plan.regex()?, text)
}

/// The text with the first match of a pattern replaced by a template. Refused only for memory.
#[cold]
#[inline(never)]
pub(crate) fn replace(plan: &Plan, template: &str, text: &str) -> Result<String, AllocError>
    ensures { IfOk result (λ out. string_bytes out ≡
        replaced plan.now template.now text.now) }
{
    if let Some(outline) = plan.outline() {
        if let Some(mut machine) = take(plan.allocator(), outline, text) {
            let found = machine.replace(plan.allocator(), template, text);
            outline.keep(machine);
            if let Some(out) = found? {
                return Ok(out);
            }
        }
    }
    uncached::replace(plan.allocator(), plan.regex()?, template, text)
}

/// Whether a text is of ASCII. Most texts that are searched have some ten bytes: for so few a plain
/// loop takes half the instructions that `str::is_ascii` does.
#[inline]
fn is_ascii(text: &str) -> bool
    ensures { IsTrue result → All (λ x. x < 128) text.now }
{
    text.as_bytes().iter().all(|byte| *byte < 128)
}

/// What a machine captured, if its last group has this number: without groups there is no first
/// one.
fn as_captured(last: usize, found: Option<phone_automaton::Captured>) -> Option<Captured>
    ensures { result ≡ option_map (as_captured last) found }
{
    let found = found?;
    Some(Captured {
        span: found.span,
        first: if last > 0 { found.first } else { None },
        last: found.last,
    })
}

/// Whether a span lies in a text of ASCII: it begins and ends between characters then.
fn is_cut(text: &str, span: (usize, usize)) -> bool
    requires { All (λ x. x < 128) text.now }
    ensures { IsTrue result → IsCut text.now span }
{
    let (start, end) = span;
    start <= end && end <= text.len()
}

/// The same of a span that may be absent.
fn is_cut_if_any(text: &str, span: Option<(usize, usize)>) -> bool
    requires { All (λ x. x < 128) text.now }
    ensures { IsTrue result → IfSome span (IsCut text.now) }
{
    match span {
        Some(span) => is_cut(text, span),
        None => true,
    }
}

/// Whether all that is captured lies in a text of ASCII.
fn are_cuts_if_any(text: &str, captured: Option<Captured>) -> bool
    requires { All (λ x. x < 128) text.now }
    ensures { IsTrue result → IfSome captured (AreCuts text.now) }
{
    match captured {
        Some(captured) => {
            is_cut(text, captured.span)
                && is_cut_if_any(text, captured.first)
                && is_cut_if_any(text, captured.last)
        }
        None => true,
    }
}
