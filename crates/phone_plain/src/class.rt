//! Classes of digits in brackets.
ghost use Rattle.std.specs.Prelude.{◌≡◌, ◌≤◌, ℕ, List, ◌∷◌, IfOk, IsTrue};
ghost use Rattle.regex_class.specs.Ranges.{HasExactly, IsCanonical, in_ranges};
ghost use Rattle.phone_plain.specs.Bytes.{begins, follows_member};
ghost use Rattle.phone_plain.specs.Classes.{IsMember, AreMembers, IsClass};

use crate::cursor::{Stop, add, behind, digit, is_digit, peel};
use regex_class::Class;
use std::alloc::{AllocError, Global};

/// The code of the last digit.
const LAST_DIGIT: u32 = 57;

/// Whether a digit is at the front.
fn is_at_digit(text: &[u8]) -> bool {
    match peel(text) {
        Some((first, _)) => is_digit(first),
        None => false,
    }
}

/// Whether a digit in brackets is no start of a range, by what follows it.
fn is_lone(text: &[u8]) -> bool
    ensures { result ≡ begins follows_member text.now }
{
    match peel(text) {
        Some((first, _)) => is_digit(first) || first == b']',
        None => false,
    }
}

/// Reads a digit, or a range of two with a hyphen between them.
fn member(text: &[u8]) -> Result<((u32, u32), &[u8]), Stop>
    ensures { IfOk result (λ p. IsMember text.now p.0 p.1.now) }
{
    let (low, after) = digit(text)?;
    if is_lone(after) {
        return Ok(((low as u32, low as u32), after));
    }
    let upper = behind(after, b'-')?;
    let (high, end) = digit(upper)?;
    if high < low {
        return Err(Stop::NotPlain);
    }
    Ok(((low as u32, high as u32), end))
}

/// Reads digits and ranges, as far as they go.
fn members(alloc: Global, text: &[u8]) -> Result<(Vec<(u32, u32)>, &[u8]), Stop>
    ensures { IfOk result (λ p. AreMembers text.now p.0.items p.1.now) }
{
    let mut ranges = Vec::new(alloc);
    let mut rest = text;
    while is_at_digit(rest) {
        let (range, after) = member(rest)?;
        add(&mut ranges, range)?;
        rest = after;
    }
    Ok((ranges, rest))
}

/// Whether the ranges rise with a gap between any two, and none is empty.
fn rises(ranges: &[(u32, u32)]) -> bool
    ensures { IsTrue result → IsCanonical ranges.now }
{
    let mut least = 0;
    for i in 0..ranges.len() {
        let (first, last) = ranges[i];
        if first < least || last < first || LAST_DIGIT < last {
            return false;
        }
        least = last + 2;
    }
    true
}

/// The class of these ranges.
fn class_of(ranges: Vec<(u32, u32)>) -> Result<Class, AllocError>
    ensures { IfOk result (λ class. HasExactly class.ranges.items (in_ranges ranges.items)) }
{
    if rises(ranges.as_slice()) {
        return Ok(Class { ranges });
    }
    Class::new(ranges)
}

/// Reads a class, after its opening bracket.
pub(crate) fn class(alloc: Global, text: &[u8]) -> Result<(Class, &[u8]), Stop>
    ensures { IfOk result (λ p. IsClass text.now p.0 p.1.now) }
{
    digit(text)?;
    let (ranges, end) = members(alloc, text)?;
    let rest = behind(end, b']')?;
    Ok((class_of(ranges)?, rest))
}
