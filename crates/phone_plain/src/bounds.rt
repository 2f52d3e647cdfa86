//! How often a part of a pattern is repeated.
ghost use Rattle.std.specs.Prelude.{◌≡◌, IfOk, Some, true};
ghost use Rattle.regex_hir.specs.Meaning.{meaning, repeat};
ghost use Rattle.phone_plain.specs.Bytes.{begins, follows_count, follows_part, is_apart};
ghost use Rattle.phone_plain.specs.Counts.{IsCount, AreCounts, IsOperator, IsUpper, Repeats};

use crate::cursor::{Cursor, Stop, behind, digit, is_digit, peel};
use regex_hir::Hir;
use std::alloc::{AllocError, Global};

/// How often: at least and at most.
#[derive(Clone, Copy)]
pub(crate) struct Times {
    pub(crate) least: u32,
    pub(crate) most: u32,
}

/// Whether this byte may follow a part and its operator of repetition.
fn follows_part(byte: u8) -> bool
    ensures { result ≡ follows_part byte }
{
    is_digit(byte)
        || byte == b'$'
        || byte == b'('
        || byte == b')'
        || byte == b'['
        || byte == b'\\'
        || byte == b'|'
}

/// Whether nothing at the front belongs to the part before: no operator of repetition, no white
/// space, and no comment.
pub(crate) fn is_apart(text: &[u8]) -> bool
    ensures { result ≡ is_apart text.now }
{
    match peel(text) {
        Some((first, _)) => follows_part(first),
        None => true,
    }
}

/// Whether a count ends here.
fn ends_count(text: &[u8]) -> bool
    ensures { result ≡ begins follows_count text.now }
{
    match peel(text) {
        Some((first, _)) => first == b',' || first == b'}',
        None => false,
    }
}

/// Reads a count of one or two digits.
fn count(text: &[u8]) -> Result<(u32, &[u8]), Stop>
    ensures { IfOk result (λ p. IsCount text.now p.0 p.1.now) }
{
    let (tens, after) = digit(text)?;
    if ends_count(after) {
        return Ok(((tens - 48) as u32, after));
    }
    let (ones, end) = digit(after)?;
    if ends_count(end) {
        return Ok(((tens - 48) as u32 * 10 + (ones - 48) as u32, end));
    }
    Err(Stop::NotPlain)
}

/// Reads `n}`, of which the count was read, or `n,m}`, of which the first count was.
fn upper(least: u32, text: &[u8]) -> Result<(u32, &[u8]), Stop>
    ensures { IfOk result (λ p. IsUpper least text.now p.0 p.1.now) }
{
    if let Ok(rest) = behind(text, b'}') {
        return Ok((least, rest));
    }
    let (most, end) = count(behind(text, b',')?)?;
    let rest = behind(end, b'}')?;
    if most < least {
        return Err(Stop::NotPlain);
    }
    Ok((most, rest))
}

/// Reads `n}` or `n,m}`, after the opening brace. The greater count is not 0.
fn counts(text: &[u8]) -> Result<(Times, &[u8]), Stop>
    ensures { IfOk result (λ p. AreCounts text.now p.0 p.1.now) }
{
    let (least, after) = count(text)?;
    let (most, rest) = upper(least, after)?;
    if most == 0 {
        return Err(Stop::NotPlain);
    }
    Ok((Times { least, most }, rest))
}

/// Reads an operator of repetition.
fn operator(text: &[u8]) -> Result<(Times, &[u8]), Stop>
    ensures { IfOk result (λ p. IsOperator text.now p.0 p.1.now) }
{
    if let Ok(rest) = behind(text, b'?') {
        return Ok((Times { least: 0, most: 1 }, rest));
    }
    counts(behind(text, b'{')?)
}

/// The part, so often.
fn repetition(alloc: Global, times: Times, part: Hir) -> Result<Hir, AllocError>
    ensures { IfOk result (λ hir. meaning hir ≡
        repeat times.least (Some times.most) true (meaning part)) }
{
    Ok(Hir::Repetition {
        min: times.least,
        max: Some(times.most),
        greedy: true,
        sub: Box::new(alloc, part)?,
    })
}

/// The part, repeated as an operator at the front says, where one is there.
pub(crate) fn repeated<'a>(
    alloc: Global,
    part: Hir,
    from: Cursor<'a>,
) -> Result<(Hir, Cursor<'a>), Stop>
    ensures { IfOk result (λ p. Repeats part from.entry p.0 p.1) }
{
    if is_apart(from.rest) {
        return Ok((part, from));
    }
    let (times, rest) = operator(from.rest)?;
    if !is_apart(rest) {
        return Err(Stop::NotPlain);
    }
    let groups = from.groups;
    Ok((repetition(alloc, times, part)?, Cursor { rest, groups }))
}
