//! Groups, sequences and branches.
ghost use Rattle.std.specs.Prelude.{◌≡◌, ◌<◌, ◌==◌, IfOk, length};
ghost use Rattle.phone_plain.specs.Bytes.{begins, ends_branch, starts_part};
ghost use Rattle.phone_plain.specs.Reads.{IsOpening, IsOther, IsRead, IsUnit, choice};
ghost use Rattle.phone_plain.specs.Reads.{left, part, sequence};

use crate::atoms::atom;
use crate::bounds::{is_apart, repeated};
use crate::cursor::{Cursor, Stop, add, behind, is_digit, peel};
use crate::trees::{first_that_works, grouped, one_after_another};
use regex_hir::Hir;
use std::alloc::Global;

/// The greatest number of groups.
const MOST_GROUPS: u32 = 1000;

/// Reads `(` or `(?:`, and tells whether the group captures.
fn open<'a>(from: Cursor<'a>) -> Result<(bool, Cursor<'a>), Stop>
    ensures { IfOk result (λ p. IsOpening from.entry p.0 p.1) }
{
    let rest = behind(from.rest, b'(')?;
    if is_apart(rest) && from.groups < MOST_GROUPS {
        let groups = from.groups + 1;
        return Ok((true, Cursor { rest, groups }));
    }
    let rest = behind(behind(rest, b'?')?, b':')?;
    let groups = from.groups;
    Ok((false, Cursor { rest, groups }))
}

/// Reads a group. Refused where groups nest deeper than told.
#[cycle(pattern)]
fn group<'a>(alloc: Global, from: Cursor<'a>, depth: u32) -> Result<(Hir, Cursor<'a>), Stop>
    ensures { IfOk result (λ p. IsUnit from.entry p.0 p.1) }
{
    if depth == 0 {
        return Err(Stop::NotPlain);
    }
    let (captures, inside) = open(from)?;
    let (sub, end) = read_choice(alloc, inside, depth - 1)?;
    let hir = grouped(alloc, captures, inside.groups, sub)?;
    let rest = behind(end.rest, b')')?;
    let groups = end.groups;
    Ok((hir, Cursor { rest, groups }))
}

/// Reads a group, or a part without parts of its own.
#[cycle(pattern)]
fn unit<'a>(alloc: Global, from: Cursor<'a>, depth: u32) -> Result<(Hir, Cursor<'a>), Stop>
    ensures { IfOk result (λ p. IsUnit from.entry p.0 p.1) }
{
    if behind(from.rest, b'(').is_ok() {
        group(alloc, from, depth)
    } else {
        atom(alloc, from)
    }
}

/// Reads a part, and how often it is repeated.
#[cycle(pattern)]
fn read_part<'a>(alloc: Global, from: Cursor<'a>, depth: u32) -> Result<(Hir, Cursor<'a>), Stop>
    ensures read { IfOk result (λ p. IsRead part 0 from.entry p.0 p.1) }
    ensures goes_on { IfOk result (λ p. left p.1 < left from.entry) }
{
    let (sub, after) = unit(alloc, from, depth)?;
    repeated(alloc, sub, after)
}

/// Whether a part begins here.
fn is_at_part(text: &[u8]) -> bool
    ensures { result ≡ begins starts_part text.now }
{
    match peel(text) {
        Some((first, _)) => {
            is_digit(first) || first == b'$' || first == b'(' || first == b'[' || first == b'\\'
        }
        None => false,
    }
}

/// Whether a branch ends here.
fn is_at_end(text: &[u8]) -> bool
    ensures { result ≡ ends_branch text.now }
{
    match peel(text) {
        Some((first, _)) => first == b'|' || first == b')',
        None => true,
    }
}

/// Reads parts up to the end of their branch.
#[cycle(pattern)]
fn read_sequence<'a>(alloc: Global, from: Cursor<'a>, depth: u32) -> Result<(Hir, Cursor<'a>), Stop>
    ensures { IfOk result (λ p. IsRead sequence 1 from.entry p.0 p.1) }
{
    let mut parts = Vec::new(alloc);
    let mut to = from;
    'parts: while is_at_part(to.rest) {
        let (part, after) = read_part(alloc, to, depth)?;
        add(&mut parts, part)?;
        to = after;
    }
    if !is_at_end(to.rest) {
        return Err(Stop::NotPlain);
    }
    Ok((one_after_another(parts), to))
}

/// Whether a bar is at the front.
fn is_at_bar(text: &[u8]) -> bool
    ensures { result ≡ begins (λ c. c == 124) text.now }
{
    match peel(text) {
        Some((first, _)) => first == b'|',
        None => false,
    }
}

/// Reads a branch behind a bar.
#[cycle(pattern)]
fn read_other<'a>(alloc: Global, from: Cursor<'a>, depth: u32) -> Result<(Hir, Cursor<'a>), Stop>
    ensures { IfOk result (λ p. IsOther from.entry p.0 p.1) }
{
    let rest = behind(from.rest, b'|')?;
    let groups = from.groups;
    read_sequence(alloc, Cursor { rest, groups }, depth)
}

/// Reads branches up to the end of the group or of the text.
#[cycle(pattern)]
pub(crate) fn read_choice<'a>(
    alloc: Global,
    from: Cursor<'a>,
    depth: u32,
) -> Result<(Hir, Cursor<'a>), Stop>
    ensures { IfOk result (λ p. IsRead choice 2 from.entry p.0 p.1) }
{
    let mut branches = Vec::new(alloc);
    let (first, after) = read_sequence(alloc, from, depth)?;
    add(&mut branches, first)?;
    let mut to = after;
    'branches: while is_at_bar(to.rest) {
        let (branch, after) = read_other(alloc, to, depth)?;
        add(&mut branches, branch)?;
        to = after;
    }
    Ok((first_that_works(branches), to))
}
