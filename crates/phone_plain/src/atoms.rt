//! Parts of a pattern without parts of their own.
ghost use Rattle.std.specs.Prelude.{◌≡◌, [], ◌∷◌, IfOk, IfErr};
ghost use Rattle.regex_class.specs.Ranges.{HasExactly, in_ranges};
ghost use Rattle.regex_hir.specs.Meaning.{meaning};
ghost use Rattle.regex_hir.specs.Re.{Re, literal};
ghost use Rattle.phone_plain.specs.Atoms.{IsAtom};
ghost use Rattle.phone_plain.specs.Reads.{IsUnit};

use crate::class::class;
use crate::cursor::{Cursor, Stop, behind, digit};
use regex_class::Class;
use regex_hir::{Hir, Look};
use std::alloc::{AllocError, Global};

/// This byte.
fn one_byte(alloc: Global, byte: u8) -> Result<Hir, AllocError>
    ensures { IfOk result (λ hir. meaning hir ≡ literal (byte ∷ [])) }
{
    let mut bytes = Vec::new(alloc);
    bytes.push(byte)?;
    Ok(Hir::Literal(bytes))
}

/// The digits of ASCII.
fn digits(alloc: Global) -> Result<Class, AllocError>
    ensures { IfOk result (λ class. HasExactly class.ranges.items (in_ranges ((48, 57) ∷ []))) }
{
    let mut ranges = Vec::new(alloc);
    ranges.push((48, 57))?;
    Ok(Class { ranges })
}

/// Reads `\d`.
fn any_digit(alloc: Global, text: &[u8]) -> Result<(Hir, &[u8]), Stop>
    ensures { IfOk result (λ p. IsAtom text.now p.0 p.1.now) }
{
    let rest = behind(behind(text, b'\\')?, b'd')?;
    Ok((Hir::Bytes(digits(alloc)?), rest))
}

/// Reads a class of digits.
fn digit_class(alloc: Global, text: &[u8]) -> Result<(Hir, &[u8]), Stop>
    ensures { IfOk result (λ p. IsAtom text.now p.0 p.1.now) }
{
    let (class, rest) = class(alloc, behind(text, b'[')?)?;
    Ok((Hir::Bytes(class), rest))
}

/// Reads `\d`, a class of digits, or `$`.
fn set_or_end(alloc: Global, text: &[u8]) -> Result<(Hir, &[u8]), Stop>
    ensures { IfOk result (λ p. IsAtom text.now p.0 p.1.now) }
{
    if let Ok(rest) = behind(text, b'$') {
        return Ok((Hir::Look(Look::End), rest));
    }
    if behind(text, b'[').is_ok() {
        digit_class(alloc, text)
    } else {
        any_digit(alloc, text)
    }
}

/// Reads a digit, `\d`, a class of digits, or `$`.
fn part(alloc: Global, text: &[u8]) -> Result<(Hir, &[u8]), Stop>
    ensures { IfOk result (λ p. IsAtom text.now p.0 p.1.now) }
{
    if let Ok((byte, rest)) = digit(text) {
        return Ok((one_byte(alloc, byte)?, rest));
    }
    set_or_end(alloc, text)
}

/// Reads a digit, `\d`, a class of digits, or `$`.
pub(crate) fn atom<'a>(alloc: Global, from: Cursor<'a>) -> Result<(Hir, Cursor<'a>), Stop>
    ensures { IfOk result (λ p. IsUnit from.entry p.0 p.1) }
{
    let (hir, rest) = part(alloc, from.rest)?;
    let groups = from.groups;
    Ok((hir, Cursor { rest, groups }))
}
