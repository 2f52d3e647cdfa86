//! Whole patterns that are plain.
ghost use Rattle.std.specs.Prelude.{IfOk, IfSome};
ghost use Rattle.std.specs.Str.{chars};
ghost use Rattle.phone_plain.specs.Plain.{IsPlain};

use crate::cursor::{Cursor, Stop};
use crate::reading::read_choice;
use crate::size::size;
use regex_hir::Hir;
use std::alloc::{AllocError, Global};

/// How deep groups may nest. A group adds four levels at most: itself, its repetition, and the
/// sequence and the branches that it stands in. The kit's parser refuses more than 250 levels.
const DEEPEST: u32 = 60;

/// What is read of a plain pattern.
#[derive(Drop)]
pub struct PlainPattern {
    /// Matches texts of ASCII as the pattern does.
    pub hir: Hir,
    /// How many groups capture, without the match itself. None has a name.
    pub groups: u32,
    /// The classes and bytes after counts are multiplied out, at most `u32::MAX`.
    pub size: u32,
}

/// Reads a whole text of ASCII.
fn entire(alloc: Global, text: &[u8]) -> Result<PlainPattern, Stop>
    ensures { IfOk result (λ found. IsPlain text.now found) }
{
    let from = Cursor {
        rest: text,
        groups: 0,
    };
    let (hir, to) = read_choice(alloc, from, DEEPEST)?;
    if to.rest.len() > 0 {
        return Err(Stop::NotPlain);
    }
    let size = size(&hir);
    let groups = to.groups;
    Ok(PlainPattern { hir, groups, size })
}

/// Reads the text of a pattern under flag x, if it is plain: of digits, `\d`, classes of digits,
/// groups, branches, counts up to 99, `?` and `$`. `None` says nothing of the text: it may be a
/// pattern that is not plain. Refused only for memory.
pub fn plain(alloc: Global, text: &str) -> Result<Option<PlainPattern>, AllocError>
    ensures { IfOk result (λ found. IfSome found (IsPlain (chars text.now))) }
{
    if !text.is_ascii() {
        return Ok(None);
    }
    match entire(alloc, text.as_bytes()) {
        Ok(found) => Ok(Some(found)),
        Err(Stop::NotPlain) => Ok(None),
        Err(Stop::Memory) => Err(AllocError),
    }
}
