//! Trees of several parts.
ghost use Rattle.std.specs.Prelude.{◌≡◌, [], ◌∷◌, map, IfOk};
ghost use Rattle.regex_hir.specs.Meaning.{meaning, cat_all, alt_all};
ghost use Rattle.phone_automaton.specs.Ascii.{AsciiSame};
ghost use Rattle.phone_plain.specs.Reads.{in_group};

use regex_hir::Hir;
use std::alloc::{AllocError, Global};

/// These parts one after another.
pub(crate) fn one_after_another(mut parts: Vec<Hir>) -> Hir
    ensures { AsciiSame (meaning result) (cat_all (map meaning parts.items)) }
{
    if parts.len() == 1 {
        if let Some(only) = parts.pop() {
            return only;
        }
    }
    Hir::Concat(parts)
}

/// The first of these branches that works.
pub(crate) fn first_that_works(mut branches: Vec<Hir>) -> Hir
    ensures { AsciiSame (meaning result) (alt_all (map meaning branches.items)) }
{
    if branches.len() == 1 {
        if let Some(only) = branches.pop() {
            return only;
        }
    }
    Hir::Alternation(branches)
}

/// The tree as what a group captures, where it does.
pub(crate) fn grouped(
    alloc: Global,
    captures: bool,
    index: u32,
    sub: Hir,
) -> Result<Hir, AllocError>
    ensures { IfOk result (λ hir. meaning hir ≡ in_group captures index (meaning sub)) }
{
    if captures {
        Ok(Hir::Capture {
            index,
            sub: Box::new(alloc, sub)?,
        })
    } else {
        Ok(sub)
    }
}
