//! A pattern's tree with its classes of characters cut to ASCII. On a text of ASCII it matches as
//! the whole tree does, and its automaton is small: `\d` stands for hundreds of characters, of
//! which ten are ASCII.
ghost use Rattle.std.specs.Prelude.{◌≡◌, ℕ, false, map, IfOk, MatchOption};
ghost use Rattle.phone_automaton.specs.Ascii.{AsciiSame, in_ascii, in_ascii_part};
ghost use Rattle.regex_class.specs.Ranges.{HasExactly, in_range};
ghost use Rattle.regex_hir.specs.Meaning.{meaning, cat_all, alt_all};

use regex_class::Class;
use regex_hir::Hir;
use std::alloc::{AllocError, Global};

/// The last character of ASCII.
const LAST: u32 = 127;

/// The part of a range that is ASCII; none where it has none.
fn low_part(range: (u32, u32)) -> Option<(u32, u32)>
    ensures { MatchOption result ((c : ℕ) → in_ascii_part range c ≡ false)
        (λ low. (c : ℕ) → in_range low c ≡ in_ascii_part range c) }
{
    let (first, last) = range;
    if LAST < first {
        return None;
    }
    Some((first, if last < LAST { last } else { LAST }))
}

/// The members of a class that are ASCII.
fn cut(alloc: Global, class: &Class) -> Result<Class, AllocError>
    ensures { IfOk result (λ new. HasExactly new.ranges.items (in_ascii class.now.ranges.items)) }
{
    let ranges = class.ranges.as_slice();
    let mut kept = Vec::new(alloc);
    for i in 0..ranges.len() {
        if let Some(low) = low_part(ranges[i]) {
            kept.push(low)?;
        }
    }
    Class::new(kept)
}

/// The tree with its classes of characters cut to ASCII. Refused only for memory.
#[cycle(narrow)]
pub fn narrow_classes(alloc: Global, hir: &Hir) -> Result<Hir, AllocError>
    ensures { IfOk result (λ new. AsciiSame (meaning new) (meaning hir.now)) }
{
    match hir {
        Hir::Empty => Ok(Hir::Empty),
        Hir::Literal(bytes) => Ok(Hir::Literal(Vec::from_slice(alloc, bytes)?)),
        Hir::Bytes(class) => Ok(Hir::Bytes(class.clone()?)),
        Hir::Chars(class) => Ok(Hir::Chars(cut(alloc, class)?)),
        Hir::Look(look) => Ok(Hir::Look(*look)),
        Hir::Repetition {
            min,
            max,
            greedy,
            sub,
        } => Ok(Hir::Repetition {
            min: *min,
            max: *max,
            greedy: *greedy,
            sub: Box::new(alloc, narrow_classes(alloc, sub)?)?,
        }),
        Hir::Capture { index, sub } => Ok(Hir::Capture {
            index: *index,
            sub: Box::new(alloc, narrow_classes(alloc, sub)?)?,
        }),
        Hir::Concat(subs) => Ok(Hir::Concat(narrow_each(alloc, subs)?)),
        Hir::Alternation(subs) => Ok(Hir::Alternation(narrow_each(alloc, subs)?)),
    }
}

/// Each of these trees with its classes cut.
#[cycle(narrow)]
fn narrow_each(alloc: Global, subs: &[Hir]) -> Result<Vec<Hir>, AllocError>
    ensures sequence { IfOk result (λ new. AsciiSame (cat_all (map meaning new.items))
        (cat_all (map meaning subs.now))) }
    ensures choice { IfOk result (λ new. AsciiSame (alt_all (map meaning new.items))
        (alt_all (map meaning subs.now))) }
{
    let mut all = Vec::new(alloc);
    for i in 0..subs.len() {
        all.push(narrow_classes(alloc, &subs[i])?)?;
    }
    Ok(all)
}
