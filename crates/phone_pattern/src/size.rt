//! How large a pattern may get when it is compiled. A table is opened without compiling its
//! patterns, and a pattern that compiles to more than 10 MiB is refused all the same: so one that
//! may be that large is compiled where the table is opened.
use regex_hir::Hir;

/// A pattern with at most so many ranges of characters and literal bytes, its repetitions written
/// out, compiles to less than 10 MiB: a range of characters takes some 200 bytes.
pub(crate) const MOST_PARTS: u32 = 10_000;

/// Whether a pattern may compile to more than 10 MiB.
pub(crate) fn may_be_too_large(hir: &Hir) -> bool {
    parts(hir) > MOST_PARTS as usize
}

/// The number of ranges of characters and literal bytes in a tree, with its repetitions written
/// out.
#[cycle(size)]
fn parts(hir: &Hir) -> usize {
    match hir {
        Hir::Empty => 1,
        Hir::Literal(bytes) => bytes.len().saturating_add(1),
        Hir::Bytes(class) => class.ranges.len().saturating_add(1),
        Hir::Chars(class) => class.ranges.len().saturating_add(1),
        Hir::Look(_) => 1,
        Hir::Repetition { min, max, sub, .. } => parts(sub).saturating_mul(rounds(*min, *max)),
        Hir::Capture { sub, .. } => parts(sub).saturating_add(2),
        Hir::Concat(subs) => parts_of_all(subs),
        Hir::Alternation(subs) => parts_of_all(subs),
    }
}

/// How often a repetition is written out, at least once.
fn rounds(min: u32, max: Option<u32>) -> usize {
    let most = match max {
        Some(max) => max,
        None => min.saturating_add(1),
    };
    (most as usize).saturating_add(1)
}

/// The same of several trees together.
#[cycle(size)]
fn parts_of_all(subs: &[Hir]) -> usize {
    let mut all = 0usize;
    for k in 0..subs.len() {
        all = all.saturating_add(parts(&subs[k]));
    }
    all
}
