//! The search for the pieces of a text that are accepted: the first and longest ones, which don't
//! overlap.
ghost use Rattle.std.specs.Prelude.{◌≡◌, ◌≤◌, ◌<◌, ◌+◌, ℕ, List, Option, false, length, IfOk};
ghost use Rattle.std.specs.Prelude.{MatchOption, IsCharBoundary};
ghost use Rattle.phone_find.specs.Founds.{AreFound, IsFirst, Stands, most_bytes};

use std::alloc::{AllocError, Global};

/// What was found in a text, and where: from the byte at `start` to before the byte at `end`.
#[derive(Drop)]
pub struct Found<N> {
    /// Where the piece begins, in bytes.
    pub start: usize,
    /// Where it ends, in bytes.
    pub end: usize,
    /// What it is read as.
    pub number: N,
}

/// What accepts pieces of a text.
pub trait Judge<N> {
    // What is accepted in a text, from one place to another, and as what.
    ghost accepts: { Self → List ℕ → (start end : ℕ) → N → Type 0 };

    /// Whether a piece may begin here: where the answer is no, none that begins here is accepted.
    fn may_begin(&self, text: &str, start: usize) -> bool
        requires border { IsCharBoundary text.now start }
        ensures { result ≡ false → (f : Found N) → Stands (accepts self.now text.now) text.now f →
            ¬ (f.start ≡ start) };

    /// How far a piece may reach that begins here: none that is accepted ends behind this byte.
    fn reach(&self, text: &str, start: usize) -> usize
        requires border { IsCharBoundary text.now start }
        ensures { (f : Found N) → Stands (accepts self.now text.now) text.now f →
            f.start ≡ start → f.end ≤ result };

    /// What a piece is accepted as; none where it isn't. Refused only for memory.
    fn judge(
        &self,
        alloc: Global,
        text: &str,
        start: usize,
        end: usize,
    ) -> Result<Option<N>, AllocError>
        requires from_border { IsCharBoundary text.now start }
        requires to_border { IsCharBoundary text.now end }
        requires some { start < end }
        ensures { IfOk result (λ told. MatchOption told
            ((n : N) → ¬ (accepts self.now text.now start end n))
            (λ n. accepts self.now text.now start end n)) };
}

/// The longest piece that begins here and is accepted; none where none is. Refused only for
/// memory.
fn longest_at<N: Drop, J: Judge<N>>(
    alloc: Global,
    judge: &J,
    text: &str,
    start: usize,
) -> Result<Option<Found<N>>, AllocError>
    requires border { IsCharBoundary text.now start }
    ensures { IfOk result (λ told. MatchOption told
        ((f : Found N) → Stands (J.accepts judge.now text.now) text.now f → ¬ (f.start ≡ start))
        (λ f. IsFirst (J.accepts judge.now text.now) text.now start f × (f.start ≡ start))) }
{
    if !judge.may_begin(text, start) {
        return Ok(None);
    }
    let most = text.len().min(start.saturating_add(250));
    let mut end = most.min(judge.reach(text, start));
    while end > start {
        if text.is_char_boundary(end) {
            if let Some(number) = judge.judge(alloc, text, start, end)? {
                return Ok(Some(Found { start, end, number }));
            }
        }
        end -= 1;
    }
    Ok(None)
}

/// The pieces of a text that a judge accepts, in their order: the first of all, of those that
/// begin at one place the longest, and then the same from its end on. Pieces have at most 250
/// bytes. Refused only for memory.
pub fn all_accepted<N: Drop, J: Judge<N>>(
    alloc: Global,
    judge: &J,
    text: &str,
) -> Result<Vec<Found<N>>, AllocError>
    ensures { IfOk result
        (λ all. AreFound (J.accepts judge.now text.now) text.now 0 all.items) }
{
    let mut all = Vec::new(alloc);
    let mut from = 0;
    while from < text.len() {
        match found_at(alloc, judge, text, from)? {
            Some(found) => {
                from = found.end;
                all.push(found)?;
            }
            None => from += 1,
        }
    }
    Ok(all)
}

/// The longest accepted piece that begins at this byte; none where none does, or where the byte
/// begins no character.
fn found_at<N: Drop, J: Judge<N>>(
    alloc: Global,
    judge: &J,
    text: &str,
    from: usize,
) -> Result<Option<Found<N>>, AllocError>
    ensures { IfOk result (λ told. MatchOption told
        ((f : Found N) → Stands (J.accepts judge.now text.now) text.now f → ¬ (f.start ≡ from))
        (λ f. IsFirst (J.accepts judge.now text.now) text.now from f × (f.start ≡ from))) }
{
    if !text.is_char_boundary(from) {
        return Ok(None);
    }
    longest_at(alloc, judge, text, from)
}
