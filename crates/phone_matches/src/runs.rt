//! Groups: the longest runs of characters of a set.
ghost use Rattle.std.specs.Prelude.{◌≡◌, ◌≤◌, ◌<◌, ◌∷◌, [], not, IfOk, IfSome};
ghost use Rattle.std.specs.Prelude.{MatchOption, chars, length};
ghost use Rattle.phone_chars.specs.Cuts.{after_front};
ghost use Rattle.phone_matches.specs.Runs.{groups, told};

use phone_chars::cuts::{CharSet, split_first, split_run};
use std::alloc::{AllocError, Global};

/// The text from its first character of the set on; nothing where it has none.
fn from_member<'a, S: CharSet>(text: &'a str, set: &S) -> &'a str
    ensures read { chars result.now ≡
        after_front (λ c. not (S.members set.now c)) (chars text.now) }
    ensures shorter { length result.now ≤ length text.now }
{
    let mut rest = text;
    while let Some((c, after)) = split_first(rest) {
        if set.has(c) {
            return rest;
        }
        rest = after;
    }
    rest
}

/// The first group of a text, as its bytes, and what follows it; none where it has none.
fn next_group<'a, S: CharSet>(text: &'a str, set: &S) -> Option<(&'a [u8], &'a str)>
    ensures read { MatchOption result (groups (S.members set.now) (chars text.now) ≡ [])
        (λ r. groups (S.members set.now) (chars text.now) ≡
        r.0.now ∷ groups (S.members set.now) (chars r.1.now)) }
    ensures shorter { IfSome result (λ r. length r.1.now < length text.now) }
{
    let from = from_member(text, set);
    if from.is_empty() {
        return None;
    }
    let (run, after) = split_run(from, set);
    Some((run.as_bytes(), after))
}

/// The longest runs of characters of the set, in their order, each as its bytes. Refused only for
/// memory.
pub fn groups<'a, S: CharSet>(
    alloc: Global,
    text: &'a str,
    set: &S,
) -> Result<Vec<&'a [u8]>, AllocError>
    ensures { IfOk result (λ all. told all.items ≡ groups (S.members set.now) (chars text.now)) }
{
    let mut all = Vec::new(alloc);
    let mut rest = text;
    while let Some((group, after)) = next_group(rest, set) {
        all.push(group)?;
        rest = after;
    }
    Ok(all)
}
