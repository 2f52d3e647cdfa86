//! The search for the places of a text that match.
ghost use Rattle.std.specs.Prelude.{◌≡◌, ◌++◌, ◌<◌, ℕ, List, [], IfOk, IfSome, MatchOption};
ghost use Rattle.std.specs.Prelude.{OnOk, chars};
ghost use Rattle.std.specs.Prelude.{length, map};
ghost use Rattle.std.specs.Option.{option_to_list};
ghost use Rattle.phone_chars.specs.Cuts.{IsEnd};
ghost use Rattle.phone_matches_text.specs.Candidates.{from_candidate};
ghost use Rattle.phone_matches_text.specs.Lent.{AllStandThere, StandsThere, told_pieces};
ghost use Rattle.phone_matches_text.specs.Shapes.{before_end};
ghost use Rattle.phone_matches.specs.Searches.{AreMatches, IsFirst, IsParted, IsStep};
ghost use Rattle.phone_matches.specs.Searches.{IsTried, behind, left_of, passed, placed};
ghost use Rattle.phone_matches.specs.Told.{AllMatchThere, IsWithin, told_found};
ghost use Rattle.phone_matches.specs.Told.{told_matches};

use crate::judge::Judge;
use crate::places::{Match, behind_place, judged, placed};
use crate::tries::count_tried;
use phone_chars::cuts::before;
use phone_matches_text::{Piece, behind, first_candidate, is_dated, pieces_of};
use std::alloc::{AllocError, Global};

/// What matches at a candidate.
#[derive(Drop)]
struct Outcome<'a, N> {
    /// What was found.
    found: Option<Match<'a, N>>,
    /// The tries that are left.
    left: u64,
}

/// One step of the search.
#[derive(Drop)]
struct Step<'a, N> {
    /// What was found.
    found: Option<Match<'a, N>>,
    /// The tries that are left.
    left: u64,
    /// Where the search goes on.
    rest: &'a str,
}

/// The first of these pieces of what stands at an end of the text that is accepted, and how many
/// before it aren't. Refused only for memory.
fn first_of<'a, N: Drop, J: Judge<N>>(
    alloc: Global,
    judge: &J,
    text: &'a str,
    from: &'a str,
    pieces: &[Piece<'a>],
) -> Result<(Option<Match<'a, N>>, usize), AllocError>
    requires end { IsEnd text.now from.now }
    requires stand { AllStandThere from.now pieces.now }
    ensures first { IfOk result (λ r. IsFirst (J.accepts judge.now) (chars text.now)
        (map (placed (before_end (chars text.now) (chars from.now))) (told_pieces pieces.now))
        (told_found r.0) r.1) }
    ensures within { IfOk result (λ r. IfSome r.0 (IsWithin text.now from.now)) }
{
    for at in 0..pieces.len() {
        let place = placed(text, from, &pieces[at]);
        if let Some(number) = judged(alloc, judge, text, place)? {
            return Ok((Some(Match { place, number }), at));
        }
    }
    Ok((None, pieces.len()))
}

/// What was found, with the tries that are left where so many pieces were refused.
fn left_behind<N: Drop>(tries: u64, failed: usize, found: Option<Match<'_, N>>) -> Outcome<'_, N>
    ensures found { result.found ≡ found.entry }
    ensures left { result.left ≡ left_of tries failed (told_found found.entry) }
{
    let left = tries.saturating_sub(failed as u64);
    match found {
        Some(found) => Outcome {
            found: Some(found),
            left,
        },
        None => Outcome {
            found: None,
            left: left.saturating_sub(1),
        },
    }
}

/// What matches in a candidate, which stands at an end of the text, where it doesn't match as a
/// whole. Refused only for memory.
fn tried_in_pieces<'a, N: Drop, J: Judge<N>>(
    alloc: Global,
    judge: &J,
    text: &'a str,
    from: &'a str,
    candidate: &'a str,
    tries: u64,
) -> Result<Outcome<'a, N>, AllocError>
    requires end { IsEnd text.now from.now }
    requires front { (v : List ℕ) × (from.now ≡ candidate.now ++ v) }
    ensures parted { IfOk result (λ o. IsParted (J.accepts judge.now) (chars text.now)
        (before_end (chars text.now) (chars from.now), chars candidate.now) tries
        (told_found o.found) o.left) }
    ensures within { IfOk result (λ o. IfSome o.found (IsWithin text.now from.now)) }
{
    let pieces = pieces_of(alloc, candidate)?;
    let all = pieces.as_slice();
    let count = count_tried(tries, all);
    let (found, failed) = first_of(alloc, judge, text, from, &all[..count])?;
    Ok(left_behind(tries, failed, found))
}

/// What matches at a candidate, which stands at an end of the text. Refused only for memory.
fn tried<'a, N: Drop, J: Judge<N>>(
    alloc: Global,
    judge: &J,
    text: &'a str,
    from: &'a str,
    candidate: &'a str,
    tries: u64,
) -> Result<Outcome<'a, N>, AllocError>
    requires end { IsEnd text.now from.now }
    requires front { (v : List ℕ) × (from.now ≡ candidate.now ++ v) }
    ensures tried { IfOk result (λ o. IsTried (J.accepts judge.now) (chars text.now)
        (before_end (chars text.now) (chars from.now), chars candidate.now) tries
        (told_found o.found) o.left) }
    ensures within { IfOk result (λ o. IfSome o.found (IsWithin text.now from.now)) }
{
    let place = Piece {
        before: before(text, from),
        text: candidate,
    };
    if is_dated(candidate, behind_place(text, place)) {
        return Ok(left_behind(tries, 0, None));
    }
    match judged(alloc, judge, text, place)? {
        Some(number) => Ok(left_behind(tries, 0, Some(Match { place, number }))),
        None => tried_in_pieces(alloc, judge, text, from, candidate, tries),
    }
}

/// Where the search goes on behind a candidate, which stands at an end of the text, or behind what
/// was found there.
fn rest_behind<'a, N: Drop>(
    text: &'a str,
    from: &'a str,
    candidate: &'a str,
    found: &Option<Match<'a, N>>,
) -> &'a str
    requires end { IsEnd text.now from.now }
    requires front { (v : List ℕ) × (from.now ≡ candidate.now ++ v) }
    requires some { ¬ (chars candidate.now ≡ []) }
    requires within { IfSome found.now (IsWithin text.now from.now) }
    ensures read { chars result.now ≡ behind (chars text.now)
        (passed (before_end (chars text.now) (chars from.now), chars candidate.now)
        (told_found found.now)) }
    ensures end { IsEnd text.now result.now }
    ensures shorter { length result.now < length from.now }
{
    let _front = before(text, from);
    match found {
        Some(found) => behind_place(text, found.place),
        None => behind(from, candidate),
    }
}

/// The next step of the search, from an end of the text on; none where no candidate is left.
/// Refused only for memory.
fn next_step<'a, N: Drop, J: Judge<N>>(
    alloc: Global,
    judge: &J,
    text: &'a str,
    rest: &'a str,
    tries: u64,
) -> Result<Option<Step<'a, N>>, AllocError>
    requires end { IsEnd text.now rest.now }
    ensures step { IfOk result (λ o. MatchOption o (from_candidate (chars rest.now) ≡ [])
        (λ s. IsStep (J.accepts judge.now) (chars text.now) tries (chars rest.now)
        (told_found s.found) s.left (chars s.rest.now))) }
    ensures end { IfOk result (λ o. IfSome o (λ s. IsEnd text.now s.rest.now)) }
    ensures shorter { IfOk result (λ o. IfSome o (λ s. length s.rest.now < length rest.now)) }
    ensures stands { IfOk result (λ o. IfSome o (λ s. IfSome s.found
        (λ m. StandsThere text.now m.place))) }
{
    let Some((from, candidate)) = first_candidate(rest) else {
        return Ok(None);
    };
    let Outcome { found, left } = tried(alloc, judge, text, from, candidate, tries)?;
    let rest = rest_behind(text, from, candidate, &found);
    Ok(Some(Step { found, left, rest }))
}

/// Puts what was found behind what was found before. Refused only for memory.
fn push_found<'a, N: Drop>(
    all: &mut Vec<Match<'a, N>>,
    found: Option<Match<'a, N>>,
) -> Result<(), AllocError>
    ensures told { OnOk result (told_matches all.new.items ≡
        told_matches all.old.items ++ option_to_list (told_found found.entry)) }
    ensures stand { OnOk result ((text : List ℕ) → AllMatchThere text all.old.items →
        IfSome found.entry (λ m. StandsThere text m.place) → AllMatchThere text all.new.items) }
{
    if let Some(found) = found {
        all.push(found)?;
    }
    Ok(())
}

/// The places of a text that match, in their order, by what a judge accepts, with so many tries.
/// Candidate by candidate: the candidate itself, where it is no date or time; else the first of its
/// pieces that is accepted. The search goes on behind a match, or behind a candidate without one.
/// Each candidate without match and each piece that is refused costs a try; without tries no
/// candidate is sought. Refused only for memory.
pub fn all_matches<'a, N: Drop, J: Judge<N>>(
    alloc: Global,
    judge: &J,
    text: &'a str,
    tries: u64,
) -> Result<Vec<Match<'a, N>>, AllocError>
    ensures matches { IfOk result (λ all. AreMatches (J.accepts judge.now) (chars text.now) tries
        (chars text.now) (told_matches all.items)) }
    ensures stand { IfOk result (λ all. AllMatchThere text.now all.items) }
{
    let mut all = Vec::new(alloc);
    let mut rest = text;
    let mut left = tries;
    while left > 0 {
        let Some(step) = next_step(alloc, judge, text, rest, left)? else {
            return Ok(all);
        };
        let Step {
            found,
            left: after,
            rest: on,
        } = step;
        push_found(&mut all, found)?;
        rest = on;
        left = after;
    }
    Ok(all)
}
