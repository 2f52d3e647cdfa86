//! Places of a text, told by what stands before them and their own text.
ghost use Rattle.std.specs.Prelude.{◌≡◌, ◌++◌, ◌+◌, ◌≤◌, ℕ, List, [], IfOk, IfSome, MatchOption};
ghost use Rattle.std.specs.Prelude.{chars, length};
ghost use Rattle.phone_chars.specs.Cuts.{IsEnd};
ghost use Rattle.phone_matches_text.specs.Lent.{StandsThere, told_piece};
ghost use Rattle.phone_matches_text.specs.Pieces.{Piece as Told};
ghost use Rattle.phone_matches_text.specs.Shapes.{before_end};
ghost use Rattle.phone_matches.specs.Searches.{IsAccepted, IsRefused, behind, placed};

use crate::judge::Judge;
use phone_chars::cuts::before;
use phone_matches_text::{Piece, behind};
use std::alloc::{AllocError, Global};

/// A place of a text that matches.
#[derive(Drop)]
pub struct Match<'a, N> {
    /// What stands before it in the text, and its own text.
    pub place: Piece<'a>,
    /// What it is accepted as.
    pub number: N,
}

/// What follows a place of a text.
pub(crate) fn behind_place<'a>(text: &'a str, place: Piece<'a>) -> &'a str
    requires { StandsThere text.now place }
    ensures read { chars result.now ≡ behind (chars text.now) (told_piece place.entry) }
    ensures whole { text.now ≡
        place.entry.before.now ++ (place.entry.text.now ++ result.now) }
{
    let from = behind(text, place.before);
    behind(from, place.text)
}

/// The place of a piece of what stands at an end of the text.
pub(crate) fn placed<'a>(text: &'a str, from: &'a str, piece: &Piece<'a>) -> Piece<'a>
    requires end { IsEnd text.now from.now }
    requires stands { StandsThere from.now piece.now }
    ensures told { told_piece result ≡
        placed (before_end (chars text.now) (chars from.now)) (told_piece piece.now) }
    ensures stands { StandsThere text.now result }
    ensures within { length text.now ≤ length result.before.now + length from.now }
{
    let _front = before(text, from);
    let at = behind(from, piece.before);
    Piece {
        before: before(text, at),
        text: piece.text,
    }
}

/// What a place of a text is accepted as; none where it isn't. Refused only for memory.
pub(crate) fn judged<N: Drop, J: Judge<N>>(
    alloc: Global,
    judge: &J,
    text: &str,
    place: Piece<'_>,
) -> Result<Option<N>, AllocError>
    requires { StandsThere text.now place }
    ensures told { IfOk result (λ told. MatchOption told
        (IsRefused (J.accepts judge.now) (chars text.now) (told_piece place.entry))
        (λ n. IsAccepted (J.accepts judge.now) (chars text.now) (told_piece place.entry) n)) }
    ensures some { IfOk result (λ told. IfSome told (λ _. ¬ (place.entry.text.now ≡ []))) }
{
    let after = behind_place(text, place);
    judge.judge(alloc, place.before, place.text, after)
}
