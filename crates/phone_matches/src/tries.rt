//! Which pieces of a candidate are tried.
ghost use Rattle.std.specs.Prelude.{◌≡◌, ◌≤◌, ◌||◌, ◌&&◌, not, length, take, false, nat_lt};
ghost use Rattle.phone_matches_text.specs.Lent.{told_piece, told_pieces};
ghost use Rattle.phone_matches.specs.Searches.{is_front, tried};

use phone_chars::cuts::split_first;
use phone_matches_text::Piece;

/// Whether nothing stands before a piece.
fn is_front(piece: &Piece<'_>) -> bool
    ensures { result ≡ is_front (told_piece piece.now) }
{
    match split_first(piece.before) {
        Some(_) => false,
        None => true,
    }
}

/// Whether the next piece is tried.
fn is_next(behind_front: bool, left: u64) -> bool
    ensures { result ≡ (behind_front || nat_lt 0 left) }
{
    behind_front || left > 0
}

/// Whether the next piece stands behind a front of the candidate, which this piece is.
fn is_front_next(behind_front: bool, piece: &Piece<'_>) -> bool
    ensures { result ≡ (not behind_front && is_front (told_piece piece.now)) }
{
    !behind_front && is_front(piece)
}

/// How many of a candidate's pieces are tried, the first ones.
pub(crate) fn count_tried(tries: u64, pieces: &[Piece<'_>]) -> usize
    ensures within { result ≤ length pieces.now }
    ensures tried { take result (told_pieces pieces.now) ≡
        tried false tries (told_pieces pieces.now) }
{
    let mut behind_front = false;
    let mut left = tries;
    for at in 0..pieces.len() {
        if !is_next(behind_front, left) {
            return at;
        }
        behind_front = is_front_next(behind_front, &pieces[at]);
        left = left.saturating_sub(1);
    }
    pieces.len()
}
