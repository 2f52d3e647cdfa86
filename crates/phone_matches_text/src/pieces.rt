//! The pieces of a candidate that are tried one by one where the candidate itself is no number.
ghost use Rattle.std.specs.Prelude.{◌≡◌, ◌++◌, ◌<◌, ◌&&◌, ℕ, List, [], chars, drop, map};
ghost use Rattle.std.specs.Prelude.{IfOk, OnOk, IfSome, MatchOption, length};
ghost use Rattle.phone_chars.specs.Cuts.{IsEnd, after_front};
ghost use Rattle.phone_matches_text.specs.Lent.{AllStandThere, StandsThere, told_piece};
ghost use Rattle.phone_matches_text.specs.Lent.{told_pieces};
ghost use Rattle.phone_matches_text.specs.Pieces.{AreCuts, IsNextCut, Piece as Told, begins_sign};
ghost use Rattle.phone_matches_text.specs.Pieces.{piece_between};
ghost use Rattle.phone_matches_text.specs.Sets.{is_in};
ghost use Rattle.phone_parts.specs.Cores.{is_last};
ghost use Rattle.phone_matches_text.specs.Pieces.{AreAllPieces, ArePieces, ArePiecesBy};
ghost use Rattle.phone_matches_text.specs.Pieces.{behind_piece, behind_sign, from_one, from_sign};
ghost use Rattle.phone_matches_text.specs.Pieces.{after_spaces, goes_on, trimmed};

use crate::cuts::{between, has_some, peel};
use crate::neighbours::begins_in;
use crate::sets::Set;
use crate::shapes::{Always, AtLeastOne, Either, One, Shape, from_first};
use phone_chars::chars::{is_letter, is_number};
use phone_chars::cuts::{CharSet, after_run, before, split_last};
use std::alloc::{AllocError, Global};

/// What parts a candidate into pieces.
#[derive(Clone, Copy)]
pub enum Sign {
    /// Slashes: what follows the first of them.
    Slashes,
    /// A round bracket: from each one to the next.
    Bracket,
    /// A hyphen beside a space: what follows the first.
    SpacedHyphen,
    /// A wide dash: what follows the first.
    WideDash,
    /// Full stops: what stands between them.
    Dots,
    /// Spaces: the words between them.
    Spaces,
}

/// The signs in their order.
const SIGNS: [Sign; 6] = [
    Sign::Slashes,
    Sign::Bracket,
    Sign::SpacedHyphen,
    Sign::WideDash,
    Sign::Dots,
    Sign::Spaces,
];

/// A piece of a text.
#[derive(Clone, Copy)]
pub struct Piece<'a> {
    /// What stands before it.
    pub before: &'a str,
    /// Its own text.
    pub text: &'a str,
}

/// Some character.
#[derive(Clone, Copy)]
struct IsSome;

impl Shape for IsSome {
    ghost use Rattle.phone_matches_text.specs.Pieces.{is_some};

    ghost passes = { λ _. is_some };

    fn passes(&self, text: &str) -> bool {
        has_some(text)
    }
}

/// A character of a set, whatever follows it.
#[derive(Clone, Copy)]
struct Single {
    set: Set,
}

impl Shape for Single {
    ghost use Rattle.phone_matches_text.specs.Pieces.{begins_one};

    ghost passes = { λ s. begins_one s.set };

    fn passes(&self, text: &str) -> bool {
        One {
            set: self.set,
            then: Always,
        }
        .passes(text)
    }
}

/// Where a sign begins.
impl Shape for Sign {
    ghost use Rattle.phone_matches_text.specs.Pieces.{begins_sign};

    ghost passes = { λ s. begins_sign s };

    fn passes(&self, text: &str) -> bool {
        match self {
            Sign::Slashes => Single { set: Set::Slash }.passes(text),
            Sign::Bracket => Single { set: Set::Round }.passes(text),
            Sign::SpacedHyphen => begins_spaced_hyphen(text),
            Sign::WideDash => One {
                set: Set::WideDash,
                then: IsSome,
            }
            .passes(text),
            Sign::Dots => AtLeastOne {
                set: Set::Dot,
                then: IsSome,
            }
            .passes(text),
            Sign::Spaces => AtLeastOne {
                set: Set::Space,
                then: IsSome,
            }
            .passes(text),
        }
    }
}

/// Whether a hyphen beside a space begins the text, and something follows.
fn begins_spaced_hyphen(text: &str) -> bool
    ensures { result ≡ begins_sign Sign.SpacedHyphen (chars text.now) }
{
    let before = One {
        set: Set::Space,
        then: One {
            set: Set::Hyphen,
            then: IsSome,
        },
    };
    let after = One {
        set: Set::Hyphen,
        then: One {
            set: Set::Space,
            then: IsSome,
        },
    };
    Either {
        this: before,
        other: after,
    }
    .passes(text)
}

/// Whether a character follows that isn't of the set.
fn goes_on(text: &str, stop: Set) -> bool
    ensures { result ≡ goes_on stop (chars text.now) }
{
    match peel(text) {
        Some((c, _)) => !stop.has(c),
        None => false,
    }
}

/// Whether the character, a space, is passed before this text.
fn is_passed(c: char, after: &str, stop: Set) -> bool
    ensures { result ≡ (is_in Set.Space c && goes_on stop (chars after.now)) }
{
    Set::Space.has(c) && goes_on(after, stop)
}

/// What follows spaces; the last character before one of the set, or before the end, isn't passed.
fn after_spaces(text: &str, stop: Set) -> &str
    ensures rest { chars result.now ≡ after_spaces stop (chars text.now) }
    ensures end { IsEnd text.now result.now }
{
    let mut rest = text;
    while let Some((c, after)) = peel(rest) {
        if !is_passed(c, after, stop) {
            return rest;
        }
        rest = after;
    }
    rest
}

/// The text without its first character.
fn without_first(text: &str) -> &str
    ensures rest { chars result.now ≡ drop 1 (chars text.now) }
    ensures end { IsEnd text.now result.now }
{
    match peel(text) {
        Some((_, rest)) => rest,
        None => text,
    }
}

/// The text without its first two characters.
fn without_two(text: &str) -> &str
    ensures rest { chars result.now ≡ drop 2 (chars text.now) }
    ensures end { IsEnd text.now result.now }
{
    let rest = without_first(text);
    without_first(rest)
}

/// The text from the next round bracket on, behind the one that begins this text.
fn behind_bracket(text: &str) -> &str
    ensures rest { chars result.now ≡ from_one Set.Round (drop 1 (chars text.now)) }
    ensures end { IsEnd text.now result.now }
{
    let rest = without_first(text);
    from_one(rest, Set::Round)
}

/// What follows full stops and spaces.
fn behind_dots(text: &str) -> &str
    ensures rest { chars result.now ≡
        after_spaces Set.Dot (after_front (is_in Set.Dot) (chars text.now)) }
    ensures end { IsEnd text.now result.now }
{
    let rest = after_run(text, &Set::Dot);
    after_spaces(rest, Set::Dot)
}

/// What follows a wide dash and spaces.
fn behind_dash(text: &str) -> &str
    ensures rest { chars result.now ≡ after_spaces Set.Nothing (drop 1 (chars text.now)) }
    ensures end { IsEnd text.now result.now }
{
    let rest = without_first(text);
    after_spaces(rest, Set::Nothing)
}

/// What follows a spaced hyphen and spaces.
fn behind_hyphen(text: &str) -> &str
    ensures rest { chars result.now ≡ after_spaces Set.Nothing (drop 2 (chars text.now)) }
    ensures end { IsEnd text.now result.now }
{
    let rest = without_two(text);
    after_spaces(rest, Set::Nothing)
}

/// Where the piece behind a sign begins, which stands at the front of the text.
fn behind_sign(sign: Sign, text: &str) -> &str
    ensures rest { chars result.now ≡ behind_sign sign (chars text.now) }
    ensures end { IsEnd text.now result.now }
{
    match sign {
        Sign::Slashes => after_run(text, &Set::Slash),
        Sign::Bracket => text,
        Sign::SpacedHyphen => behind_hyphen(text),
        Sign::WideDash => behind_dash(text),
        Sign::Dots => behind_dots(text),
        Sign::Spaces => after_run(text, &Set::Space),
    }
}

/// The text from its first character of a set on.
fn from_one(text: &str, set: Set) -> &str
    ensures rest { chars result.now ≡ from_one set (chars text.now) }
    ensures end { IsEnd text.now result.now }
{
    from_first(text, &Single { set })
}

/// What follows the piece that stands at the front of the text.
#[tactic(auto, using(crate::proofs::Ends::chars_nothing, crate::proofs::Ends::nothing_ends))]
fn behind_piece(sign: Sign, text: &str) -> &str
    ensures rest { chars result.now ≡ behind_piece sign (chars text.now) }
    ensures end { IsEnd text.now result.now }
{
    match sign {
        Sign::Slashes => "",
        Sign::Bracket => behind_bracket(text),
        Sign::SpacedHyphen => "",
        Sign::WideDash => "",
        Sign::Dots => from_one(text, Set::Dot),
        Sign::Spaces => from_one(text, Set::Space),
    }
}

/// Whether a number may end in this character.
fn is_last(c: char) -> bool
    ensures { result ≡ is_last c }
{
    is_letter(c) || is_number(c) || c == '#'
}

/// The text without its longest end of characters in which no number ends.
fn trimmed(text: &str) -> &str
    ensures read { chars result.now ≡ trimmed (chars text.now) }
    ensures front { (v : List ℕ) × (text.now ≡ result.now ++ v) }
{
    let mut rest = text;
    while let Some((front, c)) = split_last(rest) {
        if is_last(c) {
            return rest;
        }
        rest = front;
    }
    rest
}

/// The piece of a text between two of its ends.
fn piece_between<'a>(text: &'a str, from: &'a str, behind: &str) -> Piece<'a>
    requires from { IsEnd text.now from.now }
    requires behind { IsEnd from.now behind.now }
    ensures told { told_piece result ≡
        piece_between (chars text.now) (chars from.now) (chars behind.now) }
    ensures stands { StandsThere text.now result }
{
    let front = between(text, from);
    let whole = between(from, behind);
    let kept = trimmed(whole);
    Piece {
        before: front,
        text: kept,
    }
}

/// The text from the next piece on, and what follows that piece; none where no sign is left.
#[tactic(auto, using(crate::proofs::Shorter::cut_shorter))]
fn next_cut(sign: Sign, rest: &str) -> Option<(&str, &str)>
    ensures read { MatchOption result (from_sign sign (chars rest.now) ≡ [])
        (λ p. IsNextCut sign (chars rest.now) (chars p.0.now) (chars p.1.now)) }
    ensures from { IfSome result (λ p. IsEnd rest.now p.0.now) }
    ensures behind { IfSome result (λ p. IsEnd p.0.now p.1.now) }
    ensures shorter { IfSome result
        (λ p. length (chars p.1.now) < length (chars rest.now)) }
{
    let at = from_first(rest, &sign);
    if !has_some(at) {
        return None;
    }
    let from = behind_sign(sign, at);
    Some((from, behind_piece(sign, from)))
}

/// Puts the pieces behind each place of a sign behind others.
fn push_cuts<'a>(sign: Sign, text: &'a str, pieces: &mut Vec<Piece<'a>>) -> Result<(), AllocError>
    ensures told { OnOk result ((more : List Told) × AreCuts sign (chars text.now)
        (chars text.now) more × (told_pieces pieces.new.items ≡
        told_pieces pieces.old.items ++ more)) }
    ensures stand { OnOk result (AllStandThere text.now pieces.old.items →
        AllStandThere text.now pieces.new.items) }
{
    let mut rest = text;
    while let Some((from, behind)) = next_cut(sign, rest) {
        pieces.push(piece_between(text, from, behind))?;
        rest = behind;
    }
    Ok(())
}

/// Puts the pieces by a sign behind others: what stands before its first place, and then those.
fn push_pieces<'a>(sign: Sign, text: &'a str, pieces: &mut Vec<Piece<'a>>) -> Result<(), AllocError>
    ensures told { OnOk result ((more : List Told) × ArePiecesBy sign (chars text.now) more ×
        (told_pieces pieces.new.items ≡ told_pieces pieces.old.items ++ more)) }
    ensures stand { OnOk result (AllStandThere text.now pieces.old.items →
        AllStandThere text.now pieces.new.items) }
{
    let first = from_first(text, &sign);
    if !has_some(first) {
        return Ok(());
    }
    pieces.push(piece_between(text, text, first))?;
    push_cuts(sign, text, pieces)
}

/// Puts the pieces by these signs behind others, one sign's after another's.
fn push_all<'a>(
    signs: &[Sign],
    text: &'a str,
    pieces: &mut Vec<Piece<'a>>,
) -> Result<(), AllocError>
    ensures told { OnOk result ((more : List Told) × AreAllPieces (chars text.now) signs.now more ×
        (told_pieces pieces.new.items ≡ told_pieces pieces.old.items ++ more)) }
    ensures stand { OnOk result (AllStandThere text.now pieces.old.items →
        AllStandThere text.now pieces.new.items) }
{
    for sign in signs {
        push_pieces(*sign, text, pieces)?;
    }
    Ok(())
}

/// The pieces of a candidate in the order in which they are tried. By each sign, slashes, a round
/// bracket, a hyphen beside a space, a wide dash, full stops, spaces: what stands before the first
/// of it, and then what follows it, for brackets, full stops and spaces behind each of them to the
/// next. Each is without its longest end of characters that are neither letters nor numbers nor
/// `#`. Refused only for memory.
pub fn pieces_of(alloc: Global, text: &str) -> Result<Vec<Piece<'_>>, AllocError>
    ensures told { IfOk result (λ ps. ArePieces (chars text.now) (told_pieces ps.items)) }
    ensures stand { IfOk result (λ ps. AllStandThere text.now ps.items) }
{
    let mut pieces = Vec::new(alloc);
    push_all(&SIGNS, text, &mut pieces)?;
    Ok(pieces)
}
