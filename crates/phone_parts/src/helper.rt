//! Cuts of a text before it is read.
ghost use Rattle.std.specs.Prelude.{◌≡◌, ◌==◌, ℕ, List, ◌++◌, MatchOption, IfSome, chars};
ghost use Rattle.std.specs.List.{list_any};
ghost use Rattle.phone_parts.specs.Cores.{IsCore, IsTrimmed, IsBeforeSecondNumber, is_last};
ghost use Rattle.phone_parts.specs.Cores.{begins_second_number};
ghost use Rattle.phone_parts.specs.Parts.{IsSlice};

use crate::fronts::{begins_with, is_nothing};
use phone_chars::chars::{is_letter, is_nd, is_number, is_plus};
use phone_chars::cuts::{CharSet, after_run, before, split_first};

/// Characters at which no number starts: all but plus signs and the digits of any script.
pub struct BeforeStart;

impl CharSet for BeforeStart {
    ghost use Rattle.std.specs.Prelude.{not};
    ghost use Rattle.phone_parts.specs.Cores.{is_start};

    ghost members = { λ _ c. not (is_start c) };

    fn has(&self, c: char) -> bool {
        !(is_plus(c) || is_nd(c))
    }
}

/// The part of a text that a number is read from: from its first plus sign or decimal digit on,
/// without its longest end of characters that are neither letters nor numbers nor `#`, and cut
/// before the first mark of a second number, a slash or backslash that any number of spaces and a
/// small `x` follow (`508/x30`: two numbers that share a line). None where nothing is left. The
/// answer is a slice of the text, and no memory is taken.
pub fn extract(text: &str) -> Option<&str>
    ensures core { MatchOption result ((core : List ℕ) →
        ¬ (IsCore (chars text.now) core)) (λ core. IsCore (chars text.now) (chars core.now)) }
    ensures slice { IfSome result (λ core. IsSlice text.now core.now) }
{
    let core = first_number(trim_end(after_run(text, &BeforeStart)));
    if is_nothing(core) { None } else { Some(core) }
}

/// Whether a number may end in this character.
fn is_last(c: char) -> bool
    ensures { result ≡ is_last c }
{
    is_letter(c) || is_number(c) || c == '#'
}

/// The text without its longest end of characters at which no number ends.
fn trim_end(text: &str) -> &str
    ensures read { IsTrimmed (chars text.now) (chars result.now) }
    ensures front { (v : List ℕ) × (text.now ≡ result.now ++ v) }
{
    text.trim_end_matches(|c: char| !is_last(c))
}

/// The text up to the first mark of a second number, or all of it. Most texts have no small `x`,
/// and so no such mark: that is asked first.
fn first_number(text: &str) -> &str
    ensures read { IsBeforeSecondNumber (chars text.now) (chars result.now) }
    ensures front { (v : List ℕ) × (text.now ≡ result.now ++ v) }
{
    if has_small_x(text) {
        before_second_number(text)
    } else {
        text
    }
}

/// Whether a small `x` is there.
fn has_small_x(text: &str) -> bool
    ensures { result ≡ list_any (λ c. c == 120) (chars text.now) }
{
    text.contains('x')
}

/// The same as `first_number`, of any text.
fn before_second_number(text: &str) -> &str
    ensures read { IsBeforeSecondNumber (chars text.now) (chars result.now) }
    ensures front { (v : List ℕ) × (text.now ≡ result.now ++ v) }
{
    let mut rest = text;
    while let Some((_, after)) = split_first(rest) {
        if is_second_number(rest) {
            return before(text, rest);
        }
        rest = after;
    }
    text
}

/// Whether a mark of a second number stands at the front.
fn is_second_number(text: &str) -> bool
    ensures { result ≡ begins_second_number (chars text.now) }
{
    match text.strip_prefix(['/', '\\']) {
        Some(after) => begins_with(after.trim_start_matches(' '), 'x'),
        None => false,
    }
}
