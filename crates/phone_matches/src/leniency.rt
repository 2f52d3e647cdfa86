//! How strictly the numbers of a text are judged.
ghost use Rattle.std.specs.Prelude.{◌≡◌, ◌↔◌, [], true, IfOk, IsTrue, chars, unwrap_or};
ghost use Rattle.std.specs.Option.{option_copied};
ghost use Rattle.phone_library.specs.Facts.{is_valid_number};
ghost use Rattle.phone_matches.specs.Leniencies.{IsValidIn, Suffices, is_free};
ghost use Rattle.phone_matches.specs.Leniencies.{is_grouped_well, is_possible};
ghost use Rattle.phone_matches.specs.Leniencies.{is_possible_count};
ghost use Rattle.phone_matches.specs.Marks.{HasGoodMarks};
ghost use Rattle.phone_matches.specs.Prefixes.{has_prefix};

use crate::marks::has_good_marks;
use crate::slashes::has_many_slashes;
use crate::{Strictness, has_prefix, is_grouped};
use phone_library::is_valid;
use phone_matches_text::stands_free;
use phone_plans::Plans;
use phone_questions::possibility_as;
use phone_values::{Type, Validation};
use phonenumber::PhoneNumber;
use std::alloc::AllocError;

/// What is asked of a number that stands in a text.
#[derive(Clone, Copy, PartialEq, Eq, Debug)]
pub enum Leniency {
    /// It is possible by the count of its digits, perhaps only inside its area.
    Possible,

    /// It is valid, nothing sticks to it, what its `x` announce is its extension or the number
    /// itself, and it has the national prefix that its layout writes.
    Valid,

    /// So, and its text has few slashes and the groups of some layout, one behind the other.
    StrictGrouping,

    /// So, and its text has few slashes, and its runs of digits are the groups of some layout.
    ExactGrouping,
}

/// Whether a count of digits is that of a number, perhaps only inside an area.
fn is_possible_count(verdict: Validation) -> bool
    ensures { result ≡ is_possible_count verdict }
{
    matches!(
        verdict,
        Validation::IsPossible | Validation::IsPossibleLocalOnly
    )
}

/// Whether a number is possible by the lengths of its main territory.
fn is_possible(db: &Plans, number: &PhoneNumber) -> bool
    ensures { result ≡ is_possible db.now number.now }
{
    is_possible_count(possibility_as(db, Type::Unknown, number))
}

/// Whether a number is valid, its `x` announce what they should, and it has the national prefix
/// that it should have. Refused only for memory.
fn is_valid_in(db: &Plans, number: &PhoneNumber, text: &str) -> Result<bool, AllocError>
    ensures { IfOk result (λ b. IsTrue b ↔ IsValidIn db.now number.now (chars text.now)) }
{
    if !is_valid(db, number)? {
        return Ok(false);
    }
    if !has_good_marks(db, number, text)? {
        return Ok(false);
    }
    has_prefix(db, number, text)
}

/// Whether a number that is read from a text is grouped there, so strictly, as such numbers are,
/// and hasn't too many slashes. Refused only for memory.
fn is_grouped_well(
    db: &Plans,
    alternates: Option<&Plans>,
    strictness: Strictness,
    number: &PhoneNumber,
    text: &str,
) -> Result<bool, AllocError>
    ensures { IfOk result (λ b. b ≡ is_grouped_well db.now
        (unwrap_or (option_copied alternates.entry) []) strictness number.now (chars text.now)) }
{
    if has_many_slashes(db.allocator(), number.code(), text)? {
        return Ok(false);
    }
    is_grouped(db, alternates, strictness, number, text)
}

/// Whether a number is valid in its text and grouped there, so strictly. Refused only for memory.
fn is_valid_and_grouped(
    db: &Plans,
    alternates: Option<&Plans>,
    strictness: Strictness,
    number: &PhoneNumber,
    text: &str,
) -> Result<bool, AllocError>
    ensures { IfOk result (λ b. IsTrue b ↔ (IsValidIn db.now number.now (chars text.now) ×
        (is_grouped_well db.now (unwrap_or (option_copied alternates.entry) []) strictness
        number.now (chars text.now) ≡ true))) }
{
    if !is_valid_in(db, number, text)? {
        return Ok(false);
    }
    is_grouped_well(db, alternates, strictness, number, text)
}

/// Whether a number that is read from a text suffices. Refused only for memory.
pub(crate) fn suffices(
    db: &Plans,
    alternates: Option<&Plans>,
    leniency: Leniency,
    number: &PhoneNumber,
    text: &str,
) -> Result<bool, AllocError>
    ensures { IfOk result (λ b. IsTrue b ↔
        Suffices db.now (unwrap_or (option_copied alternates.entry) []) number.now
        (chars text.now) leniency) }
{
    match leniency {
        Leniency::Possible => Ok(is_possible(db, number)),
        Leniency::Valid => is_valid_in(db, number, text),
        Leniency::StrictGrouping => {
            is_valid_and_grouped(db, alternates, Strictness::Strict, number, text)
        }
        Leniency::ExactGrouping => {
            is_valid_and_grouped(db, alternates, Strictness::Exact, number, text)
        }
    }
}

/// Whether what stands beside a piece may stand there.
pub(crate) fn is_free(leniency: Leniency, before: &str, piece: &str, after: &str) -> bool
    ensures { result ≡ is_free leniency (chars before.now) (chars piece.now) (chars after.now) }
{
    match leniency {
        Leniency::Possible => true,
        _ => stands_free(before, piece, after),
    }
}
