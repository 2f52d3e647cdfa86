//! What the small and capital `x` of a number announce.
ghost use Rattle.std.specs.Prelude.{◌≡◌, ◌↔◌, ◌∷◌, ◌<◌, ◌≤◌, [], false, IfOk, IfSome, IsTrue};
ghost use Rattle.std.specs.Prelude.{MatchOption, chars, if◌then◌else◌, length, unwrap_or};
ghost use Rattle.std.specs.Option.{option_copied};
ghost use Rattle.phone_matches.specs.Marks.{HasGoodMarks, IsGood, IsSameNumber, announced, is_x};
ghost use Rattle.phone_matches.specs.Marks.{main_region};
ghost use Rattle.phone_questions.specs.Letters.{digits_only};

use phone_chars::cuts::split_first;
use phone_library::parse;
use phone_library_laws::readings;
use phone_plans::Plans;
use phone_questions::digits_only;
use phone_values::country::Id;
use phone_values::{Extension, ParseError};
use phonenumber::PhoneNumber;
use std::alloc::{AllocError, Global};

/// Whether a character is the small or the capital `x`.
fn is_x(c: char) -> bool
    ensures { result ≡ is_x c }
{
    matches!(c, 'X' | 'x')
}

/// What an `x` announces.
#[derive(Clone, Copy)]
struct Mark<'a> {
    /// Whether another `x` follows it.
    is_double: bool,
    /// What follows it.
    announced: &'a str,
    /// Where the next one is looked for.
    rest: &'a str,
}

/// What an `x` announces before a text that begins with this character, behind which the rest
/// stands.
fn mark_before<'a>(next: char, after: &'a str, rest: &'a str) -> Mark<'a>
    ensures double { result.is_double ≡ is_x next }
    ensures announced { result.announced.now ≡ after.now }
    ensures rest { result.rest.now ≡ (if is_x next then rest.now else after.now) }
{
    let is_double = is_x(next);
    Mark {
        is_double,
        announced: after,
        rest: if is_double { rest } else { after },
    }
}

/// What a character announces before this text.
fn mark_at(c: char, after: &str) -> Option<Mark<'_>>
    ensures read { MatchOption result
        (announced (c ∷ chars after.now) ≡ announced (chars after.now))
        (λ m. announced (c ∷ chars after.now) ≡
        (m.is_double, chars m.announced.now) ∷ announced (chars m.rest.now)) }
    ensures shorter { IfSome result (λ m. length m.rest.now ≤ length after.now) }
{
    let Some((next, rest)) = split_first(after) else {
        return None;
    };
    if !is_x(c) {
        return None;
    }
    Some(mark_before(next, after, rest))
}

/// What the first `x` of a text announces; none where it has none but one at its end.
fn first_mark(text: &str) -> Option<Mark<'_>>
    ensures read { MatchOption result (announced (chars text.now) ≡ [])
        (λ m. announced (chars text.now) ≡
        (m.is_double, chars m.announced.now) ∷ announced (chars m.rest.now)) }
    ensures shorter { IfSome result (λ m. length m.rest.now < length text.now) }
{
    let mut rest = text;
    while let Some((c, after)) = split_first(rest) {
        if let Some(mark) = mark_at(c, after) {
            return Some(mark);
        }
        rest = after;
    }
    None
}

/// The region of the main territory of a calling code; none where it is no region, or the code
/// isn't listed.
fn main_region(db: &Plans, code: u16) -> Option<Id>
    ensures { result ≡ main_region db.now code }
{
    db.first_by_code(&code)?.region()
}

/// Whether both extensions are absent, or of one text.
fn are_same_extensions(a: Option<&Extension>, b: Option<&Extension>) -> bool
    ensures { IsTrue result ↔ (option_copied a.entry ≡ option_copied b.entry) }
{
    match (a, b) {
        (None, None) => true,
        (Some(a), Some(b)) => a.as_str() == b.as_str(),
        _ => false,
    }
}

/// Whether two numbers have the same code, national number and extension.
fn are_same(a: &PhoneNumber, b: &PhoneNumber) -> bool
    ensures { IsTrue result ↔ ((a.now.code.value ≡ b.now.code.value) ×
        (a.now.national ≡ b.now.national) × (a.now.extension ≡ b.now.extension)) }
{
    a.code().value() == b.code().value()
        && a.national() == b.national()
        && are_same_extensions(a.extension(), b.extension())
}

/// Whether a text is the same number under the main territory of its code. Refused only for memory.
fn is_same_number(db: &Plans, number: &PhoneNumber, text: &str) -> Result<bool, AllocError>
    ensures { IfOk result (λ b. IsTrue b ↔ IsSameNumber db.now number.now (chars text.now)) }
{
    readings::one_reading();
    let Some(region) = main_region(db, number.code().value()) else {
        return Ok(false);
    };
    match parse(db, Some(region), text) {
        Ok(other) => Ok(are_same(&other, number)),
        Err(error) => no_number(error),
    }
}

/// That a text is no number. Refused where memory was.
fn no_number(error: ParseError) -> Result<bool, AllocError>
    ensures { IfOk result (λ b. (b ≡ false) × ¬ (error ≡ ParseError.Memory)) }
{
    match error {
        ParseError::Memory => Err(AllocError),
        _ => Ok(false),
    }
}

/// Whether a text has the digits of a number's extension, none of a number without. Refused only
/// for memory.
fn has_its_extension(alloc: Global, number: &PhoneNumber, text: &str) -> Result<bool, AllocError>
    ensures { IfOk result (λ b. IsTrue b ↔
        (digits_only (chars text.now) ≡ unwrap_or number.now.extension [])) }
{
    let digits = digits_only(alloc, text)?;
    match number.extension() {
        Some(extension) => Ok(digits.as_str() == extension.as_str()),
        None => Ok(digits.is_empty()),
    }
}

/// Whether an `x` announces what it should. Refused only for memory.
fn is_good(
    db: &Plans,
    number: &PhoneNumber,
    is_double: bool,
    text: &str,
) -> Result<bool, AllocError>
    ensures { IfOk result (λ b. IsTrue b ↔
        IsGood db.now number.now is_double (chars text.now)) }
{
    if is_double {
        is_same_number(db, number, text)
    } else {
        has_its_extension(db.allocator(), number, text)
    }
}

/// Whether each `x` of a number announces what it should. Refused only for memory.
pub(crate) fn has_good_marks(
    db: &Plans,
    number: &PhoneNumber,
    text: &str,
) -> Result<bool, AllocError>
    ensures { IfOk result (λ b. IsTrue b ↔ HasGoodMarks db.now number.now (chars text.now)) }
{
    let mut rest = text;
    while let Some(mark) = first_mark(rest) {
        if !is_good(db, number, mark.is_double, mark.announced)? {
            return Ok(false);
        }
        rest = mark.rest;
    }
    Ok(true)
}
