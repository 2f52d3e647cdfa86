//! That the text of a number is grouped as such numbers are.
ghost use Rattle.std.specs.Prelude.{◌≡◌, ◌&&◌, ℕ, [], false, IfOk, chars, encode_utf8_all};
ghost use Rattle.std.specs.Prelude.{string_bytes, unwrap_or};
ghost use Rattle.std.specs.List.{list_any};
ghost use Rattle.std.specs.Option.{option_copied, option_map_or};
ghost use Rattle.phone_matches.specs.Groupings.{are_in_text, as_digit, has_grouping};
ghost use Rattle.phone_matches.specs.Groupings.{is_grouped, is_prefixed, main_territory};
ghost use Rattle.phone_matches.specs.Groupings.{with_digits};
ghost use Rattle.phone_matches.specs.Layouts.{alternates_of, groups_by};
ghost use Rattle.phone_territory.specs.Records.{is_led};
ghost use Rattle.phone_values.specs.Numbers.{text_of};

use crate::exact::{IsExact, digit_runs};
use crate::layouts::{alternates_of, is_passed_abroad, is_passed_by};
use crate::strict::{StandsInOrder, behind_code};
use crate::test::Test;
use phone_library_text::value_of;
use phone_plans::{Plans, Territory};
use phone_territory::Format;
use phonenumber::PhoneNumber;
use std::alloc::{AllocError, Global};

/// How strictly a text has to be grouped.
#[derive(Clone, Copy, PartialEq, Eq, Debug)]
pub enum Strictness {
    /// The groups stand in the text, one behind the other, and the extension behind them.
    Strict,

    /// The runs of digits in the text are the groups.
    Exact,
}

/// A digit of any script as that of ASCII; all else as it is.
fn as_digit(c: char) -> char
    ensures { result ≡ as_digit c }
{
    match value_of(c) {
        Some(digit) => digit,
        None => c,
    }
}

/// A text with its digits as those of ASCII. Refused only for memory.
fn with_digits(alloc: Global, text: &str) -> Result<String, AllocError>
    ensures { IfOk result (λ t.
        string_bytes t ≡ encode_utf8_all (with_digits (chars text.now))) }
{
    text.chars().map(as_digit).collect(alloc)
}

/// Whether a territory is a region's and has a national prefix.
fn is_prefixed(m: &Territory) -> bool
    ensures { result ≡ is_prefixed m.now }
{
    match m.national_prefix() {
        Some(prefix) => m.region().is_some() && !prefix.is_empty(),
        None => false,
    }
}

/// Whether a territory that may be there is so.
fn is_any_prefixed(m: Option<&Territory>) -> bool
    ensures { result ≡ option_map_or is_prefixed (option_copied m.entry) false }
{
    match m {
        Some(m) => is_prefixed(m),
        None => false,
    }
}

/// Whether the groups of some layout that is led by digits pass a test. Refused only for memory.
fn is_passed_by_any<T: Test>(test: &T, layouts: &[Format], digits: &str) -> Result<bool, AllocError>
    ensures { IfOk result (λ b. b ≡ list_any
        (λ f. is_led digits.now f && T.passes test.now (groups_by digits.now f)) layouts.now) }
{
    for layout in layouts {
        if layout.is_led(digits)? && is_passed_by(test, layout, digits)? {
            return Ok(true);
        }
    }
    Ok(false)
}

/// Whether some grouping of digits passes a test. Refused only for memory.
fn has_grouping<T: Test>(
    test: &T,
    m: Option<&Territory>,
    alternates: &[Format],
    digits: &str,
) -> Result<bool, AllocError>
    ensures { IfOk result (λ b. b ≡ has_grouping (T.passes test.now)
        (option_copied m.entry) alternates.now digits.now) }
{
    if is_passed_abroad(test, m, digits)? {
        return Ok(true);
    }
    is_passed_by_any(test, alternates, digits)
}

/// Whether the groups of a number stand in its text in the order of some grouping. Refused only for
/// memory.
fn is_strict(
    db: &Plans,
    alternates: Option<&Plans>,
    number: &PhoneNumber,
    text: &str,
) -> Result<bool, AllocError>
    ensures { IfOk result (λ b. b ≡ is_grouped db.now
        (unwrap_or (option_copied alternates.entry) []) Strictness.Strict number.now
        (chars text.now)) }
{
    let alloc = db.allocator();
    let value = number.code().value();
    let m = db.first_by_code(&value);
    let code = value.to_string(alloc)?;
    let digits = number.national().to_string(alloc)?;
    let written = with_digits(alloc, text)?;
    let test = StandsInOrder {
        is_prefixed: is_any_prefixed(m),
        digits: digits.as_str().as_bytes(),
        extension: extension_of(number),
        text: behind_code(
            number.code().source(),
            written.as_str().as_bytes(),
            code.as_str().as_bytes(),
        ),
    };
    has_grouping(&test, m, alternates_of(alternates, value), digits.as_str())
}

/// The bytes of a number's extension; none where it has none.
fn extension_of(number: &PhoneNumber) -> &[u8]
    ensures { result.now ≡ unwrap_or number.now.extension [] }
{
    match number.extension() {
        Some(extension) => extension.as_str().as_bytes(),
        None => &[],
    }
}

/// Whether the runs of digits in a number's text are those of some grouping. Refused only for
/// memory.
fn is_exact(
    db: &Plans,
    alternates: Option<&Plans>,
    number: &PhoneNumber,
    text: &str,
) -> Result<bool, AllocError>
    ensures { IfOk result (λ b. b ≡ is_grouped db.now
        (unwrap_or (option_copied alternates.entry) []) Strictness.Exact number.now
        (chars text.now)) }
{
    let alloc = db.allocator();
    let value = number.code().value();
    let m = db.first_by_code(&value);
    let digits = number.national().to_string(alloc)?;
    let written = with_digits(alloc, text)?;
    let runs = digit_runs(alloc, written.as_str())?;
    let test = IsExact {
        has_extension: number.extension().is_some(),
        digits: digits.as_str().as_bytes(),
        runs: runs.as_slice(),
    };
    has_grouping(&test, m, alternates_of(alternates, value), digits.as_str())
}

/// Whether a number that was read from a text is grouped there, so strictly, as such numbers are
/// laid out: as for calls from abroad, or as by some alternate layout of its calling code, of which
/// there may be a database.
///
/// Strict: each group stands in the text, one behind the other, behind the calling code where that
/// is written or dialled, and the extension stands behind the last. Where a digit follows the first
/// group at once, and the number's main territory has a national prefix, all digits have to stand
/// together.
///
/// Exact: the last runs of digits in the text, but for the extension's, are the groups; the run of
/// the first group may have more digits in front. Or the last run has all digits of the number, or
/// is the only one.
///
/// Refused only for memory.
pub fn is_grouped(
    db: &Plans,
    alternates: Option<&Plans>,
    strictness: Strictness,
    number: &PhoneNumber,
    text: &str,
) -> Result<bool, AllocError>
    ensures { IfOk result (λ b. b ≡ is_grouped db.now
        (unwrap_or (option_copied alternates.entry) []) strictness number.now (chars text.now)) }
{
    match strictness {
        Strictness::Strict => is_strict(db, alternates, number, text),
        Strictness::Exact => is_exact(db, alternates, number, text),
    }
}
