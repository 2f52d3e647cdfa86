//! How a layout parts the digits of a national number into groups.
ghost use Rattle.std.specs.Prelude.{◌≡◌, ℕ, Bool, List, [], IfOk, length, option_map};
ghost use Rattle.std.specs.Prelude.{string_bytes, unwrap_or};
ghost use Rattle.std.specs.Option.{option_copied};
ghost use Rattle.phone_matches.specs.Layouts.{alternates_of, groups_abroad, groups_by};
ghost use Rattle.phone_matches.specs.Layouts.{laid_each, laid_first, layouts_abroad};
ghost use Rattle.phone_matches.specs.Runs.{told};

use crate::first_fitting;
use crate::runs::groups;
use crate::test::Test;
use phone_chars::chars::is_separator;
use phone_chars::cuts::{CharSet, before};
use phone_plans::{Plans, Territory};
use phone_print::printing::layouts_for;
use phone_territory::Format;
use phone_values::Mode;
use std::alloc::{AllocError, Global};

/// What of digits a first match of a layout's pattern reaches, as it is laid out.
#[derive(Drop)]
struct Front<'a> {
    /// The digits up to the end of the match, which is replaced.
    laid: String,
    /// What follows the match.
    rest: &'a str,
}

/// Digits up to the end of the layout's first match in them, laid out, and what follows it; none
/// where nothing is matched. Refused only for memory.
fn laid_first<'a>(layout: &Format, digits: &'a str) -> Result<Option<Front<'a>>, AllocError>
    ensures { IfOk result (λ o.
        option_map (λ (f : Front). (string_bytes f.laid, f.rest.now)) o ≡
        laid_first layout.now digits.now) }
{
    let Some((_, end)) = layout.whole_pattern().first_span(digits)? else {
        return Ok(None);
    };
    if end == 0 {
        return Ok(None);
    }
    let rest = &digits[end..];
    let whole = layout.lay_out(digits)?;
    let laid = String::from_str(
        layout.whole_pattern().allocator(),
        before(whole.as_str(), rest),
    )?;
    Ok(Some(Front { laid, rest }))
}

/// Digits laid out by a layout, wherever its pattern matches in them. Refused only for memory.
fn laid_each(layout: &Format, digits: &str) -> Result<String, AllocError>
    ensures { IfOk result (λ t. string_bytes t ≡
        laid_each (length digits.now) layout.now digits.now) }
{
    let mut out = String::new(layout.whole_pattern().allocator());
    let mut rest = digits;
    let mut left = digits.len();
    while left > 0 {
        let Some(front) = laid_first(layout, rest)? else {
            out.push_str(rest)?;
            return Ok(out);
        };
        out.push_str(front.laid.as_str())?;
        rest = front.rest;
        left -= 1;
    }
    out.push_str(rest)?;
    Ok(out)
}

/// The characters of groups: all but those that may stand between digits.
#[derive(Drop)]
struct Unparted;

impl CharSet for Unparted {
    ghost use Rattle.phone_matches.specs.Layouts.{is_unparted};

    ghost members = { λ _. is_unparted };

    fn has(&self, c: char) -> bool {
        !is_separator(c)
    }
}

/// Whether the groups into which a layout parts digits pass a test. Refused only for memory.
pub(crate) fn is_passed_by<T: Test>(
    test: &T,
    layout: &Format,
    digits: &str,
) -> Result<bool, AllocError>
    ensures { IfOk result (λ b. b ≡ T.passes test.now (groups_by digits.now layout.now)) }
{
    let laid = laid_each(layout, digits)?;
    let groups = groups(layout.whole_pattern().allocator(), laid.as_str(), &Unparted)?;
    Ok(test.is_passed(groups.as_slice()))
}

/// A territory's layouts of numbers that are called from abroad.
fn layouts_abroad(m: Option<&Territory>) -> &[Format]
    ensures { result.now ≡ layouts_abroad (option_copied m.entry) }
{
    match m {
        Some(m) => layouts_for(m, Mode::International),
        None => &[],
    }
}

/// Whether the groups in which a number is written for calls from abroad pass a test. Refused only
/// for memory.
pub(crate) fn is_passed_abroad<T: Test>(
    test: &T,
    m: Option<&Territory>,
    digits: &str,
) -> Result<bool, AllocError>
    ensures { IfOk result (λ b.
        b ≡ T.passes test.now (groups_abroad (option_copied m.entry) digits.now)) }
{
    match first_fitting(layouts_abroad(m), digits)? {
        Some(layout) => is_passed_by(test, layout, digits),
        None => Ok(test.is_passed(&[digits.as_bytes()])),
    }
}

/// The alternate layouts of a calling code; none without a database of such.
pub(crate) fn alternates_of(alternates: Option<&Plans>, code: u16) -> &[Format]
    ensures { result.now ≡ alternates_of (unwrap_or (option_copied alternates.entry) []) code }
{
    match alternates {
        Some(alternates) => formats_of(alternates, code),
        None => &[],
    }
}

/// The layouts of a calling code's first territory; none where it has no territory.
fn formats_of(alternates: &Plans, code: u16) -> &[Format]
    ensures { result.now ≡ alternates_of alternates.now code }
{
    match alternates.first_by_code(&code) {
        Some(m) => m.formats(),
        None => &[],
    }
}
