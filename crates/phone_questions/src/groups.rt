//! How many digits of a number are its area code, and its destination code.
ghost use Rattle.std.specs.Prelude.{◌≡◌, ◌+◌, IfOk, chars, length, string_bytes};
ghost use Rattle.phone_questions.specs.Groups.{after_group, area_length, destination_by};
ghost use Rattle.phone_questions.specs.Groups.{destination_length};
ghost use Rattle.phone_questions.specs.Groups.{first_group, has_area, has_token, is_mobile};
ghost use Rattle.phone_questions.specs.Groups.{is_without_area, laid_abroad, length_in_groups};
ghost use Rattle.phone_questions.specs.Groups.{may_have_area, second_group};

use crate::belonging::territory_of_own;
use crate::kinds::{is_geographical_kind, mobile_token};
use phone_chars::cuts::{CharSet, after_run, split_run};
use phone_library::{facts, number_type};
use phone_plans::{Plans, Territory};
use phone_print::printing::{first_layout, layouts_for};
use phone_territory::Subject;
use phone_values::{Mode, Rules, Type};
use phonenumber::PhoneNumber;
use std::alloc::AllocError;

/// The calling code of Mexico.
const MEXICO: u16 = 52;

/// The calling code of China.
const CHINA: u16 = 86;

/// How many digits of a number are its national destination code: those of the first group in which
/// it is laid out for calls from abroad; of Argentinian mobiles, of the first two. 0 where it is
/// laid out as one group, and where its calling code isn't listed. Refused only for memory.
pub fn destination_length(database: &Plans, number: &PhoneNumber) -> Result<usize, AllocError>
    ensures { IfOk result (λ n. n ≡ destination_length database.now number.now) }
{
    destination_by(database, number_type(database, number)?, number)
}

/// The same of a number of a kind. Refused only for memory.
pub(crate) fn destination_by(
    database: &Plans,
    kind: Type,
    number: &PhoneNumber,
) -> Result<usize, AllocError>
    ensures { IfOk result (λ n. n ≡ destination_by database.now kind number.now) }
{
    let Some(territory) = database.first_by_code(&number.code().value()) else {
        return Ok(0);
    };
    let digits = number.national().to_string(database.allocator())?;
    let laid = laid_abroad(territory, digits.as_str())?;
    Ok(length_in_groups(has_token(kind, number.code().value()), laid.as_str()))
}

/// How many digits of a number are the code of its area: those of its destination code, where its
/// kind is of a place, and its region's territory has a national prefix, or it has a leading zero,
/// or is of Mexico. 0 for all other numbers, for Chinese mobiles, and where a number has no region.
/// Refused only for memory.
pub fn area_length(database: &Plans, number: &PhoneNumber) -> Result<usize, AllocError>
    ensures { IfOk result (λ n. n ≡ area_length database.now number.now) }
{
    let told = facts(database, number)?;
    let Some(territory) = territory_of_own(database, told.region) else {
        return Ok(0);
    };
    if has_area(told.kind, number, territory) {
        destination_by(database, told.kind, number)
    } else {
        Ok(0)
    }
}

/// Whether a number of a kind has an area code.
pub(crate) fn has_area(kind: Type, number: &PhoneNumber, m: &Territory) -> bool
    ensures { result ≡ has_area kind number.now m.now }
{
    let code = number.code().value();
    may_have_area(number, m) && !is_without_area(kind, code) && is_geographical_kind(kind, code)
}

/// Whether a number may have an area code.
fn may_have_area(number: &PhoneNumber, m: &Territory) -> bool
    ensures { result ≡ may_have_area number.now m.now }
{
    m.national_prefix().is_some()
        || number.national().zeros() > 0
        || number.code().value() == MEXICO
}

/// Whether a number is a mobile that is of a place but has no area code.
fn is_without_area(kind: Type, code: u16) -> bool
    ensures { result ≡ is_without_area kind code }
{
    is_mobile(kind) && code == CHINA
}

/// Whether a number is a mobile's.
fn is_mobile(kind: Type) -> bool
    ensures { result ≡ is_mobile kind }
{
    matches!(kind, Type::Mobile)
}

/// Whether the first group of such numbers is the token of mobiles.
fn has_token(kind: Type, code: u16) -> bool
    ensures { result ≡ has_token kind code }
{
    match kind {
        Type::Mobile => !mobile_token(code).is_empty(),
        _ => false,
    }
}

/// Digits laid out for calls from abroad. Refused only for memory.
fn laid_abroad(m: &Territory, digits: &str) -> Result<String, AllocError>
    ensures { IfOk result (λ t. string_bytes t ≡ laid_abroad m.now digits.now) }
{
    let subject = Subject::of(digits);
    match first_layout(
        Rules::Library,
        layouts_for(m, Mode::International),
        &subject,
    )? {
        Some(layout) => layout.lay_out_in(&subject, true),
        None => String::from_str(m.allocator(), digits),
    }
}

/// The digits from `0` to `9`.
#[derive(Drop)]
pub struct Digits;

impl CharSet for Digits {
    ghost use Rattle.phone_chars.specs.Characters.{is_digit};

    ghost members = { λ _. is_digit };

    fn has(&self, c: char) -> bool {
        phone_chars::chars::is_digit(c)
    }
}

/// All characters but the digits from `0` to `9`: those between groups of digits.
#[derive(Drop)]
pub struct Between;

impl CharSet for Between {
    ghost use Rattle.phone_questions.specs.Groups.{is_between};

    ghost members = { λ _. is_between };

    fn has(&self, c: char) -> bool {
        !phone_chars::chars::is_digit(c)
    }
}

/// The first group of digits in a text, and what follows it.
fn split_group(text: &str) -> (&str, &str)
    ensures group { chars result.0.now ≡ first_group (chars text.now) }
    ensures rest { chars result.1.now ≡ after_group (chars text.now) }
{
    split_run(after_run(text, &Between), &Digits)
}

/// How many digits of a text that is laid out are its destination code.
fn length_in_groups(with_token: bool, text: &str) -> usize
    ensures { result ≡ length_in_groups with_token (chars text.now) }
{
    let (first, rest) = split_group(text);
    let (second, _) = split_group(rest);
    let (first, second) = (count(first), count(second));
    if second == 0 {
        return 0;
    }
    if with_token {
        both(text, first, second)
    } else {
        first
    }
}

/// How many characters the first two groups of a text have. They aren't more than all, which are
/// counted so that their sum is known to have room.
fn both(text: &str, first: usize, second: usize) -> usize
    requires first { first ≡ length (first_group (chars text.now)) }
    requires second { second ≡ length (second_group (chars text.now)) }
    ensures { result ≡ length (first_group (chars text.now)) +
        length (second_group (chars text.now)) }
{
    let _all = count(text);
    first + second
}

/// How many characters a text has.
fn count(text: &str) -> usize
    ensures { result ≡ length (chars text.now) }
{
    text.chars().count()
}
