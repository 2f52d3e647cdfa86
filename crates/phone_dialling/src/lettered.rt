//! How a number is dialled from a region with the letters in which it was written.
ghost use Rattle.std.specs.Prelude.{◌≡◌, ◌++◌, ◌∷◌, IfOk, None, Some, chars, codes};
ghost use Rattle.std.specs.Prelude.{encode_utf8_all, string_bytes};
ghost use Rattle.std.specs.Fmt.{decimal};
ghost use Rattle.std.specs.Option.{option_and_then, option_copied};
ghost use Rattle.phone_dialling.specs.Abroad.{if_some};
ghost use Rattle.phone_dialling.specs.Kept.{from_digits, written};
ghost use Rattle.phone_dialling.specs.Lettered.{IsKept, IsLettered, abroad_letters, home_letters};
ghost use Rattle.phone_dialling.specs.Lettered.{at_home, before_group, behind_group, group_in};
ghost use Rattle.phone_dialling.specs.Lettered.{if_of, lettered_prefix};
ghost use Rattle.phone_dialling.specs.Lettered.{rule_in, ruled_group, ruled_in, ruled_text};
ghost use Rattle.phone_print.specs.Texts.{extension_part};
ghost use Rattle.phone_questions.specs.Matches.{extension_told};
ghost use Rattle.phone_questions.specs.Regions.{territory_of};
ghost use Rattle.phone_values.specs.Numbers.{text_of};

use crate::abroad::{
    behind_prefix, dialled_text, from_territory, preferred_prefix, single_prefix, unless_empty,
};
use crate::kept::{from_digits, kept_of};
use crate::original::{layout_of, with_extension};
use phone_chars::cuts::split_run;
use phone_library_text::split_extension;
use phone_plans::{Plans, Territory};
use phone_questions::{Between, Digits};
use phone_values::country::Id;
use phonenumber::PhoneNumber;
use std::alloc::{AllocError, Global};

/// The calling code of the North American Numbering Plan.
pub(crate) const NANPA_CODE: u16 = 1;

/// In a formatting rule: the place of the national prefix.
const NATIONAL_PREFIX: &str = "$NP";

/// In a formatting rule: the place of the first group of digits.
const GROUP: &str = "$FG";

/// How a number is dialled from a region with the letters of the text that it was read from, as
/// `1 800-FLOWERS`: from where the first three digits of the number stand, the text's digits,
/// letters as capitals, and signs between groups.
///
/// In a region of the number's calling code that stands behind `1 ` for the code 1, else its first
/// group of digits is written by the rule of the region's layout, where that has one. From
/// elsewhere an international prefix, the code, what was kept without an extension, and the
/// number's extension; the prefix is the pattern of the region's prefixes where that is one prefix,
/// else the one that the region prefers, and without either a plus sign.
///
/// Without a text, or of an empty one, as `dialled_text` writes the number; of a number whose code
/// isn't listed the text as it stands. Refused only for memory.
pub fn text_with_letters(
    database: &Plans,
    from: Option<Id>,
    raw: Option<&str>,
    number: &PhoneNumber,
) -> Result<String, AllocError>
    ensures { IfOk result (λ t. IsLettered database.now from number.now
        (option_and_then if_some (option_copied raw.entry)) (string_bytes t)) }
{
    match given(raw) {
        Some(raw) => lettered(database, from, raw, number),
        None => dialled_text(database, from, None, number),
    }
}

/// A text that is there and isn't empty.
fn given(raw: Option<&str>) -> Option<&str>
    ensures { option_copied result ≡ option_and_then if_some (option_copied raw.entry) }
{
    match raw {
        Some(raw) => unless_empty(raw),
        None => None,
    }
}

/// The same of a text that is there. Refused only for memory.
fn lettered(
    database: &Plans,
    from: Option<Id>,
    raw: &str,
    number: &PhoneNumber,
) -> Result<String, AllocError>
    ensures { IfOk result (λ t. IsLettered database.now from number.now (Some raw.now)
        (string_bytes t)) }
{
    match database.first_by_code(&number.code().value()) {
        Some(first) => kept_in(database, from, first, raw, number),
        None => String::from_str(database.allocator(), raw),
    }
}

/// The same of a number whose code's first territory this is. Refused only for memory.
fn kept_in(
    database: &Plans,
    from: Option<Id>,
    first: &Territory,
    raw: &str,
    number: &PhoneNumber,
) -> Result<String, AllocError>
    ensures { IfOk result (λ t. IsKept first.now number.now
        (written raw.now (text_of number.now.national))
        (option_and_then (territory_of database.now) from) (string_bytes t)) }
{
    let kept = kept_of(database.allocator(), raw)?;
    let digits = number.national().to_string(database.allocator())?;
    let text = written(kept.as_str(), digits.as_str());
    kept_text(from_territory(database, from), first, text, number)
}

/// What was kept of a text, from where the first three of a number's digits stand in it.
fn written<'a>(kept: &'a str, digits: &str) -> &'a str
    ensures { result.now ≡ encode_utf8_all (from_digits digits.now (chars kept.entry.now)) }
{
    from_digits(kept, digits)
}

/// The same of what was kept. Refused only for memory.
fn kept_text(
    from: Option<&Territory>,
    first: &Territory,
    text: &str,
    number: &PhoneNumber,
) -> Result<String, AllocError>
    ensures { IfOk result (λ t. IsKept first.now number.now text.now
        (option_copied from.entry) (string_bytes t)) }
{
    match at_home(from, number) {
        Some(m) => home_letters(m, text, number),
        None => abroad(from, first, text, number),
    }
}

/// The territory that is dialled from, where it is one of the number's calling code.
pub(crate) fn at_home<'d>(
    from: Option<&'d Territory>,
    number: &PhoneNumber,
) -> Option<&'d Territory>
    ensures { option_copied result ≡
        at_home number.now.code.value (option_copied from.entry) }
{
    match from {
        Some(from) => if_of(from, number.code().value()),
        None => None,
    }
}

/// A territory, where it is one of a calling code.
fn if_of(m: &Territory, code: u16) -> Option<&Territory>
    ensures { option_copied result ≡ if_of code m.entry.now }
{
    if m.country_code() == code {
        Some(m)
    } else {
        None
    }
}

/// What was kept, dialled in a territory of the number's code. Refused only for memory.
fn home_letters(m: &Territory, text: &str, number: &PhoneNumber) -> Result<String, AllocError>
    ensures { IfOk result (λ t. string_bytes t ≡ home_letters m.now number.now text.now) }
{
    if number.code().value() == NANPA_CODE {
        return behind_one(m.allocator(), text);
    }
    let digits = number.national().to_string(m.allocator())?;
    ruled_in(m, digits.as_str(), text)
}

/// A text behind the digit 1 and a space. Refused only for memory.
pub(crate) fn behind_one(alloc: Global, text: &str) -> Result<String, AllocError>
    ensures { IfOk result (λ t. string_bytes t ≡
        codes "1 " ++ text.now) }
{
    format!(in alloc; "1 {text}")
}

/// A text with its first group of digits written by the rule by which a territory lays out digits.
/// Refused only for memory.
pub(crate) fn ruled_in(m: &Territory, digits: &str, text: &str) -> Result<String, AllocError>
    ensures { IfOk result (λ t. string_bytes t ≡ ruled_in m.now digits.now text.now) }
{
    match rule_in(m, digits)? {
        Some(rule) => { ruled_text(m.allocator(), rule, m.national_prefix().unwrap_or(""), text) }
        None => String::from_str(m.allocator(), text),
    }
}

/// The rule by which a territory lays out digits at home. Refused only for memory.
fn rule_in<'d>(m: &'d Territory, digits: &str) -> Result<Option<&'d str>, AllocError>
    ensures { IfOk result (λ r. option_copied r ≡ rule_in m.entry.now digits.now) }
{
    match layout_of(m, digits)? {
        Some(layout) => Ok(layout.national_prefix()),
        None => Ok(None),
    }
}

/// What stands before the first group of digits in a text, that group, and what stands behind it.
fn parted(text: &str) -> (&str, &str, &str)
    ensures before { result.0.now ≡ before_group text.entry.now }
    ensures group { result.1.now ≡ group_in text.entry.now }
    ensures behind { result.2.now ≡ behind_group text.entry.now }
{
    let (before, rest) = split_run(text, &Between);
    let (group, behind) = split_run(rest, &Digits);
    (before, group, behind)
}

/// A text with its first group of digits written by a rule. Refused only for memory.
fn ruled_text(alloc: Global, rule: &str, prefix: &str, text: &str) -> Result<String, AllocError>
    ensures { IfOk result (λ t. string_bytes t ≡ ruled_text rule.now prefix.now text.now) }
{
    let (before, group, behind) = parted(text);
    if group.is_empty() {
        return String::from_str(alloc, text);
    }
    with_group(alloc, rule, prefix, before, group, behind)
}

/// A group of digits written by a rule, between what stands before it and behind it. Refused only
/// for memory.
fn with_group(
    alloc: Global,
    rule: &str,
    prefix: &str,
    before: &str,
    group: &str,
    behind: &str,
) -> Result<String, AllocError>
    ensures { IfOk result (λ t. string_bytes t ≡
        before.now ++ (ruled_group rule.now prefix.now group.now ++ behind.now)) }
{
    let written = ruled_group(alloc, rule, prefix, group)?;
    format!(in alloc; "{before}{written}{behind}")
}

/// A rule with its marks filled. Refused only for memory.
fn ruled_group(alloc: Global, rule: &str, prefix: &str, group: &str) -> Result<String, AllocError>
    ensures { IfOk result (λ t. string_bytes t ≡ ruled_group rule.now prefix.now group.now) }
{
    let prefixed = rule.replace(alloc, NATIONAL_PREFIX, prefix)?;
    prefixed.as_str().replace(alloc, GROUP, group)
}

/// What was kept, dialled from a territory of another code or from none. Refused only for memory.
fn abroad(
    from: Option<&Territory>,
    first: &Territory,
    text: &str,
    number: &PhoneNumber,
) -> Result<String, AllocError>
    requires { at_home number.now.code.value (option_copied from) ≡ None }
    ensures { IfOk result (λ t. IsKept first.now number.now text.now
        (option_copied from.entry) (string_bytes t)) }
{
    let (kept, _) = split_extension(text);
    abroad_letters(from, first, kept, number)
}

/// A text dialled from a territory of another code or from none. Refused only for memory.
fn abroad_letters(
    from: Option<&Territory>,
    first: &Territory,
    text: &str,
    number: &PhoneNumber,
) -> Result<String, AllocError>
    ensures { IfOk result (λ t. string_bytes t ≡
        abroad_letters (option_copied from.entry) first.now number.now text.now) }
{
    let coded = behind_code(first, text, number)?;
    behind_prefix(first.allocator(), prefix_from(from), coded.as_str())
}

/// A text behind the calling code of a number and a space, and the number's extension. Refused only
/// for memory.
fn behind_code(first: &Territory, text: &str, number: &PhoneNumber) -> Result<String, AllocError>
    ensures { IfOk result (λ t. string_bytes t ≡
        (decimal number.now.code.value ++ 32 ∷ text.now) ++
        extension_part first.now (extension_told number.now.extension)) }
{
    let code = number.code().value();
    let coded = format!(in first.allocator(); "{code} {text}")?;
    with_extension(coded, first, number)
}

/// The prefix that is dialled before letters from where this may be the territory.
fn prefix_from(from: Option<&Territory>) -> Option<&str>
    ensures { option_copied result ≡
        option_and_then lettered_prefix (option_copied from.entry) }
{
    match from {
        Some(from) => lettered_prefix(from),
        None => None,
    }
}

/// The prefix that is dialled before letters in a territory.
fn lettered_prefix(from: &Territory) -> Option<&str>
    ensures { option_copied result ≡ lettered_prefix from.entry.now }
{
    match single_prefix(from) {
        Some(single) => Some(single),
        None => preferred_prefix(from),
    }
}
