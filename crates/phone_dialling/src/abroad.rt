//! How a number is dialled from a region.
ghost use Rattle.std.specs.Prelude.{◌≡◌, ◌&&◌, ◌++◌, IfOk, None, Some, chars, string_bytes};
ghost use Rattle.std.specs.Option.{option_and_then, option_copied};
ghost use Rattle.phone_dialling.specs.Abroad.{abroad_text, behind_prefix, dialled_by};
ghost use Rattle.phone_dialling.specs.Abroad.{dialled_in, dialled_text, home_text};
ghost use Rattle.phone_dialling.specs.Abroad.{are_some_digits, if_single, if_some};
ghost use Rattle.phone_dialling.specs.Abroad.{is_single, is_tail, is_wave, preferred_prefix};
ghost use Rattle.phone_dialling.specs.Abroad.{prefix_of, single_prefix};
ghost use Rattle.phone_dialling.specs.Texts.{plain};
ghost use Rattle.phone_chars.specs.Characters.{is_digit};
ghost use Rattle.phone_parts.specs.Texts.{begins};
ghost use Rattle.phone_print.specs.Texts.{international_by};
ghost use Rattle.phone_plans.specs.CodeLookUps.{first_of, territories};
ghost use Rattle.phone_questions.specs.Regions.{territory_of};
ghost use Rattle.std.specs.List.{list_all};

use crate::texts::{plain, plain_text, signless, text_in};
use phone_chars::chars::is_digit;
use phone_chars::cuts::{after_run, split_first};
use phone_plans::{Plans, Territory};
use phone_questions::Digits;
use phone_values::country::Id;
use phone_values::{Mode, Rules};
use phonenumber::PhoneNumber;
use std::alloc::{AllocError, Global};

/// The calling code of the North American Numbering Plan.
const NANPA_CODE: u16 = 1;

/// How a number is dialled from a region, where the text that it was read from may be known.
///
/// Where the number has the calling code of the region, its national text, for the code 1 behind
/// `1 `. Else an international prefix and a space, the number's code, a space, the number laid out
/// as in international text, and its extension. The prefix is the one that the region prefers, else
/// its pattern of prefixes where that is one prefix: digits, perhaps with a wave sign among them.
/// Where there is neither, a plus sign stands for prefix and space.
///
/// From no region, or one without a territory, the international text; of a number whose code isn't
/// listed the digits alone. Refused only for memory.
pub fn dialled_text(
    database: &Plans,
    from: Option<Id>,
    raw: Option<&str>,
    number: &PhoneNumber,
) -> Result<String, AllocError>
    ensures { IfOk result (λ t. string_bytes t ≡ dialled_text database.now from
        (option_copied raw.entry) number.now) }
{
    match from_territory(database, from) {
        Some(from) => dialled_in(database, from, raw, number),
        None => text_in(database, Mode::International, raw, number),
    }
}

/// The territory of a region, where there is one.
pub fn from_territory(database: &Plans, from: Option<Id>) -> Option<&Territory>
    ensures { option_copied result ≡
        option_and_then (territory_of database.entry.now) from }
{
    match from {
        Some(id) => database.by_id(id.as_str()),
        None => None,
    }
}

/// How a number is dialled from a territory. Refused only for memory.
fn dialled_in(
    database: &Plans,
    from: &Territory,
    raw: Option<&str>,
    number: &PhoneNumber,
) -> Result<String, AllocError>
    ensures { IfOk result (λ t. string_bytes t ≡ dialled_in database.now from.now
        (option_copied raw.entry) number.now) }
{
    match database.first_by_code(&number.code().value()) {
        Some(territory) => dialled_by(database, from, territory, raw, number),
        None => number.national().to_string(database.allocator()),
    }
}

/// The same of a number that the first territory of its code lays out. Refused only for memory.
fn dialled_by(
    database: &Plans,
    from: &Territory,
    m: &Territory,
    raw: Option<&str>,
    number: &PhoneNumber,
) -> Result<String, AllocError>
    requires { first_of (territories number.now.code.value database.now) ≡ Some m.now }
    ensures { IfOk result (λ t. string_bytes t ≡ dialled_by database.now from.now m.now
        (option_copied raw.entry) number.now) }
{
    if from.country_code() == number.code().value() {
        home_text(database, raw, number)
    } else {
        abroad_text(database, from, m, number)
    }
}

/// National text, between regions of the code 1 behind the digit 1 and a space. Refused only for
/// memory.
fn home_text(
    database: &Plans,
    raw: Option<&str>,
    number: &PhoneNumber,
) -> Result<String, AllocError>
    ensures { IfOk result (λ t. string_bytes t ≡
        home_text database.now (option_copied raw.entry) number.now) }
{
    let text = text_in(database, Mode::National, raw, number)?;
    if number.code().value() == NANPA_CODE {
        behind(database.allocator(), "1 ", text.as_str())
    } else {
        Ok(text)
    }
}

/// A text behind another. Refused only for memory.
fn behind(alloc: Global, front: &str, text: &str) -> Result<String, AllocError>
    ensures { IfOk result (λ t. string_bytes t ≡ front.now ++ text.now) }
{
    format!(in alloc; "{front}{text}")
}

/// A number that is dialled from a territory of another code. Refused only for memory.
fn abroad_text(
    database: &Plans,
    from: &Territory,
    m: &Territory,
    number: &PhoneNumber,
) -> Result<String, AllocError>
    requires { first_of (territories number.now.code.value database.now) ≡ Some m.now }
    ensures { IfOk result (λ t. string_bytes t ≡ abroad_text from.now m.now number.now) }
{
    let text = international(database, m, number)?;
    let rest = signless(text.as_str());
    behind_prefix(database.allocator(), prefix_of(from), rest)
}

/// The international text of a number that a territory lays out. Refused only for memory.
fn international(
    database: &Plans,
    m: &Territory,
    number: &PhoneNumber,
) -> Result<String, AllocError>
    requires { first_of (territories number.now.code.value database.now) ≡ Some m.now }
    ensures { IfOk result (λ t. string_bytes t ≡
        international_by Rules.Library m.now None (plain number.now)) }
{
    let number = plain(number)?;
    plain_text(database, Mode::International, &number)
}

/// A text behind a prefix and a space, without a prefix behind a plus sign. Refused only for
/// memory.
pub fn behind_prefix(alloc: Global, prefix: Option<&str>, rest: &str) -> Result<String, AllocError>
    ensures { IfOk result (λ t. string_bytes t ≡
        behind_prefix (option_copied prefix.entry) rest.now) }
{
    match prefix {
        Some(prefix) => format!(in alloc; "{prefix} {rest}"),
        None => format!(in alloc; "+{rest}"),
    }
}

/// The international prefix that is dialled in a territory.
pub(crate) fn prefix_of(from: &Territory) -> Option<&str>
    ensures { option_copied result ≡ prefix_of from.entry.now }
{
    match preferred_prefix(from) {
        Some(preferred) => Some(preferred),
        None => single_prefix(from),
    }
}

/// The international prefix that a territory prefers, where it isn't empty.
pub fn preferred_prefix(from: &Territory) -> Option<&str>
    ensures { option_copied result ≡ preferred_prefix from.entry.now }
{
    let preferred = from.preferred_international_prefix()?;
    unless_empty(preferred)
}

/// A text that isn't empty.
pub fn unless_empty(text: &str) -> Option<&str>
    ensures { option_copied result ≡ if_some text.entry.now }
{
    if text.is_empty() { None } else { Some(text) }
}

/// The pattern of a territory's international prefixes, where that is one prefix.
pub fn single_prefix(from: &Territory) -> Option<&str>
    ensures { option_copied result ≡ single_prefix from.entry.now }
{
    let pattern = from.international_prefix_pattern()?;
    if_single(pattern.as_str())
}

/// A pattern where it is one prefix.
fn if_single(pattern: &str) -> Option<&str>
    ensures { option_copied result ≡ if_single pattern.now }
{
    if is_single(pattern) {
        Some(pattern)
    } else {
        None
    }
}

/// Whether a pattern is one prefix.
fn is_single(pattern: &str) -> bool
    ensures { result ≡ is_single (chars pattern.now) }
{
    begins_with_digit(pattern) && is_tail(after_run(pattern, &Digits))
}

/// Whether the first character of a text is a digit from `0` to `9`.
pub(crate) fn begins_with_digit(text: &str) -> bool
    ensures { result ≡ begins is_digit (chars text.now) }
{
    match split_first(text) {
        Some((c, _)) => is_digit(c),
        None => false,
    }
}

/// Whether a text is empty, or a wave sign and digits.
fn is_tail(text: &str) -> bool
    ensures { result ≡ is_tail (chars text.now) }
{
    match split_first(text) {
        Some((c, rest)) => is_wave_before(c, rest),
        None => true,
    }
}

/// Whether a character is a wave sign, and digits follow it.
fn is_wave_before(c: char, rest: &str) -> bool
    ensures { result ≡ (is_wave c && are_some_digits (chars rest.now)) }
{
    is_wave(c) && are_some_digits(rest)
}

/// Whether a text is of digits, one at least.
fn are_some_digits(text: &str) -> bool
    ensures { result ≡ are_some_digits (chars text.now) }
{
    match split_first(text) {
        Some(_) => are_digits(text),
        None => false,
    }
}

/// Whether a character is a wave sign.
fn is_wave(c: char) -> bool
    ensures { result ≡ is_wave c }
{
    matches!(c, '~' | '\u{2053}' | '\u{223C}' | '\u{FF5E}')
}

/// Whether all characters are digits.
fn are_digits(text: &str) -> bool
    ensures { result ≡ list_all is_digit (chars text.now) }
{
    text.chars().all(|c| is_digit(c))
}
