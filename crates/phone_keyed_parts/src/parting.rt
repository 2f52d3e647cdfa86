//! Where the keys of a number are parted.
ghost use Rattle.std.specs.Prelude.{◌≡◌, if◌then◌else◌, length, take, unwrap_or, IfOk, IfSome};
ghost use Rattle.std.specs.Prelude.{IsCharBoundary};
ghost use Rattle.std.specs.Option.{option_copied};
ghost use Rattle.phone_parts.specs.Texts.{is_front};
ghost use Rattle.phone_pattern.specs.First.{front_end};
ghost use Rattle.phone_keyed_parts.specs.Lines as line_rules;

use phone_pattern::Pattern;
use phone_plans::{Plans, Territory};
use phone_read::trims::has_front;
use phone_values::country::Id;
use std::alloc::AllocError;

/// The code whose territories have 1 as their national prefix.
const NORTH_AMERICA: u16 = 1;

/// Whether this byte stands in a text behind n others.
fn is_at(n: usize, byte: u8, text: &str) -> bool
    ensures { result ≡ line_rules.is_at n byte text.now }
{
    match text.as_bytes().get(n) {
        Some(found) => *found == byte,
        None => false,
    }
}

/// Whether keys begin with a plus sign.
fn has_plus(keys: &str) -> bool
    ensures { result ≡ line_rules.has_plus keys.now }
{
    is_at(0, b'+', keys)
}

/// What is written behind a plus sign, nothing, or behind an international prefix, a space.
pub(crate) fn gap_behind_sign(keys: &str) -> &'static str
    ensures { result.now ≡ line_rules.gap_behind_sign keys.now }
{
    if has_plus(keys) { "" } else { " " }
}

/// Where a calling code may begin: after a plus sign, else after the territory's international
/// prefix. Refused only for memory.
pub fn sign_end(m: Option<&Territory>, keys: &str) -> Result<Option<usize>, AllocError>
    ensures end { IfOk result (λ end. end ≡ line_rules.sign_end (option_copied m.entry) keys.now) }
    ensures border { IfOk result (λ end. IfSome end (λ e. IsCharBoundary keys.now e)) }
{
    if has_plus(keys) {
        return Ok(Some(1));
    }
    let Some(m) = m else {
        return Ok(None);
    };
    match m.international_prefix_pattern() {
        Some(pattern) => pattern.front_end(keys),
        None => Ok(None),
    }
}

/// Whether a territory has the hint's id.
fn is_hinted(hint: Option<Id>, m: &Territory) -> bool
    ensures { result ≡ line_rules.is_hinted hint m.now }
{
    match hint {
        Some(id) => m.id() == id.as_str(),
        None => false,
    }
}

/// The territory behind a calling code: the first of the code; where that is the hint's, it stays
/// what it was.
pub(crate) fn territory_behind<'d>(
    db: &'d Plans,
    hint: Option<Id>,
    code: u16,
    before: Option<&'d Territory>,
) -> Option<&'d Territory>
    ensures { option_copied result ≡
        line_rules.territory_behind db.entry.now hint code (option_copied before.entry) }
{
    match db.first_by_code(&code) {
        Some(m) => { if is_hinted(hint, m) { before } else { Some(m) } }
        None => before,
    }
}

/// Whether digits begin with 1 as the national prefix of a territory of the code 1.
fn has_trunk_one(m: &Territory, digits: &str) -> bool
    ensures { result ≡ line_rules.has_trunk_one m.now digits.now }
{
    m.country_code() == NORTH_AMERICA
        && is_at(0, b'1', digits)
        && !is_at(1, b'0', digits)
        && !is_at(1, b'1', digits)
}

/// How many digits in front are the national prefix that a territory's rules tell. Refused only for
/// memory.
fn told_length(m: &Territory, digits: &str) -> Result<usize, AllocError>
    ensures length { IfOk result (λ n. n ≡ line_rules.told_length m.now digits.now) }
    ensures border { IfOk result (λ n. IsCharBoundary digits.now n) }
{
    match m.national_prefix_for_parsing_pattern() {
        Some(pattern) => matched_length(pattern, digits),
        None => Ok(plain_length(m.national_prefix(), digits)),
    }
}

/// How many digits in front a pattern's first match has, if it begins there. Refused only for
/// memory.
fn matched_length(pattern: &Pattern, digits: &str) -> Result<usize, AllocError>
    ensures length { IfOk result (λ n. n ≡ unwrap_or (front_end pattern.now digits.now) 0) }
    ensures border { IfOk result (λ n. IsCharBoundary digits.now n) }
{
    match pattern.front_end(digits)? {
        Some(end) => Ok(end),
        None => Ok(0),
    }
}

/// How long a prefix is, where there is one and digits begin with it.
fn plain_length(prefix: Option<&str>, digits: &str) -> usize
    ensures length { result ≡
        line_rules.plain_length (option_copied prefix.entry) digits.now }
    ensures border { IsCharBoundary digits.now result }
{
    match prefix {
        Some(prefix) => front_length(prefix, digits),
        None => 0,
    }
}

/// How long a prefix is, where digits begin with it.
fn front_length(prefix: &str, digits: &str) -> usize
    ensures length { result ≡ (if is_front prefix.now digits.now then length prefix.now else 0) }
    ensures border { IsCharBoundary digits.now result }
{
    if has_front(digits, prefix) {
        return prefix.len();
    }
    0
}

/// How many digits in front are the national prefix; 0 where there is none, and without a
/// territory. Refused only for memory.
pub(crate) fn prefix_length(m: Option<&Territory>, digits: &str) -> Result<usize, AllocError>
    ensures length { IfOk result (λ n. n ≡
        line_rules.prefix_length_in (option_copied m.entry) digits.now) }
    ensures border { IfOk result (λ n. IsCharBoundary digits.now n) }
{
    match m {
        Some(m) => prefix_length_of(m, digits),
        None => Ok(0),
    }
}

/// How many digits in front are the territory's national prefix; 0 where there is none. Refused
/// only for memory.
fn prefix_length_of(m: &Territory, digits: &str) -> Result<usize, AllocError>
    ensures length { IfOk result (λ n. n ≡ line_rules.prefix_length m.now digits.now) }
    ensures border { IfOk result (λ n. IsCharBoundary digits.now n) }
{
    if has_trunk_one(m, digits) {
        return Ok(1);
    }
    told_length(m, digits)
}

/// What is written behind the national prefix: a space behind that of the code 1.
pub(crate) fn gap_in(m: Option<&Territory>, digits: &str) -> &'static str
    ensures { result.now ≡ line_rules.gap_in (option_copied m.entry) digits.now }
{
    match m {
        Some(m) => { if has_trunk_one(m, digits) { " " } else { "" } }
        None => "",
    }
}

/// At which byte of a text the last place begins where a part, of one byte at least, stands in it;
/// 0 where it doesn't.
pub(crate) fn before_last(part: &str, text: &str) -> usize
    ensures place { take result text.now ≡ line_rules.before_last part.now text.now }
    ensures border { IsCharBoundary text.now result }
{
    match text.rfind(part) {
        Some(at) => at,
        None => 0,
    }
}
