//! The calling code of a number, and the digits that follow it.
ghost use Rattle.std.specs.Prelude.{◌≡◌, ◌==◌, ◌⊎◌, IfOk, IfSome, Some, None, Err, option_map};
ghost use Rattle.std.specs.Prelude.{if◌then◌else◌};
ghost use Rattle.std.specs.Cow.{cow_str_bytes};
ghost use Rattle.std.specs.Option.{option_copied};
ghost use Rattle.std.specs.Result.{result_map_both};
ghost use Rattle.phone_library.specs.LibraryCodes.{behind_code, code_after_sign, code_by_hint};
ghost use Rattle.phone_library.specs.LibraryCodes.{code_by_territory, code_in, cut_off, has_code};
ghost use Rattle.phone_library.specs.Kinds.{matches_whole};
ghost use Rattle.phone_library.specs.Lent.{told};
ghost use Rattle.phone_library.specs.Stripping.{strip};
ghost use Rattle.phone_parts.specs.Texts.{begins};
ghost use Rattle.phone_read.specs.Dialling.{after_match, found_in};

use crate::kinds::matches_general;
use crate::lengths::{is_too_long, length_in};
use crate::stripping::strip;
use phone_base::results::{in_place_of, zip_value};
use phone_plans::{Plans, Territory};
use phone_read::trims::{begins_with_number, behind_number};
use phone_values::ParseError;
use phone_values::country::Source;
use std::alloc::AllocError;
use std::borrow::CowStr;

/// The most digits after a plus sign or an international prefix that are too few for a number.
const TOO_FEW_AFTER_SIGN: usize = 2;

/// A calling code, and what follows it.
#[derive(Drop)]
pub(crate) struct Coded<'a> {
    /// What told the code.
    pub(crate) source: Source,
    /// The code.
    pub(crate) value: u16,
    /// The digits that follow it, which a transform rule may have written anew.
    pub(crate) rest: CowStr<'a>,
}

/// The code of a number's digits, with a plus sign before them or without; the territory is the
/// hint's. After a plus sign it is the shortest listed code at their front. Without one, or where
/// none is listed there, the code after the territory's international prefix counts, else that of
/// the territory; but after a plus sign it must stand in the digits.
///
/// `TooShortAfterIdd` where at most two digits follow a plus sign or an international prefix,
/// `InvalidCountryCode` where there is no code, and `Memory` where memory was refused.
pub(crate) fn code_in<'a>(
    db: &Plans,
    territory: Option<&Territory>,
    has_plus: bool,
    digits: &'a str,
) -> Result<Coded<'a>, ParseError>
    ensures { (result ≡ Err ParseError.Memory) ⊎ (result_map_both told (λ e. e) result ≡
        code_in db.now (option_copied territory.entry) has_plus digits.entry.now) }
{
    if !has_plus {
        return code_by_hint(db, territory, digits);
    }
    match code_after_sign(db, Source::Plus, digits) {
        Err(ParseError::InvalidCountryCode) => cut_off(code_by_hint(db, territory, digits)),
        coded => coded,
    }
}

/// What was found, if it was cut off the digits.
fn cut_off<'a>(coded: Result<Coded<'a>, ParseError>) -> Result<Coded<'a>, ParseError>
    ensures memory { coded.entry ≡ Err ParseError.Memory → result ≡ Err ParseError.Memory }
    ensures cut { result_map_both told (λ e. e) result ≡
        cut_off (result_map_both told (λ e. e) coded.entry) }
{
    let coded = coded?;
    match coded.source {
        Source::Default => Err(in_place_of(coded, ParseError::InvalidCountryCode)),
        _ => Ok(coded),
    }
}

/// The code after a plus sign or an international prefix: the shortest listed one at the front of
/// more than two digits. No memory is taken.
fn code_after_sign<'a>(db: &Plans, source: Source, digits: &'a str) -> Result<Coded<'a>, ParseError>
    ensures { result_map_both told (λ e. e) result ≡
        code_after_sign db.now source digits.entry.now }
{
    if digits.len() <= TOO_FEW_AFTER_SIGN {
        return Err(ParseError::TooShortAfterIdd);
    }
    match db.shortest(digits) {
        Some(value) => Ok(Coded {
            source,
            value,
            rest: CowStr::Borrowed(&digits[behind_number(digits, value)..]),
        }),
        None => Err(ParseError::InvalidCountryCode),
    }
}

/// The code without a plus sign: that after the international prefix of the hint's territory, else
/// the territory's own.
fn code_by_hint<'a>(
    db: &Plans,
    territory: Option<&Territory>,
    digits: &'a str,
) -> Result<Coded<'a>, ParseError>
    ensures { (result ≡ Err ParseError.Memory) ⊎ (result_map_both told (λ e. e) result ≡
        code_by_hint db.now (option_copied territory.entry) digits.entry.now) }
{
    let Some(territory) = territory else {
        return Err(ParseError::InvalidCountryCode);
    };
    match after_prefix(territory, digits)? {
        Some(after) => code_after_sign(db, Source::Idd, after),
        None => Ok(code_by_territory(territory, digits)?),
    }
}

/// What follows the international prefix of a territory, where its first match is at the front of
/// the digits, and no `0` follows it.
fn after_prefix<'a>(m: &Territory, digits: &'a str) -> Result<Option<&'a str>, AllocError>
    ensures { IfOk result (λ after. option_copied after ≡
        after_match digits.entry.now (found_in m.now.international_prefix digits.entry.now)) }
{
    let Some(pattern) = m.international_prefix_pattern() else {
        return Ok(None);
    };
    if !pattern.is_at_start(digits)? {
        return Ok(None);
    }
    match pattern.first_span(digits)? {
        Some((0, end)) => Ok(unless_zero(&digits[end..])),
        _ => Ok(None),
    }
}

/// The digits, unless they begin with `0`.
fn unless_zero(digits: &str) -> Option<&str>
    ensures { option_copied result ≡
        (if begins (λ d. d == 48) digits.now then None else Some digits.now) }
{
    if begins_with_zero(digits) {
        None
    } else {
        Some(digits)
    }
}

/// Whether the digits begin with `0`.
fn begins_with_zero(digits: &str) -> bool
    ensures { result ≡ begins (λ d. d == 48) digits.now }
{
    digits.starts_with('0')
}

/// The code of the hint's territory, cut off digits that are an international number without its
/// sign.
fn code_by_territory<'a>(m: &Territory, digits: &'a str) -> Result<Coded<'a>, AllocError>
    ensures { IfOk result (λ coded. told coded ≡ code_by_territory m.now digits.entry.now) }
{
    let value = m.country_code();
    match cut_code(m, digits)? {
        Some(rest) => Ok(Coded {
            source: Source::Number,
            value,
            rest,
        }),
        None => Ok(Coded {
            source: Source::Default,
            value,
            rest: CowStr::Borrowed(digits),
        }),
    }
}

/// The digits without the calling code of a territory, and without what it strips; none where they
/// aren't an international number without its sign: that begins with the code, and only without
/// the code does the general pattern match it, or with the code it is too long.
fn cut_code<'a>(m: &Territory, digits: &'a str) -> Result<Option<CowStr<'a>>, AllocError>
    ensures { IfOk result (λ rest. option_map cow_str_bytes rest ≡
        (if has_code m.now digits.entry.now then Some (behind_code m.now digits.entry.now)
        else None)) }
{
    let code = m.country_code();
    if !begins_with_number(digits, code) {
        return Ok(None);
    }
    let rest = &digits[behind_number(digits, code)..];
    if is_too_long(length_in(m, digits.len())) {
        return Ok(Some(stripped_or_all(m, rest)?));
    }
    if matches_general(m, digits)? {
        return Ok(None);
    }
    if_general(m, stripped_or_all(m, rest)?)
}

/// The digits, if the general pattern of a territory matches them.
fn if_general<'a>(m: &Territory, digits: CowStr<'a>) -> Result<Option<CowStr<'a>>, AllocError>
    ensures { IfOk result (λ rest. option_map cow_str_bytes rest ≡
        (if matches_whole m.now.general (cow_str_bytes digits.entry)
        then Some (cow_str_bytes digits.entry) else None)) }
{
    let is_general = matches_general(m, digits.as_str());
    let (is_general, digits) = zip_value(is_general, digits)?;
    if is_general {
        Ok(Some(digits))
    } else {
        Ok(in_place_of(digits, None))
    }
}

/// What a territory leaves of digits.
fn stripped_or_all<'a>(m: &Territory, digits: &'a str) -> Result<CowStr<'a>, AllocError>
    ensures { IfOk result (λ rest. cow_str_bytes rest ≡
        (strip m.now digits.entry.now).national) }
{
    match strip(m, digits)? {
        Some(left) => Ok(left.national),
        None => Ok(CowStr::Borrowed(digits)),
    }
}
