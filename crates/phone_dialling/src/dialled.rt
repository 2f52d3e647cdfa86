//! How a number is dialled from a region with the letters in which it was written: our own answer.
ghost use Rattle.std.specs.Prelude.{◌≡◌, IfOk, Some, chars, count_by, option_map, string_bytes};
ghost use Rattle.std.specs.Option.{option_and_then, option_copied};
ghost use Rattle.phone_chars.specs.Characters.{is_alpha};
ghost use Rattle.phone_library_text.specs.Letters.{is_lettered};
ghost use Rattle.phone_dialling.specs.Abroad.{prefix_of};
ghost use Rattle.phone_dialling.specs.Dialled.{IsDialled, abroad_end, home_end, lettered_by};
ghost use Rattle.phone_dialling.specs.Dialled.{lettered_end, lettered_of, placed, with_letters};
ghost use Rattle.phone_dialling.specs.Kept.{kept_of};

use crate::abroad::{
    begins_with_digit, behind_prefix, dialled_text, from_territory, preferred_prefix, single_prefix,
};
use crate::ends::dialled_end;
use crate::kept::kept_of;
use crate::lettered::{NANPA_CODE, at_home, behind_one, ruled_in};
use crate::original::with_extension;
use phone_chars::chars::is_alpha;
use phone_library_text::split_extension;
use phone_plans::{Plans, Territory};
use phone_values::country::Id;
use phonenumber::PhoneNumber;
use std::alloc::{AllocError, Global};

/// How a number is dialled from a region with the letters of the text that it was read from, as
/// `0800 FLOWERS` in New Zealand and `00 64 800 FLOWERS` from Austria: where that text, without its
/// extension, has three letters, the end of it that is dialled by the number's digits.
///
/// In a region of the number's calling code that stands behind `1 ` for the code 1, else its first
/// group of digits is written by the rule of the region's layout; from elsewhere behind the code
/// and the international prefix that `dialled_text` writes. The number's
/// extension follows. So what is dialled reaches the number, where `text_with_letters` may lose the
/// national prefix, or write it twice.
///
/// As `dialled_text` writes the number where no text is given, where it has fewer letters, where no
/// end of it is dialled so, or one that begins with a letter at home of another code than 1; and
/// where the code isn't listed. Refused only for memory.
pub fn dialled_with_letters(
    database: &Plans,
    from: Option<Id>,
    raw: Option<&str>,
    number: &PhoneNumber,
) -> Result<String, AllocError>
    ensures { IfOk result (λ t. IsDialled database.now from number.now
        (option_copied raw.entry) (string_bytes t)) }
{
    match raw {
        Some(raw) => written(database, from, raw, number),
        None => dialled_text(database, from, None, number),
    }
}

/// The same of a text that is there. Refused only for memory.
fn written(
    database: &Plans,
    from: Option<Id>,
    raw: &str,
    number: &PhoneNumber,
) -> Result<String, AllocError>
    ensures { IfOk result (λ t. IsDialled database.now from number.now (Some raw.now)
        (string_bytes t)) }
{
    let (front, _) = split_extension(raw);
    with_letters(database, from, front, number)
}

/// The same of a text without its extension. Refused only for memory.
fn with_letters(
    database: &Plans,
    from: Option<Id>,
    front: &str,
    number: &PhoneNumber,
) -> Result<String, AllocError>
    ensures { IfOk result (λ t. string_bytes t ≡
        with_letters database.now from number.now (chars front.now)) }
{
    match lettered_of(database, from, front, number)? {
        Some(text) => Ok(text),
        None => dialled_text(database, from, None, number),
    }
}

/// A number dialled with the letters of a text, where that has some. Refused only for memory.
fn lettered_of(
    database: &Plans,
    from: Option<Id>,
    front: &str,
    number: &PhoneNumber,
) -> Result<Option<String>, AllocError>
    ensures { IfOk result (λ t. option_map string_bytes t ≡
        lettered_of database.now from number.now (chars front.now)) }
{
    if !is_lettered(front) {
        return Ok(None);
    }
    match database.first_by_code(&number.code().value()) {
        Some(first) => lettered_by(from_territory(database, from), first, front, number),
        None => Ok(None),
    }
}

/// How many letters of ASCII a text has.
fn count_letters(text: &str) -> usize
    ensures { result ≡ count_by is_alpha (chars text.now) }
{
    text.chars().filter(|c| is_alpha(*c)).count()
}

/// Whether a text has three letters of ASCII at least.
fn is_lettered(text: &str) -> bool
    ensures { result ≡ is_lettered (chars text.now) }
{
    count_letters(text) >= 3
}

/// A number of a code whose first territory this is, dialled with what is kept of a text. Refused
/// only for memory.
fn lettered_by(
    from: Option<&Territory>,
    first: &Territory,
    front: &str,
    number: &PhoneNumber,
) -> Result<Option<String>, AllocError>
    ensures { IfOk result (λ t. option_map string_bytes t ≡
        lettered_by (option_copied from.entry) first.now number.now (kept_of front.now)) }
{
    let kept = kept_of(first.allocator(), front)?;
    let digits = number.national().to_string(first.allocator())?;
    match dialled_end(kept.as_str(), digits.as_str()) {
        Some(end) => lettered_end(from, first, end, number),
        None => Ok(None),
    }
}

/// An end of a text that is a number, as it is dialled, with the number's extension. Refused only
/// for memory.
fn lettered_end(
    from: Option<&Territory>,
    first: &Territory,
    end: &str,
    number: &PhoneNumber,
) -> Result<Option<String>, AllocError>
    ensures { IfOk result (λ t. option_map string_bytes t ≡
        lettered_end (option_copied from.entry) first.now number.now end.now) }
{
    match placed(first.allocator(), from, end, number)? {
        Some(text) => Ok(Some(with_extension(text, first, number)?)),
        None => Ok(None),
    }
}

/// Such an end as it is dialled. Refused only for memory.
fn placed(
    alloc: Global,
    from: Option<&Territory>,
    end: &str,
    number: &PhoneNumber,
) -> Result<Option<String>, AllocError>
    ensures { IfOk result (λ t. option_map string_bytes t ≡
        placed (option_copied from.entry) number.now end.now) }
{
    match at_home(from, number) {
        Some(m) => home_end(m, end, number),
        None => Ok(Some(abroad_end(alloc, from, end, number)?)),
    }
}

/// Such an end dialled in a territory of the number's code. Refused only for memory.
fn home_end(m: &Territory, end: &str, number: &PhoneNumber) -> Result<Option<String>, AllocError>
    ensures { IfOk result (λ t. option_map string_bytes t ≡ home_end m.now number.now end.now) }
{
    if number.code().value() == NANPA_CODE {
        return Ok(Some(behind_one(m.allocator(), end)?));
    }
    if !begins_with_digit(end) {
        return Ok(None);
    }
    let digits = number.national().to_string(m.allocator())?;
    Ok(Some(ruled_in(m, digits.as_str(), end)?))
}

/// Such an end dialled from a territory of another code or from none. Refused only for memory.
fn abroad_end(
    alloc: Global,
    from: Option<&Territory>,
    end: &str,
    number: &PhoneNumber,
) -> Result<String, AllocError>
    ensures { IfOk result (λ t. string_bytes t ≡
        abroad_end (option_copied from.entry) number.now end.now) }
{
    let code = number.code().value();
    let coded = format!(in alloc; "{code} {end}")?;
    behind_prefix(alloc, dialled_prefix(from), coded.as_str())
}

/// The international prefix that is dialled from where this may be the territory.
fn dialled_prefix(from: Option<&Territory>) -> Option<&str>
    ensures { option_copied result ≡
        option_and_then prefix_of (option_copied from.entry) }
{
    match from {
        Some(from) => prefix_of(from),
        None => None,
    }
}

/// The international prefix that is dialled in a territory.
fn prefix_of(from: &Territory) -> Option<&str>
    ensures { option_copied result ≡ prefix_of from.entry.now }
{
    match preferred_prefix(from) {
        Some(preferred) => Some(preferred),
        None => single_prefix(from),
    }
}
