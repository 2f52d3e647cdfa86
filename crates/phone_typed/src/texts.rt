//! What is shown of keys under a database and a hint.
ghost use Rattle.std.specs.Prelude.{◌≡◌, ◌∷◌, ◌++◌, List, Option, IfOk, IsTrue, chars, drop};
ghost use Rattle.std.specs.Prelude.{length, string_bytes, take, true};
ghost use Rattle.std.specs.Fmt.{decimal};
ghost use Rattle.std.specs.Option.{option_copied, option_map_or};
ghost use Rattle.phone_values.specs.declared.mode.Mode.TheVariants as mode;
ghost use Rattle.phone_values.specs.declared.country.Id as country;
ghost use Rattle.phone_parts.specs.Texts.{is_front};
ghost use Rattle.phone_records.specs.declared.loader.Metadata as loader;
ghost use Rattle.phone_typed.specs.Keys.{HasNoPlus, keys_in};
ghost use Rattle.phone_typed.specs.Typed.{layout_territory, text_abroad, text_at, text_of_code};
ghost use Rattle.phone_typed.specs.Typed.{text_of_keys, typed};

use crate::keys::{are_keys, keys_in};
use crate::layouts::{is_short, text_of_keys};
use crate::stripping::national_digits;
use phone_base::results::in_place_of;
use phone_plans::{Plans, Territory};
use phone_print::written::ROOM;
use phone_read::hint_territory;
use phone_read::trims::behind_number;
use phone_values::Mode;
use phone_values::country::Id;
use std::alloc::AllocError;

/// What is shown of a number while it is typed, once these keys are: the digits of a text by their
/// values in any script, and a plus sign before them; all else in it is dropped.
///
/// Under the hint's region, or after a plus sign and a listed calling code, that is what is printed
/// of the number, where a layout has all its digits; else the beginning of what is printed of it
/// with nines after its digits. Where a layout doesn't show the keys as they are, and where there
/// is none, they stand without marks. A code is followed by a space. Refused only for memory, which
/// the database's allocator takes.
pub fn typed(database: &Plans, hint: Option<Id>, text: &str) -> Result<String, AllocError>
    ensures { IfOk result (λ t. string_bytes t ≡
        typed database.now hint (keys_in (chars text.now))) }
{
    if are_keys(text) {
        return shown_of(database, hint, text);
    }
    let keys = keys_in(database.allocator(), text)?;
    let shown = shown_of(database, hint, keys.as_str());
    in_place_of(keys, shown)
}

/// What is shown of keys. Refused only for memory.
fn shown_of(db: &Plans, hint: Option<Id>, keys: &str) -> Result<String, AllocError>
    ensures { IfOk result (λ t. string_bytes t ≡ typed db.now hint keys.now) }
{
    if is_shown_as_it_is(keys) {
        return String::from_str(db.allocator(), keys);
    }
    let home = home_of(db, hint, keys);
    text_of(db, home, keys)
}

/// The first territory of the calling code of the hint; it isn't looked for where the keys begin
/// with a plus sign.
fn home_of<'d>(db: &'d Plans, hint: Option<Id>, keys: &str) -> Option<&'d Territory>
    ensures { HasNoPlus keys.now → option_copied result ≡ layout_territory db.entry.now hint }
{
    match keys.strip_prefix('+') {
        Some(_) => None,
        None => layout_territory(db, hint),
    }
}

/// Whether keys are certain to be shown as they are, in any territory: they are too few, and have
/// no plus sign.
fn is_shown_as_it_is(keys: &str) -> bool
    ensures { IsTrue result → (db : List loader.Metadata) → (hint : Option country.Id) →
        typed db hint keys.now ≡ keys.now }
{
    match keys.strip_prefix('+') {
        Some(_) => false,
        None => is_short(keys),
    }
}

/// What is shown of keys, by the territory in which digits without a plus sign are typed. Refused
/// only for memory.
pub(crate) fn text_of(
    db: &Plans,
    home: Option<&Territory>,
    keys: &str,
) -> Result<String, AllocError>
    ensures { (hint : Option country.Id) →
        (HasNoPlus keys.now → option_copied home.entry ≡ layout_territory db.now hint) →
        IfOk result (λ t. string_bytes t ≡ typed db.now hint keys.now) }
{
    if let Some(digits) = keys.strip_prefix('+') {
        return text_abroad(db, digits);
    }
    match home {
        Some(m) => text_at(db, m, keys),
        None => String::from_str(db.allocator(), keys),
    }
}

/// The first territory of the calling code of the hint.
pub(crate) fn layout_territory(db: &Plans, hint: Option<Id>) -> Option<&Territory>
    ensures { option_copied result ≡ layout_territory db.now hint }
{
    let m = hint_territory(db, hint)?;
    db.first_by_code(&m.country_code())
}

/// What is shown of digits that are typed in a territory. Refused only for memory.
fn text_at(db: &Plans, m: &Territory, keys: &str) -> Result<String, AllocError>
    ensures { IfOk result (λ t. string_bytes t ≡ text_at m.now keys.now) }
{
    if is_short(keys) {
        return String::from_str(db.allocator(), keys);
    }
    let national = national_digits(m, keys)?;
    let shown = text_of_keys(db, m, Mode::National, national.as_str(), keys);
    in_place_of(national, shown)
}

/// What is shown of digits that are typed after a plus sign. Refused only for memory.
fn text_abroad(db: &Plans, digits: &str) -> Result<String, AllocError>
    ensures { IfOk result (λ t. string_bytes t ≡ text_abroad db.now digits.now) }
{
    match db.shortest(digits) {
        Some(code) => text_of_code(db, code, digits),
        None => signed(db, digits),
    }
}

/// The digits after a plus sign. Refused only for memory.
fn signed(db: &Plans, digits: &str) -> Result<String, AllocError>
    ensures { IfOk result (λ t. string_bytes t ≡ 43 ∷ digits.now) }
{
    let mut text = String::with_capacity(db.allocator(), ROOM)?;
    text.push('+')?;
    text.push_str(digits)?;
    Ok(text)
}

/// What is shown of digits after a plus sign that begin with this calling code. Refused only for
/// memory.
fn text_of_code(db: &Plans, code: u16, digits: &str) -> Result<String, AllocError>
    requires { is_front (decimal code) digits.now ≡ true }
    ensures { IfOk result (λ t. string_bytes t ≡ text_of_code db.now digits.now code) }
{
    let Some(m) = db.first_by_code(&code) else {
        return signed(db, digits);
    };
    let at = behind_number(digits, code);
    let (front, rest) = (&digits[..at], &digits[at..]);
    let shown = text_of_keys(db, m, Mode::International, rest, rest)?;
    after_code(db, front, shown)
}

/// A calling code after a plus sign, a space, and a text. Refused only for memory.
fn after_code(db: &Plans, code: &str, text: String) -> Result<String, AllocError>
    ensures { IfOk result (λ t. string_bytes t ≡ 43 ∷ (code.now ++ 32 ∷ string_bytes text)) }
{
    let shown = joined(db, code, text.as_str());
    in_place_of(text, shown)
}

/// The same with a text that is lent.
fn joined(db: &Plans, code: &str, text: &str) -> Result<String, AllocError>
    ensures { IfOk result (λ t. string_bytes t ≡ 43 ∷ (code.now ++ 32 ∷ text.now)) }
{
    let mut shown = signed(db, code)?;
    shown.push(' ')?;
    shown.push_str(text)?;
    Ok(shown)
}
