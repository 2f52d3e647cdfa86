//! How a number is dialled from a region.
ghost use Rattle.std.specs.Prelude.{◌≡◌, ◌↔◌, ◌++◌, ◌∷◌, ℕ, List, None, Some, Ok, Err, IfOk};
ghost use Rattle.std.specs.Prelude.{IfSome, IsNone, codes, string_bytes};
ghost use Rattle.std.specs.List.{list_all};
ghost use Rattle.std.specs.Option.{option_and_then, option_copied};
ghost use Rattle.phone_chars.specs.Characters.{is_digit};
ghost use Rattle.phonenumber.specs.Printed.{printed};
ghost use Rattle.phone_engine.specs.Dialled.{dialled_prefix, dialled_text, dialling_prefix_of};
ghost use Rattle.phone_engine.specs.Dialled.{if_digits, if_some};

pub mod laws;

use phone_plans::{Plans, Territory};
use phone_values::Mode;
use phone_values::country::Id;
use phonenumber::{FormatError, PhoneNumber, format_with};
use std::alloc::{AllocError, Global};
use thiserror::Error;

/// Why it is not told how a number is dialled.
#[derive(Clone, Copy, PartialEq, Eq, Debug, Error)]
pub enum DialError {
    /// The database has no territory of the region.
    #[error("unknown region")]
    UnknownRegion,

    /// The database lists no territory of the number's calling code.
    #[error("unknown calling code")]
    UnknownCode,

    /// Memory was refused.
    #[error("out of memory")]
    Memory,
}

/// How a number is dialled from a region.
///
/// Where the number has the calling code of the region's territory, its national text. Else an
/// international prefix and a space, the number's code, a space, the number laid out as in
/// international text, and its extension. The prefix is the one that the territory prefers, if
/// that isn't empty, else its pattern of prefixes where that is digits alone; where there is
/// neither, a plus sign stands for prefix and space. The extension is printed as in national and
/// international text.
///
/// `UnknownRegion` exactly where the database has no territory of the region; `UnknownCode` exactly
/// where it has one of the region, but none of the number's code; `Memory` where memory was
/// refused. The rule is that of libphonenumber's `formatOutOfCountryCallingNumber`, which besides
/// puts `1 ` before a national text between regions of the code 1, and for an unknown region
/// answers international text.
pub fn dialled_from(database: &Plans, region: Id, number: &PhoneNumber) -> Result<String, DialError>
    ensures text { IfOk result
        (λ t. dialled_text database.now region number.now ≡ Ok (string_bytes t)) }
    ensures unknown_region { (result ≡ Err DialError.UnknownRegion) ↔
        (dialled_text database.now region number.now ≡ Err DialError.UnknownRegion) }
    ensures unknown_code { (result ≡ Err DialError.UnknownCode) ↔
        (dialled_text database.now region number.now ≡ Err DialError.UnknownCode) }
{
    let Some(from) = database.by_id(region.as_str()) else {
        return Err(DialError::UnknownRegion);
    };
    if from.country_code() == number.code().value() {
        return text_in(database, number, Mode::National);
    }
    let text = text_in(database, number, Mode::International)?;
    match dialled_abroad(database.allocator(), from, text.as_str()) {
        Ok(text) => Ok(text),
        Err(_) => Err(DialError::Memory),
    }
}

/// The text of a number in a mode. `UnknownCode` exactly where its code isn't listed; `Memory`
/// where memory was refused.
fn text_in(database: &Plans, number: &PhoneNumber, mode: Mode) -> Result<String, DialError>
    ensures text { IfOk result
        (λ t. printed database.now mode None number.now ≡ Some (string_bytes t)) }
    ensures unknown { (result ≡ Err DialError.UnknownCode) ↔
        (printed database.now mode None number.now ≡ None) }
    ensures region { ¬ (result ≡ Err DialError.UnknownRegion) }
{
    let printer = format_with(database, number).mode(mode);
    match printer.to_text(database.allocator()) {
        Ok(text) => Ok(text),
        Err(FormatError::UnknownCode) => Err(DialError::UnknownCode),
        Err(FormatError::Memory) => Err(DialError::Memory),
    }
}

/// An international text with what is dialled in the place of its plus sign. Refused only for
/// memory.
fn dialled_abroad(alloc: Global, from: &Territory, text: &str) -> Result<String, AllocError>
    ensures { IfOk result (λ t. (rest : List ℕ) → text.now ≡ codes "+" ++ rest →
        string_bytes t ≡ dialling_prefix_of from.now ++ rest) }
{
    let Some(prefix) = dialled_prefix(from) else {
        return String::from_str(alloc, text);
    };
    match signless(text) {
        Some(rest) => behind_prefix(alloc, prefix, rest),
        None => String::from_str(alloc, text),
    }
}

/// A text without its leading plus sign, where it has one.
fn signless(text: &str) -> Option<&str>
    ensures found { IfSome result (λ rest. text.now ≡ codes "+" ++ rest.now) }
    ensures none { IsNone result → (rest : List ℕ) → ¬ (text.now ≡ codes "+" ++ rest) }
{
    text.strip_prefix("+")
}

/// A prefix, a space, and what is dialled behind it. Refused only for memory.
fn behind_prefix(alloc: Global, prefix: &str, rest: &str) -> Result<String, AllocError>
    ensures { IfOk result (λ t. string_bytes t ≡ prefix.now ++ 32 ∷ rest.now) }
{
    format!(in alloc; "{prefix} {rest}")
}

/// The international prefix that is dialled in a territory.
fn dialled_prefix(from: &Territory) -> Option<&str>
    ensures { option_copied result ≡ dialled_prefix from.entry.now }
{
    match preferred_prefix(from) {
        Some(preferred) => Some(preferred),
        None => only_prefix(from),
    }
}

/// The international prefix that a territory prefers, where it isn't empty.
fn preferred_prefix(from: &Territory) -> Option<&str>
    ensures { option_copied result ≡
        option_and_then if_some from.entry.now.preferred_international_prefix }
{
    let preferred = from.preferred_international_prefix()?;
    some(preferred)
}

/// A text that isn't empty.
fn some(text: &str) -> Option<&str>
    ensures { option_copied result ≡ if_some text.entry.now }
{
    if text.is_empty() { None } else { Some(text) }
}

/// The pattern of a territory's international prefixes, where that is digits alone.
fn only_prefix(from: &Territory) -> Option<&str>
    ensures { option_copied result ≡
        option_and_then if_digits from.entry.now.international_prefix }
{
    let pattern = from.international_prefix_pattern()?;
    digits(pattern.as_str())
}

/// A text that is digits alone, one at least.
fn digits(text: &str) -> Option<&str>
    ensures { option_copied result ≡ if_digits text.now }
{
    if !text.is_empty() && are_digits(text.as_bytes()) {
        Some(text)
    } else {
        None
    }
}

/// Whether all bytes are digits.
fn are_digits(bytes: &[u8]) -> bool
    ensures { result ≡ list_all is_digit bytes.now }
{
    bytes.iter().all(|b| b.is_ascii_digit())
}
