//! The text of a number in a mode, where the text that it was read from may be known.
ghost use Rattle.std.specs.Prelude.{◌≡◌, ◌++◌, ℕ, IfOk, IfSome, IsNone, List, None};
ghost use Rattle.std.specs.Prelude.{Some, codes, is_some, string_bytes};
ghost use Rattle.std.specs.Option.{option_copied};
ghost use Rattle.phone_dialling.specs.Texts.{coded, kept, kept_text, plain, plain_text, signless};
ghost use Rattle.phone_dialling.specs.Texts.{text_in, unlisted_text};
ghost use Rattle.phone_dialling.specs.Original.{layout_in};
ghost use Rattle.phone_plans.specs.CodeLookUps.{first_of, territories};
ghost use Rattle.phone_questions.specs.Matches.{extension_told};
ghost use Rattle.phone_values.specs.Numbers.{text_of};
ghost use Rattle.phone_values.specs.declared.mode.Mode.TheVariants.{National};

use phone_library::{printed, without_carrier};
use phone_plans::{Format, Plans, Territory};
use phone_print::printing;
use phone_values::country::Source;
use phone_values::{Mode, Rules};
use phonenumber::{FormatError, PhoneNumber};
use std::alloc::{AllocError, Global};

/// The text of a number in a mode, as libphonenumber prints a number of which it keeps the text
/// that it was read from: without a carrier, an empty extension counting as none. That text itself
/// stands for a number whose value is 0, behind plus sign and code where E.164 text is asked of a
/// code that came from the hint alone. A number whose calling code isn't listed has its E.164 text,
/// and its digits in the other modes. Refused only for memory.
pub fn text_in(
    database: &Plans,
    mode: Mode,
    raw: Option<&str>,
    number: &PhoneNumber,
) -> Result<String, AllocError>
    ensures { IfOk result (λ t. string_bytes t ≡
        text_in database.now mode (option_copied raw.entry) number.now) }
{
    match kept(raw, number) {
        Some(raw) => kept_text(database.allocator(), mode, raw, number),
        None => bare_text(database, mode, number),
    }
}

/// The national text of a number, as `text_in` gives it, in the first territory of its code where
/// this is its layout there. Refused only for memory.
pub(crate) fn text_laid(
    database: &Plans,
    m: &Territory,
    layout: &Format,
    raw: &str,
    number: &PhoneNumber,
) -> Result<String, AllocError>
    requires territory { first_of (territories number.now.code.value database.now) ≡ Some m.now }
    requires layout { layout_in m.now (text_of number.now.national) ≡ Some layout.now }
    ensures { IfOk result (λ t. string_bytes t ≡
        text_in database.now National (Some raw.now) number.now) }
{
    match kept(Some(raw), number) {
        Some(raw) => kept_text(m.allocator(), Mode::National, raw, number),
        None => bare_laid(database, m, layout, number),
    }
}

/// The same, whatever the number was read from. Refused only for memory.
fn bare_laid(
    database: &Plans,
    m: &Territory,
    layout: &Format,
    number: &PhoneNumber,
) -> Result<String, AllocError>
    requires territory { first_of (territories number.now.code.value database.now) ≡ Some m.now }
    requires layout { layout_in m.now (text_of number.now.national) ≡ Some layout.now }
    ensures { IfOk result (λ t. string_bytes t ≡
        plain_text database.now National (plain number.now)) }
{
    let number = plain(number)?;
    plain_laid(database, m, layout, &number)
}

/// The same of a number that is printed as it is. Refused only for memory.
fn plain_laid(
    database: &Plans,
    m: &Territory,
    layout: &Format,
    number: &PhoneNumber,
) -> Result<String, AllocError>
    requires territory { first_of (territories number.now.code.value database.now) ≡ Some m.now }
    requires layout { layout_in m.now (text_of number.now.national) ≡ Some layout.now }
    ensures { IfOk result (λ t. string_bytes t ≡ plain_text database.now National number.now) }
{
    let finder = database.first_group_finder();
    printing::text_by(
        m.allocator(),
        finder,
        m,
        Mode::National,
        Rules::Library,
        Some(layout),
        &number.printable(),
    )
}

/// The text that a number was read from, where it is printed in its place.
fn kept<'a>(raw: Option<&'a str>, number: &PhoneNumber) -> Option<&'a str>
    ensures { option_copied result ≡ kept (option_copied raw.entry) number.now }
{
    match raw {
        Some(raw) => kept_if_zero(raw, number),
        None => None,
    }
}

/// A text, where it isn't empty and the number's value is 0.
fn kept_if_zero<'a>(raw: &'a str, number: &PhoneNumber) -> Option<&'a str>
    ensures { option_copied result ≡ kept (Some raw.entry.now) number.now }
{
    if !raw.is_empty() && number.national().value() == 0 {
        Some(raw)
    } else {
        None
    }
}

/// The text that a number was read from, as it is printed in a mode. Refused only for memory.
fn kept_text(
    alloc: Global,
    mode: Mode,
    raw: &str,
    number: &PhoneNumber,
) -> Result<String, AllocError>
    ensures { IfOk result (λ t. string_bytes t ≡ kept_text mode raw.now number.now) }
{
    match (mode, number.code().source()) {
        (Mode::E164, Source::Default) => coded(alloc, raw, number),
        _ => String::from_str(alloc, raw),
    }
}

/// A text behind the calling code of a number. Refused only for memory.
fn coded(alloc: Global, raw: &str, number: &PhoneNumber) -> Result<String, AllocError>
    ensures { IfOk result (λ t. string_bytes t ≡ coded raw.now number.now) }
{
    let code = number.code().value();
    format!(in alloc; "+{code}{raw}")
}

/// The text of a number in a mode, whatever it was read from. Refused only for memory.
fn bare_text(database: &Plans, mode: Mode, number: &PhoneNumber) -> Result<String, AllocError>
    ensures { IfOk result (λ t. string_bytes t ≡
        plain_text database.now mode (plain number.now)) }
{
    let number = plain(number)?;
    plain_text(database, mode, &number)
}

/// A number without its carrier, and without an empty extension. Refused only for memory.
pub(crate) fn plain(number: &PhoneNumber) -> Result<PhoneNumber, AllocError>
    ensures { IfOk result (λ n. n ≡ plain number.now) }
{
    if has_extension(number) {
        without_carrier(number)
    } else {
        Ok(without_extension(number))
    }
}

/// Whether a number has an extension that isn't empty.
fn has_extension(number: &PhoneNumber) -> bool
    ensures { result ≡ is_some (extension_told number.now.extension) }
{
    match number.extension() {
        Some(extension) => !extension.as_str().is_empty(),
        None => false,
    }
}

/// Calling code and national number alone.
pub(crate) fn without_extension(number: &PhoneNumber) -> PhoneNumber
    ensures { result ≡ record number.now { extension = None; carrier = None } }
{
    PhoneNumber::from_parts(*number.code(), *number.national(), None, None)
}

/// The text of a number of which no more is known. Refused only for memory.
pub(crate) fn plain_text(
    database: &Plans,
    mode: Mode,
    number: &PhoneNumber,
) -> Result<String, AllocError>
    ensures { IfOk result (λ t. string_bytes t ≡ plain_text database.now mode number.now) }
{
    match printed(database, mode, number) {
        Ok(text) => Ok(text),
        Err(FormatError::UnknownCode) => unlisted_text(database.allocator(), mode, number),
        Err(FormatError::Memory) => Err(AllocError),
    }
}

/// What stands for a number whose calling code isn't listed. Refused only for memory.
fn unlisted_text(alloc: Global, mode: Mode, number: &PhoneNumber) -> Result<String, AllocError>
    ensures { IfOk result (λ t. string_bytes t ≡ unlisted_text mode number.now) }
{
    match mode {
        Mode::E164 => number.to_string(alloc),
        _ => number.national().to_string(alloc),
    }
}

/// A text without its leading plus sign, where it has one.
pub(crate) fn signless(text: &str) -> &str
    ensures { result.now ≡ signless text.entry.now }
{
    match behind_plus(text) {
        Some(rest) => rest,
        None => text,
    }
}

/// What stands behind the plus sign of a text that begins with one.
fn behind_plus(text: &str) -> Option<&str>
    ensures found { IfSome result (λ rest. text.now ≡ codes "+" ++ rest.now) }
    ensures none { IsNone result → (rest : List ℕ) → ¬ (text.now ≡ codes "+" ++ rest) }
{
    text.strip_prefix("+")
}
