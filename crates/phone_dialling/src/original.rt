//! How a number that was read is printed in the way in which it was written.
ghost use Rattle.std.specs.Prelude.{◌≡◌, ◌<◌, ◌++◌, ◌∷◌, ℕ, Bool, IfOk, IfSome, IsNone, List};
ghost use Rattle.std.specs.Prelude.{[], MatchOption, None, OnOk, Result, Some, chars, false};
ghost use Rattle.std.specs.Prelude.{length, option_map, string_bytes};
ghost use Rattle.std.specs.List.{list_any};
ghost use Rattle.phone_chars.specs.Characters.{is_nd};
ghost use Rattle.std.specs.Option.{option_and_then, option_copied};
ghost use Rattle.std.specs.Str.{bytes_eq};
ghost use Rattle.phone_dialling.specs.Original.{IsBehind, IsOriginal, IsToldText, LeavesPrefix};
ghost use Rattle.phone_dialling.specs.Original.{bare_text, dialled_of, digits_of};
ghost use Rattle.phone_dialling.specs.Original.{has_digit_before, hinted_text};
ghost use Rattle.phone_dialling.specs.Original.{is_no_group, is_valid_read, layout_in, own_prefix};
ghost use Rattle.phone_dialling.specs.Original.{region_of, unless_changed};
ghost use Rattle.phone_dialling.specs.Original.{writes_digits};
ghost use Rattle.phone_dialling.specs.Abroad.{if_some};
ghost use Rattle.phone_dialling.specs.Texts.{signless, text_in};
ghost use Rattle.phone_library.specs.Readings.{ReadsByLibrary};
ghost use Rattle.phone_pattern.specs.Rules.{ruled_template};
ghost use Rattle.phone_plans.specs.CodeLookUps.{first_of, territories};
ghost use Rattle.phone_print.specs.Texts.{extension_part};
ghost use Rattle.phone_questions.specs.Matches.{extension_told};
ghost use Rattle.phone_questions.specs.Regions.{national_prefix_digits};
ghost use Rattle.phone_territory.specs.Layouts.{laid_by, layout_template};
ghost use Rattle.phone_values.specs.Numbers.{text_of};
ghost use Rattle.phone_values.specs.declared.error.ParseError.{ParseError as Refusal};
ghost use Rattle.phone_values.specs.declared.reading.Reading.{Reading};

use crate::abroad::dialled_text;
use crate::texts::{signless, text_in, text_laid};
use itoa::Buffer;
use phone_chars::chars::is_nd;
use phone_chars::cuts::{CharSet, split_first, split_run};
use phone_library::{is_valid, parse};
use phone_plans::{Format, Plans, Territory};
use phone_print::printing::{first_layout, layouts_for};
use phone_questions::{digits_only, is_diallable, national_prefix_digits};
use phone_territory::Subject;
use phone_values::consts::DEFAULT_EXTN_PREFIX;
use phone_values::country::{Id, Source};
use phone_values::{Mode, ParseError, Rules};
use phonenumber::PhoneNumber;
use std::alloc::{AllocError, Global};

/// A number that was read from a text, printed as that was written: behind a plus sign as its
/// international text; behind an international prefix as it is dialled from the region; behind its
/// code alone as international text without the plus sign; else as national text, and without the
/// national prefix where the text has none. Where a telephone would dial anything else than what
/// was written, and where the number has no layout, the text stands as it is. Without a text it is
/// the national text. Refused only for memory.
pub fn original_text(
    database: &Plans,
    from: Option<Id>,
    raw: Option<&str>,
    number: &PhoneNumber,
) -> Result<String, AllocError>
    ensures { IfOk result (λ t. IsOriginal database.now from number.now
        (option_copied raw.entry) (string_bytes t)) }
{
    match raw {
        Some(raw) => as_written(database, from, raw, number),
        None => text_in(database, Mode::National, None, number),
    }
}

/// A number printed as the text was written that it was read from. Refused only for memory.
fn as_written(
    database: &Plans,
    from: Option<Id>,
    raw: &str,
    number: &PhoneNumber,
) -> Result<String, AllocError>
    ensures { IfOk result (λ t. IsOriginal database.now from number.now
        (Some raw.now) (string_bytes t)) }
{
    match database.first_by_code(&number.code().value()) {
        Some(territory) => written_in(database, from, territory, raw, number),
        None => String::from_str(database.allocator(), raw),
    }
}

/// The same by the first territory of the number's code. Refused only for memory.
fn written_in(
    database: &Plans,
    from: Option<Id>,
    m: &Territory,
    raw: &str,
    number: &PhoneNumber,
) -> Result<String, AllocError>
    requires { first_of (territories number.now.code.value database.now) ≡ Some m.now }
    ensures { IfOk result (λ t. IsOriginal database.now from number.now
        (Some raw.now) (string_bytes t)) }
{
    let layout = layout_in(m, number)?;
    match layout {
        Some(layout) => {
            let text = told_text(database, from, raw, number, m, layout)?;
            unless_changed(database.allocator(), raw, text)
        }
        None => String::from_str(database.allocator(), raw),
    }
}

/// A territory's first layout of a number. Refused only for memory.
fn layout_in<'d>(m: &'d Territory, number: &PhoneNumber) -> Result<Option<&'d Format>, AllocError>
    ensures { IfOk result (λ f. option_copied f ≡
        layout_in m.entry.now (text_of number.now.national)) }
{
    let national = number.national();
    if national.zeros() == 0 {
        let mut buffer = Buffer::new();
        return layout_of(m, buffer.format(national.value()));
    }
    let digits = national.to_string(m.allocator())?;
    layout_of(m, digits.as_str())
}

/// A territory's layout of national digits. Refused only for memory.
pub(crate) fn layout_of<'d>(
    m: &'d Territory,
    digits: &str,
) -> Result<Option<&'d Format>, AllocError>
    ensures { IfOk result (λ f. option_copied f ≡ layout_in m.entry.now digits.now) }
{
    let digits = Subject::of(digits);
    first_layout(Rules::Library, layouts_for(m, Mode::National), &digits)
}

/// The text of a number by what told its code. Refused only for memory.
fn told_text(
    database: &Plans,
    from: Option<Id>,
    raw: &str,
    number: &PhoneNumber,
    m: &Territory,
    layout: &Format,
) -> Result<String, AllocError>
    requires territory { first_of (territories number.now.code.value database.now) ≡ Some m.now }
    requires layout { layout_in m.now (text_of number.now.national) ≡ Some layout.now }
    ensures { IfOk result (λ t. IsToldText database.now from raw.now number.now m.now layout.now
        number.now.code.source (string_bytes t)) }
{
    match number.code().source() {
        Source::Plus => text_in(database, Mode::International, Some(raw), number),
        Source::Idd => dialled_text(database, from, Some(raw), number),
        Source::Number => number_text(database, raw, number),
        Source::Default => default_text(database, raw, number, m, layout),
    }
}

/// The international text of a number without its plus sign. Refused only for memory.
fn number_text(database: &Plans, raw: &str, number: &PhoneNumber) -> Result<String, AllocError>
    ensures { IfOk result (λ t. string_bytes t ≡
        signless (text_in database.now Mode.International (Some raw.now) number.now)) }
{
    let text = text_in(database, Mode::International, Some(raw), number)?;
    String::from_str(database.allocator(), signless(text.as_str()))
}

/// The national text of a number whose code came from the hint alone, without its national prefix
/// where that wasn't written. Refused only for memory.
fn default_text(
    database: &Plans,
    raw: &str,
    number: &PhoneNumber,
    m: &Territory,
    layout: &Format,
) -> Result<String, AllocError>
    requires territory { first_of (territories number.now.code.value database.now) ≡ Some m.now }
    requires layout { layout_in m.now (text_of number.now.national) ≡ Some layout.now }
    ensures { IfOk result (λ t. (leaves : Bool) ×
        LeavesPrefix database.now m.now layout.now raw.now leaves ×
        (string_bytes t ≡ hinted_text database.now m.now layout.now raw.now number.now leaves)) }
{
    let leaves = leaves_prefix(database, m, layout, raw)?;
    hinted_text(database, m, layout, raw, number, leaves)
}

/// The national text of a number, perhaps without its prefix. Refused only for memory.
fn hinted_text(
    database: &Plans,
    m: &Territory,
    layout: &Format,
    raw: &str,
    number: &PhoneNumber,
    leaves: bool,
) -> Result<String, AllocError>
    requires territory { first_of (territories number.now.code.value database.now) ≡ Some m.now }
    requires layout { layout_in m.now (text_of number.now.national) ≡ Some layout.now }
    ensures { IfOk result (λ t. string_bytes t ≡
        hinted_text database.now m.now layout.now raw.now number.now leaves) }
{
    if leaves {
        bare_text(m, layout, number)
    } else {
        text_laid(database, m, layout, raw, number)
    }
}

/// A number laid out without its national prefix, and its extension. Refused only for memory.
fn bare_text(m: &Territory, layout: &Format, number: &PhoneNumber) -> Result<String, AllocError>
    ensures { IfOk result (λ t. string_bytes t ≡ bare_text m.now layout.now number.now) }
{
    let digits = number.national().to_string(m.allocator())?;
    let laid = layout.lay_out(digits.as_str())?;
    with_extension(laid, m, number)
}

/// A text with the extension of a number behind it, where that isn't empty. Refused only for
/// memory.
pub fn with_extension(
    text: String,
    m: &Territory,
    number: &PhoneNumber,
) -> Result<String, AllocError>
    ensures { IfOk result (λ t. string_bytes t ≡
        string_bytes text ++ extension_part m.now (extension_told number.now.extension)) }
{
    match number.extension() {
        Some(extension) => with_some(text, m, extension.as_str()),
        None => Ok(text),
    }
}

/// A text with an extension behind it, where that isn't empty. Refused only for memory.
fn with_some(text: String, m: &Territory, extension: &str) -> Result<String, AllocError>
    ensures { IfOk result (λ t. string_bytes t ≡
        string_bytes text ++ extension_part m.now (extension_told (Some extension.now))) }
{
    if extension.is_empty() {
        return Ok(text);
    }
    let prefix = m
        .preferred_extension_prefix()
        .unwrap_or(DEFAULT_EXTN_PREFIX);
    format!(in m.allocator(); "{text}{prefix}{extension}")
}

/// Whether a number whose code came from the hint alone was written without the national prefix
/// that its layout writes. Refused only for memory.
fn leaves_prefix(
    database: &Plans,
    m: &Territory,
    layout: &Format,
    raw: &str,
) -> Result<bool, AllocError>
    ensures { IfOk result (λ b. LeavesPrefix database.now m.now layout.now raw.now b) }
{
    let prefix = own_prefix(database, m)?;
    match prefix {
        Some(prefix) => leaves_own(database, m, layout, prefix.as_str(), raw),
        None => Ok(false),
    }
}

/// The same where this is the national prefix of the territory's region. What the layout writes is
/// asked only of a text that has no valid number behind the prefix. Refused only for memory.
fn leaves_own(
    database: &Plans,
    m: &Territory,
    layout: &Format,
    prefix: &str,
    raw: &str,
) -> Result<bool, AllocError>
    requires { own_prefix database.now m.now ≡ Some prefix.now }
    ensures { IfOk result (λ b. LeavesPrefix database.now m.now layout.now raw.now b) }
{
    let behind = stands_behind(database, m, prefix, raw)?;
    if behind {
        Ok(false)
    } else {
        writes_digits(database, m, layout)
    }
}

/// Whether a text has a valid number behind this prefix. Refused only for memory.
fn stands_behind(
    database: &Plans,
    m: &Territory,
    prefix: &str,
    raw: &str,
) -> Result<bool, AllocError>
    ensures { IfOk result (IsBehind database.now (region_of m.now) prefix.now (digits_of raw.now)) }
{
    let digits = digits_only(m.allocator(), raw)?;
    is_behind(database, m.region(), prefix, digits.as_str())
}

/// Whether digits are a valid number of a region behind a prefix. Refused only for memory.
fn is_behind(
    database: &Plans,
    hint: Option<Id>,
    prefix: &str,
    digits: &str,
) -> Result<bool, AllocError>
    ensures { IfOk result (IsBehind database.now hint prefix.now digits.now) }
{
    match behind(digits, prefix) {
        Some(rest) => is_read_valid(database, hint, rest),
        None => Ok(false),
    }
}

/// What stands behind a prefix of a text, where it begins with that.
fn behind<'a>(text: &'a str, prefix: &str) -> Option<&'a str>
    ensures found { IfSome result (λ rest. text.entry.now ≡ prefix.now ++ rest.now) }
    ensures none { IsNone result → (rest : List ℕ) → ¬ (text.entry.now ≡ prefix.now ++ rest) }
{
    text.strip_prefix(prefix)
}

/// Whether what a text is read as is a valid number. Refused only for memory.
fn is_read_valid(database: &Plans, hint: Option<Id>, text: &str) -> Result<bool, AllocError>
    ensures { IfOk result (λ b. (r : Result Reading Refusal) ×
        ReadsByLibrary database.now hint (chars text.now) r × (b ≡ is_valid_read database.now r)) }
{
    match parse(database, hint, text) {
        Ok(number) => is_valid(database, &number),
        Err(error) => invalid(error),
    }
}

/// The answer to a text that is refused.
fn invalid(error: ParseError) -> Result<bool, AllocError>
    ensures answer { IfOk result (λ b. b ≡ false) }
    ensures memory { OnOk result (¬ (error ≡ ParseError.Memory)) }
{
    match error {
        ParseError::Memory => Err(AllocError),
        _ => Ok(false),
    }
}

/// The national prefix of a territory's region, where it isn't empty. Refused only for memory.
fn own_prefix(database: &Plans, m: &Territory) -> Result<Option<String>, AllocError>
    ensures { IfOk result (λ p. option_map string_bytes p ≡ own_prefix database.now m.now) }
{
    match m.region() {
        Some(region) => Ok(unless_empty(national_prefix_digits(database, region)?)),
        None => Ok(None),
    }
}

/// A text, where it is there and not empty.
fn unless_empty(text: Option<String>) -> Option<String>
    ensures { option_map string_bytes result ≡
        option_and_then if_some (option_map string_bytes text) }
{
    match text {
        Some(text) => { if text.is_empty() { None } else { Some(text) } }
        None => None,
    }
}

/// Whether the rule of a layout writes digits before the first group. Refused only for memory.
fn writes_digits(database: &Plans, m: &Territory, layout: &Format) -> Result<bool, AllocError>
    ensures { IfOk result (λ b. b ≡ writes_digits m.now layout.now) }
{
    let Some(rule) = layout.national_prefix() else {
        return Ok(false);
    };
    let finder = database.first_group_finder();
    let prefix = m.national_prefix().unwrap_or("");
    let template = finder.apply_rule("$1", rule, prefix, "")?;
    Ok(has_digit_before(template.as_str()))
}

/// Whether a template has a digit before its first group.
fn has_digit_before(template: &str) -> bool
    ensures { result ≡ has_digit_before template.now }
{
    let (before, _) = split_run(template, &NoGroup);
    has_digit(before)
}

/// Whether a text has a digit of any script.
fn has_digit(text: &str) -> bool
    ensures { result ≡ list_any is_nd (chars text.now) }
{
    text.chars().any(|c| is_nd(c))
}

/// The characters that name no group of a template.
#[derive(Drop)]
struct NoGroup;

impl CharSet for NoGroup {
    ghost use Rattle.phone_dialling.specs.Original.{is_no_group};

    ghost members = { λ _. is_no_group };

    fn has(&self, c: char) -> bool {
        c != '$'
    }
}

/// A text, unless what is dialled of it isn't what was dialled of the other: then that. Refused
/// only for memory.
fn unless_changed(alloc: Global, raw: &str, text: String) -> Result<String, AllocError>
    ensures { IfOk result (λ t. string_bytes t ≡ unless_changed raw.now (string_bytes text)) }
{
    if are_dialled_alike(text.as_str(), raw) {
        Ok(text)
    } else {
        String::from_str(alloc, raw)
    }
}

/// Whether the same is dialled of two texts. It takes no memory.
fn are_dialled_alike(a: &str, b: &str) -> bool
    ensures { result ≡ bytes_eq (dialled_of a.now) (dialled_of b.now) }
{
    let mut left = a;
    let mut right = b;
    while let Some((c, rest)) = first_dialled(left) {
        let Some((d, others)) = first_dialled(right) else {
            return false;
        };
        if c != d {
            return false;
        }
        left = rest;
        right = others;
    }
    first_dialled(right).is_none()
}

/// The first character of a text that a telephone can dial, and what stands behind it.
fn first_dialled(text: &str) -> Option<(char, &str)>
    ensures first { MatchOption result (dialled_of text.now ≡ [])
        (λ p. dialled_of text.now ≡ p.0 ∷ dialled_of p.1.now) }
    ensures shorter { IfSome result (λ p. length p.1.now < length text.now) }
{
    let mut rest = text;
    while let Some((c, after)) = split_first(rest) {
        if is_diallable(c) {
            return Some((c, after));
        }
        rest = after;
    }
    None
}
