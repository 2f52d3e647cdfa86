//! The text of a number by layouts that are handed in.
ghost use Rattle.std.specs.Prelude.{◌≡◌, ◌<◌, ◌++◌, ◌∷◌, IfOk, IfSome, MatchOption, OnOk, chars};
ghost use Rattle.std.specs.Prelude.{codes, encode_utf8_all, is_some, length, string_bytes};
ghost use Rattle.std.specs.Fmt.{decimal};
ghost use Rattle.std.specs.List.{find};
ghost use Rattle.std.specs.Option.{option_and_then};
ghost use Rattle.phone_dialling.specs.Abroad.{if_some};
ghost use Rattle.phone_further.specs.OwnLayouts.{assembled, braced, home_template, in_braces};
ghost use Rattle.phone_further.specs.OwnLayouts.{laid_by_digits, literal, names_group, own_laid};
ghost use Rattle.phone_further.specs.OwnLayouts.{own_template, text_by_layouts, text_by_own};
ghost use Rattle.phone_further.specs.OwnLayouts.{with_hyphens};
ghost use Rattle.phone_print.specs.Layouts.{fits};
ghost use Rattle.phone_print.specs.Texts.{extension_parameter, hyphenated};
ghost use Rattle.phone_questions.specs.Matches.{extension_told};
ghost use Rattle.phone_values.specs.Numbers.{text_of};

use itoa::Buffer;
use phone_chars::chars::is_separator;
use phone_chars::cuts::{CharSet, after_run, split_first};
use phone_dialling::with_extension;
use phone_plans::{FirstGroup, Format, Plans, Territory};
use phone_print::hyphens::push_hyphenated;
use phone_print::printing::first_layout;
use phone_print::written::ROOM;
use phone_questions::extension_told;
use phone_territory::Subject;
use phone_values::{Mode, Rules};
use phonenumber::PhoneNumber;
use std::alloc::{AllocError, Global};

/// The text of a number in a mode, laid out by the first of these layouts that begins as the number
/// does and whose pattern is that of all its digits; without one its digits stand as they are. A
/// rule of national text counts where the main territory of the calling code has a national prefix.
/// The E.164 text is laid out too. A number whose code isn't listed has its digits alone. Refused
/// only for memory.
pub fn text_by_layouts(
    database: &Plans,
    mode: Mode,
    layouts: &[Format],
    number: &PhoneNumber,
) -> Result<String, AllocError>
    ensures { IfOk result (λ t. string_bytes t ≡
        text_by_layouts database.now mode layouts.now number.now) }
{
    let finder = database.first_group_finder();
    match database.first_by_code(&number.code().value()) {
        Some(territory) => text_by_own(finder, territory, mode, layouts, number),
        None => number.national().to_string(database.allocator()),
    }
}

/// The same in the first territory of the number's code. Refused only for memory.
fn text_by_own(
    finder: &FirstGroup,
    m: &Territory,
    mode: Mode,
    layouts: &[Format],
    number: &PhoneNumber,
) -> Result<String, AllocError>
    ensures { IfOk result (λ t. string_bytes t ≡
        text_by_own m.now mode layouts.now number.now) }
{
    let laid = number_laid(finder, m, mode, layouts, number)?;
    assembled(m, mode, number, laid)
}

/// A number's digits, laid out by the first of these layouts that is theirs. Refused only for
/// memory.
fn number_laid(
    finder: &FirstGroup,
    m: &Territory,
    mode: Mode,
    layouts: &[Format],
    number: &PhoneNumber,
) -> Result<String, AllocError>
    ensures { IfOk result (λ t. string_bytes t ≡ own_laid m.now mode
        (find (fits (text_of number.now.national)) layouts.now) (text_of number.now.national)) }
{
    let national = number.national();
    if national.zeros() == 0 {
        let mut buffer = Buffer::new();
        let digits = buffer.format(national.value());
        return digits_laid(finder, m, mode, layouts, digits);
    }
    let digits = national.to_string(m.allocator())?;
    digits_laid(finder, m, mode, layouts, digits.as_str())
}

/// The same of digits. Refused only for memory.
fn digits_laid(
    finder: &FirstGroup,
    m: &Territory,
    mode: Mode,
    layouts: &[Format],
    digits: &str,
) -> Result<String, AllocError>
    ensures { IfOk result (λ t. string_bytes t ≡
        own_laid m.now mode (find (fits digits.now) layouts.now) digits.now) }
{
    let subject = Subject::of(digits);
    match first_layout(Rules::Library, layouts, &subject)? {
        Some(layout) => laid_by(finder, m, mode, layout, &subject),
        None => String::from_str(m.allocator(), digits),
    }
}

/// Digits laid out by a layout in a mode. Refused only for memory.
fn laid_by(
    finder: &FirstGroup,
    m: &Territory,
    mode: Mode,
    layout: &Format,
    digits: &Subject<'_>,
) -> Result<String, AllocError>
    ensures { IfOk result (λ t. string_bytes t ≡
        laid_by_digits layout.now (own_template m.now mode layout.now) digits.now) }
{
    let template = own_template(finder, m, mode, layout)?;
    let template = braced(m.allocator(), template.as_str())?;
    layout.whole_pattern().replace_in(template.as_str(), digits)
}

/// The template of a layout in a mode. Refused only for memory.
fn own_template(
    finder: &FirstGroup,
    m: &Territory,
    mode: Mode,
    layout: &Format,
) -> Result<String, AllocError>
    ensures { IfOk result (λ t. string_bytes t ≡ own_template m.now mode layout.now) }
{
    match mode {
        Mode::National => home_template(finder, m, layout),
        _ => String::from_str(m.allocator(), layout.format()),
    }
}

/// The template of national text. Refused only for memory.
fn home_template(finder: &FirstGroup, m: &Territory, layout: &Format) -> Result<String, AllocError>
    ensures { IfOk result (λ t. string_bytes t ≡ home_template m.now layout.now) }
{
    if has_prefix(m) {
        layout.national_template(finder, m.national_prefix())
    } else {
        String::from_str(m.allocator(), layout.format())
    }
}

/// A template, each of whose groups is named by a dollar sign and one digit, with these digits in
/// braces and each other dollar sign doubled. Refused only for memory.
fn braced(alloc: Global, template: &str) -> Result<String, AllocError>
    ensures { IfOk result (λ t. string_bytes t ≡
        encode_utf8_all (braced (chars template.now))) }
{
    let mut out = String::with_capacity(alloc, ROOM)?;
    let mut rest = template;
    while let Some((c, after)) = split_first(rest) {
        if let Some((digit, behind)) = named_group(c, after) {
            push_group(&mut out, digit)?;
            rest = behind;
        } else {
            push_literal(&mut out, c)?;
            rest = after;
        }
    }
    Ok(out)
}

/// Appends the name of a group, in braces. Refused only for memory.
fn push_group(out: &mut String, digit: char) -> Result<(), AllocError>
    ensures { OnOk result
        (string_bytes out.new ≡ string_bytes out.old ++ encode_utf8_all (in_braces digit)) }
{
    out.push_str("${")?;
    out.push(digit)?;
    out.push('}')
}

/// Appends a character that stands for itself in a template: a dollar sign doubled. Refused only
/// for memory.
fn push_literal(out: &mut String, c: char) -> Result<(), AllocError>
    ensures { OnOk result
        (string_bytes out.new ≡ string_bytes out.old ++ encode_utf8_all (literal c)) }
{
    if c == '$' {
        out.push_str("$$")
    } else {
        out.push(c)
    }
}

/// The digit of the group that a character names with the first behind it, and what follows.
#[tactic(auto, using(crate::proofs::Templates::template_steps))]
fn named_group(c: char, after: &str) -> Option<(char, &str)>
    ensures group { MatchOption result
        (braced (c ∷ chars after.entry.now) ≡ literal c ++ braced (chars after.entry.now))
        (λ p. braced (c ∷ chars after.entry.now) ≡ in_braces p.0 ++ braced (chars p.1.now)) }
    ensures shorter { IfSome result (λ p. length p.1.now < length after.entry.now) }
{
    match split_first(after) {
        Some((digit, behind)) => {
            if names_group(c, digit) {
                Some((digit, behind))
            } else {
                None
            }
        }
        None => None,
    }
}

/// Whether two characters name a group.
fn names_group(c: char, digit: char) -> bool
    ensures { result ≡ names_group c digit }
{
    c == '$' && digit.is_ascii_digit()
}

/// Whether a territory has a national prefix that isn't empty.
fn has_prefix(m: &Territory) -> bool
    ensures { result ≡ is_some (option_and_then if_some m.now.national_prefix) }
{
    match m.national_prefix() {
        Some(prefix) => !prefix.is_empty(),
        None => false,
    }
}

/// The text of a number in a mode that is laid out so. Refused only for memory.
fn assembled(
    m: &Territory,
    mode: Mode,
    number: &PhoneNumber,
    laid: String,
) -> Result<String, AllocError>
    ensures { IfOk result (λ t. string_bytes t ≡
        assembled m.now mode number.now (string_bytes laid)) }
{
    match mode {
        Mode::Rfc3966 => as_uri(m.allocator(), number, laid.as_str()),
        Mode::National => with_extension(laid, m, number),
        Mode::International => {
            let text = with_extension(laid, m, number)?;
            behind_code(m.allocator(), number, " ", text.as_str())
        }
        Mode::E164 => {
            let text = with_extension(laid, m, number)?;
            behind_code(m.allocator(), number, "", text.as_str())
        }
    }
}

/// A text behind plus sign and calling code, with this between. Refused only for memory.
fn behind_code(
    alloc: Global,
    number: &PhoneNumber,
    between: &str,
    text: &str,
) -> Result<String, AllocError>
    ensures { IfOk result (λ t. string_bytes t ≡
        43 ∷ (decimal number.now.code.value ++ (between.now ++ text.now))) }
{
    let code = number.code().value();
    format!(in alloc; "+{code}{between}{text}")
}

/// The text of RFC 3966 of a number that is laid out so. Refused only for memory.
fn as_uri(alloc: Global, number: &PhoneNumber, laid: &str) -> Result<String, AllocError>
    ensures { IfOk result (λ t. string_bytes t ≡ (codes "tel:+" ++
        (decimal number.now.code.value ++ 45 ∷ with_hyphens laid.now)) ++
        extension_parameter (extension_told number.now.extension)) }
{
    let hyphens = with_hyphens(alloc, laid)?;
    let text = uri_of(alloc, number, hyphens.as_str())?;
    with_parameter(alloc, text, number)
}

/// The text of RFC 3966 of the code of a number and this text. Refused only for memory.
fn uri_of(alloc: Global, number: &PhoneNumber, hyphens: &str) -> Result<String, AllocError>
    ensures { IfOk result (λ t. string_bytes t ≡ codes "tel:+" ++
        (decimal number.now.code.value ++ 45 ∷ hyphens.now)) }
{
    let code = number.code().value();
    format!(in alloc; "tel:+{code}-{hyphens}")
}

/// A text with the extension of a number as a parameter, where it isn't empty. Refused only for
/// memory.
fn with_parameter(alloc: Global, text: String, number: &PhoneNumber) -> Result<String, AllocError>
    ensures { IfOk result (λ t. string_bytes t ≡
        string_bytes text ++ extension_parameter (extension_told number.now.extension)) }
{
    match extension_told(number.extension()) {
        Some(extension) => with_some_parameter(alloc, text, extension),
        None => Ok(text),
    }
}

/// A text with an extension as a parameter. Refused only for memory.
fn with_some_parameter(alloc: Global, text: String, extension: &str) -> Result<String, AllocError>
    ensures { IfOk result (λ t. string_bytes t ≡
        string_bytes text ++ extension_parameter (Some extension.now)) }
{
    format!(in alloc; "{text};ext={extension}")
}

/// Digits that are laid out, with no separator in front, each other run of separators one hyphen.
/// Refused only for memory.
fn with_hyphens(alloc: Global, laid: &str) -> Result<String, AllocError>
    ensures { IfOk result (λ t. string_bytes t ≡ with_hyphens laid.now) }
{
    hyphenated(alloc, after_run(laid, &Separators))
}

/// The separators.
#[derive(Drop)]
struct Separators;

impl CharSet for Separators {
    ghost use Rattle.phone_chars.specs.Characters.{is_separator};

    ghost members = { λ _. is_separator };

    fn has(&self, c: char) -> bool {
        is_separator(c)
    }
}

/// A text with each longest run of separators made one hyphen. Refused only for memory.
fn hyphenated(alloc: Global, text: &str) -> Result<String, AllocError>
    ensures { IfOk result (λ t. string_bytes t ≡
        encode_utf8_all (hyphenated (chars text.now))) }
{
    let mut out = String::with_capacity(alloc, ROOM)?;
    push_hyphenated(&mut out, text)?;
    Ok(out)
}
