//! The printed text of a number, by a territory.
ghost use Rattle.std.specs.Prelude.{◌≡◌, ◌∷◌, ◌++◌, IfOk, IfSome, OnErr, OnOk, IsTrue, Ok, Option};
ghost use Rattle.std.specs.Prelude.{chars, true};
ghost use Rattle.std.specs.Prelude.{codes, encode_utf8_all, string_bytes};
ghost use Rattle.std.specs.Fmt.{decimal};
ghost use Rattle.std.specs.List.{find};
ghost use Rattle.std.specs.Option.{option_copied};
ghost use Rattle.phone_values.specs.declared.mode.Mode.TheVariants as mode;
ghost use Rattle.phone_territory.specs.Layouts.{suits};
ghost use Rattle.phone_print.specs.Behind.{IsBehind};
ghost use Rattle.phone_print.specs.Layouts.{fits, is_layout_by, laid, layout_by, layouts_for};
ghost use Rattle.phone_values.specs.Numbers.{text_of};
ghost use Rattle.phone_records.specs.declared.loader.Format as loader;
ghost use Rattle.phone_print.specs.Tabbed.{texts_by_rules, texts_laid};
ghost use Rattle.phone_print.specs.Texts.{e164_text, extension_parameter, extension_part};
ghost use Rattle.phone_print.specs.Texts.{hyphenated, laid_out_by, text_by_rules};

use crate::Printable;
use crate::appending::{
    push_e164, push_extension, push_international, push_national, push_rfc3966, push_text,
};
use crate::written::{ROOM, text_of_value};
use itoa::Buffer;
use phone_base::results::zip;
use phone_territory::{FirstGroup, Format, Subject, Territory};
use phone_values::{Mode, Rules};
use std::alloc::{AllocError, Global};

/// The text in a mode, by a territory: with the layout that is handed in, else with the one that
/// these rules choose.
pub fn text_by(
    alloc: Global,
    finder: &FirstGroup,
    m: &Territory,
    mode: Mode,
    rules: Rules,
    own: Option<&Format>,
    number: &Printable<'_>,
) -> Result<String, AllocError>
    ensures { IfOk result (λ t. string_bytes t ≡
        text_by_rules rules m.now mode (option_copied own.entry) number.now) }
{
    if let Mode::E164 = mode {
        return text_of_value(alloc, format_args!("{number}"));
    }
    let laid = laid_out(alloc, finder, m, mode, rules, own, number)?;
    match mode {
        Mode::National => with_extension(laid, m, number),
        Mode::Rfc3966 => rfc3966(alloc, laid.as_str(), number),
        _ => international(alloc, laid.as_str(), m, number),
    }
}

/// A number's texts in the four modes.
#[derive(Clone, PartialEq, Eq, Debug, Drop)]
pub struct Texts {
    /// The E.164 text.
    pub e164: String,
    /// The international text.
    pub international: String,
    /// The national text.
    pub national: String,
    /// The text of RFC 3966.
    pub rfc3966: String,
}

/// The texts in all modes, by a territory, with the layout that is handed in, else with those that
/// these rules choose. The digits are written once, and each layout is looked for once.
pub fn texts_by(
    alloc: Global,
    finder: &FirstGroup,
    m: &Territory,
    rules: Rules,
    own: Option<&Format>,
    number: &Printable<'_>,
) -> Result<Texts, AllocError>
    ensures e164 { IfOk result (λ t. string_bytes t.e164 ≡
        text_by_rules rules m.now mode.E164 (option_copied own.entry) number.now) }
    ensures international { IfOk result
        (λ t. string_bytes t.international ≡
        text_by_rules rules m.now mode.International (option_copied own.entry) number.now) }
    ensures national { IfOk result (λ t. string_bytes t.national ≡
        text_by_rules rules m.now mode.National (option_copied own.entry) number.now) }
    ensures rfc3966 { IfOk result (λ t. string_bytes t.rfc3966 ≡
        text_by_rules rules m.now mode.Rfc3966 (option_copied own.entry) number.now) }
{
    let national = number.national();
    let digits = text_of_value(alloc, format_args!("{national}"))?;
    texts_of(alloc, finder, m, rules, own, number, digits.as_str())
}

/// The texts in all modes of a number whose national digits are these.
fn texts_of(
    alloc: Global,
    finder: &FirstGroup,
    m: &Territory,
    rules: Rules,
    own: Option<&Format>,
    number: &Printable<'_>,
    digits: &str,
) -> Result<Texts, AllocError>
    requires { digits.now ≡ text_of number.now.national }
    ensures e164 { IfOk result (λ t. string_bytes t.e164 ≡
        text_by_rules rules m.now mode.E164 (option_copied own.entry) number.now) }
    ensures international { IfOk result (λ t. string_bytes t.international ≡
        text_by_rules rules m.now mode.International (option_copied own.entry) number.now) }
    ensures national { IfOk result (λ t. string_bytes t.national ≡
        text_by_rules rules m.now mode.National (option_copied own.entry) number.now) }
    ensures rfc3966 { IfOk result (λ t. string_bytes t.rfc3966 ≡
        text_by_rules rules m.now mode.Rfc3966 (option_copied own.entry) number.now) }
{
    let digits = Subject::of(digits);
    let layouts = layouts_of(m, rules, own, &digits)?;
    let (abroad, at_home) = zip(
        laid_by(
            alloc,
            finder,
            m,
            Mode::International,
            layouts.abroad,
            number,
            &digits,
        ),
        laid_by(
            alloc,
            finder,
            m,
            Mode::National,
            layouts.at_home,
            number,
            &digits,
        ),
    )?;
    texts_laid(alloc, abroad.as_str(), at_home, m, number)
}

/// The texts in all modes of a number that is laid out so, abroad and at home.
fn texts_laid(
    alloc: Global,
    abroad: &str,
    at_home: String,
    m: &Territory,
    number: &Printable<'_>,
) -> Result<Texts, AllocError>
    ensures e164 { IfOk result (λ t. string_bytes t.e164 ≡ e164_text number.now) }
    ensures international { IfOk result (λ t. string_bytes t.international ≡
        43 ∷ (decimal number.now.code.value ++
        32 ∷ (abroad.now ++ extension_part m.now number.now.extension))) }
    ensures national { IfOk result (λ t. string_bytes t.national ≡
        string_bytes at_home ++ extension_part m.now number.now.extension) }
    ensures rfc3966 { IfOk result (λ t. string_bytes t.rfc3966 ≡
        codes "tel:+" ++ (decimal number.now.code.value ++
        45 ∷ (encode_utf8_all (hyphenated (chars abroad.now)) ++
        extension_parameter number.now.extension))) }
{
    let ((e164, international), (national, rfc3966)) = zip(
        zip(
            text_of_value(alloc, format_args!("{number}")),
            international(alloc, abroad, m, number),
        ),
        zip(
            with_extension(at_home, m, number),
            rfc3966(alloc, abroad, number),
        ),
    )?;
    Ok(Texts {
        e164,
        international,
        national,
        rfc3966,
    })
}

/// Puts the texts in all modes behind a line, by a territory, each after one tab, with the layout
/// that is handed in, else with those that these rules choose. Refused only for memory; then the
/// line is as it was. The digits of a number without leading zeros take no memory.
pub fn push_texts(
    line: &mut String,
    alloc: Global,
    finder: &FirstGroup,
    m: &Territory,
    rules: Rules,
    own: Option<&Format>,
    number: &Printable<'_>,
) -> Result<(), AllocError>
    ensures texts { OnOk result (string_bytes line.new ≡ string_bytes line.old ++
        9 ∷ texts_by_rules rules m.now (option_copied own.entry) number.now) }
    ensures kept { OnErr result (string_bytes line.new ≡ string_bytes line.old) }
{
    let len = line.len();
    match push_some(line, alloc, finder, m, rules, own, number) {
        Ok(()) => Ok(()),
        Err(error) => {
            line.truncate(len);
            Err(error)
        }
    }
}

/// The same, but that a part of it may stand behind the line where it is refused.
fn push_some(
    line: &mut String,
    alloc: Global,
    finder: &FirstGroup,
    m: &Territory,
    rules: Rules,
    own: Option<&Format>,
    number: &Printable<'_>,
) -> Result<(), AllocError>
    ensures texts { OnOk result (string_bytes line.new ≡ string_bytes line.old ++
        9 ∷ texts_by_rules rules m.now (option_copied own.entry) number.now) }
    ensures behind { OnErr result (IsBehind (string_bytes line.old) (string_bytes line.new)) }
{
    let national = number.national();
    if national.zeros() == 0 {
        let mut buffer = Buffer::new();
        let digits = buffer.format(national.value());
        return push_texts_of(line, alloc, finder, m, rules, own, number, digits);
    }
    let digits = text_of_value(alloc, format_args!("{national}"))?;
    push_texts_of(line, alloc, finder, m, rules, own, number, digits.as_str())
}

/// The same of a number whose national digits are these. It is laid out once where national text
/// is laid out as the others are.
fn push_texts_of(
    line: &mut String,
    alloc: Global,
    finder: &FirstGroup,
    m: &Territory,
    rules: Rules,
    own: Option<&Format>,
    number: &Printable<'_>,
    digits: &str,
) -> Result<(), AllocError>
    requires { digits.now ≡ text_of number.now.national }
    ensures texts { OnOk result (string_bytes line.new ≡ string_bytes line.old ++
        9 ∷ texts_by_rules rules m.now (option_copied own.entry) number.now) }
    ensures behind { OnErr result (IsBehind (string_bytes line.old) (string_bytes line.new)) }
{
    let subject = Subject::of(digits);
    let layouts = layouts_of(m, rules, own, &subject)?;
    let mode = Mode::International;
    let abroad = laid_by(alloc, finder, m, mode, layouts.abroad, number, &subject)?;
    let laid = abroad.as_str();
    if is_laid_alike(m, layouts.abroad.layout, number) {
        return push_laid(line, m, number, digits, laid, laid);
    }
    let mode = Mode::National;
    let at_home = laid_by(alloc, finder, m, mode, layouts.at_home, number, &subject)?;
    push_laid(line, m, number, digits, laid, at_home.as_str())
}

/// Whether it is certain that the territory has the same layouts for national text as for other
/// text.
fn has_one_list(m: &Territory) -> bool
    ensures { IsTrue result →
        layouts_for m.now mode.National ≡ layouts_for m.now mode.International }
{
    m.is_laid_out_alike() || m.international_formats().is_empty()
}

/// Whether it is certain that a number is laid out at home as it is abroad, by this layout: the
/// territory has the same layouts for both, no carrier was dialled, and the layout has no rule.
fn is_laid_alike(m: &Territory, abroad: Option<&Format>, number: &Printable<'_>) -> bool
    ensures { IsTrue result → (rules : Rules) (own : Option loader.Format) →
        option_copied abroad.entry ≡
        layout_by rules m.now mode.International own (text_of number.now.national) →
        laid_out_by rules m.now mode.National own number.now ≡
        laid_out_by rules m.now mode.International own number.now }
{
    if !has_one_list(m) {
        return false;
    }
    match (number.carrier(), abroad) {
        (None, Some(layout)) => layout.national_prefix().is_none(),
        (None, None) => true,
        _ => false,
    }
}

/// Puts the texts in all modes behind a line, each after one tab, of a number that has these digits
/// and is laid out so, abroad and at home.
fn push_laid(
    line: &mut String,
    m: &Territory,
    number: &Printable<'_>,
    digits: &str,
    abroad: &str,
    at_home: &str,
) -> Result<(), AllocError>
    ensures texts { OnOk result (string_bytes line.new ≡ string_bytes line.old ++ 9 ∷
        texts_laid m.now number.now (decimal number.now.code.value) digits.now abroad.now
        at_home.now) }
    ensures behind { OnErr result (IsBehind (string_bytes line.old) (string_bytes line.new)) }
{
    let mut buffer = Buffer::new();
    let code = buffer.format(number.code().value());
    push_coded(line, m, number, code, digits, abroad, at_home)
}

/// The same where the code is this.
fn push_coded(
    line: &mut String,
    m: &Territory,
    number: &Printable<'_>,
    code: &str,
    digits: &str,
    abroad: &str,
    at_home: &str,
) -> Result<(), AllocError>
    ensures texts { OnOk result (string_bytes line.new ≡ string_bytes line.old ++
        9 ∷ texts_laid m.now number.now code.now digits.now abroad.now at_home.now) }
    ensures behind { OnErr result (IsBehind (string_bytes line.old) (string_bytes line.new)) }
{
    let done = push_text(Ok(()), line, "\t");
    let done = push_e164(done, line, code, digits);
    let done = push_text(done, line, "\t");
    let done = push_international(done, line, code, abroad, m, number);
    let done = push_text(done, line, "\t");
    let done = push_national(done, line, at_home, m, number);
    let done = push_text(done, line, "\t");
    push_rfc3966(done, line, code, abroad, number)
}

/// The international text of a number that is laid out so.
fn international(
    alloc: Global,
    laid: &str,
    m: &Territory,
    number: &Printable<'_>,
) -> Result<String, AllocError>
    ensures { IfOk result (λ t. string_bytes t ≡
        43 ∷ (decimal number.now.code.value ++ 32 ∷
        (laid.now ++ extension_part m.now number.now.extension))) }
{
    let mut buffer = Buffer::new();
    let code = buffer.format(number.code().value());
    let mut text = String::with_capacity(alloc, ROOM)?;
    push_international(Ok(()), &mut text, code, laid, m, number)?;
    Ok(text)
}

/// The text of RFC 3966 of a number that is laid out so.
fn rfc3966(alloc: Global, laid: &str, number: &Printable<'_>) -> Result<String, AllocError>
    ensures { IfOk result (λ t. string_bytes t ≡ codes "tel:+" ++
        (decimal number.now.code.value ++ 45 ∷
        (encode_utf8_all (hyphenated (chars laid.now)) ++
        extension_parameter number.now.extension))) }
{
    let mut buffer = Buffer::new();
    let code = buffer.format(number.code().value());
    let mut text = String::with_capacity(alloc, ROOM)?;
    push_rfc3966(Ok(()), &mut text, code, laid, number)?;
    Ok(text)
}

/// A text and the extension after it, announced by the territory's preferred prefix, else by ` ext.
/// `.
fn with_extension(text: String, m: &Territory, number: &Printable<'_>) -> Result<String, AllocError>
    ensures { IfOk result (λ t. string_bytes t ≡ string_bytes text ++
        extension_part m.now number.now.extension) }
{
    let mut text = text;
    push_extension(Ok(()), &mut text, m, number)?;
    Ok(text)
}

/// The national number, laid out by the layout that counts; its digits where there is none.
fn laid_out(
    alloc: Global,
    finder: &FirstGroup,
    m: &Territory,
    mode: Mode,
    rules: Rules,
    own: Option<&Format>,
    number: &Printable<'_>,
) -> Result<String, AllocError>
    ensures { IfOk result (λ t. string_bytes t ≡
        laid_out_by rules m.now mode (option_copied own.entry) number.now) }
{
    let national = number.national();
    if national.zeros() == 0 {
        let mut buffer = Buffer::new();
        let digits = buffer.format(national.value());
        return laid_in_mode(alloc, finder, m, mode, rules, own, number, digits);
    }
    let digits = text_of_value(alloc, format_args!("{national}"))?;
    laid_in_mode(alloc, finder, m, mode, rules, own, number, digits.as_str())
}

/// Digits of a number, laid out by the layout that counts; the digits where there is none.
fn laid_in_mode(
    alloc: Global,
    finder: &FirstGroup,
    m: &Territory,
    mode: Mode,
    rules: Rules,
    own: Option<&Format>,
    number: &Printable<'_>,
    digits: &str,
) -> Result<String, AllocError>
    ensures { IfOk result (λ t. string_bytes t ≡
        laid (layout_by rules m.now mode (option_copied own.entry) digits.now)
        m.now mode number.now.carrier digits.now) }
{
    let digits = Subject::of(digits);
    let chosen = layout_for(m, mode, rules, own, &digits)?;
    laid_by(alloc, finder, m, mode, chosen, number, &digits)
}

/// Digits of a number, laid out by a layout; the digits themselves where there is none.
fn laid_by(
    alloc: Global,
    finder: &FirstGroup,
    m: &Territory,
    mode: Mode,
    chosen: Chosen<'_>,
    number: &Printable<'_>,
    digits: &Subject<'_>,
) -> Result<String, AllocError>
    requires { IsTrue chosen.is_suited → IfSome chosen.layout (λ f. suits digits.now f.now ≡ true) }
    ensures { IfOk result (λ t. string_bytes t ≡
        laid (option_copied chosen.entry.layout) m.now mode number.now.carrier digits.now) }
{
    let Some(layout) = chosen.layout else {
        return String::from_str(alloc, digits.as_str());
    };
    match mode {
        Mode::National => {
            let prefix = m.national_prefix();
            let carrier = carrier_of(number);
            layout.lay_out_nationally_in(finder, prefix, carrier, digits, chosen.is_suited)
        }
        _ => layout.lay_out_in(digits, chosen.is_suited),
    }
}

/// The carrier that was dialled with a number.
fn carrier_of<'n>(number: &Printable<'n>) -> Option<&'n str>
    ensures { option_copied result ≡ number.entry.now.carrier }
{
    match number.carrier() {
        Some(carrier) => Some(carrier.as_str()),
        None => None,
    }
}

/// The layout of a number, and whether it is known to suit the number's digits: one that was handed
/// in need not.
#[derive(Clone, Copy)]
struct Chosen<'a> {
    layout: Option<&'a Format>,
    is_suited: bool,
}

/// The layouts of a number: at home, for national text, and abroad, for all other.
#[derive(Clone, Copy)]
struct Layouts<'a> {
    abroad: Chosen<'a>,
    at_home: Chosen<'a>,
}

/// The layouts that count for digits. They are looked for once where national text and other text
/// have the same ones.
fn layouts_of<'a>(
    m: &'a Territory,
    rules: Rules,
    own: Option<&'a Format>,
    digits: &Subject<'_>,
) -> Result<Layouts<'a>, AllocError>
    ensures abroad { IfOk result (λ l. option_copied l.abroad.layout ≡
        layout_by rules m.entry.now mode.International (option_copied own.entry) digits.now) }
    ensures at_home { IfOk result (λ l. option_copied l.at_home.layout ≡
        layout_by rules m.entry.now mode.National (option_copied own.entry) digits.now) }
    ensures abroad_suits { IfOk result (λ l. IsTrue l.abroad.is_suited →
        IfSome l.abroad.layout (λ f. suits digits.now f.now ≡ true)) }
    ensures home_suits { IfOk result (λ l. IsTrue l.at_home.is_suited →
        IfSome l.at_home.layout (λ f. suits digits.now f.now ≡ true)) }
{
    let abroad = layout_for(m, Mode::International, rules, own, digits)?;
    let at_home = at_home(m, rules, own, digits, abroad)?;
    Ok(Layouts { abroad, at_home })
}

/// The layout at home, where the one abroad is known: it is the same where the territory has the
/// same layouts for both.
fn at_home<'a>(
    m: &'a Territory,
    rules: Rules,
    own: Option<&'a Format>,
    digits: &Subject<'_>,
    abroad: Chosen<'a>,
) -> Result<Chosen<'a>, AllocError>
    requires layout { option_copied abroad.layout ≡
        layout_by rules m.now mode.International (option_copied own) digits.now }
    requires suits { IsTrue abroad.is_suited →
        IfSome abroad.layout (λ f. suits digits.now f.now ≡ true) }
    ensures layout { IfOk result (λ f. option_copied f.layout ≡
        layout_by rules m.entry.now mode.National (option_copied own.entry) digits.now) }
    ensures suits { IfOk result (λ f. IsTrue f.is_suited →
        IfSome f.layout (λ f. suits digits.now f.now ≡ true)) }
{
    if has_one_list(m) {
        return Ok(abroad);
    }
    layout_for(m, Mode::National, rules, own, digits)
}

/// The layout that was handed in, else the first of the territory's that these rules choose for the
/// digits.
fn layout_for<'a>(
    m: &'a Territory,
    mode: Mode,
    rules: Rules,
    own: Option<&'a Format>,
    digits: &Subject<'_>,
) -> Result<Chosen<'a>, AllocError>
    ensures layout { IfOk result (λ f. option_copied f.layout ≡
        layout_by rules m.entry.now mode (option_copied own.entry) digits.now) }
    ensures suits { IfOk result (λ f. IsTrue f.is_suited →
        IfSome f.layout (λ f. suits digits.now f.now ≡ true)) }
{
    match own {
        Some(own) => Ok(Chosen {
            layout: Some(own),
            is_suited: false,
        }),
        None => Ok(Chosen {
            layout: first_layout(rules, layouts_for(m, mode), digits)?,
            is_suited: true,
        }),
    }
}

/// The layouts by which a territory prints in a mode: its own in `National`, in the other modes
/// those for international use, or its own where it lists none of these. No memory is taken.
pub fn layouts_for(m: &Territory, mode: Mode) -> &[Format]
    ensures { result.now ≡ layouts_for m.now mode }
{
    let others = m.international_formats();
    match mode {
        Mode::National => m.formats(),
        _ if others.is_empty() => m.formats(),
        _ => others,
    }
}

/// The first of these layouts that is one for the digits by these rules. Refused only for memory.
pub fn first_layout<'a>(
    rules: Rules,
    layouts: &'a [Format],
    digits: &Subject<'_>,
) -> Result<Option<&'a Format>, AllocError>
    ensures first { IfOk result (λ f.
        option_copied f ≡ find (is_layout_by rules digits.now) layouts.entry.now) }
    ensures suits { IfOk result (λ f. IfSome f (λ f. suits digits.now f.now ≡ true)) }
{
    for layout in layouts {
        if is_layout(rules, layout, digits)? {
            return Ok(Some(layout));
        }
    }
    Ok(None)
}

/// Whether a layout is one for the digits by these rules. It suits them then.
fn is_layout(rules: Rules, layout: &Format, digits: &Subject<'_>) -> Result<bool, AllocError>
    ensures asked { IfOk result (λ b. b ≡ is_layout_by rules digits.now layout.now) }
    ensures suits { IfOk result (λ b. IsTrue b → suits digits.now layout.now ≡ true) }
{
    match rules {
        Rules::Library => fits(layout, digits),
        Rules::Crate => layout.suits_in(digits),
    }
}

/// Whether a layout fits the digits. One that suits them does where it names leading digits; else
/// its pattern is asked. It suits them then.
fn fits(layout: &Format, digits: &Subject<'_>) -> Result<bool, AllocError>
    ensures asked { IfOk result (λ b. b ≡ fits digits.now layout.now) }
    ensures suits { IfOk result (λ b. IsTrue b → suits digits.now layout.now ≡ true) }
{
    if !layout.suits_in(digits)? {
        return Ok(false);
    }
    match layout.leading_at(0) {
        Some(_) => Ok(true),
        None => layout.whole_pattern().is_whole_match_in(digits),
    }
}
