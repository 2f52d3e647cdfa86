//! The reader of the `tel:` form of a number, after RFC 3966.
ghost use Rattle.std.specs.Prelude.{◌≡◌, ◌==◌, ℕ, List, ◌++◌, Option, None, Some, MatchOption};
ghost use Rattle.std.specs.Prelude.{IfSome, codes, chars, unwrap_or, option_copied, option_map};
ghost use Rattle.std.specs.Prelude.{true, IsTrue, ◌↔◌, ◌⊎◌, []};
ghost use Rattle.phone_values.specs.declared.country.Source.TheVariants.{Default};
ghost use Rattle.phone_parts.specs.Parts.{IsSlice, IsLent, AreLent, parts_of};
ghost use Rattle.phone_parts.specs.Parts.{Parts};
ghost use Rattle.phone_parts.specs.Tel.{IsTel, IsSignedRun, without_plus};
ghost use Rattle.phone_parts.specs.Texts.{after_like, begins};
ghost use Rattle.std.specs.Option.{option_or};
ghost use Rattle.std.specs.List.{list_any};
ghost use Rattle.std.specs.Cow.{cow_str_bytes};

use crate::fronts::{begins_with, is_nothing, strip_char, strip_like};
use crate::number::Number;
use crate::parameters::read_parameters;
use phone_chars::cuts::{CharSet, split_run};
use phone_values::consts::RFC3966_PREFIX;
use phone_values::country::Source;
use std::borrow::CowStr;

/// What may stand between a plus sign and the national part.
struct NotVisual;

impl CharSet for NotVisual {
    ghost use Rattle.std.specs.Prelude.{not};
    ghost use Rattle.phone_parts.specs.Tel.{is_visual};

    ghost members = { λ _ c. not (is_visual c) };

    fn has(&self, c: char) -> bool {
        !matches!(c, '-' | '.' | '(' | ')')
    }
}

/// The characters of a national part.
struct PhoneDigits;

impl CharSet for PhoneDigits {
    ghost use Rattle.phone_parts.specs.Tel.{is_phonedigit};

    ghost members = { λ _ c. is_phonedigit c };

    fn has(&self, c: char) -> bool {
        c.is_ascii_hexdigit() || matches!(c, '-' | '.' | '(' | ')')
    }
}

/// Reads a text of the form that RFC 3966 gives to telephone numbers: `tel:` in any case or
/// nothing, then either `+` and a prefix up to the first hyphen, full stop or bracket, or nothing;
/// then the national part, hexadecimal digits and those separators; then the end, or a semicolon,
/// from which on parameters as `;ext=12` are read as long as there are any, and the rest is
/// ignored. The prefix is what follows the plus sign, else what the parameter `phone-context` says,
/// without one plus sign; the extension is what `ext` says; of parameters with one name the last
/// counts. A text that has a space, an empty prefix after a plus sign, no national part, or
/// anything else behind it, has no reading. The parts are slices of the text, and no memory is
/// taken.
pub fn phone_number(text: &str) -> Option<Number<'_>>
    ensures read { MatchOption result ((parts : Parts) →
        ¬ (IsTel (chars text.now) parts)) (λ n. IsTel (chars text.now) (parts_of n)) }
    ensures lent { IfSome result (λ n. AreLent text.now n) }
    ensures country { IfSome result (λ n. n.country ≡ Default) }
    ensures no_carrier { IfSome result (λ n. n.carrier ≡ None) }
{
    if has_space(text) {
        return None;
    }
    let (run, rest) = signed_run(without_scheme(text))?;
    let (national, tail) = split_run(rest, &PhoneDigits);
    if is_nothing(national) {
        return None;
    }
    if !is_tail(tail) {
        return None;
    }
    let parameters = read_parameters(tail);
    Some(Number {
        country: Source::Default,
        national: CowStr::Borrowed(national),
        prefix: lend(prefix(run, parameters.context)),
        extension: lend(parameters.extension),
        carrier: None,
    })
}

/// Whether a space, U+0020, is there.
fn has_space(text: &str) -> bool
    ensures { result ≡ list_any (λ c. c == 32) (chars text.now) }
{
    text.contains(' ')
}

/// The text without `tel:`, in any case, at its front.
fn without_scheme(text: &str) -> &str
    ensures read { chars result.now ≡
        unwrap_or (after_like (chars text.now) (codes "tel:")) (chars text.now) }
    ensures end { (v : List ℕ) × (text.now ≡ v ++ result.now) }
{
    match strip_like(text, RFC3966_PREFIX) {
        Some(rest) => rest,
        None => text,
    }
}

/// A plus sign's run of characters other than separators, if there is a plus sign, and what
/// follows. None where the run after a plus sign is empty.
fn signed_run(text: &str) -> Option<(Option<&str>, &str)>
    ensures read { MatchOption result
        ((signs rest : List ℕ) (run : Option (List ℕ)) → chars text.now ≡ signs ++ rest →
        ¬ (IsSignedRun rest signs run))
        (λ r. (signs : List ℕ) × (chars text.now ≡ signs ++ chars r.1.now) ×
        IsSignedRun (chars r.1.now) signs (option_map chars (option_copied r.0))) }
    ensures run { IfSome result (λ r. IfSome r.0 (λ run. IsSlice text.now run.now)) }
    ensures end { IfSome result (λ r. (v : List ℕ) × (text.now ≡ v ++ r.1.now)) }
{
    let Some(signed) = strip_char(text, '+') else {
        return Some((None, text));
    };
    let (run, rest) = split_run(signed, &NotVisual);
    if is_nothing(run) {
        return None;
    }
    Some((Some(run), rest))
}

/// Whether the national part may end here: at the end, or before parameters.
fn is_tail(text: &str) -> bool
    ensures { IsTrue result ↔ ((chars text.now ≡ []) ⊎ (begins (λ c. c == 59) (chars text.now) ≡
        true)) }
{
    is_nothing(text) || begins_with(text, ';')
}

/// The prefix: the run after a plus sign, else the context without one plus sign.
fn prefix<'a>(run: Option<&'a str>, context: Option<&'a str>) -> Option<&'a str>
    ensures read { option_map chars (option_copied result)
        ≡ option_or (option_map chars (option_copied run.entry))
        (option_map without_plus (option_map chars (option_copied context.entry))) }
    ensures slice { (text : List ℕ) → IfSome run.entry (λ r. IsSlice text r.now) →
        IfSome context.entry (λ r. IsSlice text r.now)
        → IfSome result (λ r. IsSlice text r.now) }
{
    if run.is_some() {
        return run;
    }
    let context = context?;
    match strip_char(context, '+') {
        Some(rest) => Some(rest),
        None => Some(context),
    }
}

/// The part, lent.
fn lend(part: Option<&str>) -> Option<CowStr<'_>>
    ensures read { option_map (λ p. chars (cow_str_bytes p)) result ≡
        option_map chars (option_copied part.entry) }
    ensures lent { (text : List ℕ) → IfSome part.entry (λ p. IsSlice text p.now) →
        IfSome result (λ p. IsLent text p) }
{
    match part {
        Some(part) => Some(CowStr::Borrowed(part)),
        None => None,
    }
}
