//! What is cut off the digits after the calling code: national prefix and carrier code.
ghost use Rattle.std.specs.Prelude.{◌≡◌, ◌⊎◌, ◌==◌, ◌&&◌, not, if◌then◌else◌, ℕ, IfOk, IfSome};
ghost use Rattle.std.specs.Prelude.{IsOk};
ghost use Rattle.std.specs.Prelude.{None, Some, option_map, false, string_bytes};
ghost use Rattle.std.specs.Cow.{cow_str_bytes, IsBorrowedStr};
ghost use Rattle.std.specs.Option.{option_copied};
ghost use Rattle.phone_territory.specs.First.{AreCuts, IsCut, replaced};
ghost use Rattle.phone_records.specs.declared.loader.Metadata as loader;
ghost use Rattle.phone_read.specs.Kinds.{is_of};
ghost use Rattle.phone_read.specs.HeldCuts.{EndsBetween, LendsName, told_by};
ghost use Rattle.phone_read.specs.Lent.{KeepsLent};
ghost use Rattle.phone_read.specs.Strips.{Stripped, by_match, cut_by, cut_of, held, is_anew};
ghost use Rattle.phone_read.specs.Strips.{left_by, step, strip, stripped};

use crate::kinds::{is_general, length_of};
use crate::trims::{part, trim, without_front};
use phone_base::results::{in_place_of, zip_value};
use phone_parts::Number;
use phone_territory::{Captured, Pattern, Territory};
use phone_values::{Type, Validation};
use std::alloc::{AllocError, Global};
use std::borrow::CowStr;

/// What a territory's rules do to the digits after the calling code.
#[derive(Drop)]
enum Cut<'a> {
    /// Nothing.
    Stay,
    /// The national prefix is cut off, where they begin with it.
    OffPrefix,
    /// So many bytes are cut off, and this names the carrier, if any.
    OffMatch(usize, Option<CowStr<'a>>),
    /// They are written anew as these, and this names the carrier, if any.
    Anew(String, Option<CowStr<'a>>),
}

/// A number without what is dialled before its national number inside a territory, its carrier as
/// it is named there. Without a parsing pattern the territory's national prefix is cut off, where
/// the digits begin with it. With one its first match counts, where that is at the first byte: it
/// is cut off, and the last group names the carrier (the whole match where the pattern has no
/// group, none where the group took no part); but where the territory has a transform rule and that
/// group took part, the rule writes the digits anew, and group 1 names the carrier. Where the
/// digits were of the territory's general kind and would no longer be, nothing changes.
///
/// A borrowed national part stays borrowed unless the rule wrote it anew, and a carrier that a
/// match names is then borrowed too. Refused only for memory, and never under a territory without a
/// parsing pattern.
pub fn national_number<'a>(m: &Territory, number: Number<'a>) -> Result<Number<'a>, AllocError>
    ensures national { IfOk result (λ n. cow_str_bytes n.national ≡
        (step m.now (cow_str_bytes number.entry.national)
        (option_map cow_str_bytes number.entry.carrier)).national) }
    ensures carrier { IfOk result (λ n. option_map cow_str_bytes n.carrier ≡
        (step m.now (cow_str_bytes number.entry.national)
        (option_map cow_str_bytes number.entry.carrier)).carrier) }
    ensures country { IfOk result (λ n. n.country ≡ number.entry.country) }
    ensures prefix { IfOk result (λ n. n.prefix ≡ number.entry.prefix) }
    ensures extension { IfOk result (λ n. n.extension ≡ number.entry.extension) }
    ensures no_pattern { m.now.national_prefix_for_parsing ≡ None → IsOk result }
    ensures lent { IfOk result (λ n. IsBorrowedStr number.entry.national → KeepsLent number.entry
        (is_anew (cut_of m.now (cow_str_bytes number.entry.national))) n) }
{
    let cut = cut_of(m, &number.national);
    let (cut, number) = zip_value(cut, number)?;
    let (national, carrier) = left_by(m, cut, number.national, number.carrier);
    Ok(Number {
        national,
        carrier,
        ..number
    })
}

/// What a cut leaves of a national part, and the carrier that is named then.
fn left_by<'a>(
    m: &Territory,
    cut: Cut<'a>,
    national: CowStr<'a>,
    carrier: Option<CowStr<'a>>,
) -> (CowStr<'a>, Option<CowStr<'a>>)
    requires { EndsBetween (cow_str_bytes national) cut }
    ensures national { cow_str_bytes result.0 ≡ (left_by m.now (cow_str_bytes national.entry)
        (option_map cow_str_bytes carrier.entry) (told_by cut.entry)).national }
    ensures carrier { option_map cow_str_bytes result.1 ≡
        (left_by m.now (cow_str_bytes national.entry)
        (option_map cow_str_bytes carrier.entry) (told_by cut.entry)).carrier }
    ensures borrowed { IsBorrowedStr national.entry → is_anew (told_by cut.entry) ≡ false →
        IsBorrowedStr result.0 }
    ensures lent_carrier { LendsName cut.entry →
        (result.1 ≡ carrier.entry) ⊎ IfSome result.1 (λ c. IsBorrowedStr c) }
{
    match cut {
        Cut::Stay => (national, carrier),
        Cut::OffPrefix => (without_front(m.national_prefix(), national), carrier),
        Cut::OffMatch(end, name) => (trim(national, end), in_place_of(carrier, name)),
        Cut::Anew(written, name) => (
            in_place_of(national, CowStr::Owned(written)),
            in_place_of(carrier, name),
        ),
    }
}

/// What a territory's rules do to a national part. A name of the carrier is borrowed if that is.
fn cut_of<'a>(m: &Territory, digits: &CowStr<'a>) -> Result<Cut<'a>, AllocError>
    ensures cut { IfOk result (λ cut. told_by cut ≡ cut_of m.now (cow_str_bytes digits.now)) }
    ensures ends { IfOk result (λ cut. EndsBetween (cow_str_bytes digits.now) cut) }
    ensures lends { IfOk result (λ cut. IsBorrowedStr digits.now → LendsName cut) }
    ensures no_pattern { m.now.national_prefix_for_parsing ≡ None → IsOk result }
{
    let Some(pattern) = m.national_prefix_for_parsing_pattern() else {
        return Ok(Cut::OffPrefix);
    };
    if pattern.is_at_start(digits.as_str())? {
        cut_by(m, pattern, digits)
    } else {
        Ok(Cut::Stay)
    }
}

/// What the first match of a parsing pattern does to a national part.
fn cut_by<'a>(m: &Territory, pattern: &Pattern, digits: &CowStr<'a>) -> Result<Cut<'a>, AllocError>
    ensures cut { IfOk result (λ cut. told_by cut ≡
        cut_by m.now pattern.now (cow_str_bytes digits.now)) }
    ensures ends { IfOk result (λ cut. EndsBetween (cow_str_bytes digits.now) cut) }
    ensures lends { IfOk result (λ cut. IsBorrowedStr digits.now → LendsName cut) }
{
    let Some(found) = pattern.captures(digits.as_str())? else {
        return Ok(Cut::Stay);
    };
    if found.span.0 == 0 {
        by_match(m, pattern, found, digits)
    } else {
        Ok(Cut::Stay)
    }
}

/// What a match at the front does to a national part.
fn by_match<'a>(
    m: &Territory,
    pattern: &Pattern,
    found: Captured,
    digits: &CowStr<'a>,
) -> Result<Cut<'a>, AllocError>
    requires { AreCuts (cow_str_bytes digits.now) found }
    ensures cut { IfOk result (λ cut. told_by cut ≡ by_match m.now pattern.now
        m.now.national_prefix_transform_rule (cow_str_bytes digits.now) found found.last) }
    ensures ends { IfOk result (λ cut. EndsBetween (cow_str_bytes digits.now) cut) }
    ensures lends { IfOk result (λ cut. IsBorrowedStr digits.now → LendsName cut) }
{
    match (m.national_prefix_transform_rule(), found.last) {
        (Some(rule), Some(_)) => by_rule(m, pattern, rule, found, digits),
        (_, last) => {
            let name = part_if_any(m.allocator(), digits, last)?;
            Ok(Cut::OffMatch(found.span.1, name))
        }
    }
}

/// What the transform rule does to a national part, where the last group of the match took part.
fn by_rule<'a>(
    m: &Territory,
    pattern: &Pattern,
    rule: &str,
    found: Captured,
    digits: &CowStr<'a>,
) -> Result<Cut<'a>, AllocError>
    requires { AreCuts (cow_str_bytes digits.now) found }
    ensures cut { (last : ℕ × ℕ) → IfOk result (λ cut. told_by cut ≡ by_match m.now pattern.now
        (Some rule.now) (cow_str_bytes digits.now) found (Some last)) }
    ensures ends { IfOk result (λ cut. EndsBetween (cow_str_bytes digits.now) cut) }
    ensures lends { IfOk result (λ cut. IsBorrowedStr digits.now → LendsName cut) }
{
    let Some(written) = written_in_kind(m, pattern, rule, digits.as_str())? else {
        return Ok(Cut::Stay);
    };
    let name = part_if_any(m.allocator(), digits, found.first);
    let (name, written) = zip_value(name, written)?;
    Ok(Cut::Anew(written, name))
}

/// The digits as the transform rule writes them anew; none where they would leave the territory's
/// general kind.
fn written_in_kind(
    m: &Territory,
    pattern: &Pattern,
    rule: &str,
    digits: &str,
) -> Result<Option<String>, AllocError>
    ensures { IfOk result (λ made. option_map string_bytes made ≡
        (if is_of m.now.general digits.now &&
        not (is_of m.now.general (replaced pattern.now rule.now digits.now))
        then None else Some (replaced pattern.now rule.now digits.now))) }
{
    let written = pattern.replace(rule, digits)?;
    let leaves = leaves_general(m, digits, written.as_str());
    let (leaves, written) = zip_value(leaves, written)?;
    if leaves {
        Ok(in_place_of(written, None))
    } else {
        Ok(Some(written))
    }
}

/// Whether the digits are of the territory's general kind, and no longer are as they are written
/// anew.
fn leaves_general(m: &Territory, digits: &str, written: &str) -> Result<bool, AllocError>
    ensures { IfOk result (λ b. b ≡
        (is_of m.now.general digits.now && not (is_of m.now.general written.now))) }
{
    let was = is_general(m, digits)?;
    let is = is_general(m, written)?;
    Ok(was && !is)
}

/// The part of a text that a group holds, where it took part.
fn part_if_any<'a>(
    alloc: Global,
    text: &CowStr<'a>,
    group: Option<(usize, usize)>,
) -> Result<Option<CowStr<'a>>, AllocError>
    requires { IfSome group (IsCut (cow_str_bytes text.now)) }
    ensures text { IfOk result (λ p. option_map cow_str_bytes p ≡
        held (cow_str_bytes text.now) group) }
    ensures borrowed { IfOk result (λ p. IsBorrowedStr text.now → IfSome p (λ c. IsBorrowedStr c)) }
{
    match group {
        Some(span) => Ok(Some(part(alloc, text, span)?)),
        None => Ok(None),
    }
}

/// The digits that stripping by a territory leaves, with the carrier that was named:
/// [`national_number`], then the national prefix once more; but the digits as they are where too
/// few would be left. They are lent where they can be.
pub fn strip<'b>(m: &Territory, digits: &'b str) -> Result<Number<'b>, AllocError>
    ensures national { IfOk result (λ n. cow_str_bytes n.national ≡
        (strip m.now digits.entry.now).national) }
    ensures carrier { IfOk result (λ n. option_map cow_str_bytes n.carrier ≡
        (strip m.now digits.entry.now).carrier) }
    ensures borrowed { IfOk result (λ n. is_anew (cut_of m.now digits.entry.now) ≡ false →
        IsBorrowedStr n.national) }
{
    let stepped = national_number(m, Number::of(digits))?;
    let national = without_front(m.national_prefix(), stepped.national);
    let left = Number {
        national,
        ..stepped
    };
    Ok(
        match length_of(m, left.national.as_str().len(), Type::Unknown) {
            Validation::TooShort => in_place_of(left, Number::of(digits)),
            _ => left,
        },
    )
}

/// The digits that stripping leaves; all of them without a territory.
pub fn strip_national_prefix<'b>(
    m: Option<&Territory>,
    digits: &'b str,
) -> Result<Number<'b>, AllocError>
    ensures national { IfOk result (λ n. cow_str_bytes n.national ≡
        (stripped (option_copied m.entry) digits.entry.now).national) }
    ensures carrier { IfOk result (λ n. option_map cow_str_bytes n.carrier ≡
        (stripped (option_copied m.entry) digits.entry.now).carrier) }
{
    match m {
        Some(m) => strip(m, digits),
        None => Ok(Number::of(digits)),
    }
}
