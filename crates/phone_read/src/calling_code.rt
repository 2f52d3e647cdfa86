//! The calling code of a number, and the digits that follow it.
ghost use Rattle.std.specs.Prelude.{◌≡◌, ◌⊎◌, ◌&&◌, ℕ, Bool, List, not, true, false, Ok, Err, drop};
ghost use Rattle.std.specs.Prelude.{length, IfOk, IfErr, IsSome, None, Some, option_map};
ghost use Rattle.std.specs.Prelude.{unwrap_or, string_bytes};
ghost use Rattle.std.specs.Cow.{cow_str_bytes, IsBorrowedStr};
ghost use Rattle.std.specs.Fmt.{decimal};
ghost use Rattle.std.specs.Option.{option_copied, option_map_or};
ghost use Rattle.std.specs.Result.{result_map_both};
ghost use Rattle.phone_chars.specs.Norm.{norm};
ghost use Rattle.phone_values.specs.declared.country.Source.{Source};
ghost use Rattle.phone_values.specs.declared.country.Source.TheVariants.{Plus};
ghost use Rattle.phone_parts.specs.Parts.{parts_of};
ghost use Rattle.phone_parts.specs.Texts.{is_front};
ghost use Rattle.phone_read.specs.Lent.{IsLentDigits, KeepsLent};
ghost use Rattle.phone_read.specs.CallingCodes.{HasCode, IsCoded, KeepsLentCode, code_by};
ghost use Rattle.phone_read.specs.CallingCodes.{code_by_front};
ghost use Rattle.phone_read.specs.CallingCodes.{code_by_prefix, code_of, international_prefix_of};
ghost use Rattle.phone_read.specs.CallingCodes.{prefix_of, with_three};
ghost use Rattle.phone_read.specs.Hints.{Coded, code_by_hint, hinted, looks_national};
ghost use Rattle.phone_read.specs.WithoutMemory.{AnswersAtOnce, AnswersWithoutMemory};

use crate::dialled::{OfTerritory, read_dialling};
use crate::hints::{hint_territory, looks_national};
use crate::trims::{begins_with_number, behind_number, lent_front, trim};
use phone_base::results::{in_place_of, zip_value};
use phone_parts::Number;
use phone_plans::{Pattern, Plans, Territory};
use phone_values::ParseError;
use phone_values::consts::MIN_LENGTH_FOR_NSN;
use phone_values::country::{Id, Source};
use std::alloc::{AllocError, Global};
use std::borrow::CowStr;

/// What reading knows of a number once its calling code is found: how it was dialled, and by whose
/// rules.
#[derive(Drop)]
pub(crate) struct CodedNumber<'a, 'd> {
    /// The calling code.
    pub(crate) code: u16,

    /// The source of the code, the digits that follow it, the extension, and as prefix the reader's
    /// one, or the code where it was cut off borrowed digits.
    pub(crate) number: Number<'a>,

    /// The territory of the hint, where there is a hint and a record of it.
    pub(crate) territory: Option<&'d Territory>,
}

/// A number with its calling code: the source of the code, the digits that are left, and as prefix
/// the reader's prefix, or the code in decimal where the reader has none. Plus signs and
/// international prefixes are those of
/// [`international_prefix`](crate::helper::international_prefix) with the pattern of the hint's
/// territory. After one of these the code is the number of the reader's prefix, else the shortest
/// listed code at the front of the digits, which is cut off. Otherwise the code is that of the
/// hint's territory. Digits that begin with this code lose it, and the source is `Number`, where
/// the digits as they stand don't look like a number of the territory or have no possible length.
///
/// `TooShortNsn` where at most two digits follow a sign or an international prefix, or stand beside
/// the reader's prefix; then `MalformedInteger` for a prefix that is no number below 65536;
/// `InvalidCountryCode` where the code isn't listed, no listed code is at the front, or there is no
/// hint or no record of the hint; `Memory` where memory was refused. Where the hint has no
/// international prefix, and the parts are ASCII digits after the leading plus signs, each of the
/// other errors is returned without a request for memory.
///
/// A borrowed national part of ASCII digits, leading plus signs aside, stays borrowed, and the code
/// that is cut off is borrowed from the national part too. So the result is never `Memory` where
/// prefix and extension are ASCII digits as well, and there is no hint or no record of the hint.
pub fn country_code<'a>(
    db: &Plans,
    hint: Option<Id>,
    number: Number<'a>,
) -> Result<Number<'a>, ParseError>
    ensures coded { IfOk result (λ n. (c : Coded) ×
        (code_of db.now hint (parts_of number.entry).national (parts_of number.entry).prefix ≡
        Ok c) × HasCode c (prefix_of (parts_of number.entry).prefix c.value)
        (option_map norm (parts_of number.entry).extension) number.entry n) }
    ensures refused { IfErr result (λ e. (e ≡ ParseError.Memory) ⊎
        (code_of db.now hint (parts_of number.entry).national (parts_of number.entry).prefix ≡
        Err e)) }
    ensures no_memory { AnswersWithoutMemory db.now hint number.entry result }
    ensures lent { IfOk result (λ n. IsLentDigits number.entry.national →
        KeepsLent number.entry false n) }
{
    let coded = find_calling_code(db, hint, number)?;
    Ok(with_code_as_prefix(db.allocator(), coded)?)
}

/// A number whose code was found; its prefix, where it has none, is the code in decimal.
fn with_code_as_prefix<'a>(
    alloc: Global,
    coded: CodedNumber<'a, '_>,
) -> Result<Number<'a>, AllocError>
    ensures kept { IsSome coded.entry.number.prefix → result ≡ Ok coded.entry.number }
    ensures prefix { IfOk result (λ n. option_map cow_str_bytes n.prefix ≡
        Some (unwrap_or (option_map cow_str_bytes coded.entry.number.prefix)
        (decimal coded.entry.code))) }
    ensures country { IfOk result (λ n. n.country ≡ coded.entry.number.country) }
    ensures national { IfOk result (λ n. n.national ≡ coded.entry.number.national) }
    ensures extension { IfOk result (λ n. n.extension ≡ coded.entry.number.extension) }
    ensures carrier { IfOk result (λ n. n.carrier ≡ coded.entry.number.carrier) }
{
    let CodedNumber { code, number, .. } = coded;
    if number.prefix.is_some() {
        return Ok(number);
    }
    let (prefix, number) = zip_value(in_decimal(alloc, code), number)?;
    Ok(Number {
        prefix: in_place_of(number.prefix, Some(CowStr::Owned(prefix))),
        ..number
    })
}

/// A code in decimal.
fn in_decimal(alloc: Global, code: u16) -> Result<String, AllocError>
    ensures { IfOk result (λ text. string_bytes text ≡ decimal code) }
{
    format!(in alloc; "{code}")
}

/// A number with its calling code, as [`country_code`] has it but for a prefix that would be a
/// copy, the code itself, and the territory of the hint, which is looked up once.
pub(crate) fn find_calling_code<'a, 'd>(
    db: &'d Plans,
    hint: Option<Id>,
    number: Number<'a>,
) -> Result<CodedNumber<'a, 'd>, ParseError>
    ensures coded { IfOk result (λ r. (c : Coded) ×
        (code_of db.entry.now hint (parts_of number.entry).national (parts_of number.entry).prefix ≡
        Ok c) × (r.code ≡ c.value) × IsCoded c (prefix_of (parts_of number.entry).prefix c.value)
        (option_map norm (parts_of number.entry).extension) number.entry r.number) }
    ensures territory { IfOk result (λ r. option_copied r.territory ≡ hinted db.entry.now hint) }
    ensures refused { IfErr result (λ e. (e ≡ ParseError.Memory) ⊎
        (code_of db.entry.now hint (parts_of number.entry).national (parts_of number.entry).prefix ≡
        Err e)) }
    ensures no_memory { AnswersWithoutMemory db.entry.now hint number.entry result }
    ensures lent { IfOk result (λ r. IsLentDigits number.entry.national →
        KeepsLentCode number.entry r.number) }
{
    let territory = hint_territory(db, hint);
    let finder = OfTerritory {
        pattern: prefix_pattern(territory),
    };
    let number = read_dialling(db.allocator(), &finder, number)?;
    with_code(db, territory, number)
}

/// A number of which is known how it was dialled, with its code: by its prefix where it has one, by
/// the hint's territory where nothing else tells it, and else by the front of its digits.
fn with_code<'a, 'd>(
    db: &Plans,
    territory: Option<&'d Territory>,
    number: Number<'a>,
) -> Result<CodedNumber<'a, 'd>, ParseError>
    requires { IsSome number.prefix → number.country ≡ Plus }
    ensures coded { IfOk result (λ r. (c : Coded) ×
        (code_by db.now (option_copied territory.entry)
        (option_map cow_str_bytes number.entry.prefix) number.entry.country
        (cow_str_bytes number.entry.national) ≡ Ok c) × (r.code ≡ c.value) ×
        IsCoded c (unwrap_or (option_map cow_str_bytes number.entry.prefix) (decimal c.value))
        (option_map cow_str_bytes number.entry.extension) number.entry r.number) }
    ensures territory { IfOk result (λ r. r.territory ≡ territory.entry) }
    ensures refused { IfErr result (λ e. (e ≡ ParseError.Memory) ⊎
        (code_by db.now (option_copied territory.entry)
        (option_map cow_str_bytes number.entry.prefix) number.entry.country
        (cow_str_bytes number.entry.national) ≡ Err e)) }
    ensures at_once { AnswersAtOnce (option_copied territory.entry)
        (code_by db.now (option_copied territory.entry)
        (option_map cow_str_bytes number.entry.prefix) number.entry.country
        (cow_str_bytes number.entry.national)) result }
    ensures lent { IfOk result (λ r. IsBorrowedStr number.entry.national →
        KeepsLentCode number.entry r.number) }
{
    if let Some(prefix) = &number.prefix {
        let code = code_by_prefix(db, prefix.as_str(), number.national.as_str());
        return by_prefix(code, territory, number);
    }
    match number.country {
        Source::Default => by_hint(territory, number),
        _ => by_front(db, territory, number),
    }
}

/// A number with the code of its prefix.
fn by_prefix<'a, 'd>(
    code: Result<u16, ParseError>,
    territory: Option<&'d Territory>,
    number: Number<'a>,
) -> Result<CodedNumber<'a, 'd>, ParseError>
    ensures { result ≡ result_map_both (λ code. record {
      code = code;
      number = number.entry;
      territory = territory.entry;
    }) (λ e. e) code }
{
    let (code, number) = zip_value(code, number)?;
    Ok(CodedNumber {
        code,
        number,
        territory,
    })
}

/// The international prefix of a territory.
fn prefix_pattern(territory: Option<&Territory>) -> Option<&Pattern>
    ensures { option_copied result ≡ international_prefix_of (option_copied territory.entry) }
{
    match territory {
        Some(territory) => territory.international_prefix_pattern(),
        None => None,
    }
}

/// The number of a reader's prefix before more than two digits, which is to be listed. No memory is
/// taken.
fn code_by_prefix(db: &Plans, prefix: &str, digits: &str) -> Result<u16, ParseError>
    ensures { with_three digits.now (code_by_prefix db.now prefix.now digits.now) ≡
        result_map_both (λ code. record { source = Plus; value = code; rest = digits.now })
        (λ e. e) result }
{
    unless_too_short(digits, listed_number(db, prefix))
}

/// The number of a reader's prefix, which is to be listed.
fn listed_number(db: &Plans, prefix: &str) -> Result<u16, ParseError>
    ensures { (digits : List ℕ) → code_by_prefix db.now prefix.now digits ≡
        result_map_both (λ code. record { source = Plus; value = code; rest = digits })
        (λ e. e) result }
{
    let Ok(code) = prefix.parse::<u16>() else {
        return Err(ParseError::MalformedInteger);
    };
    if db.is_listed(&code) {
        Ok(code)
    } else {
        Err(ParseError::InvalidCountryCode)
    }
}

/// The shortest listed code at the front of more than two digits. No memory is taken.
fn code_by_front(db: &Plans, digits: &str) -> Result<u16, ParseError>
    ensures code { (source : Source) →
        with_three digits.now (code_by_front db.now source digits.now) ≡
        result_map_both (λ code. record {
          source = source;
          value = code;
          rest = drop (length (decimal code)) digits.now;
        }) (λ e. e) result }
    ensures front { IfOk result (λ code. is_front (decimal code) digits.now ≡ true) }
{
    unless_too_short(digits, shortest_code(db, digits))
}

/// The shortest listed code at the front of digits.
fn shortest_code(db: &Plans, digits: &str) -> Result<u16, ParseError>
    ensures code { (source : Source) →
        code_by_front db.now source digits.now ≡
        result_map_both (λ code. record {
          source = source;
          value = code;
          rest = drop (length (decimal code)) digits.now;
        }) (λ e. e) result }
    ensures front { IfOk result (λ code. is_front (decimal code) digits.now ≡ true) }
{
    match db.shortest(digits) {
        Some(code) => Ok(code),
        None => Err(ParseError::InvalidCountryCode),
    }
}

/// What was found for digits, where they are more than two.
fn unless_too_short(digits: &str, found: Result<u16, ParseError>) -> Result<u16, ParseError>
    ensures found { (f : ℕ → Coded) → with_three digits.now (result_map_both f (λ e. e) found) ≡
        result_map_both f (λ e. e) result }
    ensures kept { (p : ℕ → Bool) → IfOk found (λ code. p code ≡ true) →
        IfOk result (λ code. p code ≡ true) }
{
    if digits.len() <= MIN_LENGTH_FOR_NSN {
        return Err(ParseError::TooShortNsn);
    }
    found
}

/// An international number with the code at the front of its digits, which is cut off. No memory is
/// taken.
fn by_front<'a, 'd>(
    db: &Plans,
    territory: Option<&'d Territory>,
    number: Number<'a>,
) -> Result<CodedNumber<'a, 'd>, ParseError>
    ensures coded { IfOk result (λ r. (c : Coded) ×
        (with_three (cow_str_bytes number.entry.national)
        (code_by_front db.now number.entry.country (cow_str_bytes number.entry.national)) ≡ Ok c) ×
        (r.code ≡ c.value) × IsCoded c (decimal c.value)
        (option_map cow_str_bytes number.entry.extension) number.entry r.number) }
    ensures territory { IfOk result (λ r. r.territory ≡ territory.entry) }
    ensures refused { IfErr result (λ e. with_three (cow_str_bytes number.entry.national)
        (code_by_front db.now number.entry.country (cow_str_bytes number.entry.national)) ≡ Err e) }
    ensures at_once { AnswersAtOnce (option_copied territory.entry)
        (with_three (cow_str_bytes number.entry.national)
        (code_by_front db.now number.entry.country (cow_str_bytes number.entry.national))) result }
    ensures lent { IfOk result (λ r. IsBorrowedStr number.entry.national →
        KeepsLentCode number.entry r.number) }
{
    let code = code_by_front(db, number.national.as_str());
    let (code, number) = zip_value(code, number)?;
    let country = number.country;
    Ok(cut_off(code, country, territory, number))
}

/// A number whose digits begin with its code in decimal, which is cut off. Of borrowed digits it
/// becomes the prefix.
fn cut_off<'a, 'd>(
    code: u16,
    country: Source,
    territory: Option<&'d Territory>,
    number: Number<'a>,
) -> CodedNumber<'a, 'd>
    requires { is_front (decimal code) (cow_str_bytes number.national) ≡ true }
    ensures code { result.code ≡ code }
    ensures territory { result.territory ≡ territory.entry }
    ensures coded { IsCoded (record {
      source = country;
      value = code;
      rest = drop (length (decimal code)) (cow_str_bytes number.entry.national);
    }) (decimal code)
        (option_map cow_str_bytes number.entry.extension) number.entry result.number }
    ensures lent { IsBorrowedStr number.entry.national →
        KeepsLentCode number.entry result.number }
{
    let at = behind_number(number.national.as_str(), code);
    let prefix = lent_front(&number.national, at);
    let national = trim(number.national, at);
    CodedNumber {
        code,
        number: Number {
            country,
            national,
            prefix: in_place_of(number.prefix, prefix),
            ..number
        },
        territory,
    }
}

/// A number with the code of the hint's territory.
fn by_hint<'a, 'd>(
    territory: Option<&'d Territory>,
    number: Number<'a>,
) -> Result<CodedNumber<'a, 'd>, ParseError>
    ensures coded { IfOk result (λ r. (c : Coded) ×
        (option_map_or (λ m. Ok (code_by_hint m (cow_str_bytes number.entry.national)))
        (option_copied territory.entry) (Err ParseError.InvalidCountryCode) ≡ Ok c) ×
        (r.code ≡ c.value) × IsCoded c (decimal c.value)
        (option_map cow_str_bytes number.entry.extension) number.entry r.number) }
    ensures territory { IfOk result (λ r. r.territory ≡ territory.entry) }
    ensures refused { IfErr result (λ e. (e ≡ ParseError.Memory) ⊎
        (option_map_or (λ m. Ok (code_by_hint m (cow_str_bytes number.entry.national)))
        (option_copied territory.entry) (Err ParseError.InvalidCountryCode) ≡ Err e)) }
    ensures at_once { AnswersAtOnce (option_copied territory.entry) (option_map_or
        (λ m. Ok (code_by_hint m (cow_str_bytes number.entry.national)))
        (option_copied territory.entry) (Err ParseError.InvalidCountryCode)) result }
    ensures lent { IfOk result (λ r. IsBorrowedStr number.entry.national →
        KeepsLentCode number.entry r.number) }
{
    let Some(territory) = territory else {
        return Err(ParseError::InvalidCountryCode);
    };
    let code = territory.country_code();
    let is_apart = is_code_apart(territory, code, number.national.as_str());
    let (is_apart, number) = zip_value(is_apart, number)?;
    if is_apart {
        return Ok(cut_off(code, Source::Number, Some(territory), number));
    }
    Ok(CodedNumber {
        code,
        number: Number {
            country: Source::Default,
            prefix: None,
            ..number
        },
        territory: Some(territory),
    })
}

/// Whether digits begin with the territory's code in decimal, and the code is no part of a national
/// number.
fn is_code_apart(territory: &Territory, code: u16, digits: &str) -> Result<bool, AllocError>
    ensures { IfOk result (λ b. b ≡
        (is_front (decimal code) digits.now && not (looks_national territory.now digits.now))) }
{
    if !begins_with_number(digits, code) {
        return Ok(false);
    }
    Ok(!looks_national(territory, digits)?)
}
