//! The reading of a text: the way from its characters to a number.
ghost use Rattle.std.specs.Prelude.{◌≡◌, ◌⊎◌, ◌==◌, ℕ, List, Ok, Err, IfOk, IfErr, chars};
ghost use Rattle.std.specs.Prelude.{option_map, string_bytes};
ghost use Rattle.std.specs.Cow.{cow_str_bytes};
ghost use Rattle.std.specs.Option.{option_copied};
ghost use Rattle.phone_values.specs.Nsn.{nsn};
ghost use Rattle.phone_values.specs.declared.country.Source.{Source};
ghost use Rattle.phone_read.specs.Hints.{Coded, hinted};
ghost use Rattle.phone_read.specs.Numbering.{reading_of};
ghost use Rattle.phone_read.specs.Readings.{Reads, stripping_territory, without_zeros};
ghost use Rattle.phone_read.specs.Strips.{stripped};
ghost use Rattle.phone_read.specs.Regions.{home};

use crate::calling_code::{CodedNumber, find_calling_code};
use crate::stripping::strip_national_prefix;
use crate::trims::without_zeros;
use crate::validator::territory_of;
use phone_base::results::{in_place_of, zip};
use phone_chars::is_viable;
use phone_parts::{Number, parts};
use phone_plans::{Plans, Territory};
use phone_values::consts::{MAX_LENGTH_FOR_NSN, MIN_LENGTH_FOR_NSN};
use phone_values::country::{Code, Id};
use phone_values::{Carrier, Extension, NationalNumber, ParseError, Reading};
use std::alloc::{AllocError, Global};
use std::borrow::CowStr;

/// Reads a text as a number under a database. The hint is a region. The hint's international prefix
/// counts; the hint's calling code counts where the text has none; the hint's rules strip the
/// national number, also that of another calling code. Without a hint the rules of the territory
/// strip to which the digits without their leading zeros belong.
///
/// `NoNumber` for a text that neither reader takes, or whose national part isn't viable; then the
/// refusals of [`country_code`](crate::helper::country_code); then `TooShortNsn` for a national
/// text of fewer than 2 bytes, `TooLong` for one of more than 17 and for a value from 2^56 on,
/// `MalformedInteger` for a national text that is no number, as zeros alone. `Memory` where memory
/// was refused, and nowhere else.
pub fn read(db: &Plans, hint: Option<Id>, text: &str) -> Result<Reading, ParseError>
    ensures { (result ≡ Err ParseError.Memory) ⊎ Reads db.now hint (chars text.now) result }
{
    let Some(parts) = parts(text) else {
        return Err(ParseError::NoNumber);
    };
    if !is_viable(parts.national.as_str()) {
        return Err(ParseError::NoNumber);
    }
    let coded = find_calling_code(db, hint, parts)?;
    let territory = stripping_territory(db, hint, &coded)?;
    reading_of(db.allocator(), territory, coded)
}

/// The territory whose rules strip the digits: the hint's, or without a hint the one that the
/// digits without their leading zeros belong to.
fn stripping_territory<'d>(
    db: &'d Plans,
    hint: Option<Id>,
    coded: &CodedNumber<'_, 'd>,
) -> Result<Option<&'d Territory>, AllocError>
    ensures { (source : Source) →
        option_copied coded.now.territory ≡ hinted db.entry.now hint → IfOk result
        (λ m. option_copied m ≡ stripping_territory db.entry.now hint
        (record {
          source = source;
          value = coded.now.code;
          rest = cow_str_bytes coded.now.number.national;
        })) }
{
    if hint.is_some() {
        return Ok(coded.territory);
    }
    territory_of(
        db,
        coded.code,
        without_zeros(coded.number.national.as_str()),
    )
}

/// The number of a code and the digits that stripping by a territory leaves.
fn reading_of(
    alloc: Global,
    territory: Option<&Territory>,
    coded: CodedNumber<'_, '_>,
) -> Result<Reading, ParseError>
    ensures { (result ≡ Err ParseError.Memory) ⊎
        (result ≡ reading_of (record {
          source = coded.entry.number.country;
          value = coded.entry.code;
          rest = cow_str_bytes coded.entry.number.national;
        })
        (option_map cow_str_bytes coded.entry.number.extension)
        (stripped (option_copied territory.entry) (cow_str_bytes coded.entry.number.national))) }
{
    let CodedNumber { code, number, .. } = coded;
    let Number {
        country,
        national,
        prefix,
        extension,
        carrier,
    } = number;
    let left = left_of(alloc, territory, national.as_str());
    let left = in_place_of((national, prefix, carrier), left);
    let ((national, carrier), extension) = zip(left, extension_of(alloc, extension))?;
    Ok(Reading {
        code: Code::new(code, country),
        national,
        extension,
        carrier,
    })
}

/// The national number and the carrier that stripping by a territory leaves.
fn left_of(
    alloc: Global,
    territory: Option<&Territory>,
    digits: &str,
) -> Result<(NationalNumber, Option<Carrier>), ParseError>
    ensures left { IfOk result (λ left.
        (nsn (stripped (option_copied territory.entry) digits.now).national ≡ Ok left.0) ×
        (left.1 ≡ (stripped (option_copied territory.entry) digits.now).carrier)) }
    ensures refused { IfErr result (λ e. (e ≡ ParseError.Memory) ⊎
        (nsn (stripped (option_copied territory.entry) digits.now).national ≡ Err e)) }
{
    let Number {
        country: _,
        national,
        prefix,
        extension,
        carrier,
    } = strip_national_prefix(territory, digits)?;
    let number = in_place_of((prefix, extension), nsn(national.as_str()));
    zip(in_place_of(national, number), carrier_of(alloc, carrier))
}

/// The extension of a text, if there is one.
fn extension_of(alloc: Global, text: Option<CowStr<'_>>) -> Result<Option<Extension>, ParseError>
    ensures extension { IfOk result (λ e. e ≡ option_map cow_str_bytes text.entry) }
    ensures refused { IfErr result (λ e. e ≡ ParseError.Memory) }
{
    match text {
        Some(text) => Ok(Some(Extension::from(text.into_owned(alloc)?))),
        None => Ok(None),
    }
}

/// The carrier of a text, if there is one.
fn carrier_of(alloc: Global, text: Option<CowStr<'_>>) -> Result<Option<Carrier>, ParseError>
    ensures carrier { IfOk result (λ c. c ≡ option_map cow_str_bytes text.entry) }
    ensures refused { IfErr result (λ e. e ≡ ParseError.Memory) }
{
    match text {
        Some(text) => Ok(Some(Carrier::from(text.into_owned(alloc)?))),
        None => Ok(None),
    }
}

/// The national (significant) number that a text gives once code and prefixes are cut off: read as
/// [`NationalNumber`] reads a text, and refused as that refuses one. `TooShortNsn` where the text
/// has fewer than 2 bytes, `TooLong` where it has more than 17. No memory is taken.
pub fn nsn(text: &str) -> Result<NationalNumber, ParseError>
    ensures { result ≡ nsn text.now }
{
    if text.len() < MIN_LENGTH_FOR_NSN {
        return Err(ParseError::TooShortNsn);
    }
    if text.len() > MAX_LENGTH_FOR_NSN {
        return Err(ParseError::TooLong);
    }
    text.parse::<NationalNumber>()
}
