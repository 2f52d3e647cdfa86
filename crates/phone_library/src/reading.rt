//! The number that digits are: its calling code, its national number, and its carrier.
ghost use Rattle.std.specs.Prelude.{◌≡◌, ◌⊎◌, ℕ, List, Option, IfOk, Err, option_map};
ghost use Rattle.std.specs.Option.{option_copied};
ghost use Rattle.std.specs.Result.{result_map_both};
ghost use Rattle.phone_library.specs.Lent.{left_of, read_as, told};
ghost use Rattle.phone_library.specs.Readings.{after_code, national_number, reading_of};
ghost use Rattle.phone_library.specs.Readings.{reading_under, stripped, stripping_territory};

use crate::codes::{Coded, code_in};
use crate::stripping::{Left, strip_national_prefix};
use phone_base::results::{in_place_of, zip_value};
use phone_library_text::WrittenNumber;
use phone_plans::{Plans, Territory};
use phone_read::trims::without_zeros;
use phone_values::consts::{MAX_LENGTH_FOR_NSN, MIN_LENGTH_FOR_NSN};
use phone_values::country::{Code, Source};
use phone_values::{Carrier, NationalNumber, ParseError, Reading};
use std::alloc::{AllocError, Global};

/// The number that was written so, under a hint's territory.
///
/// The refusals of [`code_in`]; `TooShortNsn` where fewer than two digits follow the code,
/// `TooLong` where more than 17 are left of them, or a value of 2^56 or more; `Memory` where memory
/// was refused.
pub(crate) fn reading_under(
    db: &Plans,
    territory: Option<&Territory>,
    number: WrittenNumber,
) -> Result<Reading, ParseError>
    ensures { (result ≡ Err ParseError.Memory) ⊎ (result ≡
        reading_under db.now (option_copied territory.entry) number) }
{
    let WrittenNumber {
        has_plus,
        digits,
        extension,
    } = number;
    let numbered = main_number(db, territory, has_plus, digits.as_str());
    let (numbered, extension) = zip_value(in_place_of(digits, numbered), extension)?;
    let MainNumber {
        code,
        national,
        carrier,
    } = numbered;
    Ok(Reading {
        code,
        national,
        extension,
        carrier,
    })
}

/// A number without its extension.
#[derive(Drop)]
struct MainNumber {
    /// The calling code, and what told it.
    code: Code,
    /// The national number, with its leading zeros.
    national: NationalNumber,
    /// The carrier's selection code, where one was dialled.
    carrier: Option<Carrier>,
}

/// The number of these digits, which a plus sign stands before or not.
fn main_number(
    db: &Plans,
    territory: Option<&Territory>,
    has_plus: bool,
    digits: &str,
) -> Result<MainNumber, ParseError>
    ensures { (result ≡ Err ParseError.Memory) ⊎ ((extension : Option (List ℕ)) →
        result_map_both (read_as extension) (λ e. e) result ≡
        reading_under db.now (option_copied territory.entry) (record {
          has_plus = has_plus;
          digits = digits.now;
          extension = extension;
        })) }
{
    let coded = code_in(db, territory, has_plus, digits)?;
    let numbered = after_code(db, territory, &coded);
    in_place_of(coded, numbered)
}

/// The number of a calling code and the digits that follow it.
fn after_code(
    db: &Plans,
    territory: Option<&Territory>,
    coded: &Coded<'_>,
) -> Result<MainNumber, ParseError>
    ensures { (result ≡ Err ParseError.Memory) ⊎ ((extension : Option (List ℕ)) →
        result_map_both (read_as extension) (λ e. e) result ≡
        after_code db.now (option_copied territory.entry) extension (told coded.now)) }
{
    let digits = coded.rest.as_str();
    if digits.len() < MIN_LENGTH_FOR_NSN {
        return Err(ParseError::TooShortNsn);
    }
    let left = left_after_code(stripping_territory(db, territory, coded), digits)?;
    let numbered = reading_of_left(db.allocator(), coded, digits, &left);
    in_place_of(left, numbered)
}

/// The number of a calling code and of what stripping left of the digits after it.
fn reading_of_left(
    alloc: Global,
    coded: &Coded<'_>,
    digits: &str,
    left: &Option<Left<'_>>,
) -> Result<MainNumber, ParseError>
    ensures { (result ≡ Err ParseError.Memory) ⊎ ((extension : Option (List ℕ)) →
        result_map_both (read_as extension) (λ e. e) result ≡
        reading_of (told coded.now) extension (left_of digits.now left.now)) }
{
    match left {
        Some(left) => reading_of(alloc, coded, left.national.as_str(), left.carrier),
        None => reading_of(alloc, coded, digits, None),
    }
}

/// The territory by whose rules digits after a code are stripped: the hint's where no code was cut
/// off, else the code's first.
fn stripping_territory<'d>(
    db: &'d Plans,
    territory: Option<&'d Territory>,
    coded: &Coded<'_>,
) -> Option<&'d Territory>
    ensures { option_copied result ≡
        stripping_territory db.entry.now (option_copied territory.entry) (told coded.now) }
{
    match coded.source {
        Source::Default => territory,
        _ => db.first_by_code(&coded.value),
    }
}

/// What a territory's stripping leaves of digits; none where they stay.
fn left_after_code<'a>(
    territory: Option<&Territory>,
    digits: &'a str,
) -> Result<Option<Left<'a>>, AllocError>
    ensures { IfOk result (λ left. left_of digits.entry.now left ≡
        stripped (option_copied territory.entry) digits.entry.now) }
{
    match territory {
        Some(m) => strip_national_prefix(m, digits),
        None => Ok(None),
    }
}

/// The number of a calling code, national digits, and a carrier.
fn reading_of(
    alloc: Global,
    coded: &Coded<'_>,
    digits: &str,
    carrier: Option<&str>,
) -> Result<MainNumber, ParseError>
    ensures { (result ≡ Err ParseError.Memory) ⊎ ((extension : Option (List ℕ)) →
        result_map_both (read_as extension) (λ e. e) result ≡
        reading_of (told coded.now) extension (record {
          national = digits.now;
          carrier = option_copied carrier.entry;
        })) }
{
    let national = national_number(digits)?;
    let carrier = carrier_of(alloc, carrier)?;
    Ok(MainNumber {
        code: Code::new(coded.value, coded.source),
        national,
        carrier,
    })
}

/// The carrier of a text, if there is one. Refused only for memory.
fn carrier_of(alloc: Global, text: Option<&str>) -> Result<Option<Carrier>, AllocError>
    ensures { IfOk result (λ carrier. carrier ≡ option_copied text.entry) }
{
    match text {
        Some(text) => Ok(Some(Carrier::from(String::from_str(alloc, text)?))),
        None => Ok(None),
    }
}

/// The national number of a text of 2 to 17 digits from `0` to `9`. The zeros before the last digit
/// are leading zeros, so zeros alone are a number of value 0.
///
/// `TooShortNsn` where the text has fewer than 2 bytes; `TooLong` where it has more than 17, or a
/// value of 2^56 or more; `MalformedInteger` where what follows the zeros is no number. It takes no
/// memory.
pub fn national_number(digits: &str) -> Result<NationalNumber, ParseError>
    ensures { result ≡ national_number digits.now }
{
    if digits.len() < MIN_LENGTH_FOR_NSN {
        return Err(ParseError::TooShortNsn);
    }
    if digits.len() > MAX_LENGTH_FOR_NSN {
        return Err(ParseError::TooLong);
    }
    if without_zeros(digits).is_empty() {
        return NationalNumber::new(0, (digits.len() - 1) as u8);
    }
    digits.parse::<NationalNumber>()
}
