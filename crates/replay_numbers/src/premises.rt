//! Whether a number lies within the premises under which its text in a mode is read back, decided
//! by code of its own and not by reading a text.
use crate::given::with_extension;
use anyhow::{Result, anyhow};
use phone_base::results::zip;
use phone_chars::chars::{is_digit, is_punctuation, is_separator};
use phone_meta::Database;
use phone_plans::Territory;
use phone_read::Number;
use phone_read::helper::national_number;
use phone_read::validator::{length_of, territory_of};
use phone_values::consts::{MAX_LENGTH_FOR_NSN, MIN_LENGTH_FOR_NSN};
use phone_values::{Mode, Type, Validation};
use phonenumber::{FormatError, PhoneNumber, format_with};
use replay_base::table::Row;
use replay_base::words::{mode, truth};
use std::alloc::{AllocError, Global};

/// The least digits of a national number that is printed after RFC 3966.
const LEAST_AFTER_A_HYPHEN: usize = 3;

/// The most digits of an extension in an international text.
const MOST_OF_AN_EXTENSION: usize = 7;

/// The greatest calling code that is found at the front of digits.
const GREATEST_CODE: u16 = 999;

/// Whether a line's number is plain for a mode, whether an extension of it is announced in a way
/// that free text knows, whether stripping leaves its digits alone, or whether it keeps all
/// premises of the mode; none for any other call. An error where a line names a mode that isn't
/// there or gives a number that is none.
pub fn answer(alloc: Global, row: &Row, db: &Database) -> Result<Option<String>> {
    match row.call() {
        "plain" | "premises" => Ok(Some(in_mode(alloc, row, &Premises::under(db))?)),
        "benign" | "idle" => Ok(Some(in_any_mode(alloc, row, &Premises::under(db))?)),
        _ => Ok(None),
    }
}

/// What holds of a line's number in the mode that the line names.
fn in_mode(alloc: Global, row: &Row, premises: &Premises<'_>) -> Result<String> {
    let (mode, number) = zip(mode(row.argument(5)), with_extension(alloc, row))?;
    let holds = if row.call() == "plain" {
        premises.is_plain(mode, &number)
    } else {
        premises.hold(mode, &number)
    };
    truth_words(alloc, holds)
}

/// What holds of a line's number in any mode.
fn in_any_mode(alloc: Global, row: &Row, premises: &Premises<'_>) -> Result<String> {
    let number = with_extension(alloc, row)?;
    let holds = if row.call() == "benign" {
        premises.is_benign(&number)
    } else {
        premises.are_idle(&number)
    };
    truth_words(alloc, holds)
}

/// Whether something holds, as the table writes it.
fn truth_words(alloc: Global, holds: Result<bool>) -> Result<String> {
    truth(alloc, holds?)
}

/// The premises under a database.
#[derive(Clone, Copy)]
pub struct Premises<'a> {
    database: &'a Database,
    is_prefix_free: bool,
}

impl<'a> Premises<'a> {
    /// The premises under this database, which is asked once whether one of its codes begins
    /// another.
    pub fn under(database: &'a Database) -> Premises<'a> {
        let is_prefix_free = database.codes_prefix_free();
        Premises {
            database,
            is_prefix_free,
        }
    }

    /// The database.
    pub fn database(&self) -> &'a Database {
        self.database
    }

    /// Whether the number lies within the premises of this mode; no number does for national text.
    /// An error where memory is refused.
    pub fn hold(&self, mode: Mode, number: &PhoneNumber) -> Result<bool> {
        let is_told = match mode {
            Mode::E164 => self.is_found(number),
            Mode::Rfc3966 => true,
            Mode::International => self.is_found(number) && self.is_announced(number)?,
            Mode::National => false,
        };
        Ok(is_told && self.is_plain(mode, number)? && self.are_idle(number)?)
    }

    /// Whether the number is plain for this mode: its code is listed, its digits are enough and not
    /// too many, and what the mode writes beside them is digits and separators. An error where
    /// memory is refused.
    pub fn is_plain(&self, mode: Mode, number: &PhoneNumber) -> Result<bool> {
        if self
            .database
            .first_by_code(&number.code().value())
            .is_none()
        {
            return Ok(false);
        }
        let digits = number.national().to_string(self.database.allocator())?;
        let digits = digits.as_str();
        match mode {
            Mode::E164 => Ok(is_long_enough(number, digits, MIN_LENGTH_FOR_NSN)),
            Mode::Rfc3966 => self.is_plain_rfc3966(number, digits),
            Mode::International => self.is_plain_international(number, digits),
            Mode::National => Ok(false),
        }
    }

    /// Whether the number is plain for the text of RFC 3966.
    fn is_plain_rfc3966(&self, number: &PhoneNumber, digits: &str) -> Result<bool> {
        if !is_long_enough(number, digits, LEAST_AFTER_A_HYPHEN) || !has_digits(number) {
            return Ok(false);
        }
        let laid = self.laid_out(number)?;
        let kept = laid.as_str().chars().filter(|c| !is_separator(*c));
        Ok(kept.eq(digits.chars()))
    }

    /// Whether the number is plain for the international text.
    fn is_plain_international(&self, number: &PhoneNumber, digits: &str) -> Result<bool> {
        let is_told = is_long_enough(number, digits, MIN_LENGTH_FOR_NSN) && is_short(number);
        if !is_told || !has_digits(number) {
            return Ok(false);
        }
        let laid = self.laid_out(number)?;
        let laid = laid.as_str();
        let kept = laid.chars().filter(|c| !is_punctuation(*c));
        Ok(!laid.chars().any(is_indicator) && kept.eq(digits.chars()))
    }

    /// The national number as international text lays it out: what stands after plus sign, code and
    /// space in the text of the number without its extension.
    fn laid_out(&self, number: &PhoneNumber) -> Result<String> {
        let alloc = self.database.allocator();
        let bare = PhoneNumber::from_parts(*number.code(), *number.national(), None, None);
        let printer = format_with(self.database, &bare).mode(Mode::International);
        laid_out_in(alloc, number.code().value(), &printer.to_text(alloc))
    }

    /// Whether the code ends where it ends in digits alone.
    pub fn is_found(&self, number: &PhoneNumber) -> bool {
        let code = number.code().value();
        1 <= code && code <= GREATEST_CODE && self.is_prefix_free
    }

    /// Whether the extension, if there is one, is announced in a way that free text knows. An error
    /// where memory is refused.
    pub fn is_announced(&self, number: &PhoneNumber) -> Result<bool> {
        if number.extension().is_none() {
            return Ok(true);
        }
        self.is_benign(number)
    }

    /// Whether free text knows how an extension of the number is announced: its territory has no
    /// prefix of its own for that, or one of the benign prefixes, right behind an ASCII digit. An
    /// error where memory is refused.
    pub fn is_benign(&self, number: &PhoneNumber) -> Result<bool> {
        let Some(territory) = self.database.first_by_code(&number.code().value()) else {
            return Ok(false);
        };
        if territory.preferred_extension_prefix().is_none() {
            return Ok(true);
        }
        let laid = self.laid_out(number)?;
        Ok(territory.has_benign_prefix() && ends_in_digit(laid.as_str()))
    }

    /// Whether stripping leaves the digits of the number alone. An error where memory is refused.
    pub fn are_idle(&self, number: &PhoneNumber) -> Result<bool> {
        let digits = number.national().to_string(self.database.allocator())?;
        Ok(is_idle(self.database, number.code().value(), digits.as_str())?)
    }
}

/// What stands after plus sign, code and space in the international text of a number of this code.
fn laid_out_in(alloc: Global, code: u16, text: &Result<String, FormatError>) -> Result<String> {
    match text {
        Ok(text) => behind_code(alloc, code, text.as_str()),
        Err(FormatError::UnknownCode) => Err(anyhow!("a listed code isn't printed")),
        Err(FormatError::Memory) => Err(anyhow!("out of memory")),
    }
}

/// What stands in a text after plus sign, this code and space.
fn behind_code(alloc: Global, code: u16, text: &str) -> Result<String> {
    let front = format!(in alloc; "+{code} ")?;
    behind(alloc, front.as_str(), text)
}

/// What stands in a text behind its front.
fn behind(alloc: Global, front: &str, text: &str) -> Result<String> {
    match text.strip_prefix(front) {
        Some(laid) => Ok(String::from_str(alloc, laid)?),
        None => Err(anyhow!("an international text without its code")),
    }
}

/// Whether the value isn't 0 and there are at least so many digits, and no more than a national
/// number has.
fn is_long_enough(number: &PhoneNumber, digits: &str, least: usize) -> bool {
    let count = digits.len();
    number.national().value() != 0 && least <= count && count <= MAX_LENGTH_FOR_NSN
}

/// Whether the extension, if there is one, is digits alone, possibly none.
fn has_digits(number: &PhoneNumber) -> bool {
    match number.extension() {
        Some(extension) => extension.as_str().chars().all(is_digit),
        None => true,
    }
}

/// Whether the extension, if there is one, is short enough for international text.
fn is_short(number: &PhoneNumber) -> bool {
    match number.extension() {
        Some(extension) => extension.as_str().len() <= MOST_OF_AN_EXTENSION,
        None => true,
    }
}

/// Whether a text ends in an ASCII digit.
fn ends_in_digit(text: &str) -> bool {
    match text.chars().next_back() {
        Some(last) => is_digit(last),
        None => false,
    }
}

/// Whether a character announces an extension: `x`, or one of two tildes.
fn is_indicator(c: char) -> bool {
    matches!(c, 'x' | '~' | '\u{FF5E}')
}

/// Whether stripping leaves the digits of a number of this code alone, where it is read without a
/// hint: without their leading zeros they belong to no territory, or the rules of the territory
/// that they belong to leave them all. Refused only for memory.
pub fn is_idle(database: &Database, code: u16, digits: &str) -> Result<bool, AllocError> {
    match territory_of(database, code, digits.trim_start_matches('0'))? {
        Some(territory) => leaves_all(territory, digits),
        None => Ok(true),
    }
}

/// Whether a territory's rules leave all digits: national prefix and carrier are cut off in one
/// step, then the national prefix once more, and all digits stay where too few would be left.
pub fn leaves_all(territory: &Territory, digits: &str) -> Result<bool, AllocError> {
    let stepped = national_number(territory, Number::of(digits))?;
    let left = without_prefix(territory, stepped.national.as_str());
    let verdict = length_of(territory, left.len(), Type::Unknown);
    Ok(left == digits || matches!(verdict, Validation::TooShort))
}

/// The digits without the national prefix of a territory, where it has one and they begin with it.
fn without_prefix<'a>(territory: &Territory, digits: &'a str) -> &'a str {
    match territory.national_prefix() {
        Some(prefix) => digits.strip_prefix(prefix).unwrap_or(digits),
        None => digits,
    }
}
