//! Why a text is no number.
ghost use Rattle.std.specs.Prelude.{◌≡◌, ◌↔◌, Some};
ghost use Rattle.phone_values.specs.Refusals.{refusal_number, refusal_words, report_words};
ghost use Rattle.phone_values.specs.declared.error.ParseError.{ParseError};

use std::alloc::AllocError;
use std::error::Error;
use std::fmt;

/// Why a text was not read as a number.
#[derive(Clone, PartialEq, Eq, Debug, Drop)]
pub enum ParseError {
    /// No reader takes the text, or its national part is not viable.
    NoNumber,

    /// The calling code is listed nowhere, or there is none and the hint gives none.
    InvalidCountryCode,

    /// At most two digits follow a plus sign or an international prefix: by libphonenumber's rules
    /// alone. The original's reading answers `TooShortNsn` there.
    TooShortAfterIdd,

    /// At most two digits stand behind a sign or an international prefix, or beside a prefix from
    /// the `tel:` form; or fewer than two are left for the national number.
    TooShortNsn,

    /// More digits than a national number may have, more than 255 zeros before its value, or a
    /// value of more than 56 bits.
    TooLong,

    /// A national text that is no number, as that of zeros alone, or a prefix from the `tel:` form
    /// that is none below 65536.
    MalformedInteger,

    /// Memory was refused.
    Memory,
}

impl ParseError {
    /// The refusal's number, 1 to 7 in the order in which they are declared. Reports, the contact
    /// book's rows and the calls for C have it.
    pub fn number(&self) -> u8
        ensures { result ≡ refusal_number self.now }
    {
        match self {
            ParseError::NoNumber => 1,
            ParseError::InvalidCountryCode => 2,
            ParseError::TooShortAfterIdd => 3,
            ParseError::TooShortNsn => 4,
            ParseError::TooLong => 5,
            ParseError::MalformedInteger => 6,
            ParseError::Memory => 7,
        }
    }

    /// The refusal of this number; none where it isn't 1 to 7.
    pub fn with_number(number: u8) -> Option<ParseError>
        ensures { (e : ParseError) → (result ≡ Some e) ↔ (number ≡ refusal_number e) }
    {
        match number {
            1 => Some(ParseError::NoNumber),
            2 => Some(ParseError::InvalidCountryCode),
            3 => Some(ParseError::TooShortAfterIdd),
            4 => Some(ParseError::TooShortNsn),
            5 => Some(ParseError::TooLong),
            6 => Some(ParseError::MalformedInteger),
            7 => Some(ParseError::Memory),
            _ => None,
        }
    }

    /// The refusal's words, by which it is displayed.
    pub fn words(&self) -> &'static str
        ensures { result.now ≡ refusal_words self.now }
    {
        match self {
            ParseError::NoNumber => "not a number",
            ParseError::InvalidCountryCode => "invalid country code",
            ParseError::TooShortAfterIdd => "the number is too short after IDD",
            ParseError::TooShortNsn => "the number is too short after the country code",
            ParseError::TooLong => "the number is too long",
            ParseError::MalformedInteger => "malformed integer part in phone number",
            ParseError::Memory => "out of memory",
        }
    }

    /// The refusal's words in a report and a table: `words`, but for `MalformedInteger`, which is
    /// shorter there.
    pub fn report_words(&self) -> &'static str
        ensures { result.now ≡ report_words self.now }
    {
        match self {
            ParseError::MalformedInteger => "malformed integer",
            other => other.words(),
        }
    }
}

impl fmt::Display for ParseError {
    ghost use Rattle.std.specs.Prelude.{Some};
    ghost use Rattle.phone_values.specs.Refusals.{refusal_words};

    ghost output = { λ e. Some (refusal_words e) };

    /// Writes the refusal's words.
    fn fmt<W: fmt::Write>(&self, f: &mut fmt::Formatter<W>) -> fmt::Result {
        f.write_str(self.words())
    }
}

impl Error for ParseError {}

impl From<AllocError> for ParseError {
    ghost use Rattle.std.specs.Prelude.{◌≡◌};
    ghost use Rattle.phone_values.specs.declared.error.ParseError.TheVariants as error;

    ghost from_gives = { λ _ e. e ≡ error.Memory };

    fn from(_: AllocError) -> ParseError {
        ParseError::Memory
    }
}
