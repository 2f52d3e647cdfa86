//! The doubts about a field, and their words.
ghost use Rattle.std.specs.Prelude.{◌≡◌, filter, if◌then◌else◌, IfOk, map, OnOk, string_bytes};
ghost use Rattle.phone_doubts.specs.Doubts.{spaced, word_of, words_of};
ghost use Rattle.phone_doubts.specs.Words.{behind, holds};

use std::alloc::{AllocError, Global};

/// What makes a field suspicious.
#[derive(Clone, Copy, PartialEq, Eq, Debug)]
pub enum Doubt {
    /// A spreadsheet's float: `4930123437.0`, `6.4E+10`.
    Float,

    /// The number's own calling code, without a plus sign, was read as a part of the number.
    NoPlus,

    /// Brackets around a zero behind a calling code: `+39 (0)312`.
    ZeroInBrackets,

    /// Letters that became digits: `1-800-FLOWERS`.
    Letters,

    /// Two numbers in one field, each of which alone is read as a valid number.
    TwoNumbers,

    /// A date: `3.10.1984`, `1984-10-03`.
    Date,

    /// No valid number was read, and with the national prefix in front it would be one; with a
    /// zero, where the region has no such prefix.
    ZeroLost,

    /// The number is of a region other than the hint.
    OtherRegion,
}

impl Doubt {
    /// All of them, in the order in which they are told.
    pub const ALL: [Doubt; 8] = [
        Doubt::Float,
        Doubt::NoPlus,
        Doubt::ZeroInBrackets,
        Doubt::Letters,
        Doubt::TwoNumbers,
        Doubt::Date,
        Doubt::ZeroLost,
        Doubt::OtherRegion,
    ];

    /// Its word: small letters, and hyphens between.
    pub fn word(self) -> &'static str
        ensures { result.now ≡ word_of self }
    {
        match self {
            Doubt::Float => "float",
            Doubt::NoPlus => "no-plus",
            Doubt::ZeroInBrackets => "zero-in-brackets",
            Doubt::Letters => "letters",
            Doubt::TwoNumbers => "two-numbers",
            Doubt::Date => "date",
            Doubt::ZeroLost => "zero-lost",
            Doubt::OtherRegion => "other-region",
        }
    }
}

/// Which doubts there are about a field.
#[derive(Clone, Copy, PartialEq, Eq, Debug)]
pub struct Doubts {
    /// It is a float.
    pub float: bool,
    /// Its plus sign is missing.
    pub no_plus: bool,
    /// It has a zero in brackets behind the calling code.
    pub zero_in_brackets: bool,
    /// Letters became digits.
    pub letters: bool,
    /// It is two numbers.
    pub two_numbers: bool,
    /// It is a date.
    pub date: bool,
    /// Its zero is missing.
    pub zero_lost: bool,
    /// The number is of another region.
    pub other_region: bool,
}

impl Doubts {
    /// Whether this doubt is one of them.
    pub fn holds(self, doubt: Doubt) -> bool
        ensures { result ≡ holds self doubt }
    {
        match doubt {
            Doubt::Float => self.float,
            Doubt::NoPlus => self.no_plus,
            Doubt::ZeroInBrackets => self.zero_in_brackets,
            Doubt::Letters => self.letters,
            Doubt::TwoNumbers => self.two_numbers,
            Doubt::Date => self.date,
            Doubt::ZeroLost => self.zero_lost,
            Doubt::OtherRegion => self.other_region,
        }
    }

    /// Their words, parted by a space, in the order of [`Doubt::ALL`]; an empty text where there
    /// is none. Refused only for memory.
    pub fn words(self, alloc: Global) -> Result<String, AllocError>
        ensures { IfOk result (λ text. string_bytes text ≡ words_of (holds self)) }
    {
        self.words_among(alloc, &Doubt::ALL)
    }

    /// The words of those that are among these, parted by a space. Refused only for memory.
    fn words_among(self, alloc: Global, doubts: &[Doubt]) -> Result<String, AllocError>
        ensures { IfOk result (λ text. string_bytes text ≡
            spaced (map word_of (filter (holds self) doubts.now))) }
    {
        let mut text = String::new(alloc);
        for doubt in doubts {
            push_word(&mut text, self.holds(*doubt), doubt.word())?;
        }
        Ok(text)
    }
}

/// Puts a word behind others, and a space between, where this holds. Refused only for memory.
fn push_word(text: &mut String, holds: bool, word: &str) -> Result<(), AllocError>
    ensures { OnOk result (string_bytes text.new ≡
        (if holds then behind (string_bytes text.old) word.now else string_bytes text.old)) }
{
    if holds {
        put_behind(text, word)?;
    }
    Ok(())
}

/// Puts a word behind others, and a space between. Refused only for memory.
fn put_behind(text: &mut String, word: &str) -> Result<(), AllocError>
    ensures { OnOk result (string_bytes text.new ≡ behind (string_bytes text.old) word.now) }
{
    if !text.is_empty() {
        text.push(' ')?;
    }
    text.push_str(word)
}
