//! The fields of an answer: a table of their names and places, and of what each tells.
ghost use Rattle.std.specs.Prelude.{◌≡◌};
ghost use Rattle.phone_answers.specs.Cells.{told_by};
ghost use Rattle.phone_answers.specs.Fields.{from_end, name_of, of_known, of_refusal, of_short};

use crate::answer::Known;
use phone_engine::words::{kind_word, region_word, validity_word};
use phone_short::ShortKind;
use phonenumber::country::Id;

/// How many fields an answer has.
pub const ANSWER_WIDTH: usize = 7;

/// A field of an answer.
#[derive(Clone, Copy, PartialEq, Eq, Debug)]
pub enum Field {
    /// The number's E.164 text.
    E164,
    /// Its text in the international mode.
    International,
    /// Its text in the national mode.
    National,
    /// Its type.
    Kind,
    /// The id of its region; a hyphen for one of no region.
    Region,
    /// `valid` or `invalid`.
    Validity,
    /// The words of a refusal; empty where there is none.
    Refusal,
}

impl Field {
    /// All of them, in their order.
    pub const ALL: [Field; ANSWER_WIDTH] = [
        Field::E164,
        Field::International,
        Field::National,
        Field::Kind,
        Field::Region,
        Field::Validity,
        Field::Refusal,
    ];

    /// Those that tell of a number, in their order.
    pub const OF_NUMBER: [Field; 6] = [
        Field::E164,
        Field::International,
        Field::National,
        Field::Kind,
        Field::Region,
        Field::Validity,
    ];

    /// Its name in a header, and in an object.
    pub fn name(self) -> &'static str
        ensures { result.now ≡ name_of self }
    {
        match self {
            Field::E164 => "e164",
            Field::International => "international",
            Field::National => "national",
            Field::Kind => "type",
            Field::Region => "region",
            Field::Validity => "validity",
            Field::Refusal => "refusal",
        }
    }

    /// Its place, counted from the end of an answer: 1 for the last field.
    pub fn from_end(self) -> usize
        ensures { result ≡ from_end self }
    {
        match self {
            Field::E164 => 7,
            Field::International => 6,
            Field::National => 5,
            Field::Kind => 4,
            Field::Region => 3,
            Field::Validity => 2,
            Field::Refusal => 1,
        }
    }

    /// What it tells of a number of which this is known.
    fn of_known<'a>(self, known: &'a Known) -> &'a str
        ensures { result.now ≡ of_known known.now self }
    {
        match self {
            Field::E164 => known.texts.e164.as_str(),
            Field::International => known.texts.international.as_str(),
            Field::National => known.texts.national.as_str(),
            Field::Kind => kind_word(known.facts.kind),
            Field::Region => region_word(known.facts.region),
            Field::Validity => validity_word(known.facts.is_valid),
            Field::Refusal => "",
        }
    }

    /// What it tells of a short number.
    fn of_short(self, region: Id, kind: ShortKind) -> &'static str
        ensures { result.now ≡ of_short region kind self }
    {
        match self {
            Field::Kind => kind.as_str(),
            Field::Region => region.as_str(),
            Field::Validity => "valid",
            _ => "",
        }
    }

    /// What it tells of a refusal by these words.
    fn of_refusal<'a>(self, words: &'a str) -> &'a str
        ensures { result.now ≡ of_refusal words.now self }
    {
        match self {
            Field::Refusal => words,
            _ => "",
        }
    }
}

/// What the fields of an answer tell of.
#[derive(Clone, Copy)]
pub(crate) enum Cells<'a> {
    /// A number, of which this is known.
    Number(&'a Known),
    /// A short number of this region.
    Short(Id, ShortKind),
    /// A refusal by these words.
    Refused(&'a str),
}

impl<'a> Cells<'a> {
    /// What a field tells.
    pub(crate) fn told(self, field: Field) -> &'a str
        ensures { result.now ≡ told_by self.entry field }
    {
        match self {
            Cells::Number(known) => field.of_known(known),
            Cells::Short(region, kind) => field.of_short(region, kind),
            Cells::Refused(words) => field.of_refusal(words),
        }
    }
}
