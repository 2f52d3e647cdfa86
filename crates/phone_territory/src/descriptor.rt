//! What the numbers of one kind look like, with its pattern read.
ghost use Rattle.std.specs.Prelude.{◌≡◌, ◌==◌, [], false, length, None, Some, Ok, IfOk, IfErr};
ghost use Rattle.std.specs.List.{AllByRecursion, list_any};
ghost use Rattle.std.specs.Option.{IsSome, option_copied};
ghost use Rattle.phone_territory.specs.First.{IsPattern};
ghost use Rattle.phone_territory.specs.Kinds.{AreWhole, kinds_in};
ghost use Rattle.phone_records.specs.Missing.{missing_in_descriptor};
ghost use Rattle.phone_territory.specs.Refusals.{AreRead, IsPatternRefusal};
ghost use Rattle.phone_territory.specs.Refusals.{patterns_in_descriptor, with_four};
ghost use Rattle.phone_territory.specs.Records.{allows_length, matches, pattern_of};

use crate::by_kind::{ByKind, Given, OfRecord};
use crate::lent;
use crate::loader::{self, Text};
use phone_base::results::zip;
use phone_pattern::{Pattern, Pool, Subject};
use phone_records::LoadMetadata;
use std::alloc::AllocError;
use std::marker::Model;

/// The numbers of one kind in a territory: their lengths and their pattern.
#[derive(Drop)]
pub struct Descriptor {
    national_number: Pattern,
    possible_length: Vec<u16>,
    possible_local_length: Vec<u16>,
    example: Option<Text>,
}

impl Model for Descriptor {
    ghost use Rattle.std.specs.Prelude.{Some};
    ghost use Rattle.phone_records.specs.declared.loader.Descriptor as loader;

    ghost Value = { loader.Descriptor };

    ghost view = { λ d. record {
      national_number = Some d.national_number;
      possible_length = d.possible_length.items;
      possible_local_length = d.possible_local_length.items;
      example = d.example;
    } };
}

impl Descriptor {
    /// Compiles a record, whose pattern must be there.
    pub fn compile(pool: &Pool, given: loader::Descriptor) -> Result<Descriptor, LoadMetadata>
        requires { missing_in_descriptor (Some given) ≡ None }
        ensures compiled { IfOk result (λ d. d ≡ given) }
        ensures read { IfOk result (λ d.
            AllByRecursion IsPattern (patterns_in_descriptor (Some given))) }
        ensures refused { IfErr result (IsPatternRefusal (patterns_in_descriptor (Some given))) }
    {
        let lengths = given.possible_length.into_vec();
        let local_lengths = given.possible_local_length.into_vec();
        let pattern = pool.pattern(given.national_number.unwrap());
        let (others, national_number) = zip(Ok((lengths, local_lengths, given.example)), pattern)?;
        let (possible_length, possible_local_length, example) = others;
        Ok(Descriptor {
            national_number,
            possible_length,
            possible_local_length,
            example,
        })
    }

    /// The pattern of the numbers' digits.
    pub fn pattern(&self) -> &Pattern
        ensures { result.now ≡ pattern_of self.now }
    {
        &self.national_number
    }

    /// The text of that pattern.
    pub fn pattern_text(&self) -> &str
        ensures { result.now ≡ pattern_of self.now }
    {
        self.national_number.as_str()
    }

    /// How many digits the numbers may have. An empty list sets `is_match` no limit, but gives each
    /// length the verdict `InvalidLength`.
    pub fn possible_length(&self) -> &[u16]
        ensures { result.now ≡ self.now.possible_length }
    {
        self.possible_length.as_slice()
    }

    /// How many digits suffice for dialling inside an area.
    pub fn possible_local_length(&self) -> &[u16]
        ensures { result.now ≡ self.now.possible_local_length }
    {
        self.possible_local_length.as_slice()
    }

    /// An example of such a number.
    pub fn example(&self) -> Option<&str>
        ensures { option_copied result ≡ self.now.example }
    {
        lent::text(&self.example)
    }

    /// Whether a text is such a number: the list of possible lengths is empty or has the text's
    /// length in bytes, and the pattern's first match begins at the first byte. It need not reach
    /// the end. The length is asked first, so where it decides nothing is searched, and nothing
    /// refused. Else refused only for memory.
    pub fn is_match(&self, text: &str) -> Result<bool, AllocError>
        ensures matched { IfOk result (λ b. b ≡ matches self.now text.now) }
        ensures unsearched { allows_length self.now (length text.now) ≡ false → result ≡ Ok false }
    {
        if !self.allows_length(text.len()) {
            return Ok(false);
        }
        self.national_number.is_at_start(text)
    }

    /// The same of a text of which it is known whether it is of digits.
    pub fn is_match_in(&self, subject: &Subject<'_>) -> Result<bool, AllocError>
        ensures matched { IfOk result (λ b. b ≡ matches self.now subject.now) }
        ensures unsearched { allows_length self.now (length subject.now) ≡ false →
            result ≡ Ok false }
    {
        if !self.allows_length(subject.as_str().len()) {
            return Ok(false);
        }
        self.national_number.is_at_start_in(subject)
    }

    /// Whether a number may have so many digits: the list of possible lengths is empty, or has this
    /// one. No memory is taken.
    #[inline]
    pub fn allows_length(&self, length: usize) -> bool
        ensures { result ≡ allows_length self.now length }
    {
        self.possible_length.is_empty() || lists(self.possible_length(), length)
    }
}

fn lists(lengths: &[u16], length: usize) -> bool
    ensures { result ≡ list_any (λ n. n == length) lengths.now }
{
    lengths.iter().any(|&n| usize::from(n) == length)
}

impl OfRecord for Descriptor {
    ghost told = { λ d. d };

    fn compile(pool: &Pool, given: loader::Descriptor) -> Result<Descriptor, LoadMetadata> {
        Descriptor::compile(pool, given)
    }
}

/// What the numbers of each kind look like in a territory. Contracts see the records.
pub type Descriptors = ByKind<Descriptor>;

/// Compiles the descriptors of a territory's record: the general one is given, and none lacks its
/// pattern.
pub(crate) fn compile(
    pool: &Pool,
    given: (Given, Given, Given, Given),
) -> Result<Descriptors, LoadMetadata>
    requires general { IsSome given.0.0 }
    requires whole { AreWhole given.0 × AreWhole given.1 × AreWhole given.2 × AreWhole given.3 }
    ensures compiled { IfOk result (λ d. d ≡ kinds_in given) }
    ensures read { AreRead
        (with_four given.0 (with_four given.1 (with_four given.2 (with_four given.3 []))))
        result }
{
    Descriptors::compile(pool, given)
}
