//! What the numbers of one kind look like, with its pattern compiled.
ghost use Rattle.std.specs.Prelude.{◌≡◌, [], IfOk};
ghost use Rattle.std.specs.Option.{IsSome};
ghost use Rattle.phone_territory.specs.First.{IsPatternOf};
ghost use Rattle.phone_territory.specs.Kinds.{AreWhole, kinds_in};
ghost use Rattle.phone_territory.specs.Records.{pattern_of};
ghost use Rattle.phone_territory.specs.Refusals.{AreRead, with_four};

use phone_base::results::zip;
use phone_pattern::{Compiled, Pool};
use phone_territory::{ByKind, Given, LoadMetadata, OfRecord, loader};
use regex::Regex;
use std::marker::Model;
use std::ops::Deref;

/// The numbers of one kind in a territory, with their pattern compiled. Contracts see the record.
#[derive(Drop)]
pub struct Descriptor {
    light: phone_territory::Descriptor,
    national_number: Compiled,
}

impl Model for Descriptor {
    ghost use Rattle.std.specs.Prelude.{◌≡◌};
    ghost use Rattle.phone_territory.specs.Records.{pattern_of};
    ghost use Rattle.phone_records.specs.declared.loader.Descriptor as loader;

    ghost Value = { loader.Descriptor };

    ghost view = { λ d. d.light };

    ghost invariant = { λ d. d.national_number ≡ pattern_of d.light };
}

impl Deref for Descriptor {
    type Target = phone_territory::Descriptor;

    ghost use Rattle.std.specs.Prelude.{◌≡◌};

    ghost deref_gives = { λ d light. light ≡ d };

    fn deref(&self) -> &phone_territory::Descriptor {
        &self.light
    }
}

impl OfRecord for Descriptor {
    ghost told = { λ d. d };

    fn compile(pool: &Pool, given: loader::Descriptor) -> Result<Descriptor, LoadMetadata> {
        let light = phone_territory::Descriptor::compile(pool, given)?;
        let pattern = Compiled::new(pool, light.pattern_text());
        let (light, national_number) = zip(Ok(light), pattern)?;
        Ok(Descriptor {
            light,
            national_number,
        })
    }
}

impl Descriptor {
    /// The pattern of the numbers' digits.
    pub fn national_number(&self) -> &Regex
        ensures { IsPatternOf (pattern_of self.now) result.now }
    {
        self.national_number.regex()
    }
}

/// What the numbers of each kind look like in a territory, their patterns compiled. Contracts see
/// the records.
pub type Descriptors = ByKind<Descriptor>;

/// Compiles the descriptors of a territory's record: the general one is given, and none lacks its
/// pattern.
pub(crate) fn compile(
    pool: &Pool,
    given: (Given, Given, Given, Given),
) -> Result<Descriptors, LoadMetadata>
    requires general { IsSome given.0.0 }
    requires whole { AreWhole given.0 × AreWhole given.1 × AreWhole given.2 × AreWhole given.3 }
    ensures compiled { IfOk result (λ d. d ≡ kinds_in given) }
    ensures read { AreRead
        (with_four given.0 (with_four given.1 (with_four given.2 (with_four given.3 []))))
        result }
{
    Descriptors::compile(pool, given)
}
