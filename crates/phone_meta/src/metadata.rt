//! A territory, with its patterns compiled.
ghost use Rattle.std.specs.Prelude.{◌≡◌, None, IfOk};
ghost use Rattle.phone_meta.specs.Compiled.{IsOfRecord};
ghost use Rattle.phone_records.specs.Missing.{missing_in};
ghost use Rattle.phone_territory.specs.First.{IsLentPattern};
ghost use Rattle.phone_territory.specs.Kinds.{kinds_of};
ghost use Rattle.phone_territory.specs.Refusals.{AreRead, patterns_in};

use crate::descriptor::{self, Descriptors};
use crate::format::Format;
use crate::patterns::{self, Patterns};
use phone_base::results::zip;
use phone_pattern::Pool;
use phone_territory::loader::{self, TryCopy};
use phone_territory::results::zip_read;
use phone_territory::{Compile, LoadMetadata, Territory};
use regex::Regex;
use std::marker::Model;
use std::ops::Deref;

/// All that is known of a territory, with its patterns compiled. Contracts see the record.
#[derive(Drop)]
pub struct Metadata {
    light: Territory,
    descriptors: Descriptors,
    patterns: Patterns,
}

impl Model for Metadata {
    ghost use Rattle.phone_meta.specs.Compiled.{IsOfRecord};
    ghost use Rattle.phone_records.specs.declared.loader.Metadata as loader;

    ghost Value = { loader.Metadata };

    ghost view = { λ m. m.light };

    ghost invariant = { λ m. IsOfRecord m.light m.descriptors m.patterns };
}

impl Deref for Metadata {
    type Target = Territory;

    ghost use Rattle.std.specs.Prelude.{◌≡◌};

    ghost deref_gives = { λ m light. light ≡ m };

    fn deref(&self) -> &Territory {
        &self.light
    }
}

/// The light territory of a copy of a record, which lacks nothing.
fn light(pool: &Pool, given: &loader::Metadata) -> Result<Territory, LoadMetadata>
    requires { missing_in given.now ≡ None }
    ensures compiled { IfOk result (λ t. t ≡ given.now) }
    ensures read { AreRead (patterns_in given.now) result }
{
    Territory::compile(pool, given.try_copy(pool.allocator())?)
}

/// What is compiled of a record, which lacks nothing, besides its light territory.
fn compile_parts(
    pool: &Pool,
    given: loader::Metadata,
) -> Result<(Descriptors, Patterns), LoadMetadata>
    requires { missing_in given ≡ None }
    ensures compiled { IfOk result (λ all. IsOfRecord given all.0 all.1) }
    ensures read { AreRead (patterns_in given) result }
{
    let descriptors = descriptor::compile(
        pool,
        (
            (
                given.general,
                given.fixed_line,
                given.mobile,
                given.toll_free,
            ),
            (
                given.premium_rate,
                given.shared_cost,
                given.personal_number,
                given.voip,
            ),
            (given.pager, given.uan, given.emergency, given.voicemail),
            (
                given.short_code,
                given.standard_rate,
                given.carrier,
                given.no_international,
            ),
        ),
    );
    let patterns = Patterns::compile(
        pool,
        given.international_prefix,
        given.national_prefix_for_parsing,
        given.leading_digits,
        given.formats.into_vec(),
        given.international_formats.into_vec(),
    );
    let (descriptors, patterns) = zip_read(descriptors, patterns)?;
    Ok((descriptors, patterns))
}

impl Compile for Metadata {
    ghost use Rattle.phone_territory.specs.Refusals.{patterns_in};
    ghost use Rattle.phone_records.specs.Missing.{missing_in};

    type Record = loader::Metadata;

    ghost missing = { missing_in };

    ghost patterns = { patterns_in };

    ghost record_of = { λ m. m };

    /// Compiles a record that lacks nothing.
    fn compile(pool: &Pool, given: loader::Metadata) -> Result<Metadata, LoadMetadata> {
        let light = light(pool, &given);
        let (light, (descriptors, patterns)) = zip(light, compile_parts(pool, given))?;
        Ok(Metadata {
            light,
            descriptors,
            patterns,
        })
    }
}

impl Metadata {
    /// The descriptors, by kind.
    pub fn descriptors(&self) -> &Descriptors
        ensures { result.now ≡ kinds_of self.now }
    {
        &self.descriptors
    }

    /// The pattern of what is dialled before a calling code.
    pub fn international_prefix(&self) -> Option<&Regex>
        ensures { IsLentPattern self.now.international_prefix result }
    {
        patterns::lent(&self.patterns.international_prefix)
    }

    /// The pattern of what may stand before a national number and is taken off.
    pub fn national_prefix_for_parsing(&self) -> Option<&Regex>
        ensures { IsLentPattern self.now.national_prefix_for_parsing result }
    {
        patterns::lent(&self.patterns.national_prefix_for_parsing)
    }

    /// The layouts of national text.
    pub fn formats(&self) -> &[Format]
        ensures { result.now ≡ self.now.formats }
    {
        self.patterns.formats.as_slice()
    }

    /// The layouts of international text.
    pub fn international_formats(&self) -> &[Format]
        ensures { result.now ≡ self.now.international_formats }
    {
        self.patterns.international_formats.as_slice()
    }

    /// The pattern of digits that tell the territory from others of its calling code.
    pub fn leading_digits(&self) -> Option<&Regex>
        ensures { IsLentPattern self.now.leading_digits result }
    {
        patterns::lent(&self.patterns.leading_digits)
    }
}
