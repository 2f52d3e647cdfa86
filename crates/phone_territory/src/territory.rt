//! A territory, with its patterns compiled.
ghost use Rattle.std.specs.Prelude.{◌≡◌, None, Some, IfOk, IfErr, IsTrue};
ghost use Rattle.std.specs.List.{AllByRecursion, flat_map};
ghost use Rattle.std.specs.Option.{option_and_then, option_copied};
ghost use Rattle.phone_values.specs.Ids.{id_of};
ghost use Rattle.phone_territory.specs.Records.{id_of as id_text};
ghost use Rattle.phone_territory.specs.Refusals.{IsPatternRefusal, patterns_in};
ghost use Rattle.phone_territory.specs.First.{IsPattern};
ghost use Rattle.phone_territory.specs.Kinds.{kinds_of};
ghost use Rattle.phone_territory.specs.Prefixes.{is_benign_prefix};
ghost use Rattle.phone_records.specs.Missing.{first_missing};

use crate::descriptor::{self, Descriptors};
use crate::each::{self, Compile};
use crate::format::Format;
use crate::loader::{self, Text};
use crate::patterns::Patterns;
use crate::results::zip_read;
use crate::territory_id::TerritoryId;
use crate::{lent, prefixes};
use phone_pattern::{Pattern, Pool};
use phone_records::LoadMetadata;
use phone_values::country::Id;
use std::alloc::Global;
use std::marker::Model;

/// All that is known of a territory.
#[derive(Drop)]
pub struct Territory {
    alloc: Global,
    descriptors: Descriptors,
    patterns: Patterns,
    kept: CompiledParts,
}

/// What is kept of a record as it is.
#[derive(Drop)]
struct CompiledParts {
    id: TerritoryId,
    country_code: u16,
    preferred_international_prefix: Option<Text>,
    national_prefix: Option<Text>,
    preferred_extension_prefix: Option<Text>,
    national_prefix_transform_rule: Option<Text>,
    main_country_for_code: bool,
    mobile_number_portable: bool,
    defaults: loader::Defaults,
}

impl Model for Territory {
    ghost use Rattle.std.specs.Prelude.{◌≡◌, IsTrue, Some};
    ghost use Rattle.phone_records.specs.declared.loader.Metadata as loader;

    ghost Value = { loader.Metadata };

    ghost view = { λ m. record {
      general = m.descriptors.general;
      fixed_line = m.descriptors.fixed_line;
      mobile = m.descriptors.mobile;
      toll_free = m.descriptors.toll_free;
      premium_rate = m.descriptors.premium_rate;
      shared_cost = m.descriptors.shared_cost;
      personal_number = m.descriptors.personal_number;
      voip = m.descriptors.voip;
      pager = m.descriptors.pager;
      uan = m.descriptors.uan;
      emergency = m.descriptors.emergency;
      voicemail = m.descriptors.voicemail;
      short_code = m.descriptors.short_code;
      standard_rate = m.descriptors.standard_rate;
      carrier = m.descriptors.carrier;
      no_international = m.descriptors.no_international;
      id = Some m.kept.id;
      country_code = Some m.kept.country_code;
      international_prefix = m.patterns.international_prefix;
      preferred_international_prefix = m.kept.preferred_international_prefix;
      national_prefix = m.kept.national_prefix;
      preferred_extension_prefix = m.kept.preferred_extension_prefix;
      national_prefix_for_parsing = m.patterns.national_prefix_for_parsing;
      national_prefix_transform_rule = m.kept.national_prefix_transform_rule;
      formats = m.patterns.formats.items;
      international_formats = m.patterns.international_formats.items;
      main_country_for_code = m.kept.main_country_for_code;
      leading_digits = m.patterns.leading_digits;
      mobile_number_portable = m.kept.mobile_number_portable;
      defaults = m.kept.defaults;
    } };

    ghost invariant = { λ m. IsTrue m.patterns.are_alike →
        m.patterns.international_formats.items ≡ m.patterns.formats.items };
}

impl Compile for Territory {
    ghost use Rattle.phone_territory.specs.Refusals.{patterns_in};
    ghost use Rattle.phone_records.specs.Missing.{missing_in};

    type Record = loader::Metadata;

    ghost missing = { missing_in };

    ghost patterns = { patterns_in };

    ghost record_of = { λ m. m };

    /// Compiles a record that lacks nothing.
    fn compile(pool: &Pool, given: loader::Metadata) -> Result<Territory, LoadMetadata> {
        let kept = CompiledParts {
            id: TerritoryId::of(given.id.unwrap()),
            country_code: given.country_code.unwrap(),
            preferred_international_prefix: given.preferred_international_prefix,
            national_prefix: given.national_prefix,
            preferred_extension_prefix: given.preferred_extension_prefix,
            national_prefix_transform_rule: given.national_prefix_transform_rule,
            main_country_for_code: given.main_country_for_code,
            mobile_number_portable: given.mobile_number_portable,
            defaults: given.defaults,
        };
        let descriptors = descriptor::compile(
            pool,
            (
                (
                    given.general,
                    given.fixed_line,
                    given.mobile,
                    given.toll_free,
                ),
                (
                    given.premium_rate,
                    given.shared_cost,
                    given.personal_number,
                    given.voip,
                ),
                (given.pager, given.uan, given.emergency, given.voicemail),
                (
                    given.short_code,
                    given.standard_rate,
                    given.carrier,
                    given.no_international,
                ),
            ),
        );
        let patterns = Patterns::compile(
            pool,
            given.international_prefix,
            given.national_prefix_for_parsing,
            given.leading_digits,
            given.formats.into_vec(),
            given.international_formats.into_vec(),
        );
        let (kept, (descriptors, patterns)) = zip_read(Ok(kept), zip_read(descriptors, patterns))?;
        Ok(Territory {
            alloc: pool.allocator(),
            descriptors,
            patterns,
            kept,
        })
    }
}

impl Territory {
    /// The allocator that the territory keeps, for calls on it and its parts.
    pub fn allocator(&self) -> Global {
        self.alloc
    }

    /// The descriptors, by kind.
    pub fn descriptors(&self) -> &Descriptors
        ensures { result.now ≡ kinds_of self.now }
    {
        &self.descriptors
    }

    /// The id of the region, mostly two letters, or `001` for a code without a region.
    pub fn id(&self) -> &str
        ensures { self.now.id ≡ Some result.now }
    {
        self.kept.id.as_str()
    }

    /// The region that the territory's id is that of; none where it is no region's. Takes no
    /// memory.
    pub fn region(&self) -> Option<Id>
        ensures region { result ≡ option_and_then id_of self.now.id }
        ensures by_text { result ≡ id_of (id_text self.now) }
    {
        self.kept.id.region()
    }

    /// The calling code.
    pub fn country_code(&self) -> u16
        ensures { self.now.country_code ≡ Some result }
    {
        self.kept.country_code
    }

    /// The pattern of what is dialled before a calling code.
    pub fn international_prefix_pattern(&self) -> Option<&Pattern>
        ensures { option_copied result ≡ self.now.international_prefix }
    {
        lent::pattern(&self.patterns.international_prefix)
    }

    /// Which of these is preferred.
    pub fn preferred_international_prefix(&self) -> Option<&str>
        ensures { option_copied result ≡ self.now.preferred_international_prefix }
    {
        lent::text(&self.kept.preferred_international_prefix)
    }

    /// The trunk prefix, dialled before a national number inside the territory.
    pub fn national_prefix(&self) -> Option<&str>
        ensures { option_copied result ≡ self.now.national_prefix }
    {
        lent::text(&self.kept.national_prefix)
    }

    /// What is written before an extension.
    pub fn preferred_extension_prefix(&self) -> Option<&str>
        ensures { option_copied result ≡ self.now.preferred_extension_prefix }
    {
        lent::text(&self.kept.preferred_extension_prefix)
    }

    /// Whether that prefix is known to announce an extension: there is none, or it is one of seven
    /// texts that a reader of free text knows. Takes no memory.
    pub fn has_benign_prefix(&self) -> bool
        ensures { result ≡ is_benign_prefix self.now.preferred_extension_prefix }
    {
        prefixes::is_benign(self.preferred_extension_prefix())
    }

    /// The pattern of what may stand before a national number and is taken off.
    pub fn national_prefix_for_parsing_pattern(&self) -> Option<&Pattern>
        ensures { option_copied result ≡ self.now.national_prefix_for_parsing }
    {
        lent::pattern(&self.patterns.national_prefix_for_parsing)
    }

    /// The template that takes its place, with `$1` for the first group of that pattern.
    pub fn national_prefix_transform_rule(&self) -> Option<&str>
        ensures { option_copied result ≡ self.now.national_prefix_transform_rule }
    {
        lent::text(&self.kept.national_prefix_transform_rule)
    }

    /// The layouts of national text.
    pub fn formats(&self) -> &[Format]
        ensures { result.now ≡ self.now.formats }
    {
        self.patterns.formats.as_slice()
    }

    /// The layouts of international text.
    pub fn international_formats(&self) -> &[Format]
        ensures { result.now ≡ self.now.international_formats }
    {
        self.patterns.international_formats.as_slice()
    }

    /// Whether it is certain that these are the layouts of national text. It was found out when the
    /// territory was made.
    pub fn is_laid_out_alike(&self) -> bool
        ensures { IsTrue result → self.now.international_formats ≡ self.now.formats }
    {
        self.patterns.are_alike
    }

    /// Whether the territory is the main one of its calling code.
    pub fn is_main_country_for_code(&self) -> bool
        ensures { result ≡ self.now.main_country_for_code }
    {
        self.kept.main_country_for_code
    }

    /// The pattern of digits that tell the territory from others of its calling code.
    pub fn leading_digits_pattern(&self) -> Option<&Pattern>
        ensures { option_copied result ≡ self.now.leading_digits }
    {
        lent::pattern(&self.patterns.leading_digits)
    }

    /// Whether a mobile number can be kept when the carrier changes.
    pub fn is_mobile_number_portable(&self) -> bool
        ensures { result ≡ self.now.mobile_number_portable }
    {
        self.kept.mobile_number_portable
    }
}

/// Compiles each of these records, which lack nothing.
pub fn compile_all(
    alloc: Global,
    given: Vec<loader::Metadata>,
) -> Result<Vec<Territory>, LoadMetadata>
    requires { first_missing given.items ≡ None }
    ensures compiled { IfOk result (λ territories. territories.items ≡ given.items) }
    ensures read { IfOk result (λ territories.
        AllByRecursion IsPattern (flat_map patterns_in given.items)) }
    ensures refused { IfErr result (IsPatternRefusal (flat_map patterns_in given.items)) }
{
    let pool = Pool::new(alloc);
    each::compile_each(&pool, given)
}
