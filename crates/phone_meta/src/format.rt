//! A layout of national numbers, with its patterns compiled.
ghost use Rattle.std.specs.Prelude.{Some};
ghost use Rattle.phone_territory.specs.First.{ArePatternsOf, IsLentPattern};

use phone_base::results::{zip, zip_value};
use phone_pattern::{Compiled, CompiledList, Pool};
use phone_territory::{Compile, LoadMetadata, loader};
use regex::Regex;
use std::marker::Model;
use std::ops::Deref;

/// How the digits of a national number are grouped when it is printed, with its patterns compiled.
/// Contracts see the record.
#[derive(Drop)]
pub struct Format {
    light: phone_territory::Format,
    pattern: Compiled,
    leading_digits: CompiledList,
}

impl Model for Format {
    ghost use Rattle.std.specs.Prelude.{◌≡◌, Some};
    ghost use Rattle.phone_records.specs.declared.loader.Format as loader;

    ghost Value = { loader.Format };

    ghost view = { λ f. f.light };

    ghost invariant = { λ f. (f.light.pattern ≡ Some f.pattern) ×
        (f.light.leading_digits ≡ f.leading_digits) };
}

impl Deref for Format {
    type Target = phone_territory::Format;

    ghost use Rattle.std.specs.Prelude.{◌≡◌};

    ghost deref_gives = { λ f light. light ≡ f };

    fn deref(&self) -> &phone_territory::Format {
        &self.light
    }
}

impl Compile for Format {
    ghost use Rattle.phone_territory.specs.Refusals.{patterns_in_format};
    ghost use Rattle.phone_records.specs.Missing.{missing_in_format};

    type Record = loader::Format;

    ghost missing = { missing_in_format };

    ghost patterns = { patterns_in_format };

    ghost record_of = { λ f. f };

    /// Compiles a record, whose pattern and template must be there.
    fn compile(pool: &Pool, given: loader::Format) -> Result<Format, LoadMetadata> {
        let leading = CompiledList::new(pool, given.leading_digits.as_slice());
        let light = phone_territory::Format::compile(pool, given);
        let (light, leading) = zip(light, leading)?;
        let pattern = Compiled::new(pool, light.whole_pattern().as_str());
        let (pattern, (light, leading_digits)) = zip_value(pattern, (light, leading))?;
        Ok(Format {
            light,
            pattern,
            leading_digits,
        })
    }
}

impl Format {
    /// The pattern that parts the digits into groups.
    pub fn pattern(&self) -> &Regex
        ensures { IsLentPattern self.now.pattern (Some result) }
    {
        self.pattern.regex()
    }

    /// Patterns of the digits in front for which the layout is meant; the last of them decides
    /// (`is_led`).
    pub fn leading_digits(&self) -> &[Regex]
        ensures { ArePatternsOf self.now.leading_digits result.now }
    {
        self.leading_digits.as_slice()
    }
}
