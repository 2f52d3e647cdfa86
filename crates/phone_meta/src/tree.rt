//! What a database compiles of its records beside its light table.
ghost use Rattle.std.specs.Prelude.{◌≡◌, ◌<◌, ◌≤◌, ◌+◌, ◌^◌, ℕ, [], ◌∷◌, None, IfOk, IfErr};
ghost use Rattle.std.specs.Option.{option_copied};
ghost use Rattle.phone_pattern.specs.Rules.{first_group_pattern};
ghost use Rattle.phone_plans.specs.Index.{count_of_ids};
ghost use Rattle.phone_plans.specs.Records.{last_with};
ghost use Rattle.phone_plans.specs.Refusals.{IsRefusalOf};
ghost use Rattle.phone_records.specs.Missing.{first_missing};
ghost use Rattle.phone_territory.specs.First.{IsPatternOf};
ghost use Rattle.phone_territory.specs.Refusals.{AreRead};

use crate::metadata::Metadata;
use crate::{index, patterns};
use phone_index::{Sorted, Steps};
use phone_pattern::{Compiled, FirstGroup, Pool};
use phone_territory::results::zip_read;
use phone_territory::{LoadMetadata, compile_each, loader};
use regex::Regex;
use std::alloc::Global;
use std::marker::Model;

/// Territories with their patterns compiled, their places by id, and the pattern of a template's
/// first group. Contracts see the records.
pub(crate) struct Tree {
    territories: Vec<Metadata>,
    by_id: Sorted,
    first_group: Compiled,
}

/// Drops what was compiled: as a function it is proved once.
impl Drop for Tree {
    fn drop(self) {
        let Tree {
            territories,
            by_id,
            first_group,
        } = self;
        drop(territories);
        drop(by_id);
        drop(first_group);
    }
}

impl Model for Tree {
    ghost use Rattle.std.specs.Prelude.{List};
    ghost use Rattle.phone_meta.specs.Compiled.{IsTreeOf};
    ghost use Rattle.phone_records.specs.declared.loader.Metadata as loader;

    ghost Value = { List loader.Metadata };

    ghost view = { λ t. t.territories.items };

    ghost invariant = { λ t. IsTreeOf t.by_id t.first_group t.territories.items };
}

/// The pattern of the first group that a template names.
fn first_group(pool: &Pool) -> Result<Compiled, LoadMetadata>
    ensures compiled { IfOk result (λ c. c ≡ first_group_pattern) }
    ensures read { AreRead (first_group_pattern ∷ []) result }
{
    let text = FirstGroup::text(pool.allocator())?;
    patterns::compile(pool, text.as_str())
}

impl Tree {
    /// Compiles each of these records, which lack nothing.
    pub(crate) fn compile(
        alloc: Global,
        records: Vec<loader::Metadata>,
    ) -> Result<Tree, LoadMetadata>
        requires { first_missing records.items ≡ None }
        ensures compiled { IfOk result (λ t. t ≡ records.items) }
        ensures refused { IfErr result (IsRefusalOf records.items) }
    {
        let pool = Pool::new(alloc);
        let territories = compile_each::<Metadata>(&pool, records)?;
        let by_id = index::by_id(alloc, territories.as_slice());
        let others = zip_read(by_id, first_group(&pool));
        let (territories, (by_id, first_group)) = zip_read(Ok(territories), others)?;
        Ok(Tree {
            territories,
            by_id,
            first_group,
        })
    }

    /// The territories in order of arrival.
    pub(crate) fn territories(&self) -> &[Metadata]
        ensures { result.now ≡ self.now }
    {
        self.territories.as_slice()
    }

    /// The territory of an id, with its steps counted.
    pub(crate) fn by_id_in(&self, id: &str, steps: &mut Steps) -> Option<&Metadata>
        ensures territory { option_copied result ≡ last_with id.now self.now }
        ensures bound { (k : ℕ) → count_of_ids self.now < 2 ^ k → steps.new ≤ steps.old + k }
    {
        let place = self.by_id.find_in(id, steps)?;
        self.territories.get(place)
    }

    /// The pattern of the first group that a template names.
    pub(crate) fn first_group(&self) -> &Regex
        ensures { IsPatternOf first_group_pattern result.now }
    {
        self.first_group.regex()
    }
}
