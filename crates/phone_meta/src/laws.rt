//! Both tables say the same of the same records.
ghost use Rattle.std.specs.Prelude.{◌≡◌, ◌⊎◌, List};
ghost use Rattle.std.specs.Option.{IsSome, option_copied};
ghost use Rattle.phone_base.specs.Errors.{told};
ghost use Rattle.phone_base.specs.declared.error.LoadMetadata.{LoadMetadata};
ghost use Rattle.phone_base.specs.declared.error.LoadMetadata.TheVariants as error;
ghost use Rattle.phone_plans.specs.Refusals.{IsRefusalOf};
ghost use Rattle.phone_records.specs.Missing.{first_missing};
ghost use Rattle.phone_records.specs.declared.loader.Metadata as loader;

use crate::database::Database;
use crate::metadata::Metadata;
use phone_plans::Plans;
use phone_territory::Territory;

/// An id finds the same record in both tables.
pub fn by_id<'a>(
    database: &'a Database,
    plans: &'a Plans,
    id: &str,
) -> (Option<&'a Metadata>, Option<&'a Territory>)
    requires { database.now ≡ plans.now }
    ensures { option_copied result.0 ≡ option_copied result.1 }
{
    (database.by_id(id), plans.by_id(id))
}

/// A calling code's first territory has the same record in both tables.
pub fn first_by_code<'a>(
    database: &'a Database,
    plans: &'a Plans,
    code: &u16,
) -> (Option<&'a Metadata>, Option<&'a Territory>)
    requires { database.now ≡ plans.now }
    ensures { option_copied result.0 ≡ option_copied result.1 }
{
    (database.first_by_code(code), plans.first_by_code(code))
}

/// Records that lack a value are refused by both tables, and by the same words: the first value
/// that is missing. Else memory was refused.
pub fn refused_alike()
    ensures { (records : List loader.Metadata) (e f : LoadMetadata) →
        IsSome (first_missing records) → IsRefusalOf records e → IsRefusalOf records f →
        (told e ≡ told f) ⊎ (e ≡ error.Memory) ⊎ (f ≡ error.Memory) }
{}
