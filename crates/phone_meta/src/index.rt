//! The places of territories by id.
ghost use Rattle.std.specs.Prelude.{◌≡◌, ℕ, List, [], IfOk, length, map, reverse};
ghost use Rattle.phone_index.specs.Orders.{place_of, text_of};
ghost use Rattle.phone_plans.specs.Index.{count_of_ids};
ghost use Rattle.phone_plans.specs.Records.{has_id, last_place};
ghost use Rattle.phone_territory.specs.Records.{id_of};
ghost use Rattle.phone_territory.specs.Refusals.{AreRead};

use crate::metadata::Metadata;
use phone_index::{Named, Sorted};
use phone_territory::LoadMetadata;
use std::alloc::{AllocError, Global};

/// For each id the place of the last territory with it, sorted by id. Refused only for memory.
pub(crate) fn by_id(alloc: Global, territories: &[Metadata]) -> Result<Sorted, LoadMetadata>
    ensures last { IfOk result (λ s. (id : List ℕ) →
        place_of id s ≡ last_place (has_id id) territories.now) }
    ensures once { IfOk result (λ s. length s ≡ count_of_ids territories.now) }
    ensures read { AreRead [] result }
{
    let places = id_places(alloc, territories)?;
    Ok(Sorted::of(places)?)
}

/// The place of each territory, with its id.
fn id_places(alloc: Global, territories: &[Metadata]) -> Result<Vec<Named>, AllocError>
    ensures ids { IfOk result (λ v. map text_of v.items ≡ map id_of territories.now) }
    ensures last { IfOk result (λ v. (id : List ℕ) →
        place_of id (reverse v.items) ≡ last_place (has_id id) territories.now) }
{
    let mut named = Vec::new(alloc);
    for (place, territory) in territories.iter().enumerate() {
        named.push(Named {
            text: String::from_str(alloc, territory.id())?,
            place,
        })?;
    }
    Ok(named)
}
