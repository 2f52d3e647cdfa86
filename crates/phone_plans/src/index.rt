//! What territories are looked up by: their places by id and by calling code, the place of the last
//! one of each one's id, and their codes by digits.
ghost use Rattle.std.specs.Prelude.{◌≡◌, ℕ, List, [], IfOk, filter, length, map, reverse};
ghost use Rattle.phone_plans.specs.CodeLookUps.{is_listed};
ghost use Rattle.phone_plans.specs.Index.{IsIndexOf, count_of_ids};
ghost use Rattle.phone_plans.specs.Lasts.{last_places};
ghost use Rattle.phone_territory.specs.Refusals.{AreRead};
ghost use Rattle.phone_territory.specs.Records.{id_of};
ghost use Rattle.phone_plans.specs.Records.{has_code, has_id, last_place, places_where};
ghost use Rattle.phone_index.specs.Orders.{place_of, text_of};
ghost use Rattle.phone_index.specs.Orders as placed;
ghost use Rattle.phone_index.specs.ListedCodes.{is_in};

use phone_base::results::zip;
use phone_index::{Coded, Grouped, Named, Sorted, Steps, Trie};
use phone_territory::{LoadMetadata, Territory};
use std::alloc::{AllocError, Global};

/// What a database looks its territories up by.
#[derive(Drop)]
pub(crate) struct Index {
    /// For each id the place of its last territory.
    pub(crate) by_id: Sorted,
    /// For each territory, by its place, the place of the last one of its id.
    pub(crate) lasts: Vec<Option<usize>>,
    /// The places of all territories, by calling code.
    pub(crate) by_code: Grouped,
    /// The calling codes that have a territory, by digits.
    pub(crate) codes: Trie,
}

impl Index {
    /// The index of these territories. Refused only for memory.
    pub(crate) fn of(alloc: Global, territories: &[Territory]) -> Result<Index, LoadMetadata>
        ensures index { IfOk result (λ index. IsIndexOf index territories.now) }
        ensures read { AreRead [] result }
    {
        let ids = ids(alloc, territories);
        let by_code = by_code(alloc, territories);
        let others = zip(by_code, codes(alloc, territories));
        let ((by_id, lasts), (by_code, codes)) = zip(ids, others)?;
        Ok(Index {
            by_id,
            lasts,
            by_code,
            codes,
        })
    }
}

/// For each id the place of the last territory with it, sorted by id, and for each territory the
/// place of the last one of its id. Refused only for memory.
fn ids(alloc: Global, territories: &[Territory]) -> Result<(Sorted, Vec<Option<usize>>), AllocError>
    ensures last { IfOk result (λ s. (id : List ℕ) →
        place_of id s.0 ≡ last_place (has_id id) territories.now) }
    ensures once { IfOk result (λ s. length s.0 ≡ count_of_ids territories.now) }
    ensures lasts { IfOk result (λ s. s.1.items ≡ last_places territories.now) }
{
    let by_id = by_id(alloc, territories)?;
    let lasts = lasts(alloc, territories, &by_id);
    zip(Ok(by_id), lasts)
}

/// For each territory the place that its id has among these. Refused only for memory.
fn lasts(
    alloc: Global,
    territories: &[Territory],
    by_id: &Sorted,
) -> Result<Vec<Option<usize>>, AllocError>
    ensures { IfOk result (λ v. v.items ≡
        map (λ m. place_of (id_of m) by_id.now) territories.now) }
{
    let mut lasts = Vec::new(alloc);
    for territory in territories {
        lasts.push(by_id.find_in(territory.id(), &mut Steps::new()))?;
    }
    Ok(lasts)
}

/// For each id the place of the last territory with it, sorted by id. Refused only for memory.
fn by_id(alloc: Global, territories: &[Territory]) -> Result<Sorted, AllocError>
    ensures last { IfOk result (λ s. (id : List ℕ) →
        place_of id s ≡ last_place (has_id id) territories.now) }
    ensures once { IfOk result (λ s. length s ≡ count_of_ids territories.now) }
{
    Sorted::of(id_places(alloc, territories)?)
}

/// The place of each territory, with its id.
fn id_places(alloc: Global, territories: &[Territory]) -> Result<Vec<Named>, AllocError>
    ensures ids { IfOk result (λ v. map text_of v.items ≡ map id_of territories.now) }
    ensures last { IfOk result (λ v. (id : List ℕ) →
        place_of id (reverse v.items) ≡ last_place (has_id id) territories.now) }
{
    let mut named = Vec::new(alloc);
    for (place, territory) in territories.iter().enumerate() {
        named.push(Named {
            text: String::from_str(alloc, territory.id())?,
            place,
        })?;
    }
    Ok(named)
}

/// The places of the territories, sorted by calling code. Refused only for memory.
fn by_code(alloc: Global, territories: &[Territory]) -> Result<Grouped, AllocError>
    ensures { IfOk result (λ g. (code : ℕ) → map (λ e. e.place) (filter (placed.has_code code) g) ≡
        places_where (has_code code) territories.now) }
{
    Grouped::of(code_places(alloc, territories)?)
}

/// The place of each territory, with its calling code.
fn code_places(alloc: Global, territories: &[Territory]) -> Result<Vec<Coded>, AllocError>
    ensures { IfOk result (λ v. (code : ℕ) →
        map (λ e. e.place) (filter (placed.has_code code) v.items) ≡
        places_where (has_code code) territories.now) }
{
    let mut coded = Vec::new(alloc);
    for (place, territory) in territories.iter().enumerate() {
        coded.push(Coded {
            code: territory.country_code(),
            place,
        })?;
    }
    Ok(coded)
}

/// The calling codes of the territories, by their digits. Refused only for memory.
fn codes(alloc: Global, territories: &[Territory]) -> Result<Trie, AllocError>
    ensures { IfOk result (λ t. (code : ℕ) → is_in code t ≡ is_listed code territories.now) }
{
    let mut codes = Trie::new(alloc)?;
    for territory in territories {
        codes = codes.with(territory.country_code())?;
    }
    Ok(codes)
}
