//! The names of a table that are nearest to a text.
ghost use Rattle.std.specs.Prelude.{◌≡◌, ◌≤◌, IfOk, length, map};
ghost use Rattle.phone_places.specs.Nearest.{distance, measured_of};

use crate::countries::{Countries, Entry};
use crate::folding::fold;
use std::alloc::{AllocError, Global};
use strsim::levenshtein;

/// The most names that are told as the nearest ones.
const MOST: usize = 3;

/// An entry, and how far its name is from a text.
#[derive(Clone, Copy)]
struct Measured<'c> {
    entry: &'c Entry,
    far: usize,
}

/// How far a name is from a text: how many characters have to be put in, taken out or replaced.
/// Refused only for memory.
fn distance(alloc: Global, name: &str, text: &str) -> Result<usize, AllocError>
    ensures { IfOk result (λ d. d ≡ distance name.now text.now) }
{
    levenshtein(alloc, name, text)
}

/// Each entry, with how far its name is from a text. Refused only for memory.
fn measure_all<'c>(
    alloc: Global,
    entries: &'c [Entry],
    text: &str,
) -> Result<Vec<Measured<'c>>, AllocError>
    ensures { IfOk result (λ v. map (λ m. (m.entry.now, m.far)) v.items ≡
        measured_of entries.now text.now) }
{
    let mut all = Vec::new(alloc);
    for entry in entries {
        let far = distance(alloc, entry.name.as_str(), text)?;
        all.push(Measured { entry, far })?;
    }
    Ok(all)
}

/// Of measured entries those that are so far. Refused only for memory.
fn at_distance<'c>(
    alloc: Global,
    all: &[Measured<'c>],
    far: usize,
) -> Result<Vec<&'c Entry>, AllocError> {
    let mut found = Vec::new(alloc);
    for measured in all {
        if measured.far == far {
            found.push(measured.entry)?;
        }
    }
    Ok(found)
}

/// Of measured entries the first three of those at the least distance, where that is below a bound;
/// else none. Refused only for memory.
fn nearest_below<'c>(
    alloc: Global,
    all: &[Measured<'c>],
    bound: usize,
) -> Result<Vec<&'c Entry>, AllocError>
    ensures { IfOk result (λ v. length v.items ≤ 3) }
{
    for far in 0..bound {
        let mut found = at_distance(alloc, all, far)?;
        if !found.is_empty() {
            found.truncate(MOST);
            return Ok(found);
        }
    }
    Ok(Vec::new(alloc))
}

impl Countries {
    /// The entries whose names are nearest to a text, once that is folded: of those at the least
    /// distance the first three; none where that is more than a third of the folded text's
    /// characters. Refused only for memory.
    pub fn nearest(&self, alloc: Global, text: &str) -> Result<Vec<&Entry>, AllocError>
        ensures { IfOk result (λ v. length v.items ≤ 3) }
    {
        let name = fold(alloc, text)?;
        let all = measure_all(alloc, self.entries(), name.as_str())?;
        let most = name.as_str().chars().count() / 3;
        nearest_below(alloc, all.as_slice(), most.saturating_add(1))
    }
}
