//! What the rows of a table were answered, counted.
ghost use Rattle.std.specs.Prelude.{◌≡◌, ◌∷◌, [], OnOk};
ghost use Rattle.phone_table.specs.Summaries.{CountsRow, IsEmpty, row_of, words};
ghost use Rattle.phone_table.specs.Tallies.{CountsMore};

use crate::tally::{Tally, add_bytes, add_words};
use std::alloc::{AllocError, Global};
use std::collections::BTreeMap;

/// What a row was answered, as far as a summary tells it: UTF-8 texts that are empty where there is
/// none.
#[derive(Clone, Copy)]
pub struct Answered<'a> {
    /// The type of the number.
    pub kind: &'a [u8],
    /// Its region.
    pub region: &'a [u8],
    /// The words of the refusal.
    pub refusal: &'a [u8],
    /// The words of what is suspicious, parted by spaces.
    pub suspicion: &'a [u8],
}

/// How often each type, region, refusal and word of what is suspicious was answered; what is empty
/// isn't counted.
#[derive(Drop)]
pub struct Summary {
    /// The types.
    pub kinds: Tally,
    /// The regions.
    pub regions: Tally,
    /// The words of refusals.
    pub refusals: Tally,
    /// Each word of what is suspicious.
    pub suspicions: Tally,
}

impl Summary {
    /// A summary of no rows.
    pub fn new(alloc: Global) -> Summary
        ensures { IsEmpty result }
    {
        Summary {
            kinds: BTreeMap::new(alloc),
            regions: BTreeMap::new(alloc),
            refusals: BTreeMap::new(alloc),
            suspicions: BTreeMap::new(alloc),
        }
    }

    /// Counts the texts of a row. Refused only for memory.
    fn count(&mut self, alloc: Global, row: Answered<'_>) -> Result<(), AllocError>
        ensures kinds { OnOk result
            (CountsMore self.old.kinds (row.entry.kind.now ∷ []) self.new.kinds) }
        ensures regions { OnOk result
            (CountsMore self.old.regions (row.entry.region.now ∷ []) self.new.regions) }
        ensures refusals { OnOk result
            (CountsMore self.old.refusals (row.entry.refusal.now ∷ []) self.new.refusals) }
        ensures suspicions { OnOk result
            (CountsMore self.old.suspicions (words row.entry.suspicion.now) self.new.suspicions) }
    {
        add_bytes(&mut self.kinds, alloc, row.kind)?;
        add_bytes(&mut self.regions, alloc, row.region)?;
        add_bytes(&mut self.refusals, alloc, row.refusal)?;
        add_words(&mut self.suspicions, alloc, row.suspicion)
    }

    /// Counts one more row. Refused only for memory.
    pub fn add(&mut self, alloc: Global, row: Answered<'_>) -> Result<(), AllocError>
        ensures { OnOk result (CountsRow self.old (row_of row.entry) self.new) }
    {
        self.count(alloc, row)?;
        Ok(())
    }
}
