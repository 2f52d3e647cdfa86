//! Places by text.
ghost use Rattle.std.specs.Prelude.{◌≡◌, ◌<◌, ◌≤◌, ◌+◌, ◌^◌, ℕ, List, IfOk, length, map, reverse};
ghost use Rattle.std.specs.Set.{distinct_count};
ghost use Rattle.std.specs.Str.{bytes_eq};
ghost use Rattle.phone_index.specs.Orders.{place_of, text_of};

use crate::steps::Steps;
use std::alloc::AllocError;
use std::cmp::Ordering;
use std::marker::Model;

/// A place with its text.
#[derive(Drop)]
pub struct Named {
    pub text: String,
    pub place: usize,
}

/// Of each text the last place that was given with it, sorted by text. Contracts see them in this
/// order.
#[derive(Drop)]
pub struct Sorted {
    entries: Vec<Named>,
}

impl Model for Sorted {
    ghost use Rattle.std.specs.Prelude.{List};
    ghost use Rattle.phone_index.specs.Orders.{Rises};
    ghost use Rattle.phone_index.specs.declared.sorted.Named.{Named};

    ghost Value = { List Named };

    ghost view = { λ s. s.entries.items };

    ghost invariant = { λ s. Rises s.entries.items };
}

impl Sorted {
    /// Of each text the last place that is given with it. Refused only for memory.
    pub fn of(entries: Vec<Named>) -> Result<Sorted, AllocError>
        ensures last { IfOk result (λ s. (text : List ℕ) →
            place_of text s ≡ place_of text (reverse entries.items)) }
        ensures once { IfOk result (λ s. length s ≡
            distinct_count bytes_eq (map text_of entries.items)) }
    {
        // The last place of a text is the first one of the list that runs backward. It stays the
        // first one: the sort is stable, and the step after it keeps the first of equal texts.
        let mut entries = entries;
        entries.reverse();
        entries.sort_by(|a, b| a.text.cmp(&b.text))?;
        entries.dedup_by(|a, b| a.text == b.text);
        Ok(Sorted { entries })
    }

    /// The place of a text. Each comparison with a text is a step, of which it takes at most as
    /// many as the number of texts has binary digits. Takes no memory.
    pub fn find_in(&self, text: &str, steps: &mut Steps) -> Option<usize>
        ensures place { result ≡ place_of text.now self.now }
        ensures bound { (k : ℕ) → length self.now < 2 ^ k → steps.new ≤ steps.old + k }
    {
        let mut start = 0;
        let mut end = self.entries.len();
        while start < end {
            let middle = start + (end - start) / 2;
            let entry = &self.entries[middle];
            steps.step();
            match entry.text.as_str().cmp(text) {
                Ordering::Less => start = middle + 1,
                Ordering::Equal => return Some(entry.place),
                Ordering::Greater => end = middle,
            }
        }
        None
    }
}
