//! Searches with groups.
ghost use Rattle.std.specs.Prelude.{◌≡◌, ◌<◌, ◌≤◌, ◌^◌, IfOk, IfSome, length, vec_len};
ghost use Rattle.phone_automaton.specs.Groups.{AreGroupsFor, IsFoundIn};
ghost use Rattle.phone_automaton.specs.Parts.{with_end};
ghost use Rattle.regex_tagged.specs.Valid.{IsFor};

use regex_dfa::Dfa;
use regex_tagged::{Near, Tagged};
use std::alloc::{AllocError, Global};

/// The steps with groups that searches of one automaton have worked out, and the groups of the last
/// match. Most patterns are never searched with groups, so the first such search makes them.
pub(crate) struct Groups {
    alloc: Global,
    /// Made by the first search.
    tagged: Option<Box<Tagged>>,
    /// From group 1 on, a start and an end for each group: a position plus one, or 0 for none.
    cells: Vec<usize>,
}

/// Drops the steps and the cells: as a function it is proved once.
impl Drop for Groups {
    fn drop(self) {
        let Groups {
            alloc: _,
            tagged,
            cells,
        } = self;
        drop(tagged);
        drop(cells);
    }
}

impl Groups {
    /// Nothing is worked out yet; so many cells.
    pub(crate) fn new(alloc: Global, width: usize) -> Result<Groups, AllocError>
        ensures own { IfOk result (λ g. (dfa : Dfa) → AreGroupsFor g dfa) }
        ensures width { IfOk result (λ g. vec_len g.cells ≡ width) }
    {
        Ok(Groups {
            alloc,
            tagged: None,
            cells: vec![in alloc; 0usize; width]?,
        })
    }

    /// The cells.
    #[inline]
    pub(crate) fn cells(&self) -> &[usize]
        ensures items { result.now ≡ self.now.cells.items }
        ensures len { length result.now ≡ vec_len self.now.cells }
    {
        self.cells.as_slice()
    }

    /// Makes these cells, with the end of a match put in, the groups of the last match.
    pub(crate) fn put(&mut self, front: &[usize], end: usize)
        requires width { length front.now ≡ vec_len self.old.cells }
        requires place { 3 ≤ length front.now }
        requires end { end < 2 ^ 63 }
        ensures items { self.new.cells.items ≡ with_end front.now end }
        ensures width { vec_len self.new.cells ≡ vec_len self.old.cells }
        ensures steps { self.new.tagged ≡ self.old.tagged }
    {
        self.cells.copy_from_slice(front);
        self.cells[front.len() - 3] = end + 1;
    }

    /// What the first match spans. The cells are its groups then. None where the automaton gives
    /// up, or memory is refused for it.
    pub(crate) fn find(&mut self, dfa: &Dfa, hay: &[u8]) -> Option<Option<(usize, usize)>>
        requires own { AreGroupsFor self.old dfa.now }
        ensures own { AreGroupsFor self.new dfa.now }
        ensures width { vec_len self.new.cells ≡ vec_len self.old.cells }
        ensures found { IfSome result (IsFoundIn dfa.now.nfa hay.now self.new.cells.items) }
    {
        let mut tagged = match self.tagged.take() {
            Some(tagged) => tagged,
            None => no_steps(self.alloc, dfa)?,
        };
        let cells = self.cells.as_mut_slice();
        let near = tagged.find_near(dfa, hay, 0, hay.len(), cells);
        self.tagged = Some(tagged);
        match near {
            Ok(Near::Done(found)) => Some(found),
            _ => None,
        }
    }
}

/// The steps of an automaton, none worked out yet. None where memory is refused.
#[cold]
#[inline(never)]
fn no_steps(alloc: Global, dfa: &Dfa) -> Option<Box<Tagged>>
    ensures { IfSome result (λ t. IsFor t.value dfa.now) }
{
    let Ok(tagged) = Tagged::new(alloc, dfa) else {
        return None;
    };
    match Box::new(alloc, tagged) {
        Ok(tagged) => Some(tagged),
        Err(_) => None,
    }
}
