//! Places by calling code.
ghost use Rattle.std.specs.Prelude.{◌≡◌, ◌≤◌, ◌==◌, ℕ, IfOk, filter, length, slice_range};
ghost use Rattle.std.specs.List.Sorted.{IsNonDecreasingBy};
ghost use Rattle.phone_index.specs.Orders.{AreStarts, IsStart, has_code};

use std::alloc::{AllocError, Global};
use std::marker::Model;

/// A place with its calling code.
#[derive(Clone, Copy, Drop)]
pub struct Coded {
    pub code: u16,
    pub place: usize,
}

/// Places with calling codes, sorted by code; those of one code stand as they came. Contracts see
/// them in this order.
#[derive(Drop)]
pub struct Grouped {
    entries: Vec<Coded>,
    /// Where the places of each code from 0 on start, so that those of a code are looked up in two
    /// steps.
    starts: Vec<usize>,
}

impl Model for Grouped {
    ghost use Rattle.std.specs.Prelude.{List};
    ghost use Rattle.std.specs.List.Sorted.{IsNonDecreasingBy};
    ghost use Rattle.phone_index.specs.Orders.{AreStarts};
    ghost use Rattle.phone_index.specs.declared.grouped.Coded.{Coded};

    ghost Value = { List Coded };

    ghost view = { λ g. g.entries.items };

    ghost invariant = { λ g. IsNonDecreasingBy (λ e. e.code) g.entries.items ×
        AreStarts g.entries.items g.starts.items };
}

impl Grouped {
    /// These places in order of their codes. Refused only for memory.
    pub fn of(entries: Vec<Coded>) -> Result<Grouped, AllocError>
        ensures same_order { IfOk result (λ g. (code : ℕ) →
            filter (has_code code) g ≡ filter (has_code code) entries.items) }
    {
        let mut entries = entries;
        entries.sort_by_key(|e| e.code)?;
        let starts = starts_of(*entries.allocator(), &entries)?;
        Ok(Grouped { entries, starts })
    }

    /// The places of a code. Takes no memory.
    pub fn of_code(&self, code: u16) -> &[Coded]
        ensures { result.now ≡ filter (has_code code) self.now }
    {
        let entries = self.entries.as_slice();
        let (start, end) = noted_ends(entries, &self.starts, code);
        &entries[start..end]
    }
}

/// How many starts are noted: those of the codes of three digits at most, and the one after them.
const NOTED: u16 = 1001;

/// Where the places of each code below `NOTED` start. Refused only for memory.
fn starts_of(alloc: Global, entries: &[Coded]) -> Result<Vec<usize>, AllocError>
    requires { IsNonDecreasingBy (λ e. e.code) entries.now }
    ensures { IfOk result (λ starts. AreStarts entries.now starts.items) }
{
    let mut starts = Vec::with_capacity(alloc, usize::from(NOTED))?;
    for code in 0..NOTED {
        starts.push(start_of(entries, code))?;
    }
    Ok(starts)
}

/// Where the places of a code start: how many have a lesser one.
fn start_of(entries: &[Coded], code: u16) -> usize
    requires { IsNonDecreasingBy (λ e. e.code) entries.now }
    ensures { IsStart entries.now code result }
{
    entries.partition_point(|e| e.code < code)
}

/// Where the places of a code start and end: its start and that of the next code, where both are
/// noted.
fn noted_ends(entries: &[Coded], starts: &[usize], code: u16) -> (usize, usize)
    requires order { IsNonDecreasingBy (λ e. e.code) entries.now }
    requires starts { AreStarts entries.now starts.now }
    ensures in_order { result.0 ≤ result.1 }
    ensures within { result.1 ≤ length entries.now }
    ensures run { slice_range entries.now result.0 result.1 ≡ filter (has_code code) entries.now }
{
    let place = usize::from(code);
    let is_noted = place + 1 < starts.len();
    if is_noted {
        (starts[place], starts[place + 1])
    } else {
        ends_of(entries, code)
    }
}

// Where the places of a code start and end.
fn ends_of(entries: &[Coded], code: u16) -> (usize, usize)
    requires { IsNonDecreasingBy (λ e. e.code) entries.now }
    ensures in_order { result.0 ≤ result.1 }
    ensures within { result.1 ≤ length entries.now }
    ensures run { slice_range entries.now result.0 result.1 ≡ filter (has_code code) entries.now }
{
    let start = entries.partition_point(|e| e.code < code);
    let end = entries.partition_point(|e| e.code <= code);
    (start, end)
}
