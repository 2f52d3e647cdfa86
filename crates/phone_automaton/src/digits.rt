//! A table of the steps over digits. A pattern is mostly asked of digits alone: for these its steps
//! are worked out whole, so that a search only reads, and all threads may share the table.
ghost use Rattle.std.specs.Prelude.{◌≡◌, ◌≤◌, ◌<◌, ◌-◌, ◌==◌, ◌++◌, ℕ, List, IfSome, IsTrue, None};
ghost use Rattle.std.specs.Prelude.{Some, if◌then◌else◌, length, map, slice_index, ◌+◌, ◌^◌};
ghost use Rattle.std.specs.Option.{is_some};
ghost use Rattle.phone_automaton.specs.Digits.{AreDigits, TellsFront, end_of_digits, ends_here};
ghost use Rattle.phone_automaton.specs.Rows.{LeadInto, by_row, moved, none};
ghost use Rattle.regex_hir.specs.Find.{find_str};
ghost use Rattle.regex_hir.specs.Meaning.{meaning};

use crate::rows::{ACCEPTS, COLUMNS, END, Row, Rows};
use crate::tree::row_of;
use regex_hir::Hir;
use std::alloc::Global;
use std::marker::Model;

/// What is added to a cell where the row that it leads to is moved two rows on.
const MOVED: u16 = 44;

/// A pattern's steps over digits, all of them. Contracts see the cells, row by row: a cell is twice
/// the place of the row that its step leads to, and one more where a match ends before it.
#[derive(Drop)]
pub(crate) struct Digits {
    cells: Vec<u16>,
}

impl Model for Digits {
    ghost use Rattle.std.specs.Prelude.{ℕ, List};
    ghost use Rattle.phone_automaton.specs.Digits.{HasRows};

    ghost Value = { List ℕ };

    ghost view = { λ d. d.cells.items };

    ghost invariant = { λ d. HasRows d.cells.items };
}

/// Whether a text is of ASCII's digits alone.
#[inline]
pub fn are_digits(text: &[u8]) -> bool
    ensures { IsTrue result → AreDigits text.now }
{
    text.iter().all(|byte| 48 <= *byte && *byte < 58)
}

impl Digits {
    /// The table of a tree. None where memory is refused, where the table would have too many rows,
    /// where a loop has no bound, and where a step looks at what stands around it otherwise than
    /// for the text's end.
    pub(crate) fn new(alloc: Global, hir: &Hir) -> Option<Digits>
        ensures { IfSome result (TellsFront (λ hay. find_str (meaning hir.now) hay 0)) }
    {
        let mut rows = Rows::new(alloc)?;
        let row = row_of(&mut rows, hir, ACCEPTS)?;
        Digits::from_rows(alloc, &rows, &row)
    }

    /// The table that begins with this row, before the rows that it leads to. None where memory is
    /// refused.
    fn from_rows(alloc: Global, rows: &Rows, first: &Row) -> Option<Digits>
        requires { LeadInto rows.now first.now }
        ensures { IfSome result (λ d. (hay : List ℕ) → AreDigits hay →
            end_of_digits d hay ≡ by_row rows.now first.now 0 hay) }
    {
        let mut cells = gathered(alloc, rows.cells(), first)?;
        move_all(cells.as_mut_slice());
        Some(Digits { cells })
    }

    /// Where the match ends that begins at the front of a text of digits; none where there is none.
    /// None where the text isn't of digits alone.
    #[inline]
    pub(crate) fn end(&self, text: &[u8]) -> Option<Option<usize>>
        ensures digits { IfSome result (λ end. AreDigits text.now) }
        ensures end { IfSome result (λ end. end ≡ end_of_digits self.now text.now) }
        ensures within { IfSome result (λ end. IfSome end (λ e. e ≤ length text.now)) }
    {
        if are_digits(text) {
            Some(self.end_in_digits(text))
        } else {
            None
        }
    }

    /// Where the match ends that begins at the front of a text that is known to be of digits; none
    /// where there is none.
    #[inline]
    pub(crate) fn end_in_digits(&self, text: &[u8]) -> Option<usize>
        requires { AreDigits text.now }
        ensures end { result ≡ end_of_digits self.now text.now }
        ensures within { IfSome result (λ e. e ≤ length text.now) }
    {
        let cells = self.cells.as_slice();
        let mut place = COLUMNS;
        let mut last = 0usize;
        for at in 0..text.len() {
            let cell = cells[place + (text[at] - 48) as usize];
            last = last_after(cell, at, last);
            place = (cell / 2) as usize;
            if place == 0 {
                return best(last);
            }
        }
        best(last_after(cells[place + END], text.len(), last))
    }

    /// Whether a match begins at the front of a text that is known to be of digits: the walk ends
    /// where the first one does.
    #[inline]
    pub(crate) fn begins_digits(&self, text: &[u8]) -> bool
        requires { AreDigits text.now }
        ensures { result ≡ is_some (end_of_digits self.now text.now) }
    {
        let cells = self.cells.as_slice();
        let mut place = COLUMNS;
        for at in 0..text.len() {
            let cell = cells[place + (text[at] - 48) as usize];
            if ends_here(cell) {
                return true;
            }
            place = (cell / 2) as usize;
            if place == 0 {
                return false;
            }
        }
        ends_here(cells[place + END])
    }
}

/// Whether a match ends where a cell's step begins.
#[inline]
fn ends_here(cell: u16) -> bool
    ensures { result ≡ ends_here cell }
{
    cell % 2 == 1
}

/// One more than the end of the best match so far, or 0, after a step at a position.
#[inline]
fn last_after(cell: u16, at: usize, last: usize) -> usize
    requires { at < 2 ^ 63 }
    ensures { result ≡ (if ends_here cell then at + 1 else last) }
{
    if ends_here(cell) { at + 1 } else { last }
}

/// The end of the best match.
#[inline]
fn best(last: usize) -> Option<usize>
    ensures { result ≡ (if last == 0 then None else Some (last - 1)) }
{
    if last == 0 { None } else { Some(last - 1) }
}

/// The cells of a row that leads nowhere, of this row, and of these others. None where memory is
/// refused.
fn gathered(alloc: Global, others: &[u16], first: &Row) -> Option<Vec<u16>>
    requires { length others.now ≤ 11000 }
    ensures { IfSome result (λ cells. cells.items ≡ none ++ (first.now ++ others.now)) }
{
    let mut cells = Vec::with_capacity(alloc, 2 * COLUMNS + others.len()).ok()?;
    cells.extend_from_slice(&[0u16; 11]).ok()?;
    cells.extend_from_slice(first).ok()?;
    cells.extend_from_slice(others).ok()?;
    Some(cells)
}

/// Moves all rows that these cells lead to two rows on.
fn move_all(cells: &mut [u16])
    requires { (k : ℕ) → k < length cells.old → slice_index cells.old k < 22000 }
    ensures { cells.new ≡ map moved cells.old }
{
    for k in 0..cells.len() {
        cells[k] = moved(cells[k]);
    }
}

/// A cell where the row that it leads to is moved two rows on, unless it is the first.
#[inline]
fn moved(cell: u16) -> u16
    requires { cell < 22000 }
    ensures { result ≡ moved cell }
{
    if cell < 2 { cell } else { cell + MOVED }
}
