//! Rows of a table of the steps over digits while it is worked out: they only become more. A row is
//! put behind the others where something is to lead to it.
ghost use Rattle.std.specs.Prelude.{◌≡◌, ◌≤◌, ◌<◌, ◌++◌, ℕ, length, slice_index, IfSome};
ghost use Rattle.phone_automaton.specs.Digits.{cell_at, ends_here, place_of};
ghost use Rattle.phone_automaton.specs.Rows.{AreEither, AreRows, Grows, IsEither, IsEitherCell};
ghost use Rattle.phone_automaton.specs.Rows.{IsPlace, LeadInto, TellsAccept};

use std::alloc::Global;
use std::marker::Model;

/// At most there are so many rows, which with two more make a table; a pattern that needs more has
/// none.
const MOST_ROWS: usize = 998;

/// A row has a cell for each digit, and one for the end of the text.
pub(crate) const COLUMNS: usize = 11;

/// The column of the end of the text.
pub(crate) const END: usize = 10;

/// At first there is room for so many cells.
const ROOM: usize = 50 * COLUMNS;

/// The place of the row that says that a match ends here.
pub(crate) const ACCEPTS: usize = COLUMNS;

/// The cells of one row.
pub(crate) type Row = [u16; 11];

/// Rows, of which the first leads nowhere, and the second is that of a match that ends here.
/// Contracts see the cells, as those of the table.
#[derive(Drop)]
pub(crate) struct Rows {
    cells: Vec<u16>,
}

impl Model for Rows {
    ghost use Rattle.std.specs.Prelude.{ℕ, List};
    ghost use Rattle.phone_automaton.specs.Rows.{AreRows};

    ghost Value = { List ℕ };

    ghost view = { λ r. r.cells.items };

    ghost invariant = { λ r. AreRows r.cells.items };
}

impl Rows {
    /// The first two rows. None where memory is refused.
    pub(crate) fn new(alloc: Global) -> Option<Rows>
        ensures place { IfSome result (λ rows. IsPlace rows 11) }
        ensures accepts { IfSome result (λ rows. TellsAccept rows 11) }
        ensures known { IfSome result AreRows }
    {
        let mut cells = Vec::with_capacity(alloc, ROOM).ok()?;
        cells
            .extend_from_slice(&[
                0u16, 0, 0, 0, 0, 0, 0, 0, 0, 0, 0, 1, 1, 1, 1, 1, 1, 1, 1, 1, 1, 1,
            ])
            .ok()?;
        Some(Rows { cells })
    }

    /// Tells a contract what is true of all rows.
    #[inline]
    pub(crate) fn known(&self)
        ensures { AreRows self.now }
    {
        let _ = &self.cells;
    }

    /// The cells, row by row.
    #[inline]
    pub(crate) fn cells(&self) -> &[u16]
        ensures is { result.now ≡ self.now }
        ensures known { AreRows self.now }
    {
        self.cells.as_slice()
    }

    /// The row at a place.
    #[inline]
    pub(crate) fn row(&self, place: usize) -> Row
        requires { IsPlace self.now place }
        ensures cells { (c : ℕ) → c < 11 → slice_index result c ≡ cell_at self.now place c }
        ensures leads { LeadInto self.now result }
        ensures known { AreRows self.now }
    {
        let mut row = [0u16; 11];
        row.copy_from_slice(&self.cells[place..place + COLUMNS]);
        row
    }

    /// A cell that leads to a place, and says whether a match ends before its step.
    #[inline]
    pub(crate) fn cell_to(&self, place: usize, matched: bool) -> u16
        requires { IsPlace self.now place }
        ensures place { place_of result ≡ place }
        ensures ends { ends_here result ≡ matched }
    {
        let _ = &self.cells;
        let twice = place as u16 * 2;
        if matched { twice + 1 } else { twice }
    }

    /// Appends a row, and returns its place. None where memory is refused, and where there are too
    /// many rows.
    pub(crate) fn push(&mut self, row: &Row) -> Option<usize>
        requires { LeadInto self.old row.now }
        ensures grows { IfSome result (λ place. self.new ≡ self.old ++ row.now) }
        ensures place { IfSome result (λ place. place ≡ length self.old) }
        ensures inside { IfSome result (λ place. IsPlace self.new place) }
        ensures known { AreRows self.old }
        ensures kept { AreRows self.new }
    {
        let place = self.cells.len();
        if place > (MOST_ROWS - 1) * COLUMNS {
            return None;
        }
        match self.cells.extend_from_slice(row) {
            Ok(_) => Some(place),
            Err(_) => None,
        }
    }
}

/// Two cells of a column, and the one that stands for both.
#[derive(Clone, Copy)]
struct Joined {
    first: u16,
    second: u16,
    cell: u16,
}

/// The row that finds what the first of two rows finds, or else what the second does. None where
/// memory is refused, and where there are too many rows, or too many digits to go.
#[cycle(join)]
fn either(rows: &mut Rows, a: usize, b: usize, depth: usize) -> Option<usize>
    requires first { IsPlace rows.old a }
    requires second { IsPlace rows.old b }
    ensures grows { IfSome result (λ place. Grows rows.old rows.new) }
    ensures place { IfSome result (λ place. IsPlace rows.new place) }
    ensures either { IfSome result (λ place. IsEither rows.new place a b) }
{
    if a == 0 || a == b {
        return Some(b);
    }
    if b == 0 {
        return Some(a);
    }
    if depth == 0 {
        return None;
    }
    let of_a = rows.row(a);
    let of_b = rows.row(b);
    let row = join(rows, &of_a, &of_b, depth - 1)?;
    rows.push(&row)
}

/// The cells of such a row, of the cells of two. Most digits lead where the digit before does.
#[cycle(join)]
pub(crate) fn join(rows: &mut Rows, a: &Row, b: &Row, depth: usize) -> Option<Row>
    requires first { LeadInto rows.old a.now }
    requires second { LeadInto rows.old b.now }
    ensures grows { IfSome result (λ row. Grows rows.old rows.new) }
    ensures lead { IfSome result (LeadInto rows.new) }
    ensures either { IfSome result (λ row. AreEither rows.new row a.now b.now) }
{
    let mut row = [0u16; 11];
    let mut last = Joined {
        first: 0,
        second: 0,
        cell: 0,
    };
    for column in 0..COLUMNS {
        let first = a[column];
        let second = b[column];
        rows.known();
        let cell = either_cell(rows, first, second, last, depth)?;
        row[column] = cell;
        last = Joined {
            first,
            second,
            cell,
        };
    }
    Some(row)
}

/// The cell that stands for two, of which the first is preferred; these were joined already.
#[cycle(join)]
fn either_cell(rows: &mut Rows, a: u16, b: u16, last: Joined, depth: usize) -> Option<u16>
    requires first { IsPlace rows.old (place_of a) }
    requires second { IsPlace rows.old (place_of b) }
    requires last_place { IsPlace rows.old (place_of last.cell) }
    requires last_either { IsEitherCell rows.old last.cell last.first last.second }
    ensures grows { IfSome result (λ cell. Grows rows.old rows.new) }
    ensures place { IfSome result (λ cell. IsPlace rows.new (place_of cell)) }
    ensures either { IfSome result (λ cell. IsEitherCell rows.new cell a b) }
{
    if a == last.first && b == last.second {
        return Some(last.cell);
    }
    if a % 2 == 1 || b == 0 {
        return Some(a);
    }
    if a == 0 {
        return Some(b);
    }
    let place = either(rows, (a / 2) as usize, (b / 2) as usize, depth)?;
    Some(rows.cell_to(place, b % 2 == 1))
}
