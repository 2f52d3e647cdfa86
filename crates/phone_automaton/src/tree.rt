//! The rows of a pattern's tree, worked out from the end of the pattern to its front: each row is
//! made where the row of what follows is there.
ghost use Rattle.std.specs.Prelude.{◌≡◌, ◌≤◌, ◌<◌, ◌+◌, ◌==◌, ◌⊎◌, ℕ, map, slice_index, IfSome};
ghost use Rattle.phone_automaton.specs.Rows.{AreChoice, GivesBefore, Grows, IsPlace, IsStep};
ghost use Rattle.phone_automaton.specs.Rows.{LeadInto, TellsBefore};
ghost use Rattle.regex_class.specs.Ranges.{in_ranges};
ghost use Rattle.regex_hir.specs.Meaning.{meaning, alt_all, cat_all, copies, repeat, up_to};
ghost use Rattle.regex_hir.specs.Re.{byte_in, char_in, empty, literal, look};

use crate::rows::{END, Row, Rows, join};
use regex_class::Class;
use regex_hir::{Hir, Look};

/// The most digits over which two rows are joined.
const DEPTH: usize = 100;

/// The row of a tree where this row follows it. None where memory is refused, where there are too
/// many rows, where a loop has no bound, and where the tree looks at what stands around it
/// otherwise than for the text's end.
#[cycle(row_of)]
pub(crate) fn row_of(rows: &mut Rows, hir: &Hir, next: usize) -> Option<Row>
    requires { IsPlace rows.old next }
    ensures grows { IfSome result (λ row. Grows rows.old rows.new) }
    ensures gives { IfSome result (λ row. GivesBefore rows.new row next (meaning hir.now)) }
{
    match hir {
        Hir::Empty => Some(rows.row(next)),
        Hir::Literal(bytes) => row_of_bytes(rows, bytes, next),
        Hir::Bytes(class) => Some(row_of_class(rows, class, next)),
        Hir::Chars(class) => Some(row_of_class(rows, class, next)),
        Hir::Look(look) => row_of_look(rows, *look, next),
        Hir::Repetition {
            min,
            max,
            greedy,
            sub,
        } => row_of_repeated(rows, sub, *min, *max, *greedy, next),
        Hir::Capture { index: _, sub } => row_of(rows, sub, next),
        Hir::Concat(subs) => row_of_all(rows, subs, next),
        Hir::Alternation(subs) => row_of_any(rows, subs, next),
    }
}

/// The same of trees one after another.
#[cycle(row_of)]
fn row_of_all(rows: &mut Rows, subs: &[Hir], next: usize) -> Option<Row>
    requires { IsPlace rows.old next }
    ensures grows { IfSome result (λ row. Grows rows.old rows.new) }
    ensures gives { IfSome result (λ row.
        GivesBefore rows.new row next (cat_all (map meaning subs.now))) }
{
    if subs.is_empty() {
        return Some(rows.row(next));
    }
    let last = subs.len() - 1;
    let mut row = row_of(rows, &subs[last], next)?;
    for i in (0..last).rev() {
        let place = rows.push(&row)?;
        row = row_of(rows, &subs[i], place)?;
    }
    Some(row)
}

/// The same of trees of which the first that matches is taken.
#[cycle(row_of)]
fn row_of_any(rows: &mut Rows, subs: &[Hir], next: usize) -> Option<Row>
    requires { IsPlace rows.old next }
    ensures grows { IfSome result (λ row. Grows rows.old rows.new) }
    ensures gives { IfSome result (λ row.
        GivesBefore rows.new row next (alt_all (map meaning subs.now))) }
{
    let mut row = [0u16; 11];
    for i in (0..subs.len()).rev() {
        rows.known();
        let first = row_of(rows, &subs[i], next)?;
        rows.known();
        row = join(rows, &first, &row, DEPTH)?;
    }
    Some(row)
}

/// The same of a tree that is repeated.
#[cycle(row_of)]
fn row_of_repeated(
    rows: &mut Rows,
    sub: &Hir,
    min: u32,
    max: Option<u32>,
    greedy: bool,
    next: usize,
) -> Option<Row>
    requires { IsPlace rows.old next }
    ensures grows { IfSome result (λ row. Grows rows.old rows.new) }
    ensures gives { IfSome result (λ row.
        GivesBefore rows.new row next (repeat min max greedy (meaning sub.now))) }
{
    let most = max?;
    let place = place_of_up_to(rows, sub, most.saturating_sub(min), greedy, next)?;
    rows.known();
    row_of_copies(rows, sub, min, place)
}

/// The place of the row of a tree that stands at most so many times.
#[cycle(row_of)]
fn place_of_up_to(
    rows: &mut Rows,
    sub: &Hir,
    count: u32,
    greedy: bool,
    next: usize,
) -> Option<usize>
    requires { IsPlace rows.old next }
    ensures grows { IfSome result (λ place. Grows rows.old rows.new) }
    ensures place { IfSome result (λ place. IsPlace rows.new place) }
    ensures tells { IfSome result (λ place.
        TellsBefore rows.new place next (up_to greedy count (meaning sub.now))) }
{
    let mut place = next;
    for done in 0..count {
        rows.known();
        let more = row_of(rows, sub, place)?;
        let leave = rows.row(next);
        let row = choice(rows, &more, &leave, greedy)?;
        place = rows.push(&row)?;
    }
    Some(place)
}

/// The row that goes on or leaves: a greedy one prefers to go on.
fn choice(rows: &mut Rows, more: &Row, leave: &Row, greedy: bool) -> Option<Row>
    requires more { LeadInto rows.old more.now }
    requires leave { LeadInto rows.old leave.now }
    ensures grows { IfSome result (λ row. Grows rows.old rows.new) }
    ensures lead { IfSome result (LeadInto rows.new) }
    ensures either { IfSome result (λ row. AreChoice rows.new row more.now leave.now greedy) }
{
    if greedy {
        join(rows, more, leave, DEPTH)
    } else {
        join(rows, leave, more, DEPTH)
    }
}

/// The row of a tree that stands so many times.
#[cycle(row_of)]
fn row_of_copies(rows: &mut Rows, sub: &Hir, count: u32, next: usize) -> Option<Row>
    requires { IsPlace rows.old next }
    ensures grows { IfSome result (λ row. Grows rows.old rows.new) }
    ensures gives { IfSome result (λ row.
        GivesBefore rows.new row next (copies count (meaning sub.now) empty)) }
{
    if count == 0 {
        return Some(rows.row(next));
    }
    let mut place = next;
    for done in 0..count - 1 {
        rows.known();
        let row = row_of(rows, sub, place)?;
        place = rows.push(&row)?;
    }
    rows.known();
    row_of(rows, sub, place)
}

/// The row of a literal.
fn row_of_bytes(rows: &mut Rows, bytes: &[u8], next: usize) -> Option<Row>
    requires { IsPlace rows.old next }
    ensures grows { IfSome result (λ row. Grows rows.old rows.new) }
    ensures gives { IfSome result (λ row. GivesBefore rows.new row next (literal bytes.now)) }
{
    if bytes.is_empty() {
        return Some(rows.row(next));
    }
    let last = bytes.len() - 1;
    let mut row = digit_cells(bytes[last], rows.cell_to(next, false));
    for i in (0..last).rev() {
        let place = rows.push(&row)?;
        row = digit_cells(bytes[i], rows.cell_to(place, false));
    }
    Some(row)
}

/// A step over this byte.
fn digit_cells(byte: u8, cell: u16) -> Row
    ensures { IsStep result cell (λ b. byte == b) }
{
    let mut row = [0u16; 11];
    if byte.is_ascii_digit() {
        row[(byte - 48) as usize] = cell;
    }
    row
}

/// The row of a class.
fn row_of_class(rows: &Rows, class: &Class, next: usize) -> Row
    requires { IsPlace rows.now next }
    ensures bytes { GivesBefore rows.now result next (byte_in class.now.ranges.items) }
    ensures chars { GivesBefore rows.now result next (char_in class.now.ranges.items) }
{
    class_cells(class, rows.cell_to(next, false))
}

/// A step over a class.
fn class_cells(class: &Class, cell: u16) -> Row
    ensures { IsStep result cell (in_ranges class.now.ranges.items) }
{
    let mut row = [0u16; 11];
    for range in class.ranges.iter() {
        mark(&mut row, range.0, range.1, cell);
    }
    row
}

/// Sets the cells of the digits from the first to the last of these characters.
fn mark(row: &mut Row, first: u32, last: u32, cell: u16)
    ensures inside { (c : ℕ) → c < 10 → first ≤ 48 + c → 48 + c ≤ last →
        slice_index row.new c ≡ cell }
    ensures outside { (c : ℕ) → c < 10 → (48 + c < first ⊎ last < 48 + c) →
        slice_index row.new c ≡ slice_index row.old c }
    ensures end { slice_index row.new 10 ≡ slice_index row.old 10 }
{
    for digit in first.max(48)..last.min(57) + 1 {
        row[digit as usize - 48] = cell;
    }
}

/// The row of a look: only the end of the text is looked for.
fn row_of_look(rows: &Rows, kind: Look, next: usize) -> Option<Row>
    requires { IsPlace rows.now next }
    ensures { IfSome result (λ row. GivesBefore rows.now row next (look kind)) }
{
    if kind != Look::End || next == 0 {
        return None;
    }
    let follows = rows.row(next);
    let mut row = [0u16; 11];
    row[END] = follows[END];
    Some(row)
}
