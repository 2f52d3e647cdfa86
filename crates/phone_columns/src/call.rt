//! A call over a column: its columns go into buffers of the caller's.
ghost use Rattle.std.specs.Prelude.{◌≡◌, ◌⊎◌, ◌↔◌, ◌<◌, IfOk, List, ℕ, length, true};
ghost use Rattle.std.specs.List.{list_any};
ghost use Rattle.phone_c_base.specs.Buffers.{IsWritten};
ghost use Rattle.phone_columns.specs.Bodies.{HasBuffers, all_buffers};
ghost use Rattle.phone_columns.specs.Calls.{AreTooLong, AreWritten, are_given, rows_of, seen};
ghost use Rattle.phone_columns.specs.Calls.{seen_narrow};
ghost use Rattle.phone_columns.specs.Columns.{columns_of, is_no_column};
ghost use Rattle.phone_columns.specs.Rows.{AreAnswers, hint_at, rows_from};
ghost use Rattle.phone_columns.specs.declared.answers.Answer.{Answer};

use crate::answers::answer_rows;
use crate::body::{Body, lay_out};
use crate::column::{columns_of, has_no_column};
use crate::given::{Given, Layout, Narrow, read_layouts};
use phone_arrow::wide;
use phone_c_base::buffer::give;
use phone_c_base::found::Place;
use phone_c_base::status::{BAD_LAYOUT, MEMORY, NO_COLUMN, OK, TOO_SMALL};
use phone_engine::Engine;
use std::alloc::AllocError;

/// The buffers of the columns that have these numbers. Refused only for memory.
fn body_of(engine: Engine<'_>, given: &Given<'_>, columns: &[u32]) -> Result<Body, AllocError>
    ensures { IfOk result (λ b. (answers : List Answer) ×
        AreAnswers engine.entry.rules engine.entry.database.now
        (rows_from 0 given.now.texts (hint_at given.now.hints)) answers ×
        HasBuffers (all_buffers engine.entry.rules engine.entry.database.now
        (columns_of columns.now) answers) b) }
{
    let columns = columns_of(engine.database.allocator(), columns)?;
    let answers = answer_rows(engine, given)?;
    lay_out(engine, answers.as_slice(), columns.as_slice())
}

/// Writes buffers to the front of `out`, and where each stands to the front of `places`; the length
/// of the buffers alone where one of these is too short.
fn give_body(body: &Body, places: &mut [Place], out: &mut [u8], wrote: &mut usize) -> u32
    ensures bytes { result ≡ OK →
        IsWritten body.now.bytes.items out.old out.new wrote.new }
    ensures places { result ≡ OK → (count : ℕ) ×
        IsWritten body.now.places.items places.old places.new count }
    ensures too_small { result ≡ TOO_SMALL → (length out.old < length body.now.bytes.items) ⊎
        (length places.old < length body.now.places.items) }
    ensures told { wrote.new ≡ length body.now.bytes.items }
    ensures untouched { result ≡ TOO_SMALL → (places.new ≡ places.old) × (out.new ≡ out.old) }
    ensures status { (result ≡ OK) ⊎ (result ≡ TOO_SMALL) }
{
    *wrote = body.bytes.len();
    if out.len() < body.bytes.len() {
        return TOO_SMALL;
    }
    let mut count = 0;
    let status = give(body.places.as_slice(), places, &mut count);
    if status == OK {
        give(body.bytes.as_slice(), out, wrote)
    } else {
        status
    }
}

/// Writes what columns tell of rows: the buffers of the columns that have these numbers, one behind
/// the other, to the front of `out`, and where each stands to the front of `places`.
///
/// `OK`: so it is, and `wrote` is the length of the buffers. `TOO_SMALL` only where one of the two
/// is shorter than what goes into it: then `wrote` is the length of the buffers. `MEMORY`: memory
/// was refused, and `wrote` is 0. For each but `OK` both are as they were.
fn columns_of_given(
    engine: Engine<'_>,
    given: &Given<'_>,
    columns: &[u32],
    places: &mut [Place],
    out: &mut [u8],
    wrote: &mut usize,
) -> u32
    ensures written { result ≡ OK → AreWritten engine.entry.rules engine.entry.database.now
        columns.now (rows_from 0 given.now.texts (hint_at given.now.hints))
        places.old places.new out.old out.new wrote.new }
    ensures too_small { result ≡ TOO_SMALL → AreTooLong engine.entry.rules
        engine.entry.database.now columns.now
        (rows_from 0 given.now.texts (hint_at given.now.hints)) places.old out.old wrote.new }
    ensures other { ¬ (result ≡ OK) → ¬ (result ≡ TOO_SMALL) → result ≡ MEMORY }
    ensures untouched { ¬ (result ≡ OK) → (places.new ≡ places.old) × (out.new ≡ out.old) }
    ensures no_length { ¬ (result ≡ OK) → ¬ (result ≡ TOO_SMALL) → wrote.new ≡ 0 }
{
    *wrote = 0;
    match body_of(engine, given, columns) {
        Ok(body) => give_body(&body, places, out, wrote),
        Err(_) => MEMORY,
    }
}

/// The same of texts and hints in Arrow's layout. `BAD_LAYOUT` exactly where they are no columns,
/// or there are hints that aren't as many as the texts; else `NO_COLUMN` exactly where no column
/// has one of the numbers.
pub fn columns(
    engine: Engine<'_>,
    texts: Layout<'_>,
    hints: Layout<'_>,
    columns: &[u32],
    places: &mut [Place],
    out: &mut [u8],
    wrote: &mut usize,
) -> u32
    ensures written { result ≡ OK → AreWritten engine.entry.rules engine.entry.database.now
        columns.now (rows_of (seen texts.entry) (seen hints.entry))
        places.old places.new out.old out.new wrote.new }
    ensures too_small { result ≡ TOO_SMALL → AreTooLong engine.entry.rules
        engine.entry.database.now columns.now (rows_of (seen texts.entry) (seen hints.entry))
        places.old out.old wrote.new }
    ensures bad_layout { (result ≡ BAD_LAYOUT) ↔
        ¬ (are_given (seen texts.entry) (seen hints.entry) ≡ true) }
    ensures no_column { (result ≡ NO_COLUMN) ↔
        ((are_given (seen texts.entry) (seen hints.entry) ≡ true) ×
        (list_any is_no_column columns.now ≡ true)) }
    ensures other { ¬ (result ≡ OK) → ¬ (result ≡ TOO_SMALL) → ¬ (result ≡ BAD_LAYOUT) →
        ¬ (result ≡ NO_COLUMN) → result ≡ MEMORY }
    ensures untouched { ¬ (result ≡ OK) → (places.new ≡ places.old) × (out.new ≡ out.old) }
    ensures no_length { ¬ (result ≡ OK) → ¬ (result ≡ TOO_SMALL) → wrote.new ≡ 0 }
{
    *wrote = 0;
    let Some(given) = read_layouts(texts, hints) else {
        return BAD_LAYOUT;
    };
    if has_no_column(columns) {
        return NO_COLUMN;
    }
    columns_of_given(engine, &given, columns, places, out, wrote)
}

/// The same of offsets of 32 bits, for which memory is taken first.
pub fn narrow_columns(
    engine: Engine<'_>,
    texts: Narrow<'_>,
    hints: Narrow<'_>,
    numbers: &[u32],
    places: &mut [Place],
    out: &mut [u8],
    wrote: &mut usize,
) -> u32
    ensures written { result ≡ OK → AreWritten engine.entry.rules engine.entry.database.now
        numbers.now (rows_of (seen_narrow texts.entry) (seen_narrow hints.entry))
        places.old places.new out.old out.new wrote.new }
    ensures too_small { result ≡ TOO_SMALL → AreTooLong engine.entry.rules
        engine.entry.database.now numbers.now
        (rows_of (seen_narrow texts.entry) (seen_narrow hints.entry))
        places.old out.old wrote.new }
    ensures bad_layout { ¬ (are_given (seen_narrow texts.entry) (seen_narrow hints.entry) ≡ true) →
        (result ≡ BAD_LAYOUT) ⊎ (result ≡ MEMORY) }
    ensures only_bad { result ≡ BAD_LAYOUT →
        ¬ (are_given (seen_narrow texts.entry) (seen_narrow hints.entry) ≡ true) }
    ensures no_column { are_given (seen_narrow texts.entry) (seen_narrow hints.entry) ≡ true →
        list_any is_no_column numbers.now ≡ true → (result ≡ NO_COLUMN) ⊎ (result ≡ MEMORY) }
    ensures only_none { result ≡ NO_COLUMN → list_any is_no_column numbers.now ≡ true }
    ensures other { ¬ (result ≡ OK) → ¬ (result ≡ TOO_SMALL) → ¬ (result ≡ BAD_LAYOUT) →
        ¬ (result ≡ NO_COLUMN) → result ≡ MEMORY }
    ensures untouched { ¬ (result ≡ OK) → (places.new ≡ places.old) × (out.new ≡ out.old) }
    ensures no_length { ¬ (result ≡ OK) → ¬ (result ≡ TOO_SMALL) → wrote.new ≡ 0 }
{
    *wrote = 0;
    let Ok(offsets) = wide(engine.database.allocator(), texts.offsets) else {
        return MEMORY;
    };
    let Ok(hint_offsets) = wide(engine.database.allocator(), hints.offsets) else {
        return MEMORY;
    };
    let texts = texts.with(offsets.as_slice());
    let hints = hints.with(hint_offsets.as_slice());
    columns(engine, texts, hints, numbers, places, out, wrote)
}
