//! The calls that read a column of texts at once.
ghost use Rattle.std.specs.Prelude.{◌≡◌, ◌⊎◌, ◌↔◌, true};
ghost use Rattle.std.specs.List.{list_any};
ghost use Rattle.phone_c_base.specs.Handles.{IsClosed, IsKept};
ghost use Rattle.phone_columns.specs.Calls.{AreTooLong, AreWritten, are_given, rows_of, seen};
ghost use Rattle.phone_columns.specs.Calls.{seen_narrow};
ghost use Rattle.phone_columns.specs.Columns.{is_no_column};

use phone_c_base::engines::engine_of;
use phone_c_base::found::Place;
use phone_c_base::handle::{Handle, put, take};
use phone_c_base::status::{BAD_LAYOUT, CLOSED, MEMORY, NO_COLUMN, OK, TOO_SMALL};
use phone_columns::{Layout, Narrow, columns, narrow_columns};
use std::alloc::Global;

/// Reads each text of a column in Arrow's layout by itself, as `phone_parse` does, under the hint
/// at its place, or under the one of all where the hints have no offset, and writes what columns
/// tell of it: their buffers, one behind the other and each at a multiple of eight bytes, to the
/// front of `out`, and where each stands to the front of `places`. The columns are named by the
/// numbers of `phone_columns::Column::of`.
///
/// `OK`: so it is, and `wrote` is the length of the buffers. `CLOSED` exactly where the handle is
/// closed; else `BAD_LAYOUT` exactly where the texts are no column, or the hints neither one hint
/// nor a column of as many; else `NO_COLUMN` exactly where no column has one of the numbers.
/// `TOO_SMALL` only where `out` or `places` is too short: then `wrote` is the length of the
/// buffers. `MEMORY`: memory was refused. For each but `OK` `out` and `places` are as they were,
/// and for each but `OK` and `TOO_SMALL` `wrote` is 0.
#[unsafe(no_mangle)]
pub extern "C" fn phone_columns(
    alloc: Global,
    handle: &mut Handle,
    texts: &Layout<'_>,
    hints: &Layout<'_>,
    numbers: &[u32],
    places: &mut [Place],
    out: &mut [u8],
    wrote: &mut usize,
) -> u32
    ensures written { result ≡ OK → AreWritten handle.old.rules handle.old.records numbers.now
        (rows_of (seen texts.now) (seen hints.now)) places.old places.new out.old out.new
        wrote.new }
    ensures too_small { result ≡ TOO_SMALL → AreTooLong handle.old.rules handle.old.records
        numbers.now (rows_of (seen texts.now) (seen hints.now)) places.old out.old wrote.new }
    ensures closed { (result ≡ CLOSED) ↔ IsClosed handle.old }
    ensures bad_layout { (result ≡ BAD_LAYOUT) ↔ (¬ (IsClosed handle.old) ×
        ¬ (are_given (seen texts.now) (seen hints.now) ≡ true)) }
    ensures no_column { (result ≡ NO_COLUMN) ↔ (¬ (IsClosed handle.old) ×
        (are_given (seen texts.now) (seen hints.now) ≡ true) ×
        (list_any is_no_column numbers.now ≡ true)) }
    ensures other { ¬ (result ≡ OK) → ¬ (result ≡ TOO_SMALL) → ¬ (result ≡ CLOSED) →
        ¬ (result ≡ BAD_LAYOUT) → ¬ (result ≡ NO_COLUMN) → result ≡ MEMORY }
    ensures untouched { ¬ (result ≡ OK) → (places.new ≡ places.old) × (out.new ≡ out.old) }
    ensures no_length { ¬ (result ≡ OK) → ¬ (result ≡ TOO_SMALL) → wrote.new ≡ 0 }
    ensures kept { IsKept handle.old handle.new }
{
    *wrote = 0;
    let Some(opened) = take(alloc, handle) else {
        return CLOSED;
    };
    let status = columns(
        engine_of(&opened),
        *texts,
        *hints,
        numbers,
        places,
        out,
        wrote,
    );
    put(alloc, handle, opened);
    status
}

/// The same of offsets of 32 bits, for which memory is taken first: so `BAD_LAYOUT` and `NO_COLUMN`
/// where the other call answers them, but for `MEMORY`.
#[unsafe(no_mangle)]
pub extern "C" fn phone_narrow_columns(
    alloc: Global,
    handle: &mut Handle,
    texts: &Narrow<'_>,
    hints: &Narrow<'_>,
    numbers: &[u32],
    places: &mut [Place],
    out: &mut [u8],
    wrote: &mut usize,
) -> u32
    ensures written { result ≡ OK → AreWritten handle.old.rules handle.old.records numbers.now
        (rows_of (seen_narrow texts.now) (seen_narrow hints.now)) places.old places.new
        out.old out.new wrote.new }
    ensures too_small { result ≡ TOO_SMALL → AreTooLong handle.old.rules handle.old.records
        numbers.now (rows_of (seen_narrow texts.now) (seen_narrow hints.now)) places.old out.old
        wrote.new }
    ensures closed { (result ≡ CLOSED) ↔ IsClosed handle.old }
    ensures bad_layout { ¬ (IsClosed handle.old) →
        ¬ (are_given (seen_narrow texts.now) (seen_narrow hints.now) ≡ true) →
        (result ≡ BAD_LAYOUT) ⊎ (result ≡ MEMORY) }
    ensures only_bad { result ≡ BAD_LAYOUT →
        ¬ (are_given (seen_narrow texts.now) (seen_narrow hints.now) ≡ true) }
    ensures no_column { ¬ (IsClosed handle.old) →
        are_given (seen_narrow texts.now) (seen_narrow hints.now) ≡ true →
        list_any is_no_column numbers.now ≡ true → (result ≡ NO_COLUMN) ⊎ (result ≡ MEMORY) }
    ensures only_none { result ≡ NO_COLUMN → list_any is_no_column numbers.now ≡ true }
    ensures other { ¬ (result ≡ OK) → ¬ (result ≡ TOO_SMALL) → ¬ (result ≡ CLOSED) →
        ¬ (result ≡ BAD_LAYOUT) → ¬ (result ≡ NO_COLUMN) → result ≡ MEMORY }
    ensures untouched { ¬ (result ≡ OK) → (places.new ≡ places.old) × (out.new ≡ out.old) }
    ensures no_length { ¬ (result ≡ OK) → ¬ (result ≡ TOO_SMALL) → wrote.new ≡ 0 }
    ensures kept { IsKept handle.old handle.new }
{
    *wrote = 0;
    let Some(opened) = take(alloc, handle) else {
        return CLOSED;
    };
    let status = narrow_columns(
        engine_of(&opened),
        *texts,
        *hints,
        numbers,
        places,
        out,
        wrote,
    );
    put(alloc, handle, opened);
    status
}
