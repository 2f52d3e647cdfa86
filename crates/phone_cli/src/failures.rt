//! What is told of a failure, by file and cause.
ghost use Rattle.std.specs.Prelude.{◌≡◌, ◌⊎◌, codes};
ghost use Rattle.phone_cli.specs.Statuses.{status_of_failure, status_of_table};
ghost use Rattle.phone_cli.specs.Streams.{IsSomeTold, line_of};
ghost use Rattle.phone_engine.specs.Programs.{IsTold};

use crate::say::{say, say_columns, say_taken};
use itoa::Buffer;
use phone_commands::{Failure, JobError, NoColumns, is_standard};
use phone_device::ByteSink;
use phone_places::CountriesError;
use phone_prefixes::{LineFault, PrefixesError};
use phone_table::{Column, ColumnError, FirstError, RunError, TableError};
use phone_words::Call;
use phonenumber::metadata::LoadMetadata;
use std::alloc::{AllocError, Global};

/// Tells why a database was refused: its file, the number of its refusal, and the words. It gives
/// the status.
pub(crate) fn say_refusal<E: ByteSink>(
    alloc: Global,
    path: &str,
    refusal: &LoadMetadata,
    errors: &mut E,
) -> u8
    ensures status { result ≡ 3 }
    ensures told { IsSomeTold (E.taken errors.old) (E.faults errors.old)
        (E.taken errors.new) (E.faults errors.new) }
{
    let mut number = Buffer::new();
    let number = number.format(refusal.number());
    match refusal.to_string(alloc) {
        Ok(words) => {
            let words = words.as_str();
            say(
                errors,
                &["the database ", path, " is refused: ", number, ", ", words],
                3,
            )
        }
        Err(_) => say(errors, &["the database ", path, " is refused: ", number], 3),
    }
}

/// Tells what failed in an input, and gives the status.
pub(crate) fn say_failure<E: ByteSink>(
    call: &Call<'_>,
    failure: &Failure<'_>,
    is_closed: bool,
    errors: &mut E,
) -> u8
    ensures { result ≡ status_of_failure failure.now }
{
    match failure {
        Failure::Unopened(name) => say(errors, &[*name, " can't be read"], 1),
        Failure::In(name, JobError::Input) if is_standard(name) => {
            say(errors, &["input failed"], 1)
        }
        Failure::In(name, JobError::Input) => say(errors, &[*name, ": input failed"], 1),
        Failure::In(_, JobError::Output) if is_closed => 1,
        Failure::In(_, JobError::Output) => say(errors, &["output failed"], 1),
        Failure::In(_, JobError::Memory) => say(errors, &["out of memory"], 1),
        Failure::In(name, JobError::Utf16) => say_utf_16(name, errors),
        Failure::In(_, JobError::Table(error)) => say_table(call, error, errors),
    }
}

/// Tells that an input is UTF-16, and gives the status.
fn say_utf_16<E: ByteSink>(name: &str, errors: &mut E) -> u8
    ensures { result ≡ 2 }
{
    let name = if is_standard(name) { "the input" } else { name };
    say(errors, &[name, " is UTF-16: --encoding utf-16 reads it"], 2)
}

/// Tells what is wrong with a table, and gives the status.
fn say_table<E: ByteSink>(call: &Call<'_>, error: &TableError, errors: &mut E) -> u8
    ensures { result ≡ status_of_table error.now }
{
    match error {
        TableError::NoColumn(ColumnError::Absent(column), header) => {
            say_columns(errors, column_name(call, *column), header)
        }
        TableError::NoColumn(ColumnError::Twice(column), _) => {
            let name = column_name(call, *column);
            say(errors, &["there is more than one column ", name], 2)
        }
        TableError::Taken(name) => say_taken(errors, name.as_slice()),
        TableError::Rows(RunError::Record(feeds)) => {
            let line = feeds.saturating_add(call.skipped).saturating_add(1);
            let mut buffer = Buffer::new();
            let more = ": the record has another count of fields than the header";
            say(errors, &["line ", buffer.format(line), more], 1)
        }
        TableError::Rows(RunError::Quote(line)) => say_quote(call, *line, errors),
        TableError::Header(FirstError::Quote(line)) => say_quote(call, *line, errors),
        _ => say(errors, &["there is no header"], 2),
    }
}

/// Tells on which line a quote begins that is never closed, and gives the status.
fn say_quote<E: ByteSink>(call: &Call<'_>, line: u64, errors: &mut E) -> u8
    ensures { result ≡ 1 }
{
    let mut buffer = Buffer::new();
    let line = buffer.format(line.saturating_add(call.skipped));
    let more = ": the quote that begins there is never closed";
    say(errors, &["line ", line, more], 1)
}

/// The name of a column that was asked for.
fn column_name<'w>(call: &Call<'w>, column: Column) -> &'w str {
    match column {
        Column::Number => call.table.column,
        Column::Region => call.table.region_column.unwrap_or(""),
    }
}

/// What is told of a line that has no tab. Refused only for memory.
fn no_pair(alloc: Global, line: usize) -> Result<String, AllocError> {
    format!(in alloc; "line {line}: the line has neither a tab nor two CSV fields")
}

/// Tells why a file holds no table of prefixes, and gives the status.
fn say_refused<E: ByteSink>(alloc: Global, name: &str, error: PrefixesError, errors: &mut E) -> u8
    ensures { ((result ≡ 3) × (IsSomeTold (E.taken errors.old) (E.faults errors.old)
        (E.taken errors.new) (E.faults errors.new))) ⊎
        ((result ≡ 1) × IsTold (E.taken errors.old) (E.faults errors.old)
        (line_of (codes "out of memory")) (E.taken errors.new) (E.faults errors.new)) }
{
    let words = match error {
        PrefixesError::Line(line, LineFault::NoTab) => no_pair(alloc, line),
        error => error.to_string(alloc),
    };
    match words {
        Ok(words) => say(
            errors,
            &["the table ", name, " is refused: ", words.as_str()],
            3,
        ),
        Err(_) => say(errors, &["out of memory"], 1),
    }
}

/// Tells why a file holds no table of the names of regions, and gives the status.
fn say_no_names<E: ByteSink>(alloc: Global, name: &str, error: CountriesError, errors: &mut E) -> u8
    ensures { ((result ≡ 3) × (IsSomeTold (E.taken errors.old) (E.faults errors.old)
        (E.taken errors.new) (E.faults errors.new))) ⊎
        ((result ≡ 1) × IsTold (E.taken errors.old) (E.faults errors.old)
        (line_of (codes "out of memory")) (E.taken errors.new) (E.faults errors.new)) }
{
    match error.to_string(alloc) {
        Ok(words) => say(
            errors,
            &["the table ", name, " is refused: ", words.as_str()],
            3,
        ),
        Err(_) => say(errors, &["out of memory"], 1),
    }
}

/// Tells why further columns are not there, and gives the status.
pub(crate) fn say_no_columns<E: ByteSink>(alloc: Global, why: NoColumns<'_>, errors: &mut E) -> u8
    ensures { ((result ≡ 3) × (IsSomeTold (E.taken errors.old) (E.faults errors.old)
        (E.taken errors.new) (E.faults errors.new))) ⊎
        ((result ≡ 1) × IsTold (E.taken errors.old) (E.faults errors.old)
        (line_of (codes "out of memory")) (E.taken errors.new) (E.faults errors.new)) }
{
    match why {
        NoColumns::Unopened(name) => say(errors, &["the table ", name, " can't be read"], 3),
        NoColumns::Refused(name, error) => say_refused(alloc, name, error, errors),
        NoColumns::NoNames(name, error) => say_no_names(alloc, name, error, errors),
        NoColumns::Memory => say(errors, &["out of memory"], 1),
    }
}
