//! The lines that are told of what failed, and the statuses that go with them.
ghost use Rattle.std.specs.Prelude.{◌≡◌, codes, if◌then◌else◌, not};
ghost use Rattle.phone_cli.specs.Statuses.{status_of_strays, status_of_words};
ghost use Rattle.phone_cli.specs.Streams.{IsSomeTold, Writes, joined, line_of};
ghost use Rattle.phone_engine.specs.Programs.{IsTold};
ghost use Rattle.phone_words.specs.declared.parts.Why.TheVariants.{Memory};

use crate::tool::Reading;
use csv::ByteRecord;
use itoa::Buffer;
use phone_commands::{Customers, FirstLines, LinePlace, Strays};
use phone_device::{ByteSink, Fault, write_all};
use phone_places::Entry;
use phone_table::{Countries, Tally};
use phone_words::{Call, Command, Why, WordError, value_word};
use std::alloc::Global;

/// Writes a text. At `Err` the sink failed, and has taken a beginning of it.
pub(crate) fn write_str<W: ByteSink>(sink: &mut W, text: &str) -> Result<(), Fault>
    ensures { Writes text.now (W.taken sink.old) (W.faults sink.old) (W.taken sink.new)
        (W.faults sink.new) result }
{
    write_all(sink, text.as_bytes())
}

/// Writes these texts, one after the other. At `Err` the sink failed, and has taken a beginning of
/// them.
fn write_texts<E: ByteSink>(errors: &mut E, texts: &[&str]) -> Result<(), Fault>
    ensures { Writes (joined texts.now) (E.taken errors.old) (E.faults errors.old)
        (E.taken errors.new) (E.faults errors.new) result }
{
    for text in texts {
        write_str(errors, text)?;
    }
    Ok(())
}

/// Writes the program's name, these texts and a line feed. At `Err` the sink failed, and has taken
/// a beginning of that line.
fn write_line<E: ByteSink>(errors: &mut E, texts: &[&str]) -> Result<(), Fault>
    ensures { Writes (line_of (joined texts.now)) (E.taken errors.old) (E.faults errors.old)
        (E.taken errors.new) (E.faults errors.new) result }
{
    write_str(errors, "phone: ")?;
    write_texts(errors, texts)?;
    write_str(errors, "\n")
}

/// Writes a line to the sink for errors: the program's name and these texts. It gives the status.
/// That the sink fails changes nothing.
pub(crate) fn say<E: ByteSink>(errors: &mut E, texts: &[&str], status: u8) -> u8
    ensures status { result ≡ status }
    ensures told { IsTold (E.taken errors.old) (E.faults errors.old)
        (line_of (joined texts.now)) (E.taken errors.new) (E.faults errors.new) }
    ensures some { IsSomeTold (E.taken errors.old) (E.faults errors.old)
        (E.taken errors.new) (E.faults errors.new) }
{
    let _written = write_line(errors, texts);
    status
}

/// What is told behind a word that is no option.
const OPTIONS: &str = "; --help lists those that there are";

/// What is told behind a byte that may not stand between fields.
const DELIMITER: &str =
    " is no delimiter: one ASCII character but a quote and a line end, or the word tab";

/// What is told behind a word that names no rules.
const RULES: &str = " names no rules: there are library and crate";

/// What is told behind a word that names no encoding.
const ENCODING: &str = " names no encoding: there are utf-8, utf-16, utf-16le, utf-16be, latin-1 \
    and windows-1252";

/// What is told behind a word that names no level.
const LENIENCY: &str = " names no leniency: there are possible, valid, strict-grouping and \
    exact-grouping";

/// What is told behind a word that names no format.
const FORMAT: &str = " names no format: there are e164, international, national, rfc3966, \
    original and mobile";

/// What is told behind a mode that goes with libphonenumber's rules alone.
const LIBRARY: &str = " knows libphonenumber's rules alone";

/// Tells why words are no call, by which of them, and gives the status.
fn say_why<E: ByteSink>(errors: &mut E, why: Why, word: &str, other: &str, value: &str) -> u8
    ensures status { result ≡ status_of_words why }
    ensures told { IsSomeTold (E.taken errors.old) (E.faults errors.old)
        (E.taken errors.new) (E.faults errors.new) }
    ensures memory { why ≡ Memory → IsTold (E.taken errors.old) (E.faults errors.old)
        (line_of (codes "out of memory")) (E.taken errors.new) (E.faults errors.new) }
{
    match why {
        Why::Unknown => say(errors, &["there is no option ", word, OPTIONS], 2),
        Why::NoValue => say(errors, &[word, " wants a word after it"], 2),
        Why::Together => say(errors, &[word, " and ", other, " don't go together"], 2),
        Why::Without if value.is_empty() => say(errors, &[word, " goes with ", other], 2),
        Why::Without => say(errors, &[word, " goes with ", other, " ", value], 2),
        Why::Delimiter => say(errors, &[word, DELIMITER], 2),
        Why::Skipped => say(errors, &[word, " is no count of lines"], 2),
        Why::Rules => say(errors, &[word, RULES], 2),
        Why::Encoding => say(errors, &[word, ENCODING], 2),
        Why::Leniency => say(errors, &[word, LENIENCY], 2),
        Why::Format => say(errors, &[word, FORMAT], 2),
        Why::LibraryAlone => say(errors, &[word, LIBRARY], 2),
        Why::Memory => say(errors, &["out of memory"], 1),
    }
}

/// Tells why words are no call, and gives the status.
pub(crate) fn say_word_error<E: ByteSink>(errors: &mut E, error: WordError<'_>) -> u8
    ensures status { result ≡ status_of_words error.entry.why }
    ensures told { IsSomeTold (E.taken errors.old) (E.faults errors.old)
        (E.taken errors.new) (E.faults errors.new) }
    ensures memory { error.entry.why ≡ Memory → IsTold (E.taken errors.old)
        (E.faults errors.old) (line_of (codes "out of memory")) (E.taken errors.new)
        (E.faults errors.new) }
{
    let value = value_word(error.other);
    say_why(errors, error.why, error.word, error.other, value)
}

/// Writes which columns a header has, where one that is asked for isn't there.
fn write_columns<E: ByteSink>(
    errors: &mut E,
    name: &str,
    header: &ByteRecord,
) -> Result<(), Fault> {
    write_str(errors, "phone: no column ")?;
    write_str(errors, name)?;
    write_str(errors, "; there are: ")?;
    for column in 0..header.len() {
        if column > 0 {
            write_str(errors, ", ")?;
        }
        if let Some(field) = header.get(column) {
            write_all(errors, field)?;
        }
    }
    write_str(errors, "\n")
}

/// Tells that a header lacks a column, and gives the status.
pub(crate) fn say_columns<E: ByteSink>(errors: &mut E, name: &str, header: &ByteRecord) -> u8
    ensures { result ≡ 2 }
{
    let _written = write_columns(errors, name, header);
    2
}

/// Writes that a column of a name can't be added to a table.
fn write_taken<E: ByteSink>(errors: &mut E, name: &[u8]) -> Result<(), Fault> {
    write_str(errors, "phone: a column ")?;
    write_all(errors, name)?;
    write_str(
        errors,
        " is there already; --prefix NAME sets NAME before each added name\n",
    )
}

/// Tells that a column of a name can't be added to a table, which would have it twice, and gives
/// the status.
pub(crate) fn say_taken<E: ByteSink>(errors: &mut E, name: &[u8]) -> u8
    ensures { result ≡ 2 }
{
    let _written = write_taken(errors, name);
    2
}

/// Tells that the file of a summary is read or written as well, and gives the status.
pub(crate) fn say_taken_summary<E: ByteSink>(errors: &mut E, name: &str) -> u8
    ensures status { result ≡ 2 }
    ensures told { IsSomeTold (E.taken errors.old) (E.faults errors.old)
        (E.taken errors.new) (E.faults errors.new) }
{
    say(
        errors,
        &[name, " is read or written, so it can't have the summary"],
        2,
    )
}

/// What is told behind the count of those that are left out: by which key.
const LEFT_OUT: &str = ", whose number and extension an earlier one has";

/// Tells how many lines gave what, and gives the status.
pub(crate) fn say_firsts<E: ByteSink>(job: &FirstLines, errors: &mut E) -> u8
    ensures { result ≡ 0 }
{
    let (mut added, mut present, mut refused) = (Buffer::new(), Buffer::new(), Buffer::new());
    say(
        errors,
        &[
            "new: ",
            added.format(job.added),
            ", refused: ",
            refused.format(job.refused),
            ", left out: ",
            present.format(job.present),
            LEFT_OUT,
        ],
        0,
    )
}

/// Writes a count after its name.
fn write_count<E: ByteSink>(errors: &mut E, name: &str, count: u64) -> Result<(), Fault> {
    let mut buffer = Buffer::new();
    write_str(errors, name)?;
    write_str(errors, buffer.format(count))
}

/// Writes how many records a table has, and how many of them gave what.
fn write_records<E: ByteSink>(job: &Customers<'_, '_>, errors: &mut E) -> Result<(), Fault> {
    write_count(errors, "phone: records: ", job.totals.counts.records)?;
    write_count(
        errors,
        ", unknown region: ",
        job.totals.counts.unknown_region,
    )?;
    write_count(errors, ", empty: ", job.totals.counts.empty)?;
    write_count(
        errors,
        ", wrong count of fields: ",
        job.totals.counts.wrong_count,
    )?;
    write_count(errors, ", no number: ", job.totals.counts.no_number)?;
    write_count(errors, ", not valid: ", job.totals.counts.invalid)?;
    if job.asked.short.is_some() {
        write_count(errors, ", short numbers: ", job.totals.counts.short)?;
    }
    if job.asked.is_unique {
        write_count(errors, ", left out: ", job.totals.counts.repeated)?;
        write_str(errors, LEFT_OUT)?;
    }
    write_str(errors, "\n")
}

/// Writes how many fields have each word of what is suspicious, where any has one.
fn write_suspicions<E: ByteSink>(suspicions: &Tally, errors: &mut E) -> Result<(), Fault> {
    if suspicions.is_empty() {
        return Ok(());
    }
    let mut is_first = true;
    for (word, count) in suspicions {
        write_str(
            errors,
            if is_first {
                "phone: suspicious: "
            } else {
                ", "
            },
        )?;
        write_str(errors, word.as_str())?;
        write_count(errors, ": ", *count)?;
        is_first = false;
    }
    write_str(errors, "\n")
}

/// Writes a name that is near, and its region.
fn write_near<E: ByteSink>(errors: &mut E, at: usize, entry: &Entry) -> Result<(), Fault> {
    write_str(errors, if at == 0 { ": nearest " } else { ", " })?;
    write_str(errors, entry.name.as_str())?;
    write_str(errors, " (")?;
    write_str(errors, entry.id.as_str())?;
    write_str(errors, ")")
}

/// Writes the names of a table that are nearest to a text; none where there is no table or memory.
fn write_nearest<E: ByteSink>(
    alloc: Global,
    countries: Option<&Countries>,
    text: &str,
    errors: &mut E,
) -> Result<(), Fault> {
    let Some(countries) = countries else {
        return Ok(());
    };
    let Ok(found) = countries.nearest(alloc, text) else {
        return Ok(());
    };
    for (at, entry) in found.iter().enumerate() {
        write_near(errors, at, *entry)?;
    }
    Ok(())
}

/// Writes a text that names no region, how many records have it, and the nearest names.
fn write_unknown<E: ByteSink>(
    alloc: Global,
    countries: Option<&Countries>,
    text: &str,
    count: u64,
    errors: &mut E,
) -> Result<(), Fault> {
    write_str(errors, "phone: unknown region \"")?;
    write_str(errors, text)?;
    write_count(errors, "\" (", count)?;
    write_str(errors, if count == 1 { " record)" } else { " records)" })?;
    write_nearest(alloc, countries, text, errors)?;
    write_str(errors, "\n")
}

/// Writes each text of a table that names no region.
fn write_all_unknown<E: ByteSink>(
    alloc: Global,
    job: &Customers<'_, '_>,
    errors: &mut E,
) -> Result<(), Fault> {
    for at in 0..job.unknown.names.len() {
        if let Some((text, count)) = job.unknown.names.get_index(at) {
            write_unknown(alloc, job.asked.countries, text.as_str(), *count, errors)?;
        }
    }
    Ok(())
}

/// Tells which texts of a table name no region, then how many fields are suspicious, then how many
/// records it has, and how many of them gave what, and gives the status.
pub(crate) fn say_records<E: ByteSink>(alloc: Global, job: &Customers<'_, '_>, errors: &mut E) -> u8
    ensures { result ≡ 0 }
{
    let _told = write_all_unknown(alloc, job, errors);
    let _counted = write_suspicions(&job.totals.summary.suspicions, errors);
    let _written = write_records(job, errors);
    0
}

/// What is told behind them.
const NOT_TEXT: &str =
    "; --encoding NAME reads another encoding, and --lenient leaves the status 0";

/// The name of the file in which a line stands, where several are read.
fn name_of<'w>(files: &[&'w str], place: LinePlace) -> Option<&'w str> {
    if files.len() < 2 {
        return None;
    }
    let at = usize::try_from(place.input.saturating_sub(1)).ok()?;
    Some(*files.get(at)?)
}

/// Tells that so many lines aren't UTF-8, and that the first one stands there, in the file of a
/// name, and gives the status. Of a table they are records.
fn say_stray_lines<'t, E: ByteSink>(
    errors: &mut E,
    is_table: bool,
    count: &'t str,
    line: &'t str,
    of: &'t str,
    name: &'t str,
    lenient: bool,
) -> u8
    ensures { result ≡ (if not lenient then 1 else 0) }
{
    let more = if lenient { "" } else { NOT_TEXT };
    let status = if lenient { 0 } else { 1 };
    let what = if is_table { "record" } else { "line" };
    say(
        errors,
        &[
            what,
            "s that aren't UTF-8: ",
            count,
            ", the first is ",
            what,
            " ",
            line,
            of,
            name,
            more,
        ],
        status,
    )
}

/// Tells how many lines, or records of a table, aren't UTF-8, and where the first one stands, and
/// gives the status.
pub(crate) fn say_strays<E: ByteSink>(
    reading: Reading<'_, '_>,
    strays: Strays,
    errors: &mut E,
) -> u8
    ensures { result ≡ status_of_strays reading.entry.call.now.lenient strays }
{
    let Some(first) = strays.first else {
        return 0;
    };
    let (mut count, mut line) = (Buffer::new(), Buffer::new());
    let count = count.format(strays.count);
    let line = line.format(first.line);
    let Call {
        command,
        lenient,
        ..
    } = reading.call;
    let is_table = *command == Command::Table;
    match name_of(reading.files, first) {
        Some(name) => say_stray_lines(errors, is_table, count, line, " of ", name, *lenient),
        None => say_stray_lines(errors, is_table, count, line, "", "", *lenient),
    }
}
