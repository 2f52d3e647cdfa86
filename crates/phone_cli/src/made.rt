//! What answers the inputs of a call, as its words ask for it.
ghost use Rattle.std.specs.Prelude.{◌≡◌, ◌||◌, is_some, option_and_then, option_map};
ghost use Rattle.std.specs.Option.{option_copied};
ghost use Rattle.phone_cli.specs.Answers.{IsAsked, IsLoaded, IsMatching};
ghost use Rattle.phone_cli.specs.Commands.{found_form, leniency_of};
ghost use Rattle.phone_cli.specs.Operands.{alternates_of};
ghost use Rattle.phone_commands.specs.Columns as columns;
ghost use Rattle.phone_commands.specs.ObjectLines.{after_one};

use crate::tool::Reading;
use phone_commands::{Finder, FoundForm, Matching, Objects, Reader};
use phone_matches::Leniency;
use phone_plans::Plans;
use phone_table::{Asked, Countries, Extra};
use phone_words::{Command, Level, Table};

/// What answers each line by an object, and tells these columns of it.
pub(crate) fn objects_of<'d>(
    reading: Reading<'_, '_>,
    reader: Reader<'d>,
    columns: &'d [Extra<'d>],
) -> Objects<'d>
    ensures reader { result.reader ≡ reader.entry }
    ensures extra { result.extra ≡ columns.entry }
    ensures place { result.place ≡ after_one reading.entry.call.now.skipped }
{
    let place = reading.call.skipped.saturating_add(1);
    Objects {
        reader,
        extra: columns,
        place,
    }
}

/// How a command tells the numbers that it finds.
fn found_form(command: Command) -> FoundForm
    ensures { result ≡ found_form command }
{
    match command {
        Command::FoundObjects => FoundForm::Object,
        Command::FoundRecords => FoundForm::Record,
        _ => FoundForm::Fields,
    }
}

/// The leniency of a level.
fn leniency_of(level: Level) -> Leniency
    ensures { result ≡ leniency_of level }
{
    match level {
        Level::Possible => Leniency::Possible,
        Level::Valid => Leniency::Valid,
        Level::StrictGrouping => Leniency::StrictGrouping,
        Level::ExactGrouping => Leniency::ExactGrouping,
    }
}

/// How libphonenumber's matcher finds numbers, where a level is named, with this database of other
/// formats.
fn matching_of<'d>(level: Option<Level>, alternates: Option<&'d Plans>) -> Option<Matching<'d>>
    ensures leniency { option_map (λ m. m.leniency) result ≡ option_map leniency_of level }
    ensures alternates { option_and_then (λ m. option_copied m.alternates) result ≡
        option_and_then (λ _. option_copied alternates.entry) level }
{
    match level {
        Some(level) => Some(Matching {
            leniency: leniency_of(level),
            alternates,
        }),
        None => None,
    }
}

/// What finds the numbers that stand in the inputs, with this database of other formats.
pub(crate) fn finder_of<'d, 'l>(
    reading: Reading<'l, 'l>,
    reader: Reader<'d>,
    alternates: Option<&'d Plans>,
) -> Finder<'d, 'l>
    requires { IsLoaded (alternates_of reading.call.now) (option_copied alternates) }
    ensures reader { result.reader ≡ reader.entry }
    ensures matching { IsMatching reading.entry.call.now result.matching }
    ensures form { result.form ≡ found_form reading.entry.call.now.command }
    ensures first { result.first ≡ after_one reading.entry.call.now.skipped }
    ensures place { result.place ≡ after_one reading.entry.call.now.skipped }
    ensures names { result.names ≡ reading.entry.files }
    ensures begun { result.begun ≡ 0 }
{
    let first = reading.call.skipped.saturating_add(1);
    Finder {
        reader,
        matching: matching_of(reading.call.level, alternates),
        form: found_form(reading.call.command),
        first,
        place: first,
        names: reading.files,
        begun: 0,
    }
}

/// What is asked of a table that this reads, with these further columns and names of regions.
pub(crate) fn asked<'t>(
    table: Table<'t>,
    reader: Reader<'t>,
    extra: &'t [Extra<'t>],
    countries: Option<&'t Countries>,
) -> Asked<'t>
    ensures { columns.asked extra.entry.now ≡ columns.told_for table.entry.further →
        is_some countries.entry ≡ is_some table.entry.countries →
        IsAsked table.entry (option_map (λ d. d.now) reader.entry.short) result }
{
    Asked {
        number: table.column,
        region: table.region_column,
        countries,
        delimiter: table.delimiter,
        else_hint: table.fallback_region,
        mark_bad: table.mark_bad,
        is_unique: table.is_unique,
        tells_duplicates: table.duplicates,
        front: table.front,
        extra,
        short: reader.short,
        is_summed: is_summed(table),
    }
}

/// Whether a summary is made: where a file is named for it, or words of what is suspicious are
/// asked for, whose counts are told.
fn is_summed(table: Table<'_>) -> bool
    ensures { result ≡ (is_some table.entry.summary || table.entry.further.suspicion) }
{
    table.summary.is_some() || table.further.suspicion
}
