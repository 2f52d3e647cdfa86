//! The program over its words, files and devices.
ghost use Rattle.std.specs.Prelude.{◌≡◌, ◌⊎◌, ℕ, List, MatchResult, Option, Result};
ghost use Rattle.std.specs.Prelude.{Some, ⊤};
ghost use Rattle.std.specs.Prelude.{codes, is_some, option_map, false, true};
ghost use Rattle.phone_cli.specs.Abouts.{Tells};
ghost use Rattle.phone_cli.specs.Answers.{Answers, AnswersReading, Does, IsLoaded, reads};
ghost use Rattle.phone_cli.specs.Commands.{AnswersInputs, Tables};
ghost use Rattle.phone_cli.specs.Operands.{IsApart, database_of, files_of, has_reader};
ghost use Rattle.phone_cli.specs.Operands.{ignores_words};
ghost use Rattle.phone_cli.specs.Operands.{is_misfit, names_read, region_of, shorts_of};
ghost use Rattle.phone_cli.specs.Operands.{tells_alone};
ghost use Rattle.phone_cli.specs.Programs.{Acts};
ghost use Rattle.phone_cli.specs.Statuses.{status_of};
ghost use Rattle.phone_cli.specs.Streams.{Refuses, streams};
ghost use Rattle.phone_commands.specs.EncodedJobs.{ActsIn};
ghost use Rattle.phone_commands.specs.Jobs.{TakesLines};
ghost use Rattle.phone_commands.specs.Strays.{CountsBegin, CountsLine, no_tally, strays_of};
ghost use Rattle.phone_commands.specs.declared.inputs.Failure.{Failure};
ghost use Rattle.phone_commands.specs.declared.strays.Tally.{Tally};
ghost use Rattle.phone_lines.specs.Ends.{seen};
ghost use Rattle.std.specs.List.{list_any};
ghost use Rattle.std.specs.Str.{bytes_eq};
ghost use Rattle.phone_words.specs.Help.{help_text};
ghost use Rattle.phone_words.specs.Rows.{texts_of};
ghost use Rattle.phone_words.specs.declared.command.Command.TheVariants as command;

use crate::about::{write_regions, write_text, write_version};
use crate::beside::{Place, Target, Unfinished, create_beside, place_of, put_in_place};
use crate::failures::{say_failure, say_no_columns, say_refusal};
use crate::found::found;
use crate::made::asked;
use crate::objects::objects;
use crate::operands::{hint_and_files, say_missing};
use crate::outlet::Outlet;
use crate::say::{say, say_firsts, say_strays, say_taken_summary, say_word_error};
use crate::summing::{say_stray_records, sum_up};
use crate::written::{is_read, taken_summary};
use phone_commands::{
    ByLines, Customers, Encoded, FirstLines, Job, LineTaker, Loaded, Reader, Report, Shorts, Tally,
    Typist, WithInput, Written, countries_in, on_inputs,
};
use phone_device::{ByteSink, Fault, Std};
use phone_encodings::Inlet;
use phone_engine::{Engine, Rules};
use phone_plans::Plans;
use phone_table::{Totals, UnknownNames};
use phone_words::{Call, Command, call_of, help};
use phonenumber::country::Id;
use std::alloc::AllocGlobal;
use std::fs::{self, Files};

/// The program on its words, which come after its own name, as `call_of` reads them: it reads the
/// files that are named, one after the other, or the input, and writes to the output or the file
/// that is named for it. Inputs in another encoding that is named are read as their text in UTF-8.
/// It gives the status to end with, and for each but 0 writes a line to `errors`, unless what read
/// the output is gone; that this fails changes no status. After a table and after `--unique` a line
/// there counts what was read. The file of a table's summary is written after that was answered
/// whole, in the same way as the output's.
///
/// The file gets all that was written at once, where the status is 0: until then it is written
/// beside it, under its name, `.new-` and a number, and at another status removed. What is no
/// file whose bytes are kept, as a pipe, is written as the output is.
///
/// Status 0: all was written. 1: an input, the output, the summary or memory failed, or a record of
/// a table has another count of fields than the header; what is in front is written; or all was,
/// and a line, or a record of a table, isn't UTF-8, where the call isn't lenient. 2: the words are
/// no call, a file isn't there, a file to be written is read as well, a table lacks a header or a
/// column, or the input begins with the mark of UTF-16 and no encoding is named; then nothing of it
/// is written. 3: a database or a table of prefixes was refused; then nothing is written.
pub fn program<R: Files + AllocGlobal, S: Inlet, W: Outlet, E: ByteSink>(
    rt: &R,
    words: &[&str],
    input: &mut S,
    output: &mut W,
    errors: &mut E,
) -> u8
    ensures { Acts (texts_of words.now)
        (streams (seen (S.to_come input.old) (S.faults input.old) (W.taken output.old)
        (W.faults output.old) (W.unflushed output.old)) (E.taken errors.old)
        (E.faults errors.old))
        (streams (seen (S.to_come input.new) (S.faults input.new) (W.taken output.new)
        (W.faults output.new) (W.unflushed output.new)) (E.taken errors.new)
        (E.faults errors.new))
        ((input.new ≡ input.old) × (output.new ≡ output.old)) result }
{
    match call_of(rt.alloc(), words) {
        Ok(call) => on_call(rt, &call, input, output, errors),
        Err(error) => say_word_error(errors, error),
    }
}

/// The program on a call.
fn on_call<R: Files + AllocGlobal, S: Inlet, W: Outlet, E: ByteSink>(
    rt: &R,
    call: &Call<'_>,
    input: &mut S,
    output: &mut W,
    errors: &mut E,
) -> u8
    ensures { Answers call.now
        (streams (seen (S.to_come input.old) (S.faults input.old) (W.taken output.old)
        (W.faults output.old) (W.unflushed output.old)) (E.taken errors.old)
        (E.faults errors.old))
        (streams (seen (S.to_come input.new) (S.faults input.new) (W.taken output.new)
        (W.faults output.new) (W.unflushed output.new)) (E.taken errors.new)
        (E.faults errors.new))
        result }
{
    if ignores_words(call) {
        let more = " goes with no region and no file";
        return say(errors, &[name_alone(call.command), more], 2);
    }
    match call.command {
        Command::Help => on_help(rt, output, errors),
        Command::Regions => {
            let end = write_regions(output);
            ended(end, output, errors)
        }
        Command::Version => {
            let end = write_version(rt, call.database, call.rules, output);
            ended(end, output, errors)
        }
        _ => on_files(rt, call, input, output, errors),
    }
}

/// Whether a command tells of the program or its table alone, whatever else is named.
fn tells_alone(command: Command) -> bool
    ensures { result ≡ tells_alone command }
{
    match command {
        Command::Version | Command::Regions => true,
        _ => false,
    }
}

/// Whether operands are named that a call has no use for.
fn ignores_words(call: &Call<'_>) -> bool
    ensures { result ≡ ignores_words call.now }
{
    tells_alone(call.command) && !call.operands.is_empty()
}

/// The option of a command that goes alone.
fn name_alone(command: Command) -> &'static str {
    match command {
        Command::Version => "--version",
        _ => "--regions",
    }
}

/// The program where help is asked for.
fn on_help<R: AllocGlobal, W: Outlet, E: ByteSink>(rt: &R, output: &mut W, errors: &mut E) -> u8
    ensures { (to_come : Option (List ℕ)) → (faults : ℕ) →
        (Tells help_text (seen to_come faults (W.taken output.old) (W.faults output.old)
        (W.unflushed output.old))
        (seen to_come faults (W.taken output.new) (W.faults output.new)
        (W.unflushed output.new)) result) ⊎
        ((result ≡ 1) × Refuses (codes "out of memory")
        (streams (seen to_come faults (W.taken output.old) (W.faults output.old)
        (W.unflushed output.old)) (E.taken errors.old) (E.faults errors.old))
        (streams (seen to_come faults (W.taken output.new) (W.faults output.new)
        (W.unflushed output.new)) (E.taken errors.new) (E.faults errors.new))) }
{
    let Ok(text) = help(rt.alloc()) else {
        return say(errors, &["out of memory"], 1);
    };
    let end = write_text(output, text.as_str());
    ended(end, output, errors)
}

/// The status after the program has told of itself.
fn ended<W: Outlet, E: ByteSink>(end: Result<(), Fault>, output: &W, errors: &mut E) -> u8
    ensures { MatchResult end (λ _. result ≡ 0) (λ _. result ≡ 1) }
{
    match end {
        Ok(()) => 0,
        Err(_) if output.is_closed() => 1,
        Err(_) => say(errors, &["output failed"], 1),
    }
}

/// What a call reads.
#[derive(Clone, Copy)]
pub(crate) struct Reading<'l, 'w> {
    /// The call.
    pub call: &'l Call<'w>,
    /// The file of the database.
    pub path: &'w str,
    /// The region under which numbers are read.
    pub hint: Option<Id>,
    /// The files of the input.
    pub files: &'l [&'w str],
}

/// The program on a call that reads files.
fn on_files<R: Files + AllocGlobal, S: Inlet, W: Outlet, E: ByteSink>(
    rt: &R,
    call: &Call<'_>,
    input: &mut S,
    output: &mut W,
    errors: &mut E,
) -> u8
    ensures { reads call.now.command ≡ true →
        AnswersReading call.now (region_of call.now) (files_of call.now)
        (streams (seen (S.to_come input.old) (S.faults input.old) (W.taken output.old)
        (W.faults output.old) (W.unflushed output.old)) (E.taken errors.old)
        (E.faults errors.old))
        (streams (seen (S.to_come input.new) (S.faults input.new) (W.taken output.new)
        (W.faults output.new) (W.unflushed output.new)) (E.taken errors.new)
        (E.faults errors.new))
        result }
{
    let (hint, files) = hint_and_files(call.operands.as_slice());
    if let Some(status) = say_missing(rt, hint, files, errors) {
        return status;
    }
    if let Some(words) = misfit(call.command, hint, files) {
        return say(errors, &[words], 2);
    }
    let Some(path) = database_of(call) else {
        return say(errors, &[no_database(call.command)], 2);
    };
    let reading = Reading {
        call,
        path,
        hint,
        files,
    };
    match call.output {
        None => on_reading(rt, reading, input, output, errors),
        Some(name) => to_file(rt, reading, name, input, errors),
    }
}

/// Why a command doesn't go with the region and the files that are named; none where it does.
fn misfit(command: Command, hint: Option<Id>, files: &[&str]) -> Option<&'static str>
    ensures { is_some result ≡ is_misfit command hint files.now }
{
    match (command, hint, files) {
        (Command::Table, _, [_, _, ..]) => Some("--csv reads one file at a time"),
        (Command::FoundObjects, _, [_, _, ..]) => {
            Some("--find with --json reads one file at a time")
        }
        (Command::Short, None, _) => Some("--short wants the region in which numbers are dialled"),
        _ => None,
    }
}

/// The file of the database that a call reads by.
fn database_of<'w>(call: &Call<'w>) -> Option<&'w str>
    ensures { result ≡ database_of call.now }
{
    match call.command {
        Command::Short => call.short_database,
        _ => call.database,
    }
}

/// What is told where no database is named.
fn no_database(command: Command) -> &'static str {
    match command {
        Command::Short => "no database of short numbers: --short-database FILE names one",
        _ => "no database: --database FILE names one",
    }
}

/// The program where a file is written.
fn to_file<R: Files + AllocGlobal, S: Inlet, E: ByteSink>(
    rt: &R,
    reading: Reading<'_, '_>,
    name: &str,
    input: &mut S,
    errors: &mut E,
) -> u8
    ensures { (taken : Option (List ℕ)) → (faults unflushed : ℕ) →
        reads reading.entry.call.now.command ≡ true →
        is_misfit reading.entry.call.now.command reading.entry.hint reading.entry.files.now
        ≡ false →
        database_of reading.entry.call.now ≡ Some reading.entry.path →
        reading.entry.call.now.output ≡ Some name.entry →
        AnswersReading reading.entry.call.now reading.entry.hint reading.entry.files.now
        (streams (seen (S.to_come input.old) (S.faults input.old) taken faults unflushed)
        (E.taken errors.old) (E.faults errors.old))
        (streams (seen (S.to_come input.new) (S.faults input.new) taken faults unflushed)
        (E.taken errors.new) (E.faults errors.new))
        result }
{
    if is_read(rt, reading, name) {
        return say(errors, &[name, " is read, so it can't be written"], 2);
    }
    match place_of(rt, name) {
        Place::Itself => to_file_itself(rt, reading, name, input, errors),
        Place::Beside(target) => to_file_beside(rt, reading, name, &target, input, errors),
        Place::Nowhere => say(errors, &[name, " can't be written"], 1),
    }
}

/// The program where a file is written that isn't one whose bytes are kept, as a pipe.
fn to_file_itself<R: Files + AllocGlobal, S: Inlet, E: ByteSink>(
    rt: &R,
    reading: Reading<'_, '_>,
    name: &str,
    input: &mut S,
    errors: &mut E,
) -> u8
    ensures { (taken : Option (List ℕ)) → (faults unflushed : ℕ) →
        reads reading.entry.call.now.command ≡ true →
        is_misfit reading.entry.call.now.command reading.entry.hint reading.entry.files.now
        ≡ false →
        database_of reading.entry.call.now ≡ Some reading.entry.path →
        reading.entry.call.now.output ≡ Some name.entry →
        list_any (bytes_eq name.now) (names_read reading.entry.call.now reading.entry.path
        reading.entry.files.now) ≡ false →
        AnswersReading reading.entry.call.now reading.entry.hint reading.entry.files.now
        (streams (seen (S.to_come input.old) (S.faults input.old) taken faults unflushed)
        (E.taken errors.old) (E.faults errors.old))
        (streams (seen (S.to_come input.new) (S.faults input.new) taken faults unflushed)
        (E.taken errors.new) (E.faults errors.new))
        result }
{
    match fs::create(rt, name) {
        Ok(file) => on_reading(rt, reading, input, &mut Std::new(file), errors),
        Err(_) => say(errors, &[name, " can't be written"], 1),
    }
}

/// The program where another file is written, which takes the place of the one of the name when all
/// went well, and else is removed.
fn to_file_beside<R: Files + AllocGlobal, S: Inlet, E: ByteSink>(
    rt: &R,
    reading: Reading<'_, '_>,
    name: &str,
    target: &Target,
    input: &mut S,
    errors: &mut E,
) -> u8
    ensures { (taken : Option (List ℕ)) → (faults unflushed : ℕ) →
        reads reading.entry.call.now.command ≡ true →
        is_misfit reading.entry.call.now.command reading.entry.hint reading.entry.files.now
        ≡ false →
        database_of reading.entry.call.now ≡ Some reading.entry.path →
        reading.entry.call.now.output ≡ Some name.entry →
        list_any (bytes_eq name.now) (names_read reading.entry.call.now reading.entry.path
        reading.entry.files.now) ≡ false →
        AnswersReading reading.entry.call.now reading.entry.hint reading.entry.files.now
        (streams (seen (S.to_come input.old) (S.faults input.old) taken faults unflushed)
        (E.taken errors.old) (E.faults errors.old))
        (streams (seen (S.to_come input.new) (S.faults input.new) taken faults unflushed)
        (E.taken errors.new) (E.faults errors.new))
        result }
{
    let Some(unfinished) = create_beside(rt, target) else {
        return say(errors, &[name, " can't be written"], 1);
    };
    let Unfinished { file, name: beside } = unfinished;
    let mut sink = Std::new(file);
    let status = on_reading(rt, reading, input, &mut sink, errors);
    if put_in_place(
        rt,
        status,
        &sink.device,
        beside.as_str(),
        target.name.as_str(),
    ) {
        return status;
    }
    say(errors, &[name, " can't be written"], 1)
}

/// The program where the output is there: the database is loaded.
fn on_reading<R: Files + AllocGlobal, S: Inlet, W: Outlet, E: ByteSink>(
    rt: &R,
    reading: Reading<'_, '_>,
    input: &mut S,
    output: &mut W,
    errors: &mut E,
) -> u8
    ensures { reads reading.entry.call.now.command ≡ true →
        is_misfit reading.entry.call.now.command reading.entry.hint reading.entry.files.now
        ≡ false →
        Does reading.entry.call.now reading.entry.hint reading.entry.files.now
        (streams (seen (S.to_come input.old) (S.faults input.old) (W.taken output.old)
        (W.faults output.old) (W.unflushed output.old)) (E.taken errors.old)
        (E.faults errors.old))
        (streams (seen (S.to_come input.new) (S.faults input.new) (W.taken output.new)
        (W.faults output.new) (W.unflushed output.new)) (E.taken errors.new)
        (E.faults errors.new))
        result }
{
    match Plans::load(rt, reading.path) {
        Ok(database) => on_database(rt, reading, database, input, output, errors),
        Err(refusal) => say_refusal(rt.alloc(), reading.path, &refusal, errors),
    }
}

/// The program where the database is loaded.
fn on_database<R: Files + AllocGlobal, S: Inlet, W: Outlet, E: ByteSink>(
    rt: &R,
    reading: Reading<'_, '_>,
    database: Plans,
    input: &mut S,
    output: &mut W,
    errors: &mut E,
) -> u8
    ensures { reads reading.entry.call.now.command ≡ true →
        is_misfit reading.entry.call.now.command reading.entry.hint reading.entry.files.now
        ≡ false →
        Does reading.entry.call.now reading.entry.hint reading.entry.files.now
        (streams (seen (S.to_come input.old) (S.faults input.old) (W.taken output.old)
        (W.faults output.old) (W.unflushed output.old)) (E.taken errors.old)
        (E.faults errors.old))
        (streams (seen (S.to_come input.new) (S.faults input.new) (W.taken output.new)
        (W.faults output.new) (W.unflushed output.new)) (E.taken errors.new)
        (E.faults errors.new))
        result }
{
    match (reading.call.command, reading.hint) {
        (Command::Unique, _) => firsts(rt, reading, database, input, output, errors),
        (Command::Short, Some(region)) => {
            let database = &database;
            let mut taker = Shorts { database, region };
            run_lines(rt, reading, &mut taker, input, output, errors)
        }
        _ => with_shorts(rt, reading, &database, input, output, errors),
    }
}

/// The file of the database that tells which numbers of a call are short numbers: for objects and
/// tables, by libphonenumber's rules.
fn shorts_of<'w>(reading: Reading<'_, 'w>) -> Option<&'w str>
    ensures { result ≡ shorts_of reading.entry.call.now }
{
    match reading.call.rules {
        Rules::Library => match reading.call.command {
            Command::Objects | Command::Table => reading.call.short_database,
            _ => None,
        },
        Rules::Crate => None,
    }
}

/// The program where that database is loaded too.
fn with_shorts<R: Files + AllocGlobal, S: Inlet, W: Outlet, E: ByteSink>(
    rt: &R,
    reading: Reading<'_, '_>,
    database: &Plans,
    input: &mut S,
    output: &mut W,
    errors: &mut E,
) -> u8
    ensures { has_reader reading.entry.call.now.command ≡ true →
        Does reading.entry.call.now reading.entry.hint reading.entry.files.now
        (streams (seen (S.to_come input.old) (S.faults input.old) (W.taken output.old)
        (W.faults output.old) (W.unflushed output.old)) (E.taken errors.old)
        (E.faults errors.old))
        (streams (seen (S.to_come input.new) (S.faults input.new) (W.taken output.new)
        (W.faults output.new) (W.unflushed output.new)) (E.taken errors.new)
        (E.faults errors.new))
        result }
{
    let Some(path) = shorts_of(reading) else {
        return by_reader(rt, reading, database, None, input, output, errors);
    };
    match Plans::load(rt, path) {
        Ok(short) => by_reader(rt, reading, database, Some(&short), input, output, errors),
        Err(refusal) => say_refusal(rt.alloc(), path, &refusal, errors),
    }
}

/// What reads the numbers of a call.
fn reader_of<'d>(
    reading: Reading<'_, '_>,
    database: &'d Plans,
    short: Option<&'d Plans>,
) -> Reader<'d>
    ensures rules { result.engine.rules ≡ reading.entry.call.now.rules }
    ensures hint { result.engine.hint ≡ reading.entry.hint }
    ensures database { result.engine.database.now ≡ database.now }
    ensures short { result.short ≡ short.entry }
{
    let Reading { call, hint, .. } = reading;
    let engine = Engine {
        database,
        rules: call.rules,
        hint,
    };
    Reader { engine, short }
}

/// The program where all databases are loaded, so that a reader reads the numbers.
fn by_reader<R: Files + AllocGlobal, S: Inlet, W: Outlet, E: ByteSink>(
    rt: &R,
    reading: Reading<'_, '_>,
    database: &Plans,
    short: Option<&Plans>,
    input: &mut S,
    output: &mut W,
    errors: &mut E,
) -> u8
    ensures { has_reader reading.entry.call.now.command ≡ true →
        IsLoaded (shorts_of reading.entry.call.now)
        (option_map (λ d. d.now) short.entry) →
        Does reading.entry.call.now reading.entry.hint reading.entry.files.now
        (streams (seen (S.to_come input.old) (S.faults input.old) (W.taken output.old)
        (W.faults output.old) (W.unflushed output.old)) (E.taken errors.old)
        (E.faults errors.old))
        (streams (seen (S.to_come input.new) (S.faults input.new) (W.taken output.new)
        (W.faults output.new) (W.unflushed output.new)) (E.taken errors.new)
        (E.faults errors.new))
        result }
{
    let reader = reader_of(reading, database, short);
    match reading.call.command {
        Command::ReportWithInput => {
            let mut taker = WithInput {
                engine: reader.engine,
            };
            run_lines(rt, reading, &mut taker, input, output, errors)
        }
        Command::Objects => objects(rt, reading, reader, input, output, errors),
        Command::Find | Command::FoundObjects | Command::FoundRecords => {
            found(rt, reading, reader, input, output, errors)
        }
        Command::Typed => {
            let mut taker = Typist::new(reader.engine.database, reader.engine.hint);
            run_lines(rt, reading, &mut taker, input, output, errors)
        }
        Command::Written(form) => {
            let engine = reader.engine;
            let mut taker = Written { engine, form };
            run_lines(rt, reading, &mut taker, input, output, errors)
        }
        Command::Table => customers(rt, reading, reader, input, output, errors),
        _ => run_lines(rt, reading, &mut Report { reader }, input, output, errors),
    }
}

/// Answers the inputs, and tells of what failed, or else of what isn't UTF-8.
fn run<R: Files + AllocGlobal, S: Inlet, W: Outlet, E: ByteSink, J: Job>(
    rt: &R,
    reading: Reading<'_, '_>,
    job: &mut J,
    input: &mut S,
    output: &mut W,
    errors: &mut E,
) -> u8
    ensures { (end : Result ⊤ Failure) × (last : J) × AnswersInputs
        (ActsIn reading.entry.call.now.encoding J.acts) reading.entry.files.now job.old
        (seen (S.to_come input.old) (S.faults input.old) (W.taken output.old)
        (W.faults output.old) (W.unflushed output.old))
        (seen (S.to_come input.new) (S.faults input.new) (W.taken output.new)
        (W.faults output.new) (W.unflushed output.new))
        last end ×
        (result ≡ status_of reading.entry.call.now.lenient (J.met last) end) }
{
    let encoding = reading.call.encoding;
    let mut job = Encoded { job, encoding };
    let end = on_inputs(
        rt,
        reading.files,
        encoding.is_none(),
        input,
        output,
        &mut job,
    );
    output.end_progress();
    match end {
        Ok(()) => say_strays(reading, job.strays(), errors),
        Err(failure) => say_failure(reading.call, &failure, output.is_closed(), errors),
    }
}

/// Answers the lines of the inputs, and tells of what failed, or else of those that aren't UTF-8.
pub(crate) fn run_lines<R: Files + AllocGlobal, S: Inlet, W: Outlet, E: ByteSink, T: LineTaker>(
    rt: &R,
    reading: Reading<'_, '_>,
    taker: &mut T,
    input: &mut S,
    output: &mut W,
    errors: &mut E,
) -> u8
    ensures { (end : Result ⊤ Failure) × (last : T) × (tally : Tally) × AnswersInputs
        (ActsIn reading.entry.call.now.encoding (TakesLines T.begins T.gives))
        reading.entry.files.now taker.old
        (seen (S.to_come input.old) (S.faults input.old) (W.taken output.old)
        (W.faults output.old) (W.unflushed output.old))
        (seen (S.to_come input.new) (S.faults input.new) (W.taken output.new)
        (W.faults output.new) (W.unflushed output.new))
        last end × AnswersInputs
        (ActsIn reading.entry.call.now.encoding (TakesLines CountsBegin CountsLine))
        reading.entry.files.now (no_tally reading.entry.call.now.skipped)
        (seen (S.to_come input.old) (S.faults input.old) (W.taken output.old)
        (W.faults output.old) (W.unflushed output.old))
        (seen (S.to_come input.new) (S.faults input.new) (W.taken output.new)
        (W.faults output.new) (W.unflushed output.new))
        tally end ×
        (result ≡ status_of reading.entry.call.now.lenient tally.strays end) }
{
    let tally = Tally::new(reading.call.skipped);
    let mut job = ByLines { taker, tally };
    run(rt, reading, &mut job, input, output, errors)
}

/// The first line of each number; then their counts are told.
fn firsts<R: Files + AllocGlobal, S: Inlet, W: Outlet, E: ByteSink>(
    rt: &R,
    reading: Reading<'_, '_>,
    database: Plans,
    input: &mut S,
    output: &mut W,
    errors: &mut E,
) -> u8
    ensures { reading.entry.call.now.command ≡ command.Unique →
        Does reading.entry.call.now reading.entry.hint reading.entry.files.now
        (streams (seen (S.to_come input.old) (S.faults input.old) (W.taken output.old)
        (W.faults output.old) (W.unflushed output.old)) (E.taken errors.old)
        (E.faults errors.old))
        (streams (seen (S.to_come input.new) (S.faults input.new) (W.taken output.new)
        (W.faults output.new) (W.unflushed output.new)) (E.taken errors.new)
        (E.faults errors.new))
        result }
{
    let Some(mut taker) = FirstLines::new(database, reading.call.rules, reading.hint) else {
        let more = " can't tell numbers apart: a calling code begins another";
        return say(errors, &["the database ", reading.path, more], 3);
    };
    match run_lines(rt, reading, &mut taker, input, output, errors) {
        0 => say_firsts(&taker, errors),
        status => status,
    }
}

/// A table of customers, unless its summary's file is read or written as well.
fn customers<R: Files + AllocGlobal, S: Inlet, W: Outlet, E: ByteSink>(
    rt: &R,
    reading: Reading<'_, '_>,
    reader: Reader<'_>,
    input: &mut S,
    output: &mut W,
    errors: &mut E,
) -> u8
    ensures { reading.entry.call.now.command ≡ command.Table →
        reader.entry.engine.rules ≡ reading.entry.call.now.rules →
        reader.entry.engine.hint ≡ reading.entry.hint →
        IsLoaded (shorts_of reading.entry.call.now)
        (option_map (λ d. d.now) reader.entry.short) →
        Does reading.entry.call.now reading.entry.hint reading.entry.files.now
        (streams (seen (S.to_come input.old) (S.faults input.old) (W.taken output.old)
        (W.faults output.old) (W.unflushed output.old)) (E.taken errors.old)
        (E.faults errors.old))
        (streams (seen (S.to_come input.new) (S.faults input.new) (W.taken output.new)
        (W.faults output.new) (W.unflushed output.new)) (E.taken errors.new)
        (E.faults errors.new))
        result }
{
    match taken_summary(rt, reading) {
        Some(name) => say_taken_summary(errors, name),
        None => on_table(rt, reading, reader, input, output, errors),
    }
}

/// A table of customers, with further columns where they are asked for.
fn on_table<R: Files + AllocGlobal, S: Inlet, W: Outlet, E: ByteSink>(
    rt: &R,
    reading: Reading<'_, '_>,
    reader: Reader<'_>,
    input: &mut S,
    output: &mut W,
    errors: &mut E,
) -> u8
    ensures { reading.entry.call.now.command ≡ command.Table →
        reader.entry.engine.rules ≡ reading.entry.call.now.rules →
        reader.entry.engine.hint ≡ reading.entry.hint →
        IsLoaded (shorts_of reading.entry.call.now)
        (option_map (λ d. d.now) reader.entry.short) →
        IsApart reading.entry.call.now reading.entry.files.now →
        Does reading.entry.call.now reading.entry.hint reading.entry.files.now
        (streams (seen (S.to_come input.old) (S.faults input.old) (W.taken output.old)
        (W.faults output.old) (W.unflushed output.old)) (E.taken errors.old)
        (E.faults errors.old))
        (streams (seen (S.to_come input.new) (S.faults input.new) (W.taken output.new)
        (W.faults output.new) (W.unflushed output.new)) (E.taken errors.new)
        (E.faults errors.new))
        result }
{
    let table = reading.call.table;
    let loaded = match Loaded::new(rt, table.further) {
        Ok(loaded) => loaded,
        Err(why) => return say_no_columns(rt.alloc(), why, errors),
    };
    let countries = match countries_in(rt, table.countries) {
        Ok(countries) => countries,
        Err(why) => return say_no_columns(rt.alloc(), why, errors),
    };
    let Ok(extra) = loaded.extra(rt.alloc()) else {
        return say(errors, &["out of memory"], 1);
    };
    let mut job = Customers {
        engine: reader.engine,
        asked: asked(table, reader, extra.as_slice(), countries.as_ref()),
        totals: Totals::new(rt.alloc()),
        unknown: UnknownNames::new(rt.alloc()),
    };
    run_table(rt, reading, &mut job, input, output, errors)
}

/// Answers a table, and tells what failed, or else its counts.
fn run_table<R: Files + AllocGlobal, S: Inlet, W: Outlet, E: ByteSink>(
    rt: &R,
    reading: Reading<'_, '_>,
    job: &mut Customers<'_, '_>,
    input: &mut S,
    output: &mut W,
    errors: &mut E,
) -> u8
    ensures { (end : Result ⊤ Failure) × (last : Totals) × AnswersInputs
        (ActsIn reading.entry.call.now.encoding (Tables
        job.old.engine.rules job.old.engine.database.now job.old.engine.hint job.old.asked))
        reading.entry.files.now job.old.totals
        (seen (S.to_come input.old) (S.faults input.old) (W.taken output.old)
        (W.faults output.old) (W.unflushed output.old))
        (seen (S.to_come input.new) (S.faults input.new) (W.taken output.new)
        (W.faults output.new) (W.unflushed output.new))
        last end ×
        ((result ≡ status_of reading.entry.call.now.lenient (strays_of last.counts) end) ⊎
        ((status_of reading.entry.call.now.lenient (strays_of last.counts) end ≡ 0) ×
        (result ≡ 1) × (is_some reading.entry.call.now.table.summary ≡ true))) }
{
    match run(rt, reading, job, input, output, errors) {
        0 => sum_up(rt, reading.call.table.summary, job, errors),
        status => {
            say_stray_records(rt.alloc(), job, errors);
            status
        }
    }
}
