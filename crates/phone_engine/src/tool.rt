//! The program `phone_tool` over its words and devices: the engine by the rules of the crate.
ghost use Rattle.std.specs.Prelude.{◌≡◌, ℕ, List, MatchResult, map};
ghost use Rattle.std.specs.Borrow.{Bor};
ghost use Rattle.std.specs.Result.{result_map_both};
ghost use Rattle.phone_lines.specs.Ends.{Ends, seen};
ghost use Rattle.phone_engine.specs.Programs.{Acts, IsTold, asked, failed_line, refused_line};
ghost use Rattle.phone_engine.specs.Programs.{status_of};
ghost use Rattle.phone_engine.specs.ReportLines.{IsReportLine};
ghost use Rattle.phone_values.specs.declared.rules.Rules.TheVariants.{Crate};

use crate::engine::Engine;
use phone_device::{ByteSink, ByteSource, write_all};
use phone_lines::RunError;
use phone_meta::Database;
use phone_plans::Plans;
use phone_values::Rules;
use phone_values::country::Id;
use std::alloc::AllocGlobal;
use std::fs::Files;

/// How the program is called.
const USAGE: &str = "usage: phone_tool DATABASE [REGION]\n";

/// Reads lines from a source and writes the report on them to a sink, by the rules of the crate:
/// [`Engine::report`] tells what is written, and of errors.
pub fn run<S: ByteSource, W: ByteSink>(
    database: &Plans,
    hint: Option<Id>,
    source: &mut S,
    sink: &mut W,
) -> Result<(), RunError>
    ensures ends { Ends (IsReportLine Crate database.now hint)
        (seen (S.to_come source.old) (S.faults source.old) (W.taken sink.old)
        (W.faults sink.old) (W.unflushed sink.old))
        (seen (S.to_come source.new) (S.faults source.new) (W.taken sink.new)
        (W.faults sink.new) (W.unflushed sink.new))
        result }
{
    let engine = Engine {
        database,
        rules: Rules::Crate,
        hint,
    };
    engine.report(source, sink)
}

/// The program `phone_tool DATABASE [REGION]`: it loads the database of a file by `Database::load`,
/// and writes the report on the lines of the source to the sink, under the region as a hint where
/// one is given. It gives the status to end with, and for each but 0 writes one line to `errors`;
/// that this fails changes no status.
///
/// The words are those after the program's own name. Status 0: the report was written. 1: `input
/// failed`, `output failed` or `out of memory`, as `run` refused. 2: the usage, for no word or more
/// than two, or `unknown region` where the second is no region's id; both before the file is
/// opened. 3: `database refused: N`, by the number of its refusal.
pub fn program<R: Files + AllocGlobal, S: ByteSource, W: ByteSink, E: ByteSink>(
    rt: &R,
    words: &[&str],
    source: &mut S,
    sink: &mut W,
    errors: &mut E,
) -> u8
    ensures { Acts record {
      idle = (source.new ≡ source.old) × (sink.new ≡ sink.old);
      silent = errors.new ≡ errors.old;
      tells = λ line. IsTold (E.taken errors.old) (E.faults errors.old) line
          (E.taken errors.new) (E.faults errors.new);
      runs = λ db hint. Ends (IsReportLine Crate db hint)
          (seen (S.to_come source.old) (S.faults source.old) (W.taken sink.old)
          (W.faults sink.old) (W.unflushed sink.old))
          (seen (S.to_come source.new) (S.faults source.new) (W.taken sink.new)
          (W.faults sink.new) (W.unflushed sink.new));
    } (map (λ (w : Bor (List ℕ)). w.now) words.now) result }
{
    let (path, hint) = match file_and_hint(words) {
        Ok(asked) => asked,
        Err(line) => return status_after(errors, line, 2),
    };
    let database = match Database::load(rt, path) {
        Ok(database) => database,
        Err(error) => return status_after(errors, database_refused(error.number()), 3),
    };
    let end = run(&database, hint, source, sink);
    status_of_run(errors, end)
}

/// The file and the hint that words give; the line that is told of wrong ones.
fn file_and_hint<'w>(words: &[&'w str]) -> Result<(&'w str, Option<Id>), &'static str>
    ensures { result_map_both (λ a. a.1) (λ (line : Bor (List ℕ)). line.now) result ≡
        asked (map (λ (w : Bor (List ℕ)). w.now) words.now) }
{
    match words {
        [path] => Ok((*path, None)),
        [path, region] => match region.parse::<Id>() {
            Ok(id) => Ok((*path, Some(id))),
            Err(_) => Err("unknown region\n"),
        },
        _ => Err(USAGE),
    }
}

/// Tells of a run that was refused, and gives the status of a run that ended so.
fn status_of_run<E: ByteSink>(errors: &mut E, end: Result<(), RunError>) -> u8
    ensures status { result ≡ status_of end }
    ensures said { MatchResult end (λ _. errors.new ≡ errors.old) (λ e.
        IsTold (E.taken errors.old) (E.faults errors.old) (failed_line e)
        (E.taken errors.new) (E.faults errors.new)) }
{
    match end {
        Ok(()) => 0,
        Err(RunError::Input) => status_after(errors, "input failed\n", 1),
        Err(RunError::Output) => status_after(errors, "output failed\n", 1),
        Err(RunError::Memory) => status_after(errors, "out of memory\n", 1),
    }
}

/// Writes a line, given with its line feed, to the sink for errors, and gives the status. That the
/// sink fails changes nothing.
pub fn status_after<E: ByteSink>(errors: &mut E, line: &str, status: u8) -> u8
    ensures status { result ≡ status }
    ensures told { IsTold (E.taken errors.old) (E.faults errors.old) line.now
        (E.taken errors.new) (E.faults errors.new) }
{
    let _told = write_all(errors, line.as_bytes());
    status
}

/// The line for a database that was refused, by the number of its refusal, from 1 to 8; another
/// number counts as 8. It ends in a line feed.
pub fn database_refused(number: u8) -> &'static str
    ensures { result.now ≡ refused_line number }
{
    match number {
        1 => "database refused: 1\n",
        2 => "database refused: 2\n",
        3 => "database refused: 3\n",
        4 => "database refused: 4\n",
        5 => "database refused: 5\n",
        6 => "database refused: 6\n",
        7 => "database refused: 7\n",
        _ => "database refused: 8\n",
    }
}
