//! The numbers that are found in the inputs of a call.
ghost use Rattle.std.specs.Prelude.{◌≡◌, true};
ghost use Rattle.std.specs.Option.{option_copied};
ghost use Rattle.phone_cli.specs.Answers.{Does, IsLoaded, finds};
ghost use Rattle.phone_cli.specs.Operands.{alternates_of};
ghost use Rattle.phone_cli.specs.Streams.{streams};
ghost use Rattle.phone_lines.specs.Ends.{seen};

use crate::failures::say_refusal;
use crate::made::finder_of;
use crate::outlet::Outlet;
use crate::tool::{Reading, run_lines};
use phone_commands::Reader;
use phone_device::ByteSink;
use phone_encodings::Inlet;
use phone_plans::Plans;
use phone_words::{Call, Level};
use std::alloc::AllocGlobal;
use std::fs::Files;

/// The file of the database of other formats by which a call finds numbers: where groups are asked
/// for.
fn alternates_of<'w>(call: &Call<'w>) -> Option<&'w str>
    ensures { result ≡ alternates_of call.now }
{
    match call.level {
        Some(Level::StrictGrouping | Level::ExactGrouping) => call.alternates,
        _ => None,
    }
}

/// The program where numbers are to be found in the inputs: the database of other formats is
/// loaded, where one is to be read.
pub(crate) fn found<R: Files + AllocGlobal, S: Inlet, W: Outlet, E: ByteSink>(
    rt: &R,
    reading: Reading<'_, '_>,
    reader: Reader<'_>,
    input: &mut S,
    output: &mut W,
    errors: &mut E,
) -> u8
    ensures { finds reading.entry.call.now.command ≡ true →
        reader.entry.engine.rules ≡ reading.entry.call.now.rules →
        reader.entry.engine.hint ≡ reading.entry.hint →
        Does reading.entry.call.now reading.entry.hint reading.entry.files.now
        (streams (seen (S.to_come input.old) (S.faults input.old) (W.taken output.old)
        (W.faults output.old) (W.unflushed output.old)) (E.taken errors.old)
        (E.faults errors.old))
        (streams (seen (S.to_come input.new) (S.faults input.new) (W.taken output.new)
        (W.faults output.new) (W.unflushed output.new)) (E.taken errors.new)
        (E.faults errors.new))
        result }
{
    let Some(path) = alternates_of(reading.call) else {
        return found_by(rt, reading, reader, None, input, output, errors);
    };
    match Plans::load(rt, path) {
        Ok(alternates) => found_by(
            rt,
            reading,
            reader,
            Some(&alternates),
            input,
            output,
            errors,
        ),
        Err(refusal) => say_refusal(rt.alloc(), path, &refusal, errors),
    }
}

/// The same with the database of other formats that is to be read.
fn found_by<R: Files + AllocGlobal, S: Inlet, W: Outlet, E: ByteSink>(
    rt: &R,
    reading: Reading<'_, '_>,
    reader: Reader<'_>,
    alternates: Option<&Plans>,
    input: &mut S,
    output: &mut W,
    errors: &mut E,
) -> u8
    requires { IsLoaded (alternates_of reading.call.now) (option_copied alternates) }
    ensures { finds reading.entry.call.now.command ≡ true →
        reader.entry.engine.rules ≡ reading.entry.call.now.rules →
        reader.entry.engine.hint ≡ reading.entry.hint →
        Does reading.entry.call.now reading.entry.hint reading.entry.files.now
        (streams (seen (S.to_come input.old) (S.faults input.old) (W.taken output.old)
        (W.faults output.old) (W.unflushed output.old)) (E.taken errors.old)
        (E.faults errors.old))
        (streams (seen (S.to_come input.new) (S.faults input.new) (W.taken output.new)
        (W.faults output.new) (W.unflushed output.new)) (E.taken errors.new)
        (E.faults errors.new))
        result }
{
    let mut taker = finder_of(reading, reader, alternates);
    run_lines(rt, reading, &mut taker, input, output, errors)
}
