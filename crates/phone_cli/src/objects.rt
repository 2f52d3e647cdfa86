//! The program where each line is answered by an object.
ghost use Rattle.std.specs.Prelude.{◌≡◌, option_map};
ghost use Rattle.phone_cli.specs.Answers.{Does, IsLoaded};
ghost use Rattle.phone_cli.specs.Operands.{shorts_of};
ghost use Rattle.phone_cli.specs.Streams.{streams};
ghost use Rattle.phone_lines.specs.Ends.{seen};
ghost use Rattle.phone_words.specs.declared.command.Command.TheVariants as command;

use crate::failures::say_no_columns;
use crate::made::objects_of;
use crate::outlet::Outlet;
use crate::say::say;
use crate::tool::{Reading, run_lines};
use phone_commands::{Loaded, Reader};
use phone_device::ByteSink;
use phone_encodings::Inlet;
use std::alloc::AllocGlobal;
use std::fs::Files;

/// An object for each line, with further texts where they are asked for.
pub(crate) fn objects<R: Files + AllocGlobal, S: Inlet, W: Outlet, E: ByteSink>(
    rt: &R,
    reading: Reading<'_, '_>,
    reader: Reader<'_>,
    input: &mut S,
    output: &mut W,
    errors: &mut E,
) -> u8
    ensures { reading.entry.call.now.command ≡ command.Objects →
        reader.entry.engine.rules ≡ reading.entry.call.now.rules →
        reader.entry.engine.hint ≡ reading.entry.hint →
        IsLoaded (shorts_of reading.entry.call.now)
        (option_map (λ d. d.now) reader.entry.short) →
        Does reading.entry.call.now reading.entry.hint reading.entry.files.now
        (streams (seen (S.to_come input.old) (S.faults input.old) (W.taken output.old)
        (W.faults output.old) (W.unflushed output.old)) (E.taken errors.old)
        (E.faults errors.old))
        (streams (seen (S.to_come input.new) (S.faults input.new) (W.taken output.new)
        (W.faults output.new) (W.unflushed output.new)) (E.taken errors.new)
        (E.faults errors.new))
        result }
{
    let loaded = match Loaded::new(rt, reading.call.table.further) {
        Ok(loaded) => loaded,
        Err(why) => return say_no_columns(rt.alloc(), why, errors),
    };
    let Ok(extra) = loaded.extra(rt.alloc()) else {
        return say(errors, &["out of memory"], 1);
    };
    let mut taker = objects_of(reading, reader, extra.as_slice());
    run_lines(rt, reading, &mut taker, input, output, errors)
}
