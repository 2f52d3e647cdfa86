//! What the report says of one line.
ghost use Rattle.std.specs.Prelude.{IfOk, string_bytes};
ghost use Rattle.phone_engine.specs.ReportLines.{IsReportLine};

use crate::engine::Engine;
use crate::number::number_line;
use crate::words::refusal_line;
use phonenumber::FormatError;
use std::alloc::AllocError;

/// The report line of a line of bytes. Refused only for memory.
pub(crate) fn line_of(engine: Engine<'_>, line: &[u8]) -> Result<String, AllocError>
    ensures { IfOk result (λ text. IsReportLine engine.entry.rules engine.entry.database.now
        engine.entry.hint line.now (string_bytes text)) }
{
    let alloc = engine.database.allocator();
    let Ok(text) = std::str::from_utf8(line) else {
        return String::from_str(alloc, "error\t0\tnot UTF-8");
    };
    let number = match engine.parse(text) {
        Ok(number) => number,
        Err(error) => return refusal_line(alloc, error),
    };
    match number_line(engine, &number) {
        Ok(line) => Ok(line),
        Err(FormatError::Memory) => Err(AllocError),
        Err(FormatError::UnknownCode) => unreachable!(),
    }
}
