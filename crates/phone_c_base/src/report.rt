//! The report line of a line, in a buffer.
ghost use Rattle.std.specs.Prelude.{◌≡◌};
ghost use Rattle.phone_engine.specs.ReportLines.{IsReportLine};
ghost use Rattle.phone_c_base.specs.Buffers.{IsTooLongA, IsWrittenA};

use crate::buffer::give;
use crate::status::{MEMORY, OK, TOO_SMALL};
use phone_engine::Engine;

/// Writes the report line of a line to the front of a buffer.
pub fn report(engine: Engine<'_>, line: &[u8], out: &mut [u8], wrote: &mut usize) -> u32
    ensures written { result ≡ OK → IsWrittenA (IsReportLine engine.entry.rules
        engine.entry.database.now engine.entry.hint line.now) out.old out.new wrote.new }
    ensures too_small { result ≡ TOO_SMALL → IsTooLongA (IsReportLine engine.entry.rules
        engine.entry.database.now engine.entry.hint line.now) out.old out.new wrote.new }
    ensures other { ¬ (result ≡ OK) → ¬ (result ≡ TOO_SMALL) → result ≡ MEMORY }
    ensures untouched { ¬ (result ≡ OK) → out.new ≡ out.old }
    ensures no_length { ¬ (result ≡ OK) → ¬ (result ≡ TOO_SMALL) → wrote.new ≡ 0 }
{
    *wrote = 0;
    match engine.report_line(line) {
        Ok(answer) => give(answer.as_bytes(), out, wrote),
        Err(_) => MEMORY,
    }
}
