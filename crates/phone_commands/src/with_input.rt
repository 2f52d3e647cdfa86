//! Report lines, each with the line that it answers.
ghost use Rattle.std.specs.Prelude.{◌≡◌, ◌++◌, ◌∷◌, [], OnOk};

use crate::text::{push_bytes, push_text};
use phone_engine::Engine;
use phone_lines::LineTaker;
use std::alloc::{AllocError, Global};

/// The report line of each line, a tab, and the line as it was read, its bytes as they are, without
/// its end.
#[derive(Drop)]
pub struct WithInput<'d> {
    /// What reads the lines, and reports on them.
    pub engine: Engine<'d>,
}

impl<'d> LineTaker for WithInput<'d> {
    ghost use Rattle.phone_commands.specs.WithInputs.{IsWithInput};
    ghost use Rattle.phone_lines.specs.Taken.{begins_with_nothing, each_by_itself};

    ghost begins = { begins_with_nothing };

    ghost gives = { each_by_itself
        (λ w. IsWithInput w.engine.rules w.engine.database.now w.engine.hint) };

    fn begin(&mut self, _alloc: Global, _answers: &mut Vec<u8>) -> Result<(), AllocError> {
        Ok(())
    }

    fn take(
        &mut self,
        _alloc: Global,
        line: &[u8],
        answers: &mut Vec<u8>,
    ) -> Result<(), AllocError> {
        let report = self.engine.report_line(line)?;
        push_with_input(answers, report.as_str(), line)
    }
}

/// Puts a report line, a tab, a line and a line feed at the end of bytes. Refused only for memory.
fn push_with_input(bytes: &mut Vec<u8>, report: &str, line: &[u8]) -> Result<(), AllocError>
    ensures { OnOk result (bytes.new.items ≡
        bytes.old.items ++ ((report.now ++ 9 ∷ line.now) ++ 10 ∷ [])) }
{
    push_text(bytes, report)?;
    push_text(bytes, "\t")?;
    push_bytes(bytes, line)?;
    push_text(bytes, "\n")
}
