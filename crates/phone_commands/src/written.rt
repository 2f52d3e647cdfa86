//! The number of each line, written in a format.
ghost use Rattle.std.specs.Prelude.{◌≡◌, IfOk, OnOk, string_bytes};
ghost use Rattle.phone_commands.specs.WrittenLines.{IsWritten, IsWrittenLine, id_of};
ghost use Rattle.phone_engine.specs.ReportLines.{IsReportLine};

use crate::text::push_line;
use phone_dialling::{original_text, text_in};
use phone_engine::Engine;
use phone_further::mobile_text_in;
use phone_lines::LineTaker;
use phone_words::Form;
use phonenumber::country::Id;
use phonenumber::{ParseError, PhoneNumber};
use std::alloc::{AllocError, Global};

/// The text of each line's number in a format; the report's line where it has none.
#[derive(Drop)]
pub struct Written<'d> {
    /// What reads the lines.
    pub engine: Engine<'d>,
    /// The format.
    pub form: Form,
}

impl<'d> LineTaker for Written<'d> {
    ghost use Rattle.phone_commands.specs.WrittenLines.{IsWrittenLine};
    ghost use Rattle.phone_lines.specs.Taken.{begins_with_nothing, each_by_itself};

    ghost begins = { begins_with_nothing };

    ghost gives = { each_by_itself
        (λ w. IsWrittenLine w.engine.rules w.engine.database.now w.engine.hint w.form) };

    fn begin(&mut self, _alloc: Global, _answers: &mut Vec<u8>) -> Result<(), AllocError> {
        Ok(())
    }

    fn take(
        &mut self,
        _alloc: Global,
        line: &[u8],
        answers: &mut Vec<u8>,
    ) -> Result<(), AllocError> {
        let text = written_line(self.engine, self.form, line)?;
        push_line(answers, text.as_str())
    }
}

/// What a line is answered. Refused only for memory.
fn written_line(engine: Engine<'_>, form: Form, line: &[u8]) -> Result<String, AllocError>
    ensures { IfOk result (λ t. IsWrittenLine engine.entry.rules engine.entry.database.now
        engine.entry.hint form line.now (string_bytes t)) }
{
    match std::str::from_utf8(line) {
        Ok(text) => written_text(engine, form, text),
        Err(_) => engine.report_line(line),
    }
}

/// What a line is answered that is a text. Refused only for memory.
fn written_text(engine: Engine<'_>, form: Form, text: &str) -> Result<String, AllocError>
    ensures { IfOk result (λ t. IsWrittenLine engine.entry.rules engine.entry.database.now
        engine.entry.hint form text.now (string_bytes t)) }
{
    match engine.parse(text) {
        Ok(number) => in_form(engine, form, text, &number),
        Err(error) => unwritten(engine, text, error),
    }
}

/// The report's line of a text that was refused by this error. Refused where that is want of
/// memory, and only for memory.
fn unwritten(engine: Engine<'_>, text: &str, error: ParseError) -> Result<String, AllocError>
    ensures report { IfOk result (λ t. IsReportLine engine.entry.rules engine.entry.database.now
        engine.entry.hint text.now (string_bytes t)) }
    ensures memory { OnOk result (¬ (error ≡ ParseError.Memory)) }
{
    match error {
        ParseError::Memory => Err(AllocError),
        _ => engine.report_line(text.as_bytes()),
    }
}

/// A number that was read from a text, in a format. Refused only for memory.
fn in_form(
    engine: Engine<'_>,
    form: Form,
    raw: &str,
    number: &PhoneNumber,
) -> Result<String, AllocError>
    ensures { IfOk result (λ t. IsWritten engine.entry.database.now engine.entry.hint form raw.now
        number.now (string_bytes t)) }
{
    let Engine { database, hint, .. } = engine;
    match form {
        Form::In(mode) => text_in(database, mode, None, number),
        Form::Original => original_text(database, hint, Some(raw), number),
        Form::Mobile => mobile_text_in(database, id_of(hint), true, number),
    }
}

/// The id of a region; empty where there is none.
fn id_of(hint: Option<Id>) -> &'static str
    ensures { result.now ≡ id_of hint }
{
    match hint {
        Some(region) => region.as_str(),
        None => "",
    }
}
