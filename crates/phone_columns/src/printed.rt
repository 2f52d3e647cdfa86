//! Columns of texts.
ghost use Rattle.std.specs.Prelude.{◌≡◌, ◌++◌, [], IfOk, OnOk, None, unwrap_or};
ghost use Rattle.phone_engine.specs.Facts.{printed_as};
ghost use Rattle.phone_library.specs.Printed.{printed_by};
ghost use Rattle.phone_columns.specs.Cells.{text_of_row};
ghost use Rattle.phone_columns.specs.Texts.{AreTexts, IsEmpty, IsOneMore};

use crate::answers::Answer;
use phone_c_base::print::text_by;
use phone_engine::Engine;
use phonenumber::{FormatError, Mode, PhoneNumber};
use std::alloc::{AllocError, Global};

/// The texts of rows, and where each ends.
#[derive(Drop)]
pub(crate) struct Printed {
    pub(crate) offsets: Vec<u8>,
    pub(crate) texts: Vec<u8>,
}

impl Printed {
    /// Of no rows: one offset. Refused only for memory.
    pub(crate) fn new(alloc: Global) -> Result<Printed, AllocError>
        ensures { IfOk result IsEmpty }
    {
        let mut offsets = Vec::new(alloc);
        offsets.extend_from_slice(&0u64.to_le_bytes())?;
        Ok(Printed {
            offsets,
            texts: Vec::new(alloc),
        })
    }

    /// Puts a text behind the others, and where it ends. Refused only for memory.
    pub(crate) fn push_text(&mut self, text: &[u8]) -> Result<(), AllocError>
        ensures { OnOk result (IsOneMore text.now self.old self.new) }
    {
        self.texts.extend_from_slice(text)?;
        let end = self.texts.len() as u64;
        self.offsets.extend_from_slice(&end.to_le_bytes())
    }

    /// Puts the text of one row behind the others, and where it ends. Refused only for memory.
    fn push(&mut self, engine: Engine<'_>, mode: Mode, answer: &Answer) -> Result<(), AllocError>
        ensures { OnOk result (IsOneMore (text_of_row engine.entry.rules
            engine.entry.database.now mode answer.now) self.old self.new) }
    {
        push_text(engine, mode, answer, &mut self.texts)?;
        let end = self.texts.len() as u64;
        self.offsets.extend_from_slice(&end.to_le_bytes())
    }
}

/// The texts of the rows' numbers in a mode. Refused only for memory.
pub(crate) fn print_rows(
    engine: Engine<'_>,
    mode: Mode,
    answers: &[Answer],
) -> Result<Printed, AllocError>
    ensures { IfOk result (λ p.
        AreTexts engine.entry.rules engine.entry.database.now mode answers.now p) }
{
    let mut printed = Printed::new(engine.database.allocator())?;
    for answer in answers {
        printed.push(engine, mode, answer)?;
    }
    Ok(printed)
}

/// Puts the text of a row's number behind bytes. Refused only for memory.
fn push_text(
    engine: Engine<'_>,
    mode: Mode,
    answer: &Answer,
    texts: &mut Vec<u8>,
) -> Result<(), AllocError>
    ensures { OnOk result (texts.new.items ≡ texts.old.items ++
        text_of_row engine.entry.rules engine.entry.database.now mode answer.now) }
{
    match answer {
        Answer::Number(number) => push_number(engine, mode, number, texts),
        _ => Ok(()),
    }
}

/// Puts the text of a number behind bytes; nothing where no territory has its code, which a number
/// that was read has. Refused only for memory.
fn push_number(
    engine: Engine<'_>,
    mode: Mode,
    number: &PhoneNumber,
    texts: &mut Vec<u8>,
) -> Result<(), AllocError>
    ensures { OnOk result (texts.new.items ≡ texts.old.items ++
        unwrap_or (printed_by engine.entry.rules engine.entry.database.now mode
        (printed_as engine.entry.rules number.now)) []) }
{
    match text_by(engine, number, mode) {
        Ok(text) => texts.extend_from_slice(text.as_bytes()),
        Err(FormatError::UnknownCode) => Ok(()),
        Err(FormatError::Memory) => Err(AllocError),
    }
}
