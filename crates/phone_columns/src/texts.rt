//! Columns of texts in several modes, for which each number is laid out once.
ghost use Rattle.std.specs.Prelude.{◌≡◌, [], None, IfOk, IfSome, OnOk, unwrap_or};
ghost use Rattle.phone_values.specs.declared.mode.Mode.TheVariants as modes;
ghost use Rattle.phone_engine.specs.Facts.{printed_as};
ghost use Rattle.phone_library.specs.Printed.{printed_by};
ghost use Rattle.phone_columns.specs.Cells.{text_of_row};
ghost use Rattle.phone_columns.specs.Texts.{AreTextsInModes, IsEmpty, IsOneMore};

use crate::answers::Answer;
use crate::column::Column;
use crate::printed::Printed;
use phone_engine::Engine;
use phonenumber::{FormatError, Mode, PhoneNumber};
use std::alloc::{AllocError, Global};

/// The texts of rows in the four modes, each with where its texts end.
#[derive(Drop)]
pub(crate) struct InModes {
    pub(crate) e164: Printed,
    pub(crate) international: Printed,
    pub(crate) national: Printed,
    pub(crate) rfc3966: Printed,
}

impl InModes {
    /// Of no rows. Refused only for memory.
    fn new(alloc: Global) -> Result<InModes, AllocError>
        ensures e164 { IfOk result (λ all. IsEmpty all.e164) }
        ensures international { IfOk result (λ all. IsEmpty all.international) }
        ensures national { IfOk result (λ all. IsEmpty all.national) }
        ensures rfc3966 { IfOk result (λ all. IsEmpty all.rfc3966) }
    {
        Ok(InModes {
            e164: Printed::new(alloc)?,
            international: Printed::new(alloc)?,
            national: Printed::new(alloc)?,
            rfc3966: Printed::new(alloc)?,
        })
    }

    /// The texts in a mode.
    pub(crate) fn of(&self, mode: Mode) -> &Printed
        ensures e164 { mode ≡ modes.E164 → result.now ≡ self.now.e164 }
        ensures international { mode ≡ modes.International → result.now ≡ self.now.international }
        ensures national { mode ≡ modes.National → result.now ≡ self.now.national }
        ensures rfc3966 { mode ≡ modes.Rfc3966 → result.now ≡ self.now.rfc3966 }
    {
        match mode {
            Mode::E164 => &self.e164,
            Mode::International => &self.international,
            Mode::National => &self.national,
            Mode::Rfc3966 => &self.rfc3966,
        }
    }

    /// Puts one row's texts behind the others. Refused only for memory.
    fn push(&mut self, engine: Engine<'_>, answer: &Answer) -> Result<(), AllocError>
        ensures e164 { OnOk result (IsOneMore (text_of_row engine.entry.rules
            engine.entry.database.now modes.E164 answer.now) self.old.e164 self.new.e164) }
        ensures international { OnOk result (IsOneMore (text_of_row engine.entry.rules
            engine.entry.database.now modes.International answer.now)
            self.old.international self.new.international) }
        ensures national { OnOk result (IsOneMore (text_of_row engine.entry.rules
            engine.entry.database.now modes.National answer.now)
            self.old.national self.new.national) }
        ensures rfc3966 { OnOk result (IsOneMore (text_of_row engine.entry.rules
            engine.entry.database.now modes.Rfc3966 answer.now) self.old.rfc3966 self.new.rfc3966) }
    {
        match answer {
            Answer::Number(number) => self.push_number(engine, number),
            _ => self.push_texts("", "", "", ""),
        }
    }

    /// Puts a number's texts behind the others; empty ones where no territory has its code, which a
    /// number that was read has. Refused only for memory.
    fn push_number(&mut self, engine: Engine<'_>, number: &PhoneNumber) -> Result<(), AllocError>
        ensures e164 { OnOk result (IsOneMore (unwrap_or (printed_by engine.entry.rules
            engine.entry.database.now modes.E164 (printed_as engine.entry.rules number.now)) [])
            self.old.e164 self.new.e164) }
        ensures international { OnOk result (IsOneMore (unwrap_or (printed_by
            engine.entry.rules engine.entry.database.now modes.International
            (printed_as engine.entry.rules number.now)) [])
            self.old.international self.new.international) }
        ensures national { OnOk result (IsOneMore (unwrap_or (printed_by engine.entry.rules
            engine.entry.database.now modes.National (printed_as engine.entry.rules number.now)) [])
            self.old.national self.new.national) }
        ensures rfc3966 { OnOk result (IsOneMore (unwrap_or (printed_by engine.entry.rules
            engine.entry.database.now modes.Rfc3966 (printed_as engine.entry.rules number.now)) [])
            self.old.rfc3966 self.new.rfc3966) }
    {
        match engine.texts(number) {
            Ok(texts) => self.push_texts(
                texts.e164.as_str(),
                texts.international.as_str(),
                texts.national.as_str(),
                texts.rfc3966.as_str(),
            ),
            Err(FormatError::UnknownCode) => self.push_texts("", "", "", ""),
            Err(FormatError::Memory) => Err(AllocError),
        }
    }

    /// Puts a text of each mode behind the others. Refused only for memory.
    fn push_texts(
        &mut self,
        e164: &str,
        international: &str,
        national: &str,
        rfc3966: &str,
    ) -> Result<(), AllocError>
        ensures e164 { OnOk result (IsOneMore e164.now self.old.e164 self.new.e164) }
        ensures international { OnOk result
            (IsOneMore international.now self.old.international self.new.international) }
        ensures national { OnOk result
            (IsOneMore national.now self.old.national self.new.national) }
        ensures rfc3966 { OnOk result (IsOneMore rfc3966.now self.old.rfc3966 self.new.rfc3966) }
    {
        self.e164.push_text(e164.as_bytes())?;
        self.international.push_text(international.as_bytes())?;
        self.national.push_text(national.as_bytes())?;
        self.rfc3966.push_text(rfc3966.as_bytes())
    }
}

/// The texts of the rows' numbers in each mode. Refused only for memory.
fn print_in_modes(engine: Engine<'_>, answers: &[Answer]) -> Result<InModes, AllocError>
    ensures { IfOk result (λ all.
        AreTextsInModes engine.entry.rules engine.entry.database.now answers.now all) }
{
    let mut all = InModes::new(engine.database.allocator())?;
    for answer in answers {
        all.push(engine, answer)?;
    }
    Ok(all)
}

/// The same where several of these columns are texts; else nothing is printed. Refused only for
/// memory.
pub(crate) fn texts_for(
    engine: Engine<'_>,
    answers: &[Answer],
    columns: &[Column],
) -> Result<Option<InModes>, AllocError>
    ensures { IfOk result (λ texts. IfSome texts (λ all.
        AreTextsInModes engine.entry.rules engine.entry.database.now answers.now all)) }
{
    if columns.iter().filter(|column| column.is_text()).count() < 2 {
        return Ok(None);
    }
    Ok(Some(print_in_modes(engine, answers)?))
}
