//! What the rows of a column are answered.
ghost use Rattle.std.specs.Prelude.{◌≡◌, IfOk, IsErr};
ghost use Rattle.std.specs.Option.{option_copied};
ghost use Rattle.phone_values.specs.Refusals.{refusal_number};
ghost use Rattle.phone_columns.specs.Rows.{AreAnswers, IsAnswer, IsReadAs, hint_at, rows_from};

use crate::given::Given;
use phone_c_base::engines::under;
use phone_c_base::status::{NO_REGION, NOT_UTF8};
use phone_engine::Engine;
use phonenumber::{ParseError, PhoneNumber};
use std::alloc::AllocError;

/// What a row is answered.
#[derive(Drop)]
pub enum Answer {
    /// The row has no text.
    Absent,
    /// Its text isn't read as a number: the status by which the call for one text says so.
    Refused(u8),
    /// The number as which its text is read.
    Number(PhoneNumber),
}

/// What the rows of a column are answered, in their order. Refused only for memory.
#[tactic(auto, using(crate::proofs::RowLemmas::row_steps))]
pub fn answer_rows(engine: Engine<'_>, given: &Given<'_>) -> Result<Vec<Answer>, AllocError>
    ensures { IfOk result (λ v. AreAnswers engine.entry.rules engine.entry.database.now
        (rows_from 0 given.now.texts (hint_at given.now.hints)) v.items) }
{
    let mut answers = Vec::new(engine.database.allocator());
    answers.reserve(given.texts.len())?;
    for row in 0..given.texts.len() {
        answers.push(answer_row(engine, given.texts.get(row), given.hints.at(row))?)?;
    }
    Ok(answers)
}

/// What a row is answered. Refused only for memory.
fn answer_row(engine: Engine<'_>, text: Option<&[u8]>, hint: &[u8]) -> Result<Answer, AllocError>
    ensures { IfOk result (λ a. IsAnswer engine.entry.rules engine.entry.database.now
        (option_copied text.entry, hint.now) a) }
{
    let Some(text) = text else {
        return Ok(Answer::Absent);
    };
    match under(engine, hint) {
        Some(engine) => read(engine, text),
        None => Ok(Answer::Refused(NO_REGION as u8)),
    }
}

/// As what the bytes of a text are read. Refused only for memory.
fn read(engine: Engine<'_>, text: &[u8]) -> Result<Answer, AllocError>
    ensures { IfOk result (λ a. IsReadAs engine.entry.rules engine.entry.database.now
        engine.entry.hint text.now a) }
{
    let Ok(text) = std::str::from_utf8(text) else {
        return Ok(Answer::Refused(NOT_UTF8 as u8));
    };
    match engine.parse(text) {
        Ok(number) => Ok(Answer::Number(number)),
        Err(error) => refusal(error),
    }
}

/// The answer that is a refusal. Refused only where that is want of memory.
fn refusal(error: ParseError) -> Result<Answer, AllocError>
    ensures refused { IfOk result (λ a. a ≡ Answer.Refused (refusal_number error)) }
    ensures memory { error ≡ ParseError.Memory → IsErr result }
{
    if let ParseError::Memory = error {
        return Err(AllocError);
    }
    Ok(Answer::Refused(error.number()))
}
