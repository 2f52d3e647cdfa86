//! What the field of a number is answered.
ghost use Rattle.std.specs.Prelude.{◌≡◌, ◌++◌, [], Err, Some, None, IfOk, OnOk, map, option_map};
ghost use Rattle.csv.specs.Records.{fields_of, partial_of};
ghost use Rattle.phone_plans.specs.CodeLookUps.{first_of, territories};
ghost use Rattle.phone_records.specs.declared.loader.Metadata as loader;
ghost use Rattle.phone_answers.specs.Answers.{IsFieldAnswer, IsReply, IsTextAnswer, is_blank};
ghost use Rattle.phone_answers.specs.Answers.{number_answer};
ghost use Rattle.phone_answers.specs.Cells.{spelled_by, told_by};
ghost use Rattle.phone_answers.specs.Shorts.{is_number_alone, may_stand, short_in};
ghost use Rattle.phone_answers.specs.Spelled.{IsKnown, IsKnownIn, is_valid_in, number_in, spelled};
ghost use Rattle.phone_answers.specs.Spelled.{spelled_known};

use crate::field::{Cells, Field};
use crate::words::refusal_words;
use csv::ByteRecord;
use phone_chars::chars::{is_alpha, is_nd, is_separator};
use phone_engine::Engine;
use phone_plans::Plans;
use phone_short::{ShortKind, short_kind};
use phonenumber::country::Id;
use phonenumber::{Facts, FormatError, PhoneNumber, Texts};
use std::alloc::AllocError;

/// What is known of a number that was read.
#[derive(Drop)]
pub struct Known {
    /// Its texts.
    pub texts: Texts,
    /// Its region, its kind, and whether it is valid.
    pub facts: Facts,
}

/// What the field of a number is answered.
#[derive(Drop)]
pub enum Answer {
    /// The number that was read, and what is known of it.
    Number(PhoneNumber, Known),
    /// A short number of this region.
    Short(Id, ShortKind),
    /// The words of a refusal.
    Refused(&'static str),
}

/// What a field is answered, its number read and described by this engine. A field that is empty,
/// or white space alone, is refused as `empty`. Where there is a database of short numbers and the
/// engine has a hint, a field that is nothing but a number, as `1 1 2` is and `tel 112` isn't, and
/// an emergency number of the hint's region, is always answered as one; another short number of it
/// as one where no valid number is read. Refused only for memory.
pub fn answer_to(
    engine: Engine<'_>,
    short: Option<&Plans>,
    field: &[u8],
) -> Result<Answer, AllocError>
    ensures answer { IfOk result (λ a. IsFieldAnswer engine.entry.rules engine.entry.database.now
        (option_map (λ d. d.now) short.entry) engine.entry.hint field.now (number_in a)
        (spelled a)) }
    ensures known { IfOk result (λ a. IsKnownIn engine.entry.rules engine.entry.database.now a) }
{
    match std::str::from_utf8(field) {
        Ok(text) => answer_to_text(engine, short, text),
        Err(_) => Ok(Answer::Refused("not UTF-8")),
    }
}

/// What a text is answered. Refused only for memory.
fn answer_to_text(
    engine: Engine<'_>,
    short: Option<&Plans>,
    text: &str,
) -> Result<Answer, AllocError>
    ensures answer { IfOk result (λ a. IsTextAnswer engine.entry.rules engine.entry.database.now
        (option_map (λ d. d.now) short.entry) engine.entry.hint text.now (number_in a)
        (spelled a)) }
    ensures known { IfOk result (λ a. IsKnownIn engine.entry.rules engine.entry.database.now a) }
{
    match short_in(short, engine.hint, text)? {
        Some((region, ShortKind::Emergency)) => Ok(Answer::Short(region, ShortKind::Emergency)),
        Some((region, ShortKind::ShortNumber)) => {
            let reply = reply_to(engine, text)?;
            if is_valid(&reply) {
                Ok(reply)
            } else {
                Ok(Answer::Short(region, ShortKind::ShortNumber))
            }
        }
        None => reply_to(engine, text),
    }
}

/// The region of a hint, and what kind of short number a text is there that is nothing but a
/// number, by a database of these; none without a database or a hint. Refused only for memory.
fn short_in(
    short: Option<&Plans>,
    hint: Option<Id>,
    text: &str,
) -> Result<Option<(Id, ShortKind)>, AllocError>
    ensures { IfOk result (λ found.
        found ≡ short_in (option_map (λ d. d.now) short.entry) hint text.now) }
{
    let (Some(database), Some(region)) = (short, hint) else {
        return Ok(None);
    };
    if !is_number_alone(text) {
        return Ok(None);
    }
    match short_kind(database, region, text)? {
        Some(kind) => Ok(Some((region, kind))),
        None => Ok(None),
    }
}

/// Whether a text has nothing but digits of any script, white space, and what parts the groups of a
/// number.
fn is_number_alone(text: &str) -> bool
    ensures { result ≡ is_number_alone text.now }
{
    text.chars().all(may_stand)
}

/// Whether the character may stand in the field of a short number.
fn may_stand(c: char) -> bool
    ensures { result ≡ may_stand c }
{
    is_nd(c) || c.is_whitespace() || (is_separator(c) && !is_alpha(c))
}

/// Whether an answer is of a number that is valid.
fn is_valid(answer: &Answer) -> bool
    ensures { result ≡ is_valid_in answer.now }
{
    match answer {
        Answer::Number(_, known) => known.facts.is_valid,
        Answer::Short(_, _) | Answer::Refused(_) => false,
    }
}

/// How a text is answered as a number. Refused only for memory.
fn reply_to(engine: Engine<'_>, text: &str) -> Result<Answer, AllocError>
    ensures reply { IfOk result (λ a. IsReply engine.entry.rules engine.entry.database.now
        engine.entry.hint text.now (number_in a) (spelled a)) }
    ensures known { IfOk result (λ a. IsKnownIn engine.entry.rules engine.entry.database.now a) }
{
    if is_blank(text) {
        return Ok(Answer::Refused("empty"));
    }
    let number = match engine.parse(text) {
        Ok(number) => number,
        Err(error) => return Ok(Answer::Refused(refusal_words(error)?)),
    };
    match known_of(engine, &number) {
        Ok(known) => Ok(Answer::Number(number, known)),
        Err(FormatError::Memory) => Err(AllocError),
        Err(FormatError::UnknownCode) => unreachable!(),
    }
}

/// Whether a text has no character but white space.
fn is_blank(text: &str) -> bool
    ensures { result ≡ is_blank text.now }
{
    text.trim().is_empty()
}

/// What is known of a number. Refused by `UnknownCode` where no territory has its code, and by
/// `Memory`.
pub(crate) fn known_of(engine: Engine<'_>, number: &PhoneNumber) -> Result<Known, FormatError>
    ensures spelled { IfOk result (λ k. (m : loader.Metadata) ×
        (first_of (territories number.now.code.value engine.entry.database.now) ≡ Some m) ×
        (spelled_known k ≡ number_answer engine.entry.rules engine.entry.database.now m
        number.now)) }
    ensures known { IfOk result
        (λ k. IsKnown engine.entry.rules engine.entry.database.now number.now k) }
    ensures unknown { result ≡ Err FormatError.UnknownCode →
        first_of (territories number.now.code.value engine.entry.database.now) ≡ None }
{
    let texts = engine.texts(number)?;
    match engine.facts(number) {
        Ok(facts) => Ok(Known { texts, facts }),
        Err(_) => Err(FormatError::Memory),
    }
}

/// What the fields of an answer tell of.
pub(crate) fn cells_of(answer: &Answer) -> Cells<'_>
    ensures { spelled_by result ≡ spelled answer.now }
{
    match answer {
        Answer::Number(_, known) => Cells::Number(known),
        Answer::Short(region, kind) => Cells::Short(*region, *kind),
        Answer::Refused(words) => Cells::Refused(*words),
    }
}

/// Puts the fields of an answer behind those of a record. Refused only for memory.
pub fn push_answer(record: &mut ByteRecord, answer: &Answer) -> Result<(), AllocError>
    requires { partial_of record.old ≡ [] }
    ensures { OnOk result (fields_of record.new ≡ fields_of record.old ++ spelled answer.now) }
{
    push_cells(record, &Field::ALL, cells_of(answer))
}

/// Puts what fields tell behind those of a record. Refused only for memory.
fn push_cells(record: &mut ByteRecord, fields: &[Field], cells: Cells<'_>) -> Result<(), AllocError>
    requires { partial_of record.old ≡ [] }
    ensures { OnOk result (fields_of record.new ≡
        fields_of record.old ++ map (told_by cells.entry) fields.now) }
{
    'fields: for field in fields {
        record.push_field(cells.told(*field).as_bytes())?;
    }
    Ok(())
}
