//! What a line is answered, as a JSON object.
ghost use Rattle.std.specs.Prelude.{◌≡◌, ℕ, IfOk, List, None, Some, option_map, string_bytes};
ghost use Rattle.std.specs.Option.{option_copied};
ghost use Rattle.serde_json.specs.Data.{Data, null, put, string, unsigned};
ghost use Rattle.serde_json.specs.Data as json;
ghost use Rattle.serde_json.specs.View.{view};
ghost use Rattle.phone_answers.specs.Cells.{spelled_by};
ghost use Rattle.phone_answers.specs.Objects.{AreMade, IsObject, IsObjectLine, IsObjectOf};
ghost use Rattle.phone_answers.specs.Objects.{members_of, with_fields, with_parts};
ghost use Rattle.phone_answers.specs.Parts.{part_told};
ghost use Rattle.phone_answers.specs.Spelled.{IsKnownIn, number_in, spelled};
ghost use Rattle.phone_records.specs.declared.loader.Metadata as loader;
ghost use Rattle.phone_values.specs.declared.rules.Rules.{Rules};

use crate::answer::{Answer, answer_to, cells_of};
use crate::beside::with_told;
use crate::extra::{Extra, Subject, number_of};
use crate::field::{Cells, Field};
use crate::parts::{Part, part_told};
use phone_engine::Engine;
use phone_plans::Plans;
use phonenumber::PhoneNumber;
use serde_json::{Map, Value};
use std::alloc::{AllocError, Global};

/// The JSON text of a line's answer by this engine, on one line: an object of the line's number,
/// which the caller counts, its text, and the fields of its answer, each a text by its name; then,
/// of the number that was read, `calling_code`, `national_number`, `possibility`, which has the
/// words of `Part::Possibility`, and `area_code`, also texts; and what further columns tell of the
/// line, each by its heading, in place of a member of that name. A field that there is none for is
/// empty, but a region that is none is a hyphen, as in a table. The text is null where the line
/// isn't UTF-8. The line is without its end. Where there is a database of short numbers and a hint,
/// an emergency number of the hint's region always has the type `Emergency`, and another short
/// number of it the type `ShortNumber` where no valid number is read; each has the hint's region,
/// is `valid`, and has no other field. Refused only for memory.
pub fn object_line(
    engine: Engine<'_>,
    short: Option<&Plans>,
    extra: &[Extra<'_>],
    place: u64,
    line: &[u8],
) -> Result<String, AllocError>
    ensures { IfOk result (λ s. IsObjectLine engine.entry.rules engine.entry.database.now
        (option_map (λ d. d.now) short.entry) extra.now engine.entry.hint place line.now
        (string_bytes s)) }
{
    let object = object(engine, short, extra, place, line)?;
    object.to_string(engine.database.allocator())
}

/// The object of a line.
fn object(
    engine: Engine<'_>,
    short: Option<&Plans>,
    extra: &[Extra<'_>],
    place: u64,
    line: &[u8],
) -> Result<Value, AllocError>
    ensures { IfOk result (λ v. IsObject engine.entry.rules engine.entry.database.now
        (option_map (λ d. d.now) short.entry) extra.now engine.entry.hint place line.now
        (view v)) }
{
    let answer = answer_to(engine, short, line)?;
    let subject = Subject {
        under: Some(engine.hint),
        field: line,
        answer: &answer,
    };
    match std::str::from_utf8(line) {
        Ok(text) => object_of_text(engine, extra, place, text, subject),
        Err(_) => object_without_text(engine, extra, place, subject),
    }
}

/// The members of an object that is being made, unless memory was refused.
pub(crate) type Members = Result<Map<String, Value>, AllocError>;

/// These members and one more, unless memory was or is refused.
fn with_value(
    members: Members,
    alloc: Global,
    key: &str,
    value: Result<Value, AllocError>,
) -> Members
    ensures { (ms : json.Members) (d : Data) → AreMade members ms →
        IfOk value (λ v. view v ≡ d) → AreMade result (put key.now d ms) }
{
    let mut members = members?;
    serde_json::put(&mut members, alloc, key, value?)?;
    Ok(members)
}

/// These members and a text, unless memory was or is refused. An object of many members is made by
/// calls of this one: it is refused in one place, where the members are dropped.
pub(crate) fn with_text(members: Members, alloc: Global, key: &str, text: &str) -> Members
    ensures { (ms : json.Members) → AreMade members ms →
        AreMade result (put key.now (string text.now) ms) }
{
    with_value(members, alloc, key, Value::try_from_str(alloc, text))
}

/// These members and a number, unless memory was or is refused.
pub(crate) fn with_number(members: Members, alloc: Global, key: &str, number: u64) -> Members
    ensures { (ms : json.Members) → AreMade members ms →
        AreMade result (put key.now (json.number (unsigned number)) ms) }
{
    with_value(members, alloc, key, Ok(Value::from(number)))
}

/// The object of these members.
pub(crate) fn object_with(members: Members) -> Result<Value, AllocError>
    ensures { (ms : json.Members) → AreMade members ms →
        IfOk result (λ v. view v ≡ json.object ms) }
{
    Ok(Value::Object(members?))
}

/// These members, and what fields tell, each by its name, unless memory was or is refused.
pub(crate) fn with_fields(
    members: Members,
    alloc: Global,
    fields: &[Field],
    cells: Cells<'_>,
) -> Members
    ensures { (ms : json.Members) → AreMade members ms →
        AreMade result (with_fields fields.now (spelled_by cells.entry) ms) }
{
    let mut members = members;
    'fields: for field in fields {
        members = with_text(members, alloc, field.name(), cells.told(*field));
    }
    members
}

/// These members and a part of a number, unless memory was or is refused.
fn with_part(
    members: Members,
    engine: Engine<'_>,
    key: &str,
    part: Part,
    number: &PhoneNumber,
) -> Members
    ensures { (ms : json.Members) → AreMade members ms → AreMade result (put key.now (string
        (part_told engine.entry.rules engine.entry.database.now part number.now)) ms) }
{
    match part_told(engine, part, number) {
        Ok(text) => with_text(members, engine.database.allocator(), key, text.as_str()),
        Err(refusal) => Err(refusal),
    }
}

/// These members and the parts of a number, unless memory was or is refused.
pub(crate) fn with_parts_of(members: Members, engine: Engine<'_>, number: &PhoneNumber) -> Members
    ensures { (ms : json.Members) → AreMade members ms → AreMade result
        (with_parts engine.entry.rules engine.entry.database.now (Some number.now) ms) }
{
    let members = with_part(members, engine, "calling_code", Part::CallingCode, number);
    let members = with_part(
        members,
        engine,
        "national_number",
        Part::NationalNumber,
        number,
    );
    let members = with_part(members, engine, "possibility", Part::Possibility, number);
    with_part(members, engine, "area_code", Part::AreaCode, number)
}

/// These members and parts of no number, which are empty, unless memory was or is refused.
fn without_parts(members: Members, alloc: Global) -> Members
    ensures { (rules : Rules) (db : List loader.Metadata) (ms : json.Members) →
        AreMade members ms → AreMade result (with_parts rules db None ms) }
{
    let members = with_text(members, alloc, "calling_code", "");
    let members = with_text(members, alloc, "national_number", "");
    let members = with_text(members, alloc, "possibility", "");
    with_text(members, alloc, "area_code", "")
}

/// These members and the parts of a number, which are empty where there is none, unless memory was
/// or is refused.
fn with_parts(members: Members, engine: Engine<'_>, number: Option<&PhoneNumber>) -> Members
    ensures { (ms : json.Members) → AreMade members ms → AreMade result (with_parts
        engine.entry.rules engine.entry.database.now (option_copied number.entry) ms) }
{
    match number {
        Some(number) => with_parts_of(members, engine, number),
        None => without_parts(members, engine.database.allocator()),
    }
}

/// The members of the object of a line but for what columns tell, by its text or null, unless
/// memory was or is refused.
fn members_of(
    engine: Engine<'_>,
    place: u64,
    text: Result<Value, AllocError>,
    answer: &Answer,
) -> Members
    ensures { (t : Data) → IfOk text (λ v. view v ≡ t) → AreMade result
        (members_of engine.entry.rules engine.entry.database.now place t (number_in answer.now)
        (spelled answer.now)) }
{
    let alloc = engine.database.allocator();
    let members = with_number(Ok(Map::new(alloc)), alloc, "line", place);
    let members = with_value(members, alloc, "text", text);
    let members = with_fields(members, alloc, &Field::ALL, cells_of(answer));
    with_parts(members, engine, number_of(answer))
}

/// The object of a line, by its text or null.
fn object_of(
    engine: Engine<'_>,
    extra: &[Extra<'_>],
    place: u64,
    text: Result<Value, AllocError>,
    subject: Subject<'_>,
) -> Result<Value, AllocError>
    requires { IsKnownIn engine.rules engine.database.now subject.answer.now }
    ensures { (t : Data) → IfOk text (λ v. view v ≡ t) → IfOk result (λ v. IsObjectOf
        engine.entry.rules engine.entry.database.now extra.now place t subject.entry (view v)) }
{
    let made = members_of(engine, place, text, subject.answer)?;
    let members = with_told(made, engine, extra, subject)?;
    Ok(Value::Object(members))
}

/// The object of a text.
fn object_of_text(
    engine: Engine<'_>,
    extra: &[Extra<'_>],
    place: u64,
    text: &str,
    subject: Subject<'_>,
) -> Result<Value, AllocError>
    requires { IsKnownIn engine.rules engine.database.now subject.answer.now }
    ensures { IfOk result (λ v. IsObjectOf engine.entry.rules engine.entry.database.now extra.now
        place (string text.now) subject.entry (view v)) }
{
    let value = Value::try_from_str(engine.database.allocator(), text);
    object_of(engine, extra, place, value, subject)
}

/// The object of a line that is no text.
fn object_without_text(
    engine: Engine<'_>,
    extra: &[Extra<'_>],
    place: u64,
    subject: Subject<'_>,
) -> Result<Value, AllocError>
    requires { IsKnownIn engine.rules engine.database.now subject.answer.now }
    ensures { IfOk result (λ v. IsObjectOf engine.entry.rules engine.entry.database.now extra.now
        place null subject.entry (view v)) }
{
    object_of(engine, extra, place, Ok(Value::Null), subject)
}
