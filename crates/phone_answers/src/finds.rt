//! What is told of a number that was found in a text, as a JSON object and as a record of a table.
ghost use Rattle.std.specs.Prelude.{◌≡◌, ◌++◌, ◌∷◌, [], Err, IfOk, None, OnOk, string_bytes};
ghost use Rattle.std.specs.Prelude.{unwrap_or};
ghost use Rattle.csv.specs.Records as records;
ghost use Rattle.phone_csv.specs.Formats.{Record};
ghost use Rattle.phone_plans.specs.CodeLookUps.{first_of, territories};
ghost use Rattle.serde_json.specs.Written.{compact_text};
ghost use Rattle.serde_json.specs.View.{view};
ghost use Rattle.phone_answers.specs.Finds.{IsFoundObject, IsFoundRecord, found_names};
ghost use Rattle.phone_answers.specs.Finds.{found_record, object_of_found};
ghost use Rattle.phone_answers.specs.Cells.{spelled_by, told_by};
ghost use Rattle.phone_answers.specs.Fields.{texts_of};
ghost use Rattle.phone_answers.specs.declared.field.Field.TheVariants as field;

use crate::answer::known_of;
use crate::field::{Cells, Field};
use crate::objects::{object_with, with_fields, with_number, with_parts_of, with_text};
use csv::ByteRecord;
use itoa::Buffer;
use phone_engine::Engine;
use phonenumber::{FormatError, PhoneNumber};
use serde_json::{Map, Value};
use std::alloc::AllocError;

/// Where a number was found in a text.
#[derive(Clone, Copy)]
pub struct Spot<'a> {
    /// The line where it begins, as the caller counts.
    pub line: u64,
    /// The column where it begins, as the caller counts.
    pub column: u64,
    /// The piece of the text.
    pub piece: &'a str,
}

/// The JSON text of a number that was found in a text, on one line: an object of its line and
/// column, the piece of the text, the fields and parts that `object_line` has by this engine but
/// the refusal, and its `extension`, which is empty where it has none. `UnknownCode` where the
/// database lists no territory of the code; `Memory` where memory was refused.
pub fn found_object(
    engine: Engine<'_>,
    spot: Spot<'_>,
    number: &PhoneNumber,
) -> Result<String, FormatError>
    ensures object { IfOk result (λ s. IsFoundObject engine.entry.rules engine.entry.database.now
        spot.entry number.now (string_bytes s)) }
    ensures unknown { result ≡ Err FormatError.UnknownCode →
        first_of (territories number.now.code.value engine.entry.database.now) ≡ None }
{
    let known = known_of(engine, number)?;
    match text_of_found(engine, spot, number, Cells::Number(&known)) {
        Ok(text) => Ok(text),
        Err(_) => Err(FormatError::Memory),
    }
}

/// Puts what is told of a number that was found behind the fields of a record: its line and column,
/// its E.164 text, kind and region as a table has them, its extension, which is empty where it has
/// none, and the piece of the text. `UnknownCode` where the database lists no territory of the
/// code; `Memory` where memory was refused.
pub fn push_found(
    engine: Engine<'_>,
    spot: Spot<'_>,
    number: &PhoneNumber,
    row: &mut ByteRecord,
) -> Result<(), FormatError>
    requires { records.partial_of row.old ≡ [] }
    ensures fields { OnOk result ((fields : Record) ×
        IsFoundRecord engine.entry.rules engine.entry.database.now spot.entry number.now fields ×
        (records.fields_of row.new ≡ records.fields_of row.old ++ fields)) }
    ensures unknown { result ≡ Err FormatError.UnknownCode →
        first_of (territories number.now.code.value engine.entry.database.now) ≡ None }
    ensures kept { result ≡ Err FormatError.UnknownCode →
        records.fields_of row.new ≡ records.fields_of row.old }
{
    let known = known_of(engine, number)?;
    match push_spot(row, spot, extension_of(number), Cells::Number(&known)) {
        Ok(()) => Ok(()),
        Err(_) => Err(FormatError::Memory),
    }
}

/// Puts texts behind the fields of a record. Refused only for memory.
fn push_texts(fields: &mut ByteRecord, texts: &[&str]) -> Result<(), AllocError>
    requires { records.partial_of fields.old ≡ [] }
    ensures fields { OnOk result (records.fields_of fields.new ≡
        records.fields_of fields.old ++ texts_of texts.now) }
    ensures partial { OnOk result (records.partial_of fields.new ≡ []) }
{
    'texts: for text in texts {
        fields.push_field(text.as_bytes())?;
    }
    Ok(())
}

/// Puts these fields behind those of a record. Refused only for memory.
fn push_spot(
    row: &mut ByteRecord,
    spot: Spot<'_>,
    extension: &str,
    cells: Cells<'_>,
) -> Result<(), AllocError>
    requires { records.partial_of row.old ≡ [] }
    ensures { OnOk result (records.fields_of row.new ≡ records.fields_of row.old ++
        found_record spot.entry extension.now (spelled_by cells.entry)) }
{
    let mut line = Buffer::new();
    let mut column = Buffer::new();
    let line = line.format(spot.line);
    push_at(
        row,
        line,
        column.format(spot.column),
        spot.piece,
        extension,
        cells,
    )
}

/// The same, by the texts of line and column.
fn push_at(
    row: &mut ByteRecord,
    line: &str,
    column: &str,
    piece: &str,
    extension: &str,
    cells: Cells<'_>,
) -> Result<(), AllocError>
    requires { records.partial_of row.old ≡ [] }
    ensures { OnOk result (records.fields_of row.new ≡ records.fields_of row.old ++
        line.now ∷ column.now ∷ told_by cells.entry field.E164 ∷ told_by cells.entry field.Kind ∷
        told_by cells.entry field.Region ∷ extension.now ∷ piece.now ∷ []) }
{
    let e164 = cells.told(Field::E164);
    let (kind, region) = (cells.told(Field::Kind), cells.told(Field::Region));
    push_texts(row, &[line, column, e164, kind, region, extension, piece])
}

/// Puts the names of the columns of such records behind the fields of a header: `line`, `column`,
/// `e164`, `type`, `region`, `extension` and `text`. Refused only for memory.
pub fn push_found_names(header: &mut ByteRecord) -> Result<(), AllocError>
    requires { records.partial_of header.old ≡ [] }
    ensures { OnOk result (records.fields_of header.new ≡
        records.fields_of header.old ++ found_names) }
{
    push_texts(
        header,
        &[
            "line",
            "column",
            "e164",
            "type",
            "region",
            "extension",
            "text",
        ],
    )
}

/// The text of a number's extension; empty where it has none.
pub(crate) fn extension_of(number: &PhoneNumber) -> &str
    ensures { result.now ≡ unwrap_or number.now.extension [] }
{
    match number.extension() {
        Some(extension) => extension.as_str(),
        None => "",
    }
}

/// The text of the object of these fields. Refused only for memory.
fn text_of_found(
    engine: Engine<'_>,
    spot: Spot<'_>,
    number: &PhoneNumber,
    cells: Cells<'_>,
) -> Result<String, AllocError>
    ensures { IfOk result (λ s. string_bytes s ≡
        compact_text (object_of_found engine.entry.rules engine.entry.database.now spot.entry
        number.now (spelled_by cells.entry))) }
{
    let object = object_of_found(engine, spot, number, cells)?;
    object.to_string(engine.database.allocator())
}

/// The object of these fields. Refused only for memory.
fn object_of_found(
    engine: Engine<'_>,
    spot: Spot<'_>,
    number: &PhoneNumber,
    cells: Cells<'_>,
) -> Result<Value, AllocError>
    ensures { IfOk result (λ v. view v ≡ object_of_found engine.entry.rules
        engine.entry.database.now spot.entry number.now (spelled_by cells.entry)) }
{
    let alloc = engine.database.allocator();
    let members = with_number(Ok(Map::new(alloc)), alloc, "line", spot.line);
    let members = with_number(members, alloc, "column", spot.column);
    let members = with_text(members, alloc, "text", spot.piece);
    let members = with_fields(members, alloc, &Field::OF_NUMBER, cells);
    let members = with_parts_of(members, engine, number);
    object_with(with_text(members, alloc, "extension", extension_of(number)))
}
