//! The text of a record, in which a field stands between quotes where it calls for them.
ghost use Rattle.std.specs.Prelude.{◌≡◌, ◌==◌, [], ◌∷◌, ◌++◌, length, if◌then◌else◌, IfOk, OnOk};
ghost use Rattle.std.specs.List.{list_any};
ghost use Rattle.csv.specs.Records.{fields_of};
ghost use Rattle.csv.specs.Writing.{escaped, field_text, needs_byte, next_sep, quoted, row_body};
ghost use Rattle.phone_csv.specs.Formats.{end_text, record_text, writing};

use crate::format::{Format, LineEnd};
use csv::ByteRecord;
use std::alloc::{AllocError, Global};

/// How many bytes the text of a record has room for at first: more than most take.
const ROOM: usize = 256;

/// Whether a field with this byte calls for quotes.
fn calls_for_quotes(delimiter: u8, byte: u8) -> bool
    ensures { result ≡ needs_byte (writing delimiter) byte }
{
    byte == delimiter || byte == b'"' || byte == b'\r' || byte == b'\n'
}

/// Puts a byte of a field between quotes behind a text: a quote twice.
fn push_escaped(delimiter: u8, byte: u8, text: &mut Vec<u8>) -> Result<(), AllocError>
    ensures { OnOk result (text.new.items ≡
        text.old.items ++ escaped (writing delimiter) (byte ∷ [])) }
{
    if byte == b'"' {
        return text.extend_from_slice(b"\"\"");
    }
    text.push(byte)?;
    Ok(())
}

/// Puts a field behind a text, between quotes.
fn push_quoted(delimiter: u8, field: &[u8], text: &mut Vec<u8>) -> Result<(), AllocError>
    ensures { OnOk result (text.new.items ≡
        text.old.items ++ quoted (writing delimiter) field.now) }
{
    text.push(b'"')?;
    'bytes: for byte in field {
        push_escaped(delimiter, *byte, text)?;
    }
    text.push(b'"')?;
    Ok(())
}

/// Puts a field behind a text.
fn push_field(delimiter: u8, field: &[u8], text: &mut Vec<u8>) -> Result<(), AllocError>
    ensures { OnOk result (text.new.items ≡
        text.old.items ++ field_text (writing delimiter) field.now) }
{
    if is_quoted(delimiter, field) {
        push_quoted(delimiter, field, text)
    } else {
        text.extend_from_slice(field)
    }
}

/// Whether a field stands between quotes.
fn is_quoted(delimiter: u8, field: &[u8]) -> bool
    ensures { result ≡ list_any (needs_byte (writing delimiter)) field.now }
{
    field.iter().any(|byte| calls_for_quotes(delimiter, *byte))
}

/// Puts a field behind a text, and a delimiter in front of it where it isn't the first one.
fn push_next(
    delimiter: u8,
    column: usize,
    field: &[u8],
    text: &mut Vec<u8>,
) -> Result<(), AllocError>
    ensures { OnOk result (text.new.items ≡ text.old.items ++
        (next_sep (writing delimiter) column ++ field_text (writing delimiter) field.now)) }
{
    if column == 0 {
        return push_field(delimiter, field, text);
    }
    text.push(delimiter)?;
    push_field(delimiter, field, text)
}

/// Puts the fields of a record behind a text, with a delimiter between them.
fn push_fields(delimiter: u8, fields: &ByteRecord, text: &mut Vec<u8>) -> Result<(), AllocError>
    ensures { OnOk result (text.new.items ≡
        text.old.items ++ row_body (writing delimiter) (fields_of fields.now)) }
{
    'columns: for column in 0..fields.len() {
        let Some(field) = fields.get(column) else {
            return Err(AllocError);
        };
        push_next(delimiter, column, field, text)?;
    }
    Ok(())
}

/// Puts two quotes behind the text of a record where no byte of it shows.
fn push_blank(text: &mut Vec<u8>) -> Result<(), AllocError>
    ensures { OnOk result (text.new.items ≡ text.old.items ++
        (if length text.old.items == 0 then 34 ∷ 34 ∷ [] else [])) }
{
    if text.is_empty() {
        return text.extend_from_slice(b"\"\"");
    }
    Ok(())
}

/// Puts a line end behind a text.
fn push_end(line_end: LineEnd, text: &mut Vec<u8>) -> Result<(), AllocError>
    ensures { OnOk result (text.new.items ≡ text.old.items ++ end_text line_end) }
{
    match line_end {
        LineEnd::Feed => text.extend_from_slice(b"\n"),
        LineEnd::ReturnFeed => text.extend_from_slice(b"\r\n"),
    }
}

/// The text of a record. Refused only for memory.
pub(crate) fn record_text(
    alloc: Global,
    format: Format,
    fields: &ByteRecord,
) -> Result<Vec<u8>, AllocError>
    ensures { IfOk result (λ text. text.items ≡ record_text format (fields_of fields.now)) }
{
    let mut text = Vec::with_capacity(alloc, ROOM)?;
    push_fields(format.delimiter, fields, &mut text)?;
    push_blank(&mut text)?;
    push_end(format.line_end, &mut text)?;
    Ok(text)
}
