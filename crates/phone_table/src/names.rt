//! The names that are put behind a header, and the header that is written.
ghost use Rattle.std.specs.Prelude.{◌≡◌, ◌+◌, ◌++◌, ◌∷◌, [], Err, IfOk, OnOk, map, option_map};
ghost use Rattle.std.specs.Prelude.{if◌then◌else◌, string_bytes};
ghost use Rattle.csv.specs.Records.{fields_of, partial_of};
ghost use Rattle.phone_device.specs.Passing.{Takes, TakesFront};
ghost use Rattle.phone_table.specs.Duplicates.{duplicate_names};
ghost use Rattle.phone_table.specs.Headers.{added_names, headings};
ghost use Rattle.phone_answers.specs.Fields.{name_of, texts_of};
ghost use Rattle.phone_table.specs.Headers.{behind, first_taken, is_taken};
ghost use Rattle.phone_table.specs.Tables.{head_text, mark_text};
ghost use Rattle.phone_table.specs.declared.names.HeaderError.TheVariants as error;

use crate::header::times;
use crate::table::field_in;
use csv::ByteRecord;
use phone_answers::{Extra, Field};
use phone_csv::{Format, add_record};
use phone_device::{ByteSink, write_all};
use std::alloc::{AllocError, Global};

/// Why a header was not written.
#[derive(Clone, Copy, PartialEq, Eq, Debug)]
pub(crate) enum HeaderError {
    /// The sink failed, or took no byte of some.
    Output,
    /// There was no memory.
    Memory,
}

/// A name behind these letters. Refused only for memory.
fn behind(alloc: Global, front: &str, name: &str) -> Result<String, AllocError>
    ensures { IfOk result (λ text. string_bytes text ≡ front.now ++ name.now) }
{
    let mut text = String::new(alloc);
    text.push_str(front)?;
    text.push_str(name)?;
    Ok(text)
}

/// Puts a name behind others, itself behind these letters. Refused only for memory.
fn push_name(
    alloc: Global,
    names: &mut ByteRecord,
    front: &str,
    name: &str,
) -> Result<(), AllocError>
    requires { partial_of names.old ≡ [] }
    ensures fields { OnOk result (fields_of names.new ≡
        fields_of names.old ++ (front.now ++ name.now) ∷ []) }
    ensures partial { OnOk result (partial_of names.new ≡ []) }
{
    let text = behind(alloc, front, name)?;
    names.push_field(text.as_bytes())
}

/// Puts names behind others, each behind these letters. Refused only for memory.
fn push_names(
    alloc: Global,
    names: &mut ByteRecord,
    front: &str,
    texts: &[&str],
) -> Result<(), AllocError>
    requires { partial_of names.old ≡ [] }
    ensures fields { OnOk result (fields_of names.new ≡
        fields_of names.old ++ behind front.now (texts_of texts.now)) }
    ensures partial { OnOk result (partial_of names.new ≡ []) }
{
    'texts: for text in texts {
        push_name(alloc, names, front, *text)?;
    }
    Ok(())
}

/// Puts the headings of columns behind names, each behind these letters. Refused only for memory.
fn push_headings(
    alloc: Global,
    names: &mut ByteRecord,
    front: &str,
    extra: &[Extra<'_>],
) -> Result<(), AllocError>
    requires { partial_of names.old ≡ [] }
    ensures fields { OnOk result (fields_of names.new ≡
        fields_of names.old ++ behind front.now (headings extra.now)) }
    ensures partial { OnOk result (partial_of names.new ≡ []) }
{
    'columns: for column in extra {
        push_name(alloc, names, front, column.heading)?;
    }
    Ok(())
}

/// Puts the names of an answer's fields behind others, each behind these letters. Refused only for
/// memory.
fn push_field_names(
    alloc: Global,
    names: &mut ByteRecord,
    front: &str,
    fields: &[Field],
) -> Result<(), AllocError>
    requires { partial_of names.old ≡ [] }
    ensures fields { OnOk result (fields_of names.new ≡
        fields_of names.old ++ behind front.now (map name_of fields.now)) }
    ensures partial { OnOk result (partial_of names.new ≡ []) }
{
    'fields: for field in fields {
        push_name(alloc, names, front, field.name())?;
    }
    Ok(())
}

/// The names of the columns of duplicates, where these are told, each behind these letters. Refused
/// only for memory.
fn first_names(alloc: Global, front: &str, tells_duplicates: bool) -> Result<ByteRecord, AllocError>
    ensures names { IfOk result (λ names. fields_of names ≡
        behind front.now (if tells_duplicates then duplicate_names else [])) }
    ensures partial { IfOk result (λ names. partial_of names ≡ []) }
{
    let mut names = ByteRecord::new(alloc);
    if !tells_duplicates {
        return Ok(names);
    }
    push_names(alloc, &mut names, front, &["duplicate_of", "duplicates"])?;
    Ok(names)
}

/// The names that are put behind a header: those of the columns of duplicates, where these are
/// told, of other columns, and of an answer's fields, each behind these letters. Refused only for
/// memory.
pub(crate) fn added_names(
    alloc: Global,
    front: &str,
    tells_duplicates: bool,
    extra: &[Extra<'_>],
) -> Result<ByteRecord, AllocError>
    ensures { IfOk result (λ names. fields_of names ≡
        behind front.now (if tells_duplicates then duplicate_names else []) ++
        added_names front.now extra.now) }
{
    let mut names = first_names(alloc, front, tells_duplicates)?;
    push_headings(alloc, &mut names, front, extra)?;
    push_field_names(alloc, &mut names, front, &Field::ALL)?;
    Ok(names)
}

/// Whether a name stands more than once among those of a header and those that are put behind it.
fn is_taken(header: &ByteRecord, added: &ByteRecord, name: &[u8]) -> bool
    ensures { result ≡ is_taken (fields_of header.now) (fields_of added.now) name.now }
{
    times(header, name).saturating_add(times(added, name)) > 1
}

/// The first of the names that are put behind a header that does.
pub(crate) fn first_taken<'n>(header: &ByteRecord, added: &'n ByteRecord) -> Option<&'n [u8]>
    ensures { option_map (λ name. name.now) result ≡
        first_taken (fields_of header.now) (fields_of added.now) }
{
    'names: for place in 0..added.len() {
        let name = field_in(added, place);
        if is_taken(header, added, name) {
            return Some(name);
        }
    }
    None
}

/// Puts the fields of a record behind those of another. Refused only for memory.
fn push_fields(fields: &mut ByteRecord, more: &ByteRecord) -> Result<(), AllocError>
    requires { partial_of fields.old ≡ [] }
    ensures fields { OnOk result (fields_of fields.new ≡
        fields_of fields.old ++ fields_of more.now) }
    ensures partial { OnOk result (partial_of fields.new ≡ []) }
{
    'fields: for place in 0..more.len() {
        fields.push_field(field_in(more, place))?;
    }
    Ok(())
}

/// The UTF-8 byte-order mark, where there is one, as a text's beginning. Refused only for memory.
fn mark_text(alloc: Global, has_mark: bool) -> Result<Vec<u8>, AllocError>
    ensures { IfOk result (λ text. text.items ≡ mark_text has_mark) }
{
    let mut text = Vec::new(alloc);
    if has_mark {
        text.extend_from_slice(b"\xEF\xBB\xBF")?;
    }
    Ok(text)
}

/// The text of a header with these names behind its own, and with a byte-order mark in front where
/// there is one. Refused only for memory.
pub(crate) fn header_text(
    alloc: Global,
    format: Format,
    has_mark: bool,
    header: ByteRecord,
    added: &ByteRecord,
) -> Result<Vec<u8>, AllocError>
    requires { partial_of header ≡ [] }
    ensures { IfOk result (λ text. text.items ≡
        head_text format has_mark (fields_of header ++ fields_of added.now)) }
{
    let mut header = header;
    push_fields(&mut header, added)?;
    let mut text = mark_text(alloc, has_mark)?;
    add_record(alloc, format, &header, &mut text)?;
    Ok(text)
}

/// Writes a header with these names behind its own, and with a byte-order mark in front where there
/// is one. Refused by `Output` where the sink fails: then a beginning of it is written.
/// By `Memory`: then nothing is.
pub(crate) fn write_header<W: ByteSink>(
    alloc: Global,
    format: Format,
    has_mark: bool,
    header: ByteRecord,
    added: &ByteRecord,
    sink: &mut W,
) -> Result<(), HeaderError>
    requires { partial_of header ≡ [] }
    ensures written { OnOk result (Takes (W.taken sink.old)
        (head_text format has_mark (fields_of header ++ fields_of added.now))
        (W.taken sink.new)) }
    ensures beginning { result ≡ Err error.Output → TakesFront (W.taken sink.old)
        (head_text format has_mark (fields_of header ++ fields_of added.now))
        (W.taken sink.new) }
    ensures nothing { result ≡ Err error.Memory → W.taken sink.new ≡ W.taken sink.old }
    ensures nothing_held { result ≡ Err error.Memory →
        W.unflushed sink.new ≡ W.unflushed sink.old }
    ensures no_fault { OnOk result (W.faults sink.new ≡ W.faults sink.old) }
    ensures fault { result ≡ Err error.Output → W.faults sink.new ≡ W.faults sink.old + 1 }
    ensures no_fault_without_memory { result ≡ Err error.Memory →
        W.faults sink.new ≡ W.faults sink.old }
{
    let Ok(text) = header_text(alloc, format, has_mark, header, added) else {
        return Err(HeaderError::Memory);
    };
    match write_all(sink, text.as_slice()) {
        Ok(()) => Ok(()),
        Err(_) => Err(HeaderError::Output),
    }
}
