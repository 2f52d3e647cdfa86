//! The columns of duplicates: of which record another one has the key, and how many have it.
ghost use Rattle.std.specs.Prelude.{◌≡◌, ◌+◌, ◌<◌, ◌++◌, ◌∷◌, [], IfOk, IfSome, OnOk};
ghost use Rattle.std.specs.Prelude.{Some, String, cond, drop, slice_range, string_bytes, take};
ghost use Rattle.std.specs.Option.{option_to_list};
ghost use Rattle.std.specs.String.{string_eq};
ghost use Rattle.std.specs.declared.alloc.Global as global;
ghost use Rattle.csv.specs.Records.{field_at, fields_of, partial_of};
ghost use Rattle.phone_csv.specs.Formats.{record_text};
ghost use Rattle.phone_csv.specs.RecordReports.{rows_text};
ghost use Rattle.phone_table.specs.Duplicates.{duplicate_of, duplicates, marked_rows, marks};
ghost use Rattle.phone_table.specs.Duplicates.{number_text, shared_by};
ghost use Rattle.phone_table.specs.Held.{answered, answered_of, found, found_after, found_at};
ghost use Rattle.phone_table.specs.Held.{one_more};

use csv::ByteRecord;
use itoa::Buffer;
use phone_csv::{Format, add_record};
use std::alloc::{AllocError, Global};
use std::collections::HashMap;

/// A record that was answered, and isn't written yet.
#[derive(Drop)]
pub struct Held {
    /// How many fields are its own.
    pub width: usize,
    /// These, and behind them those of its answer.
    pub fields: ByteRecord,
    /// The key of its number, where one was read.
    pub key: Option<String>,
}

/// The records that share a key.
#[derive(Clone, Copy, PartialEq, Eq, Debug)]
pub struct Shared {
    /// The number of the first one; the header is number 1.
    pub first: usize,
    /// How many they are.
    pub count: usize,
}

/// The records that share a key after one more, of this number.
fn one_more(shared: Option<Shared>, number: usize) -> Shared
    requires { IfSome shared (λ s. s.count + 1 < number) }
    ensures { result ≡ one_more shared number }
{
    match shared {
        Some(shared) => Shared {
            first: shared.first,
            count: shared.count + 1,
        },
        None => Shared {
            first: number,
            count: 1,
        },
    }
}

/// The number of the first of the records that share a key, told on another one of them.
fn duplicate_of(shared: Option<Shared>, number: usize) -> Option<usize>
    ensures { result ≡ duplicate_of shared number }
{
    match shared {
        Some(shared) if shared.first != number => Some(shared.first),
        _ => None,
    }
}

/// How many later ones share the key of the first one, told on that, if any.
fn duplicates(shared: Option<Shared>, number: usize) -> Option<usize>
    ensures { result ≡ duplicates shared number }
{
    match shared {
        Some(shared) if shared.first == number && shared.count > 1 => Some(shared.count - 1),
        _ => None,
    }
}

/// Puts a number behind the fields of a record, an empty field for none. Refused only for memory.
fn push_number(fields: &mut ByteRecord, number: Option<usize>) -> Result<(), AllocError>
    requires { partial_of fields.old ≡ [] }
    ensures fields { OnOk result (fields_of fields.new ≡
        fields_of fields.old ++ number_text number ∷ []) }
    ensures partial { OnOk result (partial_of fields.new ≡ []) }
{
    match number {
        Some(number) => {
            let mut buffer = Buffer::new();
            let digits = buffer.format(number);
            fields.push_field(digits.as_bytes())
        }
        None => fields.push_field(b""),
    }
}

/// Puts what the columns tell of the record of a number behind fields. Refused only for memory.
fn push_marks(
    fields: &mut ByteRecord,
    shared: Option<Shared>,
    number: usize,
) -> Result<(), AllocError>
    requires { partial_of fields.old ≡ [] }
    ensures fields { OnOk result (fields_of fields.new ≡
        fields_of fields.old ++ marks shared number) }
    ensures partial { OnOk result (partial_of fields.new ≡ []) }
{
    push_number(fields, duplicate_of(shared, number))?;
    push_number(fields, duplicates(shared, number))
}

/// Puts the field of a record at a place, where there is one, behind those of another. Refused only
/// for memory.
fn push_one(fields: &mut ByteRecord, from: &ByteRecord, place: usize) -> Result<(), AllocError>
    requires { partial_of fields.old ≡ [] }
    ensures fields { OnOk result (fields_of fields.new ≡
        fields_of fields.old ++ option_to_list (field_at (fields_of from.now) place)) }
    ensures partial { OnOk result (partial_of fields.new ≡ []) }
{
    match from.get(place) {
        Some(field) => fields.push_field(field),
        None => Ok(()),
    }
}

/// Puts some fields of a record behind those of another. Refused only for memory.
fn push_fields(
    fields: &mut ByteRecord,
    from: &ByteRecord,
    start: usize,
    end: usize,
) -> Result<(), AllocError>
    requires { partial_of fields.old ≡ [] }
    ensures fields { OnOk result (fields_of fields.new ≡
        fields_of fields.old ++ slice_range (fields_of from.now) start end) }
    ensures partial { OnOk result (partial_of fields.new ≡ []) }
{
    'fields: for place in start..end {
        push_one(fields, from, place)?;
    }
    Ok(())
}

/// The row of a record of this number: its own fields, what the columns tell, its answer. Refused
/// only for memory.
fn marked(
    alloc: Global,
    held: &Held,
    shared: Option<Shared>,
    number: usize,
) -> Result<ByteRecord, AllocError>
    ensures { IfOk result (λ row. fields_of row ≡ take held.now.width (fields_of held.now.fields) ++
        (marks shared number ++ drop held.now.width (fields_of held.now.fields))) }
{
    let mut row = ByteRecord::new(alloc);
    push_fields(&mut row, &held.fields, 0, held.width)?;
    push_marks(&mut row, shared, number)?;
    push_fields(&mut row, &held.fields, held.width, held.fields.len())?;
    Ok(row)
}

/// The records that share the key of a record, where it has one.
fn shared_at(keys: &HashMap<String, Shared>, key: &Option<String>) -> Option<Shared>
    ensures { result ≡ found_at keys.now.entries key.now }
{
    match key {
        Some(key) => shared_by(keys, key),
        None => None,
    }
}

/// The records that share a key.
fn shared_by(keys: &HashMap<String, Shared>, key: &String) -> Option<Shared>
    ensures { result ≡ found keys.now.entries key.now }
{
    match keys.get(key) {
        Some(shared) => Some(*shared),
        None => None,
    }
}

/// Puts the records that share a key there, in place of what stands there. Refused only for memory.
fn put(keys: &mut HashMap<String, Shared>, key: String, shared: Shared) -> Result<(), AllocError>
    ensures { OnOk result ((q : String global.Global) → found keys.new.entries q ≡
        cond (string_eq key q) (Some shared) (found keys.old.entries q)) }
{
    match keys.insert(key, shared) {
        Ok(_) => Ok(()),
        Err(_) => Err(AllocError),
    }
}

/// Counts the record of a number to those with its key, where it has one. Refused only for memory.
fn count_one(
    alloc: Global,
    keys: &mut HashMap<String, Shared>,
    key: &Option<String>,
    number: usize,
) -> Result<(), AllocError>
    requires { IfSome (found_at keys.old.entries key.now) (λ s. s.count + 1 < number) }
    ensures { OnOk result ((q : String global.Global) → found keys.new.entries q ≡
        found_after keys.old.entries key.now number q) }
{
    let Some(key) = key else {
        return Ok(());
    };
    let shared = one_more(shared_by(keys, key), number);
    put(keys, String::from_str(alloc, key.as_str())?, shared)
}

/// The records that share each key. Refused only for memory.
fn keys_of(alloc: Global, all: &[Held]) -> Result<HashMap<String, Shared>, AllocError>
    ensures { IfOk result (λ m. (q : String global.Global) →
        found m.entries q ≡ shared_by (answered all.now) (string_bytes q)) }
{
    let mut keys = HashMap::new(alloc);
    for (place, held) in all.iter().enumerate() {
        count_one(alloc, &mut keys, &held.key, place + 2)?;
    }
    Ok(keys)
}

/// Puts the text of the row of a record of this number behind a text. Refused only for memory.
fn push_row(
    alloc: Global,
    format: Format,
    keys: &HashMap<String, Shared>,
    held: &Held,
    number: usize,
    text: &mut Vec<u8>,
) -> Result<(), AllocError>
    ensures { OnOk result (text.new.items ≡ text.old.items ++ record_text format
        ((answered_of held.now).own ++ (marks (found_at keys.now.entries held.now.key) number ++
        (answered_of held.now).answer))) }
{
    let shared = shared_at(keys, &held.key);
    let row = marked(alloc, held, shared, number)?;
    add_record(alloc, format, &row, text)
}

/// Puts the texts of the rows of all records behind a text. Refused only for memory.
fn push_rows(
    alloc: Global,
    format: Format,
    keys: &HashMap<String, Shared>,
    all: &[Held],
    text: &mut Vec<u8>,
) -> Result<(), AllocError>
    requires { (q : String global.Global) →
        found keys.now.entries q ≡ shared_by (answered all.now) (string_bytes q) }
    ensures { OnOk result (text.new.items ≡ text.old.items ++
        rows_text format (marked_rows (answered all.now) 2 (answered all.now))) }
{
    for (place, held) in all.iter().enumerate() {
        push_row(alloc, format, keys, held, place + 2, text)?;
    }
    Ok(())
}

/// The texts of the rows of all records, behind a text. Refused only for memory.
pub(crate) fn marked_text(
    alloc: Global,
    format: Format,
    front: Vec<u8>,
    all: &[Held],
) -> Result<Vec<u8>, AllocError>
    ensures { IfOk result (λ text. text.items ≡ front.items ++
        rows_text format (marked_rows (answered all.now) 2 (answered all.now))) }
{
    let keys = keys_of(alloc, all)?;
    let mut text = front;
    push_rows(alloc, format, &keys, all, &mut text)?;
    Ok(text)
}
