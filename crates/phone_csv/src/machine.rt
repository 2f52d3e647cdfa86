//! What a byte of a table does: the steps of the kit's `csv`, one byte at a time.
ghost use Rattle.std.specs.Prelude.{◌≡◌};
ghost use Rattle.csv.specs.Machine.{ends_at_end, step};
ghost use Rattle.phone_csv.specs.Formats.{action_of, reading, state_of};
ghost use Rattle.phone_csv.specs.Quotes.{opens_quote};
ghost use Rattle.phone_csv.specs.Records.{in_quotes};

/// Where a text stands.
#[derive(Clone, Copy, PartialEq, Eq, Debug)]
pub enum Place {
    /// In front of a record.
    StartRecord,
    /// In front of a field.
    StartField,
    /// In a field without quotes.
    InField,
    /// Between the quotes of a field.
    InQuoted,
    /// Behind a quote that stood in a quoted field.
    AfterQuote,
    /// Behind a carriage return that ended a record.
    AfterReturn,
}

/// What a byte does.
#[derive(Clone, Copy, PartialEq, Eq, Debug)]
pub(crate) enum Effect {
    /// Nothing.
    Skip,
    /// It is one of the field's.
    Copy,
    /// It ends the field.
    EndField,
    /// It ends the field and the record.
    EndRecord,
}

/// The place after a byte, and what the byte does.
pub(crate) fn step(delimiter: u8, place: Place, byte: u8) -> (Place, Effect)
    ensures place { state_of result.0 ≡ (step (reading delimiter) (state_of place) byte).0 }
    ensures effect { action_of result.1 ≡ (step (reading delimiter) (state_of place) byte).1 }
{
    match place {
        Place::StartRecord => start_record(delimiter, byte),
        Place::StartField => start_field(delimiter, byte),
        Place::InField => in_field(delimiter, byte),
        Place::InQuoted if byte == b'"' => (Place::AfterQuote, Effect::Skip),
        Place::InQuoted => (Place::InQuoted, Effect::Copy),
        Place::AfterQuote if byte == b'"' => (Place::InQuoted, Effect::Copy),
        Place::AfterQuote => in_field(delimiter, byte),
        Place::AfterReturn if byte == b'\n' => (Place::StartRecord, Effect::Skip),
        Place::AfterReturn => start_record(delimiter, byte),
    }
}

/// The same in front of a record: a line end is passed over.
fn start_record(delimiter: u8, byte: u8) -> (Place, Effect)
    ensures place { state_of result.0 ≡
        (step (reading delimiter) (state_of Place.StartRecord) byte).0 }
    ensures effect { action_of result.1 ≡
        (step (reading delimiter) (state_of Place.StartRecord) byte).1 }
{
    if byte == b'\r' || byte == b'\n' {
        (Place::StartRecord, Effect::Skip)
    } else {
        start_field(delimiter, byte)
    }
}

/// The same in front of a field: a quote opens it.
fn start_field(delimiter: u8, byte: u8) -> (Place, Effect)
    ensures place { state_of result.0 ≡
        (step (reading delimiter) (state_of Place.StartField) byte).0 }
    ensures effect { action_of result.1 ≡
        (step (reading delimiter) (state_of Place.StartField) byte).1 }
{
    if byte == b'"' {
        (Place::InQuoted, Effect::Skip)
    } else {
        in_field(delimiter, byte)
    }
}

/// The same in a field without quotes.
fn in_field(delimiter: u8, byte: u8) -> (Place, Effect)
    ensures place { state_of result.0 ≡
        (step (reading delimiter) (state_of Place.InField) byte).0 }
    ensures effect { action_of result.1 ≡
        (step (reading delimiter) (state_of Place.InField) byte).1 }
{
    if byte == delimiter {
        (Place::StartField, Effect::EndField)
    } else if byte == b'\r' {
        (Place::AfterReturn, Effect::EndRecord)
    } else if byte == b'\n' {
        (Place::StartRecord, Effect::EndRecord)
    } else {
        (Place::InField, Effect::Copy)
    }
}

/// Whether the end of a text that stands at this place ends a record.
pub(crate) fn is_open(place: Place) -> bool
    ensures { result ≡ ends_at_end (state_of place) }
{
    match place {
        Place::StartRecord | Place::AfterReturn => false,
        Place::StartField | Place::InField | Place::InQuoted | Place::AfterQuote => true,
    }
}

/// Whether a text that ends at this place ends between quotes.
pub(crate) fn in_quotes(place: Place) -> bool
    ensures { result ≡ in_quotes (state_of place) }
{
    match place {
        Place::InQuoted => true,
        Place::StartRecord
        | Place::StartField
        | Place::InField
        | Place::AfterQuote
        | Place::AfterReturn => false,
    }
}

/// Whether a byte opens a field between quotes: a quote in front of a field.
pub(crate) fn opens_quote(place: Place, byte: u8) -> bool
    ensures { result ≡ opens_quote (state_of place) byte }
{
    match place {
        Place::StartRecord | Place::StartField | Place::AfterReturn => byte == b'"',
        Place::InField | Place::InQuoted | Place::AfterQuote => false,
    }
}
