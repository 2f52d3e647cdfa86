//! How many records of a table were answered, and how, and how many aren't UTF-8.
ghost use Rattle.std.specs.Prelude.{◌≡◌, not, true, false};
ghost use Rattle.std.specs.Str.{is_utf8};
ghost use Rattle.csv.specs.Records.{fields_of};
ghost use Rattle.phone_table.specs.Counts.{counted_if, counts_after, counts_without, has_refusal};
ghost use Rattle.phone_table.specs.Counts.{first_after, is_invalid, is_junk, is_short, is_stray};
ghost use Rattle.phone_table.specs.Counts.{answer_field, no_counts, tells};

use crate::table::field_in;
use csv::ByteRecord;
use phone_answers::Field;

/// How many records of a table were answered, and how many of them not as a valid number of a
/// calling code: each at most 2^64 - 1.
#[derive(Clone, Copy, PartialEq, Eq, Debug)]
pub struct Counts {
    /// All of them.
    pub records: u64,
    /// Those that name no region that there is.
    pub unknown_region: u64,
    /// Those whose field of the number is empty, or white space alone.
    pub empty: u64,
    /// Those with another count of fields than the header.
    pub wrong_count: u64,
    /// Those in whose field no number was read.
    pub no_number: u64,
    /// Those whose number isn't valid.
    pub invalid: u64,
    /// Those whose number is a short number.
    pub short: u64,
    /// Those that are left out, since an earlier one has their number and extension.
    pub repeated: u64,
    /// Those that aren't UTF-8: one of their fields isn't.
    pub strays: u64,
    /// The number of the first of these, the header counted as 1.
    pub first_stray: Option<u64>,
}

impl Counts {
    /// None yet.
    pub fn new() -> Counts
        ensures { result ≡ no_counts }
    {
        Counts {
            records: 0,
            unknown_region: 0,
            empty: 0,
            wrong_count: 0,
            no_number: 0,
            invalid: 0,
            short: 0,
            repeated: 0,
            strays: 0,
            first_stray: None,
        }
    }

    /// The number of the first row that isn't UTF-8 after one more row.
    fn first_after(self, is_stray: bool) -> Option<u64>
        ensures { result ≡ first_after self is_stray }
    {
        if is_stray {
            let place = self.records.saturating_add(2);
            Some(self.first_stray.unwrap_or(place))
        } else {
            self.first_stray
        }
    }

    /// The counts after one more row, by the kind, the validity and the refusal of its answer; and
    /// whether it is UTF-8.
    fn after(self, row: &ByteRecord) -> Counts
        ensures { result ≡ counts_after self (fields_of row.now) }
    {
        let is_stray = is_stray(row);
        Counts {
            records: counted_if(true, self.records),
            unknown_region: counted_if(has_refusal(row, "unknown region"), self.unknown_region),
            empty: counted_if(has_refusal(row, "empty"), self.empty),
            wrong_count: counted_if(has_refusal(row, "wrong count of fields"), self.wrong_count),
            no_number: counted_if(is_junk(row), self.no_number),
            invalid: counted_if(is_invalid(row), self.invalid),
            short: counted_if(is_short(row), self.short),
            repeated: self.repeated,
            strays: counted_if(is_stray, self.strays),
            first_stray: self.first_after(is_stray),
        }
    }

    /// Counts one more row, which is written or not.
    pub(crate) fn count(&mut self, row: &ByteRecord, is_written: bool)
        ensures written { is_written ≡ true →
            self.new ≡ counts_after self.old (fields_of row.now) }
        ensures left_out { is_written ≡ false →
            self.new ≡ counts_without self.old (fields_of row.now) }
    {
        let repeated = counted_if(!is_written, self.repeated);
        let counts = self.after(row);
        *self = Counts { repeated, ..counts };
    }
}

/// Whether bytes are no UTF-8.
fn is_no_text(bytes: &[u8]) -> bool
    ensures { result ≡ not (is_utf8 bytes.now) }
{
    match std::str::from_utf8(bytes) {
        Ok(_) => false,
        Err(_) => true,
    }
}

/// Whether a row isn't UTF-8: one of its fields isn't.
fn is_stray(row: &ByteRecord) -> bool
    ensures { result ≡ is_stray (fields_of row.now) }
{
    'fields: for place in 0..row.len() {
        if is_no_text(field_in(row, place)) {
            return true;
        }
    }
    false
}

/// A count, and one more where this holds; 2^64 - 1 at most.
pub(crate) fn counted_if(holds: bool, count: u64) -> u64
    ensures { result ≡ counted_if holds count }
{
    if holds {
        count.saturating_add(1)
    } else {
        count
    }
}

/// The field of a row's answer.
pub(crate) fn answer_field(row: &ByteRecord, field: Field) -> &[u8]
    ensures { result.now ≡ answer_field (fields_of row.now) field }
{
    field_in(row, row.len().saturating_sub(field.from_end()))
}

/// Whether a field of a row's answer is this word.
fn tells(row: &ByteRecord, field: Field, word: &str) -> bool
    ensures { result ≡ tells (fields_of row.now) field word.now }
{
    answer_field(row, field) == word.as_bytes()
}

/// Whether a row is refused with these words.
pub(crate) fn has_refusal(row: &ByteRecord, words: &str) -> bool
    ensures { result ≡ has_refusal words.now (fields_of row.now) }
{
    tells(row, Field::Refusal, words)
}

/// Whether a row is refused since no number was read.
fn is_junk(row: &ByteRecord) -> bool
    ensures { result ≡ is_junk (fields_of row.now) }
{
    !has_refusal(row, "")
        && !has_refusal(row, "unknown region")
        && !has_refusal(row, "empty")
        && !has_refusal(row, "wrong count of fields")
}

/// Whether a row's number isn't valid.
fn is_invalid(row: &ByteRecord) -> bool
    ensures { result ≡ is_invalid (fields_of row.now) }
{
    tells(row, Field::Validity, "invalid")
}

/// Whether a row's number is a short number.
fn is_short(row: &ByteRecord) -> bool
    ensures { result ≡ is_short (fields_of row.now) }
{
    tells(row, Field::Kind, "Emergency") || tells(row, Field::Kind, "ShortNumber")
}
