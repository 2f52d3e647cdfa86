//! What answers records, and the text of a record with its answer.
ghost use Rattle.std.specs.Prelude.{◌≡◌, List, [], ◌++◌, ℕ, Option, None, Some, Ok, Err, OnOk};
ghost use Rattle.std.specs.Prelude.{OnErr, true, false};
ghost use Rattle.csv.specs.Records.{fields_of, partial_of};
ghost use Rattle.phone_csv.specs.Formats.{Record, record_text};
ghost use Rattle.phone_csv.specs.declared.answers.Refusal.TheVariants as refusal;

use crate::format::Format;
use crate::spelled::record_text;
use csv::ByteRecord;
use std::alloc::{AllocError, Global};

/// Why a record was not answered.
#[derive(Clone, Copy, PartialEq, Eq, Debug)]
pub enum Refusal {
    /// It is not a record that is answered.
    Record,
    /// There was no memory for its answer.
    Memory,
}

/// What answers records in their turn: it may keep something from one to the next.
pub trait Answers {
    // What may be done with a record: what is kept before it, its fields, those of its answer, or
    // none where it is left out, and what is kept after it.
    ghost gives: { Self → List (List ℕ) → Option (List (List ℕ)) → Self → Type 0 };

    // Which records are refused.
    ghost refuses: { Self → List (List ℕ) → Type 0 };

    /// Puts the fields of the answer behind those of a record, or says that the record is left out.
    /// Refused by `Record` for a record that is not answered, and by `Memory`.
    fn answer(&mut self, alloc: Global, fields: &mut ByteRecord) -> Result<bool, Refusal>
        requires { partial_of fields.old ≡ [] }
        ensures answered { result ≡ Ok true → (answer : List (List ℕ)) ×
            gives self.old (fields_of fields.old) (Some answer) self.new ×
            (fields_of fields.new ≡ fields_of fields.old ++ answer) }
        ensures left_out { result ≡ Ok false →
            gives self.old (fields_of fields.old) None self.new }
        ensures refused { result ≡ Err refusal.Record →
            refuses self.old (fields_of fields.old) × (self.new ≡ self.old) };
}

/// Puts the text of a record behind a text. Refused only for memory; then the text is as it was.
pub fn add_record(
    alloc: Global,
    format: Format,
    fields: &ByteRecord,
    text: &mut Vec<u8>,
) -> Result<(), AllocError>
    ensures added { OnOk result (text.new.items ≡
        text.old.items ++ record_text format (fields_of fields.now)) }
    ensures kept { OnErr result (text.new.items ≡ text.old.items) }
{
    let written = record_text(alloc, format, fields)?;
    text.extend_from_slice(written.as_slice())
}
