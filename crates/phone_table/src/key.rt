//! The key of a record that was answered.
ghost use Rattle.std.specs.Prelude.{◌≡◌, ◌++◌, ◌⊎◌, ◌<◌, [], length, get_or};
ghost use Rattle.csv.specs.Records.{fields_of};
ghost use Rattle.phone_csv.specs.Formats.{Record};
ghost use Rattle.phone_answers.specs.Fields.{names};

use crate::table::field_in;
use csv::ByteRecord;
use phone_answers::ANSWER_WIDTH;

/// The E.164 text of a record that has an answer after its own fields, or of the header: the first
/// field of the answer. Empty where the record has fewer fields than an answer.
pub fn e164_of(fields: &ByteRecord) -> &[u8]
    ensures answered { (own answer : Record) → length answer ≡ length names →
        fields_of fields.now ≡ own ++ answer → result.now ≡ get_or answer 0 [] }
    ensures short { length (fields_of fields.now) < length names → result.now ≡ [] }
{
    match fields.len().checked_sub(ANSWER_WIDTH) {
        Some(place) => field_in(fields, place),
        None => &[],
    }
}
