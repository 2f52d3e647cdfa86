//! What holds of answers. These functions do nothing, but for those that read a text to show that
//! it has an answer; their contracts are the statements.
ghost use Rattle.std.specs.Prelude.{◌≡◌, ◌⊎◌, ◌+◌, ℕ, List, None, Option, Some, false};
ghost use Rattle.std.specs.Prelude.{slice_get, true};
ghost use Rattle.std.specs.List.{Contains};
ghost use Rattle.csv.specs.Records.{fields_of};
ghost use Rattle.phone_values.specs.declared.country.Id.{Id};
ghost use Rattle.phone_values.specs.declared.reading.Reading.{Reading};
ghost use Rattle.phone_csv.specs.Formats.{Record};
ghost use Rattle.phone_csv.specs.RecordReports.{IsReport};
ghost use Rattle.phone_values.specs.declared.rules.Rules.{Rules};
ghost use Rattle.phone_records.specs.declared.loader.Metadata as loader;
ghost use Rattle.phone_table.specs.Answered.{Answered};
ghost use Rattle.phone_table.specs.Answers.{IsAnswer, IsAnswerOf, IsOfOtherWidth};
ghost use Rattle.phone_table.specs.Answers.{IsOwnAnswer, IsUnder};
ghost use Rattle.phone_table.specs.Duplicates.{NamesFirst, duplicate_of, shared_of};
ghost use Rattle.phone_answers.specs.Extras.{EachHasOneText, ask_fields};
ghost use Rattle.phone_table.specs.Ends.{by};
ghost use Rattle.phone_table.specs.Rows.{AreKept, IsHeldBy};
ghost use Rattle.phone_table.specs.Runs.{WritesTable, names_in};
ghost use Rattle.phone_table.specs.declared.counts.Counts.{Counts};
ghost use Rattle.phone_table.specs.Tables.{IsReadAgain, IsTable};
ghost use Rattle.phone_table.specs.declared.header.Columns as header;
ghost use Rattle.phone_table.specs.declared.run.Asked as run;
ghost use Rattle.phone_table.specs.declared.summed.Totals.{Totals};

use crate::header::Columns;
use crate::region::region_text;
use crate::run::Asked;
use crate::table::field_in;
use csv::ByteRecord;
use phone_answers::laws::some_answer;

/// By either rules a record is read under one hint, if it is, and has one answer at most: its
/// fields, which are of one number or of none, and, where in the table of each column that is asked
/// for a prefix has one text, what these columns tell.
pub fn one_row()
    ensures under { (db : List loader.Metadata) (hint : Option Id) (columns : header.Columns)
        (asked : run.Asked) (fields : Record) (u v : Option (Option Id)) →
        IsUnder db hint columns asked fields u → IsUnder db hint columns asked fields v → u ≡ v }
    ensures own { (rules : Rules) (db : List loader.Metadata) (columns : header.Columns)
        (asked : run.Asked) (fields : Record) (under : Option (Option Id))
        (n k : Option Reading) (a b : Record) →
        IsOwnAnswer rules db columns asked fields under n a →
        IsOwnAnswer rules db columns asked fields under k b → (n ≡ k) × (a ≡ b) }
    ensures whole { (rules : Rules) (db : List loader.Metadata) (hint : Option Id)
        (columns : header.Columns) (asked : run.Asked) (fields a b : Record) →
        EachHasOneText asked.extra.now → IsAnswer rules db hint columns asked fields a →
        IsAnswer rules db hint columns asked fields b → a ≡ b }
{}

/// By either rules each record has an answer, under each database and hint, but for one that has
/// another count of fields than the table has columns, where such aren't marked. This is told of
/// tables without a column of what is suspicious, or of one of two numbers.
pub fn some_row(columns: Columns, asked: Asked<'_>, fields: &ByteRecord)
    ensures { (rules : Rules) (db : List loader.Metadata) (hint : Option Id) →
        ask_fields asked.entry.extra.now ≡ false → ((answer : Record) ×
        IsAnswer rules db hint columns asked.entry (fields_of fields.now) answer) ⊎
        IsOfOtherWidth columns asked.entry (fields_of fields.now) }
{
    let _text = region_text(columns, fields);
    some_answer(field_in(fields, columns.number));
}

/// What a run writes for a whole table with commas, read again, is the byte-order mark that the
/// table begins with, if it does, the header with the added names, and the rows that are written
/// of the table's records, each with its answer.
pub fn read_again()
    ensures { (rules : Rules) (db : List loader.Metadata) (hint : Option Id)
        (columns : header.Columns) (asked : run.Asked) (totals : Totals) (header : Record)
        (bytes text : List ℕ) →
        IsTable header (names_in asked)
        (by IsReport (WritesTable rules db hint columns asked totals)) 44 bytes text →
        IsReadAgain (IsAnswerOf rules db hint columns asked) asked.tells_duplicates
        asked.is_unique totals.counts header (names_in asked) bytes text }
{}

/// A record whose `duplicate_of` has a number names an earlier one with its key, which names no
/// other; and of the records with one key only one names no other.
pub fn one_first()
    ensures named { (all : List Answered) (place first : ℕ) (a : Answered) →
        slice_get all place ≡ Some a → duplicate_of (shared_of all a) (place + 2) ≡ Some first →
        NamesFirst all a place first }
    ensures one { (all : List Answered) (key : List ℕ) (p q : ℕ) (a b : Answered) →
        slice_get all p ≡ Some a → slice_get all q ≡ Some b → a.key ≡ Some key →
        b.key ≡ Some key → duplicate_of (shared_of all a) (p + 2) ≡ None →
        duplicate_of (shared_of all b) (q + 2) ≡ None → p ≡ q }
{}

/// Where each number is kept once, no record is lost: its row is written, or that of another one
/// with its key.
pub fn none_lost()
    ensures { (all : List Answered) (rows : List Record) (counts : Counts) →
        AreKept true all rows counts → (a : Answered) → Contains all a → IsHeldBy all rows a }
{}
