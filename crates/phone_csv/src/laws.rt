//! What holds of the definitions of this crate. These functions do nothing; their contracts are the
//! statements.
ghost use Rattle.std.specs.Prelude.{◌≢◌, ◌∷◌, ◌++◌, [], ℕ, List};
ghost use Rattle.csv.specs.Reading.{AreRecords};
ghost use Rattle.csv.specs.declared.parser.State.{State};
ghost use Rattle.csv.specs.declared.parser.State.TheVariants as st;
ghost use Rattle.phone_csv.specs.Formats.{Record, commas, reading, record_text};
ghost use Rattle.phone_csv.specs.declared.format.LineEnd.{LineEnd};
ghost use Rattle.phone_csv.specs.RecordReports.{AreAll, AreRows, IsReport, WritesRows};

use crate::Answers;

/// The records of a text are those that the kit's `csv` reads it as.
pub fn records_of_the_kit()
    ensures { (delimiter : ℕ) (start : State) (bytes : List ℕ) (records : List Record) →
        AreAll delimiter start bytes records →
        AreRecords (reading delimiter) start bytes records }
{}

/// What is written with commas, read again, are the rows: the records that were read, each with its
/// answer behind its fields, but for those that are left out, whatever stands behind records.
pub fn read_again<A: Answers>(answers: &A)
    ensures { (last : A) (end : LineEnd) (start : State) (bytes text : List ℕ) →
        IsReport (WritesRows A.gives (commas end) answers.now last) 44 start bytes text →
        (records rows : List Record) × AreAll 44 start bytes records ×
        AreRows A.gives answers.now records rows last ×
        AreRecords (reading 44) st.StartRecord text rows }
{}

/// What is written with commas behind a first record, read again with it, are that one and the
/// rows: the records that were read, each with its answer behind its fields, but for those that are
/// left out, whatever stands behind records.
pub fn table_read_again<A: Answers>(answers: &A)
    ensures { (last : A) (end : LineEnd) (start : State) (bytes body : List ℕ) (first : Record) →
        first ≢ [] →
        IsReport (WritesRows A.gives (commas end) answers.now last) 44 start bytes body →
        (records rows : List Record) × AreAll 44 start bytes records ×
        AreRows A.gives answers.now records rows last ×
        AreRecords (reading 44) st.StartRecord (record_text (commas end) first ++ body)
        (first ∷ rows) }
{}
