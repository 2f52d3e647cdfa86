//! What holds of reading and of the report by either rules. These functions do nothing, but for
//! those that run the readers to show that a text has a reading, and a line its report line; their
//! contracts are the statements.
ghost use Rattle.std.specs.Prelude.{◌≡◌, ℕ, List, chars, Option, Result, Ok, true};
ghost use Rattle.phone_engine.specs.Readings.{ReadsBy};
ghost use Rattle.phone_engine.specs.ReportLines.{IsReportLine};
ghost use Rattle.phone_engine.specs.Reports.{IsBeginning, IsReport, TakesBeginning};
ghost use Rattle.phone_lines.specs.LineReports.{TakesA};
ghost use Rattle.phone_plans.specs.CodeLookUps.{is_listed};
ghost use Rattle.phone_records.specs.declared.loader.Metadata as loader;
ghost use Rattle.phone_values.specs.declared.country.Id.{Id};
ghost use Rattle.phone_values.specs.declared.error.ParseError.{ParseError};
ghost use Rattle.phone_values.specs.declared.reading.Reading.{Reading};
ghost use Rattle.phone_values.specs.declared.rules.Rules.{Rules};

use phone_library_laws::readings;
use phone_lines::without_return;
use phone_read::laws;

/// By either rules a text has at most one reading, under each database and hint.
pub fn one_reading()
    ensures { (rules : Rules) (db : List loader.Metadata) (hint : Option Id) (text : List ℕ)
        (a b : Result Reading ParseError) → ReadsBy rules db hint text a →
        ReadsBy rules db hint text b → a ≡ b }
{}

/// By either rules each text has a reading, under each database and hint.
pub fn some_reading(text: &str)
    ensures { (rules : Rules) (db : List loader.Metadata) (hint : Option Id) →
        (r : Result Reading ParseError) × ReadsBy rules db hint (chars text.now) r }
{
    laws::some_reading(text);
    readings::some_reading();
}

/// The calling code of a number that was read by either rules is listed.
pub fn code_is_listed()
    ensures { (rules : Rules) (db : List loader.Metadata) (hint : Option Id) (text : List ℕ)
        (n : Reading) → ReadsBy rules db hint text (Ok n) → is_listed n.code.value db ≡ true }
{}

/// By either rules a line has one report line at most, and bytes one report, under each database
/// and hint.
pub fn one_report()
    ensures line { (rules : Rules) (db : List loader.Metadata) (hint : Option Id)
        (line a b : List ℕ) → IsReportLine rules db hint line a →
        IsReportLine rules db hint line b → a ≡ b }
    ensures whole { (rules : Rules) (db : List loader.Metadata) (hint : Option Id)
        (bytes a b : List ℕ) → IsReport rules db hint bytes a →
        IsReport rules db hint bytes b → a ≡ b }
{}

/// By either rules what was written where a sink failed begins each report on what was read.
pub fn begins_each_report()
    ensures { (rules : Rules) (db : List loader.Metadata) (hint : Option Id) →
        (to_come : Option (List ℕ)) (bytes : List ℕ) (before after : Option (List ℕ)) →
        TakesA (IsBeginning rules db hint to_come bytes) before after →
        TakesBeginning rules db hint bytes before after }
{}

/// By either rules a line has a report line, under each database and hint. The body reads the text,
/// since the contract of reading shows that the text has a reading.
pub fn some_report_line(line: &[u8])
    ensures { (rules : Rules) (db : List loader.Metadata) (hint : Option Id) →
        (answer : List ℕ) × IsReportLine rules db hint line.now answer }
{
    if let Ok(text) = std::str::from_utf8(line) {
        some_reading(text);
    }
}

/// By either rules bytes have a report, under each database and hint: each line of them has a
/// report line.
pub fn some_report(bytes: &[u8])
    ensures { (rules : Rules) (db : List loader.Metadata) (hint : Option Id) →
        (report : List ℕ) × IsReport rules db hint bytes.now report }
{
    let mut start = 0;
    for end in 0..bytes.len() {
        if bytes[end] == b'\n' {
            some_report_line(without_return(&bytes[start..end]));
            start = end + 1;
        }
    }
    if start < bytes.len() {
        some_report_line(without_return(&bytes[start..]));
    }
}
