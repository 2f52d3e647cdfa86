//! The engine: what reads, tells and prints.
ghost use Rattle.std.specs.Prelude.{◌≡◌, ◌⊎◌, ◌↔◌, Err, IfOk, None, Some, chars, string_bytes};
ghost use Rattle.phone_engine.specs.Facts.{is_valid_by, kind_by, printed_as, region_by};
ghost use Rattle.phone_engine.specs.Readings.{ReadsBy};
ghost use Rattle.phone_engine.specs.ReportLines.{IsReportLine};
ghost use Rattle.phone_lines.specs.Ends.{Ends, seen};
ghost use Rattle.phone_plans.specs.CodeLookUps.{first_of, territories};
ghost use Rattle.phone_values.specs.declared.mode.Mode.TheVariants as mode;
ghost use Rattle.phone_library.specs.Printed.{printed_by};

use crate::facts::library_facts;
use crate::line::line_of;
use crate::printing::{texts_of, texts_without_carrier};
use phone_device::{ByteSink, ByteSource};
use phone_lines::{Answers, RunError, answer_lines};
use phone_plans::Plans;
use phone_values::country::Id;
use phone_values::{ParseError, Rules};
use phonenumber::{Facts, FormatError, PhoneNumber, Texts, parse_with};
use std::alloc::{AllocError, Global};
use std::marker::Model;

/// What reads texts as phone numbers, and tells, prints and reports on them: a database, by whose
/// rules, and the region under which texts are read. It is a few words of memory, which may be
/// copied; what it is copied from may be asked by several threads at once.
#[derive(Clone, Copy)]
pub struct Engine<'d> {
    /// The database that reads, prints and tells.
    pub database: &'d Plans,
    /// By whose rules texts are read, and numbers printed and described.
    pub rules: Rules,
    /// The region that texts were dialled in, if one is known.
    pub hint: Option<Id>,
}

impl<'d> Engine<'d> {
    /// Reads a text as a phone number: by the rules of libphonenumber as `phone_library::parse`
    /// does, by those of the crate as `phonenumber::parse_with` does. Refused as these refuse it;
    /// by `Memory` where memory was refused, and nowhere else.
    pub fn parse(self, text: &str) -> Result<PhoneNumber, ParseError>
        ensures { (result ≡ Err ParseError.Memory) ⊎
            ReadsBy self.entry.rules self.entry.database.now self.entry.hint (chars text.now)
            result }
    {
        match self.rules {
            Rules::Library => phone_library::parse(self.database, self.hint, text),
            Rules::Crate => parse_with(self.database, self.hint, text),
        }
    }

    /// The region of a number, its kind, and whether it is valid: by the rules of libphonenumber as
    /// `phone_library::facts` answers, by those of the crate as `PhoneNumber::facts` does. Refused
    /// only for memory.
    pub fn facts(self, number: &PhoneNumber) -> Result<Facts, AllocError>
        ensures region { IfOk result
            (λ q. q.region ≡ region_by self.entry.rules self.entry.database.now number.now) }
        ensures kind { IfOk result
            (λ q. q.kind ≡ kind_by self.entry.rules self.entry.database.now number.now) }
        ensures is_valid { IfOk result
            (λ q. q.is_valid ≡ is_valid_by self.entry.rules self.entry.database.now number.now) }
    {
        match self.rules {
            Rules::Library => library_facts(self.database, number),
            Rules::Crate => number.facts(self.database),
        }
    }

    /// Whether a number is valid, as `phone_library::is_valid` or `PhoneNumber::is_valid_with`
    /// answers. Refused only for memory.
    pub fn is_valid(self, number: &PhoneNumber) -> Result<bool, AllocError>
        ensures { IfOk result
            (λ valid. valid ≡ is_valid_by self.entry.rules self.entry.database.now number.now) }
    {
        match self.rules {
            Rules::Library => phone_library::is_valid(self.database, number),
            Rules::Crate => number.is_valid_with(self.database),
        }
    }

    /// A number's texts in the four modes: by the rules of libphonenumber those of the number
    /// without its carrier, whose code stands in national text only where a caller asks for it, and
    /// by a layout that fits the whole number; by those of the crate those of the number as it is.
    /// `UnknownCode` exactly where the database lists no territory of the code, `Memory` where
    /// memory was refused.
    pub fn texts(self, number: &PhoneNumber) -> Result<Texts, FormatError>
        ensures e164 { IfOk result (λ t.
            printed_by self.entry.rules self.entry.database.now mode.E164
            (printed_as self.entry.rules number.now) ≡ Some (string_bytes t.e164)) }
        ensures international { IfOk result (λ t.
            printed_by self.entry.rules self.entry.database.now mode.International
            (printed_as self.entry.rules number.now) ≡ Some (string_bytes t.international)) }
        ensures national { IfOk result (λ t.
            printed_by self.entry.rules self.entry.database.now mode.National
            (printed_as self.entry.rules number.now) ≡ Some (string_bytes t.national)) }
        ensures rfc3966 { IfOk result (λ t.
            printed_by self.entry.rules self.entry.database.now mode.Rfc3966
            (printed_as self.entry.rules number.now) ≡ Some (string_bytes t.rfc3966)) }
        ensures unknown { (result ≡ Err FormatError.UnknownCode) ↔
            (first_of (territories number.now.code.value self.entry.database.now) ≡ None) }
    {
        match self.rules {
            Rules::Library => texts_without_carrier(self.database, number),
            Rules::Crate => texts_of(self.database, number),
        }
    }

    /// The report line of a line of bytes, which is without its end: its number is read, printed
    /// and described. It has no line feed, and its fields are parted by one tab.
    ///
    /// A number: `ok`, its E.164, international, national and RFC 3966 text, then what is known of
    /// it, a field for each function of the module `words` that tells of a number, in their order.
    /// A refusal: `error`, its number and its words. A line that isn't UTF-8: `error`, `0`, `not
    /// UTF-8`. Refused only for memory.
    pub fn report_line(self, line: &[u8]) -> Result<String, AllocError>
        ensures { IfOk result (λ text. IsReportLine self.entry.rules self.entry.database.now
            self.entry.hint line.now (string_bytes text)) }
    {
        line_of(self, line)
    }

    /// Reads lines from a source and writes the report on them to a sink.
    ///
    /// The input is cut at each line feed; what stands after the last one is a line where it has a
    /// byte; one carriage return at a line's end is dropped. Each line gives one report line, as
    /// `report_line` has it, ended by a line feed. Nothing in memory grows with the number of
    /// lines.
    ///
    /// The sink is flushed at the end, unless it failed before. Errors, and what was written:
    ///
    /// - `Input`: the source failed, or 2^64 - 1 bytes were read. The report on all lines that a
    ///   line feed ended is written.
    /// - `Output`: the sink failed, or took no byte of some. The report lines of some first lines
    ///   are written, each whole, then a beginning of the next report line, and nothing of a later
    ///   one. The bytes after the last line feed count as a line only if the source was at its end.
    /// - `Memory`: memory was refused. The report lines of some first lines are written, each
    ///   whole.
    pub fn report<S: ByteSource, W: ByteSink>(
        self,
        source: &mut S,
        sink: &mut W,
    ) -> Result<(), RunError>
        ensures ends { Ends (IsReportLine self.entry.rules self.entry.database.now self.entry.hint)
            (seen (S.to_come source.old) (S.faults source.old) (W.taken sink.old)
            (W.faults sink.old) (W.unflushed sink.old))
            (seen (S.to_come source.new) (S.faults source.new) (W.taken sink.new)
            (W.faults sink.new) (W.unflushed sink.new))
            result }
    {
        answer_lines(self.database.allocator(), &self, source, sink)
    }
}

/// An engine answers a line by its report line.
impl<'d> Answers for Engine<'d> {
    ghost use Rattle.phone_engine.specs.ReportLines.{IsReportLine};

    ghost gives = { λ e line answer. IsReportLine e.rules e.database.now e.hint line answer };

    /// The report line of a line, which is without its end.
    fn answer(&self, _alloc: Global, line: &[u8]) -> Result<String, AllocError> {
        self.report_line(line)
    }
}
