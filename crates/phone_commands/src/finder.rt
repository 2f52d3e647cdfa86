//! The numbers that stand in running text.
ghost use Rattle.std.specs.Prelude.{◌≡◌, ◌+◌, ◌≤◌, ◌++◌, ◌∷◌, [], IfOk, IsCharBoundary, List, None};
ghost use Rattle.std.specs.Prelude.{OnOk, chars, length, map, option_map, string_bytes, take, ℕ};
ghost use Rattle.std.specs.List.{AllByRecursion};
ghost use Rattle.std.specs.Fmt.{decimal};
ghost use Rattle.std.specs.Option.{option_to_list};
ghost use Rattle.csv.specs.Records.{fields_of, partial_of};
ghost use Rattle.phone_csv.specs.Feeds.{counted};
ghost use Rattle.phone_csv.specs.Formats.{Record, record_text};
ghost use Rattle.phone_find.specs.Founds.{IsOrdered};
ghost use Rattle.phone_commands.specs.FoundLines.{AreMatched, AreTold, AreToldIn, AreToldOf};
ghost use Rattle.phone_commands.specs.FoundLines.{HasTerritory, HaveTerritories, IsPlace, IsSpot};
ghost use Rattle.phone_commands.specs.FoundLines.{IsTold, columns, found_of, name_told, records};
ghost use Rattle.phone_answers.specs.declared.finds.Spot.{Spot};
ghost use Rattle.phone_matches_text.specs.Lent.{StandsThere};
ghost use Rattle.phone_commands.specs.declared.finder.FoundForm.TheVariants as form;
ghost use Rattle.phone_find.specs.Numbers.{AreNumbers};
ghost use Rattle.phone_find.specs.declared.leniency.Leniency.TheVariants.{Valid};
ghost use Rattle.phone_matches.specs.Orders as orders;
ghost use Rattle.phone_matches.specs.Told.{AllMatchThere, told_matches};
ghost use Rattle.phone_print.specs.Tabbed.{tabbed};
ghost use Rattle.phone_print.specs.Texts.{e164_text};

use crate::reader::Reader;
use crate::text::{push_line, push_text};
use csv::ByteRecord;
use phone_csv::{Format, LineEnd, add_record};
use phone_find::{Found, find_numbers};
use phone_lines::LineTaker;
use phone_matches::{Leniency, Match, find_matches_by};
use phone_plans::Plans;
use phone_table::finds::{Spot, found_object, push_found, push_found_names};
use phonenumber::{FormatError, PhoneNumber};
use std::alloc::{AllocError, Global};

/// How a number is told that was found in a text.
#[derive(Clone, Copy, PartialEq, Eq, Debug)]
pub enum FoundForm {
    /// As fields that are parted by tabs.
    Fields,
    /// As a JSON object.
    Object,
    /// As a record of a table with a header.
    Record,
}

/// How records are written.
const RECORDS: Format = Format {
    delimiter: b',',
    line_end: LineEnd::Feed,
};

/// How libphonenumber's matcher finds numbers.
#[derive(Clone, Copy)]
pub struct Matching<'d> {
    /// How strictly they are judged.
    pub leniency: Leniency,
    /// The database of other formats, by which their groups are told.
    pub alternates: Option<&'d Plans>,
}

/// The numbers that stand in each line: the valid ones, or those that libphonenumber's matcher
/// finds.
#[derive(Drop)]
pub struct Finder<'d, 'f> {
    /// What reads the numbers.
    pub reader: Reader<'d>,
    /// How libphonenumber's matcher finds the numbers, where that does.
    pub matching: Option<Matching<'d>>,
    /// How each is told.
    pub form: FoundForm,
    /// The number of the next line.
    pub place: u64,
    /// The number of the first line of each input.
    pub first: u64,
    /// The names of the inputs, in their order. Where there are several, each is told.
    pub names: &'f [&'f str],
    /// How many inputs were begun.
    pub begun: usize,
}

/// A text of the fields of a number that was found, parted by tabs, and a line feed. Refused only
/// for memory.
fn fields_text(
    alloc: Global,
    name: Option<&str>,
    spot: Spot<'_>,
    number: &PhoneNumber,
) -> Result<String, AllocError>
    ensures { IfOk result (λ s. string_bytes s ≡
        tabbed (option_to_list (option_map (λ n. n.now) name.entry) ++
        (decimal spot.entry.line ∷ decimal spot.entry.column ∷ e164_text number.now ∷
        spot.entry.piece.now ∷ [])) ++ 10 ∷ []) }
{
    let (line, column, piece) = (spot.line, spot.column, spot.piece);
    match name {
        Some(name) => format!(in alloc; "{name}\t{line}\t{column}\t{number}\t{piece}\n"),
        None => format!(in alloc; "{line}\t{column}\t{number}\t{piece}\n"),
    }
}

/// Puts a field at the end of a record, where there is one. Refused only for memory.
fn push_optional(row: &mut ByteRecord, field: Option<&str>) -> Result<(), AllocError>
    requires { partial_of row.old ≡ [] }
    ensures fields { OnOk result (fields_of row.new ≡
        fields_of row.old ++ option_to_list (option_map (λ f. f.now) field.entry)) }
    ensures partial { OnOk result (partial_of row.new ≡ []) }
{
    match field {
        Some(field) => row.push_field(field.as_bytes()),
        None => Ok(()),
    }
}

/// A record of one field, or of none. Refused only for memory.
fn record_of(alloc: Global, field: Option<&str>) -> Result<ByteRecord, AllocError>
    ensures fields { IfOk result (λ r. fields_of r ≡
        option_to_list (option_map (λ f. f.now) field.entry)) }
    ensures partial { IfOk result (λ r. partial_of r ≡ []) }
{
    let mut record = ByteRecord::new(alloc);
    push_optional(&mut record, field)?;
    Ok(record)
}

/// Puts the header of the records at the end of the answers, with a column for the input's name
/// where it is told. Refused only for memory.
fn push_header(alloc: Global, name: Option<&str>, answers: &mut Vec<u8>) -> Result<(), AllocError>
    ensures { OnOk result (answers.new.items ≡ answers.old.items ++
        record_text records (columns (option_map (λ n. n.now) name.entry))) }
{
    let heading = match name {
        Some(_) => Some("file"),
        None => None,
    };
    let mut header = record_of(alloc, heading)?;
    push_found_names(&mut header)?;
    add_record(alloc, RECORDS, &header, answers)
}

/// How many characters a text has.
fn count_chars(text: &str) -> usize
    ensures { result ≡ length (chars text.now) }
{
    text.chars().count()
}

/// The column of a place in a text, by that of a place in front of it.
fn column_at(text: &str, from: usize, column: u64, to: usize) -> u64
    requires from_border { IsCharBoundary text.now from }
    requires to_border { IsCharBoundary text.now to }
    requires behind { from ≤ to }
    requires column { column ≡ counted (length (chars (take from text.now)) + 1) }
    ensures { result ≡ counted (length (chars (take to text.now)) + 1) }
{
    column.saturating_add(count_chars(&text[from..to]) as u64)
}

/// Where a piece begins that stands behind a front of a text, in bytes, and its column, by that of
/// a place in the front.
fn place_behind(text: &str, from: usize, column: u64, front: &str) -> (usize, u64)
    requires from_border { IsCharBoundary text.now from }
    requires column { column ≡ counted (length (chars (take from text.now)) + 1) }
    requires front { (rest : List ℕ) × (text.now ≡ front.now ++ rest) }
    requires behind { length (chars (take from text.now)) ≤ length (chars front.now) }
    ensures begins { result.0 ≡ length front.now }
    ensures border { IsCharBoundary text.now result.0 }
    ensures column { result.1 ≡ counted (length (chars (take result.0 text.now)) + 1) }
{
    let start = front.len();
    let column = column_at(text, from, column, start);
    (start, column)
}

impl<'d, 'f> Finder<'d, 'f> {
    /// The name of the input, where it is told.
    fn name(&self) -> Option<&'f str>
        ensures { option_map (λ n. n.now) result ≡ name_told self.now.names.now self.now.begun }
    {
        if self.names.len() < 2 {
            return None;
        }
        let name = self.names.get(self.begun.saturating_sub(1))?;
        Some(*name)
    }

    /// Puts the fields of one number at the end of the answers.
    fn push_fields(
        &self,
        alloc: Global,
        spot: Spot<'_>,
        number: &PhoneNumber,
        answers: &mut Vec<u8>,
    ) -> Result<(), AllocError>
        ensures { OnOk result ((one : List ℕ) × IsTold self.now.reader.engine.rules
            self.now.reader.engine.database.now (name_told self.now.names.now self.now.begun)
            spot.entry number.now form.Fields one ×
            (answers.new.items ≡ answers.old.items ++ one)) }
    {
        let told = fields_text(alloc, self.name(), spot, number)?;
        push_text(answers, told.as_str())
    }

    /// Puts the object of one number at the end of the answers.
    fn push_object(
        &self,
        alloc: Global,
        spot: Spot<'_>,
        number: &PhoneNumber,
        answers: &mut Vec<u8>,
    ) -> Result<(), AllocError>
        requires { HasTerritory self.now.reader.engine.database.now number.now }
        ensures { OnOk result ((one : List ℕ) × IsTold self.now.reader.engine.rules
            self.now.reader.engine.database.now (name_told self.now.names.now self.now.begun)
            spot.entry number.now form.Object one ×
            (answers.new.items ≡ answers.old.items ++ one)) }
    {
        match found_object(self.reader.engine, spot, number) {
            Ok(object) => push_line(answers, object.as_str()),
            Err(FormatError::Memory) => Err(AllocError),
            Err(FormatError::UnknownCode) => unreachable!(),
        }
    }

    /// Puts the record of one number at the end of the answers.
    fn push_record(
        &self,
        alloc: Global,
        spot: Spot<'_>,
        number: &PhoneNumber,
        answers: &mut Vec<u8>,
    ) -> Result<(), AllocError>
        requires { HasTerritory self.now.reader.engine.database.now number.now }
        ensures { OnOk result ((one : List ℕ) × IsTold self.now.reader.engine.rules
            self.now.reader.engine.database.now (name_told self.now.names.now self.now.begun)
            spot.entry number.now form.Record one ×
            (answers.new.items ≡ answers.old.items ++ one)) }
    {
        let mut record = record_of(alloc, self.name())?;
        match push_found(self.reader.engine, spot, number, &mut record) {
            Ok(()) => add_record(alloc, RECORDS, &record, answers),
            Err(FormatError::Memory) => Err(AllocError),
            Err(FormatError::UnknownCode) => unreachable!(),
        }
    }

    /// Puts what is told of one number at the end of the answers.
    fn push_one(
        &self,
        alloc: Global,
        spot: Spot<'_>,
        number: &PhoneNumber,
        answers: &mut Vec<u8>,
    ) -> Result<(), AllocError>
        requires { HasTerritory self.now.reader.engine.database.now number.now }
        ensures { OnOk result ((one : List ℕ) × IsTold self.now.reader.engine.rules
            self.now.reader.engine.database.now (name_told self.now.names.now self.now.begun)
            spot.entry number.now self.now.form one ×
            (answers.new.items ≡ answers.old.items ++ one)) }
    {
        match self.form {
            FoundForm::Fields => self.push_fields(alloc, spot, number, answers),
            FoundForm::Object => self.push_object(alloc, spot, number, answers),
            FoundForm::Record => self.push_record(alloc, spot, number, answers),
        }
    }

    /// Puts what is told of all numbers that were found in a text at the end of the answers.
    fn push_all(
        &self,
        alloc: Global,
        text: &str,
        all: &[Found<PhoneNumber>],
        answers: &mut Vec<u8>,
    ) -> Result<(), AllocError>
        requires ordered { IsOrdered text.now 0 all.now }
        requires listed { HaveTerritories self.now.reader.engine.database.now all.now }
        ensures { OnOk result ((told : List ℕ) × AreTold self.now.reader.engine.rules
            self.now.reader.engine.database.now self.now.form
            (name_told self.now.names.now self.now.begun) self.now.place text.now all.now told ×
            (answers.new.items ≡ answers.old.items ++ told)) }
    {
        let mut from = 0;
        let mut column = 1u64;
        let mut rest = all;
        while let Some((found, others)) = rest.split_first() {
            column = column_at(text, from, column, found.start);
            from = found.start;
            let spot = Spot {
                line: self.place,
                column,
                piece: &text[found.start..found.end],
            };
            self.push_one(alloc, spot, &found.number, answers)?;
            rest = others;
        }
        Ok(())
    }

    /// Puts what is told of one match at the end of the answers, by the column of a place in front
    /// of it. Gives where it begins, and its column.
    fn push_match(
        &self,
        alloc: Global,
        text: &str,
        from: usize,
        column: u64,
        found: &Match<'_, PhoneNumber>,
        answers: &mut Vec<u8>,
    ) -> Result<(usize, u64), AllocError>
        requires from_border { IsCharBoundary text.now from }
        requires column { column ≡ counted (length (chars (take from text.now)) + 1) }
        requires stand { StandsThere text.now found.now.place }
        requires behind { length (chars (take from text.now)) ≤
            length (chars found.now.place.before.now) }
        requires listed { HasTerritory self.now.reader.engine.database.now found.now.number }
        ensures place { IfOk result (λ p. IsPlace text.now found.now p.0 p.1) }
        ensures told { IfOk result (λ _. (spot : Spot) × (one : List ℕ) ×
            IsSpot self.now.place text.now (found_of found.now) spot ×
            IsTold self.now.reader.engine.rules self.now.reader.engine.database.now
            (name_told self.now.names.now self.now.begun) spot found.now.number self.now.form one ×
            (answers.new.items ≡ answers.old.items ++ one)) }
    {
        let (start, column) = place_behind(text, from, column, found.place.before);
        let spot = Spot {
            line: self.place,
            column,
            piece: found.place.text,
        };
        self.push_one(alloc, spot, &found.number, answers)?;
        Ok((start, column))
    }

    /// Puts what is told of all matches of a text at the end of the answers.
    fn push_matches(
        &self,
        alloc: Global,
        text: &str,
        all: &[Match<'_, PhoneNumber>],
        answers: &mut Vec<u8>,
    ) -> Result<(), AllocError>
        requires stand { AllMatchThere text.now all.now }
        requires ordered { orders.IsOrdered 0 (told_matches all.now) }
        requires listed { HaveTerritories self.now.reader.engine.database.now
            (map found_of all.now) }
        ensures { OnOk result ((told : List ℕ) × AreTold self.now.reader.engine.rules
            self.now.reader.engine.database.now self.now.form
            (name_told self.now.names.now self.now.begun) self.now.place text.now
            (map found_of all.now) told × (answers.new.items ≡ answers.old.items ++ told)) }
    {
        let mut from = 0;
        let mut column = 1u64;
        for found in all {
            let (start, next) = self.push_match(alloc, text, from, column, found, answers)?;
            from = start;
            column = next;
        }
        Ok(())
    }

    /// Puts what is told of all valid numbers of a text at the end of the answers.
    fn take_numbers(
        &self,
        alloc: Global,
        text: &str,
        answers: &mut Vec<u8>,
    ) -> Result<(), AllocError>
        ensures { OnOk result ((told : List ℕ) × AreToldOf (AreNumbers self.now.reader.engine.rules
            self.now.reader.engine.database.now self.now.reader.engine.hint Valid text.now)
            self.now.reader.engine.rules self.now.reader.engine.database.now self.now.form
            (name_told self.now.names.now self.now.begun) self.now.place text.now told ×
            (answers.new.items ≡ answers.old.items ++ told)) }
    {
        let all = find_numbers(self.reader.engine, text)?;
        self.push_all(alloc, text, all.as_slice(), answers)
    }

    /// Puts what is told of all numbers that libphonenumber's matcher finds in a text at the end of
    /// the answers.
    fn take_matches(
        &self,
        alloc: Global,
        matching: Matching<'_>,
        text: &str,
        answers: &mut Vec<u8>,
    ) -> Result<(), AllocError>
        ensures { OnOk result ((told : List ℕ) × AreToldOf (AreMatched
            self.now.reader.engine.database.now self.now.reader.engine.hint matching.entry text.now)
            self.now.reader.engine.rules self.now.reader.engine.database.now self.now.form
            (name_told self.now.names.now self.now.begun) self.now.place text.now told ×
            (answers.new.items ≡ answers.old.items ++ told)) }
    {
        let engine = self.reader.engine;
        let Matching {
            leniency,
            alternates,
        } = matching;
        let all = find_matches_by(
            engine.database,
            alternates,
            engine.hint,
            leniency,
            u64::MAX,
            text,
        )?;
        self.push_matches(alloc, text, all.as_slice(), answers)
    }

    /// Puts what is told of all numbers that are found in a text at the end of the answers.
    fn take_text(&self, alloc: Global, text: &str, answers: &mut Vec<u8>) -> Result<(), AllocError>
        ensures { OnOk result ((told : List ℕ) × AreToldIn self.now.reader.engine.rules
            self.now.reader.engine.database.now self.now.reader.engine.hint self.now.matching
            self.now.form (name_told self.now.names.now self.now.begun) self.now.place text.now
            told × (answers.new.items ≡ answers.old.items ++ told)) }
    {
        match self.matching {
            Some(matching) => self.take_matches(alloc, matching, text, answers),
            None => self.take_numbers(alloc, text, answers),
        }
    }
}

impl<'d, 'f> LineTaker for Finder<'d, 'f> {
    ghost use Rattle.std.specs.Prelude.{◌≡◌};
    ghost use Rattle.phone_commands.specs.FoundLines.{IsFoundLine, in_front, name_told};
    ghost use Rattle.phone_commands.specs.ObjectLines.{after_one};

    // Lines are counted anew in each input. Of records the header stands in front of the first.
    ghost begins = { λ f head after. (head ≡ in_front f.form f.begun
        (name_told f.names.now (after_one f.begun))) ×
        (after ≡ record f { place = f.first; begun = after_one f.begun }) };

    ghost gives = { λ f line answer after. IsFoundLine f.reader.engine.rules
        f.reader.engine.database.now f.reader.engine.hint f.matching f.form
        (name_told f.names.now f.begun) f.place line answer ×
        (after ≡ record f { place = after_one f.place }) };

    fn begin(&mut self, alloc: Global, answers: &mut Vec<u8>) -> Result<(), AllocError> {
        let is_first = self.begun == 0;
        self.begun = self.begun.saturating_add(1);
        self.place = self.first;
        match self.form {
            FoundForm::Record if is_first => push_header(alloc, self.name(), answers),
            _ => Ok(()),
        }
    }

    fn take(
        &mut self,
        alloc: Global,
        line: &[u8],
        answers: &mut Vec<u8>,
    ) -> Result<(), AllocError> {
        let text = String::from_utf8_lossy(alloc, line)?;
        self.take_text(alloc, text.as_str(), answers)?;
        self.place = self.place.saturating_add(1);
        Ok(())
    }
}
