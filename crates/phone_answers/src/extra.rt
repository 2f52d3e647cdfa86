//! Columns that are asked for beside the answer's: parts of the number, and what tables of prefixes
//! tell of it.
ghost use Rattle.std.specs.Prelude.{◌≡◌, ◌&&◌, ◌||◌, ◌++◌, ◌∷◌, not, [], ℕ, List};
ghost use Rattle.std.specs.Prelude.{if◌then◌else◌, IfOk, None, OnOk, Some, string_bytes};
ghost use Rattle.std.specs.Cow.{cow_str_bytes};
ghost use Rattle.std.specs.Fmt.{decimal};
ghost use Rattle.std.specs.Option.{option_copied};
ghost use Rattle.csv.specs.Records.{fields_of, partial_of};
ghost use Rattle.phone_csv.specs.Formats.{Record};
ghost use Rattle.phone_places.specs.Maps.{digits_of, has_carrier, is_first, is_geographical};
ghost use Rattle.phone_answers.specs.Extras.{AreTold, IsAreaIn, IsFound, IsIf, IsOfTables};
ghost use Rattle.phone_answers.specs.Extras.{IsPartOr, IsSpoken, IsSuspicion, IsTold, IsToldBeside};
ghost use Rattle.phone_answers.specs.Extras.{IsToldBy, entries_in, is_portable, is_unknown};
ghost use Rattle.phone_answers.specs.Extras.{part_of, split_in, tells_doubts, zone_digits};
ghost use Rattle.phone_answers.specs.Splits.{IsSplit};
ghost use Rattle.phone_answers.specs.Spelled.{IsKnownIn, number_in};

use crate::answer::{Answer, Known};
use crate::parts::{Part, part_told};
use crate::split::{Shown, Which, split_of};
use csv::ByteRecord;
use itoa::Buffer;
use phone_doubts::doubts;
use phone_engine::Engine;
use phone_languages::{Atlas, Locale, Texts, text_told};
use phone_places::{Owner, area, has_carrier, is_geographical};
use phone_plans::Plans;
use phone_prefixes::Prefixes;
use phone_values::Type;
use phonenumber::country::Id;
use phonenumber::{Facts, PhoneNumber};
use std::alloc::AllocError;
use std::borrow::CowStr;
use std::marker::Model;

/// What a column tells of a number: a part of it, or what a table of prefixes has.
#[derive(Clone, Copy, PartialEq, Eq, Debug)]
pub enum Told {
    /// A part of it.
    Part(Part),
    /// The text of the longest prefix that begins the digits of its E.164 text.
    Prefix,
    /// Its time zones, of which several are parted by `&`. A number that belongs to no place in its
    /// country has those of its calling code, and one of unknown kind none.
    TimeZones,
    /// Its carrier, where it is a mobile number, one that may be, or a pager's. For `Owner::Today`
    /// none where its region lets mobile numbers be kept when the carrier changes.
    Carrier(Owner),
    /// Its area, as `phone_places::area` has it; none where it belongs to no place in its country.
    Area,
    /// The words of what is suspicious about the field, as `phone_doubts::doubts` has them; also
    /// where no number was read.
    Doubts,
    /// Of one of the two numbers in a field that has two, as `phone_doubts::two_numbers` has them,
    /// its E.164 text, type or region; empty where the field hasn't two.
    Split(Which, Shown),
}

/// A column that is asked for beside the answer's.
#[derive(Clone, Copy)]
pub struct Extra<'a> {
    /// Its name in the header.
    pub heading: &'a str,
    /// What it tells.
    pub told: Told,
    /// The table by which it tells that, where a table does; without it nothing is told then. Of
    /// carriers and areas it is the English one.
    pub table: Option<&'a Prefixes>,
    /// That of the locale's language, which carriers and areas are asked of before.
    pub own: Option<&'a Prefixes>,
    /// The locale in which carriers and areas are told.
    pub locale: &'a Locale,
}

/// The text of the longest prefix of a table that begins these digits; empty where none does.
fn longest_text<'a>(table: &'a Prefixes, digits: &str) -> &'a str
    ensures { IsFound table.now (Some digits.now) result.now }
{
    match table.longest(digits) {
        Some((_, text)) => text,
        None => "",
    }
}

/// The same of a table that may be there.
fn text_of<'a>(table: Option<&'a Prefixes>, digits: &str) -> &'a str
    ensures { IsFound (entries_in table.entry) (Some digits.now) result.now }
{
    match table {
        Some(table) => longest_text(table, digits),
        None => "",
    }
}

/// The two tables by which a column tells carriers or areas.
fn texts_of<'a>(column: &Extra<'a>) -> Texts<'a>
    ensures own { result.own ≡ column.now.own }
    ensures english { result.english ≡ column.now.table }
{
    Texts {
        own: column.own,
        english: column.table,
    }
}

/// What a column's tables have for digits, in its locale, where this holds; else an empty text.
fn spoken_if<'a>(column: &Extra<'a>, holds: bool, digits: &str) -> &'a str
    ensures { IsIf holds (IsSpoken column.now digits.now) result.now }
{
    if holds {
        text_told(column.locale, texts_of(column), digits)
    } else {
        ""
    }
}

/// The area of a number in a column's locale. Refused only for memory.
fn area_in<'a>(
    database: &Plans,
    column: &Extra<'a>,
    number: &PhoneNumber,
) -> Result<&'a str, AllocError>
    ensures { IfOk result (λ text. IsAreaIn database.now column.now number.now text.now) }
{
    let atlas = Atlas {
        locale: column.locale,
        areas: texts_of(column),
        carriers: texts_of(column),
        names: &[],
    };
    area(database, &atlas, number)
}

/// The same where this holds; else an empty text.
fn area_if<'a>(
    database: &Plans,
    column: &Extra<'a>,
    holds: bool,
    number: &PhoneNumber,
) -> Result<&'a str, AllocError>
    ensures { IfOk result (λ text. IsIf holds (IsAreaIn database.now column.now number.now)
        text.now) }
{
    if holds {
        area_in(database, column, number)
    } else {
        Ok("")
    }
}

/// The text of the longest prefix that begins a calling code; empty where none does.
fn text_of_code(table: Option<&Prefixes>, code: u16) -> &str
    ensures { IsFound (entries_in table.entry) (Some (decimal code)) result.now }
{
    let mut buffer = Buffer::new();
    let digits = buffer.format(code);
    text_of(table, digits)
}

/// Whether a mobile number of a region can be kept when the carrier changes.
fn is_portable(database: &Plans, region: Option<Id>) -> bool
    ensures { result ≡ is_portable database.now region }
{
    let Some(region) = region else {
        return false;
    };
    match database.by_id(region.as_str()) {
        Some(territory) => territory.is_mobile_number_portable(),
        None => false,
    }
}

/// Whether the carrier is told of a number of this kind and region.
fn tells_carrier(database: &Plans, owner: Owner, kind: Type, region: Option<Id>) -> bool
    ensures { result ≡ (has_carrier kind && (is_first owner || not (is_portable database.now
        region))) }
{
    has_carrier(kind) && (owner == Owner::First || !is_portable(database, region))
}

/// Whether a number is of unknown kind.
fn is_unknown(kind: Type) -> bool
    ensures { result ≡ is_unknown kind }
{
    matches!(kind, Type::Unknown)
}

/// The time zones of a number of this kind, whose digits these are.
fn zones_of<'a>(
    table: Option<&'a Prefixes>,
    number: &PhoneNumber,
    kind: Type,
    digits: &str,
) -> &'a str
    requires { digits.now ≡ digits_of number.now }
    ensures { IsFound (entries_in table.entry) (zone_digits kind number.now) result.now }
{
    let code = number.code().value();
    if is_unknown(kind) {
        ""
    } else if is_geographical(kind, code) {
        text_of(table, digits)
    } else {
        text_of_code(table, code)
    }
}

/// What the tables of a column tell of a number whose digits these are; nothing where no table
/// tells the column. Refused only for memory.
fn found<'a>(
    database: &Plans,
    column: &Extra<'a>,
    number: &PhoneNumber,
    facts: Facts,
    digits: &str,
) -> Result<&'a str, AllocError>
    requires { digits.now ≡ digits_of number.now }
    ensures { IfOk result (λ text. IsOfTables database.now column.now column.now.told facts.kind
        facts.region number.now text.now) }
{
    let Facts { kind, region, .. } = facts;
    match column.told {
        Told::Prefix => Ok(text_of(column.table, digits)),
        Told::TimeZones => Ok(zones_of(column.table, number, kind, digits)),
        Told::Carrier(owner) => {
            let holds = tells_carrier(database, owner, kind, region);
            Ok(spoken_if(column, holds, digits))
        }
        Told::Area => {
            let holds = is_geographical(kind, number.code().value());
            area_if(database, column, holds, number)
        }
        _ => Ok(""),
    }
}

/// What stands behind the plus sign in front of a text.
fn behind_plus(text: &str) -> &str
    ensures { (rest : List ℕ) → text.now ≡ 43 ∷ rest → result.now ≡ rest }
{
    match text.strip_prefix("+") {
        Some(rest) => rest,
        None => "",
    }
}

/// What a column tells of a number, of which this is known. Refused only for memory.
fn part_of<'a>(
    engine: Engine<'_>,
    column: &Extra<'a>,
    number: &'a PhoneNumber,
    known: &Known,
) -> Result<CowStr<'a>, AllocError>
    requires { string_bytes known.now.texts.e164 ≡ 43 ∷ digits_of number.now }
    ensures { IfOk result (λ text. IsPartOr
        (part_of engine.entry.rules engine.entry.database.now column.now.told number.now)
        (IsOfTables engine.entry.database.now column.now column.now.told known.now.facts.kind
        known.now.facts.region number.now) (cow_str_bytes text)) }
{
    match column.told {
        Told::Part(part) => part_told(engine, part, number),
        _ => {
            let digits = behind_plus(known.texts.e164.as_str());
            let text = found(engine.database, column, number, known.facts, digits)?;
            Ok(CowStr::Borrowed(text))
        }
    }
}

/// A record's field of a number, as it was read.
#[derive(Clone, Copy)]
pub struct Subject<'a> {
    /// The hint under which it was read; none where it wasn't.
    pub under: Option<Option<Id>>,
    /// The field.
    pub field: &'a [u8],
    /// Its answer.
    pub answer: &'a Answer,
}

/// Whether a column tells what is suspicious.
pub fn tells_doubts(told: Told) -> bool
    ensures { result ≡ tells_doubts told }
{
    matches!(told, Told::Doubts)
}

/// The number of an answer, where it has one.
pub(crate) fn number_of(answer: &Answer) -> Option<&PhoneNumber>
    ensures { option_copied result ≡ number_in answer.now }
{
    match answer {
        Answer::Number(number, _) => Some(number),
        Answer::Short(_, _) | Answer::Refused(_) => None,
    }
}

/// The words of what is suspicious about a field that was read under the engine's hint; none where
/// its bytes are no text. Refused only for memory.
fn doubts_about(
    engine: Engine<'_>,
    field: &[u8],
    number: Option<&PhoneNumber>,
) -> Result<String, AllocError>
    ensures { IfOk result (λ text. IsSuspicion engine.entry.rules engine.entry.database.now
        (Some engine.entry.hint) field.now (option_copied number.entry) (string_bytes text)) }
{
    match std::str::from_utf8(field) {
        Ok(text) => doubts(engine, text, number),
        Err(_) => Ok(String::new(engine.database.allocator())),
    }
}

/// The same of a field that was read under a hint, if it was; none where it wasn't.
fn suspicion_of(engine: Engine<'_>, subject: Subject<'_>) -> Result<String, AllocError>
    ensures { IfOk result (λ text. IsSuspicion engine.entry.rules engine.entry.database.now
        subject.entry.under subject.entry.field.now (number_in subject.entry.answer.now)
        (string_bytes text)) }
{
    match subject.under {
        Some(hint) => {
            let hinted = Engine { hint, ..engine };
            doubts_about(hinted, subject.field, number_of(subject.answer))
        }
        None => Ok(String::new(engine.database.allocator())),
    }
}

/// Of which of two numbers a column tells, and what, where it tells of such.
fn split_in(told: Told) -> Option<(Which, Shown)>
    ensures { result ≡ split_in told }
{
    match told {
        Told::Split(which, shown) => Some((which, shown)),
        _ => None,
    }
}

/// What a column tells of a field. Refused only for memory.
pub(crate) fn told_by<'a>(
    engine: Engine<'_>,
    column: &Extra<'a>,
    subject: Subject<'a>,
) -> Result<CowStr<'a>, AllocError>
    requires { IsKnownIn engine.rules engine.database.now subject.answer.now }
    ensures { IfOk result (λ text. IsTold engine.entry.rules engine.entry.database.now
        subject.entry.under subject.entry.field.now (number_in subject.entry.answer.now) column.now
        (cow_str_bytes text)) }
{
    if tells_doubts(column.told) {
        Ok(CowStr::Owned(suspicion_of(engine, subject)?))
    } else {
        told_beside(engine, column, subject)
    }
}

/// What a column tells of a field that doesn't tell what is suspicious. Refused only for memory.
fn told_beside<'a>(
    engine: Engine<'_>,
    column: &Extra<'a>,
    subject: Subject<'a>,
) -> Result<CowStr<'a>, AllocError>
    requires { IsKnownIn engine.rules engine.database.now subject.answer.now }
    ensures { IfOk result (λ text. IsToldBeside (split_in column.now.told) engine.entry.rules
        engine.entry.database.now subject.entry.under subject.entry.field.now
        (number_in subject.entry.answer.now) column.now (cow_str_bytes text)) }
{
    match split_in(column.told) {
        Some((which, shown)) => told_of_split(engine, which, shown, subject),
        None => told_of_number(engine, column, subject),
    }
}

/// What is told of one of the two numbers in a field that has two. Refused only for memory.
fn told_of_split<'a>(
    engine: Engine<'_>,
    which: Which,
    shown: Shown,
    subject: Subject<'a>,
) -> Result<CowStr<'a>, AllocError>
    ensures { IfOk result (λ text. IsSplit engine.entry.rules engine.entry.database.now
        subject.entry.under subject.entry.field.now which shown (cow_str_bytes text)) }
{
    let Subject { under, field, .. } = subject;
    Ok(CowStr::Owned(split_of(engine, under, field, which, shown)?))
}

/// What a column tells of the number of a field: nothing where none was read. Refused only for
/// memory.
fn told_of_number<'a>(
    engine: Engine<'_>,
    column: &Extra<'a>,
    subject: Subject<'a>,
) -> Result<CowStr<'a>, AllocError>
    requires { IsKnownIn engine.rules engine.database.now subject.answer.now }
    ensures { IfOk result (λ text. IsToldBy engine.entry.rules engine.entry.database.now
        subject.entry.under subject.entry.field.now (number_in subject.entry.answer.now)
        column.now (cow_str_bytes text)) }
{
    match subject.answer {
        Answer::Number(number, known) => part_of(engine, column, number, known),
        Answer::Short(_, _) | Answer::Refused(_) => Ok(CowStr::Borrowed("")),
    }
}

/// Puts what columns tell of a field behind the fields of a record. Refused only for memory.
pub fn push_told(
    engine: Engine<'_>,
    fields: &mut ByteRecord,
    extra: &[Extra<'_>],
    subject: Subject<'_>,
) -> Result<(), AllocError>
    requires partial { partial_of fields.old ≡ [] }
    requires known { IsKnownIn engine.rules engine.database.now subject.answer.now }
    ensures told { OnOk result ((told : Record) × AreTold engine.entry.rules
        engine.entry.database.now subject.entry.under subject.entry.field.now
        (number_in subject.entry.answer.now) extra.now told ×
        (fields_of fields.new ≡ fields_of fields.old ++ told)) }
    ensures partial { OnOk result (partial_of fields.new ≡ []) }
{
    'columns: for column in extra {
        let text = told_by(engine, column, subject)?;
        fields.push_field(text.as_str().as_bytes())?;
    }
    Ok(())
}
