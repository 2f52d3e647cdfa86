//! What answers the records of a table.
ghost use Rattle.std.specs.Prelude.{◌≡◌, ◌++◌, ◌&&◌, ◌||◌, ℕ, List, [], not, true, false, codes};
ghost use Rattle.std.specs.List.{list_any};
ghost use Rattle.std.specs.Str.{bytes_eq};
ghost use Rattle.std.specs.Prelude.{Err, IfErr, IfOk, None, OnOk, option_map, string_bytes};
ghost use Rattle.csv.specs.Records.{fields_of, partial_of};
ghost use Rattle.phone_csv.specs.Formats.{Record};
ghost use Rattle.phone_table.specs.Summaries.{IsEmpty};
ghost use Rattle.phone_table.specs.Answered.{key_in};
ghost use Rattle.phone_table.specs.Answers.{IsAnswerUnder, IsOfOtherWidth, IsOwnAnswer};
ghost use Rattle.phone_answers.specs.Answers.{refused_answer};
ghost use Rattle.phone_table.specs.Answers.{IsUnder, countries_of, short_of};
ghost use Rattle.phone_answers.specs.Extras.{AreTold};
ghost use Rattle.phone_table.specs.Regions.{RecordNames, field_in, hint_under};
ghost use Rattle.phone_table.specs.declared.region.Named.{Named};
ghost use Rattle.phone_table.specs.Counts.{no_counts};
ghost use Rattle.phone_table.specs.Taking.{Keeps, is_known};
ghost use Rattle.phone_answers.specs.Spelled.{IsKnownIn, number_in, spelled};

use crate::Summary;
use crate::counts::Counts;
use crate::header::Columns;
use crate::region::{hint_under, named_by, region_text};
use crate::run::Asked;
use crate::summed::sum_row;
use crate::unknown::{UnknownNames, note_unknown};
use csv::ByteRecord;
use phone_answers::{Answer, Subject, answer_to, push_answer, push_told};
use phone_book::key_text;
use phone_csv::{Answers, Refusal};
use phone_engine::Engine;
use phonenumber::country::Id;
use std::alloc::{AllocError, Global};
use std::collections::HashSet;
use std::marker::Model;

/// What answers the records of a table: an engine, by what is asked of it.
#[derive(Drop)]
pub struct Table<'d> {
    /// What reads, prints and tells; its region is that of a record that names none.
    pub engine: Engine<'d>,
    /// What is asked of the table.
    pub asked: Asked<'d>,
    /// Its columns.
    pub columns: Columns,
    /// How many records were answered, and how.
    pub counts: Counts,
    /// The keys of the numbers that were read, where each number is kept once.
    pub keys: HashSet<Vec<u8>>,
    /// The texts that name no region.
    pub unknown: UnknownNames,
    /// The summary of the rows, where one is asked for.
    pub summary: Summary,
}

impl<'d> Table<'d> {
    /// A table of which no record was answered yet.
    pub fn new(engine: Engine<'d>, asked: Asked<'d>, columns: Columns) -> Table<'d>
        ensures engine { result.engine ≡ engine.entry }
        ensures asked { result.asked ≡ asked.entry }
        ensures columns { result.columns ≡ columns }
        ensures counts { result.counts ≡ no_counts }
        ensures keys { result.keys.keys ≡ [] }
        ensures unknown { result.unknown.names.entries ≡ [] }
        ensures summary { IsEmpty result.summary }
    {
        let alloc = engine.database.allocator();
        Table {
            engine,
            asked,
            columns,
            counts: Counts::new(),
            keys: HashSet::new(alloc),
            unknown: UnknownNames::new(alloc),
            summary: Summary::new(alloc),
        }
    }

    /// The hint by the region that a record names; none where it names none that there is. Refused
    /// only for memory.
    fn hint_named(&self, fields: &ByteRecord) -> Result<Option<Option<Id>>, AllocError>
        ensures { IfOk result (λ under. (region : Named) ×
            RecordNames (countries_of self.now.asked) self.now.engine.database.now
            self.now.columns.region (fields_of fields.now) region ×
            (under ≡ hint_under self.now.asked.else_hint self.now.engine.hint region)) }
    {
        let text = region_text(self.columns, fields);
        let named = named_by(self.asked.countries, self.engine.database, text)?;
        Ok(hint_under(self.asked.else_hint, self.engine.hint, named))
    }

    /// The hint under which a record's number is read, by the region that the record names; none
    /// where it isn't read: the record names no region that there is, or has another count of
    /// fields. Refused only for memory.
    pub(crate) fn hint_of(&self, fields: &ByteRecord) -> Result<Option<Option<Id>>, AllocError>
        ensures { IfOk result (IsUnder self.now.engine.database.now self.now.engine.hint
            self.now.columns self.now.asked (fields_of fields.now)) }
    {
        let under = self.hint_named(fields)?;
        if fields.len() == self.columns.width {
            return Ok(under);
        }
        Ok(None)
    }

    /// The answer to a record's number under this hint. Refused only for memory.
    fn answer_under(
        &self,
        under: Option<Option<Id>>,
        fields: &ByteRecord,
    ) -> Result<Answer, AllocError>
        ensures answer { IfOk result (λ a. IsAnswerUnder self.now.engine.rules
            self.now.engine.database.now (short_of self.now.asked) under
            (field_in (fields_of fields.now) self.now.columns.number) (number_in a) (spelled a)) }
        ensures known { IfOk result
            (λ a. IsKnownIn self.now.engine.rules self.now.engine.database.now a) }
    {
        let Some(hint) = under else {
            return Ok(Answer::Refused("unknown region"));
        };
        let engine = Engine {
            hint,
            ..self.engine
        };
        answer_to(
            engine,
            self.asked.short,
            field_in(fields, self.columns.number),
        )
    }

    /// The answer to a record under this hint, whatever the count of its fields; or why it isn't
    /// answered.
    pub(crate) fn answer_or_refusal(
        &self,
        under: Option<Option<Id>>,
        fields: &ByteRecord,
    ) -> Result<Answer, Refusal>
        ensures answer { IfOk result (λ a. IsOwnAnswer self.now.engine.rules
            self.now.engine.database.now self.now.columns self.now.asked (fields_of fields.now)
            under (number_in a) (spelled a)) }
        ensures known { IfOk result
            (λ a. IsKnownIn self.now.engine.rules self.now.engine.database.now a) }
        ensures refused { result ≡ Err Refusal.Record →
            IsOfOtherWidth self.now.columns self.now.asked (fields_of fields.now) }
    {
        if fields.len() != self.columns.width {
            return self.marked();
        }
        match self.answer_under(under, fields) {
            Ok(answer) => Ok(answer),
            Err(_) => Err(Refusal::Memory),
        }
    }

    /// The answer to a record with another count of fields than the header, where such are marked.
    fn marked(&self) -> Result<Answer, Refusal>
        ensures marked { IfOk result (λ a. (self.now.asked.mark_bad ≡ true) ×
            (spelled a ≡ refused_answer (codes "wrong count of fields"))) }
        ensures no_number { IfOk result (λ a. number_in a ≡ None) }
        ensures known { IfOk result
            (λ a. IsKnownIn self.now.engine.rules self.now.engine.database.now a) }
        ensures refused { IfErr result (λ e. (self.now.asked.mark_bad ≡ false) ×
            (e ≡ Refusal.Record)) }
    {
        if self.asked.mark_bad {
            Ok(Answer::Refused("wrong count of fields"))
        } else {
            Err(Refusal::Record)
        }
    }

    /// Puts what the columns that are asked for tell, and the fields of an answer, behind
    /// those of a record that was read under this hint. Refused only for memory.
    pub(crate) fn push_row(
        &self,
        fields: &mut ByteRecord,
        under: Option<Option<Id>>,
        answer: &Answer,
    ) -> Result<(), AllocError>
        requires partial { partial_of fields.old ≡ [] }
        requires known { IsKnownIn self.now.engine.rules self.now.engine.database.now answer.now }
        ensures { OnOk result ((told : Record) ×
            AreTold self.now.engine.rules self.now.engine.database.now under
            (field_in (fields_of fields.old) self.now.columns.number) (number_in answer.now)
            self.now.asked.extra.now told ×
            (fields_of fields.new ≡ fields_of fields.old ++ (told ++ spelled answer.now))) }
    {
        let alloc = self.engine.database.allocator();
        let field = field_in(fields, self.columns.number).to_vec(alloc)?;
        let subject = Subject {
            under,
            field: field.as_slice(),
            answer,
        };
        push_told(self.engine, fields, self.asked.extra, subject)?;
        push_answer(fields, answer)
    }
}

/// The field of a record in a column; empty where it has none.
pub(crate) fn field_in(fields: &ByteRecord, column: usize) -> &[u8]
    ensures { result.now ≡ field_in (fields_of fields.now) column }
{
    match fields.get(column) {
        Some(field) => field,
        None => &[],
    }
}

/// The key of the number that an answer is of; none where no number was read. Refused only for
/// memory.
pub(crate) fn key_in(alloc: Global, answer: &Answer) -> Result<Option<String>, AllocError>
    ensures { IfOk result (λ key. option_map string_bytes key ≡ key_in (number_in answer.now)) }
{
    match answer {
        Answer::Number(number, _) => Ok(Some(key_text(alloc, number)?)),
        Answer::Short(_, _) | Answer::Refused(_) => Ok(None),
    }
}

impl<'d> Table<'d> {
    /// Whether the row of an answer is written: where each number is kept once, its key is kept
    /// then. Refused only for memory.
    fn is_new(&mut self, answer: &Answer) -> Result<bool, AllocError>
        ensures new { IfOk result (λ is_new. (self.old.asked.is_unique &&
            is_known self.old (key_in (number_in answer.now))) ≡ not is_new) }
        ensures keeps { OnOk result (Keeps self.old (key_in (number_in answer.now)) self.new) }
        ensures counts { self.new.counts ≡ self.old.counts }
        ensures unknown { self.new.unknown ≡ self.old.unknown }
        ensures summary { self.new.summary ≡ self.old.summary }
    {
        if !self.asked.is_unique {
            return Ok(true);
        }
        match key_in(self.engine.database.allocator(), answer)? {
            Some(key) => add(&mut self.keys, key.into_bytes()),
            None => Ok(true),
        }
    }
}

/// Puts a text among others, and says whether it is new. Refused only for memory.
fn add(texts: &mut HashSet<Vec<u8>>, text: Vec<u8>) -> Result<bool, AllocError>
    ensures new { IfOk result (λ is_new.
        list_any (λ k. bytes_eq text.items k.items) texts.old.keys ≡ not is_new) }
    ensures added { OnOk result ((t : List ℕ) →
        list_any (λ k. bytes_eq t k.items) texts.new.keys ≡
        (bytes_eq t text.items || list_any (λ k. bytes_eq t k.items) texts.old.keys)) }
{
    let Ok(is_new) = texts.insert(text) else {
        return Err(AllocError);
    };
    Ok(is_new)
}

impl<'d> Answers for Table<'d> {
    ghost use Rattle.phone_table.specs.Answers.{IsOfOtherWidth};
    ghost use Rattle.phone_table.specs.Taking.{Takes};

    ghost gives = { λ t fields answer after. Takes t fields after answer };

    ghost refuses = { λ t fields. IsOfOtherWidth t.columns t.asked fields };

    /// Puts what the columns that are asked for tell, and the fields of the answer, behind
    /// those of a record, and counts it. A record with another count of fields than the table has
    /// columns isn't answered, unless such are marked.
    fn answer(&mut self, _alloc: Global, fields: &mut ByteRecord) -> Result<bool, Refusal> {
        let Ok(under) = self.hint_of(fields) else {
            return Err(Refusal::Memory);
        };
        let answer = match self.answer_or_refusal(under, fields) {
            Ok(answer) => answer,
            Err(refusal) => return Err(refusal),
        };
        let Ok(()) = self.push_row(fields, under, &answer) else {
            return Err(Refusal::Memory);
        };
        let Ok(is_new) = self.is_new(&answer) else {
            return Err(Refusal::Memory);
        };
        let alloc = self.engine.database.allocator();
        let Ok(()) = note_unknown(alloc, self.columns, fields, &mut self.unknown) else {
            return Err(Refusal::Memory);
        };
        let Ok(()) = sum_row(alloc, self.asked, fields, &mut self.summary) else {
            return Err(Refusal::Memory);
        };
        self.counts.count(fields, is_new);
        Ok(is_new)
    }
}
