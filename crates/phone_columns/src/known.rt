//! Columns of what is looked up of the rows' numbers.
ghost use Rattle.std.specs.Prelude.{◌≡◌, ◌++◌, ◌∷◌, [], IfOk, OnOk, true, if◌then◌else◌};
ghost use Rattle.std.specs.List.{list_any};
ghost use Rattle.std.specs.Option.{option_map_or};
ghost use Rattle.phone_values.specs.Ids.{name};
ghost use Rattle.phone_engine.specs.Facts.{is_valid_by, kind_by, region_by};
ghost use Rattle.phone_c_base.specs.Answers.{kind_number};
ghost use Rattle.phone_columns.specs.Cells.{fact_of_row};
ghost use Rattle.phone_columns.specs.Columns.{is_told};
ghost use Rattle.phone_columns.specs.Known.{AreKnown};

use crate::answers::Answer;
use crate::column::{Column, Fact};
use phone_c_base::asked::kind_number;
use phone_engine::Engine;
use phone_values::country::Id;
use phonenumber::{PhoneNumber, Type};
use std::alloc::{AllocError, Global};

/// What is looked up of the rows' numbers, in a column each: all at once, since one look-up tells
/// all three.
#[derive(Drop)]
pub(crate) struct Known {
    pub(crate) kinds: Vec<u8>,
    pub(crate) regions: Vec<u8>,
    pub(crate) validities: Vec<u8>,
}

/// What is looked up of one row's number, in bytes.
#[derive(Clone, Copy)]
struct Told {
    kind: u8,
    region: &'static [u8],
    validity: u8,
}

impl Known {
    /// Of no rows.
    pub(crate) fn new(alloc: Global) -> Known
        ensures kinds { result.kinds.items ≡ [] }
        ensures regions { result.regions.items ≡ [] }
        ensures validities { result.validities.items ≡ [] }
    {
        Known {
            kinds: Vec::new(alloc),
            regions: Vec::new(alloc),
            validities: Vec::new(alloc),
        }
    }

    /// The bytes of one of the columns.
    pub(crate) fn of(&self, fact: Fact) -> &[u8]
        ensures kinds { fact ≡ Fact.Kind → result.now ≡ self.now.kinds.items }
        ensures regions { fact ≡ Fact.Region → result.now ≡ self.now.regions.items }
        ensures validities { fact ≡ Fact.Validity → result.now ≡ self.now.validities.items }
    {
        match fact {
            Fact::Kind => self.kinds.as_slice(),
            Fact::Region => self.regions.as_slice(),
            Fact::Validity => self.validities.as_slice(),
        }
    }

    /// Puts what is looked up of one row behind the columns. Refused only for memory.
    fn push(&mut self, engine: Engine<'_>, answer: &Answer) -> Result<(), AllocError>
        ensures kinds { OnOk result (self.new.kinds.items ≡ self.old.kinds.items ++
            fact_of_row engine.entry.rules engine.entry.database.now Fact.Kind answer.now) }
        ensures regions { OnOk result (self.new.regions.items ≡ self.old.regions.items ++
            fact_of_row engine.entry.rules engine.entry.database.now Fact.Region answer.now) }
        ensures validities { OnOk result
            (self.new.validities.items ≡ self.old.validities.items ++
            fact_of_row engine.entry.rules engine.entry.database.now Fact.Validity answer.now) }
    {
        let told = tell(engine, answer)?;
        self.kinds.extend_from_slice(&[told.kind])?;
        self.regions.extend_from_slice(told.region)?;
        self.validities.extend_from_slice(&[told.validity])
    }
}

/// What is looked up of the rows' numbers. Refused only for memory.
fn look_up_rows(engine: Engine<'_>, answers: &[Answer]) -> Result<Known, AllocError>
    ensures { IfOk result (λ k.
        AreKnown engine.entry.rules engine.entry.database.now answers.now k) }
{
    let mut known = Known::new(engine.database.allocator());
    for answer in answers {
        known.push(engine, answer)?;
    }
    Ok(known)
}

/// The same where one of these columns tells it; else nothing is looked up. Refused only for
/// memory.
pub(crate) fn known_for(
    engine: Engine<'_>,
    answers: &[Answer],
    columns: &[Column],
) -> Result<Known, AllocError>
    ensures { IfOk result (λ k. list_any is_told columns.now ≡ true →
        AreKnown engine.entry.rules engine.entry.database.now answers.now k) }
{
    if are_any_told(columns) {
        look_up_rows(engine, answers)
    } else {
        Ok(Known::new(engine.database.allocator()))
    }
}

/// Whether one of these columns tells what is looked up.
fn are_any_told(columns: &[Column]) -> bool
    ensures { result ≡ list_any is_told columns.now }
{
    columns.iter().any(|column| column.is_told())
}

/// What is looked up of a row's number; zeros where it has none. Refused only for memory.
fn tell(engine: Engine<'_>, answer: &Answer) -> Result<Told, AllocError>
    ensures kind { IfOk result (λ t. fact_of_row engine.entry.rules
        engine.entry.database.now Fact.Kind answer.now ≡ t.kind ∷ []) }
    ensures region { IfOk result (λ t. fact_of_row engine.entry.rules
        engine.entry.database.now Fact.Region answer.now ≡ t.region.now) }
    ensures validity { IfOk result (λ t. fact_of_row engine.entry.rules
        engine.entry.database.now Fact.Validity answer.now ≡ t.validity ∷ []) }
{
    match answer {
        Answer::Number(number) => look_up(engine, number),
        _ => Ok(Told {
            kind: 0,
            region: &[0, 0],
            validity: 0,
        }),
    }
}

/// What is looked up of a number. Refused only for memory.
fn look_up(engine: Engine<'_>, number: &PhoneNumber) -> Result<Told, AllocError>
    ensures kind { IfOk result (λ t. t.kind ≡
        kind_number (kind_by engine.entry.rules engine.entry.database.now number.now)) }
    ensures region { IfOk result (λ t. t.region.now ≡ option_map_or name
        (region_by engine.entry.rules engine.entry.database.now number.now) (0 ∷ 0 ∷ [])) }
    ensures validity { IfOk result (λ t. t.validity ≡ (if is_valid_by engine.entry.rules
        engine.entry.database.now number.now then 1 else 0)) }
{
    let facts = engine.facts(number)?;
    Ok(Told {
        kind: kind_byte(facts.kind),
        region: letters_of(facts.region),
        validity: u8::from(facts.is_valid),
    })
}

/// The number of a kind, which is small.
#[tactic(auto, using(crate::proofs::KindLemmas::kind_small))]
fn kind_byte(kind: Type) -> u8
    ensures { result ≡ kind_number kind }
{
    kind_number(kind) as u8
}

/// The two letters of a region; two bytes 0 where there is none.
fn letters_of(region: Option<Id>) -> &'static [u8]
    ensures { result.now ≡ option_map_or name region (0 ∷ 0 ∷ []) }
{
    match region {
        Some(id) => id.as_str().as_bytes(),
        None => &[0, 0],
    }
}
