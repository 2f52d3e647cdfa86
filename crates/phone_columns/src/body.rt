//! The buffers of all columns that are asked for, in one.
ghost use Rattle.std.specs.Prelude.{◌≡◌, ◌++◌, ◌∷◌, [], IfOk, IfSome, OnOk, List, ℕ, length, true};
ghost use Rattle.std.specs.List.{list_any};
ghost use Rattle.phone_arrow.specs.Buffers.{padding};
ghost use Rattle.phone_columns.specs.Bodies.{HasBuffers, all_buffers};
ghost use Rattle.phone_columns.specs.Columns.{buffers_of, is_told};
ghost use Rattle.phone_columns.specs.Known.{AreKnown};
ghost use Rattle.phone_columns.specs.Texts.{AreTextsInModes};

use crate::answers::Answer;
use crate::cells::{cells, numbers};
use crate::column::{Cell, Column};
use crate::known::{Known, known_for};
use crate::printed::{Printed, print_rows};
use crate::texts::{InModes, texts_for};
use phone_arrow::pad;
use phone_c_base::found::Place;
use phone_engine::Engine;
use phonenumber::Mode;
use std::alloc::{AllocError, Global};

/// Buffers, one behind the other, each at a multiple of eight bytes, and where each stands.
#[derive(Drop)]
pub struct Body {
    /// The buffers.
    pub bytes: Vec<u8>,
    /// Where each begins and ends.
    pub places: Vec<Place>,
}

impl Body {
    /// Of no buffers.
    fn new(alloc: Global) -> Body
        ensures { HasBuffers [] result }
    {
        Body {
            bytes: Vec::new(alloc),
            places: Vec::new(alloc),
        }
    }

    /// Puts a buffer behind the others. Refused only for memory.
    fn push(&mut self, buffer: &[u8]) -> Result<(), AllocError>
        ensures { OnOk result ((buffers : List (List ℕ)) → HasBuffers buffers self.old →
            HasBuffers (buffers ++ buffer.now ∷ []) self.new) }
    {
        let place = append(&mut self.bytes, buffer)?;
        self.places.push(place)?;
        Ok(())
    }

    /// Puts two buffers behind the others. Refused only for memory.
    #[tactic(auto, using(crate::proofs::BodyLemmas::then_two))]
    fn push_two(&mut self, first: &[u8], second: &[u8]) -> Result<(), AllocError>
        ensures { OnOk result ((buffers : List (List ℕ)) → HasBuffers buffers self.old →
            HasBuffers (buffers ++ first.now ∷ second.now ∷ []) self.new) }
    {
        self.push(first)?;
        self.push(second)
    }

    /// Puts the buffers of a column of texts, which aren't printed yet, behind the others. Refused
    /// only for memory.
    fn push_texts(
        &mut self,
        engine: Engine<'_>,
        mode: Mode,
        answers: &[Answer],
    ) -> Result<(), AllocError>
        ensures { OnOk result ((buffers : List (List ℕ)) → HasBuffers buffers self.old →
            HasBuffers (buffers ++ buffers_of engine.entry.rules engine.entry.database.now
            (Column.Text mode) answers.now) self.new) }
    {
        let printed = print_rows(engine, mode, answers)?;
        self.push_printed(&printed)
    }

    /// The same of texts that are printed already.
    fn push_printed(&mut self, printed: &Printed) -> Result<(), AllocError>
        ensures { OnOk result ((buffers : List (List ℕ)) → HasBuffers buffers self.old →
            HasBuffers (buffers ++ printed.now.offsets.items ∷ printed.now.texts.items ∷ [])
            self.new) }
    {
        self.push_two(printed.offsets.as_slice(), printed.texts.as_slice())
    }

    /// Puts the buffers of a column of texts behind the others: those in its mode where they were
    /// printed in all. Refused only for memory.
    fn push_in_mode(
        &mut self,
        engine: Engine<'_>,
        mode: Mode,
        answers: &[Answer],
        texts: &Option<InModes>,
    ) -> Result<(), AllocError>
        requires { IfSome texts.now (λ all.
            AreTextsInModes engine.rules engine.database.now answers.now all) }
        ensures { OnOk result ((buffers : List (List ℕ)) → HasBuffers buffers self.old →
            HasBuffers (buffers ++ buffers_of engine.entry.rules engine.entry.database.now
            (Column.Text mode) answers.now) self.new) }
    {
        match texts {
            Some(all) => self.push_printed(all.of(mode)),
            None => self.push_texts(engine, mode, answers),
        }
    }

    /// Puts the buffer of a column that the answers tell behind the others. Refused only for
    /// memory.
    fn push_cells(
        &mut self,
        engine: Engine<'_>,
        cell: Cell,
        answers: &[Answer],
    ) -> Result<(), AllocError>
        ensures { OnOk result ((buffers : List (List ℕ)) → HasBuffers buffers self.old →
            HasBuffers (buffers ++ buffers_of engine.entry.rules engine.entry.database.now
            (Column.Plain cell) answers.now) self.new) }
    {
        let cells = cells(engine.database.allocator(), cell, answers)?;
        self.push(cells.as_slice())
    }

    /// Puts the bitmap of which rows have a number behind the others. Refused only for memory.
    fn push_numbers(&mut self, engine: Engine<'_>, answers: &[Answer]) -> Result<(), AllocError>
        ensures { OnOk result ((buffers : List (List ℕ)) → HasBuffers buffers self.old →
            HasBuffers (buffers ++ buffers_of engine.entry.rules engine.entry.database.now
            Column.IsNumber answers.now) self.new) }
    {
        let bits = numbers(engine.database.allocator(), answers)?;
        self.push(bits.as_slice())
    }

    /// Puts the buffers of a column behind the others. What it tells that is looked up is known,
    /// and of texts that were printed in all modes those in its mode are taken. Refused only for
    /// memory.
    fn push_column(
        &mut self,
        engine: Engine<'_>,
        column: Column,
        answers: &[Answer],
        known: &Known,
        texts: &Option<InModes>,
    ) -> Result<(), AllocError>
        requires known { is_told column ≡ true →
            AreKnown engine.rules engine.database.now answers.now known.now }
        requires printed { IfSome texts.now (λ all.
            AreTextsInModes engine.rules engine.database.now answers.now all) }
        ensures { OnOk result ((buffers : List (List ℕ)) → HasBuffers buffers self.old →
            HasBuffers (buffers ++ buffers_of engine.entry.rules engine.entry.database.now
            column answers.now) self.new) }
    {
        match column {
            Column::Text(mode) => self.push_in_mode(engine, mode, answers, texts),
            Column::Plain(cell) => self.push_cells(engine, cell, answers),
            Column::Told(fact) => self.push(known.of(fact)),
            Column::IsNumber => self.push_numbers(engine, answers),
        }
    }
}

/// Puts a buffer behind bytes, and zeros behind it, up to a multiple of eight bytes; its place.
/// Refused only for memory.
fn append(bytes: &mut Vec<u8>, buffer: &[u8]) -> Result<Place, AllocError>
    ensures bytes { OnOk result (bytes.new.items ≡
        (bytes.old.items ++ buffer.now) ++ padding (length buffer.now)) }
    ensures place { IfOk result (λ p. p ≡ record {
      start = length bytes.old.items;
      end = length (bytes.old.items ++ buffer.now);
    }) }
{
    let start = bytes.len();
    bytes.extend_from_slice(buffer)?;
    let end = bytes.len();
    pad(bytes, buffer.len())?;
    Ok(Place { start, end })
}

/// The buffers of columns of rows that are answered so, in the order of the columns. Refused only
/// for memory.
pub fn lay_out(
    engine: Engine<'_>,
    answers: &[Answer],
    columns: &[Column],
) -> Result<Body, AllocError>
    ensures { IfOk result (λ b. HasBuffers (all_buffers engine.entry.rules
        engine.entry.database.now columns.now answers.now) b) }
{
    let known = known_for(engine, answers, columns)?;
    let texts = texts_for(engine, answers, columns)?;
    lay_out_known(engine, answers, columns, &known, &texts)
}

/// The same where what columns tell that is looked up is known, and texts may have been printed in
/// all modes.
#[tactic(auto, using(crate::proofs::BodyLemmas::buffers_more))]
fn lay_out_known(
    engine: Engine<'_>,
    answers: &[Answer],
    columns: &[Column],
    known: &Known,
    texts: &Option<InModes>,
) -> Result<Body, AllocError>
    requires known { list_any is_told columns.now ≡ true →
        AreKnown engine.rules engine.database.now answers.now known.now }
    requires printed { IfSome texts.now (λ all.
        AreTextsInModes engine.rules engine.database.now answers.now all) }
    ensures { IfOk result (λ b. HasBuffers (all_buffers engine.entry.rules
        engine.entry.database.now columns.now answers.now) b) }
{
    let mut body = Body::new(engine.database.allocator());
    for column in columns {
        body.push_column(engine, *column, answers, known, texts)?;
    }
    Ok(body)
}
