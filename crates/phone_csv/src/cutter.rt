//! The record that isn't ended yet.
ghost use Rattle.std.specs.Prelude.{◌≡◌, ◌==◌, ◌+◌, [], ◌++◌, ◌∷◌, ℕ, List, OnOk, IfOk};
ghost use Rattle.std.specs.Prelude.{if◌then◌else◌};
ghost use Rattle.csv.specs.Machine.{ends_at_end, field_after, fields_after, is_end, step};
ghost use Rattle.csv.specs.Records.{fields_of, partial_of};
ghost use Rattle.phone_csv.specs.Feeds.{counted};
ghost use Rattle.phone_csv.specs.Formats.{action_of, reading, state_of};
ghost use Rattle.phone_csv.specs.Quotes.{opens_quote};
ghost use Rattle.phone_csv.specs.declared.machine.Place.TheVariants as place;

use crate::format::Format;
use crate::machine::{Effect, Place, is_open, opens_quote, step};
use csv::ByteRecord;
use std::alloc::{AllocError, Global};

/// Where records begin in a text.
#[derive(Clone, Copy, PartialEq, Eq, Debug)]
pub struct Start {
    /// The place, in front of a record.
    pub place: Place,
    /// How many line feeds stand in front of it, 2^64 - 1 at most.
    pub feeds: u64,
}

/// A record that isn't ended yet.
#[derive(Drop)]
pub struct Cutter {
    /// How the text is read and written.
    pub format: Format,
    /// Where the text stands.
    pub place: Place,
    /// The fields that are ended.
    pub fields: ByteRecord,
    /// The bytes of the field that isn't ended yet.
    pub field: Vec<u8>,
    /// How many line feeds the text has up to here, 2^64 - 1 at most.
    pub feeds: u64,
    /// How many of them stand in front of the record.
    pub feeds_before: u64,
    /// How many of them stand in front of the quote that last opened a field.
    pub feeds_to_quote: u64,
}

impl Cutter {
    /// At this place, where nothing was taken yet.
    pub fn new(alloc: Global, format: Format, place: Place) -> Cutter
        ensures format { result.format ≡ format }
        ensures place { result.place ≡ place }
        ensures fields { fields_of result.fields ≡ [] }
        ensures partial { partial_of result.fields ≡ [] }
        ensures field { result.field.items ≡ [] }
        ensures feeds { result.feeds ≡ 0 }
        ensures feeds_before { result.feeds_before ≡ 0 }
    {
        Cutter {
            format,
            place,
            fields: ByteRecord::new(alloc),
            field: Vec::new(alloc),
            feeds: 0,
            feeds_before: 0,
            feeds_to_quote: 0,
        }
    }

    /// Drops what was taken, in front of a record again.
    pub fn begin_again(&mut self)
        ensures format { self.new.format ≡ self.old.format }
        ensures place { self.new.place ≡ place.StartRecord }
        ensures fields { fields_of self.new.fields ≡ [] }
        ensures partial { partial_of self.new.fields ≡ [] }
        ensures field { self.new.field.items ≡ [] }
        ensures feeds { self.new.feeds ≡ self.old.feeds }
        ensures feeds_before { self.new.feeds_before ≡ self.old.feeds_before }
        ensures feeds_to_quote { self.new.feeds_to_quote ≡ self.old.feeds_to_quote }
    {
        self.place = Place::StartRecord;
        self.fields.clear();
        self.field.clear();
    }

    /// Puts the field behind those that are ended.
    pub fn end_field(&mut self) -> Result<(), AllocError>
        requires { partial_of self.old.fields ≡ [] }
        ensures format { self.new.format ≡ self.old.format }
        ensures place { self.new.place ≡ self.old.place }
        ensures fields { OnOk result (fields_of self.new.fields ≡
            fields_of self.old.fields ++ self.old.field.items ∷ []) }
        ensures partial { OnOk result (partial_of self.new.fields ≡ []) }
        ensures field { OnOk result (self.new.field.items ≡ []) }
        ensures feeds { self.new.feeds ≡ self.old.feeds }
        ensures feeds_before { self.new.feeds_before ≡ self.old.feeds_before }
        ensures feeds_to_quote { self.new.feeds_to_quote ≡ self.old.feeds_to_quote }
    {
        self.fields.push_field(self.field.as_slice())?;
        self.field.clear();
        Ok(())
    }

    /// Counts one more byte, where it is a line feed. In front of a record those so far stand in
    /// front of it; where the byte is a quote that opens a field, in front of the quote.
    fn count(&mut self, byte: u8)
        ensures format { self.new.format ≡ self.old.format }
        ensures place { self.new.place ≡ self.old.place }
        ensures fields { self.new.fields ≡ self.old.fields }
        ensures field { self.new.field ≡ self.old.field }
        ensures feeds { self.new.feeds ≡
            (if byte == 10 then counted (self.old.feeds + 1) else self.old.feeds) }
        ensures feeds_before { self.new.feeds_before ≡ (if ends_at_end (state_of self.old.place)
            then self.old.feeds_before else self.old.feeds) }
        ensures feeds_to_quote { self.new.feeds_to_quote ≡
            (if opens_quote (state_of self.old.place) byte then self.old.feeds
            else self.old.feeds_to_quote) }
    {
        if !is_open(self.place) {
            self.feeds_before = self.feeds;
        }
        if opens_quote(self.place, byte) {
            self.feeds_to_quote = self.feeds;
        }
        if byte == b'\n' {
            self.feeds = self.feeds.saturating_add(1);
        }
    }

    /// Takes one more byte, and says whether it ended the record. Refused only for memory.
    pub fn take(&mut self, byte: u8) -> Result<bool, AllocError>
        requires { partial_of self.old.fields ≡ [] }
        ensures ended { IfOk result (λ ended. ended ≡
            is_end (step (reading self.old.format.delimiter) (state_of self.old.place) byte).1) }
        ensures place { OnOk result (state_of self.new.place ≡
            (step (reading self.old.format.delimiter) (state_of self.old.place) byte).0) }
        ensures fields { OnOk result (fields_of self.new.fields ≡ fields_after
            (step (reading self.old.format.delimiter) (state_of self.old.place) byte).1
            (fields_of self.old.fields) self.old.field.items) }
        ensures field { OnOk result (self.new.field.items ≡ field_after
            (step (reading self.old.format.delimiter) (state_of self.old.place) byte).1 byte
            self.old.field.items) }
        ensures partial { OnOk result (partial_of self.new.fields ≡ []) }
        ensures format { self.new.format ≡ self.old.format }
        ensures feeds { self.new.feeds ≡
            (if byte == 10 then counted (self.old.feeds + 1) else self.old.feeds) }
        ensures feeds_before { self.new.feeds_before ≡ (if ends_at_end (state_of self.old.place)
            then self.old.feeds_before else self.old.feeds) }
        ensures feeds_to_quote { self.new.feeds_to_quote ≡
            (if opens_quote (state_of self.old.place) byte then self.old.feeds
            else self.old.feeds_to_quote) }
    {
        self.count(byte);
        let (place, effect) = step(self.format.delimiter, self.place, byte);
        self.place = place;
        match effect {
            Effect::Skip => {}
            Effect::Copy => self.field.push(byte)?,
            Effect::EndField | Effect::EndRecord => self.end_field()?,
        }
        Ok(effect == Effect::EndRecord)
    }
}
