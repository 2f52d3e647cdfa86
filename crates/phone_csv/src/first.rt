//! The first record of a source.
ghost use Rattle.std.specs.Prelude.{◌≡◌, ◌+◌, ◌⊎◌, [], None, Some, Err, OnOk, OnErr, IfOk, IfSome};
ghost use Rattle.std.specs.Prelude.{IsNone, ◌∷◌, ◌++◌, length, ℕ};
ghost use Rattle.csv.specs.Records.{fields_of, partial_of};
ghost use Rattle.csv.specs.declared.parser.State.TheVariants as st;
ghost use Rattle.phone_device.specs.Passing.{IsAtEnd};
ghost use Rattle.phone_csv.specs.Firsts.{EndsNoFirst, IsFront, IsHead, IsOnly, first_in};
ghost use Rattle.phone_csv.specs.Formats.{state_of};
ghost use Rattle.phone_csv.specs.Quotes.{IsOpenHeader};
ghost use Rattle.phone_csv.specs.Runs.{OfRead, most_bytes};
ghost use Rattle.phone_csv.specs.declared.first.FirstError.TheVariants as error;

use crate::cutter::{Cutter, Start};
use crate::front::{Front, holds_mark};
use crate::machine::{in_quotes, is_open};
use csv::ByteRecord;
use phone_device::ByteSource;
use std::alloc::{AllocError, Global};

/// Why a first record was not read.
#[derive(Clone, Copy, PartialEq, Eq, Debug)]
pub enum FirstError {
    /// The source has no record.
    Absent,
    /// The source failed, or gave 2^64 - 1 bytes.
    Input,
    /// The source ends between quotes. The first of these, which is never closed, stands on this
    /// line, counted from 1, 2^64 - 1 at most.
    Quote(u64),
    /// There was no memory for the record.
    Memory,
}

/// The first record of a source.
#[derive(Drop)]
pub struct First {
    /// Its fields.
    pub fields: ByteRecord,
    /// Where what follows begins. None where the source is at its end.
    pub rest: Option<Start>,
    /// Whether a byte-order mark stands in front of it.
    pub has_mark: bool,
}

/// Reads the first record of a source, one byte at a time, so that what follows it is still to
/// come. A UTF-8 byte-order mark in front of it is passed over, which `First` tells, and so are
/// line ends.
///
/// Errors: `Absent` where the source has no record, and is at its end; `Quote` where it ends
/// between quotes; `Input` where the source failed, or 2^64 - 1 bytes were read; `Memory`. At each
/// of these errors no byte that was read ended a record, except perhaps the last byte.
pub fn first_record<S: ByteSource>(
    alloc: Global,
    delimiter: u8,
    source: &mut S,
) -> Result<First, FirstError>
    ensures partial { IfOk result (λ first. partial_of first.fields ≡ []) }
    ensures ended { IfOk result (λ first. IfSome first.rest (λ start.
        OfRead (S.to_come source.old) (S.to_come source.new) (λ bytes.
        IsHead delimiter bytes (fields_of first.fields) (state_of start.place) start.feeds
        first.has_mark))) }
    ensures only { IfOk result (λ first. IsNone first.rest →
        OfRead (S.to_come source.old) (S.to_come source.new) (λ bytes.
        IsOnly delimiter bytes (fields_of first.fields) first.has_mark)) }
    ensures end { IfOk result (λ first. IsNone first.rest → IsAtEnd (S.to_come source.new)) }
    ensures no_fault { OnOk result (S.faults source.new ≡ S.faults source.old) }
    ensures absent { result ≡ Err error.Absent →
        OfRead (S.to_come source.old) (S.to_come source.new) (λ bytes.
        first_in delimiter bytes ≡ None) }
    ensures absent_no_fault { result ≡ Err error.Absent →
        S.faults source.new ≡ S.faults source.old }
    ensures absent_end { result ≡ Err error.Absent → IsAtEnd (S.to_come source.new) }
    ensures quote { (line : ℕ) → result ≡ Err (error.Quote line) →
        OfRead (S.to_come source.old) (S.to_come source.new) (IsOpenHeader delimiter line) }
    ensures quote_no_fault { (line : ℕ) → result ≡ Err (error.Quote line) →
        S.faults source.new ≡ S.faults source.old }
    ensures quote_end { (line : ℕ) → result ≡ Err (error.Quote line) →
        IsAtEnd (S.to_come source.new) }
    ensures cause { result ≡ Err error.Input → (S.faults source.new ≡ S.faults source.old + 1) ⊎
        OfRead (S.to_come source.old) (S.to_come source.new) (λ bytes. length bytes ≡ most_bytes) }
    ensures unended { OnErr result (OfRead (S.to_come source.old) (S.to_come source.new)
        (EndsNoFirst delimiter)) }
    ensures no_fault_without_memory { result ≡ Err error.Memory →
        S.faults source.new ≡ S.faults source.old }
{
    let mut front = Front::new(alloc, delimiter);
    let is_ended = front.read(source)?;
    let has_mark = holds_mark(front.mark);
    if is_ended {
        let rest = Some(Start {
            place: front.cutter.place,
            feeds: front.cutter.feeds,
        });
        return Ok(First {
            fields: front.cutter.fields,
            rest,
            has_mark,
        });
    }
    if !is_open(front.cutter.place) {
        return Err(FirstError::Absent);
    }
    if in_quotes(front.cutter.place) {
        let line = front.cutter.feeds_to_quote.saturating_add(1);
        return Err(FirstError::Quote(line));
    }
    match only(front.cutter) {
        Ok(fields) => Ok(First {
            fields,
            rest: None,
            has_mark,
        }),
        Err(_) => Err(FirstError::Memory),
    }
}

/// The fields of a record that the end of the source ends. Refused only for memory.
fn only(cutter: Cutter) -> Result<ByteRecord, AllocError>
    requires { partial_of cutter.fields ≡ [] }
    ensures partial { IfOk result (λ fields. partial_of fields ≡ []) }
    ensures fields { IfOk result (λ fields.
        fields_of fields ≡ fields_of cutter.fields ++ cutter.field.items ∷ []) }
{
    let mut cutter = cutter;
    cutter.end_field()?;
    Ok(cutter.fields)
}
