//! Lines of a table of prefixes, each with a tab between its fields.
ghost use Rattle.std.specs.Prelude.{◌≡◌, ◌++◌, ◌∷◌, [], IfOk, List, MatchOption, OnOk, length, ℕ};
ghost use Rattle.csv.specs.Records.{fields_of};
ghost use Rattle.phone_commands.specs.Pairs.{IsNoPair, IsPair, IsWithTab, field_in, has_tab};

use crate::text::{push_bytes, push_text};
use csv::ByteRecord;
use phone_csv::{First, FirstError, first_record};
use phone_device::MemorySource;
use phone_lines::LineTaker;
use std::alloc::{AllocError, Global};

/// What gives each line of a table of prefixes a tab: a line without one that is a CSV record of
/// two fields is given back as these, with a tab between. Other lines stay as they are.
#[derive(Drop)]
pub(crate) struct Tabs {}

/// The first record of a text, where it has two fields.
fn pair_in(first: First) -> Option<ByteRecord>
    ensures { MatchOption result (¬ (length (fields_of first.fields) ≡ 2))
        (λ r. (length (fields_of first.fields) ≡ 2) × (fields_of r ≡ fields_of first.fields)) }
{
    let First { fields, .. } = first;
    if fields.len() == 2 {
        return Some(fields);
    }
    None
}

/// Whether a line has a tab.
fn has_tab(line: &[u8]) -> bool
    ensures { result ≡ has_tab line.now }
{
    line.iter().any(|byte| *byte == b'\t')
}

/// The record of two fields that a line without a tab is; none where it is none, or has a tab.
/// Refused only for memory.
fn pair_of(alloc: Global, line: &[u8]) -> Result<Option<ByteRecord>, AllocError>
    ensures { IfOk result (λ pair. MatchOption pair (IsNoPair line.now) (λ r. (prefix : List ℕ) ×
        (text : List ℕ) × IsPair line.now prefix text ×
        (fields_of r ≡ prefix ∷ text ∷ []))) }
{
    if has_tab(line) {
        return Ok(None);
    }
    match first_record(alloc, b',', &mut MemorySource::new(line)) {
        Ok(first) => Ok(pair_in(first)),
        Err(FirstError::Absent) => Ok(None),
        Err(FirstError::Quote(_)) => Ok(None),
        Err(FirstError::Input) => Ok(None),
        Err(FirstError::Memory) => Err(AllocError),
    }
}

/// The field of a record at a place; empty where it has none.
fn field_in(fields: &ByteRecord, place: usize) -> &[u8]
    ensures { result.now ≡ field_in (fields_of fields.now) place }
{
    match fields.get(place) {
        Some(field) => field,
        None => &[],
    }
}

/// Puts two fields at the end of bytes, with a tab between. Refused only for memory.
fn push_pair(bytes: &mut Vec<u8>, pair: &ByteRecord) -> Result<(), AllocError>
    ensures { OnOk result (bytes.new.items ≡ bytes.old.items ++
        (field_in (fields_of pair.now) 0 ++ 9 ∷ field_in (fields_of pair.now) 1)) }
{
    push_bytes(bytes, field_in(pair, 0))?;
    push_text(bytes, "\t")?;
    push_bytes(bytes, field_in(pair, 1))
}

/// Puts a line at the end of bytes, as a table of prefixes wants it. Refused only for memory.
fn push_with_tab(alloc: Global, bytes: &mut Vec<u8>, line: &[u8]) -> Result<(), AllocError>
    ensures { OnOk result ((answer : List ℕ) × IsWithTab line.now answer ×
        (bytes.new.items ≡ bytes.old.items ++ answer)) }
{
    let pair = pair_of(alloc, line)?;
    match pair {
        Some(fields) => push_pair(bytes, &fields),
        None => push_bytes(bytes, line),
    }
}

impl LineTaker for Tabs {
    ghost use Rattle.phone_commands.specs.Pairs.{IsWithTab};
    ghost use Rattle.phone_lines.specs.Taken.{begins_with_nothing, each_by_itself};

    ghost begins = { begins_with_nothing };

    ghost gives = { each_by_itself (λ _. IsWithTab) };

    fn begin(&mut self, _alloc: Global, _answers: &mut Vec<u8>) -> Result<(), AllocError> {
        Ok(())
    }

    fn take(
        &mut self,
        alloc: Global,
        line: &[u8],
        answers: &mut Vec<u8>,
    ) -> Result<(), AllocError> {
        push_with_tab(alloc, answers, line)?;
        push_text(answers, "\n")
    }
}
