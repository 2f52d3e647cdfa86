//! Columns of what a row's answer alone tells.
ghost use Rattle.std.specs.Prelude.{◌≡◌, ◌++◌, IfOk, OnOk};
ghost use Rattle.std.specs.List.{flat_map};
ghost use Rattle.phone_columns.specs.Cells.{cell_of_number, cell_of_refusal, cell_of_row};
ghost use Rattle.phone_columns.specs.Cells.{empty_cell, is_number};
ghost use Rattle.phone_arrow.specs.Bits.{bitmap_of};
ghost use Rattle.std.specs.Prelude.{map};

use crate::answers::Answer;
use crate::column::Cell;
use phone_arrow::bitmap;
use phone_c_base::number::source_number;
use phonenumber::PhoneNumber;
use std::alloc::{AllocError, Global};

/// The column of what the answers tell. Refused only for memory.
pub(crate) fn cells(alloc: Global, cell: Cell, answers: &[Answer]) -> Result<Vec<u8>, AllocError>
    ensures { IfOk result (λ v. v.items ≡ flat_map (cell_of_row cell) answers.now) }
{
    let mut bytes = Vec::new(alloc);
    for answer in answers {
        push_cell(cell, answer, &mut bytes)?;
    }
    Ok(bytes)
}

/// Puts what an answer tells behind bytes. Refused only for memory.
fn push_cell(cell: Cell, answer: &Answer, bytes: &mut Vec<u8>) -> Result<(), AllocError>
    ensures { OnOk result (bytes.new.items ≡ bytes.old.items ++ cell_of_row cell answer.now) }
{
    match answer {
        Answer::Number(number) => push_of_number(cell, number, bytes),
        Answer::Refused(status) => push_of_refusal(cell, *status, bytes),
        Answer::Absent => push_empty(cell, bytes),
    }
}

/// The same of a number.
fn push_of_number(cell: Cell, number: &PhoneNumber, bytes: &mut Vec<u8>) -> Result<(), AllocError>
    ensures { OnOk result (bytes.new.items ≡ bytes.old.items ++ cell_of_number cell number.now) }
{
    match cell {
        Cell::Code => bytes.extend_from_slice(&number.code().value().to_le_bytes()),
        Cell::Value => bytes.extend_from_slice(&number.national().value().to_le_bytes()),
        Cell::Zeros => bytes.extend_from_slice(&[number.national().zeros()]),
        Cell::Source => bytes.extend_from_slice(&[source_number(number.code().source())]),
        Cell::Refusal => bytes.extend_from_slice(&[0]),
    }
}

/// The same of a refusal.
fn push_of_refusal(cell: Cell, status: u8, bytes: &mut Vec<u8>) -> Result<(), AllocError>
    ensures { OnOk result (bytes.new.items ≡ bytes.old.items ++ cell_of_refusal cell status) }
{
    match cell {
        Cell::Refusal => bytes.extend_from_slice(&[status]),
        other => push_empty(other, bytes),
    }
}

/// The same where there is neither.
fn push_empty(cell: Cell, bytes: &mut Vec<u8>) -> Result<(), AllocError>
    ensures { OnOk result (bytes.new.items ≡ bytes.old.items ++ empty_cell cell) }
{
    match cell {
        Cell::Code => bytes.extend_from_slice(&0u16.to_le_bytes()),
        Cell::Value => bytes.extend_from_slice(&0u64.to_le_bytes()),
        Cell::Zeros => bytes.extend_from_slice(&[0]),
        Cell::Source => bytes.extend_from_slice(&[0]),
        Cell::Refusal => bytes.extend_from_slice(&[0]),
    }
}

/// The bitmap of which rows have a number. Refused only for memory.
pub(crate) fn numbers(alloc: Global, answers: &[Answer]) -> Result<Vec<u8>, AllocError>
    ensures { IfOk result (λ v. v.items ≡ bitmap_of (map is_number answers.now)) }
{
    let flags = flags(alloc, answers)?;
    bitmap(alloc, flags.as_slice())
}

/// Which rows have a number. Refused only for memory.
fn flags(alloc: Global, answers: &[Answer]) -> Result<Vec<bool>, AllocError>
    ensures { IfOk result (λ v. v.items ≡ map is_number answers.now) }
{
    let mut flags = Vec::new(alloc);
    for answer in answers {
        flags.push(is_number(answer))?;
    }
    Ok(flags)
}

/// Whether an answer is a number.
fn is_number(answer: &Answer) -> bool
    ensures { result ≡ is_number answer.now }
{
    match answer {
        Answer::Number(_) => true,
        _ => false,
    }
}
