//! The columns that may be asked for.
ghost use Rattle.std.specs.Prelude.{◌≡◌, ◌++◌, IfOk, OnOk};
ghost use Rattle.std.specs.List.{list_any};
ghost use Rattle.phone_columns.specs.Columns.{column_in, column_of, columns_of, is_no_column};
ghost use Rattle.phone_columns.specs.Columns.{is_text, is_told};

use phonenumber::Mode;
use std::alloc::{AllocError, Global};

/// What a column tells of a row's answer alone.
#[derive(Clone, Copy, PartialEq, Eq, Debug)]
pub enum Cell {
    /// The calling code, in two bytes.
    Code,
    /// The national number without its leading zeros, in eight bytes.
    Value,
    /// How many zeros stand before it, in one byte.
    Zeros,
    /// How the calling code was found, in one byte.
    Source,
    /// The status of a refusal, in one byte; 0 where the row has none.
    Refusal,
}

/// What a column tells of a number by the table.
#[derive(Clone, Copy, PartialEq, Eq, Debug)]
pub enum Fact {
    /// Its kind, in one byte.
    Kind,
    /// The two letters of its region; two bytes 0 where it has none.
    Region,
    /// Whether it is valid, in one byte: 1, else 0.
    Validity,
}

/// A column that may be asked for.
#[derive(Clone, Copy, PartialEq, Eq, Debug)]
pub enum Column {
    /// The number's text in a mode, in two buffers: offsets of eight bytes, and the texts.
    Text(Mode),
    /// What the answer tells.
    Plain(Cell),
    /// What the table tells.
    Told(Fact),
    /// Whether the row has a number: a bitmap.
    IsNumber,
}

impl Column {
    /// The column that has this number: 0 to 3 the texts by the numbers of their modes, 4 calling
    /// codes, 5 national numbers, 6 their leading zeros, 7 kinds, 8 regions, 9 validity, 10 how
    /// codes were found, 11 refusals, 12 which rows have a number. None above.
    pub fn of(number: u32) -> Option<Column>
        ensures { result ≡ column_of number }
    {
        match number {
            0 => Some(Column::Text(Mode::E164)),
            1 => Some(Column::Text(Mode::International)),
            2 => Some(Column::Text(Mode::National)),
            3 => Some(Column::Text(Mode::Rfc3966)),
            4 => Some(Column::Plain(Cell::Code)),
            5 => Some(Column::Plain(Cell::Value)),
            6 => Some(Column::Plain(Cell::Zeros)),
            7 => Some(Column::Told(Fact::Kind)),
            8 => Some(Column::Told(Fact::Region)),
            9 => Some(Column::Told(Fact::Validity)),
            10 => Some(Column::Plain(Cell::Source)),
            11 => Some(Column::Plain(Cell::Refusal)),
            12 => Some(Column::IsNumber),
            _ => None,
        }
    }

    /// Whether it has texts.
    pub(crate) fn is_text(self) -> bool
        ensures { result ≡ is_text self }
    {
        match self {
            Column::Text(_) => true,
            _ => false,
        }
    }

    /// Whether it tells what is looked up in the table.
    pub(crate) fn is_told(self) -> bool
        ensures { result ≡ is_told self }
    {
        match self {
            Column::Told(_) => true,
            _ => false,
        }
    }
}

/// Whether one of these numbers is no column's.
pub fn has_no_column(numbers: &[u32]) -> bool
    ensures { result ≡ list_any is_no_column numbers.now }
{
    numbers.iter().any(|number| *number > 12)
}

/// The columns that have these numbers. Refused only for memory.
pub fn columns_of(alloc: Global, numbers: &[u32]) -> Result<Vec<Column>, AllocError>
    ensures { IfOk result (λ v. v.items ≡ columns_of numbers.now) }
{
    let mut columns = Vec::new(alloc);
    for number in numbers {
        push_column(*number, &mut columns)?;
    }
    Ok(columns)
}

/// Puts the column that has this number behind others, if one has it. Refused only for memory.
fn push_column(number: u32, columns: &mut Vec<Column>) -> Result<(), AllocError>
    ensures { OnOk result (columns.new.items ≡ columns.old.items ++ column_in number) }
{
    if let Some(column) = Column::of(number) {
        columns.push(column)?;
    }
    Ok(())
}
