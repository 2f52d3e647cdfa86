//! The columns of a header.
ghost use Rattle.std.specs.Prelude.{◌≡◌, option_map};
ghost use Rattle.std.specs.Str.{bytes_eq};
ghost use Rattle.csv.specs.Records.{fields_of};
ghost use Rattle.phone_table.specs.Headers.{column_of, columns_of, one_column_of, one_if};
ghost use Rattle.phone_table.specs.Headers.{region_column, times};

use crate::table::field_in;
use csv::ByteRecord;

/// The columns of a table, counted from 0.
#[derive(Clone, Copy, PartialEq, Eq, Debug)]
pub struct Columns {
    /// That of the numbers.
    pub number: usize,
    /// That of the regions, where there is one.
    pub region: Option<usize>,
    /// How many there are.
    pub width: usize,
}

/// A column that is asked for.
#[derive(Clone, Copy, PartialEq, Eq, Debug)]
pub enum Column {
    /// That of the numbers.
    Number,
    /// That of the regions.
    Region,
}

/// Why a header hasn't one column of the name that is asked for.
#[derive(Clone, Copy, PartialEq, Eq, Debug)]
pub enum ColumnError {
    /// It has none.
    Absent(Column),
    /// It has more.
    Twice(Column),
}

/// The column of a name: the first field of the header that is equal to it, byte for byte.
pub fn column_of(header: &ByteRecord, name: &str) -> Option<usize>
    ensures { result ≡ column_of (fields_of header.now) name.now }
{
    for column in 0..header.len() {
        if header.get(column) == Some(name.as_bytes()) {
            return Some(column);
        }
    }
    None
}

/// 1 for a field that is equal to a name, byte for byte, and 0 for another one.
fn one_if(field: &[u8], name: &[u8]) -> usize
    ensures { result ≡ one_if (bytes_eq field.now name.now) }
{
    if field == name { 1 } else { 0 }
}

/// How often a name stands in a header.
pub(crate) fn times(header: &ByteRecord, name: &[u8]) -> usize
    ensures { result ≡ times (fields_of header.now) name.now }
{
    let mut count: usize = 0;
    'columns: for column in 0..header.len() {
        count += one_if(field_in(header, column), name);
    }
    count
}

/// The one column of a name that is asked for. Refused where the header has none, or more.
fn one_column_of(header: &ByteRecord, column: Column, name: &str) -> Result<usize, ColumnError>
    ensures { result ≡ one_column_of column (fields_of header.now) name.now }
{
    if times(header, name.as_bytes()) > 1 {
        return Err(ColumnError::Twice(column));
    }
    match column_of(header, name) {
        Some(place) => Ok(place),
        None => Err(ColumnError::Absent(column)),
    }
}

/// The column of the regions, where one is asked for.
fn region_column(header: &ByteRecord, name: Option<&str>) -> Result<Option<usize>, ColumnError>
    ensures { result ≡ region_column (fields_of header.now)
        (option_map (λ name. name.now) name.entry) }
{
    let Some(name) = name else {
        return Ok(None);
    };
    match one_column_of(header, Column::Region, name) {
        Ok(column) => Ok(Some(column)),
        Err(error) => Err(error),
    }
}

/// The columns of these names in a header. Refused by the first one of which the header hasn't one
/// column.
pub fn columns_of(
    header: &ByteRecord,
    number: &str,
    region: Option<&str>,
) -> Result<Columns, ColumnError>
    ensures { result ≡ columns_of (fields_of header.now) number.now
        (option_map (λ name. name.now) region.entry) }
{
    let width = header.len();
    let number = match one_column_of(header, Column::Number, number) {
        Ok(column) => column,
        Err(error) => return Err(error),
    };
    match region_column(header, region) {
        Ok(region) => Ok(Columns {
            number,
            region,
            width,
        }),
        Err(error) => Err(error),
    }
}
