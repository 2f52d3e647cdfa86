//! What options ask of a table.
ghost use Rattle.std.specs.Prelude.{◌≡◌};
ghost use Rattle.phone_words.specs.Calls.{IsFurther, IsTable, file_if, further_files};
ghost use Rattle.phone_words.specs.Parts.{all_said};
ghost use Rattle.phone_words.specs.Rows.{text_in};

use crate::options::{has, text, value};
use crate::parts::Part;

/// What is asked of a table.
#[derive(Clone, Copy)]
pub struct Table<'w> {
    /// The name of the column of the numbers; empty where there is no table.
    pub column: &'w str,
    /// The name of the column of the regions, where there is one.
    pub region_column: Option<&'w str>,
    /// The file of the names of regions, where there is that column and such a file.
    pub countries: Option<&'w str>,
    /// Whether a record that names no region that there is is read under the region given.
    pub fallback_region: bool,
    /// The byte between fields.
    pub delimiter: u8,
    /// Whether the first record of each number is kept alone.
    pub is_unique: bool,
    /// Whether columns tell which records have one number.
    pub duplicates: bool,
    /// Whether a record with a wrong count of fields is given back as such.
    pub mark_bad: bool,
    /// What stands in front of the name of each added column.
    pub front: &'w str,
    /// The file of the summary, where there is one.
    pub summary: Option<&'w str>,
    /// Its further columns.
    pub further: Further<'w>,
}

/// What further columns tell of each number: parts of it, and what tables of prefixes in files
/// have.
#[derive(Clone, Copy)]
pub struct Further<'w> {
    /// The file of the prefixes and texts of a column of one's own, where there is one.
    pub prefixes: Option<&'w str>,
    /// The name of that column; empty where there is none.
    pub name: &'w str,
    /// The file of the time zones, where they are asked for.
    pub time_zones: Option<&'w str>,
    /// The file of the carriers, where those of today are asked for.
    pub carriers: Option<&'w str>,
    /// The file of the carriers, where the first ones are asked for.
    pub first_carriers: Option<&'w str>,
    /// The file of the areas, where they are asked for.
    pub areas: Option<&'w str>,
    /// The language of areas and carriers, where that isn't English.
    pub language: Option<&'w str>,
    /// The folder of the tables of other languages.
    pub places: Option<&'w str>,
    /// Whether extensions are asked for.
    pub extension: bool,
    /// Whether calling codes are.
    pub calling_code: bool,
    /// Whether national numbers are.
    pub national_number: bool,
    /// Whether what the count of their digits says is.
    pub possibility: bool,
    /// Whether area codes are.
    pub area_code: bool,
    /// Whether words of what is suspicious are.
    pub suspicion: bool,
    /// Whether the two numbers of a field that has two are.
    pub split: bool,
}

impl<'w> Further<'w> {
    /// The files by which they tell, those that are there, but for those of a language.
    pub fn files(self) -> [Option<&'w str>; 5]
        ensures { result ≡ further_files self.entry }
    {
        [
            self.prefixes,
            self.time_zones,
            self.carriers,
            self.first_carriers,
            self.areas,
        ]
    }
}

/// The file of a column, where that is asked for.
fn file_if<'w>(parts: &[Part<'w>], name: &str, file: &str) -> Option<&'w str>
    ensures { text_in result ≡ file_if (all_said parts.now) name.now file.now }
{
    if has(parts, name) {
        return value(parts, file);
    }
    None
}

/// The further columns that options ask for.
fn further_of<'w>(parts: &[Part<'w>]) -> Further<'w>
    ensures { IsFurther (all_said parts.now) result }
{
    Further {
        prefixes: value(parts, "--prefixes"),
        name: text(parts, "--as"),
        time_zones: file_if(parts, "--time-zone", "--time-zones"),
        carriers: file_if(parts, "--carrier", "--carriers"),
        first_carriers: file_if(parts, "--first-carrier", "--carriers"),
        areas: file_if(parts, "--area", "--areas"),
        language: value(parts, "--language"),
        places: value(parts, "--places"),
        extension: has(parts, "--extension"),
        calling_code: has(parts, "--calling-code"),
        national_number: has(parts, "--national-number"),
        possibility: has(parts, "--possibility"),
        area_code: has(parts, "--area-code"),
        suspicion: has(parts, "--suspicion"),
        split: has(parts, "--split"),
    }
}

/// What options ask of a table with this byte between fields.
pub(crate) fn table_of<'w>(parts: &[Part<'w>], delimiter: u8) -> Table<'w>
    ensures table { IsTable (all_said parts.now) result }
    ensures delimiter { result.delimiter ≡ delimiter }
{
    Table {
        column: text(parts, "--csv"),
        region_column: value(parts, "--region-column"),
        countries: file_if(parts, "--region-column", "--countries"),
        fallback_region: has(parts, "--fallback-region"),
        delimiter,
        is_unique: has(parts, "--unique"),
        duplicates: has(parts, "--duplicates"),
        mark_bad: has(parts, "--mark-bad-records"),
        front: text(parts, "--prefix"),
        summary: value(parts, "--summary"),
        further: further_of(parts),
    }
}
