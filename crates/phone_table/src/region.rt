//! The region that a record names, and the hint under which it is read.
ghost use Rattle.std.specs.Prelude.{◌≡◌, IfOk, option_map};
ghost use Rattle.csv.specs.Records.{fields_of};
ghost use Rattle.phone_table.specs.Regions.{RegionText, TextOf, hint_under, named_by, region_meant};

use crate::header::Columns;
use crate::table::field_in;
use csv::ByteRecord;
use phone_places::{Countries, id_in, region_named};
use phone_plans::Plans;
use phone_values::country::Id;
use std::alloc::AllocError;

/// What the field of a region names.
#[derive(Clone, Copy, PartialEq, Eq, Debug)]
pub enum Named {
    /// Nothing: the field is empty.
    Nothing,
    /// This region.
    Region(Id),
    /// No region that there is.
    Unknown,
}

/// The text of a field without white space around it; none where the field is no UTF-8.
fn text_in(field: &[u8]) -> Option<&str>
    ensures { TextOf field.now (option_map (λ t. t.now) result) }
{
    match std::str::from_utf8(field) {
        Ok(text) => Some(text.trim()),
        Err(_) => None,
    }
}

/// The text by which a record names its region, white space around it passed over: empty where
/// there is no column of regions; none where the field is no text.
pub(crate) fn region_text(columns: Columns, fields: &ByteRecord) -> Option<&str>
    ensures { RegionText (fields_of fields.now) columns.region
        (option_map (λ t. t.now) result) }
{
    match columns.region {
        Some(column) => text_in(field_in(fields, column)),
        None => Some(""),
    }
}

/// The region that a text names: by its id alone, where there is no table of names. Refused only
/// for memory.
fn region_meant(
    countries: Option<&Countries>,
    plans: &Plans,
    text: &str,
) -> Result<Option<Id>, AllocError>
    ensures { IfOk result (λ found. found ≡
        region_meant (option_map (λ c. c.now) countries.entry) plans.now text.now) }
{
    match countries {
        Some(countries) => region_named(countries, plans, text),
        None => Ok(id_in(text)),
    }
}

/// What a text names as a region; `Unknown` where there is no text. Refused only for memory.
pub(crate) fn named_by(
    countries: Option<&Countries>,
    plans: &Plans,
    text: Option<&str>,
) -> Result<Named, AllocError>
    ensures { IfOk result (λ named. named ≡ named_by (option_map (λ c. c.now) countries.entry)
        plans.now (option_map (λ t. t.now) text.entry)) }
{
    let Some(text) = text else {
        return Ok(Named::Unknown);
    };
    if text.is_empty() {
        return Ok(Named::Nothing);
    }
    match region_meant(countries, plans, text)? {
        Some(id) => Ok(Named::Region(id)),
        None => Ok(Named::Unknown),
    }
}

/// The hint under which a record is read that names this region: its own, else the table's; none
/// where it names no region that there is, unless that takes the table's hint too.
pub(crate) fn hint_under(else_hint: bool, hint: Option<Id>, named: Named) -> Option<Option<Id>>
    ensures { result ≡ hint_under else_hint hint named }
{
    match named {
        Named::Nothing => Some(hint),
        Named::Region(id) => Some(Some(id)),
        Named::Unknown if else_hint => Some(hint),
        Named::Unknown => None,
    }
}
