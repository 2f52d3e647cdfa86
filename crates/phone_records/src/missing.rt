//! What every record must have, looked for before any pattern is compiled.
ghost use Rattle.std.specs.Prelude.{◌≡◌, map, Option};
ghost use Rattle.std.specs.Borrow.{Bor};
ghost use Rattle.phone_records.specs.Missing.{phase_of, name_of, missing_in_descriptor};
ghost use Rattle.phone_records.specs.Missing.{missing_in_format, missing_in, first_missing};
ghost use Rattle.phone_records.specs.Missing.{first_given, descriptors_of};
ghost use Rattle.phone_records.specs.declared.loader.Descriptor.{Descriptor};

use crate::loader::{Descriptor, Format, Metadata};

/// A value that a record must have, and hasn't.
#[derive(Clone, Copy, PartialEq, Eq, Debug)]
pub enum Missing {
    /// A territory's general descriptor.
    General,
    /// A descriptor's pattern.
    NationalNumber,
    /// A territory's id.
    Id,
    /// A territory's calling code.
    CountryCode,
    /// A layout's pattern.
    Pattern,
    /// A layout's template.
    Template,
}

impl Missing {
    /// The kind of record that lacks the value.
    pub fn phase(self) -> &'static str
        ensures { result.now ≡ phase_of self }
    {
        match self {
            Missing::General | Missing::Id | Missing::CountryCode => "metadata",
            Missing::NationalNumber => "descriptor",
            Missing::Pattern | Missing::Template => "format",
        }
    }

    /// The name of the value, as the published tables spell it.
    pub fn name(self) -> &'static str
        ensures { result.now ≡ name_of self }
    {
        match self {
            Missing::General => "generalDesc",
            Missing::NationalNumber => "national_number",
            Missing::Id => "id",
            Missing::CountryCode => "countryCode",
            Missing::Pattern => "pattern",
            Missing::Template => "format",
        }
    }
}

fn in_descriptor(descriptor: &Option<Descriptor>) -> Option<Missing>
    ensures { result ≡ missing_in_descriptor descriptor.now }
{
    match descriptor {
        Some(descriptor) if descriptor.national_number.is_none() => Some(Missing::NationalNumber),
        _ => None,
    }
}

fn in_descriptors(descriptors: &[&Option<Descriptor>]) -> Option<Missing>
    ensures { result ≡ first_given (map (λ (d : Bor (Option Descriptor)).
        missing_in_descriptor d.now) descriptors.now) }
{
    for descriptor in descriptors {
        let missing = in_descriptor(descriptor);
        if missing.is_some() {
            return missing;
        }
    }
    None
}

fn in_kinds(m: &Metadata) -> Option<Missing>
    ensures { result ≡ first_given (map missing_in_descriptor (descriptors_of m.now)) }
{
    in_descriptors(&[
        &m.general,
        &m.fixed_line,
        &m.mobile,
        &m.toll_free,
        &m.premium_rate,
        &m.shared_cost,
        &m.personal_number,
        &m.voip,
        &m.pager,
        &m.uan,
        &m.emergency,
        &m.voicemail,
        &m.short_code,
        &m.standard_rate,
        &m.carrier,
        &m.no_international,
    ])
}

fn in_format(format: &Format) -> Option<Missing>
    ensures { result ≡ missing_in_format format.now }
{
    if format.pattern.is_none() {
        return Some(Missing::Pattern);
    }
    if format.format.is_none() {
        return Some(Missing::Template);
    }
    None
}

fn in_formats(formats: &[Format]) -> Option<Missing>
    ensures { result ≡ first_given (map missing_in_format formats.now) }
{
    for format in formats {
        let missing = in_format(format);
        if missing.is_some() {
            return missing;
        }
    }
    None
}

#[tactic(auto, unfolding(crate::specs::Missing::missing_in))]
fn in_record(m: &Metadata) -> Option<Missing>
    ensures { result ≡ missing_in m.now }
{
    if m.general.is_none() {
        return Some(Missing::General);
    }
    if let Some(missing) = in_kinds(m) {
        return Some(missing);
    }
    if m.id.is_none() {
        return Some(Missing::Id);
    }
    if m.country_code.is_none() {
        return Some(Missing::CountryCode);
    }
    in_formats(m.formats.as_slice()).or(in_formats(m.international_formats.as_slice()))
}

/// The first value that is missing, over all records in their order.
pub fn first_missing(records: &[Metadata]) -> Option<Missing>
    ensures { result ≡ first_missing records.now }
{
    for record in records {
        let missing = in_record(record);
        if missing.is_some() {
            return missing;
        }
    }
    None
}
