//! How the tables tell a number: its parts, its texts in the four modes, and what a database tells
//! of it.
use anyhow::{Result, anyhow};
use phone_values::country::Id;
use phonenumber::{Facts, FormatError, Formatter, PhoneNumber, Texts};
use replay_base::marks::{around, begin};
use replay_base::readers::push_part;
use replay_base::words::source;
use std::alloc::{AllocError, Global};

/// The text of a number's extension.
pub fn extension(number: &PhoneNumber) -> Option<&str> {
    match number.extension() {
        Some(extension) => Some(extension.as_str()),
        None => None,
    }
}

/// The text of a number's carrier.
pub fn carrier(number: &PhoneNumber) -> Option<&str> {
    match number.carrier() {
        Some(carrier) => Some(carrier.as_str()),
        None => None,
    }
}

/// Writes code, source and national text of a number, its extension and its carrier, parted by
/// tabs.
pub fn push_parts(out: &mut String, number: &PhoneNumber) -> Result<(), AllocError> {
    let (code, national) = (number.code().value(), number.national());
    let source = source(number.code().source());
    write!(out, "{code}\t{source}\t{national}")?;
    push_part(out, extension(number))?;
    push_part(out, carrier(number))
}

/// Writes the text that a printer makes in each mode behind this sign, or `UnknownCode` for each,
/// parted by tabs.
pub fn push_texts(
    alloc: Global,
    out: &mut String,
    printer: Formatter<'_, '_, '_>,
    sign: &str,
) -> Result<()> {
    push_printed(
        out,
        around(alloc, begin(alloc), printer.to_texts(alloc)),
        sign,
    )
}

/// Writes the texts that were printed behind this sign, or `UnknownCode` for each, parted by tabs.
pub fn push_printed(out: &mut String, texts: Result<Texts, FormatError>, sign: &str) -> Result<()> {
    match texts {
        Ok(texts) => Ok(push_each(out, &texts, sign)?),
        Err(FormatError::UnknownCode) => {
            Ok(out.push_str("UnknownCode\tUnknownCode\tUnknownCode\tUnknownCode")?)
        }
        Err(FormatError::Memory) => Err(anyhow!("out of memory")),
    }
}

/// Writes these texts, each behind the sign.
fn push_each(out: &mut String, texts: &Texts, sign: &str) -> Result<(), AllocError> {
    let (e164, international) = (texts.e164.as_str(), texts.international.as_str());
    let (national, rfc3966) = (texts.national.as_str(), texts.rfc3966.as_str());
    write!(
        out,
        "{sign}{e164}\t{sign}{international}\t{sign}{national}\t{sign}{rfc3966}"
    )
}

/// Writes the kind of a number, its region or a hyphen, `valid` or `invalid`, parted by tabs.
pub fn push_facts(out: &mut String, found: Facts) -> Result<(), AllocError> {
    let (kind, region) = (found.kind.name(), region_name(found.region));
    let validity = if found.is_valid { "valid" } else { "invalid" };
    write!(out, "{kind}\t{region}\t{validity}")
}

/// A region's id, or a hyphen.
pub fn region_name(region: Option<Id>) -> &'static str {
    match region {
        Some(id) => id.as_str(),
        None => "-",
    }
}
