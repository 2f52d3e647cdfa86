//! How tables write what the crates answer.
use anyhow::{Result, anyhow};
use phone_values::country::{Id, Source};
use phone_values::{Mode, ParseError, Type};
use std::alloc::Global;

/// The kinds by their names, in their order.
pub const KINDS: [(&str, Type); 17] = [
    ("FixedLine", Type::FixedLine),
    ("Mobile", Type::Mobile),
    ("FixedLineOrMobile", Type::FixedLineOrMobile),
    ("TollFree", Type::TollFree),
    ("PremiumRate", Type::PremiumRate),
    ("SharedCost", Type::SharedCost),
    ("PersonalNumber", Type::PersonalNumber),
    ("Voip", Type::Voip),
    ("Pager", Type::Pager),
    ("Uan", Type::Uan),
    ("Emergency", Type::Emergency),
    ("Voicemail", Type::Voicemail),
    ("ShortCode", Type::ShortCode),
    ("StandardRate", Type::StandardRate),
    ("Carrier", Type::Carrier),
    ("NoInternational", Type::NoInternational),
    ("Unknown", Type::Unknown),
];

/// The kind of this name.
pub fn kind(name: &str) -> Result<Type> {
    for (known, kind) in &KINDS {
        if *known == name {
            return Ok(*kind);
        }
    }
    Err(anyhow!("no kind has this name"))
}

/// The mode of this name.
pub fn mode(name: &str) -> Result<Mode> {
    match name {
        "E164" => Ok(Mode::E164),
        "International" => Ok(Mode::International),
        "National" => Ok(Mode::National),
        "Rfc3966" => Ok(Mode::Rfc3966),
        _ => Err(anyhow!("no mode has this name")),
    }
}

/// A hint: a region, or none for a hyphen.
pub fn hint(column: &str) -> Result<Option<Id>> {
    if column == "-" {
        return Ok(None);
    }
    Ok(Some(column.parse::<Id>()?))
}

/// A text as an answer.
pub fn said(alloc: Global, text: &str) -> Result<String> {
    Ok(String::from_str(alloc, text)?)
}

/// `true` or `false`.
pub fn truth(alloc: Global, holds: bool) -> Result<String> {
    said(alloc, if holds { "true" } else { "false" })
}

/// A text behind an equals sign.
pub fn part_of(alloc: Global, text: &str) -> Result<String> {
    Ok(format!(in alloc; "={text}")?)
}

/// A text behind an equals sign, or a hyphen where there is none.
pub fn part(alloc: Global, text: Option<&str>) -> Result<String> {
    match text {
        Some(text) => part_of(alloc, text),
        None => said(alloc, "-"),
    }
}

/// How a source is written.
pub fn source(source: Source) -> &'static str {
    match source {
        Source::Plus => "plus",
        Source::Idd => "idd",
        Source::Number => "number",
        Source::Default => "default",
    }
}

/// How a refusal is written: `error`, its number and its text. Want of memory is no answer, but an
/// error.
pub fn refusal(alloc: Global, error: &ParseError) -> Result<String> {
    let mut out = String::new(alloc);
    push_refusal(&mut out, error)?;
    Ok(out)
}

/// Writes a refusal like that.
pub fn push_refusal(out: &mut String, error: &ParseError) -> Result<()> {
    if let ParseError::Memory = error {
        return Err(anyhow!("out of memory"));
    }
    let (number, words) = (error.number(), error.report_words());
    Ok(write!(out, "error\t{number}\t{words}")?)
}
