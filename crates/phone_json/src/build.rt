//! The records of a database text in which no value is wrong; a wrong one would count as absent.
ghost use Rattle.std.specs.Prelude.{◌≡◌, IfOk, OnOk, map, codes};
ghost use Rattle.std.specs.Option.{option_map_or};
ghost use Rattle.serde_json.specs.Find.{as_str};
ghost use Rattle.serde_json.specs.View.{view};
ghost use Rattle.phone_json.specs.Fields.{field, text_at, texts_at, numbers_at, items_in};
ghost use Rattle.phone_json.specs.Records.{descriptor_of, descriptor_at, format_of, formats_at};
ghost use Rattle.phone_json.specs.Records.{defaults_of, with_first_kinds, with_last_kinds};
ghost use Rattle.phone_json.specs.Records.{with_prefixes, with_others, metadata_of};
ghost use Rattle.phone_records.specs.Empty.{no_descriptor, no_format, no_defaults};

use crate::fields::{field, items_at, items_in, number_at, small_number, truth_at};
use crate::steps::put;
use phone_base::results::zip;
use phone_records::loader::{Defaults, Descriptor, Format, Items, Metadata, Text};
use serde_json::Value;
use std::alloc::{AllocError, Global};

fn text_of(alloc: Global, value: &Value) -> Result<Option<Text>, AllocError>
    ensures { IfOk result (λ t. t ≡ as_str (view value.now)) }
{
    match value.as_str() {
        Some(text) => Ok(Some(Text::from(String::from_str(alloc, text)?))),
        None => Ok(None),
    }
}

fn text_at(alloc: Global, object: &Value, key: &str) -> Result<Option<Text>, AllocError>
    ensures { IfOk result (λ t. t ≡ text_at key.now (view object.now)) }
{
    match field(object, key) {
        Some(value) => text_of(alloc, value),
        None => Ok(None),
    }
}

fn texts_at(alloc: Global, object: &Value, key: &str) -> Result<Items<Text>, AllocError>
    ensures { IfOk result (λ ts. ts ≡ texts_at key.now (view object.now)) }
{
    let mut texts = Vec::new(alloc);
    for item in items_at(object, key) {
        if let Some(text) = text_of(alloc, item)? {
            texts.push(text)?;
        }
    }
    Ok(Items::from(texts))
}

fn numbers_at(alloc: Global, object: &Value, key: &str) -> Result<Items<u16>, AllocError>
    ensures { IfOk result (λ ns. ns ≡ numbers_at key.now (view object.now)) }
{
    let mut numbers = Vec::new(alloc);
    for item in items_at(object, key) {
        if let Some(number) = small_number(item) {
            numbers.push(number)?;
        }
    }
    Ok(Items::from(numbers))
}

#[tactic(auto, unfolding(crate::specs::Records::descriptor_of))]
fn descriptor(alloc: Global, object: &Value) -> Result<Descriptor, AllocError>
    ensures { IfOk result (λ d. d ≡ descriptor_of (view object.now)) }
{
    let ((national_number, example), (possible_length, possible_local_length)) = zip(
        zip(
            text_at(alloc, object, "national_number"),
            text_at(alloc, object, "example"),
        ),
        zip(
            numbers_at(alloc, object, "possible_length"),
            numbers_at(alloc, object, "possible_local_length"),
        ),
    )?;
    Ok(Descriptor {
        national_number,
        possible_length,
        possible_local_length,
        example,
    })
}

fn descriptor_at(alloc: Global, object: &Value, key: &str) -> Result<Option<Descriptor>, AllocError>
    ensures { IfOk result (λ d. d ≡ descriptor_at key.now (view object.now)) }
{
    match field(object, key) {
        Some(value) => Ok(Some(descriptor(alloc, value)?)),
        None => Ok(None),
    }
}

#[tactic(auto, unfolding(crate::specs::Records::format_of))]
fn format(alloc: Global, object: &Value) -> Result<Format, AllocError>
    ensures { IfOk result (λ f. f ≡ format_of (view object.now)) }
{
    let rules = zip(
        text_at(alloc, object, "national_prefix_formatting_rule"),
        text_at(alloc, object, "domestic_carrier"),
    );
    let ((pattern, format), (leading_digits, rules)) = zip(
        zip(
            text_at(alloc, object, "pattern"),
            text_at(alloc, object, "format"),
        ),
        zip(texts_at(alloc, object, "leading_digits"), rules),
    )?;
    let (national_prefix_formatting_rule, domestic_carrier) = rules;
    Ok(Format {
        pattern,
        format,
        leading_digits,
        national_prefix_formatting_rule,
        national_prefix_optional_when_formatting: truth_at(
            object,
            "national_prefix_optional_when_formatting",
        ),
        domestic_carrier,
    })
}

fn formats_at(alloc: Global, object: &Value, key: &str) -> Result<Items<Format>, AllocError>
    ensures { IfOk result (λ fs. fs ≡ formats_at key.now (view object.now)) }
{
    let mut formats = Vec::new(alloc);
    for item in items_at(object, key) {
        formats.push(format(alloc, item)?)?;
    }
    Ok(Items::from(formats))
}

fn default_format(alloc: Global, object: &Value) -> Result<Format, AllocError>
    ensures { IfOk result (λ f. f ≡ option_map_or format_of
        (field (codes "format") (view object.now)) no_format) }
{
    match field(object, "format") {
        Some(value) => format(alloc, value),
        None => Ok(Format::empty(alloc)),
    }
}

fn default_descriptor(alloc: Global, object: &Value) -> Result<Descriptor, AllocError>
    ensures { IfOk result (λ d. d ≡ option_map_or descriptor_of
        (field (codes "descriptor") (view object.now)) no_descriptor) }
{
    match field(object, "descriptor") {
        Some(value) => descriptor(alloc, value),
        None => Ok(Descriptor::empty(alloc)),
    }
}

#[tactic(auto, unfolding(crate::specs::Records::defaults_of))]
fn defaults_at(alloc: Global, object: &Value) -> Result<Defaults, AllocError>
    ensures { IfOk result (λ d. d ≡ option_map_or defaults_of
        (field (codes "defaults") (view object.now)) no_defaults) }
{
    let Some(value) = field(object, "defaults") else {
        return Ok(Defaults::empty(alloc));
    };
    let (format, descriptor) = zip(
        default_format(alloc, value),
        default_descriptor(alloc, value),
    )?;
    Ok(Defaults { format, descriptor })
}

/// Puts the text at a key in its place.
fn read_text(
    alloc: Global,
    object: &Value,
    key: &str,
    place: &mut Option<Text>,
) -> Result<(), AllocError>
    ensures { OnOk result (place.new ≡ text_at key.now (view object.now)) }
{
    put(text_at(alloc, object, key), place)
}

/// Puts the descriptor at a key in its place.
fn read_descriptor(
    alloc: Global,
    object: &Value,
    key: &str,
    place: &mut Option<Descriptor>,
) -> Result<(), AllocError>
    ensures { OnOk result (place.new ≡ descriptor_at key.now (view object.now)) }
{
    put(descriptor_at(alloc, object, key), place)
}

#[tactic(auto, unfolding(crate::specs::Records::with_first_kinds))]
fn read_first_kinds(alloc: Global, object: &Value, m: &mut Metadata) -> Result<(), AllocError>
    ensures { OnOk result (m.new ≡ with_first_kinds (view object.now) m.old) }
{
    read_descriptor(alloc, object, "general", &mut m.general)?;
    read_descriptor(alloc, object, "fixed_line", &mut m.fixed_line)?;
    read_descriptor(alloc, object, "mobile", &mut m.mobile)?;
    read_descriptor(alloc, object, "toll_free", &mut m.toll_free)?;
    read_descriptor(alloc, object, "premium_rate", &mut m.premium_rate)?;
    read_descriptor(alloc, object, "shared_cost", &mut m.shared_cost)?;
    read_descriptor(alloc, object, "personal_number", &mut m.personal_number)?;
    read_descriptor(alloc, object, "voip", &mut m.voip)?;
    Ok(())
}

#[tactic(auto, unfolding(crate::specs::Records::with_last_kinds))]
fn read_last_kinds(alloc: Global, object: &Value, m: &mut Metadata) -> Result<(), AllocError>
    ensures { OnOk result (m.new ≡ with_last_kinds (view object.now) m.old) }
{
    read_descriptor(alloc, object, "pager", &mut m.pager)?;
    read_descriptor(alloc, object, "uan", &mut m.uan)?;
    read_descriptor(alloc, object, "emergency", &mut m.emergency)?;
    read_descriptor(alloc, object, "voicemail", &mut m.voicemail)?;
    read_descriptor(alloc, object, "short_code", &mut m.short_code)?;
    read_descriptor(alloc, object, "standard_rate", &mut m.standard_rate)?;
    read_descriptor(alloc, object, "carrier", &mut m.carrier)?;
    read_descriptor(alloc, object, "no_international", &mut m.no_international)?;
    Ok(())
}

#[tactic(auto, unfolding(crate::specs::Records::with_prefixes))]
fn read_prefixes(alloc: Global, object: &Value, m: &mut Metadata) -> Result<(), AllocError>
    ensures { OnOk result (m.new ≡ with_prefixes (view object.now) m.old) }
{
    read_text(
        alloc,
        object,
        "international_prefix",
        &mut m.international_prefix,
    )?;
    read_text(
        alloc,
        object,
        "preferred_international_prefix",
        &mut m.preferred_international_prefix,
    )?;
    read_text(alloc, object, "national_prefix", &mut m.national_prefix)?;
    read_text(
        alloc,
        object,
        "preferred_extension_prefix",
        &mut m.preferred_extension_prefix,
    )?;
    read_text(
        alloc,
        object,
        "national_prefix_for_parsing",
        &mut m.national_prefix_for_parsing,
    )?;
    read_text(
        alloc,
        object,
        "national_prefix_transform_rule",
        &mut m.national_prefix_transform_rule,
    )?;
    Ok(())
}

#[tactic(auto, unfolding(crate::specs::Records::with_others))]
fn read_others(alloc: Global, object: &Value, m: &mut Metadata) -> Result<(), AllocError>
    ensures { OnOk result (m.new ≡ with_others (view object.now) m.old) }
{
    m.country_code = number_at(object, "country_code");
    m.main_country_for_code = truth_at(object, "main_country_for_code");
    m.mobile_number_portable = truth_at(object, "mobile_number_portable");
    read_text(alloc, object, "id", &mut m.id)?;
    put(formats_at(alloc, object, "formats"), &mut m.formats)?;
    put(
        formats_at(alloc, object, "international_formats"),
        &mut m.international_formats,
    )?;
    read_text(alloc, object, "leading_digits", &mut m.leading_digits)?;
    put(defaults_at(alloc, object), &mut m.defaults)?;
    Ok(())
}

#[tactic(auto, unfolding(crate::specs::Records::metadata_of))]
fn metadata(alloc: Global, object: &Value) -> Result<Metadata, AllocError>
    ensures { IfOk result (λ m. m ≡ metadata_of (view object.now)) }
{
    let mut m = Metadata::empty(alloc);
    read_first_kinds(alloc, object, &mut m)?;
    read_last_kinds(alloc, object, &mut m)?;
    read_prefixes(alloc, object, &mut m)?;
    read_others(alloc, object, &mut m)?;
    Ok(m)
}

/// The records of a list of objects; refused only for memory.
pub fn records(alloc: Global, value: &Value) -> Result<Vec<Metadata>, AllocError>
    ensures { IfOk result (λ v. v.items ≡ map metadata_of (items_in (view value.now))) }
{
    let mut records = Vec::new(alloc);
    for item in items_in(value) {
        records.push(metadata(alloc, item)?)?;
    }
    Ok(records)
}
