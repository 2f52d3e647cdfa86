//! The walk over a database text, to the first value that is wrong.
ghost use Rattle.std.specs.Prelude.{◌≡◌, List, ℕ, codes, map, option_map};
ghost use Rattle.std.specs.Borrow.{Bor};
ghost use Rattle.serde_json.specs.View.{view, members_view};
ghost use Rattle.phone_records.specs.Missing.{first_given};
ghost use Rattle.phone_json.specs.Faults.{lesser, least_unknown, is_unknown, unknown_fault};
ghost use Rattle.phone_json.specs.Faults.{text_fault, number_fault, truth_fault, list_fault};
ghost use Rattle.phone_json.specs.Faults.{record_fault, fault_at, descriptor_fault, format_fault};
ghost use Rattle.phone_json.specs.Faults.{defaults_fault, fault_behind_prefixes, metadata_fault};
ghost use Rattle.phone_json.specs.Faults.{database_fault, metadata_keys, kind_keys, prefix_keys};
ghost use Rattle.phone_json.specs.Told.{refusal_of, shown};

use crate::fault::Fault;
use crate::fields::{as_list, field, small_number};
use serde_json::{Map, Value};

fn is_unknown(known: &[&str], key: &str) -> bool
    ensures { result ≡ is_unknown (map shown known.now) key.now }
{
    for name in known {
        if *name == key {
            return false;
        }
    }
    true
}

fn lesser<'v>(best: Option<&'v str>, key: &'v str) -> Option<&'v str>
    ensures { option_map shown result ≡ lesser (option_map shown best.entry) key.now }
{
    match best {
        Some(best) if best <= key => Some(best),
        _ => Some(key),
    }
}

fn least_unknown<'v>(known: &[&str], members: &'v Map<String, Value>) -> Option<&'v str>
    ensures { option_map shown result ≡
        least_unknown (map shown known.now) (members_view members.now.entries) }
{
    let mut least: Option<&str> = None;
    for (key, _) in members.iter() {
        if is_unknown(known, key.as_str()) {
            least = lesser(least, key.as_str());
        }
    }
    least
}

fn unknown_key<'v>(object: &'v Value, phase: &'v str, known: &[&str]) -> Option<Fault<'v>>
    ensures { option_map refusal_of result ≡
        unknown_fault phase.now (map shown known.now) (view object.now) }
{
    match object.as_object() {
        Some(members) => match least_unknown(known, members) {
            Some(key) => Some(Fault::UnknownKey { phase, key }),
            None => None,
        },
        None => None,
    }
}

fn in_text<'v>(value: &Value, wrong: Fault<'v>) -> Option<Fault<'v>>
    ensures { option_map refusal_of result ≡ text_fault (refusal_of wrong.entry) (view value.now) }
{
    match value.as_str() {
        Some(_) => None,
        None => Some(wrong),
    }
}

fn in_number<'v>(value: &Value, wrong: Fault<'v>) -> Option<Fault<'v>>
    ensures { option_map refusal_of result ≡
        number_fault (refusal_of wrong.entry) (view value.now) }
{
    match small_number(value) {
        Some(_) => None,
        None => Some(wrong),
    }
}

fn in_truth<'v>(value: &Value, wrong: Fault<'v>) -> Option<Fault<'v>>
    ensures { option_map refusal_of result ≡ truth_fault (refusal_of wrong.entry) (view value.now) }
{
    match value.as_bool() {
        Some(_) => None,
        None => Some(wrong),
    }
}

fn in_texts<'v>(value: &Value, wrong: Fault<'v>) -> Option<Fault<'v>>
    ensures { option_map refusal_of result ≡
        list_fault text_fault (refusal_of wrong.entry) (view value.now) }
{
    let Some(items) = as_list(value) else {
        return Some(wrong);
    };
    for item in items {
        let fault = in_text(item, wrong);
        if fault.is_some() {
            return fault;
        }
    }
    None
}

fn in_numbers<'v>(value: &Value, wrong: Fault<'v>) -> Option<Fault<'v>>
    ensures { option_map refusal_of result ≡
        list_fault number_fault (refusal_of wrong.entry) (view value.now) }
{
    let Some(items) = as_list(value) else {
        return Some(wrong);
    };
    for item in items {
        let fault = in_number(item, wrong);
        if fault.is_some() {
            return fault;
        }
    }
    None
}

fn text_at<'v>(object: &'v Value, phase: &'v str, key: &'v str) -> Option<Fault<'v>>
    ensures { option_map refusal_of result ≡
        fault_at text_fault phase.now (view object.now) key.now }
{
    match field(object, key) {
        Some(value) => in_text(value, Fault::WrongKind { phase, name: key }),
        None => None,
    }
}

fn number_at<'v>(object: &'v Value, phase: &'v str, key: &'v str) -> Option<Fault<'v>>
    ensures { option_map refusal_of result ≡
        fault_at number_fault phase.now (view object.now) key.now }
{
    match field(object, key) {
        Some(value) => in_number(value, Fault::WrongKind { phase, name: key }),
        None => None,
    }
}

fn truth_at<'v>(object: &'v Value, phase: &'v str, key: &'v str) -> Option<Fault<'v>>
    ensures { option_map refusal_of result ≡
        fault_at truth_fault phase.now (view object.now) key.now }
{
    match field(object, key) {
        Some(value) => in_truth(value, Fault::WrongKind { phase, name: key }),
        None => None,
    }
}

fn texts_at<'v>(object: &'v Value, phase: &'v str, key: &'v str) -> Option<Fault<'v>>
    ensures { option_map refusal_of result ≡
        fault_at (list_fault text_fault) phase.now (view object.now) key.now }
{
    match field(object, key) {
        Some(value) => in_texts(value, Fault::WrongKind { phase, name: key }),
        None => None,
    }
}

fn numbers_at<'v>(object: &'v Value, phase: &'v str, key: &'v str) -> Option<Fault<'v>>
    ensures { option_map refusal_of result ≡
        fault_at (list_fault number_fault) phase.now (view object.now) key.now }
{
    match field(object, key) {
        Some(value) => in_numbers(value, Fault::WrongKind { phase, name: key }),
        None => None,
    }
}

fn first_of<'v>(faults: &[Option<Fault<'v>>]) -> Option<Fault<'v>>
    ensures { option_map refusal_of result ≡ first_given (map (option_map refusal_of) faults.now) }
{
    for fault in faults {
        if fault.is_some() {
            return *fault;
        }
    }
    None
}

#[tactic(auto, unfolding(crate::specs::Faults::descriptor_fault))]
fn in_descriptor<'v>(object: &'v Value) -> Option<Fault<'v>>
    ensures { option_map refusal_of result ≡ descriptor_fault (view object.now) }
{
    let phase = "descriptor";
    first_of(&[
        unknown_key(
            object,
            phase,
            &[
                "national_number",
                "possible_length",
                "possible_local_length",
                "example",
            ],
        ),
        text_at(object, phase, "national_number"),
        numbers_at(object, phase, "possible_length"),
        numbers_at(object, phase, "possible_local_length"),
        text_at(object, phase, "example"),
    ])
}

#[tactic(auto, unfolding(crate::specs::Faults::format_fault))]
fn in_format<'v>(object: &'v Value) -> Option<Fault<'v>>
    ensures { option_map refusal_of result ≡ format_fault (view object.now) }
{
    let phase = "format";
    first_of(&[
        unknown_key(
            object,
            phase,
            &[
                "pattern",
                "format",
                "leading_digits",
                "national_prefix_formatting_rule",
                "national_prefix_optional_when_formatting",
                "domestic_carrier",
            ],
        ),
        text_at(object, phase, "pattern"),
        text_at(object, phase, "format"),
        texts_at(object, phase, "leading_digits"),
        text_at(object, phase, "national_prefix_formatting_rule"),
        truth_at(object, phase, "national_prefix_optional_when_formatting"),
        text_at(object, phase, "domestic_carrier"),
    ])
}

fn in_descriptor_record<'v>(value: &'v Value, wrong: Fault<'v>) -> Option<Fault<'v>>
    ensures { option_map refusal_of result ≡
        record_fault descriptor_fault (refusal_of wrong.entry) (view value.now) }
{
    match value.as_object() {
        Some(_) => in_descriptor(value),
        None => Some(wrong),
    }
}

fn in_format_record<'v>(value: &'v Value, wrong: Fault<'v>) -> Option<Fault<'v>>
    ensures { option_map refusal_of result ≡
        record_fault format_fault (refusal_of wrong.entry) (view value.now) }
{
    match value.as_object() {
        Some(_) => in_format(value),
        None => Some(wrong),
    }
}

fn in_formats<'v>(value: &'v Value, wrong: Fault<'v>) -> Option<Fault<'v>>
    ensures { option_map refusal_of result ≡
        list_fault (record_fault format_fault) (refusal_of wrong.entry) (view value.now) }
{
    let Some(items) = as_list(value) else {
        return Some(wrong);
    };
    for item in items {
        let fault = in_format_record(item, wrong);
        if fault.is_some() {
            return fault;
        }
    }
    None
}

fn descriptor_at<'v>(object: &'v Value, phase: &'v str, key: &'v str) -> Option<Fault<'v>>
    ensures { option_map refusal_of result ≡
        fault_at (record_fault descriptor_fault) phase.now (view object.now) key.now }
{
    match field(object, key) {
        Some(value) => in_descriptor_record(value, Fault::WrongKind { phase, name: key }),
        None => None,
    }
}

fn format_at<'v>(object: &'v Value, phase: &'v str, key: &'v str) -> Option<Fault<'v>>
    ensures { option_map refusal_of result ≡
        fault_at (record_fault format_fault) phase.now (view object.now) key.now }
{
    match field(object, key) {
        Some(value) => in_format_record(value, Fault::WrongKind { phase, name: key }),
        None => None,
    }
}

fn formats_at<'v>(object: &'v Value, phase: &'v str, key: &'v str) -> Option<Fault<'v>>
    ensures { option_map refusal_of result ≡
        fault_at (list_fault (record_fault format_fault)) phase.now (view object.now) key.now }
{
    match field(object, key) {
        Some(value) => in_formats(value, Fault::WrongKind { phase, name: key }),
        None => None,
    }
}

#[tactic(auto, unfolding(crate::specs::Faults::defaults_fault))]
fn in_defaults<'v>(object: &'v Value) -> Option<Fault<'v>>
    ensures { option_map refusal_of result ≡ defaults_fault (view object.now) }
{
    let phase = "defaults";
    first_of(&[
        unknown_key(object, phase, &["format", "descriptor"]),
        format_at(object, phase, "format"),
        descriptor_at(object, phase, "descriptor"),
    ])
}

fn in_defaults_record<'v>(value: &'v Value, wrong: Fault<'v>) -> Option<Fault<'v>>
    ensures { option_map refusal_of result ≡
        record_fault defaults_fault (refusal_of wrong.entry) (view value.now) }
{
    match value.as_object() {
        Some(_) => in_defaults(value),
        None => Some(wrong),
    }
}

fn defaults_at<'v>(object: &'v Value, phase: &'v str, key: &'v str) -> Option<Fault<'v>>
    ensures { option_map refusal_of result ≡
        fault_at (record_fault defaults_fault) phase.now (view object.now) key.now }
{
    match field(object, key) {
        Some(value) => in_defaults_record(value, Fault::WrongKind { phase, name: key }),
        None => None,
    }
}

fn unknown_in_metadata<'v>(object: &'v Value) -> Option<Fault<'v>>
    ensures { option_map refusal_of result ≡
        unknown_fault (codes "metadata") metadata_keys (view object.now) }
{
    unknown_key(
        object,
        "metadata",
        &[
            "general",
            "fixed_line",
            "mobile",
            "toll_free",
            "premium_rate",
            "shared_cost",
            "personal_number",
            "voip",
            "pager",
            "uan",
            "emergency",
            "voicemail",
            "short_code",
            "standard_rate",
            "carrier",
            "no_international",
            "international_prefix",
            "preferred_international_prefix",
            "national_prefix",
            "preferred_extension_prefix",
            "national_prefix_for_parsing",
            "national_prefix_transform_rule",
            "id",
            "country_code",
            "formats",
            "international_formats",
            "main_country_for_code",
            "leading_digits",
            "mobile_number_portable",
            "defaults",
        ],
    )
}

fn in_kinds<'v>(object: &'v Value) -> Option<Fault<'v>>
    ensures { option_map refusal_of result ≡ first_given
        (map (fault_at (record_fault descriptor_fault) (codes "metadata") (view object.now))
        kind_keys) }
{
    first_descriptor(
        object,
        &[
            "general",
            "fixed_line",
            "mobile",
            "toll_free",
            "premium_rate",
            "shared_cost",
            "personal_number",
            "voip",
            "pager",
            "uan",
            "emergency",
            "voicemail",
            "short_code",
            "standard_rate",
            "carrier",
            "no_international",
        ],
    )
}

fn first_descriptor<'v>(object: &'v Value, keys: &[&'v str]) -> Option<Fault<'v>>
    ensures { option_map refusal_of result ≡ first_given
        (map (λ (key : Bor (List ℕ)). fault_at (record_fault descriptor_fault) (codes "metadata")
        (view object.now) key.now) keys.now) }
{
    for key in keys {
        let fault = descriptor_at(object, "metadata", *key);
        if fault.is_some() {
            return fault;
        }
    }
    None
}

fn in_prefixes<'v>(object: &'v Value) -> Option<Fault<'v>>
    ensures { option_map refusal_of result ≡
        first_given (map (fault_at text_fault (codes "metadata") (view object.now)) prefix_keys) }
{
    let phase = "metadata";
    first_of(&[
        text_at(object, phase, "international_prefix"),
        text_at(object, phase, "preferred_international_prefix"),
        text_at(object, phase, "national_prefix"),
        text_at(object, phase, "preferred_extension_prefix"),
        text_at(object, phase, "national_prefix_for_parsing"),
        text_at(object, phase, "national_prefix_transform_rule"),
    ])
}

#[tactic(auto, unfolding(crate::specs::Faults::fault_behind_prefixes))]
fn behind_prefixes<'v>(object: &'v Value) -> Option<Fault<'v>>
    ensures { option_map refusal_of result ≡ fault_behind_prefixes (view object.now) }
{
    let phase = "metadata";
    first_of(&[
        formats_at(object, phase, "formats"),
        formats_at(object, phase, "international_formats"),
        truth_at(object, phase, "main_country_for_code"),
        text_at(object, phase, "leading_digits"),
        truth_at(object, phase, "mobile_number_portable"),
        defaults_at(object, phase, "defaults"),
    ])
}

#[tactic(auto, unfolding(crate::specs::Faults::metadata_fault))]
fn in_metadata<'v>(object: &'v Value) -> Option<Fault<'v>>
    ensures { option_map refusal_of result ≡ metadata_fault (view object.now) }
{
    let phase = "metadata";
    first_of(&[
        unknown_in_metadata(object),
        in_kinds(object),
        text_at(object, phase, "id"),
        number_at(object, phase, "country_code"),
        in_prefixes(object),
        behind_prefixes(object),
    ])
}

fn in_metadata_record<'v>(value: &'v Value, wrong: Fault<'v>) -> Option<Fault<'v>>
    ensures { option_map refusal_of result ≡
        record_fault metadata_fault (refusal_of wrong.entry) (view value.now) }
{
    match value.as_object() {
        Some(_) => in_metadata(value),
        None => Some(wrong),
    }
}

fn in_records<'v>(value: &'v Value, wrong: Fault<'v>) -> Option<Fault<'v>>
    ensures { option_map refusal_of result ≡
        list_fault (record_fault metadata_fault) (refusal_of wrong.entry) (view value.now) }
{
    let Some(items) = as_list(value) else {
        return Some(wrong);
    };
    for item in items {
        let fault = in_metadata_record(item, wrong);
        if fault.is_some() {
            return fault;
        }
    }
    None
}

/// The first value of a database text that is wrong.
pub fn in_database<'v>(value: &'v Value) -> Option<Fault<'v>>
    ensures { option_map refusal_of result ≡ database_fault (view value.now) }
{
    let phase = "database";
    in_records(
        value,
        Fault::WrongKind {
            phase,
            name: "records",
        },
    )
}
