//! Database texts: a JSON array of objects, read as the records of which a database is made.
#![tactic(auto)]

ghost use Rattle.std.specs.Prelude.{◌≡◌, ◌⊎◌, Err, IfOk, IfErr, None, Some};
ghost use Rattle.std.specs.Result.{result_map_both};
ghost use Rattle.serde_json.specs.Read.{read};
ghost use Rattle.serde_json.specs.View.{view};
ghost use Rattle.phone_base.specs.Errors.{told};
ghost use Rattle.phone_base.specs.declared.error.LoadMetadata.TheVariants as error;
ghost use Rattle.phone_json.specs.Records.{records_in, records_of};

mod build;
mod fault;
mod fields;
mod steps;
mod walk;

use phone_records::LoadMetadata;
use phone_records::loader::Metadata;
use serde_json::Value;
use std::alloc::Global;

/// The records of a database text, which is an array of objects: each key is a field of the record,
/// and an absent key and `null` mean none, an empty list, false or an empty record. Of a repeated
/// key the last value counts. Arrays and objects nest at most 127 deep.
///
/// Refused by `Json` where the text is no JSON; then by the first fault that is met, record by
/// record: by `Metadata(UnhandledElement)` for an object with keys that it may not have, with the
/// least of them in byte order; else, in the order in which the fields are declared, by `Kind` for
/// a value of the wrong kind, with the field and the kind of its record, or with `database` and
/// `records` where the text isn't an array or an element isn't an object. Numbers must be whole,
/// without fraction and exponent, and at most 65535. Refused by `Memory` where memory is refused.
pub fn records(alloc: Global, text: &str) -> Result<Vec<Metadata>, LoadMetadata>
    ensures { (result ≡ Err error.Memory) ⊎ (result_map_both (λ v. v.items) told result ≡
        records_of text.now) }
{
    let value = read(alloc, text)?;
    records_in(alloc, &value)
}

/// The records that a value is, unless it has a fault.
fn records_in(alloc: Global, value: &Value) -> Result<Vec<Metadata>, LoadMetadata>
    ensures { (result ≡ Err error.Memory) ⊎ (result_map_both (λ v. v.items) told result ≡
        records_in (view value.now)) }
{
    if let Some(fault) = walk::in_database(value) {
        return Err(fault.into_refusal(alloc)?);
    }
    Ok(build::records(alloc, value)?)
}

fn read(alloc: Global, text: &str) -> Result<Value, LoadMetadata>
    ensures value { IfOk result (λ v. read text.now ≡ Some (view v)) }
    ensures refused { IfErr result (λ e. (e ≡ error.Memory) ⊎ ((e ≡ error.Json) ×
        (read text.now ≡ None))) }
{
    match Value::from_str(alloc, text) {
        Ok(value) => Ok(value),
        Err(error) if error.is_memory() => Err(LoadMetadata::Memory),
        Err(_) => Err(LoadMetadata::Json),
    }
}
