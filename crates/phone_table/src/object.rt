//! A summary as a JSON text.
ghost use Rattle.std.specs.Prelude.{◌≡◌, IfOk, OnOk, Some, string_bytes};
ghost use Rattle.serde_json.specs.Data as json;
ghost use Rattle.serde_json.specs.Read.{read};
ghost use Rattle.serde_json.specs.View.{members_view, view};
ghost use Rattle.serde_json.specs.Written.{compact_text};
ghost use Rattle.phone_table.specs.Objects.{members_of, summary_object, tally_object};

use crate::summary::Summary;
use crate::tally::Tally;
use serde_json::{Map, Value};
use std::alloc::{AllocError, Global};

/// The members of a tally: each text with its count. Refused only for memory.
fn members_of(tally: &Tally, alloc: Global) -> Result<Map<String, Value>, AllocError>
    ensures { IfOk result (λ m. members_view m.entries ≡ members_of tally.now.entries) }
{
    let mut members = Map::new(alloc);
    for (text, count) in tally {
        serde_json::put(&mut members, alloc, text.as_str(), Value::from(*count))?;
    }
    Ok(members)
}

/// A tally as an object. Refused only for memory.
fn tally_object(tally: &Tally, alloc: Global) -> Result<Value, AllocError>
    ensures { IfOk result (λ v. view v ≡ tally_object tally.now) }
{
    Ok(Value::Object(members_of(tally, alloc)?))
}

/// Puts a tally among members. Refused only for memory.
fn put_tally(
    members: &mut Map<String, Value>,
    alloc: Global,
    name: &str,
    tally: &Tally,
) -> Result<(), AllocError>
    ensures { OnOk result (members_view members.new.entries ≡
        json.put name.now (tally_object tally.now) (members_view members.old.entries)) }
{
    let object = tally_object(tally, alloc)?;
    serde_json::put(members, alloc, name, object)
}

impl Summary {
    /// The object of the summary, whose members `refusals`, `regions`, `suspicions` and `types`
    /// have each text with its count. Refused only for memory.
    fn object(&self, alloc: Global) -> Result<Value, AllocError>
        ensures { IfOk result (λ v. view v ≡ summary_object self.now) }
    {
        let mut members = Map::new(alloc);
        put_tally(&mut members, alloc, "types", &self.kinds)?;
        put_tally(&mut members, alloc, "regions", &self.regions)?;
        put_tally(&mut members, alloc, "refusals", &self.refusals)?;
        put_tally(&mut members, alloc, "suspicions", &self.suspicions)?;
        Ok(Value::Object(members))
    }

    /// The JSON text of the summary, on one line without its end: an object whose members
    /// `refusals`, `regions`, `suspicions` and `types` are objects of each text with its count.
    /// Refused only for memory.
    pub fn to_json(&self, alloc: Global) -> Result<String, AllocError>
        ensures text { IfOk result
            (λ s. string_bytes s ≡ compact_text (summary_object self.now)) }
        ensures read { IfOk result
            (λ s. read (string_bytes s) ≡ Some (summary_object self.now)) }
    {
        let object = self.object(alloc)?;
        object.to_string(alloc)
    }
}
