//! The values at the keys of an object, each taken for what it must be.
ghost use Rattle.std.specs.Prelude.{◌≡◌, map, option_map};
ghost use Rattle.serde_json.specs.View.{view};
ghost use Rattle.phone_json.specs.Fields.{field, as_small, as_list, items_in, items_at, number_at};
ghost use Rattle.phone_json.specs.Fields.{truth_at};

use serde_json::Value;

/// The value at a key, unless it is absent or `null`.
pub fn field<'v>(object: &'v Value, key: &str) -> Option<&'v Value>
    ensures { option_map (λ v. view v.now) result ≡ field key.now (view object.now) }
{
    match object.get(key) {
        None | Some(Value::Null) => None,
        given => given,
    }
}

/// The number that a value is, if it is whole and at most 65535.
pub fn small_number(value: &Value) -> Option<u16>
    ensures { result ≡ as_small (view value.now) }
{
    match u16::try_from(value.as_u64()?) {
        Ok(number) => Some(number),
        Err(_) => None,
    }
}

/// The number at a key.
pub fn number_at(object: &Value, key: &str) -> Option<u16>
    ensures { result ≡ number_at key.now (view object.now) }
{
    match field(object, key) {
        Some(value) => small_number(value),
        None => None,
    }
}

/// The truth value at a key; false where there is none.
pub fn truth_at(object: &Value, key: &str) -> bool
    ensures { result ≡ truth_at key.now (view object.now) }
{
    field(object, key).and_then(Value::as_bool).unwrap_or(false)
}

/// The items of a list, if the value is one.
#[tactic(auto, using(crate::proofs::Lists::listed_items_of))]
pub fn as_list(value: &Value) -> Option<&[Value]>
    ensures { option_map (λ items. map view items.now) result ≡ as_list (view value.now) }
{
    match value.as_array() {
        Some(items) => Some(items.as_slice()),
        None => None,
    }
}

/// The items of a list; none where the value isn't one.
pub fn items_in(value: &Value) -> &[Value]
    ensures { map view result.now ≡ items_in (view value.now) }
{
    match as_list(value) {
        Some(items) => items,
        None => &[],
    }
}

/// The items of the list at a key.
pub fn items_at<'v>(object: &'v Value, key: &str) -> &'v [Value]
    ensures { map view result.now ≡ items_at key.now (view object.now) }
{
    match field(object, key) {
        Some(value) => items_in(value),
        None => &[],
    }
}
