ghost use Rattle.std.specs.Prelude.{◌≡◌, map, option_map, string_bytes};
ghost use Rattle.std.specs.List.{list_all, list_any};
ghost use Rattle.std.specs.Map.{keys_of};
ghost use Rattle.std.specs.Str.{bytes_eq};
ghost use Rattle.loom_json.specs.Fields.{number_in, name_in, elements_of, has_only};
ghost use Rattle.serde_json.specs.Find.{get};
ghost use Rattle.serde_json.specs.View.{view};

use loom_base::Name;
use serde_json::{Map, Value};

/// The value's whole number from `low` to `high`; None where it is no such number (`number_in`).
pub fn number(value: &Value, low: u64, high: u64) -> Option<u64>
    ensures { result ≡ number_in low high (view value.now) }
{
    value
        .as_u64()
        .filter(|number| (low..=high).contains(number))
}

/// The name that the value's string is; None where it is no string or no name (`name_in`).
pub fn name(value: &Value) -> Option<Name>
    ensures { result ≡ name_in (view value.now) }
{
    Name::parse(value.as_str()?.as_bytes())
}

/// The object's value at a key; None where the value is no object or lacks the key.
pub fn member<'v>(value: &'v Value, key: &str) -> Option<&'v Value>
    ensures { option_map (λ found. view found.now) result ≡ get key.now (view value.now) }
{
    value.get(key)
}

/// The array's elements; None where the value is no array (`elements_of`).
#[tactic(auto, using(crate::proofs::Views::listed))]
pub fn elements(value: &Value) -> Option<&[Value]>
    ensures { option_map (λ found. map view found.now) result ≡ elements_of (view value.now) }
{
    value.as_array().map(|elements| elements.as_slice())
}

/// Whether the key is one of `keys`.
fn is_listed(key: &str, keys: &[&str]) -> bool
    ensures { result ≡ list_any (λ listed. bytes_eq listed.now key.now) keys.now }
{
    keys.iter().any(|listed| *listed == key)
}

/// Whether each member's key is one of `keys`.
fn are_listed(members: &Map<String, Value>, keys: &[&str]) -> bool
    ensures { result ≡ list_all
        (λ key. list_any (λ listed. bytes_eq listed.now (string_bytes key)) keys.now)
        (keys_of members.now.entries) }
{
    members.keys().all(|key| is_listed(key.as_str(), keys))
}

/// Whether the value is an object that has no key outside `keys` (`has_only`).
#[tactic(auto, using(crate::proofs::Views::listed))]
pub fn only(value: &Value, keys: &[&str]) -> bool
    ensures { result ≡ has_only (map (λ key. key.now) keys.now) (view value.now) }
{
    match value.as_object() {
        Some(members) => are_listed(members, keys),
        None => false,
    }
}
