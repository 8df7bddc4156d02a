//! Values that are built to be printed. Other leaves are `Value::Null` and `Value::from` of a
//! number or a truth value, an object is `Value::Object` of its members.
ghost use Rattle.std.specs.Prelude.{◌≡◌, map, IfOk};
ghost use Rattle.serde_json.specs.Data.{Data, string, put};
ghost use Rattle.serde_json.specs.View.{view, members_view};
ghost use Rattle.loom_json.specs.Fields.{array_of};

use loom_base::{Name, NoMemory};
use serde_json::{Map, Value};
use std::alloc::Global;

/// A way to show the things of a type as JSON.
pub trait Shown {
    /// The type of the things.
    type Of;

    /// What a thing is shown as.
    ghost shows: { Self.Of → Data };

    /// The JSON value of a thing.
    fn value(alloc: Global, thing: &Self::Of) -> Result<Value, NoMemory>
        ensures { IfOk result (λ value. view value ≡ shows thing.now) };
}

/// The array of the things, each shown by `S`.
pub fn array<S: Shown>(alloc: Global, things: &[S::Of]) -> Result<Value, NoMemory>
    ensures { IfOk result (λ value. view value ≡ array_of (map S.shows things.now)) }
{
    let mut shown = Vec::with_capacity(alloc, things.len())?;
    for thing in things {
        shown.push(S::value(alloc, thing)?)?;
    }
    Ok(Value::Array(shown))
}

/// An object's members with a value at a key; a value that was there is replaced.
pub fn with(
    alloc: Global,
    mut members: Map<String, Value>,
    key: &str,
    value: Value,
) -> Result<Map<String, Value>, NoMemory>
    ensures { IfOk result (λ made. members_view made.entries
        ≡ put key.now (view value) (members_view members.entries)) }
{
    serde_json::put(&mut members, alloc, key, value)?;
    Ok(members)
}

/// The string of a text.
pub fn text(alloc: Global, text: &str) -> Result<Value, NoMemory>
    ensures { IfOk result (λ value. view value ≡ string text.now) }
{
    Ok(Value::try_from_str(alloc, text)?)
}

/// The string of a name.
pub fn name(alloc: Global, name: &Name) -> Result<Value, NoMemory>
    ensures { IfOk result (λ value. view value ≡ string name.now) }
{
    text(alloc, name.as_str())
}
