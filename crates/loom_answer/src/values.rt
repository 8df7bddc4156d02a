//! The leaves of what is printed.
ghost use Rattle.std.specs.Prelude.{◌≡◌, ◌++◌, ◌∷◌, [], map, take, IfOk};
ghost use Rattle.serde_json.specs.Data.{string};
ghost use Rattle.serde_json.specs.View.{view};
ghost use Rattle.loom_answer.specs.Values.{numbers as numbers_of, tagged as tagged_of, whole};

use loom_base::{Name, NoMemory};
use loom_json::shown::{self, Shown};
use serde_json::Value;
use std::alloc::Global;

/// A whole number.
pub(crate) fn whole(n: u64) -> Value
    ensures { view result ≡ whole n }
{
    Value::from(n)
}

/// Shows a name.
pub(crate) struct NameShown;

impl Shown for NameShown {
    type Of = Name;

    ghost shows = { string };

    fn value(alloc: Global, name: &Name) -> Result<Value, NoMemory> {
        shown::name(alloc, name)
    }
}

/// Shows a whole number of 32 bits.
pub(crate) struct WholeShown;

impl Shown for WholeShown {
    type Of = u32;

    ghost shows = { whole };

    fn value(_alloc: Global, n: &u32) -> Result<Value, NoMemory> {
        Ok(Value::from(*n))
    }
}

/// Shows a whole number of 16 bits.
pub(crate) struct ShortShown;

impl Shown for ShortShown {
    type Of = u16;

    ghost shows = { whole };

    fn value(_alloc: Global, n: &u16) -> Result<Value, NoMemory> {
        Ok(Value::from(*n))
    }
}

/// An array of whole numbers.
pub(crate) fn numbers(alloc: Global, ns: &[u64]) -> Result<Value, NoMemory>
    ensures { IfOk result (λ value. view value ≡ numbers_of ns.now) }
{
    let mut shown = Vec::with_capacity(alloc, ns.len())?;
    for n in ns {
        shown.push(Value::from(*n))?;
    }
    Ok(Value::Array(shown))
}

/// An array of a word and whole numbers.
pub(crate) fn tagged(alloc: Global, tag: &str, ns: &[u64]) -> Result<Value, NoMemory>
    ensures { IfOk result (λ value. view value ≡ tagged_of tag.now ns.now) }
{
    let mut shown = Vec::with_capacity(alloc, ns.len() + 1)?;
    shown.push(shown::text(alloc, tag)?)?;
    for n in ns {
        shown.push(Value::from(*n))?;
    }
    Ok(Value::Array(shown))
}
