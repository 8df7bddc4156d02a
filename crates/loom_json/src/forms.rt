//! Values that are read by forms: what a form gives, or the path of the first place that isn't of
//! it.
ghost use Rattle.std.specs.Prelude.{◌≡◌, ◌+◌, ◌^◌, ◌<◌, ℕ, List as Items, Result, IsErrOf, map, length, decimal, option_map};
ghost use Rattle.loom_json.specs.Forms.{Gives, under, required as required_of, keyed as keyed_at, at_key as key_at, at_optional as optional_at, at_index as index_at, each as each_at, list as list_at, items_in, name_form, number_form, is_text as is_text_of, is_tagged as is_tagged_by};
ghost use Rattle.loom_json.specs.Fields.{array_of};
ghost use Rattle.serde_json.specs.Data.{Data, number, string, unsigned};
ghost use Rattle.serde_json.specs.View.{view};

use crate::fields;
use crate::path::{Path, ShapeStop};
use crate::shown::{self, Shown};
use loom_base::{List, MAX_ELEMENTS, Name, NoMemory};
use serde_json::Value;
use std::alloc::Global;
use std::marker::PhantomData;

/// A form of JSON values.
pub trait Form {
    /// What a value of the form is read as.
    type Out: Drop;

    /// What a value is read as, or the path of the first place that isn't of its form.
    ghost reads: { Data → Result Self.Out (Items ℕ) };

    /// Reads a value by the form.
    fn read(alloc: Global, value: &Value) -> Result<Self::Out, ShapeStop>
        ensures { Gives result (reads (view value.now)) };
}

/// A reading of a part of a value: where it fails, its path goes through the part.
pub fn below<X: Drop>(
    alloc: Global,
    part: &str,
    reading: Result<X, ShapeStop>,
) -> Result<X, ShapeStop>
    ensures { (form : Result X (Items ℕ)) → Gives reading form
        → Gives result (under part.now form) }
{
    match reading {
        Err(ShapeStop::WrongShape { path }) => {
            let path = Path::below(alloc, part, &path)?;
            Err(ShapeStop::WrongShape { path })
        }
        other => other,
    }
}

/// What was found at a place; where it is None, the place isn't of its form. It takes no memory.
pub fn required<X: Drop>(alloc: Global, found: Option<X>) -> Result<X, ShapeStop>
    ensures gives { Gives result (required_of found) }
    ensures memory { ¬ IsErrOf result ShapeStop.NoMemory }
{
    match found {
        Some(value) => Ok(value),
        None => Err(ShapeStop::here(alloc)),
    }
}

/// Whether the value is an object that has no key outside `keys`. It takes no memory.
pub fn keyed(alloc: Global, value: &Value, keys: &[&str]) -> Result<(), ShapeStop>
    ensures gives { Gives result (keyed_at (map (λ key. key.now) keys.now) (view value.now)) }
    ensures memory { ¬ IsErrOf result ShapeStop.NoMemory }
{
    if fields::only(value, keys) {
        Ok(())
    } else {
        Err(ShapeStop::here(alloc))
    }
}

/// The object's member at a key, read by `F`.
pub fn at_key<F: Form>(alloc: Global, value: &Value, key: &str) -> Result<F::Out, ShapeStop>
    ensures { Gives result (key_at F.reads key.now (view value.now)) }
{
    let reading = match fields::member(value, key) {
        Some(found) => F::read(alloc, found),
        None => Err(ShapeStop::here(alloc)),
    };
    below(alloc, key, reading)
}

/// The object's member at a key that may be missing, read by `F`.
pub fn at_optional<F: Form>(
    alloc: Global,
    value: &Value,
    key: &str,
) -> Result<Option<F::Out>, ShapeStop>
    ensures { Gives result (optional_at F.reads key.now (view value.now)) }
{
    match fields::member(value, key) {
        Some(found) => Ok(Some(below(alloc, key, F::read(alloc, found))?)),
        None => Ok(None),
    }
}

/// The element at a position, read by `F`.
pub fn at_index<F: Form>(
    alloc: Global,
    elements: &[Value],
    position: usize,
) -> Result<F::Out, ShapeStop>
    ensures { Gives result (index_at F.reads position (map view elements.now)) }
{
    let reading = match elements.get(position) {
        Some(found) => F::read(alloc, found),
        None => Err(ShapeStop::here(alloc)),
    };
    below_position(alloc, position, reading)
}

/// `below` a position.
pub fn below_position<X: Drop>(
    alloc: Global,
    position: usize,
    reading: Result<X, ShapeStop>,
) -> Result<X, ShapeStop>
    ensures { (form : Result X (Items ℕ)) → Gives reading form
        → Gives result (under (decimal position) form) }
{
    match reading {
        Ok(value) => Ok(value),
        Err(stop) => {
            let part = format!(in alloc; "{position}")?;
            below(alloc, part.as_str(), Err(stop))
        }
    }
}

/// The elements, each read by `F`; the first of them stands at the position `first`.
pub fn each<F: Form>(
    alloc: Global,
    first: usize,
    elements: &[Value],
) -> Result<List<F::Out>, ShapeStop>
    requires { first + length elements.now < 2 ^ 64 }
    ensures { Gives result (each_at F.reads first (map view elements.now)) }
{
    let mut found = Vec::new(alloc);
    for (place, element) in elements.iter().enumerate() {
        let reading = F::read(alloc, element);
        found.push(below_position(alloc, first + place, reading)?)?;
    }
    Ok(List::from_vec(found))
}

/// The elements of an array of at most 4,294,967,293 elements; None where the value is none.
pub fn items(value: &Value) -> Option<&[Value]>
    ensures { option_map (λ found. map view found.now) result ≡ items_in (view value.now) }
{
    fields::elements(value).filter(|elements| elements.len() as u64 <= MAX_ELEMENTS)
}

/// The array's elements, each read by `F`.
pub fn list<F: Form>(alloc: Global, value: &Value) -> Result<List<F::Out>, ShapeStop>
    ensures { Gives result (list_at F.reads (view value.now)) }
{
    match items(value) {
        Some(elements) => each::<F>(alloc, 0, elements),
        None => Err(ShapeStop::here(alloc)),
    }
}

/// Whether there are `count` elements, the first of them the string `tag`.
pub fn is_tagged(elements: &[Value], tag: &str, count: usize) -> bool
    ensures { result ≡ is_tagged_by tag.now count (map view elements.now) }
{
    elements.len() == count && elements.first().is_some_and(|first| is_text(first, tag))
}

/// Whether the value is the string `text`.
fn is_text(value: &Value, text: &str) -> bool
    ensures { result ≡ is_text_of text.now (view value.now) }
{
    value.as_str().is_some_and(|found| found == text)
}

/// An array of things of the form `F`.
pub struct ListForm<F> {
    of: PhantomData<F>,
}

impl<F: Form> Form for ListForm<F> {
    type Out = List<F::Out>;

    ghost reads = { list_at F.reads };

    fn read(alloc: Global, value: &Value) -> Result<List<F::Out>, ShapeStop> {
        list::<F>(alloc, value)
    }
}

impl<S: Shown> Shown for ListForm<S> {
    type Of = List<S::Of>;

    ghost shows = { λ things. array_of (map S.shows things) };

    fn value(alloc: Global, things: &List<S::Of>) -> Result<Value, NoMemory> {
        shown::array::<S>(alloc, things.as_slice())
    }
}

/// A name.
pub struct NameForm;

impl Form for NameForm {
    type Out = Name;

    ghost reads = { name_form };

    fn read(alloc: Global, value: &Value) -> Result<Name, ShapeStop> {
        required(alloc, fields::name(value))
    }
}

impl Shown for NameForm {
    type Of = Name;

    ghost shows = { string };

    fn value(alloc: Global, name: &Name) -> Result<Value, NoMemory> {
        shown::name(alloc, name)
    }
}

/// A whole number from `LOW` to `HIGH`.
pub struct NumberForm<const LOW: u64, const HIGH: u64>;

impl<const LOW: u64, const HIGH: u64> Form for NumberForm<LOW, HIGH> {
    type Out = u64;

    ghost reads = { number_form LOW HIGH };

    fn read(alloc: Global, value: &Value) -> Result<u64, ShapeStop> {
        required(alloc, fields::number(value, LOW, HIGH))
    }
}

impl<const LOW: u64, const HIGH: u64> Shown for NumberForm<LOW, HIGH> {
    type Of = u64;

    ghost shows = { λ n. number (unsigned n) };

    fn value(_alloc: Global, number: &u64) -> Result<Value, NoMemory> {
        Ok(Value::from(*number))
    }
}
