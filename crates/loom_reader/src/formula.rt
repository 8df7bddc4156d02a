ghost use Rattle.std.specs.Prelude.{◌≡◌, map, drop, length, Some};
ghost use Rattle.std.specs.Result.{result_map_both};
ghost use Rattle.serde_json.specs.View.{view};
ghost use Rattle.loom_json.specs.Forms.{Gives, each};
ghost use Rattle.loom_formula.specs.Formula.{members_of};
ghost use Rattle.loom_reader.specs.Formula.{connective_in, may_have, heading_of, formula_form, compound_form};

use loom_base::MAX_ELEMENTS;
use loom_formula::{Formula, Members};
use loom_json::forms::{self, Form};
use loom_json::{ShapeStop, name};
use serde_json::Value;
use sqlite_items::Boxed;
use std::alloc::Global;

/// What an array of formulas says of its members.
#[derive(Clone, Copy, Debug)]
pub enum Connective {
    /// The only member doesn't hold.
    Negation,
    /// All members hold.
    Conjunction,
    /// Some member holds.
    Disjunction,
    /// Exactly one member holds.
    ExactlyOne,
}

impl Connective {
    /// Whether so many elements may be the word and its members.
    fn may_have(self, count: usize) -> bool
        ensures { result ≡ may_have self count }
    {
        match self {
            Connective::Negation => count == 2,
            Connective::Conjunction | Connective::Disjunction | Connective::ExactlyOne => {
                count as u64 <= MAX_ELEMENTS
            }
        }
    }
}

/// The connective that the value's string stands for.
fn read_connective(value: &Value) -> Option<Connective>
    ensures { result ≡ connective_in (view value.now) }
{
    match value.as_str()? {
        "not" => Some(Connective::Negation),
        "and" => Some(Connective::Conjunction),
        "or" => Some(Connective::Disjunction),
        "one" => Some(Connective::ExactlyOne),
        _ => None,
    }
}

/// The connective with which an array of a formula begins; None where the array is none.
fn heading(elements: &[Value]) -> Option<Connective>
    ensures value { result ≡ heading_of (map view elements.now) }
    ensures pair { result ≡ Some Connective.Negation → length elements.now ≡ 2 }
{
    let connective = read_connective(elements.first()?)?;
    if connective.may_have(elements.len()) {
        Some(connective)
    } else {
        None
    }
}

/// A formula.
pub struct FormulaForm;

impl Form for FormulaForm {
    type Out = Formula;

    ghost reads = { formula_form };

    fn read(alloc: Global, value: &Value) -> Result<Formula, ShapeStop> {
        read_formula(alloc, value)
    }
}

#[cycle(reading)]
fn read_formula(alloc: Global, value: &Value) -> Result<Formula, ShapeStop>
    ensures { Gives result (formula_form (view value.now)) }
{
    match value {
        Value::Bool(true) => Ok(Formula::Always),
        Value::Bool(false) => Ok(Formula::Never),
        Value::String(_) => Ok(Formula::Is(forms::required(alloc, name(value))?)),
        Value::Array(elements) => read_compound(alloc, elements),
        Value::Null | Value::Number(_) | Value::Object(_) => Err(ShapeStop::here(alloc)),
    }
}

/// The formula of an array's elements.
#[cycle(reading)]
#[tactic(auto, unfolding(crate::specs::Formula::compound_form))]
fn read_compound(alloc: Global, elements: &[Value]) -> Result<Formula, ShapeStop>
    ensures { Gives result (compound_form (map view elements.now)) }
{
    match heading(elements) {
        Some(Connective::Negation) => {
            let member = forms::below_position(alloc, 1, read_formula(alloc, &elements[1]))?;
            Ok(Formula::Not(Boxed::new(alloc, member)?))
        }
        Some(Connective::Conjunction) => Ok(Formula::And(read_members(alloc, elements)?)),
        Some(Connective::Disjunction) => Ok(Formula::Or(read_members(alloc, elements)?)),
        Some(Connective::ExactlyOne) => Ok(Formula::One(read_members(alloc, elements)?)),
        None => Err(ShapeStop::here(alloc)),
    }
}

/// The members of a formula, which are the elements behind the first.
#[cycle(reading)]
fn read_members(alloc: Global, elements: &[Value]) -> Result<Members, ShapeStop>
    ensures { Gives (result_map_both members_of (λ stop. stop) result)
        (each formula_form 1 (drop 1 (map view elements.now))) }
{
    let mut members = Members::new(alloc);
    for position in 1..elements.len() {
        let member = read_formula(alloc, &elements[position]);
        members.push(forms::below_position(alloc, position, member)?)?;
    }
    Ok(members)
}
