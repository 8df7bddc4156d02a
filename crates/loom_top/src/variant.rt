//! What is printed of the wires that one choice makes live.
ghost use Rattle.std.specs.Prelude.{◌≡◌, false, map, IfOk};
ghost use Rattle.serde_json.specs.View.{view};
ghost use Rattle.serde_json.specs.Written.{has_float};
ghost use Rattle.loom_json.specs.Fields.{array_of};
ghost use Rattle.loom_answer.specs.Values.{numbers as numbers_of};
ghost use Rattle.loom_top.specs.Variants.{wire_at_shown, variant_shown};

use loom_answer::wire_value;
use loom_base::NoMemory;
use loom_json::shown::with;
use loom_types::{Plan, Wire};
use serde_json::{Map, Value};
use std::alloc::Global;

/// The array of positions.
fn positions_value(alloc: Global, positions: &[u32]) -> Result<Value, NoMemory>
    ensures { IfOk result (λ value. view value ≡ numbers_of positions.now) }
{
    let mut values = Vec::with_capacity(alloc, positions.len())?;
    for position in positions {
        values.push(Value::from(*position))?;
    }
    Ok(Value::Array(values))
}

/// The value of the wire at a position; null where there is none.
fn wire_at(alloc: Global, wires: &[Wire], position: u32) -> Result<Value, NoMemory>
    ensures { IfOk result (λ value. view value ≡ wire_at_shown wires.now position) }
{
    match wires.get(position as usize) {
        Some(wire) => wire_value(alloc, wire),
        None => Ok(Value::Null),
    }
}

/// The array of the wires at positions.
fn wires_value(alloc: Global, wires: &[Wire], positions: &[u32]) -> Result<Value, NoMemory>
    ensures { IfOk result (λ value. view value
        ≡ array_of (map (wire_at_shown wires.now) positions.now)) }
{
    let mut values = Vec::with_capacity(alloc, positions.len())?;
    for position in positions {
        values.push(wire_at(alloc, wires, *position)?)?;
    }
    Ok(Value::Array(values))
}

/// The value of the wires of a plan at positions.
pub fn variant_value(alloc: Global, plan: &Plan, positions: &[u32]) -> Result<Value, NoMemory>
    ensures value { IfOk result (λ value. view value ≡ variant_shown plan.now positions.now) }
    ensures plain { IfOk result (λ value. has_float (view value) ≡ false) }
{
    let numbers = positions_value(alloc, positions)?;
    let wires = wires_value(alloc, plan.wires.as_slice(), positions)?;
    let variant = with(alloc, Map::new(alloc), "numbers", numbers)?;
    let variant = Value::Object(with(alloc, variant, "wires", wires)?);
    let members = with(alloc, Map::new(alloc), "variant", variant)?;
    let members = with(alloc, members, "version", Value::from(1u64))?;
    Ok(Value::Object(members))
}
