//! What is printed of a verdict on a plan.
ghost use Rattle.std.specs.Prelude.{◌≡◌, false, IfOk};
ghost use Rattle.serde_json.specs.Data.{string};
ghost use Rattle.serde_json.specs.View.{view};
ghost use Rattle.serde_json.specs.Written.{has_float};
ghost use Rattle.loom_top.specs.Verdicts.{part_name, spot_shown, answer_shown, verdict_shown};

use loom_audit::{PlanPart, Spot};
use loom_base::NoMemory;
use loom_check::Verdict;
use loom_json::shown::{text, with};
use serde_json::{Map, Value};
use std::alloc::Global;

/// The string that names a part of a plan.
fn part_value(alloc: Global, part: PlanPart) -> Result<Value, NoMemory>
    ensures { IfOk result (λ value. view value ≡ string (part_name part)) }
{
    match part {
        PlanPart::Rows => text(alloc, "rows"),
        PlanPart::Sets => text(alloc, "sets"),
        PlanPart::Tables => text(alloc, "tables"),
        PlanPart::Pins => text(alloc, "pins"),
        PlanPart::Wires => text(alloc, "wires"),
        PlanPart::Modules => text(alloc, "modules"),
    }
}

/// The array of a place in a plan: its part and three numbers.
fn spot_value(alloc: Global, spot: Spot) -> Result<Value, NoMemory>
    ensures { IfOk result (λ value. view value ≡ spot_shown spot) }
{
    let part = part_value(alloc, spot.part)?;
    let mut values = Vec::with_capacity(alloc, 4)?;
    values.push(part)?;
    values.push(Value::from(spot.a))?;
    values.push(Value::from(spot.b))?;
    values.push(Value::from(spot.c))?;
    Ok(Value::Array(values))
}

/// The object of a verdict: yes, or no with the rule and the place.
fn answer_value(alloc: Global, verdict: Verdict) -> Result<Value, NoMemory>
    ensures { IfOk result (λ value. view value ≡ answer_shown verdict) }
{
    match verdict {
        Verdict::Yes => {
            let answer = text(alloc, "yes")?;
            Ok(Value::Object(with(alloc, Map::new(alloc), "answer", answer)?))
        }
        Verdict::No { rule, place } => {
            let answer = text(alloc, "no")?;
            let place = spot_value(alloc, place)?;
            let members = with(alloc, Map::new(alloc), "answer", answer)?;
            let members = with(alloc, members, "place", place)?;
            Ok(Value::Object(with(alloc, members, "rule", Value::from(rule))?))
        }
    }
}

/// The value of a verdict on a plan.
pub fn verdict_value(alloc: Global, verdict: Verdict) -> Result<Value, NoMemory>
    ensures value { IfOk result (λ value. view value ≡ verdict_shown verdict) }
    ensures plain { IfOk result (λ value. has_float (view value) ≡ false) }
{
    let answer = answer_value(alloc, verdict)?;
    let members = with(alloc, Map::new(alloc), "verdict", answer)?;
    let members = with(alloc, members, "version", Value::from(1u64))?;
    Ok(Value::Object(members))
}
