//! What is printed of what became of edits.
ghost use Rattle.std.specs.Prelude.{◌≡◌, false, IfOk};
ghost use Rattle.serde_json.specs.View.{view};
ghost use Rattle.serde_json.specs.Written.{has_float};
ghost use Rattle.loom_answer.specs.Outcomes.{unknown_rule_shown, edit_fault_shown, priced_shown, kind_alone_shown, outcome_shown};

use crate::fault_answer::{fault_value, name_fault, of_kind, segment_fault};
use crate::values::whole;
use crate::{Outcome, stop_value};
use loom_base::NoMemory;
use loom_edits::EditFault;
use loom_json::shown::{Shown, with};
use serde_json::{Map, Value};
use std::alloc::Global;

/// The object of a rule that isn't there.
fn unknown_rule(alloc: Global, number: u64) -> Result<Value, NoMemory>
    ensures { IfOk result (λ value. view value ≡ unknown_rule_shown number) }
{
    let members = of_kind(alloc, "UnknownRule")?;
    let members = with(alloc, members, "number", whole(number))?;
    Ok(Value::Object(members))
}

/// The object of an edit's fault.
fn edit_fault_value(alloc: Global, fault: &EditFault) -> Result<Value, NoMemory>
    ensures { IfOk result (λ value. view value ≡ edit_fault_shown fault.now) }
{
    match fault {
        EditFault::UnknownName { of, name } => name_fault(alloc, "UnknownName", *of, name),
        EditFault::UnknownRule { number } => unknown_rule(alloc, *number),
        EditFault::WrongKind { segment } => segment_fault(alloc, "WrongKind", segment),
        EditFault::InUse { of, name } => name_fault(alloc, "InUse", *of, name),
        EditFault::Project(fault) => fault_value(alloc, fault),
        EditFault::NoMemory => Ok(Value::Null),
    }
}

/// The object of a plan's cost and number of wires.
fn priced(alloc: Global, cost: u64, wires: u32) -> Result<Value, NoMemory>
    ensures { IfOk result (λ value. view value ≡ priced_shown cost wires) }
{
    let members = with(alloc, Map::new(alloc), "cost", whole(cost))?;
    let members = with(alloc, members, "wires", whole(u64::from(wires)))?;
    Ok(Value::Object(members))
}

/// The object that has its kind alone.
fn kind_alone(alloc: Global, kind: &str) -> Result<Value, NoMemory>
    ensures { IfOk result (λ value. view value ≡ kind_alone_shown kind.now) }
{
    let members = of_kind(alloc, kind)?;
    Ok(Value::Object(members))
}

/// Shows an outcome.
pub(crate) struct OutcomeShown;

impl Shown for OutcomeShown {
    type Of = Outcome;

    ghost shows = { outcome_shown };

    fn value(alloc: Global, outcome: &Outcome) -> Result<Value, NoMemory> {
        match outcome {
            Outcome::Applied => Ok(Value::Null),
            Outcome::Priced { cost, wires } => priced(alloc, *cost, *wires),
            Outcome::Fault(fault) => edit_fault_value(alloc, fault),
            Outcome::Stop(stop) => stop_value(alloc, stop),
            Outcome::NothingToUndo => kind_alone(alloc, "NothingToUndo"),
            Outcome::NothingToRedo => kind_alone(alloc, "NothingToRedo"),
        }
    }
}

/// The object that tells why an edit is refused: the fault's `kind` and what the fault says, each
/// thing by its name (`edit_fault_shown`). A fault that is or holds want of memory has no object,
/// and is null. No number is a float. The one error is want of memory.
#[tactic(auto, using(crate::proofs::OutcomesWithoutFloats::plain_edit_fault))]
pub fn edit_fault(alloc: Global, fault: &EditFault) -> Result<Value, NoMemory>
    ensures value { IfOk result (λ value. view value ≡ edit_fault_shown fault.now) }
    ensures plain { IfOk result (λ value. has_float (view value) ≡ false) }
{
    edit_fault_value(alloc, fault)
}

/// What is printed of an outcome (`outcome_shown`): null where the edit was applied, the cost and
/// the wires where they were asked for, else the object that tells why not. No number is a float.
/// The one error is want of memory.
pub fn object(alloc: Global, outcome: &Outcome) -> Result<Value, NoMemory>
    ensures value { IfOk result (λ value. view value ≡ outcome_shown outcome.now) }
    ensures plain { IfOk result (λ value. has_float (view value) ≡ false) }
{
    OutcomeShown::value(alloc, outcome)
}
