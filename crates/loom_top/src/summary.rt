//! What is printed of a trial's plan.
ghost use Rattle.std.specs.Prelude.{◌≡◌, ◌<◌, ◌^◌, false, length, sum_by, IfOk};
ghost use Rattle.serde_json.specs.View.{view};
ghost use Rattle.serde_json.specs.Written.{has_float};
ghost use Rattle.loom_plan.specs.FirstStop.{HasPlan};
ghost use Rattle.loom_plan.specs.PlanOf.{IsPlanOf};
ghost use Rattle.loom_top.specs.Trials.{steps_of, summary_shown};

use crate::price::cost_of_plan;
use loom_base::NoMemory;
use loom_json::shown::with;
use loom_project::Project;
use loom_types::{Plan, SetLine};
use serde_json::{Map, Value};
use std::alloc::Global;

/// The number of steps of the layouts of sets.
fn steps_of_sets(sets: &[SetLine]) -> u64
    requires { sum_by (λ set. length set.layout.steps) sets.now < 2 ^ 64 }
    ensures { result ≡ sum_by (λ set. length set.layout.steps) sets.now }
{
    let mut steps = 0;
    for set in sets {
        steps += set.layout.steps.len() as u64;
    }
    steps
}

/// The number of steps of the layouts of a project's plan.
fn steps_of_plan(project: &Project, plan: &Plan) -> u64
    requires planned { IsPlanOf project.now plan.now }
    requires has_plan { HasPlan project.now }
    ensures { result ≡ steps_of plan.now }
{
    project.has_sound_topologies();
    // The draft is read, so that its soundness is known.
    let _draft = project.draft();
    steps_of_sets(plan.sets.as_slice())
}

/// The object of the summary of a trial's plan.
fn summary_object(
    alloc: Global,
    trial: u32,
    project: &Project,
    plan: &Plan,
) -> Result<Value, NoMemory>
    requires planned { IsPlanOf project.now plan.now }
    requires has_plan { HasPlan project.now }
    ensures { IfOk result (λ value. view value ≡ summary_shown trial project.now plan.now) }
{
    let cost = Value::from(cost_of_plan(project, plan));
    let steps = Value::from(steps_of_plan(project, plan));
    let members = with(alloc, Map::new(alloc), "cost", cost)?;
    let members = with(
        alloc,
        members,
        "modules",
        Value::from(plan.modules.len() as u64),
    )?;
    let members = with(alloc, members, "nets", Value::from(project.net_count()))?;
    let members = with(alloc, members, "pins", Value::from(plan.pins.len() as u64))?;
    let members = with(alloc, members, "rows", Value::from(plan.rows.count()))?;
    let members = with(alloc, members, "sets", Value::from(plan.sets.len() as u64))?;
    let members = with(alloc, members, "steps", steps)?;
    let members = with(alloc, members, "trial", Value::from(trial))?;
    let members = with(alloc, members, "version", Value::from(1u64))?;
    let members = with(
        alloc,
        members,
        "wires",
        Value::from(plan.wires.len() as u64),
    )?;
    Ok(Value::Object(members))
}

/// The value of the summary of a trial's plan, where the project is the trial's.
#[tactic(auto, using(crate::proofs::SummaryFloats::summary_plain))]
pub fn summary_value(
    alloc: Global,
    trial: u32,
    project: &Project,
    plan: &Plan,
) -> Result<Value, NoMemory>
    requires planned { IsPlanOf project.now plan.now }
    requires has_plan { HasPlan project.now }
    ensures value { IfOk result (λ value. view value ≡ summary_shown trial project.now plan.now) }
    ensures plain { IfOk result (λ value. has_float (view value) ≡ false) }
{
    summary_object(alloc, trial, project, plan)
}
