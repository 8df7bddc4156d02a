//! What a plan costs.
ghost use Rattle.std.specs.Prelude.{◌≡◌, ◌≤◌, ◌<◌, ◌^◌, length, sum_by};
ghost use Rattle.loom_plan.specs.FirstStop.{HasPlan};
ghost use Rattle.loom_plan.specs.PlanOf.{IsPlanOf};
ghost use Rattle.loom_top.specs.Entries.{cost_of};

use loom_answer::Outcome;
use loom_project::Project;
use loom_types::{Plan, SetLine};

/// The sum of what sets cost.
fn cost_of_sets(sets: &[SetLine]) -> u64
    requires { sum_by (λ set. set.cost) sets.now < 2 ^ 64 }
    ensures { result ≡ sum_by (λ set. set.cost) sets.now }
{
    let mut cost = 0;
    for set in sets {
        cost += set.cost;
    }
    cost
}

/// The sum of what the sets of a project's plan cost.
pub fn cost_of_plan(project: &Project, plan: &Plan) -> u64
    requires planned { IsPlanOf project.now plan.now }
    requires has_plan { HasPlan project.now }
    ensures { result ≡ cost_of plan.now }
{
    cost_of_sets(plan.sets.as_slice())
}

/// The cost and the number of wires of a project's plan.
pub fn price_of(project: &Project, plan: &Plan) -> Outcome
    requires planned { IsPlanOf project.now plan.now }
    requires has_plan { HasPlan project.now }
    requires few_wires { length plan.now.wires ≤ 65536 }
    ensures { result ≡ Outcome.Priced (cost_of plan.now) (length plan.now.wires) }
{
    Outcome::Priced {
        cost: cost_of_plan(project, plan),
        wires: plan.wires.len() as u32,
    }
}
