//! Whether the costs that a plan states of a set are one number.
ghost use Rattle.std.specs.Prelude.{◌<◌, ◌↔◌, length, IfOk, IfSome, IfNone, IsTrue};
ghost use Rattle.loom_project.specs.Project.{cavities_of};
ghost use Rattle.loom_types.specs.SetMask.{IsSet};
ghost use Rattle.loom_audit.specs.FirstFailure.{IsFirstWithout};
ghost use Rattle.loom_audit.specs.SetWires.{AreWiresOf, AreMembers, HasSets, wires_at};
ghost use Rattle.loom_audit.specs.RouteRule.{AreRouted};
ghost use Rattle.loom_audit.specs.TablePlaces.{FindsTables};
ghost use Rattle.loom_audit.specs.TableRule.{HasTables};
ghost use Rattle.loom_audit.specs.CostRule.{DoCostsAgree, AreCostsEqual, CostsFailAt};

use crate::set_tables::{is_cell, table_places};
use crate::wires_cost::wires_cost;
use crate::{PlanPart, Spot};
use loom_base::{List, NoMemory};
use loom_project::Project;
use loom_types::{Plan, SetLine};
use std::alloc::Global;
use std::collections::HashMap;

/// Whether the cost of a set's wires, its printed cost and the cell of its net's table are one
/// number. `places` has where each net's table stands.
fn do_costs_agree(
    alloc: Global,
    project: &Project,
    plan: &Plan,
    places: &HashMap<u32, usize>,
    set: &SetLine,
    positions: &[u32],
) -> Result<bool, NoMemory>
    requires net { set.now.net.0 < length project.now.nets }
    requires set { IsSet (cavities_of project.now set.now.net.0) set.now.mask }
    requires routed { AreRouted project.now plan.now }
    requires tables { HasTables project.now plan.now }
    requires places { FindsTables plan.now.tables places.now }
    requires its { AreWiresOf plan.now set.now (wires_at plan.now positions.now) }
    ensures { IfOk result (λ yes. IsTrue yes ↔ DoCostsAgree project.now plan.now set.now) }
{
    if !is_cell(project, plan, places, set) {
        return Ok(false);
    }
    let cost = wires_cost(alloc, project.topology(), plan, positions)?;
    Ok(cost == u128::from(set.cost))
}

/// The first set of a plan whose costs aren't one number.
fn first_other_cost(
    alloc: Global,
    project: &Project,
    plan: &Plan,
    members: &[List<u32>],
) -> Result<Option<usize>, NoMemory>
    requires sets { HasSets project.now plan.now }
    requires members { AreMembers plan.now members.now }
    requires routed { AreRouted project.now plan.now }
    requires tables { HasTables project.now plan.now }
    ensures holds { IfOk result (λ found. IfNone found (AreCostsEqual project.now plan.now)) }
    ensures fails { IfOk result (λ found. IfSome found
        (IsFirstWithout (λ i set. DoCostsAgree project.now plan.now set) plan.now.sets)) }
{
    let places = table_places(alloc, plan.tables.as_slice())?;
    for (at, set) in plan.sets.as_slice().iter().enumerate() {
        let positions = members[at].as_slice();
        if !do_costs_agree(alloc, project, plan, &places, set, positions)? {
            return Ok(Some(at));
        }
    }
    Ok(None)
}

/// The first set of a plan of which the cost of its wires, its printed cost and the cell of its
/// net's table aren't one number; None exactly where there is none. `members` has the positions of
/// each set's wires.
pub fn costs_failure(
    alloc: Global,
    project: &Project,
    plan: &Plan,
    members: &[List<u32>],
) -> Result<Option<Spot>, NoMemory>
    requires sets { HasSets project.now plan.now }
    requires members { AreMembers plan.now members.now }
    requires routed { AreRouted project.now plan.now }
    requires tables { HasTables project.now plan.now }
    ensures holds { IfOk result (λ found. IfNone found (AreCostsEqual project.now plan.now)) }
    ensures fails { IfOk result (λ found. IfSome found (CostsFailAt project.now plan.now)) }
{
    let Some(at) = first_other_cost(alloc, project, plan, members)? else {
        return Ok(None);
    };
    Ok(Some(Spot::line(PlanPart::Sets, at)?))
}
