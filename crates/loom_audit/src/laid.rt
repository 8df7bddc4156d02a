//! Whether the printed layouts are wiring trees of their printed costs.
ghost use Rattle.std.specs.Prelude.{◌≡◌, ◌<◌, ◌↔◌, length, IfOk, IfSome, IfNone, IsTrue};
ghost use Rattle.loom_types.specs.LayoutTree.{IsLaidOut, layout_cost};
ghost use Rattle.loom_types.specs.SetMask.{IsSet};
ghost use Rattle.loom_project.specs.Project.{net_topology, cavities_of};
ghost use Rattle.loom_audit.specs.FirstFailure.{IsFirstWithout};
ghost use Rattle.loom_audit.specs.LayoutRule.{IsLaidAtCost, AreLaidAtCost};
ghost use Rattle.loom_audit.specs.SetWires.{HasSets};

use crate::degrees::degrees;
use crate::layout_cost::cost;
use crate::layout_tree::{are_hung, are_two_each, places};
use crate::set_cavities::chosen;
use loom_base::NoMemory;
use loom_project::Project;
use loom_types::{Plan, SetLine, set_is_stem_and_rest};
use std::alloc::Global;

/// What a set's layout costs; None exactly where it isn't a wiring tree for the set's cavities, or a
/// lone thing ends at one of its points.
fn laid_cost(alloc: Global, project: &Project, set: &SetLine) -> Result<Option<u64>, NoMemory>
    requires net { set.now.net.0 < length project.now.nets }
    requires set { IsSet (cavities_of project.now set.now.net.0) set.now.mask }
    ensures laid { IfOk result (λ found. IfSome found (λ _.
        IsLaidOut (net_topology project.now set.now.net.0)
        (cavities_of project.now set.now.net.0) set.now.mask set.now.layout)) }
    ensures cost { IfOk result (λ found. IfSome found (λ cost. cost
        ≡ layout_cost (net_topology project.now set.now.net.0)
        (cavities_of project.now set.now.net.0) set.now.mask set.now.layout)) }
    ensures not { IfOk result (λ found. IfNone found
        (IsLaidOut (net_topology project.now set.now.net.0)
        (cavities_of project.now set.now.net.0) set.now.mask set.now.layout → ⊥)) }
{
    project.has_sound_topologies();
    set_is_stem_and_rest();
    let topology = project.topology();
    let some = chosen(alloc, project.cavities(set.net), set.mask)?;
    let cavities = some.as_slice();
    let start = topology.cavity_node(cavities[0]);
    let Some(places) = places(alloc, project, set.net, start, &set.layout)? else {
        return Ok(None);
    };
    if !are_hung(
        topology,
        &places,
        &cavities[1..],
        set.layout.hangs.as_slice(),
    ) {
        return Ok(None);
    }
    let degrees = degrees(alloc, &set.layout, places.len())?;
    if !are_two_each(&degrees) {
        return Ok(None);
    }
    Ok(Some(cost(topology, &set.layout, &places, &degrees)?))
}

/// Whether a set's layout is a wiring tree without a point of degree 1, of the printed cost.
fn is_laid_at_cost(alloc: Global, project: &Project, set: &SetLine) -> Result<bool, NoMemory>
    requires net { set.now.net.0 < length project.now.nets }
    requires set { IsSet (cavities_of project.now set.now.net.0) set.now.mask }
    ensures { IfOk result (λ yes. IsTrue yes ↔ IsLaidAtCost project.now set.now) }
{
    match laid_cost(alloc, project, set)? {
        Some(cost) => Ok(cost == set.cost),
        None => Ok(false),
    }
}

/// The first set of a plan whose layout isn't a wiring tree of its printed cost.
pub(crate) fn first_not_laid(
    alloc: Global,
    project: &Project,
    plan: &Plan,
) -> Result<Option<usize>, NoMemory>
    requires { HasSets project.now plan.now }
    ensures holds { IfOk result (λ found. IfNone found (AreLaidAtCost project.now plan.now)) }
    ensures fails { IfOk result (λ found. IfSome found
        (IsFirstWithout (λ i set. IsLaidAtCost project.now set) plan.now.sets)) }
{
    for (at, set) in plan.sets.as_slice().iter().enumerate() {
        if !is_laid_at_cost(alloc, project, set)? {
            return Ok(Some(at));
        }
    }
    Ok(None)
}
