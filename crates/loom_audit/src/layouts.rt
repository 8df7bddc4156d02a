ghost use Rattle.std.specs.Prelude.{IfOk, IfSome, IfNone};
ghost use Rattle.loom_audit.specs.SetWires.{AreMembers, HasSets};
ghost use Rattle.loom_audit.specs.RouteRule.{AreRouted};
ghost use Rattle.loom_audit.specs.LayoutRule.{AreLayoutsTrue, LayoutsFailAt};

use crate::cut_sets::first_other_wires;
use crate::laid::first_not_laid;
use crate::module_lines::first_other_module;
use crate::pin_lines::first_other_pin;
use crate::rising::first_out_of_order;
use crate::{PlanPart, Spot};
use loom_base::{List, NoMemory};
use loom_project::Project;
use loom_types::Plan;
use std::alloc::Global;

/// The first failure of what a plan says of its layouts, in this order: the first set whose layout
/// is no wiring tree of its printed cost; the first line of the pins that isn't the next slot's; the
/// first wire that doesn't come after the one before it; the first set whose wires aren't those that
/// its layout gives with the printed pins; and the first module that isn't the wires' next one. None
/// exactly where there is none. `members` has the positions of each set's wires.
pub fn layouts_failure(
    alloc: Global,
    project: &Project,
    plan: &Plan,
    members: &[List<u32>],
) -> Result<Option<Spot>, NoMemory>
    requires sets { HasSets project.now plan.now }
    requires members { AreMembers plan.now members.now }
    requires routed { AreRouted project.now plan.now }
    ensures holds { IfOk result (λ found. IfNone found (AreLayoutsTrue project.now plan.now)) }
    ensures fails { IfOk result (λ found. IfSome found (LayoutsFailAt project.now plan.now)) }
{
    if let Some(at) = first_not_laid(alloc, project, plan)? {
        return Ok(Some(Spot::line(PlanPart::Sets, at)?));
    }
    if let Some(at) = first_other_pin(alloc, project, plan)? {
        return Ok(Some(Spot::line(PlanPart::Pins, at)?));
    }
    if let Some(at) = first_out_of_order(plan) {
        return Ok(Some(Spot::line(PlanPart::Wires, at)?));
    }
    if let Some(at) = first_other_wires(alloc, project, plan, members)? {
        return Ok(Some(Spot::line(PlanPart::Sets, at)?));
    }
    if let Some(at) = first_other_module(alloc, project, plan)? {
        return Ok(Some(Spot::line(PlanPart::Modules, at)?));
    }
    Ok(None)
}
