ghost use Rattle.std.specs.Prelude.{ℕ, ◌≡◌, ◌+◌, ◌<◌, length, IfOk, IfSome, IfNone};
ghost use Rattle.loom_rows.specs.RowLists.{IsReduced, AreOptionsBelow};
ghost use Rattle.loom_audit.specs.FirstFailure.{Each, IsFirstWithout};
ghost use Rattle.loom_audit.specs.Rows.{IsReference, SetsRefer, WiresRefer, ModulesRefer, AreRowsSound, RowsFailAt};

use crate::{PlanPart, Spot};
use loom_base::NoMemory;
use loom_project::Project;
use loom_rows::first_unreduced;
use loom_types::{Module, Plan, SetLine, Wire};
use std::alloc::Global;

/// The first set whose number refers to no condition of a list of so many rows.
fn stray_set(rows: u32, sets: &[SetLine]) -> Option<usize>
    ensures none { IfNone result (Each (λ i set. set.row < rows + 2) sets.now) }
    ensures first { IfSome result (IsFirstWithout (λ i set. set.row < rows + 2) sets.now) }
{
    for (at, set) in sets.iter().enumerate() {
        if u64::from(set.row) >= u64::from(rows) + 2 {
            return Some(at);
        }
    }
    None
}

/// The first wire whose number refers to no condition of a list of so many rows.
fn stray_wire(rows: u32, wires: &[Wire]) -> Option<usize>
    ensures none { IfNone result (Each (λ i w. w.row < rows + 2) wires.now) }
    ensures first { IfSome result (IsFirstWithout (λ i w. w.row < rows + 2) wires.now) }
{
    for (at, wire) in wires.iter().enumerate() {
        if u64::from(wire.row) >= u64::from(rows) + 2 {
            return Some(at);
        }
    }
    None
}

/// The first module whose number refers to no condition of a list of so many rows.
fn stray_module(rows: u32, modules: &[Module]) -> Option<usize>
    ensures none { IfNone result (Each (λ i m. m.row < rows + 2) modules.now) }
    ensures first { IfSome result (IsFirstWithout (λ i m. m.row < rows + 2) modules.now) }
{
    for (at, module) in modules.iter().enumerate() {
        if u64::from(module.row) >= u64::from(rows) + 2 {
            return Some(at);
        }
    }
    None
}

/// The first row of a plan that isn't a decision row over the project's options, or the first
/// number of a set, a wire or a module that refers to no condition; None exactly where there is
/// none. The rows may be taken in then.
pub fn rows_failure(alloc: Global, project: &Project, plan: &Plan) -> Result<Option<Spot>, NoMemory>
    ensures holds { IfOk result (λ found. IfNone found (AreRowsSound project.now plan.now)) }
    ensures fails { IfOk result (λ found. IfSome found (RowsFailAt project.now plan.now)) }
    ensures reduced { IfOk result (λ found. IfNone found (IsReduced plan.now.rows
        × AreOptionsBelow (length project.now.options) plan.now.rows)) }
{
    let options = project.options().count();
    if let Some(number) = first_unreduced(alloc, options, &plan.rows)? {
        return Ok(Some(Spot::line(PlanPart::Rows, number as usize)?));
    }
    let rows = plan.rows.count();
    if let Some(at) = stray_set(rows, plan.sets.as_slice()) {
        return Ok(Some(Spot::line(PlanPart::Sets, at)?));
    }
    if let Some(at) = stray_wire(rows, plan.wires.as_slice()) {
        return Ok(Some(Spot::line(PlanPart::Wires, at)?));
    }
    if let Some(at) = stray_module(rows, plan.modules.as_slice()) {
        return Ok(Some(Spot::line(PlanPart::Modules, at)?));
    }
    Ok(None)
}
