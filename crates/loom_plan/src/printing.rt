//! The printed plan.
ghost use Rattle.std.specs.Prelude.{◌≡◌, ◌<◌, ◌≤◌, ◌++◌, length, map, IfOk, OnOk};
ghost use Rattle.std.specs.List.{All};
ghost use Rattle.loom_rows.specs.Table.{Has};
ghost use Rattle.loom_types.specs.Routes.{IsEndInRange};
ghost use Rattle.loom_project.specs.Project.{topology_of};
ghost use Rattle.loom_plan.specs.Stages.{Prints, conditions_of, numbered, set_line, wire_line};

use loom_base::{List, NoMemory};
use loom_laid::{Laid, LaidSet};
use loom_project::Project;
use loom_rows::{Cond, Rows};
use loom_types::{PinLine, Plan, SetLine, Wire};
use loom_wires::{CutWire, modules};
use std::alloc::Global;

/// The conditions of the sets.
fn conditions_of_sets<'a>(alloc: Global, sets: &[LaidSet<'a>]) -> Result<List<Cond<'a>>, NoMemory>
    ensures { IfOk result (λ conds. conds ≡ map (λ set. set.cond) sets.now) }
{
    let mut conds = List::new(alloc);
    for set in sets {
        conds.push(set.cond)?;
    }
    Ok(conds)
}

/// The conditions that are printed: those of the sets, then those of the wires.
fn conditions<'a>(
    alloc: Global,
    sets: &[LaidSet<'a>],
    wires: &[CutWire<'a>],
) -> Result<List<Cond<'a>>, NoMemory>
    ensures { IfOk result (λ conds. conds ≡ conditions_of sets.now wires.now) }
{
    let mut conds = conditions_of_sets(alloc, sets)?;
    for wire in wires {
        conds.push(wire.cond)?;
    }
    Ok(conds)
}

/// The sets as they are printed, with the numbers of their conditions.
fn set_lines(
    alloc: Global,
    sets: List<LaidSet<'_>>,
    numbers: &[u32],
) -> Result<List<SetLine>, NoMemory>
    requires { length numbers.now ≡ length sets }
    ensures { IfOk result (λ lines. lines ≡ numbered set_line sets.entry numbers.now) }
{
    let mut lines = List::new(alloc);
    for set in sets.into_vec() {
        let row = numbers[lines.len()];
        let LaidSet {
            net,
            mask,
            cond: _,
            cost,
            layout,
        } = set;
        lines.push(SetLine {
            net,
            mask,
            cost,
            row,
            layout,
        })?;
    }
    Ok(lines)
}

/// The wires as they are printed, with the numbers of their conditions.
fn wire_lines(
    alloc: Global,
    wires: List<CutWire<'_>>,
    numbers: &[u32],
) -> Result<List<Wire>, NoMemory>
    requires { length numbers.now ≡ length wires }
    ensures { IfOk result (λ lines. lines ≡ numbered wire_line wires.entry numbers.now) }
{
    let mut lines = List::new(alloc);
    for wire in wires.into_vec() {
        let row = numbers[lines.len()];
        let CutWire {
            net,
            from,
            to,
            route,
            length,
            cond: _,
        } = wire;
        lines.push(Wire {
            net,
            from,
            to,
            route,
            length,
            row,
        })?;
    }
    Ok(lines)
}

/// The plan of these sets, pins and wires. Conditions are walked in order: those of the sets, then
/// those of the wires.
pub(crate) fn printed<'a>(
    alloc: Global,
    project: &Project,
    rows: &Rows<'a>,
    laid: Laid<'a>,
    lines: List<PinLine>,
    wires: List<CutWire<'a>>,
) -> Result<Plan, NoMemory>
    requires sets { All (λ set. Has rows.now set.cond) laid.sets }
    requires wires { All (λ w. Has rows.now w.cond) wires }
    requires ends { All (λ w. IsEndInRange (topology_of project.now) w.from) wires }
    ensures { IfOk result (Prints project.now rows.now.options laid.entry lines wires.entry) }
{
    let conds = conditions(alloc, laid.sets.as_slice(), wires.as_slice())?;
    let (rows, numbers) = rows.list(conds.as_slice())?;
    let Laid { sets, tables } = laid;
    let (of_sets, of_wires) = numbers.as_slice().split_at(sets.len());
    let sets = set_lines(alloc, sets, of_sets)?;
    let wires = wire_lines(alloc, wires, of_wires)?;
    let modules = modules(alloc, project.topology(), wires.as_slice())?;
    Ok(Plan {
        rows,
        sets,
        tables,
        pins: lines,
        wires,
        modules,
    })
}
