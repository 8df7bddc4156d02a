//! The wires of the layouts.
ghost use Rattle.std.specs.Prelude.{◌≡◌, ◌<◌, ◌≤◌, length, map, IfOk, IfErr, OnOk};
ghost use Rattle.std.specs.List.{All};
ghost use Rattle.loom_topology.specs.Legal.{chosen};
ghost use Rattle.loom_types.specs.Routes.{IsEndInRange};
ghost use Rattle.loom_project.specs.Project.{topology_of};
ghost use Rattle.loom_plan.specs.FirstStop.{FirstStop};
ghost use Rattle.loom_plan.specs.Stages.{HasLaid, HasPinned, HasCut, wired_of, cavity_no};

use crate::stops::{TOO_MANY_ROWS, TOO_MANY_WIRES, or_stop};
use loom_base::{CavityNo, List, NoMemory};
use loom_laid::Laid;
use loom_project::Project;
use loom_rows::Rows;
use loom_types::{PinLine, PlanStop, layout_wires_are_routed};
use loom_wires::{CutWire, LaidSet, WireStop, cut};
use std::alloc::Global;

/// The cavities whose bits stand in a mask, the first one's bit lowest.
fn chosen(alloc: Global, cavities: &[CavityNo], mask: u32) -> Result<List<CavityNo>, NoMemory>
    ensures { IfOk result (λ some. some
        ≡ map cavity_no (chosen (map (λ c. c.0) cavities.now) mask)) }
{
    let mut some = List::new(alloc);
    let mut rest = mask;
    for cavity in cavities {
        if rest % 2 == 1 {
            some.push(*cavity)?;
        }
        rest /= 2;
    }
    Ok(some)
}

/// A live set as it is cut into wires.
fn wire_set<'a>(
    alloc: Global,
    project: &Project,
    set: &loom_laid::LaidSet<'a>,
) -> Result<LaidSet<'a>, NoMemory>
    requires { set.now.net.0 < length project.now.nets }
    ensures { IfOk result (λ wired. wired ≡ wired_of project.now set.now) }
{
    Ok(LaidSet {
        net: set.net,
        mask: set.mask,
        cond: set.cond,
        cavities: chosen(alloc, project.cavities(set.net), set.mask)?,
        layout: set.layout.copy(alloc)?,
    })
}

/// The live sets as they are cut into wires.
fn wire_sets<'a>(
    alloc: Global,
    project: &Project,
    sets: &[loom_laid::LaidSet<'a>],
) -> Result<List<LaidSet<'a>>, NoMemory>
    requires { All (λ set. set.net.0 < length project.now.nets) sets.now }
    ensures { IfOk result (λ wired. wired ≡ map (wired_of project.now) sets.now) }
{
    let mut wired = List::new(alloc);
    for set in sets {
        wired.push(wire_set(alloc, project, set)?)?;
    }
    Ok(wired)
}

/// The wires of the layouts, each with the condition under which it is live.
pub(crate) fn cut_sets<'a>(
    alloc: Global,
    project: &Project,
    rows: &mut Rows<'a>,
    laid: &Laid<'a>,
    lines: &[PinLine],
) -> Result<List<CutWire<'a>>, PlanStop>
    requires laid { HasLaid project.now rows.old laid.now }
    requires pinned { HasPinned project.now rows.old laid.now.sets lines.now }
    ensures cut { IfOk result (HasCut project.now rows.new laid.now.sets lines.now) }
    ensures laid { OnOk result (HasLaid project.now rows.new laid.now) }
    ensures options { OnOk result (rows.new.options ≡ rows.old.options) }
    ensures ends { IfOk result (λ wires.
        All (λ w. IsEndInRange (topology_of project.now) w.from) wires) }
    ensures stop { IfErr result (FirstStop project.now) }
{
    project.has_sound_topologies();
    layout_wires_are_routed();
    let _sound = project.draft();
    let sets = or_stop(wire_sets(alloc, project, laid.sets.as_slice()))?;
    match cut(alloc, project.topology(), rows, sets.as_slice(), lines) {
        Ok(wires) => Ok(wires),
        Err(WireStop::TooManyWires) => Err(TOO_MANY_WIRES),
        Err(WireStop::TooManyRows) => Err(TOO_MANY_ROWS),
        Err(WireStop::NoMemory) => Err(PlanStop::NoMemory),
    }
}
