//! The plan of a project.
ghost use Rattle.std.specs.Prelude.{◌≡◌, ◌≤◌, length, map, IfOk, IfErr, OnOk, OnErr};
ghost use Rattle.loom_active.specs.LiveWork.{live_worked};
ghost use Rattle.loom_active.specs.RightPlan.{IsRight};
ghost use Rattle.loom_laid.specs.LaidSets.{AreTables};
ghost use Rattle.loom_laid.specs.Kept.{AreTrueOf, HasLiveKeys, KeepsAll, KeepsLiveKeys, RisesByNewKeys};
ghost use Rattle.loom_plan.specs.FirstStop.{FirstStop, HasPlan};
ghost use Rattle.loom_plan.specs.PlanOf.{IsPlanOf};
ghost use Rattle.loom_plan.specs.Stages.{IsJob, HasLaid};

use crate::finding::{found_sets, laid_sets};
use crate::laws::plans_are_right;
use crate::pinning::{pinned, used_slots};
use crate::printing::printed;
use crate::stops::or_stop;
use crate::wiring::cut_sets;
use bumpalo::Bump;
use loom_base::{List, MAX_ROWS, NetNo, NoMemory};
use loom_laid::{Kept, Laid};
use loom_project::Project;
use loom_rows::Rows;
use loom_steiner::{DirectFiller, Filler};
use loom_types::{Plan, PlanStop, TableLine};
use std::alloc::Global;

/// The plan of live sets with their layouts: slots and pins, wires and modules, rows.
fn plan_of_laid<'a>(
    alloc: Global,
    project: &Project,
    rows: &mut Rows<'a>,
    laid: Laid<'a>,
) -> Result<Plan, PlanStop>
    requires job { IsJob project.now rows.old (live_worked project.now) }
    requires laid { HasLaid project.now rows.old laid }
    ensures plan { IfOk result (IsPlanOf project.now) }
    ensures right { IfOk result (IsRight project.now) }
    ensures few_wires { IfOk result (λ plan. length plan.wires ≤ 65536) }
    ensures has_plan { OnOk result (HasPlan project.now) }
    ensures tables { IfOk result (λ plan. plan.tables ≡ laid.entry.tables) }
    ensures stop { IfErr result (FirstStop project.now) }
{
    project.has_sound_topologies();
    plans_are_right();
    let _sound = project.draft();
    let used = used_slots(alloc, project, rows, &laid)?;
    let lines = pinned(alloc, project, rows, used.as_slice())?;
    let wires = cut_sets(alloc, project, rows, &laid, lines.as_slice())?;
    let plan = or_stop(printed(alloc, project, rows, laid, lines, wires))?;
    Ok(plan)
}

/// The nets of tables.
fn nets_of(alloc: Global, tables: &[TableLine]) -> Result<List<NetNo>, NoMemory>
    ensures { IfOk result (λ nets. nets ≡ map (λ line. line.net) tables.now) }
{
    let mut nets = List::new(alloc);
    for line in tables {
        nets.push(line.net)?;
    }
    Ok(nets)
}

/// Drops what isn't kept for a net of these tables.
fn keep_planned(
    alloc: Global,
    project: &Project,
    kept: &mut Kept,
    tables: &[TableLine],
) -> Result<(), NoMemory>
    requires tables { AreTables project.now tables.now }
    requires has_live { HasLiveKeys project.now kept.old }
    ensures keeps { OnOk result (KeepsLiveKeys project.now kept.new) }
    ensures kept { AreTrueOf project.now kept.old → AreTrueOf project.now kept.new }
    ensures refused { OnErr result (kept.new ≡ kept.old) }
{
    let nets = nets_of(alloc, tables)?;
    kept.keep_live(alloc, project, nets.as_slice())
}

/// The plan of a project, where tables and layouts that are kept serve again; or the first of the
/// stops, in their order: `NoChoice`, `Clash`, `Limit` of sets net by net, `Limit` of cells,
/// `Unreachable` of the first set in order, `Limit` of steps, `NoPin` of the first slot without a
/// pin, `Limit` of wires. `Limit` of rows stands where the worked condition stands that passes it.
///
/// What is kept has to be true of the project, and is so after every answer. After Ok exactly what
/// nets with a live set need is kept; after a stop all that was, and beside it only such. The
/// filler is asked exactly for what is kept now and wasn't before.
pub fn plan_kept<F: Filler>(
    alloc: Global,
    project: &Project,
    kept: &mut Kept,
    filler: &mut F,
) -> Result<Plan, PlanStop>
    requires kept { AreTrueOf project.now kept.old }
    ensures plan { IfOk result (IsPlanOf project.now) }
    ensures right { IfOk result (IsRight project.now) }
    ensures few_wires { IfOk result (λ plan. length plan.wires ≤ 65536) }
    ensures has_plan { OnOk result (HasPlan project.now) }
    ensures stop { IfErr result (FirstStop project.now) }
    ensures kept { AreTrueOf project.now kept.new }
    ensures keeps { OnOk result (KeepsLiveKeys project.now kept.new) }
    ensures keeps_all { OnErr result (KeepsAll project.now kept.old kept.new) }
    ensures built { RisesByNewKeys kept.old kept.new (F.count filler.old) (F.count filler.new) }
{
    // The count is read, so that its range is known.
    let _count = filler.built();
    let arena = Bump::new(alloc);
    let options = project.options().count();
    let mut rows = Rows::new(alloc, &arena, options, MAX_ROWS as u32);
    let sets = found_sets(alloc, project, &mut rows)?;
    let laid = laid_sets(alloc, project, sets.as_slice(), kept, filler)?;
    let plan = plan_of_laid(alloc, project, &mut rows, laid)?;
    or_stop(keep_planned(alloc, project, kept, plan.tables.as_slice()))?;
    Ok(plan)
}

/// The plan of a project, or the first of the stops, as `plan_kept` gives it where nothing is kept.
pub fn plan(alloc: Global, project: &Project) -> Result<Plan, PlanStop>
    ensures plan { IfOk result (IsPlanOf project.now) }
    ensures right { IfOk result (IsRight project.now) }
    ensures few_wires { IfOk result (λ plan. length plan.wires ≤ 65536) }
    ensures has_plan { OnOk result (HasPlan project.now) }
    ensures stop { IfErr result (FirstStop project.now) }
{
    let mut kept = Kept::new(alloc);
    let mut filler = DirectFiller::new();
    plan_kept(alloc, project, &mut kept, &mut filler)
}
