//! The live sets with their tables and layouts.
ghost use Rattle.std.specs.Prelude.{◌≡◌, ◌≤◌, [], length, IfOk, IfErr, OnOk};
ghost use Rattle.loom_laid.specs.LaidSets.{AreTheLiveSets, AreTables, AreLaid};
ghost use Rattle.loom_laid.specs.Kept.{AreTrueOf, KeepsAll, HasLiveKeys, RisesByNewKeys};
ghost use Rattle.loom_plan.specs.FirstStop.{FirstStop, FindsSets, LaysSets};
ghost use Rattle.loom_plan.specs.Stages.{HasFound};

use crate::stops::{stop_of_laying, stop_of_search};
use loom_active::{LiveSet, live_sets};
use loom_base::List;
use loom_laid::{Kept, Laid, lay_sets};
use loom_project::Project;
use loom_rows::Rows;
use loom_steiner::Filler;
use loom_types::PlanStop;
use std::alloc::Global;

/// The live sets of all nets.
pub(crate) fn found_sets<'a>(
    alloc: Global,
    project: &Project,
    rows: &mut Rows<'a>,
) -> Result<List<LiveSet<'a>>, PlanStop>
    requires options { rows.old.options ≡ length project.now.options }
    requires limit { rows.old.limit ≡ 262144 }
    requires empty { rows.old.rows ≡ [] }
    ensures found { IfOk result (HasFound project.now rows.new) }
    ensures stop { IfErr result (FirstStop project.now) }
{
    match live_sets(alloc, project, rows) {
        Ok(sets) => Ok(sets.list),
        Err(stop) => Err(stop_of_search(stop)),
    }
}

/// The live sets with their tables and layouts.
pub(crate) fn laid_sets<'a, F: Filler>(
    alloc: Global,
    project: &Project,
    sets: &[LiveSet<'a>],
    kept: &mut Kept,
    filler: &mut F,
) -> Result<Laid<'a>, PlanStop>
    requires found { FindsSets project.now }
    requires sets { AreTheLiveSets project.now sets.now }
    requires few { length sets.now ≤ 16384 }
    requires kept { AreTrueOf project.now kept.old }
    ensures lays { IfOk result (λ laid. LaysSets project.now laid.sets) }
    ensures tables { IfOk result (λ laid. AreTables project.now laid.tables) }
    ensures laid { IfOk result (λ laid. AreLaid project.now laid.tables sets.now laid.sets) }
    ensures stop { IfErr result (FirstStop project.now) }
    ensures kept { AreTrueOf project.now kept.new }
    ensures keeps { KeepsAll project.now kept.old kept.new }
    ensures has_live { OnOk result (HasLiveKeys project.now kept.new) }
    ensures built { RisesByNewKeys kept.old kept.new (F.count filler.old) (F.count filler.new) }
{
    match lay_sets(alloc, project, sets, kept, filler) {
        Ok(laid) => Ok(laid),
        Err(stop) => Err(stop_of_laying(stop)),
    }
}
