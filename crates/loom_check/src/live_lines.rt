//! Whether the printed sets are the live sets.
ghost use Rattle.std.specs.Prelude.{◌≡◌, ◌<◌, ◌+◌, ◌↔◌, length, map, IfOk, IfSome, IfNone, IsTrue};
ghost use Rattle.std.specs.List.{All};
ghost use Rattle.loom_rows.specs.RowLists.{AreConditionsOf};
ghost use Rattle.loom_rows.specs.Table.{Has};
ghost use Rattle.loom_active.specs.FoundSets.{AreLiveSets};
ghost use Rattle.loom_active.specs.LiveSets.{IsLiveUnder};
ghost use Rattle.loom_audit.specs.FirstFailure.{Agree, DifferFirst};
ghost use Rattle.loom_audit.specs.LiveLines.{IsPrintedSet, AreSetsLive, SetsFailAt};
ghost use Rattle.loom_audit.specs.Rows.{SetsRefer};
ghost use Rattle.loom_check.specs.LiveKeys.{key_of, HoldsWhereLive};

use crate::printed::condition;
use loom_active::LiveSet;
use loom_audit::{PlanPart, Spot};
use loom_base::NoMemory;
use loom_project::Project;
use loom_rows::{Cond, Rows};
use loom_types::{Plan, SetLine};

/// Whether a line prints a live set: its net, its mask, and a condition that holds exactly where the
/// set is live.
fn is_printed<'a>(
    project: &Project,
    plan: &Plan,
    rows: &Rows<'a>,
    conds: &[Cond<'a>],
    live: &LiveSet<'a>,
    set: &SetLine,
) -> bool
    requires has { Has rows.now live.now.cond }
    requires condition { HoldsWhereLive project.now live.now }
    requires refers { set.now.row < length plan.now.rows + 2 }
    requires counted { length conds.now ≡ length plan.now.rows }
    requires conds { AreConditionsOf plan.now.rows rows.now conds.now }
    ensures { IsTrue result ↔ IsPrintedSet project.now plan.now (key_of live.now) set.now }
{
    set.net == live.net && set.mask == live.mask && rows.same(live.cond, condition(conds, set.row))
}

/// The first position at which a plan's sets aren't the live ones.
fn first_other_set<'a>(
    project: &Project,
    plan: &Plan,
    rows: &Rows<'a>,
    conds: &[Cond<'a>],
    live: &[LiveSet<'a>],
) -> Option<usize>
    requires live { AreLiveSets project.now rows.now live.now }
    requires refer { SetsRefer plan.now }
    requires counted { length conds.now ≡ length plan.now.rows }
    requires conds { AreConditionsOf plan.now.rows rows.now conds.now }
    ensures holds { IfNone result
        (Agree (IsPrintedSet project.now plan.now) (map key_of live.now) plan.now.sets) }
    ensures fails { IfSome result
        (DifferFirst (IsPrintedSet project.now plan.now) (map key_of live.now) plan.now.sets) }
{
    let sets = plan.sets.as_slice();
    let both = live.len().min(sets.len());
    for at in 0..both {
        if !is_printed(project, plan, rows, conds, &live[at], &sets[at]) {
            return Some(at);
        }
    }
    if live.len() == sets.len() {
        None
    } else {
        Some(both)
    }
}

/// The first position at which a plan's sets aren't the live sets, each with its condition, or the
/// length of the shorter list; None exactly where they are.
pub(crate) fn sets_failure<'a>(
    project: &Project,
    plan: &Plan,
    rows: &Rows<'a>,
    conds: &[Cond<'a>],
    live: &[LiveSet<'a>],
) -> Result<Option<Spot>, NoMemory>
    requires live { AreLiveSets project.now rows.now live.now }
    requires refer { SetsRefer plan.now }
    requires counted { length conds.now ≡ length plan.now.rows }
    requires conds { AreConditionsOf plan.now.rows rows.now conds.now }
    ensures holds { IfOk result (λ found. IfNone found (AreSetsLive project.now plan.now)) }
    ensures fails { IfOk result (λ found. IfSome found (SetsFailAt project.now plan.now)) }
{
    match first_other_set(project, plan, rows, conds, live) {
        Some(at) => Ok(Some(Spot::line(PlanPart::Sets, at)?)),
        None => Ok(None),
    }
}
