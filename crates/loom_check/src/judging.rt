//! The verdict on a plan, rule by rule.
ghost use Rattle.std.specs.Prelude.{◌≡◌, Ok, length, IfOk, IfErr};
ghost use Rattle.loom_rows.specs.Leftovers.{StandsFor};
ghost use Rattle.loom_rows.specs.RowLists.{AreConditionsOf};
ghost use Rattle.loom_active.specs.FoundSets.{AreLiveSets};
ghost use Rattle.loom_active.specs.LiveWork.{live_worked};
ghost use Rattle.loom_active.specs.RightPlan.{IsRight};
ghost use Rattle.loom_audit.specs.PinRule.{ArePinsApart};
ghost use Rattle.loom_audit.specs.RouteRule.{AreRouted};
ghost use Rattle.loom_audit.specs.Rows.{SetsRefer, WiresRefer};
ghost use Rattle.loom_audit.specs.SetWires.{AreMembers, HasSets};
ghost use Rattle.loom_audit.specs.Trees.{AreTrees};
ghost use Rattle.loom_check.specs.MetSets.{KnowsMetBefore};
ghost use Rattle.loom_check.specs.Stages.{FindsLiveSets, HasConditions, HasLiveSets, rows_worked};
ghost use Rattle.loom_check.specs.Verdict.{IsVerdict, StopsCheck};
ghost use Rattle.loom_check.specs.declared.verdict.Verdict.TheVariants.{Yes};

use crate::Verdict;
use crate::conditions::conditions_failure;
use crate::laws::passing_is_right;
use crate::live_lines::sets_failure;
use crate::met_sets::{members, sets_met};
use crate::pins::pins_failure;
use crate::tables::tables_failure;
use bumpalo::Bump;
use loom_active::{ActiveStop, LiveSet, live_sets};
use loom_audit::{costs_failure, layouts_failure, routes_failure, rows_failure, trees_failure};
use loom_base::{List, MAX_ROWS, NoMemory};
use loom_project::Project;
use loom_rows::{Cond, Meetings, Rows};
use loom_types::Plan;
use std::alloc::Global;
use std::collections::HashMap;

/// The verdict on a plan of which the first six rules hold: tables, costs, layouts.
fn judged_costs(
    alloc: Global,
    project: &Project,
    plan: &Plan,
    members: &[List<u32>],
) -> Result<Verdict, NoMemory>
    requires conditions { HasConditions project.now plan.now (length plan.now.wires) }
    requires sets { HasSets project.now plan.now }
    requires trees { AreTrees project.now plan.now }
    requires routed { AreRouted project.now plan.now }
    requires pins { ArePinsApart project.now plan.now }
    requires members { AreMembers plan.now members.now }
    ensures { IfOk result (IsVerdict project.now plan.now) }
{
    if let Some(place) = tables_failure(alloc, project, plan)? {
        return Ok(Verdict::No { rule: 7, place });
    }
    if let Some(place) = costs_failure(alloc, project, plan, members)? {
        return Ok(Verdict::No { rule: 8, place });
    }
    match layouts_failure(alloc, project, plan, members)? {
        Some(place) => Ok(Verdict::No { rule: 9, place }),
        None => Ok(Verdict::Yes),
    }
}

/// The verdict on a plan of which the first three rules hold: trees, routes and pins before these.
fn judged_wires<'a>(
    alloc: Global,
    project: &Project,
    plan: &Plan,
    meetings: &mut Meetings<'_, 'a>,
    conds: &[Cond<'a>],
    members: &[List<u32>],
) -> Result<Verdict, NoMemory>
    requires conditions { HasConditions project.now plan.now (length plan.now.wires) }
    requires sets { HasSets project.now plan.now }
    requires counted { length conds.now ≡ length plan.now.rows }
    requires conds { AreConditionsOf plan.now.rows meetings.old conds.now }
    requires members { AreMembers plan.now members.now }
    ensures { IfOk result (IsVerdict project.now plan.now) }
{
    if let Some(place) = trees_failure(alloc, project, plan, members)? {
        return Ok(Verdict::No { rule: 4, place });
    }
    if let Some(place) = routes_failure(project, plan)? {
        return Ok(Verdict::No { rule: 5, place });
    }
    if let Some(place) = pins_failure(alloc, project, plan, meetings, conds)? {
        return Ok(Verdict::No { rule: 6, place });
    }
    judged_costs(alloc, project, plan, members)
}

/// The sets of which each wire of a plan is one, by the wire's net and its condition's number.
fn met_in<'a>(
    alloc: Global,
    plan: &Plan,
    rows: &Rows<'a>,
    conds: &[Cond<'a>],
) -> Result<HashMap<(u32, u32), List<u32>>, NoMemory>
    requires sets { SetsRefer plan.now }
    requires wires { WiresRefer plan.now }
    requires counted { length conds.now ≡ length plan.now.rows }
    requires conds { AreConditionsOf plan.now.rows rows.now conds.now }
    ensures { IfOk result (λ met. KnowsMetBefore plan.now met (length plan.now.wires)) }
{
    let mut meetings = Meetings::new(rows);
    sets_met(alloc, plan, &mut meetings, conds)
}

/// The verdict on a plan whose sets are the live ones: conditions, and what comes after them.
fn judged_conditions<'a>(
    alloc: Global,
    project: &Project,
    plan: &Plan,
    rows: &mut Rows<'a>,
    conds: &[Cond<'a>],
) -> Result<Verdict, ActiveStop>
    requires sets { HasLiveSets project.now plan.now }
    requires counted { length conds.now ≡ length plan.now.rows }
    requires conds { AreConditionsOf plan.now.rows rows.old conds.now }
    requires limit { rows.old.limit ≡ 262144 }
    requires stands { StandsFor rows.old (rows_worked project.now plan.now) }
    ensures verdict { IfOk result (IsVerdict project.now plan.now) }
    ensures stop { IfErr result (StopsCheck project.now plan.now) }
{
    project.has_sound_topologies();
    let _sound = project.draft();
    let met = met_in(alloc, plan, rows, conds)?;
    if let Some(place) = conditions_failure(alloc, project, plan, rows, conds, &met)? {
        return Ok(Verdict::No { rule: 3, place });
    }
    let members = members(alloc, plan, &met)?;
    let mut meetings = Meetings::new(rows);
    let members = members.as_slice();
    let verdict = judged_wires(alloc, project, plan, &mut meetings, conds, members)?;
    Ok(verdict)
}

/// The verdict on a plan of a project whose live sets are found: rows and sets, and what comes
/// after them.
fn judged_rows<'a>(
    alloc: Global,
    project: &Project,
    plan: &Plan,
    rows: &mut Rows<'a>,
    live: &[LiveSet<'a>],
) -> Result<Verdict, ActiveStop>
    requires found { FindsLiveSets project.now }
    requires live { AreLiveSets project.now rows.old live.now }
    requires options { rows.old.options ≡ length project.now.options }
    requires limit { rows.old.limit ≡ 262144 }
    requires stands { StandsFor rows.old (live_worked project.now) }
    ensures verdict { IfOk result (IsVerdict project.now plan.now) }
    ensures stop { IfErr result (StopsCheck project.now plan.now) }
{
    if let Some(place) = rows_failure(alloc, project, plan)? {
        return Ok(Verdict::No { rule: 1, place });
    }
    let conds = rows.take_in(&plan.rows)?;
    let conds = conds.as_slice();
    if let Some(place) = sets_failure(project, plan, rows, conds, live)? {
        return Ok(Verdict::No { rule: 2, place });
    }
    judged_conditions(alloc, project, plan, rows, conds)
}

/// The verdict on any plan of a project, whoever made it: `Yes` exactly where all nine rules hold,
/// and such a plan is right; else the first rule that fails, and its first place.
///
/// There is no verdict where the search for live sets stops, or where more than 262,144 rows are
/// needed: for the live sets and the printed rows; or, wire by wire, for the disjunctions of the
/// conditions of the sets of the first wires as well, where all rules before these hold.
pub fn check(alloc: Global, project: &Project, plan: &Plan) -> Result<Verdict, ActiveStop>
    ensures verdict { IfOk result (IsVerdict project.now plan.now) }
    ensures stop { IfErr result (StopsCheck project.now plan.now) }
    ensures right { result ≡ Ok Yes → IsRight project.now plan.now }
{
    project.has_sound_topologies();
    let _sound = project.draft();
    passing_is_right();
    let arena = Bump::new(alloc);
    let options = project.options().count();
    let mut rows = Rows::new(alloc, &arena, options, MAX_ROWS as u32);
    let sets = live_sets(alloc, project, &mut rows)?;
    judged_rows(alloc, project, plan, &mut rows, sets.list.as_slice())
}
