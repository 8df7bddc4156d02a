//! Whether each wire has the condition under which its sets are live.
ghost use Rattle.std.specs.Prelude.{◌≡◌, ◌<◌, ◌+◌, ◌↔◌, length, map, IfOk, IfErr, IfSome, IfNone, IsTrue};
ghost use Rattle.std.specs.List.{All};
ghost use Rattle.loom_rows.specs.Disjunction.{any_worked};
ghost use Rattle.loom_rows.specs.Leftovers.{StandsFor, Works};
ghost use Rattle.loom_rows.specs.RowLists.{AreConditionsOf};
ghost use Rattle.loom_rows.specs.Taken.{cond_at};
ghost use Rattle.loom_audit.specs.Rows.{SetsRefer};
ghost use Rattle.loom_check.specs.ConditionAnswers.{ConditionsFailAt, StopsConditions};
ghost use Rattle.loom_check.specs.MetSets.{AreMet, KnowsMetBefore};
ghost use Rattle.loom_check.specs.Stages.{HasConditions, HasLiveSets, conditions_of, rows_worked};
ghost use Rattle.loom_check.specs.WireConditions.{HoldsWithSets, sets_at};

use crate::printed::condition;
use loom_audit::{PlanPart, Spot};
use loom_base::{List, NoMemory};
use loom_project::Project;
use loom_rows::{Cond, Rows, RowsStop};
use loom_types::{Plan, Wire};
use std::alloc::Global;
use std::collections::HashMap;

/// The conditions of the sets at these positions.
fn conditions_at<'a>(
    alloc: Global,
    plan: &Plan,
    conds: &[Cond<'a>],
    positions: &[u32],
) -> Result<List<Cond<'a>>, NoMemory>
    requires refer { SetsRefer plan.now }
    requires counted { length conds.now ≡ length plan.now.rows }
    requires within { All (λ at. at < length plan.now.sets) positions.now }
    ensures { IfOk result (λ listed.
        listed ≡ map (λ set. cond_at conds.now set.row) (sets_at plan.now positions.now)) }
{
    let mut listed = List::new(alloc);
    for at in positions {
        let set = &plan.sets.as_slice()[*at as usize];
        listed.push(condition(conds, set.row))?;
    }
    Ok(listed)
}

/// Whether a wire's condition is the disjunction of those of its sets, which stand at these
/// positions; a wire without sets has none. The disjunctions are worked out set by set.
fn is_where_sets_are<'a>(
    alloc: Global,
    plan: &Plan,
    rows: &mut Rows<'a>,
    conds: &[Cond<'a>],
    wire: &Wire,
    positions: &[u32],
) -> Result<bool, RowsStop>
    requires sets { SetsRefer plan.now }
    requires row { wire.now.row < length plan.now.rows + 2 }
    requires counted { length conds.now ≡ length plan.now.rows }
    requires conds { AreConditionsOf plan.now.rows rows.old conds.now }
    requires met { AreMet plan.now wire.now positions.now }
    ensures holds { IfOk result (λ holds. IsTrue holds
        ↔ HoldsWithSets plan.now wire.now (sets_at plan.now positions.now)) }
    ensures works { Works (any_worked (conditions_of plan.now (sets_at plan.now positions.now)))
        rows.old rows.new result }
{
    // The count is read, so that what holds of every table is known.
    let _ = rows.row_count();
    let listed = conditions_at(alloc, plan, conds, positions)?;
    let any = rows.any_of(listed.as_slice())?;
    Ok(!positions.is_empty() && rows.same(any, condition(conds, wire.row)))
}

/// The first wire whose condition isn't that under which one of the sets is live whose wire it is;
/// None exactly where there is none. `met` has the sets of each wire by position. Wire by wire, up
/// to that one, the disjunctions of the conditions of the wire's sets are worked out, set by set;
/// `TooManyRows` where the rows that they need, with those that are there, are more than the limit.
pub(crate) fn conditions_failure<'a>(
    alloc: Global,
    project: &Project,
    plan: &Plan,
    rows: &mut Rows<'a>,
    conds: &[Cond<'a>],
    met: &HashMap<(u32, u32), List<u32>>,
) -> Result<Option<Spot>, RowsStop>
    requires sets { HasLiveSets project.now plan.now }
    requires met { KnowsMetBefore plan.now met.now (length plan.now.wires) }
    requires counted { length conds.now ≡ length plan.now.rows }
    requires conds { AreConditionsOf plan.now.rows rows.old conds.now }
    requires limit { rows.old.limit ≡ 262144 }
    requires stands { StandsFor rows.old (rows_worked project.now plan.now) }
    ensures holds { IfOk result (λ found. IfNone found
        (HasConditions project.now plan.now (length plan.now.wires))) }
    ensures fails { IfOk result (λ found. IfSome found (ConditionsFailAt project.now plan.now)) }
    ensures stop { IfErr result (StopsConditions project.now plan.now) }
    ensures kept { AreConditionsOf plan.now.rows rows.new conds.now }
{
    for (at, wire) in plan.wires.as_slice().iter().enumerate() {
        let Some(positions) = met.get(&(wire.net.0, wire.row)) else {
            unreachable!()
        };
        if !is_where_sets_are(alloc, plan, rows, conds, wire, positions.as_slice())? {
            return Ok(Some(Spot::line(PlanPart::Wires, at)?));
        }
    }
    Ok(None)
}
