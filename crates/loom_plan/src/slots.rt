//! The slots of layouts, with the conditions under which they are used.
ghost use Rattle.std.specs.Prelude.{◌≡◌, ◌≤◌, ◌<◌, ◌++◌, List as Items, Err, IfOk, OnOk, map, length, AllPairs};
ghost use Rattle.std.specs.List.{All, flat_map};
ghost use Rattle.loom_rows.specs.declared.cond.Cond.{Cond as Condition};
ghost use Rattle.loom_rows.specs.Condition.{Meaning, value};
ghost use Rattle.loom_rows.specs.Table.{Has, IsSound};
ghost use Rattle.loom_rows.specs.Leftovers.{AreSame, StandsFor, AreMoreThan, IsRowOf, Works};
ghost use Rattle.loom_rows.specs.Printing.{AreHad};
ghost use Rattle.loom_types.specs.declared.layout.Layout.{Layout};
ghost use Rattle.loom_types.specs.Slots.{Slot as Crossing};
ghost use Rattle.loom_active.specs.LiveSets.{IsListedBefore};
ghost use Rattle.loom_active.specs.Terminals.{IsSameJob};
ghost use Rattle.loom_laid.specs.LaidSets.{steps_of};
ghost use Rattle.loom_plan.specs.SlotUsers.{AreJoined, usage_worked};
ghost use Rattle.loom_plan.specs.Work.{AreSlots, AreUsages, set_live, slot_at, usages_worked};

#[cfg(test)]
mod tests;

use crate::slot_users::{SlotKey, users_of_slots};
use loom_base::{List, NetNo, SegmentNo};
use loom_laid::LaidSet;
use loom_pins::Slot;
use loom_project::Project;
use loom_rows::{Cond, Rows, RowsStop};
use std::alloc::Global;
use std::collections::BTreeMap;

/// The slots in order, each with the disjunction of its conditions.
fn with_usages<'a>(
    alloc: Global,
    rows: &mut Rows<'a>,
    users: &BTreeMap<SlotKey, List<Cond<'a>>>,
) -> Result<List<Slot<'a>>, RowsStop>
    requires sound { IsSound rows.old }
    requires has { All (λ e. AreHad rows.old e.1) users.now.entries }
    ensures joined { IfOk result (AreJoined users.now.entries) }
    ensures has { IfOk result (λ used. All (λ slot. Has rows.new slot.usage) used) }
    ensures works { Works (flat_map usage_worked users.now.entries) rows.old rows.new result }
{
    let mut slots = List::new(alloc);
    for (key, conds) in users {
        let usage = rows.any_of(conds.as_slice())?;
        slots.push(Slot {
            net: NetNo(key.0),
            coupler: SegmentNo(key.1),
            ordinal: key.2,
            usage,
        })?;
    }
    Ok(slots)
}

/// The slots of the layouts of live sets, by net, coupler and ordinal, each with the condition that
/// some set is live whose layout has it. The conditions are worked out slot by slot, and set by set
/// for each. `TooManyRows` exactly where they need too many rows.
pub(crate) fn slots<'a>(
    alloc: Global,
    project: &Project,
    rows: &mut Rows<'a>,
    laid: &[LaidSet<'a>],
) -> Result<List<Slot<'a>>, RowsStop>
    requires order { AllPairs
        (λ one other. IsListedBefore one.net.0 one.mask other.net.0 other.mask) laid.now }
    requires nets { All (λ set. set.net.0 < length project.now.nets) laid.now }
    requires segments { All (λ set. All (λ step. step.1.0 < length project.now.segments)
        set.layout.steps) laid.now }
    requires few { length laid.now ≤ 16384 }
    requires few_steps { steps_of laid.now ≤ 1000000 }
    requires has { All (λ set. Has rows.old set.cond) laid.now }
    requires conditions { All (λ set.
        AreSame (value set.cond) (set_live project.now set)) laid.now }
    requires sound { IsSound rows.old }
    ensures slots { IfOk result (λ used. AreSlots project.now laid.now (map slot_at used)) }
    ensures usages { IfOk result (λ used.
        AreUsages project.now laid.now (map slot_at used) used) }
    ensures has { IfOk result (λ used. All (λ slot. Has rows.new slot.usage) used) }
    ensures few { IfOk result (λ used. length used ≤ 1000000) }
    ensures couplers { IfOk result (λ used.
        All (λ slot. slot.coupler.0 < length project.now.segments) used) }
    ensures stands { (worked : Items Meaning) → StandsFor rows.old worked
        → IfOk result (λ used. StandsFor rows.new
        (worked ++ usages_worked project.now laid.now (map slot_at used))) }
    ensures few_rows { (worked : Items Meaning) → StandsFor rows.old worked
        → IfOk result (λ used. AreMoreThan rows.old.limit
        (IsRowOf (worked ++ usages_worked project.now laid.now (map slot_at used))) → ⊥) }
    ensures many_rows { (worked : Items Meaning) → StandsFor rows.old worked
        → result ≡ Err RowsStop.TooManyRows
        → (slots : Items Crossing) × AreSlots project.now laid.now slots
        × AreMoreThan rows.old.limit
        (IsRowOf (worked ++ usages_worked project.now laid.now slots)) }
    ensures keeps { (x : Condition) → Has rows.old x → Has rows.new x }
    ensures sound { IsSound rows.new }
    ensures same_job { IsSameJob rows.old rows.new }
{
    let users = users_of_slots(alloc, project.topology(), laid)?;
    with_usages(alloc, rows, &users)
}
