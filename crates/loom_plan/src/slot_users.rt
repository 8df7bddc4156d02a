//! The conditions of the sets whose layouts have a slot, slot by slot.
ghost use Rattle.std.specs.Prelude.{◌≡◌, ◌≤◌, ◌<◌, ◌+◌, ◌==◌, ℕ, IfOk, OnOk, if◌then◌else◌, length};
ghost use Rattle.std.specs.List.{All};
ghost use Rattle.loom_laid.specs.LaidSets.{steps_of};
ghost use Rattle.loom_plan.specs.SlotUsers.{crossings, IsAddedTo, IsAdded, AreUsers};

use loom_base::{List, NoMemory};
use loom_laid::LaidSet;
use loom_rows::Cond;
use loom_topology::Topology;
use std::alloc::Global;
use std::collections::{BTreeMap, HashMap};

/// A slot's net, its coupler and its ordinal.
pub(crate) type SlotKey = (u32, u32, u32);

/// Counts one more crossing of a segment, and gives the number of crossings so far.
fn count_crossing(counts: &mut HashMap<u32, u32>, segment: u32) -> Result<u32, NoMemory>
    requires { crossings counts.old segment < 1000000 }
    ensures ordinal { IfOk result (λ ordinal. ordinal ≡ crossings counts.old segment + 1) }
    ensures counted { OnOk result ((s : ℕ) → crossings counts.new s
        ≡ crossings counts.old s + (if segment == s then 1 else 0)) }
{
    let ordinal = counts.get(&segment).copied().unwrap_or(0) + 1;
    counts.insert(segment, ordinal)?;
    Ok(ordinal)
}

/// Adds a condition to those of a slot.
fn add_user<'a>(
    alloc: Global,
    users: &mut BTreeMap<SlotKey, List<Cond<'a>>>,
    key: SlotKey,
    cond: Cond<'a>,
) -> Result<(), NoMemory>
    ensures { OnOk result (IsAddedTo key cond.entry users.old users.new) }
{
    users.entry(key)?.or_insert(List::new(alloc)).push(cond)?;
    Ok(())
}

/// Adds the condition of a set to each slot that its layout has.
fn add_set<'a>(
    alloc: Global,
    topology: &Topology,
    users: &mut BTreeMap<SlotKey, List<Cond<'a>>>,
    set: &LaidSet<'a>,
) -> Result<(), NoMemory>
    requires segments { All (λ step. step.1.0 < length topology.now.segments)
        set.now.layout.steps }
    requires few { length set.now.layout.steps ≤ 1000000 }
    ensures { OnOk result (IsAdded topology.now set.now users.old users.new) }
{
    let mut counts = HashMap::new(alloc);
    for step in set.layout.steps.as_slice() {
        let segment = step.1;
        if topology.kind(segment).is_coupler() {
            let ordinal = count_crossing(&mut counts, segment.0)?;
            add_user(alloc, users, (set.net.0, segment.0, ordinal), set.cond)?;
        }
    }
    Ok(())
}

/// The slots of the layouts of sets, each with the conditions of the sets, set by set, whose
/// layouts have it.
pub(crate) fn users_of_slots<'a>(
    alloc: Global,
    topology: &Topology,
    laid: &[LaidSet<'a>],
) -> Result<BTreeMap<SlotKey, List<Cond<'a>>>, NoMemory>
    requires segments { All (λ set. All
        (λ step. step.1.0 < length topology.now.segments) set.layout.steps) laid.now }
    requires few_steps { steps_of laid.now ≤ 1000000 }
    ensures { IfOk result (AreUsers topology.now laid.now) }
{
    let mut users = BTreeMap::new(alloc);
    for set in laid {
        add_set(alloc, topology, &mut users, set)?;
    }
    Ok(users)
}
