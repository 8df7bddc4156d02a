//! Whether the printed pins are those of the slots of the printed layouts.
ghost use Rattle.std.specs.Prelude.{ℕ, List as Items, ◌≡◌, ◌+◌, ◌==◌, ◌<◌, All, length, map, if◌then◌else◌, IfOk, OnOk, IfSome, IfNone, IsTrue, ◌↔◌};
ghost use Rattle.std.specs.BTreeSet.{IsOrdered, keys};
ghost use Rattle.loom_types.specs.Slots.{Slot, slot_of};
ghost use Rattle.loom_project.specs.Project.{topology_of};
ghost use Rattle.loom_audit.specs.FirstFailure.{Agree, DifferFirst};
ghost use Rattle.loom_audit.specs.LayoutRule.{AreLaidAtCost, AreSlotsOf, HasPinLines, IsLineOfSlot};
ghost use Rattle.loom_audit.specs.SlotSets.{crossings, key_cmp, slot_of_key, AreAdded, AreSlotKeys};

use loom_base::NoMemory;
use loom_project::Project;
use loom_topology::Topology;
use loom_types::{PinLine, Plan, SetLine};
use std::alloc::Global;
use std::collections::{BTreeSet, HashMap};

/// A slot's net, its coupler and its ordinal.
type SlotKey = (u32, u32, u32);

/// Counts one more crossing of a segment, and gives the number of crossings so far. More than 32
/// bits are want of memory.
fn count_crossing(counts: &mut HashMap<u32, u32>, segment: u32) -> Result<u32, NoMemory>
    ensures ordinal { IfOk result (λ ordinal. ordinal ≡ crossings counts.old segment + 1) }
    ensures counted { OnOk result ((s : ℕ) → crossings counts.new s
        ≡ crossings counts.old s + (if segment == s then 1 else 0)) }
{
    let before = counts.get(&segment).copied().unwrap_or(0);
    let Some(ordinal) = before.checked_add(1) else {
        return Err(NoMemory);
    };
    counts.insert(segment, ordinal)?;
    Ok(ordinal)
}

/// Adds the slots that a set's layout has.
fn add_slots(
    alloc: Global,
    topology: &Topology,
    slots: &mut BTreeSet<SlotKey>,
    set: &SetLine,
) -> Result<(), NoMemory>
    requires { All (λ step. step.1.0 < length topology.now.segments) set.now.layout.steps }
    ensures { OnOk result (AreAdded topology.now set.now slots.old slots.new) }
{
    let mut counts = HashMap::new(alloc);
    for step in set.layout.steps.as_slice() {
        let segment = step.1;
        if topology.kind(segment).is_coupler() {
            let ordinal = count_crossing(&mut counts, segment.0)?;
            slots.insert((set.net.0, segment.0, ordinal))?;
        }
    }
    Ok(())
}

/// The slots of the layouts of sets.
fn slots(
    alloc: Global,
    topology: &Topology,
    sets: &[SetLine],
) -> Result<BTreeSet<SlotKey>, NoMemory>
    requires { All (λ set. All (λ step. step.1.0 < length topology.now.segments)
        set.layout.steps) sets.now }
    ensures { IfOk result (AreSlotKeys topology.now sets.now) }
{
    let mut slots = BTreeSet::new(alloc);
    for set in sets {
        add_slots(alloc, topology, &mut slots, set)?;
    }
    Ok(slots)
}

/// The slots, in order.
fn in_order(alloc: Global, slots: BTreeSet<SlotKey>) -> Result<Vec<SlotKey>, NoMemory>
    ensures keys { IfOk result (λ listed. listed.items ≡ keys slots) }
    ensures ordered { OnOk result (IsOrdered key_cmp slots) }
{
    let mut listed = Vec::new(alloc);
    for key in slots {
        listed.push(key)?;
    }
    Ok(listed)
}

/// Whether a line gives the pin of a slot.
fn is_line_of(line: &PinLine, slot: SlotKey) -> bool
    ensures { IsTrue result ↔ (slot_of line.now ≡ slot_of_key slot) }
{
    (line.net.0, line.coupler.0, line.ordinal) == slot
}

/// The first position at which the lines aren't those of the slots.
fn first_difference(slots: &[SlotKey], lines: &[PinLine]) -> Option<usize>
    ensures holds { IfNone result (Agree IsLineOfSlot (map slot_of_key slots.now) lines.now) }
    ensures fails { IfSome result (DifferFirst IsLineOfSlot (map slot_of_key slots.now) lines.now) }
{
    let both = slots.len().min(lines.len());
    for at in 0..both {
        if !is_line_of(&lines[at], slots[at]) {
            return Some(at);
        }
    }
    if slots.len() == lines.len() {
        None
    } else {
        Some(both)
    }
}

/// The first position at which a plan's pins aren't those of the slots of its layouts.
pub(crate) fn first_other_pin(
    alloc: Global,
    project: &Project,
    plan: &Plan,
) -> Result<Option<usize>, NoMemory>
    requires { AreLaidAtCost project.now plan.now }
    ensures holds { IfOk result (λ found. IfNone found (HasPinLines project.now plan.now)) }
    ensures fails { IfOk result (λ found. IfSome found (λ at. (slots : Items Slot)
        × AreSlotsOf project.now plan.now slots × DifferFirst IsLineOfSlot slots plan.now.pins at)) }
{
    let slots = slots(alloc, project.topology(), plan.sets.as_slice())?;
    let stated = in_order(alloc, slots)?;
    Ok(first_difference(&stated, plan.pins.as_slice()))
}
