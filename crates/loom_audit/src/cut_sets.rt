//! Whether the wires of the printed sets are those that their layouts give.
ghost use Rattle.std.specs.Prelude.{◌≡◌, ◌<◌, ◌↔◌, Some, length, map, slice_get, IfOk, IfSome, IfNone, IsTrue, IsPermutation};
ghost use Rattle.std.specs.List.Sorted.{IsSorted};
ghost use Rattle.loom_topology.specs.Legal.{chosen};
ghost use Rattle.loom_types.specs.Laws.{set_wires};
ghost use Rattle.loom_types.specs.LayoutWires.{bare};
ghost use Rattle.loom_types.specs.PinLines.{pin_in};
ghost use Rattle.loom_types.specs.SetMask.{IsSet};
ghost use Rattle.loom_types.specs.WireOrder.{wire_cmp};
ghost use Rattle.loom_project.specs.Project.{topology_of, cavities_of};
ghost use Rattle.loom_audit.specs.CutSets.{numbers_of};
ghost use Rattle.loom_audit.specs.FirstFailure.{IsFirstWithout};
ghost use Rattle.loom_audit.specs.LayoutRule.{IsLaidAtCost, AreLaidAtCost, DoWiresRise, AreOfLayout, AreWiresOfLayouts};
ghost use Rattle.loom_audit.specs.SetWires.{wires_at, AreWiresOf, AreMembers, HasSets};

use crate::laid_set::LaidSet;
use crate::layout_wires::set_wires;
use crate::pin_index::PinIndex;
use crate::set_cavities::chosen;
use loom_base::{List, NoMemory};
use loom_project::Project;
use loom_types::{Plan, SetLine, Wire, set_is_stem_and_rest};
use std::alloc::Global;

/// A printed set as it is cut into wires.
fn laid_set(alloc: Global, project: &Project, set: &SetLine) -> Result<LaidSet, NoMemory>
    requires { set.now.net.0 < length project.now.nets }
    ensures net { IfOk result (λ laid. laid.net ≡ set.now.net) }
    ensures cavities { IfOk result (λ laid. numbers_of laid
        ≡ chosen (cavities_of project.now set.now.net.0) set.now.mask) }
    ensures layout { IfOk result (λ laid. laid.layout ≡ set.now.layout) }
{
    Ok(LaidSet {
        net: set.net,
        cavities: chosen(alloc, project.cavities(set.net), set.mask)?,
        layout: set.layout.copy(alloc)?,
    })
}

/// The wires that a set's layout gives, in the order of wires.
fn cut_wires(
    alloc: Global,
    project: &Project,
    pins: &PinIndex,
    set: &SetLine,
) -> Result<Vec<Wire>, NoMemory>
    requires net { set.now.net.0 < length project.now.nets }
    requires set { IsSet (cavities_of project.now set.now.net.0) set.now.mask }
    requires laid { IsLaidAtCost project.now set.now }
    ensures same { IfOk result (λ wires. IsPermutation
        (set_wires (topology_of project.now) set.now.net.0 (pin_in pins.now set.now.net.0)
        (cavities_of project.now set.now.net.0) set.now.mask set.now.layout) wires.items) }
    ensures sorted { IfOk result (λ wires. IsSorted wire_cmp wires.items) }
{
    project.has_sound_topologies();
    set_is_stem_and_rest();
    let _cavities = project.cavities(set.net);
    let laid = laid_set(alloc, project, set)?;
    let mut wires = set_wires(alloc, project.topology(), pins, &laid)?.into_vec();
    wires.sort_by(|one, other| one.order(other))?;
    Ok(wires)
}

/// Whether two wires are of one net and have the same ends.
fn have_same_ends(one: &Wire, other: &Wire) -> bool
    ensures { IsTrue result ↔ ((one.now.net ≡ other.now.net)
        × (one.now.from ≡ other.now.from) × (one.now.to ≡ other.now.to)) }
{
    one.net == other.net && one.from == other.from && one.to == other.to
}

/// Whether two wires lead over the same runs and are of the same length.
fn have_same_route(one: &Wire, other: &Wire) -> bool
    ensures { IsTrue result ↔ ((one.now.route ≡ other.now.route)
        × (one.now.length ≡ other.now.length)) }
{
    one.route.as_slice() == other.route.as_slice() && one.length == other.length
}

/// Whether a wire is the other one but for its row.
fn is_bare(wire: &Wire, other: &Wire) -> bool
    ensures { IsTrue result ↔ (wire.now ≡ bare other.now) }
{
    have_same_ends(wire, other) && have_same_route(wire, other) && wire.row == 0
}

/// Whether the wire at a place is a printed one but for its row.
fn stands_at(wires: &[Wire], at: usize, printed: &Wire) -> bool
    ensures { IsTrue result ↔ (slice_get wires.now at ≡ Some (bare printed.now)) }
{
    match wires.get(at) {
        Some(wire) => is_bare(wire, printed),
        None => false,
    }
}

/// Whether wires are those at the positions but for their rows.
fn are_bare(wires: &[Wire], plan: &Plan, positions: &[u32]) -> bool
    ensures { IsTrue result ↔ (wires.now ≡ map bare (wires_at plan.now positions.now)) }
{
    let mut at = 0;
    for position in positions {
        if let Some(printed) = plan.wires.get(*position as usize) {
            if !stands_at(wires, at, printed) {
                return false;
            }
            at += 1;
        }
    }
    at == wires.len()
}

/// Whether the wires of a set are those that its layout gives, but for their rows.
fn are_of_layout(
    alloc: Global,
    project: &Project,
    plan: &Plan,
    pins: &PinIndex,
    set: &SetLine,
    positions: &[u32],
) -> Result<bool, NoMemory>
    requires net { set.now.net.0 < length project.now.nets }
    requires set { IsSet (cavities_of project.now set.now.net.0) set.now.mask }
    requires laid { IsLaidAtCost project.now set.now }
    requires pins { pins.now ≡ plan.now.pins }
    requires rise { DoWiresRise plan.now }
    requires its { AreWiresOf plan.now set.now (wires_at plan.now positions.now) }
    ensures { IfOk result (λ yes. IsTrue yes ↔ AreOfLayout project.now plan.now set.now) }
{
    let wires = cut_wires(alloc, project, pins, set)?;
    Ok(are_bare(&wires, plan, positions))
}

/// The first set of a plan whose wires aren't those that its layout gives with the printed pins.
pub(crate) fn first_other_wires(
    alloc: Global,
    project: &Project,
    plan: &Plan,
    members: &[List<u32>],
) -> Result<Option<usize>, NoMemory>
    requires sets { HasSets project.now plan.now }
    requires members { AreMembers plan.now members.now }
    requires laid { AreLaidAtCost project.now plan.now }
    requires rise { DoWiresRise plan.now }
    ensures holds { IfOk result (λ found.
        IfNone found (AreWiresOfLayouts project.now plan.now)) }
    ensures fails { IfOk result (λ found. IfSome found
        (IsFirstWithout (λ i set. AreOfLayout project.now plan.now set) plan.now.sets)) }
{
    let pins = PinIndex::new(alloc, plan.pins.as_slice())?;
    for (at, set) in plan.sets.as_slice().iter().enumerate() {
        if !are_of_layout(alloc, project, plan, &pins, set, members[at].as_slice())? {
            return Ok(Some(at));
        }
    }
    Ok(None)
}
