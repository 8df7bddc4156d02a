ghost use Rattle.std.specs.Prelude.{◌≡◌, ◌+◌, ◌<◌, ◌^◌, IfOk, All, length, map};
ghost use Rattle.loom_topology.specs.Topology.{IsSound, node_of};
ghost use Rattle.loom_topology.specs.WiringTree.{places_of};
ghost use Rattle.loom_types.specs.LayoutTree.{tree_of};
ghost use Rattle.loom_types.specs.LayoutWires.{splice_of};
ghost use Rattle.loom_wires.specs.Threads.{AreSplices};
ghost use Rattle.loom_wires.specs.Wires.{IsLaid, first_of};
ghost use Rattle.loom_wires.specs.Degrees.{AreCounted, AreDegrees};

use crate::laid_set::LaidSet;
use loom_base::{NoMemory, NodeNo};
use loom_topology::Topology;
use loom_types::{End, Layout};
use std::alloc::Global;

/// The nodes at which the points of a set's layout lie.
pub(crate) fn places(
    alloc: Global,
    topology: &Topology,
    set: &LaidSet<'_>,
) -> Result<Vec<NodeNo>, NoMemory>
    requires sound { IsSound topology.now }
    requires laid { IsLaid topology.now set.now }
    ensures { IfOk result (λ places. map (λ v. v.0) places.items ≡ places_of topology.now
        (node_of topology.now (first_of set.now)) (tree_of set.now.layout).steps) }
{
    let mut places = Vec::new(alloc);
    places.push(topology.cavity_node(set.cavities.as_slice()[0]))?;
    for step in set.layout.steps.as_slice() {
        let (parent, segment) = *step;
        let start = places[parent as usize];
        let way = topology.way_from(start, segment);
        places.push(way.to)?;
    }
    Ok(places)
}

/// The counts, once the points of a list are counted too, each at its place, up to 255.
fn counted(mut counts: Vec<u8>, points: &[u32]) -> Vec<u8>
    requires { All (λ point. point < length counts.items) points.now }
    ensures { AreCounted counts.items points.now result.items }
{
    for point in points {
        let at = *point as usize;
        counts[at] = counts[at].saturating_add(1);
    }
    counts
}

/// The parents of a layout's steps.
fn parents(alloc: Global, layout: &Layout) -> Result<Vec<u32>, NoMemory>
    ensures { IfOk result (λ parents.
        parents.items ≡ map (λ step. step.parent) (tree_of layout.now).steps) }
{
    let mut parents = Vec::new(alloc);
    for step in layout.steps.as_slice() {
        parents.push(step.0)?;
    }
    Ok(parents)
}

/// How many steps begin at each point of a layout and how many cavities hang on it, up to 255.
fn below(alloc: Global, layout: &Layout, point_count: usize) -> Result<Vec<u8>, NoMemory>
    requires points { point_count ≡ length layout.now.steps + 1 }
    requires parents { All (λ step. step.parent < point_count) (tree_of layout.now).steps }
    requires hangs { All (λ point. point < point_count) layout.now.hangs }
    ensures { IfOk result (λ below. AreDegrees (tree_of layout.now) below.items) }
{
    let none = vec![in alloc; 0u8; point_count]?;
    let parents = parents(alloc, layout)?;
    let steps = counted(none, &parents);
    let both = counted(steps, layout.hangs.as_slice());
    Ok(both)
}

/// The name that a splice at each point of a set's layout has: its node, and which of the splices
/// at this node it is.
pub(crate) fn splices(
    alloc: Global,
    topology: &Topology,
    set: &LaidSet<'_>,
    places: &[NodeNo],
) -> Result<Vec<End>, NoMemory>
    requires sound { IsSound topology.now }
    requires laid { IsLaid topology.now set.now }
    requires few { length set.now.layout.steps < 2 ^ 32 }
    requires places { map (λ v. v.0) places.now ≡ places_of topology.now
        (node_of topology.now (first_of set.now)) (tree_of set.now.layout).steps }
    ensures count { IfOk result (λ splices.
        length splices.items ≡ length set.now.layout.steps + 1) }
    ensures splices { IfOk result (λ splices. AreSplices (splice_of topology.now
        (node_of topology.now (first_of set.now)) (tree_of set.now.layout)) splices.items) }
{
    let below = below(alloc, &set.layout, places.len())?;
    let mut ordinals = vec![in alloc; 0u32; topology.node_count() as usize]?;
    let mut splices = Vec::new(alloc);
    for (point, node) in places.iter().enumerate() {
        let at = node.0 as usize;
        let is_splice = below[point] >= 2;
        let ordinal = ordinals[at] + u32::from(is_splice);
        ordinals[at] = ordinal;
        splices.push(End::Splice {
            node: *node,
            ordinal,
        })?;
    }
    Ok(splices)
}
