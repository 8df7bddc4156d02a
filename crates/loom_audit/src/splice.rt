ghost use Rattle.std.specs.Prelude.{◌≡◌, ◌+◌, ◌<◌, ◌^◌, IfOk, length, map};
ghost use Rattle.loom_topology.specs.Topology.{IsSound, node_of};
ghost use Rattle.loom_topology.specs.WiringTree.{places_of};
ghost use Rattle.loom_types.specs.LayoutTree.{tree_of};
ghost use Rattle.loom_types.specs.LayoutWires.{splice_of};
ghost use Rattle.loom_audit.specs.Threads.{AreSplices};
ghost use Rattle.loom_audit.specs.CutSets.{IsLaid, first_of};

use crate::degrees::degrees;
use crate::laid_set::LaidSet;
use loom_base::{NoMemory, NodeNo};
use loom_topology::Topology;
use loom_types::End;
use std::alloc::Global;

/// The nodes at which the points of a set's layout lie.
pub(crate) fn places(
    alloc: Global,
    topology: &Topology,
    set: &LaidSet,
) -> Result<Vec<NodeNo>, NoMemory>
    requires sound { IsSound topology.now }
    requires laid { IsLaid topology.now set.now }
    ensures { IfOk result (λ places. map (λ v. v.0) places.items ≡ places_of topology.now
        (node_of topology.now (first_of set.now)) (tree_of set.now.layout).steps) }
{
    let mut places = Vec::new(alloc);
    places.push(topology.cavity_node(set.cavities.as_slice()[0]))?;
    for step in set.layout.steps.as_slice() {
        let (parent, segment) = *step;
        let start = places[parent as usize];
        let way = topology.way_from(start, segment);
        places.push(way.to)?;
    }
    Ok(places)
}

/// The name that a splice at each point of a set's layout has: its node, and which of the splices
/// at this node it is.
pub(crate) fn splices(
    alloc: Global,
    topology: &Topology,
    set: &LaidSet,
    places: &[NodeNo],
) -> Result<Vec<End>, NoMemory>
    requires sound { IsSound topology.now }
    requires laid { IsLaid topology.now set.now }
    requires few { length set.now.layout.steps < 2 ^ 32 }
    requires places { map (λ v. v.0) places.now ≡ places_of topology.now
        (node_of topology.now (first_of set.now)) (tree_of set.now.layout).steps }
    ensures count { IfOk result (λ splices.
        length splices.items ≡ length set.now.layout.steps + 1) }
    ensures splices { IfOk result (λ splices. AreSplices (splice_of topology.now
        (node_of topology.now (first_of set.now)) (tree_of set.now.layout)) splices.items) }
{
    let degrees = degrees(alloc, &set.layout, places.len())?;
    let mut ordinals = vec![in alloc; 0u32; topology.node_count() as usize]?;
    let mut splices = Vec::new(alloc);
    for (point, node) in places.iter().enumerate() {
        let at = node.0 as usize;
        let is_splice = degrees[point] >= 3;
        let ordinal = ordinals[at] + u32::from(is_splice);
        ordinals[at] = ordinal;
        splices.push(End::Splice {
            node: *node,
            ordinal,
        })?;
    }
    Ok(splices)
}
