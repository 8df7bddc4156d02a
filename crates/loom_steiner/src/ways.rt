ghost use Rattle.std.specs.Prelude.{◌<◌, ◌≤◌, length, IfOk};
ghost use Rattle.loom_topology.specs.Ways.{AreInRange, MarksCheapest};
ghost use Rattle.loom_steiner.specs.Ways.{AreWaysFrom};

use bumpalo::Bump;
use bumpalo::collections::into_bump_slice;
use loom_base::{NoMemory, NodeNo};
use loom_topology::{Topology, Way};

/// Stands for the cost of a tree that isn't there; every cost is below it.
pub const NO_TREE: u64 = 1 << 62;

/// The ways from a node over the marked segments, which are the cheapest ones.
pub fn ways_from<'s>(
    scratch: &'s Bump,
    topology: &Topology,
    node: NodeNo,
    marks: &[bool],
) -> Result<&'s [Way], NoMemory>
    requires node { node.0 < length topology.now.nodes }
    requires room { length topology.now.segments ≤ length marks.now }
    requires marks { MarksCheapest topology.now marks.now }
    ensures ways { IfOk result (λ from. AreWaysFrom topology.now node.0 from.now) }
    ensures range { IfOk result (λ from. AreInRange (length topology.now.nodes) from.now) }
{
    let segments = topology.segments_at(node);
    let mut ways = Vec::with_capacity(scratch, segments.len())?;
    for segment in segments {
        if marks[segment.0 as usize] {
            ways.push(topology.way_from(node, *segment))?;
        }
    }
    Ok(into_bump_slice(ways))
}
