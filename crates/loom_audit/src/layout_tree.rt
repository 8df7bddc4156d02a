//! Whether a layout is a wiring tree.
ghost use Rattle.std.specs.Prelude.{◌≡◌, ◌⊎◌, ◌<◌, ◌↔◌, All, length, map, IfOk, IfSome, IfNone, IsTrue};
ghost use Rattle.loom_topology.specs.Topology.{segment_at, node_of};
ghost use Rattle.loom_topology.specs.WiringTree.{other_end, places_of};
ghost use Rattle.loom_types.specs.LayoutTree.{tree_of};
ghost use Rattle.loom_project.specs.Project.{topology_of, net_topology};
ghost use Rattle.loom_audit.specs.LayoutTests.{IsPassable, AreStepsSound, HangsAt, AreHungAt, AreTwoEach};

use loom_base::{CavityNo, NetNo, NoMemory, NodeNo, SegmentNo};
use loom_project::Project;
use loom_topology::Topology;
use loom_types::Layout;
use std::alloc::Global;

/// The node to which a net's step over a segment leads from a node; None exactly where the segment
/// isn't open to the net or doesn't end there.
fn led_to(project: &Project, net: NetNo, start: NodeNo, segment: SegmentNo) -> Option<NodeNo>
    requires { net.0 < length project.now.nets }
    ensures passable { IfSome result (λ _.
        IsPassable (net_topology project.now net.0) start.0 segment.0) }
    ensures to { IfSome result (λ to. to.0
        ≡ other_end (segment_at (net_topology project.now net.0) segment.0) start.0) }
    ensures not { IfNone result
        (IsPassable (net_topology project.now net.0) start.0 segment.0 → ⊥) }
{
    let topology = project.topology();
    if segment.0 >= topology.segment_count() || !project.is_open_to(net, segment) {
        return None;
    }
    topology.other_end(segment, start)
}

/// The nodes at which the points of a net's layout lie, where point 0 lies at the node; None exactly
/// where a step doesn't begin at a point before its own, or can't go on from there.
pub(crate) fn places(
    alloc: Global,
    project: &Project,
    net: NetNo,
    start: NodeNo,
    layout: &Layout,
) -> Result<Option<Vec<NodeNo>>, NoMemory>
    requires { net.0 < length project.now.nets }
    ensures sound { IfOk result (λ found. IfSome found (λ _.
        AreStepsSound (net_topology project.now net.0) start.0 (tree_of layout.now))) }
    ensures places { IfOk result (λ found. IfSome found (λ places. map (λ v. v.0) places.items
        ≡ places_of (net_topology project.now net.0) start.0 (tree_of layout.now).steps)) }
    ensures unsound { IfOk result (λ found. IfNone found
        (AreStepsSound (net_topology project.now net.0) start.0 (tree_of layout.now) → ⊥)) }
{
    let mut places = Vec::new(alloc);
    places.push(start)?;
    for step in layout.steps.as_slice() {
        let (parent, segment) = *step;
        if parent as usize >= places.len() {
            return Ok(None);
        }
        let Some(node) = led_to(project, net, places[parent as usize], segment) else {
            return Ok(None);
        };
        places.push(node)?;
    }
    Ok(Some(places))
}

/// Whether a cavity's node is that of a point.
fn hangs_at(topology: &Topology, places: &[NodeNo], cavity: CavityNo, point: u32) -> bool
    requires { cavity.0 < length topology.now.cavities }
    ensures { IsTrue result
        ↔ HangsAt topology.now (map (λ v. v.0) places.now) cavity.0 point }
{
    match places.get(point as usize) {
        Some(node) => *node == topology.cavity_node(cavity),
        None => false,
    }
}

/// Whether there is a point for each cavity, at whose node the cavity lies.
pub(crate) fn are_hung(
    topology: &Topology,
    places: &[NodeNo],
    cavities: &[CavityNo],
    hangs: &[u32],
) -> bool
    requires { All (λ c. c.0 < length topology.now.cavities) cavities.now }
    ensures { IsTrue result ↔ AreHungAt topology.now (map (λ v. v.0) places.now)
        (map (λ c. c.0) cavities.now) hangs.now }
{
    if cavities.len() != hangs.len() {
        return false;
    }
    for (at, point) in hangs.iter().enumerate() {
        if !hangs_at(topology, places, cavities[at], *point) {
            return false;
        }
    }
    true
}

/// Whether at least two things meet at each point.
pub(crate) fn are_two_each(degrees: &[u32]) -> bool
    ensures { IsTrue result ↔ AreTwoEach degrees.now }
{
    degrees.iter().all(|degree| *degree >= 2)
}
