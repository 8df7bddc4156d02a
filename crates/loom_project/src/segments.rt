ghost use Rattle.std.specs.Prelude.{◌≡◌, ◌<◌, ◌≤◌, ◌++◌, ◌∷◌, [], length, map, Ok, IfOk, OnOk, bytes_eq};
ghost use Rattle.loom_topology.specs.Topology.{with_segment};
ghost use Rattle.loom_topology.specs.TopologyFault.{number_of_new};
ghost use Rattle.loom_base.specs.First.{every};
ghost use Rattle.loom_project.specs.Draft.{index_of, node_names, harness_of, pins_of};
ghost use Rattle.loom_project.specs.Project.{placed_nodes, placed_segment};
ghost use Rattle.loom_project.specs.Sound.{border_check, ends_check, pin_check, segment_check, segments_check, Gives, Answers};

use crate::require::{add_name, known, require, within_limit};
use crate::{NodeDraft, Of, ProjectFault, SegmentDraft};
use loom_base::{MAX_BARS, MAX_SEGMENTS, Name, NoMemory, NodeNo, Which};
use loom_formula::NameIndex;
use loom_topology::{Kind, Topology, TopologyFault};
use std::alloc::Global;

/// Adds the segments to a topology of the nodes, or answers the first failure among them.
#[tactic(auto, using(loom_base::proofs::EachLemmas::each_steps), unfolding(crate::specs::Sound::segments_check))]
pub fn add_segments(
    alloc: Global,
    topology: &mut Topology,
    nodes: &[NodeDraft],
    places: &NameIndex,
    segments: &[SegmentDraft],
) -> Result<(), ProjectFault>
    requires places { places.now ≡ node_names nodes.now }
    requires nodes { topology.old.nodes ≡ placed_nodes nodes.now }
    requires none { topology.old.segments ≡ [] }
    ensures gives { Gives result (segments_check nodes.now segments.now) }
    ensures added { OnOk result (topology.new ≡ record topology.old {
      segments = map (placed_segment (node_names nodes.now)) segments.now;
    }) }
{
    within_limit(Which::Segments, MAX_SEGMENTS, segments.len() as u64)?;
    let mut taken = NameIndex::new(alloc);
    for segment in segments {
        let (from, to) = checked_segment(nodes, places, &mut taken, segment)?;
        add_segment(topology, from, to, segment.kind)?;
    }
    Ok(())
}

/// Adds a segment that keeps the rules, so that nothing but memory can be wanting.
fn add_segment(
    topology: &mut Topology,
    from: NodeNo,
    to: NodeNo,
    kind: Kind,
) -> Result<(), NoMemory>
    requires from_in_range { from.0 < length topology.old.nodes }
    requires to_in_range { to.0 < length topology.old.nodes }
    requires room { length topology.old.segments < 4096 }
    requires fits { number_of_new topology.old from.0 to.0 kind
        ≡ Ok (length topology.old.segments) }
    ensures { OnOk result (topology.new ≡ with_segment topology.old from.0 to.0 kind) }
{
    match topology.add_segment(from, to, kind) {
        Ok(_) => Ok(()),
        Err(TopologyFault::NoMemory) => Err(NoMemory),
        Err(TopologyFault::EndsEqual | TopologyFault::BorderCrossed | TopologyFault::NoBorder) =>
            unreachable!(),
    }
}

/// The ends of a segment, whose name is taken from then on, or its first failure.
#[tactic(auto, unfolding(crate::specs::Sound::segment_check))]
fn checked_segment(
    nodes: &[NodeDraft],
    places: &NameIndex,
    taken: &mut NameIndex,
    segment: &SegmentDraft,
) -> Result<(NodeNo, NodeNo), ProjectFault>
    requires places { places.now ≡ node_names nodes.now }
    requires room { length taken.old < 4096 }
    ensures gives { Gives result (segment_check nodes.now taken.old segment.now) }
    ensures taken { OnOk result (taken.new ≡ taken.old ++ segment.now.name ∷ []) }
    ensures from { IfOk result (λ ends. ends.0.0
        ≡ index_of (node_names nodes.now) segment.now.from) }
    ensures to { IfOk result (λ ends. ends.1.0 ≡ index_of (node_names nodes.now) segment.now.to) }
    ensures from_within { IfOk result (λ ends. ends.0.0 < length nodes.now) }
    ensures to_within { IfOk result (λ ends. ends.1.0 < length nodes.now) }
{
    add_name(taken, Of::Segment, segment.name)?;
    within_limit(Which::Bars, MAX_BARS, segment.bars.len() as u64)?;
    let ends = checked_ends(nodes, places, segment)?;
    check_pins(
        segment.name,
        pins_of(segment.kind),
        segment.reserved.as_slice(),
    )?;
    Ok(ends)
}

/// The nodes that a segment joins, or the first failure among its ends.
#[tactic(auto, unfolding(crate::specs::Sound::ends_check))]
fn checked_ends(
    nodes: &[NodeDraft],
    places: &NameIndex,
    segment: &SegmentDraft,
) -> Result<(NodeNo, NodeNo), ProjectFault>
    requires places { places.now ≡ node_names nodes.now }
    ensures answers { Answers result (ends_check nodes.now segment.now) }
    ensures from { IfOk result (λ ends. ends.0.0
        ≡ index_of (node_names nodes.now) segment.now.from) }
    ensures to { IfOk result (λ ends. ends.1.0 ≡ index_of (node_names nodes.now) segment.now.to) }
    ensures from_within { IfOk result (λ ends. ends.0.0 < length nodes.now) }
    ensures to_within { IfOk result (λ ends. ends.1.0 < length nodes.now) }
{
    let from = known(Of::Node, places, segment.from)?;
    let to = known(Of::Node, places, segment.to)?;
    let name = segment.name;
    require(
        segment.from != segment.to,
        ProjectFault::EndsEqual { segment: name },
    )?;
    let is_inside = nodes[from as usize].harness == nodes[to as usize].harness;
    check_border(segment.kind, name, is_inside)?;
    Ok((NodeNo(from), NodeNo(to)))
}

/// A run lies inside one harness, a coupler joins two.
fn check_border(kind: Kind, segment: Name, is_inside: bool) -> Result<(), ProjectFault>
    ensures { result ≡ border_check kind segment is_inside }
{
    match kind {
        Kind::Run { .. } => require(is_inside, ProjectFault::BorderCrossed { segment }),
        Kind::Coupler { .. } => require(!is_inside, ProjectFault::NoBorder { segment }),
    }
}

/// How many pins a segment has; a run has none.
fn pins_of(kind: Kind) -> u64
    ensures { result ≡ pins_of kind }
{
    match kind {
        Kind::Run { .. } => 0,
        Kind::Coupler { pins, .. } => pins.get(),
    }
}

/// A reserved pin is one of the coupler's.
fn check_pin(segment: Name, pins: u64, pin: u16) -> Result<(), ProjectFault>
    ensures { result ≡ pin_check segment pins pin }
{
    let is_there = pin >= 1 && u64::from(pin) <= pins;
    require(is_there, ProjectFault::ReservedPin { segment, pin })
}

/// Each reserved pin is one of the coupler's.
fn check_pins(segment: Name, pins: u64, reserved: &[u16]) -> Result<(), ProjectFault>
    ensures { result ≡ every (pin_check segment pins) reserved.now }
{
    for &pin in reserved {
        check_pin(segment, pins, pin)?;
    }
    Ok(())
}
