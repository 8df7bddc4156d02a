ghost use Rattle.std.specs.Prelude.{◌≡◌, ◌<◌, ◌^◌, IfOk, length, map};
ghost use Rattle.loom_topology.specs.Topology.{IsSound, node_of};
ghost use Rattle.loom_topology.specs.WiringTree.{places_of};
ghost use Rattle.loom_types.specs.LayoutTree.{tree_of};
ghost use Rattle.loom_types.specs.LayoutWires.{crossing_of, legs_of};
ghost use Rattle.loom_types.specs.PinLines.{pin_in};
ghost use Rattle.loom_audit.specs.Threads.{crossing_of_code, legs_back, AreLegs};
ghost use Rattle.loom_audit.specs.CutSets.{IsLaid, first_of};

use crate::laid_set::LaidSet;
use crate::pin_index::PinIndex;
use loom_base::{NetNo, NoMemory, NodeNo, SegmentNo};
use loom_topology::{Kind, Topology};
use std::alloc::Global;

/// How a step crosses its segment.
#[derive(Clone, Copy)]
pub(crate) enum Crossing {
    /// Over a run of this length.
    Over {
        segment: SegmentNo,
        length: u64,
    },
    /// Through a pin of a coupler: its near side is the one at the step's parent.
    Through {
        coupler: SegmentNo,
        pin: u16,
        near: u32,
        far: u32,
    },
}

/// A step, as threads take it from the point that it adds to its parent.
#[derive(Clone, Copy)]
pub(crate) struct Leg {
    pub parent: u32,
    pub crossing: Crossing,
}

/// How the ordinal-th step over a segment, which begins at a node, crosses it.
fn crossing_from(
    topology: &Topology,
    pins: &PinIndex,
    net: NetNo,
    start: NodeNo,
    segment: SegmentNo,
    ordinal: u32,
) -> Crossing
    requires { segment.0 < length topology.now.segments }
    ensures { crossing_of_code result ≡ crossing_of topology.now start.0 segment.0
        (pin_in pins.now net.0 segment.0 ordinal) }
{
    match topology.kind(segment) {
        Kind::Run { .. } => Crossing::Over {
            segment,
            length: topology.price(segment),
        },
        Kind::Coupler { .. } => {
            let pin = pins.pin(net, segment, ordinal);
            let (from, _) = topology.ends(segment);
            let (near, far) = if from == start { (1, 2) } else { (2, 1) };
            Crossing::Through {
                coupler: segment,
                pin,
                near,
                far,
            }
        }
    }
}

/// The steps of a set's layout as threads take them, in order.
pub(crate) fn legs(
    alloc: Global,
    topology: &Topology,
    pins: &PinIndex,
    set: &LaidSet,
    places: &[NodeNo],
) -> Result<Vec<Leg>, NoMemory>
    requires sound { IsSound topology.now }
    requires laid { IsLaid topology.now set.now }
    requires few { length set.now.layout.steps < 2 ^ 32 }
    requires places { map (λ v. v.0) places.now ≡ places_of topology.now
        (node_of topology.now (first_of set.now)) (tree_of set.now.layout).steps }
    ensures legs { IfOk result (λ legs. legs_back legs.items ≡ legs_of topology.now
        (node_of topology.now (first_of set.now)) (pin_in pins.now set.now.net.0)
        (tree_of set.now.layout) (length set.now.layout.steps)) }
    ensures are { IfOk result (λ legs. AreLegs (legs_back legs.items)) }
{
    let mut ordinals = vec![in alloc; 0u32; topology.segment_count() as usize]?;
    let mut legs = Vec::new(alloc);
    for step in set.layout.steps.as_slice() {
        let (parent, segment) = *step;
        let ordinal = ordinals[segment.0 as usize] + 1;
        ordinals[segment.0 as usize] = ordinal;
        let start = places[parent as usize];
        let crossing = crossing_from(topology, pins, set.net, start, segment, ordinal);
        legs.push(Leg { parent, crossing })?;
    }
    Ok(legs)
}
