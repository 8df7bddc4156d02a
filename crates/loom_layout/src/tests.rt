ghost use Rattle.std.specs.Prelude.{◌<◌, ◌≤◌, length, map};
ghost use Rattle.std.specs.List.{All};
ghost use Rattle.loom_types.specs.SetMask.{IsSet};

use crate::{LayoutStop, layout};
use loom_base::{Branch, CavityNo, List, NodeNo, Pins, Price, SegmentNo};
use loom_steiner::table;
use loom_topology::{Kind, Topology};
use loom_types::Layout;
use std::alloc::Global;
use std::test::Fail;

const THREE: [CavityNo; 3] = [CavityNo(0), CavityNo(1), CavityNo(2)];

/// Adds nodes of these branch costs to a harness.
fn add_nodes(topology: &mut Topology, harness: u32, branches: &[u64]) -> Result<(), Fail> {
    for branch in branches {
        let branch = Branch::new(*branch).ok_or("branch")?;
        if topology.node_count() < 1024 {
            topology.add_node(harness, branch)?;
        }
    }
    Ok(())
}

/// Adds a cavity at each of these nodes.
fn add_cavities(topology: &mut Topology, nodes: &[u32]) -> Result<(), Fail> {
    for node in nodes {
        if *node < topology.node_count() && topology.cavity_count() < 8192 {
            topology.add_cavity(NodeNo(*node))?;
        }
    }
    Ok(())
}

fn add_segment(topology: &mut Topology, from: u32, to: u32, kind: Kind) -> Result<(), Fail> {
    let count = topology.node_count();
    if from < count && to < count && topology.segment_count() < 4096 {
        topology.add_segment(NodeNo(from), NodeNo(to), kind)?;
    }
    Ok(())
}

/// Adds runs: their ends and lengths.
fn add_runs(topology: &mut Topology, runs: &[(u32, u32, u64)]) -> Result<(), Fail> {
    for (from, to, length) in runs {
        let length = Price::new(*length).ok_or("length")?;
        add_segment(topology, *from, *to, Kind::Run { length })?;
    }
    Ok(())
}

/// A topology of one harness: the branch costs of its nodes, the nodes of its cavities, and its
/// runs.
fn built(
    alloc: Global,
    branches: &[u64],
    cavities: &[u32],
    runs: &[(u32, u32, u64)],
) -> Result<Topology, Fail> {
    let mut topology = Topology::new(alloc);
    add_nodes(&mut topology, 0, branches)?;
    add_cavities(&mut topology, cavities)?;
    add_runs(&mut topology, runs)?;
    Ok(topology)
}

/// A node in one harness, and a coupler of 10 from it to the first of three nodes in another, from
/// which runs of 100 and 60 lead to the other two; a cavity at each end.
fn behind_a_coupler(alloc: Global) -> Result<Topology, Fail> {
    let price = Price::new(10).ok_or("price")?;
    let pins = Pins::new(2).ok_or("pins")?;
    let mut topology = Topology::new(alloc);
    add_nodes(&mut topology, 0, &[50])?;
    add_nodes(&mut topology, 1, &[5, 5, 5])?;
    add_cavities(&mut topology, &[0, 2, 3])?;
    add_segment(&mut topology, 0, 1, Kind::Coupler { price, pins })?;
    add_runs(&mut topology, &[(1, 2, 100), (1, 3, 60)])?;
    Ok(topology)
}

/// The layout of a set over the table of its net.
fn laid(
    alloc: Global,
    topology: &Topology,
    terminals: &[CavityNo],
    mask: u32,
) -> Result<Layout, LayoutStop>
    requires at_least { 2 ≤ length terminals.now }
    requires at_most { length terminals.now ≤ 12 }
    requires in_range { All (λ c. c.0 < length topology.now.cavities) terminals.now }
    requires set { IsSet (map (λ c. c.0) terminals.now) mask }
{
    let table = table(alloc, topology, terminals)?;
    layout(alloc, topology, terminals, &table, mask)
}

#[test]
fn cavities_at_one_node(rt: HostRuntime) -> Result<(), Fail> {
    let alloc = rt.alloc();
    let topology = built(alloc, &[5], &[0, 0, 0], &[])?;
    assert!(rt; topology.cavity_count() == 3);
    let layout = laid(alloc, &topology, &THREE, 7)?;
    assert_eq!(rt; layout.steps.as_slice(), [].as_slice());
    assert_eq!(rt; layout.hangs.as_slice(), [0, 0].as_slice());
    Ok(())
}

#[test]
fn cavities_along_a_line(rt: HostRuntime) -> Result<(), Fail> {
    let alloc = rt.alloc();
    let runs = [(0, 1, 100), (1, 2, 50)];
    let topology = built(alloc, &[10, 120, 200], &[0, 1, 2], &runs)?;
    assert!(rt; topology.cavity_count() == 3);
    let layout = laid(alloc, &topology, &THREE, 7)?;
    assert_eq!(rt;
        layout.steps.as_slice(),
        [(0, SegmentNo(0)), (0, SegmentNo(0)), (2, SegmentNo(1))].as_slice()
    );
    assert_eq!(rt; layout.hangs.as_slice(), [1, 3].as_slice());
    Ok(())
}

/// The set of the last two terminals begins at the second one's node.
#[test]
fn sets_behind_a_coupler(rt: HostRuntime) -> Result<(), Fail> {
    let alloc = rt.alloc();
    let topology = behind_a_coupler(alloc)?;
    assert!(rt; topology.cavity_count() == 3);
    let all = laid(alloc, &topology, &THREE, 7)?;
    assert_eq!(rt;
        all.steps.as_slice(),
        [(0, SegmentNo(0)), (1, SegmentNo(1)), (1, SegmentNo(2))].as_slice()
    );
    assert_eq!(rt; all.hangs.as_slice(), [2, 3].as_slice());
    let last = laid(alloc, &topology, &THREE, 6)?;
    assert_eq!(rt;
        last.steps.as_slice(),
        [(0, SegmentNo(1)), (1, SegmentNo(2))].as_slice()
    );
    assert_eq!(rt; last.hangs.as_slice(), [2].as_slice());
    Ok(())
}

#[test]
fn the_lower_of_two_ways(rt: HostRuntime) -> Result<(), Fail> {
    let alloc = rt.alloc();
    let runs = [(0, 1, 10), (0, 2, 10), (1, 3, 10), (2, 3, 10)];
    let topology = built(alloc, &[0, 0, 0, 0], &[0, 3], &runs)?;
    assert!(rt; topology.cavity_count() == 2 && topology.segment_count() == 4);
    let terminals = [CavityNo(0), CavityNo(1)];
    let open = laid(alloc, &topology, &terminals, 3)?;
    assert_eq!(rt;
        open.steps.as_slice(),
        [(0, SegmentNo(0)), (1, SegmentNo(2))].as_slice()
    );
    let shut = topology.shut(&[SegmentNo(0)])?;
    assert!(rt; shut.cavity_count() == 2);
    let round = laid(alloc, &shut, &terminals, 3)?;
    assert_eq!(rt;
        round.steps.as_slice(),
        [(0, SegmentNo(1)), (1, SegmentNo(3))].as_slice()
    );
    Ok(())
}

/// The cavity that isn't reached, and the nodes that are.
fn unreached(stop: LayoutStop) -> Result<(CavityNo, List<NodeNo>), Fail> {
    match stop {
        LayoutStop::Unreachable { cavity, reached } => Ok((cavity, reached)),
        LayoutStop::NoMemory => Err(Fail::from("out of memory")),
    }
}

#[test]
fn a_cavity_out_of_reach(rt: HostRuntime) -> Result<(), Fail> {
    let alloc = rt.alloc();
    let topology = built(alloc, &[0, 0, 0], &[0, 1, 2], &[(0, 1, 700)])?;
    assert!(rt; topology.cavity_count() == 3);
    let stop = laid(alloc, &topology, &THREE, 7).err().ok_or("a stop")?;
    let (cavity, reached) = unreached(stop)?;
    assert_eq!(rt; cavity, CavityNo(2));
    assert_eq!(rt; reached.as_slice(), [NodeNo(0), NodeNo(1)].as_slice());
    Ok(())
}
