ghost use Rattle.std.specs.Prelude.{◌≡◌, ◌<◌, length, IfOk, OnOk};
ghost use Rattle.loom_base.specs.Causes.{next_count};
ghost use Rattle.std.specs.List.{All};

use crate::{DirectFiller, Filler, fill, table};
use bumpalo::Bump;
use loom_base::{Branch, CavityNo, NoMemory, NodeNo, Pins, Price, SegmentNo};
use loom_topology::{Kind, Table, Topology};
use std::alloc::Global;
use std::test::Fail;

/// Adds nodes of these branch costs to a harness.
fn add_nodes(topology: &mut Topology, harness: u32, branches: &[u64]) -> Result<(), Fail> {
    for branch in branches {
        let branch = Branch::new(*branch).ok_or("branch")?;
        if topology.node_count() < 1024 {
            topology.add_node(harness, branch)?;
        }
    }
    Ok(())
}

/// Adds a cavity at each of these nodes.
fn add_cavities(topology: &mut Topology, nodes: &[u32]) -> Result<(), Fail> {
    for node in nodes {
        if *node < topology.node_count() && topology.cavity_count() < 8192 {
            topology.add_cavity(NodeNo(*node))?;
        }
    }
    Ok(())
}

fn add_segment(topology: &mut Topology, from: u32, to: u32, kind: Kind) -> Result<(), Fail> {
    let count = topology.node_count();
    if from < count && to < count && topology.segment_count() < 4096 {
        topology.add_segment(NodeNo(from), NodeNo(to), kind)?;
    }
    Ok(())
}

/// Adds runs: their ends and lengths.
fn add_runs(topology: &mut Topology, runs: &[(u32, u32, u64)]) -> Result<(), Fail> {
    for (from, to, length) in runs {
        let length = Price::new(*length).ok_or("length")?;
        add_segment(topology, *from, *to, Kind::Run { length })?;
    }
    Ok(())
}

/// A topology of one harness: the branch costs of its nodes, the nodes of its cavities, and its
/// runs.
fn built(
    alloc: Global,
    branches: &[u64],
    cavities: &[u32],
    runs: &[(u32, u32, u64)],
) -> Result<Topology, Fail> {
    let mut topology = Topology::new(alloc);
    add_nodes(&mut topology, 0, branches)?;
    add_cavities(&mut topology, cavities)?;
    add_runs(&mut topology, runs)?;
    Ok(topology)
}

/// A node in one harness, and a coupler of 10 from it to the first of three nodes in another, from
/// which runs of 100 and 60 lead to the other two; a cavity at each end.
fn behind_a_coupler(alloc: Global) -> Result<Topology, Fail> {
    let price = Price::new(10).ok_or("price")?;
    let pins = Pins::new(2).ok_or("pins")?;
    let mut topology = Topology::new(alloc);
    add_nodes(&mut topology, 0, &[50])?;
    add_nodes(&mut topology, 1, &[5, 5, 5])?;
    add_cavities(&mut topology, &[0, 2, 3])?;
    add_segment(&mut topology, 0, 1, Kind::Coupler { price, pins })?;
    add_runs(&mut topology, &[(1, 2, 100), (1, 3, 60)])?;
    Ok(topology)
}

/// A hub and twelve leaves, all of branch cost 1, with a cavity at each leaf and a run of 10 to it.
fn star(alloc: Global) -> Result<Topology, Fail> {
    let leaves = [1, 2, 3, 4, 5, 6, 7, 8, 9, 10, 11, 12];
    let mut topology = Topology::new(alloc);
    add_nodes(&mut topology, 0, &[1; 13])?;
    add_cavities(&mut topology, &leaves)?;
    for leaf in leaves {
        add_runs(&mut topology, &[(0, leaf, 10)])?;
    }
    Ok(topology)
}

/// The cells of a mask.
fn row(alloc: Global, table: &Table, mask: u32) -> Result<Vec<Option<u64>>, Fail> {
    let mut row = Vec::new(alloc);
    if 1 <= mask && mask <= table.masks() {
        for node in 0..table.nodes() {
            row.push(table.cell(mask, NodeNo(node)))?;
        }
    }
    Ok(row)
}

/// The cavities of a topology, in order.
fn all_cavities(alloc: Global, topology: &Topology) -> Result<Vec<CavityNo>, NoMemory>
    ensures len { IfOk result (λ cavities. length cavities.items ≡ length topology.now.cavities) }
    ensures in_range { IfOk result (λ cavities.
        All (λ cavity. cavity.0 < length topology.now.cavities) cavities.items) }
{
    let mut cavities = Vec::new(alloc);
    for cavity in 0..topology.cavity_count() {
        cavities.push(CavityNo(cavity))?;
    }
    Ok(cavities)
}

#[test]
fn three_cavities_along_a_line(rt: HostRuntime) -> Result<(), Fail> {
    let alloc = rt.alloc();
    let runs = [(0, 1, 100), (1, 2, 50)];
    let topology = built(alloc, &[10, 120, 200], &[0, 1, 2], &runs)?;
    assert!(rt; topology.cavity_count() == 3);
    let table = table(alloc, &topology, &[CavityNo(0), CavityNo(1), CavityNo(2)])?;
    assert_eq!(rt;
        row(alloc, &table, 1)?.as_slice(),
        [Some(100), Some(0), Some(50)].as_slice()
    );
    assert_eq!(rt;
        row(alloc, &table, 2)?.as_slice(),
        [Some(150), Some(50), Some(0)].as_slice()
    );
    assert_eq!(rt;
        row(alloc, &table, 3)?.as_slice(),
        [Some(260), Some(170), Some(220)].as_slice()
    );
    Ok(())
}

#[test]
fn three_cavities_at_one_node(rt: HostRuntime) -> Result<(), Fail> {
    let alloc = rt.alloc();
    let topology = built(alloc, &[5], &[0, 0, 0], &[])?;
    assert!(rt; topology.cavity_count() == 3);
    let scratch = Bump::new(alloc);
    let table = fill(
        &scratch,
        &topology,
        &[CavityNo(0), CavityNo(1), CavityNo(2)],
    )?;
    let table = table.copy_out(alloc)?;
    assert_eq!(rt; row(alloc, &table, 2)?.as_slice(), [Some(0)].as_slice());
    assert_eq!(rt; row(alloc, &table, 3)?.as_slice(), [Some(5)].as_slice());
    Ok(())
}

#[test]
fn a_shut_run_is_gone_round(rt: HostRuntime) -> Result<(), Fail> {
    let alloc = rt.alloc();
    let runs = [(0, 1, 5), (0, 2, 10), (1, 3, 10), (2, 3, 10)];
    let topology = built(alloc, &[0, 0, 0, 0, 0], &[0, 3], &runs)?;
    assert!(rt; topology.cavity_count() == 2 && topology.segment_count() == 4);
    let topology = topology.shut(&[SegmentNo(0)])?;
    assert!(rt; topology.cavity_count() == 2);
    let table = table(alloc, &topology, &[CavityNo(0), CavityNo(1)])?;
    let cells = [Some(20), Some(10), Some(10), Some(0), None];
    assert_eq!(rt; row(alloc, &table, 1)?.as_slice(), cells.as_slice());
    Ok(())
}

#[test]
fn two_branches_behind_a_coupler(rt: HostRuntime) -> Result<(), Fail> {
    let alloc = rt.alloc();
    let topology = behind_a_coupler(alloc)?;
    assert!(rt; topology.cavity_count() == 3);
    let table = table(alloc, &topology, &[CavityNo(0), CavityNo(1), CavityNo(2)])?;
    assert_eq!(rt;
        row(alloc, &table, 1)?.as_slice(),
        [Some(110), Some(100), Some(0), Some(160)].as_slice()
    );
    assert_eq!(rt;
        row(alloc, &table, 2)?.as_slice(),
        [Some(70), Some(60), Some(160), Some(0)].as_slice()
    );
    assert_eq!(rt;
        row(alloc, &table, 3)?.as_slice(),
        [Some(175), Some(165), Some(165), Some(165)].as_slice()
    );
    Ok(())
}

/// From the hub a tree for the eleven other leaves costs their runs and ten branches; from the
/// stem's leaf it has a run more, and from another one no run more but a branch there.
#[test]
fn a_star_of_twelve(rt: HostRuntime) -> Result<(), Fail> {
    let alloc = rt.alloc();
    let topology = star(alloc)?;
    assert!(rt; topology.cavity_count() == 12);
    let terminals = all_cavities(alloc, &topology)?;
    let table = table(alloc, &topology, &terminals)?;
    assert_eq!(rt; (table.masks(), table.nodes()), (2047, 13));
    let hub = Some(120);
    let stem = Some(130);
    let leaf = Some(120);
    assert_eq!(rt;
        row(alloc, &table, 2047)?.as_slice(),
        [
            hub, stem, leaf, leaf, leaf, leaf, leaf, leaf, leaf, leaf, leaf, leaf, leaf
        ]
        .as_slice()
    );
    Ok(())
}

/// The table of the first two cavities, through a filler.
fn filled<F: Filler>(alloc: Global, filler: &mut F, topology: &Topology) -> Result<Table, NoMemory>
    requires { length topology.now.cavities ≡ 2 }
    ensures { OnOk result (F.count filler.new ≡ next_count (F.count filler.old)) }
{
    filler.table(alloc, topology, &[CavityNo(0), CavityNo(1)])
}

#[test]
fn tables_are_counted(rt: HostRuntime) -> Result<(), Fail> {
    let alloc = rt.alloc();
    let topology = built(alloc, &[5], &[0, 0], &[])?;
    assert!(rt; topology.cavity_count() == 2);
    let mut filler = DirectFiller::new();
    assert_eq!(rt; filler.built(), 0);
    let table = filled(alloc, &mut filler, &topology)?;
    assert_eq!(rt; row(alloc, &table, 1)?.as_slice(), [Some(0)].as_slice());
    assert_eq!(rt; filler.built(), 1);
    Ok(())
}
