ghost use Rattle.std.specs.Prelude.{◌≡◌, ◌+◌, ◌<◌, ◌≤◌, length, IfOk, OnOk};

use crate::{FirstBreak, Part, legal};
use loom_base::{Branch, CavityNo, NodeNo, Price, SegmentNo};
use loom_topology::{Kind, Table, Topology};
use std::alloc::Global;
use std::test::Fail;

/// Three nodes in a row with a cavity at each, and runs of 100 and 50 between them.
fn row_of_three(alloc: Global) -> Result<Topology, Fail>
    ensures nodes { IfOk result (λ topology. length topology.nodes ≡ 3) }
    ensures cavities { IfOk result (λ topology. length topology.cavities ≡ 3) }
{
    let mut topology = three_nodes(alloc)?;
    let long = Price::new(100).ok_or("a price")?;
    let short = Price::new(50).ok_or("a price")?;
    topology.add_segment(NodeNo(0), NodeNo(1), Kind::Run { length: long })?;
    topology.add_segment(NodeNo(1), NodeNo(2), Kind::Run { length: short })?;
    Ok(topology)
}

fn three_nodes(alloc: Global) -> Result<Topology, Fail>
    ensures nodes { IfOk result (λ topology. length topology.nodes ≡ 3) }
    ensures cavities { IfOk result (λ topology. length topology.cavities ≡ 3) }
    ensures segments { IfOk result (λ topology. length topology.segments ≡ 0) }
{
    let mut topology = Topology::new(alloc);
    topology.add_node(0, Branch::new(10).ok_or("a branch cost")?)?;
    topology.add_node(0, Branch::new(120).ok_or("a branch cost")?)?;
    topology.add_node(0, Branch::new(200).ok_or("a branch cost")?)?;
    topology.add_cavity(NodeNo(0))?;
    topology.add_cavity(NodeNo(1))?;
    topology.add_cavity(NodeNo(2))?;
    Ok(topology)
}

/// The table of these numbers.
fn table_of(alloc: Global, numbers: [[u64; 3]; 3]) -> Result<Table, Fail>
    ensures masks { IfOk result (λ table. table.masks ≡ 3) }
    ensures nodes { IfOk result (λ table. table.nodes ≡ 3) }
{
    let mut table = Table::new(alloc, 3, 3)?;
    for mask in 1..4 {
        for node in 0..3 {
            let number = numbers[mask as usize - 1][node as usize];
            table.set(mask, NodeNo(node), Some(number.min(1000)));
        }
    }
    Ok(table)
}

#[test]
fn least_costs_are_legal(rt: HostRuntime) -> Result<(), Fail> {
    let topology = row_of_three(rt.alloc())?;
    let terminals = [CavityNo(0), CavityNo(1), CavityNo(2)];
    let table = table_of(rt.alloc(), [[100, 0, 50], [150, 50, 0], [260, 170, 220]])?;
    assert_eq!(rt; legal(&topology, &terminals, &table), Ok(()));
    let zeros = table_of(rt.alloc(), [[0, 0, 0], [0, 0, 0], [0, 0, 0]])?;
    assert_eq!(rt; legal(&topology, &terminals, &zeros), Ok(()));
    Ok(())
}

#[test]
fn first_breaks_are_told(rt: HostRuntime) -> Result<(), Fail> {
    let topology = row_of_three(rt.alloc())?;
    let terminals = [CavityNo(0), CavityNo(1), CavityNo(2)];
    let table = table_of(rt.alloc(), [[100, 0, 50], [150, 50, 0], [261, 170, 220]])?;
    let split = FirstBreak {
        mask: 3,
        node: NodeNo(0),
        part: Part::Split(1),
        left: Some(261),
        right: 260,
    };
    assert_eq!(rt; legal(&topology, &terminals, &table), Err(split));
    let empty = Table::new(rt.alloc(), 3, 3)?;
    let leaf = FirstBreak {
        mask: 1,
        node: NodeNo(1),
        part: Part::Leaf,
        left: None,
        right: 0,
    };
    assert_eq!(rt; legal(&topology, &terminals, &empty), Err(leaf));
    Ok(())
}

/// Two nodes with a cavity at each, and runs of 7, 5 and 6 between them.
fn three_runs(alloc: Global) -> Result<Topology, Fail>
    ensures cavities { IfOk result (λ topology. length topology.cavities ≡ 2) }
    ensures nodes { IfOk result (λ topology. length topology.nodes ≡ 2) }
    ensures segments { IfOk result (λ topology. length topology.segments ≡ 3) }
{
    let mut topology = two_nodes(alloc)?;
    add_run(&mut topology, 7)?;
    add_run(&mut topology, 5)?;
    add_run(&mut topology, 6)?;
    Ok(topology)
}

fn two_nodes(alloc: Global) -> Result<Topology, Fail>
    ensures cavities { IfOk result (λ topology. length topology.cavities ≡ 2) }
    ensures nodes { IfOk result (λ topology. length topology.nodes ≡ 2) }
    ensures segments { IfOk result (λ topology. length topology.segments ≡ 0) }
{
    let branch = Branch::new(0).ok_or("a branch cost")?;
    let mut topology = Topology::new(alloc);
    topology.add_node(0, branch)?;
    topology.add_node(0, branch)?;
    topology.add_cavity(NodeNo(0))?;
    topology.add_cavity(NodeNo(1))?;
    Ok(topology)
}

/// Adds a run between the first two nodes.
fn add_run(topology: &mut Topology, millimetres: u64) -> Result<(), Fail>
    requires nodes { 2 ≤ length topology.old.nodes }
    requires room { length topology.old.segments < 4096 }
    ensures cavities { OnOk result (length topology.new.cavities ≡ length topology.old.cavities) }
    ensures nodes { OnOk result (length topology.new.nodes ≡ length topology.old.nodes) }
    ensures segments { OnOk result (length topology.new.segments
        ≡ length topology.old.segments + 1) }
{
    let length = Price::new(millimetres).ok_or("a price")?;
    topology.add_segment(NodeNo(0), NodeNo(1), Kind::Run { length })?;
    Ok(())
}

/// A table of two nodes: a cost at the first one, and none at the second one's own cavity.
fn costs_from(alloc: Global, cost: u64) -> Result<Table, Fail>
    ensures masks { IfOk result (λ table. table.masks ≡ 1) }
    ensures nodes { IfOk result (λ table. table.nodes ≡ 2) }
{
    let mut table = Table::new(alloc, 1, 2)?;
    table.set(1, NodeNo(0), Some(cost.min(1000)));
    table.set(1, NodeNo(1), Some(0));
    Ok(table)
}

/// The break of the first cell over a run.
fn break_over(segment: u32, left: u64, right: u64) -> FirstBreak {
    FirstBreak {
        mask: 1,
        node: NodeNo(0),
        part: Part::Over(SegmentNo(segment)),
        left: Some(left),
        right,
    }
}

#[test]
fn parallel_runs_break_in_order(rt: HostRuntime) -> Result<(), Fail> {
    let topology = three_runs(rt.alloc())?;
    let terminals = [CavityNo(0), CavityNo(1)];
    let low = costs_from(rt.alloc(), 5)?;
    assert_eq!(rt; legal(&topology, &terminals, &low), Ok(()));
    let middle = costs_from(rt.alloc(), 6)?;
    let second = break_over(1, 6, 5);
    assert_eq!(rt; legal(&topology, &terminals, &middle), Err(second));
    let high = costs_from(rt.alloc(), 8)?;
    let first = break_over(0, 8, 7);
    assert_eq!(rt; legal(&topology, &terminals, &high), Err(first));
    Ok(())
}

#[test]
fn a_shut_run_bounds_nothing(rt: HostRuntime) -> Result<(), Fail> {
    let topology = three_runs(rt.alloc())?;
    let shut = topology.shut(&[SegmentNo(1)])?;
    let table = costs_from(rt.alloc(), 6)?;
    assert_eq!(rt; legal(&shut, &[CavityNo(0), CavityNo(1)], &table), Ok(()));
    Ok(())
}
