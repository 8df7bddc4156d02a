ghost use Rattle.std.specs.Prelude.{◌≡◌, ◌↔◌, ◌+◌, ◌-◌, ◌^◌, ◌<◌, ◌≤◌, ℕ, All, IfSome, IsOk, IsTrue, Ok, OnOk, length, map};
ghost use Rattle.loom_topology.specs.Topology.{IsSound};
ghost use Rattle.loom_topology.specs.Table.{cell_at};
ghost use Rattle.loom_topology.specs.Legal.{IsAtMost, IsLegal, plus};
ghost use Rattle.loom_potential.specs.FirstBreak.{cell_check, first_break, is_first_part, is_one_at, leaf_check, mask_check, over_checks, split_check, split_checks};
ghost use Rattle.loom_potential.specs.Lowest.{IsBelowEveryTree};
ghost use Rattle.loom_potential.specs.Ways.{AreWays, HoldsOver};

use crate::first_break::at_most;
use crate::parts::{first_part, next_part};
use crate::ways::{NO_WAY, find_ways};
use crate::{FirstBreak, Part};
use loom_base::{CavityNo, NodeNo};
use loom_topology::{Table, Topology, Way};

/// Ok exactly where the table is legal, and then no cell is above the cost of any wiring tree for
/// it; else the first inequality that fails: masks rising, then nodes rising, and at each cell
/// first the leaf, then the open segments at the node rising, then the parts that hold the mask's
/// first cavity and leave a rest, rising.
pub fn legal(topology: &Topology, terminals: &[CavityNo], table: &Table) -> Result<(), FirstBreak>
    requires enough { 2 ≤ length terminals.now }
    requires few { length terminals.now ≤ 12 }
    requires in_range { All (λ c. c.0 < length topology.now.cavities) terminals.now }
    requires masks { table.now.masks ≡ 2 ^ (length terminals.now - 1) - 1 }
    requires nodes { table.now.nodes ≡ length topology.now.nodes }
    ensures first { result
        ≡ first_break topology.now (map (λ c. c.0) terminals.now) (cell_at table.now) }
    ensures legal { IsOk result
        ↔ IsLegal topology.now (map (λ c. c.0) terminals.now) (cell_at table.now) }
    ensures below { OnOk result (
        IsBelowEveryTree topology.now (map (λ c. c.0) terminals.now) (cell_at table.now)) }
{
    let nodes = topology.node_count();
    prove!(nodes == table.nodes());
    let mut places = [NO_WAY; 4096];
    let count = find_ways(topology, &mut places);
    let ways = &places[..count];
    for mask in 1..table.masks() + 1 {
        test_mask(topology, terminals, ways, table, mask)?;
    }
    Ok(())
}

/// The inequalities of a mask's cells. Whether the ways and the splits hold at all its cells is
/// tested beforehand: the ways are fewer than the open segments, and for the splits of one part
/// cells stand side by side.
fn test_mask(
    topology: &Topology,
    terminals: &[CavityNo],
    ways: &[Way],
    table: &Table,
    mask: u32,
) -> Result<(), FirstBreak>
    requires sound { IsSound topology.now }
    requires few { length terminals.now ≤ 12 }
    requires in_range { All (λ c. c.0 < length topology.now.cavities) terminals.now }
    requires ways { AreWays topology.now ways.now }
    requires masks { table.now.masks ≡ 2 ^ (length terminals.now - 1) - 1 }
    requires nodes { table.now.nodes ≡ length topology.now.nodes }
    requires mask_from { 1 ≤ mask }
    requires mask_to { mask ≤ table.now.masks }
    ensures { result
        ≡ mask_check topology.now (map (λ c. c.0) terminals.now) (cell_at table.now) mask }
{
    let all_over = all_over(topology, ways, table, mask);
    let all_split = all_split(topology, table, mask);
    for node in 0..topology.node_count() {
        test_leaf(topology, terminals, table, mask, NodeNo(node))?;
        if !all_over {
            test_segments(topology, table, mask, NodeNo(node))?;
        }
        if !all_split {
            test_splits(topology, table, mask, NodeNo(node))?;
        }
    }
    Ok(())
}

/// The inequality of a mask of one cavity, at its own node.
fn test_leaf(
    topology: &Topology,
    terminals: &[CavityNo],
    table: &Table,
    mask: u32,
    node: NodeNo,
) -> Result<(), FirstBreak>
    requires few { length terminals.now ≤ 12 }
    requires in_range { All (λ c. c.0 < length topology.now.cavities) terminals.now }
    requires masks { table.now.masks ≡ 2 ^ (length terminals.now - 1) - 1 }
    requires mask_from { 1 ≤ mask }
    requires mask_to { mask ≤ table.now.masks }
    requires node { node.0 < table.now.nodes }
    ensures { result
        ≡ leaf_check topology.now (map (λ c. c.0) terminals.now) (cell_at table.now) mask node.0 }
{
    if is_one_at(topology, terminals, mask, node) {
        at_most(mask, node, Part::Leaf, table.cell(mask, node), Some(0))
    } else {
        Ok(())
    }
}

/// Whether the mask is one cavity, and it lies at the node.
fn is_one_at(topology: &Topology, terminals: &[CavityNo], mask: u32, node: NodeNo) -> bool
    requires few { length terminals.now ≤ 12 }
    requires in_range { All (λ c. c.0 < length topology.now.cavities) terminals.now }
    requires mask_from { 1 ≤ mask }
    requires mask_to { mask < 2 ^ (length terminals.now - 1) }
    ensures { result ≡ is_one_at topology.now (map (λ c. c.0) terminals.now) mask node.0 }
{
    let first = mask.trailing_zeros();
    mask == 1 << first && topology.cavity_node(terminals[first as usize + 1]) == node
}

/// The inequalities over the open segments at a node.
fn test_segments(
    topology: &Topology,
    table: &Table,
    mask: u32,
    node: NodeNo,
) -> Result<(), FirstBreak>
    requires sound { IsSound topology.now }
    requires nodes { table.now.nodes ≡ length topology.now.nodes }
    requires mask_from { 1 ≤ mask }
    requires mask_to { mask ≤ table.now.masks }
    requires node { node.0 < table.now.nodes }
    ensures { result ≡ over_checks topology.now (cell_at table.now) mask node.0 }
{
    let left = table.cell(mask, node);
    for segment in topology.segments_at(node) {
        let end = topology.other_end(*segment, node).unwrap();
        let right = plus(table.cell(mask, end), topology.price(*segment));
        at_most(mask, node, Part::Over(*segment), left, right)?;
    }
    Ok(())
}

/// Whether the inequalities over all open segments hold at all cells of a mask.
fn all_over(topology: &Topology, ways: &[Way], table: &Table, mask: u32) -> bool
    requires sound { IsSound topology.now }
    requires nodes { table.now.nodes ≡ length topology.now.nodes }
    requires ways { AreWays topology.now ways.now }
    requires mask_from { 1 ≤ mask }
    requires mask_to { mask ≤ table.now.masks }
    ensures { IsTrue result ↔ ((v : ℕ) → v < length topology.now.nodes
        → over_checks topology.now (cell_at table.now) mask v ≡ Ok tt) }
{
    for way in ways {
        if !holds_over(way, table, mask) {
            return false;
        }
    }
    true
}

/// Whether the inequalities over a way hold at both of its nodes.
fn holds_over(way: &Way, table: &Table, mask: u32) -> bool
    requires from { way.now.from.0 < table.now.nodes }
    requires to { way.now.to.0 < table.now.nodes }
    requires price { way.now.price ≤ 1000000 }
    requires mask_from { 1 ≤ mask }
    requires mask_to { mask ≤ table.now.masks }
    ensures { IsTrue result ↔ HoldsOver (cell_at table.now) mask way.now }
{
    let from = table.cell(mask, way.from);
    let to = table.cell(mask, way.to);
    is_at_most(from, plus(to, way.price)) && is_at_most(to, plus(from, way.price))
}

/// Whether the left side is at most the right one.
fn is_at_most(left: Option<u64>, right: Option<u64>) -> bool
    ensures { IsTrue result ↔ IsAtMost left right }
{
    match (left, right) {
        (_, None) => true,
        (None, Some(_)) => false,
        (Some(cost), Some(bound)) => cost <= bound,
    }
}

/// The inequalities over the parts of a mask that hold its first cavity and leave a rest.
fn test_splits(
    topology: &Topology,
    table: &Table,
    mask: u32,
    node: NodeNo,
) -> Result<(), FirstBreak>
    requires nodes { table.now.nodes ≡ length topology.now.nodes }
    requires mask_from { 1 ≤ mask }
    requires mask_to { mask ≤ table.now.masks }
    requires node { node.0 < table.now.nodes }
    ensures { result ≡ split_checks topology.now (cell_at table.now) mask node.0 }
{
    let mut part = first_part(mask);
    while part < mask {
        test_split(topology, table, mask, node, part)?;
        part = next_part(mask, part);
    }
    Ok(())
}

/// Tells that the inequalities of the splits hold at all cells of a mask.
fn all_split(topology: &Topology, table: &Table, mask: u32) -> bool
    requires nodes { table.now.nodes ≡ length topology.now.nodes }
    requires mask_from { 1 ≤ mask }
    requires mask_to { mask ≤ table.now.masks }
    ensures { IsTrue result → (v : ℕ) → v < length topology.now.nodes
        → split_checks topology.now (cell_at table.now) mask v ≡ Ok tt }
{
    let mut part = first_part(mask);
    while part < mask {
        if !all_split_by(topology, table, mask, part) {
            return false;
        }
        part = next_part(mask, part);
    }
    true
}

/// Tells that the inequality of one part holds at all cells of a mask. It doesn't stop at a cell
/// where it fails, since several cells are looked at together so.
fn all_split_by(topology: &Topology, table: &Table, mask: u32, part: u32) -> bool
    requires nodes { table.now.nodes ≡ length topology.now.nodes }
    requires mask_to { mask ≤ table.now.masks }
    requires part_from { 1 ≤ part }
    requires part_to { part < mask }
    ensures { IsTrue result → (v : ℕ) → v < length topology.now.nodes
        → split_check topology.now (cell_at table.now) mask v part ≡ Ok tt }
{
    let mut holds = true;
    for node in 0..topology.node_count() {
        holds &= test_split(topology, table, mask, NodeNo(node), part).is_ok();
    }
    holds
}

/// The inequality of one part of a mask and the rest.
fn test_split(
    topology: &Topology,
    table: &Table,
    mask: u32,
    node: NodeNo,
    part: u32,
) -> Result<(), FirstBreak>
    requires nodes { table.now.nodes ≡ length topology.now.nodes }
    requires mask_to { mask ≤ table.now.masks }
    requires node { node.0 < table.now.nodes }
    requires part_from { 1 ≤ part }
    requires part_to { part < mask }
    ensures { result ≡ split_check topology.now (cell_at table.now) mask node.0 part }
{
    let parts = both(table.cell(part, node), table.cell(mask - part, node));
    let right = plus(parts, topology.branch(node));
    at_most(mask, node, Part::Split(part), table.cell(mask, node), right)
}

/// A number and a cost; without a number the sum has none.
fn plus(number: Option<u64>, cost: u64) -> Option<u64>
    requires small { IfSome number (λ n. n ≤ 2 ^ 41) }
    requires low { cost ≤ 1000000 }
    ensures { result ≡ plus number (Some cost) }
{
    number.map(|n| n + cost)
}

/// The sum of two cells; where one has no number the sum has none.
fn both(one: Option<u64>, other: Option<u64>) -> Option<u64>
    requires one { IfSome one (λ n. n ≤ 2 ^ 40) }
    requires other { IfSome other (λ n. n ≤ 2 ^ 40) }
    ensures value { result ≡ plus one other }
    ensures small { IfSome result (λ n. n ≤ 2 ^ 41) }
{
    match (one, other) {
        (Some(one), Some(other)) => Some(one + other),
        _ => None,
    }
}
