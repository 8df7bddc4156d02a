ghost use Rattle.std.specs.Prelude.{◌≡◌, ◌≢◌, ◌+◌, ◌-◌, ◌<◌, ◌≤◌, ℕ, Some, true, MatchOption, IsSome, length, map};
ghost use Rattle.std.specs.List.{All};
ghost use Rattle.loom_topology.specs.Topology.{IsSound, node_of, segment_at, is_open_to, branch_at};
ghost use Rattle.loom_topology.specs.Legal.{IsMask, plus};
ghost use Rattle.loom_topology.specs.Table.{cell_at};
ghost use Rattle.loom_topology.specs.Ties.{IsOneAt, Splits, StepsTo};
ghost use Rattle.loom_steiner.specs.LeastTable.{IsLeastTable};
ghost use Rattle.loom_layout.specs.Layout.{IsLeastOf};
ghost use Rattle.loom_layout.specs.Rule.{IsLowestStep, Applies};

use loom_base::{CavityNo, NodeNo, SegmentNo};
use loom_topology::{Table, Topology};

/// How a mask is laid at a node.
#[derive(Clone, Copy, Debug)]
pub enum Rule {
    /// It is one cavity, of this bit, which hangs there.
    Hang(u32),
    /// This part is laid there, and then the rest.
    Split(u32),
    /// A step over the segment leads to the node, where the mask is laid.
    Over(SegmentNo, NodeNo),
}

/// A step of a least tree.
#[derive(Clone, Copy)]
struct Step {
    segment: SegmentNo,
    node: NodeNo,
}

/// The bit of a mask's one cavity that lies at the node.
fn one_at(topology: &Topology, terminals: &[CavityNo], mask: u32, node: NodeNo) -> Option<u32>
    requires in_range { All (λ c. c.0 < length topology.now.cavities) terminals.now }
    requires few { length terminals.now ≤ 12 }
    requires mask { IsMask (map (λ c. c.0) terminals.now) mask }
    ensures { MatchOption result
        ((i : ℕ) → IsOneAt topology.now (map (λ c. c.0) terminals.now) mask node.0 i → ⊥)
        (IsOneAt topology.now (map (λ c. c.0) terminals.now) mask node.0) }
{
    let bit = mask.trailing_zeros();
    if mask == 1 << bit && topology.cavity_node(terminals[bit as usize + 1]) == node {
        Some(bit)
    } else {
        None
    }
}

/// What a part and the rest cost together at a node, with the branch there.
fn cost_of_parts(
    topology: &Topology,
    table: &Table,
    part: u32,
    rest: u32,
    node: NodeNo,
) -> Option<u64>
    requires part { (1 ≤ part) × (part ≤ table.now.masks) }
    requires rest { (1 ≤ rest) × (rest ≤ table.now.masks) }
    requires nodes { table.now.nodes ≡ length topology.now.nodes }
    requires in_range { node.0 < length topology.now.nodes }
    ensures { result ≡ plus (plus (cell_at table.now part node.0) (cell_at table.now rest node.0))
        (Some (branch_at topology.now node.0)) }
{
    let first = table.cell(part, node)?;
    let second = table.cell(rest, node)?;
    Some(first + second + topology.branch(node))
}

/// The least part that splits off from a mask of this cost at a node. With the first cavity in each
/// part, a part rises as its rest falls.
fn least_split(
    topology: &Topology,
    table: &Table,
    mask: u32,
    node: NodeNo,
    cost: u64,
) -> Option<u32>
    requires mask { (1 ≤ mask) × (mask ≤ table.now.masks) }
    requires nodes { table.now.nodes ≡ length topology.now.nodes }
    requires in_range { node.0 < length topology.now.nodes }
    requires cost { cell_at table.now mask node.0 ≡ Some cost }
    ensures { MatchOption result
        ((part : ℕ) → Splits topology.now (cell_at table.now) mask node.0 part → ⊥)
        (IsLeastOf (Splits topology.now (cell_at table.now) mask node.0)) }
{
    let others = mask & (mask - 1);
    let mut rest = others;
    while rest != 0 {
        let part = mask - rest;
        if cost_of_parts(topology, table, part, rest, node) == Some(cost) {
            return Some(part);
        }
        rest = (rest - 1) & others;
    }
    None
}

/// The step over an open segment at a node, if it leads on from there for a mask of this cost.
fn step_over(
    topology: &Topology,
    table: &Table,
    mask: u32,
    node: NodeNo,
    cost: u64,
    segment: SegmentNo,
) -> Option<Step>
    requires sound { IsSound topology.now }
    requires mask { (1 ≤ mask) × (mask ≤ table.now.masks) }
    requires nodes { table.now.nodes ≡ length topology.now.nodes }
    requires cost { cell_at table.now mask node.0 ≡ Some cost }
    requires below { segment.0 < length topology.now.segments }
    requires opens { is_open_to (segment_at topology.now segment.0) node.0 ≡ true }
    ensures { MatchOption result
        ((u : ℕ) → StepsTo topology.now (cell_at table.now) mask node.0 segment.0 u → ⊥)
        (λ step. (step.segment ≡ segment)
        × StepsTo topology.now (cell_at table.now) mask node.0 segment.0 step.node.0) }
{
    let next = topology.other_end(segment, node)?;
    let behind = table.cell(mask, next)?;
    if behind + topology.price(segment) == cost {
        Some(Step {
            segment,
            node: next,
        })
    } else {
        None
    }
}

/// The step over the lowest open segment that leads on from a node for a mask of this cost.
fn lowest_step(
    topology: &Topology,
    table: &Table,
    mask: u32,
    node: NodeNo,
    cost: u64,
) -> Option<Step>
    requires sound { IsSound topology.now }
    requires mask { (1 ≤ mask) × (mask ≤ table.now.masks) }
    requires nodes { table.now.nodes ≡ length topology.now.nodes }
    requires in_range { node.0 < length topology.now.nodes }
    requires cost { cell_at table.now mask node.0 ≡ Some cost }
    ensures { MatchOption result
        ((s u : ℕ) → StepsTo topology.now (cell_at table.now) mask node.0 s u → ⊥)
        (λ step. IsLowestStep topology.now (cell_at table.now) mask node.0
        step.segment.0 step.node.0) }
{
    for &segment in topology.segments_at(node) {
        if let Some(step) = step_over(topology, table, mask, node, cost, segment) {
            return Some(step);
        }
    }
    None
}

/// The rule by which a mask that has a least cost at a node is laid there.
pub fn rule_at(
    topology: &Topology,
    terminals: &[CavityNo],
    table: &Table,
    mask: u32,
    node: NodeNo,
) -> Rule
    requires sound { IsSound topology.now }
    requires in_range { All (λ c. c.0 < length topology.now.cavities) terminals.now }
    requires few { length terminals.now ≤ 12 }
    requires table { IsLeastTable topology.now (map (λ c. c.0) terminals.now) table.now }
    requires mask { IsMask (map (λ c. c.0) terminals.now) mask }
    requires node { node.0 < length topology.now.nodes }
    requires cost { IsSome (cell_at table.now mask node.0) }
    ensures { Applies topology.now (map (λ c. c.0) terminals.now) (cell_at table.now)
        mask node.0 result }
{
    if let Some(bit) = one_at(topology, terminals, mask, node) {
        return Rule::Hang(bit);
    }
    let cost = table.cell(mask, node).unwrap();
    if let Some(part) = least_split(topology, table, mask, node, cost) {
        return Rule::Split(part);
    }
    let step = lowest_step(topology, table, mask, node, cost).unwrap();
    Rule::Over(step.segment, step.node)
}
