ghost use Rattle.std.specs.Prelude.{◌≡◌, ◌+◌, ◌-◌, ◌*◌, ◌^◌, ◌<◌, ◌≤◌, ℕ, Some, IsSome, IfOk, IfErr, OnOk, MatchOption, length, map};
ghost use Rattle.std.specs.List.{All, Contains};
ghost use Rattle.loom_topology.specs.Topology.{IsSound, node_of};
ghost use Rattle.loom_topology.specs.Legal.{IsMask, chosen};
ghost use Rattle.loom_topology.specs.Reach.{AreReached};
ghost use Rattle.loom_topology.specs.Table.{cell_at};
ghost use Rattle.loom_steiner.specs.LeastTable.{IsLeastTable};
ghost use Rattle.loom_types.specs.SetMask.{IsSet, rest_of, stem_node};
ghost use Rattle.loom_types.specs.LayoutTree.{IsLaidOut, layout_cost, tree_of};
ghost use Rattle.loom_layout.specs.Layout.{IsLayout, IsLayoutOf};
ghost use Rattle.loom_layout.specs.Stop.{IsFirstWithout, StopIsDue};

use crate::LayoutStop;
use crate::walk::{Bundle, Walk};
use loom_base::{CavityNo, List, NoMemory, NodeNo};
use loom_topology::{Table, Topology};
use loom_types::{Layout, rest, stem};
use std::alloc::Global;

/// The points whose bits stand in a mask, in order.
fn chosen_points(alloc: Global, points: &[u32], mask: u32) -> Result<List<u32>, NoMemory>
    ensures { IfOk result (λ list. list ≡ chosen points.now mask) }
{
    let mut list = List::new(alloc);
    let mut left = mask;
    for point in points {
        if left % 2 == 1 {
            list.push(*point)?;
        }
        left /= 2;
    }
    Ok(list)
}

/// The first cavity of a set that doesn't lie at one of these nodes.
fn first_outside(
    topology: &Topology,
    terminals: &[CavityNo],
    mask: u32,
    nodes: &[NodeNo],
) -> Option<CavityNo>
    requires { All (λ c. c.0 < length topology.now.cavities) terminals.now }
    ensures { MatchOption result
        (All (λ c. Contains (map (λ v. v.0) nodes.now) (node_of topology.now c))
        (chosen (map (λ c. c.0) terminals.now) mask))
        (λ cavity. IsFirstWithout
        (λ c. Contains (map (λ v. v.0) nodes.now) (node_of topology.now c))
        (chosen (map (λ c. c.0) terminals.now) mask) cavity.0) }
{
    let mut left = mask;
    for cavity in terminals {
        if left % 2 == 1 && !nodes.contains(&topology.cavity_node(*cavity)) {
            return Some(*cavity);
        }
        left /= 2;
    }
    None
}

/// The layout of a mask of the table that has a least cost at the node.
fn laid_from(
    alloc: Global,
    topology: &Topology,
    terminals: &[CavityNo],
    table: &Table,
    mask: u32,
    node: NodeNo,
) -> Result<Layout, NoMemory>
    requires sound { IsSound topology.now }
    requires in_range { All (λ c. c.0 < length topology.now.cavities) terminals.now }
    requires few { length terminals.now ≤ 12 }
    requires table { IsLeastTable topology.now (map (λ c. c.0) terminals.now) table.now }
    requires mask { IsMask (map (λ c. c.0) terminals.now) mask }
    requires node { node.0 < length topology.now.nodes }
    requires cost { IsSome (cell_at table.now mask node.0) }
    ensures { IfOk result (λ layout. IsLayout topology.now (map (λ c. c.0) terminals.now)
        (cell_at table.now) mask node.0 (tree_of layout)) }
{
    let mut walk = Walk::new(alloc, terminals)?;
    let point = 0;
    walk.lay(topology, terminals, table, Bundle { mask, node, point })?;
    let Walk { steps, points } = walk;
    let hangs = chosen_points(alloc, &points, mask)?;
    Ok(Layout {
        steps: List::from_vec(steps),
        hangs,
    })
}

/// The layout of a set of a net's terminals: a wiring tree for the set's other cavities from the
/// node of its first one. Bit i of the mask stands for terminal i. Least costs alone fix it: one
/// cavity at a node hangs there; else the least part with the first cavity that splits off is laid
/// there, and then the rest; else a step over the lowest open segment that leads on is taken.
/// Unreachable exactly where some cavity of the set isn't reached from the first one's node.
pub fn layout(
    alloc: Global,
    topology: &Topology,
    terminals: &[CavityNo],
    table: &Table,
    mask: u32,
) -> Result<Layout, LayoutStop>
    requires at_least { 2 ≤ length terminals.now }
    requires at_most { length terminals.now ≤ 12 }
    requires in_range { All (λ cavity. cavity.0 < length topology.now.cavities) terminals.now }
    requires table { IsLeastTable topology.now (map (λ cavity. cavity.0) terminals.now) table.now }
    requires set { IsSet (map (λ cavity. cavity.0) terminals.now) mask }
    ensures fixed { IfOk result (IsLayoutOf topology.now (map (λ cavity. cavity.0) terminals.now)
        (cell_at table.now) mask) }
    ensures laid_out { IfOk result (IsLaidOut topology.now
        (map (λ cavity. cavity.0) terminals.now) mask) }
    ensures cost { IfOk result (λ layout.
        cell_at table.now (rest_of mask)
        (stem_node topology.now (map (λ cavity. cavity.0) terminals.now) mask)
        ≡ Some (layout_cost topology.now (map (λ cavity. cavity.0) terminals.now) mask layout)) }
    ensures reached { OnOk result (AreReached topology.now
        (chosen (map (λ cavity. cavity.0) terminals.now) mask)
        (stem_node topology.now (map (λ cavity. cavity.0) terminals.now) mask)) }
    ensures stop { IfErr result (StopIsDue topology.now
        (map (λ cavity. cavity.0) terminals.now) mask) }
{
    let _nodes = topology.node_count();
    let node = topology.cavity_node(terminals[stem(mask) as usize]);
    let rest = rest(mask);
    if table.cell(rest, node).is_none() {
        let reached = topology.reach(node)?;
        let cavity = first_outside(topology, terminals, mask, reached.as_slice()).unwrap();
        return Err(LayoutStop::Unreachable { cavity, reached });
    }
    let layout = laid_from(alloc, topology, terminals, table, rest, node)?;
    Ok(layout)
}
