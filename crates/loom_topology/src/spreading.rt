ghost use Rattle.std.specs.Prelude.{◌≡◌, ◌↔◌, ◌<◌, ◌≤◌, ℕ, [], false, length, map, replicate, IsTrue, IfOk, OnOk};
ghost use Rattle.std.specs.List.{Contains, filter, range_with_len};
ghost use Rattle.std.specs.List.Sorted.{IsStrictlyIncreasing};
ghost use Rattle.loom_topology.specs.Found.{IsSpread, is_marked, view_of_found, with_found};
ghost use Rattle.loom_topology.specs.Reach.{IsReached};
ghost use Rattle.loom_topology.specs.Topology.{IsSound};

use crate::Topology;
use loom_base::{List, NoMemory, NodeNo};
use std::alloc::Global;

/// Nodes that were found, in the order in which they were, and a mark for each of them.
#[derive(Debug, Drop)]
pub struct Found {
    marks: Vec<bool>,
    nodes: Vec<NodeNo>,
}

impl Found {
    /// No node of that many.
    fn new(alloc: Global, count: usize) -> Result<Found, NoMemory>
        ensures marks { IfOk result (λ found. found.marks.items ≡ replicate count false) }
        ensures nodes { IfOk result (λ found. found.nodes.items ≡ []) }
    {
        let mut marks = Vec::new(alloc);
        marks.resize(count, false)?;
        Ok(Found {
            marks,
            nodes: Vec::new(alloc),
        })
    }

    /// Adds a node, if it isn't there.
    fn add(&mut self, node: NodeNo) -> Result<(), NoMemory>
        requires { node.0 < length self.old.marks.items }
        ensures { OnOk result (view_of_found self.new
            ≡ with_found (view_of_found self.old) node.0) }
    {
        if !self.marks[node.0 as usize] {
            self.marks[node.0 as usize] = true;
            self.nodes.push(node)?;
        }
        Ok(())
    }

    /// Adds the other ends of the open segments at a node.
    fn add_ends(&mut self, topology: &Topology, node: NodeNo) -> Result<(), NoMemory>
        requires sound { IsSound topology.now }
        requires count { length self.old.marks.items ≡ length topology.now.nodes }
        requires in_range { node.0 < length topology.now.nodes }
        ensures { OnOk result (
            IsSpread topology.now node.0 (view_of_found self.old) (view_of_found self.new)) }
    {
        for segment in topology.segments_at(node) {
            let end = topology.other_end(*segment, node).unwrap();
            self.add(end)?;
        }
        Ok(())
    }

    /// The marked nodes, rising.
    fn rising(&self, alloc: Global) -> Result<List<NodeNo>, NoMemory>
        requires { length self.now.marks.items < 4294967296 }
        ensures { IfOk result (λ list. map (λ v. v.0) list
            ≡ filter (is_marked (view_of_found self.now))
            (range_with_len 0 (length self.now.marks.items))) }
    {
        let mut list = List::new(alloc);
        for (number, is_marked) in self.marks.iter().enumerate() {
            if *is_marked {
                list.push(NodeNo(number as u32))?;
            }
        }
        Ok(list)
    }
}

/// The nodes that chains of open segments reach from a node: each node that is found leads to
/// further ones.
pub fn found_from(alloc: Global, topology: &Topology, start: NodeNo) -> Result<Found, NoMemory>
    requires { start.0 < length topology.now.nodes }
    ensures count { IfOk result (λ found. length found.marks.items ≡ length topology.now.nodes) }
    ensures few { IfOk result (λ found. length found.marks.items ≤ 1024) }
    ensures reached { IfOk result (λ found. (u : ℕ) → IsTrue (is_marked (view_of_found found) u)
        ↔ IsReached topology.now start.0 u) }
{
    let mut found = Found::new(alloc, topology.node_count() as usize)?;
    found.add(start)?;
    let mut next = 0;
    while next < found.nodes.len() {
        let node = found.nodes[next];
        found.add_ends(topology, node)?;
        next += 1;
    }
    Ok(found)
}

/// The nodes that chains of open segments reach from a node, rising.
pub fn reached_from(
    alloc: Global,
    topology: &Topology,
    start: NodeNo,
) -> Result<List<NodeNo>, NoMemory>
    requires { start.0 < length topology.now.nodes }
    ensures rising { IfOk result (λ nodes. IsStrictlyIncreasing (map (λ v. v.0) nodes)) }
    ensures reached { IfOk result (λ nodes. (u : ℕ) → Contains (map (λ v. v.0) nodes) u
        ↔ IsReached topology.now start.0 u) }
{
    let found = found_from(alloc, topology, start)?;
    found.rising(alloc)
}
