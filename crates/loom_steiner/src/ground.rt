ghost use Rattle.std.specs.Prelude.{ℕ, ◌≡◌, ◌<◌, ◌≤◌, length, slice_index, IfOk};
ghost use Rattle.std.specs.List.{All};
ghost use Rattle.loom_topology.specs.Topology.{branch_at};
ghost use Rattle.loom_topology.specs.Ways.{AreInRange};
ghost use Rattle.loom_steiner.specs.Ground.{IsGround};
ghost use Rattle.loom_steiner.specs.Ways.{AreWays};

use crate::ways::ways_from;
use bumpalo::Bump;
use bumpalo::collections::into_bump_slice;
use loom_base::{NoMemory, NodeNo};
use loom_topology::{Topology, Way};

/// What stays the same while a table is filled.
#[derive(Clone, Copy, Debug)]
pub struct Ground<'s> {
    /// The ways from each node.
    pub ways: &'s [&'s [Way]],
    /// The branch cost at each node.
    pub branches: &'s [u64],
}

impl<'s> Ground<'s> {
    /// The ground of a topology.
    pub fn new(scratch: &'s Bump, topology: &Topology) -> Result<Ground<'s>, NoMemory>
        ensures { IfOk result (λ ground.
            IsGround topology.now ground.ways.now ground.branches.now) }
    {
        Ok(Ground {
            ways: all_ways(scratch, topology)?,
            branches: all_branches(scratch, topology)?,
        })
    }
}

/// The ways from each node.
fn all_ways<'s>(scratch: &'s Bump, topology: &Topology) -> Result<&'s [&'s [Way]], NoMemory>
    ensures len { IfOk result (λ ways. length ways.now ≡ length topology.now.nodes) }
    ensures ways { IfOk result (λ ways. AreWays topology.now ways.now) }
    ensures range { IfOk result (λ ways.
        All (λ from. AreInRange (length topology.now.nodes) from.now) ways.now) }
{
    let marks = scratch.try_alloc_slice_fill_clone(topology.segment_count() as usize, false)?;
    topology.mark_cheapest(marks);
    let mut ways = Vec::with_capacity(scratch, topology.node_count() as usize)?;
    for node in 0..topology.node_count() {
        ways.push(ways_from(scratch, topology, NodeNo(node), marks)?)?;
    }
    Ok(into_bump_slice(ways))
}

/// The branch cost at each node.
fn all_branches<'s>(scratch: &'s Bump, topology: &Topology) -> Result<&'s [u64], NoMemory>
    ensures len { IfOk result (λ branches. length branches.now ≡ length topology.now.nodes) }
    ensures value { IfOk result (λ branches. (v : ℕ) → v < length topology.now.nodes
        → slice_index branches.now v ≡ branch_at topology.now v) }
    ensures cheap { IfOk result (λ branches. (v : ℕ) → slice_index branches.now v ≤ 1000000) }
{
    let mut branches = Vec::with_capacity(scratch, topology.node_count() as usize)?;
    for node in 0..topology.node_count() {
        branches.push(topology.branch(NodeNo(node)))?;
    }
    Ok(into_bump_slice(branches))
}
