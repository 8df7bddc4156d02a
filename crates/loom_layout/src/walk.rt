ghost use Rattle.std.specs.Prelude.{◌≡◌, ◌+◌, ◌-◌, ◌*◌, ◌^◌, ◌<◌, ◌≤◌, ℕ, IfOk, OnOk, length, map};
ghost use Rattle.std.specs.List.{All};
ghost use Rattle.loom_topology.specs.Topology.{IsSound};
ghost use Rattle.loom_topology.specs.Table.{cell_at};
ghost use Rattle.loom_steiner.specs.LeastTable.{IsLeastTable};
ghost use Rattle.loom_layout.specs.Layout.{Laid, nothing_laid};
ghost use Rattle.loom_layout.specs.Walk.{laying_of, CanLay};

use crate::rule::{Rule, rule_at};
use loom_base::{CavityNo, NoMemory, NodeNo, SegmentNo};
use loom_topology::{Table, Topology};
use std::alloc::Global;

/// A layout while it is laid.
#[derive(Debug, Drop)]
pub struct Walk {
    /// The parent's point and the segment of each step so far.
    pub steps: Vec<(u32, SegmentNo)>,
    /// For each terminal past the first the point on which its cavity hangs, 0 before it is hung.
    pub points: Vec<u32>,
}

/// The cavities of a mask, which are to be laid at a point that lies at the node.
#[derive(Clone, Copy, Debug)]
pub struct Bundle {
    pub mask: u32,
    pub node: NodeNo,
    pub point: u32,
}

impl Walk {
    /// Nothing laid of a net of that many terminals.
    pub fn new(alloc: Global, terminals: &[CavityNo]) -> Result<Walk, NoMemory>
        requires { 1 ≤ length terminals.now }
        ensures { IfOk result
            (λ walk. laying_of walk ≡ nothing_laid (map (λ c. c.0) terminals.now)) }
    {
        Ok(Walk {
            steps: Vec::new(alloc),
            points: vec![in alloc; 0; terminals.len() - 1]?,
        })
    }

    /// Lays a bundle.
    pub fn lay(
        &mut self,
        topology: &Topology,
        terminals: &[CavityNo],
        table: &Table,
        bundle: Bundle,
    ) -> Result<(), NoMemory>
        requires sound { IsSound topology.now }
        requires in_range { All (λ c. c.0 < length topology.now.cavities) terminals.now }
        requires few { length terminals.now ≤ 12 }
        requires table { IsLeastTable topology.now (map (λ c. c.0) terminals.now) table.now }
        requires can { CanLay topology.now (map (λ c. c.0) terminals.now) (cell_at table.now)
            bundle.mask bundle.node.0 (laying_of self.old) }
        ensures { OnOk result (Laid topology.now (map (λ c. c.0) terminals.now) (cell_at table.now)
            bundle.mask bundle.node.0 bundle.point (laying_of self.old) (laying_of self.new)) }
    {
        let mut bundle = bundle;
        loop {
            match rule_at(topology, terminals, table, bundle.mask, bundle.node) {
                Rule::Hang(bit) => {
                    self.points[bit as usize] = bundle.point;
                    return Ok(());
                }
                Rule::Split(mask) => {
                    self.lay(topology, terminals, table, Bundle { mask, ..bundle })?;
                    bundle.mask -= mask;
                }
                Rule::Over(segment, node) => {
                    self.steps.push((bundle.point, segment))?;
                    bundle.point = self.steps.len() as u32;
                    bundle.node = node;
                }
            }
        }
    }
}
