ghost use Rattle.std.specs.Prelude.{◌≡◌, ◌<◌, ◌≤◌, length, map, IfOk};
ghost use Rattle.std.specs.List.{All};
ghost use Rattle.loom_steiner.specs.LeastTable.{IsLeastTable};

use crate::ground::Ground;
use crate::row::{MaskPart, fill_row};
use crate::scratch_table::ScratchTable;
use crate::ways::NO_TREE;
use bumpalo::Bump;
use bumpalo::collections::into_bump_slice;
use loom_base::{CavityNo, NoMemory};
use loom_topology::Topology;
use std::collections::BinaryHeap;

/// The table of least costs of a net's terminals, filled in an arena: for each set of cavities and
/// each node the least cost of a wiring tree over open segments. The first terminal is the stem;
/// bit i of a mask stands for terminal i + 1.
pub fn fill<'s>(
    scratch: &'s Bump,
    topology: &Topology,
    terminals: &[CavityNo],
) -> Result<ScratchTable<'s>, NoMemory>
    requires at_least { 2 ≤ length terminals.now }
    requires at_most { length terminals.now ≤ 12 }
    requires in_range { All (λ cavity. cavity.0 < length topology.now.cavities) terminals.now }
    ensures { IfOk result (IsLeastTable topology.now (map (λ cavity. cavity.0) terminals.now)) }
{
    let nodes = topology.node_count();
    let end = 1u32 << (terminals.len() - 1);
    let ground = Ground::new(scratch, topology)?;
    let mut cells = Vec::with_capacity(scratch, (end as usize - 1) * nodes as usize)?;
    let row = scratch.try_alloc_slice_fill_clone(nodes as usize, NO_TREE)?;
    let mut worklist = BinaryHeap::new(scratch);
    for mask in 1..end {
        let bit = mask.ilog2();
        let high = 1u32 << bit;
        let home = topology.cavity_node(terminals[bit as usize + 1]).0 as usize;
        let part = MaskPart {
            high,
            rest: mask - high,
            home,
        };
        fill_row(&ground, &cells, part, row, &mut worklist)?;
        cells.extend_from_slice(row)?;
    }
    Ok(ScratchTable::of(end - 1, nodes, into_bump_slice(cells)))
}
