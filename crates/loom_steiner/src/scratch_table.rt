ghost use Rattle.std.specs.Prelude.{◌≡◌, ◌*◌, ◌^◌, ◌<◌, ◌≤◌, length, IfOk, IfSome};
ghost use Rattle.loom_topology.specs.Table.{cell_at, IsWhole};
ghost use Rattle.loom_steiner.specs.Scratch.{scratch_view, CopiesRow};

use crate::ways::NO_TREE;
use loom_base::{NoMemory, NodeNo};
use loom_topology::Table;
use std::alloc::Global;
use std::marker::Model;

/// A filled table whose cells lie in an arena, which contracts see as they see a `Table`.
#[derive(Debug, Drop)]
pub struct ScratchTable<'s> {
    masks: u32,
    nodes: u32,
    cells: &'s [u64],
}

impl<'s> Model for ScratchTable<'s> {
    ghost use Rattle.loom_topology.specs.Table.{TableView, IsWhole};

    ghost Value = { TableView };

    ghost use Rattle.loom_steiner.specs.Scratch.{scratch_view};

    ghost view = { λ table. scratch_view table.masks table.nodes table.cells.now };

    ghost invariant = { λ table. IsWhole (scratch_view table.masks table.nodes table.cells.now) };
}

impl<'s> ScratchTable<'s> {
    /// The table of these cells, mask after mask.
    pub(crate) fn of(masks: u32, nodes: u32, cells: &'s [u64]) -> ScratchTable<'s>
        requires { IsWhole (scratch_view masks nodes cells.now) }
        ensures { result ≡ scratch_view masks nodes cells.now }
    {
        ScratchTable {
            masks,
            nodes,
            cells,
        }
    }

    /// The cell of a mask at a node; None where there is no wiring tree.
    pub fn cell(&self, mask: u32, node: NodeNo) -> Option<u64>
        requires mask_from { 1 ≤ mask }
        requires mask_to { mask ≤ self.now.masks }
        requires node_in_range { node.0 < self.now.nodes }
        ensures value { result ≡ cell_at self.now mask node.0 }
        ensures small { IfSome result (λ value. value ≤ 2 ^ 40) }
    {
        let cost = self.cells[(mask as usize - 1) * self.nodes as usize + node.0 as usize];
        (cost < NO_TREE).then_some(cost)
    }

    /// A table of the same cells, outside the arena.
    pub fn copy_out(&self, alloc: Global) -> Result<Table, NoMemory>
        ensures { IfOk result (λ table. table ≡ self.now) }
    {
        let mut table = Table::new(alloc, self.masks, self.nodes)?;
        for before in 0..self.masks {
            self.copy_row(before + 1, &mut table);
        }
        Ok(table)
    }

    /// Copies the cells of a mask.
    fn copy_row(&self, mask: u32, table: &mut Table)
        requires mask_from { 1 ≤ mask }
        requires mask_to { mask ≤ self.now.masks }
        requires masks { table.old.masks ≡ self.now.masks }
        requires nodes { table.old.nodes ≡ self.now.nodes }
        requires len { length table.old.cells ≡ self.now.masks * self.now.nodes }
        ensures { CopiesRow self.now mask self.now.nodes table.old table.new }
    {
        for node in 0..self.nodes {
            table.set(mask, NodeNo(node), self.cell(mask, NodeNo(node)));
        }
    }
}
