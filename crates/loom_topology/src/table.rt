ghost use Rattle.std.specs.Prelude.{◌≡◌, ◌<◌, ◌≤◌, ◌^◌, length, IfOk, IfSome};
ghost use Rattle.std.specs.Option.{ForSome};
ghost use Rattle.loom_topology.specs.Table.{IsWhole, cell_at, with_cell, empty_table, cell_index};
ghost use Rattle.loom_topology.specs.TableInside.{value_of_code};

use loom_base::{NoMemory, NodeNo};
use std::alloc::Global;
use std::marker::Model;

/// The code of a cell without a number.
const NO_VALUE: u64 = u64::MAX;

/// A cell for each mask, from 1 on, and each node: a cost of at most 2^40, or none.
#[derive(Debug, Drop)]
pub struct Table {
    masks: u32,
    nodes: u32,
    codes: Vec<u64>,
}

impl Model for Table {
    ghost use Rattle.loom_topology.specs.Table.{TableView, IsWhole};

    ghost Value = { TableView };

    ghost use Rattle.loom_topology.specs.TableInside.{view_of};

    ghost view = { view_of };

    ghost invariant = { λ t. IsWhole (view_of t) };
}

/// The value for which a code stands.
fn value_of(code: u64) -> Option<u64>
    ensures { result ≡ value_of_code code }
{
    if code == NO_VALUE { None } else { Some(code) }
}

impl Table {
    /// A table without numbers.
    pub fn new(alloc: Global, masks: u32, nodes: u32) -> Result<Table, NoMemory>
        ensures { IfOk result (λ table. table ≡ empty_table masks nodes) }
    {
        let codes = vec![in alloc; NO_VALUE; masks as usize * nodes as usize]?;
        Ok(Table {
            masks,
            nodes,
            codes,
        })
    }

    /// How many masks there are.
    pub fn masks(&self) -> u32
        ensures value { result ≡ self.now.masks }
        ensures whole { IsWhole self.now }
    {
        self.masks
    }

    /// How many nodes there are.
    pub fn nodes(&self) -> u32
        ensures value { result ≡ self.now.nodes }
        ensures whole { IsWhole self.now }
    {
        self.nodes
    }

    /// The cell of a mask at a node; None exactly where None was set last, or nothing.
    pub fn cell(&self, mask: u32, node: NodeNo) -> Option<u64>
        requires mask_from { 1 ≤ mask }
        requires mask_to { mask ≤ self.now.masks }
        requires node_in_range { node.0 < self.now.nodes }
        ensures value { result ≡ cell_at self.now mask node.0 }
        ensures small { IfSome result (λ value. value ≤ 2 ^ 40) }
    {
        value_of(self.codes[self.index_of(mask, node)])
    }

    /// Sets the cell of a mask at a node.
    pub fn set(&mut self, mask: u32, node: NodeNo, value: Option<u64>)
        requires mask_from { 1 ≤ mask }
        requires mask_to { mask ≤ self.old.masks }
        requires node_in_range { node.0 < self.old.nodes }
        requires small { ForSome value (λ cost. cost ≤ 2 ^ 40) }
        ensures { self.new ≡ with_cell self.old mask node.0 value }
    {
        let index = self.index_of(mask, node);
        self.codes[index] = value.unwrap_or(NO_VALUE);
    }

    /// An equal table.
    pub fn copy(&self) -> Result<Table, NoMemory>
        ensures { IfOk result (λ table. table ≡ self.now) }
    {
        Ok(Table {
            masks: self.masks,
            nodes: self.nodes,
            codes: Vec::from_slice(*self.codes.allocator(), &self.codes)?,
        })
    }

    /// Where a cell stands among the codes.
    fn index_of(&self, mask: u32, node: NodeNo) -> usize
        requires mask_from { 1 ≤ mask }
        requires mask_to { mask ≤ self.now.masks }
        requires node_in_range { node.0 < self.now.nodes }
        ensures value { result ≡ cell_index self.now mask node.0 }
        ensures within { result < length self.now.cells }
    {
        (mask as usize - 1) * self.nodes as usize + node.0 as usize
    }
}

#[cfg(test)]
mod tests {
    use super::*;
    use std::test::Fail;

    #[test]
    fn cells(rt: HostRuntime) -> Result<(), Fail> {
        let mut table = Table::new(rt.alloc(), 3, 2)?;
        table.set(2, NodeNo(1), Some(7));
        let copy = table.copy()?;
        table.set(2, NodeNo(1), None);
        assert_eq!(rt; (copy.masks(), copy.nodes()), (3, 2));
        assert_eq!(rt; copy.cell(2, NodeNo(1)), Some(7));
        assert_eq!(rt; copy.cell(1, NodeNo(1)), None);
        assert_eq!(rt; table.cell(2, NodeNo(1)), None);
        Ok(())
    }
}
