ghost use Rattle.std.specs.Prelude.{ℕ, [], ◌≡◌, ◌+◌, ◌-◌, ◌*◌, ◌^◌, ◌<◌, ◌≤◌, length, slice_index, OnOk};
ghost use Rattle.std.specs.List.{All};
ghost use Rattle.std.specs.BinaryHeap.{heap_items};
ghost use Rattle.loom_topology.specs.Ways.{AreInRange};
ghost use Rattle.loom_steiner.specs.Row.{IsCapped};
ghost use Rattle.loom_steiner.specs.Begin.{Begins, IsRow};

use crate::ground::Ground;
use crate::split::split;
use crate::ways::NO_TREE;
use crate::worklist::{Worklist, spread};
use loom_base::NoMemory;

/// A mask that is worked out: its highest bit, its other bits, and the node of the cavity that the
/// highest bit stands for.
#[derive(Clone, Copy)]
pub struct MaskPart {
    pub high: u32,
    pub rest: u32,
    pub home: usize,
}

/// A row without numbers.
fn clear(row: &mut [u64])
    ensures { (v : ℕ) → v < length row.old → slice_index row.new v ≡ NO_TREE }
{
    for number in row.iter_mut() {
        *number = NO_TREE;
    }
}

/// The row of a mask before any step.
fn begin(cells: &[u64], branches: &[u64], mask: MaskPart, row: &mut [u64])
    requires nodes { length branches.now ≡ length row.old }
    requires home { mask.home < length row.old }
    requires below { mask.rest < mask.high }
    requires few { mask.high < 65536 }
    requires cells { (mask.high + mask.rest - 1) * length row.old ≤ length cells.now }
    requires capped { IsCapped cells.now }
    requires cheap { (v : ℕ) → slice_index branches.now v ≤ 1000000 }
    ensures { Begins cells.now branches.now (length row.old) mask.high mask.rest mask.home
        row.new }
{
    clear(row);
    if mask.rest == 0 {
        row[mask.home] = 0;
    } else {
        split(cells, branches, mask.high, mask.rest, row);
    }
}

/// Works out the row of a mask from those of smaller masks.
pub fn fill_row(
    ground: &Ground,
    cells: &[u64],
    mask: MaskPart,
    row: &mut [u64],
    worklist: &mut Worklist,
) -> Result<(), NoMemory>
    requires ways { length ground.now.ways.now ≡ length row.old }
    requires range { All (λ from. AreInRange (length row.old) from.now) ground.now.ways.now }
    requires branches { length ground.now.branches.now ≡ length row.old }
    requires nodes { length row.old ≤ 1024 }
    requires home { mask.home < length row.old }
    requires below { mask.rest < mask.high }
    requires few { mask.high < 65536 }
    requires cells { (mask.high + mask.rest - 1) * length row.old ≤ length cells.now }
    requires capped { IsCapped cells.now }
    requires cheap { (v : ℕ) → slice_index ground.now.branches.now v ≤ 1000000 }
    requires idle { heap_items worklist.old ≡ [] }
    ensures row { OnOk result (IsRow ground.now.ways.now cells.now ground.now.branches.now
        (length row.old) mask.high mask.rest mask.home row.new) }
    ensures idle { OnOk result (heap_items worklist.new ≡ []) }
{
    begin(cells, ground.branches, mask, row);
    spread(ground.ways, row, worklist)
}
