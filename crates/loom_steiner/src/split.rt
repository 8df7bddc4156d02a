ghost use Rattle.std.specs.Prelude.{ℕ, ◌≡◌, ◌+◌, ◌-◌, ◌*◌, ◌<◌, ◌≤◌, length, slice_index, min};
ghost use Rattle.loom_steiner.specs.Row.{IsCapped};
ghost use Rattle.loom_steiner.specs.Split.{cell_in, TakesSplits};

use crate::ways::NO_TREE;

/// The numbers of a mask; masks count from 1.
pub fn row_of(cells: &[u64], mask: usize, nodes: usize) -> &[u64]
    requires from { 1 ≤ mask }
    requires to { mask * nodes ≤ length cells.now }
    ensures len { length result.now ≡ nodes }
    ensures value { (v : ℕ) → v < nodes
        → slice_index result.now v ≡ cell_in cells.now nodes mask v }
{
    &cells[(mask - 1) * nodes..mask * nodes]
}

/// Lowers each number of a row to the sum of two rows' numbers and the node's branch cost.
fn join(row: &mut [u64], first: &[u64], second: &[u64], branches: &[u64])
    requires first_len { length first.now ≡ length row.old }
    requires second_len { length second.now ≡ length row.old }
    requires branches_len { length branches.now ≡ length row.old }
    requires first_capped { IsCapped first.now }
    requires second_capped { IsCapped second.now }
    requires cheap { (v : ℕ) → slice_index branches.now v ≤ 1000000 }
    ensures { (v : ℕ) → v < length row.old → slice_index row.new v
        ≡ min (slice_index row.old v)
        (slice_index first.now v + slice_index second.now v + slice_index branches.now v) }
{
    for v in 0..row.len() {
        row[v] = row[v].min(first[v] + second[v] + branches[v]);
    }
}

/// Takes the splits of the mask `high + rest` into a part with the high bit and another.
pub fn split(cells: &[u64], branches: &[u64], high: u32, rest: u32, row: &mut [u64])
    requires nodes { length branches.now ≡ length row.old }
    requires below { rest < high }
    requires few { high < 65536 }
    requires cells { (high + rest - 1) * length row.old ≤ length cells.now }
    requires capped { IsCapped cells.now }
    requires cheap { (v : ℕ) → slice_index branches.now v ≤ 1000000 }
    ensures { TakesSplits cells.now branches.now (length row.old) high rest 0 row.old row.new }
{
    let nodes = row.len();
    let mut part = rest;
    while part != 0 {
        part = (part - 1) & rest;
        let first = row_of(cells, (high + part) as usize, nodes);
        let second = row_of(cells, (rest - part) as usize, nodes);
        join(row, first, second, branches);
    }
}
