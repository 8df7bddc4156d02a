ghost use Rattle.std.specs.Prelude.{◌≡◌, ◌+◌, ◌*◌, ◌^◌, ◌<◌, ◌≤◌, [], false, length, sum, slice_index, OnOk};
ghost use Rattle.std.specs.List.{All};
ghost use Rattle.std.specs.BinaryHeap.{heap_items, heap_len};
ghost use Rattle.loom_topology.specs.Ways.{AreInRange};
ghost use Rattle.loom_steiner.specs.Row.{IsCapped, Improves, ImprovesFrom};
ghost use Rattle.loom_steiner.specs.Worklist.{IsSettledFrom, IsSettled, IsSettling, KeepsWaiting};

use crate::ways::NO_TREE;
use bumpalo::Bump;
use loom_base::NoMemory;
use loom_topology::Way;
use std::cmp::Reverse;
use std::collections::BinaryHeap;

/// A node whose number fell, with that number.
#[derive(Clone, Copy, Debug, PartialEq, Eq, PartialOrd, Ord)]
pub struct Offer {
    pub cost: u64,
    pub node: u32,
}

pub type Worklist<'s> = BinaryHeap<Reverse<Offer>, &'s Bump>;

/// Whether some way from a node of this cost betters the number at its end.
fn betters(from: &[Way], row: &[u64], cost: u64) -> bool
    requires range { AreInRange (length row.now) from.now }
    requires capped { cost ≤ NO_TREE }
    ensures { result ≡ false → IsSettledFrom from.now row.now cost }
{
    from.iter()
        .any(|way| cost + way.price < row[way.to.0 as usize])
}

/// Offers a node's number over each way from it.
fn relax(from: &[Way], node: u32, row: &mut [u64], worklist: &mut Worklist) -> Result<(), NoMemory>
    requires node { node < length row.old }
    requires range { AreInRange (length row.old) from.now }
    requires capped { IsCapped row.old }
    requires offers { All (λ o. o.0.node < length row.old) (heap_items worklist.old) }
    ensures improves { OnOk result (ImprovesFrom node from.now row.old row.new) }
    ensures own { OnOk result (slice_index row.new node ≡ slice_index row.old node) }
    ensures settled { OnOk result (IsSettledFrom from.now row.new (slice_index row.old node)) }
    ensures waiting { OnOk result (KeepsWaiting row.old row.new (heap_items worklist.old)
        (heap_items worklist.new)) }
    ensures offers { OnOk result (All (λ o. o.0.node < length row.old) (heap_items worklist.new)) }
    ensures work { OnOk result (2 * sum row.new + heap_len worklist.new
        ≤ 2 * sum row.old + heap_len worklist.old) }
{
    let cost = row[node as usize];
    for way in from {
        let to = way.to.0 as usize;
        let through = cost + way.price;
        if through < row[to] {
            row[to] = through;
            worklist.push(Reverse(Offer {
                cost: through,
                node: way.to.0,
            }))?;
        }
    }
    Ok(())
}

/// Puts each node that betters a number of its neighbours on the worklist.
fn start(ways: &[&[Way]], row: &[u64], worklist: &mut Worklist) -> Result<(), NoMemory>
    requires nodes { length ways.now ≡ length row.now }
    requires few { length row.now < 2 ^ 32 }
    requires range { All (λ from. AreInRange (length row.now) from.now) ways.now }
    requires capped { IsCapped row.now }
    requires idle { heap_items worklist.old ≡ [] }
    ensures settling { OnOk result (IsSettling ways.now row.now (heap_items worklist.new)) }
    ensures offers { OnOk result (All (λ o. o.0.node < length row.now) (heap_items worklist.new)) }
{
    for (node, from) in ways.iter().enumerate() {
        let cost = row[node];
        if betters(from, row, cost) {
            worklist.push(Reverse(Offer {
                cost,
                node: node as u32,
            }))?;
        }
    }
    Ok(())
}

/// Works off the worklist; then no way betters a number of the row.
fn settle(ways: &[&[Way]], row: &mut [u64], worklist: &mut Worklist) -> Result<(), NoMemory>
    requires nodes { length ways.now ≡ length row.old }
    requires range { All (λ from. AreInRange (length row.old) from.now) ways.now }
    requires capped { IsCapped row.old }
    requires offers { All (λ o. o.0.node < length row.old) (heap_items worklist.old) }
    requires settling { IsSettling ways.now row.old (heap_items worklist.old) }
    ensures improves { OnOk result (Improves ways.now row.old row.new) }
    ensures settled { OnOk result (IsSettled ways.now row.new) }
    ensures idle { OnOk result (heap_items worklist.new ≡ []) }
{
    while let Some(Reverse(offer)) = worklist.pop() {
        if offer.cost == row[offer.node as usize] {
            relax(ways[offer.node as usize], offer.node, row, worklist)?;
        }
    }
    Ok(())
}

/// Lowers the row's numbers until no way betters one.
pub fn spread(ways: &[&[Way]], row: &mut [u64], worklist: &mut Worklist) -> Result<(), NoMemory>
    requires nodes { length ways.now ≡ length row.old }
    requires few { length row.old < 2 ^ 32 }
    requires range { All (λ from. AreInRange (length row.old) from.now) ways.now }
    requires capped { IsCapped row.old }
    requires idle { heap_items worklist.old ≡ [] }
    ensures improves { OnOk result (Improves ways.now row.old row.new) }
    ensures settled { OnOk result (IsSettled ways.now row.new) }
    ensures idle { OnOk result (heap_items worklist.new ≡ []) }
{
    start(ways, row, worklist)?;
    settle(ways, row, worklist)
}
