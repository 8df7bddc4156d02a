ghost use Rattle.std.specs.Prelude.{◌≡◌, ◌<◌, ◌≤◌, ℕ, false, length, slice_index_or};
ghost use Rattle.loom_topology.specs.Topology.{IsSound, open_at};
ghost use Rattle.loom_topology.specs.Ways.{MarksCheapest};
ghost use Rattle.loom_topology.specs.WaysInside.{IsClear, NotesLeast, MarksAt};

use crate::Topology;
use loom_base::NodeNo;

/// A way between two nodes over an open segment, at the segment's price.
#[derive(Clone, Copy, Debug)]
pub struct Way {
    pub from: NodeNo,
    pub to: NodeNo,
    pub price: u64,
}

/// Stands where no price is noted; every price is below it.
const NO_PRICE: u64 = u64::MAX;

/// Marks, of the open segments between each two nodes, the first of those that cost least.
pub fn mark_cheapest(topology: &Topology, marks: &mut [bool])
    requires { length topology.now.segments ≤ length marks.old }
    ensures { MarksCheapest topology.now marks.new }
{
    clear(marks);
    let mut prices = no_prices();
    for node in 0..topology.node_count() {
        mark_at(topology, NodeNo(node), &mut prices, marks);
    }
}

fn clear(marks: &mut [bool])
    ensures { (s : ℕ) → slice_index_or marks.new s false ≡ false }
{
    for mark in marks.iter_mut() {
        *mark = false;
    }
}

/// A place for each node of a topology.
fn no_prices() -> [u64; 1024]
    ensures len { length result ≡ 1024 }
    ensures clear { IsClear 1024 result }
{
    [NO_PRICE; 1024]
}

/// Marks the cheapest of the open segments at a node; no price is noted before and after.
fn mark_at(topology: &Topology, node: NodeNo, prices: &mut [u64], marks: &mut [bool])
    requires sound { IsSound topology.now }
    requires node { node.0 < length topology.now.nodes }
    requires places { length topology.now.nodes ≤ length prices.old }
    requires clear { IsClear (length topology.now.nodes) prices.old }
    requires room { length topology.now.segments ≤ length marks.old }
    ensures clear { IsClear (length topology.now.nodes) prices.new }
    ensures marks { MarksAt topology.now node.0 marks.old marks.new }
{
    note_least(topology, node, prices);
    for segment in topology.segments_at(node) {
        let way = topology.way_from(node, *segment);
        let to = way.to.0 as usize;
        if prices[to] == way.price {
            prices[to] = NO_PRICE;
            marks[segment.0 as usize] = true;
        }
    }
}

/// Notes at each node the least price of the open segments that lead there.
fn note_least(topology: &Topology, node: NodeNo, prices: &mut [u64])
    requires node { node.0 < length topology.now.nodes }
    requires places { length topology.now.nodes ≤ length prices.old }
    requires clear { IsClear (length topology.now.nodes) prices.old }
    ensures { NotesLeast topology.now node.0 (length (open_at topology.now node.0)) prices.new }
{
    for segment in topology.segments_at(node) {
        let way = topology.way_from(node, *segment);
        let to = way.to.0 as usize;
        prices[to] = prices[to].min(way.price);
    }
}

#[cfg(test)]
mod tests {
    use super::*;
    use crate::Kind;
    use loom_base::{Branch, Price, SegmentNo};
    use std::test::Fail;

    #[test]
    fn the_first_of_the_cheapest(rt: HostRuntime) -> Result<(), Fail> {
        let branch = Branch::new(0).ok_or("a branch cost")?;
        let dear = Price::new(7).ok_or("a price")?;
        let cheap = Price::new(5).ok_or("a price")?;
        let mut topology = Topology::new(rt.alloc());
        topology.add_node(0, branch)?;
        topology.add_node(0, branch)?;
        topology.add_segment(NodeNo(0), NodeNo(1), Kind::Run { length: dear })?;
        topology.add_segment(NodeNo(1), NodeNo(0), Kind::Run { length: cheap })?;
        topology.add_segment(NodeNo(0), NodeNo(1), Kind::Run { length: cheap })?;
        let mut marks = [true; 3];
        topology.mark_cheapest(&mut marks);
        assert_eq!(rt; marks, [false, true, false]);
        let way = topology.way_from(NodeNo(0), SegmentNo(1));
        assert_eq!(rt; (way.from, way.to, way.price), (NodeNo(0), NodeNo(1), 5));
        Ok(())
    }
}
