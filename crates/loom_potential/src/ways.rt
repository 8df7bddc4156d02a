ghost use Rattle.std.specs.Prelude.{◌≤◌, length, take};
ghost use Rattle.loom_topology.specs.Topology.{IsSound};
ghost use Rattle.loom_topology.specs.Ways.{MarksCheapest};
ghost use Rattle.loom_potential.specs.Ways.{AreWays};

use loom_base::{NodeNo, SegmentNo};
use loom_topology::{Topology, Way};

/// Stands where no way is written.
pub const NO_WAY: Way = Way {
    from: NodeNo(0),
    to: NodeNo(0),
    price: 0,
};

/// Writes a way over each of the cheapest segments, one for each two nodes that open segments
/// join, and tells how many ways these are.
pub fn find_ways(topology: &Topology, ways: &mut [Way]) -> usize
    requires sound { IsSound topology.now }
    requires room { length topology.now.segments ≤ length ways.old }
    ensures within { result ≤ length ways.new }
    ensures ways { AreWays topology.now (take result ways.new) }
{
    let mut marks = [false; 4096];
    topology.mark_cheapest(&mut marks);
    list_ways(topology, &marks, ways)
}

/// Writes a way over each marked segment, and tells how many ways these are.
fn list_ways(topology: &Topology, marks: &[bool], ways: &mut [Way]) -> usize
    requires places { length topology.now.segments ≤ length marks.now }
    requires marks { MarksCheapest topology.now marks.now }
    requires room { length topology.now.segments ≤ length ways.old }
    ensures within { result ≤ length ways.new }
    ensures ways { AreWays topology.now (take result ways.new) }
{
    let mut count = 0;
    for number in 0..topology.segment_count() {
        if marks[number as usize] {
            let segment = SegmentNo(number);
            let (from, _) = topology.ends(segment);
            ways[count] = topology.way_from(from, segment);
            count += 1;
        }
    }
    count
}
