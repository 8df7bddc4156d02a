ghost use Rattle.std.specs.Prelude.{◌≡◌, ◌<◌, IfOk, All, fold, length, max, replicate, vec_len, []};
ghost use Rattle.loom_topology.specs.Topology.{IsSound};
ghost use Rattle.loom_types.specs.LayoutWires.{hung_of};
ghost use Rattle.loom_audit.specs.Threads.{waiting, AreHung, AreShort};
ghost use Rattle.loom_audit.specs.CutSets.{IsLaid, others_of, wires_of_set};

use crate::laid_set::LaidSet;
use crate::leg::legs;
use crate::pin_index::PinIndex;
use crate::splice::{places, splices};
use crate::thread::Thread;
use crate::walk::{hang, walked};
use loom_base::{List, NoMemory};
use loom_topology::Topology;
use loom_types::{End, Wire};
use std::alloc::Global;

/// The greatest of some points, 0 where there are none.
fn greatest(points: &[u32]) -> u32
    ensures { result ≡ fold max 0 points.now }
{
    let mut greatest = 0;
    for point in points {
        greatest = greatest.max(*point);
    }
    greatest
}

/// A place for the threads that come to each point.
fn no_threads(alloc: Global, point_count: usize) -> Result<Vec<Vec<Thread>>, NoMemory>
    ensures { IfOk result (λ stacks. waiting stacks.items ≡ replicate point_count []) }
{
    let mut stacks = Vec::new(alloc);
    for _ in 0..point_count {
        stacks.push(Vec::new(alloc))?;
    }
    Ok(stacks)
}

/// A thread from each cavity of a set but the first, at the point on which it hangs.
fn hung(alloc: Global, set: &LaidSet, point_count: usize) -> Result<Vec<Vec<Thread>>, NoMemory>
    requires each { length (others_of set.now) ≡ length set.now.layout.hangs }
    requires points { All (λ point. point < point_count) set.now.layout.hangs }
    ensures count { IfOk result (λ stacks. vec_len stacks ≡ point_count) }
    ensures hung { IfOk result (λ stacks.
        AreHung (hung_of (others_of set.now) set.now.layout.hangs) (waiting stacks.items)) }
    ensures short { IfOk result (λ stacks. AreShort 0 (waiting stacks.items)) }
{
    let mut stacks = no_threads(alloc, point_count)?;
    for k in (0..set.layout.hangs.len()).rev() {
        let cavity = set.cavities.as_slice()[k + 1];
        let point = set.layout.hangs.as_slice()[k];
        hang(&mut stacks, point, Thread::new(alloc, End::Cavity(cavity)))?;
    }
    Ok(stacks)
}

/// The wires of a set's layout, cut at its stops, with row 0; each crossing of a coupler has the
/// pin of its first line.
pub(crate) fn set_wires(
    alloc: Global,
    topology: &Topology,
    pins: &PinIndex,
    set: &LaidSet,
) -> Result<List<Wire>, NoMemory>
    requires sound { IsSound topology.now }
    requires laid { IsLaid topology.now set.now }
    ensures { IfOk result (λ wires. wires ≡ wires_of_set topology.now pins.now set.now) }
{
    // The last point has a cavity: no step begins there, and no lone thing ends at a point.
    let last = greatest(set.layout.hangs.as_slice());
    let places = places(alloc, topology, set)?;
    let splices = splices(alloc, topology, set, &places)?;
    let legs = legs(alloc, topology, pins, set, &places)?;
    let stacks = hung(alloc, set, last as usize + 1)?;
    let stem = End::Cavity(set.cavities.as_slice()[0]);
    walked(alloc, set.net, stem, &splices, stacks, legs)
}
