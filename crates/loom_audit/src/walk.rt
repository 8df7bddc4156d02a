ghost use Rattle.std.specs.Prelude.{◌≡◌, ◌++◌, ◌+◌, ◌<◌, ◌^◌, ℕ, List as Items, IfOk, OnOk, length, vec_len};
ghost use Rattle.loom_types.specs.declared.wire.End.{End as AnyEnd};
ghost use Rattle.loom_types.specs.LayoutWires.{Hung, cut, crossed, led, spliced, thread_up};
ghost use Rattle.loom_audit.specs.Threads.{thread_of, crossing_of_code, added_length, legs_back, newest_first, waiting, with_thread, AreHung, AreSplices, AreShort, AreLegs};

use crate::leg::{Crossing, Leg};
use crate::thread::Thread;
use loom_base::{List, NetNo, NoMemory};
use loom_types::{End, Wire};
use std::alloc::Global;

/// Puts a thread at the point to which it has come.
pub(crate) fn hang(
    stacks: &mut Vec<Vec<Thread>>,
    point: u32,
    thread: Thread,
) -> Result<(), NoMemory>
    requires { point < vec_len stacks.old }
    ensures { OnOk result (waiting stacks.new.items
        ≡ with_thread (waiting stacks.old.items) point (thread_of thread)) }
{
    stacks[point as usize].push(thread)?;
    Ok(())
}

/// The thread that goes on upwards from a point: the single one that came there; else all end at
/// the point's splice, and one begins there.
fn gathered(
    alloc: Global,
    net: NetNo,
    splice: End,
    mut threads: Vec<Thread>,
    wires: &mut List<Wire>,
) -> Result<Thread, NoMemory>
    ensures wires { OnOk result
        (wires.new ≡ wires.old ++ spliced net.0 splice (newest_first threads.items)) }
    ensures thread { IfOk result (λ thread.
        thread_of thread ≡ thread_up splice (newest_first threads.items)) }
{
    if threads.len() == 1
        && let Some(thread) = threads.pop()
    {
        return Ok(thread);
    }
    while let Some(thread) = threads.pop() {
        wires.push(thread.finished(net, splice))?;
    }
    Ok(Thread::new(alloc, splice))
}

/// The thread after a step: a run longer; or it ends at the far side of a pin, and one begins at
/// the near side.
fn stepped(
    alloc: Global,
    net: NetNo,
    mut thread: Thread,
    crossing: Crossing,
    wires: &mut List<Wire>,
) -> Result<Thread, NoMemory>
    requires { thread.length + added_length (crossing_of_code crossing) < 2 ^ 64 }
    ensures wires { OnOk result (wires.new ≡ wires.old
        ++ crossed net.0 (thread_of thread) (crossing_of_code crossing)) }
    ensures thread { IfOk result (λ after.
        thread_of after ≡ led (thread_of thread) (crossing_of_code crossing)) }
{
    match crossing {
        Crossing::Over { segment, length } => {
            thread.route.push(segment)?;
            thread.length += length;
            Ok(thread)
        }
        Crossing::Through {
            coupler,
            pin,
            near,
            far,
        } => {
            let side = far;
            wires.push(thread.finished(net, End::Pin { coupler, pin, side }))?;
            let side = near;
            Ok(Thread::new(alloc, End::Pin { coupler, pin, side }))
        }
    }
}

/// The wires that threads make over the legs of a layout, the last leg first, down to point 0,
/// where the stem is. Each point has its splice, and a stack of the threads that came to it, the
/// newest last.
pub(crate) fn walked(
    alloc: Global,
    net: NetNo,
    stem: End,
    splices: &[End],
    mut stacks: Vec<Vec<Thread>>,
    mut legs: Vec<Leg>,
) -> Result<List<Wire>, NoMemory>
    requires few { vec_len legs < 2 ^ 32 }
    requires legs { AreLegs (legs_back legs.items) }
    requires splices { length splices.now ≡ vec_len legs + 1 }
    requires stacks { vec_len stacks ≡ vec_len legs + 1 }
    requires short { AreShort 0 (waiting stacks.items) }
    ensures { (splice : ℕ → AnyEnd) (hung : Items Hung) → AreSplices splice splices.now
        → AreHung hung (waiting stacks.items)
        → IfOk result (λ wires. wires ≡ cut net.0 splice stem hung (legs_back legs.items)) }
{
    let mut wires = List::new(alloc);
    while let Some(leg) = legs.pop() {
        let threads = stacks.pop().unwrap();
        let thread = gathered(alloc, net, splices[stacks.len()], threads, &mut wires)?;
        let thread = stepped(alloc, net, thread, leg.crossing, &mut wires)?;
        hang(&mut stacks, leg.parent, thread)?;
    }
    let threads = stacks.pop().unwrap();
    let thread = gathered(alloc, net, splices[0], threads, &mut wires)?;
    wires.push(thread.finished(net, stem))?;
    Ok(wires)
}
