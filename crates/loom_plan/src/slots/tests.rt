ghost use Rattle.std.specs.Prelude.{◌≡◌, ◌≤◌, ◌<◌, IfOk, length};
ghost use Rattle.std.specs.List.{All};
ghost use Rattle.loom_rows.specs.Table.{Has, IsSound};
ghost use Rattle.loom_laid.specs.LaidSets.{steps_of};

use super::with_usages;
use crate::slot_users::users_of_slots;
use bumpalo::Bump;
use loom_base::{Branch, List, NetNo, NoMemory, OptionNo, Pins, Price, SegmentNo};
use loom_laid::LaidSet;
use loom_rows::{Cond, Rows};
use loom_topology::{Kind, Topology};
use loom_types::Layout;
use std::alloc::Global;
use std::test::Fail;

/// A coupler between two harnesses, and two runs behind it.
fn coupler_and_runs(alloc: Global) -> Result<Topology, Fail>
    ensures { IfOk result (λ topology. length topology.segments ≡ 3) }
{
    let branch = Branch::new(0).ok_or("a branch cost")?;
    let length = Price::new(100).ok_or("a length")?;
    let price = Price::new(10).ok_or("a price")?;
    let pins = Pins::new(2).ok_or("pins")?;
    let mut topology = Topology::new(alloc);
    let first = topology.add_node(0, branch)?;
    let second = topology.add_node(1, branch)?;
    let third = topology.add_node(1, branch)?;
    topology.add_segment(first, second, Kind::Coupler { price, pins })?;
    topology.add_segment(second, third, Kind::Run { length })?;
    topology.add_segment(second, third, Kind::Run { length })?;
    Ok(topology)
}

/// A set of net 0 with this condition, whose layout has these steps.
fn set_with<'a>(
    alloc: Global,
    cond: Cond<'a>,
    steps: &[(u32, SegmentNo)],
) -> Result<LaidSet<'a>, NoMemory>
    ensures cond { IfOk result (λ set. set.cond ≡ cond.entry) }
    ensures steps { IfOk result (λ set. set.layout.steps ≡ steps.now) }
{
    Ok(LaidSet {
        net: NetNo(0),
        mask: 0,
        cond,
        cost: 0,
        layout: Layout {
            steps: List::from_slice(alloc, steps)?,
            hangs: List::new(alloc),
        },
    })
}

/// The slots of the layouts of sets: of each its net, coupler and ordinal, and the number of its
/// usage.
fn slots_of<'a>(
    alloc: Global,
    rows: &mut Rows<'a>,
    laid: &[LaidSet<'a>],
) -> Result<List<(u32, u32, u32, u32)>, Fail>
    requires sound { IsSound rows.old }
    requires has { All (λ set. Has rows.old set.cond) laid.now }
    requires segments { All (λ set. All (λ step. step.1.0 < 3) set.layout.steps) laid.now }
    requires few_steps { steps_of laid.now ≤ 1000000 }
{
    let topology = coupler_and_runs(alloc)?;
    let users = users_of_slots(alloc, &topology, laid)?;
    let mut numbers = List::new(alloc);
    for slot in with_usages(alloc, rows, &users)?.as_slice() {
        numbers.push((
            slot.net.0,
            slot.coupler.0,
            slot.ordinal,
            slot.usage.number(),
        ))?;
    }
    Ok(numbers)
}

/// The slots of a layout with two steps over the coupler.
fn slots_of_one(alloc: Global, arena: &Bump) -> Result<List<(u32, u32, u32, u32)>, Fail> {
    let steps = [(0, SegmentNo(0)), (0, SegmentNo(0)), (2, SegmentNo(1))];
    let mut rows = Rows::new(alloc, arena, 0, 262_144);
    let set = set_with(alloc, Cond::Always, &steps)?;
    slots_of(alloc, &mut rows, &[set])
}

#[test]
fn each_step_over_a_coupler_has_a_slot(rt: HostRuntime) -> Result<(), Fail> {
    let arena = Bump::new(rt.alloc());
    let slots = slots_of_one(rt.alloc(), &arena)?;
    assert_eq!(rt; slots.as_slice(), [(0, 0, 1, 1), (0, 0, 2, 1)].as_slice());
    Ok(())
}

/// The slots of two layouts, one without the option and one with it.
fn slots_of_two(alloc: Global, arena: &Bump) -> Result<List<(u32, u32, u32, u32)>, Fail> {
    let steps = [(0, SegmentNo(0)), (1, SegmentNo(1)), (1, SegmentNo(2))];
    let mut rows = Rows::new(alloc, arena, 1, 262_144);
    let with = rows.is(OptionNo(0))?;
    let without = rows.not(with)?;
    let less = set_with(alloc, without, &steps[..2])?;
    let more = set_with(alloc, with, &steps)?;
    slots_of(alloc, &mut rows, &[less, more])
}

#[test]
fn a_slot_is_used_with_each_set_that_has_it(rt: HostRuntime) -> Result<(), Fail> {
    let arena = Bump::new(rt.alloc());
    let slots = slots_of_two(rt.alloc(), &arena)?;
    assert_eq!(rt; slots.as_slice(), [(0, 0, 1, 1)].as_slice());
    Ok(())
}
