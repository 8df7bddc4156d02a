ghost use Rattle.std.specs.Prelude.{◌≡◌};
ghost use Rattle.loom_rows.specs.Table.{Has};

use crate::{CouplerPins, PinStop, Slot, first_fit};
use bumpalo::Bump;
use loom_base::{List, NetNo, NoMemory, OptionNo, SegmentNo};
use loom_rows::{Cond, Rows};
use std::alloc::Global;
use std::test::Fail;

/// A crossing of the coupler that is segment 0.
fn crossing<'a>(net: u32, ordinal: u32, usage: Cond<'a>) -> Slot<'a>
    ensures coupler { result.coupler.0 ≡ 0 }
    ensures usage { result.usage ≡ usage.entry }
{
    Slot {
        net: NetNo(net),
        coupler: SegmentNo(0),
        ordinal,
        usage,
    }
}

/// The pins of segment 0.
fn pins_of_coupler(
    alloc: Global,
    pins: u16,
    reserved: &[u16],
) -> Result<[CouplerPins; 1], NoMemory> {
    let mut listed = List::new(alloc);
    listed.extend_from_slice(reserved)?;
    Ok([CouplerPins {
        pins,
        reserved: listed,
    }])
}

/// The pins of two crossings of one coupler by one net that has one layout.
fn two_steps(
    alloc: Global,
    arena: &Bump,
    pins: u16,
    reserved: &[u16],
) -> Result<List<u16>, PinStop> {
    let rows = Rows::new(alloc, arena, 0, 262_144);
    let couplers = pins_of_coupler(alloc, pins, reserved)?;
    let slots = [crossing(0, 1, Cond::Always), crossing(0, 2, Cond::Always)];
    first_fit(alloc, &rows, &slots, &couplers)
}

#[test]
fn the_steps_of_one_layout_have_pins_in_order(rt: HostRuntime) -> Result<(), Fail> {
    let arena = Bump::new(rt.alloc());
    let pins = two_steps(rt.alloc(), &arena, 2, &[])?;
    assert_eq!(rt; pins.as_slice(), [1, 2].as_slice());
    let few = two_steps(rt.alloc(), &arena, 1, &[]).err();
    assert_eq!(rt; few, Some(PinStop::NoPin { slot: 1 }));
    Ok(())
}

#[test]
fn reserved_pins_are_left_out(rt: HostRuntime) -> Result<(), Fail> {
    let arena = Bump::new(rt.alloc());
    let few = two_steps(rt.alloc(), &arena, 2, &[1]).err();
    assert_eq!(rt; few, Some(PinStop::NoPin { slot: 1 }));
    let pins = two_steps(rt.alloc(), &arena, 3, &[1])?;
    assert_eq!(rt; pins.as_slice(), [2, 3].as_slice());
    Ok(())
}

/// The pins of crossings of a coupler that has one pin, by two nets.
fn two_nets<'a>(
    alloc: Global,
    rows: &Rows<'a>,
    first: Cond<'a>,
    second: Cond<'a>,
) -> Result<List<u16>, PinStop>
    requires first { Has rows.now first }
    requires second { Has rows.now second }
{
    let couplers = pins_of_coupler(alloc, 1, &[])?;
    let slots = [crossing(0, 1, first), crossing(1, 1, second)];
    first_fit(alloc, rows, &slots, &couplers)
}

/// The pins of two nets, where one is used with the option and the other without it.
fn with_and_without(alloc: Global, arena: &Bump) -> Result<List<u16>, Fail> {
    let mut rows = Rows::new(alloc, arena, 1, 262_144);
    let a = rows.is(OptionNo(0))?;
    let without = rows.not(a)?;
    Ok(two_nets(alloc, &rows, a, without)?)
}

/// The pins of two nets, each used with an option, where exactly one of the options is true.
fn one_of_two_options(alloc: Global, arena: &Bump) -> Result<List<u16>, Fail> {
    let mut rows = Rows::new(alloc, arena, 2, 262_144);
    let a = rows.is(OptionNo(0))?;
    let b = rows.is(OptionNo(1))?;
    let without_a = rows.not(a)?;
    let without_b = rows.not(b)?;
    let only_a = rows.and(a, without_b)?;
    let only_b = rows.and(b, without_a)?;
    Ok(two_nets(alloc, &rows, only_a, only_b)?)
}

#[test]
fn nets_that_exclude_each_other_share_a_pin(rt: HostRuntime) -> Result<(), Fail> {
    let arena = Bump::new(rt.alloc());
    let pins = with_and_without(rt.alloc(), &arena)?;
    assert_eq!(rt; pins.as_slice(), [1, 1].as_slice());
    let ruled = one_of_two_options(rt.alloc(), &arena)?;
    assert_eq!(rt; ruled.as_slice(), [1, 1].as_slice());
    Ok(())
}

/// Why two nets, each used with an option, have no pins, where every choice is valid.
fn two_options(alloc: Global, arena: &Bump) -> Result<Option<PinStop>, Fail> {
    let mut rows = Rows::new(alloc, arena, 2, 262_144);
    let a = rows.is(OptionNo(0))?;
    let b = rows.is(OptionNo(1))?;
    Ok(two_nets(alloc, &rows, a, b).err())
}

#[test]
fn nets_that_some_choice_joins_share_no_pin(rt: HostRuntime) -> Result<(), Fail> {
    let arena = Bump::new(rt.alloc());
    let stop = two_options(rt.alloc(), &arena)?;
    assert_eq!(rt; stop, Some(PinStop::NoPin { slot: 1 }));
    Ok(())
}
