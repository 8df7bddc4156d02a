ghost use Rattle.std.specs.Prelude.{◌≡◌, ◌<◌, ◌≤◌, ◌^◌, ℕ, Err, IfOk, IfSome, IfNone, length};
ghost use Rattle.std.specs.List.{All};
ghost use Rattle.loom_rows.specs.Table.{Has};
ghost use Rattle.loom_pins.specs.FirstFit.{IsFirstFit, HasNone, ArePins, IsFirstWithout};
ghost use Rattle.loom_pins.specs.Holders.{AreHolders, IsReservedAt, ArePassed};

use crate::holders::Holders;
use crate::reserved::reserved_pins;
use crate::slot::{CouplerPins, Slot};
use crate::stop::PinStop;
use loom_base::{List, NoMemory};
use loom_rows::{Meetings, Rows};
use std::alloc::Global;
use std::collections::HashSet;

/// The least pin that the next slot may have, sought from `first` on.
fn least_free<'a>(
    holders: &Holders,
    meetings: &mut Meetings<'_, 'a>,
    reserved: &HashSet<(u32, u16)>,
    slots: &[Slot<'a>],
    slot: Slot<'a>,
    coupler: &CouplerPins,
    first: u16,
) -> Result<Option<u16>, NoMemory>
    requires holders { AreHolders slots.now holders.now }
    requires usages { All (λ other. Has meetings.old other.usage) slots.now }
    requires usage { Has meetings.old slot.usage }
    requires reserved { IsReservedAt coupler.now slot.coupler.0 reserved.now }
    requires positive { 1 ≤ first }
    requires passed { ArePassed
        coupler.now slots.now holders.now.pins (length holders.now.pins) slot first }
    ensures some { IfOk result (λ found. IfSome found
        (IsFirstFit coupler.now slots.now holders.now.pins (length holders.now.pins) slot.entry)) }
    ensures none { IfOk result (λ found. IfNone found
        (HasNone coupler.now slots.now holders.now.pins (length holders.now.pins) slot.entry)) }
    ensures unchanged { meetings.new ≡ meetings.old }
{
    for pin in u32::from(first)..u32::from(coupler.pins) + 1 {
        let pin = pin as u16;
        if reserved.contains(&(slot.coupler.0, pin)) {
            continue;
        }
        if !holders.is_taken(meetings, slots, slot, pin)? {
            return Ok(Some(pin));
        }
    }
    Ok(None)
}

/// Gives each slot, in the order of the list, the least pin of its coupler that isn't reserved and
/// that no earlier slot of the coupler has which some choice makes used together with it. The list
/// is in order of net, coupler and ordinal. `couplers` has an element for each segment number,
/// without pins for a run, and a slot's coupler is a position among them; its usage is a condition
/// of the table.
///
/// The i-th pin is that of the i-th slot. `NoPin` exactly where first fit has no pin for some slot;
/// it names the position of the first such slot.
pub fn first_fit<'a>(
    alloc: Global,
    rows: &Rows<'a>,
    slots: &[Slot<'a>],
    couplers: &[CouplerPins],
) -> Result<List<u16>, PinStop>
    requires few { length slots.now < 2 ^ 32 }
    requires numbered { length couplers.now < 2 ^ 32 }
    requires couplers { All (λ slot. slot.coupler.0 < length couplers.now) slots.now }
    requires usages { All (λ slot. Has rows.now slot.usage) slots.now }
    ensures pins { IfOk result (ArePins couplers.now slots.now) }
    ensures without { (slot : ℕ) → result ≡ Err (PinStop.NoPin slot)
        → IsFirstWithout couplers.now slots.now slot }
{
    let reserved = reserved_pins(alloc, couplers)?;
    let mut meetings = Meetings::new(rows);
    let mut holders = Holders::new(alloc);
    for (at, slot) in slots.iter().enumerate() {
        let first = holders.first_to_try(rows, slots, *slot);
        let coupler = &couplers[slot.coupler.0 as usize];
        let pin = least_free(
            &holders,
            &mut meetings,
            &reserved,
            slots,
            *slot,
            coupler,
            first,
        )?;
        match pin {
            Some(pin) => holders.give(slots, pin)?,
            None => return Err(PinStop::NoPin { slot: at as u32 }),
        }
    }
    let Holders { pins, .. } = holders;
    Ok(pins)
}
