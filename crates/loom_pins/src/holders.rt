ghost use Rattle.std.specs.Prelude.{◌≡◌, ◌<◌, ◌≤◌, ◌^◌, ◌++◌, ◌∷◌, [], List as Items, Ok, true, false, OnOk, Some, length, slice_get};
ghost use Rattle.std.specs.List.{All};
ghost use Rattle.loom_rows.specs.Table.{Has};
ghost use Rattle.loom_pins.specs.FirstFit.{IsTaken, AreFirstFit};
ghost use Rattle.loom_pins.specs.Holders.{AreHolders, ArePassed};
ghost use Rattle.loom_pins.specs.declared.slot.Slot.{Slot as OneSlot};
ghost use Rattle.loom_pins.specs.declared.slot.CouplerPins.{CouplerPins as PinsOfOne};

use crate::slot::Slot;
use loom_base::{List, NoMemory};
use loom_rows::{Meetings, Rows};
use std::alloc::Global;
use std::collections::HashMap;

/// The pins that the first slots have, in their order; the last slot that has a pin of a coupler;
/// of each slot the one before it that has the same pin; and the last slot of a coupler and a usage,
/// by the usage's number.
#[derive(Drop)]
pub(crate) struct Holders {
    pub(crate) pins: List<u16>,
    newest: HashMap<(u32, u16), u32>,
    earlier: List<Option<u32>>,
    latest: HashMap<(u32, u32), u32>,
}

impl Holders {
    /// No slot has a pin.
    pub(crate) fn new(alloc: Global) -> Holders
        ensures pins { result.pins ≡ [] }
        ensures holders { (slots : Items OneSlot) → AreHolders slots result }
    {
        Holders {
            pins: List::new(alloc),
            newest: HashMap::new(alloc),
            earlier: List::new(alloc),
            latest: HashMap::new(alloc),
        }
    }

    /// Whether a slot that has the pin is used together with this one under some choice. The last
    /// such slot is asked first.
    pub(crate) fn is_taken<'a>(
        &self,
        meetings: &mut Meetings<'_, 'a>,
        slots: &[Slot<'a>],
        slot: Slot<'a>,
        pin: u16,
    ) -> Result<bool, NoMemory>
        requires holders { AreHolders slots.now self.now }
        requires usages { All (λ other. Has meetings.old other.usage) slots.now }
        requires usage { Has meetings.old slot.usage }
        ensures taken { result ≡ Ok true
            → IsTaken slots.now self.now.pins (length self.now.pins) slot.entry pin }
        ensures free { result ≡ Ok false
            → IsTaken slots.now self.now.pins (length self.now.pins) slot.entry pin → ⊥ }
        ensures unchanged { meetings.new ≡ meetings.old }
    {
        let mut next = self.newest.get(&(slot.coupler.0, pin)).copied();
        while let Some(at) = next {
            if meetings.meet(slots[at as usize].usage, slot.usage)? {
                return Ok(true);
            }
            next = self.earlier.as_slice()[at as usize];
        }
        Ok(false)
    }

    /// A pin before which there is none for the next slot: that of the last slot of its coupler that
    /// is used exactly where it is, if there is one.
    pub(crate) fn first_to_try<'a>(
        &self,
        rows: &Rows<'a>,
        slots: &[Slot<'a>],
        slot: Slot<'a>,
    ) -> u16
        requires usages { All (λ other. Has rows.now other.usage) slots.now }
        requires usage { Has rows.now slot.usage }
        requires within { length self.now.pins ≤ length slots.now }
        ensures positive { (couplers : Items PinsOfOne) (coupler : PinsOfOne)
            → AreFirstFit couplers slots.now self.now.pins
            → slice_get couplers slot.entry.coupler.0 ≡ Some coupler → 1 ≤ result }
        ensures passed { (couplers : Items PinsOfOne) (coupler : PinsOfOne)
            → AreFirstFit couplers slots.now self.now.pins
            → slice_get couplers slot.entry.coupler.0 ≡ Some coupler
            → ArePassed coupler slots.now self.now.pins (length self.now.pins) slot.entry result }
    {
        let key = (slot.coupler.0, slot.usage.number());
        let Some(at) = self.latest.get(&key).copied() else {
            return 1;
        };
        let at = at as usize;
        if at >= self.pins.len() {
            return 1;
        }
        let before = slots[at];
        if before.coupler.0 == slot.coupler.0 && rows.same(before.usage, slot.usage) {
            return self.pins.as_slice()[at];
        }
        1
    }

    /// Gives the next slot a pin.
    pub(crate) fn give(&mut self, slots: &[Slot<'_>], pin: u16) -> Result<(), NoMemory>
        requires holders { AreHolders slots.now self.old }
        requires room { length self.old.pins < length slots.now }
        requires few { length slots.now < 2 ^ 32 }
        ensures holders { OnOk result (AreHolders slots.now self.new) }
        ensures pins { OnOk result (self.new.pins ≡ self.old.pins ++ pin ∷ []) }
    {
        let at = self.pins.len();
        let slot = slots[at];
        self.latest
            .insert((slot.coupler.0, slot.usage.number()), at as u32)?;
        let before = self.newest.insert((slot.coupler.0, pin), at as u32)?;
        self.earlier.push(before)?;
        self.pins.push(pin)?;
        Ok(())
    }
}
