ghost use Rattle.std.specs.Prelude.{◌≡◌, ◌<◌, ◌==◌, ◌&&◌, ◌||◌, ◌^◌, ℕ, IfOk, OnOk, length};
ghost use Rattle.std.specs.List.{list_any};
ghost use Rattle.std.specs.HashSet.{contains};
ghost use Rattle.loom_pins.specs.Holders.{AreReserved, pair_eq};

use crate::slot::CouplerPins;
use loom_base::NoMemory;
use std::alloc::Global;
use std::collections::HashSet;

/// Adds the reserved pins of one coupler.
fn add_reserved(
    reserved: &mut HashSet<(u32, u16)>,
    number: u32,
    pins: &[u16],
) -> Result<(), NoMemory>
    ensures { OnOk result ((other pin : ℕ) → contains pair_eq reserved.new (other, pin)
        ≡ (contains pair_eq reserved.old (other, pin)
        || (number == other && list_any (λ x. x == pin) pins.now))) }
{
    for pin in pins {
        reserved.insert((number, *pin))?;
    }
    Ok(())
}

/// The reserved pins of all couplers, each with its coupler's number.
pub(crate) fn reserved_pins(
    alloc: Global,
    couplers: &[CouplerPins],
) -> Result<HashSet<(u32, u16)>, NoMemory>
    requires { length couplers.now < 2 ^ 32 }
    ensures { IfOk result (AreReserved couplers.now) }
{
    let mut reserved = HashSet::new(alloc);
    for (number, coupler) in couplers.iter().enumerate() {
        add_reserved(&mut reserved, number as u32, coupler.reserved.as_slice())?;
    }
    Ok(reserved)
}
