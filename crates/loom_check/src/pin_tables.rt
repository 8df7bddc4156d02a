//! The wires that end at one pin, where wires of different nets do.
ghost use Rattle.std.specs.Prelude.{ℕ, Some, ◌≡◌, ◌++◌, ◌∷◌, [], if◌then◌else◌, IfOk, OnOk};
ghost use Rattle.std.specs.HashMap.{get};
ghost use Rattle.std.specs.HashSet.{contains};
ghost use Rattle.loom_audit.specs.Grouping.{is_same_pair};
ghost use Rattle.loom_check.specs.PinTables.{pin_of as pin_of_end, positions_at, AreKept, IsEndNoted, AreShared, IsPlaced, IsWirePlaced, KnowsEnds, FindsShared};

use loom_base::{List, NoMemory};
use loom_types::{End, Wire};
use std::alloc::Global;
use std::collections::{HashMap, HashSet};

/// A coupler and a pin of it.
type PinKey = (u32, u16);

/// The pin at which an end lies, if it is one of a coupler's.
pub(crate) fn pin_of(end: &End) -> Option<PinKey>
    ensures { result ≡ pin_of_end end.now }
{
    match end {
        End::Pin { coupler, pin, .. } => Some((coupler.0, *pin)),
        _ => None,
    }
}

/// Notes the net of a wire at the pin at which an end of it lies; a pin of another net is shared.
fn note_end(
    nets: &mut HashMap<PinKey, u32>,
    shared: &mut HashSet<PinKey>,
    end: &End,
    net: u32,
) -> Result<(), NoMemory>
    ensures kept { OnOk result (AreKept nets.old shared.old nets.new shared.new) }
    ensures noted { OnOk result (IsEndNoted (pin_of_end end.now) net nets.new shared.new) }
{
    let Some(pin) = pin_of(end) else {
        return Ok(());
    };
    match nets.get(&pin).copied() {
        Some(first) => {
            if first != net {
                shared.insert(pin)?;
            }
        }
        None => {
            nets.insert(pin, net)?;
        }
    }
    Ok(())
}

/// The pins at which wires of different nets end.
fn shared_pins(alloc: Global, wires: &[Wire]) -> Result<HashSet<PinKey>, NoMemory>
    ensures { IfOk result (λ shared. AreShared wires.now (contains is_same_pair shared)) }
{
    let mut nets = HashMap::new(alloc);
    let mut shared = HashSet::new(alloc);
    for wire in wires {
        note_end(&mut nets, &mut shared, &wire.from, wire.net.0)?;
        note_end(&mut nets, &mut shared, &wire.to, wire.net.0)?;
    }
    Ok(shared)
}

/// Appends a position to those of a pin.
fn add_place(
    alloc: Global,
    by_pin: &mut HashMap<PinKey, List<u32>>,
    pin: PinKey,
    position: u32,
) -> Result<(), NoMemory>
    ensures { OnOk result ((other : ℕ × ℕ) → get is_same_pair by_pin.new other
        ≡ (if is_same_pair pin other then Some (positions_at by_pin.old pin ++ position ∷ [])
        else get is_same_pair by_pin.old other)) }
{
    by_pin
        .entry(pin)?
        .or_insert(List::new(alloc))
        .push(position)?;
    Ok(())
}

/// Appends a wire's position to those of a pin at which it ends, if the pin is shared.
fn add_end(
    alloc: Global,
    by_pin: &mut HashMap<PinKey, List<u32>>,
    shared: &HashSet<PinKey>,
    end: Option<PinKey>,
    position: u32,
) -> Result<(), NoMemory>
    ensures { OnOk result (IsPlaced end shared.now position by_pin.old by_pin.new) }
{
    match end {
        Some(pin) if shared.contains(&pin) => add_place(alloc, by_pin, pin, position),
        _ => Ok(()),
    }
}

/// Appends a wire's position to those of each shared pin at which it ends.
fn add_wire(
    alloc: Global,
    by_pin: &mut HashMap<PinKey, List<u32>>,
    shared: &HashSet<PinKey>,
    wire: &Wire,
    position: u32,
) -> Result<(), NoMemory>
    ensures { OnOk result (IsWirePlaced wire.now shared.now position by_pin.old by_pin.new) }
{
    let from = pin_of(&wire.from);
    let to = pin_of(&wire.to);
    add_end(alloc, by_pin, shared, from, position)?;
    if from == to {
        Ok(())
    } else {
        add_end(alloc, by_pin, shared, to, position)
    }
}

/// The positions, rising, of the wires that end at each shared pin.
fn wires_at_shared(
    alloc: Global,
    wires: &[Wire],
    shared: &HashSet<PinKey>,
) -> Result<HashMap<PinKey, List<u32>>, NoMemory>
    ensures { IfOk result (KnowsEnds (contains is_same_pair shared.now) wires.now) }
{
    let mut by_pin = HashMap::new(alloc);
    for (at, wire) in wires.iter().enumerate() {
        let Ok(position) = u32::try_from(at) else {
            return Err(NoMemory);
        };
        add_wire(alloc, &mut by_pin, shared, wire, position)?;
    }
    Ok(by_pin)
}

/// The positions, rising, of the wires that end at each pin at which wires of different nets end.
pub(crate) fn wires_by_pin(
    alloc: Global,
    wires: &[Wire],
) -> Result<HashMap<PinKey, List<u32>>, NoMemory>
    ensures { IfOk result (FindsShared wires.now) }
{
    let shared = shared_pins(alloc, wires)?;
    wires_at_shared(alloc, wires, &shared)
}
