ghost use Rattle.std.specs.Prelude.{◌≡◌, ◌<◌, ◌≤◌, ◌^◌, ◌∷◌, [], IfOk, OnOk, length};
ghost use Rattle.std.specs.List.{All};
ghost use Rattle.std.specs.BTreeMap.{btree_map_len};
ghost use Rattle.loom_topology.specs.Topology.{IsSound};
ghost use Rattle.loom_wires.specs.Wires.{IsLaid, AreManyWires};
ghost use Rattle.loom_wires.specs.FoundWires.{ends_with, with_position, AreNoted, AreFound};

use crate::laid_set::LaidSet;
use crate::pin_index::PinIndex;
use crate::set_wires::set_wires;
use crate::wire_key::WireKey;
use loom_base::{List, MAX_WIRES, NoMemory};
use loom_topology::Topology;
use loom_types::{PinLine, Wire};
use std::alloc::Global;
use std::collections::BTreeMap;

/// Whether the last of the positions is this one.
fn ends_with(positions: &[u32], at: u32) -> bool
    ensures { result ≡ ends_with at positions.now }
{
    match positions.last() {
        Some(last) => *last == at,
        None => false,
    }
}

/// The positions with this one at their end.
fn with_position(mut positions: List<u32>, at: u32) -> Result<List<u32>, NoMemory>
    ensures { IfOk result (λ noted. noted ≡ with_position at positions) }
{
    if !ends_with(positions.as_slice(), at) {
        positions.push(at)?;
    }
    Ok(positions)
}

/// Notes that the set at a position has a wire.
fn add_wire(
    alloc: Global,
    found: &mut BTreeMap<WireKey, List<u32>>,
    wire: Wire,
    at: u32,
) -> Result<(), NoMemory>
    ensures { OnOk result (AreNoted at (wire ∷ []) found.old found.new) }
{
    let key = WireKey { wire };
    let positions = found.remove(&key).unwrap_or(List::new(alloc));
    let noted = with_position(positions, at)?;
    found.insert(key, noted)?;
    Ok(())
}

/// Notes that the set at a position has these wires.
fn add_wires(
    alloc: Global,
    found: &mut BTreeMap<WireKey, List<u32>>,
    wires: List<Wire>,
    at: u32,
) -> Result<(), NoMemory>
    ensures { OnOk result (AreNoted at wires found.old found.new) }
{
    for wire in wires.into_vec() {
        add_wire(alloc, found, wire, at)?;
    }
    Ok(())
}

/// The wires over all sets, each with the positions of the sets that have it. Where there are more
/// than a plan may have, the search ends early with more than that.
pub(crate) fn found_wires(
    alloc: Global,
    topology: &Topology,
    pins: &[PinLine],
    sets: &[LaidSet<'_>],
) -> Result<BTreeMap<WireKey, List<u32>>, NoMemory>
    requires sound { IsSound topology.now }
    requires few { length sets.now < 2 ^ 32 }
    requires laid { All (IsLaid topology.now) sets.now }
    ensures all { IfOk result (λ found. btree_map_len found ≤ 65536
        → AreFound topology.now pins.now sets.now found) }
    ensures many { IfOk result (λ found. 65536 < btree_map_len found
        → AreManyWires 65536 topology.now pins.now sets.now) }
{
    let index = PinIndex::new(alloc, pins)?;
    let mut found = BTreeMap::new(alloc);
    for (at, set) in sets.iter().enumerate() {
        let wires = set_wires(alloc, topology, &index, set)?;
        add_wires(alloc, &mut found, wires, at as u32)?;
        if found.len() as u64 > MAX_WIRES {
            return Ok(found);
        }
    }
    Ok(found)
}
