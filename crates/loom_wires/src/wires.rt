ghost use Rattle.std.specs.Prelude.{◌≡◌, ◌≤◌, ◌<◌, ◌^◌, ◌++◌, List as Items, Err, OnOk, IfOk, length};
ghost use Rattle.std.specs.List.{All};
ghost use Rattle.loom_topology.specs.Topology.{IsSound};
ghost use Rattle.loom_rows.specs.declared.cond.Cond.{Cond as Condition};
ghost use Rattle.loom_rows.specs.Condition.{Meaning};
ghost use Rattle.loom_rows.specs.Table.{Has};
ghost use Rattle.loom_rows.specs.Leftovers.{StandsFor, AreMoreThan, IsRowOf};
ghost use Rattle.loom_types.specs.declared.wire.Wire.{Wire as OneWire};
ghost use Rattle.loom_wires.specs.Wires.{IsLaid, AreWires, AreManyWires, AreCut, wires_worked};

use crate::cut_wire::CutWire;
use crate::found::found_wires;
use crate::joined::joined;
use crate::laid_set::LaidSet;
use crate::stop::WireStop;
use loom_base::{List, MAX_WIRES};
use loom_rows::Rows;
use loom_topology::Topology;
use loom_types::PinLine;
use std::alloc::Global;

/// The wires over all sets, in the order of wires: each set's layout is cut at its cavities, at its
/// points where three or more things meet, and at the pins of its crossings; wires of equal net,
/// ends and route are one, which is live where some set that has it is.
///
/// `TooManyWires` exactly where there are more than 65,536, before any condition is worked out;
/// `TooManyRows` exactly where the rows that are there, and those of the wires' conditions, worked
/// out wire by wire and set by set, are more than the table's limit. After every answer the
/// conditions that were there still are.
pub fn cut<'a>(
    alloc: Global,
    topology: &Topology,
    rows: &mut Rows<'a>,
    sets: &[LaidSet<'a>],
    pins: &[PinLine],
) -> Result<List<CutWire<'a>>, WireStop>
    requires sound { IsSound topology.now }
    requires few { length sets.now < 2 ^ 32 }
    requires laid { All (IsLaid topology.now) sets.now }
    requires has { All (λ set. Has rows.old set.cond) sets.now }
    ensures wires { IfOk result (AreCut topology.now pins.now sets.now rows.new) }
    ensures few_wires { IfOk result (λ wires. length wires ≤ 65536) }
    ensures many_wires { result ≡ Err WireStop.TooManyWires
        → AreManyWires 65536 topology.now pins.now sets.now }
    ensures early { result ≡ Err WireStop.TooManyWires → rows.new ≡ rows.old }
    ensures stands { (worked : Items Meaning) (wires : Items OneWire) → StandsFor rows.old worked
        → AreWires topology.now pins.now sets.now wires
        → OnOk result (StandsFor rows.new
        (worked ++ wires_worked topology.now pins.now sets.now wires)) }
    ensures many_rows { (worked : Items Meaning) (wires : Items OneWire)
        → StandsFor rows.old worked → AreWires topology.now pins.now sets.now wires
        → result ≡ Err WireStop.TooManyRows
        → (length wires ≤ 65536) × AreMoreThan rows.old.limit
        (IsRowOf (worked ++ wires_worked topology.now pins.now sets.now wires)) }
    ensures few_rows { (worked : Items Meaning) (wires : Items OneWire) → StandsFor rows.old worked
        → AreWires topology.now pins.now sets.now wires
        → OnOk result (AreMoreThan rows.old.limit
        (IsRowOf (worked ++ wires_worked topology.now pins.now sets.now wires)) → ⊥) }
    ensures keeps { (x : Condition) → Has rows.old x → Has rows.new x }
    ensures same_options { rows.new.options ≡ rows.old.options }
    ensures same_limit { rows.new.limit ≡ rows.old.limit }
    ensures found { result ≡ Err WireStop.TooManyRows
        → (wires : Items OneWire) × AreWires topology.now pins.now sets.now wires }
{
    let found = found_wires(alloc, topology, pins, sets)?;
    if found.len() as u64 > MAX_WIRES {
        return Err(WireStop::TooManyWires);
    }
    Ok(joined(alloc, rows, sets, found)?)
}
