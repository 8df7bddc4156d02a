ghost use Rattle.std.specs.Prelude.{◌<◌, ◌≤◌, length, map, IfOk};
ghost use Rattle.std.specs.List.{All};
ghost use Rattle.loom_steiner.specs.LeastTable.{IsLeastTable};

use crate::filling::fill;
use bumpalo::Bump;
use loom_base::{CavityNo, NoMemory};
use loom_topology::{Table, Topology};
use std::alloc::Global;

/// The table of least costs of a net's terminals: for each set of cavities and each node the least
/// cost of a wiring tree over open segments. The first terminal is the stem; bit i of a mask stands
/// for terminal i + 1.
pub fn table(alloc: Global, topology: &Topology, terminals: &[CavityNo]) -> Result<Table, NoMemory>
    requires at_least { 2 ≤ length terminals.now }
    requires at_most { length terminals.now ≤ 12 }
    requires in_range { All (λ cavity. cavity.0 < length topology.now.cavities) terminals.now }
    ensures { IfOk result (IsLeastTable topology.now (map (λ cavity. cavity.0) terminals.now)) }
{
    let scratch = Bump::new(alloc);
    fill(&scratch, topology, terminals)?.copy_out(alloc)
}
