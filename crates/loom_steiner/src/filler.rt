ghost use Rattle.std.specs.Prelude.{ℕ, ◌≡◌, ◌<◌, ◌≤◌, length, map, IfOk, OnOk, OnErr};
ghost use Rattle.std.specs.List.{All};
ghost use Rattle.loom_base.specs.Causes.{next_count};
ghost use Rattle.loom_steiner.specs.LeastTable.{IsLeastTable};

use crate::table;
use loom_base::{CavityNo, NoMemory};
use loom_topology::{Table, Topology};
use std::alloc::Global;
use std::marker::Model;

/// What makes tables of least costs, and counts those that it gave.
pub trait Filler {
    /// How many tables were given; it stops at the last value of a u64.
    ghost count: { Self → ℕ };

    /// The table of least costs of a net's terminals, as `loom_steiner::table` makes it. The count
    /// is one more where a table is given, and the same where memory ran out.
    fn table(
        &mut self,
        alloc: Global,
        topology: &Topology,
        terminals: &[CavityNo],
    ) -> Result<Table, NoMemory>
        requires at_least { 2 ≤ length terminals.now }
        requires at_most { length terminals.now ≤ 12 }
        requires in_range { All (λ cavity. cavity.0 < length topology.now.cavities) terminals.now }
        ensures least { IfOk result (
            IsLeastTable topology.now (map (λ cavity. cavity.0) terminals.now)) }
        ensures given { OnOk result (count self.new ≡ next_count (count self.old)) }
        ensures refused { OnErr result (count self.new ≡ count self.old) };

    /// How many tables were given.
    fn built(&self) -> u64
        ensures { result ≡ count self.now };
}

/// Makes each table anew.
#[derive(Debug, Drop)]
pub struct DirectFiller {
    built: u64,
}

impl Model for DirectFiller {
    ghost use Rattle.std.specs.Prelude.{ℕ};

    ghost Value = { ℕ };

    ghost view = { λ filler. filler.built };
}

impl DirectFiller {
    /// A filler that has given no table.
    pub fn new() -> DirectFiller
        ensures { result ≡ 0 }
    {
        DirectFiller { built: 0 }
    }
}

impl Filler for DirectFiller {
    ghost count = { λ filler. filler };

    fn table(
        &mut self,
        alloc: Global,
        topology: &Topology,
        terminals: &[CavityNo],
    ) -> Result<Table, NoMemory> {
        let table = table(alloc, topology, terminals)?;
        self.built = self.built.saturating_add(1);
        Ok(table)
    }

    fn built(&self) -> u64 {
        self.built
    }
}
