ghost use Rattle.std.specs.Prelude.{[], ◌≡◌, ◌≤◌, length, IfOk};
ghost use Rattle.loom_rules.specs.Findings.{AreFindings};

use crate::watch::Watch;
use crate::{DesignRule, Finding, Findings};
use loom_base::{List, NoMemory};
use loom_types::Wire;
use std::alloc::Global;
use std::marker::Model;

/// Finds the wires that are longer than the limit.
#[derive(Debug, Drop)]
pub struct LongWire {
    watch: Watch,
}

impl Model for LongWire {
    ghost use Rattle.loom_rules.specs.Watched.{Watched};

    ghost Value = { Watched };

    ghost view = { λ rule. rule.watch };
}

impl LongWire {
    /// A rule of that limit that has seen no wire.
    pub fn new(alloc: Global, limit: u64) -> LongWire
        ensures { result ≡ record { limit = limit; seen = [] } }
    {
        LongWire {
            watch: Watch::new(alloc, limit),
        }
    }
}

impl DesignRule for LongWire {
    ghost kind_of = { λ _. 1 };

    ghost limit_of = { λ rule. rule.limit };

    ghost seen_by = { λ rule. rule.seen };

    fn kind(&self) -> u8 {
        1
    }

    fn limit(&self) -> u64 {
        self.watch.limit()
    }

    fn seen(&self) -> u32 {
        self.watch.wires().len() as u32
    }

    fn set_limit(&mut self, limit: u64) {
        self.watch.set_limit(limit);
    }

    fn see(&mut self, wire: &Wire) -> Result<(), NoMemory> {
        self.watch.see(wire)
    }

    fn finish(&mut self) -> Result<Findings, NoMemory> {
        let watch = &self.watch;
        long_wires(watch.alloc(), watch.limit(), watch.wires())
    }
}

/// The positions of the wires that are longer than the limit.
fn long_wires(alloc: Global, limit: u64, wires: &[Wire]) -> Result<Findings, NoMemory>
    requires { length wires.now ≤ 65536 }
    ensures { IfOk result (AreFindings 1 limit wires.now) }
{
    let mut found = List::new(alloc);
    for i in 0..wires.len() {
        if wires[i].length > limit {
            let first = i as u32;
            found.push(Finding {
                first,
                second: 0,
                third: 0,
            })?;
        }
    }
    Ok(found)
}
