ghost use Rattle.std.specs.Prelude.{[], ◌∷◌, ◌++◌, ◌≡◌, ◌<◌, ◌≤◌, length, OnOk, OnErr};
ghost use Rattle.loom_rules.specs.Watched.{Watched};

use loom_base::{List, NoMemory};
use loom_types::Wire;
use std::alloc::Global;
use std::marker::Model;

/// A limit, and copies of the wires that a rule has seen: at most 65,536.
#[derive(Debug, Drop)]
pub(crate) struct Watch {
    alloc: Global,
    limit: u64,
    seen: List<Wire>,
}

impl Model for Watch {
    ghost use Rattle.std.specs.Prelude.{◌≤◌, length};
    ghost use Rattle.loom_rules.specs.Watched.{Watched};

    ghost Value = { Watched };

    ghost view = { λ watch. record { limit = watch.limit; seen = watch.seen } };

    ghost invariant = { λ watch. length watch.seen ≤ 65536 };
}

impl Watch {
    pub(crate) fn new(alloc: Global, limit: u64) -> Watch
        ensures { result ≡ record { limit = limit; seen = [] } }
    {
        Watch {
            alloc,
            limit,
            seen: List::new(alloc),
        }
    }

    pub(crate) fn alloc(&self) -> Global {
        self.alloc
    }

    pub(crate) fn limit(&self) -> u64
        ensures { result ≡ self.now.limit }
    {
        self.limit
    }

    pub(crate) fn wires(&self) -> &[Wire]
        ensures seen { result.now ≡ self.now.seen }
        ensures few { length result.now ≤ 65536 }
    {
        self.seen.as_slice()
    }

    pub(crate) fn set_limit(&mut self, limit: u64)
        ensures { self.new ≡ record self.old { limit = limit } }
    {
        self.limit = limit;
    }

    pub(crate) fn see(&mut self, wire: &Wire) -> Result<(), NoMemory>
        requires { length self.old.seen < 65536 }
        ensures ok { OnOk result (self.new ≡ record self.old {
          seen = self.old.seen ++ wire.now ∷ [];
        }) }
        ensures err { OnErr result (self.new ≡ self.old) }
    {
        let copy = wire.copy(self.alloc)?;
        self.seen.push(copy)
    }
}
