use loom_base::{CavityNo, List, NetNo, NoMemory, NodeNo};

/// Why live sets have no layouts.
#[derive(Debug, Drop)]
pub enum LaidStop {
    /// The tables of the nets that have a live set have more cells than a plan may have.
    TooManyCells,
    /// The cavity is the first of its net's set that isn't reached from the set's first cavity, and
    /// these are the nodes that are, rising.
    Unreachable {
        net: NetNo,
        cavity: CavityNo,
        reached: List<NodeNo>,
    },
    /// The layouts have more steps than a plan may have.
    TooManySteps,
    /// Memory ran out.
    NoMemory,
}

impl From<NoMemory> for LaidStop {
    ghost use Rattle.std.specs.Prelude.{◌≡◌};
    ghost use Rattle.loom_laid.specs.declared.stop.LaidStop.{LaidStop};

    ghost from_gives = { λ _ stop. stop ≡ LaidStop.NoMemory };

    fn from(_error: NoMemory) -> LaidStop {
        LaidStop::NoMemory
    }
}
