ghost use Rattle.std.specs.Prelude.{◌≡◌};
ghost use Rattle.loom_layout.specs.declared.stop.LayoutStop.TheVariants.{NoMemory as WantOfMemory};

use loom_base::{CavityNo, List, NoMemory, NodeNo};
use std::alloc::AllocError;
use thiserror::Error;

/// Why a set has no layout.
#[derive(Debug, Drop, Error)]
pub enum LayoutStop {
    /// The cavity is the set's first that isn't reached from its first one's node, and these are the
    /// nodes that are, rising.
    #[error("a cavity isn't reached")]
    Unreachable {
        cavity: CavityNo,
        reached: List<NodeNo>,
    },
    /// Memory ran out.
    #[error("out of memory")]
    NoMemory,
}

impl From<NoMemory> for LayoutStop {
    ghost from_gives = { λ _ stop. stop ≡ WantOfMemory };

    fn from(_error: NoMemory) -> LayoutStop {
        LayoutStop::NoMemory
    }
}

impl From<AllocError> for LayoutStop {
    ghost from_gives = { λ _ stop. stop ≡ WantOfMemory };

    fn from(_error: AllocError) -> LayoutStop {
        LayoutStop::NoMemory
    }
}
