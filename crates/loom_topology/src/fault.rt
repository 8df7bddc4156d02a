use loom_base::NoMemory as OutOfMemory;
use std::alloc::{AllocError, AllocFailed};
use thiserror::Error;

/// Why a segment wasn't added.
#[derive(Clone, Copy, Debug, PartialEq, Eq, Error)]
pub enum TopologyFault {
    /// Its two ends are one node.
    #[error("the ends of the segment are one node")]
    EndsEqual,
    /// It is a run between two harnesses.
    #[error("a run joins two harnesses")]
    BorderCrossed,
    /// It is a coupler inside one harness.
    #[error("a coupler lies inside one harness")]
    NoBorder,
    #[error("out of memory")]
    NoMemory,
}

impl From<OutOfMemory> for TopologyFault {
    ghost use Rattle.std.specs.Prelude.{◌≡◌};
    ghost use Rattle.loom_topology.specs.declared.fault.TopologyFault.TheVariants.{NoMemory};

    ghost from_gives = { λ _ fault. fault ≡ NoMemory };

    fn from(_error: OutOfMemory) -> TopologyFault {
        TopologyFault::NoMemory
    }
}

impl From<AllocError> for TopologyFault {
    ghost use Rattle.std.specs.Prelude.{◌≡◌};
    ghost use Rattle.loom_topology.specs.declared.fault.TopologyFault.TheVariants.{NoMemory};

    ghost from_gives = { λ _ fault. fault ≡ NoMemory };

    fn from(_error: AllocError) -> TopologyFault {
        TopologyFault::NoMemory
    }
}

impl<T: Drop> From<AllocFailed<T>> for TopologyFault {
    ghost use Rattle.std.specs.Prelude.{◌≡◌};
    ghost use Rattle.loom_topology.specs.declared.fault.TopologyFault.TheVariants.{NoMemory};

    ghost from_gives = { λ _ fault. fault ≡ NoMemory };

    fn from(_error: AllocFailed<T>) -> TopologyFault {
        TopologyFault::NoMemory
    }
}
