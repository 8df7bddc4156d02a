use loom_base::NoMemory;
use std::alloc::{AllocError, AllocFailed};

/// Why a call made no condition.
#[derive(Clone, Copy, Debug, PartialEq, Eq)]
pub enum RowsStop {
    /// The rows that the call's conditions need, with those that are there, are more than the
    /// limit.
    TooManyRows,
    NoMemory,
}

impl From<NoMemory> for RowsStop {
    ghost use Rattle.std.specs.Prelude.{◌≡◌};
    ghost use Rattle.loom_rows.specs.declared.stop.RowsStop.{RowsStop};

    ghost from_gives = { λ e s. s ≡ RowsStop.NoMemory };

    fn from(_error: NoMemory) -> RowsStop {
        RowsStop::NoMemory
    }
}

impl From<AllocError> for RowsStop {
    ghost use Rattle.std.specs.Prelude.{◌≡◌};
    ghost use Rattle.loom_rows.specs.declared.stop.RowsStop.{RowsStop};

    ghost from_gives = { λ e s. s ≡ RowsStop.NoMemory };

    fn from(_error: AllocError) -> RowsStop {
        RowsStop::NoMemory
    }
}

impl<T: Drop> From<AllocFailed<T>> for RowsStop {
    ghost use Rattle.std.specs.Prelude.{◌≡◌};
    ghost use Rattle.loom_rows.specs.declared.stop.RowsStop.{RowsStop};

    ghost from_gives = { λ e s. s ≡ RowsStop.NoMemory };

    fn from(_error: AllocFailed<T>) -> RowsStop {
        RowsStop::NoMemory
    }
}
