ghost use Rattle.std.specs.Prelude.{◌≡◌};
ghost use Rattle.loom_rows.specs.declared.stop.RowsStop.TheVariants as rows;
ghost use Rattle.loom_wires.specs.Stops.{stop_by_rows};
ghost use Rattle.loom_wires.specs.declared.stop.WireStop.TheVariants.{NoMemory as WantOfMemory};

use loom_base::NoMemory;
use loom_rows::RowsStop;
use thiserror::Error;

/// Why sets have no wires.
#[derive(Clone, Copy, Debug, PartialEq, Eq, Error)]
pub enum WireStop {
    /// There are more wires than a plan may have.
    #[error("too many wires")]
    TooManyWires,
    /// The wires' conditions need more rows than a job may have.
    #[error("too many rows")]
    TooManyRows,
    /// Memory ran out.
    #[error("out of memory")]
    NoMemory,
}

impl From<NoMemory> for WireStop {
    ghost from_gives = { λ _ stop. stop ≡ WantOfMemory };

    fn from(_error: NoMemory) -> WireStop {
        WireStop::NoMemory
    }
}

impl From<RowsStop> for WireStop {
    ghost from_gives = { λ cause stop. stop ≡ stop_by_rows cause };

    fn from(cause: RowsStop) -> WireStop {
        match cause {
            RowsStop::TooManyRows => WireStop::TooManyRows,
            RowsStop::NoMemory => WireStop::NoMemory,
        }
    }
}
