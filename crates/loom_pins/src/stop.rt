ghost use Rattle.std.specs.Prelude.{◌≡◌};
ghost use Rattle.loom_pins.specs.declared.stop.PinStop.TheVariants.{NoMemory as WantOfMemory};

use loom_base::NoMemory;
use thiserror::Error;

/// Why the slots have no pins.
#[derive(Clone, Copy, Debug, PartialEq, Eq, Error)]
pub enum PinStop {
    /// First fit has no pin for the slot at this position, and had one for each slot before it.
    #[error("no pin is left for slot {slot}")]
    NoPin { slot: u32 },
    /// Memory ran out.
    #[error("out of memory")]
    NoMemory,
}

impl From<NoMemory> for PinStop {
    ghost from_gives = { λ _ stop. stop ≡ WantOfMemory };

    fn from(_error: NoMemory) -> PinStop {
        PinStop::NoMemory
    }
}
