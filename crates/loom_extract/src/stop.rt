ghost use Rattle.std.specs.Prelude.{◌≡◌};
ghost use Rattle.loom_extract.specs.declared.stop.ExtractStop.TheVariants.{NoMemory as WantOfMemory};

use loom_base::NoMemory;
use thiserror::Error;

/// Why a choice has no variant.
#[derive(Clone, Copy, Debug, PartialEq, Eq, Error)]
pub enum ExtractStop {
    /// The rule at this position is false, and no rule before it is.
    #[error("rule {rule} is false")]
    BrokenRule { rule: u32 },
    /// Memory ran out.
    #[error("out of memory")]
    NoMemory,
}

impl From<NoMemory> for ExtractStop {
    ghost from_gives = { λ _ stop. stop ≡ WantOfMemory };

    fn from(_error: NoMemory) -> ExtractStop {
        ExtractStop::NoMemory
    }
}
