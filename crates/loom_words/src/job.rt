ghost use Rattle.std.specs.Prelude.{◌≡◌, ◌≢◌};
ghost use Rattle.clap.specs.Words.{kind_of};
ghost use Rattle.clap.specs.declared.error.kind.ErrorKind.TheVariants.{OutOfMemory};
ghost use Rattle.loom_words.specs.declared.job.WordsStop.TheVariants.{NoMemory as WantOfMemory};
ghost use Rattle.loom_words.specs.declared.job.WordsStop.TheVariants.{Usage as NoJob};

use clap::Error as ParseError;
use clap::error::ErrorKind;
use std::alloc::AllocError;
use thiserror::Error;

/// What the words ask for.
#[derive(Clone, Copy, Debug, PartialEq, Eq)]
pub enum Job {
    /// A plan of a document's project.
    Plan,
    /// The live wires of a plan under a choice.
    Extract,
    /// Whether a plan is right.
    Check,
    /// The summary of the trial project of this number, 1 to 200.
    Trial(u32),
}

/// Why the words ask for no job.
#[derive(Clone, Copy, Debug, PartialEq, Eq, Error)]
pub enum WordsStop {
    /// The program's command doesn't take the words.
    #[error("the words name no job")]
    Usage,
    /// Memory ran out.
    #[error("out of memory")]
    NoMemory,
}

impl From<AllocError> for WordsStop {
    ghost from_gives = { λ _ stop. stop ≡ WantOfMemory };

    fn from(_error: AllocError) -> WordsStop {
        WordsStop::NoMemory
    }
}

impl From<ParseError> for WordsStop {
    ghost from_gives = { λ error stop. stop ≡ NoJob → kind_of error ≢ OutOfMemory };

    fn from(error: ParseError) -> WordsStop {
        match error.kind() {
            ErrorKind::OutOfMemory => WordsStop::NoMemory,
            _ => WordsStop::Usage,
        }
    }
}
