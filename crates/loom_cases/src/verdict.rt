ghost use Rattle.std.specs.Prelude.{◌≡◌, ◌≢◌, ◌↔◌};
ghost use Rattle.loom_top.specs.Run.{exit_number};

use crate::case::Wanted;
use loom_top::Status;
use std::fmt;

/// How a run went.
#[derive(Clone, Copy, Debug, PartialEq, Eq)]
pub enum Verdict {
    AsWanted,
    OtherStatus { status: u8, wanted: u8 },
    OtherLine,
}

impl Verdict {
    /// Compares a status and what was written with what is wanted; the status comes first.
    pub fn of(status: Status, held: &[u8], wanted: &Wanted) -> Verdict
        ensures as_wanted { (result ≡ Verdict.AsWanted)
            ↔ (exit_number status ≡ wanted.now.status) × (held.now ≡ wanted.now.line.items) }
        ensures other_status { (result ≡ Verdict.OtherStatus (exit_number status) wanted.now.status)
            ↔ (exit_number status ≢ wanted.now.status) }
        ensures other_line { (result ≡ Verdict.OtherLine)
            ↔ (exit_number status ≡ wanted.now.status) × (held.now ≢ wanted.now.line.items) }
    {
        let status = status.number();
        if status != wanted.status {
            Verdict::OtherStatus {
                status,
                wanted: wanted.status,
            }
        } else if held != wanted.line.as_slice() {
            Verdict::OtherLine
        } else {
            Verdict::AsWanted
        }
    }
}

impl fmt::Display for Verdict {
    fn fmt<W: fmt::Write>(&self, f: &mut fmt::Formatter<W>) -> fmt::Result {
        match *self {
            Verdict::AsWanted => write!(f, "as wanted"),
            Verdict::OtherStatus { status, wanted } => {
                write!(f, "status {status}, wanted {wanted}")
            }
            Verdict::OtherLine => write!(f, "another line"),
        }
    }
}
