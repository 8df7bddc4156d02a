ghost use Rattle.std.specs.Prelude.{◌≡◌};
ghost use Rattle.loom_top.specs.Run.{exit_number, status_of};

use crate::reply::ReplyKind;

/// How a run ended.
#[derive(Clone, Copy, Debug, PartialEq, Eq)]
pub enum Status {
    /// The job is done, and the whole answer was written.
    Done,
    /// What was asked for can't be had, and the line that says why was written.
    Refused,
    /// The words aren't understood. Nothing was written.
    Usage,
    /// A read failed. Nothing was written.
    ReadFault,
    /// A write failed; a front of the line was written that isn't all of it.
    WriteFault,
    /// Memory ran out. Nothing was written.
    NoMemory,
    /// A plan was judged and isn't right, and the line that says so was written.
    CheckedNo,
}

impl Status {
    /// The exit status of the program.
    pub fn number(self) -> u8
        ensures { result ≡ exit_number self }
    {
        match self {
            Status::Done => 0,
            Status::Refused => 1,
            Status::Usage => 2,
            Status::ReadFault => 3,
            Status::WriteFault => 4,
            Status::NoMemory => 5,
            Status::CheckedNo => 6,
        }
    }

    /// The status where a reply of a kind was written whole.
    pub(crate) fn of(kind: ReplyKind) -> Status
        ensures { result ≡ status_of kind }
    {
        match kind {
            ReplyKind::Done => Status::Done,
            ReplyKind::CheckedNo => Status::CheckedNo,
            ReplyKind::Refused => Status::Refused,
        }
    }
}
