use loom_base::{Name, NoMemory};
use loom_project::{Of, ProjectFault};

/// Why an edit is refused. The causes are tried in this order, and the first that there is is
/// answered.
#[derive(Clone, Copy, Debug, PartialEq, Eq)]
pub enum EditFault {
    /// The thing to be changed or removed isn't there.
    UnknownName { of: Of, name: Name },
    /// The rule to be removed lies past the last one.
    UnknownRule { number: u64 },
    /// A length is set on a coupler, or a price, pins or reserved pins on a run.
    WrongKind { segment: Name },
    /// The thing to be removed is named by another.
    InUse { of: Of, name: Name },
    /// The changed project isn't sound; this is never want of memory.
    Project(ProjectFault),
    /// Memory ran out.
    NoMemory,
}

impl From<NoMemory> for EditFault {
    ghost use Rattle.std.specs.Prelude.{◌≡◌};
    ghost use Rattle.loom_edits.specs.declared.fault.EditFault.TheVariants.{NoMemory as OutOfMemory};

    ghost from_gives = { λ _ fault. fault ≡ OutOfMemory };

    fn from(_error: NoMemory) -> EditFault {
        EditFault::NoMemory
    }
}
