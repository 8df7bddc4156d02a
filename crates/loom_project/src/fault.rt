use loom_base::{Name, NoMemory, Which};

/// The kind of thing that a name stands for, as a fault tells it.
#[derive(Clone, Copy, Debug, PartialEq, Eq)]
pub enum Of {
    OptionName,
    Node,
    Segment,
    Cavity,
    Net,
    Terminal,
}

/// Why a draft isn't sound: its first failure in the order of options, rules, nodes, segments,
/// cavities and nets.
#[derive(Clone, Copy, Debug, PartialEq, Eq)]
pub enum ProjectFault {
    /// No such thing has that name.
    UnknownName { of: Of, name: Name },
    /// An earlier thing of that kind has the name.
    RepeatedName { of: Of, name: Name },
    /// An earlier terminal of the net names the cavity.
    TerminalRepeated { net: Name, cavity: Name },
    /// The net has fewer than two terminals.
    TooFewTerminals { net: Name, count: u64 },
    /// The segment begins and ends at one node.
    EndsEqual { segment: Name },
    /// The run leads from one harness to another.
    BorderCrossed { segment: Name },
    /// The coupler lies inside one harness.
    NoBorder { segment: Name },
    /// The segment reserves a pin that it doesn't have.
    ReservedPin { segment: Name, pin: u16 },
    /// There is more than the limit allows; the count is the limit plus one.
    Limit { which: Which, count: u64 },
    /// Memory ran out.
    NoMemory,
}

impl From<NoMemory> for ProjectFault {
    ghost use Rattle.std.specs.Prelude.{◌≡◌};
    ghost use Rattle.loom_project.specs.declared.fault.ProjectFault.TheVariants.{NoMemory as OutOfMemory};

    ghost from_gives = { λ _ fault. fault ≡ OutOfMemory };

    fn from(_error: NoMemory) -> ProjectFault {
        ProjectFault::NoMemory
    }
}
