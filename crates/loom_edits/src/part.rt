ghost use Rattle.std.specs.Prelude.{◌≡◌};
ghost use Rattle.loom_edits.specs.Parts.{part_of};

use crate::Edit;

/// A part of a project that edits change.
#[derive(Clone, Copy, Debug, PartialEq, Eq)]
pub enum Part {
    /// The options and the rules.
    Options,
    /// The nodes and the cavities.
    Places,
    /// The segments, of which one is added.
    NewSegments,
    /// A segment that is there.
    Segments,
    /// The nets.
    Nets,
    /// The terminals of a net.
    Terminals,
}

impl Edit {
    /// The part that the edit changes.
    pub(crate) fn part(&self) -> Part
        ensures { result ≡ part_of self.now }
    {
        match self {
            Edit::AddOption { .. }
            | Edit::RemoveOption { .. }
            | Edit::AddRule { .. }
            | Edit::RemoveRule { .. } => Part::Options,
            Edit::AddNode { .. }
            | Edit::RemoveNode { .. }
            | Edit::SetBranch { .. }
            | Edit::AddCavity { .. }
            | Edit::RemoveCavity { .. } => Part::Places,
            Edit::AddRun { .. } | Edit::AddCoupler { .. } => Part::NewSegments,
            Edit::RemoveSegment { .. }
            | Edit::SetLength { .. }
            | Edit::SetPrice { .. }
            | Edit::SetPins { .. }
            | Edit::SetBars { .. }
            | Edit::SetReserved { .. } => Part::Segments,
            Edit::AddNet { .. } | Edit::RemoveNet { .. } | Edit::SetClass { .. } => Part::Nets,
            Edit::AddTerminal { .. } | Edit::RemoveTerminal { .. } | Edit::SetWhen { .. } => {
                Part::Terminals
            }
        }
    }
}
