use crate::NamedStop;
use loom_edits::EditFault;

/// What became of one element of a document's edits.
#[derive(Debug, Drop)]
pub enum Outcome {
    /// It was applied.
    Applied,
    /// The plan of the project at that moment: the sum of the costs of its sets, and the number of
    /// its wires.
    Priced { cost: u64, wires: u32 },
    /// It was refused, and changed nothing.
    Fault(EditFault),
    /// A price was asked for, but the project at that moment has no plan.
    Stop(NamedStop),
    /// There was no edit left to undo.
    NothingToUndo,
    /// There was no undone edit left to redo.
    NothingToRedo,
}
