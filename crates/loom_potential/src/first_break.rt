ghost use Rattle.std.specs.Prelude.{◌≡◌};
ghost use Rattle.loom_potential.specs.FirstBreak.{at_most};

use loom_base::{NodeNo, SegmentNo};

/// Which inequality of a cell is meant.
#[derive(Clone, Copy, Debug, PartialEq, Eq)]
pub enum Part {
    /// One cavity at its own node costs nothing.
    Leaf,
    /// A way over an open segment costs its price.
    Over(SegmentNo),
    /// The mask of a part that holds the first cavity; the part and the rest join for the branch
    /// cost of the node.
    Split(u32),
}

/// An inequality that a table breaks: the cell of a mask at a node is above the inequality's right
/// side. A cell without a number is above every number.
#[derive(Clone, Copy, Debug, PartialEq, Eq)]
pub struct FirstBreak {
    pub mask: u32,
    pub node: NodeNo,
    pub part: Part,
    /// The cell.
    pub left: Option<u64>,
    /// What the cell may be at most.
    pub right: u64,
}

/// Passes exactly where the left side is at most the right one.
pub fn at_most(
    mask: u32,
    node: NodeNo,
    part: Part,
    left: Option<u64>,
    right: Option<u64>,
) -> Result<(), FirstBreak>
    ensures { result ≡ at_most mask node.0 part left right }
{
    match (left, right) {
        (_, None) => Ok(()),
        (Some(cost), Some(bound)) if cost <= bound => Ok(()),
        (cell, Some(bound)) => Err(FirstBreak {
            mask,
            node,
            part,
            left: cell,
            right: bound,
        }),
    }
}
