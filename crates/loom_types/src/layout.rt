ghost use Rattle.std.specs.Prelude.{◌≡◌, IfOk};

use loom_base::{List, NoMemory, SegmentNo};
use std::alloc::Global;

/// How a live set's wiring tree lies over the topology.
#[derive(Debug, Drop)]
pub struct Layout {
    /// The steps in order: the parent's point and the segment. Step k, counted from 0, adds point k
    /// + 1; point 0 lies at the first cavity's node.
    pub steps: List<(u32, SegmentNo)>,
    /// The point on which each cavity past the first hangs, in the order of the net's terminals.
    pub hangs: List<u32>,
}

impl Layout {
    /// An equal layout.
    pub fn copy(&self, alloc: Global) -> Result<Layout, NoMemory>
        ensures { IfOk result (λ copy. copy ≡ self.now) }
    {
        Ok(Layout {
            steps: self.steps.copy(alloc)?,
            hangs: self.hangs.copy(alloc)?,
        })
    }
}
