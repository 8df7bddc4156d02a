ghost use Rattle.std.specs.Prelude.{◌≡◌, ◌<◌, length};
ghost use Rattle.loom_project.specs.Numbers.{segments_with_price, nodes_with_branch};

use crate::{NodeDraft, SegmentDraft};
use loom_base::{Branch, List, NodeNo, Price, SegmentNo};
use std::alloc::Global;
use std::mem;

/// Another number of a project, which leaves it sound.
#[derive(Clone, Copy, Debug, PartialEq, Eq)]
pub enum NumberChange {
    /// A segment's price: a run's length, a coupler's price.
    Price { segment: SegmentNo, price: Price },
    /// A node's branch cost.
    Branch { node: NodeNo, branch: Branch },
}

/// Gives the segment at a place another price. It takes no memory.
pub fn set_price(alloc: Global, segments: &mut List<SegmentDraft>, at: usize, price: Price)
    requires { at < length segments.old }
    ensures { segments.new ≡ segments_with_price segments.old at price }
{
    let mut items = mem::replace(segments, List::new(alloc)).into_vec();
    let kind = items[at].kind;
    items[at].kind = kind.priced(price);
    *segments = List::from_vec(items);
}

/// Gives the node at a place another branch cost. It takes no memory.
pub fn set_branch(nodes: &mut List<NodeDraft>, at: usize, branch: Branch)
    requires { at < length nodes.old }
    ensures { nodes.new ≡ nodes_with_branch nodes.old at branch }
{
    let node = nodes.as_slice()[at];
    nodes.set(at, NodeDraft { branch, ..node });
}
