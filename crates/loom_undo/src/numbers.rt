ghost use Rattle.std.specs.Prelude.{IfSome};
ghost use Rattle.loom_undo.specs.Numbers.{SetsBack};

use crate::Inverse;
use loom_base::{Branch, NodeNo, Price, SegmentNo};
use loom_project::{Draft, NumberChange};

/// The length that a run gets back.
fn length_set_back(draft: &Draft, at: u32, length: Price) -> Option<NumberChange>
    ensures { IfSome result (SetsBack draft.now (Inverse.SetLength at length)) }
{
    let segment = draft.segments.get(at as usize)?;
    if segment.kind.is_coupler() {
        return None;
    }
    Some(NumberChange::Price {
        segment: SegmentNo(at),
        price: length,
    })
}

/// The price that a coupler gets back.
fn price_set_back(draft: &Draft, at: u32, price: Price) -> Option<NumberChange>
    ensures { IfSome result (SetsBack draft.now (Inverse.SetPrice at price)) }
{
    let segment = draft.segments.get(at as usize)?;
    if !segment.kind.is_coupler() {
        return None;
    }
    Some(NumberChange::Price {
        segment: SegmentNo(at),
        price,
    })
}

/// The branch cost that a node gets back.
fn branch_set_back(draft: &Draft, at: u32, branch: Branch) -> Option<NumberChange>
    ensures { IfSome result (SetsBack draft.now (Inverse.SetBranch at branch)) }
{
    if at as usize >= draft.nodes.len() {
        return None;
    }
    Some(NumberChange::Branch {
        node: NodeNo(at),
        branch,
    })
}

/// The number that an inverse sets back and nothing else with it; None for other inverses.
pub fn number_set_back(draft: &Draft, inverse: &Inverse) -> Option<NumberChange>
    ensures { IfSome result (SetsBack draft.now inverse.now) }
{
    match inverse {
        Inverse::SetLength { at, length } => length_set_back(draft, *at, *length),
        Inverse::SetPrice { at, price } => price_set_back(draft, *at, *price),
        Inverse::SetBranch { at, branch } => branch_set_back(draft, *at, *branch),
        _ => None,
    }
}
