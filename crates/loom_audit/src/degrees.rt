ghost use Rattle.std.specs.Prelude.{◌≡◌, ◌+◌, ◌<◌, IfOk, All, length, map};
ghost use Rattle.loom_types.specs.LayoutTree.{tree_of};
ghost use Rattle.loom_audit.specs.Degrees.{AreCounted, AreDegrees};

use loom_base::NoMemory;
use loom_types::Layout;
use std::alloc::Global;

/// The counts, once the points of a list are counted too, each at its place. A count past 32 bits is
/// want of memory, since no layout in memory has so many steps.
fn counted(mut counts: Vec<u32>, points: &[u32]) -> Result<Vec<u32>, NoMemory>
    requires { All (λ point. point < length counts.items) points.now }
    ensures { IfOk result (λ after. AreCounted counts.items points.now after.items) }
{
    for point in points {
        let at = *point as usize;
        let Some(count) = counts[at].checked_add(1) else {
            return Err(NoMemory);
        };
        counts[at] = count;
    }
    Ok(counts)
}

/// The parents of a layout's steps.
fn parents(alloc: Global, layout: &Layout) -> Result<Vec<u32>, NoMemory>
    ensures { IfOk result (λ parents.
        parents.items ≡ map (λ step. step.parent) (tree_of layout.now).steps) }
{
    let mut parents = Vec::new(alloc);
    for step in layout.steps.as_slice() {
        parents.push(step.0)?;
    }
    Ok(parents)
}

/// The degree of each point of a layout: the steps that begin there, the cavities hung on it, and
/// one.
pub(crate) fn degrees(
    alloc: Global,
    layout: &Layout,
    point_count: usize,
) -> Result<Vec<u32>, NoMemory>
    requires points { point_count ≡ length layout.now.steps + 1 }
    requires parents { All (λ step. step.parent < point_count) (tree_of layout.now).steps }
    requires hangs { All (λ point. point < point_count) layout.now.hangs }
    ensures { IfOk result (λ degrees. AreDegrees (tree_of layout.now) degrees.items) }
{
    let ones = vec![in alloc; 1u32; point_count]?;
    let parents = parents(alloc, layout)?;
    let steps = counted(ones, &parents)?;
    counted(steps, layout.hangs.as_slice())
}
