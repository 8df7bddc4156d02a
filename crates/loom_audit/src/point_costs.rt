//! What the points cost at which wires end.
ghost use Rattle.std.specs.Prelude.{◌≡◌, ◌+◌, ◌<◌, IfOk, OnOk, ◌∷◌, List as Items};
ghost use Rattle.loom_types.specs.Routes.{IsEndInRange};
ghost use Rattle.loom_types.specs.WireCost.{Point, point_of};
ghost use Rattle.loom_audit.specs.PointCounts.{key_of_point, cost_with, ends_at, ArePointCounts};

use crate::end_counts::EndKey;
use loom_base::NoMemory;
use loom_topology::Topology;
use loom_types::End;
use std::collections::HashMap;

/// The point at which an end lies as tables find it: the two sides of a pin are one point.
fn point_key(end: End) -> EndKey
    ensures { result ≡ key_of_point (point_of end) }
{
    match end {
        End::Cavity(cavity) => (0, cavity.0, 0, 0),
        End::Splice { node, ordinal } => (1, node.0, ordinal, 0),
        End::Pin { coupler, pin, .. } => (2, coupler.0, u32::from(pin), 0),
    }
}

/// How many ends are counted at the point of an end.
fn count_at(counts: &HashMap<EndKey, usize>, end: End) -> usize
    ensures { result ≡ ends_at counts.now (point_of end) }
{
    counts.get(&point_key(end)).copied().unwrap_or(0)
}

/// What one more end adds to the cost of its point, at which so many lie already.
fn added_cost(topology: &Topology, end: End, before: usize) -> u64
    requires room { before < usize.MAX }
    requires in_range { IsEndInRange topology.now end }
    ensures { result + cost_with topology.now before (point_of end)
        ≡ cost_with topology.now (before + 1) (point_of end) }
{
    match end {
        End::Splice { node, .. } if before >= 2 => topology.branch(node),
        End::Pin { coupler, .. } if before == 0 => topology.price(coupler),
        _ => 0,
    }
}

/// Counts an end once more at its point. The result is what it adds to the cost of the points. A
/// count that doesn't fit is want of memory.
pub(crate) fn add_end(
    topology: &Topology,
    counts: &mut HashMap<EndKey, usize>,
    end: End,
) -> Result<u64, NoMemory>
    requires in_range { IsEndInRange topology.now end }
    ensures added { IfOk result (λ added. added
        + cost_with topology.now (ends_at counts.old (point_of end)) (point_of end)
        ≡ cost_with topology.now (ends_at counts.old (point_of end) + 1) (point_of end)) }
    ensures more { OnOk result ((points : Items Point) → ArePointCounts points counts.old
        → ArePointCounts (point_of end ∷ points) counts.new) }
{
    let before = count_at(counts, end);
    let Some(after) = before.checked_add(1) else {
        return Err(NoMemory);
    };
    counts.insert(point_key(end), after)?;
    Ok(added_cost(topology, end, before))
}
