//! What a layout costs.
ghost use Rattle.std.specs.Prelude.{ℕ, ◌≡◌, ◌+◌, ◌<◌, ◌*◌, ◌-◌, All, length, map, IfOk, sum_by};
ghost use Rattle.std.specs.Int.{sum_through};
ghost use Rattle.loom_topology.specs.Topology.{branch_at, price_at};
ghost use Rattle.loom_topology.specs.WiringTree.{places_of};
ghost use Rattle.loom_topology.specs.TreeCost.{cost_of};
ghost use Rattle.loom_types.specs.LayoutTree.{tree_of};
ghost use Rattle.loom_audit.specs.Degrees.{AreDegrees};
ghost use Rattle.loom_audit.specs.LayoutTests.{splice_cost_at};

use loom_base::{NoMemory, NodeNo};
use loom_topology::Topology;
use loom_types::Layout;

/// The sum of two costs. More than 64 bits are want of memory: prices and branch costs are at most
/// 1,000,000, and no layout in memory has so many steps.
fn plus(one: u64, other: u64) -> Result<u64, NoMemory>
    ensures { IfOk result (λ sum. sum ≡ one + other) }
{
    one.checked_add(other).ok_or(NoMemory)
}

/// The prices of a layout's steps together.
fn prices(topology: &Topology, layout: &Layout) -> Result<u64, NoMemory>
    requires { All (λ step. step.1.0 < length topology.now.segments) layout.now.steps }
    ensures { IfOk result (λ cost. cost
        ≡ sum_by (λ s. price_at topology.now s.segment) (tree_of layout.now).steps) }
{
    let mut cost = 0;
    for step in layout.steps.as_slice() {
        cost = plus(cost, topology.price(step.1))?;
    }
    Ok(cost)
}

/// What the splice at a node costs at which so many things meet.
fn splice_cost(topology: &Topology, node: NodeNo, degree: u32) -> u64
    requires { node.0 < length topology.now.nodes }
    ensures { result ≡ branch_at topology.now node.0 * (degree - 2) }
{
    topology.branch(node) * u64::from(degree.saturating_sub(2))
}

/// What the splices at a layout's points cost together.
fn splice_costs(topology: &Topology, places: &[NodeNo], degrees: &[u32]) -> Result<u64, NoMemory>
    requires some { 0 < length places.now }
    requires nodes { All (λ v. v.0 < length topology.now.nodes) places.now }
    requires as_many { length degrees.now ≡ length places.now }
    ensures { IfOk result (λ cost. cost ≡ sum_through
        (splice_cost_at topology.now (map (λ v. v.0) places.now) degrees.now)
        (length places.now - 1)) }
{
    let mut cost = splice_cost(topology, places[0], degrees[0]);
    for point in 1..places.len() {
        cost = plus(cost, splice_cost(topology, places[point], degrees[point]))?;
    }
    Ok(cost)
}

/// What a layout costs whose points lie at these nodes and have these degrees.
pub(crate) fn cost(
    topology: &Topology,
    layout: &Layout,
    places: &[NodeNo],
    degrees: &[u32],
) -> Result<u64, NoMemory>
    requires segments { All (λ step. step.1.0 < length topology.now.segments) layout.now.steps }
    requires nodes { All (λ v. v.0 < length topology.now.nodes) places.now }
    requires points { length places.now ≡ length layout.now.steps + 1 }
    requires degrees { AreDegrees (tree_of layout.now) degrees.now }
    ensures { (v : ℕ) → map (λ u. u.0) places.now
        ≡ places_of topology.now v (tree_of layout.now).steps
        → IfOk result (λ cost. cost ≡ cost_of topology.now v (tree_of layout.now)) }
{
    plus(
        prices(topology, layout)?,
        splice_costs(topology, places, degrees)?,
    )
}
