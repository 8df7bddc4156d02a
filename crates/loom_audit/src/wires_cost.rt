//! What the wires of a set cost.
ghost use Rattle.std.specs.Prelude.{◌≡◌, ◌-◌, ◌^◌, min, IfOk};
ghost use Rattle.std.specs.List.{All};
ghost use Rattle.loom_types.specs.Routes.{IsEndInRange};
ghost use Rattle.loom_types.specs.WireCost.{wires_cost};
ghost use Rattle.loom_audit.specs.SetWires.{wires_at};

use crate::point_costs::add_end;
use loom_base::NoMemory;
use loom_topology::Topology;
use loom_types::Plan;
use std::alloc::Global;
use std::collections::HashMap;

/// What the wires at some positions cost: their lengths, each pin's coupler once, and at splices
/// the branch cost for each end past the second. A sum past 128 bits is the greatest number.
pub(crate) fn wires_cost(
    alloc: Global,
    topology: &Topology,
    plan: &Plan,
    positions: &[u32],
) -> Result<u128, NoMemory>
    requires { All (λ w. IsEndInRange topology.now w.from × IsEndInRange topology.now w.to)
        plan.now.wires }
    ensures { IfOk result (λ cost. cost
        ≡ min (wires_cost topology.now (wires_at plan.now positions.now)) (2 ^ 128 - 1)) }
{
    let mut counts = HashMap::new(alloc);
    let mut cost = 0u128;
    for k in (0..positions.len()).rev() {
        if let Some(wire) = plan.wires.get(positions[k] as usize) {
            let to = add_end(topology, &mut counts, wire.to)?;
            let from = add_end(topology, &mut counts, wire.from)?;
            cost = cost.saturating_add(u128::from(wire.length));
            cost = cost.saturating_add(u128::from(to));
            cost = cost.saturating_add(u128::from(from));
        }
    }
    Ok(cost)
}
