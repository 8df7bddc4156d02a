//! Laws on plans. Each function does nothing: its contract is the law, and a caller whose proof
//! needs the law calls it.

ghost use Rattle.loom_plan.specs.Laws.{PlansAreRight};

use loom_active::laws::{plans_give_nets_their_wires, plans_join_needs};
use loom_layout::layouts_are_least_trees;
use loom_topology::least_costs_are_legal;
use loom_types::{
    layout_wires_are_routed, layout_wires_cost, layout_wires_end_at_pins, layout_wires_form_tree,
};

/// The plan of a sound draft is right: it joins what nets need, costs least, keeps pins apart and
/// respects bars. The draft's prices and branch costs are within their bounds, as every project's
/// are.
pub fn plans_are_right()
    ensures { PlansAreRight }
{
    least_costs_are_legal();
    layouts_are_least_trees();
    layout_wires_form_tree();
    layout_wires_cost();
    layout_wires_are_routed();
    layout_wires_end_at_pins();
    plans_join_needs();
    plans_give_nets_their_wires();
}
