//! What the planner makes, the checker takes: laws over both. Each function does nothing: its
//! contract is the law.
#![tactic(auto)]

ghost use Rattle.loom_accord.specs.Laws.{PlansPass, PassingNeverFails, PassingNeverStops};

use loom_active::laws::{plans_give_nets_their_wires, plans_join_needs};
use loom_layout::{layout_is_unique, layouts_are_least_trees};
use loom_pins::laws::outcome_is_unique;
use loom_potential::unbroken_is_legal;
use loom_topology::{least_costs_are_legal, least_costs_are_unique};
use loom_types::{
    layout_wires_are_routed, layout_wires_cost, layout_wires_end_at_pins, layout_wires_form_tree,
};

/// The plan of a sound draft passes all nine rules of the checker.
pub fn plans_pass()
    ensures { PlansPass }
{
    least_costs_are_legal();
    least_costs_are_unique();
    layouts_are_least_trees();
    layout_is_unique();
    layout_wires_form_tree();
    layout_wires_cost();
    layout_wires_are_routed();
    layout_wires_end_at_pins();
    plans_join_needs();
    plans_give_nets_their_wires();
    outcome_is_unique();
    unbroken_is_legal();
}

/// A plan that passes all rules fails none, and nothing but want of memory stops the judging of it.
pub fn passing_is_yes()
    ensures fails { PassingNeverFails }
    ensures stops { PassingNeverStops }
{}
