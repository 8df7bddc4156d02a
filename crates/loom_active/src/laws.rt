//! Laws on plans, whoever made them. Each function does nothing: its contract is the law, and a
//! caller whose proof needs the law calls it.

ghost use Rattle.loom_active.specs.JoinsLaw.{PlansFormTrees, PlansGiveNetsTheirWires, PlansJoinNeeds, PlansLeaveIdleNetsBare};

/// Where a plan prints exactly the live sets, and its live wires are those of the live sets: where
/// a set is live, the live wires of its net are the set's; and a net that needs fewer than two
/// cavities has none.
pub fn plans_give_nets_their_wires()
    ensures sets { PlansGiveNetsTheirWires }
    ensures idle { PlansLeaveIdleNetsBare }
{}

/// Where besides the wires of each set form one tree whose leaves are the set's cavities: under
/// every valid choice the live wires of each net that needs at least two cavities form one tree
/// whose leaves are these.
#[tactic(auto, using(crate::proofs::PlanJoins::plans_form_trees))]
pub fn plans_form_trees()
    ensures { PlansFormTrees }
{}

/// Where besides no valid choice makes a cavity active in two nets, and wires whose conditions hold
/// together and that end at one pin are of one net: under every valid choice the live wires of all
/// nets at once join two different cavities exactly when some net needs both.
#[tactic(auto, using(crate::proofs::PlanJoins::plans_join_needs))]
pub fn plans_join_needs()
    ensures { PlansJoinNeeds }
{}
