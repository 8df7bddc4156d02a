//! What a plan that passes all rules is. The function does nothing: its contract is the law.

ghost use Rattle.loom_check.specs.Laws.{PassingIsRight};

use loom_active::laws::{plans_give_nets_their_wires, plans_join_needs};
use loom_potential::unbroken_is_legal;
use loom_topology::legal_is_below_every_tree;
use loom_types::layout_wires_end_at_pins;

/// A plan of a sound draft that passes all nine rules is right: it joins what nets need, costs
/// least, keeps pins apart and respects bars.
pub fn passing_is_right()
    ensures { PassingIsRight }
{
    unbroken_is_legal();
    legal_is_below_every_tree();
    layout_wires_end_at_pins();
    plans_join_needs();
    plans_give_nets_their_wires();
}
