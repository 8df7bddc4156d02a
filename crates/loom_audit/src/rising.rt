ghost use Rattle.std.specs.Prelude.{IfSome, IfNone};
ghost use Rattle.loom_audit.specs.FirstFailure.{IsFirstWithout};
ghost use Rattle.loom_audit.specs.LayoutRule.{IsAfterLast, DoWiresRise};

use loom_types::Plan;

/// The first wire of a plan that doesn't come after the one before it.
pub(crate) fn first_out_of_order(plan: &Plan) -> Option<usize>
    ensures holds { IfNone result (DoWiresRise plan.now) }
    ensures fails { IfSome result (IsFirstWithout (IsAfterLast plan.now) plan.now.wires) }
{
    let wires = plan.wires.as_slice();
    for at in 1..wires.len() {
        if !wires[at - 1].order(&wires[at]).is_lt() {
            return Some(at);
        }
    }
    None
}
