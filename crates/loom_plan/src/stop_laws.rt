//! Laws on first stops. Each function does nothing: its contract is the law, and a caller whose
//! proof needs the law calls it.

ghost use Rattle.loom_plan.specs.StopsLaw.{FirstStopIsUnique, PlanExcludesStops};

use loom_layout::layout_is_unique;
use loom_pins::laws::outcome_is_unique;
use loom_topology::least_costs_are_unique;

/// A plan and a first stop exclude each other: where nothing stops the planning, no stop is the
/// first but want of memory.
pub fn plan_excludes_stops()
    ensures { PlanExcludesStops }
{
    least_costs_are_unique();
    layout_is_unique();
    outcome_is_unique();
}

/// A project has one first stop at most, but for want of memory, which may come at any time.
pub fn first_stop_is_unique()
    ensures { FirstStopIsUnique }
{
    least_costs_are_unique();
    layout_is_unique();
    outcome_is_unique();
}
