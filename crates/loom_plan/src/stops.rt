//! The stops of the steps, as stops of planning.
ghost use Rattle.std.specs.Prelude.{◌≡◌, Ok, IsErr, IfOk, IfErr, OnErr};
ghost use Rattle.loom_project.specs.declared.draft.Draft.{Draft as Plain};
ghost use Rattle.loom_active.specs.LiveStops.{IsLiveStop};
ghost use Rattle.loom_plan.specs.FirstStop.{FirstStop, StopsLaying};

use loom_active::ActiveStop;
use loom_base::{MAX_CELLS, MAX_ROWS, MAX_STEPS, MAX_WIRES, NoMemory, Which};
use loom_laid::LaidStop;
use loom_types::PlanStop;

/// What was made; want of memory is a stop of planning.
pub(crate) fn or_stop<T>(made: Result<T, NoMemory>) -> Result<T, PlanStop>
    ensures ok { IfOk result (λ x. made ≡ Ok x) }
    ensures stop { IfErr result (λ stop. stop ≡ PlanStop.NoMemory) }
    ensures err { OnErr result (IsErr made) }
{
    match made {
        Ok(x) => Ok(x),
        Err(NoMemory) => Err(PlanStop::NoMemory),
    }
}

/// A stop of the search for live sets.
pub(crate) fn stop_of_search(stop: ActiveStop) -> PlanStop
    ensures { (draft : Plain) → IsLiveStop draft stop → FirstStop draft result }
{
    match stop {
        ActiveStop::NoChoice => PlanStop::NoChoice,
        ActiveStop::Clash {
            cavity,
            first,
            second,
            choice,
        } => PlanStop::Clash {
            cavity,
            first,
            second,
            choice,
        },
        ActiveStop::Limit { which, count } => PlanStop::Limit { which, count },
        ActiveStop::NoMemory => PlanStop::NoMemory,
    }
}

/// A stop of the laying of live sets.
pub(crate) fn stop_of_laying(stop: LaidStop) -> PlanStop
    ensures { (draft : Plain) → StopsLaying draft stop → FirstStop draft result }
{
    match stop {
        LaidStop::TooManyCells => PlanStop::Limit {
            which: Which::Cells,
            count: MAX_CELLS + 1,
        },
        LaidStop::Unreachable {
            net,
            cavity,
            reached,
        } => PlanStop::Unreachable {
            net,
            cavity,
            reached,
        },
        LaidStop::TooManySteps => PlanStop::Limit {
            which: Which::Steps,
            count: MAX_STEPS + 1,
        },
        LaidStop::NoMemory => PlanStop::NoMemory,
    }
}

/// The limit of rows is passed.
pub(crate) const TOO_MANY_ROWS: PlanStop = PlanStop::Limit {
    which: Which::Rows,
    count: MAX_ROWS + 1,
};

/// The limit of wires is passed.
pub(crate) const TOO_MANY_WIRES: PlanStop = PlanStop::Limit {
    which: Which::Wires,
    count: MAX_WIRES + 1,
};
