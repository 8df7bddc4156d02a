//! The first stop of planning a project, by the project's names.
ghost use Rattle.std.specs.Prelude.{◌≡◌, ◌↔◌, IfOk, IsTrue, OnOk};
ghost use Rattle.loom_answer.specs.Stops.{IsNameable, named_of};
ghost use Rattle.loom_plan.specs.FirstStop.{FirstStop};

use loom_answer::{NamedStop, named};
use loom_base::NoMemory;
use loom_project::Project;
use loom_types::PlanStop;
use std::alloc::Global;

/// Whether memory ran out.
pub fn is_want_of_memory(stop: &PlanStop) -> bool
    ensures { IsTrue result ↔ (stop.now ≡ PlanStop.NoMemory) }
{
    matches!(stop, PlanStop::NoMemory)
}

/// The first stop of a project, by its names. Want of memory has none.
pub fn named_stop(alloc: Global, project: &Project, stop: &PlanStop) -> Result<NamedStop, NoMemory>
    requires { FirstStop project.now stop.now }
    ensures named { IfOk result (λ named. named ≡ named_of project.now stop.now) }
    ensures nameable { OnOk result (IsNameable project.now stop.now) }
{
    if is_want_of_memory(stop) {
        return Err(NoMemory);
    }
    project.has_sound_topologies();
    // The draft is read, so that its soundness is known.
    let _draft = project.draft();
    named(alloc, stop, project)
}
