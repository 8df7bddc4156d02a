//! The reply to a trial.
ghost use Rattle.std.specs.Prelude.{◌≡◌, ◌≤◌, Ok, IfOk};
ghost use Rattle.loom_project.specs.Sound.{draft_check};
ghost use Rattle.loom_trial.specs.Trial.{trial_draft};
ghost use Rattle.loom_top.specs.Trials.{IsTrialReply};

use crate::plan_reply::stopped;
use crate::refusal::Refusal;
use crate::reply::{Reply, ReplyKind};
use crate::summary::summary_value;
use loom_base::NoMemory;
use loom_json::line;
use loom_plan::plan;
use loom_project::{Project, ProjectFault};
use loom_trial::trial_project;
use std::alloc::Global;

/// The reply to a trial whose draft is sound: the summary of its plan, or its first stop.
fn planned_reply(alloc: Global, trial: u32, project: &Project) -> Result<Reply, NoMemory>
    requires draft { project.now ≡ trial_draft trial }
    requires sound { draft_check (trial_draft trial) ≡ Ok tt }
    ensures { IfOk result (λ reply. IsTrialReply trial reply.kind reply.line) }
{
    match plan(alloc, project) {
        Ok(plan) => {
            let summary = summary_value(alloc, trial, project, &plan)?;
            Ok(Reply {
                kind: ReplyKind::Done,
                line: line(alloc, &summary)?,
            })
        }
        Err(stop) => stopped(alloc, project, &stop),
    }
}

/// The reply to a trial: the summary of its plan, or why it has none.
pub fn trial_reply(alloc: Global, trial: u32) -> Result<Reply, NoMemory>
    requires { (1 ≤ trial) × (trial ≤ 200) }
    ensures { IfOk result (λ reply. IsTrialReply trial reply.kind reply.line) }
{
    match Project::check(alloc, trial_project(alloc, trial)?) {
        Ok(project) => planned_reply(alloc, trial, &project),
        Err(ProjectFault::NoMemory) => Err(NoMemory),
        Err(fault) => Reply::refused(alloc, &Refusal::Project(fault)),
    }
}
