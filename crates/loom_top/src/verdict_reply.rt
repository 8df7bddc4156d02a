//! The reply to a document whose plan is to be judged.
ghost use Rattle.std.specs.Prelude.{◌≡◌, ◌≢◌, List as Items, is_some, IfOk, IsTrue, OnOk};
ghost use Rattle.loom_json.specs.Text.{line_of};
ghost use Rattle.loom_answer.specs.Stops.{IsNameable, named_of};
ghost use Rattle.loom_rules.specs.Judged.{Asked};
ghost use Rattle.loom_check.specs.Verdict.{StopsCheck};
ghost use Rattle.loom_top.specs.RepliesInside.{IsReplyTo, RepliesToPlan};
ghost use Rattle.loom_top.specs.Verdicts.{as_plan_stop, kind_of_verdict, verdict_shown};
ghost use Rattle.loom_top.specs.declared.job.DocumentJob.TheVariants as jobs;

use crate::entries::make_all;
use crate::refusal::Refusal;
use crate::reply::{Reply, ReplyKind};
use crate::stop_names::is_want_of_memory;
use crate::verdict::verdict_value;
use loom_accord::{passing_is_yes, plans_pass};
use loom_active::ActiveStop;
use loom_answer::{NamedStop, named};
use loom_base::NoMemory;
use loom_check::{Verdict, check};
use loom_json::line;
use loom_project::Project;
use loom_reader::Document;
use loom_session::Session;
use loom_types::{Plan, PlanStop};
use std::alloc::Global;

/// A stop of judging, as one of planning.
fn plan_stop(stop: ActiveStop) -> PlanStop
    ensures { result ≡ as_plan_stop stop }
{
    match stop {
        ActiveStop::NoChoice => PlanStop::NoChoice,
        ActiveStop::Clash {
            cavity,
            first,
            second,
            choice,
        } => PlanStop::Clash {
            cavity,
            first,
            second,
            choice,
        },
        ActiveStop::Limit { which, count } => PlanStop::Limit { which, count },
        ActiveStop::NoMemory => PlanStop::NoMemory,
    }
}

/// A stop of judging a plan of a project, by the project's names. Want of memory has none.
fn named_check_stop(
    alloc: Global,
    project: &Project,
    plan: &Plan,
    stop: ActiveStop,
) -> Result<NamedStop, NoMemory>
    requires { StopsCheck project.now plan.now stop }
    ensures named { IfOk result (λ named. named ≡ named_of project.now (as_plan_stop stop)) }
    ensures nameable { OnOk result (IsNameable project.now (as_plan_stop stop)) }
    ensures other { OnOk result (stop ≢ ActiveStop.NoMemory) }
{
    let stop = plan_stop(stop);
    if is_want_of_memory(&stop) {
        return Err(NoMemory);
    }
    project.has_sound_topologies();
    // The draft is read, so that its soundness is known.
    let _draft = project.draft();
    named(alloc, &stop, project)
}

/// The reply that tells a verdict.
fn told(alloc: Global, verdict: Verdict) -> Result<Reply, NoMemory>
    ensures kind { IfOk result (λ reply. reply.kind ≡ kind_of_verdict verdict) }
    ensures line { IfOk result (λ reply. reply.line ≡ line_of (verdict_shown verdict)) }
{
    let kind = match verdict {
        Verdict::Yes => ReplyKind::Done,
        Verdict::No { .. } => ReplyKind::CheckedNo,
    };
    let value = verdict_value(alloc, verdict)?;
    Ok(Reply {
        kind,
        line: line(alloc, &value)?,
    })
}

/// The reply to a document whose project after its entries is this one, and whose plan is this one.
fn judged(alloc: Global, project: &Project, plan: &Plan) -> Result<Reply, NoMemory>
    ensures { IfOk result (RepliesToPlan project.now plan.now) }
{
    plans_pass();
    passing_is_yes();
    project.has_sound_topologies();
    // The draft is read, so that its soundness is known.
    let _draft = project.draft();
    match check(alloc, project, plan) {
        Ok(verdict) => told(alloc, verdict),
        Err(stop) => {
            let stop = named_check_stop(alloc, project, plan, stop)?;
            Reply::refused(alloc, &Refusal::Plan(stop))
        }
    }
}

/// The reply to a document with a plan: whether the plan passes all nine rules for the document's
/// project after its entries, or which rule fails first, and where; or how the judging stops.
pub fn verdict_reply(alloc: Global, document: Document) -> Result<Reply, NoMemory>
    requires plan { IsTrue (is_some document.plan) }
    ensures { IfOk result (λ reply. (rules : Items Asked)
        → IsReplyTo rules jobs.Check document reply) }
{
    let Document {
        project,
        entries,
        plan,
        ..
    } = document;
    let plan = plan.unwrap();
    let mut session = Session::new(alloc, project);
    make_all(&mut session, entries.as_slice())?;
    judged(alloc, session.project(), &plan)
}
