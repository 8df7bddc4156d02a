//! The reply to a document whose project is to be planned.
ghost use Rattle.std.specs.Prelude.{◌≡◌, ◌≤◌, List as Items, [], map, IfOk, length};
ghost use Rattle.std.specs.List.{All};
ghost use Rattle.loom_rules.specs.Judged.{Asked};
ghost use Rattle.loom_plan.specs.FirstStop.{FirstStop};
ghost use Rattle.loom_top.specs.Entries.{fresh};
ghost use Rattle.loom_top.specs.RepliesInside.{IsReplyTo, IsLineOf, IsStopReply, RepliesToParts};
ghost use Rattle.loom_top.specs.declared.job.DocumentJob.TheVariants as jobs;

use crate::entries::outcomes_of;
use crate::refusal::Refusal;
use crate::reply::{Reply, ReplyKind};
use crate::stop_names::named_stop;
use loom_answer::{Outcome, answer};
use loom_base::{List, NoMemory};
use loom_json::line;
use loom_project::Project;
use loom_reader::{Document, Entry};
use loom_rules::{DesignRule, judge};
use loom_session::Session;
use loom_types::{Plan, PlanStop};
use std::alloc::Global;

/// The line of what became of entries, a plan, its project and what the rules report of its wires.
fn plan_line(
    alloc: Global,
    version: u8,
    outcomes: &[Outcome],
    project: &Project,
    plan: &Plan,
    limits: &[u64],
    rules: &mut Vec<Box<dyn DesignRule>>,
) -> Result<List<u8>, NoMemory>
    requires few { length plan.now.wires ≤ 65536 }
    requires unseen { All (λ rule. seen_by rule ≡ []) rules.old.items }
    ensures { IfOk result (IsLineOf
        (map (λ rule. record { kind = kind_of rule; limit = limit_of rule }) rules.old.items)
        version outcomes.now project.now plan.now limits.now) }
{
    let reports = judge(alloc, rules, limits, plan.wires.as_slice())?;
    let reports = reports.as_slice();
    let value = answer(alloc, version, outcomes, plan, project, reports)?;
    line(alloc, &value)
}

/// The reply where the planning of a project stops.
pub fn stopped(alloc: Global, project: &Project, stop: &PlanStop) -> Result<Reply, NoMemory>
    requires { FirstStop project.now stop.now }
    ensures { IfOk result (IsStopReply project.now) }
{
    let stop = named_stop(alloc, project, stop)?;
    Reply::refused(alloc, &Refusal::Plan(stop))
}

/// The reply to a document of these parts, whose project is the session's: its entries are made,
/// then the project is planned.
fn edited_reply(
    alloc: Global,
    version: u8,
    session: &mut Session,
    entries: &[Entry],
    limits: &[u64],
    rules: &mut Vec<Box<dyn DesignRule>>,
) -> Result<Reply, NoMemory>
    requires fresh { session.old.changes ≡ fresh session.old.changes.draft }
    requires unseen { All (λ rule. seen_by rule ≡ []) rules.old.items }
    ensures { IfOk result (RepliesToParts
        (map (λ rule. record { kind = kind_of rule; limit = limit_of rule }) rules.old.items)
        version session.old.changes.draft entries.now limits.now) }
{
    let outcomes = outcomes_of(alloc, session, entries)?;
    match session.plan() {
        Ok(plan) => {
            let (outcomes, project) = (outcomes.as_slice(), session.project());
            Ok(Reply {
                kind: ReplyKind::Done,
                line: plan_line(alloc, version, outcomes, project, &plan, limits, rules)?,
            })
        }
        Err(stop) => stopped(alloc, session.project(), &stop),
    }
}

/// The reply to a document: what becomes of its entries, the plan of its project after them with
/// the reports of the rules, or the first stop of planning it.
pub fn plan_reply(
    alloc: Global,
    document: Document,
    rules: &mut Vec<Box<dyn DesignRule>>,
) -> Result<Reply, NoMemory>
    requires unseen { All (λ rule. seen_by rule ≡ []) rules.old.items }
    ensures { IfOk result (IsReplyTo
        (map (λ rule. record { kind = kind_of rule; limit = limit_of rule }) rules.old.items)
        jobs.Plan document) }
{
    let Document {
        version,
        project,
        entries,
        limits,
        ..
    } = document;
    let mut session = Session::new(alloc, project);
    edited_reply(
        alloc,
        version,
        &mut session,
        entries.as_slice(),
        limits.as_slice(),
        rules,
    )
}
