//! The reply to a document out of whose plan the wires of its choice are to be taken.
ghost use Rattle.std.specs.Prelude.{◌≡◌, ℕ, List as Items, Ok, is_some, IfOk, IsTrue};
ghost use Rattle.loom_formula.specs.Choice.{choice_of};
ghost use Rattle.loom_rules.specs.Judged.{Asked};
ghost use Rattle.loom_top.specs.RepliesInside.{IsReplyTo, RepliesToChoice};
ghost use Rattle.loom_top.specs.declared.job.DocumentJob.TheVariants as jobs;

use crate::entries::make_all;
use crate::refusal::Refusal;
use crate::reply::{Reply, ReplyKind};
use crate::variant::variant_value;
use loom_base::{Name, NoMemory};
use loom_extract::{ExtractStop, extract};
use loom_formula::{Choice, ChoiceFault};
use loom_json::line;
use loom_project::Project;
use loom_reader::Document;
use loom_session::Session;
use loom_types::Plan;
use std::alloc::Global;

/// The reply where the choice's names are options of the project.
fn chosen(alloc: Global, project: &Project, plan: &Plan, choice: &Choice) -> Result<Reply, NoMemory>
    ensures { IfOk result (λ reply. (names : Items (Items ℕ))
        → choice_of project.now.options names ≡ Ok choice.now.values
        → RepliesToChoice project.now plan.now names reply) }
{
    match extract(alloc, plan, project.options(), project.rules(), choice) {
        Ok(variant) => {
            let value = variant_value(alloc, plan, variant.numbers.as_slice())?;
            Ok(Reply {
                kind: ReplyKind::Done,
                line: line(alloc, &value)?,
            })
        }
        Err(ExtractStop::BrokenRule { rule }) => {
            Reply::refused(alloc, &Refusal::BrokenRule { rule })
        }
        Err(ExtractStop::NoMemory) => Err(NoMemory),
    }
}

/// The reply to a document whose project after its entries is this: the wires of the plan that are
/// live where exactly the named options are true, or why the names make no such choice.
fn named_reply(
    alloc: Global,
    project: &Project,
    plan: &Plan,
    names: &[Name],
) -> Result<Reply, NoMemory>
    ensures { IfOk result (RepliesToChoice project.now plan.now names.now) }
{
    match Choice::of(alloc, project.options(), names) {
        Ok(choice) => chosen(alloc, project, plan, &choice),
        Err(ChoiceFault::NoMemory) => Err(NoMemory),
        Err(fault) => Reply::refused(alloc, &Refusal::Choice(fault)),
    }
}

/// The reply to a document with a plan: the wires of the plan that its choice of the options makes
/// live, which are those of its project after its entries; or why the choice makes none so.
pub fn variant_reply(alloc: Global, document: Document) -> Result<Reply, NoMemory>
    requires plan { IsTrue (is_some document.plan) }
    ensures { IfOk result (λ reply. (rules : Items Asked)
        → IsReplyTo rules jobs.Extract document reply) }
{
    let Document {
        project,
        entries,
        choice,
        plan,
        ..
    } = document;
    let plan = plan.unwrap();
    let mut session = Session::new(alloc, project);
    make_all(&mut session, entries.as_slice())?;
    named_reply(alloc, session.project(), &plan, choice.as_slice())
}
