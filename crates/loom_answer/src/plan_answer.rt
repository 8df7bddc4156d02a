ghost use Rattle.std.specs.Prelude.{◌≡◌, ◌==◌, false, IfOk};
ghost use Rattle.serde_json.specs.View.{view};
ghost use Rattle.serde_json.specs.Written.{has_float};
ghost use Rattle.loom_answer.specs.Answer.{answer_of};
ghost use Rattle.loom_answer.specs.Projects.{project_shown};

use crate::Outcome;
use crate::outcome_answer::OutcomeShown;
use crate::plans::PlanShown;
use crate::projects::ProjectShown;
use crate::reports::ReportShown;
use crate::values::whole;
use loom_base::NoMemory;
use loom_json::shown::{Shown, array, with};
use loom_project::{Draft, Project};
use loom_rules::Report;
use loom_types::Plan;
use serde_json::{Map, Value};
use std::alloc::Global;

/// The value of a project, in the forms of its document's version.
fn project_value(alloc: Global, version: u8, draft: &Draft) -> Result<Value, NoMemory>
    ensures { IfOk result (λ value. view value ≡ project_shown (version == 2) draft.now) }
{
    if version == 2 {
        ProjectShown::<true>::value(alloc, draft)
    } else {
        ProjectShown::<false>::value(alloc, draft)
    }
}

/// The answer as a value.
fn answer_value(
    alloc: Global,
    version: u8,
    outcomes: &[Outcome],
    plan: &Plan,
    project: &Project,
    reports: &[Report],
) -> Result<Value, NoMemory>
    ensures { IfOk result (λ value. view value
        ≡ answer_of version outcomes.now plan.now project.now reports.now) }
{
    let outcomes = array::<OutcomeShown>(alloc, outcomes)?;
    let plan = PlanShown::value(alloc, plan)?;
    let project = project_value(alloc, version, project.draft())?;
    let reports = array::<ReportShown>(alloc, reports)?;
    let members = with(alloc, Map::new(alloc), "outcomes", outcomes)?;
    let members = with(alloc, members, "plan", plan)?;
    let members = with(alloc, members, "project", project)?;
    let members = with(alloc, members, "reports", reports)?;
    let members = with(alloc, members, "version", whole(u64::from(version)))?;
    Ok(Value::Object(members))
}

/// The value of the line that answers `plan` (`answer_of`): what became of each edit, the plan, the
/// project that it is for and the reports of design rules, for a document of the version. A project
/// of version 2 is printed with the classes of its nets, its bars and its reserved pins, one of any
/// other version without them. No number is a float. The one error is want of memory.
pub fn answer(
    alloc: Global,
    version: u8,
    outcomes: &[Outcome],
    plan: &Plan,
    project: &Project,
    reports: &[Report],
) -> Result<Value, NoMemory>
    ensures value { IfOk result (λ value. view value
        ≡ answer_of version outcomes.now plan.now project.now reports.now) }
    ensures plain { IfOk result (λ value. has_float (view value) ≡ false) }
{
    answer_value(alloc, version, outcomes, plan, project, reports)
}
