ghost use Rattle.std.specs.Prelude.{◌≡◌, ◌≢◌, Ok, Err, IfErr, OnOk, OnErr};
ghost use Rattle.loom_project.specs.declared.fault.ProjectFault.TheVariants as failures;
ghost use Rattle.loom_edits.specs.Edits.{changed as changed_of, if_sound, edited as edited_of, Gives};

use crate::nets::change_nets;
use crate::nodes::change_places;
use crate::numbers::number_set;
use crate::options::change_options;
use crate::part::Part;
use crate::segments::{change_new_segments, change_segments};
use crate::terminals::change_terminals;
use crate::{Edit, EditFault};
use loom_project::{Draft, Project, ProjectFault};
use std::alloc::Global;

/// The draft as an edit changes it, or why it can't.
fn changed(alloc: Global, draft: &Draft, edit: &Edit) -> Result<Draft, EditFault>
    ensures { Gives result (changed_of draft.now edit.now) }
{
    match edit.part() {
        Part::Options => change_options(alloc, draft, edit),
        Part::Places => change_places(alloc, draft, edit),
        Part::NewSegments => change_new_segments(alloc, draft, edit),
        Part::Segments => change_segments(alloc, draft, edit),
        Part::Nets => change_nets(alloc, draft, edit),
        Part::Terminals => change_terminals(alloc, draft, edit),
    }
}

/// The project of a changed draft, if it is sound.
fn checked(alloc: Global, draft: Draft) -> Result<Project, EditFault>
    ensures gives { Gives result (if_sound draft) }
    ensures memory { result ≢ Err (EditFault.Project failures.NoMemory) }
{
    match Project::check(alloc, draft) {
        Ok(project) => Ok(project),
        Err(ProjectFault::NoMemory) => Err(EditFault::NoMemory),
        Err(fault) => Err(EditFault::Project(fault)),
    }
}

/// The project as an edit changes it, or the first cause why it is refused (`edited`).
#[tactic(auto, unfolding(crate::specs::Edits::edited))]
pub fn edited(alloc: Global, project: &Project, edit: &Edit) -> Result<Project, EditFault>
    ensures gives { Gives result (edited_of project.now edit.now) }
    ensures memory { result ≢ Err (EditFault.Project failures.NoMemory) }
{
    let draft = changed(alloc, project.draft(), edit)?;
    checked(alloc, draft)
}

/// Changes the project as an edit says, or answers the first cause why it is refused (`edited`).
/// After every refusal the project is unchanged. A length, a price and a branch cost are set in
/// place; after another edit the whole project is checked anew.
pub fn apply(alloc: Global, project: &mut Project, edit: &Edit) -> Result<(), EditFault>
    ensures applied { OnOk result (edited_of project.old edit.now ≡ Ok project.new) }
    ensures refused { OnErr result (project.new ≡ project.old) }
    ensures cause { IfErr result (λ fault. fault ≢ EditFault.NoMemory
        → edited_of project.old edit.now ≡ Err fault) }
    ensures memory { result ≢ Err (EditFault.Project failures.NoMemory) }
{
    if let Some(change) = number_set(project, edit)? {
        project.set_number(change);
        return Ok(());
    }
    *project = edited(alloc, project, edit)?;
    Ok(())
}
