ghost use Rattle.std.specs.Prelude.{◌≡◌, ◌≤◌, ◌++◌, ◌∷◌, [], Some, Ok, length, take, IsOk, IsSome, IfOk, OnOk, OnErr};
ghost use Rattle.loom_project.specs.Sound.{draft_check};
ghost use Rattle.loom_edits.specs.Edits.{edited as edited_of};
ghost use Rattle.loom_undo.specs.Inverse.{inverse_of, taken_back};

use crate::Inverse;
use crate::finding::found_inverse;
use crate::history::Kept;
use crate::numbers::number_set_back;
use crate::taking_back::made_back;
use loom_base::{List, NoMemory};
use loom_edits::{Edit, EditFault, apply};
use loom_project::{Project, ProjectFault};
use std::alloc::Global;

/// An edit that the project allows, with what takes it back.
pub fn step_of(alloc: Global, project: &Project, edit: &Edit) -> Result<Kept, NoMemory>
    requires { IsSome (inverse_of project.now edit.now) }
    ensures sound { draft_check project.now ≡ Ok tt }
    ensures edit { IfOk result (λ step. step.edit ≡ edit.now) }
    ensures inverse { IfOk result (λ step. inverse_of project.now edit.now ≡ Some step.inverse) }
{
    let _draft = project.draft();
    let Some(inverse) = found_inverse(alloc, project, edit)? else {
        unreachable!()
    };
    let edit = edit.copy(alloc)?;
    Ok(Kept { edit, inverse })
}

/// Keeps a step behind those that stand, and forgets the others. After want of memory all are as
/// before.
pub fn keep(kept: &mut List<Kept>, standing: usize, step: Kept) -> Result<(), NoMemory>
    requires { standing ≤ length kept.old }
    ensures kept { OnOk result (kept.new ≡ take standing kept.old ++ step ∷ []) }
    ensures refused { OnErr result (kept.new ≡ kept.old) }
{
    if standing == kept.len() {
        return kept.push(step);
    }
    kept.set(standing, step);
    kept.truncate(standing + 1);
    Ok(())
}

/// Takes an edit back by its inverse, which makes a sound project. After want of memory the project
/// is unchanged.
pub fn take_back(alloc: Global, project: &mut Project, inverse: &Inverse) -> Result<(), NoMemory>
    requires { draft_check (taken_back inverse.now project.old) ≡ Ok tt }
    ensures taken { OnOk result (project.new ≡ taken_back inverse.now project.old) }
    ensures refused { OnErr result (project.new ≡ project.old) }
{
    if let Some(change) = number_set_back(project.draft(), inverse) {
        project.set_number(change);
        return Ok(());
    }
    let draft = made_back(alloc, inverse, project.draft().copy(alloc)?)?;
    match project.replace(draft) {
        Ok(()) => Ok(()),
        Err(ProjectFault::NoMemory) => Err(NoMemory),
        Err(_) => unreachable!(),
    }
}

/// Makes an edit that the project allows. After want of memory the project is unchanged.
pub fn make_again(alloc: Global, project: &mut Project, edit: &Edit) -> Result<(), NoMemory>
    requires { IsOk (edited_of project.old edit.now) }
    ensures made { OnOk result (edited_of project.old edit.now ≡ Ok project.new) }
    ensures refused { OnErr result (project.new ≡ project.old) }
{
    match apply(alloc, project, edit) {
        Ok(()) => Ok(()),
        Err(EditFault::NoMemory) => Err(NoMemory),
        Err(_) => unreachable!(),
    }
}
