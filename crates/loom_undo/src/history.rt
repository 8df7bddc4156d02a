ghost use Rattle.std.specs.Prelude.{◌≡◌, ◌≢◌, [], Some, None, Ok, Err, IfErr, OnOk, OnErr, IsErrOf, option_map};
ghost use Rattle.std.specs.Option.{option_copied};
ghost use Rattle.loom_project.specs.declared.fault.ProjectFault.TheVariants as failures;
ghost use Rattle.loom_edits.specs.declared.fault.EditFault.TheVariants as faults;
ghost use Rattle.loom_edits.specs.Numbers.{SetsNumber};
ghost use Rattle.loom_undo.specs.Changes.{after_edit, after_undo, after_redo, newest_inverse, last_of, TakesBack, MakesAgain};

use crate::steps::{keep, make_again, step_of, take_back};
use crate::{Inverse, UndoStop};
use loom_base::{List, NoMemory};
use loom_edits::{Edit, EditFault, edited, number_set};
use loom_project::{NumberChange, Project};
use std::alloc::Global;
use std::marker::Model;

/// An applied edit, and what takes it back.
#[derive(Drop)]
pub(crate) struct Kept {
    pub(crate) edit: Edit,
    pub(crate) inverse: Inverse,
}

/// A project with the edits that led to it and those that were undone. Contracts see the present
/// draft, the past changes and the undone ones (`Changes`).
#[derive(Drop)]
pub struct History {
    alloc: Global,
    project: Project,
    kept: List<Kept>,
    standing: usize,
}

impl Model for History {
    ghost use Rattle.loom_undo.specs.Changes.{Changes};
    ghost use Rattle.loom_undo.specs.HistoryInside.{IsHistory, changes_of};

    ghost Value = { Changes };

    ghost use Rattle.std.specs.Coded.{codes};
    ghost use Rattle.loom_formula.specs.contracts.formula.Formula as formula;

    ghost coded = { Prim.hlevel (codes, formula.the_row.coded) };

    ghost view = { λ history. changes_of history.kept history.standing history.project };

    ghost invariant = { λ history. IsHistory history.kept history.standing history.project };
}

impl History {
    /// A project that has no past, and of which nothing was undone. It takes no memory.
    pub fn new(alloc: Global, project: Project) -> History
        ensures { result ≡ record { draft = project; past = []; undone = [] } }
    {
        History {
            alloc,
            project,
            kept: List::new(alloc),
            standing: 0,
        }
    }

    /// The present project. It takes no memory.
    pub fn project(&self) -> &Project
        ensures { result.now ≡ self.now.draft }
    {
        &self.project
    }

    /// Changes the present project as `loom_edits::apply` does. The edit is the newest from now on,
    /// and what was undone is forgotten. After every refusal the history is unchanged.
    pub fn edit(&mut self, edit: &Edit) -> Result<(), EditFault>
        ensures applied { OnOk result (after_edit self.old edit.now ≡ Ok self.new) }
        ensures refused { OnErr result (self.new ≡ self.old) }
        ensures cause { IfErr result (λ fault. fault ≢ faults.NoMemory
            → after_edit self.old edit.now ≡ Err fault) }
        ensures memory { result ≢ Err (EditFault.Project failures.NoMemory) }
    {
        match number_set(&self.project, edit) {
            Ok(Some(change)) => {
                self.set_number(edit, change)?;
                Ok(())
            }
            Ok(None) => self.edit_anew(edit),
            Err(fault) => Err(fault),
        }
    }

    /// Sets the number that is all that an edit changes.
    fn set_number(&mut self, edit: &Edit, change: NumberChange) -> Result<(), NoMemory>
        requires { SetsNumber self.old.draft edit.now change }
        ensures applied { OnOk result (after_edit self.old edit.now ≡ Ok self.new) }
        ensures refused { OnErr result (self.new ≡ self.old) }
    {
        let setting = step_of(self.alloc, &self.project, edit)?;
        keep(&mut self.kept, self.standing, setting)?;
        self.standing = self.kept.len();
        self.project.set_number(change);
        Ok(())
    }

    /// Changes the project by way of another one, which is checked.
    fn edit_anew(&mut self, edit: &Edit) -> Result<(), EditFault>
        ensures applied { OnOk result (after_edit self.old edit.now ≡ Ok self.new) }
        ensures refused { OnErr result (self.new ≡ self.old) }
        ensures cause { IfErr result (λ fault. fault ≢ faults.NoMemory
            → after_edit self.old edit.now ≡ Err fault) }
        ensures memory { result ≢ Err (EditFault.Project failures.NoMemory) }
    {
        let project = edited(self.alloc, &self.project, edit)?;
        let step = step_of(self.alloc, &self.project, edit)?;
        keep(&mut self.kept, self.standing, step)?;
        self.standing = self.kept.len();
        self.project = project;
        Ok(())
    }

    /// Takes the newest edit back that isn't undone. After every refusal the history is unchanged.
    pub fn undo(&mut self) -> Result<(), UndoStop>
        ensures undone { OnOk result (after_undo self.old ≡ Some self.new) }
        ensures refused { OnErr result (self.new ≡ self.old) }
        ensures nothing { IsErrOf result UndoStop.Nothing → after_undo self.old ≡ None }
        ensures leads { OnOk result (TakesBack self.old self.new) }
    {
        let Some(standing) = self.standing.checked_sub(1) else {
            return Err(UndoStop::Nothing);
        };
        let step = &self.kept.as_slice()[standing];
        take_back(self.alloc, &mut self.project, &step.inverse)?;
        self.standing = standing;
        Ok(())
    }

    /// Makes the edit again that was undone last. After every refusal the history is unchanged.
    pub fn redo(&mut self) -> Result<(), UndoStop>
        ensures redone { OnOk result (after_redo self.old ≡ Some self.new) }
        ensures refused { OnErr result (self.new ≡ self.old) }
        ensures nothing { IsErrOf result UndoStop.Nothing → after_redo self.old ≡ None }
        ensures leads { OnOk result (MakesAgain self.old self.new) }
    {
        let standing = self.standing;
        if standing == self.kept.len() {
            return Err(UndoStop::Nothing);
        }
        let step = &self.kept.as_slice()[standing];
        make_again(self.alloc, &mut self.project, &step.edit)?;
        self.standing = standing + 1;
        Ok(())
    }

    /// The newest edit that isn't undone, which `undo` takes back; None where there is none. It
    /// takes no memory.
    pub fn newest(&self) -> Option<&Edit>
        ensures { option_copied result ≡ option_map (λ change. change.edit)
            (last_of self.now.past) }
    {
        let at = self.standing.checked_sub(1)?;
        Some(&self.kept.as_slice()[at].edit)
    }

    /// The edit that was undone last, which `redo` makes again; None where there is none. It takes
    /// no memory.
    pub fn newest_undone(&self) -> Option<&Edit>
        ensures { option_copied result ≡ option_map (λ change. change.edit)
            (last_of self.now.undone) }
    {
        let step = self.kept.get(self.standing)?;
        Some(&step.edit)
    }

    /// What takes the newest edit back that isn't undone; None where there is none. It takes no
    /// memory.
    pub fn last(&self) -> Option<&Inverse>
        ensures { option_copied result ≡ newest_inverse self.now }
    {
        let at = self.standing.checked_sub(1)?;
        Some(&self.kept.as_slice()[at].inverse)
    }
}
