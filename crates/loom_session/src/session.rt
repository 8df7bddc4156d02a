ghost use Rattle.std.specs.Prelude.{◌≡◌, ◌≢◌, ◌≤◌, [], length, None, Err, IfOk, IfErr, OnOk, OnErr, IsErrOf};
ghost use Rattle.loom_project.specs.declared.fault.ProjectFault.TheVariants as failures;
ghost use Rattle.loom_undo.specs.Changes.{after_edit, after_undo, after_redo};
ghost use Rattle.loom_active.specs.RightPlan.{IsRight};
ghost use Rattle.loom_laid.specs.Kept.{KeepsAll, KeepsLiveKeys, RisesByNewKeys};
ghost use Rattle.loom_plan.specs.FirstStop.{FirstStop, HasPlan};
ghost use Rattle.loom_plan.specs.PlanOf.{IsPlanOf};
ghost use Rattle.loom_session.specs.Session.{IsEdited, IsUndone, IsRedone};

use crate::forgetting::{forget_where, forgets};
use loom_edits::{Edit, EditFault};
use loom_laid::{Kept, kept_stays_true};
use loom_plan::plan_kept;
use loom_project::Project;
use loom_steiner::{DirectFiller, Filler};
use loom_types::{Plan, PlanStop};
use loom_undo::{History, UndoStop};
use std::alloc::Global;
use std::marker::Model;

/// A project that is edited and planned again. Tables and layouts are kept from plan to plan, as
/// long as no edit changes what they rest on. Contracts see a `SessionView`.
#[derive(Drop)]
pub struct Session {
    alloc: Global,
    history: History,
    kept: Kept,
    filler: DirectFiller,
}

impl Model for Session {
    ghost use Rattle.std.specs.Coded.{codes};
    ghost use Rattle.loom_formula.specs.contracts.formula.Formula as formula;
    ghost use Rattle.loom_types.specs.contracts.layout.Layout as layout;
    ghost use Rattle.loom_laid.specs.Kept.{AreTrueOf};
    ghost use Rattle.loom_session.specs.Session.{SessionView};

    ghost Value = { SessionView };

    ghost coded = { Prim.hlevel (codes, formula.the_row.coded, layout.the_row.coded) };

    ghost view = { λ session. record {
      changes = session.history;
      kept = session.kept;
      built = session.filler;
    } };

    ghost invariant = { λ session. AreTrueOf session.history.draft session.kept };
}

impl Session {
    /// A session over a project that has no past; nothing is kept and no table was worked out. It
    /// takes no memory.
    pub fn new(alloc: Global, project: Project) -> Session
        ensures { result ≡ record {
          changes = record { draft = project; past = []; undone = [] };
          kept = [];
          built = 0;
        } }
    {
        Session {
            alloc,
            history: History::new(alloc, project),
            kept: Kept::new(alloc),
            filler: DirectFiller::new(),
        }
    }

    /// The present project. It takes no memory.
    pub fn project(&self) -> &Project
        ensures { result.now ≡ self.now.changes.draft }
    {
        self.history.project()
    }

    /// How many tables were worked out so far. It takes no memory.
    pub fn built(&self) -> u64
        ensures { result ≡ self.now.built }
    {
        self.filler.built()
    }

    /// Changes the present project as `History::edit` does. What is kept is dropped after an edit
    /// that changes what it rests on (`forgets`), and stays after every other. After every refusal
    /// the session is unchanged.
    pub fn edit(&mut self, edit: &Edit) -> Result<(), EditFault>
        ensures applied { OnOk result (IsEdited self.old edit.now self.new) }
        ensures refused { OnErr result (self.new ≡ self.old) }
        ensures cause { IfErr result (λ fault. fault ≢ EditFault.NoMemory
            → after_edit self.old.changes edit.now ≡ Err fault) }
        ensures memory { result ≢ Err (EditFault.Project failures.NoMemory) }
    {
        kept_stays_true();
        match self.history.edit(edit) {
            Ok(()) => {
                forget_where(&mut self.kept, forgets(edit));
                Ok(())
            }
            Err(fault) => Err(fault),
        }
    }

    /// Takes the newest edit back that isn't undone, as `History::undo` does; what is kept goes or
    /// stays as after that edit. After every refusal the session is unchanged.
    pub fn undo(&mut self) -> Result<(), UndoStop>
        ensures undone { OnOk result (IsUndone self.old self.new) }
        ensures refused { OnErr result (self.new ≡ self.old) }
        ensures nothing { IsErrOf result UndoStop.Nothing → after_undo self.old.changes ≡ None }
    {
        let Some(edit) = self.history.newest() else {
            return Err(UndoStop::Nothing);
        };
        kept_stays_true();
        let forgets = forgets(edit);
        self.history.undo()?;
        forget_where(&mut self.kept, forgets);
        Ok(())
    }

    /// Makes the edit again that was undone last, as `History::redo` does; what is kept goes or
    /// stays as after that edit. After every refusal the session is unchanged.
    pub fn redo(&mut self) -> Result<(), UndoStop>
        ensures redone { OnOk result (IsRedone self.old self.new) }
        ensures refused { OnErr result (self.new ≡ self.old) }
        ensures nothing { IsErrOf result UndoStop.Nothing → after_redo self.old.changes ≡ None }
    {
        let Some(edit) = self.history.newest_undone() else {
            return Err(UndoStop::Nothing);
        };
        kept_stays_true();
        let forgets = forgets(edit);
        self.history.redo()?;
        forget_where(&mut self.kept, forgets);
        Ok(())
    }

    /// The plan of the present project, whatever was edited, refused, undone or planned before, as
    /// `loom_plan::plan` gives it; or its first stop. The project stays as it is. Tables and layouts
    /// that are kept serve again: the filler is asked exactly for what is kept now and wasn't
    /// before. After a plan exactly what nets with a live set need is kept; after a stop all that
    /// was, and beside it only such.
    pub fn plan(&mut self) -> Result<Plan, PlanStop>
        ensures plan { IfOk result (IsPlanOf self.old.changes.draft) }
        ensures right { IfOk result (IsRight self.old.changes.draft) }
        ensures few_wires { IfOk result (λ plan. length plan.wires ≤ 65536) }
        ensures has_plan { OnOk result (HasPlan self.old.changes.draft) }
        ensures stop { IfErr result (FirstStop self.old.changes.draft) }
        ensures same { self.new.changes ≡ self.old.changes }
        ensures keeps { OnOk result (KeepsLiveKeys self.old.changes.draft self.new.kept) }
        ensures keeps_all { OnErr result
            (KeepsAll self.old.changes.draft self.old.kept self.new.kept) }
        ensures built { RisesByNewKeys self.old.kept self.new.kept self.old.built self.new.built }
    {
        let project = self.history.project();
        plan_kept(self.alloc, project, &mut self.kept, &mut self.filler)
    }
}
