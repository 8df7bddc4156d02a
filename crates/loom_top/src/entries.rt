//! The entries of a document's edits, made one after another, and what becomes of each.
ghost use Rattle.std.specs.Prelude.{◌≡◌, IfOk, OnOk};
ghost use Rattle.loom_reader.specs.declared.entry.Entry.TheVariants as entries;
ghost use Rattle.loom_top.specs.Entries.{after_entry, after_entries, IsOutcome, AreOutcomes};

use crate::price::price_of;
use crate::stop_names::named_stop;
use loom_answer::Outcome;
use loom_base::{List, NoMemory};
use loom_edits::{Edit, EditFault};
use loom_reader::Entry;
use loom_session::Session;
use loom_undo::UndoStop;
use std::alloc::Global;

/// Makes an edit, which is applied or refused.
fn changed(session: &mut Session, edit: &Edit) -> Result<Outcome, NoMemory>
    ensures outcome { IfOk result (IsOutcome session.old.changes (entries.Change edit.now)) }
    ensures changes { OnOk result (session.new.changes
        ≡ after_entry session.old.changes (entries.Change edit.now)) }
{
    match session.edit(edit) {
        Ok(()) => Ok(Outcome::Applied),
        Err(EditFault::NoMemory) => Err(NoMemory),
        Err(fault) => Ok(Outcome::Fault(fault)),
    }
}

/// The price of the present project's plan, or the first stop by its names.
fn priced(alloc: Global, session: &mut Session) -> Result<Outcome, NoMemory>
    ensures outcome { IfOk result (IsOutcome session.old.changes entries.Price) }
    ensures changes { session.new.changes ≡ session.old.changes }
{
    match session.plan() {
        Ok(plan) => Ok(price_of(session.project(), &plan)),
        Err(stop) => Ok(Outcome::Stop(named_stop(alloc, session.project(), &stop)?)),
    }
}

/// Takes the newest edit back, if there is one.
fn undone(session: &mut Session) -> Result<Outcome, NoMemory>
    ensures outcome { IfOk result (IsOutcome session.old.changes entries.Undo) }
    ensures changes { OnOk result (session.new.changes
        ≡ after_entry session.old.changes entries.Undo) }
{
    match session.undo() {
        Ok(()) => Ok(Outcome::Applied),
        Err(UndoStop::Nothing) => Ok(Outcome::NothingToUndo),
        Err(UndoStop::NoMemory) => Err(NoMemory),
    }
}

/// Makes the edit again that was undone last, if there is one.
fn redone(session: &mut Session) -> Result<Outcome, NoMemory>
    ensures outcome { IfOk result (IsOutcome session.old.changes entries.Redo) }
    ensures changes { OnOk result (session.new.changes
        ≡ after_entry session.old.changes entries.Redo) }
{
    match session.redo() {
        Ok(()) => Ok(Outcome::Applied),
        Err(UndoStop::Nothing) => Ok(Outcome::NothingToRedo),
        Err(UndoStop::NoMemory) => Err(NoMemory),
    }
}

/// What becomes of an entry.
fn answered(alloc: Global, session: &mut Session, entry: &Entry) -> Result<Outcome, NoMemory>
    ensures outcome { IfOk result (IsOutcome session.old.changes entry.now) }
    ensures changes { OnOk result (session.new.changes
        ≡ after_entry session.old.changes entry.now) }
{
    match entry {
        Entry::Change(edit) => changed(session, edit),
        Entry::Price => priced(alloc, session),
        Entry::Undo => undone(session),
        Entry::Redo => redone(session),
    }
}

/// What becomes of entries, which are made in order.
pub fn outcomes_of(
    alloc: Global,
    session: &mut Session,
    entries: &[Entry],
) -> Result<List<Outcome>, NoMemory>
    ensures outcomes { IfOk result (AreOutcomes session.old.changes entries.now) }
    ensures changes { OnOk result (session.new.changes
        ≡ after_entries session.old.changes entries.now) }
{
    let mut outcomes = List::new(alloc);
    for entry in entries {
        outcomes.push(answered(alloc, session, entry)?)?;
    }
    Ok(outcomes)
}

/// Makes an entry, where nobody asks what becomes of it.
fn make(session: &mut Session, entry: &Entry) -> Result<(), NoMemory>
    ensures { OnOk result (session.new.changes ≡ after_entry session.old.changes entry.now) }
{
    match entry {
        Entry::Change(edit) => {
            changed(session, edit)?;
            Ok(())
        }
        Entry::Price => Ok(()),
        Entry::Undo => {
            undone(session)?;
            Ok(())
        }
        Entry::Redo => {
            redone(session)?;
            Ok(())
        }
    }
}

/// Makes entries in order, where nobody asks what becomes of them. Nothing is planned.
pub fn make_all(session: &mut Session, entries: &[Entry]) -> Result<(), NoMemory>
    ensures { OnOk result (session.new.changes ≡ after_entries session.old.changes entries.now) }
{
    for entry in entries {
        make(session, entry)?;
    }
    Ok(())
}
