ghost use Rattle.std.specs.Prelude.{codes};
ghost use Rattle.serde_json.specs.View.{view};
ghost use Rattle.loom_json.specs.Forms.{Gives};
ghost use Rattle.loom_reader.specs.Entries.{bare_form, op_entry, entry_form};

use crate::changes::{addition, named, of_rule, of_terminal, setting};
use crate::op::{Op, OpForm};
use loom_edits::Edit;
use loom_json::ShapeStop;
use loom_json::forms::{self, Form};
use serde_json::Value;
use std::alloc::Global;

/// One element of a document's `edits`.
#[derive(Drop)]
pub enum Entry {
    /// Changes the project.
    Change(Edit),
    /// Asks for the cost of the present plan.
    Price,
    /// Takes back the last change that stands.
    Undo,
    /// Makes the change again that was taken back last.
    Redo,
}

/// An entry that tells nothing but its op.
fn bare(alloc: Global, value: &Value, entry: Entry) -> Result<Entry, ShapeStop>
    ensures { Gives result (bare_form entry (view value.now)) }
{
    forms::keyed(alloc, value, &["op"])?;
    Ok(entry)
}

/// The entry of an op.
fn entry_of(alloc: Global, value: &Value, version: u8, op: Op) -> Result<Entry, ShapeStop>
    ensures { Gives result (op_entry version op (view value.now)) }
{
    match op {
        Op::Price => bare(alloc, value, Entry::Price),
        Op::Undo => bare(alloc, value, Entry::Undo),
        Op::Redo => bare(alloc, value, Entry::Redo),
        Op::Named(op) => Ok(Entry::Change(named(alloc, value, op)?)),
        Op::OfRule(op) => Ok(Entry::Change(of_rule(alloc, value, op)?)),
        Op::Add(op) => Ok(Entry::Change(addition(alloc, value, version, op)?)),
        Op::OfTerminal(op) => Ok(Entry::Change(of_terminal(alloc, value, op)?)),
        Op::Set(op) => Ok(Entry::Change(setting(alloc, value, op)?)),
    }
}

/// An element of `edits`, in the forms of a version.
pub struct EntryForm<const VERSION: u8>;

impl<const VERSION: u8> Form for EntryForm<VERSION> {
    type Out = Entry;

    ghost reads = { entry_form VERSION };

    #[tactic(auto, unfolding(crate::specs::Entries::entry_form))]
    fn read(alloc: Global, value: &Value) -> Result<Entry, ShapeStop> {
        if !value.is_object() {
            return Err(ShapeStop::here(alloc));
        }
        let op = forms::at_key::<OpForm<VERSION>>(alloc, value, "op")?;
        entry_of(alloc, value, VERSION, op)
    }
}
