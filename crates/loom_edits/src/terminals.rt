ghost use Rattle.std.specs.Prelude.{◌≡◌};
ghost use Rattle.loom_edits.specs.declared.edit.Edit.TheVariants as edits;
ghost use Rattle.loom_edits.specs.declared.part.Part.TheVariants as parts;
ghost use Rattle.loom_edits.specs.Edits.{changed, Gives};
ghost use Rattle.loom_edits.specs.Parts.{part_of};

use crate::elements::{with_terminal, with_when, without_terminal};
use crate::places::{net_at, terminal_at};
use crate::{Edit, EditFault};
use loom_base::Name;
use loom_formula::Formula;
use loom_project::{Draft, TerminalDraft};
use std::alloc::Global;

/// The draft with a terminal more in a net.
#[tactic(auto, unfolding(crate::specs::Edits::changed))]
fn add_terminal(
    alloc: Global,
    draft: &Draft,
    net: Name,
    terminal: TerminalDraft,
) -> Result<Draft, EditFault>
    ensures { Gives result (changed draft.now
        (edits.AddTerminal net terminal.cavity terminal.when)) }
{
    let at = net_at(draft, net)?;
    let mut draft = draft.copy(alloc)?;
    draft.nets = with_terminal(draft.nets, at, terminal)?;
    Ok(draft)
}

/// The draft without a terminal of a net.
#[tactic(auto, unfolding(crate::specs::Edits::changed))]
fn remove_terminal(
    alloc: Global,
    draft: &Draft,
    net: Name,
    cavity: Name,
) -> Result<Draft, EditFault>
    ensures { Gives result (changed draft.now (edits.RemoveTerminal net cavity)) }
{
    let at = net_at(draft, net)?;
    let terminal = terminal_at(&draft.nets.as_slice()[at], cavity)?;
    let mut draft = draft.copy(alloc)?;
    draft.nets = without_terminal(draft.nets, at, terminal);
    Ok(draft)
}

/// The draft with another formula of a terminal.
#[tactic(auto, unfolding(crate::specs::Edits::changed))]
fn set_when(
    alloc: Global,
    draft: &Draft,
    net: Name,
    cavity: Name,
    when: Formula,
) -> Result<Draft, EditFault>
    ensures { Gives result (changed draft.now (edits.SetWhen net cavity when)) }
{
    let at = net_at(draft, net)?;
    let terminal = terminal_at(&draft.nets.as_slice()[at], cavity)?;
    let mut draft = draft.copy(alloc)?;
    draft.nets = with_when(draft.nets, at, terminal, when);
    Ok(draft)
}

/// The draft as an edit changes the terminals of a net.
pub fn change_terminals(alloc: Global, draft: &Draft, edit: &Edit) -> Result<Draft, EditFault>
    requires { part_of edit.now ≡ parts.Terminals }
    ensures { Gives result (changed draft.now edit.now) }
{
    match edit {
        Edit::AddTerminal { net, cavity, when } => {
            let terminal = TerminalDraft {
                cavity: *cavity,
                when: when.copy(alloc)?,
            };
            add_terminal(alloc, draft, *net, terminal)
        }
        Edit::RemoveTerminal { net, cavity } => remove_terminal(alloc, draft, *net, *cavity),
        Edit::SetWhen { net, cavity, when } => {
            let when = when.copy(alloc)?;
            set_when(alloc, draft, *net, *cavity, when)
        }
        _ => unreachable!(),
    }
}
