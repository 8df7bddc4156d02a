ghost use Rattle.std.specs.Prelude.{◌≡◌};
ghost use Rattle.loom_edits.specs.declared.edit.Edit.TheVariants as edits;
ghost use Rattle.loom_edits.specs.declared.part.Part.TheVariants as parts;
ghost use Rattle.loom_edits.specs.Edits.{changed, Gives};
ghost use Rattle.loom_edits.specs.Parts.{part_of};

use crate::copy::copied_terminals;
use crate::elements::with_class;
use crate::places::net_at;
use crate::{Edit, EditFault};
use loom_base::Name;
use loom_project::{Draft, NetDraft};
use std::alloc::Global;

/// The draft with a net more.
#[tactic(auto, unfolding(crate::specs::Edits::changed))]
fn add_net(alloc: Global, draft: &Draft, net: NetDraft) -> Result<Draft, EditFault>
    ensures { Gives result (changed draft.now (edits.AddNet net.name net.class net.terminals)) }
{
    let mut draft = draft.copy(alloc)?;
    draft.nets.push(net)?;
    Ok(draft)
}

/// The draft without a net.
#[tactic(auto, unfolding(crate::specs::Edits::changed))]
fn remove_net(alloc: Global, draft: &Draft, name: Name) -> Result<Draft, EditFault>
    ensures { Gives result (changed draft.now (edits.RemoveNet name)) }
{
    let at = net_at(draft, name)?;
    let mut draft = draft.copy(alloc)?;
    let _ = draft.nets.remove(at);
    Ok(draft)
}

/// The draft with another class of a net.
#[tactic(auto, unfolding(crate::specs::Edits::changed))]
fn set_class(alloc: Global, draft: &Draft, name: Name, class: Name) -> Result<Draft, EditFault>
    ensures { Gives result (changed draft.now (edits.SetClass name class)) }
{
    let at = net_at(draft, name)?;
    let mut draft = draft.copy(alloc)?;
    draft.nets = with_class(draft.nets, at, class);
    Ok(draft)
}

/// The draft as an edit changes its nets.
pub fn change_nets(alloc: Global, draft: &Draft, edit: &Edit) -> Result<Draft, EditFault>
    requires { part_of edit.now ≡ parts.Nets }
    ensures { Gives result (changed draft.now edit.now) }
{
    match edit {
        Edit::AddNet {
            name,
            class,
            terminals,
        } => {
            let net = NetDraft {
                name: *name,
                class: *class,
                terminals: copied_terminals(alloc, terminals.as_slice())?,
            };
            add_net(alloc, draft, net)
        }
        Edit::RemoveNet { name } => remove_net(alloc, draft, *name),
        Edit::SetClass { name, class } => set_class(alloc, draft, *name, *class),
        _ => unreachable!(),
    }
}
