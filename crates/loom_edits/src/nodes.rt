ghost use Rattle.std.specs.Prelude.{◌≡◌};
ghost use Rattle.loom_edits.specs.declared.edit.Edit.TheVariants as edits;
ghost use Rattle.loom_edits.specs.declared.part.Part.TheVariants as parts;
ghost use Rattle.loom_edits.specs.Edits.{changed, Gives};
ghost use Rattle.loom_edits.specs.Parts.{part_of};

use crate::elements::with_branch;
use crate::places::{cavity_at, node_at};
use crate::uses::{is_cavity_used, is_node_used, unused};
use crate::{Edit, EditFault};
use loom_base::{Branch, Name};
use loom_project::{CavityDraft, Draft, NodeDraft, Of};
use std::alloc::Global;

/// The draft with a node more.
#[tactic(auto, unfolding(crate::specs::Edits::changed))]
fn add_node(alloc: Global, draft: &Draft, node: NodeDraft) -> Result<Draft, EditFault>
    ensures { Gives result (changed draft.now (edits.AddNode node.name node.harness node.branch)) }
{
    let mut draft = draft.copy(alloc)?;
    draft.nodes.push(node)?;
    Ok(draft)
}

/// The draft without a node, which no segment and no cavity may name.
#[tactic(auto, unfolding(crate::specs::Edits::changed))]
fn remove_node(alloc: Global, draft: &Draft, name: Name) -> Result<Draft, EditFault>
    ensures { Gives result (changed draft.now (edits.RemoveNode name)) }
{
    let at = node_at(draft, name)?;
    unused(Of::Node, name, is_node_used(draft, name))?;
    let mut draft = draft.copy(alloc)?;
    let _ = draft.nodes.remove(at);
    Ok(draft)
}

/// The draft with another branch cost of a node.
#[tactic(auto, unfolding(crate::specs::Edits::changed))]
fn set_branch(alloc: Global, draft: &Draft, name: Name, branch: Branch) -> Result<Draft, EditFault>
    ensures { Gives result (changed draft.now (edits.SetBranch name branch)) }
{
    let at = node_at(draft, name)?;
    let mut draft = draft.copy(alloc)?;
    draft.nodes = with_branch(draft.nodes, at, branch);
    Ok(draft)
}

/// The draft with a cavity more.
#[tactic(auto, unfolding(crate::specs::Edits::changed))]
fn add_cavity(alloc: Global, draft: &Draft, cavity: CavityDraft) -> Result<Draft, EditFault>
    ensures { Gives result (changed draft.now
        (edits.AddCavity cavity.name cavity.device cavity.node)) }
{
    let mut draft = draft.copy(alloc)?;
    draft.cavities.push(cavity)?;
    Ok(draft)
}

/// The draft without a cavity, which no net may name.
#[tactic(auto, unfolding(crate::specs::Edits::changed))]
fn remove_cavity(alloc: Global, draft: &Draft, name: Name) -> Result<Draft, EditFault>
    ensures { Gives result (changed draft.now (edits.RemoveCavity name)) }
{
    let at = cavity_at(draft, name)?;
    unused(Of::Cavity, name, is_cavity_used(draft, name))?;
    let mut draft = draft.copy(alloc)?;
    let _ = draft.cavities.remove(at);
    Ok(draft)
}

/// The draft as an edit changes its nodes or its cavities.
pub fn change_places(alloc: Global, draft: &Draft, edit: &Edit) -> Result<Draft, EditFault>
    requires { part_of edit.now ≡ parts.Places }
    ensures { Gives result (changed draft.now edit.now) }
{
    match *edit {
        Edit::AddNode {
            name,
            harness,
            branch,
        } => {
            let node = NodeDraft {
                name,
                harness,
                branch,
            };
            add_node(alloc, draft, node)
        }
        Edit::RemoveNode { name } => remove_node(alloc, draft, name),
        Edit::SetBranch { name, branch } => set_branch(alloc, draft, name, branch),
        Edit::AddCavity { name, device, node } => {
            let cavity = CavityDraft { name, device, node };
            add_cavity(alloc, draft, cavity)
        }
        Edit::RemoveCavity { name } => remove_cavity(alloc, draft, name),
        _ => unreachable!(),
    }
}
