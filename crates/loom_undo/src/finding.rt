ghost use Rattle.std.specs.Prelude.{◌≡◌, Some, Ok, IfOk};
ghost use Rattle.loom_undo.specs.Inverse.{inverse_of};

use crate::old_values::{
    old_bars, old_branch, old_class, old_length, old_pins, old_price, old_reserved, old_when,
};
use crate::removals::{
    added_terminal, removed_cavity, removed_net, removed_node, removed_option, removed_rule,
    removed_segment, removed_terminal,
};
use crate::{Inverse, ListName};
use loom_base::NoMemory;
use loom_edits::Edit;
use loom_project::Project;
use std::alloc::Global;

/// What drops the last thing of a list again.
fn dropping(list: ListName) -> Result<Option<Inverse>, NoMemory>
    ensures { result ≡ Ok (Some (Inverse.DropLast list)) }
{
    Ok(Some(Inverse::DropLast(list)))
}

/// What takes an edit of the project back; None where the edit can't be made.
#[tactic(auto, unfolding(crate::specs::Inverse::inverse_of))]
pub fn found_inverse(
    alloc: Global,
    project: &Project,
    edit: &Edit,
) -> Result<Option<Inverse>, NoMemory>
    ensures { IfOk result (λ found. found ≡ inverse_of project.now edit.now) }
{
    let draft = project.draft();
    match edit {
        Edit::AddOption { .. } => dropping(ListName::Options),
        Edit::RemoveOption { name } => Ok(removed_option(draft, *name)),
        Edit::AddRule { .. } => dropping(ListName::Rules),
        Edit::RemoveRule { number } => removed_rule(alloc, draft, *number),
        Edit::AddNode { .. } => dropping(ListName::Nodes),
        Edit::RemoveNode { name } => Ok(removed_node(draft, *name)),
        Edit::AddRun { .. } | Edit::AddCoupler { .. } => dropping(ListName::Segments),
        Edit::RemoveSegment { name } => removed_segment(alloc, draft, *name),
        Edit::AddCavity { .. } => dropping(ListName::Cavities),
        Edit::RemoveCavity { name } => Ok(removed_cavity(draft, *name)),
        Edit::AddNet { .. } => dropping(ListName::Nets),
        Edit::RemoveNet { name } => removed_net(alloc, draft, *name),
        Edit::AddTerminal { net, .. } => Ok(added_terminal(draft, *net)),
        Edit::RemoveTerminal { net, cavity } => removed_terminal(alloc, project, *net, *cavity),
        Edit::SetLength { name, .. } => Ok(old_length(draft, *name)),
        Edit::SetPrice { name, .. } => Ok(old_price(draft, *name)),
        Edit::SetPins { name, .. } => Ok(old_pins(draft, *name)),
        Edit::SetBranch { name, .. } => Ok(old_branch(draft, *name)),
        Edit::SetWhen { net, cavity, .. } => old_when(alloc, project, *net, *cavity),
        Edit::SetClass { name, .. } => Ok(old_class(draft, *name)),
        Edit::SetBars { name, .. } => old_bars(alloc, draft, *name),
        Edit::SetReserved { name, .. } => old_reserved(alloc, draft, *name),
    }
}
