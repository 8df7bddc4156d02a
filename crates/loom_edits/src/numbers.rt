ghost use Rattle.std.specs.Prelude.{◌≡◌, ◌≢◌, Err};
ghost use Rattle.loom_project.specs.declared.fault.ProjectFault.TheVariants as failures;
ghost use Rattle.loom_edits.specs.declared.edit.Edit.TheVariants as edits;
ghost use Rattle.loom_edits.specs.Numbers.{IsNumberOf};

use crate::places::{node_at, segment_at};
use crate::segments::{on_coupler, on_run};
use crate::{Edit, EditFault};
use loom_base::{Branch, Name, NodeNo, Price, SegmentNo};
use loom_project::{NumberChange, Project};

/// The length that a run gets.
#[tactic(auto, unfolding(crate::specs::Edits::changed))]
fn length_set(
    project: &Project,
    name: Name,
    length: Price,
) -> Result<Option<NumberChange>, EditFault>
    ensures { IsNumberOf project.now (edits.SetLength name length) result }
{
    let draft = project.draft();
    let at = segment_at(draft, name)?;
    match on_run(draft, name, at) {
        Ok(()) => Ok(Some(NumberChange::Price {
            segment: SegmentNo(at as u32),
            price: length,
        })),
        Err(fault) => Err(fault),
    }
}

/// The price that a coupler gets.
#[tactic(auto, unfolding(crate::specs::Edits::changed))]
fn price_set(project: &Project, name: Name, price: Price) -> Result<Option<NumberChange>, EditFault>
    ensures { IsNumberOf project.now (edits.SetPrice name price) result }
{
    let draft = project.draft();
    let at = segment_at(draft, name)?;
    match on_coupler(draft, name, at) {
        Ok(()) => Ok(Some(NumberChange::Price {
            segment: SegmentNo(at as u32),
            price,
        })),
        Err(fault) => Err(fault),
    }
}

/// The branch cost that a node gets.
#[tactic(auto, unfolding(crate::specs::Edits::changed))]
fn branch_set(
    project: &Project,
    name: Name,
    branch: Branch,
) -> Result<Option<NumberChange>, EditFault>
    ensures { IsNumberOf project.now (edits.SetBranch name branch) result }
{
    match node_at(project.draft(), name) {
        Ok(at) => Ok(Some(NumberChange::Branch {
            node: NodeNo(at as u32),
            branch,
        })),
        Err(fault) => Err(fault),
    }
}

/// The number that an edit of the project sets and nothing else with it, or the cause why the edit
/// is refused; None for edits of other kinds.
pub fn number_set(project: &Project, edit: &Edit) -> Result<Option<NumberChange>, EditFault>
    ensures number { IsNumberOf project.now edit.now result }
    ensures memory { result ≢ Err (EditFault.Project failures.NoMemory) }
{
    match edit {
        Edit::SetLength { name, length } => length_set(project, *name, *length),
        Edit::SetPrice { name, price } => price_set(project, *name, *price),
        Edit::SetBranch { name, branch } => branch_set(project, *name, *branch),
        _ => Ok(None),
    }
}
