ghost use Rattle.std.specs.Prelude.{◌≡◌, ℕ, List, ◌<◌, ◌≤◌, length, IfOk};
ghost use Rattle.loom_formula.specs.declared.formula.Formula.{Formula};
ghost use Rattle.loom_edits.specs.declared.edit.Edit.TheVariants as edits;
ghost use Rattle.loom_project.specs.Project.{net_at};
ghost use Rattle.loom_undo.specs.Inverse.{inverse_of};

use crate::Inverse;
use crate::places::{net_place, node_place, segment_place, terminal_place};
use crate::removals::terminals;
use loom_base::{Name, NoMemory};
use loom_project::{Draft, Project};
use loom_topology::Kind;
use std::alloc::Global;

#[tactic(auto, unfolding(crate::specs::Inverse::inverse_of))]
pub fn old_length(draft: &Draft, name: Name) -> Option<Inverse>
    requires { length draft.now.segments ≤ 4096 }
    ensures { (length : ℕ) → result ≡ inverse_of draft.now (edits.SetLength name length) }
{
    let at = segment_place(draft, name)?;
    match draft.segments.as_slice()[at].kind {
        Kind::Run { length } => Some(Inverse::SetLength {
            at: at as u32,
            length,
        }),
        Kind::Coupler { .. } => None,
    }
}

#[tactic(auto, unfolding(crate::specs::Inverse::inverse_of))]
pub fn old_price(draft: &Draft, name: Name) -> Option<Inverse>
    requires { length draft.now.segments ≤ 4096 }
    ensures { (price : ℕ) → result ≡ inverse_of draft.now (edits.SetPrice name price) }
{
    let at = segment_place(draft, name)?;
    match draft.segments.as_slice()[at].kind {
        Kind::Coupler { price, .. } => Some(Inverse::SetPrice {
            at: at as u32,
            price,
        }),
        Kind::Run { .. } => None,
    }
}

#[tactic(auto, unfolding(crate::specs::Inverse::inverse_of))]
pub fn old_pins(draft: &Draft, name: Name) -> Option<Inverse>
    requires { length draft.now.segments ≤ 4096 }
    ensures { (pins : ℕ) → result ≡ inverse_of draft.now (edits.SetPins name pins) }
{
    let at = segment_place(draft, name)?;
    match draft.segments.as_slice()[at].kind {
        Kind::Coupler { pins, .. } => Some(Inverse::SetPins {
            at: at as u32,
            pins,
        }),
        Kind::Run { .. } => None,
    }
}

#[tactic(auto, unfolding(crate::specs::Inverse::inverse_of))]
pub fn old_branch(draft: &Draft, name: Name) -> Option<Inverse>
    requires { length draft.now.nodes ≤ 1024 }
    ensures { (branch : ℕ) → result ≡ inverse_of draft.now (edits.SetBranch name branch) }
{
    let at = node_place(draft, name)?;
    let branch = draft.nodes.as_slice()[at].branch;
    Some(Inverse::SetBranch {
        at: at as u32,
        branch,
    })
}

#[tactic(auto, unfolding(crate::specs::Inverse::inverse_of))]
pub fn old_when(
    alloc: Global,
    project: &Project,
    net: Name,
    cavity: Name,
) -> Result<Option<Inverse>, NoMemory>
    ensures { (when : Formula) → IfOk result (λ found. found
        ≡ inverse_of project.now (edits.SetWhen net cavity when)) }
{
    let Some(net) = net_place(project.draft(), net) else {
        return Ok(None);
    };
    let terminals = terminals(project, net);
    let Some(at) = terminal_place(terminals, cavity) else {
        return Ok(None);
    };
    Ok(Some(Inverse::SetWhen {
        net: net as u32,
        at: at as u32,
        when: terminals[at].when.copy(alloc)?,
    }))
}

#[tactic(auto, unfolding(crate::specs::Inverse::inverse_of))]
pub fn old_class(draft: &Draft, name: Name) -> Option<Inverse>
    requires { length draft.now.nets ≤ 2048 }
    ensures { (class : List ℕ) → result ≡ inverse_of draft.now (edits.SetClass name class) }
{
    let at = net_place(draft, name)?;
    let class = draft.nets.as_slice()[at].class;
    Some(Inverse::SetClass {
        net: at as u32,
        class,
    })
}

#[tactic(auto, unfolding(crate::specs::Inverse::inverse_of))]
pub fn old_bars(alloc: Global, draft: &Draft, name: Name) -> Result<Option<Inverse>, NoMemory>
    requires { length draft.now.segments ≤ 4096 }
    ensures { (bars : List (List ℕ)) → IfOk result (λ found. found
        ≡ inverse_of draft.now (edits.SetBars name bars)) }
{
    let Some(at) = segment_place(draft, name) else {
        return Ok(None);
    };
    let bars = draft.segments.as_slice()[at].bars.copy(alloc)?;
    Ok(Some(Inverse::SetBars {
        at: at as u32,
        bars,
    }))
}

#[tactic(auto, unfolding(crate::specs::Inverse::inverse_of))]
pub fn old_reserved(alloc: Global, draft: &Draft, name: Name) -> Result<Option<Inverse>, NoMemory>
    requires { length draft.now.segments ≤ 4096 }
    ensures { (reserved : List ℕ) → IfOk result (λ found. found
        ≡ inverse_of draft.now (edits.SetReserved name reserved)) }
{
    let Some(at) = segment_place(draft, name) else {
        return Ok(None);
    };
    let reserved = draft.segments.as_slice()[at].reserved.copy(alloc)?;
    Ok(Some(Inverse::SetReserved {
        at: at as u32,
        reserved,
    }))
}
