ghost use Rattle.std.specs.Prelude.{◌≡◌, ℕ, List, ◌<◌, ◌≤◌, length, IfOk};
ghost use Rattle.loom_formula.specs.declared.formula.Formula.{Formula};
ghost use Rattle.loom_edits.specs.declared.edit.Edit.TheVariants as edits;
ghost use Rattle.loom_project.specs.Project.{net_at};
ghost use Rattle.loom_undo.specs.Inverse.{inverse_of};

use crate::Inverse;
use crate::places::{
    cavity_place, net_place, node_place, option_place, segment_place, terminal_place,
};
use loom_base::{Name, NetNo, NoMemory};
use loom_project::{Draft, Project, TerminalDraft};
use std::alloc::Global;

#[tactic(auto, unfolding(crate::specs::Inverse::inverse_of))]
pub fn removed_option(draft: &Draft, name: Name) -> Option<Inverse>
    requires { length draft.now.options ≤ 512 }
    ensures { result ≡ inverse_of draft.now (edits.RemoveOption name) }
{
    let at = option_place(draft, name)? as u32;
    Some(Inverse::PutOption { at, name })
}

#[tactic(auto, unfolding(crate::specs::Inverse::inverse_of))]
pub fn removed_rule(alloc: Global, draft: &Draft, number: u64) -> Result<Option<Inverse>, NoMemory>
    requires { length draft.now.rules ≤ 1024 }
    ensures { IfOk result (λ found. found ≡ inverse_of draft.now (edits.RemoveRule number)) }
{
    let Some(rule) = draft.rules.get(number as usize) else {
        return Ok(None);
    };
    Ok(Some(Inverse::PutRule {
        at: number as u32,
        when: rule.copy(alloc)?,
    }))
}

#[tactic(auto, unfolding(crate::specs::Inverse::inverse_of))]
pub fn removed_node(draft: &Draft, name: Name) -> Option<Inverse>
    requires { length draft.now.nodes ≤ 1024 }
    ensures { result ≡ inverse_of draft.now (edits.RemoveNode name) }
{
    let at = node_place(draft, name)?;
    let node = draft.nodes.as_slice()[at];
    Some(Inverse::PutNode {
        at: at as u32,
        node,
    })
}

#[tactic(auto, unfolding(crate::specs::Inverse::inverse_of))]
pub fn removed_segment(
    alloc: Global,
    draft: &Draft,
    name: Name,
) -> Result<Option<Inverse>, NoMemory>
    requires { length draft.now.segments ≤ 4096 }
    ensures { IfOk result (λ found. found ≡ inverse_of draft.now (edits.RemoveSegment name)) }
{
    let Some(at) = segment_place(draft, name) else {
        return Ok(None);
    };
    let segment = draft.segments.as_slice()[at].copy(alloc)?;
    Ok(Some(Inverse::PutSegment {
        at: at as u32,
        segment,
    }))
}

#[tactic(auto, unfolding(crate::specs::Inverse::inverse_of))]
pub fn removed_cavity(draft: &Draft, name: Name) -> Option<Inverse>
    requires { length draft.now.cavities ≤ 8192 }
    ensures { result ≡ inverse_of draft.now (edits.RemoveCavity name) }
{
    let at = cavity_place(draft, name)?;
    let cavity = draft.cavities.as_slice()[at];
    Some(Inverse::PutCavity {
        at: at as u32,
        cavity,
    })
}

#[tactic(auto, unfolding(crate::specs::Inverse::inverse_of))]
pub fn removed_net(alloc: Global, draft: &Draft, name: Name) -> Result<Option<Inverse>, NoMemory>
    requires { length draft.now.nets ≤ 2048 }
    ensures { IfOk result (λ found. found ≡ inverse_of draft.now (edits.RemoveNet name)) }
{
    let Some(at) = net_place(draft, name) else {
        return Ok(None);
    };
    let net = draft.nets.as_slice()[at].copy(alloc)?;
    Ok(Some(Inverse::PutNet { at: at as u32, net }))
}

#[tactic(auto, unfolding(crate::specs::Inverse::inverse_of))]
pub fn added_terminal(draft: &Draft, net: Name) -> Option<Inverse>
    requires { length draft.now.nets ≤ 2048 }
    ensures { (cavity : List ℕ) → (when : Formula) → result
        ≡ inverse_of draft.now (edits.AddTerminal net cavity when) }
{
    let at = net_place(draft, net)? as u32;
    Some(Inverse::DropTerminal { net: at })
}

/// The terminals of a net, which are few.
pub fn terminals(project: &Project, net: usize) -> &[TerminalDraft]
    requires { net < length project.now.nets }
    ensures value { result.now ≡ (net_at project.now net).terminals }
    ensures few { length result.now ≤ 12 }
{
    let nets = project.draft().nets.as_slice();
    let _cavities = project.cavities(NetNo(net as u32));
    nets[net].terminals.as_slice()
}

#[tactic(auto, unfolding(crate::specs::Inverse::inverse_of))]
pub fn removed_terminal(
    alloc: Global,
    project: &Project,
    net: Name,
    cavity: Name,
) -> Result<Option<Inverse>, NoMemory>
    ensures { IfOk result (λ found. found
        ≡ inverse_of project.now (edits.RemoveTerminal net cavity)) }
{
    let Some(net) = net_place(project.draft(), net) else {
        return Ok(None);
    };
    let terminals = terminals(project, net);
    let Some(at) = terminal_place(terminals, cavity) else {
        return Ok(None);
    };
    Ok(Some(Inverse::PutTerminal {
        net: net as u32,
        at: at as u32,
        terminal: terminals[at].copy(alloc)?,
    }))
}
